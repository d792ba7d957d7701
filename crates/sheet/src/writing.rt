//! Text written into a lent buffer, part by part.
ghost use Rattle.std.specs.Prelude.{◌≡◌, ℕ, ◌+◌, ◌*◌, ◌^◌, ◌<◌, ◌≤◌, [], ◌∷◌, ◌++◌, List, map, length, decimal};
ghost use Rattle.sheet.specs.Short.{decimal_short, price_short};
ghost use Rattle.sheet.specs.Writing.{with_text, fresh, so_far};
ghost use Rattle.text.specs.Written.{line_text, price_text};

use itoa::Buffer;

/// Where a text is written. What does not fit is cut off at the buffer's end, but counted all the same: so what writes a
/// text into no room at all measures it.
#[derive(Drop)]
pub(crate) struct Writer<'a> {
    buffer: &'a mut [u8],
    /// How many bytes were written; none once they are more than can be counted.
    length: Option<usize>,
}

impl<'a> Writer<'a> {
    /// Writes from the buffer's start.
    pub(crate) fn new(buffer: &'a mut [u8]) -> Writer<'a>
        ensures { so_far result ≡ fresh buffer.entry }
    {
        Writer {
            buffer,
            length: Some(0),
        }
    }

    /// How many bytes were written; none if they are more than can be counted.
    pub(crate) fn length(&self) -> Option<usize>
        ensures { result ≡ (so_far self.now).length }
    {
        self.length
    }

    /// Puts one byte.
    #[tactic(auto, unfolding(crate::specs::Writing::with_byte))]
    pub(crate) fn byte(&mut self, byte: u8)
        ensures { so_far self.new ≡ with_text (so_far self.old) (byte ∷ []) }
    {
        if let Some(place) = self.length {
            if place < self.buffer.len() {
                self.buffer[place] = byte;
            }
            self.length = place.checked_add(1);
        }
    }

    /// Puts bytes one after another.
    pub(crate) fn bytes(&mut self, bytes: &[u8])
        ensures { so_far self.new ≡ with_text (so_far self.old) bytes.now }
    {
        for byte in bytes {
            self.byte(*byte);
        }
    }

    /// Puts a number in a field of its own.
    pub(crate) fn field<F: Form>(&mut self, number: u32)
        ensures { so_far self.new ≡ with_text (so_far self.old) (F.text number ++ 59 ∷ []) }
    {
        F::put(self, number);
        self.byte(b';');
    }

    /// Puts a line of a word and a number.
    pub(crate) fn named_line(&mut self, word: &[u8], number: u32)
        ensures puts { so_far self.new ≡ with_text (so_far self.old) (line_text (word.now ∷ decimal number ∷ [])) }
        ensures short { length (line_text (word.now ∷ decimal number ∷ [])) ≤ length word.now + 13 }
    {
        self.bytes(word);
        self.byte(b';');
        self.field::<Whole>(number);
        self.byte(b'\n');
    }

    /// Puts a line of numbers.
    pub(crate) fn line<F: Form>(&mut self, numbers: &[u32])
        ensures puts { so_far self.new ≡ with_text (so_far self.old) (line_text (map F.text numbers.now)) }
        ensures short { length (line_text (map F.text numbers.now)) ≤ length numbers.now * 14 + 1 }
    {
        for number in numbers {
            self.field::<F>(*number);
        }
        self.byte(b'\n');
    }
}

/// How a number is written.
pub(crate) trait Form {
    ghost text: { ℕ → List ℕ };

    fn put(writer: &mut Writer<'_>, number: u32)
        ensures { so_far writer.new ≡ with_text (so_far writer.old) (Self.text number) };

    /// No number has a long text.
    ghost short: { (n : ℕ) → n < 2 ^ 32 → length (text n) ≤ 13 };
}

/// By its digits.
pub(crate) struct Whole;

impl Form for Whole {
    ghost text = { decimal };

    ghost short = { decimal_short };

    fn put(writer: &mut Writer<'_>, number: u32) {
        writer.bytes(Buffer::new().format(number).as_bytes());
    }
}

/// As cents: in euros, with a comma and two digits.
pub(crate) struct Price;

impl Form for Price {
    ghost text = { price_text };

    ghost short = { price_short };

    fn put(writer: &mut Writer<'_>, cents: u32) {
        Whole::put(writer, cents / 100);
        writer.byte(b',');
        writer.byte(b'0' + (cents / 10 % 10) as u8);
        writer.byte(b'0' + (cents % 10) as u8);
    }
}
