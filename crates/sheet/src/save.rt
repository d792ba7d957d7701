//! An offer saved as its sheet.
ghost use Rattle.std.specs.Prelude.{◌≡◌, ◌^◌, ◌<◌, ◌≤◌, ◌++◌, map, length, take, drop, decimal};
ghost use Rattle.std.specs.List.{concat};
ghost use Rattle.text.specs.Written.{line_text, price_text};
ghost use Rattle.sheet.specs.Facts.{facts};
ghost use Rattle.sheet.specs.Saved.{block_text, buffer_after, save_answer, saved_lines, shape_text, written};
ghost use Rattle.sheet.specs.Sheet.{priced};
ghost use Rattle.sheet.specs.Writing.{with_lines, with_text, counted, so_far};

use crate::fault::SaveFault;
use crate::offer::Offer;
use crate::writing::{Price, Whole, Writer};

/// No saved sheet has more bytes.
const LONGEST_SHEET: usize = 1_061;

impl Offer {
    /// Puts the first six lines.
    fn put_head(&self, sheet: &mut Writer<'_>)
        ensures puts { so_far sheet.new ≡ with_lines (so_far sheet.old) (take 6 (saved_lines (facts self.now))) }
        ensures short { length (concat (take 6 (saved_lines (facts self.now)))) ≤ 128 }
    {
        sheet.named_line(self.name.as_slice(), self.number);
        sheet.named_line(b"seuil_minimum", self.floor);
        sheet.named_line(b"DMO", self.product.dmo());
        sheet.named_line(b"DOmax", self.product.domax());
        sheet.named_line(b"Obs_Stat", u32::from(self.observed));
        sheet.named_line(b"DOmin", u32::from(self.short));
    }

    /// Puts the line that says how many ranges, periods and blocks there are.
    fn put_shape(&self, sheet: &mut Writer<'_>)
        ensures puts { so_far sheet.new ≡ with_text (so_far sheet.old) (shape_text (facts self.now)) }
        ensures short { length (shape_text (facts self.now)) ≤ 43 }
    {
        sheet.line::<Whole>(&[
            self.widths.len() as u32,
            self.priced_count(),
            u32::from(self.block.is_some()),
        ]);
    }

    /// Puts the line of the priced periods.
    fn put_periods(&self, sheet: &mut Writer<'_>)
        ensures puts { so_far sheet.new ≡ with_text (so_far sheet.old) (line_text (map (λ p. decimal p.0) (priced 1 (facts self.now).rows))) }
        ensures short { length (line_text (map (λ p. decimal p.0) (priced 1 (facts self.now).rows))) ≤ 155 }
    {
        for (period, row) in (1_u32..).zip(self.rows.as_slice()) {
            if row.is_some() {
                sheet.field::<Whole>(period);
            }
        }
        sheet.byte(b'\n');
    }

    /// Puts a line of prices for each priced period.
    fn put_rows(&self, sheet: &mut Writer<'_>)
        ensures puts { so_far sheet.new ≡ with_text (so_far sheet.old) (concat (map (λ p. line_text (map price_text p.1)) (priced 1 (facts self.now).rows))) }
        ensures short { length (concat (map (λ p. line_text (map price_text p.1)) (priced 1 (facts self.now).rows))) ≤ 627 }
    {
        for row in self.rows.as_slice() {
            if let Some(prices) = row {
                sheet.line::<Price>(prices.as_slice());
            }
        }
    }

    /// Puts the block's line, if there is a block.
    fn put_block(&self, sheet: &mut Writer<'_>)
        ensures puts { so_far sheet.new ≡ with_text (so_far sheet.old) (block_text self.now.block) }
        ensures short { length (block_text self.now.block) ≤ 15 }
    {
        if let Some(cents) = self.block {
            sheet.line::<Price>(&[cents]);
        }
    }

    /// Puts all lines.
    fn put_lines(&self, sheet: &mut Writer<'_>)
        ensures lines { so_far sheet.new ≡ with_lines (so_far sheet.old) (saved_lines (facts self.now)) }
        ensures slice { sheet.new.buffer.ghost_name ≡ sheet.old.buffer.ghost_name }
        ensures short { length (written (facts self.now)) ≤ 1061 }
    {
        self.put_head(sheet);
        self.put_shape(sheet);
        sheet.line::<Whole>(self.widths.as_slice());
        self.put_periods(sheet);
        self.put_rows(sheet);
        self.put_block(sheet);
    }

    /// Puts the whole sheet into a buffer, as far as it fits, and tells its length, if that can be counted.
    fn put(&self, buffer: &mut [u8]) -> Option<usize>
        ensures short { length (written (facts self.now)) ≤ 1061 }
        ensures length { result ≡ counted (length (written (facts self.now))) }
        ensures buffer { length (written (facts self.now)) < 2 ^ 64 → length (written (facts self.now)) ≤ length buffer.old → buffer.new ≡ written (facts self.now) ++ drop (length (written (facts self.now))) buffer.old }
    {
        let mut sheet = Writer::new(buffer);
        self.put_lines(&mut sheet);
        sheet.length()
    }

    /// Saves the offer as its sheet from the buffer's start, and tells how many bytes that are. No byte past them is
    /// changed, and none at all where the buffer is too short.
    pub fn save(&self, buffer: &mut [u8]) -> Result<usize, SaveFault>
        ensures answer { result ≡ save_answer (written (facts self.now)) buffer.old }
        ensures buffer { buffer.new ≡ buffer_after (written (facts self.now)) buffer.old }
    {
        let room = buffer.len();
        if room < LONGEST_SHEET {
            self.put(&mut [])
                .filter(|length| *length <= room)
                .ok_or(SaveFault::Space)?;
        }
        self.put(buffer).ok_or(SaveFault::Space)
    }
}
