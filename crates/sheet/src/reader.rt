//! A text that is read line by line.
ghost use Rattle.std.specs.Prelude.{◌≡◌, IfOk, IfErr, IfSome, None, Some, true, false};
ghost use Rattle.std.specs.Fn.{FnOnceReturnsAt, FnOnceTakesAt};
ghost use Rattle.sheet.specs.declared.fault.SheetFault.TheVariants.{Form};
ghost use Rattle.sheet.specs.Read.{RefusesLine, next_line};
ghost use Rattle.text.specs.Form.{after, keyed};
ghost use Rattle.text.specs.Tokens.{rest_read, value_read};

use crate::fault::SheetFault;
use text::closing_number;

/// What is left of a text, and the number of the line that was read last, as far as lines can be counted.
#[derive(Drop)]
pub(crate) struct Reader<'a> {
    pub(crate) line: u32,
    pub(crate) rest: &'a [u8],
}

impl<'a> Reader<'a> {
    /// What the next line says, as it was read from what is left, and the text goes on after it.
    pub(crate) fn advance<T: Drop>(&mut self, read: Option<(T, &'a [u8])>) -> Result<T, SheetFault>
        ensures counts { self.new.line ≡ next_line self.old.line }
        ensures read { IfOk result (λ said. read.entry ≡ Some (said, self.new.rest)) }
        ensures broken { IfErr result (λ fault. (fault ≡ Form self.new.line) × (read.entry ≡ None)) }
    {
        self.fitting(read, |_| true)
    }

    /// What the next line says, as it was read from what is left, if its values are in their range.
    pub(crate) fn fitting<T: Drop, F: FnOnce(&T) -> bool>(
        &mut self,
        read: Option<(T, &'a [u8])>,
        fits: F,
    ) -> Result<T, SheetFault>
        requires { IfSome read (λ p. FnOnceTakesAt F.FnOnce fits p.0) }
        ensures counts { self.new.line ≡ next_line self.old.line }
        ensures read { IfOk result (λ said. (read.entry ≡ Some (said, self.new.rest)) × FnOnceReturnsAt F.FnOnce fits said true) }
        ensures refused { IfErr result (RefusesLine self.new.line (λ said. FnOnceReturnsAt F.FnOnce fits said false) read.entry) }
    {
        self.line = self.line.saturating_add(1);
        let Some((said, rest)) = read else {
            return Err(SheetFault::Form(self.line));
        };
        self.rest = rest;
        if !fits(&said) {
            return Err(SheetFault::Value(self.line));
        }
        Ok(said)
    }
}

/// What follows a keyword, given with the semicolon that ends its field.
#[tactic(auto, using(crate::proofs::Keyword::after_by_part))]
fn after<'a>(keyword: &[u8], text: &'a [u8]) -> Option<&'a [u8]>
    ensures { rest_read result ≡ after keyword.now text.now }
{
    text.strip_prefix(keyword)
}

/// The number of a line of a keyword, given with its semicolon, and what follows the line.
pub(crate) fn keyed_line<'a>(keyword: &[u8], text: &'a [u8]) -> Option<(u64, &'a [u8])>
    ensures { value_read result ≡ keyed keyword.now text.now }
{
    let value = after(keyword, text)?;
    let (number, rest) = closing_number(value)?;
    Some((number.value, rest))
}
