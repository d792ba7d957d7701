//! How many lines a sheet has.
ghost use Rattle.std.specs.Prelude.{◌≡◌, ◌≤◌, length};
ghost use Rattle.sheet.specs.Facts.{facts};
ghost use Rattle.sheet.specs.Sheet.{lines as lines_of, priced};

use crate::offer::Offer;

/// The lines before the first line of prices.
const LINES_BEFORE_PRICES: u32 = 9;

impl Offer {
    /// How many periods are priced.
    #[tactic(auto, using(crate::proofs::Rows::priced_length))]
    pub(crate) fn priced_count(&self) -> u32
        ensures value { result ≡ length (priced 1 (facts self.now).rows) }
        ensures bound { result ≤ 11 }
    {
        self.rows
            .as_slice()
            .iter()
            .filter(|row| row.is_some())
            .count() as u32
    }

    /// How many lines its sheet has.
    pub fn lines(&self) -> u32
        ensures value { result ≡ lines_of (facts self.now) }
        ensures bound { result ≤ 21 }
    {
        LINES_BEFORE_PRICES + self.priced_count() + u32::from(self.block.is_some())
    }
}
