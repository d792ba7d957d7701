//! Why a text is no sheet, and why an offer is not saved.
ghost use Rattle.std.specs.Prelude.{◌≡◌};
ghost use Rattle.sheet.specs.Fault.{number_and_place, save_number_and_place};

/// What is wrong with a text, each with the line at which it is wrong.
#[derive(Clone, Copy, Debug, PartialEq, Eq)]
pub enum SheetFault {
    /// The text breaks the form.
    Form(u32),
    /// A value is out of its range.
    Value(u32),
    /// The offer is marked both observed and short.
    Marks(u32),
    /// Prices fall, or periods do not rise.
    Order(u32),
    /// A block is offered for a part of the month.
    PartMonth(u32),
}

impl SheetFault {
    /// The number of the refusal.
    pub fn number(self) -> u32
        ensures { result ≡ (number_and_place self).0 }
    {
        match self {
            SheetFault::Form(_) => 1,
            SheetFault::Value(_) => 2,
            SheetFault::Marks(_) => 3,
            SheetFault::Order(_) => 4,
            SheetFault::PartMonth(_) => 5,
        }
    }

    /// The line at which the text is wrong.
    pub fn place(self) -> u32
        ensures { result ≡ (number_and_place self).1 }
    {
        match self {
            SheetFault::Form(line)
            | SheetFault::Value(line)
            | SheetFault::Marks(line)
            | SheetFault::Order(line)
            | SheetFault::PartMonth(line) => line,
        }
    }

    /// Number and place of the refusal.
    pub fn number_and_place(self) -> (u32, u32)
        ensures { (result.0, result.1) ≡ number_and_place self }
    {
        (self.number(), self.place())
    }
}

/// Why an offer is not saved.
#[derive(Clone, Copy, Debug, PartialEq, Eq)]
pub enum SaveFault {
    /// The buffer is too short for the sheet.
    Space,
}

impl SaveFault {
    /// Number and place of the refusal.
    pub fn number_and_place(self) -> (u32, u32)
        ensures { (result.0, result.1) ≡ save_number_and_place self }
    {
        match self {
            SaveFault::Space => (13, 0),
        }
    }
}
