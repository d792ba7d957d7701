ghost use Rattle.std.specs.Prelude.{◌≡◌};
ghost use Rattle.calendar.specs.Fault as faults;

/// Why no calendar is opened.
#[derive(Clone, Copy, PartialEq, Eq, Debug)]
pub enum CalendarFault {
    /// The year, the month or the holidays are wrong.
    Date,
    /// The month has more periods than a tender can have.
    Weeks,
}

impl CalendarFault {
    /// The refusal's number.
    pub fn number(self) -> u32
        ensures { result ≡ faults.number self }
    {
        match self {
            CalendarFault::Date => 15,
            CalendarFault::Weeks => 16,
        }
    }

    /// The refusal's place: a calendar has none, which is 0.
    pub fn place(self) -> u32
        ensures { result ≡ faults.place self }
    {
        0
    }
}
