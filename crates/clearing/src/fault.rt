//! Why a clearing is refused.
ghost use Rattle.std.specs.Prelude.{◌≡◌};
ghost use Rattle.clearing.specs.Fault.{number_and_place};

/// Why there is no award.
#[derive(Clone, Copy, PartialEq, Eq, Debug)]
pub enum ClearingFault {
    /// The period, as it was given, is not in the month, or its need is too high.
    Period(u64),
    /// A grid has too few cells.
    Space,
    /// In this period nothing is admitted.
    Shortage(u64),
}

impl ClearingFault {
    /// The refusal's number.
    pub fn number(self) -> u32
        ensures { result ≡ (number_and_place self).0 }
    {
        match self {
            ClearingFault::Period(_) => 12,
            ClearingFault::Space => 13,
            ClearingFault::Shortage(_) => 14,
        }
    }

    /// The refusal's place: a period, or 0.
    pub fn place(self) -> u64
        ensures { result ≡ (number_and_place self).1 }
    {
        match self {
            ClearingFault::Period(period) | ClearingFault::Shortage(period) => period,
            ClearingFault::Space => 0,
        }
    }
}
