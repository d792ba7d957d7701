//! The laws of a register, each the promise of a function, so that the check asks for its proof.
ghost use Rattle.std.specs.Prelude.{ℕ, List};
ghost use Rattle.book.specs.Deposit.{DepositEnters, DepositRefuses, DepositBreaks};
ghost use Rattle.book.specs.Runs.{LawOverRuns, NextAnswered, LimitsKept, OneRun};
ghost use Rattle.book.specs.Step.{OneAnswer};

/// A call on a roll has one answer, and leaves one roll.
pub fn one_answer()
    ensures { (T : ℕ) → OneAnswer T }
{}

/// What stands after any calls on a new register, once, in which order, with which sheet and needs, follows from what was accepted.
pub fn law_over_runs()
    ensures { (days : List ℕ) → LawOverRuns days }
{}

/// After any calls on a new register one more has the roll's own answer, with the law before and after it.
pub fn next_answered()
    ensures { (days : List ℕ) → NextAnswered days }
{}

/// The offers that stand after any calls on a new register keep the limits of a book.
pub fn limits_kept()
    ensures { (days : List ℕ) → LimitsKept days }
{}

/// A list of calls has one run: its answers and the roll that it leaves.
pub fn one_run()
    ensures { (days : List ℕ) → OneRun days }
{}

/// Sheets that enter a new register one by one make, in one text, a deposit with that register's list.
pub fn deposit_enters()
    ensures { (T : ℕ) → DepositEnters T }
{}

/// After such sheets, one that would be refused for anything but its form: the deposit is refused so, whatever follows.
pub fn deposit_refuses()
    ensures { (T : ℕ) → DepositRefuses T }
{}

/// After such sheets, a last text that cannot be read: the deposit is refused as that text is, its lines counted on.
pub fn deposit_breaks()
    ensures { (T : ℕ) → DepositBreaks T }
{}
