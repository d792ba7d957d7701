//! What the values of a line must be.
ghost use Rattle.std.specs.Prelude.{◌≡◌, ◌^◌, ◌<◌, ◌≤◌, length, nat_le, nat_lt};
ghost use Rattle.std.specs.List.{AllByRecursion};
ghost use Rattle.sheet.specs.Offer.{total as total_of};
ghost use Rattle.sheet.specs.Read.{flag_of};
ghost use Rattle.sheet.specs.Sheet.{chain, every};
ghost use Rattle.text.specs.Form.{between};

/// What a number that is a mark says: one that it is so, zero that it is not.
pub(crate) fn flag(number: u64) -> Option<bool>
    ensures { result ≡ flag_of number }
{
    match number {
        0 => Some(false),
        1 => Some(true),
        _ => None,
    }
}

/// Whether all lie in a range.
pub(crate) fn all_between(values: &[u64], low: u64, high: u64) -> bool
    ensures { result ≡ every (between low high) values.now }
{
    values.iter().all(|value| (low..=high).contains(value))
}

/// Whether each is above the one before it.
pub(crate) fn rising(values: &[u64]) -> bool
    ensures { result ≡ chain nat_lt values.now }
{
    values.is_sorted_by(|one, next| one < next)
}

/// Whether none is below the one before it.
pub(crate) fn never_falling(values: &[u64]) -> bool
    ensures { result ≡ chain nat_le values.now }
{
    values.is_sorted_by(|one, next| one <= next)
}

/// Their sum.
#[tactic(auto, using(crate::proofs::Judged::sum_small, crate::proofs::Judged::total_is_sum))]
pub(crate) fn total(values: &[u64]) -> u64
    requires few { length values.now ≤ 11 }
    requires small { AllByRecursion (λ v. v < 10 ^ 10) values.now }
    ensures { result ≡ total_of values.now }
{
    values.iter().sum()
}
