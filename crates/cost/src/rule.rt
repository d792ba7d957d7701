//! The trait of cost rules.
ghost use Rattle.std.specs.Prelude.{◌≡◌, ℕ, ◌+◌, ◌≤◌};
ghost use Rattle.cost.specs.Rule.{Rule, Ranks, most_charges};

use std::cmp::Ordering;

/// What one offer is charged, how charges join, and which of two costs is cheaper.
///
/// The four methods refuse nothing and change nothing. They answer by what costs mean, of which the rule's laws speak.
pub trait CostRule {
    type Cost: Copy;

    /// The meanings, with their charge, joining, order and laws.
    ghost rule: { Rule };

    /// What a cost means.
    ghost meaning: { Self.Cost → rule.Meaning };

    /// The cost counts as a joining of so many charges.
    ghost within: { Self.Cost → ℕ → Type 0 };

    /// The charge of an offer, by the marginal price, the accepted MW and the left-out MW: exact for all of them.
    fn charge(&self, price_cents: u32, accepted_mw: u32, left_out_mw: u32) -> Self::Cost
        ensures means { meaning result ≡ rule.charged price_cents accepted_mw left_out_mw }
        ensures one { within result 1 };

    /// The cost of nothing at all.
    fn zero(&self) -> Self::Cost
        ensures means { meaning result ≡ rule.nothing }
        ensures none { within result 0 };

    /// Two costs together: exact while they count no more charges than `most-charges`.
    fn join(&self, a: Self::Cost, b: Self::Cost) -> Self::Cost
        ensures means { (i j : ℕ) → within a i → within b j → i + j ≤ most_charges → meaning result ≡ rule.joined (meaning a) (meaning b) }
        ensures count { (i j : ℕ) → within a i → within b j → i + j ≤ most_charges → within result (i + j) };

    /// `Less` where the first is cheaper, `Equal` where both mean the same.
    fn compare(&self, a: Self::Cost, b: Self::Cost) -> Ordering
        ensures { Ranks rule (meaning a) (meaning b) result };
}
