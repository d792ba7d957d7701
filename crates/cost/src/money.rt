//! Money: what the accepted MW are paid at the marginal price.
ghost use Rattle.std.specs.Prelude.{◌*◌, ◌^◌, ◌≤◌};
ghost use Rattle.cost.specs.Money.{money_rule};

use crate::rule::CostRule;
use std::cmp::Ordering;

/// The price times the accepted MW, in cents; a charge takes up to 64 bits, a joining more.
#[derive(Clone, Copy)]
pub struct Money;

impl CostRule for Money {
    type Cost = u128;

    ghost rule = { money_rule };

    ghost meaning = { λ c. c };

    ghost within = { λ c k. c ≤ k * 2 ^ 64 };

    fn charge(&self, price_cents: u32, accepted_mw: u32, _left_out_mw: u32) -> u128 {
        u128::from(price_cents) * u128::from(accepted_mw)
    }

    fn zero(&self) -> u128 {
        0
    }

    fn join(&self, a: u128, b: u128) -> u128 {
        a.saturating_add(b)
    }

    fn compare(&self, a: u128, b: u128) -> Ordering {
        a.cmp(&b)
    }
}
