//! Left out: the MW that stay unaccepted below the marginal price.
ghost use Rattle.std.specs.Prelude.{◌*◌, ◌^◌, ◌≤◌};
ghost use Rattle.cost.specs.LeftOut.{left_out_rule};

use crate::rule::CostRule;
use std::cmp::Ordering;

/// The left-out MW, whatever the price.
#[derive(Clone, Copy)]
pub struct LeftOut;

impl CostRule for LeftOut {
    type Cost = u64;

    ghost rule = { left_out_rule };

    ghost meaning = { λ c. c };

    ghost within = { λ c k. c ≤ k * 2 ^ 32 };

    fn charge(&self, _price_cents: u32, _accepted_mw: u32, left_out_mw: u32) -> u64 {
        u64::from(left_out_mw)
    }

    fn zero(&self) -> u64 {
        0
    }

    fn join(&self, a: u64, b: u64) -> u64 {
        a.saturating_add(b)
    }

    fn compare(&self, a: u64, b: u64) -> Ordering {
        a.cmp(&b)
    }
}
