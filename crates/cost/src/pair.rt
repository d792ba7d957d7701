//! A pair of rules: any first rule, then any second.
ghost use Rattle.cost.specs.Pair.{pair_rule};

use crate::rule::CostRule;
use std::cmp::Ordering;

/// Compares by the first rule, and by the second where the first finds both the same.
#[derive(Clone, Copy)]
pub struct Pair<A, B> {
    pub first: A,
    pub second: B,
}

impl<A: CostRule, B: CostRule> CostRule for Pair<A, B> {
    type Cost = (A::Cost, B::Cost);

    ghost rule = { pair_rule A.CostRule.rule B.CostRule.rule };

    ghost meaning = { λ c. (A.CostRule.meaning c.0, B.CostRule.meaning c.1) };

    ghost within = { λ c k. A.CostRule.within c.0 k × B.CostRule.within c.1 k };

    fn charge(&self, price_cents: u32, accepted_mw: u32, left_out_mw: u32) -> (A::Cost, B::Cost) {
        (
            self.first.charge(price_cents, accepted_mw, left_out_mw),
            self.second.charge(price_cents, accepted_mw, left_out_mw),
        )
    }

    fn zero(&self) -> (A::Cost, B::Cost) {
        (self.first.zero(), self.second.zero())
    }

    fn join(&self, a: (A::Cost, B::Cost), b: (A::Cost, B::Cost)) -> (A::Cost, B::Cost) {
        (self.first.join(a.0, b.0), self.second.join(a.1, b.1))
    }

    fn compare(&self, a: (A::Cost, B::Cost), b: (A::Cost, B::Cost)) -> Ordering {
        self.first
            .compare(a.0, b.0)
            .then_with(|| self.second.compare(a.1, b.1))
    }
}
