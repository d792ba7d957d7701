//! The laws of the definitions, each the promise of a function, so that the check asks for its proof.
ghost use Rattle.clearing.specs.Halves.{Least, First};
ghost use Rattle.clearing.specs.Laws.{OneAward, OneMonthAward, OnePeriodAnswer, OneMonthAnswer, PriceReached, UnitsPaid, UnitsPaidWhole, BlocksPaid, CostSplits, HalvesJoin, WholeSplits, NamedSplits, NoneTaken, OnesTaken};

use cost::CostRule;

/// Under every cost rule at most one award is named for a period and for a month, and a clearing has at most one answer.
pub fn one_answer<R: CostRule>()
    ensures award { OneAward R.CostRule.rule }
    ensures month_award { OneMonthAward R.CostRule.rule }
    ensures period_answer { OnePeriodAnswer R.CostRule.rule }
    ensures month_answer { OneMonthAnswer R.CostRule.rule }
{}

/// In an admitted award a product's price is 0, or the positive criterion of an accepted MW of one of its offers.
pub fn price_reached<R: CostRule>()
    ensures { PriceReached R.CostRule.rule }
{}

/// Every accepted MW of an offer and every taken block is paid at least its price, and a mark never takes more from the
/// pay than there is.
pub fn paid_well<R: CostRule>()
    ensures units { UnitsPaid R.CostRule.rule }
    ensures units_whole { UnitsPaidWhole R.CostRule.rule }
    ensures blocks { BlocksPaid R.CostRule.rule }
{}

/// At fixed prices and volumes the products are decided alone. A cheapest whole is a cheapest RR half beside a cheapest RC
/// half, the first whole is the first RR half beside the first RC half, and the named award is made of first halves.
pub fn halves<R: CostRule>()
    ensures cost { CostSplits R.CostRule.rule }
    ensures least_joins { HalvesJoin R.CostRule.rule (Least R.CostRule.rule) }
    ensures least_splits { WholeSplits R.CostRule.rule (Least R.CostRule.rule) }
    ensures first_joins { HalvesJoin R.CostRule.rule (First R.CostRule.rule) }
    ensures first_splits { WholeSplits R.CostRule.rule (First R.CostRule.rule) }
    ensures named { NamedSplits R.CostRule.rule }
{}

/// The choice of no block leaves book and cover as they are, and a choice takes as many blocks as its set number has ones.
pub fn choices_of_blocks()
    ensures none { NoneTaken }
    ensures ones { OnesTaken }
{}
