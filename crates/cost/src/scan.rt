//! Scans over the caller's costs, for every rule.
ghost use Rattle.std.specs.Prelude.{◌≡◌, None, MatchOption};
ghost use Rattle.cost.specs.Grid.{table, row_of};
ghost use Rattle.cost.specs.Scan.{Scanned};

use crate::grid::Grid;
use crate::rule::CostRule;

/// Where the first cheapest cost stands; none if there is no cost.
pub fn cheapest<R: CostRule>(rule: &R, costs: &[R::Cost]) -> Option<usize>
    ensures { Scanned R.CostRule.rule R.CostRule.meaning costs.now result }
{
    costs
        .iter()
        .enumerate()
        .min_by(|a, b| rule.compare(*a.1, *b.1))
        .map(|(place, _)| place)
}

/// The column of the first cheapest cost in a row; none if the grid has no such row or the row is empty.
pub fn cheapest_in<R: CostRule>(rule: &R, grid: &Grid<'_, R::Cost>, row: usize) -> Option<usize>
    ensures { MatchOption (row_of (table grid.now) row) (result ≡ None) (λ costs. Scanned R.CostRule.rule R.CostRule.meaning costs result) }
{
    cheapest(rule, grid.row(row)?)
}
