//! What an award costs. A cost rule says what an offer is charged, how costs join and which of two is cheaper;
//! `Money`, `LeftOut` and `Pair` are the rules. A grid lays rows and columns over a caller's slice of cells.
#![tactic(auto)]

pub mod grid;
pub mod left_out;
pub mod money;
pub mod pair;
pub mod rule;
pub mod scan;

pub use grid::Grid;
pub use left_out::LeftOut;
pub use money::Money;
pub use pair::Pair;
pub use rule::CostRule;
pub use scan::{cheapest, cheapest_in};

#[cfg(test)]
mod tests;
