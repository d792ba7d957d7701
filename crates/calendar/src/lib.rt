//! The calendar of a tender: the periods of one month and how many days each has.
//!
//! Weeks run from Monday to Sunday and are cut at the month's ends. Each week gives a period of its
//! working days and a period of its other days; an empty one is dropped.
#![tactic(auto)]

mod date;
mod fault;
mod month;
mod weeks;

pub use fault::CalendarFault;
pub use month::{Calendar, MOST_HOLIDAYS, MOST_PERIODS, is_announced};
