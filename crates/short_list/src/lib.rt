//! Lists of at most so many values, kept in place: they ask for no memory, and are copied as a whole.
#![tactic(auto)]

mod list;

pub use list::ShortList;
