//! A sheet is one offer: what its text says, and how it is saved.
#![tactic(auto)]

mod fault;
mod head;
mod laws;
mod lines;
mod offer;
mod prices;
mod product;
mod questions;
mod read;
mod reader;
mod save;
mod shape;
mod values;
mod writing;

pub use calendar::MOST_PERIODS;
pub use fault::{SaveFault, SheetFault};
pub use laws::{read_saves_back, save_says_the_same, save_settles, saved_reads_back};
pub use offer::{LONGEST_NAME, MOST_RANGES, Name, Offer, PerRange};
pub use product::Product;
pub use read::{read_alone, read_sheet};
