//! The text of a whole tender: its first lines, and the answer that is printed for it.
#![tactic(auto)]

mod answer;
mod fault;
mod needs;
mod opening;
mod printing;

pub use answer::{AnswerFault, MOST_BYTES, read_tender, report};
pub use fault::TenderFault;
pub use opening::{FirstLines, open_month};
