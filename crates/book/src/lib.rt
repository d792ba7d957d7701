//! Books: lists of offers under one calendar. The register is the book that a clerk keeps.
#![tactic(auto)]

mod asking;
mod book;
mod calls;
mod deposit;
mod depositing;
mod entering;
mod fault;
mod judging;
mod keeping;
mod laws;
mod need;
mod others;
mod places;
mod register;
mod sheets;
mod standing;
mod table;
mod taken;
mod unread;

pub use book::Book;
pub use deposit::Deposit;
pub use fault::RegisterFault;
pub use keeping::HIGHEST_NEED;
pub use laws::{
    deposit_breaks, deposit_enters, deposit_refuses, law_over_runs, limits_kept, next_answered,
    one_answer, one_run,
};
pub use need::Need;
pub use register::Register;
pub use table::MOST_OFFERS;
pub use taken::Taken;
pub use unread::DepositFault;
