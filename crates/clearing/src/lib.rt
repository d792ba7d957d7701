//! What an award is: of a period and of a month, for every cost rule and every book. The definitions stand in `specs/`;
//! here are the refusals of a clearing, and the laws that are proved of the definitions.
#![tactic(auto)]

pub mod fault;
pub mod laws;
pub mod tenders;

pub use fault::ClearingFault;
