//! The words of the subject: the types and the definitions that every other crate shares.

#![tactic(auto)]

pub mod code;
pub mod faults;
pub mod laws;
pub mod numbers;
pub mod places;
mod refusals;
pub mod state;
pub mod texts;
