//! What the demonstration shows of memories and runs, as lines of text.

#![tactic(auto)]

pub mod asked;
pub mod orders;
pub mod stepped;
