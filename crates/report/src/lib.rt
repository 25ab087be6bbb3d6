//! What is said of a table in lines of text.

#![tactic(auto)]

pub mod header;
pub mod lines;
pub mod listing;
