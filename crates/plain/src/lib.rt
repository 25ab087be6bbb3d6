//! The plain machine: a run of a table, one step at a time.

#![tactic(auto)]

mod action;
mod cells;
pub mod laws;
mod performing;
mod queries;
pub mod run;
mod stepping;
