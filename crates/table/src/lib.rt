//! Reading a table: its bytes are checked, and then asked.

#![tactic(auto)]

mod fields;
mod layout;
mod queries;
mod ranges;
mod reader;
pub mod view;
