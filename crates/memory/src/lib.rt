//! Memories with pending stores: what each does, and layers over them.

#![tactic(auto)]

mod bounds;
pub mod calls;
pub mod compare;
pub mod interface;
pub mod narrow;
pub mod plain;
pub mod queue;
mod rings;
mod span;
mod words;
