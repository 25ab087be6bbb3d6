//! Tests of the reader: tables at the edge of every range, and the refusals past it.

#![tactic(auto)]

#[cfg(test)]
mod codes;
#[cfg(test)]
mod headers;
#[cfg(test)]
mod lengths;
#[cfg(test)]
mod samples;
