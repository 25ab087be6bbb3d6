//! What the memories do on examples.

#![tactic(auto)]

#[cfg(test)]
mod layers;
#[cfg(test)]
mod pairs;
#[cfg(test)]
mod queues;
#[cfg(test)]
mod refusals;
#[cfg(test)]
mod script;
