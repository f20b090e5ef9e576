//! Tests of live boards.
#![tactic(auto)]

#[cfg(test)]
mod fixtures;
#[cfg(test)]
mod gated;
#[cfg(test)]
mod orders;
#[cfg(test)]
mod prepared;
