//! Tests of energy plans, of programs that are read from texts.
#![tactic(auto)]

#[cfg(test)]
mod fixtures;
#[cfg(test)]
mod paths;
#[cfg(test)]
mod plans;
