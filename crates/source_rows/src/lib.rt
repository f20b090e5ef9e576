//! Runs of a source as an actor on a queue of its own: by one caller, charge by charge.
#![tactic(auto)]

#[cfg(test)]
mod tests;
