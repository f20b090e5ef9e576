//! Tests of ink_modes through its public calls.
#![tactic(auto)]

#[cfg(test)]
mod faults;
#[cfg(test)]
mod fixtures;
#[cfg(test)]
mod kept;
#[cfg(test)]
mod told;
#[cfg(test)]
mod words;
