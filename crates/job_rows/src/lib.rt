//! Tests of the calls that read, generate and copy jobs: readings, charges and their limits.
#![tactic(auto)]

#[cfg(test)]
mod copies;
#[cfg(test)]
mod fixtures;
#[cfg(test)]
mod jobs;
#[cfg(test)]
mod limits;
#[cfg(test)]
mod soaks;
#[cfg(test)]
mod tails;
