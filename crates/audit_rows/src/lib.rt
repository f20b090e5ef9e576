//! Tests of the verdicts on claims: texts of which it is claimed that a run of a job prints them with its journal.
#![tactic(auto)]

#[cfg(test)]
mod changed;
#[cfg(test)]
mod fixtures;
#[cfg(test)]
mod journals;
#[cfg(test)]
mod texts;
