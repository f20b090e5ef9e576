//! The lists of two sources of one thread, put together.
#![tactic(auto)]

#[cfg(test)]
mod gathering;
#[cfg(test)]
mod tests;
#[cfg(test)]
mod two_sources;
