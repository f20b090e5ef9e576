//! Runs of the shared queues: by one caller after another, and by many threads at once.
#![tactic(auto)]

#[cfg(test)]
mod tests;
