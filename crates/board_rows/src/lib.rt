//! The tests of the board's crates, in one crate above them: a crate without tests of its own is proved once, and a program that
//! several tests run is written once.
#![tactic(auto)]

#[cfg(test)]
mod event_pipe_rows;
#[cfg(test)]
mod fixtures;
#[cfg(test)]
mod ink_layout_rows;
#[cfg(test)]
mod never_cut_rows;
#[cfg(test)]
mod persist_timer_rows;
#[cfg(test)]
mod push_core_rows;
#[cfg(test)]
mod reboot_rows;
#[cfg(test)]
mod thread_state_rows;
