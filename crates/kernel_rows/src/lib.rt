//! The tests of the kernel's scan, of its tasks and of the board's whole runs, in one crate above them, as board_rows has those of the
//! crates below.
#![tactic(auto)]

#[cfg(test)]
mod fixtures;
#[cfg(test)]
mod kernel_core_rows;
#[cfg(test)]
mod priority_sched_rows;
#[cfg(test)]
mod remaining_rows;
#[cfg(test)]
mod scans;
#[cfg(test)]
mod served_words;
#[cfg(test)]
mod task_board;
#[cfg(test)]
mod task_run_rows;
