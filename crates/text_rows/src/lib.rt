//! Tests of programs and of their texts: the calls that read, check, copy and print them, and the words of instructions.
#![tactic(auto)]

#[cfg(test)]
mod faults;
#[cfg(test)]
mod fixtures;
#[cfg(test)]
mod forms;
#[cfg(test)]
mod instructions;
#[cfg(test)]
mod printed;
#[cfg(test)]
mod programs;
#[cfg(test)]
mod sections;
#[cfg(test)]
mod words;
