//! The numbers of what a program declares: each kind counts its declarations from 0.

/// The address of a word of the FRAM.
pub type Addr = u32;

/// A thread, by the number of its declaration.
#[derive(Clone, Copy, Debug, PartialEq, Eq)]
pub struct ThreadId(pub u8);

/// A source of readings, by the number of its declaration.
#[derive(Clone, Copy, Debug, PartialEq, Eq)]
pub struct SourceId(pub u8);

/// A task, by the number of its declaration.
#[derive(Clone, Copy, Debug, PartialEq, Eq)]
pub struct TaskId(pub u16);

/// A pipe, by the number of its declaration.
#[derive(Clone, Copy, Debug, PartialEq, Eq)]
pub struct PipeId(pub u8);

/// A timer, by the number of its declaration.
#[derive(Clone, Copy, Debug, PartialEq, Eq)]
pub struct TimerId(pub u8);
