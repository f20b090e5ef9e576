//! The limits of a job. Each stands here once; code, clauses and definitions name it.

/// The most bytes of a text.
pub const TEXT_BYTES: usize = 4_194_304;

/// The most threads of a program.
pub const THREADS: usize = 16;

/// The most sources of a program.
pub const SOURCES: usize = 16;

/// The most pipes of a program.
pub const PIPES: usize = 8;

/// The most timers of a program.
pub const TIMERS: usize = 8;

/// The most tasks of a program.
pub const TASKS: usize = 256;

/// The most instructions of all tasks of a program.
pub const INSTRUCTIONS: usize = 4096;

/// The greatest limit of a task: how many instructions it may execute.
pub const TASK_LIMIT: u16 = 4096;

/// The greatest priority of a thread.
pub const PRIORITY: u8 = 255;

/// The fewest places of the queue of a thread.
pub const FEWEST_QUEUE_PLACES: u8 = 2;

/// The most places of the queue of a thread.
pub const QUEUE_PLACES: u8 = 32;

/// The most places of a pipe.
pub const PIPE_PLACES: u8 = 64;

/// The most numbers of the state of a thread.
pub const STATE_NUMBERS: u16 = 256;

/// The most places of the log of a thread.
pub const LOG_PLACES: u16 = 4096;

/// The greatest number of ticks that a job names: of darkness, until a timer is due, of a period, until an event expires.
pub const TICKS: u32 = 2_147_483_647;

/// The most readings of a source.
pub const READINGS: usize = 65_535;

/// The most charges of a job.
pub const CHARGES: usize = 4096;

/// The most turns that all charges of a job list.
pub const TURNS: u32 = 4_194_304;

/// The words of a board are fewer than this.
pub const BOARD_WORDS: u32 = 100_000;

/// The most turns of a job that is run once for each of them.
pub const SWEEP_TURNS: u32 = 8_192;
