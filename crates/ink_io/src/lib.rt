//! Where the bytes of a job come from and where the bytes of a text go.
//!
//! A [`Source`] gives bytes and a [`Sink`] takes them, a piece at each call. Both count their failed calls, so
//! that a fault is answered only where the outside had one. [`read_job`] and [`write_all_text`] are generic over them.
#![tactic(auto)]

mod answers;
mod calls;
mod memory;
mod sink;
mod source;
mod standard;
mod sure;
mod unread;
mod whole;

pub use answers::{Failed, ReadAnswer, WriteFault};
pub use ink_base::NoMemory;
pub use memory::{MemSink, MemSource};
pub use sink::Sink;
pub use source::Source;
pub use standard::{StdSink, StdSource};
pub use sure::{SureSink, SureSource};
pub use whole::{read_job, write_all_text};
