//! What the program `ink_board` does, without its outside: the words of a command, what each mode makes of its job, and what the user is
//! told of it. [`board`] is the top call.
#![tactic(auto)]

mod command;
mod complaint;
mod finish;
mod given;
mod making;
mod modes;
mod report;
mod text;
mod top;
mod words;

pub use command::{Allowed, Command};
pub use complaint::{Complaint, exit_code};
pub use finish::{Finish, Record};
pub use given::Given;
pub use modes::Mode;
pub use top::board;
pub use words::command_of;
