//! An item on its way into a pipe.

use task_isa::Reg;

/// An item that is sent: the number of the pipe, the value, and the register that tells whether the pipe had room.
#[derive(Clone, Copy)]
pub struct Sending {
    pub pipe: u32,
    pub register: Reg,
    pub value: u32,
}
