//! The instructions of a task.

use crate::reg::Reg;

/// One instruction. `a`, `b` and `c` are its registers; `i` is a number for `Li`, the offset of an instruction of the task
/// for the jumps, and else the number of a pipe, timer or task.
#[derive(Clone, Copy)]
pub enum Instr {
    /// `a` becomes the number.
    Li { a: Reg, i: u32 },
    /// `a` becomes `b`.
    Mov { a: Reg, b: Reg },
    /// `a` becomes the sum, modulo 2^32.
    Add { a: Reg, b: Reg, c: Reg },
    /// `a` becomes the difference, modulo 2^32.
    Sub { a: Reg, b: Reg, c: Reg },
    /// `a` becomes the product, modulo 2^32.
    Mul { a: Reg, b: Reg, c: Reg },
    /// `a` becomes the bitwise and.
    And { a: Reg, b: Reg, c: Reg },
    /// `a` becomes the bitwise or.
    Or { a: Reg, b: Reg, c: Reg },
    /// `a` becomes the bitwise exclusive or.
    Xor { a: Reg, b: Reg, c: Reg },
    /// `a` becomes `b` shifted to the left by `c` modulo 32, filled with zeros.
    Shl { a: Reg, b: Reg, c: Reg },
    /// `a` becomes `b` shifted to the right by `c` modulo 32, filled with zeros.
    Shr { a: Reg, b: Reg, c: Reg },
    /// `a` becomes the quotient; a trap where `c` is 0.
    Divu { a: Reg, b: Reg, c: Reg },
    /// `a` becomes the remainder; a trap where `c` is 0.
    Remu { a: Reg, b: Reg, c: Reg },
    /// `a` becomes 1 where `b` is below `c`, else 0.
    Ltu { a: Reg, b: Reg, c: Reg },
    /// `a` becomes 1 where `b` equals `c`, else 0.
    Eq { a: Reg, b: Reg, c: Reg },
    /// Goes to the offset.
    Jmp { i: u32 },
    /// Goes to the offset where `a` is 0.
    Jz { a: Reg, i: u32 },
    /// Goes to the offset where `a` isn't 0.
    Jnz { a: Reg, i: u32 },
    /// `a` becomes the value of the event.
    Ev { a: Reg },
    /// `a` becomes 1 for an event of a source, 2 of a pipe, 3 of a timer.
    Kind { a: Reg },
    /// `a` becomes the number of the source, pipe or timer.
    Num { a: Reg },
    /// `a` becomes the low 32 bits of the scan's time.
    Now { a: Reg },
    /// `a` becomes state number `b`; a trap where there is none.
    Ld { a: Reg, b: Reg },
    /// State number `b` becomes `a`; a trap where there is none.
    St { a: Reg, b: Reg },
    /// `a` is put out; a trap where the log is full.
    Out { a: Reg },
    /// `b` is sent to the pipe and `a` becomes 1; where the pipe has no room `a` becomes 0.
    Send { i: u32, a: Reg, b: Reg },
    /// The timer is due `a` ticks after the scan's time, with the period `b`.
    Arm { i: u32, a: Reg, b: Reg },
    /// The timer is off.
    Stop { i: u32 },
    /// Ends the task; the chain goes on with this task.
    Next { i: u32 },
    /// Ends the task and the service.
    Done,
}
