//! What one instruction does.

use crate::outcome::TrapCode;
use crate::reg::Reg;

/// What one instruction does, read off the registers and the event that is served.
#[derive(Clone, Copy)]
pub enum Act {
    /// The register becomes the value, and the next instruction follows.
    Sets {
        register: Reg,
        value: u32,
    },
    /// The instruction at this offset follows.
    Goes {
        offset: u32,
    },
    /// The register becomes the state number of this index.
    Loads {
        register: Reg,
        index: u32,
    },
    /// The state number of this index becomes the value.
    Saves {
        index: u32,
        value: u32,
    },
    /// The value is put out.
    Puts {
        value: u32,
    },
    /// The value is sent to the pipe, and the register tells whether there was room.
    Sends {
        pipe: u32,
        register: Reg,
        value: u32,
    },
    /// The timer is due after so many ticks, with a period in ticks.
    Arms {
        timer: u32,
        delay: u32,
        period: u32,
    },
    /// The timer is off.
    Stops {
        timer: u32,
    },
    /// The task ends, and the chain goes on with this task.
    Continues {
        task: u32,
    },
    /// The task and its service end.
    Ends,
    /// The task traps.
    Traps {
        code: TrapCode,
    },
}
