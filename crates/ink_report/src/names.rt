//! The names of threads.

ghost use Rattle.std.specs.Prelude.{◌≡◌, ◌<◌, length};
ghost use Rattle.prog_check.specs.Lookup.{thread_def};

use ink_base::ThreadId;
use task_isa::Program;

// The name of a thread.
pub fn name_of(program: &Program, thread: ThreadId) -> &[u8]
    requires { thread.0 < length program.now.threads }
    ensures { result.now ≡ (thread_def program.now thread.0).name }
{
    program.threads.as_slice()[thread.0 as usize]
        .name
        .as_bytes()
}
