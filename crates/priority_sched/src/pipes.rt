//! The pipes and timers of a thread.
ghost use Rattle.std.specs.Prelude.{◌≡◌, ◌≤◌, ◌<◌, length};
ghost use Rattle.std.specs.Option.{ForSome};
ghost use Rattle.priority_sched.specs.Scan as scan;

use ink_base::ThreadId;
use task_isa::Program;

/// The first pipe, from number `from` on, that a thread reads; none exactly where there is none.
pub(crate) fn next_pipe(program: &Program, thread: ThreadId, from: usize) -> Option<usize>
    requires { from ≤ length program.now.pipes }
    ensures first { result ≡ scan.next_pipe program.now thread.0 from }
    ensures known { ForSome result (λ q. q < length program.now.pipes) }
{
    for q in from..program.pipes.len() {
        if is_reader(program, thread, q) {
            return Some(q);
        }
    }
    None
}

/// The first timer, from number `from` on, that is of a thread; none exactly where there is none.
pub(crate) fn next_timer(program: &Program, thread: ThreadId, from: usize) -> Option<usize>
    requires { from ≤ length program.now.timers }
    ensures first { result ≡ scan.next_timer program.now thread.0 from }
    ensures known { ForSome result (λ j. j < length program.now.timers) }
{
    for j in from..program.timers.len() {
        if is_owner(program, thread, j) {
            return Some(j);
        }
    }
    None
}

/// Whether a thread reads the pipe of this number.
fn is_reader(program: &Program, thread: ThreadId, q: usize) -> bool
    requires { q < length program.now.pipes }
    ensures { result ≡ scan.is_reader program.now thread.0 q }
{
    program.pipes.as_slice()[q].reader.0 == thread.0
}

/// Whether the timer of this number is one of a thread.
fn is_owner(program: &Program, thread: ThreadId, j: usize) -> bool
    requires { j < length program.now.timers }
    ensures { result ≡ scan.is_owner program.now thread.0 j }
{
    program.timers.as_slice()[j].thread.0 == thread.0
}
