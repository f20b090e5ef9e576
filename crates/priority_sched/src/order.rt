//! The order in which a scan visits the threads.
ghost use Rattle.std.specs.Prelude.{◌≡◌, ◌≤◌, ◌<◌, length};
ghost use Rattle.std.specs.Option.{ForSome};
ghost use Rattle.priority_sched.specs.Order as order;

use ink_base::ThreadId;
use task_isa::Program;

/// The thread of the greatest priority below the bound; none exactly where no thread has a priority below it.
pub(crate) fn next_below(program: &Program, bound: u32) -> Option<ThreadId>
    requires { length program.now.threads ≤ 256 }
    ensures computed { result ≡ order.next_below program.now bound }
    ensures highest { order.IsHighest program.now bound (length program.now.threads) result }
    ensures known { ForSome result (λ t. t.0 < length program.now.threads) }
{
    let mut best = None;
    for n in 0..program.threads.len() {
        if is_next(program, bound, n, best) {
            best = Some(ThreadId(n as u8));
        }
    }
    best
}

/// Thread `n` is below the bound, and above the best one so far.
fn is_next(program: &Program, bound: u32, n: usize, best: Option<ThreadId>) -> bool
    requires known { n < length program.now.threads }
    requires best { ForSome best (λ u. u.0 < length program.now.threads) }
    ensures { result ≡ order.is_next program.now bound n best }
{
    let priority = priority_of(program, n);
    (priority as u32) < bound
        && match best {
            None => true,
            Some(u) => priority_of(program, u.0 as usize) < priority,
        }
}

/// The priority of a thread.
pub(crate) fn priority_of(program: &Program, thread: usize) -> u8
    requires { thread < length program.now.threads }
    ensures { result ≡ order.priority_of program.now thread }
{
    program.threads.as_slice()[thread].priority
}
