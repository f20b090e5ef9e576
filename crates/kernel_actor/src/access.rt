//! One access of the kernel: to an own word, or to a shared one by its seat.
ghost use Rattle.std.specs.Prelude.{◌≡◌, ◌∷◌, ◌<◌, ◌≤◌, ℕ, length};
ghost use Rattle.event_queue.specs.Answers.{IsLook};
ghost use Rattle.event_queue.specs.Calls.{released_of};
ghost use Rattle.event_queue.specs.Seats.{kernel_view, IsKernelSeatOf, IsSameKernelSeat};
ghost use Rattle.event_queue.specs.Views.{calls_of};
ghost use Rattle.event_queue.specs.declared.view.Call.TheVariants.{Look};
ghost use Rattle.kernel_actor.specs.declared.kind.Kind.TheVariants as kinds;
ghost use Rattle.kernel_actor.specs.Looks.{word_seen, CanTell};
ghost use Rattle.kernel_actor.specs.kept.Answered.{CanMake, CanPerform, IsNext, Answered};

use crate::kind::Kind;
use event_queue::{KernelSeat, QueueSet, Seen};
use fram_words::Fram;
use ink_base::Origin;
use ink_layout::{Plan, SlotAt};
use kernel_core::Kernel;
use push_core::{empty, full};

/// The word that a look at a position found.
fn word_seen(position: u32, seen: Seen) -> u64
    requires { CanTell position seen }
    ensures { result ≡ word_seen position seen }
{
    match seen {
        Seen::Empty => empty(position),
        Seen::Full(event) => match event.origin {
            Origin::Source { source, count } => full(position, source, count, event.value),
            _ => 0,
        },
        Seen::Later { word } => word,
    }
}

/// Looks at the slot of a position, and answers the word that stands there.
fn look(seat: &mut KernelSeat, set: &QueueSet, at: SlotAt) -> u64
    requires seat { IsKernelSeatOf set.now seat.old }
    requires thread { at.thread.0 < length (kernel_view seat.old).lay.queues }
    requires position { at.position ≤ released_of at.thread.0 (calls_of (kernel_view seat.old)) }
    ensures seat { IsSameKernelSeat seat.old seat.new }
    ensures calls { calls_of (kernel_view seat.new) ≡ Look at.thread.0 at.position result ∷ calls_of (kernel_view seat.old) }
    ensures look { IsLook (kernel_view seat.old) at.thread.0 at.position result }
{
    let seen = seat.look(set, at.thread, at.position);
    word_seen(at.position, seen)
}

/// Makes the kernel's next access, which is of this kind, and answers the word that it found; 0 for a store to a shared word.
pub fn make_access(
    plan: &Plan,
    kernel: &Kernel,
    fram: &mut Fram,
    seat: &mut KernelSeat,
    set: &QueueSet,
    kind: Kind,
) -> u64
    requires seat { IsKernelSeatOf set.now seat.old }
    requires can { CanMake plan.now.accepted plan.now.layout fram.old kernel.now (kernel_view seat.old) kind }
    ensures seat { IsSameKernelSeat seat.old seat.new }
    ensures answered { Answered plan.now.accepted kernel.now fram.old fram.new (kernel_view seat.old) (kernel_view seat.new) kind result }
{
    match kind {
        Kind::Own => fram.perform(kernel.want(plan)),
        Kind::Clock => seat.load_clock(set),
        Kind::Look(at) => look(seat, set, at),
        Kind::Acknowledge(at) => {
            seat.store_ack(set, at.thread, at.position);
            0
        }
        Kind::Release(at) => {
            seat.release(set, at.thread, at.position);
            0
        }
    }
}
