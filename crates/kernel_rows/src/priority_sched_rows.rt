//! What scans of two threads find: the accesses that they make, and the pick.

ghost use Rattle.std.specs.Prelude.{◌+◌};

use crate::fixtures::{PIPED, TWO_THREADS};
use crate::scans::{at_slot, fourth, last_point, next, pick, result, scan_at, slot_wanted};
use fram_words::Access;
use ink_base::{Event, Origin, PipeId, SourceId, TaskId, ThreadId, TimerId};
use ink_layout::{KernelPoint, Pick, SlotAt};
use priority_sched::{Chain, Idle, ScanAt, ScanMachine, Scanned, Waiting};
use push_core::{empty, full};

#[test]
fn the_higher_thread_is_looked_at_first(rt: HostRuntime) {
    let (alloc, begun) = (rt.alloc(), ScanMachine::begin());
    assert_eq!(rt;
        last_point(alloc, TWO_THREADS, begun, 218, 5),
        Some(KernelPoint::Scan)
    );
    assert_eq!(rt;
        next(alloc, TWO_THREADS, begun, &[(218, 5)]),
        Some(Access::Load(107))
    );
    let looking = at_slot(1, 3);
    let wanted = SlotAt {
        thread: ThreadId(1),
        position: 3,
    };
    assert_eq!(rt; slot_wanted(alloc, TWO_THREADS, looking), Some(wanted));
    assert_eq!(rt;
        last_point(alloc, TWO_THREADS, looking, 217, empty(3)),
        Some(KernelPoint::Look(ThreadId(1)))
    );
    assert_eq!(rt;
        result(alloc, TWO_THREADS, looking, &[(217, empty(3))]),
        None
    );
    assert_eq!(rt;
        next(alloc, TWO_THREADS, looking, &[(217, empty(3))]),
        Some(Access::Load(2))
    );
}

#[test]
fn the_event_of_the_wanted_position_is_picked(rt: HostRuntime) {
    let word = full(3, SourceId(2), 4, 9);
    let pick = pick(
        0,
        Event {
            origin: fourth(),
            value: 9,
        },
    );
    assert_eq!(rt;
        last_point(rt.alloc(), TWO_THREADS, at_slot(0, 3), 214, word),
        Some(KernelPoint::Nothing)
    );
    assert_eq!(rt;
        result(rt.alloc(), TWO_THREADS, at_slot(0, 3), &[(214, word)]),
        Some(Scanned::Pick(pick))
    );
}

#[test]
fn a_running_chain_is_picked(rt: HostRuntime) {
    let chain = Chain {
        commit_word: 0,
        running: TaskId(1),
        position: 3,
    };
    let words = [(111, (1 << 56) + (2 << 16) + 4), (112, 9), (110, 4)];
    let mut pick = pick(
        1,
        Event {
            origin: fourth(),
            value: 9,
        },
    );
    pick.running = Some(TaskId(1));
    pick.first = 4;
    assert_eq!(rt;
        result(
            rt.alloc(),
            PIPED,
            scan_at(1, ScanAt::Origin { chain }),
            &words
        ),
        Some(Scanned::Pick(pick))
    );
}

// The thread hi, after three finished events.
fn idle() -> Idle {
    Idle {
        commit_word: 0,
        position: 3,
    }
}

// Seven items of its pipe were taken.
fn at_pipe() -> ScanMachine {
    scan_at(
        1,
        ScanAt::Taken {
            idle: idle(),
            pipe: PipeId(0),
        },
    )
}

#[test]
fn the_first_item_is_picked(rt: HostRuntime) {
    let mut pick = pick(
        1,
        Event {
            origin: Origin::Pipe {
                pipe: PipeId(0),
                item: 7,
            },
            value: 9,
        },
    );
    pick.taken = 7;
    let words = [(142, 7), (2, 2), (29, 8), (213, 9)];
    assert_eq!(rt;
        result(rt.alloc(), PIPED, at_pipe(), &words),
        Some(Scanned::Pick(pick))
    );
}

#[test]
fn an_item_is_loaded_where_one_waits(rt: HostRuntime) {
    let waiting = Waiting {
        idle: idle(),
        pipe: PipeId(0),
        taken: 7,
    };
    let commit_word = 2;
    let scan = scan_at(
        1,
        ScanAt::Written {
            waiting,
            commit_word,
        },
    );
    // With one item more than were taken; with none, the timer comes next.
    assert_eq!(rt;
        next(rt.alloc(), PIPED, scan, &[(29, 8)]),
        Some(Access::Load(213))
    );
    assert_eq!(rt;
        next(rt.alloc(), PIPED, scan, &[(29, 7)]),
        Some(Access::Load(158))
    );
}

#[test]
fn a_timer_is_picked_at_its_tick(rt: HostRuntime) {
    let timer = TimerId(0);
    let idle = idle();
    let scan = scan_at(1, ScanAt::Timer { idle, timer });
    let mut pick = pick(
        1,
        Event {
            origin: Origin::Timer { timer, deadline: 5 },
            value: 5,
        },
    );
    pick.due_word = 6;
    assert_eq!(rt;
        result(rt.alloc(), PIPED, scan, &[(158, 6)]),
        Some(Scanned::Pick(pick))
    );
    // A tick later, the commit word of the other thread comes next.
    assert_eq!(rt;
        next(rt.alloc(), PIPED, scan, &[(158, 7)]),
        Some(Access::Load(2))
    );
}
