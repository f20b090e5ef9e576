//! Services by hand: each access of a task on the words of a board.

use crate::fixtures::{SENDING, SUMMING};
use crate::served_words::serve;
use ink_base::{Event, Origin, PipeId, SourceId, TaskId, ThreadId, TimerId};
use ink_layout::Pick;
use std::test::Fail;

// The pick of an event, in a scan at tick 100.
fn pick(thread: u8, origin: Origin, value: u32) -> Pick {
    Pick {
        thread: ThreadId(thread),
        event: Event { origin, value },
        running: None,
        position: 0,
        time: 100,
        commit_word: 0,
        first: 0,
        due_word: 0,
        taken: 0,
    }
}

// The pick of the first event of thread a's queue.
fn queued(value: u32) -> Pick {
    let origin = Origin::Source {
        source: SourceId(0),
        count: 0,
    };
    pick(0, origin, value)
}

// The words of a header that tell the next task, and the finished, served and expired events.
const ENDS: [u32; 4] = [1, 5, 6, 8];

// 48 accesses copy pages, 3 write the event, 12 are the task's and 5 its end's; then come the commit, the acknowledgement and the release.
#[test]
fn a_service_commits_at_its_69th_access(rt: HostRuntime) -> Result<(), Fail> {
    let served = serve(rt.alloc(), SUMMING, queued(7), 0, ENDS).ok_or("not served")?;
    assert_eq!(rt; served.numbers, (69, 71));
    Ok(())
}

// 48 accesses copy pages 0, 1 and 3, and 3 write the event. The instructions make 1, 6, 4, 3, 2, 4, 4 and 1, the end 2 and the commit 1.
#[test]
fn a_task_sends_sets_timers_and_goes_on(rt: HostRuntime) -> Result<(), Fail> {
    // The next task, the finished and served events, the items sent.
    let sent = serve(rt.alloc(), SENDING, queued(7), 0, [1, 5, 6, 10]).ok_or("not served")?;
    assert_eq!(rt; sent.numbers, (79, 0));
    assert_eq!(rt; sent.headers, [2, 0, 0, 1]);
    assert_eq!(rt; sent.item, Some(7));
    assert_eq!(rt; sent.outputs, [(1 << 32) + 1, 1 << 32]);
    // Each timer's word and period.
    let set = serve(rt.alloc(), SENDING, queued(7), 0, [26, 27, 28, 29]).ok_or("not served")?;
    assert_eq!(rt; set.headers, [108, 1, 0, 10]);
    Ok(())
}

// The pick of a running chain of thread a, which began at tick 100.
fn chain(time: u64) -> Pick {
    let mut pick = queued(9);
    pick.running = Some(TaskId(1));
    pick.first = 100;
    pick.time = time;
    pick
}

// 32 accesses copy pages 1 and 0. The instructions make 1, 4 and 1, the end 5; then come the commit, the acknowledgement and the release.
#[test]
fn a_chain_goes_on_within_its_ticks(rt: HostRuntime) -> Result<(), Fail> {
    let served = serve(rt.alloc(), SENDING, chain(105), 1, ENDS).ok_or("not served")?;
    assert_eq!(rt; served.numbers, (44, 46));
    assert_eq!(rt; served.headers, [0, 1, 1, 0]);
    assert_eq!(rt; served.outputs, [(2 << 32) + 9, 0]);
    Ok(())
}

// 32 accesses copy pages 0 and 1, the end makes 5, and no instruction is loaded.
#[test]
fn an_expired_chain_runs_no_task(rt: HostRuntime) -> Result<(), Fail> {
    let served = serve(rt.alloc(), SENDING, chain(106), 1, ENDS).ok_or("not served")?;
    assert_eq!(rt; served.numbers, (38, 40));
    assert_eq!(rt; served.headers, [0, 1, 0, 1]);
    assert_eq!(rt; served.outputs, [0, 0]);
    Ok(())
}

// 48 accesses copy pages 0, 2 and 1, 3 write the event and 1 the taken count. The instructions make 1, 4 and 1, the end 4, the commit 1.
#[test]
fn an_item_is_taken_from_its_pipe(rt: HostRuntime) -> Result<(), Fail> {
    let origin = Origin::Pipe {
        pipe: PipeId(0),
        item: 0,
    };
    // The origin, the finished and served events, the items taken.
    let served = serve(rt.alloc(), SENDING, pick(1, origin, 7), 0, [3, 5, 6, 18]).ok_or(
        "not served",
    )?;
    assert_eq!(rt; served.numbers, (63, 0));
    assert_eq!(rt; served.headers, [2 << 56, 0, 1, 1]);
    assert_eq!(rt; served.outputs, [(1 << 32) + 7, 0]);
    Ok(())
}

// The pick of a timer of thread b that is due at tick 20.
fn due(timer: u8) -> Pick {
    let origin = Origin::Timer {
        timer: TimerId(timer),
        deadline: 20,
    };
    let mut pick = pick(1, origin, 20);
    pick.due_word = 21;
    pick
}

// As many accesses as for an item, and one more for the period. Then a timer's word and period, the finished and served events.
#[test]
fn a_timer_goes_on_by_its_period(rt: HostRuntime) -> Result<(), Fail> {
    let served = serve(rt.alloc(), SENDING, due(2), 0, [30, 31, 5, 6]).ok_or("not served")?;
    assert_eq!(rt; served.numbers, (64, 0));
    assert_eq!(rt; served.headers, [31, 10, 0, 1]);
    Ok(())
}

#[test]
fn a_timer_without_a_period_is_off(rt: HostRuntime) -> Result<(), Fail> {
    let served = serve(rt.alloc(), SENDING, due(3), 0, [32, 33, 5, 6]).ok_or("not served")?;
    assert_eq!(rt; served.numbers, (64, 0));
    assert_eq!(rt; served.headers, [0, 0, 0, 1]);
    Ok(())
}
