//! Sections that are refused, each at its first fault (task_asm).

use crate::fixtures::{Case, first_wrong, joined, read};
use ink_base::{Cause, NoMemory};
use std::alloc::Global;
use std::test::Fail;

const JOB_WITHOUT_END: &str =
    "[program]\nthread a priority 1 queue 2 state 1 log 8\n\n\n\n\n\n\n\n\n\ntask t thread a limit 1\n[sensors]\n";

const OF_SECTIONS: &[Case] = &[
    ("", 1, Cause::Missing),
    ("[programme]", 1, Cause::BadSection),
    ("source a\n[program]", 1, Cause::BadSection),
    ("[program] x\n[power]", 1, Cause::UnknownWord),
    ("[program]\n\n[power]", 3, Cause::BadSection),
    ("[program]\nsource a\n[power]", 2, Cause::UnknownWord),
    (JOB_WITHOUT_END, 13, Cause::Missing),
];

#[test]
fn faults_of_sections(rt: HostRuntime) -> Result<(), Fail> {
    assert_eq!(rt; first_wrong(rt.alloc(), "", OF_SECTIONS)?, None);
    Ok(())
}

const THREAD: &str = "[program]\nthread a priority 1 queue 2 state 1 log 8\n";

const OF_THREADS: &[Case] = &[
    (
        "thread b priority 2 queue 33 state x log 4",
        3,
        Cause::OverLimit,
    ),
    (
        "thread b priority 2 queue 2 state x log 0",
        3,
        Cause::BadNumber,
    ),
    (
        "thread a priority 1 queue 2 state 1 log 8",
        3,
        Cause::Duplicate,
    ),
    (
        "thread b priority 1 queue 2 state 1 log 8",
        3,
        Cause::Duplicate,
    ),
    (
        "thread b priority 2 queue 2 state 1 log 8 expire 5",
        3,
        Cause::UnknownWord,
    ),
    (
        "thread b priority 2 queue 2 state 1 log 8 expires",
        3,
        Cause::Missing,
    ),
    (
        "thread b priority 2 queue 2 state 1 log 8 expires 2147483648",
        3,
        Cause::OverLimit,
    ),
    (
        "thread b priority 2 queue 2 state 1 log 8 expires 5 5",
        3,
        Cause::UnknownWord,
    ),
    ("source b", 3, Cause::UnknownWord),
    ("source", 3, Cause::Missing),
    ("mul r1 r1 r1", 3, Cause::UnknownWord),
    ("task 9 thread b limit 0", 3, Cause::UnknownWord),
    ("task t thread a limit 4097", 3, Cause::OverLimit),
    ("source a\n", 4, Cause::Missing),
];

#[test]
fn faults_of_threads_and_tasks(rt: HostRuntime) -> Result<(), Fail> {
    assert_eq!(rt; first_wrong(rt.alloc(), THREAD, OF_THREADS)?, None);
    Ok(())
}

const PIPES: &str = "[program]
thread a priority 1 queue 2 state 1 log 8
thread b priority 2 queue 2 state 1 log 8
pipe p1 1 from a to b
pipe p2 1 from a to b
pipe p3 1 from a to b
pipe p4 1 from a to b
pipe p5 1 from a to b
pipe p6 1 from a to b
pipe p7 1 from a to b
timer t thread a off
";

const OF_PIPES: &[Case] = &[
    ("pipe", 12, Cause::Missing),
    ("pipe p7 0 to", 12, Cause::Duplicate),
    ("pipe p 0 to", 12, Cause::OverLimit),
    ("pipe p 65 to", 12, Cause::OverLimit),
    ("pipe p 1 to a", 12, Cause::UnknownWord),
    ("pipe p 1 from a to c", 12, Cause::UnknownWord),
    ("pipe p 1 from a to a x", 12, Cause::BadOwner),
    ("pipe p 1 from a to b x", 12, Cause::UnknownWord),
    ("pipe p 1 from b to a\npipe", 13, Cause::OverLimit),
    ("timer t thread c", 12, Cause::Duplicate),
    ("timer p1 thread c off", 12, Cause::UnknownWord),
    ("timer u thread a", 12, Cause::Missing),
    ("timer u thread a on", 12, Cause::UnknownWord),
    ("timer u thread a off 1", 12, Cause::UnknownWord),
    ("timer u thread a due 2147483648", 12, Cause::OverLimit),
    (
        "timer u thread a due 1 period 2147483648",
        12,
        Cause::OverLimit,
    ),
    ("timer u thread a due 1 period 1 1", 12, Cause::UnknownWord),
];

#[test]
fn faults_of_pipes_and_timers(rt: HostRuntime) -> Result<(), Fail> {
    assert_eq!(rt; first_wrong(rt.alloc(), PIPES, OF_PIPES)?, None);
    Ok(())
}

const TASK: &str =
    "[program]\nthread a priority 1 queue 2 state 1 log 8\ntask t thread a limit 9\n";

const IN_A_TASK: &[Case] = &[
    ("li r16 0", 4, Cause::UnknownWord),
    ("li r01 0", 4, Cause::UnknownWord),
    ("li r15 4294967296", 4, Cause::OverLimit),
    ("li r0 12345678901", 4, Cause::BadNumber),
    ("add r2 r2", 4, Cause::Missing),
    ("add r2 r2 r2 r2", 4, Cause::UnknownWord),
    ("pipe", 4, Cause::UnknownWord),
    ("add:\nend:\nadd: x", 6, Cause::Duplicate),
    ("a::", 4, Cause::UnknownWord),
    ("[power]", 4, Cause::Missing),
    ("end\n[power]", 5, Cause::BadSection),
    ("end\ntask t thread a limit 1", 5, Cause::Duplicate),
];

#[test]
fn faults_in_a_task(rt: HostRuntime) -> Result<(), Fail> {
    assert_eq!(rt; first_wrong(rt.alloc(), TASK, IN_A_TASK)?, None);
    Ok(())
}

const OF_TARGETS: &[Case] = &[
    ("jmp", 4, Cause::Missing),
    ("jz r1 1st", 4, Cause::UnknownWord),
    ("next t t", 4, Cause::UnknownWord),
    ("jmp away\nend\n[sensors]", 4, Cause::BadTarget),
    ("jmp away\nli x", 5, Cause::UnknownWord),
    ("jmp away\nend", 6, Cause::Missing),
    (
        "l:\nend\ntask s thread a limit 1\nnext s\njmp l\nend\n[sensors]",
        8,
        Cause::BadTarget,
    ),
    ("next s\njmp away\nend\n[sensors]", 4, Cause::BadTarget),
];

#[test]
fn faults_of_targets(rt: HostRuntime) -> Result<(), Fail> {
    assert_eq!(rt; first_wrong(rt.alloc(), TASK, OF_TARGETS)?, None);
    Ok(())
}

const OWNERS: &str = "[program]
thread a priority 1 queue 2 state 1 log 8
thread b priority 2 queue 2 state 1 log 8
pipe p 1 from a to b
timer t thread a off
task x thread b limit 9
";

const OF_OWNERS: &[Case] = &[
    ("send t", 7, Cause::UnknownWord),
    ("send p", 7, Cause::BadOwner),
    ("arm t", 7, Cause::BadOwner),
    ("stop t", 7, Cause::BadOwner),
    ("end\ntask y thread a limit 9\nsend p", 9, Cause::Missing),
    (
        "end\ntask y thread a limit 9\narm t r1 r16",
        9,
        Cause::UnknownWord,
    ),
    (
        "end\ntask y thread a limit 9\nstop t r1",
        9,
        Cause::UnknownWord,
    ),
];

#[test]
fn faults_of_owners(rt: HostRuntime) -> Result<(), Fail> {
    assert_eq!(rt; first_wrong(rt.alloc(), OWNERS, OF_OWNERS)?, None);
    Ok(())
}

// Two tasks, of which the second one, which is still open, has 4,096 instructions.
fn full_task(alloc: Global) -> Result<String, NoMemory> {
    let mut text = joined(alloc, TASK, "end\ntask s thread a limit 9\n")?;
    for _i in 0..4096 {
        text.push_str("next t\n")?;
    }
    Ok(text)
}

const BEHIND_4096: &[Case] = &[
    ("next", 4102, Cause::OverLimit),
    ("none", 4102, Cause::UnknownWord),
];

// Whether the two tasks are read.
fn is_full_task_read(alloc: Global) -> Result<bool, NoMemory> {
    let text = full_task(alloc)?;
    let whole = joined(alloc, text.as_str(), "end\n[sensors]\n")?;
    Ok(read(alloc, whole.as_str()).is_ok())
}

fn first_wrong_behind(alloc: Global) -> Result<Option<usize>, NoMemory> {
    let text = full_task(alloc)?;
    first_wrong(alloc, text.as_str(), BEHIND_4096)
}

#[test]
fn instructions_are_counted_over_all_tasks(rt: HostRuntime) -> Result<(), Fail> {
    assert!(rt; is_full_task_read(rt.alloc())?);
    assert_eq!(rt; first_wrong_behind(rt.alloc())?, None);
    Ok(())
}
