//! A gate that lets no actor pass before another one has come so far: actors that run one after another don't pass it.

use crate::fixtures::lived;
use ink_base::{Actor, SourceId};
use irq_source::Gate;
use std::sync::atomic::{AtomicU64, Ordering};
use std::test::Fail;

const TWO_EACH: &[u8] =
    b"[program]\nthread a priority 1 queue 4 state 1 log 8\nsource a\nsource a\ntask sum thread a limit 100\nli r1 0\nld r2 r1\nev r3\nadd r2 r2 r3\nst r2 r1\nout r2\ndone\nend\n[sensors]\nS0 7 8\nS1 9 10\n[power]\ncharge 0 S0*100 S1*100 K*400\n";

/// The turns for which an actor is held at most.
const TURNS_HELD: u32 = 10_000_000;

// How far each actor has come, by what it told at the gate, and how many holds ran out.
#[derive(Drop)]
struct Holds {
    first: AtomicU64,
    second: AtomicU64,
    commits: AtomicU64,
    run_out: AtomicU64,
}

impl Holds {
    fn new() -> Holds {
        Holds {
            first: AtomicU64::new(0),
            second: AtomicU64::new(0),
            commits: AtomicU64::new(0),
            run_out: AtomicU64::new(0),
        }
    }

    // Holds until an actor has told of one publication or commit. Once a hold has run out, none holds any more.
    fn hold(&self, awaited: &AtomicU64) {
        for _ in 0..TURNS_HELD {
            let told = awaited.load(Ordering::SeqCst);
            let run_out = self.run_out.load(Ordering::SeqCst);
            if told > 0 || run_out > 0 {
                return;
            }
        }
        self.run_out.store(1, Ordering::SeqCst);
    }

    // Before it has published, the first source waits for the second one; then for the kernel.
    fn pass_first(&self, done: u32) {
        self.first.store(done as u64, Ordering::SeqCst);
        if done == 0 {
            self.hold(&self.second);
        } else {
            self.hold(&self.commits);
        }
    }

    // Once it has published, the second source waits for the first one.
    fn pass_second(&self, done: u32) {
        self.second.store(done as u64, Ordering::SeqCst);
        if done > 0 {
            self.hold(&self.first);
        }
    }

    // Before it has committed, the kernel waits for the first source.
    fn pass_kernel(&self, done: u32) {
        self.commits.store(done as u64, Ordering::SeqCst);
        if done == 0 {
            self.hold(&self.first);
        }
    }
}

impl Gate for Holds {
    fn pass(&self, actor: Actor, done: u32) {
        match actor {
            Actor::Source(SourceId(0)) => self.pass_first(done),
            Actor::Source(_) => self.pass_second(done),
            Actor::Kernel => self.pass_kernel(done),
            Actor::Clock => {}
        }
    }
}

#[test]
fn actors_run_beside_each_other(rt: HostRuntime) -> Result<(), Fail> {
    let alloc = rt.alloc();
    let holds = Holds::new();
    let record = lived(alloc, &rt, TWO_EACH, &holds)?;
    assert_eq!(rt; holds.run_out.load(Ordering::SeqCst), 0);
    assert_eq!(rt; record.refused.as_slice().len(), 0);
    Ok(())
}
