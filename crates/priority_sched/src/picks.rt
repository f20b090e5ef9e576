//! What a scan picks.
ghost use Rattle.std.specs.Prelude.{◌≡◌, ◌≤◌, ◌<◌, ◌^◌};
ghost use Rattle.priority_sched.specs.Picks.{chain_pick, queue_pick, item_pick, timer_pick};
ghost use Rattle.priority_sched.specs.declared.scan_at.ScanAt.TheVariants.{Picked};

use crate::chain::Chain;
use crate::idle::{Idle, Waiting};
use crate::machine::ScanMachine;
use crate::scan_at::ScanAt;
use ink_base::{Event, Origin, TimerId};
use ink_layout::Pick;

impl ScanMachine {
    /// A running chain is picked.
    pub(crate) fn pick_chain(&mut self, chain: Chain, first: u64, event: Event)
        ensures { self.new ≡ record self.old { at = Picked (chain_pick self.old.thread self.old.time chain first event) } }
    {
        let pick = Pick {
            thread: self.thread,
            event,
            running: Some(chain.running),
            position: chain.position,
            time: self.time,
            commit_word: chain.commit_word,
            first,
            due_word: 0,
            taken: 0,
        };
        self.at = ScanAt::Picked { pick };
    }

    /// A queue's event is picked.
    pub(crate) fn pick_queued(&mut self, commit_word: u64, position: u32, event: Event)
        ensures { self.new ≡ record self.old { at = Picked (queue_pick self.old.thread self.old.time commit_word position event) } }
    {
        let pick = Pick {
            thread: self.thread,
            event,
            running: None,
            position,
            time: self.time,
            commit_word,
            first: 0,
            due_word: 0,
            taken: 0,
        };
        self.at = ScanAt::Picked { pick };
    }

    /// The first item of a pipe that isn't taken is picked.
    pub(crate) fn pick_item(&mut self, waiting: Waiting, value: u32)
        requires { waiting.taken < 2 ^ 32 }
        ensures { self.new ≡ record self.old { at = Picked (item_pick self.old.thread self.old.time waiting value) } }
    {
        let origin = Origin::Pipe {
            pipe: waiting.pipe,
            item: waiting.taken as u32,
        };
        let pick = Pick {
            thread: self.thread,
            event: Event { origin, value },
            running: None,
            position: waiting.idle.position,
            time: self.time,
            commit_word: waiting.idle.commit_word,
            first: 0,
            due_word: 0,
            taken: waiting.taken,
        };
        self.at = ScanAt::Picked { pick };
    }

    /// A timer that is due is picked.
    pub(crate) fn pick_timer(&mut self, idle: Idle, timer: TimerId, word: u64)
        requires { 1 ≤ word }
        ensures { self.new ≡ record self.old { at = Picked (timer_pick self.old.thread self.old.time idle timer word) } }
    {
        let deadline = word - 1;
        let pick = Pick {
            thread: self.thread,
            event: Event {
                origin: Origin::Timer { timer, deadline },
                value: (deadline % (1 << 32)) as u32,
            },
            running: None,
            position: idle.position,
            time: self.time,
            commit_word: idle.commit_word,
            first: 0,
            due_word: word,
            taken: 0,
        };
        self.at = ScanAt::Picked { pick };
    }
}
