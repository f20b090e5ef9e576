//! The boot of one idle thread.

ghost use Rattle.std.specs.Prelude.{IsTrue};
ghost use Rattle.reboot.specs.Boot.{IsBoot, IsBootWord};

use crate::fixtures::{IDLE, plan};
use fram_words::Access;
use ink_base::Addr;
use ink_layout::{KernelPoint, Plan};
use reboot::{BootAt, BootMachine};
use std::process::Abort;
use std::test::Fail;
use task_isa::Program;

// The word is one that a row of an idle thread may find.
fn is_word(program: &Program, at: BootAt, word: u64) -> bool
    ensures { IsTrue result → IsBootWord program.now at word }
{
    match at {
        BootAt::Finished { .. } => word < 1 << 20,
        BootAt::Slot { .. } => false,
        _ => true,
    }
}

// The next access loads the address, and as it finds the word it is no entry.
fn passes(plan: &Plan, boot: &mut BootMachine, addr: Addr, word: u64) -> bool
    requires { IsBoot plan.now.accepted boot.old }
    ensures { IsBoot plan.now.accepted boot.new }
{
    boot.want(plan) == Access::Load(addr)
        && is_word(plan.program(), boot.at, word)
        && boot.take(plan, word) == KernelPoint::Nothing
}

fn passes_an_idle_thread(rt: &impl Abort, plan: &Plan) {
    let _program = plan.program();
    let mut boot = BootMachine::begin();
    assert!(rt; passes(plan, &mut boot, 1, 0));
    assert!(rt; passes(plan, &mut boot, 2, 7));
    assert_eq!(rt; boot.stamp(), None);
    assert!(rt; passes(plan, &mut boot, 7, 0));
    assert_eq!(rt; boot.stamp(), Some(7));
}

#[test]
fn an_idle_thread_is_passed_by_three_loads(rt: HostRuntime) -> Result<(), Fail> {
    let plan = plan(rt.alloc(), IDLE)?;
    passes_an_idle_thread(&rt, &plan);
    Ok(())
}
