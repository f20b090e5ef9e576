//! A page that is copied, written and committed.

ghost use Rattle.std.specs.Prelude.{◌≡◌, ◌<◌};
ghost use Rattle.thread_state.specs.Writes.{CanWrite, IsAtRest};

use fram_words::{Access, Fram};
use ink_base::Addr;
use std::process::Abort;
use std::test::Fail;
use thread_state::{Block, BufferMachine, committed_at};

const BLOCK: Block = Block {
    commit: 0,
    first: 1,
    words: 48,
};

// Makes an access that lies on the board, and answers the word that it found; 0 for another one.
fn perform(fram: &mut Fram, access: Access) -> u64 {
    match access {
        Access::Load(addr) if addr < fram.len() => fram.perform(Access::Load(addr)),
        Access::Store(addr, word) if addr < fram.len() => fram.perform(Access::Store(addr, word)),
        _ => 0,
    }
}

fn word_at(fram: &mut Fram, addr: u32) -> u64 {
    perform(fram, Access::Load(addr))
}

// Makes the next access of the copying.
fn step(machine: &mut BufferMachine, fram: &mut Fram) -> Option<Access>
    ensures { machine.new.block ≡ machine.old.block }
{
    let access = machine.want()?;
    machine.take(perform(fram, access));
    Some(access)
}

// Copies a page: each of its words is loaded, and stored in its other place.
fn copy_page(
    rt: &impl Abort,
    machine: &mut BufferMachine,
    fram: &mut Fram,
    from: Addr,
    to: Addr,
    words: [u64; 8],
)
    requires from { from < 97 }
    requires to { to < 97 }
    ensures { machine.new.block ≡ machine.old.block }
{
    for k in 0..8 {
        assert_eq!(rt; step(machine, fram), Some(Access::Load(from + k)));
        let stored = Access::Store(to + k, words[k as usize]);
        assert_eq!(rt; step(machine, fram), Some(stored));
    }
}

// A write to word 2 of the first page, which is dirty, and its commit.
fn write_and_commit(rt: &impl Abort, machine: BufferMachine, fram: &mut Fram)
    requires block { machine.block ≡ BLOCK }
    requires rest { IsAtRest machine }
    requires dirty { CanWrite machine 2 }
{
    perform(fram, machine.write(2, 7));
    assert_eq!(rt; machine.read(2), Access::Load(11));
    assert_eq!(rt; machine.read(8), Access::Load(17));
    assert_eq!(rt; word_at(fram, committed_at(BLOCK, 0, 2)), 5);
    assert_eq!(rt; machine.commit(), Access::Store(0, 1));
    perform(fram, machine.commit());
    assert_eq!(rt; word_at(fram, 0), 1);
    assert_eq!(rt; word_at(fram, committed_at(BLOCK, 1, 2)), 7);
    assert_eq!(rt; word_at(fram, committed_at(BLOCK, 1, 3)), 0);
}

#[test]
fn one_store_makes_a_written_page_current(rt: HostRuntime) -> Result<(), Fail> {
    let mut fram = Fram::new(rt.alloc(), 97)?;
    perform(&mut fram, Access::Store(3, 5));
    let mut machine = BufferMachine::begin(BLOCK, 0);
    machine.prepare_write(2);
    copy_page(&rt, &mut machine, &mut fram, 1, 9, [0, 0, 5, 0, 0, 0, 0, 0]);
    assert_eq!(rt; machine.want(), None);
    assert!(rt; machine.is_dirty(2));
    write_and_commit(&rt, machine, &mut fram);
    Ok(())
}

#[test]
fn what_is_discarded_is_read_no_more(rt: HostRuntime) -> Result<(), Fail> {
    let mut fram = Fram::new(rt.alloc(), 97)?;
    let mut machine = BufferMachine::begin(BLOCK, 2);
    machine.prepare_write(9);
    copy_page(&rt, &mut machine, &mut fram, 25, 17, [0; 8]);
    assert_eq!(rt; machine.want(), None);
    assert_eq!(rt; machine.read(9), Access::Load(18));
    machine.discard();
    assert_eq!(rt; machine.read(9), Access::Load(26));
    assert_eq!(rt; machine.commit(), Access::Store(0, 2));
    Ok(())
}
