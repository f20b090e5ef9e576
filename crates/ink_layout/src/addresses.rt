//! The addresses of the places of a board.

ghost use Rattle.std.specs.Prelude.{◌≡◌};
ghost use Rattle.fram_words.specs.Places as places;
ghost use Rattle.fram_words.specs.Steps.{access_of, place_of};
ghost use Rattle.ink_layout.specs.Addresses.{at_layout, layout_address};
ghost use Rattle.ink_layout.specs.Layouts.{IsLayout};
ghost use Rattle.ink_layout.specs.Shape.{IsOnBoard};

use crate::plan::Plan;
use fram_words::{Access, Layout, Place, Step};
use ink_base::Addr;
use prog_check::Accepted;

impl Plan {
    /// The access to the address that the layout gives to the place of the step, which is one of the program's board.
    #[inline(always)]
    pub fn access(&self, step: Step) -> Access
        requires { IsOnBoard self.now.accepted (places.place_of (access_of step)) }
        ensures { result ≡ at_layout self.now.layout (access_of step) }
    {
        match step {
            Step::Load(place) => Access::Load(self.address(place)),
            Step::Store(place, word) => Access::Store(self.address(place), word),
            Step::Exchange { place, expect, new } => Access::Exchange {
                addr: self.address(place),
                expect,
                new,
            },
            Step::Add { place, by } => Access::Add {
                addr: self.address(place),
                by,
            },
        }
    }

    /// The address that the layout gives to a place of the program's board.
    #[inline(always)]
    pub fn address(&self, place: Place) -> Addr
        requires { IsOnBoard self.now.accepted (place_of place) }
        ensures { result ≡ layout_address self.now.layout (place_of place) }
    {
        // The layout is the program's own.
        let _program = self.program();
        address_of(&self.accepted, &self.layout, place)
    }
}

// The address that the layout gives to a place of the program's board.
#[inline(always)]
#[tactic(auto, using(crate::proofs::Below::address_below))]
pub(crate) fn address_of(program: &Accepted, layout: &Layout, place: Place) -> Addr
    requires layout { IsLayout program.now layout.now }
    requires on_board { IsOnBoard program.now (place_of place) }
    ensures { result ≡ layout_address layout.now (place_of place) }
{
    // The program is accepted.
    let _program = program.program();
    match place {
        Place::Code { task, offset } => layout.tasks.as_slice()[task.0 as usize] + offset,
        Place::Commit { thread } => layout.threads.as_slice()[thread.0 as usize].commit,
        Place::Page {
            thread,
            page,
            copy,
            word,
        } => layout.threads.as_slice()[thread.0 as usize].first + 16 * page + 8 * copy + word,
        Place::Log { thread, index } => layout.threads.as_slice()[thread.0 as usize].log + index,
        Place::Ring { pipe, index } => layout.rings.as_slice()[pipe.0 as usize] + index,
        Place::Tail { thread } => layout.queues.as_slice()[thread.0 as usize].tail,
        Place::Slot { thread, index } => layout.queues.as_slice()[thread.0 as usize].slots + index,
        Place::Ack { source } => layout.acks + source.0 as u32,
        Place::Clock => layout.clock,
        Place::Src { source } => layout.srcs + source.0 as u32,
    }
}
