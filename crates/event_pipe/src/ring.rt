//! A pipe by its two counts, which its writer's and its reader's commits keep.
ghost use Rattle.std.specs.Prelude.{◌≡◌, ◌+◌, ◌≤◌, ◌^◌};
ghost use Rattle.event_pipe.specs.Ring as ring;

use ink_base::Addr;

/// The address of the ring word of item number `count`, in a ring of so many words from address `first` on. The ring lies below
/// address 2^32, and a pipe has a place at least.
pub fn ring_at(first: Addr, places: u8, count: u64) -> Addr
    requires some { 1 ≤ places }
    requires fits { first + places ≤ 2 ^ 32 }
    ensures { result ≡ first + ring.ring_index places count }
{
    first + (count % places as u64) as u32
}

/// Whether an item waits: more were written than taken. No more items are taken than were written.
pub fn has_item(written: u64, taken: u64) -> bool
    requires { taken ≤ written }
    ensures { result ≡ ring.has_item written taken }
{
    taken < written
}

/// Whether the pipe has a free place. No more items are taken than were written, and no more wait than there are places.
pub fn has_room(places: u8, written: u64, taken: u64) -> bool
    requires ordered { taken ≤ written }
    requires within { written ≤ taken + places }
    ensures { result ≡ ring.has_room places written taken }
{
    written - taken < places as u64
}
