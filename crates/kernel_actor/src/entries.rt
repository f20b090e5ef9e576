//! The entries of an account that accesses make.
ghost use Rattle.std.specs.Prelude.{◌≡◌, ◌≤◌};
ghost use Rattle.kernel_actor.specs.Accounts.{entry_made};

use crate::kind::Kind;
use ink_layout::KernelPoint;
use kernel_account::KernelEntry;

/// The entry that an access of a kind makes, where it found this word; none where it makes none.
pub fn entry_made(kind: Kind, word: u64, point: KernelPoint) -> Option<KernelEntry>
    ensures { result ≡ entry_made kind word point }
{
    match point {
        KernelPoint::Nothing => None,
        KernelPoint::Scan => Some(KernelEntry::Scan { clock: word }),
        KernelPoint::Look(thread) => match kind {
            Kind::Look(at) => Some(KernelEntry::Look {
                thread,
                position: at.position,
            }),
            _ => None,
        },
        KernelPoint::Commit(thread) => Some(KernelEntry::Commit { thread }),
        KernelPoint::Release(thread) => Some(KernelEntry::Release { thread }),
    }
}

/// 1 for a commit, 0 for anything else.
pub fn commits_of(point: KernelPoint) -> u32
    ensures { result ≤ 1 }
{
    match point {
        KernelPoint::Commit(_) => 1,
        _ => 0,
    }
}
