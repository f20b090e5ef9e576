//! What a turn made.

ghost use Rattle.std.specs.Prelude.{◌≡◌};
ghost use Rattle.ink_layout.specs.Points.{entry_of_point};
ghost use Rattle.kernel_core.specs.Board.{entry_of_source};
ghost use Rattle.kernel_core.specs.Made.{nothing_made};

use fram_words::Access;
use ink_base::{Entry, SourceId};
use ink_layout::KernelPoint;
use push_core::Point;

/// The access that a turn made, the word that it found, and the entry that it added to the journal; no access and the word 0 where a
/// source had none left to make.
#[derive(Clone, Copy)]
pub struct Made {
    pub access: Option<Access>,
    pub word: u64,
    pub entry: Option<Entry>,
}

// No access.
pub(crate) fn nothing_made() -> Made
    ensures { result ≡ nothing_made }
{
    Made {
        access: None,
        word: 0,
        entry: None,
    }
}

// The entry that a point of the kernel stands for.
pub(crate) fn entry_of_point(point: KernelPoint) -> Option<Entry>
    ensures { result ≡ entry_of_point point }
{
    match point {
        KernelPoint::Nothing => None,
        KernelPoint::Scan => Some(Entry::Scan),
        KernelPoint::Look(thread) => Some(Entry::Look { thread }),
        KernelPoint::Commit(thread) => Some(Entry::Commit { thread }),
        KernelPoint::Release(thread) => Some(Entry::Release { thread }),
    }
}

// The entry that a point of a source stands for.
pub(crate) fn entry_of_source(source: SourceId, point: Point) -> Option<Entry>
    ensures { result ≡ entry_of_source source.0 point }
{
    match point {
        Point::Nothing => None,
        Point::Pushed => Some(Entry::Push { source }),
        Point::Refused => Some(Entry::Refuse { source }),
        Point::Skipped => Some(Entry::Skip { source }),
    }
}
