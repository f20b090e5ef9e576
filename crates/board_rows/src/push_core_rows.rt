//! Worked words and the first accesses of a source.

ghost use Rattle.std.specs.Prelude.{◌≡◌};

use fram_words::{Access, QueuePlace};
use ink_base::SourceId;
use push_core::{Phase, Point, Port, Pusher, Slot, Stage, empty, full, read_slot};

/// A source of number 1 with a queue of two places.
fn port() -> Port
    ensures { result ≡ record { source = record { 0 = 1 }; queue = record { tail = 100; slots = 101; places = 2 }; ack = 103; src = 105 } }
{
    Port {
        source: SourceId(1),
        queue: QueuePlace {
            tail: 100,
            slots: 101,
            places: 2,
        },
        ack: 103,
        src: 105,
    }
}

#[test]
fn slot_words_have_their_bits(rt: HostRuntime) {
    assert_eq!(rt; full(0, SourceId(0), 0, 7), 0x8000000000000007);
    assert_eq!(rt; full(1, SourceId(0), 1, 8), 0x8000040100000008);
    assert_eq!(rt; empty(2), 0x0000080000000000);
}

#[test]
fn slot_words_are_read_back(rt: HostRuntime) {
    assert_eq!(rt;
        read_slot(0x0000080000000000),
        Some(Slot::Empty { position: 2 })
    );
    let second = Slot::Full {
        position: 1,
        source: SourceId(0),
        count: 1,
        value: 8,
    };
    assert_eq!(rt; read_slot(0x8000040100000008), Some(second));
    assert_eq!(rt; read_slot(1), None);
}

#[test]
fn positions_go_round_the_ring(rt: HostRuntime) {
    assert_eq!(rt; port().slot_at(4), 101);
    assert_eq!(rt; port().slot_at(5), 102);
}

#[test]
fn a_boot_begins_with_src(rt: HostRuntime) {
    let readings = [7u32, 8, 9];
    let source = Pusher::boot(port());
    assert_eq!(rt; source.want(&readings), Some(Access::Load(105)));
    assert_eq!(rt; source.phase(), Phase::Boot);
    assert!(rt; matches!(source.row().stage, Stage::LoadSrc));
}

#[test]
fn a_loaded_src_gives_the_numbers(rt: HostRuntime) {
    let readings = [7u32, 8, 9];
    let mut source = Pusher::boot(port());
    assert_eq!(rt; source.take(&readings, 0x0000000200000001), Point::Nothing);
    assert_eq!(rt; source.next_reading(), 2);
    assert_eq!(rt; source.accepted(), 1);
    assert_eq!(rt; source.want(&readings), Some(Access::Load(101)));
}
