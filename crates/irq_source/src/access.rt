//! One access of a source: of its own word SRC, or of a shared word by its seat.
ghost use Rattle.std.specs.Prelude.{◌≡◌, ◌⊎◌};
ghost use Rattle.push_core.specs.Table.{src_word};
ghost use Rattle.push_core.specs.declared.stage.Stage.TheVariants as stages;
ghost use Rattle.irq_source.specs.kept.Acts.{IsReady, HasMade};

use event_queue::{QueueSet, SourceSeat};
use fram_words::src_word;
use push_core::{Port, Row, Stage, empty};

/// Loads a slot in the boot.
fn load_boot_slot(
    set: &QueueSet,
    seat: &mut SourceSeat,
    port: &Port,
    readings: &[u32],
    row: Row,
    src: u64,
    slot: u8,
    seen: bool,
) -> u64
    requires stage { row.stage ≡ stages.LoadSlots slot seen }
    requires ready { IsReady set.now port.now readings.now row src seat.old }
    ensures { HasMade set.now port.now readings.now row src seat.old seat.new result src }
{
    seat.load_slot(set, slot)
}

/// Loads ACK in the boot.
fn load_ack(
    set: &QueueSet,
    seat: &mut SourceSeat,
    port: &Port,
    readings: &[u32],
    row: Row,
    src: u64,
    seen: bool,
) -> u64
    requires stage { row.stage ≡ stages.LoadAck seen }
    requires ready { IsReady set.now port.now readings.now row src seat.old }
    ensures { HasMade set.now port.now readings.now row src seat.old seat.new result src }
{
    seat.load_ack(set)
}

/// Loads the tail.
fn load_tail(
    set: &QueueSet,
    seat: &mut SourceSeat,
    port: &Port,
    readings: &[u32],
    row: Row,
    src: u64,
) -> u64
    requires stage { row.stage ≡ stages.LoadTail }
    requires ready { IsReady set.now port.now readings.now row src seat.old }
    ensures { HasMade set.now port.now readings.now row src seat.old seat.new result src }
{
    seat.load_tail(set)
}

/// Loads the slot of the tail.
fn load_slot(
    set: &QueueSet,
    seat: &mut SourceSeat,
    port: &Port,
    readings: &[u32],
    row: Row,
    src: u64,
    tail: u32,
) -> u64
    requires stage { row.stage ≡ stages.LoadSlot tail }
    requires ready { IsReady set.now port.now readings.now row src seat.old }
    ensures { HasMade set.now port.now readings.now row src seat.old seat.new result src }
{
    seat.load_slot(set, (tail % port.queue.places as u32) as u8)
}

/// Exchanges the slot of the tail for the next reading.
fn publish(
    set: &QueueSet,
    seat: &mut SourceSeat,
    port: &Port,
    readings: &[u32],
    row: Row,
    src: u64,
    tail: u32,
) -> u64
    requires stage { row.stage ≡ stages.Publish tail }
    requires ready { IsReady set.now port.now readings.now row src seat.old }
    ensures { HasMade set.now port.now readings.now row src seat.old seat.new result src }
{
    let count = (row.accepted % 64) as u8;
    let value = readings[row.next as usize];
    match seat.publish(set, tail, row.next, count, value) {
        Ok(()) => empty(tail),
        Err(lost) => lost.word,
    }
}

/// Moves the tail past an event.
fn move_tail(
    set: &QueueSet,
    seat: &mut SourceSeat,
    port: &Port,
    readings: &[u32],
    row: Row,
    src: u64,
    tail: u32,
) -> u64
    requires stage { (row.stage ≡ stages.MoveTail tail) ⊎ (row.stage ≡ stages.HelpTail tail) }
    requires ready { IsReady set.now port.now readings.now row src seat.old }
    ensures { HasMade set.now port.now readings.now row src seat.old seat.new result src }
{
    match seat.help_tail(set, tail) {
        Ok(()) => tail as u64,
        Err(moved) => moved.word,
    }
}

/// Stores SRC with these numbers, and answers the word that stood there.
fn store_src(src: &mut u64, accepted: u32, next: u32) -> u64
    ensures { (src.new ≡ src_word accepted next) × (result ≡ src.old) }
{
    let old = *src;
    *src = src_word(accepted, next);
    old
}

/// Makes the access of a row, and answers the word that it found; `src` is the source's own word.
pub(crate) fn make_access(
    set: &QueueSet,
    seat: &mut SourceSeat,
    port: &Port,
    readings: &[u32],
    row: Row,
    src: &mut u64,
) -> u64
    requires { IsReady set.now port.now readings.now row src.old seat.old }
    ensures { HasMade set.now port.now readings.now row src.old seat.old seat.new result src.new }
{
    match row.stage {
        Stage::LoadSrc => *src,
        Stage::LoadSlots { slot, seen } => {
            load_boot_slot(set, seat, port, readings, row, *src, slot, seen)
        }
        Stage::LoadAck { seen } => load_ack(set, seat, port, readings, row, *src, seen),
        Stage::LoadTail => load_tail(set, seat, port, readings, row, *src),
        Stage::LoadSlot { tail } => load_slot(set, seat, port, readings, row, *src, tail),
        Stage::Publish { tail } => publish(set, seat, port, readings, row, *src, tail),
        Stage::MoveTail { tail } | Stage::HelpTail { tail } => {
            move_tail(set, seat, port, readings, row, *src, tail)
        }
        Stage::StoreSkip => store_src(src, row.accepted, row.next + 1),
        Stage::StoreAccepted => store_src(src, row.accepted + 1, row.next + 1),
    }
}
