use crate::limits::SCRIPT_LINES;
use crate::{Packet, RadioEvent, RadioRecord, decode_packet, encode_packet, radio, read_script};
use ink_base::limits::TEXT_BYTES;
use ink_base::{Cause, JobAnswer, JobFault, NoMemory, Output, TextAnswer, ThreadId, split_tokens};
use sqlite_items::Items;
use std::alloc::Global;
use std::test::*;

const FIRST: Output = Output {
    stamp: 1,
    thread: ThreadId(0),
    value: 9,
};

const SECOND: Output = Output {
    stamp: 2,
    thread: ThreadId(0),
    value: 16,
};

// The first output as a packet.
const DATA: [u8; 18] = [0x44, 0, 0, 0, 0, 0, 0, 0, 0, 0, 0, 0, 1, 0, 0, 0, 0, 9];

#[test]
fn a_packet_and_its_bytes(rt: HostRuntime) -> Result<(), Fail> {
    let data = Packet::Data {
        number: 0,
        output: FIRST,
    };
    assert_eq!(rt;
        encode_packet(rt.alloc(), &data)?.as_slice(),
        DATA.as_slice()
    );
    assert_eq!(rt; decode_packet(&DATA), Some(data));
    let ack = Packet::Ack { count: 258 };
    let bytes = encode_packet(rt.alloc(), &ack)?;
    assert_eq!(rt; bytes.as_slice(), [0x41, 0, 0, 1, 2].as_slice());
    assert_eq!(rt; decode_packet(bytes.as_slice()), Some(ack));
    Ok(())
}

#[test]
fn bytes_of_no_packet(rt: HostRuntime) {
    for length in 0..DATA.len() {
        assert_eq!(rt; decode_packet(&DATA[..length]), None);
    }
    let longer = [0x41, 0, 0, 0, 0, 0];
    assert_eq!(rt; decode_packet(&longer), None);
    let other_kind = [0x42, 0, 0, 0, 0];
    assert_eq!(rt; decode_packet(&other_kind), None);
    let mut thread_of_16 = DATA;
    thread_of_16[13] = 16;
    assert_eq!(rt; decode_packet(&thread_of_16), None);
}

// The events of a text that begins with the section's header.
fn read(alloc: Global, text: &[u8]) -> Result<Items<RadioEvent>, JobAnswer> {
    if text.len() > TEXT_BYTES {
        return Err(JobAnswer::NoMemory);
    }
    match split_tokens(alloc, text) {
        Ok(tokens) => read_script(alloc, text, &tokens, 0),
        Err(_) => Err(JobAnswer::NoMemory),
    }
}

// What a script makes of the two outputs.
fn told(alloc: Global, text: &[u8]) -> Result<RadioRecord, JobAnswer> {
    let script = read(alloc, text)?;
    if script.len() > SCRIPT_LINES {
        return Err(JobAnswer::NoMemory);
    }
    Ok(radio(alloc, &[FIRST, SECOND], script.as_slice())?)
}

// How many outputs are saved and fresh, how many the node knows as saved, how many it sent, and how many packets there are.
fn counts(record: &RadioRecord) -> (usize, usize, u32, u32, usize) {
    (
        record.saved.len(),
        record.fresh.len(),
        record.acked,
        record.sent,
        record.air.len(),
    )
}

// A script, and the counts that it leads to.
type Case = (&'static [u8], (usize, usize, u32, u32, usize));

const SCRIPTS: &[Case] = &[
    // An output out of order, one that is lost with the base's registers, and one that comes again.
    (
        b"[radio]\ngrow 2\nsend\nsend\ntobase 1\ntobase 0\nsave\ntobase 1\nbasecut\ntobase 1\nnodecut\ntonode 2\nrewind\nsend\ntobase 3\nsave\n",
        (2, 0, 1, 3, 5),
    ),
    // Nothing has grown.
    (b"[radio]\nsend\n", (0, 0, 0, 0, 0)),
    // There are no more outputs than two.
    (b"[radio]\ngrow 9\nsend\nsend\nsend\n", (0, 0, 0, 2, 2)),
    // Every packet is lost once.
    (
        b"[radio]\ngrow 2\nsend\nsend\nrewind\nsend\nsend\ntobase 2\ntobase 3\nsave\nsave\ntonode 5\nrewind\nsend\n",
        (2, 0, 2, 4, 6),
    ),
    // Every packet comes twice.
    (
        b"[radio]\ngrow 2\nsend\nsend\ntobase 0\ntobase 0\ntobase 1\ntobase 1\nsave\ntonode 2\ntonode 2\n",
        (2, 0, 2, 2, 3),
    ),
    // The counts of saved outputs come in the other order, and to the other side.
    (
        b"[radio]\ngrow 2\nsend\ntobase 0\nsave\nsend\ntobase 2\nsave\ntobase 3\ntonode 3\ntonode 1\ntonode 0\ntonode 4\n",
        (2, 0, 2, 2, 4),
    ),
    // What is fresh isn't known as saved.
    (b"[radio]\ngrow 2\nsend\ntobase 0\n", (0, 1, 0, 1, 1)),
];

#[test]
fn scripts_lead_to(rt: HostRuntime) -> Result<(), Fail> {
    for case in SCRIPTS {
        let record = told(rt.alloc(), case.0)?;
        assert_eq!(rt; counts(&record), case.1);
    }
    Ok(())
}

#[test]
fn outputs_and_packets(rt: HostRuntime) -> Result<(), Fail> {
    let record = told(rt.alloc(), SCRIPTS[0].0)?;
    assert_eq!(rt; record.saved.as_slice(), [FIRST, SECOND].as_slice());
    let packet = record.air.get(0).ok_or("a packet was sent")?;
    assert_eq!(rt; packet.as_slice(), DATA.as_slice());
    Ok(())
}

// The fault of a text; none where it is read.
fn fault(alloc: Global, text: &[u8]) -> Option<(u32, Cause)> {
    match read(alloc, text) {
        Err(JobAnswer::Fault(fault)) => Some((fault.line, fault.cause)),
        _ => None,
    }
}

const FAULTS: &[(&[u8], Option<(u32, Cause)>)] = &[
    (b"[radio]\n", None),
    (b"", Some((1, Cause::Missing))),
    (b"\n\n", Some((3, Cause::Missing))),
    (b"[radio] x\n", Some((1, Cause::UnknownWord))),
    (b"[radio]\nsend\nresend\n", Some((3, Cause::UnknownWord))),
    (b"[radio]\n[radio]\n", Some((2, Cause::UnknownWord))),
    (b"[radio]\n[x] y\ngrow\n", Some((2, Cause::UnknownWord))),
    (b"[radio]\n\ngrow # 1\n", Some((3, Cause::Missing))),
    (b"[radio]\ngrow x y\n", Some((2, Cause::BadNumber))),
    (
        b"[radio]\ntobase 00000000000\n",
        Some((2, Cause::BadNumber)),
    ),
    (b"[radio]\ntonode 4194304\n", None),
    (b"[radio]\ntonode 4194305 y\n", Some((2, Cause::OverLimit))),
    (
        b"[radio]\ntobase 1 2\ngrow\n",
        Some((2, Cause::UnknownWord)),
    ),
    (b"[radio]\nsave 1\n", Some((2, Cause::UnknownWord))),
];

#[test]
fn faults_of_scripts(rt: HostRuntime) {
    for case in FAULTS {
        assert_eq!(rt; fault(rt.alloc(), case.0), case.1);
    }
}

// The text of a script of so many lines `save`, and a last line.
fn long_text(alloc: Global, lines: usize, last: &[u8]) -> Result<Vec<u8>, NoMemory> {
    let mut text = Vec::new(alloc);
    text.extend_from_slice(b"[radio]\n")?;
    for _i in 0..lines {
        text.extend_from_slice(b"save\n")?;
    }
    text.extend_from_slice(last)?;
    Ok(text)
}

#[test]
fn the_longest_script(rt: HostRuntime) -> Result<(), Fail> {
    let longest = long_text(rt.alloc(), 65_535, b"send\n\n# rest")?;
    assert_eq!(rt; fault(rt.alloc(), longest.as_slice()), None);
    let longer = long_text(rt.alloc(), 65_536, b"grow")?;
    assert_eq!(rt;
        fault(rt.alloc(), longer.as_slice()),
        Some((65_538, Cause::OverLimit))
    );
    let unknown = long_text(rt.alloc(), 65_536, b"more")?;
    assert_eq!(rt;
        fault(rt.alloc(), unknown.as_slice()),
        Some((65_538, Cause::UnknownWord))
    );
    Ok(())
}
