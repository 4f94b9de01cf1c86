//! Traces that are executions, and such that were spoiled.
ghost use Rattle.std.specs.Prelude.{◌≤◌};

use rv_core::Record;
use sn_base::{Image, Memory, NodeId, Segment};
use sn_io::{Gate, OpenGate};
use std::alloc::Global;
use std::sync::atomic::{AtomicU64, Ordering};
use std::test::Fail;
use std::thread::Threads;
use trace_check::{CheckFault, check};

/// A record as a line of a trace has it: core, word seen, whether an SC was done, and the byte read.
type Row = (u8, u32, bool, Option<u8>);

/// Each core adds 1 to a word and exits.
const ADDS: [u32; 5] = [
    0x8000_12b7,
    0x0010_0313,
    0x0062_a3af,
    0x05d0_0893,
    0x0000_0073,
];

/// Core 0 does LR and SC on a word, and the others store their number to it.
const TRIES: [u32; 7] = [
    0x8000_12b7,
    0x0005_1863,
    0x1002_a32f,
    0x1862_a3af,
    0x0000_006f,
    0x00a2_a023,
    0x0000_006f,
];

/// A byte is read and put out.
const ECHOES: [u32; 6] = [
    0x0020_0893,
    0x0000_0073,
    0x0010_0893,
    0x0000_0073,
    0x05d0_0893,
    0x0000_0073,
];

/// A program of at most 16 words.
fn program(alloc: Global, words: &[u32]) -> Result<Image, Memory> {
    let mut bytes = Vec::new(alloc);
    for word in words {
        bytes.extend_from_slice(&word.to_le_bytes())?;
    }
    bytes.truncate(64);
    let mut segments = Vec::new(alloc);
    segments.push(Segment {
        start: 0x8000_0000,
        size: 64,
        bytes,
        write: false,
        exec: true,
    })?;
    Ok(Image::new(segments, 0x8000_0000))
}

/// The verdict on a trace of two nodes that had the memory that it wants.
fn verdict<T: Threads + Sync, G: Gate + Sync>(
    rt: &T,
    alloc: Global,
    words: &[u32],
    rows: &[Row],
    gate: &G,
) -> Result<Result<(), CheckFault>, Fail> {
    let image = program(alloc, words)?;
    let mut records = Vec::new(alloc);
    for row in rows {
        records.push(Record {
            core: NodeId::new(row.0).ok_or("a node has a number below 16")?,
            seen: row.1,
            sc_done: row.2,
            read: row.3,
        })?;
    }
    match check(rt, alloc, &image, 2, records.as_slice(), gate) {
        Err(CheckFault::Memory) => Err(Fail::from(Memory)),
        decided => Ok(decided),
    }
}

fn plain(core: u8) -> Row {
    (core, 0, false, None)
}

fn saw(core: u8, seen: u32) -> Row {
    (core, seen, false, None)
}

#[test]
fn the_first_bad_place_of_all_projections_is_named(rt: HostRuntime) -> Result<(), Fail> {
    let zero = plain(0);
    let one = plain(1);
    let two = plain(2);
    let gate = OpenGate::new();
    let cases = [
        ([zero, zero, zero, one, one, saw(1, 1)], Ok(())),
        ([zero, zero, zero, one, one, one], Err(6)),
        ([zero, zero, saw(0, 9), one, one, saw(1, 10)], Err(3)),
        ([zero, zero, saw(0, 9), saw(1, 7), one, one], Err(3)),
        ([zero, saw(0, 5), saw(0, 9), one, one, one], Err(2)),
        ([zero, one, zero, two, saw(0, 9), one], Err(4)),
        ([two, zero, zero, zero, one, one], Err(1)),
        ([zero, saw(0, 5), two, zero, one, one], Err(2)),
        ([zero, one, one, zero, one, saw(0, 1)], Ok(())),
        ([zero, zero, zero, zero, zero, zero], Err(6)),
    ];
    for (rows, wanted) in cases {
        let found = verdict(&rt, rt.alloc(), &ADDS, &rows, &gate)?;
        assert!(rt; found == wanted.map_err(CheckFault::NotLegal));
    }
    let none: [Row; 0] = [];
    assert!(rt; verdict(&rt, rt.alloc(), &ADDS, &none, &gate)? == Ok(()));
    Ok(())
}

#[test]
fn a_write_of_another_core_breaks_a_reservation(rt: HostRuntime) -> Result<(), Fail> {
    let zero = plain(0);
    let one = plain(1);
    let done = (0, 0, true, None);
    let gate = OpenGate::new();
    let cases = [
        ([zero, zero, zero, one, one, done, one], Ok(())),
        ([zero, zero, zero, one, one, one, done], Err(7)),
        ([zero, zero, zero, one, one, one, zero], Ok(())),
        ([one, one, one, zero, zero, saw(0, 1), done], Ok(())),
        ([one, one, one, zero, zero, zero, done], Err(6)),
        ([zero, zero, done, one, one, one, zero], Err(3)),
    ];
    for (rows, wanted) in cases {
        let found = verdict(&rt, rt.alloc(), &TRIES, &rows, &gate)?;
        assert!(rt; found == wanted.map_err(CheckFault::NotLegal));
    }
    Ok(())
}

#[test]
fn a_byte_is_read_exactly_where_one_is_wanted(rt: HostRuntime) -> Result<(), Fail> {
    let zero = plain(0);
    let byte = (0, 0, false, Some(0x41));
    let gate = OpenGate::new();
    let cases = [
        ([zero, byte, zero, zero], Ok(())),
        ([zero, zero, zero, zero], Err(2)),
        ([zero, byte, byte, zero], Err(3)),
    ];
    for (rows, wanted) in cases {
        let found = verdict(&rt, rt.alloc(), &ECHOES, &rows, &gate)?;
        assert!(rt; found == wanted.map_err(CheckFault::NotLegal));
    }
    Ok(())
}

/// Holds each core's call until both cores' calls have begun, or for very many looks.
#[derive(Drop)]
struct Meeting {
    begun: AtomicU64,
    missed: AtomicU64,
}

impl Gate for Meeting {
    fn before(&self, _worker: u32, _turn: u64) {
        self.begun.fetch_add(1, Ordering::SeqCst);
        for _ in 0..50_000_000u32 {
            if self.begun.load(Ordering::SeqCst) >= 2 {
                return;
            }
        }
        self.missed.fetch_add(1, Ordering::SeqCst);
    }
}

#[test]
fn the_cores_are_replayed_at_once(rt: HostRuntime) -> Result<(), Fail> {
    let gate = Meeting {
        begun: AtomicU64::new(0),
        missed: AtomicU64::new(0),
    };
    let rows = [plain(0), plain(0), plain(0), plain(1), plain(1), saw(1, 1)];
    assert!(rt; verdict(&rt, rt.alloc(), &ADDS, &rows, &gate)? == Ok(()));
    assert!(rt;
        gate.missed.load(Ordering::SeqCst) == 0,
        "a core waited in vain"
    );
    Ok(())
}
