//! Scripts and traces that are read, each refusal at its line, and lines as they are written.
use rv_core::{Cause, CoreState, End, Record};
use sn_base::{Answer, BlockNo, Event, Memory, NodeId, SwitchId, Undo};
use sn_model::Sent;
use sn_msg::{Body, Message};
use sn_text::{Line, ScriptCause, ScriptFault, read_script, read_trace};
use std::alloc::{AllocError, Global};
use std::process::Abort;
use std::test::Fail;

fn node(rt: &impl Abort, number: u8) -> NodeId {
    NodeId::new(number).expect(rt, "a node has a number below 16")
}

/// Scripts for four nodes, each with the cause for which it is refused.
const REFUSED_SCRIPTS: &[(&str, ScriptCause)] = &[
    ("step", ScriptCause::BadLine(1)),
    ("step ", ScriptCause::BadLine(1)),
    ("step  0", ScriptCause::BadLine(1)),
    (" step 0", ScriptCause::BadLine(1)),
    ("step 0 ", ScriptCause::BadLine(1)),
    ("step 00", ScriptCause::BadLine(1)),
    ("step 01", ScriptCause::BadLine(1)),
    ("step -1", ScriptCause::BadLine(1)),
    ("step +1", ScriptCause::BadLine(1)),
    ("Step 0", ScriptCause::BadLine(1)),
    ("step\t0", ScriptCause::BadLine(1)),
    ("step 18446744073709551616", ScriptCause::BadLine(1)),
    ("hop", ScriptCause::BadLine(1)),
    ("hop a", ScriptCause::BadLine(1)),
    ("deliver 1 2", ScriptCause::BadLine(1)),
    ("lose 0x1", ScriptCause::BadLine(1)),
    ("kill 0", ScriptCause::BadLine(1)),
    ("kill c0", ScriptCause::BadLine(1)),
    ("kill a", ScriptCause::BadLine(1)),
    ("kill a03", ScriptCause::BadLine(1)),
    ("evict 0", ScriptCause::BadLine(1)),
    ("evict 0 ", ScriptCause::BadLine(1)),
    ("evict 0 1 2", ScriptCause::BadLine(1)),
    ("evict 9 x", ScriptCause::BadLine(1)),
    ("input 0 f", ScriptCause::BadLine(1)),
    ("input 0 0F", ScriptCause::BadLine(1)),
    ("input 0 0ff", ScriptCause::BadLine(1)),
    ("validate 0", ScriptCause::BadLine(1)),
    ("recover\r", ScriptCause::BadLine(1)),
    ("\r", ScriptCause::BadLine(1)),
    ("step 0\n\n#\nedge\nstep 9\n", ScriptCause::BadLine(4)),
    ("step 4", ScriptCause::OutOfRange(1)),
    ("edge 16", ScriptCause::OutOfRange(1)),
    ("report 18446744073709551615", ScriptCause::OutOfRange(1)),
    ("evict 4 0", ScriptCause::OutOfRange(1)),
    ("evict 0 65536", ScriptCause::OutOfRange(1)),
    ("kill a4", ScriptCause::OutOfRange(1)),
    ("kill b99", ScriptCause::OutOfRange(1)),
    ("input 4 00", ScriptCause::OutOfRange(1)),
    ("step 0\r\nstep 9\nedge\n", ScriptCause::OutOfRange(2)),
    ("# may end so\r\nhop 1\n\rhop 2", ScriptCause::BadLine(3)),
];

/// Traces of four cores, each with the cause for which it is refused.
const REFUSED_TRACES: &[(&str, ScriptCause)] = &[
    ("0", ScriptCause::BadLine(1)),
    ("0 00000000", ScriptCause::BadLine(1)),
    ("0 00000000 ", ScriptCause::BadLine(1)),
    ("0 0000000 0", ScriptCause::BadLine(1)),
    ("0 000000000 0", ScriptCause::BadLine(1)),
    ("0 0000000A 0", ScriptCause::BadLine(1)),
    ("0 00000000 2", ScriptCause::BadLine(1)),
    ("0 00000000 00", ScriptCause::BadLine(1)),
    ("0 00000000  0", ScriptCause::BadLine(1)),
    ("0  00000000 0", ScriptCause::BadLine(1)),
    (" 0 00000000 0", ScriptCause::BadLine(1)),
    ("0 00000000 0 ", ScriptCause::BadLine(1)),
    ("0 00000000 0 4", ScriptCause::BadLine(1)),
    ("0 00000000 0 4G", ScriptCause::BadLine(1)),
    ("0 00000000 0 41 41", ScriptCause::BadLine(1)),
    ("01 00000000 0", ScriptCause::BadLine(1)),
    ("9 00000000 2", ScriptCause::BadLine(1)),
    ("18446744073709551616 00000000 0", ScriptCause::BadLine(1)),
    (
        "18446744073709551615 00000000 0",
        ScriptCause::OutOfRange(1),
    ),
    ("\r\r\r", ScriptCause::BadLine(1)),
    ("0 00000000 0\r\r\n", ScriptCause::BadLine(1)),
    ("\n#\r\n\r\n\r", ScriptCause::BadLine(4)),
    (
        "#\n\n3 00000000 0\r\n4 00000000 0",
        ScriptCause::OutOfRange(4),
    ),
];

/// The cause for which a text is refused for four nodes, or nothing where it isn't.
fn cause_of(alloc: Global, text: &str, is_trace: bool) -> Result<Option<ScriptCause>, Memory> {
    if text.len() > 100 {
        return Ok(None);
    }
    let fault = if is_trace {
        read_trace(alloc, text.as_bytes(), 4).err()
    } else {
        read_script(alloc, text.as_bytes(), 4).err()
    };
    match fault {
        Some(ScriptFault::Refused(cause)) => Ok(Some(cause)),
        Some(ScriptFault::Memory) => Err(Memory),
        None => Ok(None),
    }
}

fn each_is_refused(
    rt: &impl Abort,
    alloc: Global,
    rows: &[(&str, ScriptCause)],
    is_trace: bool,
) -> Result<(), Memory> {
    for (text, cause) in rows {
        let found = cause_of(alloc, text, is_trace)?;
        assert!(rt; found == Some(*cause));
    }
    Ok(())
}

#[test]
fn the_first_cause_is_given_at_its_line(rt: HostRuntime) -> Result<(), Memory> {
    each_is_refused(&rt, rt.alloc(), REFUSED_SCRIPTS, false)?;
    each_is_refused(&rt, rt.alloc(), REFUSED_TRACES, true)
}

fn written(rt: &impl Abort, line: &Line, text: &str) {
    assert!(rt; line.bytes() == text.as_bytes());
}

fn is_only_event(read: &[Event], event: &Event) -> bool {
    read.len() == 1 && read[0] == *event
}

/// The event has this line, and is what a script of that line is read as.
fn event_has_line(
    rt: &impl Abort,
    alloc: Global,
    line: &mut Line,
    event: &Event,
    text: &str,
) -> Result<(), Fail> {
    line.clear();
    line.script(event);
    written(rt, line, text);
    let read = read_script(alloc, line.bytes(), 4)?;
    assert!(rt; is_only_event(read.as_slice(), event), "of {text}");
    Ok(())
}

#[test]
fn each_event_is_written_and_read_back(rt: HostRuntime) -> Result<(), Fail> {
    let rows = [
        (Event::Step(node(&rt, 0)), "step 0\n"),
        (
            Event::Evict(node(&rt, 3), BlockNo::new(65_535)),
            "evict 3 65535\n",
        ),
        (Event::Edge(node(&rt, 1)), "edge 1\n"),
        (
            Event::Hop(18_446_744_073_709_551_615),
            "hop 18446744073709551615\n",
        ),
        (Event::Deliver(0), "deliver 0\n"),
        (Event::Lose(7), "lose 7\n"),
        (Event::Kill(SwitchId::a(node(&rt, 3))), "kill a3\n"),
        (Event::Kill(SwitchId::b(node(&rt, 0))), "kill b0\n"),
        (Event::Report(node(&rt, 2)), "report 2\n"),
        (Event::Validate, "validate\n"),
        (Event::Recover, "recover\n"),
        (Event::Input(node(&rt, 1), 15), "input 1 0f\n"),
    ];
    let mut line = Line::new(rt.alloc())?;
    for (event, text) in &rows {
        event_has_line(&rt, rt.alloc(), &mut line, event, text)?;
    }
    Ok(())
}

fn is_only_record(read: &[Record], record: &Record) -> bool {
    read.len() == 1 && read[0] == *record
}

/// The record has this line, and is what a trace of that line is read as.
fn record_has_line(
    rt: &impl Abort,
    alloc: Global,
    line: &mut Line,
    record: &Record,
    text: &str,
) -> Result<(), Fail> {
    line.clear();
    line.trace(record);
    written(rt, line, text);
    let read = read_trace(alloc, line.bytes(), 16)?;
    assert!(rt;
        read.len() == 1 && read.first() == Some(record),
        "of {text}"
    );
    Ok(())
}

/// A record's core, what it saw, whether it is a store-conditional that was done, and the byte of input that it read; and its line.
const RECORDS: &[(u8, u32, bool, Option<u8>, &str)] = &[
    (0, 0, false, None, "0 00000000 0\n"),
    (15, 0x1234_abcd, true, None, "15 1234abcd 1\n"),
    (3, 0xffff_ffff, false, Some(0x4e), "3 ffffffff 0 4e\n"),
];

#[test]
fn each_record_is_written_and_read_back(rt: HostRuntime) -> Result<(), Fail> {
    let mut line = Line::new(rt.alloc())?;
    for (core, seen, sc_done, read, text) in RECORDS {
        let record = Record {
            core: node(&rt, *core),
            seen: *seen,
            sc_done: *sc_done,
            read: *read,
        };
        record_has_line(&rt, rt.alloc(), &mut line, &record, text)?;
    }
    Ok(())
}

/// A script of so many recoveries, then a last line.
fn recoveries(alloc: Global, count: usize, last: &str) -> Result<String, AllocError> {
    let mut text = "recover\n".repeat(alloc, count)?;
    text.push_str(last)?;
    Ok(text)
}

/// How many events a script has, or the cause for which it is refused.
fn count_read(alloc: Global, text: &[u8]) -> Result<Result<usize, ScriptCause>, Memory> {
    if text.len() > 100_000_000 {
        return Ok(Ok(0));
    }
    match read_script(alloc, text, 16) {
        Ok(events) => Ok(Ok(events.len())),
        Err(ScriptFault::Refused(cause)) => Ok(Err(cause)),
        Err(ScriptFault::Memory) => Err(Memory),
    }
}

#[test]
fn a_million_events_and_no_more(rt: HostRuntime) -> Result<(), Fail> {
    let most = recoveries(rt.alloc(), 1_000_000, "# no event")?;
    let found = count_read(rt.alloc(), most.as_bytes())?;
    assert!(rt; found == Ok(1_000_000));
    let more = recoveries(rt.alloc(), 1_000_000, "step 15")?;
    let found = count_read(rt.alloc(), more.as_bytes())?;
    assert!(rt; found == Err(ScriptCause::TooMany));
    Ok(())
}

#[test]
fn an_event_and_what_it_sent_have_their_lines(rt: HostRuntime) -> Result<(), Fail> {
    let mut line = Line::new(rt.alloc())?;
    let (first, third) = (node(&rt, 0), node(&rt, 3));
    line.event(12, &Event::Deliver(7), &Answer::Delivered);
    let forwarded = Sent {
        message: Message {
            id: 8,
            from: first,
            to: third,
            tag: 2,
            block: BlockNo::new(64),
            body: Body::FwdGetM(node(&rt, 1), 2),
        },
        lost: true,
    };
    line.all_sent(&[forwarded]);
    written(
        &rt,
        &line,
        "12 deliver 7: delivered\n  msg 8 fwdgetm 0 3 2 64 req 1 acks 2 lost\n",
    );
    Ok(())
}

#[test]
fn an_answer_has_its_numbers_and_nodes(rt: HostRuntime) -> Result<(), Fail> {
    let mut line = Line::new(rt.alloc())?;
    let (first, third) = (node(&rt, 0), node(&rt, 3));
    let undo = Undo {
        to: 1,
        undone: 2,
        dropped: 3,
    };
    line.event(
        1,
        &Event::Kill(SwitchId::b(third)),
        &Answer::Recovered(undo),
    );
    written(&rt, &line, "1 kill b3: recovered 1 undone 2 dropped 3\n");
    line.clear();
    line.event(1, &Event::Input(third, 10), &Answer::CutOff(first, third));
    written(&rt, &line, "1 input 3 0a: cutoff 0 3\n");
    Ok(())
}

#[test]
fn a_count_a_watched_word_and_a_probe_have_their_lines(rt: HostRuntime) -> Result<(), Fail> {
    let mut line = Line::new(rt.alloc())?;
    line.count("# ", "released", 20);
    line.watch("  ", 0x8000_1000, 0xab);
    line.probe("", 1, 0, 18_446_744_073_709_551_615);
    written(
        &rt,
        &line,
        "# released 20\n  watch 80001000 000000ab\nprobe 1 0 18446744073709551615\n",
    );
    Ok(())
}

#[test]
fn a_core_has_its_registers_that_are_not_zero(rt: HostRuntime) -> Result<(), Fail> {
    let mut line = Line::new(rt.alloc())?;
    let mut core = CoreState::start(node(&rt, 15), 0x8000_0000);
    core.x[0] = 9;
    core.x[31] = 0xabcd;
    core.end = End::Trapped(Cause::MisalignedAccess);
    line.core("  ", node(&rt, 15), &core);
    written(
        &rt,
        &line,
        "  core 15 80000000 trapped misaligned x10=0000000f x31=0000abcd\n",
    );
    Ok(())
}
