//! Rows of lists: those that are judged with their reports, and those that are refused with the cause.
use access_check::is_fitting;
use access_texts::{JudgeFault, judge_text};
use sn_base::{Memory, Width};
use sn_io::MemSink;
use sn_text::ScriptCause;
use std::alloc::Global;
use std::process::Abort;

/// Lists with their reports.
const JUDGED: &[(&str, &str)] = &[
    ("", "legal 0\n"),
    ("# nothing\n\ninit 80000000 00000001\n", "legal 0\n"),
    ("0 r 803ffffc 4 00000000\r\n", "legal 1\n"),
    ("0 r 803fffff 1 01", "refused 1\nexpected 00 since 0\n"),
    (
        "init 80000004 04030201\n1 r 80000006 2 0403\n2 r 80000005 1 02\n3 r 80000004 1 02\n",
        "refused 3\nexpected 01 since 0\n",
    ),
    (
        "init 80000000 00000001\ninit 80000000 00000002\n15 r 80000000 4 00000001\n",
        "refused 1\nexpected 00000002 since 0\n",
    ),
    (
        "0 w 80000000 4 11223344\n1 w 80000001 1 ff\n0 w 80000004 1 01\n2 r 80000000 4 11223344\n",
        "refused 4\nexpected 1122ff44 since 2\n",
    ),
    (
        "0 amo 80000000 4 00000001 00000000\n1 amo 80000000 4 00000002 00000001\n0 r 80000000 2 0002\n",
        "legal 3\n",
    ),
    (
        "0 amo 80000000 4 00000001 00000000\n1 amo 80000000 4 00000002 00000000\n",
        "refused 2\nexpected 00000001 since 1\n",
    ),
    (
        "0 lr 80000000 4 00000000\n0 w 80000004 4 00000009\n0 sc 80000008 4 00000001\n",
        "legal 3\n",
    ),
    (
        "0 sc 80000000 4 00000001\n",
        "refused 1\nunreserved since 0\n",
    ),
    (
        "0 lr 80000000 4 00000000\n0 lr 80000040 4 00000000\n0 sc 80000000 4 00000001\n",
        "refused 3\nunreserved since 2\n",
    ),
    (
        "0 lr 80000000 4 00000000\n1 w 8000003f 1 00\n0 scfail 80000000 4 00000001\n0 r 80000000 4 00000000\n",
        "legal 4\n",
    ),
    (
        "0 lr 80000000 4 00000000\n1 w 8000003f 1 00\n0 sc 80000000 4 00000001\n",
        "refused 3\nunreserved since 2\n",
    ),
    (
        "0 lr 80000000 4 00000000\n0 scfail 80000080 4 00000001\n0 sc 80000000 4 00000001\n",
        "refused 3\nunreserved since 2\n",
    ),
    (
        "0 lr 80000000 4 00000000\n1 lr 80000000 4 00000000\n1 sc 80000000 4 00000001\n0 lr 80000000 4 00000001\n0 sc 80000000 4 00000002\n",
        "legal 5\n",
    ),
];

/// Texts that are no lists, with the cause.
const REFUSED: &[(&str, ScriptCause)] = &[
    ("0 r 80000000 4", ScriptCause::BadLine(1)),
    ("0 r 80000000 4 0000000", ScriptCause::BadLine(1)),
    ("0 r 80000000 2 00000000", ScriptCause::BadLine(1)),
    ("0 r 80000000 8 0000000000000000", ScriptCause::BadLine(1)),
    ("0 r 80000000 4 0000000A", ScriptCause::BadLine(1)),
    ("0 r 8000000 4 00000000", ScriptCause::BadLine(1)),
    ("0 x 80000000 4 00000000", ScriptCause::BadLine(1)),
    ("00 r 80000000 4 00000000", ScriptCause::BadLine(1)),
    ("0 r 80000000 4 00000000 00000000", ScriptCause::BadLine(1)),
    ("0 amo 80000000 4 00000000", ScriptCause::BadLine(1)),
    (
        "0 r 80000000 4 00000000\ninit 80000000 00000000",
        ScriptCause::BadLine(2),
    ),
    ("init 80000000 0000", ScriptCause::BadLine(1)),
    ("16 r 80000000 4 00000000", ScriptCause::OutOfRange(1)),
    ("#\n\n0 r 7fffffff 1 00", ScriptCause::OutOfRange(3)),
    ("0 r 80400000 1 00", ScriptCause::OutOfRange(1)),
    ("0 r 80000002 4 00000000", ScriptCause::OutOfRange(1)),
    ("0 w 80000001 2 0000", ScriptCause::OutOfRange(1)),
    ("init 80000002 00000000", ScriptCause::OutOfRange(1)),
];

/// Whether a text is judged, with this report.
fn has_report(alloc: Global, text: &str, wanted: &str) -> Result<bool, Memory> {
    if text.len() > 1000 {
        return Ok(false);
    }
    let mut report = MemSink::with_room(alloc, 100)?;
    match judge_text(alloc, text.as_bytes(), &mut report) {
        Ok(_) => Ok(report.bytes() == wanted.as_bytes()),
        Err(JudgeFault::Memory) => Err(Memory),
        Err(_) => Ok(false),
    }
}

/// Whether a text is refused for this cause, and nothing is put.
fn has_cause(alloc: Global, text: &str, wanted: ScriptCause) -> Result<bool, Memory> {
    if text.len() > 1000 {
        return Ok(false);
    }
    let mut report = MemSink::with_room(alloc, 100)?;
    match judge_text(alloc, text.as_bytes(), &mut report) {
        Err(JudgeFault::Refused(cause)) => Ok(cause == wanted && report.bytes().is_empty()),
        Err(JudgeFault::Memory) => Err(Memory),
        _ => Ok(false),
    }
}

#[test]
fn each_list_has_its_report(rt: HostRuntime) -> Result<(), Memory> {
    for (text, wanted) in JUDGED {
        let found = has_report(rt.alloc(), text, wanted)?;
        assert!(rt; found, "{text}");
    }
    Ok(())
}

#[test]
fn each_bad_text_has_its_cause(rt: HostRuntime) -> Result<(), Memory> {
    for (text, cause) in REFUSED {
        let found = has_cause(rt.alloc(), text, *cause)?;
        assert!(rt; found, "{text}");
    }
    Ok(())
}

/// Whether a report that takes nothing is told.
fn is_sink_fault(alloc: Global) -> Result<bool, Memory> {
    let mut report = MemSink::with_room(alloc, 3)?;
    match judge_text(alloc, b"".as_slice(), &mut report) {
        Err(JudgeFault::Sink(_)) => Ok(true),
        Err(JudgeFault::Memory) => Err(Memory),
        _ => Ok(false),
    }
}

#[test]
fn a_report_that_fails_is_told(rt: HostRuntime) -> Result<(), Memory> {
    let found = is_sink_fault(rt.alloc())?;
    assert!(rt; found);
    Ok(())
}

fn fits(rt: &impl Abort, width: Width, address: u32, wanted: bool) {
    assert!(rt; is_fitting(width, address) == wanted);
}

#[test]
fn bytes_lie_in_memory_or_not(rt: HostRuntime) {
    fits(&rt, Width::Word, 0x8000_0000, true);
    fits(&rt, Width::Word, 0x803f_fffc, true);
    fits(&rt, Width::Half, 0x803f_fffe, true);
    fits(&rt, Width::Half, 0x803f_ffff, false);
    fits(&rt, Width::Byte, 0x7fff_ffff, false);
    fits(&rt, Width::Byte, 0x8040_0000, false);
}
