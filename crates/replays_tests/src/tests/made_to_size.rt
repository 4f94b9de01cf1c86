//! Runs of a few sizes, beside what the reference simulator makes of the same.
ghost use Rattle.std.specs.Prelude.{◌≤◌};

use super::is_so;
use generated_runs::replay_generated;
use script_replay::{ReplayFault, ReportKind, Showing};
use sn_base::Memory;
use sn_io::MemSink;
use sn_probe::ProbeSet;
use std::alloc::Global;
use std::process::Abort;
use std::test::Fail;
use text_lines::lines_of;

/// Replays a run of so many events, and puts each with its answer to the report.
fn report_of(rt: &impl Abort, alloc: Global, size: u32, report: &mut MemSink) -> Result<(), Fail>
    requires { size ≤ 1000000 }
{
    let mut console = MemSink::with_room(alloc, 10_000)?;
    let mut probes = ProbeSet::new(Vec::new(alloc));
    let showing = Showing {
        report: ReportKind::Events,
        watch: None,
    };
    let done = replay_generated(alloc, size, showing, &mut probes, &mut console, report);
    if done == Err(ReplayFault::Memory) {
        return Err(Fail::from(Memory));
    }
    assert!(rt; done == Ok(()));
    Ok(())
}

/// The lines of a report that are an event's, which begin with its place.
fn event_lines<'a>(alloc: Global, report: &'a [u8]) -> Result<Vec<&'a [u8]>, Memory> {
    let mut found = Vec::new(alloc);
    let mut lines = lines_of(report);
    'lines: while let Some(line) = lines.next_line() {
        if line.first().is_some_and(|byte| byte.is_ascii_digit()) {
            found.push(line)?;
        }
    }
    Ok(found)
}

#[test]
fn a_run_of_24_events(rt: HostRuntime) -> Result<(), Fail> {
    let rows = [
        "1 step 0:",
        "2 step 1:",
        "3 step 2:",
        "4 step 3:",
        "5 step 0:",
        "6 step 1:",
        "7 step 2:",
        "8 step 3:",
        "9 step 0:",
        "10 step 1:",
        "11 step 2:",
        "12 step 3:",
        "13 deliver 1:",
        "14 hop 2:",
        "15 hop 3:",
        "16 hop 4:",
        "17 deliver 5:",
        "18 hop 4:",
        "19 hop 4:",
        "20 deliver 6:",
        "21 step 0:",
        "22 step 0:",
        "23 deliver 3:",
        "24 deliver 7:",
    ];
    let mut report = MemSink::with_room(rt.alloc(), 100_000)?;
    report_of(&rt, rt.alloc(), 24, &mut report)?;
    let lines = event_lines(rt.alloc(), report.bytes())?;
    assert!(rt; lines.len() == rows.len());
    for (line, row) in lines.iter().zip(&rows) {
        is_so(&rt, line.starts_with(row.as_bytes()));
    }
    Ok(())
}

#[test]
fn a_run_of_300_events_loses_a_message_after_its_first_validation(
    rt: HostRuntime,
) -> Result<(), Fail> {
    let rows = [
        (12, "13 deliver 1:"),
        (80, "81 edge 0:"),
        (87, "88 report 0:"),
        (157, "158 report 1:"),
        (166, "167 validate:"),
        (182, "183 lose 29:"),
        (299, "300 step 2:"),
    ];
    let mut report = MemSink::with_room(rt.alloc(), 100_000)?;
    report_of(&rt, rt.alloc(), 300, &mut report)?;
    let lines = event_lines(rt.alloc(), report.bytes())?;
    assert!(rt; lines.len() == 300);
    for (place, row) in &rows {
        assert!(rt; *place < lines.len());
        is_so(&rt, lines[*place].starts_with(row.as_bytes()));
    }
    Ok(())
}
