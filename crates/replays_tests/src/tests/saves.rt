//! A small program whose save file is known: three instructions are committed, and the third puts out a letter.
ghost use Rattle.std.specs.Prelude.{IfOk};
ghost use Rattle.saved_replay.specs.Shown.{MaySave};

use super::is_so;
use elf_load::load;
use saved_replay::{SavedReplay, replay_saved};
use script_replay::{ReplayFault, Script};
use sn_base::{Config, Event, NodeId};
use sn_io::MemSink;
use sn_probe::ProbeSet;
use std::alloc::Global;
use std::process::Abort;
use std::test::Fail;

/// addi x10, x0, 65; addi x17, x0, 1; ecall; addi x17, x0, 93; ecall: it puts out `A` and ends.
const PUTS_A: &str = "04100513\n00100893\n00000073\n05d00893\n00000073\n";

/// What is pending isn't saved.
const SAVED: &str =
    "safetynet-save 1\nconfig 1 16 4 256\nmarks 1 3 8\nrec 0 00000000 0\nrec 0 00000000 0\nrec 0 00000000 0\nend\n";

/// Three instructions, a checkpoint that is validated, and one instruction more.
fn puts_a(rt: &impl Abort, alloc: Global) -> Result<SavedReplay, Fail>
    ensures { IfOk result (λ r. MaySave r) }
{
    let config = Config {
        nodes: 1,
        sets: 16,
        ways: 4,
        log: 256,
    };
    assert!(rt; config.fits());
    let node = NodeId::numbered(0);
    let mut events = Vec::new(alloc);
    events.push(Event::Step(node))?;
    events.push(Event::Step(node))?;
    events.push(Event::Step(node))?;
    events.push(Event::Edge(node))?;
    events.push(Event::Report(node))?;
    events.push(Event::Deliver(1))?;
    events.push(Event::Validate)?;
    events.push(Event::Step(node))?;
    Ok(SavedReplay {
        program: load(alloc, PUTS_A.as_bytes())?,
        config,
        script: Script::new(events),
    })
}

/// The replay, where the report fails at this call, or at none.
fn replayed(
    rt: &impl Abort,
    alloc: Global,
    failing: u64,
    console: &mut MemSink,
    report: &mut MemSink,
) -> Result<Result<(), ReplayFault>, Fail> {
    let job = puts_a(rt, alloc)?;
    report.fail_call(failing)?;
    let mut probes = ProbeSet::new(Vec::new(alloc));
    Ok(replay_saved(alloc, job, &mut probes, console, report))
}

#[test]
fn what_is_released_goes_to_the_console_and_the_save_file_is_the_report(
    rt: HostRuntime,
) -> Result<(), Fail> {
    let alloc = rt.alloc();
    let mut console = MemSink::with_room(alloc, 8)?;
    let mut report = MemSink::with_room(alloc, 4_096)?;
    let ended = replayed(&rt, alloc, 0, &mut console, &mut report)?;
    is_so(&rt, ended.is_ok());
    is_so(&rt, console.bytes() == b"A".as_slice());
    is_so(&rt, report.bytes() == SAVED.as_bytes());
    Ok(())
}

#[test]
fn a_report_that_breaks_has_the_lines_before(rt: HostRuntime) -> Result<(), Fail> {
    let alloc = rt.alloc();
    let mut console = MemSink::with_room(alloc, 8)?;
    let mut report = MemSink::with_room(alloc, 4_096)?;
    let ended = replayed(&rt, alloc, 3, &mut console, &mut report)?;
    is_so(&rt, ended == Err(ReplayFault::Sink));
    is_so(
        &rt,
        report.bytes() == b"safetynet-save 1\nconfig 1 16 4 256\n".as_slice(),
    );
    Ok(())
}
