//! A small program whose rows are known: an atomic operation misses, is done and is committed.
ghost use Rattle.std.specs.Prelude.{IfOk};
ghost use Rattle.script_replay.specs.Played.{MayBegin};

use super::is_so;
use accesses_replay::replay_accesses;
use elf_load::load;
use script_replay::{Replay, ReplayFault, ReportKind, Script, Showing};
use sn_base::{Config, Event, NodeId};
use sn_io::MemSink;
use sn_probe::ProbeSet;
use std::alloc::Global;
use std::process::Abort;
use std::test::Fail;

/// Adds 1 to a word and exits.
const ADDS: &str = "800012b7\n00100313\n0062a3af\n05d00893\n00000073\n";

/// The atomic operation is the third record, and is committed; the instruction after it isn't.
const REPORT: &str = "\
core,pc,instruction,address,size,read,written,done
0,80000000,\"lui x5, 524289\",,,,,
0,80000004,\"addi x6, x0, 1\",,,,,
0,80000008,\"amoadd.w x7, x6, (x5)\",80001000,4,00000000,00000001,
# events 12
# point 1
# committed 3
# released 0
# core 0 8000000c running x5=80001000 x6=00000001
# watch 80001000 00000001
";

/// Three instructions, of which the last misses first; then a checkpoint that is validated, and one instruction more.
fn adds(rt: &impl Abort, alloc: Global) -> Result<Replay, Fail>
    ensures { IfOk result (λ r. MayBegin r) }
{
    let config = Config {
        nodes: 1,
        sets: 16,
        ways: 4,
        log: 256,
    };
    assert!(rt; config.fits());
    let node = NodeId::numbered(0);
    let mut events = Vec::new(alloc);
    events.push(Event::Step(node))?;
    events.push(Event::Step(node))?;
    events.push(Event::Step(node))?;
    events.push(Event::Deliver(1))?;
    events.push(Event::Deliver(2))?;
    events.push(Event::Deliver(3))?;
    events.push(Event::Step(node))?;
    events.push(Event::Edge(node))?;
    events.push(Event::Report(node))?;
    events.push(Event::Deliver(4))?;
    events.push(Event::Validate)?;
    events.push(Event::Step(node))?;
    Ok(Replay {
        program: load(alloc, ADDS.as_bytes())?,
        config,
        showing: Showing {
            report: ReportKind::Events,
            watch: Some(0x8000_1000),
        },
        script: Script::new(events),
    })
}

/// The replay, where the report fails at this call, or at none.
fn replayed(
    rt: &impl Abort,
    alloc: Global,
    failing: u64,
    report: &mut MemSink,
) -> Result<Result<(), ReplayFault>, Fail> {
    let job = adds(rt, alloc)?;
    let mut console = MemSink::with_room(alloc, 8)?;
    report.fail_call(failing)?;
    let mut probes = ProbeSet::new(Vec::new(alloc));
    Ok(replay_accesses(alloc, job, &mut probes, &mut console, report))
}

#[test]
fn the_rows_of_the_committed_trace_stand_before_the_marked_summary(
    rt: HostRuntime,
) -> Result<(), Fail> {
    let alloc = rt.alloc();
    let mut report = MemSink::with_room(alloc, 4_096)?;
    let ended = replayed(&rt, alloc, 0, &mut report)?;
    is_so(&rt, ended.is_ok());
    is_so(&rt, report.bytes() == REPORT.as_bytes());
    Ok(())
}

#[test]
fn a_report_that_breaks_has_the_lines_before(rt: HostRuntime) -> Result<(), Fail> {
    let alloc = rt.alloc();
    let mut report = MemSink::with_room(alloc, 4_096)?;
    let ended = replayed(&rt, alloc, 2, &mut report)?;
    is_so(&rt, ended == Err(ReplayFault::Sink));
    is_so(
        &rt,
        report.bytes() == b"core,pc,instruction,address,size,read,written,done\n".as_slice(),
    );
    Ok(())
}
