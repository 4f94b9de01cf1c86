//! What a counted replay puts is what the replay puts, and then the statistics.
ghost use Rattle.std.specs.Prelude.{IfOk};
ghost use Rattle.script_replay.specs.Played.{MayBegin};

use super::is_so;
use counted_replay::replay_counted;
use elf_load::load;
use run_statistics::statistics_text;
use script_replay::{Replay, ReplayFault, ReportKind, Script, Showing, replay};
use sn_base::{Config, Event};
use sn_io::MemSink;
use sn_probe::ProbeSet;
use sn_text::read_script;
use std::alloc::Global;
use std::process::Abort;
use std::test::Fail;

/// Puts `A` and exits.
const PUTS_A: &str = "04100513\n00100893\n00000073\n05d00893\n00000073\n";

/// The script of `recovers`.
const RECOVERS: &str = "recover\n";

/// One node, with the sizes that a replay has where none is given.
fn sizes() -> Config {
    Config {
        nodes: 1,
        sets: 16,
        ways: 4,
        log: 256,
    }
}

/// A recovery of the program on one node, to its start.
fn recovers(rt: &impl Abort, alloc: Global) -> Result<Replay, Fail>
    ensures { IfOk result (λ r. MayBegin r) }
{
    let config = sizes();
    assert!(rt; config.fits());
    let mut events = Vec::new(alloc);
    events.push(Event::Recover)?;
    Ok(Replay {
        program: load(alloc, PUTS_A.as_bytes())?,
        config,
        showing: Showing {
            report: ReportKind::Events,
            watch: None,
        },
        script: Script::new(events),
    })
}

/// What the replay puts, and then the statistics, each by itself.
fn wanted(rt: &impl Abort, alloc: Global) -> Result<Vec<u8>, Fail> {
    let image = load(alloc, PUTS_A.as_bytes())?;
    let config = sizes();
    assert!(rt; config.fits());
    let events = read_script(alloc, RECOVERS.as_bytes(), config.nodes)?;
    let lines = statistics_text(alloc, &image, config, events.as_slice())?;
    let job = recovers(rt, alloc)?;
    let mut console = MemSink::with_room(alloc, 8)?;
    let mut report = MemSink::with_room(alloc, 4_096)?;
    let mut probes = ProbeSet::new(Vec::new(alloc));
    let ended = replay(alloc, job, &mut probes, &mut console, &mut report);
    assert!(rt; ended.is_ok());
    let mut text = Vec::new(alloc);
    text.extend_from_slice(report.bytes())?;
    text.extend_from_slice(lines.as_slice())?;
    Ok(text)
}

/// A counted replay whose report fails at this call, or at none.
fn counted(
    rt: &impl Abort,
    alloc: Global,
    failing: u64,
    report: &mut MemSink,
) -> Result<Result<(), ReplayFault>, Fail> {
    let job = recovers(rt, alloc)?;
    let mut console = MemSink::with_room(alloc, 8)?;
    report.fail_call(failing)?;
    let mut probes = ProbeSet::new(Vec::new(alloc));
    Ok(replay_counted(alloc, job, &mut probes, &mut console, report))
}

#[test]
fn the_statistics_stand_behind_the_summary(rt: HostRuntime) -> Result<(), Fail> {
    let alloc = rt.alloc();
    let mut report = MemSink::with_room(alloc, 8_192)?;
    let ended = counted(&rt, alloc, 0, &mut report)?;
    is_so(&rt, ended.is_ok());
    let wanted = wanted(&rt, alloc)?;
    is_so(&rt, report.bytes() == wanted.as_slice());
    Ok(())
}

#[test]
fn a_report_that_breaks_in_the_statistics_has_all_before_them(rt: HostRuntime) -> Result<(), Fail> {
    let alloc = rt.alloc();
    let mut report = MemSink::with_room(alloc, 8_192)?;
    let ended = counted(&rt, alloc, 3, &mut report)?;
    is_so(&rt, ended == Err(ReplayFault::Sink));
    let wanted = wanted(&rt, alloc)?;
    is_so(&rt, wanted.as_slice().starts_with(report.bytes()));
    is_so(
        &rt,
        report
            .bytes()
            .starts_with(b"1 recover: recovered 0 undone 0 dropped 0\n".as_slice()),
    );
    Ok(())
}
