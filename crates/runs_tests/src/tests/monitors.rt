//! What a watched run puts, and what it leaves where a sink fails.
ghost use Rattle.std.specs.Prelude.{IfOk};
ghost use Rattle.monitor_run.specs.Shown.{MayBegin};

use super::is_so;
use elf_load::load;
use monitor_run::{Ending, Monitor, RunFault, monitor};
use sn_base::{Config, Rules};
use sn_io::MemSink;
use sn_probe::ProbeSet;
use std::alloc::Global;
use std::process::Abort;
use std::sync::Wait;
use std::test::Fail;
use std::thread::Threads;

/// Puts `A` and exits.
const PUTS_A: &str = "04100513\n00100893\n00000073\n05d00893\n00000073\n";

/// Jumps to itself.
const LOOPS: &str = "0000006f\n";

/// A program on one node, with at most so many events.
fn job(
    rt: &impl Abort,
    alloc: Global,
    program: &str,
    interval: u32,
    budget: u32,
) -> Result<Monitor, Fail>
    ensures { IfOk result (λ r. MayBegin r) }
{
    let config = Config {
        nodes: 1,
        sets: 16,
        ways: 4,
        log: 256,
    };
    assert!(rt; config.fits());
    assert!(rt; interval > 0 && budget <= 1_000_000);
    let rules = Rules {
        interval,
        wait: 20_000,
        lose_every: 0,
        kill: None,
    };
    Ok(Monitor {
        program: load(alloc, program.as_bytes())?,
        config,
        rules,
        seed: 1,
        budget,
        watch: None,
    })
}

/// Runs it, where no probe is attached.
fn watched<T: Threads + Wait + Sync + Abort>(
    rt: &T,
    alloc: Global,
    job: Monitor,
    console: &mut MemSink,
    report: &mut MemSink,
) -> Result<Ending, RunFault>
    requires { MayBegin job }
{
    let mut probes = ProbeSet::new(Vec::new(alloc));
    monitor(rt, alloc, job, &mut probes, console, report)
}

fn has_exited(ended: &Result<Ending, RunFault>) -> bool {
    matches!(ended, Ok(Ending::Exited))
}

fn is_spent(ended: &Result<Ending, RunFault>) -> bool {
    matches!(ended, Ok(Ending::Spent))
}

fn has_a_broken_sink(ended: &Result<Ending, RunFault>) -> bool {
    matches!(ended, Err(RunFault::Sink))
}

#[test]
fn the_last_cut_is_seen_and_then_the_summary_is_put(rt: HostRuntime) -> Result<(), Fail> {
    let alloc = rt.alloc();
    let mut console = MemSink::with_room(alloc, 8)?;
    let mut report = MemSink::with_room(alloc, 512)?;
    let job = job(&rt, alloc, PUTS_A, 100, 10_000)?;
    let ended = watched(&rt, alloc, job, &mut console, &mut report);
    is_so(&rt, has_exited(&ended));
    is_so(&rt, console.bytes() == b"A".as_slice());
    let text = report.bytes();
    is_so(&rt, text.starts_with(b"seen 1 5\nevents ".as_slice()));
    is_so(
        &rt,
        text.ends_with(
            b"\npoint 1\ncommitted 5\nreleased 1\ncore 0 80000010 exited 65 x10=00000041 x17=0000005d\n".as_slice(),
        ),
    );
    Ok(())
}

#[test]
fn a_run_that_validates_nothing_has_seen_nothing(rt: HostRuntime) -> Result<(), Fail> {
    let alloc = rt.alloc();
    let mut console = MemSink::with_room(alloc, 8)?;
    let mut report = MemSink::with_room(alloc, 512)?;
    let job = job(&rt, alloc, LOOPS, 100, 50)?;
    let ended = watched(&rt, alloc, job, &mut console, &mut report);
    is_so(&rt, is_spent(&ended));
    is_so(
        &rt,
        report
            .bytes()
            .starts_with(b"events 50\npoint 0\ncommitted 0\n".as_slice()),
    );
    Ok(())
}

#[test]
fn where_the_console_fails_the_report_has_nothing(rt: HostRuntime) -> Result<(), Fail> {
    let alloc = rt.alloc();
    let mut console = MemSink::with_room(alloc, 8)?;
    let mut report = MemSink::with_room(alloc, 512)?;
    console.fail_call(1)?;
    let job = job(&rt, alloc, PUTS_A, 100, 10_000)?;
    let ended = watched(&rt, alloc, job, &mut console, &mut report);
    is_so(&rt, has_a_broken_sink(&ended));
    is_so(&rt, console.bytes().is_empty() && report.bytes().is_empty());
    Ok(())
}

#[test]
fn where_the_report_fails_the_console_has_all(rt: HostRuntime) -> Result<(), Fail> {
    let alloc = rt.alloc();
    let mut console = MemSink::with_room(alloc, 8)?;
    let mut report = MemSink::with_room(alloc, 512)?;
    report.fail_call(2)?;
    let job = job(&rt, alloc, PUTS_A, 100, 10_000)?;
    let ended = watched(&rt, alloc, job, &mut console, &mut report);
    is_so(&rt, has_a_broken_sink(&ended));
    is_so(&rt, console.bytes() == b"A".as_slice());
    is_so(&rt, report.bytes() == b"seen 1 5\n".as_slice());
    Ok(())
}
