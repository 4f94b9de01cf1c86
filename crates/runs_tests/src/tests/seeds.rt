//! What a range of seeds puts, and a run with its statistics, and what they leave where a sink fails.
mod counted;
mod ranges;

ghost use Rattle.std.specs.Prelude.{IfOk};
ghost use Rattle.node_run.specs.Shown.{MayBegin};

use elf_load::load;
use seed_runs::ordered_run::{Ending, Order, Run, RunFault, RunShowing, run};
use seed_runs::run_counted;
use sn_base::{Config, Memory, Rules, RunReport};
use sn_io::{MemSink, Sink};
use sn_probe::ProbeSet;
use std::alloc::Global;
use std::process::Abort;
use std::test::Fail;

/// Puts `A` and exits.
const PUTS_A: &str = "04100513\n00100893\n00000073\n05d00893\n00000073\n";

const SIZES: Config = Config {
    nodes: 1,
    sets: 16,
    ways: 4,
    log: 256,
};

const RULES: Rules = Rules {
    interval: 100,
    wait: 20_000,
    lose_every: 0,
    kill: None,
};

/// Where a call puts its text.
#[derive(Drop)]
struct Sinks {
    console: MemSink,
    report: MemSink,
}

fn sinks_for(alloc: Global) -> Result<Sinks, Fail> {
    let console = MemSink::with_room(alloc, 16)?;
    let report = MemSink::with_room(alloc, 16_384)?;
    Ok(Sinks { console, report })
}

fn have(sinks: &Sinks, console: &[u8], report: &[u8]) -> bool {
    sinks.console.bytes() == console && sinks.report.bytes() == report
}

fn are_same(sinks: &Sinks, others: &Sinks) -> bool {
    have(sinks, others.console.bytes(), others.report.bytes())
}

/// The run of the program that puts `A`, by this seed, of which the summary is shown.
fn one(rt: &impl Abort, alloc: Global, seed: u64) -> Result<Run, Fail>
    ensures { IfOk result (λ r. MayBegin r) }
{
    assert!(rt; SIZES.fits());
    Ok(Run {
        program: load(alloc, PUTS_A.as_bytes())?,
        config: SIZES,
        rules: RULES,
        seed,
        budget: 10_000,
        showing: RunShowing {
            report: RunReport::Summary,
            watch: None,
        },
    })
}

/// Whether a run's core exited, and all is put.
fn has_exited(ended: Result<Ending, RunFault>) -> Result<bool, Memory> {
    match ended {
        Ok(Ending::Exited) => Ok(true),
        Err(RunFault::Memory) => Err(Memory),
        _ => Ok(false),
    }
}

fn ran(alloc: Global, job: Run, sinks: &mut Sinks) -> Result<bool, Memory>
    requires { MayBegin job }
{
    let mut probes = ProbeSet::new(Vec::new(alloc));
    let ended = run(
        alloc,
        job,
        Order::Drawn,
        &mut probes,
        &mut sinks.console,
        &mut sinks.report,
    );
    has_exited(ended)
}

/// Whether that run came to its end.
fn ran_alone(rt: &impl Abort, alloc: Global, seed: u64, sinks: &mut Sinks) -> Result<bool, Fail> {
    let job = one(rt, alloc, seed)?;
    Ok(ran(alloc, job, sinks)?)
}

fn ran_with_statistics(alloc: Global, job: Run, sinks: &mut Sinks) -> Result<bool, Memory>
    requires { MayBegin job }
{
    let mut probes = ProbeSet::new(Vec::new(alloc));
    let ended = run_counted(
        alloc,
        job,
        Order::Drawn,
        &mut probes,
        &mut sinks.console,
        &mut sinks.report,
    );
    has_exited(ended)
}

/// The same with its statistics.
fn ran_counted(rt: &impl Abort, alloc: Global, seed: u64, sinks: &mut Sinks) -> Result<bool, Fail> {
    let job = one(rt, alloc, seed)?;
    Ok(ran_with_statistics(alloc, job, sinks)?)
}

fn put(sinks: &mut Sinks, text: &[u8]) -> bool {
    sinks.report.put(text).is_ok()
}
