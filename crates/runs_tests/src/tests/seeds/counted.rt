//! A run with its statistics.
ghost use Rattle.node_run.specs.Shown.{MayBegin};

use super::super::is_so;
use super::{Sinks, are_same, has_exited, one, put, ran_alone, ran_counted, sinks_for};
use seed_runs::{Order, Run, RunFault, run_counted, run_counted_by_threads};
use sn_base::Memory;
use sn_io::OpenGate;
use sn_probe::ProbeSet;
use std::alloc::Global;
use std::process::Abort;
use std::sync::Wait;
use std::test::Fail;
use std::thread::Threads;

fn begins_as(sinks: &Sinks, others: &Sinks) -> bool {
    sinks.report.bytes().starts_with(others.report.bytes())
}

#[test]
fn statistics_stand_behind_the_summary(rt: HostRuntime) -> Result<(), Fail> {
    let alloc = rt.alloc();
    let mut summary = sinks_for(alloc)?;
    let mut counted = sinks_for(alloc)?;
    is_so(&rt, ran_alone(&rt, alloc, 7, &mut summary)?);
    is_so(&rt, ran_counted(&rt, alloc, 7, &mut counted)?);
    is_so(
        &rt,
        put(&mut summary, b"stat events ".as_slice()) && begins_as(&counted, &summary),
    );
    Ok(())
}

fn counted_by_threads<T: Threads + Wait + Sync>(
    rt: &T,
    alloc: Global,
    job: Run,
    sinks: &mut Sinks,
) -> Result<bool, Memory>
    requires { MayBegin job }
{
    let mut probes = ProbeSet::new(Vec::new(alloc));
    let ended = run_counted_by_threads(
        rt,
        alloc,
        job,
        &mut probes,
        &mut sinks.console,
        &mut sinks.report,
        &OpenGate::new(),
    );
    has_exited(ended)
}

fn ran_by_threads<T: Threads + Wait + Sync + Abort>(
    rt: &T,
    alloc: Global,
    seed: u64,
    sinks: &mut Sinks,
) -> Result<bool, Fail> {
    let job = one(rt, alloc, seed)?;
    Ok(counted_by_threads(rt, alloc, job, sinks)?)
}

/// On one node each turn is worker 0's, by threads as in an order.
#[test]
fn a_run_by_threads_is_counted_as_in_an_order(rt: HostRuntime) -> Result<(), Fail> {
    let alloc = rt.alloc();
    let mut ordered = sinks_for(alloc)?;
    let mut threads = sinks_for(alloc)?;
    is_so(&rt, ran_counted(&rt, alloc, 7, &mut ordered)?);
    is_so(&rt, ran_by_threads(&rt, alloc, 7, &mut threads)?);
    is_so(&rt, are_same(&threads, &ordered));
    Ok(())
}

fn counted_in_part(alloc: Global, job: Run, sinks: &mut Sinks) -> Result<bool, Memory>
    requires { MayBegin job }
{
    let mut probes = ProbeSet::new(Vec::new(alloc));
    let ended = run_counted(
        alloc,
        job,
        Order::Drawn,
        &mut probes,
        &mut sinks.console,
        &mut sinks.report,
    );
    match ended {
        Err(RunFault::Memory) => Err(Memory),
        ended => Ok(ended == Err(RunFault::Sink)),
    }
}

fn breaks(rt: &impl Abort, alloc: Global, seed: u64, sinks: &mut Sinks) -> Result<bool, Fail> {
    let job = one(rt, alloc, seed)?;
    Ok(counted_in_part(alloc, job, sinks)?)
}

#[test]
fn a_report_that_fails_in_the_statistics_has_the_summary(rt: HostRuntime) -> Result<(), Fail> {
    let alloc = rt.alloc();
    let mut summary = sinks_for(alloc)?;
    let mut broken = sinks_for(alloc)?;
    broken.report.fail_call(2)?;
    is_so(&rt, ran_alone(&rt, alloc, 7, &mut summary)?);
    is_so(&rt, breaks(&rt, alloc, 7, &mut broken)?);
    is_so(&rt, are_same(&broken, &summary));
    Ok(())
}
