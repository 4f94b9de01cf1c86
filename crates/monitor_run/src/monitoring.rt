//! A whole watched run: all memory first, then the turns with the watcher beside them, and then what is put of it.
ghost use Rattle.std.specs.Prelude.{◌≡◌, ◌+◌, ◌≤◌, ◌⊎◌, true, Some, Err, [], vec_capacity, IfOk, IfSome};
ghost use Rattle.sn_io.specs.Outside.{Rose};
ghost use Rattle.sink_pieces.specs.Pieces.{ends};
ghost use Rattle.sn_probe.specs.Probes.{meters_in};
ghost use Rattle.monitor_run.specs.Shown.{MayBegin, IsDone, IsBrokenOff};
ghost use Rattle.monitor_run.specs.Stands.{Stands, IsReady, StopsBy, IsSameRun, HasLeft, its_start};

use crate::job::Monitor;
use crate::looks::{look, look_on};
use crate::marks::{Mark, take_seen};
use crate::reporting::put_all;
use crate::starting::{Started, start};
use crate::turns::{Stop, Turns, make_turns};
use node_run::node_threads::tell;
use node_run::shared_machine::Finish;
use node_run::{Ending, RunFault, how_ended};
use sn_io::Sink;
use sn_machine::Machine;
use sn_monitor::{Monitored, Watcher};
use sn_probe::ProbeSet;
use sn_text::Line;
use std::alloc::Global;
use std::sync::Wait;
use std::sync::atomic::{AtomicBool, Ordering};
use std::thread::{Threads, join_mut};

/// What a watched run leaves.
#[derive(Drop)]
struct Left {
    machine: Machine,
    turns: Turns,
    seen: Vec<Mark>,
    finish: Finish,
}

// The turns on this thread, and the watcher beside them.
fn run_beside<T: Threads + Wait + Sync>(
    rt: &T,
    monitored: &mut Monitored,
    turns: &mut Turns,
    watcher: &mut Watcher,
    looks: &mut Vec<Mark>,
) -> Stop
    requires stands { Stands monitored.old turns.old }
    requires ready { IsReady monitored.old turns.old }
    ensures stop { StopsBy monitored.new turns.new result }
    ensures same { IsSameRun monitored.old turns.old monitored.new turns.new }
    ensures board { watcher.new.board ≡ watcher.old.board }
{
    let ended = AtomicBool::new(false);
    let ended = &ended;
    // The first of the two has the new thread, or where there is none comes last. The watcher looks until the turns have ended, so
    // it is that one: it then finds that they have.
    let (_, stop) = join_mut(
        rt,
        &mut || look_on(rt, watcher, looks, ended),
        &mut ||
            requires { Stands monitored.now turns.now × IsReady monitored.now turns.now }
        {
            let stop = make_turns(rt, monitored, turns);
            ended.store(true, Ordering::SeqCst);
            stop
        },
    );
    stop
}

// Runs to the end, or until memory is lacking for a snapshot.
fn run_watched<T: Threads + Wait + Sync>(rt: &T, started: Started) -> Option<Left>
    requires stands { Stands started.monitored started.turns × IsReady started.monitored started.turns }
    requires board { started.watcher.board ≡ started.monitored.board }
    requires seen { (started.seen.items ≡ []) × (started.turns.budget + 1 ≤ vec_capacity started.seen) }
    ensures { IfSome result (λ left. HasLeft (its_start started.monitored started.turns) started.monitored.watch left.machine left.turns
        left.seen.items left.finish) }
{
    let Started {
        mut monitored,
        mut watcher,
        mut turns,
        mut looks,
        mut seen,
    } = started;
    let stop = run_beside(rt, &mut monitored, &mut turns, &mut watcher, &mut looks);
    watcher.learn(monitored.receipt());
    look(&mut watcher, &mut looks);
    let machine = monitored.end(rt);
    drop(watcher);
    let Stop::Finished(finish) = stop else {
        drop(machine);
        drop(turns);
        return None;
    };
    take_seen(turns.published.as_slice(), looks.as_slice(), &mut seen);
    Some(Left {
        machine,
        turns,
        seen,
        finish,
    })
}

/// Runs the program by turns of one worker a node, round and round, up to the run's end, while a watcher looks at its snapshots in a
/// thread of its own; and then tells each probe the journal's events, and puts the released bytes to the console, and what was seen
/// and the summary to the report. It takes all memory before the first event, but for the snapshots.
pub fn monitor<T: Threads + Wait + Sync, C: Sink, R: Sink>(
    rt: &T,
    alloc: Global,
    job: Monitor,
    probes: &mut ProbeSet,
    console: &mut C,
    report: &mut R,
) -> Result<Ending, RunFault>
    requires { MayBegin job }

    // There is a due journal, as whose end the run ended, and all is put.
    ensures ok { IfOk result (λ ending. IsDone job (meters_in first tally step probes.old.probes.items) ending
        (ends (C.written console.old) (R.written report.old)) (ends (C.written console.new) (R.written report.new))
        (meters_in first tally step probes.new.probes.items)) }

    // A sink broke, the console or then the report.
    ensures sink { result ≡ Err RunFault.Sink → IsBrokenOff job (meters_in first tally step probes.old.probes.items)
        (ends (C.written console.old) (R.written report.old)) (ends (C.written console.new) (R.written report.new))
        (meters_in first tally step probes.new.probes.items) }

    // Memory was lacking, for the run or for a snapshot, and nothing is put.
    ensures memory { result ≡ Err RunFault.Memory →
        (console.new ≡ console.old) × (report.new ≡ report.old) × (probes.new ≡ probes.old) }
    ensures cause { result ≡ Err RunFault.Sink
        → Rose (C.faults console.old) (C.faults console.new) ⊎ Rose (R.faults report.old) (R.faults report.new) }
{
    let watch = job.watch;
    let Ok(mut line) = Line::new(alloc) else {
        return Err(RunFault::Memory);
    };
    let Ok(started) = start(rt, alloc, job) else {
        return Err(RunFault::Memory);
    };
    let Some(left) = run_watched(rt, started) else {
        return Err(RunFault::Memory);
    };
    let Some(ending) = how_ended(&left.machine, left.finish) else {
        unreachable!()
    };
    tell(&left.turns.journal, &left.turns.answers, probes);
    let put = put_all(
        &mut line,
        &left.machine,
        left.seen.as_slice(),
        watch,
        probes,
        console,
        report,
    );
    drop(left);
    drop(line);
    match put {
        Ok(()) => Ok(ending),
        Err(_) => Err(RunFault::Sink),
    }
}
