//! A run that has had its turns, and of which nothing is put yet.
ghost use Rattle.std.specs.Prelude.{◌≡◌, ◌≤◌, true, length, Some, IfOk};
ghost use Rattle.sn_base.specs.declared.limits.TheConstants.{EVENTS};
ghost use Rattle.consistent_cuts.specs.Runs.{AllFit};
ghost use Rattle.run_journals.specs.Journal.{events_of};
ghost use Rattle.ordered_run.specs.Finishes.{IsRunOf, finish_by};
ghost use Rattle.ordered_run.specs.Pieces.{begins};
ghost use Rattle.ordered_run.specs.NodeRunShown.{MayBegin};
ghost use Rattle.ordered_run.specs.Ordered.{ordered_journal};
ghost use Rattle.ordered_run.specs.Lines.{statistics_lines};
ghost use Rattle.seed_runs.specs.Played.{statistics_now, IsPlayed};

use ordered_run::node_run::{ReportRoom, Run, report_room, shared_for};
use ordered_run::node_threads::{Finished, JournalEntry, run_nodes};
use ordered_run::run_statistics::{Count, statistics_text};
use ordered_run::{Turned, all_turns};
use sn_base::{Event, Memory};
use sn_io::{Gate, SureSink};
use sn_probe::ProbeSet;
use std::alloc::Global;
use std::sync::Wait;
use std::thread::Threads;
use turn_orders::Order;

/// What a run left, with all memory that is wanted to put it.
#[derive(Drop)]
pub(crate) struct Played {
    pub finished: Finished,
    /// The lines of its statistics, where they are asked for.
    pub statistics: Vec<u8>,
    /// Of its report, and of the lines beside it.
    pub room: ReportRoom,
}

// The events of a journal.
fn events_in(alloc: Global, journal: &[JournalEntry]) -> Result<Vec<Event>, Memory>
    ensures { IfOk result (λ events. events.items ≡ events_of journal.now) }
{
    let mut events = Vec::new(alloc);
    'entries: for entry in journal {
        events.push(entry.event)?;
    }
    Ok(events)
}

// The lines of the statistics of a run that left this.
fn statistics_by(alloc: Global, finished: &Finished) -> Result<Vec<u8>, Memory>
    requires fit { AllFit finished.now.machine.config.nodes (events_of finished.now.journal.items) }
    requires few { length finished.now.journal.items ≤ EVENTS }
    ensures { IfOk result (λ text. text.items ≡ statistics_now finished.now.machine finished.now.journal.items) }
{
    let machine = &finished.machine;
    let config = *machine.config();
    let events = events_in(alloc, finished.journal.as_slice())?;
    statistics_text(alloc, machine.image(), config, events.as_slice())
}

// The lines of what was counted, where they are asked for, and else nothing.
fn text_if(alloc: Global, asked: bool, count: &Count, nodes: u8) -> Result<Vec<u8>, Memory>
    requires { nodes ≤ 16 }
    ensures { IfOk result (λ text. asked ≡ true → text.items ≡ statistics_lines nodes count.now.statistics) }
{
    if asked {
        count.text(alloc, nodes)
    } else {
        Ok(Vec::new(alloc))
    }
}

/// Has all turns of a run in an order, and its statistics are counted along with them, where they are asked for. An error is want of
/// memory.
pub(crate) fn play(alloc: Global, job: Run, order: Order, counted: bool) -> Result<Played, Memory>
    requires { MayBegin job }
    ensures { IfOk result (λ played. IsPlayed job (ordered_journal order (begins job)) counted played) }
{
    let nodes = job.config.nodes;
    let Ok(room) = report_room(alloc, &job.program, nodes) else {
        return Err(Memory);
    };
    let Ok(turned) = all_turns(alloc, job, order, counted) else {
        drop(room);
        return Err(Memory);
    };
    let Turned { finished, count } = turned;
    let Ok(statistics) = text_if(alloc, counted, &count, nodes) else {
        drop(count);
        drop(finished);
        drop(room);
        return Err(Memory);
    };
    drop(count);
    Ok(Played {
        finished,
        statistics,
        room,
    })
}

// All turns of a run by one worker a node, each in a thread of its own: what they leave. Nothing is put of it.
fn turns_by_threads<T: Threads + Wait + Sync, G: Gate + Sync>(
    rt: &T,
    alloc: Global,
    job: Run,
    gate: &G,
) -> Result<Finished, Memory>
    requires { MayBegin job }
    ensures run { IfOk result (λ left. IsRunOf (begins job) left.machine left.journal.items left.answers.items) }
    ensures finish { IfOk result (λ left. finish_by (begins job) left.journal.items ≡ Some left.finish) }
{
    let Run {
        program,
        config,
        rules,
        seed,
        budget,
        showing: _,
    } = job;
    let Some(shared) = shared_for(alloc, program, config, rules, seed, budget) else {
        return Err(Memory);
    };
    let mut nowhere = SureSink::new();
    let mut none = ProbeSet::new(Vec::new(alloc));
    run_nodes(rt, alloc, shared, gate, &mut nowhere, &mut none)
}

/// The same by one worker a node, each in a thread of its own, with its statistics.
pub(crate) fn play_by_threads<T: Threads + Wait + Sync, G: Gate + Sync>(
    rt: &T,
    alloc: Global,
    job: Run,
    gate: &G,
) -> Result<Played, Memory>
    requires { MayBegin job }
    ensures { IfOk result (λ played. IsPlayed job played.finished.journal.items true played) }
{
    let Ok(room) = report_room(alloc, &job.program, job.config.nodes) else {
        return Err(Memory);
    };
    let Ok(finished) = turns_by_threads(rt, alloc, job, gate) else {
        drop(room);
        return Err(Memory);
    };
    let Ok(statistics) = statistics_by(alloc, &finished) else {
        drop(finished);
        drop(room);
        return Err(Memory);
    };
    Ok(Played {
        finished,
        statistics,
        room,
    })
}
