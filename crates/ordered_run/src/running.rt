//! A whole run: all memory first, then the turns with the console, and then the report.
ghost use Rattle.std.specs.Prelude.{◌≡◌, ◌≤◌, ◌⊎◌, true, not, ◌&&◌, [], length, IfOk, Some, Err};
ghost use Rattle.sn_io.specs.Outside.{Rose};
ghost use Rattle.sink_pieces.specs.Pieces.{ends};
ghost use Rattle.sn_probe.specs.Probes.{meters_in};
ghost use Rattle.run_journals.specs.Journal.{events_of};
ghost use Rattle.run_statistics.specs.Counted.{Counts};
ghost use Rattle.node_run.specs.Finishes.{IsRunOf, Ends, finish_by};
ghost use Rattle.node_run.specs.Pieces.{begins};
ghost use Rattle.node_run.specs.Shown.{MayBegin};
ghost use Rattle.ordered_run.specs.Ordered.{journal_after, ordered_journal};
ghost use Rattle.ordered_run.specs.Shown.{IsDone, IsBrokenOff};
ghost use Rattle.ordered_run.specs.Stands.{Stands, IsReady, its_start};

use crate::course::Course;
use crate::starting::start;
use crate::turns::make_turns;
use node_run::node_threads::{Finished, tell};
use node_run::{Ending, Run, RunFault, put_ended, report_room};
use run_statistics::Count;
use sn_base::Memory;
use sn_io::{Sink, SureSink};
use sn_probe::ProbeSet;
use std::alloc::Global;
use turn_orders::Order;

/// What a run left that has had all its turns, and the count that rode along with them.
#[derive(Drop)]
pub struct Turned {
    pub finished: Finished,
    pub count: Count,
}

// Whether a count that was asked for is off: memory was lacking for it.
fn lacks_memory(counted: bool, count: &Count) -> bool
    ensures { result ≡ (counted && not count.now.on) }
{
    counted && !count.on
}

// All turns, and what they leave.
fn finish<C: Sink>(course: Course, count: &mut Count, console: &mut C) -> Finished
    requires stands { Stands course }
    requires ready { IsReady course }
    requires fresh { course.machine.state.released ≡ [] }
    requires counts { Counts count.old course.machine (events_of course.journal.items) }
    ensures run { IsRunOf (its_start course) result.machine result.journal.items result.answers.items }
    ensures ends { Ends (its_start course) result.journal.items result.finish result.machine.state.released
        (C.written console.old) (C.written console.new) (C.faults console.old) (C.faults console.new) }
    ensures ordered { result.journal.items ≡ journal_after course.scheduler.order (its_start course) (length result.journal.items) }
    ensures counts { Counts count.new result.machine (events_of result.journal.items) }
    ensures later { C.faults console.old ≤ C.faults console.new }
{
    let mut course = course;
    let finish = make_turns(&mut course, count, console);
    let Course {
        machine,
        driver: _,
        scheduler: _,
        generators: _,
        journal,
        answers,
        seed: _,
        budget: _,
    } = course;
    Finished {
        machine,
        journal,
        answers,
        finish,
    }
}

/// All turns of a run, of which nothing is put: what they leave, and, where that is asked for, the count of its statistics. All memory
/// but the count's is taken before the first event. An error is want of memory, before the first event or for the count.
pub fn all_turns(alloc: Global, job: Run, order: Order, counted: bool) -> Result<Turned, Memory>
    requires { MayBegin job }
    ensures run { IfOk result
        (λ left. IsRunOf (begins job) left.finished.machine left.finished.journal.items left.finished.answers.items) }
    ensures journal { IfOk result (λ left. left.finished.journal.items ≡ ordered_journal order (begins job)) }
    ensures finish { IfOk result (λ left. finish_by (begins job) left.finished.journal.items ≡ Some left.finished.finish) }
    ensures counts { IfOk result (λ left. Counts left.count left.finished.machine (events_of left.finished.journal.items)) }
    ensures on { IfOk result (λ left. counted ≡ true → left.count.on ≡ true) }
{
    let Run {
        program,
        config,
        rules,
        seed,
        budget,
        showing: _,
    } = job;
    let Ok(course) = start(alloc, program, config, rules, seed, budget, order) else {
        return Err(Memory);
    };
    let mut count = Count::new(alloc, counted);
    let mut nowhere = SureSink::new();
    let finished = finish(course, &mut count, &mut nowhere);
    if lacks_memory(counted, &count) {
        drop(count);
        drop(finished);
        return Err(Memory);
    }
    Ok(Turned { finished, count })
}

/// Runs the program by turns of one worker a node, in this order, up to the run's end; puts what each turn releases to the console;
/// and then tells each probe the journal's events and puts what is to be shown to the report. It takes all memory before the first
/// event.
pub fn run<C: Sink, R: Sink>(
    alloc: Global,
    job: Run,
    order: Order,
    probes: &mut ProbeSet,
    console: &mut C,
    report: &mut R,
) -> Result<Ending, RunFault>
    requires { MayBegin job }

    // It came to the end of the order's journal, and all of that journal's text is put.
    ensures ok { IfOk result (λ ending. IsDone order job (meters_in first tally step probes.old.probes.items) ending
        (ends (C.written console.old) (R.written report.old)) (ends (C.written console.new) (R.written report.new))
        (meters_in first tally step probes.new.probes.items)) }

    // A sink broke: the console after so many turns, and the report has nothing, or the report, after all of the console's text.
    ensures sink { result ≡ Err RunFault.Sink → IsBrokenOff order job (meters_in first tally step probes.old.probes.items)
        (C.faults console.old) (C.faults console.new)
        (ends (C.written console.old) (R.written report.old)) (ends (C.written console.new) (R.written report.new))
        (meters_in first tally step probes.new.probes.items) }

    // Memory was lacking, and nothing is done.
    ensures memory { result ≡ Err RunFault.Memory →
        (console.new ≡ console.old) × (report.new ≡ report.old) × (probes.new ≡ probes.old) }
    ensures cause { result ≡ Err RunFault.Sink
        → Rose (C.faults console.old) (C.faults console.new) ⊎ Rose (R.faults report.old) (R.faults report.new) }
{
    let Run {
        program,
        config,
        rules,
        seed,
        budget,
        showing,
    } = job;
    let Ok(mut room) = report_room(alloc, &program, config.nodes) else {
        return Err(RunFault::Memory);
    };
    let Ok(course) = start(alloc, program, config, rules, seed, budget, order) else {
        drop(room);
        return Err(RunFault::Memory);
    };
    let mut count = Count::new(alloc, false);
    let finished = finish(course, &mut count, console);
    drop(count);
    tell(&finished.journal, &finished.answers, probes);
    let ended = put_ended(&mut room, &finished, &showing, probes, report);
    drop(finished);
    drop(room);
    match ended {
        Some(ending) => Ok(ending),
        None => Err(RunFault::Sink),
    }
}
