//! A whole run: all memory first, then the workers' turns, and then the report.
ghost use Rattle.std.specs.Prelude.{◌≡◌, ◌≤◌, ◌⊎◌, true, IfOk, IfSome, Err};
ghost use Rattle.sn_base.specs.Config.{config_fits};
ghost use Rattle.sn_base.specs.Rules.{AreRules};
ghost use Rattle.sn_io.specs.Outside.{Rose};
ghost use Rattle.sink_pieces.specs.Pieces.{ends};
ghost use Rattle.sn_probe.specs.Probes.{meters_in};
ghost use Rattle.node_threads.specs.Shared.{begins_with};
ghost use Rattle.node_run.specs.Shown.{MayBegin, IsDone, IsBrokenOff};
ghost use Rattle.sn_base.specs.declared.limits.TheConstants.{EVENTS};

use crate::ending::Ending;
use crate::job::Run;
use crate::reporting::put_ended;
use crate::room::report_room;
use node_threads::sn_driver::Driver;
use node_threads::{SharedMachine, run_nodes};
use script_replay::sn_machine::Machine;
use sn_base::{Config, Image, Rules};
use sn_io::{Gate, Sink};
use sn_probe::ProbeSet;
use std::alloc::Global;
use std::sync::Wait;
use std::thread::Threads;

/// Why a run didn't come to its end, or its text not to its own.
#[derive(Clone, Copy, PartialEq, Eq, Debug)]
pub enum RunFault {
    /// A sink took less than the whole of a text. Where it was the console, the workers were stopped.
    Sink,
    /// Memory was wanted and not given. No event was applied.
    Memory,
}

/// A machine of these sizes at the start of the program, that workers may share. None is want of memory.
pub fn shared_for(
    alloc: Global,
    program: Image,
    config: Config,
    rules: Rules,
    seed: u64,
    budget: u32,
) -> Option<SharedMachine>
    requires sizes { config_fits config ≡ true }
    requires ruled { AreRules rules config.nodes }
    requires few { budget ≤ EVENTS }
    ensures { IfSome result
        (λ s. begins_with s ≡ record { image = program; config = config; rules = rules; seed = seed; budget = budget }) }
{
    let nodes = config.nodes;
    let Ok(machine) = Machine::new(alloc, program, config) else {
        return None;
    };
    let driver = Driver::new(rules, nodes);
    SharedMachine::new(alloc, machine, driver, budget, seed).ok()
}

/// Runs the program by one worker a node, each in a thread of its own, up to the run's end; puts the released bytes to the
/// console beside them; and then tells each probe the journal's events and puts what is to be shown to the report. It takes
/// all memory before the first event.
pub fn run<T: Threads + Wait + Sync, C: Sink + Send, R: Sink, G: Gate + Sync>(
    rt: &T,
    alloc: Global,
    job: Run,
    probes: &mut ProbeSet,
    console: &mut C,
    report: &mut R,
    gate: &G,
) -> Result<Ending, RunFault>
    requires { MayBegin job }

    // There is a due journal, as whose end the run ended, and all of its text is put.
    ensures ok { IfOk result (λ ending. IsDone job (meters_in first tally step probes.old.probes.items) ending
        (ends (C.written console.old) (R.written report.old)) (ends (C.written console.new) (R.written report.new))
        (meters_in first tally step probes.new.probes.items)) }

    // A sink broke: the console, and the report has nothing, or the report, after all of the console's text.
    ensures sink { result ≡ Err RunFault.Sink → IsBrokenOff job (meters_in first tally step probes.old.probes.items)
        (C.faults console.old) (C.faults console.new)
        (ends (C.written console.old) (R.written report.old)) (ends (C.written console.new) (R.written report.new))
        (meters_in first tally step probes.new.probes.items) }

    // Memory was lacking, and nothing is done.
    ensures memory { result ≡ Err RunFault.Memory →
        (console.new ≡ console.old) × (report.new ≡ report.old) × (probes.new ≡ probes.old) }
    ensures cause { result ≡ Err RunFault.Sink
        → Rose (C.faults console.old) (C.faults console.new) ⊎ Rose (R.faults report.old) (R.faults report.new) }
{
    let Run {
        program,
        config,
        rules,
        seed,
        budget,
        showing,
    } = job;
    let Ok(mut room) = report_room(alloc, &program, config.nodes) else {
        return Err(RunFault::Memory);
    };
    let Some(shared) = shared_for(alloc, program, config, rules, seed, budget) else {
        drop(room);
        return Err(RunFault::Memory);
    };
    let Ok(finished) = run_nodes(rt, alloc, shared, gate, console, probes) else {
        drop(room);
        return Err(RunFault::Memory);
    };
    let ended = put_ended(&mut room, &finished, &showing, probes, report);
    drop(finished);
    drop(room);
    match ended {
        Some(ending) => Ok(ending),
        None => Err(RunFault::Sink),
    }
}
