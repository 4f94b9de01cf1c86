//! What runs leave in every schedule, workers and console side by side, and probes.
ghost use Rattle.std.specs.Prelude.{◌*◌, ◌<◌, [], IfSome};

use super::is_so;
use elf_load::load;
use node_threads::{Finish, SharedMachine, run_nodes};
use sn_base::{Answer, Config, Event, NodeId, Rules, SwitchId};
use sn_driver::Driver;
use sn_io::{Failed, Gate, MemSink, OpenGate, Sink, SureSink};
use sn_machine::Machine;
use sn_probe::{EventTally, Probe, ProbeSet};
use std::alloc::Global;
use std::process::Abort;
use std::sync::atomic::{AtomicU64, Ordering};
use std::sync::{Arc, Wait};
use std::test::Fail;
use std::thread;
use std::thread::Threads;

/// Each core adds 1 to a word and exits with its number.
const ADDS: &str = "800012b7\n00100313\n0062a3af\n05d00893\n00000073\n";

/// Each core counts in one word for ever, and puts a byte for each count.
const COUNTS: &str = "\
800012b7\n00100313\n0062a3af\n03f3f513\n03050513\n00100893\n00000073\nfedff06f\n";

/// Each core jumps to itself.
const LOOPS: &str = "0000006f\n";

/// No instruction.
const TRAPS: &str = "00000000\n";

/// A run: its program, its nodes and its rules, by which the first switch dies at once or none does; and its budget.
#[derive(Clone, Copy)]
struct Run {
    program: &'static str,
    nodes: u8,
    interval: u32,
    wait: u32,
    lose_every: u32,
    kills: bool,
    budget: u32,
}

const TRAPPED: Run = Run {
    program: TRAPS,
    nodes: 1,
    interval: 100,
    wait: 20_000,
    lose_every: 0,
    kills: false,
    budget: 100,
};

const SPENT: Run = Run {
    program: LOOPS,
    budget: 50,
    ..TRAPPED
};

/// Its workers have had the turns that are handed over one by one long before its end.
const LONG: Run = Run {
    program: LOOPS,
    nodes: 4,
    budget: 40_000,
    ..TRAPPED
};

const CUT_OFF: Run = Run {
    program: ADDS,
    nodes: 2,
    kills: true,
    budget: 1000,
    ..TRAPPED
};

/// Every second event is a recovery.
const RECOVERING: Run = Run {
    program: ADDS,
    nodes: 4,
    wait: 1,
    budget: 1000,
    ..TRAPPED
};

const LOSING: Run = Run {
    program: ADDS,
    nodes: 4,
    lose_every: 60,
    budget: 1_000_000,
    ..TRAPPED
};

/// After 300 of the 400 events 38 bytes are released.
const COUNTING: Run = Run {
    program: COUNTS,
    interval: 20,
    budget: 400,
    ..TRAPPED
};

/// The switch that dies, which is one of the machine's, and when.
fn kill_of(rt: &impl Abort, run: &Run) -> Option<(SwitchId, u32)>
    ensures { IfSome result (λ rule. rule.0 < 2 * run.now.nodes) }
{
    if !run.kills {
        return None;
    }
    assert!(rt; run.nodes > 0);
    Some((SwitchId::a(NodeId::numbered(0)), 0))
}

/// The machine of a run, with its driver.
fn shared(rt: &impl Abort, alloc: Global, run: &Run) -> Result<SharedMachine, Fail> {
    let config = Config {
        nodes: run.nodes,
        sets: 16,
        ways: 4,
        log: 256,
    };
    assert!(rt; config.fits());
    assert!(rt; run.interval > 0 && run.wait > 0 && run.budget <= 1_000_000);
    let rules = Rules {
        interval: run.interval,
        wait: run.wait,
        lose_every: run.lose_every,
        kill: kill_of(rt, run),
    };
    let image = load(alloc, run.program.as_bytes())?;
    let machine = Machine::new(alloc, image, config)?;
    let driver = Driver::new(rules, run.nodes);
    Ok(SharedMachine::new(alloc, machine, driver, run.budget, 7)?)
}

/// What a run left: why it ended, how many events it had, the recovery point, how many records are committed and how many bytes
/// released, and the word that the programs count in.
#[derive(Clone, Copy)]
struct Left {
    finish: Finish,
    events: usize,
    point: u32,
    committed: usize,
    released: usize,
    word: u32,
}

fn run_by<T: Threads + Wait + Sync + Abort, C: Sink + Send, G: Gate + Sync>(
    rt: &T,
    alloc: Global,
    run: &Run,
    gate: &G,
    console: &mut C,
    probes: &mut ProbeSet,
) -> Result<Left, Fail> {
    let shared = shared(rt, alloc, run)?;
    let end = run_nodes(rt, alloc, shared, gate, console, probes)?;
    let view = end.machine.recovered();
    Ok(Left {
        finish: end.finish,
        events: end.journal.len(),
        point: view.point(),
        committed: view.committed().len(),
        released: view.released().len(),
        word: view.word(0x8000_1000),
    })
}

/// The same where no probe is attached.
fn run_alone<T: Threads + Wait + Sync + Abort, C: Sink + Send, G: Gate + Sync>(
    rt: &T,
    alloc: Global,
    run: &Run,
    gate: &G,
    console: &mut C,
) -> Result<Left, Fail> {
    let mut probes = ProbeSet::new(Vec::new(alloc));
    run_by(rt, alloc, run, gate, console, &mut probes)
}

/// The same where no gate holds the workers and the console takes all.
fn run_freely<T: Threads + Wait + Sync + Abort>(
    rt: &T,
    alloc: Global,
    run: &Run,
) -> Result<Left, Fail> {
    run_alone(rt, alloc, run, &OpenGate::new(), &mut SureSink::new())
}

/// The same with probes.
fn run_probed<T: Threads + Wait + Sync + Abort>(
    rt: &T,
    alloc: Global,
    run: &Run,
    probes: &mut ProbeSet,
) -> Result<Left, Fail> {
    let gate = OpenGate::new();
    run_by(rt, alloc, run, &gate, &mut SureSink::new(), probes)
}

#[test]
fn a_run_ends_where_its_core_traps(rt: HostRuntime) -> Result<(), Fail> {
    let end = run_freely(&rt, rt.alloc(), &TRAPPED)?;
    is_so(&rt, end.finish == Finish::Over && end.committed == 1);
    Ok(())
}

#[test]
fn a_run_ends_where_its_budget_is_spent(rt: HostRuntime) -> Result<(), Fail> {
    let end = run_freely(&rt, rt.alloc(), &SPENT)?;
    is_so(&rt, end.finish == Finish::Budget && end.events == 50);
    Ok(())
}

#[test]
fn workers_that_sleep_before_the_lock_come_to_the_end(rt: HostRuntime) -> Result<(), Fail> {
    let end = run_freely(&rt, rt.alloc(), &LONG)?;
    is_so(&rt, end.finish == Finish::Budget && end.events == 40_000);
    Ok(())
}

/// Whether a run ended since no path joins the nodes 0 and 1.
fn is_cut_off(finish: Finish) -> bool {
    match finish {
        Finish::CutOff(first, second) => first.number() == 0 && second.number() == 1,
        _ => false,
    }
}

#[test]
fn a_run_ends_where_a_dead_switch_cuts_its_nodes_off(rt: HostRuntime) -> Result<(), Fail> {
    let end = run_freely(&rt, rt.alloc(), &CUT_OFF)?;
    is_so(
        &rt,
        is_cut_off(end.finish) && end.events == 9 && end.committed == 0,
    );
    Ok(())
}

/// So many probes that count the events of each kind.
fn tallies(alloc: Global, count: u64) -> Result<ProbeSet, Fail> {
    let mut boxes: Vec<Box<dyn Probe + Send>> = Vec::new(alloc);
    for _ in 0..count {
        boxes.push(Box::new(alloc, EventTally::new())?)?;
    }
    Ok(ProbeSet::new(boxes))
}

/// What a run leaves in which every second event is a recovery, and how many of them a probe counts.
fn run_tallied<T: Threads + Wait + Sync + Abort>(
    rt: &T,
    alloc: Global,
) -> Result<(Left, Option<u64>), Fail> {
    let mut probes = tallies(alloc, 1)?;
    let end = run_probed(rt, alloc, &RECOVERING, &mut probes)?;
    assert!(rt; probes.count() > 0);
    Ok((end, probes.line(0, 9)))
}

#[test]
fn a_probe_is_told_all_events(rt: HostRuntime) -> Result<(), Fail> {
    let (end, recoveries) = run_tallied(&rt, rt.alloc())?;
    is_so(&rt, end.finish == Finish::Budget && end.events == 1000);
    is_so(
        &rt,
        end.point == 0 && end.committed == 0 && recoveries == Some(500),
    );
    Ok(())
}

/// Waits until a count is at least so much, for at most 50,000,000 looks. What was in vain is counted.
fn wait_for(count: &AtomicU64, least: u64, missed: &AtomicU64) {
    for _ in 0..50_000_000u32 {
        if count.load(Ordering::SeqCst) >= least {
            return;
        }
        thread::yield_now();
    }
    missed.fetch_add(1, Ordering::SeqCst);
}

/// Holds each worker's first turn until all four have begun theirs.
#[derive(Drop)]
struct Meeting {
    begun: AtomicU64,
    missed: AtomicU64,
}

impl Gate for Meeting {
    fn before(&self, _worker: u32, turn: u64) {
        if turn == 1 {
            self.begun.fetch_add(1, Ordering::SeqCst);
            wait_for(&self.begun, 4, &self.missed);
        }
    }
}

/// What a run of four workers with losses leaves, with so many probes, and how many of its workers waited in vain for the others to begin.
fn run_met<T: Threads + Wait + Sync + Abort>(
    rt: &T,
    alloc: Global,
    count: u64,
) -> Result<(Left, u64), Fail> {
    let mut probes = tallies(alloc, count)?;
    let gate = Meeting {
        begun: AtomicU64::new(0),
        missed: AtomicU64::new(0),
    };
    let end = run_by(rt, alloc, &LOSING, &gate, &mut SureSink::new(), &mut probes)?;
    Ok((end, gate.missed.load(Ordering::SeqCst)))
}

#[test]
fn the_workers_are_in_flight_at_once(rt: HostRuntime) -> Result<(), Fail> {
    for count in [0, 100] {
        let (end, missed) = run_met(&rt, rt.alloc(), count)?;
        assert!(rt; missed == 0, "a worker waited in vain");
        is_so(&rt, end.finish == Finish::Over);
        is_so(
            &rt,
            end.committed == 20 && end.released == 0 && end.word == 4,
        );
    }
    Ok(())
}

/// A console of which others see how many bytes it has had.
#[derive(Drop)]
struct Watched<'a> {
    bytes: &'a AtomicU64,
}

impl Sink for Watched<'_> {
    ghost use Rattle.std.specs.Prelude.{None};

    ghost written = { λ s. None };

    ghost faults = { λ s. 0 };

    fn put(&mut self, piece: &[u8]) -> Result<(), Failed> {
        self.bytes.fetch_add(piece.len() as u64, Ordering::SeqCst);
        Ok(())
    }
}

/// Holds the 300th turn until the console has had a byte.
#[derive(Drop)]
struct Late<'a> {
    bytes: &'a AtomicU64,
    missed: AtomicU64,
}

impl Gate for Late<'_> {
    fn before(&self, _worker: u32, turn: u64) {
        if turn == 300 {
            wait_for(self.bytes, 1, &self.missed);
        }
    }
}

/// What a run leaves that is held late for its console, how many bytes that has had, and whether it was held in vain.
fn run_late<T: Threads + Wait + Sync + Abort>(
    rt: &T,
    alloc: Global,
) -> Result<(Left, u64, u64), Fail> {
    let bytes = AtomicU64::new(0);
    let gate = Late {
        bytes: &bytes,
        missed: AtomicU64::new(0),
    };
    let end = run_alone(rt, alloc, &COUNTING, &gate, &mut Watched { bytes: &bytes })?;
    let put = bytes.load(Ordering::SeqCst);
    Ok((end, put, gate.missed.load(Ordering::SeqCst)))
}

#[test]
fn the_console_is_written_beside_the_run(rt: HostRuntime) -> Result<(), Fail> {
    let (end, put, missed) = run_late(&rt, rt.alloc())?;
    assert!(rt; missed == 0, "a turn waited in vain");
    is_so(&rt, end.finish == Finish::Budget);
    is_so(&rt, end.released > 38 && put == end.released as u64);
    Ok(())
}

/// Why a run ends whose console fails at its first call, and how many bytes that has had.
fn run_failing<T: Threads + Wait + Sync + Abort>(
    rt: &T,
    alloc: Global,
) -> Result<(Finish, usize), Fail> {
    let mut console = MemSink::with_room(alloc, 64)?;
    console.fail_call(1)?;
    let end = run_alone(rt, alloc, &COUNTING, &OpenGate::new(), &mut console)?;
    Ok((end.finish, console.bytes().len()))
}

#[test]
fn a_console_that_fails_stops_the_workers(rt: HostRuntime) -> Result<(), Fail> {
    let (finish, put) = run_failing(&rt, rt.alloc())?;
    is_so(&rt, finish == Finish::Stopped && put == 0);
    Ok(())
}

/// Counts how often it is told something, and its drop.
struct Witness {
    told: Arc<AtomicU64, Global>,
    drops: Arc<AtomicU64, Global>,
}

impl Drop for Witness {
    fn drop(self) {
        let Witness { told: _, drops } = self;
        drops.fetch_add(1, Ordering::SeqCst);
    }
}

impl Probe for Witness {
    ghost first = { λ _. [] };

    ghost tally = { λ _. [] };

    ghost step = { λ _ tally number event answer. tally };

    fn told(&mut self, _number: u64, _event: &Event, _answer: &Answer) {
        self.told.fetch_add(1, Ordering::SeqCst);
    }

    fn line(&self, _place: usize) -> Option<u64> {
        None
    }
}

/// So many probes with the same two counts.
fn witnesses(
    alloc: Global,
    count: u64,
    told: &Arc<AtomicU64, Global>,
    drops: &Arc<AtomicU64, Global>,
) -> Result<ProbeSet, Fail> {
    let mut boxes: Vec<Box<dyn Probe + Send>> = Vec::new(alloc);
    for _ in 0..count {
        let witness = Witness {
            told: Arc::try_clone(told)?,
            drops: Arc::try_clone(drops)?,
        };
        boxes.push(Box::new(alloc, witness)?)?;
    }
    Ok(ProbeSet::new(boxes))
}

/// How many of so many probes were dropped before their set was, which are told the events of a run.
fn run_told<T: Threads + Wait + Sync + Abort>(
    rt: &T,
    alloc: Global,
    count: u64,
    told: &Arc<AtomicU64, Global>,
    drops: &Arc<AtomicU64, Global>,
) -> Result<u64, Fail> {
    let mut probes = witnesses(alloc, count, told, drops)?;
    run_probed(rt, alloc, &COUNTING, &mut probes)?;
    Ok(drops.load(Ordering::SeqCst))
}

/// How often so many probes were told something in a run, and how many were dropped before and after their set was.
fn run_witnessed<T: Threads + Wait + Sync + Abort>(
    rt: &T,
    alloc: Global,
    count: u64,
) -> Result<(u64, u64, u64), Fail> {
    let told = Arc::new(alloc, AtomicU64::new(0))?;
    let drops = Arc::new(alloc, AtomicU64::new(0))?;
    let before = run_told(rt, alloc, count, &told, &drops)?;
    let after = drops.load(Ordering::SeqCst);
    Ok((told.load(Ordering::SeqCst), before, after))
}

/// How many probes there are, and how often they are told something in a run of 400 events.
const TOLD: &[(u64, u64)] = &[(0, 0), (1, 400), (100, 40_000)];

#[test]
fn each_probe_is_told_each_event_and_dropped_once(rt: HostRuntime) -> Result<(), Fail> {
    for (count, wanted) in TOLD {
        let (told, before, after) = run_witnessed(&rt, rt.alloc(), *count)?;
        is_so(&rt, told == *wanted && before == 0 && after == *count);
    }
    Ok(())
}
