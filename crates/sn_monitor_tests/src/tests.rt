//! Runs that are monitored, turn by turn, and what their watchers see.
ghost use Rattle.std.specs.Prelude.{◌≡◌, ◌<◌, ◌≤◌, IfOk};
ghost use Rattle.sn_model.specs.Machine.{start_of};

use elf_load::load;
use sn_base::{Config, Event, Memory, NodeId, Rules};
use sn_driver::{Driver, Turn};
use sn_machine::Machine;
use sn_monitor::{Monitored, Published, Snap, Watcher};
use std::alloc::Global;
use std::process::Abort;
use std::sync::Wait;
use std::sync::atomic::{AtomicBool, Ordering};
use std::test::Fail;
use std::thread;
use std::thread::{Threads, join_mut};

/// Puts a byte and exits with it.
const PUTS: &str = "04100513\n00100893\n00000073\n05d00893\n00000073\n";

/// Each core adds 1 to the word at 80001000 and exits with its number.
const ADDS: &str = "800012b7\n00100313\n0062a3af\n05d00893\n00000073\n";

/// Each core jumps to itself.
const LOOPS: &str = "0000006f\n";

/// A run: its program, its nodes, after how many instructions an edge is due, and the word that is watched.
#[derive(Clone, Copy)]
struct Run {
    program: &'static str,
    nodes: u8,
    interval: u32,
    watch: u32,
}

/// It ends at the first point.
const ENDS: Run = Run {
    program: PUTS,
    nodes: 1,
    interval: 100,
    watch: 0x8000_0000,
};

const ADDS_UP: Run = Run {
    program: ADDS,
    nodes: 2,
    interval: 100,
    watch: 0x8000_1000,
};

/// It goes on from point to point.
const GOES_ON: Run = Run {
    program: LOOPS,
    nodes: 1,
    interval: 2,
    watch: 0x8000_1000,
};

/// The machine of a run, with room for 1,000 events.
fn machine(rt: &impl Abort, alloc: Global, run: &Run) -> Result<Machine, Fail>
    ensures fresh { IfOk result (λ m. (m.applied ≡ 0) × (m.state ≡ start_of m.image m.config.nodes)) }
    ensures nodes { IfOk result (λ m. m.config.nodes ≡ run.now.nodes) }
{
    let config = Config {
        nodes: run.nodes,
        sets: 16,
        ways: 4,
        log: 256,
    };
    assert!(rt; config.fits());
    let image = load(alloc, run.program.as_bytes())?;
    let mut machine = Machine::new(alloc, image, config)?;
    machine.reserve(1000)?;
    Ok(machine)
}

/// The start of a run.
fn begun<T: Wait + Abort>(rt: &T, alloc: Global, run: &Run) -> Result<(Monitored, Watcher), Fail>
    ensures { IfOk result (λ made. (made.0.machine.config.nodes ≡ run.now.nodes) × (made.1.board ≡ made.0.board)) }
{
    let machine = machine(rt, alloc, run)?;
    assert!(rt; 1 <= run.nodes && run.nodes <= 16 && 1 <= run.interval);
    assert!(rt; 0x8000_0000 <= run.watch && run.watch < 0x8000_2000 && run.watch % 4 == 0);
    let rules = Rules {
        interval: run.interval,
        wait: 20_000,
        lose_every: 0,
        kill: None,
    };
    let driver = Driver::new(rules, run.nodes);
    match Monitored::new(rt, alloc, machine, driver, run.watch) {
        Ok(made) => Ok(made),
        Err(_) => Err(Fail::from(Memory)),
    }
}

fn end(rt: &impl Wait, monitored: Monitored) {
    let _machine = monitored.end(rt);
}

/// Whether a turn did what was due.
fn is_due(due: Option<Event>, turn: &Turn) -> bool {
    match (due, turn) {
        (Some(event), Turn::Did(did, _)) => event == *did,
        (None, Turn::Over) => true,
        _ => false,
    }
}

/// One turn, which does what was due. What it published, unless the run has ended.
fn step<T: Wait + Abort>(
    rt: &T,
    monitored: &mut Monitored,
    worker: u32,
    pick: u32,
) -> Option<Published>
    requires { worker < monitored.old.machine.config.nodes }
    ensures { (monitored.new.machine.config ≡ monitored.old.machine.config) × (monitored.new.board ≡ monitored.old.board) }
{
    assert!(rt; monitored.spare() > 0);
    let due = monitored.due(worker, pick);
    let over = due.is_none();
    let (turn, published) = monitored.turn(rt, worker, pick);
    assert!(rt; is_due(due, &turn));
    if over { None } else { Some(published) }
}

/// Turns of the workers, round and round, up to one that publishes. Whether one does before the run's end.
fn publish_next<T: Wait + Abort>(
    rt: &T,
    monitored: &mut Monitored,
    nodes: u32,
) -> Result<bool, Memory>
    requires some { 1 ≤ nodes }
    requires nodes { monitored.old.machine.config.nodes ≡ nodes }
    ensures { (monitored.new.machine.config ≡ monitored.old.machine.config) × (monitored.new.board ≡ monitored.old.board) }
{
    'turns: for turn in 0..500u32 {
        match step(rt, monitored, turn % nodes, turn) {
            Some(Published::Nothing) => {}
            Some(Published::New) => return Ok(true),
            Some(Published::Memory) => return Err(Memory),
            None => return Ok(false),
        }
    }
    assert!(rt; false, "nothing is validated");
    Ok(false)
}

/// What a snapshot shows: its point, how many records are committed, the first core's place, and the watched word.
#[derive(Clone, Copy, PartialEq, Eq, Debug)]
struct Sight {
    point: u32,
    committed: u32,
    pc: u32,
    word: u32,
}

fn sight_of(snap: &Snap) -> Sight {
    Sight {
        point: snap.point(),
        committed: snap.committed(),
        pc: snap.core(NodeId::numbered(0)).pc,
        word: snap.word(),
    }
}

fn look(watcher: &mut Watcher) -> Sight
    ensures { watcher.new.board ≡ watcher.old.board }
{
    sight_of(&watcher.look())
}

/// The watcher learns a receipt. What it shows.
fn learn(monitored: &mut Monitored, watcher: &mut Watcher) -> Sight
    requires { watcher.old.board ≡ monitored.old.board }
    ensures { (monitored.new ≡ monitored.old) × (watcher.new.board ≡ watcher.old.board) }
{
    let receipt = monitored.receipt();
    let sight = sight_of(receipt.last());
    watcher.learn(receipt);
    sight
}

/// The last cut of a run, as its watcher sees it. One that was published and isn't shown lacked memory for that.
fn last_cut<T: Wait + Abort>(rt: &T, alloc: Global, run: &Run) -> Result<Sight, Fail> {
    let (mut monitored, mut watcher) = begun(rt, alloc, run)?;
    assert!(rt; run.nodes > 0);
    let mut published: Result<bool, Memory> = Ok(true);
    'points: for _ in 0..100 {
        published = publish_next(rt, &mut monitored, u32::from(run.nodes));
        if published != Ok(true) {
            break;
        }
    }
    let told = monitored.receipt().last().point();
    let sight = look(&mut watcher);
    end(rt, monitored);
    published?;
    if sight.point < told {
        return Err(Fail::from(Memory));
    }
    Ok(sight)
}

#[test]
fn the_cut_of_a_program_that_ended_is_its_end(rt: HostRuntime) -> Result<(), Fail> {
    let sight = last_cut(&rt, rt.alloc(), &ENDS)?;
    assert!(rt; sight.point == 1 && sight.committed == 5);
    assert!(rt; sight.pc == 0x8000_0010 && sight.word == 0x0410_0513);
    Ok(())
}

#[test]
fn the_watched_word_has_what_all_cores_added(rt: HostRuntime) -> Result<(), Fail> {
    let sight = last_cut(&rt, rt.alloc(), &ADDS_UP)?;
    assert!(rt; sight.committed == 10 && sight.word == 2);
    Ok(())
}

/// The points that a watcher sees: at the start, told by a receipt, after that, after one more publishing, and after the end.
fn points<T: Wait + Abort>(rt: &T, alloc: Global) -> Result<[u32; 5], Fail> {
    let (mut monitored, mut watcher) = begun(rt, alloc, &GOES_ON)?;
    let first = look(&mut watcher).point;
    let one = publish_next(rt, &mut monitored, 1);
    let told = learn(&mut monitored, &mut watcher).point;
    let seen = look(&mut watcher).point;
    let other = publish_next(rt, &mut monitored, 1);
    let later = look(&mut watcher).point;
    end(rt, monitored);
    let last = look(&mut watcher).point;
    one?;
    other?;
    Ok([first, told, seen, later, last])
}

#[test]
fn a_watcher_is_not_behind_its_receipt_and_does_not_go_back(rt: HostRuntime) -> Result<(), Fail> {
    let points = points(&rt, rt.alloc())?;
    assert!(rt; points == [0, 1, 1, 2, 2]);
    Ok(())
}

#[test]
fn a_watcher_that_looks_only_after_the_end_has_its_receipts_snapshot(
    rt: HostRuntime,
) -> Result<(), Fail> {
    let (mut monitored, mut watcher) = begun(&rt, rt.alloc(), &GOES_ON)?;
    let one = publish_next(&rt, &mut monitored, 1);
    let told = learn(&mut monitored, &mut watcher);
    let other = publish_next(&rt, &mut monitored, 1);
    end(&rt, monitored);
    one?;
    other?;
    let seen = look(&mut watcher);
    assert!(rt; seen == told && seen.point == 1);
    Ok(())
}

/// Looks until a point is seen or the turns are given up, for at most 50,000,000 looks. Whether one of the two came.
fn look_for(watcher: &mut Watcher, point: u32, given_up: &AtomicBool) -> bool {
    for _ in 0..50_000_000u32 {
        if watcher.look().point() >= point || given_up.load(Ordering::SeqCst) {
            return true;
        }
        thread::yield_now();
    }
    false
}

/// Looks for the second point, says that it was seen, and looks for the third.
fn watch(rt: &impl Abort, watcher: &mut Watcher, seen: &AtomicBool, given_up: &AtomicBool) {
    assert!(rt;
        look_for(watcher, 2, given_up),
        "the second point is never seen"
    );
    seen.store(true, Ordering::SeqCst);
    assert!(rt;
        look_for(watcher, 3, given_up),
        "the third point is never seen"
    );
}

/// Waits for the watcher, as long. Whether it said so.
fn wait_for(seen: &AtomicBool) -> bool {
    for _ in 0..50_000_000u32 {
        if seen.load(Ordering::SeqCst) {
            return true;
        }
        thread::yield_now();
    }
    false
}

/// Publishes two points, and one more once the second was seen. Where memory is lacking for showing the first alone, it is shown with
/// the second.
fn publish_all<T: Wait + Abort>(
    rt: &T,
    monitored: &mut Monitored,
    seen: &AtomicBool,
) -> Result<(), Memory>
    requires { monitored.old.machine.config.nodes ≡ 1 }
{
    publish_next(rt, monitored, 1)?;
    publish_next(rt, monitored, 1)?;
    assert!(rt; wait_for(seen), "the turns waited in vain");
    publish_next(rt, monitored, 1)?;
    Ok(())
}

/// The watcher beside the turns, which are given up where memory is lacking.
fn run_beside<T: Threads + Wait + Sync + Abort>(
    rt: &T,
    monitored: &mut Monitored,
    watcher: &mut Watcher,
) -> Result<(), Memory>
    requires { monitored.old.machine.config.nodes ≡ 1 }
{
    let seen = AtomicBool::new(false);
    let seen = &seen;
    let given_up = AtomicBool::new(false);
    let given_up = &given_up;
    let (_, published) = join_mut(
        rt,
        &mut || watch(rt, watcher, seen, given_up),
        &mut ||
            requires { monitored.now.machine.config.nodes ≡ 1 }
        {
            let published = publish_all(rt, monitored, seen);
            given_up.store(published.is_err(), Ordering::SeqCst);
            published
        },
    );
    published
}

#[test]
fn a_watcher_looks_beside_the_turns(rt: HostRuntime) -> Result<(), Fail> {
    let (mut monitored, mut watcher) = begun(&rt, rt.alloc(), &GOES_ON)?;
    let published = run_beside(&rt, &mut monitored, &mut watcher);
    end(&rt, monitored);
    published?;
    Ok(())
}
