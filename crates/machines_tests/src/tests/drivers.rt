//! Each run is driven on a machine of its own: what is due at each turn, and what comes after them, is what stands beside it.
ghost use Rattle.std.specs.Prelude.{◌*◌, ◌<◌, ◌≤◌, IfSome};

mod runs;

use elf_load::load;
use runs::{CUT_OFF, ENDED, FULL_SET};
use sn_base::{BlockNo, Config, Event, NodeId, Rules, SwitchId};
use sn_driver::{Driver, Turn};
use sn_machine::Machine;
use std::alloc::Global;
use std::process::Abort;
use std::test::Fail;

/// What was drawn, and the event that is due.
type Row = (u32, char, u64);

/// What comes after the turns.
#[derive(Clone, Copy)]
enum After {
    Turns,
    Over,
    /// The nodes 0 and 1 are cut off from each other.
    CutOff,
}

/// A machine's nodes, the ways of its caches and its program; the rules, with the node whose first switch dies and after how many
/// events; the turns of workers 0, 1 and so on; and what comes after them.
#[derive(Clone, Copy)]
struct Run {
    nodes: u8,
    ways: u8,
    program: &'static str,
    interval: u32,
    wait: u32,
    lose_every: u32,
    kill: Option<(u8, u32)>,
    turns: &'static [Row],
    after: After,
}

/// A machine with room for 100 events.
fn start(rt: &impl Abort, alloc: Global, run: &Run) -> Result<Machine, Fail> {
    let config = Config {
        nodes: run.nodes,
        sets: 1,
        ways: run.ways,
        log: 256,
    };
    assert!(rt; config.fits());
    let image = load(alloc, run.program.as_bytes())?;
    let mut machine = Machine::new(alloc, image, config)?;
    machine.reserve(100)?;
    Ok(machine)
}

/// The switch that dies, which is one of the machine's, and when.
fn kill_of(rt: &impl Abort, run: &Run) -> Option<(SwitchId, u32)>
    ensures { IfSome result (λ rule. rule.0 < 2 * run.now.nodes) }
{
    let (number, after) = run.kill?;
    assert!(rt; number < run.nodes && run.nodes <= 16);
    Some((SwitchId::a(NodeId::numbered(number)), after))
}

fn node(number: u64) -> NodeId {
    NodeId::numbered((number % 16) as u8)
}

/// An event by a letter and a number: a block, a switch, a message, a node, or nothing.
fn event_of(letter: char, number: u64) -> Event {
    match letter {
        's' => Event::Step(node(number)),
        'p' => Event::Evict(node(0), BlockNo::new((number % 65536) as u16)),
        'e' => Event::Edge(node(number)),
        'h' => Event::Hop(number),
        'd' => Event::Deliver(number),
        'l' => Event::Lose(number),
        'k' => Event::Kill(SwitchId::a(node(number / 2))),
        'r' => Event::Report(node(number)),
        'v' => Event::Validate,
        _ => Event::Recover,
    }
}

/// The turns of the rows, and what comes after them.
fn drives(rt: &impl Abort, machine: &mut Machine, rules: Rules, rows: &[Row]) -> Turn
    requires interval { 1 ≤ rules.interval }
    requires wait { 1 ≤ rules.wait }
    requires kill { IfSome rules.kill (λ rule. rule.0 < 2 * machine.old.config.nodes) }
{
    let nodes = machine.config().nodes;
    let mut driver = Driver::new(rules, nodes);
    let mut worker = 0;
    assert!(rt; rows.len() < 100);
    'rows: for (pick, letter, number) in rows {
        assert!(rt; machine.spare() > 0);
        let due = driver.due(machine, worker, *pick);
        assert!(rt; due == Some(event_of(*letter, *number)));
        let turn = driver.turn(machine, worker, *pick);
        assert!(rt; matches!(turn, Turn::Did(_, _)));
        worker = (worker + 1) % u32::from(nodes);
    }
    assert!(rt; machine.spare() > 0);
    driver.turn(machine, worker, 0)
}

fn is_after(turn: &Turn, after: After) -> bool {
    match (after, turn) {
        (After::Turns, Turn::Did(_, _)) | (After::Over, Turn::Over) => true,
        (After::CutOff, Turn::CutOff(first, second)) => {
            first.number() == 0 && second.number() == 1
        }
        _ => false,
    }
}

/// Drives a run on a machine of its own.
fn plays(rt: &impl Abort, alloc: Global, run: &Run) -> Result<(), Fail> {
    let mut machine = start(rt, alloc, run)?;
    assert!(rt; machine.config().nodes == run.nodes);
    assert!(rt; run.interval > 0 && run.wait > 0);
    let rules = Rules {
        interval: run.interval,
        wait: run.wait,
        lose_every: run.lose_every,
        kill: kill_of(rt, run),
    };
    let last = drives(rt, &mut machine, rules, run.turns);
    assert!(rt; is_after(&last, run.after));
    Ok(())
}

#[test]
fn a_program_that_ends_is_over_once_all_is_committed(rt: HostRuntime) -> Result<(), Fail> {
    plays(&rt, rt.alloc(), &ENDED)
}

#[test]
fn a_block_is_evicted_where_its_set_is_full(rt: HostRuntime) -> Result<(), Fail> {
    plays(&rt, rt.alloc(), &FULL_SET)
}

#[test]
fn nodes_are_cut_off_where_a_switch_died(rt: HostRuntime) -> Result<(), Fail> {
    plays(&rt, rt.alloc(), &CUT_OFF)
}
