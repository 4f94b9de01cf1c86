//! Each schedule is played on a machine; its report and what is seen of the machine are those that stand beside it.
mod checkpoints;
mod exchanges;
mod looking;

use checkpoints::*;
use elf_load::load;
use exchanges::*;
use looking::{Look, seen};
use sn_base::{Answer, Config, Event, NodeId};
use sn_machine::Machine;
use sn_text::{Line, read_script};
use std::alloc::Global;
use std::process::Abort;
use std::test::Fail;

/// A part of a script; what a replay of it puts of each event; and what is seen of the machine then.
#[derive(Clone, Copy)]
struct Part {
    script: &'static str,
    report: &'static str,
    looks: &'static [(Look, u64)],
}

/// A machine's nodes and its program; the node that is looked at; and a script in parts.
#[derive(Clone, Copy)]
struct Schedule {
    nodes: u8,
    program: &'static str,
    node: u8,
    parts: &'static [Part],
}

/// A machine with room for 100 events.
fn start(rt: &impl Abort, alloc: Global, schedule: &Schedule) -> Result<Machine, Fail> {
    let config = Config {
        nodes: schedule.nodes,
        sets: 16,
        ways: 4,
        log: 256,
    };
    assert!(rt; config.fits());
    let image = load(alloc, schedule.program.as_bytes())?;
    let mut machine = Machine::new(alloc, image, config)?;
    machine.reserve(100)?;
    Ok(machine)
}

/// One event, which `foresee` answers beforehand.
fn apply(rt: &impl Abort, machine: &mut Machine, event: Event) -> Answer {
    assert!(rt; event.fits(machine.config().nodes));
    assert!(rt; machine.spare() > 0);
    let foreseen = machine.foresee(event);
    let answer = machine.apply(event);
    assert!(rt; answer == foreseen);
    answer
}

/// An event, its answer and the messages that it sent, put at the end of the report.
fn put_event(
    line: &mut Line,
    event: &Event,
    answer: &Answer,
    machine: &Machine,
    report: &mut Vec<u8>,
) -> Result<(), Fail> {
    line.clear();
    line.event(u64::from(machine.applied()), event, answer);
    line.all_sent(machine.sent());
    report.extend_from_slice(line.bytes())?;
    Ok(())
}

/// The report of a script's events on a machine.
fn report_of(
    rt: &impl Abort,
    alloc: Global,
    machine: &mut Machine,
    script: &str,
) -> Result<Vec<u8>, Fail> {
    assert!(rt; script.len() < 10_000);
    let events = read_script(alloc, script.as_bytes(), machine.config().nodes)?;
    let mut line = Line::new(alloc)?;
    let mut report = Vec::new(alloc);
    for event in events.as_slice() {
        let answer = apply(rt, machine, *event);
        put_event(&mut line, event, &answer, machine, &mut report)?;
    }
    Ok(report)
}

/// What is seen of a machine is what is wanted of it.
fn shows(rt: &impl Abort, machine: &Machine, number: u8, looks: &[(Look, u64)]) {
    let node = NodeId::new(number).expect(rt, "a node has a number below 16");
    assert!(rt; node.number() < machine.config().nodes);
    for place in 0..looks.len() {
        let (look, wanted) = looks[place];
        assert!(rt; seen(machine, node, look) == wanted, "at look {place}");
    }
}

/// Plays a part of a script from there on.
fn plays_on(
    rt: &impl Abort,
    alloc: Global,
    machine: &mut Machine,
    number: u8,
    part: &Part,
) -> Result<(), Fail> {
    let report = report_of(rt, alloc, machine, part.script)?;
    assert!(rt; report.as_slice() == part.report.as_bytes());
    shows(rt, machine, number, part.looks);
    Ok(())
}

/// Plays a schedule on a machine of its own.
fn plays(rt: &impl Abort, alloc: Global, schedule: &Schedule) -> Result<(), Fail> {
    let mut machine = start(rt, alloc, schedule)?;
    for part in schedule.parts {
        plays_on(rt, alloc, &mut machine, schedule.node, part)?;
    }
    Ok(())
}

#[test]
fn a_write_asks_the_home_for_the_block(rt: HostRuntime) -> Result<(), Fail> {
    plays(&rt, rt.alloc(), &ASKS_HOME)
}

#[test]
fn a_dead_switch_loses_what_comes_to_it(rt: HostRuntime) -> Result<(), Fail> {
    plays(&rt, rt.alloc(), &DEAD_SWITCH)
}

#[test]
fn a_report_names_the_interval_of_the_open_miss(rt: HostRuntime) -> Result<(), Fail> {
    plays(&rt, rt.alloc(), &OPEN_MISS)
}

#[test]
fn four_edges_and_no_fifth(rt: HostRuntime) -> Result<(), Fail> {
    plays(&rt, rt.alloc(), &FOUR_EDGES)
}

#[test]
fn a_read_gets_the_block_alone_from_its_home(rt: HostRuntime) -> Result<(), Fail> {
    plays(&rt, rt.alloc(), &READ_ALONE)
}

#[test]
fn a_look_shows_what_stands(rt: HostRuntime) -> Result<(), Fail> {
    plays(&rt, rt.alloc(), &READ_IN_PARTS)
}

#[test]
fn a_write_takes_the_block_from_its_owner_and_its_sharers(rt: HostRuntime) -> Result<(), Fail> {
    plays(&rt, rt.alloc(), &TAKEN_FROM_ALL)
}

#[test]
fn a_put_gives_the_written_block_back(rt: HostRuntime) -> Result<(), Fail> {
    plays(&rt, rt.alloc(), &PUT_BACK)
}

#[test]
fn a_put_that_comes_late_is_told_so(rt: HostRuntime) -> Result<(), Fail> {
    plays(&rt, rt.alloc(), &LATE_PUT)
}

#[test]
fn a_request_waits_for_the_one_before_it(rt: HostRuntime) -> Result<(), Fail> {
    plays(&rt, rt.alloc(), &WAITING_REQUEST)
}

#[test]
fn a_message_of_a_later_interval_is_held(rt: HostRuntime) -> Result<(), Fail> {
    plays(&rt, rt.alloc(), &HELD_REQUEST)
}

#[test]
fn a_write_is_undone_and_what_is_in_flight_is_dropped(rt: HostRuntime) -> Result<(), Fail> {
    plays(&rt, rt.alloc(), &UNDONE)
}

#[test]
fn what_was_written_before_the_point_is_kept(rt: HostRuntime) -> Result<(), Fail> {
    plays(&rt, rt.alloc(), &KEPT)
}

#[test]
fn a_recovery_is_refused_where_nodes_are_cut_off(rt: HostRuntime) -> Result<(), Fail> {
    plays(&rt, rt.alloc(), &CUT_OFF)
}

#[test]
fn each_node_hears_of_the_point_that_all_have_reached(rt: HostRuntime) -> Result<(), Fail> {
    plays(&rt, rt.alloc(), &HEARD)
}

#[test]
fn a_node_that_has_heard_may_go_four_edges_on(rt: HostRuntime) -> Result<(), Fail> {
    plays(&rt, rt.alloc(), &HEARD_AND_GONE_ON)
}
