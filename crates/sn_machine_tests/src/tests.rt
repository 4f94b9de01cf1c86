//! Each schedule is played on a machine; its console, its report and what is seen of the machine are those that stand beside it.
ghost use Rattle.std.specs.Prelude.{◌≤◌, length};

mod looking;
mod points;
mod programs;
mod reservations;
mod rooms;
mod transfers;

use elf_load::load;
use looking::{Look, seen};
use points::*;
use reservations::*;
use rooms::*;
use sn_base::{Answer, Config, Event, NodeId};
use sn_machine::Machine;
use sn_text::{Line, read_script};
use std::alloc::Global;
use std::process::Abort;
use std::test::Fail;
use transfers::*;

/// A machine's nodes, the entries of its logs and its program; a script; the console and the report that a replay of it puts; and what is
/// seen of the machine then.
#[derive(Clone, Copy)]
struct Schedule {
    nodes: u8,
    log: u16,
    program: &'static str,
    script: &'static str,
    console: &'static str,
    report: &'static str,
    looks: &'static [(Look, u64)],
}

/// A machine with room for 2,000 events.
fn start(rt: &impl Abort, alloc: Global, schedule: &Schedule) -> Result<Machine, Fail> {
    let config = Config {
        nodes: schedule.nodes,
        sets: 16,
        ways: 4,
        log: schedule.log,
    };
    assert!(rt; config.fits());
    let image = load(alloc, schedule.program.as_bytes())?;
    let mut machine = Machine::new(alloc, image, config)?;
    machine.reserve(2000)?;
    Ok(machine)
}

/// One event, which `foresee` answers beforehand.
fn apply(rt: &impl Abort, machine: &mut Machine, event: Event) -> Answer {
    assert!(rt; event.fits(machine.config().nodes));
    assert!(rt; machine.spare() > 0);
    let foreseen = machine.foresee(event);
    let answer = machine.apply(event);
    assert!(rt; answer == foreseen);
    answer
}

/// The lines of all cores at the recovery point, put at the end of the report.
fn put_cores(
    line: &mut Line,
    before: &str,
    machine: &Machine,
    report: &mut Vec<u8>,
) -> Result<(), Fail>
    requires { length before.now ≤ 2 }
{
    let view = machine.recovered();
    for number in 0..machine.config().nodes {
        let node = NodeId::new(number).unwrap();
        line.clear();
        line.core(before, node, view.core(node));
        report.extend_from_slice(line.bytes())?;
    }
    Ok(())
}

/// The group of an event, which was the machine's last, put at the end of the report.
fn put_group(
    line: &mut Line,
    event: &Event,
    answer: &Answer,
    machine: &Machine,
    report: &mut Vec<u8>,
) -> Result<(), Fail> {
    line.clear();
    line.event(u64::from(machine.applied()), event, answer);
    line.all_sent(machine.sent());
    report.extend_from_slice(line.bytes())?;
    match answer {
        Answer::Recovered(_) => put_cores(line, "  ", machine, report),
        _ => Ok(()),
    }
}

/// The summary, put at the end of the report.
fn put_summary(line: &mut Line, machine: &Machine, report: &mut Vec<u8>) -> Result<(), Fail> {
    let view = machine.recovered();
    line.clear();
    line.count("", "events", u64::from(machine.applied()));
    line.count("", "point", u64::from(view.point()));
    line.count("", "committed", view.committed().len() as u64);
    line.count("", "released", view.released().len() as u64);
    report.extend_from_slice(line.bytes())?;
    put_cores(line, "", machine, report)
}

/// The report of a script's events on a machine.
fn report_of(
    rt: &impl Abort,
    alloc: Global,
    machine: &mut Machine,
    script: &str,
) -> Result<Vec<u8>, Fail> {
    assert!(rt; script.len() < 10_000);
    let events = read_script(alloc, script.as_bytes(), machine.config().nodes)?;
    let mut line = Line::new(alloc)?;
    let mut report = Vec::new(alloc);
    for event in events.as_slice() {
        let answer = apply(rt, machine, *event);
        put_group(&mut line, event, &answer, machine, &mut report)?;
    }
    put_summary(&mut line, machine, &mut report)?;
    Ok(report)
}

/// What is seen of a machine is what is wanted of it.
fn shows(rt: &impl Abort, machine: &Machine, looks: &[(Look, u64)]) {
    let node = NodeId::new(0).expect(rt, "there is a node 0");
    assert!(rt; node.number() < machine.config().nodes);
    for place in 0..looks.len() {
        let (look, wanted) = looks[place];
        assert!(rt; seen(machine, node, look) == wanted, "at look {place}");
    }
}

fn has_released(machine: &Machine, console: &str) -> bool {
    machine.recovered().released() == console.as_bytes()
}

/// Plays a schedule from there on.
fn plays_on(
    rt: &impl Abort,
    alloc: Global,
    machine: &mut Machine,
    schedule: &Schedule,
) -> Result<(), Fail> {
    let report = report_of(rt, alloc, machine, schedule.script)?;
    assert!(rt; report.as_slice() == schedule.report.as_bytes());
    assert!(rt; has_released(machine, schedule.console));
    shows(rt, machine, schedule.looks);
    Ok(())
}

/// Plays a schedule on a machine of its own.
fn plays(rt: &impl Abort, alloc: Global, schedule: &Schedule) -> Result<(), Fail> {
    let mut machine = start(rt, alloc, schedule)?;
    plays_on(rt, alloc, &mut machine, schedule)
}

/// An edge and 1,024 reports, which leave so many messages in flight.
fn fill(rt: &impl Abort, machine: &mut Machine) {
    let only = NodeId::new(0).expect(rt, "there is a node 0");
    assert!(rt; apply(rt, machine, Event::Edge(only)) == Answer::Edged(1));
    for _ in 0..1024 {
        assert!(rt; apply(rt, machine, Event::Report(only)) == Answer::Reported(1));
    }
    assert!(rt; machine.net().count() == 1024);
}

/// Plays a schedule after that, on a machine of its own.
fn plays_in_crowd(rt: &impl Abort, alloc: Global, schedule: &Schedule) -> Result<(), Fail> {
    let mut machine = start(rt, alloc, schedule)?;
    fill(rt, &mut machine);
    plays_on(rt, alloc, &mut machine, schedule)
}

#[test]
fn a_machine_starts_with_its_program_and_nothing_else(rt: HostRuntime) -> Result<(), Fail> {
    plays(&rt, rt.alloc(), &BEFORE_EVENTS)
}

#[test]
fn a_byte_that_is_put_waits_for_its_checkpoint(rt: HostRuntime) -> Result<(), Fail> {
    plays(&rt, rt.alloc(), &HELD_LETTER)
}

#[test]
fn a_byte_is_released_once_its_checkpoint_is_validated(rt: HostRuntime) -> Result<(), Fail> {
    plays(&rt, rt.alloc(), &RELEASED_LETTER)
}

#[test]
fn a_recovery_takes_a_byte_back(rt: HostRuntime) -> Result<(), Fail> {
    plays(&rt, rt.alloc(), &LETTER_TAKEN_BACK)
}

#[test]
fn a_byte_of_input_is_taken_again_after_a_recovery(rt: HostRuntime) -> Result<(), Fail> {
    plays(&rt, rt.alloc(), &TAKEN_TWICE)
}

#[test]
fn a_machine_is_over_once_its_end_is_validated(rt: HostRuntime) -> Result<(), Fail> {
    plays(&rt, rt.alloc(), &ENDED)
}

#[test]
fn a_block_that_is_asked_for_comes_and_its_old_content_is_noted(
    rt: HostRuntime,
) -> Result<(), Fail> {
    plays(&rt, rt.alloc(), &FIRST_ADDS)
}

#[test]
fn a_block_is_given_up_by_its_owner_once_at_a_time(rt: HostRuntime) -> Result<(), Fail> {
    plays(&rt, rt.alloc(), &PUT_BEGUN)
}

#[test]
fn two_nodes_count_and_a_recovery_keeps_both(rt: HostRuntime) -> Result<(), Fail> {
    plays(&rt, rt.alloc(), &BOTH_ADD)
}

#[test]
fn a_message_of_a_later_interval_is_held(rt: HostRuntime) -> Result<(), Fail> {
    plays(&rt, rt.alloc(), &HELD_TRANSFER)
}

#[test]
fn a_block_is_at_its_new_owner_after_a_recovery(rt: HostRuntime) -> Result<(), Fail> {
    plays(&rt, rt.alloc(), &ACROSS_INTERVALS)
}

#[test]
fn a_lost_transfer_is_undone(rt: HostRuntime) -> Result<(), Fail> {
    plays(&rt, rt.alloc(), &LOST_TRANSFER)
}

#[test]
fn a_lost_unblock_keeps_a_checkpoint_from_validation(rt: HostRuntime) -> Result<(), Fail> {
    plays(&rt, rt.alloc(), &LOST_UNBLOCK)
}

#[test]
fn a_read_of_a_block_that_nobody_has_may_be_followed_by_a_store(
    rt: HostRuntime,
) -> Result<(), Fail> {
    plays(&rt, rt.alloc(), &EXCLUSIVE_READ)
}

#[test]
fn a_conditional_store_is_not_done_where_the_block_went(rt: HostRuntime) -> Result<(), Fail> {
    plays(&rt, rt.alloc(), &LOST_RESERVATION)
}

#[test]
fn a_conditional_store_is_not_done_across_a_checkpoint(rt: HostRuntime) -> Result<(), Fail> {
    plays(&rt, rt.alloc(), &RESERVATION_AT_EDGE)
}

#[test]
fn a_conditional_store_is_done_where_nobody_stored(rt: HostRuntime) -> Result<(), Fail> {
    plays(&rt, rt.alloc(), &KEPT_RESERVATION)
}

#[test]
fn a_request_waits_for_room_in_the_log(rt: HostRuntime) -> Result<(), Fail> {
    plays(&rt, rt.alloc(), &FULL_LOG)
}

#[test]
fn there_is_no_fifth_checkpoint(rt: HostRuntime) -> Result<(), Fail> {
    plays(&rt, rt.alloc(), &FULL_CHECKPOINTS)
}

#[test]
fn a_node_is_cut_off_once_both_of_its_switches_are_dead(rt: HostRuntime) -> Result<(), Fail> {
    plays(&rt, rt.alloc(), &DEAD_SWITCH)
}

#[test]
fn a_full_network_refuses_until_there_is_room(rt: HostRuntime) -> Result<(), Fail> {
    plays_in_crowd(&rt, rt.alloc(), &FULL_NETWORK)
}
