//! Each recovery is led on a machine of its own, whose script and controls are read as on the command line.
ghost use Rattle.std.specs.Prelude.{◌≤◌};

use elf_load::load;
use rolling_recovery::{
    Control, ControlDelivery, FinishFault, RepeatFault, Rolling, Room, read_control,
};
use sn_base::{BlockNo, Config, Event, NodeId};
use sn_machine::Machine;
use sn_text::read_script;
use std::alloc::Global;
use std::process::Abort;
use std::test::Fail;

/// What a control is answered.
#[derive(Clone, Copy, PartialEq, Eq)]
enum Says {
    Sent(u64),
    Full,
    NoMessage,
    Lost,
    Restored(u32),
    Again,
    Noted,
    NotDone(u8),
    CutOff,
    /// So many log entries were used, and so many messages dropped.
    Finished(u32, u32),
}

/// A machine's nodes, its program and the script that it has before; controls with their answers; what a finish is answered then;
/// and which node has block 64 in its part.
#[derive(Clone, Copy)]
struct Row {
    nodes: u8,
    program: &'static str,
    script: &'static str,
    controls: &'static str,
    says: &'static [Says],
    finish: Says,
    keeper: u8,
}

/// Two cores add to one word; its block has gone to node 1, and checkpoint 1 is validated.
const COUNT: &str = "800012b7\n00100313\n0062a3af\n05d00893\n00000073\n";

const MOVED_BLOCK: &str = "\
step 1\nstep 1\nstep 1\nhop 1\ndeliver 1\nedge 1\nhop 2\ndeliver 2\nhop 3\ndeliver 3\nedge 0\ndeliver 3\n\
report 0\ndeliver 4\nreport 1\nhop 5\ndeliver 5\nvalidate\n";

const EACH_NODE: Row = Row {
    nodes: 2,
    program: COUNT,
    script: MOVED_BLOCK,
    controls: "\
order 0\nrepeat 1\ndeliver 2\ndeliver 1\norder 1\nlose 5\nlose 5\nrepeat 5\ndeliver 3\norder 1\ndeliver 6\ndeliver 7\n",
    says: &[
        Says::Sent(1),
        Says::Sent(2),
        Says::Restored(32767),
        Says::Again,
        Says::Sent(5),
        Says::Lost,
        Says::NoMessage,
        Says::NoMessage,
        Says::Noted,
        Says::Sent(6),
        Says::Restored(32769),
        Says::Noted,
    ],
    finish: Says::Finished(0, 2),
    keeper: 1,
};

const ONE_NODE: Row = Row {
    nodes: 1,
    script: "",
    controls: "order 0\ndeliver 1\ndeliver 1\n",
    says: &[Says::Sent(1), Says::Restored(65536), Says::NoMessage],
    finish: Says::NotDone(0),
    keeper: 0,
    ..EACH_NODE
};

fn apply(rt: &impl Abort, machine: &mut Machine, event: Event) {
    assert!(rt; event.fits(machine.config().nodes));
    assert!(rt; machine.spare() > 0);
    machine.apply(event);
}

/// The machine that the script leaves, with room for a recovery.
fn left(rt: &impl Abort, alloc: Global, row: &Row) -> Result<Machine, Fail> {
    let config = Config {
        nodes: row.nodes,
        sets: 16,
        ways: 4,
        log: 256,
    };
    assert!(rt; config.fits());
    let image = load(alloc, row.program.as_bytes())?;
    let mut machine = Machine::new(alloc, image, config)?;
    machine.reserve(100)?;
    assert!(rt; row.script.len() < 10_000);
    let events = read_script(alloc, row.script.as_bytes(), row.nodes)?;
    for event in events.as_slice() {
        apply(rt, &mut machine, *event);
    }
    Ok(machine)
}

fn answer(rt: &impl Abort, rolling: &mut Rolling, control: Control) -> Says {
    assert!(rt; rolling.has_numbers());
    match control {
        Control::Order(node) => {
            assert!(rt; node.number() < rolling.machine().config().nodes);
            rolling.order(node).map_or(Says::Full, Says::Sent)
        }
        Control::Repeat(id) => match rolling.repeat(id) {
            Ok(id) => Says::Sent(id),
            Err(RepeatFault::NoMessage) => Says::NoMessage,
            Err(RepeatFault::Full) => Says::Full,
        },
        Control::Lose(id) if rolling.lose(id) => Says::Lost,
        Control::Lose(_) | Control::Finish => Says::NoMessage,
        Control::Deliver(id) => match rolling.deliver(id) {
            ControlDelivery::NoMessage => Says::NoMessage,
            ControlDelivery::Restored(count) => Says::Restored(count),
            ControlDelivery::Again => Says::Again,
            ControlDelivery::Noted => Says::Noted,
        },
    }
}

fn fault_says(fault: FinishFault) -> Says {
    match fault {
        FinishFault::NotDone(node) => Says::NotDone(node.number()),
        FinishFault::CutOff(_, _) => Says::CutOff,
    }
}

fn finish(rolling: Rolling) -> Says {
    match rolling.finish() {
        Ok((_machine, undo)) => Says::Finished(undo.undone, undo.dropped),
        Err((_rolling, fault)) => fault_says(fault),
    }
}

/// Whether this node alone of the first two has block 64 in its part, and has a core there.
fn keeps(rolling: &Rolling, keeper: u8) -> bool {
    let block = BlockNo::new(64);
    let (first, second) = (NodeId::numbered(0), NodeId::numbered(1));
    let kept = rolling.part_block(first, block).is_some();
    let other = rolling.part_block(second, block).is_some();
    kept == (keeper == 0) && other == (keeper == 1) && rolling.part_core(first).is_some()
}

fn leads(rt: &impl Abort, alloc: Global, row: &Row) -> Result<(), Fail> {
    let machine = left(rt, alloc, row)?;
    assert!(rt; row.nodes <= 16);
    assert!(rt; row.controls.len() < 10_000);
    let controls = read_control(alloc, row.controls.as_bytes(), row.nodes)?;
    let room = Room::new(alloc)?;
    assert!(rt; machine.spare() > 0);
    let mut rolling = Rolling::start(room, machine);
    assert!(rt; controls.len() == row.says.len());
    for place in 0..row.says.len() {
        let said = answer(rt, &mut rolling, controls[place]);
        assert!(rt; said == row.says[place], "at control {place}");
    }
    assert!(rt; keeps(&rolling, row.keeper));
    assert!(rt; finish(rolling) == row.finish);
    Ok(())
}

#[test]
fn each_node_goes_back_by_an_order_of_its_own(rt: HostRuntime) -> Result<(), Fail> {
    leads(&rt, rt.alloc(), &EACH_NODE)
}

#[test]
fn a_node_that_has_not_said_that_it_is_done_is_in_the_finish_s_way(
    rt: HostRuntime,
) -> Result<(), Fail> {
    leads(&rt, rt.alloc(), &ONE_NODE)
}
