//! Each schedule is played on a machine; the texts of its parts are those that stand beside it, which the definitions give.
use super::is_so;
use elf_load::load;
use machine_states::{
    add_controller, add_flights, add_home, add_net, add_node, add_other_home, is_as_at_start,
};
use sn_base::{BlockNo, Config, Event, Memory, NodeId};
use sn_machine::Machine;
use sn_text::read_script;
use std::alloc::Global;
use std::process::Abort;
use std::test::Fail;

/// Each core adds 1 to the word at 0x80001000, in block 64.
const ADDS: &str = "800012b7\n00100313\n0062a3af\n05d00893\n00000073\n";

/// Node 0 has added, node 1 waits for the block, a switch is dead and a byte was given.
const WANTED_BY_TWO: &str = "step 0\nstep 0\nstep 0\ndeliver 1\ndeliver 2\ndeliver 3\nstep 0\n\
step 1\nstep 1\nstep 1\nhop 4\ndeliver 4\nkill b1\ninput 1 0a\n";

/// Node 0 has added, and gives the block back.
const GIVEN_BACK: &str =
    "step 0\nstep 0\nstep 0\ndeliver 1\ndeliver 2\ndeliver 3\nstep 0\nevict 0 64\n";

/// Asks for a byte, puts it out, and ends.
const ECHOES: &str = "00200893\n00000073\n00100893\n00000073\n05d00893\n00000073\n";

/// Two bytes were given, and one of them was read and is held.
const READ_AND_HELD: &str = "step 0\nstep 0\ninput 0 41\ninput 0 42\nstep 0\nstep 0\nstep 0\n";

fn apply_all(rt: &impl Abort, machine: &mut Machine, events: &[Event]) {
    for event in events {
        assert!(rt; event.fits(machine.config().nodes) && machine.spare() > 0);
        machine.apply(*event);
    }
}

/// A machine at the start of a program, with room for 100 events.
fn start(rt: &impl Abort, alloc: Global, nodes: u8, program: &str) -> Result<Machine, Fail> {
    let config = Config {
        nodes,
        sets: 16,
        ways: 4,
        log: 256,
    };
    assert!(rt; config.fits());
    let image = load(alloc, program.as_bytes())?;
    let mut machine = Machine::new(alloc, image, config)?;
    machine.reserve(100)?;
    Ok(machine)
}

/// A machine after these events.
fn after(
    rt: &impl Abort,
    alloc: Global,
    nodes: u8,
    program: &str,
    script: &str,
) -> Result<Machine, Fail> {
    assert!(rt; script.len() < 10_000 && nodes <= 16);
    let mut machine = start(rt, alloc, nodes, program)?;
    let events = read_script(alloc, script.as_bytes(), nodes)?;
    apply_all(rt, &mut machine, events.as_slice());
    Ok(machine)
}

/// The text is the one that is wanted.
fn is_text(rt: &impl Abort, text: &Vec<u8>, done: Result<(), Memory>, wanted: &str) {
    assert!(rt;
        done.is_ok() && text.as_slice() == wanted.as_bytes(),
        "{wanted}"
    );
}

fn node_is(rt: &impl Abort, alloc: Global, machine: &Machine, number: u8, wanted: &str) {
    assert!(rt; number < 16 && number < machine.config().nodes);
    let mut text = Vec::new(alloc);
    let done = add_node(&mut text, machine, NodeId::numbered(number));
    is_text(rt, &text, done, wanted);
}

fn home_is(rt: &impl Abort, alloc: Global, machine: &Machine, block: BlockNo, wanted: &str) {
    let mut text = Vec::new(alloc);
    let done = add_home(&mut text, machine, block);
    is_text(rt, &text, done, wanted);
}

fn net_is(rt: &impl Abort, alloc: Global, machine: &Machine, wanted: &str) {
    let mut text = Vec::new(alloc);
    let done = add_net(&mut text, machine);
    is_text(rt, &text, done, wanted);
}

fn controller_is(rt: &impl Abort, alloc: Global, machine: &Machine, wanted: &str) {
    let mut text = Vec::new(alloc);
    let done = add_controller(&mut text, machine);
    is_text(rt, &text, done, wanted);
}

#[test]
fn a_node_has_its_lines_its_log_and_what_waits(rt: HostRuntime) -> Result<(), Fail> {
    let alloc = rt.alloc();
    let machine = after(&rt, alloc, 2, ADDS, WANTED_BY_TWO)?;
    node_is(
        &rt,
        alloc,
        &machine,
        0,
        "{\"node\":0,\"now\":0,\"known\":0,\"core\":{\"pc\":\"8000000c\",\"end\":\"running\",\"registers\":{\"x5\":\"80001000\",\"x6\":\"00000001\"},\"reservation\":null},\"lines\":[{\"block\":64,\"state\":\"M\",\"content\":\"01000000000000000000000000000000000000000000000000000000000000000000000000000000000000000000000000000000000000000000000000000000\"}],\"miss\":null,\"put\":null,\"log\":[{\"interval\":0,\"block\":64,\"old\":\"washome\",\"content\":\"00000000000000000000000000000000000000000000000000000000000000000000000000000000000000000000000000000000000000000000000000000000\"},{\"interval\":0,\"block\":64,\"old\":\"notowned\"}],\"given\":\"\",\"taken\":0,\"waiting\":[{\"interval\":0,\"seen\":\"00000000\",\"done\":false,\"read\":null},{\"interval\":0,\"seen\":\"00000000\",\"done\":false,\"read\":null},{\"interval\":0,\"seen\":\"00000000\",\"done\":false,\"read\":null}]}",
    );
    Ok(())
}

#[test]
fn a_node_that_waits_for_a_block_has_a_miss(rt: HostRuntime) -> Result<(), Fail> {
    let alloc = rt.alloc();
    let machine = after(&rt, alloc, 2, ADDS, WANTED_BY_TWO)?;
    node_is(
        &rt,
        alloc,
        &machine,
        1,
        "{\"node\":1,\"now\":0,\"known\":0,\"core\":{\"pc\":\"80000008\",\"end\":\"running\",\"registers\":{\"x5\":\"80001000\",\"x6\":\"00000001\",\"x10\":\"00000001\"},\"reservation\":null},\"lines\":[],\"miss\":{\"block\":64,\"need\":\"write\",\"issued\":0,\"fixed\":null,\"due\":0,\"acks\":0},\"put\":null,\"log\":[],\"given\":\"0a\",\"taken\":0,\"waiting\":[{\"interval\":0,\"seen\":\"00000000\",\"done\":false,\"read\":null},{\"interval\":0,\"seen\":\"00000000\",\"done\":false,\"read\":null}]}",
    );
    Ok(())
}

#[test]
fn a_home_names_the_owner_and_the_open_transaction(rt: HostRuntime) -> Result<(), Fail> {
    let alloc = rt.alloc();
    let machine = after(&rt, alloc, 2, ADDS, WANTED_BY_TWO)?;
    home_is(
        &rt,
        alloc,
        &machine,
        BlockNo::new(64),
        "{\"block\":64,\"owner\":0,\"content\":null,\"sharers\":[],\"transaction\":{\"kind\":\"move\",\"requester\":1,\"begun\":0}}",
    );
    home_is(&rt, alloc, &machine, BlockNo::new(65), "{\"block\":65}");
    Ok(())
}

#[test]
fn the_network_has_its_messages_and_its_dead_switches(rt: HostRuntime) -> Result<(), Fail> {
    let alloc = rt.alloc();
    let machine = after(&rt, alloc, 2, ADDS, WANTED_BY_TWO)?;
    net_is(
        &rt,
        alloc,
        &machine,
        "{\"messages\":[{\"message\":{\"id\":\"5\",\"kind\":\"fwdgetm\",\"from\":0,\"to\":0,\"tag\":0,\"block\":64,\"requester\":1,\"due\":0},\"switch\":\"a0\"}],\"dead\":[\"b1\"],\"next\":\"6\"}",
    );
    Ok(())
}

#[test]
fn a_put_stands_in_its_node_and_on_its_way(rt: HostRuntime) -> Result<(), Fail> {
    let alloc = rt.alloc();
    let machine = after(&rt, alloc, 2, ADDS, GIVEN_BACK)?;
    node_is(
        &rt,
        alloc,
        &machine,
        0,
        "{\"node\":0,\"now\":0,\"known\":0,\"core\":{\"pc\":\"8000000c\",\"end\":\"running\",\"registers\":{\"x5\":\"80001000\",\"x6\":\"00000001\"},\"reservation\":null},\"lines\":[{\"block\":64,\"state\":\"M\",\"content\":\"01000000000000000000000000000000000000000000000000000000000000000000000000000000000000000000000000000000000000000000000000000000\"}],\"miss\":null,\"put\":{\"block\":64,\"issued\":0},\"log\":[{\"interval\":0,\"block\":64,\"old\":\"washome\",\"content\":\"00000000000000000000000000000000000000000000000000000000000000000000000000000000000000000000000000000000000000000000000000000000\"},{\"interval\":0,\"block\":64,\"old\":\"notowned\"}],\"given\":\"\",\"taken\":0,\"waiting\":[{\"interval\":0,\"seen\":\"00000000\",\"done\":false,\"read\":null},{\"interval\":0,\"seen\":\"00000000\",\"done\":false,\"read\":null},{\"interval\":0,\"seen\":\"00000000\",\"done\":false,\"read\":null}]}",
    );
    net_is(
        &rt,
        alloc,
        &machine,
        "{\"messages\":[{\"message\":{\"id\":\"4\",\"kind\":\"putreq\",\"from\":0,\"to\":0,\"tag\":0,\"block\":64},\"switch\":\"a0\"}],\"dead\":[],\"next\":\"5\"}",
    );
    Ok(())
}

#[test]
fn a_byte_that_was_read_is_taken_and_one_that_was_put_out_is_held(
    rt: HostRuntime,
) -> Result<(), Fail> {
    let alloc = rt.alloc();
    let machine = after(&rt, alloc, 1, ECHOES, READ_AND_HELD)?;
    node_is(
        &rt,
        alloc,
        &machine,
        0,
        "{\"node\":0,\"now\":0,\"known\":0,\"core\":{\"pc\":\"80000010\",\"end\":\"running\",\"registers\":{\"x10\":\"00000041\",\"x17\":\"00000001\"},\"reservation\":null},\"lines\":[],\"miss\":null,\"put\":null,\"log\":[],\"given\":\"4142\",\"taken\":1,\"waiting\":[{\"interval\":0,\"seen\":\"00000000\",\"done\":false,\"read\":null},{\"interval\":0,\"seen\":\"00000000\",\"done\":false,\"read\":\"41\"},{\"interval\":0,\"seen\":\"00000000\",\"done\":false,\"read\":null},{\"interval\":0,\"seen\":\"00000000\",\"done\":false,\"read\":null}]}",
    );
    controller_is(
        &rt,
        alloc,
        &machine,
        "{\"point\":0,\"reported\":[0],\"committed\":0,\"held\":[{\"interval\":0,\"byte\":\"41\"}],\"released\":0}",
    );
    Ok(())
}

#[test]
fn a_home_as_at_the_start_can_be_told_whole(rt: HostRuntime) -> Result<(), Fail> {
    let alloc = rt.alloc();
    let machine = after(&rt, alloc, 1, ECHOES, "")?;
    let block = BlockNo::new(0);
    is_so(&rt, is_as_at_start(&machine, block));
    let mut text = Vec::new(alloc);
    let done = add_other_home(&mut text, &machine, block);
    is_text(
        &rt,
        &text,
        done,
        "{\"block\":0,\"owner\":null,\"content\":\"930820007300000093081000730000009308d0057300000000000000000000000000000000000000000000000000000000000000000000000000000000000000\",\"sharers\":[],\"transaction\":null}",
    );
    text.clear();
    let done = add_flights(&mut text, machine.net());
    is_text(&rt, &text, done, "[]");
    Ok(())
}
