//! Each run is saved as the text that stands beside it, and a machine goes on from that text.
use super::is_so;
use elf_load::load;
use sn_base::{Answer, Config, Event, Image, NodeId, SwitchId};
use sn_io::{Failed, MemSink};
use sn_machine::{Machine, Owner};
use sn_resume::{SaveCause, SaveFault, may_save, resume, save};
use sn_text::{Line, read_script};
use std::alloc::Global;
use std::process::Abort;
use std::test::Fail;

/// addi x10, x0, 65; addi x17, x0, 1; ecall; addi x17, x0, 93; ecall: it puts out `A` and ends.
const PUTS_A: &str = "04100513\n00100893\n00000073\n05d00893\n00000073\n";

/// Its first three instructions, and a point behind them.
const THREE_STEPS: &str = "step 0\nstep 0\nstep 0\nedge 0\nreport 0\ndeliver 1\nvalidate\n";

const THREE_RECORDS: &str =
    "safetynet-save 1\nconfig 1 16 4 256\nmarks 1 3 7\nrec 0 00000000 0\nrec 0 00000000 0\nrec 0 00000000 0\nend\n";

/// Each core adds 1 to the word at 0x80001000, in block 64.
const ADDS: &str = "800012b7\n00100313\n0062a3af\n05d00893\n00000073\n";

/// At the point node 1 owns the block, and its core stands before the addition.
const OWNED: &str =
    "step 1\nstep 1\nstep 1\nhop 1\ndeliver 1\nedge 1\nhop 2\ndeliver 2\nhop 3\ndeliver 3\n\
edge 0\ndeliver 3\nreport 0\ndeliver 4\nreport 1\nhop 5\ndeliver 5\nvalidate\n";

const OWNED_SAVED: &str =
    "safetynet-save 1\nconfig 2 16 4 256\nmarks 1 8 18\nowner 64 1\nrec 1 00000000 0\nrec 1 00000000 0\nend\n";

/// A byte was given to each node and a switch is dead; three instructions wait.
const GIVEN: &str = "step 0\nstep 0\nstep 0\ninput 1 7f\ninput 0 0a\ninput 0 41\nkill b1\n";

const GIVEN_SAVED: &str =
    "safetynet-save 1\nconfig 2 16 4 256\nmarks 0 2 7\ndead b1\ngiven 0 0a\ngiven 0 41\ngiven 1 7f\nend\n";

fn program(alloc: Global, text: &str) -> Result<Image, Fail> {
    let image = load(alloc, text.as_bytes())?;
    Ok(image)
}

/// A machine after these events, and their last answer.
fn play(
    rt: &impl Abort,
    alloc: Global,
    machine: &mut Machine,
    script: &str,
) -> Result<Option<Answer>, Fail> {
    assert!(rt; script.len() < 10_000 && machine.applied() < 1_000);
    let events = read_script(alloc, script.as_bytes(), machine.config().nodes)?;
    machine.reserve(100)?;
    let mut last = None;
    for event in events.as_slice() {
        assert!(rt; event.fits(machine.config().nodes) && machine.spare() > 0);
        last = Some(machine.apply(*event));
    }
    Ok(last)
}

/// A machine after these events from the start of a program.
fn after(
    rt: &impl Abort,
    alloc: Global,
    nodes: u8,
    text: &str,
    script: &str,
) -> Result<Machine, Fail> {
    let config = Config {
        nodes,
        sets: 16,
        ways: 4,
        log: 256,
    };
    assert!(rt; config.fits());
    let image = program(alloc, text)?;
    let mut machine = Machine::new(alloc, image, config)?;
    play(rt, alloc, &mut machine, script)?;
    Ok(machine)
}

/// The machine is saved as this text.
fn is_saved_as(rt: &impl Abort, alloc: Global, machine: &Machine, text: &str) -> Result<(), Fail> {
    let mut line = Line::new(alloc)?;
    let mut sink = MemSink::with_room(alloc, 10_000)?;
    assert!(rt; may_save(machine));
    assert_eq!(rt; save(&mut line, machine, &mut sink), Ok(()));
    assert!(rt; sink.bytes() == text.as_bytes(), "{text}");
    Ok(())
}

/// The machine that goes on from this text.
fn resumed(
    rt: &impl Abort,
    alloc: Global,
    program_text: &str,
    text: &str,
) -> Result<Machine, Fail> {
    let image = program(alloc, program_text)?;
    assert!(rt; text.len() < 10_000);
    match resume(alloc, image, text.as_bytes()) {
        Ok(machine) => Ok(machine),
        Err(_) => Err(Fail::from("the text is accepted")),
    }
}

/// What is said of a text: the cause for which it is refused.
fn refusal(
    rt: &impl Abort,
    alloc: Global,
    program_text: &str,
    text: &str,
) -> Result<Option<SaveFault>, Fail> {
    let image = program(alloc, program_text)?;
    assert!(rt; text.len() < 10_000);
    match resume(alloc, image, text.as_bytes()) {
        Ok(machine) => {
            drop(machine);
            Ok(None)
        }
        Err(fault) => Ok(Some(fault)),
    }
}

#[test]
fn a_saved_run_goes_on_where_its_point_is(rt: HostRuntime) -> Result<(), Fail> {
    let alloc = rt.alloc();
    let first = after(&rt, alloc, 1, PUTS_A, THREE_STEPS)?;
    is_saved_as(&rt, alloc, &first, THREE_RECORDS)?;
    let mut second = resumed(&rt, alloc, PUTS_A, THREE_RECORDS)?;
    is_saved_as(&rt, alloc, &second, THREE_RECORDS)?;
    let last = play(&rt, alloc, &mut second, "step 0\nstep 0\n")?;
    is_so(&rt, last == Some(Answer::Retired));
    let view = second.recovered();
    assert_eq!(rt; view.committed().len(), 3);
    is_so(&rt, view.released() == b"A".as_slice());
    is_so(&rt, second.applied() == 9);
    Ok(())
}

#[test]
fn a_node_that_owned_a_block_owns_it_again(rt: HostRuntime) -> Result<(), Fail> {
    let alloc = rt.alloc();
    let first = after(&rt, alloc, 2, ADDS, OWNED)?;
    is_saved_as(&rt, alloc, &first, OWNED_SAVED)?;
    let mut second = resumed(&rt, alloc, ADDS, OWNED_SAVED)?;
    is_saved_as(&rt, alloc, &second, OWNED_SAVED)?;
    let last = play(&rt, alloc, &mut second, "step 1\n")?;
    is_so(&rt, last == Some(Answer::Retired));
    Ok(())
}

#[test]
fn bytes_and_dead_switches_stay_and_what_waits_is_left_out(rt: HostRuntime) -> Result<(), Fail> {
    let alloc = rt.alloc();
    let first = after(&rt, alloc, 2, ADDS, GIVEN)?;
    is_saved_as(&rt, alloc, &first, GIVEN_SAVED)?;
    let mut second = resumed(&rt, alloc, ADDS, GIVEN_SAVED)?;
    is_saved_as(&rt, alloc, &second, GIVEN_SAVED)?;
    let last = play(&rt, alloc, &mut second, "kill b1\n")?;
    is_so(&rt, last == Some(Answer::AlreadyDead));
    Ok(())
}

#[test]
fn where_a_sink_fails_a_beginning_was_put(rt: HostRuntime) -> Result<(), Fail> {
    let alloc = rt.alloc();
    let machine = after(&rt, alloc, 2, ADDS, GIVEN)?;
    let mut line = Line::new(alloc)?;
    let mut sink = MemSink::with_room(alloc, 10_000)?;
    sink.fail_call(5)?;
    is_so(&rt, may_save(&machine));
    is_so(&rt, save(&mut line, &machine, &mut sink) == Err(Failed));
    is_so(
        &rt,
        sink.bytes() == b"safetynet-save 1\nconfig 2 16 4 256\nmarks 0 2 7\ndead b1\n".as_slice(),
    );
    Ok(())
}

#[test]
fn what_is_no_save_file_of_the_program_is_refused(rt: HostRuntime) -> Result<(), Fail> {
    let alloc = rt.alloc();
    let spoiled =
        "safetynet-save 1\nconfig 1 16 4 256\nmarks 1 3 7\nrec 0 00000000 0\nrec 0 00000000 0\nrec 0 00000001 0\nend\n";
    let refused = refusal(&rt, alloc, PUTS_A, spoiled)?;
    is_so(
        &rt,
        refused == Some(SaveFault::Refused(SaveCause::NotLegal(3))),
    );
    let cut =
        "safetynet-save 1\nconfig 1 16 4 256\nmarks 1 3 7\nrec 0 00000000 0\nrec 0 00000000 0\nrec 0 00000000 0\n";
    let refused = refusal(&rt, alloc, PUTS_A, cut)?;
    is_so(
        &rt,
        refused == Some(SaveFault::Refused(SaveCause::BadLine(7))),
    );
    Ok(())
}
