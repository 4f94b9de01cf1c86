//! A machine goes on behind the letter that its program has put out: that isn't put again, and its places are counted from 1.
ghost use Rattle.std.specs.Prelude.{IfOk};
ghost use Rattle.resumed_replay.specs.Shown.{MayGoOn};

use super::is_so;
use elf_load::load;
use resumed_replay::{ResumedReplay, replay_resumed};
use script_replay::{ReplayFault, Script};
use sn_base::{Event, NodeId};
use sn_io::MemSink;
use sn_probe::ProbeSet;
use sn_resume::resume;
use std::alloc::Global;
use std::process::Abort;
use std::test::Fail;

/// addi x10, x0, 65; addi x17, x0, 1; ecall; addi x17, x0, 93; ecall: it puts out `A` and ends.
const PUTS_A: &str = "04100513\n00100893\n00000073\n05d00893\n00000073\n";

const SAVED: &str =
    "safetynet-save 1\nconfig 1 16 4 256\nmarks 1 3 7\nrec 0 00000000 0\nrec 0 00000000 0\nrec 0 00000000 0\nend\n";

const REPORT: &str = "\
1 step 0: retired
2 step 0: retired
events 2
point 1
committed 3
released 1
core 0 8000000c running x10=00000041 x17=00000001
watch 80001000 00000000
";

/// The last two instructions.
#[tactic(auto, using(crate::proofs::Going::may_go_on))]
fn goes_on(rt: &impl Abort, alloc: Global) -> Result<ResumedReplay, Fail>
    ensures { IfOk result (λ r. MayGoOn r) }
{
    let program = load(alloc, PUTS_A.as_bytes())?;
    let Ok(machine) = resume(alloc, program, SAVED.as_bytes()) else {
        return Err(Fail::from("the text is accepted"));
    };
    assert!(rt; machine.config().nodes == 1);
    let node = NodeId::numbered(0);
    let mut events = Vec::new(alloc);
    events.push(Event::Step(node))?;
    events.push(Event::Step(node))?;
    Ok(ResumedReplay {
        machine,
        watch: Some(0x8000_1000),
        script: Script::new(events),
    })
}

/// The replay, where the report fails at this call, or at none.
fn replayed(
    rt: &impl Abort,
    alloc: Global,
    failing: u64,
    console: &mut MemSink,
    report: &mut MemSink,
) -> Result<Result<(), ReplayFault>, Fail> {
    let job = goes_on(rt, alloc)?;
    report.fail_call(failing)?;
    let mut probes = ProbeSet::new(Vec::new(alloc));
    Ok(replay_resumed(alloc, job, &mut probes, console, report))
}

#[test]
fn places_are_counted_from_where_it_goes_on(rt: HostRuntime) -> Result<(), Fail> {
    let alloc = rt.alloc();
    let mut console = MemSink::with_room(alloc, 8)?;
    let mut report = MemSink::with_room(alloc, 4_096)?;
    let ended = replayed(&rt, alloc, 0, &mut console, &mut report)?;
    is_so(&rt, ended.is_ok());
    is_so(&rt, console.bytes().is_empty());
    is_so(&rt, report.bytes() == REPORT.as_bytes());
    Ok(())
}

#[test]
fn a_report_that_breaks_has_the_groups_before(rt: HostRuntime) -> Result<(), Fail> {
    let alloc = rt.alloc();
    let mut console = MemSink::with_room(alloc, 8)?;
    let mut report = MemSink::with_room(alloc, 4_096)?;
    let ended = replayed(&rt, alloc, 2, &mut console, &mut report)?;
    is_so(&rt, ended == Err(ReplayFault::Sink));
    is_so(&rt, report.bytes() == b"1 step 0: retired\n".as_slice());
    Ok(())
}
