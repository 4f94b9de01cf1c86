//! Calls, each with what it leaves: texts that come from the rules and not from this program, and each way in which a call ends.
mod checks;
mod drives;
mod failing;
mod generated;
mod judged;
mod monitors;
mod probes;
mod replays;
mod runs;
mod saves;
mod statuses;
mod texts;
mod why;

use call_status::{ProgramCause, Status};
use calls_in_memory::{Faults, Given, call};
use rv_asm::AsmCause;
use save_text::SaveCause;
use sn_text::ScriptCause;
use std::alloc::Global;
use std::process::Abort;
use std::sync::Wait;
use std::test::Fail;
use std::thread::Threads;

/// How a call ends, as a row of a table says it: a status may hold nodes, and a borrowed constant can't hold these.
#[derive(Clone, Copy)]
enum End {
    Done,
    Usage,
    StoreFault,
    BadProgram(ProgramCause),
    BadScript(ScriptCause),
    BadSaveLine(u64),
    SaveNotLegal(u64),
    BadAsm(AsmCause),
    SinkFault,
    InputFault,
    Budget,
    Memory,
    Refused(u64),
}

fn status_of(end: &End) -> Status {
    match *end {
        End::Done => Status::Done,
        End::Usage => Status::Usage,
        End::StoreFault => Status::StoreFault,
        End::BadProgram(cause) => Status::BadProgram(cause),
        End::BadScript(cause) => Status::BadScript(cause),
        End::BadSaveLine(number) => Status::BadSave(SaveCause::BadLine(number)),
        End::SaveNotLegal(place) => Status::BadSave(SaveCause::NotLegal(place)),
        End::BadAsm(cause) => Status::BadAsm(cause),
        End::SinkFault => Status::SinkFault,
        End::InputFault => Status::InputFault,
        End::Budget => Status::Budget,
        End::Memory => Status::Memory,
        End::Refused(place) => Status::Refused(place),
    }
}

/// A call: its words, the files a.hex and a.script, and which calls of the outside fail. Then what it leaves.
#[derive(Clone, Copy)]
struct Case {
    words: &'static str,
    program: &'static str,
    script: &'static str,
    faults: Faults,
    end: End,
    console: &'static str,
    report: &'static str,
}

/// What a call leaves is what is wanted of it.
fn leaves(
    rt: &(impl Abort + Threads + Wait + Sync),
    alloc: Global,
    given: &Given<'_>,
    status: &Status,
    console: &str,
    report: &str,
) -> Result<(), Fail> {
    let left = call(rt, alloc, given)?;
    let words = given.words;
    assert!(rt; left.status == *status, "the status of {words}");
    assert!(rt;
        left.console.bytes() == console.as_bytes(),
        "the console of {words}"
    );
    assert!(rt;
        left.report.bytes() == report.as_bytes(),
        "the report of {words}"
    );
    Ok(())
}

/// Each case is called, and leaves what it says.
fn each_is_left(
    rt: &(impl Abort + Threads + Wait + Sync),
    alloc: Global,
    cases: &[Case],
) -> Result<(), Fail> {
    for case in cases {
        let given = Given {
            words: case.words,
            program: case.program.as_bytes(),
            script: case.script.as_bytes(),
            faults: case.faults,
        };
        let status = status_of(&case.end);
        leaves(rt, alloc, &given, &status, case.console, case.report)?;
    }
    Ok(())
}
