//! Words and files that are refused, with nothing written.
use super::{End, Failing, Outside, ends_so, status_of};
use call_status::ProgramCause;
use calls_in_memory::{Given, NO_FAULT, PUTS_A, VALIDATED, WORDS};
use elf_load::LoadCause;
use rv_asm::AsmCause;
use sn_text::ScriptCause;
use std::alloc::{AllocError, Global};
use std::process::Abort;
use std::sync::Wait;
use std::test::Fail;
use std::thread::Threads;

const NO_COMMANDS: &[&str] = &[
    "safetynet",
    "safetynet fly",
    "safetynet replay --nodes 17 a.hex a.script",
    "safetynet replay --watch 80000002 a.hex a.script",
    "safetynet replay a.hex",
    "safetynet run",
    "safetynet run --trace --journal a.hex",
    "safetynet run --kill a0@0 --kill b0@0 a.hex",
    "safetynet run --nodes 2 --kill a2@0 a.hex",
    "safetynet run --order slow a.hex",
    "safetynet drive a.hex",
    "safetynet monitor --trace a.hex",
    "safetynet check --nodes 17 a.hex a.script",
    "safetynet judge --nodes 2 a.script",
    "safetynet demo 0",
];

const NONE: Failing = Failing {
    of: Outside::Store,
    number: 0,
};

/// A call that ends so, with nothing written.
fn writes_nothing(
    rt: &(impl Abort + Threads + Wait + Sync),
    alloc: Global,
    words: &str,
    program: &[u8],
    script: &[u8],
    end: &End,
) -> Result<(), Fail> {
    let given = Given {
        words,
        program,
        script,
        faults: NO_FAULT,
    };
    let is_so = ends_so(rt, alloc, &given, &status_of(end), &[], &NONE)?;
    assert!(rt; is_so, "{words}");
    Ok(())
}

#[test]
fn words_that_are_no_command_are_usage(rt: HostRuntime) -> Result<(), Fail> {
    let (program, script) = (PUTS_A.as_bytes(), VALIDATED.as_bytes());
    for words in NO_COMMANDS {
        writes_nothing(&rt, rt.alloc(), words, program, script, &End::Usage)?;
    }
    Ok(())
}

const NO_WORDS: End = End::BadProgram(ProgramCause::Load(LoadCause::Empty));

/// Words, a program or a text, and a script, and how the call ends.
const REFUSED: &[(&str, &str, &str, End)] = &[
    (
        "safetynet replay b.hex a.script",
        PUTS_A,
        VALIDATED,
        End::StoreFault,
    ),
    (
        "safetynet replay a.hex b.script",
        PUTS_A,
        VALIDATED,
        End::StoreFault,
    ),
    ("safetynet run b.hex", PUTS_A, VALIDATED, End::StoreFault),
    ("safetynet run a.hex", "", VALIDATED, NO_WORDS),
    (
        "safetynet monitor b.hex",
        PUTS_A,
        VALIDATED,
        End::StoreFault,
    ),
    ("safetynet monitor a.hex", "", VALIDATED, NO_WORDS),
    (WORDS, "", "step 1\n", NO_WORDS),
    (
        WORDS,
        PUTS_A,
        "step 1\n",
        End::BadScript(ScriptCause::OutOfRange(1)),
    ),
    (
        "safetynet asm a.hex",
        "fly x1\n",
        "",
        End::BadAsm(AsmCause::BadLine(1)),
    ),
];

#[test]
fn a_file_that_is_refused_is_refused_by_its_first_cause(rt: HostRuntime) -> Result<(), Fail> {
    for (words, program, script, end) in REFUSED {
        let (program, script) = (program.as_bytes(), script.as_bytes());
        writes_nothing(&rt, rt.alloc(), words, program, script, end)?;
    }
    Ok(())
}

/// A file of one comment, so many bytes long.
fn comment(alloc: Global, length: usize) -> Result<Vec<u8>, AllocError> {
    vec![in alloc; b'#'; length]
}

/// Calls whose program or text is a comment of so many bytes, and how they end: 16 MiB are the most.
const LONG_PROGRAMS: &[(&str, usize, End)] = &[
    ("safetynet asm a.hex", 16_777_216, End::Done),
    (
        "safetynet asm a.hex",
        16_777_217,
        End::BadAsm(AsmCause::TooLong),
    ),
    (
        WORDS,
        16_777_216,
        End::BadProgram(ProgramCause::Load(LoadCause::BadEntry(0x8000_0000))),
    ),
    (WORDS, 16_777_217, End::BadProgram(ProgramCause::TooLong)),
];

#[test]
fn a_program_or_a_text_has_at_most_16_mebibytes(rt: HostRuntime) -> Result<(), Fail> {
    for (words, length, end) in LONG_PROGRAMS {
        let file = comment(rt.alloc(), *length)?;
        writes_nothing(&rt, rt.alloc(), words, file.as_slice(), b"", end)?;
    }
    Ok(())
}

/// Calls whose script or trace is too long: 32 MiB are the most.
const LONG_SCRIPTS: &[&str] = &[WORDS, "safetynet check --nodes 1 a.hex a.script"];

#[test]
fn a_script_or_a_trace_has_at_most_32_mebibytes(rt: HostRuntime) -> Result<(), Fail> {
    let file = comment(rt.alloc(), 33_554_433)?;
    for words in LONG_SCRIPTS {
        let want = End::BadScript(ScriptCause::TooLong);
        writes_nothing(
            &rt,
            rt.alloc(),
            words,
            PUTS_A.as_bytes(),
            file.as_slice(),
            &want,
        )?;
    }
    Ok(())
}
