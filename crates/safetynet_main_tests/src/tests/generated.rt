//! The trace of a generated run, judged as it is and with one digit of a word that was seen changed.
use super::leaves;
use call_status::Status;
use calls_in_memory::{Given, NO_FAULT, generated_trace};
use std::alloc::Global;
use std::process::Abort;
use std::sync::Wait;
use std::test::Fail;
use std::thread::Threads;

/// The program of a generated run: each core counts in one word for ever, and puts a byte for each count.
const COUNTING: &str = "\
800012b7\n00100313\n0062a3af\n03f3f513\n03050513\n00100893\n00000073\nfedff06f\n";

const CHECK: &str = "safetynet check a.hex --nodes 4 a.script";

/// Where in the trace the last digit of the word is that record 3,165 saw, which is core 2's: a line has 13 bytes.
const DIGIT: usize = 41_141;

/// How many events the run has.
const EVENTS: u32 = 100_000;

/// The trace with the digit `f` in place of an `e`.
fn changed(rt: &impl Abort, alloc: Global, trace: &[u8], at: usize) -> Result<Vec<u8>, Fail> {
    assert!(rt; at < trace.len() && trace[at] == b'e');
    let mut text = Vec::from_slice(alloc, trace)?;
    text[at] = b'f';
    Ok(text)
}

/// A check of the trace ends so, with this verdict.
fn is_judged(
    rt: &(impl Abort + Threads + Wait + Sync),
    alloc: Global,
    trace: &[u8],
    status: &Status,
    verdict: &str,
) -> Result<(), Fail> {
    let given = Given {
        words: CHECK,
        program: COUNTING.as_bytes(),
        script: trace,
        faults: NO_FAULT,
    };
    leaves(rt, alloc, &given, status, "", verdict)
}

#[test]
fn the_trace_of_a_generated_run_is_legal(rt: HostRuntime) -> Result<(), Fail> {
    let trace = generated_trace(rt.alloc(), EVENTS)?;
    is_judged(
        &rt,
        rt.alloc(),
        trace.bytes(),
        &Status::Done,
        "legal 3178\n",
    )
}

#[test]
fn a_generated_run_with_another_word_seen_is_refused_there(rt: HostRuntime) -> Result<(), Fail> {
    let trace = generated_trace(rt.alloc(), EVENTS)?;
    let text = changed(&rt, rt.alloc(), trace.bytes(), DIGIT)?;
    let status = Status::Refused(3_165);
    is_judged(&rt, rt.alloc(), text.as_slice(), &status, "refused 3165\n")
}
