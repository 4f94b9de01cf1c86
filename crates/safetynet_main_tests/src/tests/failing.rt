//! A command that is broken off has put the pieces before the one that failed, each its own, and nothing after it.
mod commands;
mod refusals;

use self::commands::COMMANDS;
use super::{End, status_of};
use call_status::Status;
use calls_in_memory::{Faults, Given, Left, call};
use sn_base::Memory;
use std::alloc::Global;
use std::process::Abort;
use std::sync::Wait;
use std::test::Fail;
use std::thread::Threads;

/// What a command calls.
#[derive(Clone, Copy, PartialEq, Eq)]
enum Outside {
    Store,
    Console,
    Report,
}

/// What a command puts in one call of a sink, and of which.
type Piece = (Outside, &'static str);

/// A line of words, the files a.hex and a.script that they may name, how many of them are fetched, how it ends where nothing fails, the
/// pieces in their order, and how many of them the console and the report get.
#[derive(Clone, Copy)]
struct Command {
    words: &'static str,
    program: &'static str,
    script: &'static str,
    fetches: u64,
    end: End,
    pieces: &'static [Piece],
    console: u64,
    report: u64,
}

/// Which call fails, by its number from 1; with 0 none does.
#[derive(Clone, Copy)]
struct Failing {
    of: Outside,
    number: u64,
}

fn number_of(failing: &Failing, outside: Outside) -> u64 {
    if failing.of == outside {
        failing.number
    } else {
        0
    }
}

fn faults_of(failing: &Failing) -> Faults {
    Faults {
        store: number_of(failing, Outside::Store),
        console: number_of(failing, Outside::Console),
        report: number_of(failing, Outside::Report),
    }
}

/// Whether the sinks have the pieces before the call that fails, and no more.
fn have_pieces(left: &Left, pieces: &[Piece], failing: &Failing) -> bool {
    let (mut console, mut report) = (left.console.bytes(), left.report.bytes());
    let mut calls = 0u64;
    for (to, text) in pieces {
        if *to == failing.of {
            calls = calls.saturating_add(1);
            if calls == failing.number {
                break;
            }
        }
        let bytes = if *to == Outside::Report {
            report
        } else {
            console
        };
        let Some(rest) = bytes.strip_prefix(text.as_bytes()) else {
            return false;
        };
        if *to == Outside::Report {
            report = rest;
        } else {
            console = rest;
        }
    }
    console.is_empty() && report.is_empty()
}

/// How a command ends, and the pieces that it puts as far as no sink fails.
fn due(command: &Command, failing: &Failing) -> (End, &'static [Piece]) {
    match (failing.number, failing.of) {
        (0, _) => (command.end, command.pieces),
        (_, Outside::Store) => (End::StoreFault, &[]),
        _ => (End::SinkFault, command.pieces),
    }
}

/// Whether a call ends so, and has put these pieces as far as none fails.
fn ends_so(
    rt: &(impl Threads + Wait + Sync),
    alloc: Global,
    given: &Given<'_>,
    status: &Status,
    pieces: &[Piece],
    failing: &Failing,
) -> Result<bool, Memory> {
    let left = call(rt, alloc, given)?;
    Ok(left.status == *status && have_pieces(&left, pieces, failing))
}

/// Whether a command ends so.
fn is_broken_off(
    rt: &(impl Threads + Wait + Sync),
    alloc: Global,
    command: &Command,
    failing: &Failing,
) -> Result<bool, Memory> {
    let given = Given {
        words: command.words,
        program: command.program.as_bytes(),
        script: command.script.as_bytes(),
        faults: faults_of(failing),
    };
    let (end, pieces) = due(command, failing);
    ends_so(rt, alloc, &given, &status_of(&end), pieces, failing)
}

/// First none fails, and then each of so many in turn.
fn each_call_fails(
    rt: &(impl Abort + Threads + Wait + Sync),
    alloc: Global,
    command: &Command,
    of: Outside,
    calls: u64,
) -> Result<(), Fail> {
    for number in 0..calls.saturating_add(1) {
        let is_so = is_broken_off(rt, alloc, command, &Failing { of, number })?;
        assert!(rt; is_so, "{}, call {number} failing", command.words);
    }
    Ok(())
}

fn each_of_all_fails(
    rt: &(impl Abort + Threads + Wait + Sync),
    alloc: Global,
    of: Outside,
) -> Result<(), Fail> {
    for command in COMMANDS {
        let calls = match of {
            Outside::Store => command.fetches,
            Outside::Console => command.console,
            Outside::Report => command.report,
        };
        each_call_fails(rt, alloc, command, of, calls)?;
    }
    Ok(())
}

#[test]
fn a_fetch_that_fails_leaves_nothing(rt: HostRuntime) -> Result<(), Fail> {
    each_of_all_fails(&rt, rt.alloc(), Outside::Store)
}

#[test]
fn a_console_that_fails_leaves_the_pieces_before(rt: HostRuntime) -> Result<(), Fail> {
    each_of_all_fails(&rt, rt.alloc(), Outside::Console)
}

#[test]
fn a_report_that_fails_leaves_the_pieces_before(rt: HostRuntime) -> Result<(), Fail> {
    each_of_all_fails(&rt, rt.alloc(), Outside::Report)
}
