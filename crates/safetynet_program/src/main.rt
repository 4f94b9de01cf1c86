//! The program: the real files and streams round the top call.
//!
//! It makes a store over the system's files and a sink over each standard stream, the console on standard output and
//! the report on standard error, calls `safetynet` with the words that it was given, and exits with the status's
//! number. A drive's lines come from standard input, by `safetynet_drive`; nothing else reads it. Its three streams are tied
//! (`tied`): what is held back of its answers goes out before the next line is waited for, and not sooner where more is there.
//! One probe is told the events, a tally of how often each kind came. Where the status isn't Done a line on standard error says
//! why, and the last one names it; of a replay that is done a terminal gets notes. Calls for help or the version are its own to
//! answer. On a terminal that shows both streams no line of the console runs into the report's.
#![tactic(auto)]

mod terminal;
mod tied;
mod twice;
mod why;

ghost use Rattle.std.specs.Prelude.{◌≡◌, ◌≢◌, false, map, string_bytes};
ghost use Rattle.command_words.specs.Command.{the_app};
ghost use Rattle.help_pages.specs.Pages.{command_pages, page_by};
ghost use Rattle.help_pages.specs.Texts.{text_on};
ghost use Rattle.call_status.specs.Status.{has_written};
ghost use Rattle.sn_io.specs.Outside.{Rose, followed_by};

use crate::terminal::{Console, Report};
use crate::tied::{Answers, HeldBack, Input, Output};
use crate::why::{write_notes_on, write_why};
use call_status::Status;
use help_pages::{Page, page_of, show};
use line_source::ReaderLines;
use reasons::{Lack, Reason, write_lack};
use safetynet_drive::{is_drive, safetynet_drive};
use safetynet_main::safetynet;
use sn_base::Memory;
use sn_io::{FileStore, OpenGate, Sink, StdSink, Store};
use sn_probe::{EventTally, Probe};
use sn_text::trap_name;
use std::alloc::Global;
use std::env;
use std::io::{BufReader, BufWriter, ErrorKind, IsTerminal, Read, Write};
use std::process::ExitCode;
use std::rt::Files;
use std::sync::Wait;
use std::sync::atomic::{AtomicBool, Ordering};
use std::thread::Threads;

/// How many bytes of the report are held back until they go out together.
const HELD_BACK: usize = 65_536;

/// How many bytes of a drive's input are read at once: as many as a pipe may hold.
const AT_ONCE: usize = 65_536;

// The page that the words ask for. Each command of the table by which the call reads its words has a page, in the same order.
fn page_asked(words: &[String]) -> Option<Page>
    ensures page { result ≡ page_by (map string_bytes words.now) }
    ensures commands { map (λ row. row.0) command_pages ≡ map (λ command. command.name) the_app.subs }
{
    page_of(words)
}

// Puts a page on the console.
fn answer<C: Sink>(console: &mut C, page: Page) -> Status
    ensures done { result ≡ Status.Done → C.written console.new ≡ followed_by (C.written console.old) (text_on page) }
    ensures broken { result ≢ Status.Done → result ≡ Status.SinkFault }
    ensures cause { result ≡ Status.SinkFault → Rose (C.faults console.old) (C.faults console.new) }
{
    match show(console, page) {
        Ok(()) => Status::Done,
        Err(_) => Status::SinkFault,
    }
}

// How the call ends once what is held back of its report has gone out: where that fails, a text that was written is not whole.
fn finished<R: Write + Drop>(report: &mut StdSink<R>, status: Status) -> Status
    ensures failed { result ≢ status → result ≡ Status.SinkFault }
    ensures unwritten { has_written status ≡ false → result ≡ status }
{
    match status {
        Status::Done
        | Status::Refused(_)
        | Status::Budget
        | Status::CutOff(_, _)
        | Status::Trapped(_, _)
        | Status::InputFault
            if report.finish().is_err() => { Status::SinkFault }
        _ => status,
    }
}

// Does what the words ask by the top call.
fn call<T, S, C, R>(
    rt: &T,
    alloc: Global,
    words: &[String],
    store: &mut S,
    console: &mut Console<'_, C>,
    report: BufWriter<Report<'_, R>>,
    probes: Vec<Box<dyn Probe + Send>>,
) -> Status
where
    T: Threads + Wait + Sync,
    S: Store,
    C: Write + Drop + Send,
    R: Write + Drop,
{
    let mut console = StdSink::new(console);
    let mut report = StdSink::new(report);
    let gate = OpenGate::new();
    let status = safetynet(
        rt,
        alloc,
        words,
        store,
        &mut console,
        &mut report,
        probes,
        &gate,
    );
    finished(&mut report, status)
}

// Drives a machine by its own call: what is held back of the report goes out before the input or the console goes on.
fn drive<I, S, C, R>(
    alloc: Global,
    words: &[String],
    input: I,
    store: &mut S,
    console: &mut Console<'_, C>,
    report: BufWriter<Report<'_, R>>,
    probes: Vec<Box<dyn Probe + Send>>,
) -> Status
where
    I: Read + Drop,
    S: Store,
    C: Write + Drop,
    R: Write + Drop,
{
    let held = HeldBack::new(report);
    let Ok(reader) = BufReader::with_capacity(alloc, AT_ONCE, Input::new(input, &held)) else {
        return Status::Memory;
    };
    let mut lines = ReaderLines::new(reader);
    let mut console = StdSink::new(Output::new(console, &held));
    let mut report = StdSink::new(Answers::new(&held));
    let status = safetynet_drive(
        alloc,
        words,
        store,
        &mut lines,
        &mut console,
        &mut report,
        probes,
    );
    finished(&mut report, status)
}

// Does a command over the system's files and streams. The report goes out in large pieces, which spares a call of the
// system for each event, but at once where it goes to a terminal. Where one terminal shows both, the report, and what is said
// after it, begin on a line of their own. One probe is told the events.
fn perform<T, I, C, R>(
    rt: &T,
    alloc: Global,
    words: &[String],
    input: I,
    console: C,
    report: R,
) -> Status
where
    T: Files + Threads + Wait + Sync,
    I: Read + Drop,
    C: Write + IsTerminal + Drop + Send,
    R: Write + IsTerminal + Drop,
{
    let mut probes: Vec<Box<dyn Probe + Send>> = Vec::new(alloc);
    let Ok(tally) = Box::new(alloc, EventTally::new()) else {
        return Status::Memory;
    };
    if probes.push(tally).is_err() {
        return Status::Memory;
    }
    let is_open = AtomicBool::new(false);
    let is_shared = console.is_terminal() && report.is_terminal();
    let held_back = if report.is_terminal() { 0 } else { HELD_BACK };
    let report = Report::new(report, &is_open);
    let Ok(report) = BufWriter::with_capacity(alloc, held_back, report) else {
        return Status::Memory;
    };
    let mut console = Console::new(console, is_shared, &is_open);
    let mut store = FileStore::new(rt);
    let status = if is_drive(words) {
        drive(
            alloc,
            words,
            input,
            &mut store,
            &mut console,
            report,
            probes,
        )
    } else {
        call(rt, alloc, words, &mut store, &mut console, report, probes)
    };
    if is_open.load(Ordering::Relaxed) {
        let _ = console.write_all(b"\n");
    }
    status
}

// Names on standard error the status of a call in which not all is done, a trace is refused, or a run didn't end with all
// cores at their exits.
fn name_status(rt: &HostRuntime, status: &Status) {
    let word = status.word();
    let _ = match status {
        Status::Refused(place) => eprintln!(rt; "# safetynet: {word} {place}"),
        Status::CutOff(a, b) => eprintln!(rt; "# safetynet: {word} {} {}", a.number(), b.number()),
        Status::Trapped(node, cause) => {
            eprintln!(rt;
                "# safetynet: {word} {} {}",
                node.number(),
                trap_name(*cause)
            )
        }
        _ => eprintln!(rt; "# safetynet: {word}"),
    };
}

// Says a reason. Where it can't be said, the status that follows it is enough.
fn say(rt: &HostRuntime, reason: &Reason) {
    let _ = rt.stderr().write_all(reason.bytes());
}

// Puts to a reason what there is to say of a call with these words that ended so.
fn write_end(
    rt: &HostRuntime,
    alloc: Global,
    words: &[String],
    status: Status,
    reason: &mut Reason,
) -> Result<(), Memory> {
    if status != Status::Done {
        write_why(rt, alloc, words, status, reason)
    } else if rt.stderr().is_terminal() {
        write_notes_on(rt, alloc, words, reason)
    } else {
        Ok(())
    }
}

// Says why a call ended so, or the notes on one that is done. Where memory is lacking for it, nothing is said.
fn explained(rt: &HostRuntime, alloc: Global, words: &[String], status: Status) -> Status
    ensures { result ≡ status }
{
    let mut reason = Reason::new(alloc);
    let ended = status;
    if write_end(rt, alloc, words, ended, &mut reason).is_ok() {
        say(rt, &reason);
    }
    status
}

// Says what the system didn't give.
fn say_lack(rt: &HostRuntime, alloc: Global, lack: Lack) {
    let mut reason = Reason::new(alloc);
    if write_lack(&mut reason, lack).is_ok() {
        say(rt, &reason);
    }
}

// Shows a page.
fn shown(rt: &HostRuntime, alloc: Global, page: Page) -> Status {
    let status = answer(&mut StdSink::new(rt.stdout()), page);
    if status != Status::Done {
        say_lack(rt, alloc, Lack::Output);
    }
    status
}

// Why there are no words: a word that isn't UTF-8 is in no command.
fn wordless(rt: &HostRuntime, alloc: Global, kind: ErrorKind) -> Status {
    if kind == ErrorKind::InvalidData {
        say_lack(rt, alloc, Lack::Text);
        Status::Usage
    } else {
        say_lack(rt, alloc, Lack::Memory);
        Status::Memory
    }
}

fn main(rt: HostRuntime) -> ExitCode {
    let alloc = rt.alloc();
    let status = match env::args(&rt) {
        Ok(given) => match given.collect::<Vec<String>>(alloc) {
            Ok(words) => match page_asked(words.as_slice()) {
                Some(page) => shown(&rt, alloc, page),
                None => explained(
                    &rt,
                    alloc,
                    words.as_slice(),
                    perform(
                        &rt,
                        alloc,
                        words.as_slice(),
                        rt.stdin(),
                        rt.stdout(),
                        rt.stderr(),
                    ),
                ),
            },
            Err(_) => wordless(&rt, alloc, ErrorKind::OutOfMemory),
        },
        Err(error) => wordless(&rt, alloc, error.kind()),
    };
    if status != Status::Done {
        name_status(&rt, &status);
    }
    ExitCode::from(status.number())
}
