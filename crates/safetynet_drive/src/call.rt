//! The call: words, the program's file, memory, and then line after line.
ghost use Rattle.std.specs.Prelude.{◌≡◌, ◌≢◌, ◌⊎◌, ℕ, map, string_bytes, false, Some, None, IfSome};
ghost use Rattle.sn_io.specs.Outside.{Rose};
ghost use Rattle.command_words.specs.Request.{ask_of};
ghost use Rattle.sn_probe.specs.Probes.{meters_of, meters_in};
ghost use Rattle.sink_pieces.specs.Pieces.{ends};
ghost use Rattle.driven_replay.specs.Driven.{MayDrive, source};
ghost use Rattle.call_status.specs.Status.{has_written};
ghost use Rattle.call_files.specs.Fetches.{Fetches};
ghost use Rattle.safetynet_drive.specs.Call.{is_drive, end_status, showing_of, ComesTo, Comes, FollowsOver, IsCutShort, EndsInTheMiddle, HasGivenAll, asked_in};

use call_files::fetch_program;
use call_status::Status;
use command_words::{DriveReport, Request, WordsFault, read_words};
use driven_replay::{Drive, DriveEnd, DriveFault, DriveShowing, drive};
use line_source::Lines;
use script_replay::{ReportKind, Showing};
use sn_io::{Sink, Store};
use sn_probe::{Probe, ProbeSet};
use std::alloc::Global;

/// Whether the words are for this call: the first after the program's name is `drive`. What follows it is for the call to judge.
pub fn is_drive(words: &[String]) -> bool
    ensures { result ≡ is_drive (map string_bytes words.now) }
{
    match words {
        [_, command, ..] => command.as_str() == "drive",
        _ => false,
    }
}

fn showing_of(report: DriveReport, watch: Option<u32>) -> DriveShowing
    ensures { result ≡ showing_of report watch }
{
    match report {
        DriveReport::Events => DriveShowing::Replay(Showing {
            report: ReportKind::Events,
            watch,
        }),
        DriveReport::States => DriveShowing::States(watch),
    }
}

fn status_at(how: DriveEnd) -> Status
    ensures { result ≡ end_status how }
{
    match how {
        DriveEnd::Whole => Status::Done,
        DriveEnd::TooMany => Status::Budget,
    }
}

// Drives the machine.
fn perform<L: Lines, C: Sink, R: Sink>(
    alloc: Global,
    job: Drive,
    lines: &mut L,
    console: &mut C,
    report: &mut R,
    probes: &mut ProbeSet,
) -> Status
    requires { MayDrive job }
    ensures follows { result ≢ Status.Memory → ComesTo job (meters_in first tally step probes.old.probes.items) result
        (source (L.read lines.old) (L.left lines.old)) (source (L.read lines.new) (L.left lines.new))
        (ends (C.written console.old) (R.written report.old)) (ends (C.written console.new) (R.written report.new)) }
    ensures nothing { has_written result ≡ false → ((console.new ≡ console.old) × ((report.new ≡ report.old) × (lines.new ≡ lines.old)))
        ⊎ ((result ≡ Status.Memory) × IsCutShort job (meters_in first tally step probes.old.probes.items)
        (source (L.read lines.old) (L.left lines.old)) (source (L.read lines.new) (L.left lines.new))
        (ends (C.written console.old) (R.written report.old)) (ends (C.written console.new) (R.written report.new))) }
    ensures sink_fault { result ≡ Status.SinkFault
        → Rose (C.faults console.old) (C.faults console.new) ⊎ Rose (R.faults report.old) (R.faults report.new) }
    ensures input_fault { result ≡ Status.InputFault → Rose (L.faults lines.old) (L.faults lines.new)
        ⊎ HasGivenAll (source (L.read lines.old) (L.left lines.old)) (source (L.read lines.new) (L.left lines.new)) }
    ensures store { result ≢ Status.StoreFault }
    ensures usage { result ≢ Status.Usage }
{
    match drive(alloc, job, lines, probes, console, report) {
        Ok(how) => status_at(how),
        Err(DriveFault::Sink) => Status::SinkFault,
        Err(DriveFault::Input) => Status::InputFault,
        Err(DriveFault::Memory) => Status::Memory,
    }
}

// Fetches the program, and drives its machine.
#[tactic(auto, using(call_files::proofs::Watched::watched_is))]
fn answer<S: Store, L: Lines, C: Sink, R: Sink>(
    alloc: Global,
    words: &[String],
    store: &mut S,
    lines: &mut L,
    console: &mut C,
    report: &mut R,
    probes: &mut ProbeSet,
) -> Status
    ensures comes { result ≢ Status.Memory → Comes (Fetches S.files S.sure S.faults S.gave)
        (meters_in first tally step probes.old.probes.items) (asked_in (ask_of (map string_bytes words.now))) result store.old store.new
        (source (L.read lines.old) (L.left lines.old)) (source (L.read lines.new) (L.left lines.new))
        (ends (C.written console.old) (R.written report.old)) (ends (C.written console.new) (R.written report.new)) }
    ensures nothing { has_written result ≡ false → ((console.new ≡ console.old) × ((report.new ≡ report.old) × (lines.new ≡ lines.old)))
        ⊎ ((result ≡ Status.Memory) × EndsInTheMiddle (Fetches S.files S.sure S.faults S.gave)
        (meters_in first tally step probes.old.probes.items) (asked_in (ask_of (map string_bytes words.now))) store.old store.new
        (source (L.read lines.old) (L.left lines.old)) (source (L.read lines.new) (L.left lines.new))
        (ends (C.written console.old) (R.written report.old)) (ends (C.written console.new) (R.written report.new))) }
    ensures sink_fault { result ≡ Status.SinkFault
        → Rose (C.faults console.old) (C.faults console.new) ⊎ Rose (R.faults report.old) (R.faults report.new) }
    ensures input_fault { result ≡ Status.InputFault → Rose (L.faults lines.old) (L.faults lines.new)
        ⊎ HasGivenAll (source (L.read lines.old) (L.left lines.old)) (source (L.read lines.new) (L.left lines.new)) }
    ensures no_drive { asked_in (ask_of (map string_bytes words.now)) ≡ None →
        ((result ≡ Status.Usage) ⊎ (result ≡ Status.Memory)) × (store.new ≡ store.old) }
    ensures files { S.files store.new ≡ S.files store.old }
    ensures stays_sure { S.sure store.old → S.sure store.new }
{
    let asked = match read_words(alloc, words) {
        Ok(Request::Drive(asked)) => asked,
        Ok(_) | Err(WordsFault::Usage) => return Status::Usage,
        Err(WordsFault::Memory) => return Status::Memory,
    };
    let program = match fetch_program(alloc, store, asked.program.as_str()) {
        Ok(program) => program,
        Err(status) => return status,
    };
    let job = Drive {
        program,
        config: asked.config,
        showing: showing_of(asked.report, asked.watch),
    };
    perform(alloc, job, lines, console, report, probes)
}

/// Does all that `drive` does: reads the words, fetches the program, and answers each line of the source before it reads the next.
/// The first word is the program's name. Each probe is told each event that is applied, and each is dropped once, however the call
/// ends. The end of the lines ends the call as done; so many events that there is no room for one more end it as a spent budget.
pub fn safetynet_drive<S: Store, L: Lines, C: Sink, R: Sink>(
    alloc: Global,
    words: &[String],
    store: &mut S,
    lines: &mut L,
    console: &mut C,
    report: &mut R,
    probes: Vec<Box<dyn Probe + Send>>,
) -> Status
    // Over any store "the file" is what the fetch of its name gave, and over any source "the lines" are those that it gave.
    ensures comes { result ≢ Status.Memory → Comes (Fetches S.files S.sure S.faults S.gave)
        (meters_of first tally step probes.items) (asked_in (ask_of (map string_bytes words.now))) result store.old store.new
        (source (L.read lines.old) (L.left lines.old)) (source (L.read lines.new) (L.left lines.new))
        (ends (C.written console.old) (R.written report.old)) (ends (C.written console.new) (R.written report.new)) }

    // Over a sure store the words, the file that it holds, and the lines say what is done.
    ensures sure { S.sure store.old → IfSome (S.files store.old) (λ held. result ≢ Status.Memory
        → FollowsOver held (meters_of first tally step probes.items) (asked_in (ask_of (map string_bytes words.now))) result
        (source (L.read lines.old) (L.left lines.old)) (source (L.read lines.new) (L.left lines.new))
        (ends (C.written console.old) (R.written report.old)) (ends (C.written console.new) (R.written report.new))) }

    // Each answer has its cause.
    ensures usage { result ≡ Status.Usage → asked_in (ask_of (map string_bytes words.now)) ≡ None }
    ensures no_drive { asked_in (ask_of (map string_bytes words.now)) ≡ None →
        ((result ≡ Status.Usage) ⊎ (result ≡ Status.Memory)) × (store.new ≡ store.old) }
    ensures store_fault { result ≡ Status.StoreFault → Rose (S.faults store.old) (S.faults store.new) }
    ensures sink_fault { result ≡ Status.SinkFault
        → Rose (C.faults console.old) (C.faults console.new) ⊎ Rose (R.faults report.old) (R.faults report.new) }
    ensures input_fault { result ≡ Status.InputFault → Rose (L.faults lines.old) (L.faults lines.new)
        ⊎ HasGivenAll (source (L.read lines.old) (L.left lines.old)) (source (L.read lines.new) (L.left lines.new)) }
    // Nothing is read and nothing written, or memory was wanted for a look, a way back or a line of states.
    ensures nothing { has_written result ≡ false → ((console.new ≡ console.old) × ((report.new ≡ report.old) × (lines.new ≡ lines.old)))
        ⊎ ((result ≡ Status.Memory) × EndsInTheMiddle (Fetches S.files S.sure S.faults S.gave)
        (meters_of first tally step probes.items) (asked_in (ask_of (map string_bytes words.now))) store.old store.new
        (source (L.read lines.old) (L.left lines.old)) (source (L.read lines.new) (L.left lines.new))
        (ends (C.written console.old) (R.written report.old)) (ends (C.written console.new) (R.written report.new))) }

    // Whatever the answer is, the store's files are as before, and it is as sure.
    ensures files { S.files store.new ≡ S.files store.old }
    ensures stays_sure { S.sure store.old → S.sure store.new }
{
    let mut probes = ProbeSet::new(probes);
    answer(alloc, words, store, lines, console, report, &mut probes)
}
