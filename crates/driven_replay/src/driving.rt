//! A whole drive: memory first, then line after line, and then the end.
ghost use Rattle.std.specs.Prelude.{◌≡◌, ◌≢◌, ℕ, List, [], ◌∷◌, ◌++◌, ◌-◌, ◌^◌, ◌≤◌, ◌⊎◌, true, false, length, Option, IfOk, IfSome, MatchOption, OnErr, OnOk, Ok, Err};
ghost use Rattle.sn_base.specs.Config.{config_fits};
ghost use Rattle.consistent_cuts.specs.Headline.{IsRun};
ghost use Rattle.sn_base.specs.declared.event.Event.{Event};
ghost use Rattle.sn_io.specs.Outside.{Rose};
ghost use Rattle.line_source.specs.Lines.{LineRead};
ghost use Rattle.sink_pieces.specs.Pieces.{ends, after, Breaks};
ghost use Rattle.sn_probe.specs.Probes.{meters_in, tallies_of};
ghost use Rattle.sn_machine.specs.Machine.{MachineData};
ghost use Rattle.script_replay.specs.Played.{IsWatchable};
ghost use Rattle.driven_replay.specs.Pieces.{watch_of, ShowsStates};
ghost use Rattle.driven_replay.specs.Said.{SaidFits, WantsMemory, said_by, event_in, events_of};
ghost use Rattle.driven_replay.specs.Answers.{over_pieces, answer_to};
ghost use Rattle.driven_replay.specs.Answered.{IsFresh, fresh_machine, driver_of, end_now, HasAnswered, BreaksOff, NextIs};
ghost use Rattle.driven_replay.specs.Driven.{MayDrive, drive_on, source, AreRead, IsAtEnd, IsDriven, IsLeftOff, LacksMemory, LacksMemoryAtEnd, BreaksAtStart, BreaksInAnswer, BreaksAtEnd};
ghost use Rattle.sn_base.specs.declared.limits.TheConstants.{EVENTS};

use crate::answering::answer;
use crate::job::{Drive, DriveShowing, Said};
use crate::kept::Kept;
use crate::looking::usual_rules;
use crate::putting::{PutFault, put_ending, put_start};
use crate::reading::said_in;
use crate::refusals::write_too_many;
use line_source::{LineRoom, Lines, ReadFailed, Taken};
use sink_pieces::put_report;
use sn_base::{Config, EVENTS, Image};
use sn_driver::Driver;
use sn_io::{Failed, Sink};
use sn_machine::Machine;
use sn_probe::ProbeSet;
use sn_text::{Fault, Line};
use std::alloc::Global;

/// How a drive ended.
#[derive(Clone, Copy, PartialEq, Eq, Debug)]
pub enum DriveEnd {
    /// All lines were answered.
    Whole,
    /// The last line that was read does an event, for which there is no room: it would be the 1,000,001st.
    TooMany,
}

/// Why a drive didn't come to its end.
#[derive(Clone, Copy, PartialEq, Eq, Debug)]
pub enum DriveFault {
    /// A sink took less than the whole of a piece.
    Sink,
    /// The source failed, or gave as many lines as 64 bits can count. All that were read are answered.
    Input,
    /// Memory was wanted and not given: before any line was read, or for the look, the way back or the event that the last line asks
    /// for. All lines before that one are answered, and nothing of it is put. Or it was wanted for the last line of states; then all
    /// lines are answered.
    Memory,
}

/// All memory of a drive, but for the text of a look or of states, which takes memory as it grows, and for a machine that goes back.
#[derive(Drop)]
struct Ready {
    machine: Machine,
    driver: Driver,
    kept: Kept,
    line: Line,
    text: Vec<u8>,
    room: LineRoom,
}

fn ready_for(alloc: Global, program: Image, config: Config) -> Option<Ready>
    requires sizes { config_fits config ≡ true }
    ensures machine { IfSome result (λ r. r.machine ≡ fresh_machine program config) }
    ensures driver { IfSome result (λ r. r.driver ≡ driver_of (fresh_machine program config) []) }
    ensures kept { IfSome result (λ r. r.kept ≡ []) }
{
    let Ok(line) = Line::new(alloc) else {
        return None;
    };
    let Ok(room) = LineRoom::new(alloc) else {
        return None;
    };
    let Ok(kept) = Kept::new(alloc) else {
        return None;
    };
    match Machine::with_room(alloc, program, config, EVENTS as u32) {
        Ok(machine) => Some(Ready {
            machine,
            driver: Driver::new(usual_rules(), config.nodes),
            kept,
            line,
            text: Vec::new(alloc),
            room,
        }),
        Err(_) => None,
    }
}

// Reads the next line, and says what it says; None where no line is left.
fn next_said<L: Lines>(
    nodes: u8,
    lines: &mut L,
    room: &mut LineRoom,
) -> Result<Option<Said>, ReadFailed>
    requires few { nodes ≤ 16 }
    ensures next { IfOk result (NextIs nodes (source (L.read lines.old) (L.left lines.old)) (source (L.read lines.new) (L.left lines.new))) }
    ensures fits { IfOk result (λ said. IfSome said (SaidFits nodes)) }
    ensures failed { OnErr result
        (AreRead [] (source (L.read lines.old) (L.left lines.old)) (source (L.read lines.new) (L.left lines.new))) }
    ensures later { L.faults lines.old ≤ L.faults lines.new }
    ensures cause { OnErr result (Rose (L.faults lines.old) (L.faults lines.new)) }
{
    match lines.next_line(room) {
        Ok(Taken::End) => Ok(None),
        Ok(Taken::Whole) => Ok(Some(said_in(nodes, room.bytes()))),
        Ok(Taken::Longer) => Ok(Some(Said::Refused(Fault::NotOfForm))),
        Err(fault) => Err(fault),
    }
}

// Whether there is no room for the event that a line does.
fn is_full(machine: &Machine, said: &Said) -> bool
    ensures full { result ≡ true → (machine.now.spare ≡ 0) × ((event : Event) × (said.now ≡ Said.Does event)) }
    ensures room { result ≡ false → length (event_in said.now) ≤ machine.now.spare }
{
    match said {
        Said::Does(_) => machine.spare() == 0,
        _ => false,
    }
}

// Reads and answers one line after another.
fn answer_lines<L: Lines, C: Sink, R: Sink>(
    alloc: Global,
    machine: &mut Machine,
    driver: &mut Driver,
    kept: &mut Kept,
    line: &mut Line,
    text: &mut Vec<u8>,
    room: &mut LineRoom,
    lines: &mut L,
    showing: &DriveShowing,
    probes: &mut ProbeSet,
    console: &mut C,
    report: &mut R,
) -> Result<DriveEnd, DriveFault>
    requires fresh { IsFresh machine.old }
    requires driver { driver.old ≡ driver_of machine.old [] }
    requires kept { kept.old ≡ [] }
    requires watched { IsWatchable (watch_of showing.now) }
    ensures ok { IfOk result (λ how. (read : List LineRead)
        × HasAnswered machine.old showing.now read (meters_in first tally step probes.old.probes.items)
        (ends (C.written console.old) (R.written report.old)) machine.new (meters_in first tally step probes.new.probes.items)
        (ends (C.written console.new) (R.written report.new))
        × IsAtEnd (drive_on machine.old showing.now) read how
        (source (L.read lines.old) (L.left lines.old)) (source (L.read lines.new) (L.left lines.new))) }
    ensures input { result ≡ Err DriveFault.Input → (read : List LineRead)
        × HasAnswered machine.old showing.now read (meters_in first tally step probes.old.probes.items)
        (ends (C.written console.old) (R.written report.old)) machine.new (meters_in first tally step probes.new.probes.items)
        (ends (C.written console.new) (R.written report.new))
        × AreRead read (source (L.read lines.old) (L.left lines.old)) (source (L.read lines.new) (L.left lines.new))
        × (Rose (L.faults lines.old) (L.faults lines.new) ⊎ (2 ^ 64 - 1 ≤ length read)) }
    ensures sink { result ≡ Err DriveFault.Sink → (read : List LineRead) × (last : LineRead)
        × BreaksOff machine.old showing.now read last (meters_in first tally step probes.old.probes.items)
        (ends (C.written console.old) (R.written report.old)) (meters_in first tally step probes.new.probes.items)
        (ends (C.written console.new) (R.written report.new))
        × AreRead (read ++ last ∷ []) (source (L.read lines.old) (L.left lines.old)) (source (L.read lines.new) (L.left lines.new)) }
    ensures memory { result ≡ Err DriveFault.Memory → (read : List LineRead) × (last : LineRead) × (reached : MachineData)
        × WantsMemory showing.now (events_of machine.old.config.nodes read) (said_by machine.old.config.nodes last)
        × HasAnswered machine.old showing.now read (meters_in first tally step probes.old.probes.items)
        (ends (C.written console.old) (R.written report.old)) reached (meters_in first tally step probes.new.probes.items)
        (ends (C.written console.new) (R.written report.new))
        × AreRead (read ++ last ∷ []) (source (L.read lines.old) (L.left lines.old)) (source (L.read lines.new) (L.left lines.new)) }
    ensures source_later { L.faults lines.old ≤ L.faults lines.new }
    ensures console_later { C.faults console.old ≤ C.faults console.new }
    ensures report_later { R.faults report.old ≤ R.faults report.new }
    ensures cause { result ≡ Err DriveFault.Sink
        → Rose (C.faults console.old) (C.faults console.new) ⊎ Rose (R.faults report.old) (R.faults report.new) }
{
    let nodes = machine.config().nodes;
    'driving: for count in 0..u64::MAX {
        let said = match next_said(nodes, lines, room) {
            Ok(Some(said)) => said,
            Ok(None) => return Ok(DriveEnd::Whole),
            Err(_) => return Err(DriveFault::Input),
        };
        if is_full(machine, &said) {
            return Ok(DriveEnd::TooMany);
        }
        match answer(
            alloc,
            machine,
            driver,
            kept,
            line,
            text,
            count + 1,
            &said,
            showing,
            probes,
            console,
            report,
        ) {
            Ok(()) => {}
            Err(PutFault::Sink) => return Err(DriveFault::Sink),
            Err(PutFault::Memory) => return Err(DriveFault::Memory),
        }
    }
    Err(DriveFault::Input)
}

// Puts that there is no room for an event more, where that is the end.
fn put_over<R: Sink>(how: DriveEnd, line: &mut Line, report: &mut R) -> Result<(), Failed>
    ensures ok { OnOk result ((c : Option (List ℕ)) →
        ends c (R.written report.new) ≡ after (ends c (R.written report.old)) (over_pieces how)) }
    ensures err { OnErr result ((c : Option (List ℕ)) →
        Breaks (over_pieces how) (ends c (R.written report.old)) (ends c (R.written report.new))) }
    ensures later { R.faults report.old ≤ R.faults report.new }
    ensures cause { OnErr result (Rose (R.faults report.old) (R.faults report.new)) }
{
    match how {
        DriveEnd::Whole => Ok(()),
        DriveEnd::TooMany => {
            write_too_many(line);
            put_report(report, line.bytes())
        }
    }
}

// Puts the end.
fn put_last<R: Sink>(
    how: DriveEnd,
    machine: &Machine,
    line: &mut Line,
    text: &mut Vec<u8>,
    showing: &DriveShowing,
    probes: &ProbeSet,
    report: &mut R,
) -> Result<(), PutFault>
    requires watched { IsWatchable (watch_of showing.now) }
    ensures ok { OnOk result ((c : Option (List ℕ)) → ends c (R.written report.new) ≡ after (ends c (R.written report.old))
        (over_pieces how ++ end_now machine.now showing.now (tallies_of (meters_in first tally step probes.now.probes.items)))) }
    ensures sink { result ≡ Err PutFault.Sink → (c : Option (List ℕ)) →
        Breaks (over_pieces how ++ end_now machine.now showing.now (tallies_of (meters_in first tally step probes.now.probes.items)))
        (ends c (R.written report.old)) (ends c (R.written report.new)) }
    ensures memory { result ≡ Err PutFault.Memory → ShowsStates showing.now
        × ((c : Option (List ℕ)) → ends c (R.written report.new) ≡ after (ends c (R.written report.old)) (over_pieces how)) }
    ensures later { R.faults report.old ≤ R.faults report.new }
    ensures cause { result ≡ Err PutFault.Sink → Rose (R.faults report.old) (R.faults report.new) }
{
    match put_over(how, line, report) {
        Ok(()) => {}
        Err(_) => return Err(PutFault::Sink),
    }
    put_ending(line, text, machine, showing, probes, report)
}

// All but taking the memory.
fn drive_all<L: Lines, C: Sink, R: Sink>(
    alloc: Global,
    ready: &mut Ready,
    lines: &mut L,
    showing: &DriveShowing,
    probes: &mut ProbeSet,
    console: &mut C,
    report: &mut R,
) -> Result<DriveEnd, DriveFault>
    requires fresh { IsFresh ready.old.machine }
    requires driver { ready.old.driver ≡ driver_of ready.old.machine [] }
    requires kept { ready.old.kept ≡ [] }
    requires watched { IsWatchable (watch_of showing.now) }
    ensures ok { IfOk result (λ how. (read : List LineRead)
        × IsDriven (drive_on ready.old.machine showing.now) how read (meters_in first tally step probes.old.probes.items)
        (ends (C.written console.old) (R.written report.old)) (ends (C.written console.new) (R.written report.new))
        (meters_in first tally step probes.new.probes.items)
        × IsAtEnd (drive_on ready.old.machine showing.now) read how
        (source (L.read lines.old) (L.left lines.old)) (source (L.read lines.new) (L.left lines.new))) }
    ensures input { result ≡ Err DriveFault.Input → (read : List LineRead)
        × IsLeftOff (drive_on ready.old.machine showing.now) read (meters_in first tally step probes.old.probes.items)
        (ends (C.written console.old) (R.written report.old)) (ends (C.written console.new) (R.written report.new))
        (meters_in first tally step probes.new.probes.items)
        × AreRead read (source (L.read lines.old) (L.left lines.old)) (source (L.read lines.new) (L.left lines.new))
        × (Rose (L.faults lines.old) (L.faults lines.new) ⊎ (2 ^ 64 - 1 ≤ length read)) }
    ensures sink { result ≡ Err DriveFault.Sink →
        ((lines.new ≡ lines.old)
        × BreaksAtStart (drive_on ready.old.machine showing.now) (meters_in first tally step probes.old.probes.items)
        (ends (C.written console.old) (R.written report.old)) (ends (C.written console.new) (R.written report.new))
        (meters_in first tally step probes.new.probes.items))
        ⊎ (((read : List LineRead) × (last : LineRead)
        × BreaksInAnswer (drive_on ready.old.machine showing.now) read last (meters_in first tally step probes.old.probes.items)
        (ends (C.written console.old) (R.written report.old)) (ends (C.written console.new) (R.written report.new))
        (meters_in first tally step probes.new.probes.items)
        × AreRead (read ++ last ∷ []) (source (L.read lines.old) (L.left lines.old)) (source (L.read lines.new) (L.left lines.new)))
        ⊎ ((how : DriveEnd) × (read : List LineRead)
        × BreaksAtEnd (drive_on ready.old.machine showing.now) how read (meters_in first tally step probes.old.probes.items)
        (ends (C.written console.old) (R.written report.old)) (ends (C.written console.new) (R.written report.new))
        (meters_in first tally step probes.new.probes.items)
        × IsAtEnd (drive_on ready.old.machine showing.now) read how
        (source (L.read lines.old) (L.left lines.old)) (source (L.read lines.new) (L.left lines.new)))) }
    ensures memory { result ≡ Err DriveFault.Memory →
        ((lines.new ≡ lines.old) × (console.new ≡ console.old) × (report.new ≡ report.old) × (probes.new ≡ probes.old))
        ⊎ (((read : List LineRead) × (last : LineRead)
        × LacksMemory (drive_on ready.old.machine showing.now) read last (meters_in first tally step probes.old.probes.items)
        (ends (C.written console.old) (R.written report.old)) (ends (C.written console.new) (R.written report.new))
        (meters_in first tally step probes.new.probes.items)
        × AreRead (read ++ last ∷ []) (source (L.read lines.old) (L.left lines.old)) (source (L.read lines.new) (L.left lines.new)))
        ⊎ ((how : DriveEnd) × (read : List LineRead)
        × LacksMemoryAtEnd (drive_on ready.old.machine showing.now) how read (meters_in first tally step probes.old.probes.items)
        (ends (C.written console.old) (R.written report.old)) (ends (C.written console.new) (R.written report.new))
        (meters_in first tally step probes.new.probes.items)
        × IsAtEnd (drive_on ready.old.machine showing.now) read how
        (source (L.read lines.old) (L.left lines.old)) (source (L.read lines.new) (L.left lines.new)))) }
    ensures source_later { L.faults lines.old ≤ L.faults lines.new }
    ensures console_later { C.faults console.old ≤ C.faults console.new }
    ensures report_later { R.faults report.old ≤ R.faults report.new }
    ensures cause { result ≡ Err DriveFault.Sink
        → Rose (C.faults console.old) (C.faults console.new) ⊎ Rose (R.faults report.old) (R.faults report.new) }
{
    let Ready {
        machine,
        driver,
        kept,
        line,
        text,
        room,
    } = ready;
    match put_start(machine, text, showing, report) {
        Ok(()) => {}
        Err(PutFault::Sink) => return Err(DriveFault::Sink),
        Err(PutFault::Memory) => return Err(DriveFault::Memory),
    }
    let how = match answer_lines(
        alloc, machine, driver, kept, line, text, room, lines, showing, probes, console, report,
    ) {
        Ok(how) => how,
        Err(fault) => return Err(fault),
    };
    match put_last(how, machine, line, text, showing, probes, report) {
        Ok(()) => Ok(how),
        Err(PutFault::Sink) => Err(DriveFault::Sink),
        Err(PutFault::Memory) => Err(DriveFault::Memory),
    }
}

/// Puts the start, and reads lines one after another. Each is answered before the next is read: an event is applied, told to every
/// probe and put, as a replay puts it; a look is shown, an event foreseen, and the number of events told, which changes nothing; a line that goes back
/// puts the machine where the first of the events led it, and takes back nothing that was put or told; what is none of these, or
/// names what isn't there, is refused with its number, and changes nothing. At the end of the lines comes the end of a replay of the
/// events that are done; so it does where there is no room for an event more.
pub fn drive<L: Lines, C: Sink, R: Sink>(
    alloc: Global,
    job: Drive,
    lines: &mut L,
    probes: &mut ProbeSet,
    console: &mut C,
    report: &mut R,
) -> Result<DriveEnd, DriveFault>
    requires { MayDrive job }

    // All lines that were read are answered, and the end is put.
    ensures ok { IfOk result (λ how. (read : List LineRead)
        × IsDriven job how read (meters_in first tally step probes.old.probes.items)
        (ends (C.written console.old) (R.written report.old)) (ends (C.written console.new) (R.written report.new))
        (meters_in first tally step probes.new.probes.items)
        × IsAtEnd job read how
        (source (L.read lines.old) (L.left lines.old)) (source (L.read lines.new) (L.left lines.new))) }

    // The source failed, or gave too many lines: all that were read are answered.
    ensures input { result ≡ Err DriveFault.Input → (read : List LineRead)
        × IsLeftOff job read (meters_in first tally step probes.old.probes.items)
        (ends (C.written console.old) (R.written report.old)) (ends (C.written console.new) (R.written report.new))
        (meters_in first tally step probes.new.probes.items)
        × AreRead read (source (L.read lines.old) (L.left lines.old)) (source (L.read lines.new) (L.left lines.new))
        × (Rose (L.faults lines.old) (L.faults lines.new) ⊎ (2 ^ 64 - 1 ≤ length read)) }

    // A sink broke, in the start, in the answer to the last line that was read or in the end.
    ensures sink { result ≡ Err DriveFault.Sink →
        ((lines.new ≡ lines.old)
        × BreaksAtStart job (meters_in first tally step probes.old.probes.items)
        (ends (C.written console.old) (R.written report.old)) (ends (C.written console.new) (R.written report.new))
        (meters_in first tally step probes.new.probes.items))
        ⊎ (((read : List LineRead) × (last : LineRead)
        × BreaksInAnswer job read last (meters_in first tally step probes.old.probes.items)
        (ends (C.written console.old) (R.written report.old)) (ends (C.written console.new) (R.written report.new))
        (meters_in first tally step probes.new.probes.items)
        × AreRead (read ++ last ∷ []) (source (L.read lines.old) (L.left lines.old)) (source (L.read lines.new) (L.left lines.new)))
        ⊎ ((how : DriveEnd) × (read : List LineRead)
        × BreaksAtEnd job how read (meters_in first tally step probes.old.probes.items)
        (ends (C.written console.old) (R.written report.old)) (ends (C.written console.new) (R.written report.new))
        (meters_in first tally step probes.new.probes.items)
        × IsAtEnd job read how
        (source (L.read lines.old) (L.left lines.old)) (source (L.read lines.new) (L.left lines.new)))) }
    ensures cause { result ≡ Err DriveFault.Sink
        → Rose (C.faults console.old) (C.faults console.new) ⊎ Rose (R.faults report.old) (R.faults report.new) }

    // Memory was lacking: nothing is done; or it was for what the last line asks for, of which nothing is put; or for the last line of
    // states, where all lines are answered.
    ensures memory { result ≡ Err DriveFault.Memory →
        ((lines.new ≡ lines.old) × (console.new ≡ console.old) × (report.new ≡ report.old) × (probes.new ≡ probes.old))
        ⊎ (((read : List LineRead) × (last : LineRead)
        × LacksMemory job read last (meters_in first tally step probes.old.probes.items)
        (ends (C.written console.old) (R.written report.old)) (ends (C.written console.new) (R.written report.new))
        (meters_in first tally step probes.new.probes.items)
        × AreRead (read ++ last ∷ []) (source (L.read lines.old) (L.left lines.old)) (source (L.read lines.new) (L.left lines.new)))
        ⊎ ((how : DriveEnd) × (read : List LineRead)
        × LacksMemoryAtEnd job how read (meters_in first tally step probes.old.probes.items)
        (ends (C.written console.old) (R.written report.old)) (ends (C.written console.new) (R.written report.new))
        (meters_in first tally step probes.new.probes.items)
        × IsAtEnd job read how
        (source (L.read lines.old) (L.left lines.old)) (source (L.read lines.new) (L.left lines.new)))) }
    ensures source_later { L.faults lines.old ≤ L.faults lines.new }
    ensures console_later { C.faults console.old ≤ C.faults console.new }
    ensures report_later { R.faults report.old ≤ R.faults report.new }
{
    let Drive {
        program,
        config,
        showing,
    } = job;
    let Some(mut ready) = ready_for(alloc, program, config) else {
        return Err(DriveFault::Memory);
    };
    let ended = drive_all(alloc, &mut ready, lines, &showing, probes, console, report);
    drop(ready);
    ended
}
