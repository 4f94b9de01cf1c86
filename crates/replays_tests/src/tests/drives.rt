//! Machines that are driven by lines in memory. Most tests play a row of text; what they share is in functions over it.
ghost use Rattle.std.specs.Prelude.{◌≡◌, IfOk, None};
ghost use Rattle.driven_replay.specs.Driven.{MayDrive};
ghost use Rattle.driven_replay.specs.Pieces.{watch_of};
ghost use Rattle.shown_states.specs.Shown.{MayBegin};

use super::is_so;
use driven_replay::{Drive, DriveEnd, DriveFault, DriveShowing, drive};
use elf_load::load;
use line_source::MemLines;
use script_replay::{ReportKind, Script, Showing};
use shown_states::{StatesReplay, replay_states};
use sn_base::{Config, Event, NodeId};
use sn_io::MemSink;
use sn_probe::ProbeSet;
use std::alloc::Global;
use std::process::Abort;
use std::test::Fail;

/// Puts `A` and exits.
const PUTS_A: &str = "04100513\n00100893\n00000073\n05d00893\n00000073\n";

/// Each core adds 1 to the word at 0x80001000, in block 64.
const ADDS: &str = "800012b7\n00100313\n0062a3af\n05d00893\n00000073\n";

/// What is shown of each event: its lines, nothing, or its line of states.
#[derive(Clone, Copy)]
enum Shows {
    Events,
    Summary,
    States,
}

/// A program on so many nodes, what is shown, and the lines that come.
#[derive(Clone, Copy)]
struct Row {
    nodes: u8,
    program: &'static str,
    shows: Shows,
    lines: &'static str,
    /// Which call for a line fails; 0 is none.
    fails: u64,
    /// What the report begins with.
    begins: &'static str,
}

/// The first program on one node.
const ONE: Row = Row {
    nodes: 1,
    program: PUTS_A,
    shows: Shows::Events,
    lines: "",
    fails: 0,
    begins: "",
};

/// The second on two.
const TWO: Row = Row {
    nodes: 2,
    program: ADDS,
    shows: Shows::Summary,
    lines: "",
    fails: 0,
    begins: "",
};

fn showing_of(shows: Shows) -> DriveShowing
    ensures { watch_of result ≡ None }
{
    match shows {
        Shows::Events => DriveShowing::Replay(Showing {
            report: ReportKind::Events,
            watch: None,
        }),
        Shows::Summary => DriveShowing::Replay(Showing {
            report: ReportKind::Summary,
            watch: None,
        }),
        Shows::States => DriveShowing::States(None),
    }
}

fn job_of(rt: &impl Abort, alloc: Global, row: &Row) -> Result<Drive, Fail>
    ensures { IfOk result (λ d. MayDrive d) }
{
    let config = Config {
        nodes: row.nodes,
        sets: 16,
        ways: 4,
        log: 256,
    };
    assert!(rt; config.fits());
    let showing = showing_of(row.shows);
    Ok(Drive {
        program: load(alloc, row.program.as_bytes())?,
        config,
        showing,
    })
}

/// Drives it, where no probe is attached.
fn driven(
    alloc: Global,
    job: Drive,
    lines: &mut MemLines<'_>,
    console: &mut MemSink,
    report: &mut MemSink,
) -> Result<DriveEnd, DriveFault>
    requires { MayDrive job }
{
    let mut probes = ProbeSet::new(Vec::new(alloc));
    let ended = drive(alloc, job, lines, &mut probes, console, report);
    drop(probes);
    ended
}

/// How a row's lines drive its machine.
fn plays(
    rt: &impl Abort,
    alloc: Global,
    row: &Row,
    report: &mut MemSink,
) -> Result<Result<DriveEnd, DriveFault>, Fail> {
    let job = job_of(rt, alloc, row)?;
    let mut lines = MemLines::new(row.lines.as_bytes());
    lines.fail_call(row.fails);
    match MemSink::with_room(alloc, 8) {
        Ok(mut console) => {
            let ended = driven(alloc, job, &mut lines, &mut console, report);
            drop(console);
            Ok(ended)
        }
        Err(lacks) => {
            drop(job);
            Err(lacks.into())
        }
    }
}

/// Whether a row's lines drive its machine to this end, and the report begins as it says.
fn comes_to(
    rt: &impl Abort,
    alloc: Global,
    row: &Row,
    wanted: Result<DriveEnd, DriveFault>,
) -> Result<bool, Fail> {
    let mut report = MemSink::with_room(alloc, 65_536)?;
    let ended = plays(rt, alloc, row, &mut report);
    let begins = report.bytes().starts_with(row.begins.as_bytes());
    drop(report);
    let ended = ended?;
    Ok(begins && ended == wanted)
}

/// A row's lines drive its machine to their end, and the report begins as it says.
fn is_answered(rt: &impl Abort, alloc: Global, row: &Row) -> Result<(), Fail> {
    let is_met = comes_to(rt, alloc, row, Ok(DriveEnd::Whole))?;
    assert!(rt; is_met);
    Ok(())
}

#[test]
fn lines_that_are_no_events_are_refused_with_their_numbers_and_change_nothing(
    rt: HostRuntime,
) -> Result<(), Fail> {
    const ROW: Row = Row {
        lines: "# no event\n\nstep\nstep 1\nfall 0\n",
        begins: "badline 3\noutofrange 4\nbadline 5\nevents 0\n",
        ..ONE
    };
    is_answered(&rt, rt.alloc(), &ROW)
}

#[test]
fn what_is_foreseen_of_an_event_is_what_it_then_comes_to(rt: HostRuntime) -> Result<(), Fail> {
    const ROW: Row = Row {
        lines: "foresee validate\nforesee edge 0\nvalidate\nedge 0",
        begins: "1 validate: notready 0\n1 edge 0: edged 1\n1 validate: notready 0\n2 edge 0: edged 1\n",
        ..ONE
    };
    is_answered(&rt, rt.alloc(), &ROW)
}

#[test]
fn a_source_that_fails_ends_it_once_what_was_read_is_answered(rt: HostRuntime) -> Result<(), Fail> {
    const ROW: Row = Row {
        lines: "validate\nvalidate\n",
        fails: 2,
        begins: "1 validate: notready 0\n",
        ..ONE
    };
    let is_met = comes_to(&rt, rt.alloc(), &ROW, Err(DriveFault::Input))?;
    is_so(&rt, is_met);
    Ok(())
}

/// Whether two drives of the same lines, of which the report's second call fails, end so: the first at that call, and the
/// second, which takes the lines that are left, at their end.
fn ends_at_the_call(rt: &impl Abort, alloc: Global, report: &mut MemSink) -> Result<bool, Fail> {
    report.fail_call(2)?;
    let first = job_of(rt, alloc, &ONE)?;
    let second = job_of(rt, alloc, &ONE)?;
    let mut lines = MemLines::new(b"validate\nfall\nvalidate\n");
    match MemSink::with_room(alloc, 8) {
        Ok(mut console) => {
            let ended = driven(alloc, first, &mut lines, &mut console, report);
            let is_one = report.bytes() == b"1 validate: notready 0\n".as_slice();
            let goes_on = driven(alloc, second, &mut lines, &mut console, report);
            drop(console);
            Ok(is_one && ended == Err(DriveFault::Sink) && goes_on == Ok(DriveEnd::Whole))
        }
        Err(lacks) => {
            drop(first);
            drop(second);
            Err(lacks.into())
        }
    }
}

#[test]
fn a_report_that_fails_ends_it_before_another_line_is_read(rt: HostRuntime) -> Result<(), Fail> {
    let mut report = MemSink::with_room(rt.alloc(), 4_096)?;
    let ended = ends_at_the_call(&rt, rt.alloc(), &mut report);
    drop(report);
    let is_ended = ended?;
    is_so(&rt, is_ended);
    Ok(())
}

/// A look at each part of the machine at its program's start.
const LOOKS_AT_START: &str =
    "{\"pc\":\"80000000\",\"end\":\"running\",\"registers\":{},\"reservation\":null}\n\
{\"block\":0,\"owner\":null,\"content\":\"1305100493081000730000009308d00573000000\
0000000000000000000000000000000000000000000000000000000000000000000000000000000000000000\",\
\"sharers\":[],\"transaction\":null}\n\
{\"flights\":[]}\n\
{\"nodes\":[{\"node\":0,\"now\":0,\"known\":0,\
\"core\":{\"pc\":\"80000000\",\"end\":\"running\",\"registers\":{},\"reservation\":null},\
\"lines\":[],\"miss\":null,\"put\":null,\"log\":[],\"given\":\"\",\"taken\":0,\"waiting\":[]}],\
\"homes\":[],\"net\":{\"messages\":[],\"dead\":[],\"next\":\"1\"},\
\"controller\":{\"point\":0,\"reported\":[0],\"committed\":0,\"held\":[],\"released\":0}}\n\
events 0\n";

#[test]
fn looks_show_parts_of_the_state_and_change_nothing(rt: HostRuntime) -> Result<(), Fail> {
    const ROW: Row = Row {
        lines: "core 0\nblock 0\nflights\nshow\n",
        begins: LOOKS_AT_START,
        ..ONE
    };
    is_answered(&rt, rt.alloc(), &ROW)
}

#[test]
fn a_look_at_what_is_not_there_is_refused(rt: HostRuntime) -> Result<(), Fail> {
    const ROW: Row = Row {
        lines: "node 1\ncore\nblock 65536\nshow \ncore 00\n",
        begins: "outofrange 1\nbadline 2\noutofrange 3\nbadline 4\nbadline 5\nevents 0\n",
        ..ONE
    };
    is_answered(&rt, rt.alloc(), &ROW)
}

/// A message from node 1 to node 0, before and after its hop.
const ON_ITS_WAY: &str = "{\"flights\":[{\"flight\":{\"message\":{\"id\":\"1\",\"kind\":\"getm\",\
\"from\":1,\"to\":0,\"tag\":0,\"block\":64},\"switch\":\"a1\"},\"arrived\":false}]}\n\
{\"flights\":[{\"flight\":{\"message\":{\"id\":\"1\",\"kind\":\"getm\",\
\"from\":1,\"to\":0,\"tag\":0,\"block\":64},\"switch\":\"a0\"},\"arrived\":true}]}\n\
events 4\n";

#[test]
fn a_message_has_arrived_once_it_stands_at_its_receiver(rt: HostRuntime) -> Result<(), Fail> {
    const ROW: Row = Row {
        lines: "step 1\nstep 1\nstep 1\nflights\nhop 1\nflights",
        begins: ON_ITS_WAY,
        ..TWO
    };
    is_answered(&rt, rt.alloc(), &ROW)
}

#[test]
fn what_is_due_to_a_worker_is_told_and_not_done(rt: HostRuntime) -> Result<(), Fail> {
    const ROW: Row = Row {
        lines: "due 1 0\ndue 1 0\nkill a0\nkill b0\nrecover\ndue 1 0\n",
        begins: "{\"event\":\"step 1\"}\n{\"event\":\"step 1\"}\n{\"event\":null}\nevents 3\n",
        ..TWO
    };
    is_answered(&rt, rt.alloc(), &ROW)
}

#[test]
fn a_worker_or_a_number_that_is_not_there_is_refused(rt: HostRuntime) -> Result<(), Fail> {
    const ROW: Row = Row {
        lines: "due 1 0\ndue 0\ndue 0 4294967296\ndue 0 4294967295\ndue 0 01\n",
        begins: "outofrange 1\nbadline 2\noutofrange 3\n{\"event\":\"step 0\"}\nbadline 5\nevents 0\n",
        ..ONE
    };
    is_answered(&rt, rt.alloc(), &ROW)
}

#[test]
fn a_mark_is_the_number_of_events_and_not_of_lines(rt: HostRuntime) -> Result<(), Fail> {
    const ROW: Row = Row {
        shows: Shows::Summary,
        lines: "mark\nfall\nvalidate\n\nflights\nvalidate\nmark\n",
        begins: "{\"mark\":0}\nbadline 2\n{\"flights\":[]}\n{\"mark\":2}\nevents 2\n",
        ..ONE
    };
    is_answered(&rt, rt.alloc(), &ROW)
}

#[test]
fn after_a_way_back_to_the_start_the_first_event_is_done_again(
    rt: HostRuntime,
) -> Result<(), Fail> {
    const ROW: Row = Row {
        lines: "validate\nedge 0\nback 0\nmark\nedge 0\n",
        begins: "1 validate: notready 0\n2 edge 0: edged 1\n{\"back\":0}\n{\"mark\":0}\n\
1 edge 0: edged 1\nevents 1\n",
        ..ONE
    };
    is_answered(&rt, rt.alloc(), &ROW)
}

/// What two rows' lines put to their reports; both must come to their end.
fn both_play(
    rt: &impl Abort,
    alloc: Global,
    rows: [&Row; 2],
    first: &mut MemSink,
    second: &mut MemSink,
) -> Result<bool, Fail> {
    let one = plays(rt, alloc, rows[0], first)?;
    let other = plays(rt, alloc, rows[1], second)?;
    Ok(one == Ok(DriveEnd::Whole) && other == Ok(DriveEnd::Whole))
}

/// Two steps of node 1, and what comes after them.
const STRAIGHT: Row = Row {
    lines: "step 1\nstep 1\nedge 0\nstep 0\nshow\ndue 0 3\nback 3\nstep 0\nshow\nmark\n",
    ..TWO
};

/// The same, between which more is done and taken back.
const RETURNED: Row = Row {
    lines: "step 1\nstep 1\nstep 1\nhop 1\nkill a1\nrecover\nback 2\n\
edge 0\nstep 0\nshow\ndue 0 3\nback 3\nstep 0\nshow\nmark\n",
    ..TWO
};

#[test]
fn after_a_way_back_all_goes_on_as_if_the_others_had_not_been(rt: HostRuntime) -> Result<(), Fail> {
    let alloc = rt.alloc();
    let mut straight = MemSink::with_room(alloc, 65_536)?;
    let mut returned = MemSink::with_room(alloc, 65_536)?;
    let ended = both_play(
        &rt,
        alloc,
        [&STRAIGHT, &RETURNED],
        &mut straight,
        &mut returned,
    );
    let rest = returned.bytes().strip_prefix(b"{\"back\":2}\n".as_slice());
    let is_same = rest == Some(straight.bytes());
    drop(returned);
    drop(straight);
    let is_ended = ended?;
    is_so(&rt, is_ended && is_same);
    Ok(())
}

#[test]
fn a_way_back_to_more_events_than_are_done_is_refused(rt: HostRuntime) -> Result<(), Fail> {
    const ROW: Row = Row {
        shows: Shows::Summary,
        lines: "validate\nback 2\nback 4294967295\nmark\nback 4294967296\nback 01\nback\nback 1\n",
        begins: "outofrange 2\noutofrange 3\n{\"mark\":1}\nbadline 5\nbadline 6\nbadline 7\n\
{\"back\":1}\nevents 1\n",
        ..ONE
    };
    is_answered(&rt, rt.alloc(), &ROW)
}

/// A step, an edge, a report, and a recovery while it is on its way, of which the states are shown.
const RECOVERS: Row = Row {
    shows: Shows::States,
    lines: "step 0\nedge 0\nreport 0\nrecover\n",
    ..ONE
};

/// The same as a replay that shows them.
fn recovers(rt: &impl Abort, alloc: Global) -> Result<StatesReplay, Fail>
    ensures { IfOk result (λ r. MayBegin r) }
{
    let config = Config {
        nodes: 1,
        sets: 16,
        ways: 4,
        log: 256,
    };
    assert!(rt; config.fits());
    let node = NodeId::numbered(0);
    let mut events = Vec::new(alloc);
    events.push(Event::Step(node))?;
    events.push(Event::Edge(node))?;
    events.push(Event::Report(node))?;
    events.push(Event::Recover)?;
    Ok(StatesReplay {
        program: load(alloc, PUTS_A.as_bytes())?,
        config,
        watch: None,
        only: None,
        script: Script::new(events),
    })
}

/// Whether that replay comes to its end.
fn is_replayed(rt: &impl Abort, alloc: Global, report: &mut MemSink) -> Result<bool, Fail> {
    let job = recovers(rt, alloc)?;
    match MemSink::with_room(alloc, 8) {
        Ok(mut console) => {
            let mut probes = ProbeSet::new(Vec::new(alloc));
            let ended = replay_states(alloc, job, &mut probes, &mut console, report);
            drop(probes);
            drop(console);
            Ok(ended == Ok(()))
        }
        Err(lacks) => {
            drop(job);
            Err(lacks.into())
        }
    }
}

/// Whether that replay and the drive come to their ends.
fn both_recover(
    rt: &impl Abort,
    alloc: Global,
    wanted: &mut MemSink,
    report: &mut MemSink,
) -> Result<bool, Fail> {
    let replayed = is_replayed(rt, alloc, wanted)?;
    let ended = plays(rt, alloc, &RECOVERS, report)?;
    Ok(replayed && ended == Ok(DriveEnd::Whole))
}

#[test]
fn where_states_are_shown_it_puts_what_a_replay_puts(rt: HostRuntime) -> Result<(), Fail> {
    let alloc = rt.alloc();
    let mut wanted = MemSink::with_room(alloc, 16_384)?;
    let mut report = MemSink::with_room(alloc, 16_384)?;
    let ended = both_recover(&rt, alloc, &mut wanted, &mut report);
    let is_same = report.bytes() == wanted.bytes();
    drop(report);
    drop(wanted);
    let is_ended = ended?;
    is_so(&rt, is_ended && is_same);
    Ok(())
}

/// The start.
const FIRST: &str = "\
{\"form\":\"safetynet states 1\",\"nodes\":1,\"sets\":16,\"ways\":4,\"log\":256,\"entry\":\"80000000\",\"events\":0,\"state\":{\"nodes\":[{\"node\":0,\"now\":0,\"known\":0,\"core\":{\"pc\":\"80000000\",\"end\":\"running\",\"registers\":{},\"reservation\":null},\"lines\":[],\"miss\":null,\"put\":null,\"log\":[],\"given\":\"\",\"taken\":0,\"waiting\":[]}],\"homes\":[],\"net\":{\"messages\":[],\"dead\":[],\"next\":\"1\"},\"controller\":{\"point\":0,\"reported\":[0],\"committed\":0,\"held\":[],\"released\":0}}}\n\
";

/// An edge after it, which is taken back.
const EDGE_AND_BACK: &str = "\
{\"place\":1,\"event\":\"edge 0\",\"answer\":\"edged 1\",\"sent\":[],\"parts\":{\"nodes\":[{\"node\":0,\"now\":1,\"known\":0,\"core\":{\"pc\":\"80000000\",\"end\":\"running\",\"registers\":{},\"reservation\":null},\"lines\":[],\"miss\":null,\"put\":null,\"log\":[],\"given\":\"\",\"taken\":0,\"waiting\":[]}],\"homes\":[],\"net\":null,\"controller\":null}}\n\
{\"back\":0}\n\
";

/// Whether a text has both of these at its head, and what comes then.
fn behind_both(text: &[u8]) -> Option<&[u8]> {
    match text.strip_prefix(FIRST.as_bytes()) {
        Some(rest) => rest.strip_prefix(EDGE_AND_BACK.as_bytes()),
        None => None,
    }
}

/// The same, where an edge is done and taken back before.
const RETURNS: Row = Row {
    shows: Shows::States,
    lines: "edge 0\nback 0\nstep 0\nedge 0\nreport 0\nrecover\n",
    ..ONE
};

#[test]
fn states_after_a_way_back_are_those_of_the_events_that_are_left(
    rt: HostRuntime,
) -> Result<(), Fail> {
    let alloc = rt.alloc();
    let mut straight = MemSink::with_room(alloc, 16_384)?;
    let mut returned = MemSink::with_room(alloc, 16_384)?;
    let ended = both_play(
        &rt,
        alloc,
        [&RECOVERS, &RETURNS],
        &mut straight,
        &mut returned,
    );
    let rest = behind_both(returned.bytes());
    let is_same = rest.is_some() && straight.bytes().strip_prefix(FIRST.as_bytes()) == rest;
    drop(returned);
    drop(straight);
    let is_ended = ended?;
    is_so(&rt, is_ended && is_same);
    Ok(())
}
