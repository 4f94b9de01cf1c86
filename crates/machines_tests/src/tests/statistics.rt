//! What is counted of a run, and how it is written.
use super::is_so;
use elf_load::load;
use run_statistics::{Count, StatisticsFault, put_statistics, statistics_text};
use sn_base::Config;
use sn_io::MemSink;
use sn_text::read_script;
use std::alloc::Global;
use std::process::Abort;
use std::test::Fail;

/// A program on so many nodes, a script, and the lines of its statistics, which stand here as a fold over a reference simulator's
/// report of it has them.
#[derive(Clone, Copy)]
struct Row {
    nodes: u8,
    program: &'static str,
    script: &'static str,
    lines: &'static str,
}

/// Puts a byte out and exits: an interval is validated, which releases the byte, and a recovery takes back what came after it.
const PUTS_A_BYTE: Row = Row {
    nodes: 1,
    program: "04100513\n00100893\n00000073\n05d00893\n00000073\n",
    script: "step 0\nstep 0\nstep 0\nedge 0\nstep 0\nreport 0\ndeliver 1\nvalidate\nrecover\n",
    lines: "\
stat events 9
stat retired 4
stat missed 0
stat evicted 0
stat putbegun 0
stat edged 1
stat hopped 0
stat lostindead 0
stat delivered 1
stat lost 0
stat killed 0
stat reported 1
stat validated 1
stat recovered 1
stat given 0
stat refused_waits 0
stat refused_needsevict 0
stat refused_logfull 0
stat refused_netfull 0
stat refused_ended 0
stat refused_notcached 0
stat refused_putopen 0
stat refused_missopen 0
stat refused_checkpointsfull 0
stat refused_arrived 0
stat refused_notarrived 0
stat refused_nomessage 0
stat refused_held 0
stat refused_homebusy 0
stat refused_alreadydead 0
stat refused_notready 0
stat refused_cutoff 0
stat refused_noinput 0
stat sent_gets 0
stat sent_getm 0
stat sent_fwdgets 0
stat sent_fwdgetm 0
stat sent_inv 0
stat sent_datas 0
stat sent_datam 0
stat sent_datae 0
stat sent_upgok 0
stat sent_invack 0
stat sent_unblock 0
stat sent_putreq 0
stat sent_putgo 0
stat sent_putdata 0
stat sent_putdone 0
stat sent_ready 1
stat sent_advance 1
stat lost_at_once 0
stat lost_in_switch 0
stat validation_events_count 1
stat validation_events_sum 4
stat validation_events_greatest 4
stat validation_instructions_count 1
stat validation_instructions_sum 1
stat validation_instructions_greatest 1
stat release_events_count 1
stat release_events_sum 5
stat release_events_greatest 5
stat recoveries_by_loss 0
stat recoveries_by_switch 0
stat recoveries_by_wait 1
stat undone_instructions_count 1
stat undone_instructions_sum 1
stat undone_instructions_greatest 1
stat undone_entries_count 1
stat undone_entries_sum 0
stat undone_entries_greatest 0
stat dropped_messages_count 1
stat dropped_messages_sum 1
stat dropped_messages_greatest 1
stat 0 retired 4
stat 0 committed 3
stat 0 taken_back 1
stat 0 waiting 0
stat 0 most_waiting 4
stat 0 most_entries 0
stat 0 most_checkpoints 1
stat 0 most_owned 0
stat 0 most_held 1
stat recovery 1 at 9 to 1 undone 1 entries 0 messages 1
",
};

/// Loads a word on two nodes: one recovery comes by a loss, one by a dead switch, and one by neither.
const RECOVERS: Row = Row {
    nodes: 2,
    program: "800012b7\n0002a503\n00a2a023\n0000006f\n",
    script: "step 1\nstep 1\nstep 1\nlose 1\nstep 0\nedge 1\nrecover\nkill b0\nreport 1\nhop 2\nrecover\nrecover\n",
    lines: "\
stat events 12
stat retired 2
stat missed 1
stat evicted 0
stat putbegun 0
stat edged 1
stat hopped 1
stat lostindead 0
stat delivered 0
stat lost 1
stat killed 1
stat reported 1
stat validated 0
stat recovered 3
stat given 0
stat refused_waits 1
stat refused_needsevict 0
stat refused_logfull 0
stat refused_netfull 0
stat refused_ended 0
stat refused_notcached 0
stat refused_putopen 0
stat refused_missopen 0
stat refused_checkpointsfull 0
stat refused_arrived 0
stat refused_notarrived 0
stat refused_nomessage 0
stat refused_held 0
stat refused_homebusy 0
stat refused_alreadydead 0
stat refused_notready 0
stat refused_cutoff 0
stat refused_noinput 0
stat sent_gets 1
stat sent_getm 0
stat sent_fwdgets 0
stat sent_fwdgetm 0
stat sent_inv 0
stat sent_datas 0
stat sent_datam 0
stat sent_datae 0
stat sent_upgok 0
stat sent_invack 0
stat sent_unblock 0
stat sent_putreq 0
stat sent_putgo 0
stat sent_putdata 0
stat sent_putdone 0
stat sent_ready 1
stat sent_advance 0
stat lost_at_once 0
stat lost_in_switch 0
stat validation_events_count 0
stat validation_events_sum 0
stat validation_events_greatest 0
stat validation_instructions_count 0
stat validation_instructions_sum 0
stat validation_instructions_greatest 0
stat release_events_count 0
stat release_events_sum 0
stat release_events_greatest 0
stat recoveries_by_loss 1
stat recoveries_by_switch 1
stat recoveries_by_wait 1
stat undone_instructions_count 3
stat undone_instructions_sum 2
stat undone_instructions_greatest 2
stat undone_entries_count 3
stat undone_entries_sum 0
stat undone_entries_greatest 0
stat dropped_messages_count 3
stat dropped_messages_sum 1
stat dropped_messages_greatest 1
stat 0 retired 1
stat 0 committed 0
stat 0 taken_back 1
stat 0 waiting 0
stat 0 most_waiting 1
stat 0 most_entries 0
stat 0 most_checkpoints 0
stat 0 most_owned 0
stat 0 most_held 0
stat 1 retired 1
stat 1 committed 0
stat 1 taken_back 1
stat 1 waiting 0
stat 1 most_waiting 1
stat 1 most_entries 0
stat 1 most_checkpoints 1
stat 1 most_owned 0
stat 1 most_held 0
stat recovery 1 at 7 to 0 undone 2 entries 0 messages 0
stat recovery 2 at 11 to 0 undone 0 entries 0 messages 1
stat recovery 3 at 12 to 0 undone 0 entries 0 messages 0
",
};

/// Loads two words on node 1, which owns both blocks then; a copy for node 0 leaves it the owner, a put takes one from it, and a recovery
/// the other.
const OWNS_TWO: Row = Row {
    nodes: 2,
    program: "800012b7\n0002a503\n0402a583\n0000006f\n",
    script: "step 1\nstep 1\nhop 1\ndeliver 1\nhop 2\ndeliver 2\nhop 3\ndeliver 3\nstep 1\nstep 1\ndeliver 4\ndeliver 5\ndeliver 6\nstep 1\nstep 0\nstep 0\ndeliver 7\nhop 8\ndeliver 8\nhop 9\ndeliver 9\ndeliver 10\nstep 0\nevict 1 65\ndeliver 11\ndeliver 12\ndeliver 13\nrecover\n",
    lines: "\
stat events 28
stat retired 5
stat missed 3
stat evicted 0
stat putbegun 1
stat edged 0
stat hopped 5
stat lostindead 0
stat delivered 13
stat lost 0
stat killed 0
stat reported 0
stat validated 0
stat recovered 1
stat given 0
stat refused_waits 0
stat refused_needsevict 0
stat refused_logfull 0
stat refused_netfull 0
stat refused_ended 0
stat refused_notcached 0
stat refused_putopen 0
stat refused_missopen 0
stat refused_checkpointsfull 0
stat refused_arrived 0
stat refused_notarrived 0
stat refused_nomessage 0
stat refused_held 0
stat refused_homebusy 0
stat refused_alreadydead 0
stat refused_notready 0
stat refused_cutoff 0
stat refused_noinput 0
stat sent_gets 3
stat sent_getm 0
stat sent_fwdgets 1
stat sent_fwdgetm 0
stat sent_inv 0
stat sent_datas 1
stat sent_datam 0
stat sent_datae 2
stat sent_upgok 0
stat sent_invack 0
stat sent_unblock 3
stat sent_putreq 1
stat sent_putgo 1
stat sent_putdata 1
stat sent_putdone 0
stat sent_ready 0
stat sent_advance 0
stat lost_at_once 0
stat lost_in_switch 0
stat validation_events_count 0
stat validation_events_sum 0
stat validation_events_greatest 0
stat validation_instructions_count 0
stat validation_instructions_sum 0
stat validation_instructions_greatest 0
stat release_events_count 0
stat release_events_sum 0
stat release_events_greatest 0
stat recoveries_by_loss 0
stat recoveries_by_switch 0
stat recoveries_by_wait 1
stat undone_instructions_count 1
stat undone_instructions_sum 5
stat undone_instructions_greatest 5
stat undone_entries_count 1
stat undone_entries_sum 4
stat undone_entries_greatest 4
stat dropped_messages_count 1
stat dropped_messages_sum 0
stat dropped_messages_greatest 0
stat 0 retired 2
stat 0 committed 0
stat 0 taken_back 2
stat 0 waiting 0
stat 0 most_waiting 2
stat 0 most_entries 1
stat 0 most_checkpoints 0
stat 0 most_owned 0
stat 0 most_held 0
stat 1 retired 3
stat 1 committed 0
stat 1 taken_back 3
stat 1 waiting 0
stat 1 most_waiting 3
stat 1 most_entries 3
stat 1 most_checkpoints 0
stat 1 most_owned 2
stat 1 most_held 0
stat recovery 1 at 28 to 0 undone 5 entries 4 messages 0
",
};

fn config_of(row: &Row) -> Config {
    Config {
        nodes: row.nodes,
        sets: 16,
        ways: 4,
        log: 256,
    }
}

/// Counts the run of a row's script, and puts its statistics to a report that has room for so many bytes.
fn put_of(
    rt: &impl Abort,
    alloc: Global,
    row: &Row,
    report: &mut MemSink,
) -> Result<Result<(), StatisticsFault>, Fail> {
    let config = config_of(row);
    assert!(rt; config.fits());
    assert!(rt; row.script.len() < 10_000);
    let image = load(alloc, row.program.as_bytes())?;
    let events = read_script(alloc, row.script.as_bytes(), config.nodes)?;
    Ok(put_statistics(alloc, &image, config, events.as_slice(), report))
}

/// The report is the row's lines.
fn comes_to(rt: &impl Abort, alloc: Global, row: &Row) -> Result<(), Fail> {
    let mut report = MemSink::with_room(alloc, 8_192)?;
    let ended = put_of(rt, alloc, row, &mut report)?;
    assert!(rt; ended.is_ok());
    assert!(rt; report.bytes() == row.lines.as_bytes());
    Ok(())
}

#[test]
fn a_byte_is_held_until_its_interval_is_validated(rt: HostRuntime) -> Result<(), Fail> {
    comes_to(&rt, rt.alloc(), &PUTS_A_BYTE)
}

#[test]
fn a_recovery_is_told_by_what_led_to_it(rt: HostRuntime) -> Result<(), Fail> {
    comes_to(&rt, rt.alloc(), &RECOVERS)
}

#[test]
fn a_node_owns_at_most_what_it_owned_before_it_gave_one_up(rt: HostRuntime) -> Result<(), Fail> {
    comes_to(&rt, rt.alloc(), &OWNS_TWO)
}

#[test]
fn a_report_that_breaks_has_a_beginning_of_the_lines(rt: HostRuntime) -> Result<(), Fail> {
    let mut report = MemSink::with_room(rt.alloc(), 8_192)?;
    report.fail_call(1)?;
    let ended = put_of(&rt, rt.alloc(), &RECOVERS, &mut report)?;
    is_so(&rt, matches!(ended, Err(StatisticsFault::Sink)));
    is_so(&rt, RECOVERS.lines.as_bytes().starts_with(report.bytes()));
    Ok(())
}

/// The text of a run without an event.
fn text_of_none(rt: &impl Abort, alloc: Global, row: &Row) -> Result<Vec<u8>, Fail> {
    let config = config_of(row);
    assert!(rt; config.fits());
    let image = load(alloc, row.program.as_bytes())?;
    Ok(statistics_text(alloc, &image, config, &[])?)
}

#[test]
fn nothing_is_counted_of_a_run_without_an_event(rt: HostRuntime) -> Result<(), Fail> {
    let text = text_of_none(&rt, rt.alloc(), &RECOVERS)?;
    is_so(
        &rt,
        text.as_slice()
            .starts_with(b"stat events 0\nstat retired 0\n".as_slice()),
    );
    Ok(())
}

#[test]
fn a_count_that_was_told_of_nothing_has_the_text_of_a_run_without_an_event(
    rt: HostRuntime,
) -> Result<(), Fail> {
    let text = text_of_none(&rt, rt.alloc(), &RECOVERS)?;
    let count = Count::new(rt.alloc(), true);
    let counted = count.text(rt.alloc(), RECOVERS.nodes)?;
    is_so(&rt, counted.as_slice() == text.as_slice());
    Ok(())
}

#[test]
fn a_count_that_is_not_asked_to_count_has_no_text(rt: HostRuntime) -> Result<(), Fail> {
    let count = Count::new(rt.alloc(), false);
    is_so(&rt, count.text(rt.alloc(), 1).is_err());
    Ok(())
}
