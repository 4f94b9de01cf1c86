//! What a run in an order puts, whose turns it has, and what it leaves where a sink fails.
ghost use Rattle.std.specs.Prelude.{IfOk};
ghost use Rattle.node_run.specs.Shown.{MayBegin};

use super::is_so;
use elf_load::load;
use ordered_run::{Ending, Order, Run, RunFault, RunShowing, all_turns, run};
use sn_base::{Config, Rules, RunReport};
use sn_io::MemSink;
use sn_probe::ProbeSet;
use std::alloc::Global;
use std::process::Abort;
use std::test::Fail;
use text_lines::lines_of;
use turn_orders::{Scheduler, draw, generators};

/// Puts `A` and exits.
const PUTS_A: &str = "04100513\n00100893\n00000073\n05d00893\n00000073\n";

/// Jumps to itself.
const LOOPS: &str = "0000006f\n";

/// Isn't an instruction.
const TRAPS: &str = "00000000\n";

/// Adds 1 to a word and exits.
const ADDS: &str = "800012b7\n00100313\n0062a3af\n05d00893\n00000073\n";

/// Its rows, where it is committed as a whole.
const ROWS: &str = "\
core,pc,instruction,address,size,read,written,done
0,80000000,\"lui x5, 524289\",,,,,
0,80000004,\"addi x6, x0, 1\",,,,,
0,80000008,\"amoadd.w x7, x6, (x5)\",80001000,4,00000000,00000001,
0,8000000c,\"addi x17, x0, 93\",,,,,
0,80000010,\"ecall\",,,,,
# events ";

/// The summary behind them, from the records on.
const MARKED: &str = "
# committed 5
# released 0
# core 0 80000010 exited 0 x5=80001000 x6=00000001 x17=0000005d
";

/// A round of four workers, and again.
const ROUNDS: &[&[u8]] = &[
    b"# worker 0",
    b"# worker 1",
    b"# worker 2",
    b"# worker 3",
    b"# worker 0",
    b"# worker 1",
    b"# worker 2",
    b"# worker 3",
    b"# worker 0",
];

/// The first words of the PCG32 that is seeded with 1 + 0x9e3779b97f4a7c15, of four workers.
const DRAWN: &[&[u8]] = &[
    b"# worker 0",
    b"# worker 2",
    b"# worker 0",
    b"# worker 1",
    b"# worker 3",
    b"# worker 3",
    b"# worker 3",
    b"# worker 3",
    b"# worker 1",
    b"# worker 3",
    b"# worker 2",
    b"# worker 1",
];

/// A program on so many nodes, with at most so many events.
fn job(
    rt: &impl Abort,
    alloc: Global,
    program: &str,
    nodes: u8,
    budget: u32,
    report: RunReport,
) -> Result<Run, Fail>
    ensures { IfOk result (λ r. MayBegin r) }
{
    let config = Config {
        nodes,
        sets: 16,
        ways: 4,
        log: 256,
    };
    assert!(rt; config.fits());
    assert!(rt; budget <= 1_000_000);
    let rules = Rules {
        interval: 100,
        wait: 20_000,
        lose_every: 0,
        kill: None,
    };
    Ok(Run {
        program: load(alloc, program.as_bytes())?,
        config,
        rules,
        seed: 1,
        budget,
        showing: RunShowing {
            report,
            watch: None,
        },
    })
}

/// Runs it, where no probe is attached.
fn ran(
    alloc: Global,
    job: Run,
    order: Order,
    console: &mut MemSink,
    report: &mut MemSink,
) -> Result<Ending, RunFault>
    requires { MayBegin job }
{
    let mut probes = ProbeSet::new(Vec::new(alloc));
    run(alloc, job, order, &mut probes, console, report)
}

fn has_exited(ended: &Result<Ending, RunFault>) -> bool {
    matches!(ended, Ok(Ending::Exited))
}

fn has_trapped(ended: &Result<Ending, RunFault>) -> bool {
    matches!(ended, Ok(Ending::Trapped(_, _)))
}

fn is_spent(ended: &Result<Ending, RunFault>) -> bool {
    matches!(ended, Ok(Ending::Spent))
}

fn has_a_broken_sink(ended: &Result<Ending, RunFault>) -> bool {
    matches!(ended, Err(RunFault::Sink))
}

/// Whether a journal begins with turns of these workers.
fn begins_with_turns(journal: &[u8], turns: &[&[u8]]) -> bool {
    let mut lines = lines_of(journal);
    'turns: for turn in turns {
        let worker = lines.next_line();
        let event = lines.next_line();
        if worker != Some(*turn) || event.is_none() {
            return false;
        }
    }
    true
}

#[test]
fn rounds_go_from_worker_0_to_the_last_and_round_again(rt: HostRuntime) -> Result<(), Fail> {
    let alloc = rt.alloc();
    let mut console = MemSink::with_room(alloc, 8)?;
    let mut report = MemSink::with_room(alloc, 4_096)?;
    let job = job(&rt, alloc, LOOPS, 4, 9, RunReport::Journal)?;
    let ended = ran(alloc, job, Order::Round, &mut console, &mut report);
    is_so(&rt, is_spent(&ended));
    is_so(&rt, begins_with_turns(report.bytes(), ROUNDS));
    Ok(())
}

#[test]
fn drawn_turns_are_of_the_workers_that_the_scheduler_draws(rt: HostRuntime) -> Result<(), Fail> {
    let alloc = rt.alloc();
    let mut console = MemSink::with_room(alloc, 8)?;
    let mut report = MemSink::with_room(alloc, 4_096)?;
    let job = job(&rt, alloc, LOOPS, 4, 12, RunReport::Journal)?;
    let ended = ran(alloc, job, Order::Drawn, &mut console, &mut report);
    is_so(&rt, is_spent(&ended));
    is_so(&rt, begins_with_turns(report.bytes(), DRAWN));
    Ok(())
}

#[test]
fn the_same_run_leaves_the_same_bytes(rt: HostRuntime) -> Result<(), Fail> {
    let alloc = rt.alloc();
    let mut console = MemSink::with_room(alloc, 8)?;
    let mut once = MemSink::with_room(alloc, 100_000)?;
    let mut again = MemSink::with_room(alloc, 100_000)?;
    let first = job(&rt, alloc, LOOPS, 4, 2_000, RunReport::Journal)?;
    let second = job(&rt, alloc, LOOPS, 4, 2_000, RunReport::Journal)?;
    let ended = ran(alloc, first, Order::Drawn, &mut console, &mut once);
    is_so(&rt, is_spent(&ended));
    let ended = ran(alloc, second, Order::Drawn, &mut console, &mut again);
    is_so(&rt, is_spent(&ended));
    is_so(&rt, once.bytes() == again.bytes());
    Ok(())
}

#[test]
fn all_turns_are_counted_where_that_is_asked_for(rt: HostRuntime) -> Result<(), Fail> {
    let alloc = rt.alloc();
    let job = job(&rt, alloc, LOOPS, 4, 2_000, RunReport::Summary)?;
    let turned = all_turns(alloc, job, Order::Drawn, true)?;
    assert!(rt; turned.finished.journal.len() == 2_000);
    is_so(
        &rt,
        turned.count.on && turned.count.statistics.events == 2_000,
    );
    Ok(())
}

#[test]
fn turns_that_nobody_asks_to_count_are_had_uncounted(rt: HostRuntime) -> Result<(), Fail> {
    let alloc = rt.alloc();
    let job = job(&rt, alloc, LOOPS, 4, 100, RunReport::Summary)?;
    let turned = all_turns(alloc, job, Order::Round, false)?;
    assert!(rt; turned.finished.journal.len() == 100);
    is_so(&rt, turned.count.statistics.events == 0);
    Ok(())
}

#[test]
fn a_program_that_exits_leaves_its_output_and_the_summary(rt: HostRuntime) -> Result<(), Fail> {
    let alloc = rt.alloc();
    let mut console = MemSink::with_room(alloc, 8)?;
    let mut report = MemSink::with_room(alloc, 512)?;
    let job = job(&rt, alloc, PUTS_A, 1, 10_000, RunReport::Summary)?;
    let ended = ran(alloc, job, Order::Drawn, &mut console, &mut report);
    is_so(&rt, has_exited(&ended));
    is_so(&rt, console.bytes() == b"A".as_slice());
    is_so(&rt, report.bytes().starts_with(b"events ".as_slice()));
    is_so(
        &rt,
        report.bytes().ends_with(
            b"\npoint 1\ncommitted 5\nreleased 1\ncore 0 80000010 exited 65 x10=00000041 x17=0000005d\n".as_slice(),
        ),
    );
    Ok(())
}

#[test]
fn the_accesses_of_a_run_are_rows_before_a_marked_summary(rt: HostRuntime) -> Result<(), Fail> {
    let alloc = rt.alloc();
    let mut console = MemSink::with_room(alloc, 8)?;
    let mut report = MemSink::with_room(alloc, 1_024)?;
    let job = job(&rt, alloc, ADDS, 1, 10_000, RunReport::Accesses)?;
    let ended = ran(alloc, job, Order::Round, &mut console, &mut report);
    is_so(&rt, has_exited(&ended));
    is_so(&rt, console.bytes().is_empty());
    is_so(&rt, report.bytes().starts_with(ROWS.as_bytes()));
    is_so(&rt, report.bytes().ends_with(MARKED.as_bytes()));
    Ok(())
}

#[test]
fn where_the_second_row_fails_the_report_has_the_first(rt: HostRuntime) -> Result<(), Fail> {
    let alloc = rt.alloc();
    let mut console = MemSink::with_room(alloc, 8)?;
    let mut report = MemSink::with_room(alloc, 1_024)?;
    report.fail_call(3)?;
    let job = job(&rt, alloc, PUTS_A, 1, 10_000, RunReport::Accesses)?;
    let ended = ran(alloc, job, Order::Round, &mut console, &mut report);
    is_so(&rt, has_a_broken_sink(&ended));
    is_so(&rt, console.bytes() == b"A".as_slice());
    is_so(
        &rt,
        report
            .bytes()
            .ends_with(b"done\n0,80000000,\"addi x10, x0, 65\",,,,,\n".as_slice()),
    );
    Ok(())
}

#[test]
fn a_core_that_traps_ends_the_run(rt: HostRuntime) -> Result<(), Fail> {
    let alloc = rt.alloc();
    let mut console = MemSink::with_room(alloc, 8)?;
    let mut report = MemSink::with_room(alloc, 512)?;
    let job = job(&rt, alloc, TRAPS, 1, 10_000, RunReport::Summary)?;
    let ended = ran(alloc, job, Order::Round, &mut console, &mut report);
    is_so(&rt, has_trapped(&ended));
    Ok(())
}

#[test]
fn where_the_console_fails_the_report_has_nothing(rt: HostRuntime) -> Result<(), Fail> {
    let alloc = rt.alloc();
    let mut console = MemSink::with_room(alloc, 8)?;
    let mut report = MemSink::with_room(alloc, 512)?;
    console.fail_call(1)?;
    let job = job(&rt, alloc, PUTS_A, 1, 10_000, RunReport::Summary)?;
    let ended = ran(alloc, job, Order::Round, &mut console, &mut report);
    is_so(&rt, has_a_broken_sink(&ended));
    is_so(&rt, console.bytes().is_empty() && report.bytes().is_empty());
    Ok(())
}

#[test]
fn where_the_report_fails_the_console_has_all(rt: HostRuntime) -> Result<(), Fail> {
    let alloc = rt.alloc();
    let mut console = MemSink::with_room(alloc, 8)?;
    let mut report = MemSink::with_room(alloc, 512)?;
    report.fail_call(1)?;
    let job = job(&rt, alloc, PUTS_A, 1, 10_000, RunReport::Summary)?;
    let ended = ran(alloc, job, Order::Round, &mut console, &mut report);
    is_so(&rt, has_a_broken_sink(&ended));
    is_so(&rt, console.bytes() == b"A".as_slice());
    is_so(&rt, report.bytes().is_empty());
    Ok(())
}

#[test]
fn a_scheduler_and_workers_draw_from_generators_of_their_own(rt: HostRuntime) -> Result<(), Fail> {
    let mut scheduler = Scheduler::new(Order::Drawn, 1, 16);
    is_so(&rt, scheduler.next() == 12);
    is_so(&rt, scheduler.next() == 6);
    let mut generators = generators(rt.alloc(), 1, 4)?;
    is_so(&rt, draw(&mut generators, 2) == 1_170_342_731);
    is_so(&rt, draw(&mut generators, 3) == 668_795_775);
    Ok(())
}
