//! A range of seeds.
ghost use Rattle.std.specs.Prelude.{IfOk};
ghost use Rattle.seed_runs.specs.Shown.{MayBegin};

use super::super::is_so;
use super::{PUTS_A, RULES, SIZES, Sinks, are_same, put, ran_alone, ran_counted, sinks_for};
use elf_load::load;
use option_values::MOST_SEEDS;
use seed_runs::{Order, SeedRuns, SeedsFault, run_seeds};
use sn_base::Memory;
use std::alloc::Global;
use std::process::Abort;
use std::test::Fail;
use std::thread::Threads;

/// Jumps to itself.
const LOOPS: &str = "0000006f\n";

/// Isn't an instruction.
const TRAPS: &str = "00000000\n";

/// A program on one node, with at most so many events, for a range of seeds.
#[derive(Clone, Copy)]
struct Range {
    program: &'static str,
    budget: u32,
    first: u64,
    last: u64,
    statistics: bool,
}

/// More seeds than have their turns side by side.
const NINE: Range = Range {
    program: PUTS_A,
    budget: 10_000,
    first: 1,
    last: 9,
    statistics: false,
};

const COUNTED: Range = Range {
    first: 7,
    last: 7,
    statistics: true,
    ..NINE
};

const TRAPPED: Range = Range {
    program: TRAPS,
    budget: 500,
    last: 1,
    ..NINE
};

const SPENT: Range = Range {
    program: LOOPS,
    ..TRAPPED
};

fn job(rt: &impl Abort, alloc: Global, range: &Range) -> Result<SeedRuns, Fail>
    ensures { IfOk result (λ r. MayBegin r) }
{
    assert!(rt; SIZES.fits() && range.budget <= 1_000_000);
    assert!(rt; range.first <= range.last && range.last - range.first < MOST_SEEDS);
    Ok(SeedRuns {
        program: load(alloc, range.program.as_bytes())?,
        config: SIZES,
        rules: RULES,
        budget: range.budget,
        order: Order::Drawn,
        first: range.first,
        last: range.last,
        watch: None,
        statistics: range.statistics,
    })
}

/// Whether all of a range is put, and no sink broke. A test that calls this has less to hold in mind than by the call itself, whose
/// clauses are long.
fn put_all<T: Threads + Sync>(
    rt: &T,
    alloc: Global,
    job: SeedRuns,
    sinks: &mut Sinks,
) -> Result<bool, Memory>
    requires { MayBegin job }
{
    match run_seeds(rt, alloc, job, &mut sinks.console, &mut sinks.report) {
        Ok(()) => Ok(true),
        Err(SeedsFault::Sink) => Ok(false),
        Err(SeedsFault::Memory) => Err(Memory),
    }
}

fn is_put<T: Threads + Sync + Abort>(
    rt: &T,
    alloc: Global,
    range: &Range,
    sinks: &mut Sinks,
) -> Result<bool, Fail> {
    let job = job(rt, alloc, range)?;
    Ok(put_all(rt, alloc, job, sinks)?)
}

const HEADS: &[&[u8]] = &[
    b"seed 1\n",
    b"seed 2\n",
    b"seed 3\n",
    b"seed 4\n",
    b"seed 5\n",
    b"seed 6\n",
    b"seed 7\n",
    b"seed 8\n",
    b"seed 9\n",
];

/// Puts a block by itself: its line, what the run of its seed alone puts, and how that ended.
fn put_block(
    rt: &impl Abort,
    alloc: Global,
    seed: u64,
    head: &[u8],
    sinks: &mut Sinks,
) -> Result<bool, Fail> {
    Ok(
        put(sinks, head)
            && ran_alone(rt, alloc, seed, sinks)?
            && put(sinks, b"end done\n".as_slice()),
    )
}

#[test]
fn a_range_puts_a_block_a_seed_in_order(rt: HostRuntime) -> Result<(), Fail> {
    let alloc = rt.alloc();
    let mut all = sinks_for(alloc)?;
    let mut each = sinks_for(alloc)?;
    is_so(&rt, is_put(&rt, alloc, &NINE, &mut all)?);
    let mut seed = 1u64;
    'seeds: for head in HEADS {
        is_so(&rt, put_block(&rt, alloc, seed, head, &mut each)?);
        seed = seed.wrapping_add(1);
    }
    is_so(&rt, are_same(&all, &each));
    Ok(())
}

#[test]
fn a_block_of_a_seed_has_its_statistics(rt: HostRuntime) -> Result<(), Fail> {
    let alloc = rt.alloc();
    let mut block = sinks_for(alloc)?;
    let mut alone = sinks_for(alloc)?;
    is_so(&rt, is_put(&rt, alloc, &COUNTED, &mut block)?);
    is_so(&rt, put(&mut alone, b"seed 7\n".as_slice()));
    is_so(&rt, ran_counted(&rt, alloc, 7, &mut alone)?);
    is_so(&rt, put(&mut alone, b"end done\n".as_slice()));
    is_so(&rt, are_same(&block, &alone));
    Ok(())
}

fn ends_with(sinks: &Sinks, console: &[u8], line: &[u8]) -> bool {
    sinks.console.bytes() == console && sinks.report.bytes().ends_with(line)
}

fn last_line_is<T: Threads + Sync + Abort>(
    rt: &T,
    alloc: Global,
    range: &Range,
    line: &[u8],
) -> Result<bool, Fail> {
    let mut sinks = sinks_for(alloc)?;
    Ok(is_put(rt, alloc, range, &mut sinks)? && ends_with(&sinks, b"".as_slice(), line))
}

#[test]
fn a_block_says_that_its_core_trapped(rt: HostRuntime) -> Result<(), Fail> {
    is_so(
        &rt,
        last_line_is(
            &rt,
            rt.alloc(),
            &TRAPPED,
            b"\nend trapped 0 illegal\n".as_slice(),
        )?,
    );
    Ok(())
}

#[test]
fn a_block_says_that_its_budget_is_spent(rt: HostRuntime) -> Result<(), Fail> {
    is_so(
        &rt,
        last_line_is(&rt, rt.alloc(), &SPENT, b"\nend budget\n".as_slice())?,
    );
    Ok(())
}

/// A block without statistics has three pieces of the report, and one of the console.
#[test]
fn a_report_that_fails_ends_the_range(rt: HostRuntime) -> Result<(), Fail> {
    let alloc = rt.alloc();
    let mut broken = sinks_for(alloc)?;
    let mut first = sinks_for(alloc)?;
    broken.report.fail_call(4)?;
    is_so(&rt, !is_put(&rt, alloc, &NINE, &mut broken)?);
    is_so(
        &rt,
        put_block(&rt, alloc, 1, b"seed 1\n".as_slice(), &mut first)?,
    );
    is_so(&rt, are_same(&broken, &first));
    Ok(())
}

#[test]
fn a_console_that_fails_ends_the_range_in_its_block(rt: HostRuntime) -> Result<(), Fail> {
    let alloc = rt.alloc();
    let mut broken = sinks_for(alloc)?;
    broken.console.fail_call(6)?;
    is_so(&rt, !is_put(&rt, alloc, &NINE, &mut broken)?);
    is_so(
        &rt,
        ends_with(
            &broken,
            b"AAAAA".as_slice(),
            b"\nend done\nseed 6\n".as_slice(),
        ),
    );
    Ok(())
}
