//! The request of the words: the entries' texts are read, and the names are copied.
ghost use Rattle.std.specs.Prelude.{◌≡◌, ◌≤◌, Bool, IfOk, IfErr, true, Some, None, codes, map, option_map, string_bytes};
ghost use Rattle.sn_base.specs.Config.{config_fits};
ghost use Rattle.option_values.specs.Runs.{run_rules_fit};
ghost use Rattle.option_values.specs.Values.{watch_by};
ghost use Rattle.clap.specs.Words.{found_of, rows_of, first_of};
ghost use Rattle.command_words.specs.Request.{ask_of, as_request, request_of, other_request_of, config_of, replay_of, drive_of, roll_of, save_of, resume_of, run_of};
ghost use Rattle.command_words.specs.Request.{monitor_of, check_of, demo_of, Judge, Demo, Assemble, Disassemble, run_rules_of, run_report_of};
ghost use Rattle.command_words.specs.Request.{replay_report_of, report_fits, drive_report_of};
ghost use Rattle.command_words.specs.Request.{run_order_of, is_ordered, is_summary, run_scope_by, run_scope_of, scope_fits};
ghost use Rattle.command_words.specs.Request.{watch_fits, request_fits};

use crate::command::entries_of;
use crate::entries::{command_of, has_flag, text_of};
use crate::request::{
    Check, Drive, DriveReport, Monitor, Replay, ReplayReport, Request, Resume, Roll, Run, RunOrder,
    RunScope, Save, WordsFault,
};
use clap::ArgMatches;
use option_values::{
    RunRules, RunWords, SizeWords, read_demo_size, read_nodes, read_places, read_seeds, read_watch,
};
use sn_base::{Config, RunReport};
use std::alloc::Global;

// The name of a file.
fn name(alloc: Global, entries: &ArgMatches<'_>, id: &str) -> Result<String, WordsFault>
    ensures ok { IfOk result (λ name. first_of id.now (rows_of (found_of entries.now)) ≡ Some (string_bytes name)) }
    ensures usage { result ≡ Err WordsFault.Usage → first_of id.now (rows_of (found_of entries.now)) ≡ None }
{
    match text_of(entries, id) {
        Some(text) => Ok(String::from_str(alloc, text)?),
        None => Err(WordsFault::Usage),
    }
}

fn config(entries: &ArgMatches<'_>) -> Result<Config, WordsFault>
    ensures ok { IfOk result (λ config. config_of (rows_of (found_of entries.now)) ≡ Some config) }
    ensures usage { IfErr result (λ fault. (fault ≡ WordsFault.Usage) × (config_of (rows_of (found_of entries.now)) ≡ None)) }
    ensures fits { IfOk result (λ config. config_fits config ≡ true) }
{
    let sizes = SizeWords {
        nodes: text_of(entries, "nodes"),
        sets: text_of(entries, "sets"),
        ways: text_of(entries, "ways"),
        log: text_of(entries, "log"),
    };
    sizes.config().ok_or(WordsFault::Usage)
}

// The address of the word that is to be watched.
fn watch(entries: &ArgMatches<'_>) -> Result<Option<u32>, WordsFault>
    ensures ok { IfOk result (λ watch. watch_by (first_of (codes "watch") (rows_of (found_of entries.now))) ≡ Some watch) }
    ensures usage { IfErr result (λ fault. (fault ≡ WordsFault.Usage) × (watch_by (first_of (codes "watch") (rows_of (found_of entries.now))) ≡ None)) }
    ensures fits { IfOk result (λ watch. watch_fits watch ≡ true) }
{
    read_watch(text_of(entries, "watch")).ok_or(WordsFault::Usage)
}

fn replay_report(entries: &ArgMatches<'_>) -> Result<ReplayReport, WordsFault>
    ensures ok { IfOk result (λ report. replay_report_of (rows_of (found_of entries.now)) ≡ Some report) }
    ensures usage { IfErr result (λ fault. (fault ≡ WordsFault.Usage) × (replay_report_of (rows_of (found_of entries.now)) ≡ None)) }
    ensures fits { IfOk result (λ report. report_fits report ≡ true) }
{
    let only = read_places(text_of(entries, "only")).ok_or(WordsFault::Usage)?;
    match (
        has_flag(entries, "trace"),
        has_flag(entries, "states"),
        has_flag(entries, "statistics"),
        has_flag(entries, "accesses"),
        only,
    ) {
        (false, false, false, false, None) => Ok(ReplayReport::Events),
        (true, false, false, false, None) => Ok(ReplayReport::Trace),
        (false, true, false, false, only) => Ok(ReplayReport::States(only)),
        (false, false, true, false, None) => Ok(ReplayReport::Statistics),
        (false, false, false, true, None) => Ok(ReplayReport::Accesses),
        _ => Err(WordsFault::Usage),
    }
}

fn replay(alloc: Global, entries: &ArgMatches<'_>) -> Result<Request, WordsFault>
    ensures ok { IfOk result (λ request. replay_of (rows_of (found_of entries.now)) ≡ Some (as_request request)) }
    ensures usage { result ≡ Err WordsFault.Usage → replay_of (rows_of (found_of entries.now)) ≡ None }
    ensures fits { IfOk result (λ request. request_fits (as_request request) ≡ true) }
{
    Ok(Request::Replay(Replay {
        config: config(entries)?,
        report: replay_report(entries)?,
        watch: watch(entries)?,
        program: name(alloc, entries, "program")?,
        script: name(alloc, entries, "script")?,
    }))
}

fn drive_report(entries: &ArgMatches<'_>) -> DriveReport
    ensures { result ≡ drive_report_of (rows_of (found_of entries.now)) }
{
    if has_flag(entries, "states") {
        DriveReport::States
    } else {
        DriveReport::Events
    }
}

fn drive(alloc: Global, entries: &ArgMatches<'_>) -> Result<Request, WordsFault>
    ensures ok { IfOk result (λ request. drive_of (rows_of (found_of entries.now)) ≡ Some (as_request request)) }
    ensures usage { result ≡ Err WordsFault.Usage → drive_of (rows_of (found_of entries.now)) ≡ None }
    ensures fits { IfOk result (λ request. request_fits (as_request request) ≡ true) }
{
    Ok(Request::Drive(Drive {
        config: config(entries)?,
        report: drive_report(entries),
        watch: watch(entries)?,
        program: name(alloc, entries, "program")?,
    }))
}

fn roll(alloc: Global, entries: &ArgMatches<'_>) -> Result<Request, WordsFault>
    ensures ok { IfOk result (λ request. roll_of (rows_of (found_of entries.now)) ≡ Some (as_request request)) }
    ensures usage { result ≡ Err WordsFault.Usage → roll_of (rows_of (found_of entries.now)) ≡ None }
    ensures fits { IfOk result (λ request. request_fits (as_request request) ≡ true) }
{
    Ok(Request::Roll(Roll {
        config: config(entries)?,
        watch: watch(entries)?,
        program: name(alloc, entries, "program")?,
        script: name(alloc, entries, "script")?,
        control: name(alloc, entries, "control")?,
    }))
}

fn save(alloc: Global, entries: &ArgMatches<'_>) -> Result<Request, WordsFault>
    ensures ok { IfOk result (λ request. save_of (rows_of (found_of entries.now)) ≡ Some (as_request request)) }
    ensures usage { result ≡ Err WordsFault.Usage → save_of (rows_of (found_of entries.now)) ≡ None }
    ensures fits { IfOk result (λ request. request_fits (as_request request) ≡ true) }
{
    Ok(Request::Save(Save {
        config: config(entries)?,
        program: name(alloc, entries, "program")?,
        script: name(alloc, entries, "script")?,
    }))
}

fn resume(alloc: Global, entries: &ArgMatches<'_>) -> Result<Request, WordsFault>
    ensures ok { IfOk result (λ request. resume_of (rows_of (found_of entries.now)) ≡ Some (as_request request)) }
    ensures usage { result ≡ Err WordsFault.Usage → resume_of (rows_of (found_of entries.now)) ≡ None }
    ensures fits { IfOk result (λ request. request_fits (as_request request) ≡ true) }
{
    Ok(Request::Resume(Resume {
        watch: watch(entries)?,
        program: name(alloc, entries, "program")?,
        save: name(alloc, entries, "save")?,
        script: name(alloc, entries, "script")?,
    }))
}

fn rules(entries: &ArgMatches<'_>, nodes: u8) -> Result<RunRules, WordsFault>
    requires few { nodes ≤ 16 }
    ensures ok { IfOk result (λ rules. run_rules_of nodes (rows_of (found_of entries.now)) ≡ Some rules) }
    ensures usage { IfErr result (λ fault. (fault ≡ WordsFault.Usage) × (run_rules_of nodes (rows_of (found_of entries.now)) ≡ None)) }
    ensures fits { IfOk result (λ rules. run_rules_fit nodes rules ≡ true) }
{
    let words = RunWords {
        interval: text_of(entries, "interval"),
        wait: text_of(entries, "wait"),
        lose_every: text_of(entries, "lose-every"),
        kill: text_of(entries, "kill"),
        budget: text_of(entries, "budget"),
        seed: text_of(entries, "seed"),
    };
    match words.rules(nodes) {
        Some(rules) => Ok(rules),
        None => Err(WordsFault::Usage),
    }
}

fn run_report(entries: &ArgMatches<'_>) -> Result<RunReport, WordsFault>
    ensures ok { IfOk result (λ report. run_report_of (rows_of (found_of entries.now)) ≡ Some report) }
    ensures usage { IfErr result (λ fault. (fault ≡ WordsFault.Usage) × (run_report_of (rows_of (found_of entries.now)) ≡ None)) }
{
    match (
        has_flag(entries, "trace"),
        has_flag(entries, "journal"),
        has_flag(entries, "accesses"),
    ) {
        (false, false, false) => Ok(RunReport::Summary),
        (true, false, false) => Ok(RunReport::Trace),
        (false, true, false) => Ok(RunReport::Journal),
        (false, false, true) => Ok(RunReport::Accesses),
        _ => Err(WordsFault::Usage),
    }
}

fn run_order(entries: &ArgMatches<'_>) -> Result<RunOrder, WordsFault>
    ensures ok { IfOk result (λ order. run_order_of (rows_of (found_of entries.now)) ≡ Some order) }
    ensures usage { IfErr result (λ fault. (fault ≡ WordsFault.Usage) × (run_order_of (rows_of (found_of entries.now)) ≡ None)) }
{
    let Some(text) = text_of(entries, "order") else {
        return Ok(RunOrder::Threads);
    };
    match text {
        "threads" => Ok(RunOrder::Threads),
        "round" => Ok(RunOrder::Round),
        "drawn" => Ok(RunOrder::Drawn),
        _ => Err(WordsFault::Usage),
    }
}

// Whether the workers have their turns in an order.
fn is_ordered(order: &RunOrder) -> bool
    ensures { result ≡ is_ordered order.now }
{
    match order {
        RunOrder::Threads => false,
        RunOrder::Round | RunOrder::Drawn => true,
    }
}

// Whether nothing is shown beside the summary.
fn is_summary(report: &RunReport) -> bool
    ensures { result ≡ is_summary report.now }
{
    match report {
        RunReport::Summary => true,
        RunReport::Trace | RunReport::Accesses | RunReport::Journal => false,
    }
}

// One run, which is counted or isn't.
fn one_run(is_counted: bool, is_summary: bool) -> Result<RunScope, WordsFault>
    ensures ok { IfOk result (λ scope. (ordered seed : Bool) → run_scope_by is_counted None is_summary ordered seed ≡ Some scope) }
    ensures usage { IfErr result (λ fault. (fault ≡ WordsFault.Usage)
        × ((ordered seed : Bool) → run_scope_by is_counted None is_summary ordered seed ≡ None)) }
    ensures fits { IfOk result (λ scope. scope_fits scope ≡ true) }
{
    if !is_counted {
        Ok(RunScope::One)
    } else if is_summary {
        Ok(RunScope::Counted)
    } else {
        Err(WordsFault::Usage)
    }
}

fn run_scope(
    entries: &ArgMatches<'_>,
    order: &RunOrder,
    report: &RunReport,
) -> Result<RunScope, WordsFault>
    ensures ok { IfOk result (λ scope. run_scope_of order.now report.now (rows_of (found_of entries.now)) ≡ Some scope) }
    ensures usage { IfErr result (λ fault. (fault ≡ WordsFault.Usage) × (run_scope_of order.now report.now (rows_of (found_of entries.now)) ≡ None)) }
    ensures fits { IfOk result (λ scope. scope_fits scope ≡ true) }
{
    let is_counted = has_flag(entries, "statistics");
    let is_summary = is_summary(report);
    let is_ordered = is_ordered(order);
    let has_seed = text_of(entries, "seed").is_some();
    match read_seeds(text_of(entries, "seeds")) {
        Some(None) => one_run(is_counted, is_summary),
        Some(Some(seeds)) => {
            if is_summary && is_ordered && !has_seed {
                Ok(RunScope::Seeds(seeds, is_counted))
            } else {
                Err(WordsFault::Usage)
            }
        }
        None => Err(WordsFault::Usage),
    }
}

fn run(alloc: Global, entries: &ArgMatches<'_>) -> Result<Request, WordsFault>
    ensures ok { IfOk result (λ request. run_of (rows_of (found_of entries.now)) ≡ Some (as_request request)) }
    ensures usage { result ≡ Err WordsFault.Usage → run_of (rows_of (found_of entries.now)) ≡ None }
    ensures fits { IfOk result (λ request. request_fits (as_request request) ≡ true) }
{
    let config = config(entries)?;
    let rules = rules(entries, config.nodes)?;
    let report = run_report(entries)?;
    let order = run_order(entries)?;
    let scope = run_scope(entries, &order, &report)?;
    Ok(Request::Run(Run {
        config,
        rules,
        report,
        order,
        scope,
        watch: watch(entries)?,
        program: name(alloc, entries, "program")?,
    }))
}

fn monitor(alloc: Global, entries: &ArgMatches<'_>) -> Result<Request, WordsFault>
    ensures ok { IfOk result (λ request. monitor_of (rows_of (found_of entries.now)) ≡ Some (as_request request)) }
    ensures usage { result ≡ Err WordsFault.Usage → monitor_of (rows_of (found_of entries.now)) ≡ None }
    ensures fits { IfOk result (λ request. request_fits (as_request request) ≡ true) }
{
    let config = config(entries)?;
    Ok(Request::Monitor(Monitor {
        config,
        rules: rules(entries, config.nodes)?,
        watch: watch(entries)?,
        program: name(alloc, entries, "program")?,
    }))
}

fn check(alloc: Global, entries: &ArgMatches<'_>) -> Result<Request, WordsFault>
    ensures ok { IfOk result (λ request. check_of (rows_of (found_of entries.now)) ≡ Some (as_request request)) }
    ensures usage { result ≡ Err WordsFault.Usage → check_of (rows_of (found_of entries.now)) ≡ None }
    ensures fits { IfOk result (λ request. request_fits (as_request request) ≡ true) }
{
    Ok(Request::Check(Check {
        nodes: read_nodes(text_of(entries, "nodes")).ok_or(WordsFault::Usage)?,
        program: name(alloc, entries, "program")?,
        trace: name(alloc, entries, "trace")?,
    }))
}

fn judge(alloc: Global, entries: &ArgMatches<'_>) -> Result<Request, WordsFault>
    ensures ok { IfOk result (λ request. option_map (λ accesses. Judge accesses) (first_of (codes "accesses") (rows_of (found_of entries.now)))
        ≡ Some (as_request request)) }
    ensures usage { result ≡ Err WordsFault.Usage → first_of (codes "accesses") (rows_of (found_of entries.now)) ≡ None }
    ensures fits { IfOk result (λ request. request_fits (as_request request) ≡ true) }
{
    Ok(Request::Judge(name(alloc, entries, "accesses")?))
}

fn demo(entries: &ArgMatches<'_>) -> Result<Request, WordsFault>
    ensures ok { IfOk result (λ request. option_map (λ size. Demo size) (demo_of (rows_of (found_of entries.now))) ≡ Some (as_request request)) }
    ensures usage { result ≡ Err WordsFault.Usage → demo_of (rows_of (found_of entries.now)) ≡ None }
    ensures fits { IfOk result (λ request. request_fits (as_request request) ≡ true) }
{
    let size = text_of(entries, "size").ok_or(WordsFault::Usage)?;
    Ok(Request::Demo(read_demo_size(size).ok_or(WordsFault::Usage)?))
}

fn assemble(alloc: Global, entries: &ArgMatches<'_>) -> Result<Request, WordsFault>
    ensures ok { IfOk result (λ request. option_map (λ text. Assemble text) (first_of (codes "text") (rows_of (found_of entries.now)))
        ≡ Some (as_request request)) }
    ensures usage { result ≡ Err WordsFault.Usage → first_of (codes "text") (rows_of (found_of entries.now)) ≡ None }
    ensures fits { IfOk result (λ request. request_fits (as_request request) ≡ true) }
{
    Ok(Request::Assemble(name(alloc, entries, "text")?))
}

fn disassemble(alloc: Global, entries: &ArgMatches<'_>) -> Result<Request, WordsFault>
    ensures ok { IfOk result (λ request. option_map (λ program. Disassemble program) (first_of (codes "program") (rows_of (found_of entries.now)))
        ≡ Some (as_request request)) }
    ensures usage { result ≡ Err WordsFault.Usage → first_of (codes "program") (rows_of (found_of entries.now)) ≡ None }
    ensures fits { IfOk result (λ request. request_fits (as_request request) ≡ true) }
{
    Ok(Request::Disassemble(name(alloc, entries, "program")?))
}

// The request of a command that judges or translates what a file has, or that demonstrates.
fn other_request(
    alloc: Global,
    command: &str,
    entries: &ArgMatches<'_>,
) -> Result<Request, WordsFault>
    ensures ok { IfOk result (λ request. other_request_of command.now (rows_of (found_of entries.now)) ≡ Some (as_request request)) }
    ensures usage { result ≡ Err WordsFault.Usage → other_request_of command.now (rows_of (found_of entries.now)) ≡ None }
    ensures fits { IfOk result (λ request. request_fits (as_request request) ≡ true) }
{
    match command {
        "check" => check(alloc, entries),
        "judge" => judge(alloc, entries),
        "demo" => demo(entries),
        "asm" => assemble(alloc, entries),
        "dis" => disassemble(alloc, entries),
        _ => Err(WordsFault::Usage),
    }
}

fn request(alloc: Global, command: &str, entries: &ArgMatches<'_>) -> Result<Request, WordsFault>
    ensures ok { IfOk result (λ request. request_of command.now (rows_of (found_of entries.now)) ≡ Some (as_request request)) }
    ensures usage { result ≡ Err WordsFault.Usage → request_of command.now (rows_of (found_of entries.now)) ≡ None }
    ensures fits { IfOk result (λ request. request_fits (as_request request) ≡ true) }
{
    match command {
        "replay" => replay(alloc, entries),
        "drive" => drive(alloc, entries),
        "roll" => roll(alloc, entries),
        "save" => save(alloc, entries),
        "resume" => resume(alloc, entries),
        "run" => run(alloc, entries),
        "monitor" => monitor(alloc, entries),
        _ => other_request(alloc, command, entries),
    }
}

/// What the words ask for; the first of them is the program's own name.
///
/// `Usage` where they are no command's words, or where a value breaks its rule. Each option may stand once, as
/// `--name value` or as `--name=value`, and words that begin with `--` may be files' names after `--` alone.
pub fn read_words(alloc: Global, words: &[String]) -> Result<Request, WordsFault>
    ensures ok { IfOk result (λ request. ask_of (map string_bytes words.now) ≡ Some (as_request request)) }
    ensures fits { IfOk result (λ request. request_fits (as_request request) ≡ true) }
    ensures usage { result ≡ Err WordsFault.Usage → ask_of (map string_bytes words.now) ≡ None }
{
    let entries = entries_of(alloc, words)?;
    match command_of(&entries) {
        Some((command, entries)) => request(alloc, command, entries),
        None => Err(WordsFault::Usage),
    }
}
