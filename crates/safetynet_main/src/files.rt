//! What is due once the files of a request are fetched.
ghost use Rattle.std.specs.Prelude.{◌≡◌, ◌≢◌, ◌≤◌, ℕ, true, All, length, Some, Ok, Err, IfOk, string_bytes};
ghost use Rattle.sn_base.specs.Config.{lies_in, config_fits};
ghost use Rattle.monitor_run.specs.NodeRunShown.{MayBegin as MayRun};
ghost use Rattle.monitor_run.specs.Shown.{MayBegin as MayMonitor};
ghost use Rattle.command_words.specs.Request.{as_request, watch_fits, scope_fits, request_fits};
ghost use Rattle.option_values.specs.Runs.{run_rules_fit};
ghost use Rattle.safetynet_main.specs.LoadPlan.{Loads};
ghost use Rattle.call_files.specs.Fetches.{Fetches};
ghost use Rattle.safetynet_main.specs.Call.{replay_with, are_there, states_job, replay_job, ordered_job, threads_job, run_of, run_job, monitor_of, plan_of, replay_plan, roll_plan};
ghost use Rattle.safetynet_main.specs.Call.{save_plan, resume_plan};
ghost use Rattle.safetynet_main.specs.Call.{run_plan, monitor_plan, check_plan, judge_plan, assembly_plan, listing_plan, IsRead, AsksNothing};
ghost use Rattle.sn_base.specs.declared.limits.TheConstants.{EVENTS};

use crate::job::{Check, Job};
use call_files::rolled_replay::Roll;
use call_files::{
    fetch_accesses, fetch_assembly, fetch_control, fetch_program, fetch_save, fetch_script,
    fetch_trace, list_program,
};
use call_status::Status;
use command_words::{ReplayReport, Request, RunOrder, RunScope};
use monitor_run::Monitor;
use monitor_run::node_run::{Run, RunShowing};
use option_values::Places;
use resumed_replay::ResumedReplay;
use saved_replay::SavedReplay;
use script_replay::{Replay, ReportKind, Script, Showing};
use seed_runs::SeedRuns;
use shown_states::StatesReplay;
use sn_base::{Config, Image};
use sn_io::Store;
use std::alloc::Global;
use turn_orders::Order;

// A replay with this report.
fn replay_with(
    config: Config,
    report: ReportKind,
    watch: Option<u32>,
    program: Image,
    script: Script,
) -> Replay
    ensures { result ≡ replay_with config report watch program script }
{
    Replay {
        program,
        config,
        showing: Showing { report, watch },
        script,
    }
}

// Whether places are ones of so many events.
fn are_there(only: &Option<Places>, events: u32) -> bool
    ensures { result ≡ are_there only.now events }
{
    match only {
        Some(places) => places.to <= events,
        None => true,
    }
}

// The replay that shows states, where the places are ones of the script's events.
fn states_job(
    config: Config,
    only: Option<Places>,
    watch: Option<u32>,
    program: Image,
    script: Script,
) -> Result<Job, Status>
    requires few { length script ≤ EVENTS }
    ensures { result ≡ states_job config only watch program script }
{
    let events = script.events().len() as u32;
    if !are_there(&only, events) {
        drop(script);
        drop(program);
        return Err(Status::BadPlaces(events));
    }
    Ok(Job::States(StatesReplay {
        program,
        config,
        watch,
        only,
        script,
    }))
}

// The job of a program and of a script's events.
fn replay_job(
    config: Config,
    report: ReplayReport,
    watch: Option<u32>,
    program: Image,
    script: Script,
) -> Result<Job, Status>
    requires few { length script ≤ EVENTS }
    ensures { result ≡ replay_job config report watch program script }
{
    match report {
        ReplayReport::Events => Ok(Job::Replay(replay_with(
            config,
            ReportKind::Events,
            watch,
            program,
            script,
        ))),
        ReplayReport::Trace => Ok(Job::Replay(replay_with(
            config,
            ReportKind::Trace,
            watch,
            program,
            script,
        ))),
        ReplayReport::Statistics => Ok(Job::Counted(replay_with(
            config,
            ReportKind::Events,
            watch,
            program,
            script,
        ))),
        ReplayReport::Accesses => Ok(Job::Accesses(replay_with(
            config,
            ReportKind::Trace,
            watch,
            program,
            script,
        ))),
        ReplayReport::States(only) => states_job(config, only, watch, program, script),
    }
}

// The program and the script of a replay, in this order.
fn load_replay<S: Store>(
    alloc: Global,
    store: &mut S,
    asked: &command_words::Replay,
) -> Result<Job, Status>
    requires sizes { config_fits asked.now.config ≡ true }
    requires watched { watch_fits asked.now.watch ≡ true }
    ensures loads { result ≢ Err Status.Memory → Loads (Fetches S.files S.sure S.faults S.gave)
        (replay_plan asked.now.config asked.now.report asked.now.watch (string_bytes asked.now.program) (string_bytes asked.now.script))
        result store.old store.new }
    ensures read { IfOk result IsRead }
    ensures files { S.files store.new ≡ S.files store.old }
    ensures stays_sure { S.sure store.old → S.sure store.new }
{
    let program = match fetch_program(alloc, store, asked.program.as_str()) {
        Ok(program) => program,
        Err(status) => return Err(status),
    };
    let config = asked.config;
    let (report, watch) = (asked.report, asked.watch);
    match fetch_script(alloc, store, asked.script.as_str(), config.nodes) {
        Ok(script) => replay_job(config, report, watch, program, script),
        Err(status) => {
            drop(program);
            Err(status)
        }
    }
}

// The program, the script and the control file of a recovery node by node, in this order.
fn load_roll<S: Store>(
    alloc: Global,
    store: &mut S,
    asked: &command_words::Roll,
) -> Result<Job, Status>
    requires sizes { config_fits asked.now.config ≡ true }
    requires watched { watch_fits asked.now.watch ≡ true }
    ensures loads { result ≢ Err Status.Memory → Loads (Fetches S.files S.sure S.faults S.gave)
        (roll_plan asked.now.config asked.now.watch (string_bytes asked.now.program) (string_bytes asked.now.script)
        (string_bytes asked.now.control))
        result store.old store.new }
    ensures read { IfOk result IsRead }
    ensures files { S.files store.new ≡ S.files store.old }
    ensures stays_sure { S.sure store.old → S.sure store.new }
{
    let program = match fetch_program(alloc, store, asked.program.as_str()) {
        Ok(program) => program,
        Err(status) => return Err(status),
    };
    let config = asked.config;
    let watch = asked.watch;
    let script = match fetch_script(alloc, store, asked.script.as_str(), config.nodes) {
        Ok(script) => script,
        Err(status) => {
            drop(program);
            return Err(status);
        }
    };
    match fetch_control(alloc, store, asked.control.as_str(), config.nodes) {
        Ok(controls) => Ok(Job::Roll(Roll {
            program,
            config,
            watch,
            script,
            controls,
        })),
        Err(status) => {
            drop(script);
            drop(program);
            Err(status)
        }
    }
}

// The program and the script of a machine whose recovery point is saved, in this order.
fn load_save<S: Store>(
    alloc: Global,
    store: &mut S,
    asked: &command_words::Save,
) -> Result<Job, Status>
    requires sizes { config_fits asked.now.config ≡ true }
    ensures loads { result ≢ Err Status.Memory → Loads (Fetches S.files S.sure S.faults S.gave)
        (save_plan asked.now.config (string_bytes asked.now.program) (string_bytes asked.now.script)) result store.old store.new }
    ensures read { IfOk result IsRead }
    ensures files { S.files store.new ≡ S.files store.old }
    ensures stays_sure { S.sure store.old → S.sure store.new }
{
    let program = match fetch_program(alloc, store, asked.program.as_str()) {
        Ok(program) => program,
        Err(status) => return Err(status),
    };
    let config = asked.config;
    match fetch_script(alloc, store, asked.script.as_str(), asked.config.nodes) {
        Ok(script) => Ok(Job::Save(SavedReplay {
            program,
            config,
            script,
        })),
        Err(status) => {
            drop(program);
            Err(status)
        }
    }
}

// The program, the save file and the script of a machine that goes on, in this order.
fn load_resume<S: Store>(
    alloc: Global,
    store: &mut S,
    asked: &command_words::Resume,
) -> Result<Job, Status>
    requires watched { watch_fits asked.now.watch ≡ true }
    ensures loads { result ≢ Err Status.Memory → Loads (Fetches S.files S.sure S.faults S.gave)
        (resume_plan asked.now.watch (string_bytes asked.now.program) (string_bytes asked.now.save) (string_bytes asked.now.script))
        result store.old store.new }
    ensures read { IfOk result IsRead }
    ensures files { S.files store.new ≡ S.files store.old }
    ensures stays_sure { S.sure store.old → S.sure store.new }
{
    let program = match fetch_program(alloc, store, asked.program.as_str()) {
        Ok(program) => program,
        Err(status) => return Err(status),
    };
    let machine = match fetch_save(alloc, store, asked.save.as_str(), program) {
        Ok(machine) => machine,
        Err(status) => return Err(status),
    };
    let watch = asked.watch;
    let nodes = machine.config().nodes;
    match fetch_script(alloc, store, asked.script.as_str(), nodes) {
        Ok(script) => Ok(Job::Resume(ResumedReplay {
            machine,
            watch,
            script,
        })),
        Err(status) => {
            drop(machine);
            Err(status)
        }
    }
}

// The job of a run in an order, or of one for each seed of a range.
#[tactic(auto, using(crate::proofs::Watched::ordered_may_begin))]
fn ordered_job(scope: RunScope, order: Order, run: Run) -> Job
    requires may { MayRun run }
    requires scoped { scope_fits scope ≡ true }
    ensures same { result ≡ ordered_job scope order run }
    ensures read { IsRead result }
{
    match scope {
        RunScope::One => Job::OrderedRun(run, order),
        RunScope::Counted => Job::CountedRun(run, order),
        RunScope::Seeds(seeds, statistics) => Job::Seeds(SeedRuns {
            program: run.program,
            config: run.config,
            rules: run.rules,
            budget: run.budget,
            order,
            first: seeds.first,
            last: seeds.last,
            watch: run.showing.watch,
            statistics,
        }),
    }
}

// The job of a run by threads.
fn threads_job(scope: &RunScope, run: Run) -> Job
    requires may { MayRun run }
    ensures same { result ≡ threads_job scope.now run }
    ensures read { IsRead result }
{
    match scope {
        RunScope::Counted => Job::CountedByThreads(run),
        RunScope::One | RunScope::Seeds(_, _) => Job::Run(run),
    }
}

// A run of the program that was read.
fn run_of(asked: &command_words::Run, program: Image) -> Run
    requires sizes { config_fits asked.now.config ≡ true }
    requires ruled { run_rules_fit asked.now.config.nodes asked.now.rules ≡ true }
    requires watched { watch_fits asked.now.watch ≡ true }
    ensures same { result ≡ run_of asked.now.config asked.now.rules asked.now.report asked.now.watch program }
    ensures may { MayRun result }
{
    let report = asked.report;
    let showing = RunShowing {
        report,
        watch: asked.watch,
    };
    Run {
        program,
        config: asked.config,
        rules: asked.rules.rules,
        seed: asked.rules.seed,
        budget: asked.rules.budget,
        showing,
    }
}

// The job of that run.
fn run_job(asked: &command_words::Run, run: Run) -> Job
    requires may { MayRun run }
    requires scoped { scope_fits asked.now.scope ≡ true }
    ensures same { result ≡ run_job asked.now.order asked.now.scope run }
    ensures read { IsRead result }
{
    let (order, scope) = (asked.order, asked.scope);
    match order {
        RunOrder::Threads => threads_job(&scope, run),
        RunOrder::Round => ordered_job(scope, Order::Round, run),
        RunOrder::Drawn => ordered_job(scope, Order::Drawn, run),
    }
}

// The program of a run.
fn load_run<S: Store>(
    alloc: Global,
    store: &mut S,
    asked: &command_words::Run,
) -> Result<Job, Status>
    requires sizes { config_fits asked.now.config ≡ true }
    requires ruled { run_rules_fit asked.now.config.nodes asked.now.rules ≡ true }
    requires scoped { scope_fits asked.now.scope ≡ true }
    requires watched { watch_fits asked.now.watch ≡ true }
    ensures loads { result ≢ Err Status.Memory → Loads (Fetches S.files S.sure S.faults S.gave)
        (run_plan asked.now.config asked.now.rules asked.now.report asked.now.order asked.now.scope asked.now.watch
        (string_bytes asked.now.program))
        result store.old store.new }
    ensures read { IfOk result IsRead }
    ensures files { S.files store.new ≡ S.files store.old }
    ensures stays_sure { S.sure store.old → S.sure store.new }
{
    match fetch_program(alloc, store, asked.program.as_str()) {
        Ok(program) => {
            let run = run_of(asked, program);
            Ok(run_job(asked, run))
        }
        Err(status) => Err(status),
    }
}

// A run that is watched, of the program that was read.
fn monitor_of(asked: &command_words::Monitor, program: Image) -> Monitor
    requires sizes { config_fits asked.now.config ≡ true }
    requires ruled { run_rules_fit asked.now.config.nodes asked.now.rules ≡ true }
    requires watched { watch_fits asked.now.watch ≡ true }
    ensures same { result ≡ monitor_of asked.now.config asked.now.rules asked.now.watch program }
    ensures may { MayMonitor result }
{
    Monitor {
        program,
        config: asked.config,
        rules: asked.rules.rules,
        seed: asked.rules.seed,
        budget: asked.rules.budget,
        watch: asked.watch,
    }
}

// The program of a run that is watched.
fn load_monitor<S: Store>(
    alloc: Global,
    store: &mut S,
    asked: &command_words::Monitor,
) -> Result<Job, Status>
    requires sizes { config_fits asked.now.config ≡ true }
    requires ruled { run_rules_fit asked.now.config.nodes asked.now.rules ≡ true }
    requires watched { watch_fits asked.now.watch ≡ true }
    ensures loads { result ≢ Err Status.Memory → Loads (Fetches S.files S.sure S.faults S.gave)
        (monitor_plan asked.now.config asked.now.rules asked.now.watch (string_bytes asked.now.program))
        result store.old store.new }
    ensures read { IfOk result IsRead }
    ensures files { S.files store.new ≡ S.files store.old }
    ensures stays_sure { S.sure store.old → S.sure store.new }
{
    match fetch_program(alloc, store, asked.program.as_str()) {
        Ok(program) => Ok(Job::Monitor(monitor_of(asked, program))),
        Err(status) => Err(status),
    }
}

// The program and the trace of a check, in this order.
fn load_check<S: Store>(
    alloc: Global,
    store: &mut S,
    asked: &command_words::Check,
) -> Result<Job, Status>
    requires { lies_in 1 16 asked.now.nodes ≡ true }
    ensures loads { result ≢ Err Status.Memory → Loads (Fetches S.files S.sure S.faults S.gave)
        (check_plan asked.now.nodes (string_bytes asked.now.program) (string_bytes asked.now.trace)) result store.old store.new }
    ensures read { IfOk result IsRead }
    ensures files { S.files store.new ≡ S.files store.old }
    ensures stays_sure { S.sure store.old → S.sure store.new }
{
    let program = match fetch_program(alloc, store, asked.program.as_str()) {
        Ok(program) => program,
        Err(status) => return Err(status),
    };
    let nodes = asked.nodes;
    match fetch_trace(alloc, store, asked.trace.as_str(), nodes) {
        Ok(trace) => Ok(Job::Check(Check {
            program,
            nodes,
            trace,
        })),
        Err(status) => {
            drop(program);
            Err(status)
        }
    }
}

fn load_judge<S: Store>(alloc: Global, store: &mut S, accesses: &str) -> Result<Job, Status>
    ensures loads { result ≢ Err Status.Memory →
        Loads (Fetches S.files S.sure S.faults S.gave) (judge_plan accesses.now) result store.old store.new }
    ensures read { IfOk result IsRead }
    ensures files { S.files store.new ≡ S.files store.old }
    ensures stays_sure { S.sure store.old → S.sure store.new }
{
    match fetch_accesses(alloc, store, accesses) {
        Ok(list) => Ok(Job::Judge(list)),
        Err(status) => Err(status),
    }
}

fn load_assembly<S: Store>(alloc: Global, store: &mut S, text: &str) -> Result<Job, Status>
    ensures loads { result ≢ Err Status.Memory →
        Loads (Fetches S.files S.sure S.faults S.gave) (assembly_plan text.now) result store.old store.new }
    ensures read { IfOk result IsRead }
    ensures files { S.files store.new ≡ S.files store.old }
    ensures stays_sure { S.sure store.old → S.sure store.new }
{
    match fetch_assembly(alloc, store, text) {
        Ok(text) => Ok(Job::Text(text)),
        Err(status) => Err(status),
    }
}

fn load_listing<S: Store>(alloc: Global, store: &mut S, program: &str) -> Result<Job, Status>
    ensures loads { result ≢ Err Status.Memory →
        Loads (Fetches S.files S.sure S.faults S.gave) (listing_plan program.now) result store.old store.new }
    ensures read { IfOk result IsRead }
    ensures files { S.files store.new ≡ S.files store.old }
    ensures stays_sure { S.sure store.old → S.sure store.new }
{
    let program = match fetch_program(alloc, store, program) {
        Ok(program) => program,
        Err(status) => return Err(status),
    };
    let listed = list_program(alloc, &program);
    drop(program);
    match listed {
        Ok(text) => Ok(Job::Text(text)),
        Err(status) => Err(status),
    }
}

/// What is due for a request that names files: they are fetched and read one after another, and the first that is refused
/// decides.
pub fn load<S: Store>(alloc: Global, store: &mut S, request: &Request) -> Result<Job, Status>
    requires fits { request_fits (as_request request.now) ≡ true }
    requires files { (size : ℕ) → request.now ≡ Request.Demo size → ⊥ }
    ensures loads { result ≢ Err Status.Memory →
        Loads (Fetches S.files S.sure S.faults S.gave) (plan_of (Some (as_request request.now))) result store.old store.new }
    ensures read { IfOk result IsRead }
    ensures no_command { AsksNothing (Some (as_request request.now)) → (result ≡ Err Status.Usage) × (store.new ≡ store.old) }
    ensures files { S.files store.new ≡ S.files store.old }
    ensures stays_sure { S.sure store.old → S.sure store.new }
{
    match request {
        Request::Replay(asked) => load_replay(alloc, store, asked),
        Request::Roll(asked) => load_roll(alloc, store, asked),
        Request::Save(asked) => load_save(alloc, store, asked),
        Request::Resume(asked) => load_resume(alloc, store, asked),
        Request::Run(asked) => load_run(alloc, store, asked),
        Request::Monitor(asked) => load_monitor(alloc, store, asked),
        Request::Check(asked) => load_check(alloc, store, asked),
        Request::Judge(accesses) => load_judge(alloc, store, accesses.as_str()),
        Request::Assemble(text) => load_assembly(alloc, store, text.as_str()),
        Request::Disassemble(program) => load_listing(alloc, store, program.as_str()),
        // Its lines come one by one, and for that there is a call beside this one.
        Request::Drive(_) => Err(Status::Usage),
        Request::Demo(_) => unreachable!(),
    }
}
