//! The call: words, files in their order, memory, and then what is to be done.
ghost use Rattle.std.specs.Prelude.{◌≡◌, ◌≢◌, ◌⊎◌, map, string_bytes, false, Some, Ok, Err, IfSome, IfOk};
ghost use Rattle.sn_io.specs.Outside.{Rose};
ghost use Rattle.command_words.specs.Request.{ask_of};
ghost use Rattle.sn_probe.specs.Probes.{meters_of, meters_in};
ghost use Rattle.sink_pieces.specs.Pieces.{ends};
ghost use Rattle.call_status.specs.Status.{has_written};
ghost use Rattle.call_files.specs.Fetches.{Fetches};
ghost use Rattle.safetynet_main.specs.Call.{Comes, Follows, AsksNothing, due_of, EndsIn, IsCutShort, EndsInTheMiddle, IsRead};

use crate::checking::check;
use crate::demo::demo;
use crate::ended::{replay_status, roll_status, run_status, seeds_status, states_status};
use crate::files::load;
use crate::job::Job;
use crate::judging::judge;
use accesses_replay::replay_accesses;
use call_files::rolled_replay::roll;
use call_status::Status;
use command_words::{Request, WordsFault, read_words};
use counted_replay::replay_counted;
use monitor_run::monitor;
use monitor_run::node_run::run;
use resumed_replay::replay_resumed;
use saved_replay::replay_saved;
use script_replay::replay;
use seed_runs::ordered_run::run as run_in_order;
use seed_runs::{run_counted, run_counted_by_threads, run_seeds};
use shown_states::replay_states;
use sink_pieces::put_console;
use sn_io::{Gate, Sink, Store};
use sn_probe::{Probe, ProbeSet};
use std::alloc::Global;
use std::sync::Wait;
use std::thread::Threads;

// Does what is due.
fn perform<T: Threads + Wait + Sync, C: Sink + Send, R: Sink, G: Gate + Sync>(
    rt: &T,
    alloc: Global,
    job: Job,
    console: &mut C,
    report: &mut R,
    probes: &mut ProbeSet,
    gate: &G,
) -> Status
    requires { IsRead job }
    ensures follows { result ≢ Status.Memory → Follows (meters_in first tally step probes.old.probes.items) (Ok job) result
        (C.faults console.old) (C.faults console.new)
        (ends (C.written console.old) (R.written report.old)) (ends (C.written console.new) (R.written report.new)) }
    ensures nothing { has_written result ≡ false → ((console.new ≡ console.old) × (report.new ≡ report.old))
        ⊎ ((result ≡ Status.Memory) × IsCutShort (meters_in first tally step probes.old.probes.items) job
        (ends (C.written console.old) (R.written report.old)) (ends (C.written console.new) (R.written report.new))) }
    ensures cause { result ≡ Status.SinkFault
        → Rose (C.faults console.old) (C.faults console.new) ⊎ Rose (R.faults report.old) (R.faults report.new) }
{
    match job {
        Job::Replay(job) => replay_status(replay(alloc, job, probes, console, report)),
        Job::Counted(job) => replay_status(replay_counted(alloc, job, probes, console, report)),
        Job::Accesses(job) => replay_status(replay_accesses(alloc, job, probes, console, report)),
        Job::States(job) => states_status(replay_states(alloc, job, probes, console, report)),
        Job::Roll(job) => roll_status(roll(alloc, job, probes, console, report)),
        Job::Save(job) => replay_status(replay_saved(alloc, job, probes, console, report)),
        Job::Resume(job) => replay_status(replay_resumed(alloc, job, probes, console, report)),
        Job::Run(job) => run_status(run(rt, alloc, job, probes, console, report, gate)),
        Job::CountedByThreads(job) => {
            run_status(run_counted_by_threads(rt, alloc, job, probes, console, report, gate))
        }
        Job::Monitor(job) => run_status(monitor(rt, alloc, job, probes, console, report)),
        Job::OrderedRun(job, order) => {
            run_status(run_in_order(alloc, job, order, probes, console, report))
        }
        Job::CountedRun(job, order) => {
            run_status(run_counted(alloc, job, order, probes, console, report))
        }
        Job::Seeds(job) => seeds_status(run_seeds(rt, alloc, job, console, report)),
        Job::Check(job) => check(rt, alloc, &job, report, gate),
        Job::Judge(list) => judge(alloc, &list, report),
        Job::Text(text) => match put_console(console, text.bytes()) {
            Ok(()) => Status::Done,
            Err(_) => Status::SinkFault,
        },
    }
}

fn answer<T: Threads + Wait + Sync, S: Store, C: Sink + Send, R: Sink, G: Gate + Sync>(
    rt: &T,
    alloc: Global,
    words: &[String],
    store: &mut S,
    console: &mut C,
    report: &mut R,
    probes: &mut ProbeSet,
    gate: &G,
) -> Status
    ensures comes { result ≢ Status.Memory → Comes (Fetches S.files S.sure S.faults S.gave)
        (meters_in first tally step probes.old.probes.items) (ask_of (map string_bytes words.now)) result store.old store.new
        (C.faults console.old) (C.faults console.new)
        (ends (C.written console.old) (R.written report.old)) (ends (C.written console.new) (R.written report.new)) }
    ensures nothing { has_written result ≡ false → ((console.new ≡ console.old) × (report.new ≡ report.old))
        ⊎ ((result ≡ Status.Memory) × EndsInTheMiddle (Fetches S.files S.sure S.faults S.gave)
        (meters_in first tally step probes.old.probes.items) (ask_of (map string_bytes words.now)) store.old store.new
        (ends (C.written console.old) (R.written report.old)) (ends (C.written console.new) (R.written report.new))) }
    ensures sink_fault { result ≡ Status.SinkFault
        → Rose (C.faults console.old) (C.faults console.new) ⊎ Rose (R.faults report.old) (R.faults report.new) }
    ensures no_command { AsksNothing (ask_of (map string_bytes words.now)) →
        ((result ≡ Status.Usage) ⊎ (result ≡ Status.Memory)) × (store.new ≡ store.old) }
    ensures files { S.files store.new ≡ S.files store.old }
    ensures stays_sure { S.sure store.old → S.sure store.new }
{
    let request = match read_words(alloc, words) {
        Ok(request) => request,
        Err(WordsFault::Usage) => return Status::Usage,
        Err(WordsFault::Memory) => return Status::Memory,
    };
    if let Request::Demo(size) = &request {
        let ended = demo(alloc, *size, console, report, probes);
        drop(request);
        return ended;
    }
    let loaded = load(alloc, store, &request);
    drop(request);
    match loaded {
        Ok(job) => perform(rt, alloc, job, console, report, probes, gate),
        Err(status) => status,
    }
}

/// Does all that the program does: reads the words, fetches the files that they name from the store, and puts what the
/// command writes to the console and the report. The first word is the program's name. In a replay and in a run each probe is
/// told each event that is applied, and each is dropped once, however the call ends. A trace is judged in threads, one for each
/// core, and each passes the gate once. A run has a thread for each node, which passes the gate before each turn, and one that
/// writes to the console beside them. A run in an order has all its turns on the caller's thread, and so has one that is watched,
/// with one thread for the watcher.
pub fn safetynet<T: Threads + Wait + Sync, S: Store, C: Sink + Send, R: Sink, G: Gate + Sync>(
    rt: &T,
    alloc: Global,
    words: &[String],
    store: &mut S,
    console: &mut C,
    report: &mut R,
    probes: Vec<Box<dyn Probe + Send>>,
    gate: &G,
) -> Status
    // Over any store "the file" is what a fetch of its name gave.
    ensures comes { result ≢ Status.Memory → Comes (Fetches S.files S.sure S.faults S.gave)
        (meters_of first tally step probes.items) (ask_of (map string_bytes words.now)) result store.old store.new
        (C.faults console.old) (C.faults console.new)
        (ends (C.written console.old) (R.written report.old)) (ends (C.written console.new) (R.written report.new)) }

    // Over told files the words and the files say what is done.
    ensures told { IfSome (S.files store.old) (λ held. result ≢ Status.Memory → result ≢ Status.StoreFault
        → Follows (meters_of first tally step probes.items) (due_of held (ask_of (map string_bytes words.now))) result
        (C.faults console.old) (C.faults console.new)
        (ends (C.written console.old) (R.written report.old)) (ends (C.written console.new) (R.written report.new))) }

    // Over a sure store the words and the files that it holds say what is done.
    ensures sure { S.sure store.old → IfSome (S.files store.old) (λ held. result ≢ Status.Memory
        → Follows (meters_of first tally step probes.items) (due_of held (ask_of (map string_bytes words.now))) result
        (C.faults console.old) (C.faults console.new)
        (ends (C.written console.old) (R.written report.old)) (ends (C.written console.new) (R.written report.new))) }

    // Where all is good and no sink's count rose, the job is done, or memory was lacking.
    ensures complete { S.sure store.old → IfSome (S.files store.old) (λ held. IfOk (due_of held (ask_of (map string_bytes words.now)))
        (λ job. ¬ (Rose (C.faults console.old) (C.faults console.new) ⊎ Rose (R.faults report.old) (R.faults report.new))
        → EndsIn job result ⊎ (result ≡ Status.Memory))) }

    // Each answer has its cause.
    ensures usage { result ≡ Status.Usage → AsksNothing (ask_of (map string_bytes words.now)) }
    ensures no_command { AsksNothing (ask_of (map string_bytes words.now)) →
        ((result ≡ Status.Usage) ⊎ (result ≡ Status.Memory)) × (store.new ≡ store.old) }
    ensures store_fault { result ≡ Status.StoreFault → Rose (S.faults store.old) (S.faults store.new) }
    ensures sink_fault { result ≡ Status.SinkFault
        → Rose (C.faults console.old) (C.faults console.new) ⊎ Rose (R.faults report.old) (R.faults report.new) }
    ensures nothing { has_written result ≡ false → ((console.new ≡ console.old) × (report.new ≡ report.old))
        ⊎ ((result ≡ Status.Memory) × EndsInTheMiddle (Fetches S.files S.sure S.faults S.gave)
        (meters_of first tally step probes.items) (ask_of (map string_bytes words.now)) store.old store.new
        (ends (C.written console.old) (R.written report.old)) (ends (C.written console.new) (R.written report.new))) }

    // Whatever the answer is, the store's files are as before, and it is as sure.
    ensures files { S.files store.new ≡ S.files store.old }
    ensures stays_sure { S.sure store.old → S.sure store.new }
{
    let mut probes = ProbeSet::new(probes);
    answer(rt, alloc, words, store, console, report, &mut probes, gate)
}
