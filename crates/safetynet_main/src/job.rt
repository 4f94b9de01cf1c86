//! What is due once all files are read.
ghost use Rattle.std.specs.Prelude.{◌≡◌};
ghost use Rattle.safetynet_main.specs.Outcome.{verdict_status};

use access_texts::AccessList;
use call_files::rolled_replay::Roll;
use call_files::{Text, Trace};
use call_status::Status;
use monitor_run::Monitor;
use monitor_run::node_run::Run;
use resumed_replay::ResumedReplay;
use saved_replay::SavedReplay;
use script_replay::Replay;
use seed_runs::SeedRuns;
use shown_states::StatesReplay;
use sn_base::Image;
use turn_orders::Order;

/// A program, on how many nodes it runs, and the trace that is judged.
#[derive(Drop)]
pub struct Check {
    pub program: Image,
    pub nodes: u8,
    pub trace: Trace,
}

/// What a command does once its files are read.
#[derive(Drop)]
pub enum Job {
    /// Events are applied.
    Replay(Replay),
    /// Events are applied, and what was counted of the run is shown.
    Counted(Replay),
    /// Events are applied, and the accesses of the committed trace are shown.
    Accesses(Replay),
    /// Events are applied, and states are shown.
    States(StatesReplay),
    /// Events are applied, and then controls lead a recovery.
    Roll(Roll),
    /// Events are applied, and the recovery point is saved.
    Save(SavedReplay),
    /// Events are applied to a machine that goes on from a saved recovery point.
    Resume(ResumedReplay),
    /// Workers run a machine, each in a thread of its own.
    Run(Run),
    /// The same, and what was counted of the run is shown.
    CountedByThreads(Run),
    /// Workers have their turns of a run in an order, all on one thread.
    OrderedRun(Run, Order),
    /// The same, and what was counted of the run is shown.
    CountedRun(Run, Order),
    /// Runs in an order for each seed of a range.
    Seeds(SeedRuns),
    /// Workers run a machine in turn, and a watcher looks at it beside them.
    Monitor(Monitor),
    /// A trace is judged, and the verdict is put to the report.
    Check(Check),
    /// Accesses are judged by themselves, and the verdict is put to the report.
    Judge(AccessList),
    /// A text is put to the console, and nothing to the report.
    Text(Text),
}

/// What is found of a trace.
#[derive(Clone, Copy, PartialEq, Eq, Debug)]
pub enum Verdict {
    /// It is an execution of its program.
    Legal,
    /// Its record at this place, counted from 1, is the first that is no step of the flat machine after those
    /// before it.
    Refused(u64),
}

impl Verdict {
    /// How a call ends in which it is written.
    pub fn status(self) -> Status
        ensures { result ≡ verdict_status self }
    {
        match self {
            Verdict::Legal => Status::Done,
            Verdict::Refused(place) => Status::Refused(place),
        }
    }
}
