//! How a call ends whose job came to an end, or broke off.
ghost use Rattle.std.specs.Prelude.{◌≡◌, Err, IfOk, OnOk};
ghost use Rattle.safetynet_main.specs.Outcome.{ending_status};

use call_files::rolled_replay::RollFault;
use call_status::Status;
use monitor_run::node_run::{Ending, RunFault};
use script_replay::ReplayFault;
use seed_runs::SeedsFault;
use shown_states::StatesFault;

// The status of a call whose run came to this end, and in which all text is written.
fn ended_as(ending: Ending) -> Status
    ensures { result ≡ ending_status ending }
{
    match ending {
        Ending::Exited => Status::Done,
        Ending::Trapped(node, cause) => Status::Trapped(node, cause),
        Ending::CutOff(a, b) => Status::CutOff(a, b),
        Ending::Spent => Status::Budget,
    }
}

/// The status of a call whose run ended so.
pub fn run_status(ended: Result<Ending, RunFault>) -> Status
    ensures done { IfOk ended (λ ending. result ≡ ending_status ending) }
    ensures sink { ended ≡ Err RunFault.Sink → result ≡ Status.SinkFault }
    ensures memory { ended ≡ Err RunFault.Memory → result ≡ Status.Memory }
{
    match ended {
        Ok(ending) => ended_as(ending),
        Err(RunFault::Sink) => Status::SinkFault,
        Err(RunFault::Memory) => Status::Memory,
    }
}

/// The status of a call whose replay ended so.
pub fn replay_status(ended: Result<(), ReplayFault>) -> Status
    ensures done { OnOk ended (result ≡ Status.Done) }
    ensures sink { ended ≡ Err ReplayFault.Sink → result ≡ Status.SinkFault }
    ensures memory { ended ≡ Err ReplayFault.Memory → result ≡ Status.Memory }
{
    match ended {
        Ok(()) => Status::Done,
        Err(ReplayFault::Sink) => Status::SinkFault,
        Err(ReplayFault::Memory) => Status::Memory,
    }
}

/// The same of a replay that shows states.
pub fn states_status(ended: Result<(), StatesFault>) -> Status
    ensures done { OnOk ended (result ≡ Status.Done) }
    ensures sink { ended ≡ Err StatesFault.Sink → result ≡ Status.SinkFault }
    ensures memory { ended ≡ Err StatesFault.Memory → result ≡ Status.Memory }
{
    match ended {
        Ok(()) => Status::Done,
        Err(StatesFault::Sink) => Status::SinkFault,
        Err(StatesFault::Memory) => Status::Memory,
    }
}

/// The same of a replay with a recovery.
pub fn roll_status(ended: Result<(), RollFault>) -> Status
    ensures done { OnOk ended (result ≡ Status.Done) }
    ensures sink { ended ≡ Err RollFault.Sink → result ≡ Status.SinkFault }
    ensures memory { ended ≡ Err RollFault.Memory → result ≡ Status.Memory }
{
    match ended {
        Ok(()) => Status::Done,
        Err(RollFault::Sink) => Status::SinkFault,
        Err(RollFault::Memory) => Status::Memory,
    }
}

/// The same of runs for the seeds of a range.
pub fn seeds_status(ended: Result<(), SeedsFault>) -> Status
    ensures done { OnOk ended (result ≡ Status.Done) }
    ensures sink { ended ≡ Err SeedsFault.Sink → result ≡ Status.SinkFault }
    ensures memory { ended ≡ Err SeedsFault.Memory → result ≡ Status.Memory }
{
    match ended {
        Ok(()) => Status::Done,
        Err(SeedsFault::Sink) => Status::SinkFault,
        Err(SeedsFault::Memory) => Status::Memory,
    }
}
