//! How a run ends.
ghost use Rattle.std.specs.Prelude.{◌≡◌, ◌<◌, ◌≤◌, Option};
ghost use Rattle.std.specs.Option.{option_or};
ghost use Rattle.script_replay.specs.Machine.{flat_of};
ghost use Rattle.node_run.specs.Endings.{trap_at, first_trap, ending_by};

use node_threads::Finish;
use rv_core::{Cause, End};
use script_replay::sn_machine::Machine;
use sn_base::NodeId;

/// How a run ends whose console took all that is released.
#[derive(Clone, Copy, PartialEq, Eq, Debug)]
pub enum Ending {
    /// At the recovery point all cores have exited.
    Exited,
    /// There all cores have ended, and this is the least that trapped, and why.
    Trapped(NodeId, Cause),
    /// A recovery found these two nodes cut off from each other.
    CutOff(NodeId, NodeId),
    /// The run has as many events as its budget.
    Spent,
}

fn trap_at(node: NodeId, end: &End) -> Option<(NodeId, Cause)>
    ensures { result ≡ trap_at node end.now }
{
    match end {
        End::Trapped(cause) => Some((node, *cause)),
        _ => None,
    }
}

fn or_trap(first: Option<(NodeId, Cause)>, then: Option<(NodeId, Cause)>) -> Option<(NodeId, Cause)>
    ensures { result ≡ option_or first then }
{
    match first {
        Some(trap) => Some(trap),
        None => then,
    }
}

// The least node whose core trapped.
fn first_trap(machine: &Machine) -> Option<(NodeId, Cause)>
    ensures { result ≡ first_trap machine.now.config.nodes (flat_of machine.now) }
{
    let view = machine.recovered();
    let mut trap = None;
    'nodes: for number in 0..machine.config().nodes {
        let node = NodeId::new(number).unwrap();
        trap = or_trap(trap, trap_at(node, &view.core(node).end));
    }
    trap
}

/// The end of a run that left this machine, by the cause for which no turn was had any more. None where it was stopped.
pub fn how_ended(machine: &Machine, finish: Finish) -> Option<Ending>
    ensures { result ≡ ending_by machine.now.config.nodes (flat_of machine.now) finish }
{
    match finish {
        Finish::Over => match first_trap(machine) {
            Some((node, cause)) => Some(Ending::Trapped(node, cause)),
            None => Some(Ending::Exited),
        },
        Finish::CutOff(a, b) => Some(Ending::CutOff(a, b)),
        Finish::Budget => Some(Ending::Spent),
        Finish::Stopped => None,
    }
}
