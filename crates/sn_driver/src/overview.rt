//! What the lists of all nodes have in common, looked at once a turn.
ghost use Rattle.std.specs.Prelude.{◌≡◌, ◌≤◌};
ghost use Rattle.sn_driver.specs.Overview.{AreMarked, IsLatest, IsOverview};

use due_events::sn_machine::Machine;
use sn_base::{Interval, NodeId};

/// At which nodes a message in flight stands, and the latest interval of all nodes: what each node's list would look through
/// all messages and all nodes for. A turn asks several nodes where the first have nothing to do.
#[derive(Clone, Copy)]
pub struct Overview {
    /// Of each node, whether a message in flight stands in one of its switches.
    pub occupied: [bool; 16],
    pub latest: Interval,
}

impl Overview {
    pub fn of(machine: &Machine) -> Overview
        requires { 1 ≤ machine.now.config.nodes }
        ensures { IsOverview machine.now.state.fabric result }
    {
        Overview {
            occupied: occupied(machine),
            latest: latest(machine),
        }
    }
}

fn occupied(machine: &Machine) -> [bool; 16]
    ensures { AreMarked result machine.now.state.fabric.net.flights }
{
    let mut occupied = [false; 16];
    'places: for place in 0..machine.net().count() {
        let (_message, switch) = machine.net().message(place);
        occupied[usize::from(switch.number() / 2)] = true;
    }
    occupied
}

fn latest(machine: &Machine) -> Interval
    requires { 1 ≤ machine.now.config.nodes }
    ensures { IsLatest machine.now.state.fabric result }
{
    // The cut that it shows has as many cores as the machine has nodes.
    let _view = machine.recovered();
    let mut latest = machine.now(NodeId::numbered(0));
    'nodes: for number in 1..machine.config().nodes {
        let now = machine.now(NodeId::numbered(number));
        if latest < now {
            latest = now;
        }
    }
    latest
}
