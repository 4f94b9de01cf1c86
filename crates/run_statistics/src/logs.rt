//! How full the logs were, and how many checkpoints were open.
ghost use Rattle.std.specs.Prelude.{◌≡◌, ◌<◌};
ghost use Rattle.run_statistics.specs.Numbers.{with_greater};
ghost use Rattle.run_statistics.specs.Logs.{no_logs, entries_of, checkpoints_of, logs_with};
ghost use Rattle.run_statistics.specs.Owned.{ReachesNodes};
ghost use Rattle.run_statistics.specs.Covered.{CoversOthers};

use crate::numbers::Numbers;
use crate::reach::Reach;
use sn_base::{Entries, NodeId};
use sn_machine::Machine;

/// Of each node: how many entries its log had at most, and how many checkpoints it had at most above the recovery point that it
/// knew.
#[derive(Drop)]
pub struct LogStatistics {
    pub most_entries: Numbers,
    pub most_checkpoints: Numbers,
}

impl LogStatistics {
    pub fn new() -> LogStatistics
        ensures { result ≡ no_logs }
    {
        LogStatistics {
            most_entries: Numbers::new(),
            most_checkpoints: Numbers::new(),
        }
    }

    fn add_node(&mut self, machine: &Machine, node: NodeId)
        requires { node < machine.now.config.nodes }
        ensures { self.new ≡ record {
          most_entries = with_greater self.old.most_entries node (entries_of machine.now.state.fabric node);
          most_checkpoints = with_greater self.old.most_checkpoints node (checkpoints_of machine.now.state.fabric node);
        } }
    {
        let place = usize::from(node.number());
        let entries = machine.log(node).count();
        let checkpoints = machine.now(node).saturating_sub(machine.known(node));
        self.most_entries.raise(place, entries as u64);
        self.most_checkpoints.raise(place, u64::from(checkpoints));
    }

    fn add_all(&mut self, machine: &Machine)
        ensures { self.new ≡ logs_with self.old machine.now.config.nodes machine.now.state.fabric }
    {
        'nodes: for number in 0..machine.config().nodes {
            self.add_node(machine, NodeId::numbered(number));
        }
    }

    /// After an event that reached so far and left this machine.
    pub fn add(&mut self, reach: &Reach, machine: &Machine)
        requires reach { ReachesNodes machine.now.config.nodes reach.now }
        requires entries { CoversOthers (entries_of machine.now.state.fabric) machine.now.config.nodes reach.now self.old.most_entries }
        requires checkpoints { CoversOthers (checkpoints_of machine.now.state.fabric) machine.now.config.nodes reach.now self.old.most_checkpoints }
        ensures { self.new ≡ logs_with self.old machine.now.config.nodes machine.now.state.fabric }
    {
        match reach {
            Reach::Nobody => {}
            Reach::One(node) => self.add_node(machine, *node),
            Reach::Everybody => self.add_all(machine),
        }
    }
}
