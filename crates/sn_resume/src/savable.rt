//! Whether a recovery point can be saved.
ghost use Rattle.std.specs.Prelude.{◌≡◌, ◌≤◌, ◌↔◌, IsTrue, nat_le, length};
ghost use Rattle.sn_saved.specs.Saved.{most_saved, given_from};
ghost use Rattle.sn_resume.specs.Saving.{IsSavable};

use sn_base::NodeId;
use sn_machine::Machine;

/// The most records, and the most bytes given.
const MOST_SAVED: usize = 1_000_000;

/// Whether at most a million bytes were given.
fn has_few_bytes(machine: &Machine) -> bool
    requires { length machine.now.state.processors ≡ machine.now.config.nodes }
    ensures { result ≡ nat_le (length (given_from 0 machine.now.state.processors)) most_saved }
{
    let mut left = MOST_SAVED;
    'nodes: for number in 0..machine.config().nodes {
        let count = machine.recovered().given(NodeId::numbered(number)).len();
        if left < count {
            return false;
        }
        left -= count;
    }
    true
}

/// Whether the recovery point of a machine has at most a million committed records, and as many bytes given.
pub fn may_save(machine: &Machine) -> bool
    ensures { IsTrue result ↔ IsSavable machine.now.state }
{
    let view = machine.recovered();
    view.committed().len() <= MOST_SAVED && has_few_bytes(machine)
}
