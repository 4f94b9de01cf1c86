//! The snapshot of a machine's recovery point.
ghost use Rattle.std.specs.Prelude.{◌≡◌, ℕ, ◌^◌, ◌<◌, ◌≤◌, take, length};
ghost use Rattle.sn_machine.specs.Machine.{flat_of};
ghost use Rattle.sn_monitor.specs.Cut.{bare_cores, snap_now};
ghost use Rattle.sn_monitor.specs.Goes.{IsWatchable};

use rv_core::CoreState;
use sn_base::NodeId;
use sn_machine::{Machine, View};
use snap_board::Snap;

// The nodes' cores come first; what stands after them stands for nothing.
fn cores_of(view: &View<'_>, nodes: u8) -> [CoreState; 16]
    requires few { nodes ≤ 16 }
    requires there { nodes ≡ view.now.config.nodes }
    ensures { take nodes result ≡ bare_cores nodes (flat_of view.now) }
{
    let mut cores = [CoreState::start(NodeId::numbered(0), 0); 16];
    'nodes: for number in 0..nodes {
        cores[usize::from(number)] = *view.core(NodeId::numbered(number));
    }
    cores
}

/// What is seen of the cut at the recovery point.
pub(crate) fn snap_of(machine: &Machine, watch: u32) -> Snap
    requires watched { IsWatchable watch }
    requires few { length machine.now.state.committed < 2 ^ 32 }
    ensures { result ≡ snap_now machine.now watch }
{
    let view = machine.recovered();
    let nodes = machine.config().nodes;
    let cores = cores_of(&view, nodes);
    let committed = view.committed().len() as u32;
    Snap::new(view.point(), committed, &cores, nodes, view.word(watch))
}
