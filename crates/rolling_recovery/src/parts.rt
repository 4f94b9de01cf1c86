//! The nodes' parts of the cut at a machine's recovery point. Nothing is copied: a part is a look into the machine.
ghost use Rattle.std.specs.Prelude.{◌≡◌, ◌<◌, true, if◌then◌else◌, length, slice_set};
ghost use Rattle.sn_base.specs.Nodes.{has_node};
ghost use Rattle.rolling_recovery.specs.Parts.{keeper_at_cut, is_in_part, part_size};

use crate::answers::ControlDelivery;
use sn_base::{BLOCKS, BlockNo, NodeId};
use sn_machine::{Machine, Owner};

/// The node that a block belongs to at the cut.
pub fn keeper(machine: &Machine, block: BlockNo) -> NodeId
    ensures { result ≡ keeper_at_cut machine.now block }
{
    let cut = machine.recovered();
    cut.is_cut();
    match cut.owner(block) {
        Owner::Home => block.home(machine.config().nodes),
        Owner::Cache(node) => node,
    }
}

/// 1 for a block that is in the node's part, else 0.
fn weight(machine: &Machine, node: NodeId, number: u16) -> u32
    ensures { result ≡ (if is_in_part machine.now node number then 1 else 0) }
{
    u32::from(keeper(machine, BlockNo::new(number)) == node)
}

/// Of how many blocks a node's part is.
pub fn part_size(machine: &Machine, node: NodeId) -> u32
    ensures { result ≡ part_size machine.now node }
{
    let mut count = 0u32;
    'numbers: for number in 0..BLOCKS {
        count += weight(machine, node, number as u16);
    }
    count
}

/// A node gets an order: where it has no part it has one from then on.
pub fn obey(restored: &mut [bool; 16], machine: &Machine, node: NodeId) -> ControlDelivery
    requires here { node < length restored.old }
    ensures mark { restored.new ≡ slice_set restored.old node true }
    ensures told { result ≡ (if has_node restored.old node then ControlDelivery.Again else ControlDelivery.Restored (part_size machine.now node)) }
{
    let place = usize::from(node.number());
    let had = restored[place];
    restored[place] = true;
    if had {
        return ControlDelivery::Again;
    }
    ControlDelivery::Restored(part_size(machine, node))
}
