//! What is looked at of a machine, at a schedule's node and at block 0, in which the programs write.
ghost use Rattle.std.specs.Prelude.{◌<◌};

use sn_base::{BlockNo, Entries, NodeId};
use sn_machine::Machine;
use sn_model::Owner;

/// What is looked at. A look that is answered yes or no gives 1 or 0.
#[derive(Clone, Copy)]
pub enum Look {
    InFlight,
    Interval,
    Ready,
    X7,
    /// Of the core of this node x28, and whether it has a reservation.
    X28(u8),
    IsReserved(u8),
    Logged,
    HasLine,
    HasMiss,
    HasPut,
    CanEvict,
    /// Whether the home names this node as the block's owner, or itself.
    IsOwner(u8),
    IsAtHome,
    Sharers,
    /// Whether the home has a transaction open for this node.
    Serves(u8),
    /// From here on at the recovery point: whether this node is the block's owner, or its home.
    IsCutOwner(u8),
    IsCutAtHome,
    /// The word that the programs write, and the first of the program.
    CutWord,
    CutFirstWord,
}

const SHARED: u16 = 0;

/// The word x28 of this node's core, and whether it has a reservation.
fn seen_of_core(machine: &Machine, number: u8) -> (u32, bool) {
    let Some(node) = NodeId::new(number) else {
        return (0, false);
    };
    if node.number() >= machine.config().nodes {
        return (0, false);
    }
    let core = machine.core(node);
    (core.x[28], core.reservation.is_some())
}

fn is_node(owner: Owner, number: u8) -> bool {
    match owner {
        Owner::Cache(node) => node.number() == number,
        Owner::Home => false,
    }
}

fn serves(machine: &Machine, number: u8) -> bool {
    match machine.transaction(BlockNo::new(SHARED)) {
        Some(open) => open.requester.number() == number,
        None => false,
    }
}

/// What is seen of the cut at the recovery point.
fn seen_of_cut(machine: &Machine, look: Look) -> u64 {
    let view = machine.recovered();
    let owner = view.owner(BlockNo::new(SHARED));
    match look {
        Look::IsCutOwner(number) => u64::from(is_node(owner, number)),
        Look::IsCutAtHome => u64::from(matches!(owner, Owner::Home)),
        Look::CutWord => u64::from(view.word(0x8000_0030)),
        _ => u64::from(view.word(0x8000_0000)),
    }
}

fn seen_of_home(machine: &Machine, look: Look) -> u64 {
    let block = BlockNo::new(SHARED);
    match look {
        Look::IsOwner(number) => u64::from(is_node(machine.owner(block), number)),
        Look::IsAtHome => u64::from(matches!(machine.owner(block), Owner::Home)),
        Look::Sharers => u64::from(machine.sharers(block).count()),
        Look::Serves(number) => u64::from(serves(machine, number)),
        _ => seen_of_cut(machine, look),
    }
}

/// What is seen of a machine by a look.
pub fn seen(machine: &Machine, node: NodeId, look: Look) -> u64
    requires { node < machine.now.config.nodes }
{
    match look {
        Look::InFlight => machine.net().count() as u64,
        Look::Interval => u64::from(machine.now(node)),
        Look::Ready => u64::from(machine.ready(node)),
        Look::X7 => u64::from(machine.core(node).x[7]),
        Look::X28(number) => u64::from(seen_of_core(machine, number).0),
        Look::IsReserved(number) => u64::from(seen_of_core(machine, number).1),
        Look::Logged => machine.log(node).count() as u64,
        Look::HasLine => u64::from(machine.line(node, BlockNo::new(SHARED)).is_some()),
        Look::HasMiss => u64::from(machine.miss(node).is_some()),
        Look::HasPut => u64::from(machine.put(node).is_some()),
        Look::CanEvict => u64::from(machine.least_line(node).is_some()),
        _ => seen_of_home(machine, look),
    }
}
