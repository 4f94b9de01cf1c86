//! What is looked at of a machine, at its node 0 and at its block 64, which the programs share.
ghost use Rattle.std.specs.Prelude.{◌<◌};

use sn_base::{BlockNo, Entries, NodeId, SwitchId, Width};
use sn_machine::{Machine, Owner};

/// What is looked at. A look that is answered yes or no gives 1 or 0.
#[derive(Clone, Copy)]
pub enum Look {
    Nodes,
    LogRoom,
    Entry,
    /// For how many events there is memory.
    Room,
    InFlight,
    /// How many messages the last event sent.
    Sent,
    Pending,
    /// How many bytes wait for their checkpoint.
    Held,
    /// The checkpoint that the last node reported last.
    Reported,
    /// The first word of block 0 as its home has it; 0 where a cache owns it.
    HomeWord,
    /// Whether the last instruction that waits is a store-conditional that was done.
    IsLastDone,
    IsOver,
    Interval,
    /// The recovery point that the node knows.
    Known,
    Ready,
    Pc,
    X7,
    Logged,
    HasLine,
    HasMiss,
    HasPut,
    CanEvict,
    /// Whether both switches of the node are dead.
    IsCutOff,
    /// Whether the home names this node as the block's owner.
    IsOwner(u8),
    Sharers,
    /// Whether the home has a transaction open on the block.
    IsServing,
    /// From here on at the recovery point: whether this node is the block's owner, or its home.
    IsCutOwner(u8),
    IsCutAtHome,
    /// The word that the programs count in, and the first of the program.
    CutWord,
    CutFirstWord,
    CutGiven,
    CutTaken,
}

const SHARED: u16 = 64;

/// Whether the last instruction that waits is a store-conditional that was done.
fn is_last_done(machine: &Machine) -> bool {
    match machine.pending().last() {
        Some(waiting) => waiting.entry.sc_done,
        None => false,
    }
}

fn is_cut_off(machine: &Machine, node: NodeId) -> bool
    requires { node < machine.now.config.nodes }
{
    machine.is_dead(SwitchId::a(node)) && machine.is_dead(SwitchId::b(node))
}

fn is_node(owner: Owner, number: u8) -> bool {
    match owner {
        Owner::Cache(node) => node.number() == number,
        Owner::Home => false,
    }
}

/// The first word of block 0 as its home has it.
fn home_word(machine: &Machine) -> u64 {
    let block = BlockNo::new(0);
    match machine.owner(block) {
        Owner::Home => u64::from(machine.home_content(block).load(0, Width::Word)),
        Owner::Cache(_) => 0,
    }
}

/// The checkpoint that the last node reported last.
fn last_reported(machine: &Machine) -> u64 {
    match machine.reported().last() {
        Some(checkpoint) => u64::from(*checkpoint),
        None => 0,
    }
}

/// What is seen of the cut at the recovery point.
fn seen_of_cut(machine: &Machine, node: NodeId, look: Look) -> u64
    requires { node < machine.now.config.nodes }
{
    let view = machine.recovered();
    let owner = view.owner(BlockNo::new(SHARED));
    match look {
        Look::IsCutOwner(number) => u64::from(is_node(owner, number)),
        Look::IsCutAtHome => u64::from(matches!(owner, Owner::Home)),
        Look::CutWord => u64::from(view.word(0x8000_1000)),
        Look::CutFirstWord => u64::from(view.word(0x8000_0000)),
        Look::CutGiven => view.given(node).len() as u64,
        _ => u64::from(view.taken(node)),
    }
}

fn seen_of_home(machine: &Machine, node: NodeId, look: Look) -> u64
    requires { node < machine.now.config.nodes }
{
    let block = BlockNo::new(SHARED);
    match look {
        Look::IsOwner(number) => u64::from(is_node(machine.owner(block), number)),
        Look::Sharers => u64::from(machine.sharers(block).count()),
        Look::IsServing => u64::from(machine.transaction(block).is_some()),
        _ => seen_of_cut(machine, node, look),
    }
}

fn seen_of_node(machine: &Machine, node: NodeId, look: Look) -> u64
    requires { node < machine.now.config.nodes }
{
    match look {
        Look::Interval => u64::from(machine.now(node)),
        Look::Known => u64::from(machine.known(node)),
        Look::Ready => u64::from(machine.ready(node)),
        Look::Pc => u64::from(machine.core(node).pc),
        Look::X7 => u64::from(machine.core(node).x[7]),
        Look::Logged => machine.log(node).count() as u64,
        Look::HasLine => u64::from(machine.line(node, BlockNo::new(SHARED)).is_some()),
        Look::HasMiss => u64::from(machine.miss(node).is_some()),
        Look::HasPut => u64::from(machine.put(node).is_some()),
        Look::CanEvict => u64::from(machine.least_line(node).is_some()),
        Look::IsCutOff => u64::from(is_cut_off(machine, node)),
        _ => seen_of_home(machine, node, look),
    }
}

/// What is seen of a machine by a look.
pub fn seen(machine: &Machine, node: NodeId, look: Look) -> u64
    requires { node < machine.now.config.nodes }
{
    match look {
        Look::Nodes => u64::from(machine.config().nodes),
        Look::LogRoom => u64::from(machine.config().log),
        Look::Entry => u64::from(machine.image().entry()),
        Look::Room => u64::from(machine.spare()),
        Look::InFlight => machine.net().count() as u64,
        Look::Sent => machine.sent().len() as u64,
        Look::Pending => machine.pending().len() as u64,
        Look::Held => machine.held().len() as u64,
        Look::Reported => last_reported(machine),
        Look::HomeWord => home_word(machine),
        Look::IsLastDone => u64::from(is_last_done(machine)),
        Look::IsOver => u64::from(machine.over()),
        _ => seen_of_node(machine, node, look),
    }
}
