//! How many blocks each node's cache owns, from event to event. A delivery may change it by two lines, a recovery by what the logs keep,
//! and no other event changes it; so no event looks at all blocks.
ghost use Rattle.std.specs.Prelude.{◌≡◌, ◌<◌, ◌≤◌, ◌&&◌, true, false, length, slice_index, Some, is_some, IfSome};
ghost use Rattle.sn_model.specs.Caches.{block_count};
ghost use Rattle.sn_model.specs.MachineEvents.{is_recovered};
ghost use Rattle.sn_model.specs.Net.{flight_of};
ghost use Rattle.sn_model.specs.RecoveryPoint.{IsCut};
ghost use Rattle.sn_machine.specs.Machine.{flat_of};
ghost use Rattle.run_statistics.specs.Numbers.{with_greater, with_greatest_below};
ghost use Rattle.run_statistics.specs.Owned.{owned_blocks, owned_at_point, lines_at, lines_of_flight, touched_lines, owned_among, AreThere, with_lines, AreOwned};
ghost use Rattle.run_statistics.specs.Owned.{reach_of, ReachesNodes, is_recovery};
ghost use Rattle.run_statistics.specs.Covered.{CoversOthers};

use crate::numbers::Numbers;
use crate::reach::{Reach, reach_of};
use crate::undone::{owned_at_point, owns};
use sn_base::{Answer, BlockNo, Event, MsgId, NodeId};
use sn_machine::Machine;
use sn_msg::Message;

/// Lines of a node's cache, by which a delivery may change what the cache owns: that of the message's block, and that of the block on
/// which the node's miss is open, which may complete. They may be the same line.
#[derive(Clone, Copy)]
pub struct TouchedLines {
    pub node: NodeId,
    pub block: BlockNo,
    pub missed: BlockNo,
}

/// What an event may change of what the caches own: the lines that it may touch, and how many of them own their blocks before it; how many
/// blocks each cache owned at the recovery point, where the event is a recovery; and how far it reaches.
#[derive(Drop)]
pub struct OwnedBefore {
    pub lines: Option<TouchedLines>,
    pub count: u64,
    pub at_point: Option<Numbers>,
    pub reach: Reach,
}

/// How many of a node's lines own their blocks.
fn owned_in(machine: &Machine, lines: &TouchedLines) -> u64
    requires { lines.now.node < machine.now.config.nodes }
    ensures { result ≡ owned_among machine.now.state.fabric (Some lines.now) }
{
    let first = u64::from(owns(machine, lines.node, lines.block));
    if lines.missed == lines.block {
        return first;
    }
    first + u64::from(owns(machine, lines.node, lines.missed))
}

fn owned_among(machine: &Machine, lines: &Option<TouchedLines>) -> u64
    requires { AreThere machine.now.config.nodes lines.now }
    ensures { result ≡ owned_among machine.now.state.fabric lines.now }
{
    match lines {
        Some(lines) => owned_in(machine, lines),
        None => 0,
    }
}

/// By a message that is delivered.
fn lines_of_message(machine: &Machine, message: &Message) -> TouchedLines
    requires { message.now.to < machine.now.config.nodes }
    ensures lines { result ≡ lines_at machine.now.state.fabric message.now }
    ensures there { AreThere machine.now.config.nodes (Some result) }
{
    let block = message.block;
    // For the prover alone: these are blocks of memory.
    let _block = block.number();
    let missed = match machine.miss(message.to) {
        Some(miss) => miss.block,
        None => block,
    };
    let _missed = missed.number();
    TouchedLines {
        node: message.to,
        block,
        missed,
    }
}

/// By a delivery.
fn lines_of_delivery(machine: &Machine, id: MsgId) -> Option<TouchedLines>
    ensures lines { result ≡ lines_of_flight machine.now.state.fabric (flight_of machine.now.state.fabric.net.flights id) }
    ensures there { AreThere machine.now.config.nodes result }
{
    let net = machine.net();
    // For the prover alone: each message is to a node of the network.
    let _count = net.count();
    match net.look(id) {
        Ok(message) => Some(lines_of_message(machine, message)),
        Err(_) => None,
    }
}

fn touched_lines(machine: &Machine, event: &Event) -> Option<TouchedLines>
    ensures lines { result ≡ touched_lines machine.now.state.fabric event.now }
    ensures there { AreThere machine.now.config.nodes result }
{
    match event {
        Event::Deliver(id) => lines_of_delivery(machine, *id),
        _ => None,
    }
}

/// That the machine has its nodes, which are few, and its homes, and that its recovery point is a cut. Nothing is done.
fn is_whole(machine: &Machine)
    ensures nodes { length machine.now.state.fabric.nodes ≡ machine.now.config.nodes }
    ensures few { machine.now.config.nodes ≤ 16 }
    ensures homes { length machine.now.state.fabric.homes ≡ block_count }
    ensures cut { IsCut machine.now.state machine.now.state.fabric.point (flat_of machine.now) }
{
    let view = machine.recovered();
    view.is_cut();
}

fn is_recovered(answer: &Answer) -> bool
    ensures { result ≡ is_recovered answer.now }
{
    matches!(answer, Answer::Recovered(_))
}

fn at_point(machine: &Machine, owned: &Numbers, event: &Event) -> Option<Numbers>
    requires { AreOwned machine.now.config.nodes machine.now.state.fabric owned.now }
    ensures some { IfSome result (λ numbers. numbers ≡ owned_at_point machine.now.config.nodes machine.now.state.fabric) }
    ensures recovery { is_some result ≡ is_recovery event.now }
{
    match event {
        Event::Recover => Some(owned_at_point(machine, owned)),
        _ => None,
    }
}

impl OwnedBefore {
    /// Before this event, where each node's cache owns so many blocks.
    pub fn of(machine: &Machine, owned: &Numbers, event: &Event) -> OwnedBefore
        requires { AreOwned machine.now.config.nodes machine.now.state.fabric owned.now }
        ensures lines { result.lines ≡ touched_lines machine.now.state.fabric event.now }
        ensures count { result.count ≡ owned_among machine.now.state.fabric result.lines }
        ensures there { AreThere machine.now.config.nodes result.lines }
        ensures point { IfSome result.at_point (λ numbers. numbers ≡ owned_at_point machine.now.config.nodes machine.now.state.fabric) }
        ensures recovery { is_some result.at_point ≡ is_recovery event.now }
        ensures reach { result.reach ≡ reach_of machine.now.state.fabric event.now }
        ensures nodes { length machine.now.state.fabric.nodes ≡ machine.now.config.nodes }
        ensures few { machine.now.config.nodes ≤ 16 }
        ensures homes { length machine.now.state.fabric.homes ≡ block_count }
        ensures cut { IsCut machine.now.state machine.now.state.fabric.point (flat_of machine.now) }
    {
        is_whole(machine);
        let lines = touched_lines(machine, event);
        let count = owned_among(machine, &lines);
        let reach = reach_of(event, &lines);
        let at_point = at_point(machine, owned, event);
        OwnedBefore {
            lines,
            count,
            at_point,
            reach,
        }
    }

    // By the lines that were touched.
    fn move_on(&self, owned: &mut Numbers, machine: &Machine)
        requires { AreThere machine.now.config.nodes self.now.lines }
        ensures { owned.new ≡ with_lines owned.old self.now.lines self.now.count (owned_among machine.now.state.fabric self.now.lines) }
    {
        if let Some(lines) = &self.lines {
            let count = owned_in(machine, lines);
            owned.change(usize::from(lines.node.number()), count, self.count);
        }
    }

    /// After the event, which had this answer and left this machine: how many blocks each node's cache owns.
    pub fn follow(&self, owned: &mut Numbers, answer: &Answer, machine: &Machine)
        requires { AreThere machine.now.config.nodes self.now.lines }
        ensures moved { (is_some self.now.at_point && is_recovered answer.now) ≡ false → owned.new
            ≡ with_lines owned.old self.now.lines self.now.count (owned_among machine.now.state.fabric self.now.lines) }
        ensures back { (is_some self.now.at_point && is_recovered answer.now) ≡ true → Some owned.new ≡ self.now.at_point }
    {
        if let Some(numbers) = &self.at_point {
            if is_recovered(answer) {
                owned.set_to(numbers);
                return;
            }
        }
        self.move_on(owned, machine);
    }
}

fn raise_one(most: &mut Numbers, owned: &Numbers, node: NodeId)
    ensures { most.new ≡ with_greater most.old node (slice_index owned.now node) }
{
    let place = usize::from(node.number());
    most.raise(place, owned.at(place));
}

fn raise_all(most: &mut Numbers, owned: &Numbers, machine: &Machine)
    requires { AreOwned machine.now.config.nodes machine.now.state.fabric owned.now }
    ensures { most.new ≡ with_greatest_below (owned_blocks machine.now.state.fabric) machine.now.config.nodes most.old }
{
    'nodes: for number in 0..machine.config().nodes {
        raise_one(most, owned, NodeId::numbered(number));
    }
}

/// The most that each node's cache owned, once it owns so many, after an event that reached so far.
pub fn raise_to_owned(most: &mut Numbers, owned: &Numbers, reach: &Reach, machine: &Machine)
    requires owned { AreOwned machine.now.config.nodes machine.now.state.fabric owned.now }
    requires reach { ReachesNodes machine.now.config.nodes reach.now }
    requires covered { CoversOthers (owned_blocks machine.now.state.fabric) machine.now.config.nodes reach.now most.old }
    ensures { most.new ≡ with_greatest_below (owned_blocks machine.now.state.fabric) machine.now.config.nodes most.old }
{
    match reach {
        Reach::Nobody => {}
        Reach::One(node) => raise_one(most, owned, *node),
        Reach::Everybody => raise_all(most, owned, machine),
    }
}
