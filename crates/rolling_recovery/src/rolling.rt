//! A recovery node by node.
ghost use Rattle.std.specs.Prelude.{◌≡◌, ℕ, ◌<◌, ◌≤◌, ◌^◌, ◌↔◌, true, not, nat_le, [], IfOk, IfErr, IsErr, List, option_copied, is_some, position, Some, None};
ghost use Rattle.sn_machine.specs.Machine.{IsApplied};
ghost use Rattle.rolling_recovery.specs.declared.controls.Control.{Control as Call};
ghost use Rattle.rolling_recovery.specs.Messages.{is_full};
ghost use Rattle.rolling_recovery.specs.Rolling.{rolling_start, rolling_after_order, rolling_after_repeat, repeat_answer, rolling_after_loss, rolling_after_delivery, deliver_answer, message_of};
ghost use Rattle.rolling_recovery.specs.Rolling.{has_part, core_in_part, block_in_part, first_not_noted, finish_fault};
ghost use Rattle.rolling_recovery.specs.Invariant.{HasCalls};
ghost use Rattle.rolling_recovery.specs.Recovered.{IsLedTo, IsMadeOfParts};

use crate::answers::{ControlDelivery, FinishFault, Full, RepeatFault};
use crate::messages::{ControlMessage, Messages};
use crate::parts::{keeper, obey};
use rv_core::CoreState;
use sn_base::{Answer, Block, BlockNo, Event, Memory, MsgId, NodeId, Undo};
use sn_machine::Machine;
use std::alloc::Global;
use std::marker::Model;

/// The room of a recovery, for the messages in flight. The nodes' parts need none: they are looks into the machine.
#[derive(Drop)]
pub struct Room {
    messages: Messages,
    ghost quiet: { messages ≡ record { flights = []; next = 1 } },
}

impl Room {
    pub fn new(alloc: Global) -> Result<Room, Memory> {
        let messages = Messages::new(alloc)?;
        Ok(Room { messages })
    }
}

/// A recovery node by node, which holds the machine. Contracts see the machine that was handed in, the control messages in
/// flight, the next number, who has a part and who is noted.
#[derive(Drop)]
pub struct Rolling {
    machine: Machine,
    messages: Messages,
    restored: [bool; 16],
    noted: [bool; 16],
}

impl Model for Rolling {
    ghost use Rattle.rolling_recovery.specs.Invariant.{IsRolling};
    ghost use Rattle.rolling_recovery.specs.Rolling.{RollingData};

    ghost Value = { RollingData };

    ghost view = { λ r. record {
      machine = r.machine;
      messages = r.messages;
      restored = r.restored;
      noted = r.noted;
    } };

    ghost invariant = { λ r. IsRolling (record {
      machine = r.machine;
      messages = r.messages;
      restored = r.restored;
      noted = r.noted;
    }) };
}

impl Rolling {
    /// Begins a recovery of the machine. No message is in flight, and no node has a part.
    pub fn start(room: Room, machine: Machine) -> Rolling
        requires { 1 ≤ machine.spare }
        ensures { result ≡ rolling_start machine }
    {
        let Room { messages } = room;
        machine.recovered().is_cut();
        Rolling {
            machine,
            messages,
            restored: [false; 16],
            noted: [false; 16],
        }
    }

    /// The machine that was handed in, which stays as it is.
    pub fn machine(&self) -> &Machine
        ensures { result.now ≡ self.now.machine }
    {
        &self.machine
    }

    /// Whether another message can have a number, of which there are 2^63.
    pub fn has_numbers(&self) -> bool
        ensures { result ≡ nat_le self.now.messages.next (2 ^ 63) }
    {
        self.messages.next() <= 1 << 63
    }

    /// Sends an order to a node, and says its number. Where 64 messages are in flight nothing is sent.
    pub fn order(&mut self, node: NodeId) -> Result<MsgId, Full>
        requires there { node < self.old.machine.config.nodes }
        requires numbers { self.old.messages.next ≤ 2 ^ 63 }
        ensures full { IsErr result ↔ (is_full self.old.messages ≡ true) }
        ensures number { IfOk result (λ id. id ≡ self.old.messages.next) }
        ensures after { self.new ≡ rolling_after_order self.old node }
    {
        if self.messages.is_full() {
            return Err(Full);
        }
        Ok(self.messages.send(ControlMessage::Order(node)))
    }

    /// Sends a copy of a message under the next number, and says that.
    pub fn repeat(&mut self, id: MsgId) -> Result<MsgId, RepeatFault>
        requires { self.old.messages.next ≤ 2 ^ 63 }
        ensures answer { result ≡ repeat_answer self.old (message_of self.old id) }
        ensures after { self.new ≡ rolling_after_repeat self.old id }
    {
        let Some(message) = self.messages.get(id) else {
            return Err(RepeatFault::NoMessage);
        };
        if self.messages.is_full() {
            return Err(RepeatFault::Full);
        }
        Ok(self.messages.send(message))
    }

    /// Loses a message. False where none in flight has this number.
    pub fn lose(&mut self, id: MsgId) -> bool
        ensures answer { result ≡ is_some (message_of self.old id) }
        ensures after { self.new ≡ rolling_after_loss self.old id }
    {
        self.messages.take(id).is_some()
    }

    /// Its receiver takes a message. What an order's node answers takes the order's place.
    pub fn deliver(&mut self, id: MsgId) -> ControlDelivery
        requires { self.old.messages.next ≤ 2 ^ 63 }
        ensures answer { result ≡ deliver_answer self.old (message_of self.old id) }
        ensures after { self.new ≡ rolling_after_delivery self.old id }
    {
        let Some(message) = self.messages.take(id) else {
            return ControlDelivery::NoMessage;
        };
        match message {
            ControlMessage::Order(node) => {
                let told = obey(&mut self.restored, &self.machine, node);
                self.messages.send(ControlMessage::Done(node));
                told
            }
            ControlMessage::Done(node) => {
                self.noted[usize::from(node.number())] = true;
                ControlDelivery::Noted
            }
        }
    }

    fn has_part(&self, node: NodeId) -> bool
        ensures mark { result ≡ has_part self.now node }
        ensures here { result ≡ true → node < self.now.machine.config.nodes }
    {
        self.restored[usize::from(node.number())]
    }

    /// The core of a node's part.
    pub fn part_core(&self, node: NodeId) -> Option<&CoreState>
        ensures { option_copied result ≡ core_in_part self.now node }
    {
        if self.has_part(node) {
            Some(self.machine.recovered().core(node))
        } else {
            None
        }
    }

    /// The content of a block in a node's part. None where the node has no part, or the block isn't in it.
    pub fn part_block(&self, node: NodeId, block: BlockNo) -> Option<&Block>
        ensures { option_copied result ≡ block_in_part self.now node block }
    {
        if self.has_part(node) && keeper(&self.machine, block) == node {
            Some(self.machine.recovered().block(block))
        } else {
            None
        }
    }

    /// The machine goes back to its recovery point, and is handed back with what that undid. Where a node isn't noted, or
    /// two nodes are cut off, the recovery is handed back as it was.
    pub fn finish(self) -> Result<(Machine, Undo), (Rolling, FinishFault)>
        ensures fault { IfErr result (λ e. (e.0 ≡ self) × (finish_fault self ≡ Some e.1)) }
        ensures ok { IfOk result (λ e. finish_fault self ≡ None) }
        ensures applied { IfOk result (λ e. IsApplied self.machine e.0 Event.Recover (Answer.Recovered e.1)) }
        ensures made { IfOk result (λ e. IsMadeOfParts self e.0.state) }
        ensures led { (calls : List Call) × HasCalls self calls × IsLedTo self calls }
    {
        self.is_led();
        match self.fault() {
            Some(fault) => Err((self, fault)),
            None => Ok(self.recover()),
        }
    }

    /// That calls have led here, and what holds then. Nothing is done.
    fn is_led(&self)
        ensures { (calls : List Call) × HasCalls self.now calls × IsLedTo self.now calls }
    {
        self.machine.recovered().is_cut();
    }

    /// What is in the way of a finish.
    fn fault(&self) -> Option<FinishFault>
        ensures { result ≡ finish_fault self.now }
    {
        if let Some(node) = self.unnoted() {
            return Some(FinishFault::NotDone(node));
        }
        match self.machine.foresee(Event::Recover) {
            Answer::CutOff(a, b) => Some(FinishFault::CutOff(a, b)),
            _ => None,
        }
    }

    /// The least node that isn't noted.
    fn unnoted(&self) -> Option<NodeId>
        ensures { result ≡ first_not_noted self.now }
    {
        let nodes = usize::from(self.machine.config().nodes);
        let place = first_unmarked(&self.noted[..nodes])?;
        Some(NodeId::numbered(place as u8))
    }

    /// The machine goes back, which nothing is in the way of.
    fn recover(self) -> (Machine, Undo)
        requires { finish_fault self ≡ None }
        ensures { IsApplied self.machine result.0 Event.Recover (Answer.Recovered result.1) }
    {
        let mut machine = self.machine;
        match machine.apply(Event::Recover) {
            Answer::Recovered(undo) => (machine, undo),
            _ => unreachable!(),
        }
    }
}

/// Where the first mark is missing.
fn first_unmarked(marks: &[bool]) -> Option<usize>
    ensures { result ≡ position not marks.now }
{
    marks.iter().position(|mark| !*mark)
}
