//! Control messages in flight, in order of their numbers.
ghost use Rattle.std.specs.Prelude.{◌≡◌, ◌+◌, ◌<◌, ◌≤◌, ◌^◌, [], vec_capacity, length, IfOk, IfNone, OnSome};
ghost use Rattle.rolling_recovery.specs.Messages.{message_in, without, messages_with, is_full};

use sn_base::{Memory, MsgId, NodeId};
use std::alloc::Global;
use std::marker::Model;

/// A control message: to a node, that it go back, or from one, that it is done.
#[derive(Clone, Copy, PartialEq, Eq, Debug)]
pub enum ControlMessage {
    Order(NodeId),
    Done(NodeId),
}

/// A control message in flight, with its number.
#[derive(Clone, Copy, PartialEq, Eq, Debug)]
pub struct Flight {
    pub id: MsgId,
    pub message: ControlMessage,
}

// The most control messages that may be in flight.
const MOST_MESSAGES: usize = 64;

/// The messages in flight and the next number. There is room for 64 from the start.
#[derive(Drop)]
pub struct Messages {
    flights: Vec<Flight>,
    next: MsgId,
}

impl Model for Messages {
    ghost use Rattle.std.specs.Prelude.{◌≤◌, vec_len, vec_capacity};
    ghost use Rattle.rolling_recovery.specs.Messages.{MessagesData};

    ghost Value = { MessagesData };

    ghost view = { λ m. record { flights = m.flights.items; next = m.next } };

    ghost invariant = { λ m. (vec_len m.flights ≤ 64) × (64 ≤ vec_capacity m.flights) };
}

/// Drops the message of a number.
fn drop_number(flights: &mut Vec<Flight>, id: MsgId)
    ensures others { flights.new.items ≡ without flights.old.items id }
    ensures room { vec_capacity flights.old ≤ vec_capacity flights.new }
{
    flights.retain(|flight| flight.id != id);
}

impl Messages {
    pub fn new(alloc: Global) -> Result<Messages, Memory>
        ensures { IfOk result (λ m. m ≡ record { flights = []; next = 1 }) }
    {
        let flights = Vec::with_capacity(alloc, MOST_MESSAGES)?;
        Ok(Messages { flights, next: 1 })
    }

    pub fn is_full(&self) -> bool
        ensures full { result ≡ is_full self.now }
        ensures most { length self.now.flights ≤ 64 }
    {
        self.flights.len() >= MOST_MESSAGES
    }

    /// The number that the next message gets.
    pub fn next(&self) -> MsgId
        ensures { result ≡ self.now.next }
    {
        self.next
    }

    /// The message of a number.
    pub fn get(&self, id: MsgId) -> Option<ControlMessage>
        ensures { result ≡ message_in self.now.flights id }
    {
        self.flights
            .iter()
            .find(|flight| flight.id == id)
            .map(|flight| flight.message)
    }

    /// Takes the message of a number out, which gives its place to another.
    pub fn take(&mut self, id: MsgId) -> Option<ControlMessage>
        ensures taken { result ≡ message_in self.old.flights id }
        ensures some { OnSome result (self.new ≡ record self.old { flights = without self.old.flights id }) }
        ensures none { IfNone result (self.new ≡ self.old) }
        ensures room { OnSome result (length self.new.flights < 64) }
    {
        let message = self.get(id)?;
        drop_number(&mut self.flights, id);
        Some(message)
    }

    /// Sends a message under the next number.
    pub fn send(&mut self, message: ControlMessage) -> MsgId
        requires room { length self.old.flights < 64 }
        requires numbers { self.old.next ≤ 2 ^ 63 }
        ensures number { result ≡ self.old.next }
        ensures sent { self.new ≡ messages_with self.old message }
    {
        let id = self.next;
        self.flights.push(Flight { id, message }).unwrap();
        self.next += 1;
        id
    }
}
