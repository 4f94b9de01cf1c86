//! All statistics of a run, and what one event adds.
ghost use Rattle.std.specs.Prelude.{◌≡◌, drop, length, OnOk};
ghost use Rattle.run_statistics.specs.Instructions.{waiting_by_node, waiting_after};
ghost use Rattle.run_statistics.specs.Owned.{AreOwned, ReachesNodes};
ghost use Rattle.run_statistics.specs.Covered.{AreCovered};
ghost use Rattle.run_statistics.specs.Statistics.{no_statistics, before_of, with_counts, with_lists, statistics_with};

use crate::bytes::ByteStatistics;
use crate::instructions::InstructionStatistics;
use crate::intervals::{IntervalStatistics, Moment};
use crate::logs::LogStatistics;
use crate::messages::MessageStatistics;
use crate::numbers::Numbers;
use crate::owned::raise_to_owned;
use crate::places::place_of_answer;
use crate::reach::Reach;
use crate::recoveries::RecoveryStatistics;
use sn_base::{Answer, Event, Memory};
use sn_machine::Machine;
use std::alloc::Global;

/// What a machine has before an event: how many records are committed, and how many wait; how many bytes are held, and how many
/// messages in flight.
#[derive(Clone, Copy)]
pub struct Before {
    pub committed: usize,
    pub waiting: u64,
    pub held: usize,
    pub flights: u64,
}

/// The statistics of a run so far: how many events there were, how often each answer came, how many blocks each node's cache owned at
/// most, and what was counted of messages, instructions, logs, intervals, bytes and recoveries.
#[derive(Drop)]
pub struct Statistics {
    pub events: u64,
    pub answers: Numbers,
    pub messages: MessageStatistics,
    pub instructions: InstructionStatistics,
    pub logs: LogStatistics,
    pub most_owned: Numbers,
    pub intervals: IntervalStatistics,
    pub bytes: ByteStatistics,
    pub recoveries: RecoveryStatistics,
}

// How many messages are in flight.
fn flights(machine: &Machine) -> u64
    ensures { result ≡ length machine.now.state.fabric.net.flights }
{
    machine.net().count() as u64
}

// Those behind the first so many.
fn since<T>(all: &[T], had: usize) -> &[T]
    ensures { result.now ≡ drop had all.now }
{
    if had < all.len() { &all[had..] } else { &[] }
}

impl Before {
    pub fn of(machine: &Machine) -> Before
        ensures { result ≡ before_of machine.now.state }
    {
        let view = machine.recovered();
        Before {
            committed: view.committed().len(),
            waiting: machine.pending().len() as u64,
            held: machine.held().len(),
            flights: flights(machine),
        }
    }
}

impl Statistics {
    pub fn new(alloc: Global) -> Statistics
        ensures { result ≡ no_statistics }
    {
        Statistics {
            events: 0,
            answers: Numbers::new(),
            messages: MessageStatistics::new(),
            instructions: InstructionStatistics::new(),
            logs: LogStatistics::new(),
            most_owned: Numbers::new(),
            intervals: IntervalStatistics::new(alloc),
            bytes: ByteStatistics::new(alloc),
            recoveries: RecoveryStatistics::new(alloc),
        }
    }

    // What takes no memory.
    fn add_counts(
        &mut self,
        before: &Before,
        event: &Event,
        answer: &Answer,
        owned: &Numbers,
        reach: &Reach,
        machine: &Machine,
    )
        requires waits { waiting_after self.old.instructions.waiting event.now answer.now machine.now.state.pending
            ≡ waiting_by_node machine.now.state.pending }
        requires owned { AreOwned machine.now.config.nodes machine.now.state.fabric owned.now }
        requires reach { ReachesNodes machine.now.config.nodes reach.now }
        requires covered { AreCovered self.old machine.now.config.nodes machine.now.state.fabric reach.now }
        ensures { self.new ≡ with_counts machine.now.config.nodes self.old before.now event.now
            (record { state = machine.now.state; answer = answer.now; sent = machine.now.sent }) }
    {
        let view = machine.recovered();
        self.events = self.events.saturating_add(1);
        self.answers.add(place_of_answer(answer), 1);
        self.messages
            .add(answer, machine.sent(), before.flights, flights(machine));
        self.instructions.add(
            event,
            answer,
            since(view.committed(), before.committed),
            machine.pending(),
        );
        self.logs.add(reach, machine);
        raise_to_owned(&mut self.most_owned, owned, reach, machine);
    }

    // What may take memory.
    fn add_lists(
        &mut self,
        before: &Before,
        event: &Event,
        answer: &Answer,
        machine: &Machine,
    ) -> Result<(), Memory>
        ensures { OnOk result (self.new ≡ with_lists machine.now.config.nodes self.old before.now event.now
            (record { state = machine.now.state; answer = answer.now; sent = machine.now.sent })) }
    {
        let number = self.events;
        let at = Moment {
            event: number,
            retired: self.answers.at(place_of_answer(&Answer::Retired)),
        };
        self.intervals.add(at, answer, machine)?;
        self.bytes
            .add(number, event, answer, since(machine.held(), before.held))?;
        self.recoveries
            .add(number, before.waiting, answer, machine.sent())
    }

    /// The machine's last event, before which it had so much, with its answer; how many blocks each node's cache owns now; and how far the
    /// event reached.
    pub fn add(
        &mut self,
        before: &Before,
        event: &Event,
        answer: &Answer,
        owned: &Numbers,
        reach: &Reach,
        machine: &Machine,
    ) -> Result<(), Memory>
        requires waits { waiting_after self.old.instructions.waiting event.now answer.now machine.now.state.pending
            ≡ waiting_by_node machine.now.state.pending }
        requires owned { AreOwned machine.now.config.nodes machine.now.state.fabric owned.now }
        requires reach { ReachesNodes machine.now.config.nodes reach.now }
        requires covered { AreCovered self.old machine.now.config.nodes machine.now.state.fabric reach.now }
        ensures { OnOk result (self.new ≡ statistics_with machine.now.config.nodes self.old before.now event.now
            (record { state = machine.now.state; answer = answer.now; sent = machine.now.sent })) }
    {
        self.add_counts(before, event, answer, owned, reach, machine);
        self.add_lists(before, event, answer, machine)
    }
}
