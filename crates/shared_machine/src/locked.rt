//! The value behind the lock.
ghost use Rattle.std.specs.Prelude.{◌≡◌, ◌+◌, ◌<◌, ◌≤◌, true, false, nat_le, Some, None, [], ◌∷◌, ◌++◌, IfOk, IfErr, MatchResult, length};
ghost use Rattle.std.specs.Prelude.{vec_len, vec_capacity};
ghost use Rattle.sn_console.specs.Ends.{bytes_passed, free_places, SameOutbox};
ghost use Rattle.sn_console.specs.Handed.{IsFirstOf};
ghost use Rattle.run_journals.specs.Journal.{entry_of};
ghost use Rattle.shared_machine.specs.Shared.{began_with, finish_of, IsTurn, Passes, refusal_of, Did};
ghost use Rattle.shared_machine.specs.Invariant.{FollowsJournal};

use crate::finish::Finish;
use crate::picker::{Picker, draw, pick_of};
use crate::run_name::RunName;
use run_journals::JournalEntry;
use run_journals::sn_machine::Machine;
use sn_base::{Answer, Event};
use sn_console::Outbox;
use sn_driver::{Driver, Turn};
use std::marker::Model;
use std::sync::ledger::{Book, Share};

/// A machine during its run. Contracts see it with its driver, seed and budget, the journal and the answers so far, what was
/// passed on to the console and for how much more that has room, and whether a stop stands.
#[derive(Drop)]
pub struct Locked<L: RunName> {
    pub(crate) machine: Machine,
    pub(crate) driver: Driver,
    pub(crate) pickers: Vec<Picker>,
    pub(crate) journal: Vec<JournalEntry>,
    pub(crate) answers: Vec<Answer>,
    pub(crate) seed: u64,
    pub(crate) budget: u32,
    pub(crate) stopped: bool,
    pub(crate) book: Book<L>,
    pub(crate) outbox: Outbox,
}

impl<L: RunName> Model for Locked<L> {
    ghost use Rattle.std.specs.Prelude.{◌≡◌, ◌≤◌, length, vec_capacity};
    ghost use Rattle.sn_console.specs.Ends.{bytes_passed, free_places};
    ghost use Rattle.shared_machine.specs.Shared.{LockedData, began_with};
    ghost use Rattle.shared_machine.specs.Invariant.{FollowsJournal, HasRoomForRest};
    ghost use Rattle.shared_machine.specs.Pickers.{AreDrawn};

    ghost Value = { LockedData };

    ghost view = { λ l. record {
      machine = l.machine;
      driver = l.driver;
      seed = l.seed;
      budget = l.budget;
      journal = l.journal.items;
      answers = l.answers.items;
      passed = bytes_passed l.outbox;
      free = free_places l.outbox;
      stopped = l.stopped;
    } };

    ghost invariant = { λ l.
        let s : LockedData = record {
          machine = l.machine;
          driver = l.driver;
          seed = l.seed;
          budget = l.budget;
          journal = l.journal.items;
          answers = l.answers.items;
          passed = bytes_passed l.outbox;
          free = free_places l.outbox;
          stopped = l.stopped;
        } in
        FollowsJournal s × HasRoomForRest s × (l.budget ≤ vec_capacity l.journal) × (l.budget ≤ vec_capacity l.answers)
        × (length l.answers.items ≡ length l.journal.items)
        × AreDrawn l.seed l.journal.items l.pickers.items × (length l.pickers.items ≡ l.machine.config.nodes)
        × (began_with s ≡ L.began) × (length l.journal.items ≡ l.book.total) × L.of_ring l.outbox };
}

/// What a run leaves.
#[derive(Drop)]
pub struct Ended {
    pub machine: Machine,
    pub journal: Vec<JournalEntry>,
    pub answers: Vec<Answer>,
    pub outbox: Outbox,
}

/// Whether the run has done as many events as it does at most.
fn is_spent(journal: &Vec<JournalEntry>, budget: u32) -> bool
    ensures { result ≡ nat_le budget (length journal.now.items) }
{
    journal.len() >= budget as usize
}

/// One turn of the driver, where the run goes on: nothing is done where the budget is spent.
fn drive(
    machine: &mut Machine,
    driver: &mut Driver,
    worker: u32,
    pick: u32,
    spent: bool,
) -> Result<(Event, Answer), Finish>
    requires nodes { machine.old.config.nodes ≡ driver.old.nodes }
    requires worker { worker < driver.old.nodes }
    requires life { driver.old.numbers.done < 4000000000 }
    requires room { 1 ≤ machine.old.spare }
    ensures ok { IfOk result (λ did. Did driver.old machine.old worker pick spent did.0 did.1 driver.new machine.new) }
    ensures err { IfErr result
        (λ finish. (driver.new ≡ driver.old) × (machine.new ≡ machine.old) × (refusal_of driver.old machine.old spent ≡ Some finish)) }
{
    if spent && driver.due(machine, worker, pick).is_some() {
        return Err(Finish::Budget);
    }
    match driver.turn(machine, worker, pick) {
        Turn::Did(event, answer) => Ok((event, answer)),
        Turn::Over => Err(Finish::Over),
        Turn::CutOff(first, second) => Err(Finish::CutOff(first, second)),
    }
}

/// Adds an event to the journal, and its answer to the answers.
fn note(
    journal: &mut Vec<JournalEntry>,
    answers: &mut Vec<Answer>,
    worker: u32,
    event: &Event,
    answer: &Answer,
)
    requires journal { vec_len journal.old < vec_capacity journal.old }
    requires answers { vec_len answers.old < vec_capacity answers.old }
    ensures entry { journal.new.items ≡ journal.old.items ++ entry_of worker event.now ∷ [] }
    ensures answer { answers.new.items ≡ answers.old.items ++ answer.now ∷ [] }
    ensures room { (vec_capacity journal.old ≤ vec_capacity journal.new) × (vec_capacity answers.old ≤ vec_capacity answers.new) }
{
    let entry = JournalEntry {
        worker,
        event: *event,
    };
    journal.push(entry).unwrap();
    answers.push(*answer).unwrap();
}

/// Passes on what is released, where something was validated.
fn pass(outbox: &mut Outbox, machine: &Machine, answer: &Answer)
    requires { IsFirstOf (bytes_passed outbox.old) machine.now.state.released }
    ensures end { SameOutbox outbox.old outbox.new }
    ensures passes { Passes answer.now machine.now.state.released (bytes_passed outbox.old) (free_places outbox.old) (bytes_passed outbox.new)
        (free_places outbox.new) }
    ensures first { IsFirstOf (bytes_passed outbox.new) machine.now.state.released }
{
    if let Answer::Validated(_) = answer {
        outbox.offer(machine.recovered().released());
    }
}

impl<L: RunName> Locked<L> {
    /// A turn of a worker, or why there is none any more, and then nothing changes.
    pub fn turn(&mut self, share: &mut Share<L>, worker: u32) -> Result<(Event, Answer), Finish>
        requires worker { worker < L.began.config.nodes }
        requires part { 0 < share.old.parts }
        ensures parts { share.new.parts ≡ share.old.parts }
        ensures ok { IfOk result
            (λ did. (finish_of self.old ≡ None) × IsTurn self.old worker did.0 did.1 self.new × (share.new.amount ≡ share.old.amount + 1)) }
        ensures err { IfErr result
            (λ finish. (finish_of self.old ≡ Some finish) × (self.new ≡ self.old) × (share.new.amount ≡ share.old.amount)) }
    {
        if self.stopped {
            return Err(Finish::Stopped);
        }
        let Locked {
            machine,
            driver,
            pickers,
            journal,
            answers,
            seed: _,
            budget,
            stopped: _,
            book,
            outbox,
        } = self;
        let spent = is_spent(journal, *budget);
        let pick = pick_of(pickers, worker);
        let (event, answer) = drive(machine, driver, worker, pick, spent)?;
        draw(pickers, worker);
        note(journal, answers, worker, &event, &answer);
        book.add(share, 1);
        pass(outbox, machine, &answer);
        Ok((event, answer))
    }

    /// From now on each turn is refused.
    pub fn stop(&mut self)
        ensures { self.new ≡ record self.old { stopped = true } }
    {
        self.stopped = true;
    }

    /// Takes a stop back.
    pub fn go_on(&mut self)
        ensures { self.new ≡ record self.old { stopped = false } }
    {
        self.stopped = false;
    }

    /// The journal so far. What the lock keeps is known here.
    pub fn journal(&self) -> &[JournalEntry]
        ensures same { result.now ≡ self.now.journal }
        ensures kept { FollowsJournal self.now }
        ensures began { began_with self.now ≡ L.began }
    {
        self.journal.as_slice()
    }

    /// How many turns were had, by a share with all parts of the run's ledger.
    pub fn audit(&mut self, all: &mut Share<L>) -> u64
        requires { all.old.parts ≡ L.parts }
        ensures amount { result ≡ all.old.amount }
        ensures count { result ≡ length self.old.journal }
        ensures same { (self.new ≡ self.old) × (all.new.amount ≡ all.old.amount) × (all.new.parts ≡ all.old.parts) }
    {
        self.book.audit(all);
        self.journal.len() as u64
    }

    /// What the run leaves, once no worker has it any more.
    pub fn end(self) -> Ended
        ensures same { (result.machine ≡ self.machine) × (result.journal.items ≡ self.journal) × (result.answers.items ≡ self.answers)
            × (bytes_passed result.outbox ≡ self.passed) }
        ensures kept { FollowsJournal self }
        ensures began { began_with self ≡ L.began }
        ensures ring { L.of_ring result.outbox }
    {
        let Locked {
            machine,
            driver: _,
            pickers: _,
            journal,
            answers,
            seed: _,
            budget: _,
            stopped: _,
            book: _,
            outbox,
        } = self;
        Ended {
            machine,
            journal,
            answers,
            outbox,
        }
    }
}
