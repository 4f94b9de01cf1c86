//! What each recovery took back, and what led to it.
ghost use Rattle.std.specs.Prelude.{◌≡◌, [], ◌∷◌, ◌++◌, ◌<◌, OnOk, OnErr};
ghost use Rattle.run_statistics.specs.Recoveries.{no_recoveries, or_first, lead_by, lead_after, place_of_lead, with_undo, with_any_undo, recoveries_with};

use crate::messages::lost_among;
use crate::numbers::Numbers;
use crate::spread::Spread;
use sn_base::{Answer, Interval, Memory, Undo};
use sn_model::Sent;
use std::alloc::Global;
use std::marker::Model;

/// What leads to a recovery: a message that was lost, a switch that died or in which a message was lost, or neither since the last
/// validation or recovery, so that somebody waited too short.
#[derive(Clone, Copy)]
pub enum Lead {
    Loss,
    DeadSwitch,
    Wait,
}

/// A recovery: the number of its event, the checkpoint that it went back to, and how many instructions, log entries and messages
/// it took back.
#[derive(Clone, Copy)]
pub struct Recovery {
    pub at: u64,
    pub to: Interval,
    pub instructions: u64,
    pub entries: u64,
    pub messages: u64,
}

/// Recoveries in their order. Contracts see the list of them.
#[derive(Drop)]
pub struct Recoveries {
    recoveries: Vec<Recovery>,
}

impl Model for Recoveries {
    ghost use Rattle.std.specs.Prelude.{List};
    ghost use Rattle.run_statistics.specs.declared.recoveries.Recovery.{Recovery};

    ghost Value = { List Recovery };

    ghost view = { λ r. r.recoveries.items };
}

impl Recoveries {
    pub fn new(alloc: Global) -> Recoveries
        ensures { result ≡ [] }
    {
        Recoveries {
            recoveries: Vec::new(alloc),
        }
    }

    pub fn all(&self) -> &[Recovery]
        ensures { result.now ≡ self.now }
    {
        self.recoveries.as_slice()
    }

    pub fn push(&mut self, recovery: Recovery) -> Result<(), Memory>
        ensures ok { OnOk result (self.new ≡ self.old ++ recovery ∷ []) }
        ensures err { OnErr result (self.new ≡ self.old) }
    {
        self.recoveries.push(recovery)?;
        Ok(())
    }
}

/// What would lead to a recovery now; by what recoveries were led to; how many instructions, log entries and messages each took
/// back; and each recovery.
#[derive(Drop)]
pub struct RecoveryStatistics {
    pub lead: Lead,
    pub leads: Numbers,
    pub instructions: Spread,
    pub entries: Spread,
    pub messages: Spread,
    pub all: Recoveries,
}

fn or_first(lead: Lead, other: Lead) -> Lead
    ensures { result ≡ or_first lead other }
{
    match lead {
        Lead::Wait => other,
        Lead::Loss => Lead::Loss,
        Lead::DeadSwitch => Lead::DeadSwitch,
    }
}

fn lead_by(answer: &Answer, lead: Lead) -> Lead
    ensures { result ≡ lead_by answer.now lead }
{
    match answer {
        Answer::Lost => or_first(lead, Lead::Loss),
        Answer::LostInDead | Answer::Killed => or_first(lead, Lead::DeadSwitch),
        Answer::Validated(_) | Answer::Recovered(_) => Lead::Wait,
        _ => lead,
    }
}

fn lead_after(answer: &Answer, sent: &[Sent], lead: Lead) -> Lead
    ensures { result ≡ lead_after answer.now sent.now lead }
{
    let led = lead_by(answer, lead);
    if lost_among(sent) > 0 {
        or_first(led, Lead::DeadSwitch)
    } else {
        led
    }
}

fn place_of_lead(lead: Lead) -> usize
    ensures place { result ≡ place_of_lead lead }
    ensures small { result < 32 }
{
    match lead {
        Lead::Loss => 0,
        Lead::DeadSwitch => 1,
        Lead::Wait => 2,
    }
}

impl RecoveryStatistics {
    pub fn new(alloc: Global) -> RecoveryStatistics
        ensures { result ≡ no_recoveries }
    {
        RecoveryStatistics {
            lead: Lead::Wait,
            leads: Numbers::new(),
            instructions: Spread::new(),
            entries: Spread::new(),
            messages: Spread::new(),
            all: Recoveries::new(alloc),
        }
    }

    fn recover(&mut self, number: u64, waiting: u64, undo: &Undo) -> Result<(), Memory>
        ensures { OnOk result (self.new ≡ with_undo self.old number waiting undo.now) }
    {
        let entries = u64::from(undo.undone);
        let messages = u64::from(undo.dropped);
        self.leads.add(place_of_lead(self.lead), 1);
        self.instructions.add(waiting);
        self.entries.add(entries);
        self.messages.add(messages);
        self.all.push(Recovery {
            at: number,
            to: undo.to,
            instructions: waiting,
            entries,
            messages,
        })
    }

    /// After the event of this number, before which so many records waited, and which had this answer and sent these messages.
    pub fn add(
        &mut self,
        number: u64,
        waiting: u64,
        answer: &Answer,
        sent: &[Sent],
    ) -> Result<(), Memory>
        ensures { OnOk result (self.new ≡ recoveries_with self.old number waiting answer.now sent.now) }
    {
        let lead = lead_after(answer, sent, self.lead);
        if let Answer::Recovered(undo) = answer {
            self.recover(number, waiting, undo)?;
        }
        self.lead = lead;
        Ok(())
    }
}
