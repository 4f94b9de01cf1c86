//! The turns of a run that a watcher looks at.
ghost use Rattle.std.specs.Prelude.{◌≡◌, ◌+◌, ◌<◌, ◌≤◌, Some, [], ◌∷◌, ◌++◌, length, vec_len, vec_capacity, IfOk, IfErr, IfSome, IsNone};
ghost use Rattle.node_run.specs.Shared.{refusal_of, Did};
ghost use Rattle.sn_monitor.specs.Monitored.{IsTurn};
ghost use Rattle.sn_driver.specs.declared.turn.Turn.TheVariants as turn;
ghost use Rattle.snap_board.specs.Snap.{SnapData};
ghost use Rattle.snap_board.specs.Fronts.{EndsIn};
ghost use Rattle.monitor_run.specs.Seen.{mark_of};
ghost use Rattle.monitor_run.specs.Stands.{Stands, IsReady, StopsBy, IsSameRun};

use crate::marks::{Mark, keep, mark_of};
use node_run::shared_machine::Finish;
use rand_pcg::Pcg32;
use run_journals::JournalEntry;
use sn_base::{Answer, Event};
use sn_driver::Turn;
use sn_monitor::{Monitored, Published};
use std::sync::Wait;
use turn_orders::{draw, note};

/// What the turns fill, with room for the budget.
#[derive(Drop)]
pub(crate) struct Turns {
    pub generators: Vec<Pcg32>,
    pub journal: Vec<JournalEntry>,
    pub answers: Vec<Answer>,
    pub published: Vec<Mark>,
    pub seed: u64,
    pub budget: u32,
}

/// Why there is no turn any more.
#[derive(Clone, Copy, PartialEq, Eq, Debug)]
pub(crate) enum Stop {
    Finished(Finish),
    /// A snapshot wasn't published for want of memory.
    Memory,
}

// One turn, where the run goes on: nothing is done where the budget is spent.
fn drive(
    rt: &impl Wait,
    monitored: &mut Monitored,
    worker: u32,
    pick: u32,
    spent: bool,
) -> Result<(Event, Answer, Published), Finish>
    requires room { 1 ≤ monitored.old.machine.spare }
    requires worker { worker < monitored.old.machine.config.nodes }
    ensures ok { IfOk result (λ did.
        Did monitored.old.driver monitored.old.machine worker pick spent did.0 did.1 monitored.new.driver monitored.new.machine
        × IsTurn monitored.old worker pick (turn.Did did.0 did.1) did.2 monitored.new) }
    ensures err { IfErr result (λ finish. (monitored.new ≡ monitored.old)
        × (refusal_of monitored.old.driver monitored.old.machine spent ≡ Some finish)) }
{
    if spent && monitored.due(worker, pick).is_some() {
        return Err(Finish::Budget);
    }
    let (turn, published) = monitored.turn(rt, worker, pick);
    match turn {
        Turn::Did(event, answer) => Ok((event, answer, published)),
        Turn::Over => Err(Finish::Over),
        Turn::CutOff(first, second) => Err(Finish::CutOff(first, second)),
    }
}

/// Notes what was published last.
pub(crate) fn note_last(monitored: &mut Monitored, published: &mut Vec<Mark>)
    requires { vec_len published.old < vec_capacity published.old }
    ensures mark { (s : SnapData) → EndsIn monitored.old.published s → published.new.items ≡ published.old.items ++ mark_of s ∷ [] }
    ensures same { monitored.new ≡ monitored.old }
    ensures room { vec_capacity published.old ≤ vec_capacity published.new }
{
    let receipt = monitored.receipt();
    keep(published, mark_of(receipt.last()));
}

// One turn of the worker whose it is. None where the run goes on.
fn turn(rt: &impl Wait, monitored: &mut Monitored, turns: &mut Turns) -> Option<Stop>
    requires stands { Stands monitored.old turns.old }
    requires ready { IsReady monitored.old turns.old }
    ensures on { IsNone result → Stands monitored.new turns.new × IsReady monitored.new turns.new }
    ensures had { IsNone result → length turns.new.journal.items ≡ length turns.old.journal.items + 1 }
    ensures stop { IfSome result (λ stop. StopsBy monitored.new turns.new stop) }
    ensures same { IsSameRun monitored.old turns.old monitored.new turns.new }
{
    let Turns {
        generators,
        journal,
        answers,
        published,
        seed: _,
        budget,
    } = turns;
    let worker = (journal.len() % generators.len()) as u32;
    let spent = journal.len() >= *budget as usize;
    let pick = draw(generators, worker);
    let (event, answer, said) = match drive(rt, monitored, worker, pick, spent) {
        Ok(did) => did,
        Err(finish) => return Some(Stop::Finished(finish)),
    };
    note(journal, answers, worker, event, answer);
    match said {
        Published::Nothing => None,
        Published::New => {
            note_last(monitored, published);
            None
        }
        Published::Memory => Some(Stop::Memory),
    }
}

/// Turns of workers 0, 1 and so on, round and round, until there is none any more.
pub(crate) fn make_turns(rt: &impl Wait, monitored: &mut Monitored, turns: &mut Turns) -> Stop
    requires stands { Stands monitored.old turns.old }
    requires ready { IsReady monitored.old turns.old }
    ensures stop { StopsBy monitored.new turns.new result }
    ensures same { IsSameRun monitored.old turns.old monitored.new turns.new }
{
    'turns: for _ in rt.forever() {
        if let Some(stop) = turn(rt, monitored, turns) {
            return stop;
        }
    }
    unreachable!()
}
