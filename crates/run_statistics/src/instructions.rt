//! What is counted of instructions.
ghost use Rattle.std.specs.Prelude.{◌≡◌, map, slice_index};
ghost use Rattle.sn_machine.specs.Parts.{retirement_as};
ghost use Rattle.run_statistics.specs.Instructions.{no_instructions, waiting_by_node, waiting_after, instructions_with};
ghost use Rattle.run_statistics.specs.Numbers.{with_more, with_greater};

use crate::numbers::Numbers;
use rv_core::Record;
use sn_base::{Answer, Event, NodeId};
use sn_machine::Waiting;

/// Of each node: how many instructions retired, were committed, and were taken back by recoveries; and how many records wait for a
/// validation, now and at most.
#[derive(Drop)]
pub struct InstructionStatistics {
    pub retired: Numbers,
    pub committed: Numbers,
    pub taken_back: Numbers,
    pub waiting: Numbers,
    pub most_waiting: Numbers,
}

/// How many of these records each node has.
fn by_node(pending: &[Waiting<Record>]) -> Numbers
    ensures { result ≡ waiting_by_node (map retirement_as pending.now) }
{
    let mut numbers = Numbers::new();
    'records: for one in pending {
        numbers.add(usize::from(one.entry.core.number()), 1);
    }
    numbers
}

impl InstructionStatistics {
    pub fn new() -> InstructionStatistics
        ensures { result ≡ no_instructions }
    {
        InstructionStatistics {
            retired: Numbers::new(),
            committed: Numbers::new(),
            taken_back: Numbers::new(),
            waiting: Numbers::new(),
            most_waiting: Numbers::new(),
        }
    }

    fn retire(&mut self, node: NodeId)
        ensures { self.new ≡ record self.old {
          retired = with_more self.old.retired node 1;
          waiting = with_more self.old.waiting node 1;
          most_waiting = with_greater self.old.most_waiting node (slice_index (with_more self.old.waiting node 1) node);
        } }
    {
        let place = usize::from(node.number());
        self.retired.add(place, 1);
        self.waiting.add(place, 1);
        let waiting = self.waiting.at(place);
        self.most_waiting.raise(place, waiting);
    }

    /// After an event with this answer: these records were committed since, and these wait.
    pub fn add(
        &mut self,
        event: &Event,
        answer: &Answer,
        committed: &[Record],
        pending: &[Waiting<Record>],
    )
        ensures { self.new ≡ instructions_with self.old event.now answer.now committed.now
            (waiting_after self.old.waiting event.now answer.now (map retirement_as pending.now)) }
    {
        match answer {
            Answer::Retired => {
                if let Event::Step(node) = event {
                    self.retire(*node);
                }
            }
            Answer::Validated(_) => {
                self.committed.add_records(committed);
                self.waiting = by_node(pending);
            }
            Answer::Recovered(_) => {
                self.taken_back.add_all(&self.waiting);
                self.waiting = by_node(pending);
            }
            _ => {}
        }
    }
}
