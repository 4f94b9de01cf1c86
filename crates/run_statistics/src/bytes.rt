//! How long a byte that was put out is held before it is released.
ghost use Rattle.std.specs.Prelude.{◌≡◌, ◌++◌, map, OnOk};
ghost use Rattle.sn_base.specs.declared.event.Event.{Event};
ghost use Rattle.sn_machine.specs.Parts.{held_as};
ghost use Rattle.run_statistics.specs.Spreads.{spread_with_all};
ghost use Rattle.run_statistics.specs.Bytes.{no_bytes, puts_at, released_from, waits_of, with_held, with_output, with_release, bytes_with};

use crate::numbers::Numbers;
use crate::puts::{Put, Puts};
use crate::spread::Spread;
use sn_base::{Answer, Event, Interval, Memory, NodeId};
use sn_machine::Waiting;
use std::alloc::Global;

/// The bytes that are held; how many of them each node had at most; and for how many events each was held that was released.
#[derive(Drop)]
pub struct ByteStatistics {
    pub held: Puts,
    pub most_held: Numbers,
    pub waits: Spread,
}

fn push_all(held: &mut Puts, number: u64, node: NodeId, bytes: &[Waiting<u8>]) -> Result<(), Memory>
    ensures { OnOk result (held.new ≡ held.old ++ puts_at number node (map held_as bytes.now)) }
{
    'bytes: for byte in bytes {
        held.push(Put {
            node,
            interval: byte.interval,
            event: number,
        })?;
    }
    Ok(())
}

fn add_waits(waits: &mut Spread, number: u64, k: Interval, held: &[Put])
    ensures { waits.new ≡ spread_with_all waits.old (waits_of number (released_from k held.now)) }
{
    'bytes: for put in held {
        if put.interval < k {
            waits.add(number.saturating_sub(put.event));
        }
    }
}

impl ByteStatistics {
    pub fn new(alloc: Global) -> ByteStatistics
        ensures { result ≡ no_bytes }
    {
        ByteStatistics {
            held: Puts::new(alloc),
            most_held: Numbers::new(),
            waits: Spread::new(),
        }
    }

    fn hold(&mut self, number: u64, node: NodeId, bytes: &[Waiting<u8>]) -> Result<(), Memory>
        ensures { OnOk result (self.new ≡ with_held self.old node (self.old.held ++ puts_at number node (map held_as bytes.now))) }
    {
        let place = usize::from(node.number());
        push_all(&mut self.held, number, node, bytes)?;
        let count = self.held.by_node().at(place);
        self.most_held.raise(place, count);
        Ok(())
    }

    fn hold_any(&mut self, number: u64, node: NodeId, bytes: &[Waiting<u8>]) -> Result<(), Memory>
        ensures { OnOk result (self.new ≡ with_output self.old number (map held_as bytes.now) (Event.Step node)) }
    {
        if bytes.is_empty() {
            return Ok(());
        }
        self.hold(number, node, bytes)
    }

    fn release(&mut self, number: u64, k: Interval)
        ensures { self.new ≡ with_release self.old number k }
    {
        add_waits(&mut self.waits, number, k, self.held.all());
        self.held.release(k);
    }

    /// After the event of this number, which had this answer, and by which these bytes came to be held.
    pub fn add(
        &mut self,
        number: u64,
        event: &Event,
        answer: &Answer,
        bytes: &[Waiting<u8>],
    ) -> Result<(), Memory>
        ensures { OnOk result (self.new ≡ bytes_with self.old number event.now answer.now (map held_as bytes.now)) }
    {
        match answer {
            Answer::Retired => {
                if let Event::Step(node) = event {
                    return self.hold_any(number, *node, bytes);
                }
            }
            Answer::Validated(k) => self.release(number, *k),
            Answer::Recovered(_) => self.held.clear(),
            _ => {}
        }
        Ok(())
    }
}
