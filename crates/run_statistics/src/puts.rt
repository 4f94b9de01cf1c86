//! Bytes that are held.
ghost use Rattle.std.specs.Prelude.{◌≡◌, [], ◌∷◌, ◌++◌, filter, OnOk, OnErr};
ghost use Rattle.run_statistics.specs.Numbers.{no_numbers};
ghost use Rattle.run_statistics.specs.Puts.{puts_by_node, is_from};

use crate::numbers::Numbers;
use sn_base::{Interval, Memory, NodeId};
use std::alloc::Global;
use std::marker::Model;

/// A byte that was put out: the node, its interval, and the number of the event.
#[derive(Clone, Copy)]
pub struct Put {
    pub node: NodeId,
    pub interval: Interval,
    pub event: u64,
}

/// Bytes in the order in which they were put out. Contracts see the list of them.
#[derive(Drop)]
pub struct Puts {
    puts: Vec<Put>,
}

impl Model for Puts {
    ghost use Rattle.std.specs.Prelude.{List};
    ghost use Rattle.run_statistics.specs.declared.puts.Put.{Put};

    ghost Value = { List Put };

    ghost view = { λ p. p.puts.items };
}

impl Puts {
    pub fn new(alloc: Global) -> Puts
        ensures { result ≡ [] }
    {
        Puts {
            puts: Vec::new(alloc),
        }
    }

    pub fn all(&self) -> &[Put]
        ensures { result.now ≡ self.now }
    {
        self.puts.as_slice()
    }

    /// How many of them each node has.
    pub fn by_node(&self) -> Numbers
        ensures { result ≡ puts_by_node self.now }
    {
        let mut numbers = Numbers::new();
        'puts: for put in self.all() {
            numbers.add(usize::from(put.node.number()), 1);
        }
        numbers
    }

    /// One more.
    pub fn push(&mut self, put: Put) -> Result<(), Memory>
        ensures ok { OnOk result (self.new ≡ self.old ++ put ∷ []) }
        ensures err { OnErr result (self.new ≡ self.old) }
    {
        self.puts.push(put)?;
        Ok(())
    }

    /// Those of intervals before a checkpoint go.
    pub fn release(&mut self, k: Interval)
        ensures { self.new ≡ filter (is_from k) self.old }
    {
        self.puts.retain(|put| put.interval >= k);
    }

    /// All go.
    pub fn clear(&mut self)
        ensures { self.new ≡ [] }
    {
        self.puts.clear();
    }
}
