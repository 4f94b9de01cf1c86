//! Nodes, and sets of them.
ghost use Rattle.std.specs.Prelude.{◌≡◌, ℕ, ◌<◌, ◌≤◌, ◌↔◌, List, Bool, true, false, length, replicate, slice_set, IfSome, IsNone, count_by};
ghost use Rattle.sn_base.specs.Nodes.{has_node};

use std::marker::Model;

/// A node, by its number. Contracts see the number, which is below 16.
#[derive(Clone, Copy, PartialEq, Eq, PartialOrd, Ord, Hash, Debug)]
pub struct NodeId {
    number: u8,
}

impl Model for NodeId {
    ghost Value = { ℕ };

    ghost view = { λ n. n.number };

    ghost invariant = { λ n. n.number < 16 };

    ghost inverse = { λ n. record { number = n } };
}

impl NodeId {
    /// None where the number is above 15.
    pub fn new(number: u8) -> Option<NodeId>
        ensures none { IsNone result ↔ (16 ≤ number) }
        ensures some { IfSome result (λ n. n ≡ number) }
    {
        if number > 15 {
            return None;
        }
        Some(NodeId { number })
    }

    /// The node of a number.
    pub fn numbered(number: u8) -> NodeId
        requires { number < 16 }
        ensures { result ≡ number }
    {
        NodeId { number }
    }

    pub fn number(self) -> u8
        ensures same { result ≡ self }
        ensures small { result < 16 }
    {
        self.number
    }
}

/// A set of nodes. Contracts see a list of 16 marks, the mark of node n at place n.
#[derive(Clone, Copy, PartialEq, Eq, Debug)]
pub struct NodeSet {
    marks: [bool; 16],
}

impl Model for NodeSet {
    ghost Value = { List Bool };

    ghost view = { λ s. s.marks };

    ghost invariant = { λ s. length s.marks ≡ 16 };

    ghost inverse = { λ s. record { marks = s } };
}

impl NodeSet {
    pub fn empty() -> NodeSet
        ensures { result ≡ replicate 16 false }
    {
        NodeSet { marks: [false; 16] }
    }

    pub fn with(self, node: NodeId) -> NodeSet
        ensures { result ≡ slice_set self node true }
    {
        let mut marks = self.marks;
        marks[usize::from(node.number)] = true;
        NodeSet { marks }
    }

    pub fn without(self, node: NodeId) -> NodeSet
        ensures { result ≡ slice_set self node false }
    {
        let mut marks = self.marks;
        marks[usize::from(node.number)] = false;
        NodeSet { marks }
    }

    pub fn has(self, node: NodeId) -> bool
        ensures { result ≡ has_node self node }
    {
        self.marks[usize::from(node.number)]
    }

    /// How many nodes the set has, at most 16.
    pub fn count(self) -> u8
        ensures count { result ≡ count_by (λ mark. mark) self }
        ensures small { result ≤ 16 }
    {
        let mut count = 0u8;
        'marks: for mark in self.marks {
            if mark {
                count += 1;
            }
        }
        count
    }
}
