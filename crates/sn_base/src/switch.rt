//! Switches of the two rings.
ghost use Rattle.std.specs.Prelude.{◌≡◌, ℕ, ◌+◌, ◌*◌, ◌<◌};

use crate::node::NodeId;
use std::marker::Model;

/// A switch: A(n) in the ring of node n's row is 2n, B(n) in the ring of its column is 2n + 1. Contracts see the
/// number, which is below 32.
#[derive(Clone, Copy, PartialEq, Eq, PartialOrd, Ord, Hash, Debug)]
pub struct SwitchId {
    number: u8,
}

impl Model for SwitchId {
    ghost Value = { ℕ };

    ghost view = { λ s. s.number };

    ghost invariant = { λ s. s.number < 32 };

    ghost inverse = { λ s. record { number = s } };
}

impl SwitchId {
    pub fn a(node: NodeId) -> SwitchId
        ensures { result ≡ 2 * node }
    {
        SwitchId {
            number: 2 * node.number(),
        }
    }

    pub fn b(node: NodeId) -> SwitchId
        ensures { result ≡ 2 * node + 1 }
    {
        SwitchId {
            number: 2 * node.number() + 1,
        }
    }

    pub fn number(self) -> u8
        ensures same { result ≡ self }
        ensures small { result < 32 }
    {
        self.number
    }
}
