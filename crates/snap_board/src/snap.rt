//! A snapshot of a machine's recovery point.
ghost use Rattle.std.specs.Prelude.{◌≡◌, ◌<◌, ◌≤◌, length, take, slice_get, Some};

use rv_core::CoreState;
use sn_base::{Interval, NodeId};
use std::marker::Model;

/// What is seen of a machine's recovery point: a plain value. Contracts see the point, how many records are committed there, the
/// nodes' cores and the watched word.
#[derive(Drop)]
pub struct Snap {
    point: Interval,
    committed: u32,
    cores: [CoreState; 16],
    nodes: u8,
    word: u32,
}

impl Model for Snap {
    ghost use Rattle.std.specs.Prelude.{◌≡◌, ◌≤◌, length, take};
    ghost use Rattle.snap_board.specs.Snap.{SnapData};

    ghost Value = { SnapData };

    ghost view = { λ s. record { point = s.point; committed = s.committed; cores = take s.nodes s.cores; word = s.word } };

    ghost invariant = { λ s. (s.nodes ≤ 16) × (length s.cores ≡ 16) };
}

fn all_of(cores: &[CoreState; 16]) -> [CoreState; 16]
    ensures { result ≡ cores.now }
{
    let mut all = [cores[0]; 16];
    all.copy_from_slice(cores.as_slice());
    all
}

impl Snap {
    /// Of the cores the first so many.
    pub fn new(
        point: Interval,
        committed: u32,
        cores: &[CoreState; 16],
        nodes: u8,
        word: u32,
    ) -> Snap
        requires { nodes ≤ 16 }
        ensures { result ≡ record { point = point; committed = committed; cores = take nodes cores.now; word = word } }
    {
        Snap {
            point,
            committed,
            cores: all_of(cores),
            nodes,
            word,
        }
    }

    /// The recovery point.
    pub fn point(&self) -> Interval
        ensures { result ≡ self.now.point }
    {
        self.point
    }

    /// How many records are committed there.
    pub fn committed(&self) -> u32
        ensures { result ≡ self.now.committed }
    {
        self.committed
    }

    /// A node's core there, without a reservation. Of a node that isn't there it is none's.
    pub fn core(&self, node: NodeId) -> &CoreState
        ensures { node < length self.now.cores → slice_get self.now.cores node ≡ Some result.now }
    {
        &self.cores[usize::from(node.number())]
    }

    /// The watched word there.
    pub fn word(&self) -> u32
        ensures { result ≡ self.now.word }
    {
        self.word
    }

    /// The same snapshot once more.
    pub fn copied(&self) -> Snap
        ensures { result ≡ self.now }
    {
        Snap {
            point: self.point,
            committed: self.committed,
            cores: all_of(&self.cores),
            nodes: self.nodes,
            word: self.word,
        }
    }
}
