//! Whether the records have read what their nodes were given.
ghost use Rattle.std.specs.Prelude.{◌≡◌, ◌≤◌, [], ◌∷◌, drop, length, IfSome, IsNone, nat_eq, if◌then◌else◌, None};
ghost use Rattle.rv_core.specs.Execution.{in_of};
ghost use Rattle.sn_saved.specs.Saved.{given_to, begins_with, first_unread};

use crate::saved::Saved;
use rv_core::Record;
use sn_base::NodeId;

/// The next byte of a node, from a place on, and the place behind it.
fn next_given(given: &[(NodeId, u8)], from: usize, node: NodeId) -> Option<(u8, usize)>
    requires { from ≤ length given.now }
    ensures none { IsNone result → given_to (drop from given.now) node ≡ [] }
    ensures some { IfSome result (λ r. given_to (drop from given.now) node ≡ r.0 ∷ given_to (drop r.1 given.now) node) }
    ensures within { IfSome result (λ r. r.1 ≤ length given.now) }
{
    'bytes: for place in from..given.len() {
        let (receiver, byte) = given[place];
        if receiver == node {
            return Some((byte, place + 1));
        }
    }
    None
}

/// The byte that a record of a node has read, if it is one.
fn byte_read(taken: &Record, node: NodeId) -> Option<u8>
    ensures { result ≡ (if nat_eq taken.now.core node then taken.now.read else None) }
{
    if taken.core == node { taken.read } else { None }
}

/// Whether the bytes given to a node begin with those that its records have read.
fn has_read_given(given: &[(NodeId, u8)], records: &[Record], node: NodeId) -> bool
    ensures { result ≡ begins_with (given_to given.now node) (in_of node records.now) }
{
    let mut from = 0;
    'records: for place in 0..records.len() {
        if let Some(byte) = byte_read(&records[place], node) {
            let Some((next, behind)) = next_given(given, from, node) else {
                return false;
            };
            if next != byte {
                return false;
            }
            from = behind;
        }
    }
    true
}

/// The least node whose records have read what it wasn't given.
pub fn first_unread(saved: &Saved) -> Option<NodeId>
    requires few { saved.now.config.nodes ≤ 16 }
    ensures { result ≡ first_unread saved.now }
{
    'nodes: for number in 0..saved.config.nodes {
        let node = NodeId::numbered(number);
        if !has_read_given(saved.given.as_slice(), saved.committed.as_slice(), node) {
            return Some(node);
        }
    }
    None
}
