//! The words of a save file's lines.
ghost use Rattle.std.specs.Prelude.{◌≡◌, ◌<◌, ◌≤◌, IfOk, IfSome};
ghost use Rattle.sn_model.specs.Caches.{block_count};
ghost use Rattle.save_text.specs.Words.{with_first, two_numbers, three_numbers, four_numbers, owner_by, owner_of, given_by, given_of};

use sn_base::{BLOCKS, BlockNo, NodeId};
use sn_text::{Fault, byte_in, number_in, parted};

pub fn two_numbers(text: &[u8]) -> Option<(u64, u64)>
    ensures { result ≡ two_numbers text.now }
{
    let (first, second) = parted(text)?;
    Some((number_in(first)?, number_in(second)?))
}

pub fn three_numbers(text: &[u8]) -> Option<(u64, (u64, u64))>
    ensures { result ≡ three_numbers text.now }
{
    let (first, others) = parted(text)?;
    Some((number_in(first)?, two_numbers(others)?))
}

pub fn four_numbers(text: &[u8]) -> Option<(u64, (u64, (u64, u64)))>
    ensures { result ≡ four_numbers text.now }
{
    let (first, others) = parted(text)?;
    Some((number_in(first)?, three_numbers(others)?))
}

/// A block of memory and a node of the machine.
fn owner_by(nodes: u8, numbers: Option<(u64, u64)>) -> Result<(BlockNo, NodeId), Fault>
    requires few { nodes ≤ 16 }
    ensures same { result ≡ owner_by nodes numbers }
{
    let Some((block, node)) = numbers else {
        return Err(Fault::NotOfForm);
    };
    if block >= BLOCKS as u64 || node >= u64::from(nodes) {
        return Err(Fault::NotThere);
    }
    Ok((BlockNo::new(block as u16), NodeId::numbered(node as u8)))
}

/// The owner that a line names.
#[tactic(auto, unfolding(crate::specs::Words::owner_of))]
pub fn owner_in(nodes: u8, text: &[u8]) -> Result<(BlockNo, NodeId), Fault>
    requires few { nodes ≤ 16 }
    ensures same { result ≡ owner_of nodes text.now }
{
    owner_by(nodes, two_numbers(text))
}

/// A node of the machine and a byte.
fn given_by(nodes: u8, node: Option<u64>, byte: Option<u8>) -> Result<(NodeId, u8), Fault>
    requires few { nodes ≤ 16 }
    ensures same { result ≡ given_by nodes node byte }
{
    let (Some(node), Some(byte)) = (node, byte) else {
        return Err(Fault::NotOfForm);
    };
    if node >= u64::from(nodes) {
        return Err(Fault::NotThere);
    }
    Ok((NodeId::numbered(node as u8), byte))
}

/// The byte that a line gives to a node.
#[tactic(auto, unfolding(crate::specs::Words::given_of))]
pub fn given_in(nodes: u8, text: &[u8]) -> Result<(NodeId, u8), Fault>
    requires few { nodes ≤ 16 }
    ensures same { result ≡ given_of nodes text.now }
{
    match parted(text) {
        Some((node, byte)) => given_by(nodes, number_in(node), byte_in(byte)),
        None => Err(Fault::NotOfForm),
    }
}
