//! How many blocks each cache owns after a recovery: what its log keeps of the recovery point is counted back, so that no recovery
//! looks at all blocks.
ghost use Rattle.std.specs.Prelude.{◌≡◌, ◌-◌, ◌<◌, ◌^◌, true, false};
ghost use Rattle.sn_model.specs.Caches.{is_owned};
ghost use Rattle.run_statistics.specs.Numbers.{bounded_sum};
ghost use Rattle.run_statistics.specs.Owned.{one_if, owns, owned_blocks, owns_at, owned_blocks_at, owned_at_point, is_undone, was_owned, owned_behind, AreOwned};

use crate::numbers::Numbers;
use log_buffer::is_home_side;
use sn_base::{BlockNo, Entries, Interval, LogEntry, NodeId, Old};
use sn_machine::Machine;
use sn_model::LineState;

fn is_owned(state: &LineState) -> bool
    ensures { result ≡ is_owned state.now }
{
    matches!(
        state,
        LineState::Owned | LineState::Modified | LineState::Exclusive
    )
}

/// Whether a node's cache owns a block.
pub fn owns(machine: &Machine, node: NodeId, block: BlockNo) -> bool
    requires { node < machine.now.config.nodes }
    ensures { result ≡ owns machine.now.state.fabric node block }
{
    match machine.line(node, block) {
        Some(line) => is_owned(&line.state),
        None => false,
    }
}

fn was_owned(old: &Old) -> bool
    ensures { result ≡ was_owned old.now }
{
    matches!(old, Old::Owned(_))
}

/// Whether it owned it at a checkpoint.
fn owned_at(machine: &Machine, node: NodeId, block: BlockNo, k: Interval) -> bool
    requires { node < machine.now.config.nodes }
    ensures { result ≡ owns_at machine.now.state.fabric k node block }
{
    match machine.log(node).old_at(false, block, k) {
        Some(old) => was_owned(old),
        None => owns(machine, node, block),
    }
}

/// Whether it owned an entry's block behind the entry's interval.
fn owned_behind(machine: &Machine, node: NodeId, entry: &LogEntry) -> bool
    requires { node < machine.now.config.nodes }
    ensures { result ≡ owned_behind machine.now.state.fabric node entry.now }
{
    match entry.interval.checked_add(1) {
        Some(next) => owned_at(machine, node, entry.block, next),
        None => owns(machine, node, entry.block),
    }
}

fn is_undone(k: Interval, entry: &LogEntry) -> bool
    ensures { result ≡ is_undone k entry.now }
{
    !is_home_side(&entry.old) && k <= entry.interval
}

/// How many blocks the cache owned before the change that an entry is of, where it owned so many behind it.
fn counted_back(machine: &Machine, node: NodeId, k: Interval, entry: &LogEntry, owned: u64) -> u64
    requires { node < machine.now.config.nodes }
    ensures passed { is_undone k entry.now ≡ false → result ≡ owned }
    ensures undone { is_undone k entry.now ≡ true → result
        ≡ bounded_sum owned (one_if (was_owned entry.now.old)) - one_if (owned_behind machine.now.state.fabric node entry.now) }
{
    if !is_undone(k, entry) {
        return owned;
    }
    let had = u64::from(was_owned(&entry.old));
    let has = u64::from(owned_behind(machine, node, entry));
    owned.saturating_add(had).saturating_sub(has)
}

/// An entry's interval, which is a number of 32 bits.
fn interval_of(entry: &LogEntry) -> Interval
    ensures same { result ≡ entry.now.interval }
    ensures fits { result < 2 ^ 32 }
{
    entry.interval
}

/// How many blocks a node's cache owned at a checkpoint, where it owns so many now.
fn blocks_at(machine: &Machine, node: NodeId, k: Interval, owned: u64) -> u64
    requires there { node < machine.now.config.nodes }
    requires owned { owned ≡ owned_blocks machine.now.state.fabric node }
    ensures { result ≡ owned_blocks_at machine.now.state.fabric k node }
{
    let log = machine.log(node);
    // For the prover alone: the entries of a block stand in growing intervals.
    let _room = log.room();
    let count = log.count();
    let mut back = owned;
    'entries: for done in 0..count {
        let entry = log.entry(count - 1 - done);
        // For the prover alone: it is a block of memory, and an interval that has a number.
        let _block = entry.block.number();
        let _interval = interval_of(entry);
        back = counted_back(machine, node, k, entry, back);
    }
    back
}

/// How many blocks each node's cache owned at the recovery point, where it owns so many now.
pub fn owned_at_point(machine: &Machine, owned: &Numbers) -> Numbers
    requires { AreOwned machine.now.config.nodes machine.now.state.fabric owned.now }
    ensures { result ≡ owned_at_point machine.now.config.nodes machine.now.state.fabric }
{
    let point = machine.recovered().point();
    let mut numbers = Numbers::new();
    'nodes: for number in 0..machine.config().nodes {
        let node = NodeId::numbered(number);
        let place = usize::from(node.number());
        let count = blocks_at(machine, node, point, owned.at(place));
        numbers.raise(place, count);
    }
    numbers
}
