//! The workers, and their shares of the run's ledger.
ghost use Rattle.std.specs.Prelude.{◌≡◌, ◌+◌, ◌<◌, map, vec_len, IfOk};
ghost use Rattle.std.specs.List.{range_with_len};

use crate::bell::Bell;
use crate::turnstile::Turnstile;
use shared_machine::{Locked, RunName};
use sn_base::{Answer, Memory};
use sn_io::Gate;
use std::alloc::Global;
use std::sync::ledger::Share;
use std::sync::{Mutex, Wait};

/// A worker: its number, and one part of the ledger, which counts its turns.
#[derive(Drop)]
pub(crate) struct Slot<L: RunName> {
    worker: u32,
    share: Share<L>,
    ghost there: { worker < L.began.config.nodes },
    ghost one_part: { share.parts ≡ 1 },
}

/// One worker a node, in order of their numbers.
pub(crate) fn make_slots<L: RunName>(
    alloc: Global,
    nodes: u8,
    all: &mut Share<L>,
) -> Result<Vec<Slot<L>>, Memory>
    requires nodes { nodes ≡ L.began.config.nodes }
    requires parts { all.old.parts ≡ nodes + 1 }
    requires none { all.old.amount ≡ 0 }
    ensures numbers { IfOk result (λ v. map (λ s. s.worker) v.items ≡ range_with_len 0 nodes) }
    ensures parts { IfOk result (λ v. (vec_len v ≡ nodes) × (all.new.parts ≡ 1)) }
{
    let mut slots = Vec::with_capacity(alloc, usize::from(nodes))?;
    'workers: for worker in 0..nodes {
        let share = all.split_off(1, 0);
        slots.push(Slot {
            worker: u32::from(worker),
            share,
        })?;
    }
    Ok(slots)
}

/// The workers' shares, once they have ended.
pub(crate) fn gather<L: RunName>(slots: Vec<Slot<L>>, all: &mut Share<L>)
    ensures { all.new.parts ≡ all.old.parts + vec_len slots }
{
    let mut slots = slots;
    'slots: while let Some(slot) = slots.pop() {
        let Slot { worker: _, share } = slot;
        all.merge(share);
    }
}

/// A worker's turns, up to the first that is refused. The lock is held for the turn alone.
pub(crate) fn work<L: RunName, T: Wait, G: Gate>(
    rt: &T,
    lock: &Mutex<Locked<L>>,
    turnstile: &Turnstile,
    bell: &Bell,
    gate: &G,
    slot: &mut Slot<L>,
) {
    let worker = slot.worker;
    for turn in 1..u64::MAX {
        gate.before(worker, turn);
        let done = turnstile
            .enter(rt, lock, turn)
            .turn(&mut slot.share, worker);
        match done {
            Ok((_, Answer::Validated(_))) => bell.ring(),
            Ok(_) => {}
            Err(_) => break,
        }
    }
}
