//! A log unwound into a cache with room for two blocks, and which entry of a log leads to which.
ghost use Rattle.std.specs.Prelude.{◌≡◌, ◌≢◌, ℕ, ◌⊎◌, nat_eq, if◌then◌else◌, false, refl};
ghost use Rattle.std.proofs.Common.{◌∙◌, inl, inr};
ghost use Rattle.rollback.specs.Unwound.{Old};
ghost use Rattle.sn_base.specs.declared.log.Old.TheVariants.{NotOwned};

use crate::{Restore, unwind};
use log_buffer::{LogBuffer, is_home_side};
use sn_base::{Block, BlockNo, Entries, LogEntry, Old};
use std::test::Fail;

// A cache with room for two blocks, and the node that it belongs to.
#[derive(Drop)]
struct Pair {
    node: u8,
    first: BlockNo,
    first_held: Old,
    second: BlockNo,
    second_held: Old,
    ghost apart: { first ≢ second },
}

impl Pair {
    fn held(&self, block: BlockNo) -> Old {
        if block == self.first {
            self.first_held
        } else if block == self.second {
            self.second_held
        } else {
            Old::NotOwned
        }
    }
}

impl Restore for Pair {
    ghost home_side = { false };

    ghost holds = { λ p b. if nat_eq b p.first then p.first_held else (if nat_eq b p.second then p.second_held else NotOwned) };

    ghost fits = { λ p m. (x : ℕ) × (y : ℕ) × ((b : ℕ) → b ≢ x → b ≢ y → m b ≡ NotOwned) };

    ghost stays = { λ p q. p.node ≡ q.node };

    fn forget(&mut self, block: BlockNo, old: &Old) {
        if is_home_side(old) {
            return;
        }
        if block == self.first {
            self.first_held = Old::NotOwned;
        } else if block == self.second {
            self.second_held = Old::NotOwned;
        }
    }

    fn put_back(&mut self, block: BlockNo, old: &Old) {
        if is_home_side(old) {
            return;
        }
        if block == self.first {
            self.first_held = *old;
        } else if block == self.second {
            self.second_held = *old;
        } else if matches!(old, Old::Owned(_)) {
            if matches!(self.first_held, Old::NotOwned) {
                self.first = block;
                self.first_held = *old;
            } else {
                self.second = block;
                self.second_held = *old;
            }
        }
    }

    ghost stays_refl = { λ p. refl };

    ghost stays_trans = { λ p q r h i. h ∙ i };

    ghost part = { λ s p w h i. (h.0, h.1, λ b m n. elim (i b) [ inl e ↦ e ∙ h.2 b m n | inr e ↦ e ]) };

    ghost way = { λ s f l m h i j. (i.0, i.1, λ b k n. elim (j b) [ inl e ↦ e ∙ i.2 b k n | inr e ↦ e ]) };
}

#[test]
fn what_was_let_go_makes_room_for_what_is_put_back(rt: HostRuntime) -> Result<(), Fail> {
    let (w, x, z) = (BlockNo::new(1), BlockNo::new(2), BlockNo::new(3));
    let mut log = LogBuffer::new(rt.alloc(), 4)?;
    log.note(0, x, Old::Owned(Block::zero()));
    log.note(0, w, Old::NotOwned);
    log.note(0, z, Old::Owned(Block::zero()));
    let mut pair = Pair {
        node: 5,
        first: w,
        first_held: Old::Owned(Block::zero()),
        second: x,
        second_held: Old::Owned(Block::zero()),
    };
    assert_eq!(rt; unwind(&log, 0, &mut pair), 3);
    assert_eq!(rt; pair.node, 5);
    assert_eq!(rt; pair.held(w), Old::NotOwned);
    assert_eq!(rt; pair.held(x), Old::Owned(Block::zero()));
    assert_eq!(rt; pair.held(z), Old::Owned(Block::zero()));
    Ok(())
}

// A log that keeps to itself where the entry before another stands.
#[derive(Drop)]
struct Listed(LogBuffer);

impl Entries for Listed {
    ghost use Rattle.log_buffer.specs.Log.{LogData};

    ghost entries = { λ l. l.0.entries };

    fn count(&self) -> usize {
        self.0.count()
    }

    fn entry(&self, place: usize) -> &LogEntry {
        self.0.entry(place)
    }
}

fn third_leads_to_first<E: Entries>(log: &E) -> bool {
    log.count() == 3 && log.older(1).is_none() && log.older(2) == Some(0)
}

#[test]
fn an_entry_leads_to_the_one_before_it(rt: HostRuntime) -> Result<(), Fail> {
    let (w, x) = (BlockNo::new(1), BlockNo::new(2));
    let mut log = LogBuffer::new(rt.alloc(), 4)?;
    log.note(0, w, Old::NotOwned);
    log.note(1, x, Old::NotOwned);
    log.note(2, w, Old::Owned(Block::zero()));
    assert!(rt; third_leads_to_first(&log));
    assert!(rt; third_leads_to_first(&Listed(log)));
    Ok(())
}
