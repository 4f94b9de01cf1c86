//! What the workers draw.
ghost use Rattle.std.specs.Prelude.{◌≡◌, ℕ, ◌+◌, ◌<◌, ◌≤◌, List, ◌∷◌, [], ◌++◌, length, vec_len, IfOk};
ghost use Rattle.sn_base.specs.declared.event.Event.{Event};
ghost use Rattle.run_journals.specs.declared.entry.JournalEntry.{JournalEntry};
ghost use Rattle.run_journals.specs.Journal.{entry_of, next_pick};
ghost use Rattle.turn_orders.specs.Drawn.{AreDrawn};

use rand_core::SeedableRng;
use rand_core::utils::NextWord;
use rand_pcg::Pcg32;
use sn_base::Memory;
use std::alloc::Global;

/// A generator for each worker, made of the run's seed and its number.
pub fn generators(alloc: Global, seed: u64, workers: u8) -> Result<Vec<Pcg32>, Memory>
    ensures { IfOk result (λ v. AreDrawn seed [] v.items × (vec_len v ≡ workers)) }
{
    let mut generators = Vec::with_capacity(alloc, usize::from(workers))?;
    'workers: for worker in 0..workers {
        generators.push(Pcg32::seed_from_u64(seed.wrapping_add(u64::from(worker))))?;
    }
    Ok(generators)
}

/// A worker draws its next number.
pub fn draw(generators: &mut Vec<Pcg32>, worker: u32) -> u32
    requires { worker < length generators.old.items }
    ensures pick { (seed : ℕ) (journal : List JournalEntry) → AreDrawn seed journal generators.old.items → result ≡ next_pick seed journal worker }
    ensures drawn { (seed : ℕ) (journal : List JournalEntry) (event : Event) → AreDrawn seed journal generators.old.items
        → AreDrawn seed (journal ++ entry_of worker event ∷ []) generators.new.items }
    ensures count { length generators.new.items ≡ length generators.old.items }
{
    generators[worker as usize].next_word()
}
