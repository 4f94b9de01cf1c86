//! A worker's generator.
ghost use Rattle.std.specs.Prelude.{◌≡◌, ℕ, ◌+◌, ◌<◌, ◌≤◌, List, [], ◌∷◌, ◌++◌, length};
ghost use Rattle.sn_base.specs.declared.event.Event.{Event};
ghost use Rattle.run_journals.specs.declared.entry.JournalEntry.{JournalEntry};
ghost use Rattle.run_journals.specs.Journal.{entry_of, next_pick};
ghost use Rattle.shared_machine.specs.Pickers.{picker_at, AreDrawn};

use rand_core::SeedableRng;
use rand_core::utils::NextWord;
use rand_pcg::Pcg32;

/// What a worker draws next, and its generator after that. The number is drawn beforehand, so that a turn that is refused
/// draws nothing.
#[derive(Drop)]
pub(crate) struct Picker {
    generator: Pcg32,
    pick: u32,
}

impl Picker {
    pub(crate) fn new(seed: u64, worker: u32) -> Picker
        ensures { result ≡ picker_at seed worker 0 }
    {
        let mut generator = Pcg32::seed_from_u64(seed.wrapping_add(u64::from(worker)));
        let pick = generator.next_word();
        Picker { generator, pick }
    }

    pub(crate) fn pick(&self) -> u32
        ensures { result ≡ self.now.pick }
    {
        self.pick
    }

    /// Draws once more.
    pub(crate) fn draw(&mut self)
        ensures { (seed worker picks : ℕ) → self.old ≡ picker_at seed worker picks → self.new ≡ picker_at seed worker (picks + 1) }
    {
        self.pick = self.generator.next_word();
    }
}

/// What a worker draws next.
pub(crate) fn pick_of(pickers: &Vec<Picker>, worker: u32) -> u32
    requires { worker < length pickers.now.items }
    ensures { (seed : ℕ) (journal : List JournalEntry) → AreDrawn seed journal pickers.now.items → result ≡ next_pick seed journal worker }
{
    pickers[worker as usize].pick()
}

/// A worker draws in its turn.
pub(crate) fn draw(pickers: &mut Vec<Picker>, worker: u32)
    requires { worker < length pickers.old.items }
    ensures drawn { (seed : ℕ) (journal : List JournalEntry) (event : Event) → AreDrawn seed journal pickers.old.items
        → AreDrawn seed (journal ++ entry_of worker event ∷ []) pickers.new.items }
    ensures count { length pickers.new.items ≡ length pickers.old.items }
{
    pickers[worker as usize].draw();
}
