//! Who has a note of the roll.
ghost use Rattle.std.specs.Prelude.{◌≡◌, true, false, [], ◌∷◌, ◌++◌, IfOk};
ghost use Rattle.std.specs.Arc.{arc_value};
ghost use Rattle.snap_board.specs.Fronts.{Rises};
ghost use Rattle.snap_board.specs.Keeps.{Heard, publisher, knowledge_told, knowledge_after};

use crate::roll::{Adds, Hears, IsTold, Note, Roll, Tells};
use crate::snap::Snap;
use atomic_table::Table;
use sn_base::Memory;
use std::alloc::Global;
use std::sync::Arc;

/// Who has a note of the roll, and may hear more of it.
#[derive(Drop)]
pub struct Holder {
    roll: Arc<Roll>,
    pub(crate) note: Note,
    ghost own: { (note.table_id ≡ (arc_value roll).shared.table_id) × (note.table_id.words ≡ 1) × (note.me.1 ≡ []) },
}

impl Holder {
    /// The one that publishes, with a roll on which nothing stands.
    pub(crate) fn new(alloc: Global) -> Result<Holder, Memory>
        ensures { IfOk result (λ made. made.note.me.0 ≡ publisher) }
    {
        let (roll, note): (Roll, Note) = Table::of_words(alloc, &[0], &())?;
        let roll = Arc::new(alloc, roll)?;
        Ok(Holder { roll, note })
    }

    /// Another with a note of the same roll, who knows as much.
    pub(crate) fn another(&mut self) -> Result<Holder, Memory>
        ensures made { IfOk result (λ made. (made.note.table_id ≡ self.old.note.table_id)
            × (made.note.me.0 ≡ knowledge_told self.old.note.me.0)) }
        ensures same { (self.new.note.table_id ≡ self.old.note.table_id) × (self.new.note.me ≡ self.old.note.me) }
    {
        let roll = Arc::try_clone(&self.roll)?;
        let note = self.tell();
        Ok(Holder { roll, note })
    }

    /// Adds a snapshot to the published list.
    pub(crate) fn add(&mut self, snap: &Snap)
        requires leads { self.old.note.me.0.leads ≡ true }
        requires rises { Rises (self.old.note.me.0.seen ++ snap.now ∷ []) }
        ensures leads { self.new.note.me.0.leads ≡ true }
        ensures seen { self.new.note.me.0.seen ≡ self.old.note.me.0.seen ++ snap.now ∷ [] }
        ensures same { self.new.note.table_id ≡ self.old.note.table_id }
    {
        let roll = &self.roll;
        roll.shared
            .compare_exchange_with::<Adds>(&mut self.note, 0, 0, 0, snap);
    }

    /// A note that knows what this one does.
    pub(crate) fn tell(&mut self) -> Note
        ensures same { (self.new.note.table_id ≡ self.old.note.table_id) × (self.new.note.me ≡ self.old.note.me) }
        ensures told { (result.table_id ≡ self.old.note.table_id) × (result.me ≡ (knowledge_told self.old.note.me.0, [])) }
    {
        let roll = &self.roll;
        roll.shared.split_seat::<Tells>(&mut self.note)
    }

    /// A note that knows what another does.
    pub(crate) fn copy_of(&self, note: &mut Note) -> Note
        requires { (note.old.table_id ≡ self.now.note.table_id) × (note.old.me.1 ≡ []) }
        ensures same { (note.new.table_id ≡ note.old.table_id) × (note.new.me ≡ note.old.me) }
        ensures told { (result.table_id ≡ note.old.table_id) × (result.me ≡ (knowledge_told note.old.me.0, [])) }
    {
        let roll = &self.roll;
        roll.shared.split_seat::<Tells>(note)
    }

    /// Hears what a note knows.
    pub(crate) fn hear(&mut self, note: Note)
        requires own { (note.table_id ≡ self.old.note.table_id) × (note.me.1 ≡ []) }
        requires follows { self.old.note.me.0.leads ≡ false }
        ensures heard { Heard (knowledge_after self.old.note.me.0 note.me.0) self.new.note.me.0 }
        ensures same { self.new.note.table_id ≡ self.old.note.table_id }
    {
        let roll = &self.roll;
        roll.shared.join_seat::<IsTold>(&mut self.note, note);
        roll.shared.load::<Hears>(&mut self.note, 0);
    }
}
