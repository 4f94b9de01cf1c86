//! The reading side.
ghost use Rattle.std.specs.Prelude.{◌≡◌, ◌<◌, ◌≤◌, true, false, IfSome};
ghost use Rattle.left_right.specs.Sides.{view as sight};
ghost use Rattle.sn_consistency.specs.Committed.{Begins};
ghost use Rattle.snap_board.specs.Fronts.{Rises, EndsIn};
ghost use Rattle.snap_board.specs.Snap.{SnapData};

use crate::holder::Holder;
use crate::receipt::Receipt;
use crate::rule::{Looks, Sees};
use crate::shown::Shown;
use crate::snap::Snap;
use core::mem::replace_with;
use std::marker::Model;

/// One who looks at a board.
#[derive(Drop)]
pub struct Watcher {
    reader: Sees,
    holder: Holder,
    last: Snap,
}

impl Model for Watcher {
    ghost use Rattle.std.specs.Prelude.{◌≡◌, true, false};
    ghost use Rattle.left_right.specs.Sides.{view as sight};
    ghost use Rattle.snap_board.specs.Fronts.{Rises, EndsIn};
    ghost use Rattle.snap_board.specs.Watching.{WatcherData};

    ghost Value = { WatcherData };

    ghost view = { λ w. record { board = w.holder.note.table_id; front = w.holder.note.me.0.seen } };

    ghost invariant = { λ w. (w.holder.note.me.0.leads ≡ false) × Rises w.holder.note.me.0.seen × EndsIn w.holder.note.me.0.seen w.last
        × ((sight w.reader.place).known ≡ true) × ((sight w.reader.place).perch.table_id ≡ w.holder.note.table_id) };
}

/// The receipt of what is shown. None where the note of it isn't in its place.
fn receipt_of(shown: &Shown, holder: &Holder) -> Option<Receipt>
    requires { shown.now.perch.table_id ≡ holder.now.note.table_id }
    ensures { IfSome result (λ receipt. receipt ≡ record { board = holder.now.note.table_id; list = shown.now.perch.view.seen }) }
{
    let mut note = shown.perch.take(0).1?;
    let told = holder.copy_of(&mut note);
    let _back = shown.perch.give(note, 0, 2);
    Some(Receipt::new(shown.snap.copied(), told))
}

/// Reads what is shown. None where the board has ended, too.
fn read(reader: Sees, holder: &Holder) -> (Sees, Option<Receipt>)
    requires known { (sight reader.place).known ≡ true }
    requires board { (sight reader.place).perch.table_id ≡ holder.now.note.table_id }
    ensures known { (sight result.0.place).known ≡ true }
    ensures board { (sight result.0.place).perch.table_id ≡ holder.now.note.table_id }
    ensures receipt { IfSome result.1 (λ receipt. receipt.board ≡ holder.now.note.table_id) }
{
    match reader.enter_as::<Looks>() {
        Ok(reading) => {
            let receipt = receipt_of(reading.get(), holder);
            (reading.leave(), receipt)
        }
        Err(reader) => (reader, None),
    }
}

/// Goes by another snapshot, where that is later.
fn go_by(last: &mut Snap, other: Snap)
    ensures later { last.old.point < other.point → last.new ≡ other }
    ensures stays { other.point ≤ last.old.point → last.new ≡ last.old }
{
    if last.point() < other.point() {
        *last = other;
    }
}

impl Watcher {
    /// A watcher that knows what its note does, which ends in this snapshot.
    pub(crate) fn new(reader: Sees, holder: Holder, last: Snap) -> Watcher
        requires follows { holder.note.me.0.leads ≡ false }
        requires rises { Rises holder.note.me.0.seen }
        requires ends { EndsIn holder.note.me.0.seen last }
        requires known { (sight reader.place).known ≡ true }
        requires board { (sight reader.place).perch.table_id ≡ holder.note.table_id }
        ensures { result ≡ record { board = holder.note.table_id; front = holder.note.me.0.seen } }
    {
        Watcher {
            reader,
            holder,
            last,
        }
    }

    /// What is shown now, or what a receipt told, where that is later; without waiting. Once the board has ended, it is what was
    /// known last.
    pub fn look(&mut self) -> Snap
        ensures last { EndsIn self.new.front result }
        ensures rises { Rises self.new.front }
        ensures goes_on { Begins self.old.front self.new.front }
        ensures stays { (s : SnapData) → EndsIn self.old.front s → s.point ≤ result.point }
        ensures same { self.new.board ≡ self.old.board }
    {
        self.go_on();
        self.last.copied()
    }

    /// Learns the receipt of what is shown.
    fn go_on(&mut self)
        ensures goes_on { Begins self.old.front self.new.front }
        ensures rises { Rises self.new.front }
        ensures same { self.new.board ≡ self.old.board }
    {
        if let Some(receipt) = self.read_on() {
            self.learn(receipt);
        }
    }

    /// Takes the receipt of what is shown.
    fn read_on(&mut self) -> Option<Receipt>
        ensures same { self.new ≡ self.old }
        ensures rises { Rises self.new.front }
        ensures board { IfSome result (λ receipt. receipt.board ≡ self.old.board) }
    {
        replace_with(
            &mut self.reader,
            &self.holder,
            |reader: Sees, holder: &Holder| -> (Sees, Option<Receipt>)
                requires { ((sight reader.place).known ≡ true) × ((sight reader.place).perch.table_id ≡ holder.now.note.table_id) }
                ensures { ((sight result.0.place).known ≡ true)
                    × ((sight result.0.place).perch.table_id ≡ holder.now.note.table_id)
                    × IfSome result.1 (λ receipt. receipt.board ≡ holder.now.note.table_id) }
            { read(reader, holder) },
        )
    }

    /// From now on the front begins with the list of this receipt, which is one of this watcher's board.
    pub fn learn(&mut self, receipt: Receipt)
        requires { receipt.board ≡ self.old.board }
        ensures learned { Begins receipt.list self.new.front }
        ensures goes_on { Begins self.old.front self.new.front }
        ensures rises { Rises self.new.front }
        ensures same { self.new.board ≡ self.old.board }
    {
        let Receipt { last, note } = receipt;
        go_by(&mut self.last, last);
        self.holder.hear(note);
    }
}
