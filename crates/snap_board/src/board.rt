//! The side that publishes.
ghost use Rattle.std.specs.Prelude.{◌≡◌, ◌<◌, [], ◌∷◌, ◌++◌, true, drop, IfOk, OnOk, OnErr};
ghost use Rattle.left_right.specs.Sides.{view as sight};
ghost use Rattle.snap_board.specs.Fronts.{EndsIn};
ghost use Rattle.snap_board.specs.Posts.{MayShow, IsReady, Shows, shown_after};
ghost use Rattle.snap_board.specs.Sights.{unknown};
ghost use Rattle.snap_board.specs.Snap.{SnapData};

use crate::holder::Holder;
use crate::receipt::Receipt;
use crate::roll::Note;
use crate::rule::{Looks, Sees, Shower};
use crate::shown::{Post, Shown};
use crate::sight::{Hears, Tells};
use crate::snap::Snap;
use crate::watcher::Watcher;
use core::mem::replace_with;
use left_right::writer::Writer;
use sn_base::Memory;
use std::alloc::Global;
use std::marker::Model;
use std::sync::Wait;
use std::thread;

/// A board, on which at least one snapshot was shown. Contracts see the list of all that were. It is let go by `end`.
pub struct Board {
    writer: Shower,
    holder: Holder,
    last: Snap,
}

impl Model for Board {
    ghost use Rattle.std.specs.Prelude.{◌≡◌, [], true, drop};
    ghost use Rattle.snap_board.specs.Fronts.{Rises, EndsIn};
    ghost use Rattle.snap_board.specs.Posts.{Shows};
    ghost use Rattle.snap_board.specs.Watching.{BoardData};

    ghost Value = { BoardData };

    ghost view = { λ b. record { board = b.holder.note.table_id; published = b.holder.note.me.0.seen } };

    ghost invariant = { λ b. (b.holder.note.me.0.leads ≡ true) × Rises b.holder.note.me.0.seen × EndsIn b.holder.note.me.0.seen b.last
        × (drop b.writer.behind b.writer.log.items ≡ [])
        × Shows b.writer.desk.shown.value.perch b.holder.note.table_id b.holder.note.me.0.seen };
}

/// Shows what is pending.
fn publish<R: Wait>(rt: &R, writer: Shower) -> Shower
    requires { MayShow writer.desk.shown.value.perch (drop writer.behind writer.log.items) }
    ensures settled { drop result.behind result.log.items ≡ [] }
    ensures shown { result.desk.shown.value.perch ≡ shown_after writer.desk.shown.value.perch (drop writer.behind writer.log.items) }
    ensures sight { ((sight result.desk.place).known ≡ true) × ((sight result.desk.place).perch ≡ result.desk.shown.value.perch) }
{
    let (writer, _always) = writer.publish_as::<Looks, R>(rt);
    writer
}

/// The same, of a writer in its place.
fn publish_on<R: Wait>(rt: &R, writer: &mut Shower)
    requires { MayShow writer.old.desk.shown.value.perch (drop writer.old.behind writer.old.log.items) }
    ensures settled { drop writer.new.behind writer.new.log.items ≡ [] }
    ensures shown { writer.new.desk.shown.value.perch
        ≡ shown_after writer.old.desk.shown.value.perch (drop writer.old.behind writer.old.log.items) }
{
    replace_with(
        writer,
        (),
        |writer: Shower, _nothing: ()| -> (Shower, ())
            requires { MayShow writer.desk.shown.value.perch (drop writer.behind writer.log.items) }
            ensures { (drop result.0.behind result.0.log.items ≡ [])
                × (result.0.desk.shown.value.perch ≡ shown_after writer.desk.shown.value.perch (drop writer.behind writer.log.items)) }
        { (publish(rt, writer), ()) },
    )
}

/// Puts a note in its place beside what is shown.
fn put(shown: &Shown, note: Note)
    requires board { note.table_id ≡ shown.now.perch.table_id }
    requires knows { note.me ≡ (shown.now.perch.view, []) }
{
    let _back = shown.perch.give(note, 0, 2);
}

/// Shows the snapshot that stands last on the roll, with a note of it. Where there is no memory for it, which the post before it
/// had, it is shown with the next.
fn post<R: Wait>(rt: &R, writer: &mut Shower, holder: &mut Holder, snap: &Snap)
    requires ends { EndsIn holder.old.note.me.0.seen snap.now }
    requires ready { IsReady writer.old.desk.shown.value.perch (drop writer.old.behind writer.old.log.items)
        holder.old.note.table_id holder.old.note.me.0.seen }
    ensures settled { drop writer.new.behind writer.new.log.items ≡ [] }
    ensures shown { Shows writer.new.desk.shown.value.perch holder.new.note.table_id holder.new.note.me.0.seen }
    ensures same { (holder.new.note.table_id ≡ holder.old.note.table_id) × (holder.new.note.me ≡ holder.old.note.me) }
{
    let post = Post::new(snap.copied(), holder.tell());
    if writer.append(post).is_err() {
        publish_on(rt, writer);
        return;
    }
    publish_on(rt, writer);
    put(writer.published(), holder.tell());
}

/// A reader's place, which is asked for again until it is given: as there is no memory to it, one will be.
fn reader_of<R: Wait>(rt: &R, writer: &Shower) -> Sees
    ensures known { sight result.place ≡ unknown }
    ensures table { result.place.table_id ≡ writer.now.desk.place.table_id }
{
    for _ in rt.forever() {
        if let Ok(reader) = writer.factory().reader() {
            return reader;
        }
        thread::yield_now();
    }
    unreachable!()
}

/// A reader that knows what was shown.
fn informed<R: Wait>(rt: &R, writer: &mut Shower) -> Sees
    ensures known { sight result.place ≡ sight writer.old.desk.place }
    ensures same { (writer.new.desk.shown ≡ writer.old.desk.shown) × (writer.new.log ≡ writer.old.log)
        × (writer.new.behind ≡ writer.old.behind) }
{
    let mut reader = reader_of(rt, writer);
    reader.learn::<Hears>(writer.tell::<Tells>());
    reader
}

impl Board {
    /// A board that shows a first snapshot, and its watcher, who has seen that. It waits only where a reader's place isn't given at
    /// once.
    pub fn new<R: Wait>(rt: &R, alloc: Global, first: &Snap) -> Result<(Board, Watcher), Memory>
        ensures { IfOk result (λ made. (made.0.published ≡ first.now ∷ []) × (made.1.front ≡ first.now ∷ [])
            × (made.1.board ≡ made.0.board)) }
    {
        let mut holder = Holder::new(alloc)?;
        holder.add(first);
        let watching = holder.another()?;
        let post = Post::new(first.copied(), holder.tell());
        let writer = Writer::new(alloc, post.shown(), post.shown(), 1)?;
        let mut writer = publish(rt, writer);
        let reader = informed(rt, &mut writer);
        let watcher = Watcher::new(reader, watching, first.copied());
        let board = Board {
            writer,
            holder,
            last: first.copied(),
        };
        Ok((board, watcher))
    }

    /// Shows a later snapshot. It may wait for a watcher that is looking.
    pub fn show<R: Wait>(&mut self, rt: &R, snap: Snap) -> Result<(), Memory>
        requires { (s : SnapData) → EndsIn self.old.published s → s.point < snap.point }
        ensures ok { OnOk result (self.new ≡ record self.old { published = self.old.published ++ snap ∷ [] }) }
        ensures err { OnErr result (self.new ≡ self.old) }
    {
        // What is on the roll can't be taken back. So memory is asked for first, by a post of what is shown.
        let present = Post::new(self.last.copied(), self.holder.tell());
        if self.writer.append(present).is_err() {
            return Err(Memory);
        }
        self.holder.add(&snap);
        post(rt, &mut self.writer, &mut self.holder, &snap);
        self.last = snap;
        Ok(())
    }

    /// What names the list so far.
    pub fn receipt(&mut self) -> Receipt
        ensures names { result ≡ record { board = self.old.board; list = self.old.published } }
        ensures same { self.new ≡ self.old }
    {
        Receipt::new(self.last.copied(), self.holder.tell())
    }

    /// Nothing is shown any more. It may wait for a watcher that is looking.
    pub fn end<R: Wait>(self, rt: &R) {
        let Board {
            writer,
            holder: _holder,
            last: _last,
        } = self;
        writer.take(rt);
    }
}
