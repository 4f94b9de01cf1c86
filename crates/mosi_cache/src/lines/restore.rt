//! The lines once a recovery begins: each that owns its block is Modified, and the Shared copies are gone.
ghost use Rattle.std.specs.Prelude.{◌≡◌, ◌*◌, ◌<◌, length, map, slice_set};
ghost use Rattle.cache_array.specs.Slots.{AreSlots, block_at};
ghost use Rattle.mosi_cache.specs.Restored.{begun_line};
ghost use Rattle.mosi_cache.specs.Unshared.{slot_unless_shared, AreUnshared, AreSettled};

use super::{FrameLine, Lines};
use cache_array::Frames;
use sn_model::LineState;
use touched_places::Touched;

/// Frees the frame where the line in it is in the state Shared.
fn free_if_shared(frames: &mut Frames, frame: usize, state: LineState)
    requires inside { frame < frames.old.sets * frames.old.ways }
    requires slots { AreSlots frames.old }
    ensures freed { frames.new
        ≡ record frames.old { slots = slice_set frames.old.slots frame (slot_unless_shared state (block_at frames.old frame)) } }
    ensures slots { AreSlots frames.new }
{
    if !matches!(state, LineState::Shared) {
        return;
    }
    if let Some(block) = frames.block_in(frame) {
        frames.drop_frame(block);
    }
}

/// Frees each frame whose line is Shared, and makes the other lines Modified: so they are but for the touched frames already.
fn settle(frames: &mut Frames, kept: &mut Vec<FrameLine>, touched: &Touched)
    requires slots { AreSlots frames.old }
    requires whole { length kept.old.items ≡ length frames.old.slots }
    requires settled { AreSettled touched.now frames.old kept.old.items }
    ensures { AreUnshared frames.old frames.new kept.old.items kept.new.items }
{
    'frames: for frame in touched.places() {
        let line = &mut kept[*frame];
        free_if_shared(frames, *frame, line.state);
        line.state = LineState::Modified;
    }
}

impl Lines {
    /// Drops the Shared copies, and makes each line that owns its block Modified. It looks only at the frames that were touched
    /// since the last time.
    pub fn keep_owned(&mut self)
        ensures { self.new ≡ record self.old { lines = map begun_line self.old.lines } }
    {
        settle(&mut self.frames, &mut self.kept, &self.touched);
        self.touched.clear();
    }
}

#[cfg(test)]
impl Lines {
    pub fn ways(&self) -> u8
        ensures { result ≡ self.now.ways }
    {
        self.ways
    }
}
