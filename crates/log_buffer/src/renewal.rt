//! What the places become where entries go: one pass over the entries, however many blocks there are.
ghost use Rattle.std.specs.Prelude.{◌≡◌, ◌<◌, ◌≤◌, ◌^◌, [], length, take};
ghost use Rattle.log_buffer.specs.Log.{entries_from};
ghost use Rattle.log_buffer.specs.Index.{entries_of, HasLast, IsIndexed};

use crate::places::{Newest, Stored};
use sn_base::{Interval, is_home_side};

/// Takes the entries' places out of the table.
pub fn forget(stored: &[Stored], newest: &mut Newest)
    requires { IsIndexed stored.now newest.old }
    ensures { HasLast [] newest.new }
{
    'entries: for x in stored {
        newest.put(is_home_side(&x.entry.old), x.entry.block, None);
    }
}

/// Moves the entries whose interval is at least k to the front, in their order, with the places that they have then. The
/// answer is how many they are.
pub fn close_up(stored: &mut [Stored], newest: &mut Newest, k: Interval) -> usize
    requires indexed { IsIndexed stored.old newest.old }
    requires few { length stored.old < 2 ^ 16 }
    ensures within { result ≤ length stored.new }
    ensures kept { entries_of (take result stored.new) ≡ entries_from k (entries_of stored.old) }
    ensures indexed { IsIndexed (take result stored.new) newest.new }
{
    let mut kept = 0;
    'places: for place in 0..stored.len() {
        let x = stored[place];
        let older = newest.before(&x);
        let home_side = is_home_side(&x.entry.old);
        if x.entry.interval >= k {
            stored[kept] = Stored {
                entry: x.entry,
                older,
            };
            newest.put(home_side, x.entry.block, Some(kept as u16));
            kept += 1;
        } else {
            newest.put(home_side, x.entry.block, older);
        }
    }
    kept
}
