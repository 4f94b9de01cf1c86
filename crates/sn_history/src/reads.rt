//! Counting the bytes of input that each node has taken.
ghost use Rattle.std.specs.Prelude.{◌≡◌, ℕ, ◌+◌, ◌-◌, ◌<◌, ◌≤◌, ◌^◌, [], ◌∷◌, slice_index};
ghost use Rattle.sn_history.specs.History.{reads_of, pending_records};

use interval_list::Waiting;
use rv_core::Record;

pub(crate) fn note_read(reads: &mut [u32; 16], taken: &Record)
    requires { (n : ℕ) → n < 16 → slice_index reads.old n + 1 < 2 ^ 32 }
    ensures { (n : ℕ) → n < 16 → slice_index reads.new n ≡ slice_index reads.old n + reads_of n (taken.now ∷ []) }
{
    if taken.read.is_some() {
        let core = usize::from(taken.core.number());
        reads[core] += 1;
    }
}

fn forget_read(reads: &mut [u32; 16], taken: &Record)
    requires { (n : ℕ) → n < 16 → reads_of n (taken.now ∷ []) ≤ slice_index reads.old n }
    ensures { (n : ℕ) → n < 16 → slice_index reads.new n + reads_of n (taken.now ∷ []) ≡ slice_index reads.old n }
{
    if taken.read.is_some() {
        let core = usize::from(taken.core.number());
        reads[core] -= 1;
    }
}

pub(crate) fn forget_reads(pending: &[Waiting<Record>], reads: &mut [u32; 16])
    requires { (n : ℕ) → n < 16 → reads_of n (pending_records pending.now) ≤ slice_index reads.old n }
    ensures { (n : ℕ) → n < 16 → slice_index reads.new n + reads_of n (pending_records pending.now) ≡ slice_index reads.old n }
{
    'pending: for one in pending.iter() {
        forget_read(reads, &one.entry);
    }
}
