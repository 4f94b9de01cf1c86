//! Accesses judged, one after another.
ghost use Rattle.std.specs.Prelude.{◌≡◌, ℕ, ◌<◌, ◌≤◌, ◌↔◌, All, IfOk, length, take};
ghost use Rattle.access_check.specs.Accesses.{IsFittingAccess, IsFittingWord};
ghost use Rattle.access_check.specs.Legal.{MemoryState, AreLegal, IsFirstRefused, memory_after_all, start_of};
ghost use Rattle.access_check.specs.Blocks.{IsWide, Shows};
ghost use Rattle.access_check.specs.Verdicts.{IsVerdict};
ghost use Rattle.access_check.specs.declared.verdict.Verdict.TheVariants.{Legal};

use crate::access::{Access, StartWord};
use crate::blocks::Blocks;
use crate::refusal::refusal_at;
use crate::verdict::Verdict;
use sn_base::Memory;
use std::alloc::Global;

/// Judges accesses to a memory that begins with these words, and with 0 elsewhere. It takes memory for all blocks at once,
/// and a time that grows with the number of accesses and words alone.
pub fn judge(alloc: Global, words: &[StartWord], accesses: &[Access]) -> Result<Verdict, Memory>
    requires words { All IsFittingWord words.now }
    requires accesses { All IsFittingAccess accesses.now }
    ensures verdict { IfOk result (IsVerdict (start_of words.now) accesses.now) }
    ensures legal { IfOk result (λ verdict. (verdict ≡ Legal) ↔ AreLegal (start_of words.now) accesses.now) }
{
    let mut blocks = Blocks::start(alloc, words)?;
    let done = count_legal(&mut blocks, accesses);
    if done == accesses.len() {
        return Ok(Verdict::Legal);
    }
    Ok(Verdict::Refused(refusal_at(&blocks, accesses, done)))
}

/// How many accesses, from the first on, are legal; these are done.
fn count_legal(blocks: &mut Blocks, accesses: &[Access]) -> usize
    requires wide { IsWide blocks.old }
    requires fits { All IsFittingAccess accesses.now }
    ensures wide { IsWide blocks.new }
    ensures within { result ≤ length accesses.now }
    ensures legal { (m : MemoryState) → Shows blocks.old m → AreLegal m (take result accesses.now) }
    ensures refused { (m : MemoryState) → Shows blocks.old m → result < length accesses.now → IsFirstRefused m accesses.now result }
    ensures shows { (m : MemoryState) → Shows blocks.old m → Shows blocks.new (memory_after_all m (take result accesses.now)) }
{
    'accesses: for place in 0..accesses.len() {
        let access = accesses[place];
        if !blocks.allows(&access) {
            return place;
        }
        blocks.apply(&access);
    }
    accesses.len()
}
