//! What the core's step and the memory of bytes give the theorems.
ghost use Rattle.std.specs.Prelude.{◌≡◌, ℕ, ◌+◌, ◌-◌, ◌%◌, ◌/◌, ◌*◌, ◌≤◌, Bool, cond, ◌==◌, Option, List, length};
ghost use Rattle.byteorder.specs.Endian.{little_bytes};
ghost use Rattle.sn_base.specs.Blocks.{ram_start, ram_size, bytes_of, stored_in};
ghost use Rattle.sn_base.specs.Image.{ImageData};
ghost use Rattle.sn_base.specs.declared.block.Width.{Width};
ghost use Rattle.rv_core.specs.declared.state.CoreState.{CoreState};
ghost use Rattle.rv_core.specs.Core.{bare, block_of};
ghost use Rattle.rv_core.specs.Step.{want_of, next_of};
ghost use Rattle.rv_core.specs.Flat.{word_at};
ghost use Rattle.sn_consistency.specs.Words.{kind_of, address_of, writes, block_in, block_word};
ghost use Rattle.sn_consistency.specs.Laws.{own_reservation, WriteFits};

/// What a core wants, does and becomes is the same with and without its reservation, but for the reservation itself. A
/// reservation counts only where a store-conditional is done, and that is a choice of the record.
pub fn reservation_plays_no_part()
    ensures want { (image : ImageData) (c : CoreState) → want_of image (bare c) ≡ want_of image c }
    ensures core { (image : ImageData) (c : CoreState) (seen : ℕ) (done : Bool) (read : Option ℕ) →
        bare (next_of image (bare c) seen done read).core ≡ bare (next_of image c seen done read).core }
    ensures effect { (image : ImageData) (c : CoreState) (seen : ℕ) (done : Bool) (read : Option ℕ) →
        (next_of image (bare c) seen done read).effect ≡ (next_of image c seen done read).effect }
{}

/// A load-reserved sets its core's reservation to its block, a store-conditional clears it, and every other instruction
/// and every trap leaves it.
pub fn only_lr_and_sc_change_reservation()
    ensures { (image : ImageData) (c : CoreState) (seen : ℕ) (done : Bool) (read : Option ℕ) →
        (next_of image c seen done read).core.reservation ≡ own_reservation (want_of image c) c.reservation }
{}

/// A core writes exactly where it wants to, a store-conditional where it is done; and what it writes lies in memory,
/// at a multiple of its width, and so inside one block.
pub fn write_fits_its_block()
    ensures { (image : ImageData) (c : CoreState) (seen : ℕ) (done : Bool) (read : Option ℕ) →
        WriteFits (address_of (want_of image c)) (writes (kind_of (want_of image c)) done) (next_of image c seen done read).effect.write }
{}

/// The aligned word that holds an address is the word of the address's block at its place there.
pub fn block_has_its_word()
    ensures { (memory : List ℕ) (address : ℕ) → word_at memory address ≡
        block_word (block_in memory (block_of address)) ((address - ram_start) % 64 / 4 * 4) }
{}

/// A byte, a half or a word that is stored in memory is stored at its place in its block, and in no other.
pub fn block_has_its_store()
    ensures { (memory : List ℕ) (width : Width) (value address b : ℕ) → length memory ≡ ram_size →
        ram_start ≤ address → address + bytes_of width ≤ ram_start + ram_size → address % bytes_of width ≡ 0 →
        block_in (stored_in memory (address - ram_start) (little_bytes (bytes_of width) value)) b ≡
        cond (b == block_of address) (stored_in (block_in memory b) ((address - ram_start) % 64) (little_bytes (bytes_of width) value))
        (block_in memory b) }
{}
