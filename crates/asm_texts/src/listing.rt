//! The lines of a program's words.
ghost use Rattle.std.specs.Prelude.{◌≡◌, ◌++◌, ◌+◌, ◌*◌, Some, IfOk, OnOk};
ghost use Rattle.std.specs.List.{flat_map};
ghost use Rattle.asm_texts.specs.Texts.{heading, lines_at, listing};

use crate::words::add_digits_line;
use rv_asm::add_line;
use sn_base::{Image, Memory, RAM_SIZE, RAM_START};
use std::alloc::Global;

/// The lines of a program's words at multiples of 4 whose four bytes are executable, in order of address. A line `# ADDRESS`
/// of eight lower-case digits stands before the first and wherever a word isn't next to the one before. It looks at each word
/// of memory once.
pub fn listing_of(alloc: Global, image: &Image) -> Result<Vec<u8>, Memory>
    ensures { IfOk result (λ text. text.items ≡ listing image.now.segments) }
{
    let mut text = Vec::new(alloc);
    let mut is_next = image.fetch(RAM_START - 4).is_some();
    'places: for place in 0..RAM_SIZE / 4 {
        let address = RAM_START + 4 * place;
        let word = image.fetch(address);
        add_lines(&mut text, is_next, address, word)?;
        is_next = word.is_some();
    }
    Ok(text)
}

/// Appends the lines of an address.
fn add_lines(
    text: &mut Vec<u8>,
    is_next: bool,
    address: u32,
    word: Option<u32>,
) -> Result<(), Memory>
    ensures { OnOk result (text.new.items ≡ text.old.items ++ lines_at is_next address word) }
{
    let Some(word) = word else {
        return Ok(());
    };
    add_heading(text, is_next, address)?;
    add_line(text, word)
}

fn add_heading(text: &mut Vec<u8>, is_next: bool, address: u32) -> Result<(), Memory>
    ensures { OnOk result (text.new.items ≡ text.old.items ++ heading is_next address) }
{
    if is_next {
        return Ok(());
    }
    text.extend_from_slice(b"# ")?;
    add_digits_line(text, address)
}
