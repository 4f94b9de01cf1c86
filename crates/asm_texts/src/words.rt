//! Words as hexadecimal digits, as a program's file may have them.
ghost use Rattle.std.specs.Prelude.{◌≡◌, ◌++◌, IfOk, OnOk};
ghost use Rattle.asm_texts.specs.Texts.{digits_line, words_text};

use rv_asm::add_digits;
use sn_base::Memory;
use std::alloc::Global;

/// The words of a program, one a line: eight lower-case hexadecimal digits and LF.
pub fn words_text(alloc: Global, words: &[u32]) -> Result<Vec<u8>, Memory>
    ensures { IfOk result (λ text. text.items ≡ words_text words.now) }
{
    let mut text = Vec::new(alloc);
    'words: for word in words {
        add_digits_line(&mut text, *word)?;
    }
    Ok(text)
}

/// Appends a number as eight lower-case digits and LF.
pub(crate) fn add_digits_line(text: &mut Vec<u8>, number: u32) -> Result<(), Memory>
    ensures { OnOk result (text.new.items ≡ text.old.items ++ digits_line number) }
{
    add_digits(text, number)?;
    text.push(b'\n')?;
    Ok(())
}
