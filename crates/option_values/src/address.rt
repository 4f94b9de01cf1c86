//! The address of a word of memory.
ghost use Rattle.std.specs.Prelude.{◌≡◌, true, IfSome, option_map};
ghost use Rattle.option_values.specs.Values.{address_in, watch_by, is_word_address};

use crate::digits::number_in_radix;
use sn_base::{RAM_END, RAM_START};

fn read_address(text: &str) -> Option<u32>
    ensures address { result ≡ address_in text.now }
    ensures inside { IfSome result (λ address. is_word_address address ≡ true) }
{
    if text.len() != 8 {
        return None;
    }
    let address = number_in_radix(text, 16)?;
    if (u64::from(RAM_START)..u64::from(RAM_END)).contains(&address) && address % 4 == 0 {
        Some(address as u32)
    } else {
        None
    }
}

/// The word to be watched: `Some(None)` where no text is given, and None where one is given that isn't the address of
/// an aligned word of memory in eight hexadecimal digits, in either case.
pub fn read_watch(given: Option<&str>) -> Option<Option<u32>>
    ensures watch { result ≡ watch_by (option_map (λ text. text.now) given.entry) }
    ensures inside { IfSome result (λ watch. IfSome watch (λ address. is_word_address address ≡ true)) }
{
    match given {
        Some(text) => Some(Some(read_address(text)?)),
        None => Some(None),
    }
}
