//! The words of a line, and numbers in them.
ghost use Rattle.std.specs.Prelude.{◌≡◌, MatchOption, Some, None};
ghost use Rattle.access_texts.specs.Lines.{half_of, value_of, width_of, words_of};

use sn_base::Width;
use sn_text::{byte_in, parted, word_in};

/// The words of an access's line; the values are all that stands after the size.
#[derive(Clone, Copy)]
pub struct Words<'a> {
    pub core: &'a [u8],
    pub operation: &'a [u8],
    pub address: &'a [u8],
    pub size: &'a [u8],
    pub values: &'a [u8],
}

#[tactic(auto, unfolding(crate::specs::Lines::words_of))]
pub fn words_in(line: &[u8]) -> Option<Words<'_>>
    ensures { MatchOption result (words_of line.now ≡ None) (λ w. words_of line.now ≡
        Some (record { core = w.core.now; operation = w.operation.now; address = w.address.now; size = w.size.now; values = w.values.now })) }
{
    let (core, line) = parted(line)?;
    let (operation, line) = parted(line)?;
    let (address, line) = parted(line)?;
    let (size, values) = parted(line)?;
    Some(Words {
        core,
        operation,
        address,
        size,
        values,
    })
}

pub fn width_in(text: &[u8]) -> Option<Width>
    ensures { result ≡ width_of text.now }
{
    match text {
        b"1" => Some(Width::Byte),
        b"2" => Some(Width::Half),
        b"4" => Some(Width::Word),
        _ => None,
    }
}

fn half_in(text: &[u8]) -> Option<u32>
    ensures { result ≡ half_of text.now }
{
    if text.len() != 4 {
        return None;
    }
    let bytes = [byte_in(&text[..2])?, byte_in(&text[2..])?];
    Some(u32::from(u16::from_be_bytes(bytes)))
}

/// A value of this width, of two digits for each byte.
pub fn value_in(width: Width, text: &[u8]) -> Option<u32>
    ensures { result ≡ value_of width text.now }
{
    match width {
        Width::Byte => byte_in(text).map(u32::from),
        Width::Half => half_in(text),
        Width::Word => word_in(text),
    }
}
