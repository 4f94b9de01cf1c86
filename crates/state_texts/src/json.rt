//! The smallest parts of a JSON text.
ghost use Rattle.std.specs.Prelude.{◌≡◌, ◌++◌, codes, decimal, OnOk};
ghost use Rattle.std.specs.List.{flat_map};
ghost use Rattle.text_lines.specs.Hex.{hex_byte, hex_word};
ghost use Rattle.sn_text.specs.Text.{named_number};
ghost use Rattle.state_json.specs.Json.{quotation_of, member, comma_after, flag, large, word, byte, bytes};

use itoa::Buffer;
use sn_base::Memory;
use text_lines::{hex_byte, hex_word};

/// Bytes as they are.
fn extend(text: &mut Vec<u8>, piece: &[u8]) -> Result<(), Memory>
    ensures { OnOk result (text.new.items ≡ text.old.items ++ piece.now) }
{
    Ok(text.extend_from_slice(piece)?)
}

/// A text as it is.
pub fn add(text: &mut Vec<u8>, piece: &str) -> Result<(), Memory>
    ensures { OnOk result (text.new.items ≡ text.old.items ++ piece.now) }
{
    extend(text, piece.as_bytes())
}

/// A member's name with what stands round it; its value is to follow.
fn add_named(text: &mut Vec<u8>, before: &str, name: &str) -> Result<(), Memory>
    ensures { OnOk result (text.new.items ≡ text.old.items ++ (before.now ++ name.now ++ codes "\":")) }
{
    add(text, before)?;
    add(text, name)?;
    add(text, "\":")
}

/// The beginning of an object, with its first member's name.
pub fn add_opening(text: &mut Vec<u8>, name: &str) -> Result<(), Memory>
    ensures { OnOk result (text.new.items ≡ text.old.items ++ (codes "{\"" ++ name.now ++ codes "\":")) }
{
    add_named(text, "{\"", name)
}

/// The name of a further member.
pub fn add_member(text: &mut Vec<u8>, name: &str) -> Result<(), Memory>
    ensures { OnOk result (text.new.items ≡ text.old.items ++ (codes ",\"" ++ name.now ++ codes "\":")) }
{
    add_named(text, ",\"", name)
}

/// A text in quotation marks.
pub(crate) fn add_quotation(text: &mut Vec<u8>, piece: &str) -> Result<(), Memory>
    ensures { OnOk result (text.new.items ≡ text.old.items ++ quotation_of piece.now) }
{
    add(text, "\"")?;
    add(text, piece)?;
    add(text, "\"")
}

/// A comma, where others stand before.
pub fn add_comma(text: &mut Vec<u8>, others: bool) -> Result<(), Memory>
    ensures { OnOk result (text.new.items ≡ text.old.items ++ comma_after others) }
{
    add(text, if others { "," } else { "" })
}

pub fn add_null(text: &mut Vec<u8>) -> Result<(), Memory>
    ensures { OnOk result (text.new.items ≡ text.old.items ++ codes "null") }
{
    add(text, "null")
}

pub fn add_flag(text: &mut Vec<u8>, is: bool) -> Result<(), Memory>
    ensures { OnOk result (text.new.items ≡ text.old.items ++ flag is) }
{
    add(text, if is { "true" } else { "false" })
}

/// A number in decimal digits.
pub fn add_number(text: &mut Vec<u8>, number: u64) -> Result<(), Memory>
    ensures { OnOk result (text.new.items ≡ text.old.items ++ decimal number) }
{
    let mut buffer = Buffer::new();
    add(text, buffer.format(number))
}

/// A name, a blank and a number.
pub(crate) fn add_name_and_number(text: &mut Vec<u8>, name: &str, number: u64) -> Result<(), Memory>
    ensures { OnOk result (text.new.items ≡ text.old.items ++ named_number name.now number) }
{
    add(text, name)?;
    add(text, " ")?;
    add_number(text, number)
}

/// A further member that is a number.
pub(crate) fn add_named_number(text: &mut Vec<u8>, name: &str, number: u64) -> Result<(), Memory>
    ensures { OnOk result (text.new.items ≡ text.old.items ++ member name.now (decimal number)) }
{
    add_member(text, name)?;
    add_number(text, number)
}

/// A number that may exceed 2^53, as a string.
pub fn add_large(text: &mut Vec<u8>, number: u64) -> Result<(), Memory>
    ensures { OnOk result (text.new.items ≡ text.old.items ++ large number) }
{
    add(text, "\"")?;
    add_number(text, number)?;
    add(text, "\"")
}

/// A word or an address as a string of eight hexadecimal digits.
pub fn add_word(text: &mut Vec<u8>, number: u32) -> Result<(), Memory>
    ensures { OnOk result (text.new.items ≡ text.old.items ++ word number) }
{
    add(text, "\"")?;
    extend(text, &hex_word(number))?;
    add(text, "\"")
}

/// A byte's two hexadecimal digits.
pub fn add_digits(text: &mut Vec<u8>, number: u8) -> Result<(), Memory>
    ensures { OnOk result (text.new.items ≡ text.old.items ++ hex_byte number) }
{
    extend(text, &hex_byte(number))
}

/// A byte as a string of two hexadecimal digits.
pub fn add_byte(text: &mut Vec<u8>, number: u8) -> Result<(), Memory>
    ensures { OnOk result (text.new.items ≡ text.old.items ++ byte number) }
{
    add(text, "\"")?;
    add_digits(text, number)?;
    add(text, "\"")
}

fn add_all_digits(text: &mut Vec<u8>, numbers: &[u8]) -> Result<(), Memory>
    ensures { OnOk result (text.new.items ≡ text.old.items ++ flat_map hex_byte numbers.now) }
{
    'bytes: for number in numbers {
        add_digits(text, *number)?;
    }
    Ok(())
}

/// Bytes as a string, two hexadecimal digits each.
pub fn add_bytes(text: &mut Vec<u8>, numbers: &[u8]) -> Result<(), Memory>
    ensures { OnOk result (text.new.items ≡ text.old.items ++ bytes numbers.now) }
{
    add(text, "\"")?;
    add_all_digits(text, numbers)?;
    add(text, "\"")
}
