//! The forms of operands.
ghost use Rattle.std.specs.Prelude.{◌≡◌, ℕ, ◌<◌, option_map, IfSome};
ghost use Rattle.rv_statement.specs.Forms.{register_then, registers_of, numbered_of, upper_of, closed_of, based_of, address_of, placed_of};
ghost use Rattle.rv_statement.specs.Forms.{reserved_of, atomic_of, compared_of};

use crate::line::{cut, trimmed};
use crate::operands::{number_of, register_of};

/// A register before a comma, and what follows the comma.
#[tactic(auto, unfolding(crate::specs::Forms::register_then))]
pub(crate) fn register_then(text: &[u8]) -> Option<(u8, &[u8])>
    ensures value { option_map (λ a. (a.0, a.1.now)) result ≡ register_then text.entry.now }
    ensures small { IfSome result (λ a. a.0 < 32) }
{
    let (first, rest) = cut(text, b',')?;
    let number = register_of(trimmed(first))?;
    Some((number, trimmed(rest)))
}

#[tactic(auto, unfolding(crate::specs::Forms::registers_of))]
pub(crate) fn registers_of(text: &[u8]) -> Option<(u8, u8, u8)>
    ensures value { result ≡ registers_of text.now }
    ensures small { IfSome result (λ a. (a.0 < 32) × (a.1 < 32) × (a.2 < 32)) }
{
    let (one, rest) = register_then(text)?;
    let (two, rest) = register_then(rest)?;
    let three = register_of(rest)?;
    Some((one, two, three))
}

#[tactic(auto, unfolding(crate::specs::Forms::numbered_of))]
pub(crate) fn numbered_of(text: &[u8]) -> Option<(u8, u8, i64)>
    ensures value { result ≡ numbered_of text.now }
    ensures small { IfSome result (λ a. (a.0 < 32) × (a.1 < 32)) }
{
    let (one, rest) = register_then(text)?;
    let (two, rest) = register_then(rest)?;
    let number = number_of(rest)?;
    Some((one, two, number))
}

#[tactic(auto, unfolding(crate::specs::Forms::upper_of))]
pub(crate) fn upper_of(text: &[u8]) -> Option<(u8, i64)>
    ensures value { result ≡ upper_of text.now }
    ensures small { IfSome result (λ a. a.0 < 32) }
{
    let (one, rest) = register_then(text)?;
    let number = number_of(rest)?;
    Some((one, number))
}

/// A register before a closing parenthesis, which ends the text.
#[tactic(auto, unfolding(crate::specs::Forms::closed_of))]
fn closed_of(text: &[u8]) -> Option<u8>
    ensures value { result ≡ closed_of text.now }
    ensures small { IfSome result (λ number. number < 32) }
{
    let (inner, after) = cut(text, b')')?;
    if after.is_empty() {
        register_of(trimmed(inner))
    } else {
        None
    }
}

/// What stands before a register in parentheses, and the register.
#[tactic(auto, unfolding(crate::specs::Forms::based_of))]
fn based_of(text: &[u8]) -> Option<(&[u8], u8)>
    ensures value { option_map (λ a. (a.0.now, a.1)) result ≡ based_of text.entry.now }
    ensures small { IfSome result (λ a. a.1 < 32) }
{
    let (before, rest) = cut(text, b'(')?;
    let base = closed_of(rest)?;
    Some((trimmed(before), base))
}

#[tactic(auto, unfolding(crate::specs::Forms::address_of))]
fn address_of(text: &[u8]) -> Option<u8>
    ensures value { result ≡ address_of text.now }
    ensures small { IfSome result (λ number. number < 32) }
{
    let (before, base) = based_of(text)?;
    if before.is_empty() { Some(base) } else { None }
}

#[tactic(auto, unfolding(crate::specs::Forms::placed_of))]
pub(crate) fn placed_of(text: &[u8]) -> Option<(u8, i64, u8)>
    ensures value { result ≡ placed_of text.now }
    ensures small { IfSome result (λ a. (a.0 < 32) × (a.2 < 32)) }
{
    let (one, rest) = register_then(text)?;
    let (before, base) = based_of(rest)?;
    let number = number_of(before)?;
    Some((one, number, base))
}

#[tactic(auto, unfolding(crate::specs::Forms::reserved_of))]
pub(crate) fn reserved_of(text: &[u8]) -> Option<(u8, u8)>
    ensures value { result ≡ reserved_of text.now }
    ensures small { IfSome result (λ a. (a.0 < 32) × (a.1 < 32)) }
{
    let (one, rest) = register_then(text)?;
    let base = address_of(rest)?;
    Some((one, base))
}

#[tactic(auto, unfolding(crate::specs::Forms::atomic_of))]
pub(crate) fn atomic_of(text: &[u8]) -> Option<(u8, u8, u8)>
    ensures value { result ≡ atomic_of text.now }
    ensures small { IfSome result (λ a. (a.0 < 32) × (a.1 < 32) × (a.2 < 32)) }
{
    let (one, rest) = register_then(text)?;
    let (two, rest) = register_then(rest)?;
    let base = address_of(rest)?;
    Some((one, two, base))
}

#[tactic(auto, unfolding(crate::specs::Forms::compared_of))]
pub(crate) fn compared_of(text: &[u8]) -> Option<(u8, u8, &[u8])>
    ensures value { option_map (λ a. (a.0, a.1, a.2.now)) result ≡ compared_of text.entry.now }
    ensures small { IfSome result (λ a. (a.0 < 32) × (a.1 < 32)) }
{
    let (one, rest) = register_then(text)?;
    let (two, rest) = register_then(rest)?;
    Some((one, two, rest))
}
