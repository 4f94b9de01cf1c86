//! Hexadecimal images: a text whose lines are words of eight digits.
ghost use Rattle.std.specs.Prelude.{◌≡◌, ℕ, ◌+◌, ◌<◌, ◌≤◌, ◌%◌, ◌^◌, List, [], ◌∷◌, length, vec_len, IfOk, IfErr, OnOk, IfSome};
ghost use Rattle.std.specs.Prelude.{slice_index};
ghost use Rattle.elf_load.specs.Hexadecimal.{digit_of, word_of, line_of, code_from, hexadecimal_image};
ghost use Rattle.text_lines.specs.Lines.{lines_of};
ghost use Rattle.elf_load.specs.Loading.{IsRefusedAs};

use crate::fault::{LoadCause, LoadFault};
use sn_base::{Image, RAM_SIZE, RAM_START, Segment};
use std::alloc::Global;
use text_lines::lines_of;

/// What a line of the text is.
#[derive(Clone, Copy, PartialEq, Eq, Debug)]
pub enum Line {
    Skipped,
    Word(u32),
    Malformed,
}

fn digit(byte: u8) -> Option<u32>
    ensures same { result ≡ digit_of byte }
    ensures small { IfSome result (λ digit. digit < 16) }
{
    match byte {
        b'0'..=b'9' => Some(u32::from(byte - b'0')),
        b'a'..=b'f' => Some(u32::from(byte - b'a') + 10),
        b'A'..=b'F' => Some(u32::from(byte - b'A') + 10),
        _ => None,
    }
}

fn word_in(text: &[u8]) -> Option<u32>
    ensures { result ≡ word_of text.now }
{
    if text.len() != 8 {
        return None;
    }
    let mut number = 0u32;
    'digits: for byte in text {
        let Some(digit) = digit(*byte) else {
            return None;
        };
        number = number * 16 + digit;
    }
    Some(number)
}

fn line_in(text: &[u8]) -> Line
    ensures { result ≡ line_of text.now }
{
    if text.is_empty() || text[0] == b'#' {
        return Line::Skipped;
    }
    match word_in(text) {
        Some(word) => Line::Word(word),
        None => Line::Malformed,
    }
}

#[tactic(auto, unfolding(crate::specs::Hexadecimal::code_from))]
/// Adds the code of a line, whose number is counted from 1, to that of the lines before it.
fn add_line(code: &mut Vec<u8>, number: u64, text: &[u8]) -> Result<(), LoadFault>
    requires { vec_len code.old % 4 ≡ 0 }
    ensures ok { OnOk result
        ((lines : List (List ℕ)) → code_from number code.old.items (text.now ∷ lines) ≡ code_from (number + 1) code.new.items lines) }
    ensures whole { OnOk result (vec_len code.new % 4 ≡ 0) }
    ensures small { OnOk result (vec_len code.old ≤ 4194304 → vec_len code.new ≤ 4194304) }
    ensures refused { IfErr result
        (λ fault. (lines : List (List ℕ)) → IsRefusedAs (code_from number code.old.items (text.now ∷ lines)) fault) }
{
    match line_in(text) {
        Line::Skipped => Ok(()),
        Line::Malformed => Err(LoadFault::Refused(LoadCause::BadHexLine(number))),
        Line::Word(word) => {
            if code.len() >= RAM_SIZE as usize {
                return Err(LoadFault::Refused(LoadCause::TooManyWords));
            }
            code.extend_from_slice(&word.to_le_bytes())?;
            Ok(())
        }
    }
}

/// The code of a text's words.
fn code_of(alloc: Global, text: &[u8]) -> Result<Vec<u8>, LoadFault>
    ensures ok { IfOk result (λ code. code_from 1 [] (lines_of text.now) ≡ Ok code.items) }
    ensures whole { IfOk result (λ code. vec_len code % 4 ≡ 0) }
    ensures small { IfOk result (λ code. vec_len code ≤ 4194304) }
    ensures refused { IfErr result (λ fault. IsRefusedAs (code_from 1 [] (lines_of text.now)) fault) }
{
    let mut code = Vec::new(alloc);
    let mut number = 1u64;
    let mut lines = lines_of(text);
    'lines: while let Some(line) = lines.next_line() {
        if let Err(fault) = add_line(&mut code, number, line) {
            return Err(fault);
        }
        number += 1;
    }
    Ok(code)
}

/// The image that a text is: its words, from the first address of memory up.
pub fn read_text(alloc: Global, text: &[u8]) -> Result<Image, LoadFault>
    ensures ok { IfOk result (λ image. hexadecimal_image text.now ≡ Ok image) }
    ensures refused { IfErr result (λ fault. IsRefusedAs (hexadecimal_image text.now) fault) }
{
    let code = code_of(alloc, text)?;
    if code.is_empty() {
        return Err(LoadFault::Refused(LoadCause::BadEntry(RAM_START)));
    }
    let segment = Segment {
        start: RAM_START,
        size: code.len() as u32,
        bytes: code,
        write: false,
        exec: true,
    };
    let mut segments = Vec::with_capacity(alloc, 1)?;
    segments.push(segment)?;
    Ok(Image::new(segments, RAM_START))
}
