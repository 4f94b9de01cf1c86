//! What a line that is refused is near to.
ghost use Rattle.std.specs.Prelude.{◌≡◌, nat_eq, map, option_map, OnOk};
ghost use Rattle.std.specs.List.{position};
ghost use Rattle.reasons.specs.Hints.{words_of, key_word, begins_by_digit, begins, has, has_capital, ends_blank, first_word, operand, has_two_blanks};
ghost use Rattle.reasons.specs.Hints.{is_digit, is_capital, is_padded, has_leading_zero, is_of_other, other_text, slip, meant, hint};

use crate::near::nearest;
use crate::reason::Reason;
use sn_base::Memory;

/// The kinds of text with one item a line.
#[derive(Clone, Copy, PartialEq, Eq, Debug)]
pub enum TextKind {
    Script,
    Control,
    Trace,
    Accesses,
}

/// The words by which the lines of a script begin.
const EVENTS: &[&str] = &[
    "step", "edge", "report", "hop", "deliver", "lose", "kill", "evict", "input", "validate",
    "recover",
];

/// The words by which the lines of a control file begin.
const CONTROLS: &[&str] = &["order", "repeat", "lose", "deliver", "finish"];

/// The words that say what an access did, and the one by which a line of memory's start begins.
const OPERATIONS: &[&str] = &["r", "w", "lr", "sc", "scfail", "amo", "init"];

fn words_of(kind: TextKind) -> &'static [&'static str]
    ensures { map (λ word. word.now) result.now ≡ words_of kind }
{
    match kind {
        TextKind::Script => EVENTS,
        TextKind::Control => CONTROLS,
        TextKind::Trace => &[],
        TextKind::Accesses => OPERATIONS,
    }
}

fn begins(text: &[u8], line: &[u8]) -> bool
    ensures { result ≡ begins text.now line.now }
{
    line.strip_prefix(text).is_some()
}

/// Where a byte stands first.
pub(crate) fn place_of(byte: u8, line: &[u8]) -> Option<usize>
    ensures { result ≡ position (λ other. nat_eq other byte) line.now }
{
    line.iter().position(|other| *other == byte)
}

fn capital_in(line: &[u8]) -> Option<usize>
    ensures { result ≡ position is_capital line.now }
{
    line.iter().position(|byte| b'A' <= *byte && *byte <= b'Z')
}

fn has(byte: u8, line: &[u8]) -> bool
    ensures { result ≡ has byte line.now }
{
    place_of(byte, line).is_some()
}

fn has_capital(line: &[u8]) -> bool
    ensures { result ≡ has_capital line.now }
{
    capital_in(line).is_some()
}

fn ends_blank(line: &[u8]) -> bool
    ensures { result ≡ ends_blank line.now }
{
    !line.is_empty() && line[line.len() - 1] == b' '
}

/// What stands before the first blank.
fn first_word(line: &[u8]) -> &[u8]
    ensures { result.now ≡ first_word line.entry.now }
{
    match place_of(b' ', line) {
        Some(place) => &line[..place],
        None => line,
    }
}

/// What stands behind the first blank.
fn operand(line: &[u8]) -> &[u8]
    ensures { result.now ≡ operand line.entry.now }
{
    match place_of(b' ', line) {
        Some(place) => &line[place + 1..],
        None => &line[line.len()..],
    }
}

fn has_two_blanks(line: &[u8]) -> bool
    ensures { result ≡ has_two_blanks line.now }
{
    begins(b" ", operand(line)) || begins(b" ", operand(operand(line)))
}

fn is_digit(byte: u8) -> bool
    ensures { result ≡ is_digit byte }
{
    b'0' <= byte && byte <= b'9'
}

fn is_padded(text: &[u8]) -> bool
    ensures { result ≡ is_padded text.now }
{
    match text {
        [b'0', second, ..] => is_digit(*second),
        _ => false,
    }
}

fn has_leading_zero(kind: TextKind, line: &[u8]) -> bool
    ensures { result ≡ has_leading_zero kind line.now }
{
    match kind {
        TextKind::Trace | TextKind::Accesses => is_padded(line),
        TextKind::Script | TextKind::Control => is_padded(operand(line)),
    }
}

fn begins_by_digit(line: &[u8]) -> bool
    ensures { result ≡ begins_by_digit line.now }
{
    match line {
        [first, ..] => is_digit(*first),
        [] => false,
    }
}

/// The word that says what a line is: of an access the second, behind its core, and of any other line the first.
fn key_word(kind: TextKind, line: &[u8]) -> &[u8]
    ensures { result.now ≡ key_word kind line.entry.now }
{
    match kind {
        TextKind::Accesses if begins_by_digit(line) => first_word(operand(line)),
        _ => first_word(line),
    }
}

/// Whether the line is one of a script where a trace or accesses are wanted, or one of these where a script is.
fn is_of_other(kind: TextKind, line: &[u8]) -> bool
    ensures { result ≡ is_of_other kind line.now }
{
    match kind {
        TextKind::Trace | TextKind::Accesses => begins(b"step ", line)
            || begins(b"edge ", line)
            || begins(b"deliver ", line),
        TextKind::Script | TextKind::Control => begins_by_digit(line),
    }
}

/// What is wrong with a line that means well, by the first row that fits.
#[tactic(auto, unfolding(crate::specs::Hints::slip))]
fn slip(kind: TextKind, line: &[u8]) -> Option<&'static str>
    ensures { option_map (λ text. text.now) result ≡ slip kind line.now }
{
    if begins(&[0xef, 0xbb, 0xbf], line) {
        Some("a byte order mark stands at its front")
    } else if has(b'\t', line) {
        Some("words are parted by one blank and not by a tab")
    } else if has_capital(line) {
        Some("words are in lower case")
    } else if has(b'#', line) {
        Some("a comment has a line of its own")
    } else if begins(b" ", line) {
        Some("a blank stands at its front")
    } else if ends_blank(line) {
        Some("a blank stands at its end")
    } else if has_two_blanks(line) {
        Some("words are parted by one blank")
    } else if is_of_other(kind, line) {
        Some(other_text(kind))
    } else if has_leading_zero(kind, line) {
        Some("a number has no leading zero")
    } else {
        None
    }
}

fn other_text(kind: TextKind) -> &'static str
    ensures { result.now ≡ other_text kind }
{
    match kind {
        TextKind::Trace | TextKind::Accesses => "it is a script's, which replay takes",
        TextKind::Script | TextKind::Control => "it is a trace's, which check takes",
    }
}

fn write_meant(reason: &mut Reason, word: Option<&str>) -> Result<(), Memory>
    ensures { OnOk result (reason.new ≡ meant reason.old (option_map (λ text. text.now) word.entry)) }
{
    let Some(word) = word else {
        return Ok(());
    };
    reason.text("; did you mean ")?;
    reason.text(word)?;
    reason.text("?")
}

/// What the line is near to, behind a semicolon: the slip, or else the word that its key word is near to; or nothing.
#[tactic(auto, unfolding(crate::specs::Hints::hint))]
pub(crate) fn write_hint(reason: &mut Reason, kind: TextKind, line: &[u8]) -> Result<(), Memory>
    ensures { OnOk result (reason.new ≡ hint reason.old kind line.now) }
{
    match slip(kind, line) {
        Some(text) => {
            reason.text("; ")?;
            reason.text(text)
        }
        None => write_meant(reason, nearest(words_of(kind), key_word(kind, line))),
    }
}
