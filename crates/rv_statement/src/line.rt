//! The parts of a line.
ghost use Rattle.std.specs.Prelude.{◌≡◌, ℕ, ◌+◌, ◌<◌, nat_eq, length, take, drop, reverse, option_map, IfSome};
ghost use Rattle.std.specs.List.{position};
ghost use Rattle.rv_statement.specs.Lines.{is_blank, without_blanks, without_outer_blanks, cut, bare};

fn is_blank(byte: u8) -> bool
    ensures { result ≡ is_blank byte }
{
    byte == b' ' || byte == b'\t'
}

fn skipped(text: &[u8]) -> &[u8]
    ensures { result.now ≡ without_blanks text.entry.now }
{
    'bytes: for (i, byte) in text.iter().enumerate() {
        if !is_blank(*byte) {
            return &text[i..];
        }
    }
    &text[text.len()..]
}

fn trimmed_end(text: &[u8]) -> &[u8]
    ensures { result.now ≡ reverse (without_blanks (reverse text.entry.now)) }
{
    let mut end = text.len();
    'bytes: while end > 0 && is_blank(text[end - 1]) {
        end -= 1;
    }
    &text[..end]
}

/// Without the blanks at both ends.
#[tactic(auto, unfolding(crate::specs::Lines::without_outer_blanks))]
pub(crate) fn trimmed(text: &[u8]) -> &[u8]
    ensures { result.now ≡ without_outer_blanks text.entry.now }
{
    trimmed_end(skipped(text))
}

fn place_of(text: &[u8], byte: u8) -> Option<usize>
    ensures place { result ≡ position (λ other. nat_eq other byte) text.now }
    ensures within { IfSome result (λ place. place < length text.now) }
{
    text.iter().position(|other| *other == byte)
}

fn blank_place(text: &[u8]) -> Option<usize>
    ensures place { result ≡ position is_blank text.now }
    ensures within { IfSome result (λ place. place < length text.now) }
{
    text.iter().position(|byte| is_blank(*byte))
}

/// What stands before a place, and what stands after it.
fn cut_at(text: &[u8], place: usize) -> (&[u8], &[u8])
    requires { place < length text.now }
    ensures front { result.0.now ≡ take place text.entry.now }
    ensures back { result.1.now ≡ drop (place + 1) text.entry.now }
{
    (&text[..place], &text[place + 1..])
}

/// What stands before the first such byte, and what stands after it.
#[tactic(auto, unfolding(crate::specs::Lines::cut))]
pub(crate) fn cut(text: &[u8], byte: u8) -> Option<(&[u8], &[u8])>
    ensures { option_map (λ parts. (parts.0.now, parts.1.now)) result ≡ cut (λ other. nat_eq other byte) text.entry.now }
{
    match place_of(text, byte) {
        Some(place) => Some(cut_at(text, place)),
        None => None,
    }
}

/// What stands before the first blank, and what stands after it.
#[tactic(auto, unfolding(crate::specs::Lines::cut))]
pub(crate) fn cut_blank(text: &[u8]) -> Option<(&[u8], &[u8])>
    ensures { option_map (λ parts. (parts.0.now, parts.1.now)) result ≡ cut is_blank text.entry.now }
{
    match blank_place(text) {
        Some(place) => Some(cut_at(text, place)),
        None => None,
    }
}

/// A line without its comment and the blanks at its ends.
#[tactic(auto, unfolding(crate::specs::Lines::bare))]
pub(crate) fn bare(line: &[u8]) -> &[u8]
    ensures { result.now ≡ bare line.entry.now }
{
    match cut(line, b'#') {
        Some((front, _)) => trimmed(front),
        None => trimmed(line),
    }
}
