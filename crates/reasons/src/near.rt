//! Words that are nearly right.
ghost use Rattle.std.specs.Prelude.{◌≡◌, ◌+◌, ◌<◌, ◌≤◌, length, map, option_map};
ghost use Rattle.reasons.specs.Near.{is_swapped, differ_at_front, is_near, nearest};

/// Whether two bytes at the front are exchanged, and all behind them is the same.
fn is_swapped(given: &[u8], word: &[u8]) -> bool
    ensures { result ≡ is_swapped given.now word.now }
{
    match (given, word) {
        ([a, b, given_rest @ ..], [c, d, word_rest @ ..]) => {
            a == d && b == c && given_rest == word_rest
        }
        _ => false,
    }
}

/// Whether the first byte alone is wrong, too many or lacking, or exchanged with the second.
fn differ_at_front(given: &[u8], word: &[u8]) -> bool
    ensures { result ≡ differ_at_front given.now word.now }
{
    match (given, word) {
        ([_, given_rest @ ..], [_, word_rest @ ..]) => {
            given_rest == word_rest
                || given_rest == word
                || given == word_rest
                || is_swapped(given, word)
        }
        ([_], []) | ([], [_]) => true,
        _ => false,
    }
}

/// Whether two texts differ in one place, as `differ_at_front` says it.
pub fn is_near(given: &[u8], word: &[u8]) -> bool
    ensures { result ≡ is_near given.now word.now }
{
    let mut i = 0;
    'same: while i < given.len() && i < word.len() && given[i] == word[i] {
        i += 1;
    }
    differ_at_front(&given[i..], &word[i..])
}

/// The first of the words that is near.
pub fn nearest(words: &[&'static str], given: &[u8]) -> Option<&'static str>
    ensures { option_map (λ word. word.now) result ≡ nearest (map (λ word. word.now) words.now) given.now }
{
    'words: for word in words {
        if is_near(given, word.as_bytes()) {
            return Some(word);
        }
    }
    None
}
