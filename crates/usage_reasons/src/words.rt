//! What a word of a call looks like.
ghost use Rattle.std.specs.Prelude.{◌≡◌, map, option_map, is_some, string_bytes};
ghost use Rattle.usage_reasons.specs.Words.{begins, is_short, is_help, is_among, option_in, value_in, key_in, is_given};
ghost use Rattle.usage_reasons.specs.Words.{first_given};

use crate::table::{Command, Key, key_of, options_of};

pub(crate) fn begins(front: &[u8], word: &[u8]) -> bool
    ensures { result ≡ begins front.now word.now }
{
    word.strip_prefix(front).is_some()
}

/// A hyphen and more, as `-x`.
pub(crate) fn is_short(word: &str) -> bool
    ensures { result ≡ is_short word.now }
{
    word.len() > 1 && begins(b"-", word.as_bytes())
}

pub(crate) fn is_help(word: &str) -> bool
    ensures { result ≡ is_help word.now }
{
    match word {
        "--help" | "-h" | "help" => true,
        _ => false,
    }
}

pub(crate) fn is_among(words: &[&'static str], word: &str) -> bool
    ensures { result ≡ is_among (map (λ known. known.now) words.now) word.now }
{
    'words: for known in words {
        if *known == word {
            return true;
        }
    }
    false
}

/// The option of `--name` or `--name=value`, with its hyphens.
pub(crate) fn option_in(word: &str) -> &str
    ensures { result.now ≡ option_in word.entry.now }
{
    match word.split_once('=') {
        Some((option, _)) => option,
        None => word,
    }
}

/// The value of `--name=value`.
pub(crate) fn value_in(word: &str) -> Option<&str>
    ensures { option_map (λ value. value.now) result ≡ value_in word.entry.now }
{
    match word.split_once('=') {
        Some((_, value)) => Some(value),
        None => None,
    }
}

pub(crate) fn has_value(word: &str) -> bool
    ensures { result ≡ is_some (value_in word.now) }
{
    match value_in(word) {
        Some(_) => true,
        None => false,
    }
}

/// What the value of an option is, where the command has the option and it takes one.
pub(crate) fn key_in(command: Command, option: &str) -> Option<Key>
    ensures { result ≡ key_in command option.now }
{
    if is_among(options_of(command), option) {
        key_of(option)
    } else {
        None
    }
}

/// Whether one of the words is the option.
pub(crate) fn is_given(option: &str, words: &[String]) -> bool
    ensures { result ≡ is_given option.now (map string_bytes words.now) }
{
    'words: for word in words {
        if option_in(word.as_str()) == option {
            return true;
        }
    }
    false
}

/// The first of the options that one of the words is.
pub(crate) fn first_given(options: &[&'static str], words: &[String]) -> Option<&'static str>
    ensures { option_map (λ option. option.now) result ≡ first_given (map (λ option. option.now) options.now) (map string_bytes words.now) }
{
    'options: for option in options {
        if is_given(option, words) {
            return Some(option);
        }
    }
    None
}
