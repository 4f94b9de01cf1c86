//! A range of seeds.
ghost use Rattle.std.specs.Prelude.{◌≡◌, true, IfSome, option_map};
ghost use Rattle.option_values.specs.Seeds.{seeds_in, seeds_by, seeds_fit};

use crate::number::read_seed;

/// The most seeds of a range.
pub const MOST_SEEDS: u64 = 1_000_000;

/// The seeds from one to another, both among them.
#[derive(Clone, Copy, PartialEq, Eq, Debug)]
pub struct Seeds {
    pub first: u64,
    pub last: u64,
}

fn read_ends(text: &str) -> Option<Seeds>
    ensures seeds { result ≡ seeds_in text.now }
    ensures inside { IfSome result (λ seeds. seeds_fit seeds ≡ true) }
{
    let (first, last) = text.split_once('-')?;
    let first = read_seed(first)?;
    let last = read_seed(last)?;
    if first <= last && last - first < MOST_SEEDS {
        Some(Seeds { first, last })
    } else {
        None
    }
}

/// The range of seeds: `Some(None)` where no text is given, and None where one is given that isn't two seeds with `-` between them, of
/// which the first is at most the second, and of at most 1,000,000 seeds.
pub fn read_seeds(given: Option<&str>) -> Option<Option<Seeds>>
    ensures seeds { result ≡ seeds_by (option_map (λ text. text.now) given.entry) }
    ensures inside { IfSome result (λ given. IfSome given (λ seeds. seeds_fit seeds ≡ true)) }
{
    match given {
        Some(text) => Some(Some(read_ends(text)?)),
        None => Some(None),
    }
}
