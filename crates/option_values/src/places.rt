//! Places of events.
ghost use Rattle.std.specs.Prelude.{◌≡◌, ◌≤◌, true, IfSome, option_map};
ghost use Rattle.option_values.specs.Places.{places_in, places_by, places_fit};

use crate::number::read_place;

/// The places of events from one to another, both counted from 1.
#[derive(Clone, Copy, PartialEq, Eq, Debug)]
pub struct Places {
    pub from: u32,
    pub to: u32,
}

fn read_ends(text: &str) -> Option<Places>
    ensures places { result ≡ places_in text.now }
    ensures inside { IfSome result (λ places. places_fit places ≡ true) }
{
    let (from, to) = text.split_once('-')?;
    let from = read_place(from)?;
    let to = read_place(to)?;
    if from <= to {
        Some(Places { from, to })
    } else {
        None
    }
}

/// The places that are shown: `Some(None)`, all of them, where no text is given, and None where one is given that isn't two
/// numbers from 1 to 1,000,000 with `-` between them, of which the first is at most the second.
pub fn read_places(given: Option<&str>) -> Option<Option<Places>>
    ensures places { result ≡ places_by (option_map (λ text. text.now) given.entry) }
    ensures inside { IfSome result (λ given. IfSome given (λ places. places_fit places ≡ true)) }
{
    match given {
        Some(text) => Some(Some(read_ends(text)?)),
        None => Some(None),
    }
}
