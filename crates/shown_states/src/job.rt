//! What is to be replayed, and which of its states are shown.
ghost use Rattle.std.specs.Prelude.{◌≡◌};
ghost use Rattle.shown_states.specs.Pieces.{is_shown, first_shown};

use option_values::Places;
use script_replay::Script;
use sn_base::{Config, Image};

/// A program, the sizes of the machine that it runs on, the address of a word that the summary shows, the places of the events
/// that are shown, or all, and the events to apply.
#[derive(Drop)]
pub struct StatesReplay {
    pub program: Image,
    pub config: Config,
    pub watch: Option<u32>,
    pub only: Option<Places>,
    pub script: Script,
}

/// Whether the event at a place is shown.
pub fn is_shown(only: &Option<Places>, place: u32) -> bool
    ensures { result ≡ is_shown only.now place }
{
    match only {
        Some(places) => places.from <= place && place <= places.to,
        None => true,
    }
}

/// The first place that is shown.
pub fn first_shown(only: &Option<Places>) -> u32
    ensures { result ≡ first_shown only.now }
{
    match only {
        Some(places) => places.from,
        None => 1,
    }
}
