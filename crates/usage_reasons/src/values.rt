//! Whether a value follows its rule, as `option_values` has it.
ghost use Rattle.std.specs.Prelude.{◌≡◌, ◌≤◌, Some, is_some};
ghost use Rattle.option_values.specs.Values.{number_by, watch_by, demo_size};
ghost use Rattle.option_values.specs.Runs.{kill_in};
ghost use Rattle.option_values.specs.Places.{places_by};
ghost use Rattle.option_values.specs.Seeds.{seeds_by};
ghost use Rattle.usage_reasons.specs.Table.{rule_of};

use crate::table::{Quantity, rule_of};
use option_values::{RunWords, read_demo_size, read_places, read_seeds, read_watch};

pub(crate) fn is_number(quantity: Quantity, value: &str) -> bool
    ensures { result ≡ is_some (number_by (rule_of quantity) (Some value.now)) }
{
    let rule = rule_of(quantity);
    rule.read(Some(value)).is_some()
}

pub(crate) fn is_address(value: &str) -> bool
    ensures { result ≡ is_some (watch_by (Some value.now)) }
{
    read_watch(Some(value)).is_some()
}

pub(crate) fn are_places(value: &str) -> bool
    ensures { result ≡ is_some (places_by (Some value.now)) }
{
    read_places(Some(value)).is_some()
}

pub(crate) fn are_seeds(value: &str) -> bool
    ensures { result ≡ is_some (seeds_by (Some value.now)) }
{
    read_seeds(Some(value)).is_some()
}

pub(crate) fn is_size(word: &str) -> bool
    ensures { result ≡ is_some (demo_size word.now) }
{
    read_demo_size(word).is_some()
}

/// Whether a machine of so many nodes has the switch, and its number of events is in its range.
#[tactic(auto, using(crate::proofs::Kills::kill_alone))]
pub(crate) fn is_kill(nodes: u8, value: &str) -> bool
    requires few { nodes ≤ 16 }
    ensures { result ≡ is_some (kill_in nodes value.now) }
{
    let words = RunWords {
        interval: None,
        wait: None,
        lose_every: None,
        kill: Some(value),
        budget: None,
        seed: None,
    };
    words.rules(nodes).is_some()
}
