//! Numbers of a range.
ghost use Rattle.std.specs.Prelude.{◌≡◌, ◌≤◌, ◌-◌, ◌^◌, true, IfSome, option_map};
ghost use Rattle.sn_base.specs.Config.{lies_in};
ghost use Rattle.option_values.specs.Values.{number_in, number_by, demo_size};
ghost use Rattle.sn_base.specs.declared.limits.TheConstants.{EVENTS};

use crate::digits::number_in_radix;
use sn_base::EVENTS;

/// How many digits a number may have.
const DIGITS: usize = 20;

/// The range of a number, both ends in it, and the number that stands where the option isn't given.
#[derive(Clone, Copy)]
pub struct NumberRule {
    pub least: u64,
    pub greatest: u64,
    pub default: u64,
}

pub const NODES: NumberRule = NumberRule {
    least: 1,
    greatest: 16,
    default: 4,
};

pub const SETS: NumberRule = NumberRule {
    least: 1,
    greatest: 256,
    default: 16,
};

pub const WAYS: NumberRule = NumberRule {
    least: 1,
    greatest: 16,
    default: 4,
};

/// Entries of a node's log.
pub const LOG: NumberRule = NumberRule {
    least: 4,
    greatest: 4096,
    default: 256,
};

pub const INTERVAL: NumberRule = NumberRule {
    least: 1,
    greatest: EVENTS,
    default: 100,
};

pub const WAIT: NumberRule = NumberRule {
    least: 1,
    greatest: EVENTS,
    default: 20_000,
};

/// Moves of messages between two that are lost; with 0 none is.
pub const LOSE_EVERY: NumberRule = NumberRule {
    least: 0,
    greatest: EVENTS,
    default: 0,
};

/// Events of a run.
pub const BUDGET: NumberRule = NumberRule {
    least: 1,
    greatest: EVENTS,
    default: EVENTS,
};

pub const SEED: NumberRule = NumberRule {
    least: 0,
    greatest: u64::MAX,
    default: 1,
};

fn read_number(text: &str, least: u64, greatest: u64) -> Option<u64>
    ensures { result ≡ number_in least greatest text.now }
{
    if text.len() > DIGITS {
        return None;
    }
    let number = number_in_radix(text, 10)?;
    if least <= number && number <= greatest {
        Some(number)
    } else {
        None
    }
}

impl NumberRule {
    /// The number of the option: the given text's, or else the default. None where a text is given that is no number
    /// of the range in 1 to 20 digits; the first digits may be zeros.
    pub fn read(&self, given: Option<&str>) -> Option<u64>
        requires default { lies_in self.now.least self.now.greatest self.now.default ≡ true }
        ensures number { result ≡ number_by self.now (option_map (λ text. text.now) given.entry) }
        ensures inside { IfSome result (λ n. (self.now.least ≤ n) × (n ≤ self.now.greatest)) }
    {
        match given {
            Some(text) => read_number(text, self.least, self.greatest),
            None => Some(self.default),
        }
    }
}

/// A seed: any number of 64 bits.
pub(crate) fn read_seed(text: &str) -> Option<u64>
    ensures { result ≡ number_in 0 (2 ^ 64 - 1) text.now }
{
    read_number(text, SEED.least, SEED.greatest)
}

// A number of events, at most 1,000,000.
fn read_count(text: &str, least: u64) -> Option<u32>
    ensures count { result ≡ number_in least EVENTS text.now }
    ensures inside { IfSome result (λ count. lies_in least EVENTS count ≡ true) }
{
    let count = read_number(text, least, EVENTS)?;
    Some(count as u32)
}

/// How large a demonstration is: 1 to 1,000,000 events.
pub fn read_demo_size(text: &str) -> Option<u32>
    ensures size { result ≡ demo_size text.now }
    ensures inside { IfSome result (λ size. lies_in 1 EVENTS size ≡ true) }
{
    read_count(text, 1)
}

/// The place of an event: 1 to 1,000,000.
pub(crate) fn read_place(text: &str) -> Option<u32>
    ensures place { result ≡ number_in 1 EVENTS text.now }
    ensures inside { IfSome result (λ place. lies_in 1 EVENTS place ≡ true) }
{
    read_count(text, 1)
}

/// After how many events something happens: 0 to 1,000,000.
pub(crate) fn read_events(text: &str) -> Option<u32>
    ensures { result ≡ number_in 0 EVENTS text.now }
{
    read_count(text, 0)
}
