//! What an answer says beforehand of an event.
ghost use Rattle.std.specs.Prelude.{◌≡◌};
ghost use Rattle.sn_model.specs.MachineEvents.{is_edged, is_validated};
ghost use Rattle.due_events.specs.Lists.{is_delivered, is_reported, needs_evict, goes_on};

use sn_base::Answer;

pub fn is_delivered(answer: &Answer) -> bool
    ensures { result ≡ is_delivered answer.now }
{
    matches!(answer, Answer::Delivered)
}

pub fn is_edged(answer: &Answer) -> bool
    ensures { result ≡ is_edged answer.now }
{
    matches!(answer, Answer::Edged(_))
}

pub fn is_reported(answer: &Answer) -> bool
    ensures { result ≡ is_reported answer.now }
{
    matches!(answer, Answer::Reported(_))
}

pub fn is_validated(answer: &Answer) -> bool
    ensures { result ≡ is_validated answer.now }
{
    matches!(answer, Answer::Validated(_))
}

pub fn needs_evict(answer: &Answer) -> bool
    ensures { result ≡ needs_evict answer.now }
{
    matches!(answer, Answer::NeedsEvict)
}

/// Whether an instruction comes a step further.
pub fn goes_on(answer: &Answer) -> bool
    ensures { result ≡ goes_on answer.now }
{
    matches!(answer, Answer::Retired | Answer::Missed)
}
