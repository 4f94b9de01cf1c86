//! Why a trace is no execution.
ghost use Rattle.std.specs.Prelude.{◌≡◌, ◌<◌, ◌^◌, length, option_map, OnOk};
ghost use Rattle.reasons.specs.Reason.{begun, line_of_reason};
ghost use Rattle.reasons.specs.Places.{record_line};
ghost use Rattle.reasons.specs.Verdicts.{record_place, saw, verdict_reason};

use crate::place::record_line;
use crate::reason::Reason;
use rv_core::Record;
use sn_base::Memory;

#[tactic(auto, unfolding(crate::specs::Verdicts::record_place))]
fn write_numbered(reason: &mut Reason, place: u64, line: Option<u64>) -> Result<(), Memory>
    ensures { OnOk result (reason.new ≡ record_place reason.old place line) }
{
    reason.text("record ")?;
    reason.number(place)?;
    let Some(line) = line else {
        return reason.text(": ");
    };
    reason.counted(" (line ", line, "): ")
}

#[tactic(auto, unfolding(crate::specs::Verdicts::saw))]
fn write_saw(reason: &mut Reason, taken: &Record) -> Result<(), Memory>
    ensures { OnOk result (reason.new ≡ saw reason.old taken.now) }
{
    reason.text("core ")?;
    reason.number(u64::from(taken.core.number()))?;
    reason.text(" saw ")?;
    reason.word(taken.seen)
}

#[tactic(auto, unfolding(crate::specs::Verdicts::verdict_reason))]
fn write_judged(
    reason: &mut Reason,
    taken: Option<&Record>,
    memory: Option<u32>,
) -> Result<(), Memory>
    ensures { OnOk result (reason.new ≡ verdict_reason reason.old (option_map (λ t. t.now) taken.entry) memory) }
{
    let Some(taken) = taken else {
        return reason.text("the flat machine has no such step");
    };
    write_saw(reason, taken)?;
    let Some(word) = memory else {
        return reason.text(", and the flat machine has no such step");
    };
    reason.text(", and the memory has ")?;
    reason.word(word)
}

/// The line that says which record of a trace is the first without a step, its place counted from 1, and what the core saw
/// there. The word is what the memory has, where that is why.
pub fn write_refused(
    reason: &mut Reason,
    place: u64,
    bytes: &[u8],
    taken: Option<&Record>,
    memory: Option<u32>,
) -> Result<(), Memory>
    requires { length bytes.now < 2 ^ 62 }
    ensures { OnOk result (reason.new ≡ line_of_reason (verdict_reason (record_place (begun reason.old) place (record_line bytes.now place))
        (option_map (λ t. t.now) taken.entry) memory)) }
{
    reason.begin()?;
    write_numbered(reason, place, record_line(bytes, place))?;
    write_judged(reason, taken, memory)?;
    reason.end()
}
