//! The text of a verdict, and the call that judges a text and puts it.
ghost use Rattle.std.specs.Prelude.{◌≡◌, ℕ, ◌<◌, ◌^◌, List, [], ◌∷◌, ◌++◌, length, All, Option, IfOk, OnOk, Err, decimal, codes};
ghost use Rattle.sn_io.specs.Outside.{Rose, followed_by};
ghost use Rattle.sink_pieces.specs.Pieces.{Report, ends, Breaks};
ghost use Rattle.sn_text.specs.declared.cause.ScriptCause.{ScriptCause};
ghost use Rattle.access_check.specs.declared.verdict.Verdict.{Verdict};
ghost use Rattle.access_check.specs.Accesses.{IsFittingAccess, IsFittingWord};
ghost use Rattle.access_texts.specs.Lists.{said_by};
ghost use Rattle.access_texts.specs.Verdicts.{cause_text, since_text, value_text, verdict_text, IsBrokenOff, IsJudged, IsJudgedInPart, IsPut};
ghost use Rattle.access_texts.specs.declared.verdicts.JudgeFault.TheVariants as faults;

use crate::access_list::{AccessList, read_accesses};
use access_check::{Cause, Verdict, judge};
use itoa::Buffer;
use sink_pieces::put_report;
use sn_base::{Memory, Width};
use sn_io::Sink;
use sn_text::{ScriptCause, ScriptFault};
use std::alloc::Global;
use text_lines::hex_word;

/// Why there is no verdict, or not all of its text was put.
#[derive(Clone, Copy, PartialEq, Eq, Debug)]
pub enum JudgeFault {
    /// The text is no list of accesses.
    Refused(ScriptCause),
    /// The report failed, and has a beginning of the text of this verdict.
    Sink(Verdict),
    /// Memory was wanted and not given. Nothing was put.
    Memory,
}

/// Appends a value of so many bytes, two digits for each.
fn add_value(text: &mut Vec<u8>, width: Width, value: u32) -> Result<(), Memory>
    ensures { OnOk result (text.new.items ≡ text.old.items ++ value_text width value) }
{
    let from = match width {
        Width::Byte => 6,
        Width::Half => 4,
        Width::Word => 0,
    };
    text.extend_from_slice(&hex_word(value)[from..])?;
    Ok(())
}

fn add_number(text: &mut Vec<u8>, number: u64) -> Result<(), Memory>
    ensures { OnOk result (text.new.items ≡ text.old.items ++ decimal number) }
{
    let mut buffer = Buffer::new();
    text.extend_from_slice(buffer.format(number).as_bytes())?;
    Ok(())
}

fn add_since(text: &mut Vec<u8>, since: u64) -> Result<(), Memory>
    ensures { OnOk result (text.new.items ≡ text.old.items ++ since_text since) }
{
    text.extend_from_slice(b" since ")?;
    add_number(text, since)?;
    text.extend_from_slice(b"\n")?;
    Ok(())
}

fn add_cause(text: &mut Vec<u8>, cause: Cause) -> Result<(), Memory>
    ensures { OnOk result (text.new.items ≡ text.old.items ++ cause_text cause) }
{
    match cause {
        Cause::Value {
            width,
            expected,
            since,
        } => {
            text.extend_from_slice(b"expected ")?;
            add_value(text, width, expected)?;
            add_since(text, since)
        }
        Cause::Unreserved { since } => {
            text.extend_from_slice(b"unreserved")?;
            add_since(text, since)
        }
    }
}

/// A word, a number, and the end of the line.
fn add_headline(text: &mut Vec<u8>, word: &str, number: u64) -> Result<(), Memory>
    ensures { OnOk result (text.new.items ≡ text.old.items ++ word.now ++ decimal number ++ codes "\n") }
{
    text.extend_from_slice(word.as_bytes())?;
    add_number(text, number)?;
    text.extend_from_slice(b"\n")?;
    Ok(())
}

/// The text of a verdict on so many accesses.
pub fn verdict_text(alloc: Global, count: u64, verdict: &Verdict) -> Result<Vec<u8>, Memory>
    ensures { IfOk result (λ text. text.items ≡ verdict_text count verdict.now) }
{
    let mut text = Vec::new(alloc);
    match *verdict {
        Verdict::Legal => add_headline(&mut text, "legal ", count)?,
        Verdict::Refused(refusal) => {
            add_headline(&mut text, "refused ", refusal.place)?;
            add_cause(&mut text, refusal.cause)?;
        }
    }
    Ok(text)
}

/// Puts the text of a verdict on so many accesses.
fn put_verdict<R: Sink>(
    alloc: Global,
    count: u64,
    verdict: &Verdict,
    report: &mut R,
) -> Result<(), JudgeFault>
    ensures ok { OnOk result (R.written report.new ≡ followed_by (R.written report.old) (verdict_text count verdict.now)) }
    ensures put { (told : Verdict) → result ≡ Err (faults.Sink told) → (told ≡ verdict.now)
        × ((c : Option (List ℕ)) → Breaks (Report (verdict_text count verdict.now) ∷ []) (ends c (R.written report.old)) (ends c (R.written report.new)))
        × Rose (R.faults report.old) (R.faults report.new) }
    ensures nothing { result ≡ Err faults.Memory → report.new ≡ report.old }
    ensures kinds { (cause : ScriptCause) → result ≡ Err (faults.Refused cause) → ⊥ }
{
    let Ok(text) = verdict_text(alloc, count, verdict) else {
        return Err(JudgeFault::Memory);
    };
    match put_report(report, text.as_slice()) {
        Ok(()) => Ok(()),
        Err(_) => Err(JudgeFault::Sink(*verdict)),
    }
}

/// Judges a list of accesses, and puts the verdict's text to the report in one piece.
pub fn judge_list<R: Sink>(
    alloc: Global,
    list: &AccessList,
    report: &mut R,
) -> Result<Verdict, JudgeFault>
    requires words { All IsFittingWord list.now.words }
    requires accesses { All IsFittingAccess list.now.accesses }
    ensures ok { IfOk result (IsPut list.now (R.written report.old) (R.written report.new)) }
    ensures put { (verdict : Verdict) → result ≡ Err (faults.Sink verdict) →
        IsBrokenOff list.now (R.written report.old) (R.written report.new) verdict × Rose (R.faults report.old) (R.faults report.new) }
    ensures nothing { result ≡ Err faults.Memory → report.new ≡ report.old }
    ensures kinds { (cause : ScriptCause) → result ≡ Err (faults.Refused cause) → ⊥ }
{
    let Ok(verdict) = judge(alloc, list.words(), list.accesses()) else {
        return Err(JudgeFault::Memory);
    };
    let count = list.accesses().len() as u64;
    match put_verdict(alloc, count, &verdict, report) {
        Ok(()) => Ok(verdict),
        Err(fault) => Err(fault),
    }
}

/// Reads the text of a list of accesses, judges them, and puts the verdict's text to the report in one piece. If the text
/// is refused or memory is lacking, nothing is put.
pub fn judge_text<R: Sink>(
    alloc: Global,
    bytes: &[u8],
    report: &mut R,
) -> Result<Verdict, JudgeFault>
    requires { length bytes.now < 2 ^ 62 }
    ensures ok { IfOk result (IsJudged (said_by bytes.now) (R.written report.old) (R.written report.new)) }
    ensures refused { (cause : ScriptCause) → result ≡ Err (faults.Refused cause) → (said_by bytes.now ≡ Err cause) × (report.new ≡ report.old) }
    ensures put { (verdict : Verdict) → result ≡ Err (faults.Sink verdict) →
        IsJudgedInPart (said_by bytes.now) (R.written report.old) (R.written report.new) verdict
        × Rose (R.faults report.old) (R.faults report.new) }
    ensures nothing { result ≡ Err faults.Memory → report.new ≡ report.old }
{
    match read_accesses(alloc, bytes) {
        Ok(list) => judge_list(alloc, &list, report),
        Err(ScriptFault::Refused(cause)) => Err(JudgeFault::Refused(cause)),
        Err(ScriptFault::Memory) => Err(JudgeFault::Memory),
    }
}
