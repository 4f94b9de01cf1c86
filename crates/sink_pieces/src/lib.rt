//! Pieces of text, each put to the console or to the report in one call.
//!
//! What a command writes is a list of pieces, which is data; the layers above say for each command which list it is. They
//! know of a call that puts some of them: all were put, each sink its own in order, or one was broken off, and then all
//! before it were put whole, a beginning of it, and none after it. Nothing here knows what a text means.
#![tactic(auto)]

ghost use Rattle.std.specs.Prelude.{◌≡◌, ℕ, List, [], ◌∷◌, ◌≤◌, Option, OnOk, OnErr};
ghost use Rattle.sn_io.specs.Outside.{Rose};
ghost use Rattle.sink_pieces.specs.Pieces.{Report, ends, after, Breaks, console_piece};

use sn_io::{Failed, Sink};

/// Puts a text to the console in one piece. Where there are no bytes, the sink isn't called.
pub fn put_console<C: Sink>(console: &mut C, text: &[u8]) -> Result<(), Failed>
    ensures ok { OnOk result ((r : Option (List ℕ)) →
        ends (C.written console.new) r ≡ after (ends (C.written console.old) r) (console_piece text.now)) }
    ensures err { OnErr result ((r : Option (List ℕ)) →
        Breaks (console_piece text.now) (ends (C.written console.old) r) (ends (C.written console.new) r)) }
    ensures later { C.faults console.old ≤ C.faults console.new }
    ensures cause { OnErr result (Rose (C.faults console.old) (C.faults console.new)) }
{
    if text.is_empty() {
        return Ok(());
    }
    console.put(text)?;
    Ok(())
}

/// Puts a text to the report in one piece.
pub fn put_report<R: Sink>(report: &mut R, text: &[u8]) -> Result<(), Failed>
    ensures ok { OnOk result ((c : Option (List ℕ)) →
        ends c (R.written report.new) ≡ after (ends c (R.written report.old)) (Report text.now ∷ [])) }
    ensures err { OnErr result ((c : Option (List ℕ)) →
        Breaks (Report text.now ∷ []) (ends c (R.written report.old)) (ends c (R.written report.new))) }
    ensures later { R.faults report.old ≤ R.faults report.new }
    ensures cause { OnErr result (Rose (R.faults report.old) (R.faults report.new)) }
{
    report.put(text)?;
    Ok(())
}
