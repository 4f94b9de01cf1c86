//! Records as text.
ghost use Rattle.std.specs.Prelude.{◌≡◌, ℕ, ◌+◌, ◌<◌, ◌≤◌, ◌++◌, Ok, IfSome, length};
ghost use Rattle.sn_text.specs.Trace.{record_of};
ghost use Rattle.sn_text.specs.Text.{flag_text, read_text, record_text, trace_line};
ghost use Rattle.sn_text.specs.Written.{HasValues};
ghost use Rattle.sn_text.specs.declared.line.TheConstants.{LINE_ROOM};

use crate::line::Line;
use rv_core::Record;

fn flag_of(sc_done: bool) -> &'static str
    ensures text { result.now ≡ flag_text sc_done }
    ensures short { length result.now ≤ 1 }
{
    if sc_done { "1" } else { "0" }
}

impl Line {
    fn byte_read(&mut self, read: Option<u8>)
        requires { length self.old + 3 ≤ LINE_ROOM }
        ensures text { self.new ≡ self.old ++ read_text read }
        ensures number { IfSome read (λ byte. byte < 256) }
        ensures short { length self.new ≤ length self.old + 3 }
    {
        if let Some(byte) = read {
            self.text(" ");
            self.byte(byte);
        }
    }

    fn record(&mut self, taken: &Record)
        requires { length self.old + 17 ≤ LINE_ROOM }
        ensures text { self.new ≡ self.old ++ record_text taken.now }
        ensures short { length self.new ≤ length self.old + 17 }
        ensures values { HasValues taken.now }
    {
        self.small(taken.core.number());
        self.text(" ");
        self.word(taken.seen);
        self.text(" ");
        self.text(flag_of(taken.sc_done));
        self.byte_read(taken.read);
    }

    /// A record as a line of a trace: the core, the word that it saw, whether a store-conditional was done, and the byte of
    /// input that it read, if any. The line, without its end, is read back as the record.
    #[tactic(auto, unfolding(crate::specs::Text::trace_line))]
    pub fn trace(&mut self, taken: &Record)
        requires { length self.old + 18 ≤ LINE_ROOM }
        ensures text { self.new ≡ self.old ++ trace_line taken.now }
        ensures short { length self.new ≤ length self.old + 18 }
        ensures values { HasValues taken.now }
        ensures read_back { (nodes : ℕ) → nodes ≤ 16 → taken.now.core < nodes → record_of nodes (record_text taken.now) ≡ Ok taken.now }
    {
        self.record(taken);
        self.text("\n");
    }
}
