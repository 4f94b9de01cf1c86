//! Events and answers as text.
ghost use Rattle.std.specs.Prelude.{◌≡◌, ℕ, ◌+◌, ◌≤◌, ◌++◌, Ok, IfSome, MatchOption, length, true};
ghost use Rattle.sn_base.specs.Events.{event_fits};
ghost use Rattle.sn_text.specs.Script.{event_of};
ghost use Rattle.sn_text.specs.Written.{HasNumbers};
ghost use Rattle.sn_text.specs.Text.{named_number, switch_text, event_text, answer_text, IsNumbered, event_line, script_line};
ghost use Rattle.sn_text.specs.declared.line.TheConstants.{LINE_ROOM};

use crate::line::Line;
use sn_base::{Answer, Event, NodeId, SwitchId};

/// The text of an answer that has no numbers.
pub fn plain_answer(answer: &Answer) -> Option<&'static str>
    ensures text { MatchOption result (IsNumbered answer.now) (λ name. name.now ≡ answer_text answer.now) }
    ensures short { IfSome result (λ name. length name.now ≤ 16) }
{
    match answer {
        Answer::Retired => Some("retired"),
        Answer::Missed => Some("missed"),
        Answer::Waits => Some("waits"),
        Answer::NeedsEvict => Some("needsevict"),
        Answer::LogFull => Some("logfull"),
        Answer::NetFull => Some("netfull"),
        Answer::Ended => Some("ended"),
        Answer::Evicted => Some("evicted"),
        Answer::PutBegun => Some("putbegun"),
        Answer::NotCached => Some("notcached"),
        Answer::PutOpen => Some("putopen"),
        Answer::MissOpen => Some("missopen"),
        Answer::CheckpointsFull => Some("checkpointsfull"),
        Answer::Hopped => Some("hopped"),
        Answer::LostInDead => Some("lostindead"),
        Answer::Arrived => Some("arrived"),
        Answer::NotArrived => Some("notarrived"),
        Answer::NoMessage => Some("nomessage"),
        Answer::Delivered => Some("delivered"),
        Answer::Held => Some("held"),
        Answer::HomeBusy => Some("homebusy"),
        Answer::Lost => Some("lost"),
        Answer::Killed => Some("killed"),
        Answer::AlreadyDead => Some("alreadydead"),
        Answer::Given => Some("given"),
        Answer::NoInput => Some("noinput"),
        _ => None,
    }
}

impl Line {
    fn named_node(&mut self, name: &str, node: NodeId)
        requires { length self.old + length name.now + 21 ≤ LINE_ROOM }
        ensures text { self.new ≡ self.old ++ named_number name.now node }
        ensures short { length self.new ≤ length self.old + length name.now + 21 }
    {
        self.named(name, u64::from(node.number()));
    }

    /// A switch: `a` or `b` and its node.
    pub fn switch(&mut self, switch: SwitchId)
        requires { length self.old + 21 ≤ LINE_ROOM }
        ensures text { self.new ≡ self.old ++ switch_text switch }
        ensures short { length self.new ≤ length self.old + 21 }
    {
        let number = u64::from(switch.number());
        self.text(if number % 2 == 0 { "a" } else { "b" });
        self.number(number / 2);
    }

    fn the_event(&mut self, event: &Event)
        requires { length self.old + 60 ≤ LINE_ROOM }
        ensures text { self.new ≡ self.old ++ event_text event.now }
        ensures short { length self.new ≤ length self.old + 60 }
        ensures numbers { HasNumbers event.now }
    {
        match event {
            Event::Step(node) => self.named_node("step", *node),
            Event::Evict(node, block) => {
                self.named_node("evict", *node);
                self.text(" ");
                self.number(u64::from(block.number()));
            }
            Event::Edge(node) => self.named_node("edge", *node),
            Event::Hop(id) => self.named("hop", *id),
            Event::Deliver(id) => self.named("deliver", *id),
            Event::Lose(id) => self.named("lose", *id),
            Event::Kill(switch) => {
                self.text("kill ");
                self.switch(*switch);
            }
            Event::Report(node) => self.named_node("report", *node),
            Event::Validate => self.text("validate"),
            Event::Recover => self.text("recover"),
            Event::Input(node, byte) => {
                self.named_node("input", *node);
                self.text(" ");
                self.byte(*byte);
            }
        }
    }

    // Of an answer that has numbers behind its name.
    fn numbered_answer(&mut self, answer: &Answer)
        requires numbered { IsNumbered answer.now }
        requires room { length self.old + 100 ≤ LINE_ROOM }
        ensures text { self.new ≡ self.old ++ answer_text answer.now }
        ensures short { length self.new ≤ length self.old + 100 }
    {
        match answer {
            Answer::Edged(interval) => self.named("edged", u64::from(*interval)),
            Answer::Reported(interval) => self.named("reported", u64::from(*interval)),
            Answer::Validated(interval) => self.named("validated", u64::from(*interval)),
            Answer::NotReady(node) => self.named_node("notready", *node),
            Answer::Recovered(undo) => {
                self.named("recovered", u64::from(undo.to));
                self.named(" undone", u64::from(undo.undone));
                self.named(" dropped", u64::from(undo.dropped));
            }
            Answer::CutOff(a, b) => {
                self.named_node("cutoff", *a);
                self.named_node("", *b);
            }
            _ => {}
        }
    }

    fn the_answer(&mut self, answer: &Answer)
        requires { length self.old + 100 ≤ LINE_ROOM }
        ensures text { self.new ≡ self.old ++ answer_text answer.now }
        ensures short { length self.new ≤ length self.old + 100 }
    {
        match plain_answer(answer) {
            Some(name) => self.text(name),
            None => self.numbered_answer(answer),
        }
    }

    /// The line of an event: its place from 1, the event as a script has it, and its answer.
    #[tactic(auto, unfolding(crate::specs::Text::event_line))]
    pub fn event(&mut self, place: u64, event: &Event, answer: &Answer)
        requires { length self.old + 192 ≤ LINE_ROOM }
        ensures text { self.new ≡ self.old ++ event_line place event.now answer.now }
        ensures short { length self.new ≤ length self.old + 192 }
    {
        self.number(place);
        self.text(" ");
        self.the_event(event);
        self.text(": ");
        self.the_answer(answer);
        self.text("\n");
    }

    /// An event as a line of a script. The line, without its end, is read back as the event.
    #[tactic(auto, unfolding(crate::specs::Text::script_line))]
    pub fn script(&mut self, event: &Event)
        requires { length self.old + 64 ≤ LINE_ROOM }
        ensures text { self.new ≡ self.old ++ script_line event.now }
        ensures short { length self.new ≤ length self.old + 64 }
        ensures numbers { HasNumbers event.now }
        ensures read_back { (nodes : ℕ) → nodes ≤ 16 → event_fits nodes event.now ≡ true →
            event_of nodes (event_text event.now) ≡ Ok event.now }
    {
        self.the_event(event);
        self.text("\n");
    }
}
