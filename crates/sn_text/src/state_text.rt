//! Messages and cores as text.
ghost use Rattle.std.specs.Prelude.{◌≡◌, ◌+◌, ◌*◌, ◌≤◌, ◌++◌, [], length, drop, codes, if◌then◌else◌};
ghost use Rattle.sn_text.specs.Text.{body_name, body_place, body_fields, message_head, message_route, lost_mark, sent_line, sent_lines};
ghost use Rattle.sn_text.specs.Text.{cause_text, end_text, register_text, registers_text, core_head, core_line};
ghost use Rattle.sn_text.specs.declared.line.TheConstants.{LINE_ROOM};

use crate::line::Line;
use rv_core::{Cause, CoreState, End};
use sn_base::{BlockNo, NodeId};
use sn_model::Sent;
use sn_msg::{Body, Message};

/// The name of a message's body.
pub fn body_name(body: &Body) -> &'static str
    ensures name { result.now ≡ body_name body.now }
    ensures short { length result.now ≤ 8 }
{
    match body {
        Body::GetS => "gets",
        Body::GetM => "getm",
        Body::FwdGetS(_) => "fwdgets",
        Body::FwdGetM(..) => "fwdgetm",
        Body::Inv(_) => "inv",
        Body::DataS(_) => "datas",
        Body::DataM(..) => "datam",
        Body::DataE(_) => "datae",
        Body::UpgOk(_) => "upgok",
        Body::InvAck => "invack",
        Body::Unblock(_) => "unblock",
        Body::PutReq => "putreq",
        Body::PutGo => "putgo",
        Body::PutData(_) => "putdata",
        Body::PutDone => "putdone",
        Body::Ready(_) => "ready",
        Body::Advance(_) => "advance",
    }
}

// The number that stands in the block's place.
fn place_of(body: &Body, block: BlockNo) -> u64
    ensures { result ≡ body_place body.now block }
{
    match body {
        Body::Ready(checkpoint) => u64::from(*checkpoint),
        Body::Advance(point) => u64::from(*point),
        _ => u64::from(block.number()),
    }
}

/// The name of a trap's cause, as the lines of cores have it.
pub fn trap_name(cause: Cause) -> &'static str
    ensures name { result.now ≡ cause_text cause }
    ensures short { length result.now ≤ 10 }
{
    match cause {
        Cause::Illegal => "illegal",
        Cause::FetchFault => "fetch",
        Cause::MisalignedTarget => "target",
        Cause::MisalignedAccess => "misaligned",
        Cause::AccessFault => "access",
        Cause::UnknownCall => "call",
        Cause::Break => "break",
    }
}

fn mark_of(lost: bool) -> &'static str
    ensures mark { result.now ≡ lost_mark lost }
    ensures short { length result.now ≤ 5 }
{
    if lost { " lost" } else { "" }
}

// The registers after x0, which reads 0 whatever stands in it.
fn after_zero(core: &CoreState) -> &[u32]
    ensures registers { result.now ≡ drop 1 core.now.x }
    ensures few { length result.now ≤ 31 }
{
    let all: &[u32] = &core.x;
    &all[1..]
}

impl Line {
    fn fields(&mut self, body: &Body)
        requires { length self.old + 60 ≤ LINE_ROOM }
        ensures text { self.new ≡ self.old ++ body_fields body.now }
        ensures short { length self.new ≤ length self.old + 60 }
    {
        match body {
            Body::FwdGetS(requester) | Body::Inv(requester) => self.named(
                " req",
                u64::from(requester.number()),
            ),
            Body::FwdGetM(requester, acks) => {
                self.named(" req", u64::from(requester.number()));
                self.named(" acks", u64::from(*acks));
            }
            Body::DataM(_, acks) | Body::UpgOk(acks) => self.named(" acks", u64::from(*acks)),
            Body::Unblock(fixed) => self.named(" fixed", u64::from(*fixed)),
            _ => {}
        }
    }

    fn message_head(&mut self, message: &Message)
        requires { length self.old + 64 ≤ LINE_ROOM }
        ensures text { self.new ≡ self.old ++ message_head message.now }
        ensures short { length self.new ≤ length self.old + 64 }
    {
        self.named("  msg", message.id);
        self.text(" ");
        self.text(body_name(&message.body));
    }

    fn message_route(&mut self, message: &Message)
        requires { length self.old + 84 ≤ LINE_ROOM }
        ensures text { self.new ≡ self.old ++ message_route message.now }
        ensures short { length self.new ≤ length self.old + 84 }
    {
        self.named("", u64::from(message.from.number()));
        self.named("", u64::from(message.to.number()));
        self.named("", u64::from(message.tag));
        self.named("", place_of(&message.body, message.block));
    }

    /// The line of a message that an event sent.
    #[tactic(auto, unfolding(crate::specs::Text::sent_line))]
    pub fn sent(&mut self, sent: &Sent)
        requires { length self.old + 256 ≤ LINE_ROOM }
        ensures text { self.new ≡ self.old ++ sent_line sent.now }
        ensures short { length self.new ≤ length self.old + 256 }
    {
        self.message_head(&sent.message);
        self.message_route(&sent.message);
        self.fields(&sent.message.body);
        self.text(mark_of(sent.lost));
        self.text("\n");
    }

    /// The lines of the messages that an event sent, at most 17.
    pub fn all_sent(&mut self, sent: &[Sent])
        requires few { length sent.now ≤ 17 }
        requires room { length self.old + 4352 ≤ LINE_ROOM }
        ensures text { self.new ≡ self.old ++ sent_lines sent.now }
        ensures short { length self.new ≤ length self.old + 4352 }
    {
        'messages: for one in sent {
            self.sent(one);
        }
    }

    fn end(&mut self, end: &End)
        requires { length self.old + 30 ≤ LINE_ROOM }
        ensures text { self.new ≡ self.old ++ end_text end.now }
        ensures short { length self.new ≤ length self.old + 30 }
    {
        match end {
            End::Running => self.text("running"),
            End::Exited(code) => self.named("exited", u64::from(*code)),
            End::Trapped(cause) => {
                self.text("trapped ");
                self.text(trap_name(*cause));
            }
        }
    }

    fn register(&mut self, number: u8, value: u32)
        requires { length self.old + 14 ≤ LINE_ROOM }
        ensures text { self.new ≡ self.old ++ register_text number value }
        ensures short { length self.new ≤ length self.old + 14 }
    {
        self.text(" x");
        self.small(number);
        self.text("=");
        self.word(value);
    }

    fn registers(&mut self, values: &[u32])
        requires few { length values.now ≤ 31 }
        requires room { length self.old + 434 ≤ LINE_ROOM }
        ensures text { self.new ≡ self.old ++ registers_text 1 values.now }
        ensures short { length self.new ≤ length self.old + 434 }
    {
        'registers: for (i, value) in values.iter().enumerate() {
            if *value != 0 {
                self.register(i as u8 + 1, *value);
            }
        }
    }

    fn core_head(&mut self, before: &str, node: NodeId, pc: u32)
        requires room { length self.old + 19 ≤ LINE_ROOM }
        requires before_short { length before.now ≤ 2 }
        ensures text { self.new ≡ self.old ++ core_head before.now node pc }
        ensures short { length self.new ≤ length self.old + 19 }
    {
        self.text(before);
        self.named_small("core", node.number());
        self.text(" ");
        self.word(pc);
    }

    /// The line of a core: its program counter, its end and the registers that aren't 0.
    #[tactic(auto, unfolding(crate::specs::Text::core_line))]
    pub fn core(&mut self, before: &str, node: NodeId, core: &CoreState)
        requires room { length self.old + 488 ≤ LINE_ROOM }
        requires before_short { length before.now ≤ 2 }
        ensures text { self.new ≡ self.old ++ core_line before.now node core.now }
        ensures short { length self.new ≤ length self.old + 488 }
    {
        self.core_head(before, node, core.pc);
        self.text(" ");
        self.end(&core.end);
        self.registers(after_zero(core));
        self.text("\n");
    }
}
