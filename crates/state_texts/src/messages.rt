//! Messages as JSON.
ghost use Rattle.std.specs.Prelude.{◌≡◌, ◌++◌, false, map, codes, decimal, OnOk};
ghost use Rattle.sn_text.specs.Text.{switch_text};
ghost use Rattle.state_json.specs.Json.{quotation_of, member, with_commas, array};
ghost use Rattle.state_json.specs.Messages.{about_block, body_text, message_text, flight_text, sent_text};

use crate::json::{
    add, add_comma, add_flag, add_large, add_member, add_named_number, add_number, add_opening,
    add_quotation,
};
use crate::values::add_named_content;
use sn_base::{BlockNo, Memory, NodeId, SwitchId};
use sn_model::Sent;
use sn_msg::{Body, Message};
use sn_text::body_name;

fn add_requester(text: &mut Vec<u8>, requester: NodeId) -> Result<(), Memory>
    ensures { OnOk result (text.new.items ≡ text.old.items ++ member (codes "requester") (decimal requester)) }
{
    add_named_number(text, "requester", u64::from(requester.number()))
}

fn add_due(text: &mut Vec<u8>, due: u8) -> Result<(), Memory>
    ensures { OnOk result (text.new.items ≡ text.old.items ++ member (codes "due") (decimal due)) }
{
    add_named_number(text, "due", u64::from(due))
}

fn add_block(text: &mut Vec<u8>, block: BlockNo) -> Result<(), Memory>
    ensures { OnOk result (text.new.items ≡ text.old.items ++ about_block block) }
{
    add_named_number(text, "block", u64::from(block.number()))
}

/// What a message is about, and what its kind has besides.
fn add_body(text: &mut Vec<u8>, block: BlockNo, body: &Body) -> Result<(), Memory>
    ensures { OnOk result (text.new.items ≡ text.old.items ++ body_text block body.now) }
{
    match body {
        Body::Ready(checkpoint) => add_named_number(text, "checkpoint", u64::from(*checkpoint)),
        Body::Advance(point) => add_named_number(text, "point", u64::from(*point)),
        Body::FwdGetS(requester) | Body::Inv(requester) => {
            add_block(text, block)?;
            add_requester(text, *requester)
        }
        Body::FwdGetM(requester, due) => {
            add_block(text, block)?;
            add_requester(text, *requester)?;
            add_due(text, *due)
        }
        Body::DataS(content) | Body::DataE(content) | Body::PutData(content) => {
            add_block(text, block)?;
            add_named_content(text, content)
        }
        Body::DataM(content, due) => {
            add_block(text, block)?;
            add_named_content(text, content)?;
            add_due(text, *due)
        }
        Body::UpgOk(due) => {
            add_block(text, block)?;
            add_due(text, *due)
        }
        Body::Unblock(fixed) => {
            add_block(text, block)?;
            add_named_number(text, "fixed", u64::from(*fixed))
        }
        _ => add_block(text, block),
    }
}

/// A message: its number, its kind, the nodes that it goes from and to, its tag, and what it is about.
#[tactic(auto, unfolding(state_json::specs::Messages::message_text))]
pub fn add_message(text: &mut Vec<u8>, message: &Message) -> Result<(), Memory>
    ensures { OnOk result (text.new.items ≡ text.old.items ++ message_text message.now) }
{
    add_opening(text, "id")?;
    add_large(text, message.id)?;
    add_member(text, "kind")?;
    add_quotation(text, body_name(&message.body))?;
    add_named_number(text, "from", u64::from(message.from.number()))?;
    add_named_number(text, "to", u64::from(message.to.number()))?;
    add_named_number(text, "tag", u64::from(message.tag))?;
    add_body(text, message.block, &message.body)?;
    add(text, "}")
}

/// A switch: `a` or `b` and its node.
pub fn add_switch_name(text: &mut Vec<u8>, switch: SwitchId) -> Result<(), Memory>
    ensures { OnOk result (text.new.items ≡ text.old.items ++ switch_text switch) }
{
    let number = u64::from(switch.number());
    add(text, if number % 2 == 0 { "a" } else { "b" })?;
    add_number(text, number / 2)
}

/// The same as a string.
pub fn add_switch(text: &mut Vec<u8>, switch: SwitchId) -> Result<(), Memory>
    ensures { OnOk result (text.new.items ≡ text.old.items ++ quotation_of (switch_text switch)) }
{
    add(text, "\"")?;
    add_switch_name(text, switch)?;
    add(text, "\"")
}

/// A message in flight, with the switch in which it stands.
#[tactic(auto, unfolding(state_json::specs::Messages::flight_text))]
pub fn add_flight(text: &mut Vec<u8>, message: &Message, switch: SwitchId) -> Result<(), Memory>
    ensures { OnOk result (text.new.items ≡ text.old.items ++ flight_text (record { message = message.now; place = switch })) }
{
    add_opening(text, "message")?;
    add_message(text, message)?;
    add_member(text, "switch")?;
    add_switch(text, switch)?;
    add(text, "}")
}

/// A message as it was sent.
#[tactic(auto, unfolding(state_json::specs::Messages::sent_text))]
fn add_sent(text: &mut Vec<u8>, sent: &Sent) -> Result<(), Memory>
    ensures { OnOk result (text.new.items ≡ text.old.items ++ sent_text sent.now) }
{
    add_opening(text, "message")?;
    add_message(text, &sent.message)?;
    add_member(text, "lost")?;
    add_flag(text, sent.lost)?;
    add(text, "}")
}

fn add_each_sent(text: &mut Vec<u8>, sent: &[Sent]) -> Result<(), Memory>
    ensures { OnOk result (text.new.items ≡ text.old.items ++ with_commas false (map sent_text sent.now)) }
{
    let mut others = false;
    'messages: for one in sent {
        add_comma(text, others)?;
        add_sent(text, one)?;
        others = true;
    }
    Ok(())
}

/// The messages that an event sent.
pub fn add_all_sent(text: &mut Vec<u8>, sent: &[Sent]) -> Result<(), Memory>
    ensures { OnOk result (text.new.items ≡ text.old.items ++ array (map sent_text sent.now)) }
{
    add(text, "[")?;
    add_each_sent(text, sent)?;
    add(text, "]")
}
