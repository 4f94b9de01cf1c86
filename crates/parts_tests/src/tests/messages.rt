//! Kinds of messages, and messages that differ in a field.
use super::is_so;
use sn_base::{Block, BlockNo, NodeId};
use sn_msg::*;

fn all_bodies(node: NodeId) -> [Body; 17] {
    let block = Block::zero();
    [
        Body::GetS,
        Body::GetM,
        Body::FwdGetS(node),
        Body::FwdGetM(node, 2),
        Body::Inv(node),
        Body::DataS(block),
        Body::DataM(block, 2),
        Body::DataE(block),
        Body::UpgOk(2),
        Body::InvAck,
        Body::Unblock(2),
        Body::PutReq,
        Body::PutGo,
        Body::PutData(block),
        Body::PutDone,
        Body::Ready(2),
        Body::Advance(2),
    ]
}

#[test]
fn a_body_equals_itself_and_no_other_kind(rt: HostRuntime) {
    let Some(node) = NodeId::new(2) else {
        return;
    };
    let bodies = all_bodies(node);
    for (place, body) in bodies.iter().enumerate() {
        for (other_place, other) in bodies.iter().enumerate() {
            is_so(&rt, (*body == *other) == (place == other_place));
        }
    }
}

#[test]
fn a_message_is_a_copy_with_all_its_fields(rt: HostRuntime) {
    let Some(node) = NodeId::new(3) else {
        return;
    };
    let message = Message {
        id: 7,
        from: node,
        to: node,
        tag: 4,
        block: BlockNo::new(64),
        body: Body::Unblock(3),
    };
    let copy = message;
    is_so(&rt, copy == message);
    is_so(
        &rt,
        copy != Message {
            body: Body::Unblock(4),
            ..message
        },
    );
    is_so(&rt, copy != Message { id: 8, ..message });
}
