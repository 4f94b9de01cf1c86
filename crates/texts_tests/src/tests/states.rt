//! Each test appends a value's text, and names the text that is wanted.
use log_buffer::LogBuffer;
use rv_core::{Cause, CoreState, End, Record};
use sn_base::{
    Answer, Block, BlockNo, Event, LogEntry, Memory, NodeId, NodeSet, Old, SwitchId, Undo, Width,
};
use sn_model::{Kind, LineState, Need, Sent};
use sn_msg::{Body, Message};
use state_texts::{
    add_all_sent, add_answer, add_bytes, add_core, add_entry, add_event, add_flight, add_held,
    add_line, add_log, add_miss, add_put, add_record, add_reported, add_sharers, add_transaction,
};
use std::alloc::Global;
use std::process::Abort;
use std::test::Fail;

/// The text is the one that is wanted.
fn is_text(rt: &impl Abort, text: &Vec<u8>, done: Result<(), Memory>, wanted: &str) {
    assert!(rt;
        done.is_ok() && text.as_slice() == wanted.as_bytes(),
        "{wanted}"
    );
}

fn core_is(rt: &impl Abort, alloc: Global, core: &CoreState, wanted: &str) {
    let mut text = Vec::new(alloc);
    let done = add_core(&mut text, core);
    is_text(rt, &text, done, wanted);
}

#[test]
fn a_core_has_the_registers_that_are_not_0(rt: HostRuntime) {
    let alloc = rt.alloc();
    let mut core = CoreState::start(NodeId::numbered(1), 0x8000_0000);
    core_is(
        &rt,
        alloc,
        &core,
        "{\"pc\":\"80000000\",\"end\":\"running\",\"registers\":{\"x10\":\"00000001\"},\"reservation\":null}",
    );
    core.x[0] = 7;
    core.x[31] = 0xff;
    core.reservation = Some(BlockNo::new(64));
    core.end = End::Exited(3);
    core_is(
        &rt,
        alloc,
        &core,
        "{\"pc\":\"80000000\",\"end\":\"exited 3\",\"registers\":{\"x10\":\"00000001\",\"x31\":\"000000ff\"},\"reservation\":64}",
    );
    core.end = End::Trapped(Cause::FetchFault);
    core.x = [0; 32];
    core_is(
        &rt,
        alloc,
        &core,
        "{\"pc\":\"80000000\",\"end\":\"trapped fetch\",\"registers\":{},\"reservation\":64}",
    );
}

fn event_is(rt: &impl Abort, alloc: Global, event: &Event, wanted: &str) {
    let mut text = Vec::new(alloc);
    let done = add_event(&mut text, event);
    is_text(rt, &text, done, wanted);
}

#[test]
fn events_are_as_a_script_has_them(rt: HostRuntime) {
    let alloc = rt.alloc();
    let node = NodeId::numbered(3);
    event_is(&rt, alloc, &Event::Step(node), "\"step 3\"");
    event_is(
        &rt,
        alloc,
        &Event::Evict(node, BlockNo::new(65_535)),
        "\"evict 3 65535\"",
    );
    event_is(
        &rt,
        alloc,
        &Event::Deliver(9_007_199_254_740_993),
        "\"deliver 9007199254740993\"",
    );
    event_is(&rt, alloc, &Event::Kill(SwitchId::b(node)), "\"kill b3\"");
    event_is(&rt, alloc, &Event::Input(node, 10), "\"input 3 0a\"");
}

fn answer_is(rt: &impl Abort, alloc: Global, answer: &Answer, wanted: &str) {
    let mut text = Vec::new(alloc);
    let done = add_answer(&mut text, answer);
    is_text(rt, &text, done, wanted);
}

#[test]
fn answers_are_as_the_report_has_them(rt: HostRuntime) {
    let alloc = rt.alloc();
    let node = NodeId::numbered(1);
    answer_is(&rt, alloc, &Answer::LostInDead, "\"lostindead\"");
    answer_is(&rt, alloc, &Answer::NotReady(node), "\"notready 1\"");
    answer_is(
        &rt,
        alloc,
        &Answer::CutOff(node, NodeId::numbered(2)),
        "\"cutoff 1 2\"",
    );
    let undo = Undo {
        to: 1,
        undone: 2,
        dropped: 3,
    };
    answer_is(
        &rt,
        alloc,
        &Answer::Recovered(undo),
        "\"recovered 1 undone 2 dropped 3\"",
    );
}

fn sent_is(rt: &impl Abort, alloc: Global, body: Body, wanted: &str) {
    let message = Message {
        id: 9_007_199_254_740_993,
        from: NodeId::numbered(0),
        to: NodeId::numbered(1),
        tag: 2,
        block: BlockNo::new(64),
        body,
    };
    let mut text = Vec::new(alloc);
    let done = add_all_sent(
        &mut text,
        &[Sent {
            message,
            lost: false,
        }],
    );
    is_text(rt, &text, done, wanted);
}

#[test]
fn a_message_has_what_its_kind_has(rt: HostRuntime) {
    let alloc = rt.alloc();
    sent_is(
        &rt,
        alloc,
        Body::FwdGetM(NodeId::numbered(5), 2),
        "[{\"message\":{\"id\":\"9007199254740993\",\"kind\":\"fwdgetm\",\"from\":0,\"to\":1,\"tag\":2,\"block\":64,\"requester\":5,\"due\":2},\"lost\":false}]",
    );
    sent_is(
        &rt,
        alloc,
        Body::Ready(3),
        "[{\"message\":{\"id\":\"9007199254740993\",\"kind\":\"ready\",\"from\":0,\"to\":1,\"tag\":2,\"checkpoint\":3},\"lost\":false}]",
    );
    sent_is(
        &rt,
        alloc,
        Body::Advance(3),
        "[{\"message\":{\"id\":\"9007199254740993\",\"kind\":\"advance\",\"from\":0,\"to\":1,\"tag\":2,\"point\":3},\"lost\":false}]",
    );
}

fn acknowledgement(lost: bool) -> Sent {
    let message = Message {
        id: 1,
        from: NodeId::numbered(0),
        to: NodeId::numbered(1),
        tag: 0,
        block: BlockNo::new(1),
        body: Body::InvAck,
    };
    Sent { message, lost }
}

#[test]
fn two_messages_have_a_comma_between_them(rt: HostRuntime) {
    let mut text = Vec::new(rt.alloc());
    let done = add_all_sent(&mut text, &[acknowledgement(false), acknowledgement(true)]);
    is_text(
        &rt,
        &text,
        done,
        "[{\"message\":{\"id\":\"1\",\"kind\":\"invack\",\"from\":0,\"to\":1,\"tag\":0,\"block\":1},\"lost\":false},{\"message\":{\"id\":\"1\",\"kind\":\"invack\",\"from\":0,\"to\":1,\"tag\":0,\"block\":1},\"lost\":true}]",
    );
}

#[test]
fn a_message_in_flight_names_its_switch(rt: HostRuntime) {
    let message = Message {
        id: 1,
        from: NodeId::numbered(0),
        to: NodeId::numbered(1),
        tag: 0,
        block: BlockNo::new(1),
        body: Body::PutReq,
    };
    let mut text = Vec::new(rt.alloc());
    let done = add_flight(&mut text, &message, SwitchId::a(NodeId::numbered(15)));
    is_text(
        &rt,
        &text,
        done,
        "{\"message\":{\"id\":\"1\",\"kind\":\"putreq\",\"from\":0,\"to\":1,\"tag\":0,\"block\":1},\"switch\":\"a15\"}",
    );
}

#[test]
fn a_miss_and_a_put(rt: HostRuntime) {
    let mut text = Vec::new(rt.alloc());
    let done = add_miss(&mut text, BlockNo::new(64), Need::Write, 1, None, 2, 0);
    is_text(
        &rt,
        &text,
        done,
        "{\"block\":64,\"need\":\"write\",\"issued\":1,\"fixed\":null,\"due\":2,\"acks\":0}",
    );
    text.clear();
    let done = add_put(&mut text, BlockNo::new(64), 1);
    is_text(&rt, &text, done, "{\"block\":64,\"issued\":1}");
}

#[test]
fn an_entry_without_content(rt: HostRuntime) {
    let entry = LogEntry {
        interval: 1,
        block: BlockNo::new(64),
        old: Old::WasCache(NodeId::numbered(2)),
    };
    let mut text = Vec::new(rt.alloc());
    let done = add_entry(&mut text, &entry);
    is_text(
        &rt,
        &text,
        done,
        "{\"interval\":1,\"block\":64,\"old\":\"wascache\",\"owner\":2}",
    );
}

#[test]
fn a_log_has_its_oldest_entry_first(rt: HostRuntime) -> Result<(), Fail> {
    let mut log = LogBuffer::new(rt.alloc(), 4)?;
    log.note(0, BlockNo::new(1), Old::NotOwned);
    log.note(1, BlockNo::new(1), Old::NotOwned);
    let mut text = Vec::new(rt.alloc());
    let done = add_log(&mut text, &log);
    is_text(
        &rt,
        &text,
        done,
        "[{\"interval\":0,\"block\":1,\"old\":\"notowned\"},{\"interval\":1,\"block\":1,\"old\":\"notowned\"}]",
    );
    Ok(())
}

#[test]
fn bytes_stand_in_order(rt: HostRuntime) {
    let mut block = Block::zero();
    block.store(60, Width::Word, 0x0123_abcd);
    let mut text = Vec::new(rt.alloc());
    let done = add_line(&mut text, BlockNo::new(2), LineState::Exclusive, &block);
    is_text(
        &rt,
        &text,
        done,
        "{\"block\":2,\"state\":\"E\",\"content\":\"000000000000000000000000000000000000000000000000000000000000000000000000000000000000000000000000000000000000000000000000cdab2301\"}",
    );
    text.clear();
    let done = add_bytes(&mut text, &[0x0a, 0xff]);
    is_text(&rt, &text, done, "\"0aff\"");
}

#[test]
fn records_that_wait_and_bytes_that_are_held(rt: HostRuntime) {
    let did = Record {
        core: NodeId::numbered(1),
        seen: 1,
        sc_done: true,
        read: Some(10),
    };
    let mut text = Vec::new(rt.alloc());
    let done = add_record(&mut text, 2, &did);
    is_text(
        &rt,
        &text,
        done,
        "{\"interval\":2,\"seen\":\"00000001\",\"done\":true,\"read\":\"0a\"}",
    );
    text.clear();
    let done = add_held(&mut text, 2, 65);
    is_text(&rt, &text, done, "{\"interval\":2,\"byte\":\"41\"}");
}

#[test]
fn a_home_s_sharers_and_transaction(rt: HostRuntime) {
    let sharers = NodeSet::empty()
        .with(NodeId::numbered(0))
        .with(NodeId::numbered(15));
    let mut text = Vec::new(rt.alloc());
    let done = add_sharers(&mut text, sharers);
    is_text(&rt, &text, done, "[0,15]");
    text.clear();
    let done = add_transaction(&mut text, Kind::Upgrade, NodeId::numbered(3), 4);
    is_text(
        &rt,
        &text,
        done,
        "{\"kind\":\"upgrade\",\"requester\":3,\"begun\":4}",
    );
}

#[test]
fn what_nodes_reported(rt: HostRuntime) {
    let mut text = Vec::new(rt.alloc());
    let done = add_reported(&mut text, &[0, 4_294_967_295, 1]);
    is_text(&rt, &text, done, "[0,4294967295,1]");
}
