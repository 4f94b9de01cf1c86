//! Bytes come out of a ring as they went in, and a console that fails has their beginning.
use crate::{Failed, outbox, settle};
use sn_io::MemSink;
use std::test::Fail;

#[test]
fn bytes_are_written_once_and_in_order(rt: HostRuntime) -> Result<(), Fail> {
    let mut console = MemSink::with_room(rt.alloc(), 16)?;
    let (mut outbox, mut inbox) = outbox(rt.alloc(), 4)?;
    outbox.offer(b"abc");
    assert_eq!(rt; inbox.drain(&mut console), Ok(3));
    assert_eq!(rt; console.bytes(), b"abc".as_slice());
    outbox.offer(b"abcdefghij");
    assert_eq!(rt; inbox.meet(&mut outbox), 4);
    assert_eq!(rt;
        settle(outbox, inbox, b"abcdefghijkl", &mut console),
        Ok(())
    );
    assert_eq!(rt; console.bytes(), b"abcdefghijkl".as_slice());
    Ok(())
}

#[test]
fn a_console_that_fails_is_told(rt: HostRuntime) -> Result<(), Fail> {
    let mut console = MemSink::with_room(rt.alloc(), 3)?;
    console.fail_call(1)?;
    let (mut outbox, mut inbox) = outbox(rt.alloc(), 4)?;
    assert_eq!(rt; inbox.drain(&mut console), Ok(0));
    outbox.offer(b"ab");
    assert_eq!(rt; inbox.drain(&mut console), Err(Failed));
    assert_eq!(rt; settle(outbox, inbox, b"abcdef", &mut console), Err(Failed));
    assert_eq!(rt; console.bytes(), b"".as_slice());
    Ok(())
}
