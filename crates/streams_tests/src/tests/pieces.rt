//! Each sink takes its own pieces, and a failure leaves a beginning.
use super::is_so;
use sink_pieces::{put_console, put_report};
use sn_io::{Failed, MemSink};
use std::process::Abort;
use std::test::Fail;

#[test]
fn a_piece_is_put_whole_or_its_call_fails(rt: HostRuntime) -> Result<(), Fail> {
    let alloc = rt.alloc();
    let mut console = MemSink::with_room(alloc, 8)?;
    let mut report = MemSink::with_room(alloc, 8)?;
    console.fail_call(2)?;
    is_so(&rt, put_console(&mut console, b"A".as_slice()) == Ok(()));
    is_so(&rt, put_console(&mut console, b"".as_slice()) == Ok(()));
    is_so(
        &rt,
        put_console(&mut console, b"B".as_slice()) == Err(Failed),
    );
    is_so(&rt, put_report(&mut report, b"line\n".as_slice()) == Ok(()));
    is_so(&rt, console.bytes() == b"A".as_slice());
    is_so(&rt, report.bytes() == b"line\n".as_slice());
    Ok(())
}
