//! Bytes are released in order of their intervals.
use super::is_so;
use output_commit::*;
use std::test::Fail;

#[test]
fn bytes_are_released_in_order_of_their_intervals(rt: HostRuntime) -> Result<(), Fail> {
    let mut output = OutBuffer::new(rt.alloc());
    output.reserve(5)?;
    output.put(1, b'c');
    output.put(0, b'a');
    output.put(1, b'd');
    output.put(0, b'b');
    output.put(2, b'e');
    is_so(&rt, output.released().is_empty());
    is_so(&rt, output.held().len() == 5);
    output.release_below(2);
    is_so(&rt, output.released() == b"abcd".as_slice());
    output.drop_from(2);
    output.release_below(3);
    is_so(&rt, output.released() == b"abcd".as_slice());
    Ok(())
}
