use crate::file_store::read_whole;
use crate::{
    Failed, Fetched, FileStore, Gate, MemSink, MemStore, OpenGate, Sink, StdSink, Store,
    StoreFault, SureSink,
};
use sn_base::Memory;
use std::io::{self, BufWriter};
use std::test::Fail;

/// Takes at most three bytes at a write, and nothing once it has five. What it took stands in the list that it was given, which
/// has room for that: a write that finds no memory would look like one that fails.
#[derive(Drop)]
struct Narrow<'a> {
    bytes: &'a mut Vec<u8>,
}

impl io::Write for Narrow<'_> {
    fn write(&mut self, buf: &[u8]) -> io::Result<usize> {
        let count = buf
            .len()
            .min(3)
            .min(5usize.saturating_sub(self.bytes.len()));
        self.bytes.extend_from_slice(&buf[..count])?;
        Ok(count)
    }

    fn flush(&mut self) -> io::Result<()> {
        Ok(())
    }
}

#[test]
fn a_writer_that_takes_a_few_bytes_at_a_time_has_the_beginning(
    rt: HostRuntime,
) -> Result<(), Fail> {
    let mut bytes = Vec::with_capacity(rt.alloc(), 5)?;
    let mut sink = StdSink::new(Narrow { bytes: &mut bytes });
    assert_eq!(rt; sink.put(b"abcd"), Ok(()));
    assert_eq!(rt; sink.put(b""), Ok(()));
    assert_eq!(rt; sink.put(b"efg"), Err(Failed));
    assert_eq!(rt; sink.finish(), Ok(()));
    drop(sink);
    assert_eq!(rt; bytes.as_slice(), b"abcde".as_slice());
    Ok(())
}

#[test]
fn what_is_held_back_comes_at_the_finish(rt: HostRuntime) -> Result<(), Fail> {
    let mut bytes = Vec::with_capacity(rt.alloc(), 5)?;
    let held = BufWriter::with_capacity(rt.alloc(), 64, Narrow { bytes: &mut bytes })?;
    let mut sink = StdSink::new(held);
    assert_eq!(rt; sink.put(b"abc"), Ok(()));
    assert_eq!(rt; sink.put(b"defg"), Ok(()));
    assert_eq!(rt; sink.finish(), Err(Failed));
    drop(sink);
    assert_eq!(rt; bytes.as_slice(), b"abcde".as_slice());
    Ok(())
}

/// Gives its bytes one at a read, and then its end.
#[derive(Drop)]
struct Slow {
    left: Vec<u8>,
    end: Result<(), io::ErrorKind>,
}

impl io::Read for Slow {
    fn read(&mut self, buf: &mut [u8]) -> io::Result<usize> {
        match self.left.pop() {
            Some(byte) if !buf.is_empty() => {
                buf[0] = byte;
                Ok(1)
            }
            _ => match self.end {
                Ok(()) => Ok(0),
                Err(kind) => Err(io::Error::from(kind)),
            },
        }
    }
}

/// What a fetch came to that had the memory that it wants.
fn with_memory(
    fetched: Result<Fetched, StoreFault>,
) -> Result<Result<Fetched, StoreFault>, Memory> {
    match fetched {
        Err(StoreFault::Memory) => Err(Memory),
        answer => Ok(answer),
    }
}

#[test]
fn a_file_is_whole_exactly_where_its_end_comes_within_the_limit(
    rt: HostRuntime,
) -> Result<(), Fail> {
    let broken = Err(io::ErrorKind::Other);
    for (limit, end, want, content) in [
        (4, Ok(()), Ok(Fetched::Whole), "abc"),
        (3, Ok(()), Ok(Fetched::Whole), "abc"),
        (2, Ok(()), Ok(Fetched::Longer), ""),
        (usize::MAX, Ok(()), Ok(Fetched::Whole), "abc"),
        (4, broken, Err(StoreFault::Failed), ""),
        (2, broken, Ok(Fetched::Longer), ""),
    ] {
        let left = Vec::from_slice(rt.alloc(), b"cba")?;
        let mut into = Vec::new(rt.alloc());
        let found = with_memory(read_whole(Slow { left, end }, limit, &mut into))?;
        assert_eq!(rt; found, want, "at {limit}");
        assert_eq!(rt; into.as_slice(), content.as_bytes(), "at {limit}");
    }
    Ok(())
}

#[test]
fn an_open_gate_holds_nobody(rt: HostRuntime) {
    OpenGate::new().before(15, u64::MAX);
    let _ = rt;
}

#[test]
fn a_store_in_memory_fails_for_what_it_lacks_and_at_named_calls(
    rt: HostRuntime,
) -> Result<(), Fail> {
    let alloc = rt.alloc();
    let mut store = MemStore::new(alloc);
    store.add("a", b"one")?;
    store.add("b", b"two")?;
    store.add("a", b"three")?;
    store.fail_call(3)?;
    for (name, limit, want, content) in [
        ("a", 3, Ok(Fetched::Whole), "one"),
        ("b", 2, Ok(Fetched::Longer), ""),
        ("b", 3, Err(StoreFault::Failed), ""),
        ("b", 3, Ok(Fetched::Whole), "two"),
        ("c", 3, Err(StoreFault::Failed), ""),
    ] {
        let mut into = Vec::new(alloc);
        let found = with_memory(store.fetch(name, limit, &mut into))?;
        assert_eq!(rt; found, want, "at {name}");
        assert_eq!(rt; into.as_slice(), content.as_bytes(), "at {name}");
    }
    Ok(())
}

#[test]
fn a_sink_in_memory_fails_past_its_room_and_at_named_calls(rt: HostRuntime) -> Result<(), Fail> {
    let mut sink = MemSink::with_room(rt.alloc(), 5)?;
    sink.fail_call(2)?;
    assert_eq!(rt; sink.put(b"ab"), Ok(()));
    assert_eq!(rt; sink.put(b""), Ok(()));
    assert_eq!(rt; sink.put(b"c"), Err(Failed));
    assert_eq!(rt; sink.put(b"cdef"), Err(Failed));
    assert_eq!(rt; sink.put(b"cde"), Ok(()));
    assert_eq!(rt; sink.bytes(), b"abcde".as_slice());
    Ok(())
}

#[test]
fn a_sure_sink_takes_all(rt: HostRuntime) {
    assert_eq!(rt; SureSink::new().put(b"abc"), Ok(()));
}

#[test]
fn a_file_that_is_not_there_is_a_failure(rt: HostRuntime) -> Result<(), Fail> {
    let mut into = Vec::new(rt.alloc());
    let mut store = FileStore::new(&rt);
    let found = with_memory(store.fetch("no such file", 10, &mut into))?;
    assert_eq!(rt; found, Err(StoreFault::Failed));
    Ok(())
}
