//! Lines of texts in memory and of readers, with each kind of end, too long ones and failures.
use super::is_so;
use line_source::{LINE_MOST, LineRoom, Lines, MemLines, ReadFailed, ReaderLines, Taken};
use std::alloc::Global;
use std::io::{self, BufReader};
use std::test::Fail;

/// Gives its bytes one at a read, and then its end.
#[derive(Drop)]
struct Slow {
    left: Vec<u8>,
    end: Result<(), io::ErrorKind>,
}

impl io::Read for Slow {
    fn read(&mut self, buf: &mut [u8]) -> io::Result<usize> {
        match self.left.pop() {
            Some(byte) if !buf.is_empty() => {
                buf[0] = byte;
                Ok(1)
            }
            _ => match self.end {
                Ok(()) => Ok(0),
                Err(kind) => Err(io::Error::from(kind)),
            },
        }
    }
}

/// Whether the next line is this one.
fn gives<L: Lines>(source: &mut L, room: &mut LineRoom, line: &[u8]) -> bool {
    source.next_line(room) == Ok(Taken::Whole) && room.bytes() == line
}

/// Whether the next call comes to this.
fn comes_to<L: Lines>(
    source: &mut L,
    room: &mut LineRoom,
    wanted: Result<Taken, ReadFailed>,
) -> bool {
    source.next_line(room) == wanted
}

#[test]
fn a_text_in_memory_gives_each_line_and_an_empty_one_after_its_last_end(
    rt: HostRuntime,
) -> Result<(), Fail> {
    let mut room = LineRoom::new(rt.alloc())?;
    let mut lines = MemLines::new(b"step 0\r\n\nhop\x001\r\n");
    is_so(&rt, gives(&mut lines, &mut room, b"step 0"));
    is_so(&rt, gives(&mut lines, &mut room, b""));
    is_so(&rt, gives(&mut lines, &mut room, b"hop\x001"));
    is_so(&rt, gives(&mut lines, &mut room, b""));
    is_so(&rt, comes_to(&mut lines, &mut room, Ok(Taken::End)));
    Ok(())
}

#[test]
fn a_call_that_is_named_fails_and_takes_no_line(rt: HostRuntime) -> Result<(), Fail> {
    let mut room = LineRoom::new(rt.alloc())?;
    let mut lines = MemLines::new(b"a\nb");
    lines.fail_call(2);
    is_so(&rt, gives(&mut lines, &mut room, b"a"));
    is_so(&rt, comes_to(&mut lines, &mut room, Err(ReadFailed)));
    is_so(&rt, gives(&mut lines, &mut room, b"b"));
    Ok(())
}

/// Lines with each kind of end, the last of them without one.
const LINES: &[u8] = b"\r1\n\n\r\r\nhop\x001\r\nstep 0";

/// Whether a reader that holds so many bytes at once gives those lines and then its end.
fn gives_all(alloc: Global, held: usize) -> Result<bool, Fail> {
    let reader = BufReader::with_capacity(alloc, held, LINES)?;
    let mut lines = ReaderLines::new(reader);
    let mut room = LineRoom::new(alloc)?;
    Ok(
        gives(&mut lines, &mut room, b"\r1")
            && gives(&mut lines, &mut room, b"")
            && gives(&mut lines, &mut room, b"\r")
            && gives(&mut lines, &mut room, b"hop\x001")
            && gives(&mut lines, &mut room, b"step 0")
            && comes_to(&mut lines, &mut room, Ok(Taken::End)),
    )
}

#[test]
fn a_reader_gives_each_line_whatever_it_holds_at_once(rt: HostRuntime) -> Result<(), Fail> {
    for held in [1, 2, 3, 4, 5, 6, 7, 11, 12, 13, 64] {
        let is_so = gives_all(rt.alloc(), held)?;
        assert!(rt; is_so, "with {held}");
    }
    Ok(())
}

#[test]
fn a_reader_that_fails_within_a_line_gives_nothing_of_it(rt: HostRuntime) -> Result<(), Fail> {
    let mut room = LineRoom::new(rt.alloc())?;
    let left = Vec::from_slice(rt.alloc(), b"ets\nb")?;
    let end = Err(io::ErrorKind::Other);
    let reader = BufReader::with_capacity(rt.alloc(), 8, Slow { left, end })?;
    let mut lines = ReaderLines::new(reader);
    is_so(&rt, gives(&mut lines, &mut room, b"b"));
    is_so(&rt, comes_to(&mut lines, &mut room, Err(ReadFailed)));
    Ok(())
}

/// So many letters, and behind them an end and a line.
fn long_text(alloc: Global, letters: usize) -> Result<Vec<u8>, Fail> {
    let mut text = Vec::with_capacity(alloc, letters.saturating_add(3))?;
    text.resize(letters, b'a')?;
    text.extend_from_slice(b"\r\nb")?;
    Ok(text)
}

/// Whether the first line of such a text comes to this, and the second is given.
fn long_line_comes_to(alloc: Global, letters: usize, wanted: Taken) -> Result<bool, Fail> {
    let text = long_text(alloc, letters)?;
    let reader = BufReader::with_capacity(alloc, 1_000, text.as_slice())?;
    let mut lines = ReaderLines::new(reader);
    let mut room = LineRoom::new(alloc)?;
    Ok(comes_to(&mut lines, &mut room, Ok(wanted)) && gives(&mut lines, &mut room, b"b"))
}

#[test]
fn a_line_of_the_most_bytes_is_given_and_a_longer_one_is_told_and_skipped(
    rt: HostRuntime,
) -> Result<(), Fail> {
    for (letters, wanted) in [
        (LINE_MOST, Taken::Whole),
        (LINE_MOST + 1, Taken::Longer),
        (LINE_MOST + 2, Taken::Longer),
        (3 * LINE_MOST, Taken::Longer),
    ] {
        let is_so = long_line_comes_to(rt.alloc(), letters, wanted)?;
        assert!(rt; is_so, "with {letters}");
    }
    Ok(())
}
