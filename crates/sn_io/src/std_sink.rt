//! A sink over a writer: a trusted edge.
ghost use Rattle.std.specs.Prelude.{◌≡◌, ℕ, ◌≤◌, take, length, IsOk, OnOk, OnErr};
ghost use Rattle.std.specs.Io.KnownBytes.{Appends, Keeps};
ghost use Rattle.sn_io.specs.Outside.{Rose, count_plus_one};

use crate::outside::{Failed, Sink};
use std::io;

/// A sink over any writer. It tells nothing of what was written. An error of the writer is a failure, and so is a
/// write that takes nothing of a piece that isn't empty.
///
/// Over a writer that holds bytes back, what comes to the stream is at every moment a beginning of what was put, and a
/// failure may come late: some of what earlier calls put may be missing too. `finish` hands on what is held back.
#[derive(Drop)]
pub struct StdSink<W: io::Write + Drop> {
    writer: W,
    faults: u64,
}

impl<W: io::Write + Drop> StdSink<W> {
    pub fn new(writer: W) -> StdSink<W>
        ensures { result ≡ record { writer = writer; faults = 0 } }
    {
        StdSink { writer, faults: 0 }
    }

    /// Hands on all that the writer holds back. It comes after the last piece.
    pub fn finish(&mut self) -> Result<(), Failed>
        ensures kept { Keeps (W.contents self.old.writer) (W.contents self.new.writer) }
        ensures quiet { OnOk result (self.new.faults ≡ self.old.faults) }
        ensures cause { OnErr result (Rose self.old.faults self.new.faults) }
    {
        if self.writer.flush().is_err() {
            return Err(self.fails());
        }
        Ok(())
    }

    // Counts a failure.
    fn fails(&mut self) -> Failed
        ensures counted { self.new ≡ record self.old { faults = count_plus_one self.old.faults } }
        ensures later { self.old.faults ≤ self.new.faults }
    {
        self.faults = self.faults.saturating_add(1);
        Failed
    }
}

// Writes the piece, or a beginning of it up to the first write that fails or takes nothing.
fn write_piece<W: io::Write>(writer: &mut W, piece: &[u8]) -> Result<(), Failed>
    ensures whole { OnOk result (Appends (W.contents writer.old) (W.contents writer.new) piece.now) }
    ensures part { OnErr result ((n : ℕ) × (n ≤ length piece.now)
        × Appends (W.contents writer.old) (W.contents writer.new) (take n piece.now)) }
    ensures empty { length piece.now ≡ 0 → IsOk result × (writer.new ≡ writer.old) }
{
    let mut written = 0;
    while written < piece.len() {
        match writer.write(&piece[written..]) {
            Ok(0) => return Err(Failed),
            Ok(n) => written += n,
            Err(_) => return Err(Failed),
        }
    }
    Ok(())
}

impl<W: io::Write + Drop> Sink for StdSink<W> {
    ghost use Rattle.std.specs.Prelude.{None};

    ghost written = { λ s. None };

    ghost faults = { λ s. s.faults };

    fn put(&mut self, piece: &[u8]) -> Result<(), Failed> {
        if write_piece(&mut self.writer, piece).is_err() {
            return Err(self.fails());
        }
        Ok(())
    }
}
