//! One terminal that shows the console and the report: where the console's last line isn't ended, what comes next on standard
//! error begins on a line of its own.

use std::io::{self, Write};
use std::sync::atomic::{AtomicBool, Ordering};

/// The console. Where it is shown beside the report it notes whether its last line is still open.
#[derive(Drop)]
pub struct Console<'a, W> {
    writer: W,
    is_shared: bool,
    is_open: &'a AtomicBool,
}

impl<'a, W> Console<'a, W> {
    pub fn new(writer: W, is_shared: bool, is_open: &'a AtomicBool) -> Console<'a, W> {
        Console {
            writer,
            is_shared,
            is_open,
        }
    }
}

impl<W: Write> Write for Console<'_, W> {
    fn write(&mut self, buf: &[u8]) -> io::Result<usize> {
        let count = self.writer.write(buf)?;
        if let (true, Some(last)) = (self.is_shared, buf[..count].last()) {
            self.is_open.store(*last != b'\n', Ordering::Relaxed);
        }
        Ok(count)
    }

    fn flush(&mut self) -> io::Result<()> {
        self.writer.flush()
    }
}

/// The report. It ends the console's line before it goes on.
#[derive(Drop)]
pub struct Report<'a, W> {
    writer: W,
    is_open: &'a AtomicBool,
}

impl<'a, W> Report<'a, W> {
    pub fn new(writer: W, is_open: &'a AtomicBool) -> Report<'a, W> {
        Report { writer, is_open }
    }
}

impl<W: Write> Write for Report<'_, W> {
    fn write(&mut self, buf: &[u8]) -> io::Result<usize> {
        if !buf.is_empty() && self.is_open.swap(false, Ordering::Relaxed) {
            self.writer.write_all(b"\n")?;
        }
        self.writer.write(buf)
    }

    fn flush(&mut self) -> io::Result<()> {
        self.writer.flush()
    }
}
