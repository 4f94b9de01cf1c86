//! The streams of a machine that is driven, tied as a terminal's are: what is held back of the report goes out before the input
//! is asked for more bytes, for which it may wait, and before the console goes on. So whoever waits for an answer has it, and
//! the bytes of both outputs go out in the order in which they are put.

use std::cell::{Cell, RefCell};
use std::io::{self, BufWriter, ErrorKind, Read, Write};

/// The report, of which bytes are held back. Once it has failed to let them out it never does again, so that the call's end,
/// which lets out the last of them, shows it.
#[derive(Drop)]
pub struct HeldBack<W: Write + Drop> {
    writer: RefCell<BufWriter<W>>,
    has_failed: Cell<bool>,
}

impl<W: Write + Drop> HeldBack<W> {
    pub fn new(writer: BufWriter<W>) -> HeldBack<W> {
        HeldBack {
            writer: RefCell::new(writer),
            has_failed: Cell::new(false),
        }
    }

    fn flush(&self) -> io::Result<()> {
        let mut writer = self.writer.try_borrow_mut()?;
        writer.flush()
    }

    fn let_out(&self) -> io::Result<()> {
        if self.has_failed.get() {
            return Err(ErrorKind::BrokenPipe.into());
        }
        let done = self.flush();
        self.has_failed.set(done.is_err());
        done
    }
}

/// What the call writes of the report.
#[derive(Drop)]
pub struct Answers<'a, W: Write + Drop> {
    held: &'a HeldBack<W>,
}

impl<'a, W: Write + Drop> Answers<'a, W> {
    pub fn new(held: &'a HeldBack<W>) -> Answers<'a, W> {
        Answers { held }
    }
}

impl<W: Write + Drop> Write for Answers<'_, W> {
    fn write(&mut self, buf: &[u8]) -> io::Result<usize> {
        let mut writer = self.held.writer.try_borrow_mut()?;
        writer.write(buf)
    }

    fn flush(&mut self) -> io::Result<()> {
        self.held.let_out()
    }
}

/// The input, each read of which may wait.
#[derive(Drop)]
pub struct Input<'a, I: Read + Drop, W: Write + Drop> {
    reader: I,
    held: &'a HeldBack<W>,
}

impl<'a, I: Read + Drop, W: Write + Drop> Input<'a, I, W> {
    pub fn new(reader: I, held: &'a HeldBack<W>) -> Input<'a, I, W> {
        Input { reader, held }
    }
}

impl<I: Read + Drop, W: Write + Drop> Read for Input<'_, I, W> {
    fn read(&mut self, buf: &mut [u8]) -> io::Result<usize> {
        self.held.let_out()?;
        self.reader.read(buf)
    }
}

/// The console.
#[derive(Drop)]
pub struct Output<'a, C: Write + Drop, W: Write + Drop> {
    writer: C,
    held: &'a HeldBack<W>,
}

impl<'a, C: Write + Drop, W: Write + Drop> Output<'a, C, W> {
    pub fn new(writer: C, held: &'a HeldBack<W>) -> Output<'a, C, W> {
        Output { writer, held }
    }
}

impl<C: Write + Drop, W: Write + Drop> Write for Output<'_, C, W> {
    fn write(&mut self, buf: &[u8]) -> io::Result<usize> {
        self.held.let_out()?;
        self.writer.write(buf)
    }

    fn flush(&mut self) -> io::Result<()> {
        self.writer.flush()
    }
}
