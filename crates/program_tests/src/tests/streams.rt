//! A reader and a writer that may fail.

use std::alloc::Global;
use std::io;
use std::io::Write;

/// A reader of these bytes. Each read after them fails, if it `breaks`.
#[derive(Drop)]
pub struct Source<'a> {
    pub bytes: &'a [u8],
    pub breaks: bool,
}

impl io::Read for Source<'_> {
    fn read(&mut self, buf: &mut [u8]) -> io::Result<usize> {
        if self.breaks && self.bytes.is_empty() {
            return Err(io::Error::from(io::ErrorKind::ConnectionReset));
        }
        self.bytes.read(buf)
    }
}

/// What fails in a run.
pub enum Fault {
    /// Nothing.
    None,
    /// Each read after the bytes of the input.
    Input,
    /// Each write of the output after so many.
    Write(usize),
    /// Each flush of the output after so many.
    Flush(usize),
    /// Each write to standard error.
    Errors,
}

/// A writer that takes so many writes and flushes, and then fails each.
#[derive(Drop)]
pub struct Sink {
    pub taken: Vec<u8>,
    pub flushed: usize,
    writes: usize,
    flushes: usize,
}

impl Sink {
    /// A writer that takes so many writes and flushes.
    fn new(alloc: Global, writes: usize, flushes: usize) -> Self {
        Sink {
            taken: Vec::new(alloc),
            flushed: 0,
            writes,
            flushes,
        }
    }

    /// The output of a run with this fault.
    pub fn output(alloc: Global, fault: &Fault) -> Self {
        match fault {
            Fault::Write(count) => Sink::new(alloc, *count, ENOUGH),
            Fault::Flush(count) => Sink::new(alloc, ENOUGH, *count),
            _ => Sink::new(alloc, ENOUGH, ENOUGH),
        }
    }

    /// The standard error of a run with this fault.
    pub fn errors(alloc: Global, fault: &Fault) -> Self {
        let count = if matches!(fault, Fault::Errors) {
            0
        } else {
            ENOUGH
        };
        Sink::new(alloc, count, count)
    }
}

/// More writes and flushes than any run makes.
const ENOUGH: usize = 99;

/// One less, or a fault if none is left.
fn count_down(left: &mut usize) -> io::Result<()> {
    if *left == 0 {
        return Err(io::Error::from(io::ErrorKind::BrokenPipe));
    }
    *left -= 1;
    Ok(())
}

impl Write for Sink {
    fn write(&mut self, buf: &[u8]) -> io::Result<usize> {
        count_down(&mut self.writes)?;
        self.taken.write(buf)
    }

    fn flush(&mut self) -> io::Result<()> {
        count_down(&mut self.flushes)?;
        self.flushed = self.taken.len();
        Ok(())
    }
}
