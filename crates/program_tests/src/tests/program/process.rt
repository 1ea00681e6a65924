//! The arguments of a process, as a program reads them.

ghost use Rattle.std.specs.Io.{WritesAtMost};

use std::alloc::Global;
use std::env::{Args, FillError};
use std::rt::Env;
use std::{env, io};

/// Arguments, the first of which is the name of the program.
pub type Words = &'static [&'static [u8]];

/// A process with these arguments.
#[derive(Drop)]
struct Process(Words);

/// Puts the bytes to the front of the buffer.
fn fill(buf: &mut [u8], bytes: &[u8]) -> Result<usize, FillError>
    ensures { WritesAtMost result buf.new }
{
    let len = bytes.len();
    if len > buf.len() {
        return Err(FillError::TooLong);
    }
    buf[..len].copy_from_slice(bytes);
    Ok(len)
}

impl Env for Process {
    fn arg(&self, i: usize, buf: &mut [u8]) -> Result<usize, FillError> {
        match self.0.get(i) {
            Some(bytes) => fill(buf, bytes),
            None => Err(FillError::NotPresent),
        }
    }

    fn var(&self, _name: &str, _buf: &mut [u8]) -> Result<usize, FillError> {
        Err(FillError::NotPresent)
    }

    fn var_at(&self, _i: usize, _buf: &mut [u8]) -> Result<usize, FillError> {
        Err(FillError::NotPresent)
    }
}

/// The arguments of a process that has these.
pub fn arguments(alloc: Global, words: Words) -> io::Result<Args> {
    env::args(&(Process(words), alloc))
}
