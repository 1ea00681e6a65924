//! Bytes that wait in their order, and are taken off at the front.

ghost use Rattle.std.specs.Prelude.{◌≡◌, ◌++◌, [], OnErr, OnOk, drop, length};

use std::alloc::Global;
use std::marker::Model;
use wl_wire::OutOfMemory;

/// Bytes that wait in their order.
///
/// To take bytes off moves none of the others. These are moved to the front only if bytes that are appended find no room, and only if
/// they are no more than those that were taken off.
#[derive(Drop)]
pub struct ByteQueue {
    bytes: Vec<u8>,
    /// How many of the bytes were taken off.
    start: usize,
}

impl Model for ByteQueue {
    ghost use Rattle.std.specs.Prelude.{List, ℕ, ◌≤◌, drop, vec_len};

    ghost Value = { List ℕ };

    ghost view = { λ q. drop q.start q.bytes.items };

    ghost invariant = { λ q. q.start ≤ vec_len q.bytes };
}

impl ByteQueue {
    /// No bytes. It allocates nothing.
    pub fn new(alloc: Global) -> Self
        ensures { result ≡ [] }
    {
        ByteQueue {
            bytes: Vec::new(alloc),
            start: 0,
        }
    }

    /// The bytes.
    pub fn as_slice(&self) -> &[u8]
        ensures { result.now ≡ self.now }
    {
        &self.bytes[self.start..]
    }

    /// How many bytes wait.
    pub fn len(&self) -> usize
        ensures { result ≡ length self.now }
    {
        self.bytes.len() - self.start
    }

    /// Moves the bytes to the front, if there is no room for `more` behind them and they are no more than those that were taken off.
    fn move_up(&mut self, more: usize)
        ensures { self.new ≡ self.old }
    {
        let left = self.bytes.len() - self.start;
        if self.start < left || more <= self.bytes.capacity() - self.bytes.len() {
            return;
        }
        self.bytes.drain(..self.start);
        self.start = 0;
    }

    /// Appends the bytes. The error says that there was no memory. Then nothing is changed.
    pub fn append(&mut self, bytes: &[u8]) -> Result<(), OutOfMemory>
        ensures ok { OnOk result (self.new ≡ self.old ++ bytes.now) }
        ensures err { OnErr result (self.new ≡ self.old) }
    {
        self.move_up(bytes.len());
        self.bytes.extend_from_slice(bytes)?;
        Ok(())
    }

    /// Takes the first bytes off, so many, or all if there are fewer.
    pub fn drop_first(&mut self, count: usize)
        ensures { self.new ≡ drop count self.old }
    {
        self.start += count.min(self.bytes.len() - self.start);
    }
}
