//! A buffer of bytes that wait to be read or sent.

ghost use Rattle.std.specs.Prelude.{◌≡◌, ◌≢◌, ◌↔◌, ◌+◌, ◌*◌, ◌++◌, ◌-◌, ◌<◌, ◌≤◌, ◌^◌, [], length, take, drop, slice_range, Err, IfOk, IsTrue, OnOk, OnErr};
ghost use Rattle.std.specs.List.{flat_map};
ghost use Rattle.std.specs.VecDeque.{deque_capacity, deque_len};
ghost use Rattle.wl_wire.specs.MapIds.{numbered};
ghost use Rattle.wl_wire.specs.Message.{IsMessage, size, spelling, tokens};
ghost use Rattle.wl_link.specs.Link.{number_message};
ghost use Rattle.wl_link.specs.Inside.WaitingBytes.{waits, beside, arrived, Received, Appended};

use crate::number_message::{NUMBER_MESSAGE_SIZE, NumberMessage, put_numbers};
use crate::token_queue::TokenQueue;
use crate::transport::Transport;
use std::alloc::Global;
use std::collections::VecDeque;
use std::marker::Model;
use wl_wire::{IoFault, Message, MessageWriteError, Numbering, OutOfMemory, Token, write_once};

/// A byte buffer of a given capacity, with the bytes that wait in it, in order.
///
/// These bytes lie between two indices, so taking some off the front moves none. They are moved to the front only if there
/// is too little room after them.
#[derive(Drop)]
pub struct Buffer {
    storage: Vec<u8>,
    start: usize,
    end: usize,
}

impl Model for Buffer {
    ghost use Rattle.std.specs.Prelude.{◌<◌, ◌≤◌, slice_range};
    ghost use Rattle.std.specs.Vec.{vec_len};
    ghost use Rattle.wl_link.specs.Inside.WaitingBytes.{Waiting};

    ghost Value = { Waiting };

    ghost view = { λ b. record { bytes = slice_range b.storage.items b.start b.end; size = vec_len b.storage } };

    ghost invariant = { λ b. (b.start ≤ b.end) × (b.end ≤ vec_len b.storage) × (8 ≤ vec_len b.storage) };
}

impl Buffer {
    /// An empty buffer with a capacity of `size` bytes, at least 8: a message's header fits in.
    ///
    /// The error is `OutOfMemory`.
    pub fn new(alloc: Global, size: usize) -> Result<Self, OutOfMemory>
        requires { 8 ≤ size }
        ensures { IfOk result (λ b. b ≡ waits [] size) }
    {
        let storage = vec![in alloc; 0; size]?;
        Ok(Buffer {
            storage,
            start: 0,
            end: 0,
        })
    }

    /// The bytes that wait.
    pub fn bytes(&self) -> &[u8]
        ensures { result.now ≡ self.now.bytes }
    {
        &self.storage[self.start..self.end]
    }

    /// How many bytes wait.
    pub fn len(&self) -> usize
        ensures len { result ≡ length self.now.bytes }
        ensures within { result ≤ self.now.size }
    {
        self.end - self.start
    }

    /// Whether no bytes wait.
    pub fn is_empty(&self) -> bool
        ensures { IsTrue result ↔ (self.now.bytes ≡ []) }
    {
        self.start == self.end
    }

    /// The capacity in bytes.
    pub fn size(&self) -> usize
        ensures size { result ≡ self.now.size }
        ensures within { length self.now.bytes ≤ result }
        ensures header { 8 ≤ result }
        ensures small { result < 2 ^ 63 }
    {
        self.storage.len()
    }

    /// Takes `count` bytes off the front.
    pub fn consume(&mut self, count: usize)
        requires { count ≤ length self.old.bytes }
        ensures { self.new ≡ waits (drop count self.old.bytes) self.old.size }
    {
        if count == self.end - self.start {
            self.start = 0;
            self.end = 0;
        } else {
            self.start += count;
        }
    }

    /// Makes the capacity `size` bytes, which is no less than it was. If there is no memory, the buffer stays as it was. To
    /// keep the capacity as it is takes no memory.
    pub fn grow(&mut self, size: usize) -> Result<(), OutOfMemory>
        requires { self.old.size ≤ size }
        ensures ok { OnOk result (self.new ≡ waits self.old.bytes size) }
        ensures err { OnErr result (self.new ≡ self.old) }
        ensures full { OnErr result (self.old.size < size) }
    {
        if size == self.storage.len() {
            return Ok(());
        }
        self.storage.resize(size, 0)?;
        Ok(())
    }

    /// Appends the message's bytes to those that wait, and its tokens to the queue.
    ///
    /// The bytes that wait are not moved. So there may be too little room after them (`BufferTooSmall`), though the buffer
    /// has enough in all. The other errors are those of `write_to_buffers`. An error changes nothing.
    pub fn write<Id, N: Numbering<Id>>(
        &mut self,
        message: &Message<Id, Token>,
        numbers: &N,
        fds: &mut TokenQueue,
    ) -> Result<(), MessageWriteError>
        ensures appended { Appended self.old fds.old (numbered (N.object_number numbers.now) (N.new_number numbers.now) message.now) result self.new fds.new }
        ensures message { OnOk result (IsMessage (numbered (N.object_number numbers.now) (N.new_number numbers.now) message.now)) }
    {
        // Most messages are written in one pass. If not, what this leaves behind the bytes that wait is not seen.
        let end = self.end;
        if let Some(count) = write_once(message, numbers, &mut self.storage[end..]) {
            self.end = end + count;
            return Ok(());
        }
        self.write_counted(message, numbers, fds)
    }

    /// As `write`, which calls it for a message that was not written in one pass. Its bytes are counted before any is written.
    ///
    /// It is not inlined, so that it costs nothing for the messages that are.
    #[inline(never)]
    fn write_counted<Id, N: Numbering<Id>>(
        &mut self,
        message: &Message<Id, Token>,
        numbers: &N,
        fds: &mut TokenQueue,
    ) -> Result<(), MessageWriteError>
        ensures appended { Appended self.old fds.old (numbered (N.object_number numbers.now) (N.new_number numbers.now) message.now) result self.new fds.new }
        ensures message { OnOk result (IsMessage (numbered (N.object_number numbers.now) (N.new_number numbers.now) message.now)) }
    {
        let end = self.end;
        let count = write_after(message, numbers, &mut self.storage, self.start, end, fds)?;
        self.end = end + count;
        Ok(())
    }

    /// Moves the bytes that wait to the front, and appends the message's bytes to them, and its tokens to the queue.
    ///
    /// The buffer must have room for the message. If there is no memory for its tokens, nothing is changed.
    pub fn put<Id, N: Numbering<Id>>(
        &mut self,
        message: &Message<Id, Token>,
        numbers: &N,
        fds: &mut TokenQueue,
    ) -> Result<(), MessageWriteError>
        requires small { size (numbered (N.object_number numbers.now) (N.new_number numbers.now) message.now) ≤ 65535 }
        requires room { length self.old.bytes + size (numbered (N.object_number numbers.now) (N.new_number numbers.now) message.now) ≤ self.old.size }
        ensures appended { Appended self.old fds.old (numbered (N.object_number numbers.now) (N.new_number numbers.now) message.now) result self.new fds.new }
        ensures fits { result ≢ Err MessageWriteError.BufferTooSmall }
        ensures message { OnOk result (IsMessage (numbered (N.object_number numbers.now) (N.new_number numbers.now) message.now)) }
    {
        let (start, end) = (self.start, self.end);
        self.start = 0;
        match write_at_front(message, numbers, &mut self.storage, start, end, fds) {
            Ok(count) => {
                self.end = end - start + count;
                Ok(())
            }
            Err(error) => {
                self.end = end - start;
                Err(error)
            }
        }
    }

    /// Appends these bytes to those that wait. The buffer must have room for them.
    pub fn append(&mut self, bytes: &[u8])
        requires { length self.old.bytes + length bytes.now ≤ self.old.size }
        ensures { self.new ≡ waits (self.old.bytes ++ bytes.now) self.old.size }
    {
        let (start, end) = (self.start, self.end);
        self.start = 0;
        append_at_front(bytes, &mut self.storage, start, end);
        self.end = end - start + bytes.len();
    }

    /// Appends the messages to the bytes that wait. The buffer must have room for them.
    pub fn append_numbers(&mut self, messages: &[NumberMessage])
        requires { length self.old.bytes + 12 * length messages.now ≤ self.old.size }
        ensures { self.new ≡ waits (self.old.bytes ++ flat_map (λ m. spelling (number_message m)) messages.now) self.old.size }
    {
        let (start, end) = (self.start, self.end);
        self.start = 0;
        append_numbers_at_front(messages, &mut self.storage, start, end);
        self.end = end - start + NUMBER_MESSAGE_SIZE * messages.len();
    }

    /// Receives into all of the buffer that is free. The bytes that come are appended to those that wait. Returns how many
    /// they are.
    ///
    /// The tokens that come are appended to the queue, which must have the capacity for 28 more, the most that a receive
    /// may give. A fault of the transport is returned, and changes neither the bytes nor the tokens that wait.
    pub fn receive<T: Transport>(
        &mut self,
        transport: &mut T,
        tokens: &mut VecDeque<Token>,
    ) -> Result<usize, IoFault>
        requires tokens { deque_len tokens.old + 28 ≤ deque_capacity tokens.old }
        ensures received { Received T.receives transport.old (beside self.old.bytes tokens.old.items) self.old.size result
            transport.new (beside self.new.bytes tokens.new.items) }
        ensures size { self.new.size ≡ self.old.size }
        ensures capacity { deque_capacity tokens.old ≤ deque_capacity tokens.new }
    {
        let (start, end) = (self.start, self.end);
        self.start = 0;
        match receive_at_front(transport, &mut self.storage, start, end, tokens) {
            Ok(count) => {
                self.end = end - start + count;
                Ok(count)
            }
            Err(fault) => {
                self.end = end - start;
                Err(fault)
            }
        }
    }
}

/// Moves the bytes from `start` to `end` to the front.
#[tactic(auto, using(std::proofs::lemmas::Slice::overwrites))]
fn move_to_front(storage: &mut [u8], start: usize, end: usize)
    requires ordered { start ≤ end }
    requires within { end ≤ length storage.old }
    ensures { slice_range storage.new 0 (end - start) ≡ slice_range storage.old start end }
{
    let count = end - start;
    if start == 0 || count == 0 {
        return;
    }
    if count <= start {
        copy_to_front(storage, start, count);
    } else {
        storage.copy_within(start..end, 0);
    }
}

/// Copies `count` bytes from `start` on to the front. They do not overlap the place to which they go.
fn copy_to_front(storage: &mut [u8], start: usize, count: usize)
    requires apart { count ≤ start }
    requires within { start + count ≤ length storage.old }
    ensures { take count storage.new ≡ take count (drop start storage.old) }
{
    let (front, waiting) = storage.split_at_mut(start);
    let (to, _) = front.split_at_mut(count);
    to.copy_from_slice(&waiting[..count]);
}

/// Writes the message after the bytes from `start` to `end`, and appends its tokens to the queue. Returns how many bytes
/// were written.
fn write_after<Id, N: Numbering<Id>>(
    message: &Message<Id, Token>,
    numbers: &N,
    storage: &mut [u8],
    start: usize,
    end: usize,
    fds: &mut TokenQueue,
) -> Result<usize, MessageWriteError>
    requires ordered { start ≤ end }
    requires within { end ≤ length storage.old }
    ensures appended { Appended (waits (slice_range storage.old start end) (length storage.old)) fds.old (numbered (N.object_number numbers.now) (N.new_number numbers.now) message.now) result
        (waits (slice_range storage.new start (end + arrived result)) (length storage.old)) fds.new }
    ensures room { end + arrived result ≤ length storage.old }
    ensures message { OnOk result (IsMessage (numbered (N.object_number numbers.now) (N.new_number numbers.now) message.now)) }
    ensures too_small { result ≡ Err MessageWriteError.BufferTooSmall → length storage.old < end + size (numbered (N.object_number numbers.now) (N.new_number numbers.now) message.now) }
{
    fds.write(message, numbers, &mut storage[end..])
}

/// Moves the bytes from `start` to `end` to the front, and writes the message after them, as `write_after` does.
fn write_at_front<Id, N: Numbering<Id>>(
    message: &Message<Id, Token>,
    numbers: &N,
    storage: &mut [u8],
    start: usize,
    end: usize,
    fds: &mut TokenQueue,
) -> Result<usize, MessageWriteError>
    requires ordered { start ≤ end }
    requires within { end ≤ length storage.old }
    ensures appended { Appended (waits (slice_range storage.old start end) (length storage.old)) fds.old (numbered (N.object_number numbers.now) (N.new_number numbers.now) message.now) result
        (waits (slice_range storage.new 0 (end - start + arrived result)) (length storage.old)) fds.new }
    ensures message { OnOk result (IsMessage (numbered (N.object_number numbers.now) (N.new_number numbers.now) message.now)) }
    ensures room { end - start + arrived result ≤ length storage.old }
    ensures too_small { result ≡ Err MessageWriteError.BufferTooSmall → length storage.old < end - start + size (numbered (N.object_number numbers.now) (N.new_number numbers.now) message.now) }
{
    move_to_front(storage, start, end);
    write_after(message, numbers, storage, 0, end - start, fds)
}

/// Moves the bytes from `start` to `end` to the front, and copies these bytes after them.
fn append_at_front(bytes: &[u8], storage: &mut [u8], start: usize, end: usize)
    requires ordered { start ≤ end }
    requires within { end ≤ length storage.old }
    requires room { end - start + length bytes.now ≤ length storage.old }
    ensures { slice_range storage.new 0 (end - start + length bytes.now) ≡ slice_range storage.old start end ++ bytes.now }
{
    move_to_front(storage, start, end);
    let count = end - start;
    storage[count..count + bytes.len()].copy_from_slice(bytes);
}

/// Moves the bytes from `start` to `end` to the front, and writes the messages after them.
fn append_numbers_at_front(messages: &[NumberMessage], storage: &mut [u8], start: usize, end: usize)
    requires ordered { start ≤ end }
    requires within { end ≤ length storage.old }
    requires room { end - start + 12 * length messages.now ≤ length storage.old }
    ensures { slice_range storage.new 0 (end - start + 12 * length messages.now)
        ≡ slice_range storage.old start end ++ flat_map (λ m. spelling (number_message m)) messages.now }
{
    move_to_front(storage, start, end);
    put_numbers(storage, end - start, messages);
}

/// Moves the bytes from `start` to `end` to the front, and receives after them. Returns how many bytes came.
fn receive_at_front<T: Transport>(
    transport: &mut T,
    storage: &mut [u8],
    start: usize,
    end: usize,
    tokens: &mut VecDeque<Token>,
) -> Result<usize, IoFault>
    requires ordered { start ≤ end }
    requires within { end ≤ length storage.old }
    ensures received { Received T.receives transport.old
        (beside (slice_range storage.old start end) tokens.old.items) (length storage.old) result
        transport.new (beside (slice_range storage.new 0 (end - start + arrived result)) tokens.new.items) }
    ensures room { end - start + arrived result ≤ length storage.old }
    ensures capacity { deque_capacity tokens.old ≤ deque_capacity tokens.new }
{
    move_to_front(storage, start, end);
    transport.rcv_msg(&mut storage[end - start..], tokens)
}
