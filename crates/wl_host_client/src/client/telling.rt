//! What is told of a session: its messages, both ways.

ghost use Rattle.std.specs.Prelude.{◌≡◌, IfOk, None, Some, [], is_some, option_map};
ghost use Rattle.wl_host_client.specs.Client.{ConservesClient};
ghost use Rattle.wl_host_client.specs.ClientTellings.{ArrivesTold, CatchesUpIfTold, CatchesUpWith, NextTold, SetsTelling, TellsIfTold, TellsNextOf};
ghost use Rattle.wl_flat.specs.Nulls.{sets};
ghost use Rattle.wl_flat.specs.Sending.{sent_of};
ghost use Rattle.wl_flat.specs.Told.{left_off, new_telling, waiting_in};

use super::Client;
use std::alloc::Global;
use std::marker::Model;
use wl_flat::descriptors::DescriptorQueue;
use wl_flat::flat::{FlatArgument, FlatTold};
use wl_flat::incoming::take_in;
use wl_flat::status::Status;
use wl_flat::telling::Telling;
use wl_follow::Side;
use wl_link::Mailbox;
use wl_wire::{OutOfMemory, Protocol};

/// What is told of the messages, if they are told. It stands apart, so that a session of which nothing is told has no room for it.
#[derive(Drop)]
pub struct Messages {
    telling: Option<Box<Telling>>,
}

impl Model for Messages {
    ghost use Rattle.std.specs.Coded.{codes};
    ghost use Rattle.std.specs.Prelude.{Option, option_map};
    ghost use Rattle.wl_link.specs.ObjectMap.{store_code};
    ghost use Rattle.wl_flat.specs.declared.telling.Telling.{Telling};

    ghost Value = { Option Telling };

    ghost coded = { Prim.hlevel (codes, store_code) };

    ghost view = { λ m. option_map (λ b. b.value) m.telling };
}

impl Messages {
    /// They are not told.
    pub fn none() -> Self
        ensures { result ≡ None }
    {
        Messages { telling: None }
    }

    /// They are told, of a connection over which nothing went.
    fn begun(alloc: Global) -> Result<Self, OutOfMemory>
        ensures { IfOk result (λ m. m ≡ Some new_telling) }
    {
        match Box::new(alloc, Telling::new(alloc)?) {
            Ok(telling) => Ok(Messages {
                telling: Some(telling),
            }),
            Err(_) => Err(OutOfMemory),
        }
    }

    /// Whether they are told.
    fn are_told(&self) -> bool
        ensures { result ≡ is_some self.now }
    {
        self.telling.is_some()
    }

    /// Puts what arrived into the mailbox. If messages are told, it is to be told once it is read.
    ///
    /// The statuses are those of `incoming::take_in`, and `OutOfMemory` also if there was no memory to tell it. Then nothing is changed.
    pub fn take_in(
        &mut self,
        mailbox: &mut Mailbox,
        queue: &mut DescriptorQueue,
        bytes: &[u8],
        descriptors: &[i32],
    ) -> Status
        ensures { ArrivesTold mailbox.old queue.old self.old bytes.now descriptors.now result mailbox.new queue.new self.new }
    {
        match &mut self.telling {
            Some(telling) => telling.take_in(Side::Server, mailbox, queue, bytes, descriptors),
            None => take_in(mailbox, queue, bytes, descriptors),
        }
    }

    /// What is told, if something is, catches up with the session, which has read all that arrived but for so many bytes.
    ///
    /// The error says that there was no memory. Then the next call goes on.
    fn catch_up(
        &mut self,
        unread: usize,
        mailbox: &Mailbox,
        sending: &DescriptorQueue,
    ) -> Result<(), OutOfMemory>
        ensures { CatchesUpIfTold unread (waiting_in mailbox.now sending.now) self.old result self.new }
    {
        match &mut self.telling {
            Some(telling) => telling.catch_up(Side::Server, unread, mailbox, sending),
            None => Ok(()),
        }
    }

    /// So many of the bytes in the mailbox are sent, or all if there are fewer. Nothing was taken off the mailbox yet.
    pub fn sent(&mut self, count: u32, mailbox: &Mailbox)
        ensures { self.new ≡ option_map (left_off (sent_of count mailbox.now)) self.old }
    {
        if let Some(telling) = &mut self.telling {
            telling.sent(count, mailbox);
        }
    }

    /// Tells the next message. The status is `InvalidId` if messages are not told, and else that of `Telling::next`.
    fn next(
        &mut self,
        table: &Protocol,
        alloc: Global,
        out: &mut FlatTold,
        arguments: &mut [FlatArgument],
        bytes: &mut [u8],
    ) -> Status
        ensures { TellsIfTold table.now self.old (record { out = out.old; arguments = arguments.old; bytes = bytes.old }) result
            (record { out = out.new; arguments = arguments.new; bytes = bytes.new }) self.new }
    {
        match &mut self.telling {
            Some(telling) => telling.next(table, alloc, out, arguments, bytes),
            None => {
                *out = FlatTold::none();
                Status::InvalidId
            }
        }
    }
}

impl Client {
    /// Sets whether the messages of the session are told, both ways (`next_told`): they are if `is_on` is not 0. In a new session they
    /// are not. With 0 what waits to be told is dropped.
    ///
    /// They are told from the first one on, since a message can be read only by those before it. So the status is
    ///
    /// - `InUse` if they are not told, and something was received or sent: a call of `received` answered `Ok`, or one of `sent` did while the
    ///   session had not failed, also of nothing. What was only asked to be sent (`send_request`) is told;
    /// - `OutOfMemory` if there is no memory.
    ///
    /// Then nothing is changed. Nor is it if they are told already.
    pub fn tell_messages(&mut self, is_on: u32) -> Status
        ensures set { SetsTelling (sets is_on) self.old result self.new }
        ensures descriptors { ConservesClient self.old [] [] self.new }
    {
        if is_on == 0 {
            self.messages = Messages::none();
            return Status::Ok;
        }
        if self.messages.are_told() {
            return Status::Ok;
        }
        if !self.is_new {
            return Status::InUse;
        }
        match Messages::begun(*self.notes.allocator()) {
            Ok(messages) => {
                self.messages = messages;
                Status::Ok
            }
            Err(error) => Status::from(error),
        }
    }

    /// Tells the next message that the session has read, or has written, into the lent memory: each once, those of each side in order.
    /// What the session writes is seen once it is where the host finds it (`flush`). What was read before this call, `next_event`,
    /// `to_send` or `sent` comes before what was written before it. So after `next_event` answered `Ok` the last event that is told is the
    /// one that it handed out, and the others are those that it read before and handed to nobody.
    ///
    /// The message is read by the table, and by the objects that the messages before it made and ended. Its descriptors are told as
    /// numbers, and may be closed already. The objects have the interfaces that they have after the message. Their data, and the
    /// serials of their ids, are 0.
    ///
    /// The status is
    ///
    /// - `InvalidId` if the messages are not told (`tell_messages`);
    /// - `TooSmall` if `arguments` or `bytes` has no room for the message. Then `out` says how much is needed, and the message is told by
    ///   the next call with enough;
    /// - `WouldBlock` if there is no more now;
    /// - `OutOfMemory`. The next call goes on.
    ///
    /// After any but `Ok` and `TooSmall` `out` is all zeros. After any but `Ok` the rest of the lent memory is as it was.
    pub fn next_told(
        &mut self,
        out: &mut FlatTold,
        arguments: &mut [FlatArgument],
        bytes: &mut [u8],
    ) -> Status
        ensures told { NextTold self.old (record { out = out.old; arguments = arguments.old; bytes = bytes.old }) result
            (record { out = out.new; arguments = arguments.new; bytes = bytes.new }) self.new }
        ensures descriptors { ConservesClient self.old [] [] self.new }
    {
        match self.catch_up() {
            Ok(()) => self.tell_next(out, arguments, bytes),
            Err(OutOfMemory) => {
                *out = FlatTold::none();
                Status::OutOfMemory
            }
        }
    }

    /// Tells the next message of what caught up. The statuses are those of `next_told`.
    fn tell_next(
        &mut self,
        out: &mut FlatTold,
        arguments: &mut [FlatArgument],
        bytes: &mut [u8],
    ) -> Status
        ensures told { TellsNextOf self.old (record { out = out.old; arguments = arguments.old; bytes = bytes.old }) result
            (record { out = out.new; arguments = arguments.new; bytes = bytes.new }) self.new }
        ensures descriptors { ConservesClient self.old [] [] self.new }
    {
        let alloc = *self.notes.allocator();
        self.messages
            .next(self.core.protocol(), alloc, out, arguments, bytes)
    }

    /// What is told catches up with the session.
    ///
    /// The error says that there was no memory. Then the next call goes on.
    pub(super) fn catch_up(&mut self) -> Result<(), OutOfMemory>
        ensures caught { CatchesUpWith self.old result self.new }
        ensures descriptors { ConservesClient self.old [] [] self.new }
    {
        if !self.messages.are_told() {
            return Ok(());
        }
        let unread = self.core.waiting()[0].saturating_add(self.core.transport().bytes_left());
        self.messages
            .catch_up(unread, self.core.transport(), &self.departures)
    }
}
