//! Notes: what happened to clients and their objects.

ghost use Rattle.std.specs.Prelude.{◌≡◌, ◌++◌, [], length, nat_lt, not};
ghost use Rattle.wl_host.specs.Cleaning.{DropsNotes};
ghost use Rattle.wl_flat.specs.Descriptors.{Conserves};
ghost use Rattle.wl_host.specs.Notes.{Fetches, NextNote, client_note, error_note, flat_note, text_of, with_text};
ghost use Rattle.wl_flat.specs.Nulls.{sets};
ghost use Rattle.wl_host.specs.Server.{kept_by_server};
ghost use Rattle.wl_flat.specs.declared.status.Status.TheVariants as status;

use crate::server::Server;
use std::collections::VecDeque;
use wl_flat::flat::{
    DESTROYED, FlatClientId, FlatNote, FlatObjectId, INSERTED, KILLED, count_number,
};
use wl_flat::status::Status;
use wl_server::{ClientId, DisconnectReason, Note, ObjectId};
use wl_wire::ProtocolError;

/// A note of a client, with nothing else in it.
fn client_note(kind: u32, client: ClientId) -> FlatNote
    ensures { result ≡ client_note kind client }
{
    FlatNote {
        kind,
        is_protocol_error: 0,
        code: 0,
        object_number: 0,
        client: FlatClientId::new(client),
        object: FlatObjectId::null(),
        data: 0,
        message_length: 0,
        interface_length: 0,
    }
}

/// A note of a client that was killed for a protocol error.
fn error_note(client: ClientId, error: &ProtocolError) -> FlatNote
    ensures { result ≡ error_note client error.now }
{
    let mut note = client_note(KILLED, client);
    note.is_protocol_error = 1;
    note.code = error.code;
    note.object_number = error.object_id;
    note.message_length = count_number(error.message.as_str().len());
    note.interface_length = count_number(error.object_interface.as_str().len());
    note
}

/// A note of an object that is gone.
fn end_note(client: ClientId, object: ObjectId, user_data: u64) -> FlatNote
    ensures { result ≡ flat_note (Note.Destroyed client object user_data) }
{
    let mut note = client_note(DESTROYED, client);
    note.object = FlatObjectId::of_resource(object);
    note.data = user_data;
    note
}

/// The note as a flat struct.
fn flat_note(note: &Note<u64>) -> FlatNote
    ensures { result ≡ flat_note note.now }
{
    match note {
        Note::Initialized(client) => client_note(INSERTED, *client),
        Note::Disconnected(client, DisconnectReason::ConnectionClosed) => {
            client_note(KILLED, *client)
        }
        Note::Disconnected(client, DisconnectReason::ProtocolError(error)) => {
            error_note(*client, error)
        }
        Note::Destroyed(client, object, user_data) => end_note(*client, *object, *user_data),
    }
}

/// Copies the text of a protocol error: the message, and then the name of the interface. Returns whether there was room.
pub(crate) fn copy_error_text(error: &ProtocolError, text: &mut [u8]) -> bool
    ensures room { result ≡ not (nat_lt (length text.old) (length (error.now.message ++ error.now.object_interface))) }
    ensures text { text.new ≡ with_text (error.now.message ++ error.now.object_interface) text.old }
{
    let message = error.message.as_str().as_bytes();
    let interface = error.object_interface.as_str().as_bytes();
    if message.len() > text.len() || interface.len() > text.len() - message.len() {
        return false;
    }
    let (first, rest) = text.split_at_mut(message.len());
    first.copy_from_slice(message);
    rest[..interface.len()].copy_from_slice(interface);
    true
}

/// Copies the text of the note, if it has one. Returns whether there was room.
fn copy_text(note: &Note<u64>, text: &mut [u8]) -> bool
    ensures room { result ≡ not (nat_lt (length text.old) (length (text_of note.now))) }
    ensures text { text.new ≡ with_text (text_of note.now) text.old }
{
    match note {
        Note::Disconnected(_, DisconnectReason::ProtocolError(error)) => {
            copy_error_text(error, text)
        }
        _ => true,
    }
}

impl Server {
    /// Hands out the next note (`wl_server::Backend::take_notes`), the oldest first. The text of a protocol error goes to `text`:
    /// its message, and then the name of the interface of the object that it is about.
    ///
    /// The status is `WouldBlock` if there is none, `TooSmall` if `text` has no room for the text, and `OutOfMemory`. After
    /// `TooSmall` `out` says how long the text is, and the note is handed out by the next call with enough.
    pub fn next_note(&mut self, out: &mut FlatNote, text: &mut [u8]) -> Status
        ensures call { NextNote self.old out.old text.old result out.new text.new self.new }
        ensures descriptors { Conserves kept_by_server self.old [] [] self.new }
    {
        if let Err(status) = self.fetch_notes() {
            return status;
        }
        let Some(note) = self.notes.front() else {
            return Status::WouldBlock;
        };
        *out = flat_note(note);
        if !copy_text(note, text) {
            return Status::TooSmall;
        }
        self.notes.pop_front();
        Status::Ok
    }

    /// Sets whether notes are kept until `next_note` hands them out: not if `is_on` is 0. In a new session they are kept.
    ///
    /// If they are not, each `cleanup` that answers `Ok` drops the notes that there are: those of ended objects and killed
    /// clients, and all others. Those that the core still has stay there until the next one, if there is no memory to take them.
    /// Between two cleanups `next_note` hands out what was noted since the first.
    pub fn keep_notes(&mut self, is_on: u32) -> Status
        ensures set { self.new ≡ record self.old { keeps_notes = sets is_on } }
        ensures descriptors { Conserves kept_by_server self.old [] [] self.new }
        ensures status { result ≡ status.Ok }
    {
        self.keeps_notes = is_on != 0;
        Status::Ok
    }

    /// Drops all notes that there are. Those of the core stay if there is no memory to take them.
    pub(crate) fn drop_notes(&mut self)
        ensures { DropsNotes self.old self.new }
    {
        let alloc = self.alloc();
        self.notes = VecDeque::new(alloc);
        let _ = self.fetch_notes();
        self.notes = VecDeque::new(alloc);
    }

    /// Takes the notes of the core, if none are left and there may be some.
    fn fetch_notes(&mut self) -> Result<(), Status>
        ensures { Fetches self.old result self.new }
    {
        if !self.notes.is_empty() || !self.may_have_notes {
            return Ok(());
        }
        match self.core.take_notes() {
            Ok(notes) => {
                self.notes = VecDeque::from_vec(notes);
                self.may_have_notes = false;
                Ok(())
            }
            Err(error) => Err(Status::from(error)),
        }
    }
}
