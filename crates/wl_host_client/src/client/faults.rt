//! The error that ended a session, and how the host ends one.

ghost use Rattle.std.specs.Prelude.{◌≡◌, ◌++◌, []};
ghost use Rattle.wl_host_client.specs.Client.{ConservesClient, failed};
ghost use Rattle.wl_host_client.specs.Faults.{flat_error, io_error, no_error, number_of, protocol_error, text_of_error};
ghost use Rattle.wl_flat.specs.Lent.{has_room, status_for, written};
ghost use Rattle.wl_flat.specs.declared.status.Status.TheVariants as status;

use super::Client;
use wl_client::WaylandError;
use wl_flat::flat::{FlatError, IO, PROTOCOL, count_number};
use wl_flat::status::Status;
use wl_wire::{IoFault, ProtocolError};

/// No error.
fn no_error() -> FlatError
    ensures { result ≡ no_error }
{
    FlatError {
        kind: 0,
        status: Status::Ok.code(),
        number: 0,
        code: 0,
        object_number: 0,
        message_length: 0,
        interface_length: 0,
    }
}

/// The number of the system in a fault; 0 if it has none.
fn number_of(fault: IoFault) -> i32
    ensures { result ≡ number_of fault }
{
    match fault {
        IoFault::Other(number) => number,
        _ => 0,
    }
}

/// A fault of the transport.
fn io_error(fault: IoFault) -> FlatError
    ensures { result ≡ io_error fault }
{
    FlatError {
        kind: IO,
        status: Status::from(fault).code(),
        number: number_of(fault),
        ..no_error()
    }
}

/// A protocol error, without its text.
fn protocol_error(error: &ProtocolError) -> FlatError
    ensures { result ≡ protocol_error error.now }
{
    FlatError {
        kind: PROTOCOL,
        status: Status::ProtocolError.code(),
        code: error.code,
        object_number: error.object_id,
        message_length: count_number(error.message.as_str().len()),
        interface_length: count_number(error.object_interface.as_str().len()),
        ..no_error()
    }
}

/// Copies the two texts behind each other. The status is `TooSmall` if there is no room for them.
fn put_texts(to: &mut [u8], first: &str, second: &str) -> Status
    ensures texts { to.new ≡ written (first.now ++ second.now) to.old }
    ensures status { result ≡ status_for (has_room (first.now ++ second.now) to.old) }
{
    let end = first.len() + second.len();
    if end > to.len() {
        return Status::TooSmall;
    }
    to[..first.len()].copy_from_slice(first.as_bytes());
    to[first.len()..end].copy_from_slice(second.as_bytes());
    Status::Ok
}

impl Client {
    /// Ends the session, for a reason of the host's own: its error is `IoError` with this number of the system, unless it has
    /// one. No event comes any more, also none that was kept. One that is open is closed, and not finished: an object that it
    /// made has no data, and a sender that it ends is there and not noted. All descriptors that did not come out do by
    /// `next_dropped`. It takes no memory.
    pub fn fail(&mut self, number: i32) -> Status
        ensures failed { self.new ≡ failed self.old number }
        ensures descriptors { ConservesClient self.old [] [] self.new }
        ensures answer { result ≡ status.Ok }
    {
        self.core.fail(WaylandError::Io(IoFault::Other(number)));
        self.is_kept = false;
        Status::Ok
    }

    /// The session's error: what it is in `out`, and its text in `text`, the message and then the name of the interface of
    /// the object.
    ///
    /// The kind is 0 if the session has no error, 1 for a fault of the transport or the host's own error (`fail`), 2 for a
    /// protocol error: one that the server sent, or what was wrong with what it sent. The status is `TooSmall` if there is no room for the text. Then the
    /// lengths in `out` say how much is needed, and `text` is as it was.
    pub fn last_error(&self, out: &mut FlatError, text: &mut [u8]) -> Status
        ensures error { out.new ≡ flat_error self.now.core.session.error }
        ensures text { text.new ≡ written (text_of_error self.now.core.session.error) text.old }
        ensures status { result ≡ status_for (has_room (text_of_error self.now.core.session.error) text.old) }
    {
        match self.core.last_error() {
            None => {
                *out = no_error();
                Status::Ok
            }
            Some(WaylandError::Io(fault)) => {
                *out = io_error(*fault);
                Status::Ok
            }
            Some(WaylandError::Protocol(error)) => {
                *out = protocol_error(error);
                put_texts(
                    text,
                    error.message.as_str(),
                    error.object_interface.as_str(),
                )
            }
        }
    }
}
