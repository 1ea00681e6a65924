//! Events, and protocol errors that the program posts.

ghost use Rattle.std.specs.Prelude.{◌≡◌, ◌⊎◌, [], IfErr, IfOk, OnErr, OnOk, length};
ghost use Rattle.wl_flat.specs.Descriptors.{Conserves, put_in};
ghost use Rattle.wl_flat.specs.Arguments.{descriptors_given};
ghost use Rattle.wl_host.specs.Events.{IsEvent, IsUnreadable, PostsError, SendsEvent, SendsFrom};
ghost use Rattle.wl_host.specs.Server.{kept_by_server, went_in};
ghost use Rattle.wl_flat.specs.declared.status.Status.TheVariants as status;

use crate::server::{Core, Server};
use wl_flat::arguments::{read_arguments, text_of};
use wl_flat::descriptors::DescriptorQueue;
use wl_flat::flat::{FlatArgument, FlatObjectId};
use wl_flat::status::Status;
use wl_server::ObjectId;
use wl_wire::{Message, Token};

/// Reads the event that the host passed into `event`. Returns how many descriptors were put in.
///
/// The status is `InvalidInput` if it cannot be read, and `OutOfMemory`. Then no descriptor was put in.
fn read_event(
    sending: &mut DescriptorQueue,
    event: &mut Message<ObjectId, Token>,
    sender: &FlatObjectId,
    opcode: u32,
    arguments: &[FlatArgument],
    bytes: &[u8],
) -> Result<usize, Status>
    ensures event { OnOk result (IsEvent (record { sender = sender.now; opcode = opcode; arguments = arguments.now; bytes = bytes.now }) sending.old event.new) }
    ensures put_in { OnOk result (sending.new ≡ put_in sending.old (descriptors_given arguments.now)) }
    ensures count { IfOk result (λ count. count ≡ length (descriptors_given arguments.now)) }
    ensures err { OnErr result (sending.new ≡ sending.old) }
    ensures why { IfErr result (λ s. ((s ≡ status.InvalidInput) × IsUnreadable (record { sender = sender.now; opcode = opcode; arguments = arguments.now; bytes = bytes.now }) sending.old) ⊎ (s ≡ status.OutOfMemory)) }
{
    let Ok(opcode) = u16::try_from(opcode) else {
        return Err(Status::InvalidInput);
    };
    event.sender_id = sender.resource();
    event.opcode = opcode;
    read_arguments(&mut event.args, arguments, bytes, sending)
}

/// Reads the event that the host passed, and sends it. Returns the status of what the core answered.
///
/// The error is the status if the event was not read. Then nothing is changed.
fn send(
    core: &mut Core,
    sending: &mut DescriptorQueue,
    event: &mut Message<ObjectId, Token>,
    sender: &FlatObjectId,
    opcode: u32,
    arguments: &[FlatArgument],
    bytes: &[u8],
) -> Result<Status, Status>
    ensures { SendsFrom core.old sending.old (record { sender = sender.now; opcode = opcode; arguments = arguments.now; bytes = bytes.now }) result core.new sending.new }
{
    let count = match read_event(sending, event, sender, opcode, arguments, bytes) {
        Ok(count) => count,
        Err(status) => return Err(status),
    };
    match core.send_event_lent(event) {
        Ok(()) => Ok(Status::Ok),
        Err(error) => {
            sending.take_back(count);
            Ok(Status::from(error))
        }
    }
}

impl Server {
    /// Sends an event (`wl_server::Backend::send_event`). The strings and arrays are in `bytes`, where the arguments say.
    ///
    /// The status is `InvalidId` if the sender's client is not stored, `InvalidInput` if a flat struct cannot be read or the
    /// opcode is above 65535, `OutOfMemory`, and else that of `wl_server::EventError`. Then the descriptors are still the host's.
    /// If the client was killed, nothing is sent, and the status is `Ok`.
    pub fn send_event(
        &mut self,
        sender: &FlatObjectId,
        opcode: u32,
        arguments: &[FlatArgument],
        bytes: &[u8],
    ) -> Status
        ensures call { SendsEvent self.old (record { sender = sender.now; opcode = opcode; arguments = arguments.now; bytes = bytes.now }) result self.new }
        ensures descriptors { Conserves kept_by_server self.old (went_in result (descriptors_given arguments.now)) [] self.new }
    {
        let id = sender.client.id();
        let sent = match self.seats.get_mut(&id) {
            Some(ledger) => {
                let sending = &mut ledger.sending;
                send(
                    &mut self.core,
                    sending,
                    &mut self.event,
                    sender,
                    opcode,
                    arguments,
                    bytes,
                )
            }
            None => return Status::InvalidId,
        };
        match sent {
            Ok(status) => {
                self.seats.list(id.slot());
                self.mark();
                status
            }
            Err(status) => status,
        }
    }

    /// Tells the client of a protocol error on the object, and kills it (`wl_server::Backend::post_error`). If the object is not
    /// there, the client is killed all the same; if the client is not stored, nothing happens.
    ///
    /// The status is `InvalidInput` if the message has a zero byte, and `OutOfMemory`. Then nothing is changed.
    pub fn post_error(&mut self, object: &FlatObjectId, code: u32, message: &[u8]) -> Status
        ensures call { PostsError self.old object.now code message.now result self.new }
        ensures descriptors { Conserves kept_by_server self.old [] [] self.new }
    {
        let text = match text_of(self.alloc(), message) {
            Ok(text) => text,
            Err(status) => return status,
        };
        let id = object.resource();
        self.core.post_error(&id, code, text);
        self.seats.list(id.client().slot());
        self.mark();
        Status::Ok
    }
}
