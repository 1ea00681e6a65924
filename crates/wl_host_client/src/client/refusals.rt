//! Events with a null that the table forbids: they end the session.

ghost use Rattle.std.specs.Prelude.{◌≡◌, false};
ghost use Rattle.wl_client.specs.Requests.{session_content};
ghost use Rattle.wl_client.specs.declared.error.WaylandError.{WaylandError as Ends};
ghost use Rattle.wl_host_client.specs.Client.{IsNullError, core_ended_by, null_in};
ghost use Rattle.wl_flat.specs.declared.status.Status.TheVariants as status;

use super::Core;
use std::alloc::Global;
use wl_client::{ObjectId, WaylandError};
use wl_flat::nulls::{name_in, null_text};
use wl_flat::status::Status;
use wl_wire::{IoFault, Message, ProtocolError, Text, Token};

/// The error for the null at this place of an event. If there is no memory for its text, it says that.
fn null_error(
    alloc: Global,
    core: &Core,
    event: &Message<ObjectId, Token>,
    place: u32,
) -> WaylandError
    requires place { place ≡ null_in core.now (session_content event.now) }
    ensures { IsNullError core.now (session_content event.now) result }
{
    let protocol = core.protocol();
    let interface = event.sender_id.interface();
    let name = name_in(protocol.event(interface, event.opcode));
    match null_text(alloc, "event", protocol.name(interface), name, place) {
        Ok(text) => WaylandError::Protocol(ProtocolError {
            code: 0,
            object_id: 0,
            object_interface: Text::new(String::new(alloc)),
            message: Text::new(text),
        }),
        Err(_) => WaylandError::Io(IoFault::OutOfMemory),
    }
}

/// Ends the session for the null at this place of an event, which is not handed out.
#[cold]
#[inline(never)]
pub fn refuse(
    alloc: Global,
    core: &mut Core,
    event: &Message<ObjectId, Token>,
    place: u32,
    is_kept: &mut bool,
) -> Status
    requires place { place ≡ null_in core.old (session_content event.now) }
    ensures ended { (error : Ends) × IsNullError core.old (session_content event.now) error × (core.new ≡ core_ended_by core.old error) }
    ensures kept { is_kept.new ≡ false }
    ensures status { result ≡ status.Failed }
{
    let error = null_error(alloc, core, event, place);
    core.fail(error);
    *is_kept = false;
    Status::Failed
}
