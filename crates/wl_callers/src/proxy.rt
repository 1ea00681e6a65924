//! The loop of a proxy, which reads events and hands them on.

ghost use Rattle.std.specs.Prelude.{◌≡◌};
ghost use Rattle.wl_callers.specs.Proxy.{HandsOn, ended};

use wl_client::{Backend, EventError, ObjectId};
use wl_link::Transport;
use wl_wire::{Message, Token};

/// The answer of the loop if a reading gives no event. `WouldBlock` is no error here.
fn ended(error: EventError) -> Result<(), EventError>
    ensures { result ≡ ended error }
{
    match error {
        EventError::WouldBlock => Ok(()),
        _ => Err(error),
    }
}

/// Reads at most `most` events of those that are there, appends each to `out`, and finishes it. So `out` gets all events
/// that were read, in order.
///
/// It stops at an event that makes an object. This one is appended to `out` and stays open: the caller has to give the
/// data of the object.
///
/// # Errors
///
/// - `EventOpen`: the last event that was appended could not be finished, for instance because it makes an object. Or an
///   event was open before the call.
/// - `OutOfMemory`: memory was refused.
/// - Any other error of `next_event`, except `WouldBlock`: if no more events are there, the call returns `Ok`.
pub fn hand_on<T: Transport + Drop, U: Drop>(
    client: &mut Backend<T, U>,
    most: u32,
    out: &mut Vec<Message<ObjectId, Token>>,
) -> Result<(), EventError>
    ensures { HandsOn T.sends T.receives client.old.session most out.old.items result out.new.items client.new.session }
{
    for _count in 0..most {
        if out.reserve(1).is_err() {
            return Err(EventError::OutOfMemory);
        }
        match client.next_event() {
            Ok(event) => out.push_reserved(event),
            Err(error) => return ended(error),
        }
        if let Err(_refused) = client.finish_event(None) {
            return Err(EventError::EventOpen);
        }
    }
    Ok(())
}
