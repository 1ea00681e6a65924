//! The two ways of a run: its requests and events are moved, or lent.

use super::acts::Client;
use crate::kit::values::{Child, Request, message};
use std::alloc::Global;
use std::test::Fail;
use wl_client::{EventError, ObjectId, RequestError};
use wl_wire::{Message, Token};

/// How a run sends requests and reads events. It has to tell the same in both ways.
#[derive(Clone, Copy)]
pub enum Way {
    /// By `send_request` and `next_event`.
    Moved,
    /// By `send_request_lent` and `next_event_into`.
    Lent,
}

impl Way {
    /// What a run in this way is named.
    pub fn name(self) -> &'static str {
        match self {
            Way::Moved => "moved",
            Way::Lent => "lent",
        }
    }
}

/// Sends the request in this way, with these data and this wish for the object that it makes.
pub fn send_in(
    client: &mut Client,
    way: Way,
    message: Message<ObjectId, Token>,
    child: Child,
) -> Result<ObjectId, RequestError> {
    match way {
        Way::Moved => client.send_request(message, child.0, child.1),
        Way::Lent => client.send_request_lent(&message, child.0, child.1),
    }
}

/// The answer to a reading: the event, or why there is none.
pub type Read = Result<Message<ObjectId, Token>, EventError>;

/// What a lent message has before a reading: a string, bytes and a descriptor.
fn earlier(alloc: Global) -> Result<Message<ObjectId, Token>, Fail> {
    message(alloc, Request::Give(3))
}

/// The answer to a reading into this message. Fails if there is no event, and the message is not as it was.
fn answer_of(
    alloc: Global,
    answer: Result<(), EventError>,
    event: Message<ObjectId, Token>,
) -> Result<Read, Fail> {
    match answer {
        Ok(()) => Ok(Ok(event)),
        Err(error) if event == earlier(alloc)? => Ok(Err(error)),
        Err(_) => Err(Fail::new("a lent message was changed without an event")),
    }
}

/// Reads the next event into a message that has something else.
fn read_into(alloc: Global, client: &mut Client) -> Result<Read, Fail> {
    let mut event = earlier(alloc)?;
    let answer = client.next_event_into(&mut event);
    answer_of(alloc, answer, event)
}

/// Reads the next event in this way.
pub fn read_in(alloc: Global, client: &mut Client, way: Way) -> Result<Read, Fail> {
    match way {
        Way::Moved => Ok(client.next_event()),
        Way::Lent => read_into(alloc, client),
    }
}
