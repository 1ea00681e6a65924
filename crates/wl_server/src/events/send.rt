//! The sending of an event.

ghost use Rattle.std.specs.Prelude.{Some};
ghost use Rattle.wl_server_model.specs.declared.step.Reply.TheVariants as reply;
ghost use Rattle.wl_server_model.specs.declared.step.Step.TheVariants as step;
ghost use Rattle.wl_server_model.specs.Backend.{Calls};
ghost use Rattle.wl_server_client.specs.Events.{session_content};
ghost use Rattle.wl_server_model.specs.PartStep.{over};
ghost use Rattle.wl_server_model.specs.Plain.Events.{EmitsEvent};

use crate::backend::Backend;
use crate::client::stored::stored_mut;
use wl_link::Transport;
use wl_server_client::error::EventError;
use wl_server_client::globals::handler::GlobalHandler;
use wl_server_client::ids::object_id::ObjectId;
use wl_wire::{Message, Token};

impl<T: Transport + Drop, U: Drop, G: GlobalHandler<C> + Drop, C: Drop> Backend<T, U, G, C> {
    /// Sends an event as `send_event` does, but only borrows the message. A program that sends the same message again and again
    /// can so keep it and its memory.
    ///
    /// The errors are those of `send_event`.
    pub fn send_event_lent(&mut self, message: &Message<ObjectId, Token>) -> Result<(), EventError>
        ensures call { Calls (over T.sends T.receives G.views) self.old (step.SendEvent message.now) (reply.SendEvent result) self.new }
        ensures plain { EmitsEvent self.old (session_content message.now) result self.new }
    {
        self.refused = false;
        let id = message.sender_id.client();
        let Some(client) = stored_mut(&mut self.clients, &mut self.touched, &id) else {
            return Err(EventError::InvalidId);
        };
        let (answer, lacked) = client.send_event(&self.protocol, &mut self.numbers, message);
        self.refused = lacked;
        answer
    }

    /// Adds the event to what waits to be sent to the client of its sender, at the end. `flush` sends what waits.
    ///
    /// It stands for `wayland_backend::server::Handle::send_event`. To a killed client nothing is sent, and the call
    /// returns `Ok`, whatever the event.
    ///
    /// A destructor event ends its sender: the object is destroyed. If it had user data, a note of its end waits for the
    /// next cleanup. If its number is one of the client's own, the client is told by `wl_display.delete_id` that the
    /// number is free again.
    ///
    /// If the write fails for another reason than memory (`TooBig`, if the event is too long), or the client cannot be
    /// told of the free number, the call returns `Ok` and the client is killed with the reason `ConnectionClosed`. A
    /// sender that the event ends is destroyed in this case, too.
    ///
    /// # Errors
    ///
    /// They are those of `EventError`, in the order that its page gives. After an error nothing is changed, with one
    /// exception: after `OutOfMemory` a flush may have sent or dropped some of what waited for the client, and a buffer
    /// may have grown.
    pub fn send_event(&mut self, message: Message<ObjectId, Token>) -> Result<(), EventError>
        ensures call { Calls (over T.sends T.receives G.views) self.old (step.SendEvent message) (reply.SendEvent result) self.new }
        ensures plain { EmitsEvent self.old (session_content message) result self.new }
    {
        self.send_event_lent(&message)
    }
}
