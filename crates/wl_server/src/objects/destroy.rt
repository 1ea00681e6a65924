//! Objects that the program destroys.

ghost use Rattle.std.specs.Prelude.{◌≡◌, Some};
ghost use Rattle.wl_server_model.specs.Backend.{Calls};
ghost use Rattle.wl_server_client.specs.Inside.Destruction.{lacks_destroy};
ghost use Rattle.wl_server_model.specs.PartStep.{over};
ghost use Rattle.wl_server_model.specs.Plain.{DestroysObject};
ghost use Rattle.wl_server_model.specs.declared.step.Reply.TheVariants as reply;
ghost use Rattle.wl_server_model.specs.declared.step.Step.TheVariants as step;

use crate::backend::Backend;
use crate::client::stored::stored_mut;
use wl_link::Transport;
use wl_server_client::error::DestroyError;
use wl_server_client::globals::handler::GlobalHandler;
use wl_server_client::ids::object_id::ObjectId;

/// Whether the destruction failed for want of memory.
fn lacks_memory(answer: &Result<(), DestroyError>) -> bool
    ensures { result ≡ lacks_destroy answer.now }
{
    matches!(answer, Err(DestroyError::OutOfMemory))
}

impl<T: Transport + Drop, U: Drop, G: GlobalHandler<C> + Drop, C: Drop> Backend<T, U, G, C> {
    /// Destroys the object that the id names.
    ///
    /// It stands for `wayland_backend::server::Handle::destroy_object`. If the object's number is one of the client's
    /// own, the client is told by `wl_display.delete_id` that the number is free again. If the object had user data, a
    /// note of its end waits for the next cleanup.
    ///
    /// If the client cannot be told, it is killed with the reason `ConnectionClosed`. The object is destroyed all the
    /// same, and the call returns `Ok`.
    ///
    /// # Errors
    ///
    /// - `InvalidId`: the id's client is not stored, or the id names no object or the display. Nothing is changed.
    /// - `OutOfMemory`: there is no memory for the note or for the message. The object stays. A flush may have sent or
    ///   dropped some of what waited for the client, and a buffer may have grown.
    pub fn destroy_object(&mut self, id: &ObjectId) -> Result<(), DestroyError>
        ensures call { Calls (over T.sends T.receives G.views) self.old (step.DestroyObject id.now) (reply.DestroyObject result) self.new }
        ensures plain { DestroysObject self.old id.now result self.new }
    {
        self.refused = false;
        let client = id.client();
        let Some(client) = stored_mut(&mut self.clients, &mut self.touched, &client) else {
            return Err(DestroyError::InvalidId);
        };
        let answer = client.destroy_object(&mut self.numbers, id);
        self.refused = lacks_memory(&answer);
        answer
    }
}
