//! Errors that are posted on objects.

ghost use Rattle.std.specs.Prelude.{false, Some};
ghost use Rattle.wl_server_model.specs.Backend.{Calls};
ghost use Rattle.wl_server_model.specs.PartStep.{over};
ghost use Rattle.wl_server_model.specs.Plain.Events.{KillsForError};
ghost use Rattle.wl_server_model.specs.Posted.{PostsExactly};
ghost use Rattle.wl_server_model.specs.declared.step.Reply.TheVariants as reply;
ghost use Rattle.wl_server_model.specs.declared.step.Step.TheVariants as step;

use crate::backend::Backend;
use crate::client::stored::stored_mut;
use wl_link::Transport;
use wl_server_client::globals::handler::GlobalHandler;
use wl_server_client::ids::object_id::ObjectId;
use wl_wire::CString;

impl<T: Transport + Drop, U: Drop, G: GlobalHandler<C> + Drop, C: Drop> Backend<T, U, G, C> {
    /// Posts an error on an object: its client is told of it by `wl_display.error`, what waits is flushed, and the client
    /// is killed.
    ///
    /// It stands for `wayland_backend::server::Handle::post_error`. `code` and `text` are the code and the message of
    /// `wl_display.error`. A fault of the flush is dropped. A note says that the client was disconnected, and gives this
    /// error as the reason. The reason is `ConnectionClosed` instead in these cases:
    ///
    /// - The client could not be told of the error.
    /// - There was no memory for the texts of the error. Then nothing is told or flushed.
    ///
    /// The client is told of the error if it is live and the id names an object. If the client is live and the id names
    /// no object, nothing is told, and the client is killed all the same. If the client was killed before, nothing is
    /// told, and what waits is flushed. If the id is null or its client is not stored, nothing happens.
    pub fn post_error(&mut self, id: &ObjectId, code: u32, text: CString)
        ensures call { Calls (over T.sends T.receives G.views) self.old (step.PostError id.now code text) reply.PostError self.new }
        ensures plain { KillsForError self.old id.now code text self.new }
        ensures exactly { PostsExactly T.sends self.old id.now code text self.new }
    {
        self.refused = false;
        let client = id.client();
        let Some(client) = stored_mut(&mut self.clients, &mut self.touched, &client) else {
            return;
        };
        self.refused = client.post_error(&self.protocol, &mut self.numbers, id, code, text);
    }
}
