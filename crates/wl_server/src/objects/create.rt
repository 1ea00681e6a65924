//! Objects that the server creates.

ghost use Rattle.std.specs.Prelude.{◌≡◌, Some};
ghost use Rattle.wl_server_model.specs.Backend.{Calls};
ghost use Rattle.wl_server_model.specs.PartStep.{lacks_create, over};
ghost use Rattle.wl_server_model.specs.Plain.{CreatesObject};
ghost use Rattle.wl_server_model.specs.declared.step.Reply.TheVariants as reply;
ghost use Rattle.wl_server_model.specs.declared.step.Step.TheVariants as step;

use crate::backend::Backend;
use crate::client::stored::stored_mut;
use wl_link::Transport;
use wl_server_client::error::CreateError;
use wl_server_client::globals::handler::GlobalHandler;
use wl_server_client::ids::client_id::ClientId;
use wl_server_client::ids::object_id::ObjectId;
use wl_wire::InterfaceId;

/// Whether the creation failed for want of memory.
fn lacks_memory(answer: &Result<ObjectId, CreateError>) -> bool
    ensures { result ≡ lacks_create answer.now }
{
    matches!(answer, Err(CreateError::OutOfMemory))
}

impl<T: Transport + Drop, U: Drop, G: GlobalHandler<C> + Drop, C: Drop> Backend<T, U, G, C> {
    /// Creates an object of the server for the client, and returns its id.
    ///
    /// It stands for `wayland_backend::server::Handle::create_object`. The object gets the least number from 0xFF000000
    /// on that no object of the client has, and the next serial. Its version is not checked. The client hears of it by an
    /// event that has it as a new id.
    ///
    /// # Errors
    ///
    /// - `InvalidId`: the client is not stored.
    /// - `UnknownInterface`: the interface is not in the table.
    /// - `IdsExhausted`: no number is left.
    /// - `SerialsExhausted`: no serial is left.
    /// - `OutOfMemory`: memory ran out.
    ///
    /// After an error nothing is changed.
    pub fn create_object(
        &mut self,
        client: &ClientId,
        interface: InterfaceId,
        version: u32,
        user_data: U,
    ) -> Result<ObjectId, CreateError>
        ensures call { Calls (over T.sends T.receives G.views) self.old (step.CreateObject client.now interface version user_data) (reply.CreateObject result) self.new }
        ensures plain { CreatesObject self.old client.now interface version user_data result self.new }
    {
        self.refused = false;
        let Some(stored) = stored_mut(&mut self.clients, &mut self.touched, client) else {
            return Err(CreateError::InvalidId);
        };
        let answer = stored.create_object(client, &self.protocol, interface, version, user_data);
        self.refused = lacks_memory(&answer);
        answer
    }
}
