//! Objects that the program creates at a number of the client's range.

ghost use Rattle.std.specs.Prelude.{◌≡◌, Some};
ghost use Rattle.wl_server_model.specs.Backend.{Calls};
ghost use Rattle.wl_server_model.specs.PartStep.{lacks_create_at, over};
ghost use Rattle.wl_server_model.specs.Plain.Chosen.{CreatesObjectAt};
ghost use Rattle.wl_server_model.specs.declared.step.Reply.TheVariants as reply;
ghost use Rattle.wl_server_model.specs.declared.step.Step.TheVariants as step;

use crate::backend::Backend;
use crate::client::stored::stored_mut;
use wl_link::Transport;
use wl_server_client::error::CreateAtError;
use wl_server_client::globals::handler::GlobalHandler;
use wl_server_client::ids::client_id::ClientId;
use wl_server_client::ids::object_id::ObjectId;
use wl_wire::InterfaceId;

/// Whether the creation failed for want of memory.
fn lacks_memory(answer: &Result<ObjectId, CreateAtError>) -> bool
    ensures { result ≡ lacks_create_at answer.now }
{
    matches!(answer, Err(CreateAtError::OutOfMemory))
}

impl<T: Transport + Drop, U: Drop, G: GlobalHandler<C> + Drop, C: Drop> Backend<T, U, G, C> {
    /// Creates an object at a number of the client's range, 1 to 0xFEFFFFFF, and returns its id.
    ///
    /// It stands for `wl_resource_create` of libwayland with a number. The number has to be *free*: it holds no object of the
    /// client, and was in use before or is the next one. The client may give such a number to its next object. The program
    /// makes sure that it does not: a request whose new id is this number then kills the client. The object gets the next serial.
    /// Its version is not checked.
    ///
    /// # Errors
    ///
    /// - `InvalidId`: the client is not stored.
    /// - `UnknownInterface`: the interface is not in the table.
    /// - `SerialsExhausted`: no serial is left.
    /// - `NotFree`: the number is not free, or not in the client's range.
    /// - `OutOfMemory`: memory ran out. This happens only if the number was never in use before.
    ///
    /// After an error nothing is changed.
    pub fn create_object_at(
        &mut self,
        client: &ClientId,
        interface: InterfaceId,
        version: u32,
        number: u32,
        user_data: U,
    ) -> Result<ObjectId, CreateAtError>
        ensures call { Calls (over T.sends T.receives G.views) self.old (step.CreateObjectAt client.now interface version number user_data) (reply.CreateObjectAt result) self.new }
        ensures plain { CreatesObjectAt self.old client.now interface version number user_data result self.new }
    {
        self.refused = false;
        let Some(stored) = stored_mut(&mut self.clients, &mut self.touched, client) else {
            return Err(CreateAtError::InvalidId);
        };
        let protocol = &self.protocol;
        let answer = stored.create_object_at(
            client, protocol, interface, version, number, user_data,
        );
        self.refused = lacks_memory(&answer);
        answer
    }
}
