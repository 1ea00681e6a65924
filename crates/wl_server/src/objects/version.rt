//! The version of an object.

ghost use Rattle.std.specs.Prelude.{false};
ghost use Rattle.wl_server_model.specs.Backend.{Calls};
ghost use Rattle.wl_server_model.specs.PartStep.{over};
ghost use Rattle.wl_server_model.specs.Plain.Chosen.{SetsObjectVersion};
ghost use Rattle.wl_server_model.specs.declared.step.Reply.TheVariants as reply;
ghost use Rattle.wl_server_model.specs.declared.step.Step.TheVariants as step;

use crate::backend::Backend;
use crate::client::stored::stored_mut;
use wl_link::Transport;
use wl_server_client::error::VersionError;
use wl_server_client::globals::handler::GlobalHandler;
use wl_server_client::ids::object_id::ObjectId;
use wl_server_client::objects::version::set_version;

impl<T: Transport + Drop, U: Drop, G: GlobalHandler<C> + Drop, C: Drop> Backend<T, U, G, C> {
    /// Sets the version of the object that the id names. From then on the requests of that version are served, and an object
    /// that a request of this one makes gets it, too. It allocates no memory.
    ///
    /// It is the version that a program gives `wl_resource_create` of libwayland. An object that a request makes has the version
    /// of the request's object, and one that a bind makes the version of the bind: the program may choose another one.
    ///
    /// # Errors
    ///
    /// - `InvalidId`: the id's client is not stored, or the id names no object.
    /// - `UnknownVersion`: the version is 0, or above that of the object's interface in the table.
    ///
    /// After an error nothing is changed.
    pub fn set_object_version(&mut self, id: &ObjectId, version: u32) -> Result<(), VersionError>
        ensures call { Calls (over T.sends T.receives G.views) self.old (step.SetObjectVersion id.now version) (reply.SetObjectVersion result) self.new }
        ensures plain { SetsObjectVersion self.old id.now version result self.new }
    {
        self.refused = false;
        let client = id.client();
        let Some(stored) = stored_mut(&mut self.clients, &mut self.touched, &client) else {
            return Err(VersionError::InvalidId);
        };
        set_version(&mut stored.objects.map, &self.protocol, id, version)
    }
}
