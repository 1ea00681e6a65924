//! The user data of objects.

ghost use Rattle.std.specs.Fn.{FnOnceReturnsAtMut};
ghost use Rattle.std.specs.Prelude.{false, Err, Some};
ghost use Rattle.wl_server_model.specs.Backend.{Calls};
ghost use Rattle.wl_server_model.specs.Plain.DataInPlace.{LendsObjectData, SetsWhatIsLeft};
ghost use Rattle.wl_server_model.specs.PartStep.{over};
ghost use Rattle.wl_server_model.specs.Plain.{SetsObjectData};
ghost use Rattle.wl_server_model.specs.declared.step.Reply.TheVariants as reply;
ghost use Rattle.wl_server_model.specs.declared.step.Step.TheVariants as step;

use crate::backend::Backend;
use crate::client::stored::stored_mut;
use wl_link::Transport;
use wl_server_client::error::InvalidId;
use wl_server_client::globals::handler::GlobalHandler;
use wl_server_client::ids::object_id::ObjectId;
use wl_server_client::objects::data::{give_data, lend_data};

impl<T: Transport + Drop, U: Drop, G: GlobalHandler<C> + Drop, C: Drop> Backend<T, U, G, C> {
    /// Sets the user data of the object that the id names. What it had before is dropped. It allocates no memory.
    ///
    /// It stands for `wayland_backend::server::Handle::set_object_data`. The error is `InvalidId` if the id's client is
    /// not stored, or the id names no object.
    pub fn set_object_data(&mut self, id: &ObjectId, user_data: U) -> Result<(), InvalidId>
        ensures call { Calls (over T.sends T.receives G.views) self.old (step.SetObjectData id.now user_data) (reply.SetObjectData result) self.new }
        ensures plain { SetsObjectData self.old id.now user_data result self.new }
    {
        self.refused = false;
        let client = id.client();
        let Some(stored) = stored_mut(&mut self.clients, &mut self.touched, &client) else {
            return Err(InvalidId);
        };
        give_data(&mut stored.objects.map, id, user_data)
    }

    /// Calls `f` once with the user data of the object that the id names, which it may change in place. Returns what `f`
    /// returns. It allocates no memory, apart from what `f` allocates.
    ///
    /// It does what `set_object_data` does with the data that `f` leaves, and moves none of them. The error is `InvalidId`
    /// if the id's client is not stored, or the id names no object, or the object has no user data. Then `f` is not called.
    pub fn with_object_data<R, F: FnOnce(&mut U) -> R>(
        &mut self,
        id: &ObjectId,
        f: F,
    ) -> Result<R, InvalidId>
        requires { F.IsAlwaysCallable f }
        ensures call { LendsObjectData (FnOnceReturnsAtMut F.FnOnce f) (over T.sends T.receives G.views) self.old id.now result self.new }
        ensures plain { SetsWhatIsLeft (FnOnceReturnsAtMut F.FnOnce f) self.old id.now result self.new }
    {
        self.refused = false;
        let client = id.client();
        let Some(stored) = stored_mut(&mut self.clients, &mut self.touched, &client) else {
            return Err(InvalidId);
        };
        lend_data(&mut stored.objects.map, id, f)
    }
}
