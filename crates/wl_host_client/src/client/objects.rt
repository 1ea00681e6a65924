//! The objects of a client.

ghost use Rattle.std.specs.Prelude.{◌≡◌, [], option_map};
ghost use Rattle.wl_client.specs.ByNumber.{object_at};
ghost use Rattle.wl_client.specs.Objects.{info_of, user_data_of};
ghost use Rattle.wl_host_client.specs.Client.{ConservesClient, Destroys, GivesData, GivesUp, Reclaims, flat_info, status_of};
ghost use Rattle.wl_flat.specs.Status.{found};
ghost use Rattle.wl_flat.specs.declared.status.Status.TheVariants as status;
ghost use Rattle.wl_flat.specs.Flat.{flat_proxy, proxy_of};

use super::Client;
use super::notes::take_notes;
use wl_client::{DestroyError, InvalidId};
use wl_flat::flat::{FlatObjectId, FlatObjectInfo, interface_number};
use wl_flat::status::Status;
use wl_wire::DISPLAY;

/// The status of an answer to `set_data` and `reclaim`.
fn status_by(answer: Result<(), InvalidId>) -> Status
    ensures { result ≡ status_of (λ _. status.InvalidId) answer }
{
    match answer {
        Ok(()) => Status::Ok,
        Err(error) => Status::from(error),
    }
}

impl Client {
    /// The number, interface and version of the object that the id names.
    ///
    /// The status is `InvalidId` if the id names no object, or one that the client has destroyed.
    pub fn object_info(&self, id: &FlatObjectId) -> Result<FlatObjectInfo, Status>
        ensures { result ≡ found (flat_info (info_of self.now.core.session (proxy_of id.now))) }
    {
        match self.core.info(&id.proxy()) {
            Ok(info) => Ok(FlatObjectInfo {
                number: info.id,
                interface: interface_number(info.interface),
                version: info.version,
            }),
            Err(error) => Err(Status::from(error)),
        }
    }

    /// The data of the object that the id names, also if it was destroyed, until it leaves its number.
    ///
    /// The status is `InvalidId` if the id names no object, or one without data.
    pub fn object_data(&self, id: &FlatObjectId) -> Result<u64, Status>
        ensures { result ≡ found (user_data_of self.now.core.session (proxy_of id.now)) }
    {
        match self.core.get_data(&id.proxy()) {
            Ok(user_data) => Ok(*user_data),
            Err(error) => Err(Status::from(error)),
        }
    }

    /// The object that has this number, also one that was destroyed, until it leaves its number.
    ///
    /// The status is `InvalidId` if no object has the number.
    pub fn object_for_protocol_id(&self, number: u32) -> Result<FlatObjectId, Status>
        ensures { result ≡ found (option_map flat_proxy (object_at self.now.core.session number)) }
    {
        match self.core.object_for_protocol_id(number) {
            Some(id) => Ok(FlatObjectId::of_proxy(id)),
            None => Err(Status::InvalidId),
        }
    }

    /// Gives the object that the id names these data, in place of what it had.
    ///
    /// The status is `InvalidId` if the id names no object.
    pub fn set_object_data(&mut self, id: &FlatObjectId, user_data: u64) -> Status
        ensures call { GivesData self.old.core (proxy_of id.now) user_data result self.new.core }
        ensures beside { self.new ≡ record self.old { core = self.new.core } }
        ensures descriptors { ConservesClient self.old [] [] self.new }
    {
        status_by(self.core.set_data(&id.proxy(), user_data))
    }

    /// Destroys the object that the id names, on the client's side. If it has data, `next_note` tells of it.
    ///
    /// The status is `OutOfMemory` if there is no memory for that, and else `InvalidId` if the id names no object, or the display, or
    /// an object that the client has destroyed before. Then nothing is changed.
    pub fn destroy_object(&mut self, id: &FlatObjectId) -> Status
        ensures call { Destroys self.old (proxy_of id.now) result self.new }
        ensures descriptors { ConservesClient self.old [] [] self.new }
    {
        if self.notes.reserve(1).is_err() {
            return Status::OutOfMemory;
        }
        match self.core.destroy_object(&id.proxy()) {
            Ok(()) => {
                take_notes(&mut self.core, &mut self.notes);
                Status::Ok
            }
            Err(error) => Status::from(error),
        }
    }

    /// Gives the object that the id names up for good: it is destroyed on the client's side, unless it was before; its data are set
    /// to 0, and it leaves its number if the server deleted the id before, as by `reclaim`. `next_note` does not tell of what this call
    /// destroys.
    ///
    /// The status is `OutOfMemory` if there is no memory, and else `InvalidId` if the id names no object, or the display. Then nothing is
    /// changed.
    pub fn give_up_object(&mut self, id: &FlatObjectId) -> Status
        ensures call { GivesUp self.old (proxy_of id.now) result self.new }
        ensures descriptors { ConservesClient self.old [] [] self.new }
    {
        let is_display = id.number == DISPLAY;
        let id = id.proxy();
        match self.core.destroy_object(&id) {
            Err(DestroyError::OutOfMemory) => return Status::OutOfMemory,
            Err(DestroyError::InvalidId) if is_display => return Status::InvalidId,
            Err(DestroyError::InvalidId) => {}
            Ok(()) => {}
        }
        let status = status_by(self.core.set_data(&id, 0));
        let _ = self.core.reclaim(&id);
        let _ = self.core.take_notes();
        status
    }

    /// Takes the object that the id names out of the session, if both sides have given it up: the client has destroyed it, and
    /// the server deleted its id before that. Its number can be used again. `next_note` tells of the object all the same.
    ///
    /// The status is `InvalidId` if the id names no object that both sides have given up. Then nothing is changed.
    pub fn reclaim(&mut self, id: &FlatObjectId) -> Status
        ensures call { Reclaims self.old.core (proxy_of id.now) result self.new.core }
        ensures beside { self.new ≡ record self.old { core = self.new.core } }
        ensures descriptors { ConservesClient self.old [] [] self.new }
    {
        status_by(self.core.reclaim(&id.proxy()))
    }
}
