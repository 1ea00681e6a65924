//! Look-ups of clients and objects. None of them changes the server.

ghost use Rattle.std.specs.Prelude.{◌≡◌, MatchResult, None, Some, option_copied};
ghost use Rattle.wl_server_model.specs.Lookups.{client_by, client_data_of, object_data_of, object_for_number, object_info_of, transport_of, violation_of};
ghost use Rattle.wl_server_model.specs.Server.{client_at};

/// Objects with their data: by number, and all of a client.
pub mod held;
/// Calls a closure for each live client, or for each object of a client.
pub mod visits;
/// How much waits for a client, and of it.
pub mod waiting;
/// Iterators over clients and objects.
pub mod walks;

use crate::backend::Backend;
use wl_server_client::client::Client;
use wl_server_client::error::InvalidId;
use wl_server_client::ids::client_id::ClientId;
use wl_server_client::ids::object_id::ObjectId;
use wl_server_client::objects::{id_at, named_in};
use wl_server_client::reading::violation::Violation;
use wl_wire::{InterfaceId, ObjectInfo};

impl<T: Drop, U: Drop, G: Drop, C: Drop> Backend<T, U, G, C> {
    /// The client of that id, if it is stored.
    pub(crate) fn client(&self, id: &ClientId) -> Option<&Client<T, U, C>>
        ensures { option_copied result ≡ client_at id.now self.now.server.clients }
    {
        let client = self.clients.get(id.slot() as usize)?.as_ref()?;
        if client.serial == id.serial() {
            Some(client)
        } else {
            None
        }
    }

    /// The number, the interface and the version of the object that the id names.
    ///
    /// It stands for `wayland_backend::server::Handle::object_info`. The error is `InvalidId` if the id's client is not
    /// stored, or the id names no object.
    pub fn object_info(&self, id: &ObjectId) -> Result<ObjectInfo, InvalidId>
        ensures { MatchResult result (λ info. object_info_of self.now.server id.now ≡ Some info)
            (λ _. object_info_of self.now.server id.now ≡ None) }
    {
        let Some(client) = self.client(&id.client()) else {
            return Err(InvalidId);
        };
        match named_in(&client.objects.map, id) {
            Some(object) => Ok(ObjectInfo {
                id: id.protocol_id(),
                interface: object.interface,
                version: object.version,
            }),
            None => Err(InvalidId),
        }
    }

    /// The client of the object id. The id need not name an object.
    ///
    /// It stands for `wayland_backend::server::Handle::get_client`. The error is `InvalidId` if the client is not stored.
    pub fn get_client(&self, id: &ObjectId) -> Result<ClientId, InvalidId>
        ensures { MatchResult result (λ client. client_by self.now.server id.now ≡ Some client)
            (λ _. client_by self.now.server id.now ≡ None) }
    {
        let client = id.client();
        if self.client(&client).is_none() {
            return Err(InvalidId);
        }
        Ok(client)
    }

    /// The program's data of the client.
    ///
    /// It stands for `wayland_backend::server::Handle::get_client_data`. The error is `InvalidId` if the client is not
    /// stored.
    pub fn get_client_data(&self, id: &ClientId) -> Result<&C, InvalidId>
        ensures { MatchResult result (λ d. client_data_of self.now.server id.now ≡ Some d.now)
            (λ _. client_data_of self.now.server id.now ≡ None) }
    {
        match self.client(id) {
            Some(client) => Ok(&client.data),
            None => Err(InvalidId),
        }
    }

    /// The user data of the object that the id names.
    ///
    /// It stands for `wayland_backend::server::Handle::get_object_data`. The error is `InvalidId` if the id's client is
    /// not stored, or the id names no object, or the object has no user data.
    pub fn get_object_data(&self, id: &ObjectId) -> Result<&U, InvalidId>
        ensures { MatchResult result (λ u. object_data_of self.now.server id.now ≡ Some u.now)
            (λ _. object_data_of self.now.server id.now ≡ None) }
    {
        let Some(client) = self.client(&id.client()) else {
            return Err(InvalidId);
        };
        let Some(object) = named_in(&client.objects.map, id) else {
            return Err(InvalidId);
        };
        match &object.value.user_data {
            Some(user_data) => Ok(user_data),
            None => Err(InvalidId),
        }
    }

    /// The client's transport. The error is `InvalidId` if the client is not stored.
    pub fn transport(&self, id: &ClientId) -> Result<&T, InvalidId>
        ensures { MatchResult result (λ transport. transport_of self.now.server id.now ≡ Some transport.now)
            (λ _. transport_of self.now.server id.now ≡ None) }
    {
        match self.client(id) {
            Some(client) => Ok(client.socket.transport()),
            None => Err(InvalidId),
        }
    }

    /// How the client broke the protocol, if it was killed for a message, until the next cleanup takes it out. The call
    /// allocates no memory.
    ///
    /// It is `None` if the client was killed for another reason: by a call of the program, by a fault of its transport, or as
    /// a write to it failed that was not the error of the message. It is `None`, too, if the client is live or not stored. libwayland has no such call: it writes a
    /// line to its log, and sends the client `wl_display.error`.
    pub fn violation(&self, id: &ClientId) -> Option<Violation>
        ensures { result ≡ violation_of self.now.server id.now }
    {
        self.client(id)?.violation
    }

    /// The id of the client's object that has this number.
    ///
    /// It stands for `wayland_backend::server::Handle::object_for_protocol_id`. The error is `InvalidId` if the client is
    /// not stored, or no object has the number, or the object has another interface.
    pub fn object_for_protocol_id(
        &self,
        client: &ClientId,
        interface: InterfaceId,
        number: u32,
    ) -> Result<ObjectId, InvalidId>
        ensures { MatchResult result (λ id. object_for_number self.now.server client.now interface number ≡ Some id)
            (λ _. object_for_number self.now.server client.now interface number ≡ None) }
    {
        let Some(stored) = self.client(client) else {
            return Err(InvalidId);
        };
        match stored.objects.map.find(number) {
            Some(object) if object.interface == interface => Ok(id_at(client, number, object)),
            _ => Err(InvalidId),
        }
    }
}
