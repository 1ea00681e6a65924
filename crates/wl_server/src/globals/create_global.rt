//! The creation of a global.

ghost use Rattle.std.specs.Prelude.{◌≡◌, ◌≤◌, IfSome, length, map};
ghost use Rattle.wl_link.specs.Identity.{names};
ghost use Rattle.wl_server_client.specs.NoteTimes.{IsNumbered, NotesInTime, times_of};
ghost use Rattle.wl_server_model.specs.NoteOrder.{AllNumbered, AllInTime};
ghost use Rattle.wl_server_model.specs.Backend.{Calls};
ghost use Rattle.wl_server_client.specs.Globals.{global_serial, shown_as};
ghost use Rattle.wl_server_client.specs.Inside.News.{HearsNew};
ghost use Rattle.wl_server_model.specs.PartStep.{over};
ghost use Rattle.wl_server_model.specs.Plain.Globals.{OffersGlobal};
ghost use Rattle.wl_server_model.specs.Inside.Places.{AllFeel, PlaceFeels};
ghost use Rattle.wl_server_model.specs.declared.step.Reply.TheVariants as reply;
ghost use Rattle.wl_server_model.specs.declared.step.Step.TheVariants as step;

use crate::backend::Backend;
use crate::globals::create;
use wl_link::{Object, ObjectMap, Transport};
use wl_server_client::client::Client;
use wl_server_client::error::GlobalError;
use wl_server_client::globals::announce::Announcement;
use wl_server_client::globals::handler::GlobalHandler;
use wl_server_client::globals::{KeptGlobal, global_in};
use wl_server_client::ids::client_id::ClientId;
use wl_server_client::ids::global_id::GlobalId;
use wl_server_client::notes::queues::NoteNumbers;
use wl_wire::{InterfaceId, Protocol};

/// Tells the client of a slot of a new global, if it is live and may see it. Returns whether memory ran out.
fn tell_new_at<T: Transport + Drop, U: Drop, G: GlobalHandler<C>, C: Drop>(
    client: &mut Option<Client<T, U, C>>,
    numbers: &mut NoteNumbers,
    slot: u32,
    id: &GlobalId,
    global: &Object<KeptGlobal<G>>,
    announcement: &mut Announcement<'_>,
) -> bool
    requires { announcement.old.global ≡ shown_as (id.now.name, global.now) }
    ensures felt { PlaceFeels (HearsNew T.sends G.views announcement.old.table id.now global.now) slot client.old result client.new }
    ensures same { announcement.new ≡ announcement.old }
    ensures in_time { NotesInTime (times_of client.old) numbers.old (times_of client.new) numbers.new }
    ensures numbered { IsNumbered client.old → IsNumbered client.new }
{
    match client {
        Some(client) if !client.is_killed => {
            let client_id = ClientId::from_parts(slot, client.serial);
            if !global.value.handler.can_view(&client_id, &client.data, id) {
                return false;
            }
            let alloc = client.alloc();
            let answer = announcement.tell(alloc, &mut client.socket, &client.objects.registries);
            client.kill_unless_written(numbers, answer)
        }
        _ => false,
    }
}

/// Tells each live client that may see it of a new global. Returns whether memory ran out.
fn tell_new<T: Transport + Drop, U: Drop, G: GlobalHandler<C>, C: Drop>(
    clients: &mut [Option<Client<T, U, C>>],
    numbers: &mut NoteNumbers,
    protocol: &Protocol,
    id: &GlobalId,
    global: &Object<KeptGlobal<G>>,
) -> bool
    requires { length clients.old ≤ 0x100000000 }
    ensures felt { AllFeel (HearsNew T.sends G.views protocol.now id.now global.now) result (length clients.old) clients.old clients.new }
    ensures in_time { AllInTime (map times_of clients.old) numbers.old (map times_of clients.new) numbers.new }
    ensures numbered { AllNumbered clients.old → AllNumbered clients.new }
{
    let mut announcement = Announcement::new(protocol, id.name(), global);
    let mut refused = false;
    for slot in 0..clients.len() {
        refused |= tell_new_at(
            &mut clients[slot],
            numbers,
            slot as u32,
            id,
            global,
            &mut announcement,
        );
    }
    refused
}

/// Tells each live client that may see it of the global that the id names, if there is one. Returns whether memory ran
/// out.
fn tell_named<T: Transport + Drop, U: Drop, G: GlobalHandler<C> + Drop, C: Drop>(
    clients: &mut [Option<Client<T, U, C>>],
    numbers: &mut NoteNumbers,
    protocol: &Protocol,
    globals: &ObjectMap<KeptGlobal<G>>,
    id: &GlobalId,
) -> bool
    requires { length clients.old ≤ 0x100000000 }
    ensures felt { IfSome (names global_serial (record { number = id.now.name; serial = id.now.serial }) globals.now.store)
        (λ global. AllFeel (HearsNew T.sends G.views protocol.now id.now global) result (length clients.old) clients.old clients.new) }
    ensures in_time { AllInTime (map times_of clients.old) numbers.old (map times_of clients.new) numbers.new }
    ensures numbered { AllNumbered clients.old → AllNumbered clients.new }
{
    match global_in(globals, id) {
        Some(global) => tell_new(clients, numbers, protocol, id, global),
        None => false,
    }
}

impl<T: Transport + Drop, U: Drop, G: GlobalHandler<C> + Drop, C: Drop> Backend<T, U, G, C> {
    /// Creates a global, and announces it by `wl_registry.global` to the registries of each live client that may see it. A registry
    /// that was handed out (`hand_out_registries`) is told of nothing.
    ///
    /// It stands for `wayland_backend::server::Handle::create_global`. The global gets the least name that no other
    /// global has; while names are kept (`keep_global_names`), the least that was never in use. `version` is the greatest
    /// version that clients may bind. If a client cannot be told, for lack of memory or for another reason, it is killed, and
    /// the global is created all the same.
    ///
    /// # Errors
    ///
    /// - `UnknownInterface`: the interface is not in the table.
    /// - `VersionTooHigh`: the version is above that of the interface in the table.
    /// - `Full`: no name or no serial is left.
    /// - `OutOfMemory`: there is no memory for the global. This happens only if its name was never in use before.
    ///
    /// After an error nothing is changed.
    pub fn create_global(
        &mut self,
        interface: InterfaceId,
        version: u32,
        handler: G,
    ) -> Result<GlobalId, GlobalError>
        ensures call { Calls (over T.sends T.receives G.views) self.old (step.CreateGlobal interface version handler) (reply.CreateGlobal result) self.new }
        ensures plain { OffersGlobal self.old interface version handler result self.new }
    {
        let created = create(
            &self.protocol,
            &mut self.globals,
            &mut self.last_global,
            self.keeps_names,
            interface,
            version,
            handler,
        );
        match created {
            Ok(id) => {
                self.touched.insert_all();
                self.refused = tell_named(
                    &mut self.clients,
                    &mut self.numbers,
                    &self.protocol,
                    &self.globals,
                    &id,
                );
                Ok(id)
            }
            Err(error) => {
                self.refused = matches!(error, GlobalError::OutOfMemory);
                Err(error)
            }
        }
    }
}
