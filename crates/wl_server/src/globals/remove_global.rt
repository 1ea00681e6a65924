//! The calls that withdraw a global.

ghost use Rattle.std.specs.Prelude.{◌≡◌, ℕ, length, map};
ghost use Rattle.wl_link.specs.Identity.{names};
ghost use Rattle.wl_server_client.specs.NoteTimes.{IsNumbered, NotesInTime, times_of};
ghost use Rattle.wl_server_model.specs.NoteOrder.{AllNumbered, AllInTime};
ghost use Rattle.wl_server_model.specs.Backend.{Calls};
ghost use Rattle.wl_server_client.specs.Felt.{Hears, removals};
ghost use Rattle.wl_server_client.specs.Globals.{global_serial, is_enabled as global_is_enabled};
ghost use Rattle.wl_server_model.specs.PartStep.{over};
ghost use Rattle.wl_server_model.specs.Plain.Globals.{DisablesGlobal, RemovesGlobal};
ghost use Rattle.wl_server_model.specs.Inside.Places.{AllFeel, PlaceFeels};
ghost use Rattle.wl_server_model.specs.declared.step.Reply.TheVariants as reply;
ghost use Rattle.wl_server_model.specs.declared.step.Step.TheVariants as step;

use crate::backend::Backend;
use crate::globals::{disable, remove};
use wl_link::{ObjectMap, Transport};
use wl_server_client::client::Client;
use wl_server_client::events::own_events::message_of_number;
use wl_server_client::globals::announce::put_to_each;
use wl_server_client::globals::handler::GlobalHandler;
use wl_server_client::globals::{KeptGlobal, global_in};
use wl_server_client::ids::global_id::GlobalId;
use wl_server_client::notes::queues::NoteNumbers;
use wl_wire::opcodes::GLOBAL_REMOVE;

/// Whether the id names a global that is not disabled.
fn is_enabled<G: Drop>(globals: &ObjectMap<KeptGlobal<G>>, id: &GlobalId) -> bool
    ensures { result ≡ global_is_enabled (names global_serial (record { number = id.now.name; serial = id.now.serial }) globals.now.store) }
{
    match global_in(globals, id) {
        Some(global) => !global.value.is_disabled,
        None => false,
    }
}

/// Tells the client of a slot, if it is live, by `wl_registry.global_remove` that the global of that name is gone.
/// Returns whether memory ran out.
fn tell_loss_at<T: Transport + Drop, U: Drop, C: Drop>(
    client: &mut Option<Client<T, U, C>>,
    numbers: &mut NoteNumbers,
    name: u32,
) -> bool
    ensures felt { (slot : ℕ) → PlaceFeels (λ id p lacked did q. Hears T.sends p (removals p name) lacked did q) slot client.old result client.new }
    ensures in_time { NotesInTime (times_of client.old) numbers.old (times_of client.new) numbers.new }
    ensures numbered { IsNumbered client.old → IsNumbered client.new }
{
    match client {
        Some(client) if !client.is_killed => {
            let alloc = client.alloc();
            let mut message = message_of_number(alloc, 0, GLOBAL_REMOVE, name);
            let answer = put_to_each(&mut client.socket, &client.objects.registries, &mut message);
            client.kill_unless_written(numbers, answer)
        }
        _ => false,
    }
}

/// Tells each live client by `wl_registry.global_remove` that the global of that name is gone. Returns whether memory ran
/// out.
fn tell_loss<T: Transport + Drop, U: Drop, C: Drop>(
    clients: &mut [Option<Client<T, U, C>>],
    numbers: &mut NoteNumbers,
    name: u32,
) -> bool
    ensures felt { AllFeel (λ id p lacked did q. Hears T.sends p (removals p name) lacked did q) result (length clients.old) clients.old clients.new }
    ensures in_time { AllInTime (map times_of clients.old) numbers.old (map times_of clients.new) numbers.new }
    ensures numbered { AllNumbered clients.old → AllNumbered clients.new }
{
    let mut refused = false;
    for slot in 0..clients.len() {
        refused |= tell_loss_at(&mut clients[slot], numbers, name);
    }
    refused
}

impl<T: Transport + Drop, U: Drop, G: GlobalHandler<C> + Drop, C: Drop> Backend<T, U, G, C> {
    /// Disables the global: it is no longer announced, and each registry of each live client is told by
    /// `wl_registry.global_remove`, but those that were handed out (`hand_out_registries`).
    ///
    /// It stands for `wayland_backend::server::Handle::disable_global`. A registry is told whether or not it was told of
    /// the global before. The server keeps the global, and clients may still bind it. If the server does not have the
    /// global, or it was disabled before, nothing happens.
    ///
    /// If a client cannot be told, for lack of memory or for another reason, it is killed.
    pub fn disable_global(&mut self, id: &GlobalId)
        ensures call { Calls (over T.sends T.receives G.views) self.old (step.DisableGlobal id.now) reply.DisableGlobal self.new }
        ensures plain { DisablesGlobal self.old id.now self.new }
    {
        self.refused = false;
        let was_enabled = is_enabled(&self.globals, id);
        disable(&mut self.globals, id);
        if was_enabled {
            self.touched.insert_all();
            self.refused = tell_loss(&mut self.clients, &mut self.numbers, id.name());
        }
    }

    /// Removes the global: its name is free for another, unless names are kept (`keep_global_names`).
    ///
    /// It stands for `wayland_backend::server::Handle::remove_global`. If the global was not disabled before, each
    /// registry of each live client is told, as by `disable_global`. If the server does not have the global, nothing
    /// happens.
    ///
    /// If a client cannot be told, for lack of memory or for another reason, it is killed.
    pub fn remove_global(&mut self, id: &GlobalId)
        ensures call { Calls (over T.sends T.receives G.views) self.old (step.RemoveGlobal id.now) reply.RemoveGlobal self.new }
        ensures plain { RemovesGlobal self.old id.now self.new }
    {
        self.refused = false;
        let was_enabled = is_enabled(&self.globals, id);
        remove(&mut self.globals, id);
        if was_enabled {
            self.touched.insert_all();
            self.refused = tell_loss(&mut self.clients, &mut self.numbers, id.name());
        }
    }
}
