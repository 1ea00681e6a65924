//! New clients.

ghost use Rattle.std.specs.Prelude.{◌≡◌, ℕ, ◌<◌, ◌≤◌, None, Some, IfOk, OnErr, OnOk, IsSome, map, MatchOption, MatchResult, length, vec_capacity, vec_len};
ghost use Rattle.wl_server_model.specs.Backend.{Calls};
ghost use Rattle.wl_server_client.specs.Inside.Client.{IsInserted};
ghost use Rattle.wl_server_model.specs.NoteOrder.{AllNumbered, AllInTime};
ghost use Rattle.wl_server_client.specs.NoteTimes.{times_of};
ghost use Rattle.wl_server_client.specs.Inside.NoteTimes.{one_made};
ghost use Rattle.wl_server_model.specs.Inside.Inserting.{AreTaken, IsPut};
ghost use Rattle.wl_server.specs.Inside.Touched.{AreTouched, StayTouched};
ghost use Rattle.wl_server_model.specs.Next.{NextClient, NextClientIsGiven};
ghost use Rattle.wl_server_model.specs.PartStep.{over};
ghost use Rattle.wl_server_model.specs.Plain.Calls.{InsertsClient};
ghost use Rattle.wl_server_client.specs.Stored.{Stored};
ghost use Rattle.wl_server_model.specs.Server.{stored_at};
ghost use Rattle.wl_server_model.specs.Steps.{IsLeastFree};
ghost use Rattle.wl_server_model.specs.declared.step.Reply.TheVariants as reply;
ghost use Rattle.wl_server_model.specs.declared.step.Step.TheVariants as step;

use crate::backend::Backend;
use crate::client::Slots;
use crate::client::touched::Touched;
use std::alloc::Global;
use wl_link::Transport;
use wl_server_client::client::Client;
use wl_server_client::error::InsertClientError;
use wl_server_client::globals::handler::GlobalHandler;
use wl_server_client::ids::client_id::ClientId;
use wl_server_client::notes::queues::NoteNumbers;
use wl_wire::OutOfMemory;

/// Makes room for a client at the slot, and for its bits. The slot is in the list, or is the first one after it.
fn reserve_slot<T, U, C>(
    clients: &mut Slots<T, U, C>,
    touched: &mut Touched,
    slot: usize,
) -> Result<(), OutOfMemory>
    ensures items { clients.new.items ≡ clients.old.items }
    ensures len { vec_len clients.new ≡ vec_len clients.old }
    ensures room { OnOk result (vec_len clients.new ≤ slot → vec_len clients.new < vec_capacity clients.new) }
    ensures touched { StayTouched touched.old touched.new }
{
    if slot < clients.len() {
        return Ok(());
    }
    clients.reserve(1)?;
    touched.grow_to(slot)
}

/// The least slot that has no client, or `None` if each has one. All slots below `from` have one.
fn free_slot<T, U, C>(clients: &[Option<Client<T, U, C>>], from: usize) -> Option<u32>
    requires { AreTaken from clients.now }
    ensures { MatchOption result ((k : ℕ) → k < 0x100000000 → IsSome (stored_at k clients.now)) (IsLeastFree clients.now) }
{
    for slot in from..clients.len() {
        if clients[slot].is_none() {
            return u32::try_from(slot).ok();
        }
    }
    u32::try_from(clients.len()).ok()
}

/// Puts a client at a slot that is in the list and has no client.
fn put_within<T: Drop, U: Drop, C: Drop>(
    clients: &mut Slots<T, U, C>,
    slot: usize,
    client: Client<T, U, C>,
)
    requires { slot < vec_len clients.old }
    ensures put { IsPut clients.old.items slot client clients.new.items }
    ensures len { vec_len clients.new ≡ vec_len clients.old }
{
    clients[slot] = Some(client);
}

/// Puts a client at a slot that has no client. There is room for it.
fn put_at<T: Drop, U: Drop, C: Drop>(
    clients: &mut Slots<T, U, C>,
    slot: usize,
    client: Client<T, U, C>,
)
    requires within { slot ≤ vec_len clients.old }
    requires room { vec_len clients.old ≤ slot → vec_len clients.old < vec_capacity clients.old }
    ensures put { IsPut clients.old.items slot client clients.new.items }
    ensures slots { vec_len clients.old ≤ 0x100000000 → slot < 0x100000000 → vec_len clients.new ≤ 0x100000000 }
{
    if slot < clients.len() {
        put_within(clients, slot, client);
    } else {
        clients.push_reserved(Some(client));
    }
}

/// Puts a new client at a slot that has no client. The slot is in the list, or is the first one after it. If there is no
/// memory, nothing changes.
fn put_new<T: Drop, U: Drop, C: Drop>(
    alloc: Global,
    clients: &mut Slots<T, U, C>,
    touched: &mut Touched,
    numbers: &mut NoteNumbers,
    id: &ClientId,
    transport: T,
    max_buffer_size: usize,
    client_data: C,
) -> Result<(), OutOfMemory>
    requires { id.now.slot ≤ length clients.old.items }
    ensures put { IfOk result (λ _. (s : Stored T U C) × IsInserted id.now.serial transport (Some max_buffer_size) client_data s
        × IsPut clients.old.items id.now.slot s clients.new.items) }
    ensures unchanged { OnErr result (clients.new.items ≡ clients.old.items) }
    ensures slots { vec_len clients.old ≤ 0x100000000 → vec_len clients.new ≤ 0x100000000 }
    ensures numbers { MatchResult result (λ _. numbers.new ≡ one_made numbers.old) (λ e. numbers.new ≡ numbers.old) }
    ensures numbered { AllNumbered clients.old.items → AllNumbered clients.new.items }
    ensures touched { AreTouched touched.old clients.old.items → AreTouched touched.new clients.new.items }
    ensures in_time { stored_at id.now.slot clients.old.items ≡ None → AllInTime (map times_of clients.old.items) numbers.old (map times_of clients.new.items) numbers.new }
{
    let slot = id.slot() as usize;
    reserve_slot(clients, touched, slot)?;
    let serial = id.serial();
    let client = Client::new(
        alloc,
        serial,
        transport,
        max_buffer_size,
        client_data,
        numbers,
    )?;
    put_at(clients, slot, client);
    touched.insert(slot);
    Ok(())
}

impl<T: Drop, U: Drop, G: Drop, C: Drop> Backend<T, U, G, C> {
    /// The id that the next `insert_client` gives, if it is not refused for want of memory. `None` if each slot has a
    /// client, or no serial is left. So a program can decide what a client may see before there is one.
    ///
    /// It looks for a free slot as `insert_client` does, and allocates no memory. The answer holds until a client is inserted or
    /// a cleanup frees a lower slot.
    pub fn next_client_id(&self) -> Option<ClientId>
        ensures next { NextClient self.now.server.last_client self.now.server.clients result }
        ensures given { NextClientIsGiven self.now.server.last_client self.now.server.clients result }
    {
        let slot = free_slot(&self.clients, self.free_from)?;
        if self.last_client == u64::MAX {
            return None;
        }
        Some(ClientId::from_parts(slot, self.last_client + 1))
    }
}

impl<T: Transport + Drop, U: Drop, G: GlobalHandler<C> + Drop, C: Drop> Backend<T, U, G, C> {
    /// Inserts a new client with this transport and this data of the program, and returns its id.
    ///
    /// It stands for `wayland_backend::server::Handle::insert_client`. The client gets the least free slot and the next
    /// serial. It has one object, the display, with number 1. Its buffers may grow up to the limit for new clients
    /// (`set_default_max_buffer_size`). A note says that it was inserted.
    ///
    /// # Errors
    ///
    /// - `Full`: each slot has a client, or no serial is left.
    /// - `OutOfMemory`: memory ran out.
    ///
    /// After an error nothing is changed, and the transport and the data are dropped.
    pub fn insert_client(
        &mut self,
        transport: T,
        client_data: C,
    ) -> Result<ClientId, InsertClientError>
        ensures call { Calls (over T.sends T.receives G.views) self.old (step.InsertClient transport client_data) (reply.InsertClient result) self.new }
        ensures plain { InsertsClient self.old transport client_data result self.new }
    {
        let alloc = self.alloc();
        self.refused = false;
        let Some(id) = self.next_client_id() else {
            return Err(InsertClientError::Full);
        };
        match put_new(
            alloc,
            &mut self.clients,
            &mut self.touched,
            &mut self.numbers,
            &id,
            transport,
            self.default_limit,
            client_data,
        ) {
            Ok(()) => {
                self.free_from = id.slot() as usize + 1;
                self.last_client += 1;
                Ok(id)
            }
            Err(OutOfMemory) => {
                self.refused = true;
                Err(InsertClientError::OutOfMemory)
            }
        }
    }
}
