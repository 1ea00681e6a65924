//! Sends what waits in the buffers of clients.

ghost use Rattle.std.specs.Prelude.{◌≡◌, ℕ, IsTrue, List, length, map, Some};
ghost use Rattle.wl_server_model.specs.Backend.{Calls};
ghost use Rattle.wl_server_client.specs.Felt.{FlushesLive};
ghost use Rattle.wl_server_model.specs.Inside.Leaving.{Flushes, FlushesKilled};
ghost use Rattle.wl_server_model.specs.NoteOrder.{AllNumbered};
ghost use Rattle.wl_server_client.specs.NoteTimes.{IsNumbered, times_of};
ghost use Rattle.wl_server_model.specs.PartStep.{over};
ghost use Rattle.wl_server_model.specs.Plain.{FlushesClients};
ghost use Rattle.wl_server_model.specs.Inside.Places.{AllFeel, PlaceFeels};
ghost use Rattle.wl_server.specs.Inside.Touched.{AllLive, AllQuiet, AllSent, HasSent, IsQuiet};
ghost use Rattle.wl_server_model.specs.declared.step.Reply.TheVariants as reply;
ghost use Rattle.wl_server_model.specs.declared.step.Step.TheVariants as step;

use crate::backend::Backend;
use crate::client::Slots;
use crate::client::stored::stored_mut;
use wl_link::Transport;
use wl_server_client::client::Client;
use wl_server_client::events::own_events::is_out_of_memory;
use wl_server_client::globals::handler::GlobalHandler;
use wl_server_client::ids::client_id::ClientId;
use wl_sets::slot_set::SlotSet;
use wl_wire::IoFault;

/// Sends what waits for the client of a slot: only if it is killed, or only if it is live, as `killed` says. A fault is
/// dropped. Returns whether memory ran out.
fn flush_at<T: Transport + Drop, U: Drop, C: Drop>(
    client: &mut Option<Client<T, U, C>>,
    killed: bool,
) -> bool
    ensures felt { (slot : ℕ) → PlaceFeels (λ id p lacked did q. Flushes T.sends killed p lacked did q) slot client.old result client.new }
    ensures times { times_of client.new ≡ times_of client.old }
    ensures numbered { IsNumbered client.old → IsNumbered client.new }
    ensures sent { HasSent client.old → HasSent client.new }
    ensures quiet { IsQuiet client.old → IsQuiet client.new }
{
    match client {
        Some(client) if client.is_killed == killed => {
            let answer = client.flush();
            is_out_of_memory(answer)
        }
        _ => false,
    }
}

/// Sends what waits for each killed client. The set has all of these. Faults are dropped. Returns whether memory ran out.
pub fn flush_killed<T: Transport + Drop, U: Drop, C: Drop>(
    clients: &mut Slots<T, U, C>,
    to_note: &SlotSet,
) -> bool
    requires { AllLive to_note.now.words.items clients.old.items }
    ensures felt { AllFeel (λ id p lacked did q. FlushesKilled T.sends p lacked did q) result (length clients.old.items) clients.old.items clients.new.items }
    ensures times { map times_of clients.new.items ≡ map times_of clients.old.items }
    ensures numbered { AllNumbered clients.old.items → AllNumbered clients.new.items }
{
    let end = clients.len();
    let mut refused = false;
    let mut slot = to_note.next_from(0, end);
    while slot < end {
        refused |= flush_at(&mut clients[slot], true);
        slot = to_note.next_from(slot + 1, end);
    }
    refused
}

/// Whether no bytes wait to be sent to the client of a slot.
fn has_sent<T, U, C>(client: &Option<Client<T, U, C>>) -> bool
    ensures { IsTrue result → HasSent client.now }
{
    match client {
        Some(client) => client.socket.waiting()[2] == 0,
        None => true,
    }
}

/// Sends what waits for each live client, of those for which something may wait. Faults are dropped. Returns whether memory
/// ran out.
pub fn flush_live<T: Transport + Drop, U: Drop, C: Drop>(
    clients: &mut Slots<T, U, C>,
    to_send: &mut SlotSet,
) -> bool
    requires { AllSent to_send.old.words.items clients.old.items }
    ensures felt { AllFeel (λ id p lacked did q. FlushesLive T.sends p lacked did q) result (length clients.old.items) clients.old.items clients.new.items }
    ensures times { map times_of clients.new.items ≡ map times_of clients.old.items }
    ensures numbered { AllNumbered clients.old.items → AllNumbered clients.new.items }
    ensures sent { AllSent to_send.new.words.items clients.new.items }
    ensures quiet { (words : List ℕ) → AllQuiet words clients.old.items → AllQuiet words clients.new.items }
{
    let end = clients.len();
    let mut refused = false;
    let mut slot = to_send.next_from(0, end);
    while slot < end {
        refused |= flush_at(&mut clients[slot], false);
        to_send.remove_if(slot, has_sent(&clients[slot]));
        slot = to_send.next_from(slot + 1, end);
    }
    refused
}

impl<T: Transport + Drop, U: Drop, G: GlobalHandler<C> + Drop, C: Drop> Backend<T, U, G, C> {
    /// Sends what waits for the client, as far as its transport takes it. It does so for a killed client, too.
    ///
    /// It stands for `wayland_backend::server::Backend::flush`. It returns `Ok` in these cases:
    ///
    /// - All bytes were sent. If there were more than 28 tokens for each byte, the tokens beyond that number still wait.
    ///   A *token* stands for a file descriptor.
    /// - The transport answered 0 to a send. Then the rest still waits, but the tokens that this send was offered are
    ///   gone.
    /// - The client is not stored. Then there is nothing to send.
    ///
    /// Otherwise the error is the transport's fault, and what was not sent still waits.
    ///
    /// If `client` is `None`, it sends what waits for each live client. A fault of one of them is dropped, and the call
    /// returns `Ok`.
    pub fn flush(&mut self, client: Option<ClientId>) -> Result<(), IoFault>
        ensures call { Calls (over T.sends T.receives G.views) self.old (step.Flush client) (reply.Flush result) self.new }
        ensures plain { FlushesClients T.sends self.old client result self.new }
    {
        let Some(id) = client else {
            self.refused = flush_live(&mut self.clients, &mut self.touched.to_send);
            return Ok(());
        };
        self.refused = false;
        let Some(client) = stored_mut(&mut self.clients, &mut self.touched, &id) else {
            return Ok(());
        };
        let answer = client.flush();
        self.refused = is_out_of_memory(answer);
        answer
    }
}
