//! Dispatches: the server reads clients and calls the program's handler with each of their actions.
//!
//! An *action* is a request or a bind that the program has to do something about (`Action`). The handler's answer
//! finishes it.

ghost use Rattle.std.specs.Prelude.{◌≡◌, false};
ghost use Rattle.wl_server_model.specs.Dispatch.{DispatchesAll, DispatchesClient, answering, after_cleanup, total_with};
ghost use Rattle.wl_server_model.specs.Inside.Dispatching.{CleansUp};
ghost use Rattle.wl_server_model.specs.PartStep.{over};
ghost use Rattle.wl_server_model.specs.Plain.Dispatch.{DispatchOfOneLeaves, DispatchOfSeveralLeaves};

/// The trait `Handler`, by which a program handles the actions of its clients.
mod request_handler;
/// The actions of one client are read, handled and finished.
mod serve;

use crate::backend::Backend;
pub use request_handler::Handler;
use wl_link::Transport;
use wl_server_client::globals::handler::GlobalHandler;
use wl_server_client::ids::client_id::ClientId;
use wl_wire::{IoFault, OutOfMemory};

/// Adds the count of one more client to the total. An error counts as 0. The sum saturates at `usize::MAX`.
fn total_with(total: usize, answer: Result<usize, IoFault>) -> usize
    ensures { result ≡ total_with total answer }
{
    match answer {
        Ok(read) => total.saturating_add(read),
        Err(_) => total,
    }
}

/// What a dispatch returns after its cleanup: the given result, or `OutOfMemory` if the cleanup was refused. The
/// transports that the cleanup handed out are dropped.
fn answer_after_cleanup<T: Drop>(
    taken_out: Result<Vec<(ClientId, T)>, OutOfMemory>,
    answer: Result<usize, IoFault>,
) -> Result<usize, IoFault>
    ensures { result ≡ after_cleanup taken_out answer }
{
    match taken_out {
        Ok(_) => answer,
        Err(_) => Err(IoFault::OutOfMemory),
    }
}

impl<T: Transport + Drop, U: Drop, G: GlobalHandler<C> + Drop, C: Drop> Backend<T, U, G, C> {
    /// Reads requests of the client and calls the handler with each action, until no more can be read. The handler's
    /// answer finishes the action. Then the dispatch takes out the clients that were killed, as `cleanup` does, and drops
    /// their transports.
    ///
    /// It stands for `wayland_backend::server::Backend::dispatch_single_client`. It receives from the client's transport
    /// at most 64 times.
    ///
    /// Returns how many requests were read, including those that the server answered by itself. This number is at least
    /// 1. It is returned only if the reading ended with `WouldBlock`, so more may come later.
    ///
    /// # Errors
    ///
    /// - `WouldBlock`: no request was read, and more may come later.
    /// - `InvalidInput`: the client is not stored, an action of it was open before the call, an action cannot be
    ///   finished with the handler's answer, or a registry is handed out (`hand_out_registries`), which no handler is called with
    ///   and which stays open.
    /// - `Pipe`: the client was killed or broke the protocol.
    /// - `OutOfMemory`: memory ran out in a reading, in the end of an action, or in the cleanup. An action that could
    ///   not be finished stays open, and the user data that the handler gave for it are dropped.
    /// - Any other fault that ended the reading, as `next_action` returns it.
    ///
    /// After the call `memory_refused` tells of the calls that the dispatch itself makes, and not of those that the
    /// handler makes.
    ///
    /// A dispatch is a run of calls of the server, so the laws of such runs (`laws`) hold of it.
    pub fn dispatch_single_client<H: Handler<T, U, G, C>>(
        &mut self,
        handler: &mut H,
        client: &ClientId,
    ) -> Result<usize, IoFault>
        ensures call { DispatchesClient (over T.sends T.receives G.views) (answering H.requests H.binds) client.now handler.old self.old.server result handler.new self.new }
        ensures plain { DispatchOfOneLeaves (answering H.requests H.binds) self.old.server client.now result self.new }
    {
        self.begin_dispatch();
        let answer = self.serve(handler, client);
        self.end_dispatch(answer)
    }

    /// Does the same as `dispatch_single_client` for each of the clients, in order, and takes out the killed clients
    /// once, at the end.
    ///
    /// It stands for `wayland_backend::server::Backend::dispatch_all_clients`. Each client's transport receives at most
    /// 64 times.
    ///
    /// Returns the sum of the clients' counts, which saturates at `usize::MAX`. If the dispatch of a client ends with an
    /// error, this client adds nothing to the sum, and its error is not returned. The only error of this call is
    /// `OutOfMemory`: there was no memory for the cleanup.
    pub fn dispatch_all_clients<H: Handler<T, U, G, C>>(
        &mut self,
        handler: &mut H,
        clients: &[ClientId],
    ) -> Result<usize, IoFault>
        ensures call { DispatchesAll (over T.sends T.receives G.views) (answering H.requests H.binds) clients.now handler.old self.old.server result handler.new self.new }
        ensures plain { DispatchOfSeveralLeaves (answering H.requests H.binds) self.old.server result self.new }
    {
        self.begin_dispatch();
        let mut total = 0;
        for client in clients {
            total = total_with(total, self.serve(handler, client));
        }
        self.end_dispatch(Ok(total))
    }

    /// Takes out the clients that were killed, and drops their transports. Returns the given result, or `OutOfMemory` if
    /// there was no memory for that. Afterwards `memory_refused` tells of this cleanup and of the dispatch's calls before
    /// it.
    fn end_dispatch(&mut self, answer: Result<usize, IoFault>) -> Result<usize, IoFault>
        ensures { CleansUp (over T.sends T.receives G.views) self.old answer result self.new }
    {
        let refused = self.memory_refused();
        let cleaned = self.cleanup();
        self.keep_refused(refused);
        answer_after_cleanup(cleaned, answer)
    }

    /// Begins a dispatch: memory did not run out yet.
    fn begin_dispatch(&mut self)
        ensures { self.new ≡ record self.old { refused = false } }
    {
        self.refused = false;
    }
}
