//! Sends what waits for one client, and says whether more waits.

ghost use Rattle.std.specs.Prelude.{◌≡◌, Result, Some};
ghost use Rattle.wl_server_model.specs.Backend.{Calls};
ghost use Rattle.wl_server.specs.FlushedClient.{TellsLeft, left_in, left_of};
ghost use Rattle.wl_server_model.specs.PartStep.{over};
ghost use Rattle.wl_server_model.specs.Plain.{FlushesClients};
ghost use Rattle.wl_wire.specs.declared.error.IoFault.{IoFault};
ghost use Rattle.wl_server_model.specs.declared.step.Reply.TheVariants as reply;
ghost use Rattle.wl_server_model.specs.declared.step.Step.TheVariants as step;

use crate::backend::Backend;
use wl_link::Transport;
use wl_server_client::client::Client;
use wl_server_client::globals::handler::GlobalHandler;
use wl_server_client::ids::client_id::ClientId;
use wl_wire::IoFault;

/// Whether bytes wait to be sent to a client after what could be sent was sent.
#[derive(Clone, Copy, Debug, PartialEq, Eq)]
pub enum Flushed {
    /// None do, or the client is not stored.
    All,
    /// Some do: the transport takes no more now. `flush_client` goes on with them once it does.
    More,
}

/// Whether bytes wait to be sent to the client.
fn left<T, U, C>(client: &Client<T, U, C>) -> Flushed
    ensures { result ≡ left_of client.now.part }
{
    if client.socket.waiting()[2] == 0 {
        Flushed::All
    } else {
        Flushed::More
    }
}

impl<T: Transport + Drop, U: Drop, G: GlobalHandler<C> + Drop, C: Drop> Backend<T, U, G, C> {
    /// Sends what waits for the client, as `flush(Some(client))` does, and says whether more waits: then the host watches
    /// for when its socket takes more.
    ///
    /// It stands for `wl_client_flush` of libwayland. It answers `All` for a client that is not stored. A socket that takes no
    /// more is no error here: the answer is `More`. Any other error is that of `flush`.
    pub fn flush_client(&mut self, client: &ClientId) -> Result<Flushed, IoFault>
        ensures call { (answer : Result (Unit {0}) IoFault) × Calls (over T.sends T.receives G.views) self.old (step.Flush (Some client.now)) (reply.Flush answer) self.new × TellsLeft answer (left_in self.new client.now) result }
        ensures plain { (answer : Result (Unit {0}) IoFault) × FlushesClients T.sends self.old (Some client.now) answer self.new × TellsLeft answer (left_in self.new client.now) result }
    {
        match self.flush(Some(*client)) {
            Ok(()) | Err(IoFault::WouldBlock) => {}
            Err(fault) => return Err(fault),
        }
        Ok(match self.client(client) {
            Some(stored) => left(stored),
            None => Flushed::All,
        })
    }
}
