//! What arrives of clients.

ghost use Rattle.std.specs.Prelude.{[]};
ghost use Rattle.wl_flat.specs.Descriptors.{Conserves};
ghost use Rattle.wl_flat.specs.Flat.{client_of};
ghost use Rattle.wl_host.specs.Server.{Ends, FailsSends, Received, kept_by_server, went_in};
ghost use Rattle.wl_link.specs.declared.mailbox.Ending.TheVariants as ending;
ghost use Rattle.wl_wire.specs.declared.error.IoFault.TheVariants as fault;

use crate::server::Server;
use wl_flat::flat::FlatClientId;
use wl_flat::status::Status;
use wl_link::Ending;
use wl_server::DisconnectReason;
use wl_wire::IoFault;

impl Server {
    /// The host received these bytes from the client, and the descriptors with them.
    ///
    /// The status is `InvalidId` if the client is not stored, `InvalidInput` if descriptors come without a byte,
    /// `TooManyDescriptors` if more than 28 would wait that no call has read, and `OutOfMemory`. Then nothing is changed, and the
    /// descriptors are still the host's. If the client's messages are told, the bytes are to be told once they are read.
    pub fn received(&mut self, client: &FlatClientId, bytes: &[u8], descriptors: &[i32]) -> Status
        ensures arrived { Received self.old (client_of client.now) bytes.now descriptors.now result self.new }
        ensures descriptors { Conserves kept_by_server self.old (went_in result descriptors.now) [] self.new }
    {
        let id = client.id();
        let Some(ledger) = self.seats.get_mut(&id) else {
            return Status::InvalidId;
        };
        let Ok(mailbox) = self.core.transport_mut(&id) else {
            return Status::InvalidId;
        };
        ledger.take_in(mailbox, bytes, descriptors)
    }

    /// Says what comes behind the bytes that arrived.
    fn end(&mut self, client: &FlatClientId, ending: Ending) -> Status
        ensures { Ends self.old (client_of client.now) ending result self.new }
    {
        match self.core.transport_mut(&client.id()) {
            Ok(mailbox) => {
                mailbox.end(ending);
                Status::Ok
            }
            Err(error) => Status::from(error),
        }
    }

    /// The client closed the connection: no more bytes will arrive. What arrived is read before. The status is `InvalidId` if the
    /// client is not stored.
    pub fn received_end(&mut self, client: &FlatClientId) -> Status
        ensures { Ends self.old (client_of client.now) ending.Ended result self.new }
    {
        self.end(client, Ending::Ended)
    }

    /// Receiving from the client failed, with this error number of the system. What arrived is read before. The status is
    /// `InvalidId` if the client is not stored.
    pub fn receive_failed(&mut self, client: &FlatClientId, number: i32) -> Status
        ensures { Ends self.old (client_of client.now) (ending.Failed (fault.Other number)) result self.new }
    {
        self.end(client, Ending::Failed(IoFault::Other(number)))
    }

    /// Sending to the client failed. It is killed, with the reason that its connection is closed. The status is `InvalidId` if
    /// the client is not stored.
    pub fn send_failed(&mut self, client: &FlatClientId) -> Status
        ensures { FailsSends self.old (client_of client.now) result self.new }
    {
        let id = client.id();
        if self.core.transport(&id).is_err() {
            return Status::InvalidId;
        }
        self.core
            .kill_client(&id, DisconnectReason::ConnectionClosed);
        self.mark();
        Status::Ok
    }
}
