//! What the host received.

ghost use Rattle.std.specs.Prelude.{◌≡◌, []};
ghost use Rattle.wl_link.specs.declared.mailbox.Ending.TheVariants as ending;
ghost use Rattle.wl_wire.specs.declared.error.IoFault.TheVariants as fault;
ghost use Rattle.wl_host_client.specs.Client.{ConservesClient, mailbox_of, taken_in, with_mailbox};
ghost use Rattle.wl_host_client.specs.ClientTellings.{ReceivesTold};
ghost use Rattle.wl_flat.specs.declared.status.Status.TheVariants as status;

use super::Client;
use wl_flat::status::Status;
use wl_link::Ending;
use wl_wire::IoFault;

impl Client {
    /// Puts in bytes that the host received, and the descriptors that came with them.
    ///
    /// The statuses are:
    ///
    /// - `InvalidInput` if descriptors come without a byte;
    /// - `TooManyDescriptors` if, with those that arrived and were not read yet, more than 28 would wait. Then the host asks
    ///   for the events first;
    /// - `OutOfMemory` if there is no memory, also for what is told (`tell_messages`).
    ///
    /// Then nothing is changed, and the descriptors are still the host's.
    pub fn received(&mut self, bytes: &[u8], descriptors: &[i32]) -> Status
        ensures call { ReceivesTold self.old bytes.now descriptors.now result self.new }
        ensures descriptors { ConservesClient self.old (taken_in result descriptors.now) [] self.new }
    {
        let status = self.messages.take_in(
            self.core.transport_mut(),
            &mut self.arrivals,
            bytes,
            descriptors,
        );
        if status == Status::Ok {
            self.is_new = false;
        }
        status
    }

    /// Says that the server closed the connection. The events that arrived before are still read. Then the session fails,
    /// and its error is `Closed`.
    pub fn received_end(&mut self) -> Status
        ensures ended { self.new ≡ with_mailbox self.old (record (mailbox_of self.old) { ending = ending.Ended }) }
        ensures descriptors { ConservesClient self.old [] [] self.new }
        ensures answer { result ≡ status.Ok }
    {
        self.core.transport_mut().end(Ending::Ended);
        Status::Ok
    }

    /// Says that a receive failed, with this number of the system. The events that arrived before are still read. Then the
    /// session fails, and its error is `IoError` with this number.
    pub fn receive_failed(&mut self, number: i32) -> Status
        ensures failed { self.new ≡ with_mailbox self.old (record (mailbox_of self.old) { ending = ending.Failed (fault.Other number) }) }
        ensures descriptors { ConservesClient self.old [] [] self.new }
        ensures answer { result ≡ status.Ok }
    {
        self.core
            .transport_mut()
            .end(Ending::Failed(IoFault::Other(number)));
        Status::Ok
    }
}
