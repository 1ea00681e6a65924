//! What the host is to send, and the descriptors that it takes back.

ghost use Rattle.std.specs.Prelude.{◌≡◌, [], IfErr, Some};
ghost use Rattle.wl_wire.specs.declared.error.IoFault.TheVariants as fault;
ghost use Rattle.wl_host_client.specs.Client.{ConservesClient, Drops, Flushes, HandsDropped, HasNoneDropped, HoldsNone, has_failed, let_go, mailbox_of, sent_descriptors, to_send, told, with_mailbox, without_dropped};
ghost use Rattle.wl_host_client.specs.ClientTellings.{CopiesTold, SendsTold, left_by, sent_told};
ghost use Rattle.wl_flat.specs.Sending.{copied};
ghost use Rattle.wl_flat.specs.declared.status.Status.TheVariants as status;

use super::Client;
use wl_flat::arguments::descriptor_count;
use wl_flat::flat::Counts;
use wl_flat::outgoing::{copy_out, take_off};
use wl_flat::status::Status;
use wl_wire::{IoFault, OutOfMemory};

impl Client {
    /// Puts what waits where the host finds it: what was put there is in the next `to_send`.
    ///
    /// The statuses are:
    ///
    /// - `Failed` if the session has an error, or gets one now;
    /// - `WouldBlock` if the host has to send first: so many bytes wait as there is room for, or 28 descriptors do;
    /// - `OutOfMemory` if there is no memory. What was not put there still waits.
    pub fn flush(&mut self) -> Status
        ensures call { Flushes self.old.core result self.new.core }
        ensures beside { self.new ≡ record self.old { core = self.new.core } }
        ensures descriptors { ConservesClient self.old [] [] self.new }
    {
        match self.core.flush() {
            Ok(()) => Status::Ok,
            Err(error) => Status::from(error),
        }
    }

    /// Copies what is to be sent next: as many bytes as fit, and all descriptors, which go with the first byte. The counts
    /// say how many these are; both are 0 if no bytes wait. Nothing is changed: `sent` takes away what the host sent.
    ///
    /// The status is `TooSmall` if there is room for fewer descriptors than wait. Then `counts` says how many of them there
    /// are, and the rest of what was lent is as it was. Room for 28 is always enough. If messages are told, it is `OutOfMemory` if
    /// there was no memory to tell those that are to be sent. Then nothing is copied, and the next call goes on.
    pub fn to_send(
        &mut self,
        bytes: &mut [u8],
        descriptors: &mut [i32],
        counts: &mut Counts,
    ) -> Status
        ensures copied { CopiesTold self.old bytes.old descriptors.old
            (record { status = result; bytes = bytes.new; descriptors = descriptors.new; counts = counts.new }) self.new }
        ensures conserved { ConservesClient self.old [] [] self.new }
    {
        match self.catch_up() {
            Ok(()) => self.copy_waiting(bytes, descriptors, counts),
            Err(OutOfMemory) => {
                *counts = Counts::new(0, 0);
                Status::OutOfMemory
            }
        }
    }

    /// Copies what is to be sent. The status is `Ok`, or `TooSmall` as that of `to_send`.
    fn copy_waiting(&self, bytes: &mut [u8], descriptors: &mut [i32], counts: &mut Counts) -> Status
        ensures counts { counts.new ≡ (copied (to_send self.now) self.now.departures bytes.old descriptors.old).counts }
        ensures bytes { bytes.new ≡ (copied (to_send self.now) self.now.departures bytes.old descriptors.old).bytes }
        ensures descriptors { descriptors.new ≡ (copied (to_send self.now) self.now.departures bytes.old descriptors.old).descriptors }
        ensures status { result ≡ (copied (to_send self.now) self.now.departures bytes.old descriptors.old).status }
    {
        if self.has_failed() {
            *counts = Counts::new(0, 0);
            return Status::Ok;
        }
        let mailbox = self.core.transport();
        copy_out(mailbox, &self.departures, bytes, descriptors, counts)
    }

    /// Takes away what the host sent: so many of the bytes, or all if there are fewer. If that is a byte at least, the
    /// descriptors were sent too. No call but `to_send` comes in between.
    ///
    /// If messages are told, the status is `OutOfMemory` if there was no memory to tell some that `to_send` had not seen. Then nothing
    /// is changed but what is told, and the host makes the same call again.
    pub fn sent(&mut self, count: u32) -> Status
        ensures sent { SendsTold self.old count result self.new }
        ensures descriptors { ConservesClient self.old [] (sent_told self.old count result) self.new }
    {
        match self.catch_up() {
            Ok(()) => {
                self.take_off(count);
                Status::Ok
            }
            Err(OutOfMemory) => Status::OutOfMemory,
        }
    }

    /// Takes so many bytes off the mailbox, unless the session has failed.
    fn take_off(&mut self, count: u32)
        ensures sent { self.new ≡ left_by self.old count }
        ensures descriptors { ConservesClient self.old [] (sent_descriptors self.old count) self.new }
    {
        if self.has_failed() {
            return;
        }
        self.messages.sent(count, self.core.transport());
        take_off(self.core.transport_mut(), &mut self.departures, count);
        self.is_new = false;
    }

    /// Says that a send failed, with this number of the system. The next `flush` that has something to send fails, and the
    /// session's error is `IoError` with this number.
    pub fn send_failed(&mut self, number: i32) -> Status
        ensures failed { self.new ≡ with_mailbox self.old (record (mailbox_of self.old) { send_fault = Some (fault.Other number) }) }
        ensures descriptors { ConservesClient self.old [] [] self.new }
        ensures answer { result ≡ status.Ok }
    {
        self.core.transport_mut().fail_sends(IoFault::Other(number));
        Status::Ok
    }

    /// The next descriptor that no event and no request takes, and that the host takes back.
    ///
    /// These are the descriptors of events for objects that the client has destroyed, from the reading that met the event. Once
    /// the session has failed, and no event is kept, they are all that were put in and did not come out. Then nothing is left
    /// to be sent.
    ///
    /// The status is `WouldBlock` if there is none. Then an event may yet hand out each descriptor that arrived and did not come
    /// out.
    pub fn next_dropped(&mut self) -> Result<i32, Status>
        ensures call { Drops self.old result self.new }
        ensures none_dropped { IfErr result (λ _. HasNoneDropped self.new) }
        ensures none_held { IfErr result (λ _. HoldsNone self.new) }
        ensures descriptors { ConservesClient self.old [] (told result) self.new }
    {
        self.pass_dropped();
        if self.has_failed() {
            self.let_go();
        }
        self.next_passed()
    }

    /// Takes the next descriptor out that was passed over, on either side. The status is `WouldBlock` if there is none.
    fn next_passed(&mut self) -> Result<i32, Status>
        ensures { HandsDropped self.old.arrivals.passed self.old.departures.passed self.old result self.new }
    {
        if let Some(descriptor) = self.arrivals.next_passed() {
            return Ok(descriptor);
        }
        if let Some(descriptor) = self.departures.next_passed() {
            return Ok(descriptor);
        }
        Err(Status::WouldBlock)
    }

    /// Passes the arrivals over that the core has dropped. It reads them in the order in which they came, so those that an event
    /// may yet hand out are the last ones.
    fn pass_dropped(&mut self)
        ensures { self.new ≡ without_dropped self.old }
    {
        let brought = if self.is_kept {
            descriptor_count(self.event.args.as_slice())
        } else {
            0
        };
        let in_core = self.core.waiting()[1];
        let in_mailbox = self.core.transport().tokens_left().len();
        let awaited = brought.saturating_add(in_core).saturating_add(in_mailbox);
        self.arrivals.keep_last(awaited);
    }

    /// Drops the descriptors that nobody takes any more, since the session has failed.
    fn let_go(&mut self)
        ensures { self.new ≡ let_go self.old }
    {
        self.departures.give_up();
        if !self.is_kept {
            self.arrivals.give_up();
        }
    }

    /// Whether the session has an error.
    fn has_failed(&self) -> bool
        ensures { result ≡ has_failed self.now }
    {
        self.core.last_error().is_some()
    }
}
