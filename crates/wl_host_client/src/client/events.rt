//! Events.

ghost use Rattle.std.specs.Prelude.{◌≡◌, ℤ, List, [], None, Some, if◌then◌else◌};
ghost use Rattle.wl_client.specs.Requests.{session_content};
ghost use Rattle.wl_flat.specs.Arguments.{all_bytes, flat_arguments, queue_after_all};
ghost use Rattle.wl_host_client.specs.Client.{ConservesClient, EndsEvent, EndsEventWith, HandsNext, ReadsUnlessKept, data_or_zero, fits, flat_event, kept_of, null_in};
ghost use Rattle.wl_host_client.specs.ClientTellings.{ReadsTold};
ghost use Rattle.wl_flat.specs.Flat.{flat_proxy, over_front};

use super::flattening::{flat_event, forbidden_null_of, made_and_ends};
use super::notes::take_notes;
use super::refusals::refuse;
use super::{Client, Core};
use wl_client::ObjectId;
use wl_flat::arguments::{Needs, write_arguments};
use wl_flat::descriptors::DescriptorQueue;
use wl_flat::flat::{FlatArgument, FlatEvent};
use wl_flat::nulls::is_refused;
use wl_flat::status::Status;
use wl_wire::{Message, OutOfMemory, Token};

/// Reads the next event, unless one is kept. Then it is kept.
fn read(core: &mut Core, event: &mut Message<ObjectId, Token>, is_kept: &mut bool) -> Status
    ensures { ReadsUnlessKept (kept_of is_kept.old event.old) core.old result (kept_of is_kept.new event.new) core.new }
{
    if *is_kept {
        return Status::Ok;
    }
    match core.next_event_into(event) {
        Ok(()) => {
            *is_kept = true;
            Status::Ok
        }
        Err(error) => Status::from(error),
    }
}

/// Writes the event, which is open and has this null, to the lent memory, and takes its descriptors out. If there is no room for its
/// arguments, it writes only `out`, and returns false.
fn hand_out(
    core: &Core,
    event: &Message<ObjectId, Token>,
    forbidden_null: u32,
    arrivals: &mut DescriptorQueue,
    out: &mut FlatEvent,
    arguments: &mut [FlatArgument],
    bytes: &mut [u8],
) -> bool
    requires null { forbidden_null ≡ null_in core.now (session_content event.now) }
    ensures fits { result ≡ fits event.now.args.items arguments.old bytes.old }
    ensures out { out.new ≡ flat_event core.now (session_content event.now) }
    ensures arguments { arguments.new ≡ (if result then
        over_front (flat_arguments flat_proxy (data_or_zero core.now) arrivals.old 0 event.now.args.items) arguments.old else arguments.old) }
    ensures bytes { bytes.new ≡ (if result then over_front (all_bytes event.now.args.items) bytes.old else bytes.old) }
    ensures arrivals { arrivals.new ≡ (if result then queue_after_all arrivals.old event.now.args.items else arrivals.old) }
{
    let args = event.args.as_slice();
    let needs = Needs::of(args);
    *out = flat_event(core, event, forbidden_null, needs);
    if !needs.fit(arguments, bytes) {
        return false;
    }
    write_arguments(core, args, arrivals, arguments, bytes);
    true
}

impl Client {
    /// Hands out the next event: what it is in `out`, its arguments in `arguments`, and their strings and arrays in `bytes`, each
    /// at a multiple of eight, and a string with a zero behind it.
    /// It is *open* until `finish_event` or `finish_event_with` ends it.
    ///
    /// The descriptors among the arguments are the host's from then on. The data of each object stand beside it; 0 if it has
    /// none. The statuses are, in this order:
    ///
    /// - `TooSmall` if there are more arguments or bytes than the memory that is lent has room for. `out` says how many, and
    ///   the event is kept for the next call;
    /// - `Failed` if the session has an error;
    /// - `Open` if an event is open;
    /// - `Failed` if the session gets an error now: the connection ended, the server sent an error, or it broke the protocol;
    /// - `WouldBlock` if what was received has no further event;
    /// - `OutOfMemory` if there is no memory.
    ///
    /// If messages are told (`tell_messages`), the first is `OutOfMemory` if there was no memory to tell what was read and written
    /// before. Then nothing is read, and the next call goes on.
    ///
    /// If nulls are refused (`refuse_nulls`), an event with an argument that is null where the table allows no null is not handed
    /// out, and the status is `Failed`: the session ends. Unless it has one, its error is a protocol error of code 0 and no object,
    /// with a text that names the event and the place; `OutOfMemory` if there is no memory for that. The event is closed, as by
    /// `fail`, and its descriptors come out by `next_dropped`.
    ///
    /// After any but `TooSmall` and `Ok` what was lent is as it was.
    pub fn next_event(
        &mut self,
        out: &mut FlatEvent,
        arguments: &mut [FlatArgument],
        bytes: &mut [u8],
    ) -> Status
        ensures { (came_out : List ℤ)
            × ReadsTold self.old (record { out = out.old; arguments = arguments.old; bytes = bytes.old }) result came_out
            self.new (record { out = out.new; arguments = arguments.new; bytes = bytes.new })
            × ConservesClient self.old [] came_out self.new }
    {
        match self.catch_up() {
            Ok(()) => self.hand_next(out, arguments, bytes),
            Err(OutOfMemory) => Status::OutOfMemory,
        }
    }

    /// Hands out the next event. The statuses are those of `next_event`.
    fn hand_next(
        &mut self,
        out: &mut FlatEvent,
        arguments: &mut [FlatArgument],
        bytes: &mut [u8],
    ) -> Status
        ensures { (came_out : List ℤ)
            × HandsNext self.old (record { out = out.old; arguments = arguments.old; bytes = bytes.old }) result came_out
            self.new (record { out = out.new; arguments = arguments.new; bytes = bytes.new })
            × ConservesClient self.old [] came_out self.new }
    {
        match read(&mut self.core, &mut self.event, &mut self.is_kept) {
            Status::Ok => {}
            status => return status,
        }
        let place = forbidden_null_of(&self.core, &self.event);
        if is_refused(self.refuses_nulls, place) {
            let alloc = *self.notes.allocator();
            return refuse(alloc, &mut self.core, &self.event, place, &mut self.is_kept);
        }
        let handed_out = hand_out(
            &self.core,
            &self.event,
            place,
            &mut self.arrivals,
            out,
            arguments,
            bytes,
        );
        if !handed_out {
            return Status::TooSmall;
        }
        self.is_kept = false;
        Status::Ok
    }

    /// Ends the event that was handed out, which made no object.
    ///
    /// If the event ends its sender, `next_note` tells of the sender, unless it has no data or the client had destroyed it. The
    /// statuses are:
    ///
    /// - `NotOpen` if no event was handed out that is not finished;
    /// - `MissingData` if the event made an object;
    /// - `OutOfMemory` if there is no memory for the note. That is looked at before the event is.
    ///
    /// Then the event stays open.
    pub fn finish_event(&mut self) -> Status
        ensures call { EndsEvent self.old None result self.new }
        ensures descriptors { ConservesClient self.old [] [] self.new }
    {
        self.finish(None)
    }

    /// Ends the event that was handed out, and gives the object that it made these data. Returns whether the object is there and
    /// the client has not destroyed it. If it has, `object_data` answers the data until the object leaves its number, and no note
    /// tells of them.
    ///
    /// The statuses are those of `finish_event`, with `UnexpectedData` in place of `MissingData`: the event made no object.
    pub fn finish_event_with(&mut self, user_data: u64) -> Result<bool, Status>
        ensures call { EndsEventWith self.old user_data result self.new }
        ensures descriptors { ConservesClient self.old [] [] self.new }
    {
        let (created, _) = made_and_ends(&self.core);
        match self.finish(Some(user_data)) {
            Status::Ok => Ok(self.core.info(&created).is_ok()),
            status => Err(status),
        }
    }

    /// Ends the event that was handed out.
    fn finish(&mut self, user_data: Option<u64>) -> Status
        ensures call { EndsEvent self.old user_data result self.new }
        ensures descriptors { ConservesClient self.old [] [] self.new }
    {
        if self.is_kept {
            return Status::NotOpen;
        }
        if self.notes.reserve(1).is_err() {
            return Status::OutOfMemory;
        }
        match self.core.finish_event(user_data) {
            Ok(()) => {
                take_notes(&mut self.core, &mut self.notes);
                Status::Ok
            }
            Err(refused) => Status::from(refused.error),
        }
    }
}
