//! A relay between a client and a server, as a host drives it.

ghost use Rattle.std.specs.Prelude.{◌≡◌, IfErr, IfOk};
ghost use Rattle.wl_wire.specs.declared.protocol.TableError.TheVariants as error;
ghost use Rattle.wl_flat.specs.Rows.{fault_of};
ghost use Rattle.wl_flat.specs.Tables.{IsFaultOf};
ghost use Rattle.wl_host_relay.specs.Relays.{Copies, IsNewOver, IsRelayOf, Receives, Sends, TellsLine, mode_of, of_arrival};

use crate::sides::{copy_send, side_of, tokens_of};
use std::alloc::Global;
use wl_flat::flat::Counts;
use wl_flat::outgoing::copy_bytes;
use wl_flat::rows::{Rows, TableFault, interfaces_of};
use wl_flat::status::Status;
use wl_relay::{ArriveError, Mode, Relay as Core};
use wl_wire::{Protocol, TableError};

/// What a relay does with announcements: nothing, if `log_only` is not 0.
pub fn mode_of(log_only: u32) -> Mode
    ensures { result ≡ mode_of log_only }
{
    if log_only == 0 {
        Mode::HandOn
    } else {
        Mode::Log
    }
}

/// The status of an arrival that was not taken.
fn of_arrival(error: ArriveError) -> Status
    ensures { result ≡ of_arrival error }
{
    match error {
        ArriveError::TooManyTokens => Status::TooManyDescriptors,
        ArriveError::OutOfMemory => Status::OutOfMemory,
    }
}

/// A relay between a client and a server (`wl_relay::Relay`), for a host that owns both sockets.
///
/// The relay has the numbers of descriptors alone, which stay open with the host. Those that came from a side go on in their order:
/// each is the host's to close once it was sent, or once the relay is no more.
#[derive(Drop)]
pub struct Relay {
    /// The relay.
    pub core: Core,
}

impl Relay {
    /// A relay of a session that begins, over the table of these rows.
    ///
    /// The fault says what is wrong with the rows, or that there was no memory.
    pub fn new(alloc: Global, rows: &Rows, mode: Mode) -> Result<Relay, TableFault>
        ensures made { IfOk result (IsRelayOf rows.now mode) }
        ensures fault { IfErr result (IsFaultOf rows.now) }
    {
        let interfaces = interfaces_of(alloc, rows)?;
        match Protocol::new(alloc, interfaces) {
            Ok(table) => Relay::over(alloc, table, mode),
            Err(error) => Err(TableFault::from(error)),
        }
    }

    /// A relay of a session that begins, over this table.
    fn over(alloc: Global, table: Protocol, mode: Mode) -> Result<Relay, TableFault>
        ensures made { IfOk result (λ relay. IsNewOver table mode relay) }
        ensures fault { IfErr result (λ fault. fault ≡ fault_of error.OutOfMemory) }
    {
        match Core::new(alloc, table, mode) {
            Ok(core) => Ok(Relay { core }),
            Err(_) => Err(TableFault::from(TableError::OutOfMemory)),
        }
    }

    /// Takes what was received from a side, and logs and hands on all that is whole.
    ///
    /// The status is `InvalidInput` if there is no such side; `TooManyDescriptors` if more than 28 descriptors would wait for the first
    /// byte behind them. Either changes nothing. After `OutOfMemory` the relay is of no more use.
    pub fn received(
        &mut self,
        alloc: Global,
        side: u32,
        bytes: &[u8],
        descriptors: &[i32],
    ) -> Status
        ensures call { Receives side bytes.now descriptors.now self.old.core result self.new.core }
    {
        let Some(side) = side_of(side) else {
            return Status::InvalidInput;
        };
        let Ok(tokens) = tokens_of(alloc, descriptors) else {
            return Status::OutOfMemory;
        };
        match self.core.arrive(side, bytes, &tokens) {
            Ok(()) => Status::Ok,
            Err(error) => of_arrival(error),
        }
    }

    /// Copies what is to be sent to a side next: as many bytes as fit, and all descriptors, which go with the first byte. The counts
    /// say how many these are; both are 0 if no bytes wait. What is told stays to be sent: `sent` takes away what the host sent.
    ///
    /// The status is `InvalidInput` if there is no such side; `OutOfMemory`, which comes only if bytes wait, and loses nothing; and
    /// `TooSmall` if there is room for fewer descriptors than go out. Then `counts` says how many of them there are. Room for 28 is
    /// always enough. But for that, what was lent is written only if the status is `Ok`.
    pub fn to_send(
        &mut self,
        side: u32,
        bytes: &mut [u8],
        descriptors: &mut [i32],
        counts: &mut Counts,
    ) -> Status
        ensures call { Copies side self.old.core bytes.old descriptors.old counts.old
            (record { status = result; bytes = bytes.new; descriptors = descriptors.new; counts = counts.new }) self.new.core }
    {
        let Some(side) = side_of(side) else {
            return Status::InvalidInput;
        };
        let Ok(()) = self.core.make_ready(side) else {
            return Status::OutOfMemory;
        };
        let (waiting, tokens) = self.core.ready(side);
        copy_send(waiting, tokens, bytes, descriptors, counts)
    }

    /// Takes away what the host sent to a side: so many of the bytes that `to_send` told, or all if there are fewer. If the count is
    /// above 0, the descriptors were sent too. The status is `InvalidInput` if there is no such side.
    pub fn sent(&mut self, side: u32, count: u32) -> Status
        ensures call { Sends side count self.old.core result self.new.core }
    {
        let Some(side) = side_of(side) else {
            return Status::InvalidInput;
        };
        self.core.sent(side, count as usize);
        Status::Ok
    }

    /// Takes the first line of the log out, and writes it to the first places of `text`, and how many bytes it has to `size`. It has no
    /// line feed.
    ///
    /// The status is `WouldBlock` if there is no line now, and `TooSmall` if the line has more bytes than there is room for. Then
    /// `size` says how many, and the line stays.
    pub fn next_line(&mut self, text: &mut [u8], size: &mut usize) -> Status
        ensures call { TellsLine self.old.core text.old size.old (record { status = result; text = text.new; size = size.new }) self.new.core }
    {
        let Some(line) = self.core.first_line() else {
            return Status::WouldBlock;
        };
        let line = line.as_bytes();
        *size = line.len();
        if line.len() > text.len() {
            return Status::TooSmall;
        }
        copy_bytes(line, text);
        let _line = self.core.next_line();
        Status::Ok
    }
}
