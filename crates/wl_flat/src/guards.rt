//! A policy, and guards that let through what it allows (`wl_guard`), as a host drives them.

ghost use Rattle.std.specs.Prelude.{◌≡◌, ◌≤◌, IfErr, IfOk, length, map};
ghost use Rattle.wl_guard.specs.Guard.{new_guard};
ghost use Rattle.wl_flat.specs.Flat.{over_front};
ghost use Rattle.wl_flat.specs.Guards.{Allows, Frees, HangsUp, Ignores, IsNewPolicy, IsPolicyFault, IsPolicyOver, Receives, Refuses, RefusesPolicy, Sends, copied_for, descriptor_of, flat_end, of_arrival, of_rule, policy_fault, reason_of, side_number, side_of, token_of};

use crate::flat::Counts;
use crate::outgoing::copy_bytes;
use crate::rows::{Rows, TableFault, interfaces_of};
use crate::status::Status;
use std::alloc::{AllocError, Global};
use wl_guard::{ArriveError, End, Guard as Core, Limits, Policy as Rules, PolicyError, Rule, Side};
use wl_wire::{OutOfMemory, Protocol, TableError, Token};

/// The side of the client.
pub const CLIENT_SIDE: u32 = 0;

/// The side of the compositor.
pub const SERVER_SIDE: u32 = 1;

/// The number of the first interface that a program's rows say.
const FIRST_INTERFACE: usize = 4;

/// Why a connection ended.
pub mod reason {
    /// It has not.
    pub const NONE: u32 = 0;
    /// `Rule::Malformed`: what a side sent is no message.
    pub const MALFORMED: u32 = 1;
    /// `Rule::Unknown`: there is no such object, or its interface has no such message.
    pub const UNKNOWN: u32 = 2;
    /// `Rule::Destroyed`: the client has ended the object.
    pub const DESTROYED: u32 = 3;
    /// `Rule::Length`: the message is not as long as its arguments.
    pub const LENGTH: u32 = 4;
    /// `Rule::Version`: the version of the object does not have the request.
    pub const VERSION: u32 = 5;
    /// `Rule::Policy`: the policy refuses the request.
    pub const POLICY: u32 = 6;
    /// `Rule::Global`: the client was not told last of such a global, or not in this version.
    pub const GLOBAL: u32 = 7;
    /// `Rule::NewId`: a new object may not have this number.
    pub const NEW_ID: u32 = 8;
    /// `Rule::Objects`: a new object has a number beyond the limit.
    pub const OBJECTS: u32 = 9;
    /// `Rule::Globals`: more numbers of globals were announced than the limit.
    pub const GLOBALS: u32 = 10;
    /// `Rule::Descriptors`: there are descriptors that no message takes, or a message waits for one.
    pub const DESCRIPTORS: u32 = 11;
    /// `End::OutOfMemory`: there was no memory.
    pub const OUT_OF_MEMORY: u32 = 12;
    /// `End::HungUp`: the host hung up.
    pub const HUNG_UP: u32 = 13;
}

/// How a connection ended.
#[repr(C)]
#[derive(Clone, Copy, Debug, PartialEq, Eq, Drop)]
pub struct FlatEnd {
    /// Why, one of those of the module [`reason`].
    pub reason: u32,
    /// The side that broke a rule.
    pub side: u32,
    /// The number of the object whose message broke it; 0 if not even the header of a message is there.
    pub object: u32,
    /// The opcode of the message; 0 if not even its header is there.
    pub opcode: u32,
}

/// The side of the number.
fn side_of(side: u32) -> Option<Side>
    ensures { result ≡ side_of side }
{
    match side {
        CLIENT_SIDE => Some(Side::Client),
        SERVER_SIDE => Some(Side::Server),
        _ => None,
    }
}

/// The number of a side.
fn side_number(side: Side) -> u32
    ensures { result ≡ side_number side }
{
    match side {
        Side::Client => CLIENT_SIDE,
        Side::Server => SERVER_SIDE,
    }
}

/// The number of a rule that was broken.
fn reason_of(rule: Rule) -> u32
    ensures { result ≡ reason_of rule }
{
    match rule {
        Rule::Malformed => reason::MALFORMED,
        Rule::Unknown => reason::UNKNOWN,
        Rule::Destroyed => reason::DESTROYED,
        Rule::Length => reason::LENGTH,
        Rule::Version => reason::VERSION,
        Rule::Policy => reason::POLICY,
        Rule::Global => reason::GLOBAL,
        Rule::NewId => reason::NEW_ID,
        Rule::Objects => reason::OBJECTS,
        Rule::Globals => reason::GLOBALS,
        Rule::Descriptors => reason::DESCRIPTORS,
    }
}

/// The end of a connection as a flat struct.
fn flat_end(end: Option<End>) -> FlatEnd
    ensures { result ≡ flat_end end }
{
    let (reason, side, object, opcode) = match end {
        None => (reason::NONE, CLIENT_SIDE, 0, 0),
        Some(End::OutOfMemory) => (reason::OUT_OF_MEMORY, CLIENT_SIDE, 0, 0),
        Some(End::HungUp) => (reason::HUNG_UP, CLIENT_SIDE, 0, 0),
        Some(End::Breach(breach)) => (
            reason_of(breach.rule),
            side_number(breach.side),
            breach.object,
            breach.opcode as u32,
        ),
    };
    FlatEnd {
        reason,
        side,
        object,
        opcode,
    }
}

/// The status of an arrival that was not taken.
fn of_arrival(error: ArriveError) -> Status
    ensures { result ≡ of_arrival error }
{
    match error {
        ArriveError::Ended => Status::Closed,
        ArriveError::NoRoom => Status::WouldBlock,
        ArriveError::OutOfMemory => Status::OutOfMemory,
    }
}

/// The answer of a rule, with the status in place of its error.
fn of_rule(answer: Result<(), PolicyError>) -> Result<(), Status>
    ensures { result ≡ of_rule answer }
{
    match answer {
        Ok(()) => Ok(()),
        Err(PolicyError::UnknownInterface) => Err(Status::UnknownInterface),
        Err(PolicyError::Fixed) => Err(Status::WrongInterface),
        Err(PolicyError::Version) => Err(Status::VersionTooHigh),
        Err(PolicyError::UnknownRequest) => Err(Status::UnknownOpcode),
        Err(PolicyError::ChangesObjects) => Err(Status::WrongKind),
        Err(PolicyError::UnnamedChild(_)) => Err(Status::MissingChild),
        Err(PolicyError::OutOfMemory) => Err(Status::OutOfMemory),
    }
}

/// The fault of a table that no policy takes.
fn policy_fault(error: PolicyError) -> TableFault
    ensures { result ≡ policy_fault error }
{
    match error {
        PolicyError::UnnamedChild(id) => {
            TableFault::from(TableError::MissingChild(id.0.saturating_sub(FIRST_INTERFACE)))
        }
        _ => TableFault::from(TableError::OutOfMemory),
    }
}

/// The tokens of descriptors: a descriptor's own number is its token.
fn tokens_of(alloc: Global, descriptors: &[i32]) -> Result<Vec<Token>, AllocError>
    ensures { IfOk result (λ tokens. tokens.items ≡ map token_of descriptors.now) }
{
    let mut tokens = Vec::with_capacity(alloc, descriptors.len())?;
    for descriptor in descriptors {
        tokens.push(Token(*descriptor))?;
    }
    Ok(tokens)
}

/// Writes the descriptors of the tokens to the first places. There is room for them.
fn copy_tokens(tokens: &[Token], to: &mut [i32])
    requires { length tokens.now ≤ length to.old }
    ensures { to.new ≡ over_front (map descriptor_of tokens.now) to.old }
{
    for (index, token) in tokens.iter().enumerate() {
        to[index] = token.0;
    }
}

/// What a client may do (`wl_guard::Policy`). One policy serves many guards.
///
/// A rule that is refused changes nothing.
#[derive(Drop)]
pub struct Policy {
    /// The policy.
    pub core: Rules,
}

impl Policy {
    /// A policy that allows no global, over the table of these rows.
    ///
    /// The fault says what is wrong with the rows, or that there was no memory.
    pub fn new(alloc: Global, rows: &Rows, limits: Limits) -> Result<Policy, TableFault>
        ensures made { IfOk result (IsNewPolicy rows.now limits) }
        ensures fault { IfErr result (IsPolicyFault rows.now) }
    {
        let interfaces = interfaces_of(alloc, rows)?;
        match Protocol::new(alloc, interfaces) {
            Ok(table) => Policy::over(alloc, table, limits),
            Err(error) => Err(TableFault::from(error)),
        }
    }

    /// A policy that allows no global, over this table.
    fn over(alloc: Global, table: Protocol, limits: Limits) -> Result<Policy, TableFault>
        ensures made { IfOk result (IsPolicyOver table limits) }
        ensures fault { IfErr result (RefusesPolicy table) }
    {
        match Rules::new(alloc, table, limits) {
            Ok(core) => Ok(Policy { core }),
            Err(error) => Err(policy_fault(error)),
        }
    }

    /// The client may be told of globals of the interface of this name, and bind them, up to this version. A later rule for the same
    /// interface takes the place of an earlier one.
    ///
    /// The status is `UnknownInterface` if the table has none of that name; `WrongInterface` if it is one of those that each table has;
    /// and `VersionTooHigh` if the version is 0 or above that of the table.
    pub fn allow(&mut self, name: &[u8], version: u32) -> Result<(), Status>
        ensures call { Allows name.now version self.old result self.new }
    {
        match std::str::from_utf8(name) {
            Ok(name) => of_rule(self.core.allow(name, version)),
            Err(_) => Err(Status::UnknownInterface),
        }
    }

    /// The request of this name ends the connection.
    ///
    /// The statuses are those of `allow` for the name of the interface, and `UnknownOpcode` if that has no such request.
    pub fn refuse(&mut self, name: &[u8], request: &[u8]) -> Result<(), Status>
        ensures call { Refuses name.now request.now self.old result self.new }
    {
        match (std::str::from_utf8(name), std::str::from_utf8(request)) {
            (Ok(name), Ok(request)) => of_rule(self.core.refuse(name, request)),
            (Err(_), _) => Err(Status::UnknownInterface),
            (Ok(_), Err(_)) => Err(Status::UnknownOpcode),
        }
    }

    /// The request of this name is dropped, and its descriptors are given back.
    ///
    /// The statuses are those of `refuse`, and `WrongKind` if the request makes an object or ends one.
    pub fn ignore(&mut self, name: &[u8], request: &[u8]) -> Result<(), Status>
        ensures call { Ignores name.now request.now self.old result self.new }
    {
        match (std::str::from_utf8(name), std::str::from_utf8(request)) {
            (Ok(name), Ok(request)) => of_rule(self.core.ignore(name, request)),
            (Err(_), _) => Err(Status::UnknownInterface),
            (Ok(_), Err(_)) => Err(Status::UnknownOpcode),
        }
    }
}

/// A guard between a client and a compositor (`wl_guard::Guard`), for a host that owns both sockets.
///
/// A descriptor that is put in comes out once: by `sent`, or by `next_released`. It is put in by a call of `received` that succeeds. After
/// any other answer it is still the host's.
#[derive(Drop)]
pub struct Guard {
    /// The guard.
    pub core: Core,
}

impl Guard {
    /// A guard of a connection on which nothing was said.
    pub fn new(alloc: Global) -> Result<Guard, OutOfMemory>
        ensures { IfOk result (λ guard. guard.core ≡ new_guard) }
    {
        Ok(Guard {
            core: Core::new(alloc)?,
        })
    }

    /// Takes what was received from a side, and passes all that is whole, by this policy, which is the same in each call.
    ///
    /// The status is `InvalidInput` if there is no such side; `Closed` once the connection has ended; and `WouldBlock` as long as more
    /// bytes wait for the other side than the policy's limit. It changes nothing.
    pub fn received(
        &mut self,
        alloc: Global,
        policy: &Policy,
        side: u32,
        bytes: &[u8],
        descriptors: &[i32],
    ) -> Status
        ensures call { Receives policy.now side bytes.now descriptors.now self.old result self.new }
    {
        let Some(side) = side_of(side) else {
            return Status::InvalidInput;
        };
        let Ok(tokens) = tokens_of(alloc, descriptors) else {
            return Status::OutOfMemory;
        };
        match self.core.arrive(&policy.core, side, bytes, &tokens) {
            Ok(()) => Status::Ok,
            Err(error) => of_arrival(error),
        }
    }

    /// Copies what is to be sent to a side next: as many bytes as fit, and all descriptors, which go with the first byte. The counts
    /// say how many these are; both are 0 if no bytes wait. Nothing is changed: `sent` takes away what the host sent.
    ///
    /// The status is `InvalidInput` if there is no such side, and `TooSmall` if there is room for fewer descriptors than go out. Then
    /// `counts` says how many of them there are, and the rest of what was lent is as it was. Room for 28 is always enough.
    pub fn to_send(
        &self,
        side: u32,
        bytes: &mut [u8],
        descriptors: &mut [i32],
        counts: &mut Counts,
    ) -> Status
        ensures status { result ≡ (copied_for side self.now bytes.old descriptors.old counts.old).status }
        ensures bytes { bytes.new ≡ (copied_for side self.now bytes.old descriptors.old counts.old).bytes }
        ensures descriptors { descriptors.new ≡ (copied_for side self.now bytes.old descriptors.old counts.old).descriptors }
        ensures counts { counts.new ≡ (copied_for side self.now bytes.old descriptors.old counts.old).counts }
    {
        let Some(side) = side_of(side) else {
            return Status::InvalidInput;
        };
        let (waiting, tokens) = self.core.to_send(side);
        let count = waiting.len().min(bytes.len());
        if count == 0 {
            *counts = Counts::new(0, 0);
            return Status::Ok;
        }
        *counts = Counts::new(count, tokens.len());
        if tokens.len() > descriptors.len() {
            return Status::TooSmall;
        }
        copy_tokens(tokens, descriptors);
        copy_bytes(&waiting[..count], bytes);
        Status::Ok
    }

    /// Takes away what the host sent to a side: so many of the bytes, or all if there are fewer. If that is a byte at least, the
    /// descriptors were sent too. The status is `InvalidInput` if there is no such side.
    pub fn sent(&mut self, side: u32, count: u32) -> Status
        ensures call { Sends side count self.old result self.new }
    {
        let Some(side) = side_of(side) else {
            return Status::InvalidInput;
        };
        self.core.sent(side, count as usize);
        Status::Ok
    }

    /// The next descriptor that is given back for closing: of a message that did not go on, or, once the connection has ended, one that
    /// was not read. The status is `WouldBlock` if there is none now.
    pub fn next_released(&mut self) -> Result<i32, Status>
        ensures call { Frees self.old result self.new }
    {
        match self.core.next_released() {
            Some(token) => Ok(token.0),
            None => Err(Status::WouldBlock),
        }
    }

    /// Ends the connection, as a host does once a side has hung up; one that has ended stays as it is. What is to be sent may still be
    /// sent, and `next_released` gives what was not read.
    pub fn hang_up(&mut self)
        ensures call { HangsUp self.old self.new }
    {
        self.core.hang_up();
    }

    /// How the connection ended, if it has.
    pub fn how_ended(&self) -> FlatEnd
        ensures { result ≡ flat_end self.now.core.end }
    {
        flat_end(self.core.end())
    }
}
