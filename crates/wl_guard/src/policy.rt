//! What a client may do.

ghost use Rattle.std.specs.Prelude.{◌≡◌, IfErr, IfOk, MatchOption, OnErr, OnOk, Some, slice_get};
ghost use Rattle.std.specs.List.{list_any};
ghost use Rattle.std.specs.Option.{option_copied};
ghost use Rattle.wl_wire.specs.Table.{interface_row, message_row};
ghost use Rattle.wl_guard.specs.Policy.{Allows, Ignores, IsEntry, IsNamed, LetsNoneChoose, NameNone, Refuses, RefusesAllow, RefusesIgnore, RefusesName, RefusesRefuse, RefusesRequest, RefusesTable, allowed_version, is_chosen, lets_choose, lets_choose_at, lists, name_in, new_policy};
ghost use Rattle.wl_guard.specs.declared.policy.PolicyError.TheVariants.{OutOfMemory as NoMemory};

use std::alloc::{AllocError, AllocFailed, Global};
use std::fmt;
use std::marker::Model;
use thiserror::Error;
use wl_wire::{Interface, InterfaceId, MessageDesc, Protocol};

/// How much a connection may take.
#[derive(Clone, Copy, Debug, PartialEq, Eq)]
pub struct Limits {
    /// Each side may give so many numbers to objects: the client those below this one, and the server the first of its own.
    pub objects: u32,
    /// So many numbers of globals are remembered, announced or not.
    pub globals: usize,
    /// While more bytes wait for a side, nothing is taken from the other.
    pub waiting: usize,
}

/// A request of an interface.
#[derive(Clone, Copy, Debug, PartialEq, Eq)]
pub struct Entry {
    /// The interface.
    pub interface: InterfaceId,
    /// The request.
    pub opcode: u16,
}

/// Why a policy was not made, or a rule of it not taken.
#[derive(Clone, Copy, Debug, PartialEq, Eq, Error)]
pub enum PolicyError {
    /// A request of this interface of the table makes an object of no named interface. So the client would choose it.
    #[error("a request makes an object of no named interface")]
    UnnamedChild(InterfaceId),
    /// The table has no interface of this name.
    #[error("the table has no such interface")]
    UnknownInterface,
    /// The interface is `wl_display`, `wl_registry` or `wl_callback`, about which there are no rules.
    #[error("there are no rules about this interface")]
    Fixed,
    /// The version is 0, or above that of the table.
    #[error("the table does not have this version")]
    Version,
    /// The interface has no request of this name.
    #[error("the interface has no such request")]
    UnknownRequest,
    /// The request makes an object or ends one. So it cannot be ignored.
    #[error("a request that makes or ends an object cannot be ignored")]
    ChangesObjects,
    /// There was no memory.
    #[error("out of memory")]
    OutOfMemory,
}

impl From<AllocError> for PolicyError {
    ghost from_gives = { λ _ e. e ≡ NoMemory };

    fn from(_e: AllocError) -> PolicyError {
        PolicyError::OutOfMemory
    }
}

impl<T: Drop> From<AllocFailed<T>> for PolicyError {
    ghost from_gives = { λ _ e. e ≡ NoMemory };

    fn from(_e: AllocFailed<T>) -> PolicyError {
        PolicyError::OutOfMemory
    }
}

/// What a client may do: which globals it is told of and may bind, up to which version; which requests end its connection, and which
/// are dropped; and how much it may take. It has the table of interfaces under which both sides are read.
///
/// One policy serves many guards.
#[derive(Drop)]
pub struct Policy {
    table: Protocol,
    versions: Vec<u32>,
    refused: Vec<Entry>,
    ignored: Vec<Entry>,
    limits: Limits,
}

impl Model for Policy {
    ghost use Rattle.std.specs.Prelude.{◌≡◌, length};
    ghost use Rattle.wl_guard.specs.Policy.{PolicyState};

    ghost Value = { PolicyState };

    ghost view = { λ p. record { table = p.table; versions = p.versions.items; refused = p.refused.items; ignored = p.ignored.items; limits = p.limits } };

    ghost invariant = { λ p. length p.versions.items ≡ length p.table };
}

impl fmt::Debug for Policy {
    fn fmt<W: fmt::Write>(&self, f: &mut fmt::Formatter<W>) -> fmt::Result {
        f.write_str("Policy { .. }")
    }
}

/// Whether the message makes an object of no named interface.
fn is_chosen(message: &MessageDesc) -> bool
    ensures { result ≡ is_chosen (message_row message.now).child_interface }
{
    match message.child_interface {
        Some(child) => child.0 == 0,
        None => false,
    }
}

/// Whether one of the messages makes an object of no named interface.
fn any_chosen(messages: &[MessageDesc]) -> bool
    ensures { result ≡ list_any (λ m. is_chosen (message_row m).child_interface) messages.now }
{
    messages.iter().any(|message| is_chosen(message))
}

/// Whether a request of the interface makes an object of no named interface.
fn lets_choose(interface: &Interface) -> bool
    ensures { result ≡ lets_choose (interface_row interface.now) }
{
    any_chosen(interface.requests.as_slice())
}

/// Whether a request of the interface at this place makes one.
fn lets_choose_at(table: &Protocol, place: usize) -> bool
    ensures { result ≡ lets_choose_at table.now place }
{
    match table.get(InterfaceId(place)) {
        Some(interface) => lets_choose(interface),
        None => false,
    }
}

/// Looks for the first interface of which a request makes an object of no named interface.
fn check_table(table: &Protocol) -> Result<(), PolicyError>
    ensures none { OnOk result (LetsNoneChoose table.now) }
    ensures first { IfErr result (RefusesTable table.now) }
{
    for place in 0..table.len() {
        if lets_choose_at(table, place) {
            return Err(PolicyError::UnnamedChild(InterfaceId(place)));
        }
    }
    Ok(())
}

/// The name of the request of this opcode; `None` if there is none.
fn request_name(interface: &Interface, opcode: usize) -> Option<&str>
    ensures { option_copied result ≡ name_in (slice_get (interface_row interface.now).requests opcode) }
{
    let row = interface.requests.get(opcode)?;
    Some(row.name.as_str())
}

/// The opcode of the request of this name; `None` if the interface has none, or at an opcode that does not fit into a message.
fn request_named(interface: &Interface, request: &str) -> Option<u16>
    ensures { MatchOption result (NameNone (interface_row interface.now).requests request.now)
        (λ opcode. name_in (slice_get (interface_row interface.now).requests opcode) ≡ Some request.now) }
{
    for opcode in 0..interface.requests.len() {
        match request_name(interface, opcode) {
            Some(name) if name == request => return u16::try_from(opcode).ok(),
            _ => {}
        }
    }
    None
}

/// Whether the request is one of these.
fn is_listed(entries: &[Entry], interface: InterfaceId, opcode: u16) -> bool
    ensures { result ≡ lists entries.now interface opcode }
{
    entries
        .iter()
        .any(|e| e.interface.0 == interface.0 && e.opcode == opcode)
}

impl Policy {
    /// A policy that allows no global, over this table.
    ///
    /// The error is `UnnamedChild` if a request of the table makes an object of no named interface, with the first interface that has
    /// one, and else `OutOfMemory`.
    pub fn new(alloc: Global, table: Protocol, limits: Limits) -> Result<Self, PolicyError>
        ensures made { IfOk result (λ policy. policy ≡ new_policy table limits) }
        ensures accepted { OnOk result (LetsNoneChoose table) }
        ensures refused { IfErr result (RefusesTable table) }
    {
        check_table(&table)?;
        let versions = vec![in alloc; 0; table.len()]?;
        Ok(Policy {
            table,
            versions,
            refused: Vec::new(alloc),
            ignored: Vec::new(alloc),
            limits,
        })
    }

    /// The place of the interface of this name. The error is `UnknownInterface` if the table has none, and `Fixed` if it is one of the
    /// four that each table has.
    fn named(&self, name: &str) -> Result<InterfaceId, PolicyError>
        ensures found { IfOk result (IsNamed self.now.table name.now) }
        ensures refused { IfErr result (RefusesName self.now.table name.now) }
    {
        let Some(id) = self.table.find(name) else {
            return Err(PolicyError::UnknownInterface);
        };
        if id.0 < 4 {
            return Err(PolicyError::Fixed);
        }
        Ok(id)
    }

    /// The request of this name, of the interface of that name. The error is `UnknownRequest` if it has none, and else that of `named`.
    fn entry(&self, name: &str, request: &str) -> Result<Entry, PolicyError>
        ensures found { IfOk result (IsEntry self.now.table name.now request.now) }
        ensures refused { IfErr result (RefusesRequest self.now.table name.now request.now) }
    {
        let id = self.named(name)?;
        let Some(interface) = self.table.get(id) else {
            return Err(PolicyError::UnknownRequest);
        };
        match request_named(interface, request) {
            Some(opcode) => Ok(Entry {
                interface: id,
                opcode,
            }),
            None => Err(PolicyError::UnknownRequest),
        }
    }

    /// The client may be told of globals of the interface of this name, and bind them, up to this version. A later rule for the same
    /// interface takes the place of an earlier one.
    ///
    /// The error is `UnknownInterface` if the table has none of that name; `Fixed` if it is one of the four that each table has; and
    /// `Version` if the version is 0 or above that of the table. It changes nothing.
    pub fn allow(&mut self, name: &str, version: u32) -> Result<(), PolicyError>
        ensures allowed { OnOk result (Allows self.old name.now version self.new) }
        ensures refused { IfErr result (RefusesAllow self.old name.now version) }
        ensures unchanged { OnErr result (self.new ≡ self.old) }
    {
        let id = self.named(name)?;
        match self.table.get(id) {
            Some(interface) if 1 <= version && version <= interface.version => {
                self.versions[id.0] = version;
                Ok(())
            }
            _ => Err(PolicyError::Version),
        }
    }

    /// The request of this name ends the connection.
    ///
    /// The error is that of the name of the interface, as `allow` says it; `UnknownRequest` if that has no such request; and else
    /// `OutOfMemory`. It changes nothing.
    pub fn refuse(&mut self, name: &str, request: &str) -> Result<(), PolicyError>
        ensures taken { OnOk result (Refuses self.old name.now request.now self.new) }
        ensures refused { IfErr result (RefusesRefuse self.old name.now request.now) }
        ensures unchanged { OnErr result (self.new ≡ self.old) }
    {
        let entry = self.entry(name, request)?;
        self.refused.push(entry)?;
        Ok(())
    }

    /// The request of this name is dropped, and its descriptors are given back.
    ///
    /// The errors are those of `refuse`, and `ChangesObjects` before `OutOfMemory` if the request makes an object or ends one. It
    /// changes nothing.
    pub fn ignore(&mut self, name: &str, request: &str) -> Result<(), PolicyError>
        ensures taken { OnOk result (Ignores self.old name.now request.now self.new) }
        ensures refused { IfErr result (RefusesIgnore self.old name.now request.now) }
        ensures unchanged { OnErr result (self.new ≡ self.old) }
    {
        let entry = self.entry(name, request)?;
        match self.table.request(entry.interface, entry.opcode) {
            Some(row) if !row.creates_object() && !row.is_destructor => {
                self.ignored.push(entry)?;
                Ok(())
            }
            _ => Err(PolicyError::ChangesObjects),
        }
    }

    /// The table of interfaces.
    pub fn table(&self) -> &Protocol
        ensures { result.now ≡ self.now.table }
    {
        &self.table
    }

    /// How much a connection may take.
    pub fn limits(&self) -> Limits
        ensures { result ≡ self.now.limits }
    {
        self.limits
    }

    /// Up to which version a global of the interface may be told of and bound; 0 is not at all.
    pub fn allowed_version(&self, interface: InterfaceId) -> u32
        ensures { result ≡ allowed_version self.now interface }
    {
        match self.versions.get(interface.0) {
            Some(version) => *version,
            None => 0,
        }
    }

    /// Whether the request ends the connection.
    pub fn refuses(&self, interface: InterfaceId, opcode: u16) -> bool
        ensures { result ≡ lists self.now.refused interface opcode }
    {
        is_listed(self.refused.as_slice(), interface, opcode)
    }

    /// Whether the request is dropped.
    pub fn ignores(&self, interface: InterfaceId, opcode: u16) -> bool
        ensures { result ≡ lists self.now.ignored interface opcode }
    {
        is_listed(self.ignored.as_slice(), interface, opcode)
    }
}
