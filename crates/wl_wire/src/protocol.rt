//! The table of the interfaces that a session knows.

ghost use Rattle.std.specs.Prelude.{ℕ, None, Some, ◌≡◌, ◌≢◌, ◌<◌, ◌≤◌, ◌↔◌, ◌⊎◌, ◌++◌, [], if◌then◌else◌, is_ok, IsTrue, IfOk, IfSome, OnErr, length, slice_get, option_map};
ghost use Rattle.std.specs.Option.{option_copied};
ghost use Rattle.wl_wire.specs.Argument.{Matches};
ghost use Rattle.wl_wire.specs.Table.{anonymous_id, anonymous_row, callback_row, display_row, registry_row, AnswersExtension, AnswersGrowth, IsAcceptedTable, IsFirstFault, IsFirstFaultFrom, IsFirstOfExtension, MessageRow, after_extension, extended_row, extended_table, extension_of, grown, interface_row, interface_rows, message_row, name_of, new_messages, table_of};
ghost use Rattle.wl_wire.specs.MessageRows.{event_row, matches, request_row};
ghost use Rattle.wl_wire.specs.declared.protocol.TableError.{TableError as Fault};
ghost use Rattle.wl_wire.specs.declared.protocol.TableError.TheVariants.{OutOfMemory};

use crate::argument::{Argument, ArgumentType};
use crate::core_interfaces::fixed_interfaces;
use crate::interface::{
    ANONYMOUS_INTERFACE, Interface, InterfaceId, MessageDesc, WL_CALLBACK_INTERFACE,
    WL_DISPLAY_INTERFACE, WL_REGISTRY_INTERFACE,
};
use crate::table_check::{check, check_behind, check_extension};
use std::alloc::{AllocError, Global};
use std::fmt;
use std::marker::Model;

/// Why a list of interfaces was refused as a table, or as more of one.
///
/// The number in a variant is the place of the interface in the caller's list, counted from 0; for more messages of one
/// interface (`Protocol::extend_row`) it is 0.
#[derive(Clone, Copy, PartialEq, Eq)]
pub enum TableError {
    /// The name of the interface, or of one of its messages, has a zero byte.
    ZeroInName(usize),
    /// The name of the interface is that of a fixed interface, of one that the table has, or of an earlier one of the list.
    DuplicateName(usize),
    /// One of its messages names a child interface or an argument interface that is outside the table. Or it was to take more
    /// messages, but is itself outside the table, or fixed.
    UnknownInterface(usize),
    /// One of its messages creates more than one object.
    TooManyNewIds(usize),
    /// One of its messages creates an object, but has no child interface.
    MissingChild(usize),
    /// One of its messages does not have as many argument interfaces as object arguments.
    ArgInterfaces(usize),
    /// There was no memory for the table.
    OutOfMemory,
}

impl TableError {
    /// The place of the interface, and what is wrong with it; `None` if there was no memory.
    fn fault(self) -> Option<(usize, &'static str)> {
        match self {
            TableError::ZeroInName(at) => Some((at, "a name holds a zero byte")),
            TableError::DuplicateName(at) => Some((at, "the name is taken")),
            TableError::UnknownInterface(at) => {
                let text =
                    "a message names an interface outside the table, or this one takes no more messages";
                Some((at, text))
            }
            TableError::TooManyNewIds(at) => Some((at, "a message has more than one new id")),
            TableError::MissingChild(at) => {
                Some((at, "a message with a new id has no child interface"))
            }
            TableError::ArgInterfaces(at) => {
                let text = "a message has not one argument interface for each object";
                Some((at, text))
            }
            TableError::OutOfMemory => None,
        }
    }
}

impl fmt::Display for TableError {
    fn fmt<W: fmt::Write>(&self, f: &mut fmt::Formatter<W>) -> fmt::Result {
        match self.fault() {
            Some((at, text)) => write!(f, "interface {at}: {text}"),
            None => f.write_str("out of memory"),
        }
    }
}

/// Writes what `Display` writes.
impl fmt::Debug for TableError {
    fn fmt<W: fmt::Write>(&self, f: &mut fmt::Formatter<W>) -> fmt::Result {
        write!(f, "{self}")
    }
}

impl std::error::Error for TableError {}

impl From<AllocError> for TableError {
    ghost from_gives = { λ _ e. e ≡ OutOfMemory };

    fn from(_e: AllocError) -> TableError {
        TableError::OutOfMemory
    }
}

/// The table of the interfaces that a session knows: four fixed ones, and after them those of the program.
#[derive(Drop)]
pub struct Protocol {
    interfaces: Vec<Interface>,
}

impl fmt::Debug for Protocol {
    fn fmt<W: fmt::Write>(&self, f: &mut fmt::Formatter<W>) -> fmt::Result {
        f.write_str("Protocol { .. }")
    }
}

impl Model for Protocol {
    ghost use Rattle.std.specs.Prelude.{List};
    ghost use Rattle.wl_wire.specs.Table.{InterfaceRow, IsAcceptedTable, interface_rows};

    ghost Value = { List InterfaceRow };

    ghost view = { λ p. interface_rows p.interfaces.items };

    ghost invariant = { λ p. IsAcceptedTable (interface_rows p.interfaces.items) };
}

/// Appends the interfaces to those of an accepted table, all of them or none.
fn append(table: &mut Vec<Interface>, interfaces: Vec<Interface>) -> Result<(), TableError>
    requires { IsAcceptedTable (interface_rows table.old.items) }
    ensures table { interface_rows table.new.items ≡ grown (interface_rows table.old.items) (interface_rows interfaces.items) result }
    ensures answer { AnswersGrowth (interface_rows table.old.items) (interface_rows interfaces.items) result }
{
    let alloc = *table.allocator();
    check_behind(alloc, table, &interfaces)?;
    let mut interfaces = interfaces;
    table.append(&mut interfaces)?;
    Ok(())
}

/// Appends the messages to those of the interface, all of them or none, and raises its version to that one if it is lower.
fn extend_interface(
    interface: &mut Interface,
    version: u32,
    requests: Vec<MessageDesc>,
    events: Vec<MessageDesc>,
) -> Result<(), TableError>
    ensures row { (id : InterfaceId) → interface_row interface.new
        ≡ (if is_ok result then extended_row (extension_of id version requests.items events.items) (interface_row interface.old) else interface_row interface.old) }
    ensures memory { OnErr result (result ≡ Err OutOfMemory) }
{
    let [mut requests, mut events] = [requests, events];
    // Once there is room for the requests, only the events can be refused.
    interface.requests.reserve(requests.len())?;
    interface.events.append(&mut events)?;
    interface.requests.append(&mut requests)?;
    interface.version = interface.version.max(version);
    Ok(())
}

/// Appends the messages to those of an interface of the table, all of them or none.
fn append_messages(
    table: &mut Vec<Interface>,
    id: InterfaceId,
    version: u32,
    requests: Vec<MessageDesc>,
    events: Vec<MessageDesc>,
) -> Result<(), TableError>
    ensures table { interface_rows table.new.items
        ≡ after_extension (interface_rows table.old.items) (extension_of id version requests.items events.items) result }
    ensures answer { AnswersExtension (interface_rows table.old.items) (extension_of id version requests.items events.items) result }
{
    check_extension(table, id, &requests, &events)?;
    match table.get_mut(id.0) {
        Some(interface) => extend_interface(interface, version, requests, events),
        None => Err(TableError::UnknownInterface(0)),
    }
}

impl Protocol {
    /// The table of the fixed interfaces, with these after them. The first of these has the id 4.
    ///
    /// The fixed interfaces stand at the places that their constants name.
    ///
    /// If one of the interfaces has a fault, the error is about the first such interface. If that one has several faults,
    /// the error is the first of them in the order of `TableError`'s variants. `OutOfMemory` comes only if there is no
    /// fault.
    pub fn new(alloc: Global, interfaces: Vec<Interface>) -> Result<Self, TableError>
        ensures table { IfOk result (λ table. table ≡ table_of interfaces.items) }
        ensures accepted { IfOk result IsAcceptedTable }
        ensures anonymous { IfOk result (λ table. slice_get table ANONYMOUS_INTERFACE.0 ≡ Some anonymous_row) }
        ensures display { IfOk result (λ table. slice_get table WL_DISPLAY_INTERFACE.0 ≡ Some display_row) }
        ensures registry { IfOk result (λ table. slice_get table WL_REGISTRY_INTERFACE.0 ≡ Some registry_row) }
        ensures callback { IfOk result (λ table. slice_get table WL_CALLBACK_INTERFACE.0 ≡ Some callback_row) }

        ensures refused { (fault : Fault) → fault ≢ OutOfMemory
            → (result ≡ Err fault) ↔ IsFirstFault (table_of interfaces.items) fault }
        ensures memory { result ≡ Err OutOfMemory → IsAcceptedTable (table_of interfaces.items) }
    {
        check(alloc, &[], &interfaces)?;
        let mut interfaces = interfaces;
        let mut table = fixed_interfaces(alloc)?;
        table.append(&mut interfaces)?;
        Ok(Protocol { interfaces: table })
    }

    /// Appends more interfaces to the table, all of them or none. Those that are there keep their ids, and the ids of the new
    /// ones go on behind the last: a table of six interfaces, the fixed four among them, gives the first new one the id 6.
    ///
    /// The longer table is checked as `new` checks one: no new name may be taken, and a message of a new interface may name
    /// each interface of the longer table. If one of the new interfaces has a fault, the error is about the first of them that
    /// has one, with its faults in the order of `TableError`'s variants, and its place is counted in the list of the new ones.
    /// `OutOfMemory` comes only if there is no fault. After an error the table is as it was.
    pub fn extend(&mut self, interfaces: Vec<Interface>) -> Result<(), TableError>
        ensures table { self.new ≡ grown self.old (interface_rows interfaces.items) result }
        ensures answer { AnswersGrowth self.old (interface_rows interfaces.items) result }
        ensures accepted { IsAcceptedTable self.new }
        ensures was_accepted { IsAcceptedTable self.old }

        ensures refused { (fault : Fault) → fault ≢ OutOfMemory
            → (result ≡ Err fault) ↔ IsFirstFaultFrom (length self.old) (self.old ++ interface_rows interfaces.items) fault }
        ensures exact { OnErr result (¬ (result ≡ Err OutOfMemory)
            → ¬ (IsAcceptedTable (self.old ++ interface_rows interfaces.items))) }
        ensures memory { result ≡ Err OutOfMemory → IsAcceptedTable (self.old ++ interface_rows interfaces.items) }
    {
        append(&mut self.interfaces, interfaces)
    }

    /// Appends more requests and events to those of an interface that the table has, all of them or none, and raises its
    /// version to `version` if it is lower. What is there keeps its opcodes: the first new request has the opcode after the
    /// last one that was there. The other interfaces stay as they are.
    ///
    /// A message may name each interface of the table. The error is the first fault that one of the messages has, in the
    /// order of `TableError`'s variants, and its place is 0. `UnknownInterface` also tells that no interface of the program
    /// has that id: it is outside the table, or that of a fixed one. `OutOfMemory` comes only if there is no fault. After an
    /// error the table is as it was.
    pub fn extend_row(
        &mut self,
        id: InterfaceId,
        version: u32,
        requests: Vec<MessageDesc>,
        events: Vec<MessageDesc>,
    ) -> Result<(), TableError>
        ensures table { self.new ≡ after_extension self.old (extension_of id version requests.items events.items) result }
        ensures answer { AnswersExtension self.old (extension_of id version requests.items events.items) result }
        ensures accepted { IsAcceptedTable self.new }
        ensures was_accepted { IsAcceptedTable self.old }

        ensures count { length self.new ≡ length self.old }
        ensures names { (n : ℕ) → name_of self.new n ≡ name_of self.old n }
        ensures requests { (i : InterfaceId) (opcode : ℕ) (row : MessageRow) →
            request_row self.old i opcode ≡ Some row → request_row self.new i opcode ≡ Some row }
        ensures events { (i : InterfaceId) (opcode : ℕ) (row : MessageRow) →
            event_row self.old i opcode ≡ Some row → event_row self.new i opcode ≡ Some row }

        ensures refused { (fault : Fault) → fault ≢ OutOfMemory → (result ≡ Err fault)
            ↔ IsFirstOfExtension self.old id.0 (new_messages (extension_of id version requests.items events.items)) fault }
        ensures exact { OnErr result (¬ (result ≡ Err OutOfMemory) → 4 ≤ id.0 → id.0 < length self.old
            → ¬ (IsAcceptedTable (extended_table self.old (extension_of id version requests.items events.items)))) }
        ensures memory { result ≡ Err OutOfMemory
            → IsAcceptedTable (extended_table self.old (extension_of id version requests.items events.items)) }
    {
        append_messages(&mut self.interfaces, id, version, requests, events)
    }

    /// The interface with that id; `None` if the id is outside the table.
    pub fn get(&self, id: InterfaceId) -> Option<&Interface>
        ensures interface { option_map interface_row (option_copied result) ≡ slice_get self.now id.0 }
        ensures accepted { IsAcceptedTable self.now }
    {
        self.interfaces.get(id.0)
    }

    /// How many interfaces the table has, with the fixed four. Each id below that number is in the table.
    pub fn len(&self) -> usize
        ensures count { result ≡ length self.now }
        ensures accepted { IsAcceptedTable self.now }
    {
        self.interfaces.len()
    }

    /// Whether the table has no interface. It always has the fixed four.
    pub fn is_empty(&self) -> bool
        ensures { IsTrue result ↔ (self.now ≡ []) }
    {
        self.interfaces.is_empty()
    }

    /// The id of the interface with that name; `None` if the table has none.
    pub fn find(&self, name: &str) -> Option<InterfaceId>
        ensures found { IfSome result (λ id. (id.0 < length self.now) × (name_of self.now id.0 ≡ name.now)) }
        ensures none { result ≡ None → (n : ℕ) → n < length self.now → name_of self.now n ≢ name.now }
        ensures accepted { IsAcceptedTable self.now }
    {
        self.find_bytes(name.as_bytes())
    }

    /// Does the same as `find`, for a name as it stands in a message.
    pub fn find_bytes(&self, name: &[u8]) -> Option<InterfaceId>
        ensures found { IfSome result (λ id. (id.0 < length self.now) × (name_of self.now id.0 ≡ name.now)) }
        ensures none { result ≡ None → (n : ℕ) → n < length self.now → name_of self.now n ≢ name.now }
        ensures accepted { IsAcceptedTable self.now }
    {
        for place in 0..self.interfaces.len() {
            if self.name(InterfaceId(place)).as_bytes() == name {
                return Some(InterfaceId(place));
            }
        }
        None
    }

    /// What the table has of the request with that opcode, of the interface with that id; `None` if it has neither.
    pub fn request(&self, id: InterfaceId, opcode: u16) -> Option<&MessageDesc>
        ensures request { option_map message_row (option_copied result) ≡ request_row self.now id opcode }
        ensures accepted { IsAcceptedTable self.now }
    {
        self.get(id)?.requests.get(usize::from(opcode))
    }

    /// What the table has of the event with that opcode, of the interface with that id; `None` if it has neither.
    pub fn event(&self, id: InterfaceId, opcode: u16) -> Option<&MessageDesc>
        ensures event { option_map message_row (option_copied result) ≡ event_row self.now id opcode }
        ensures accepted { IsAcceptedTable self.now }
    {
        self.get(id)?.events.get(usize::from(opcode))
    }

    /// The name of the interface with that id; `<unknown>` if the id is outside the table.
    pub fn name(&self, id: InterfaceId) -> &str
        ensures name { result.now ≡ name_of self.now id.0 }
        ensures accepted { IsAcceptedTable self.now }
    {
        match self.get(id) {
            Some(interface) => interface.name.as_str(),
            None => "<unknown>",
        }
    }
}

/// Whether the two ids name the same interface.
pub fn same_interface(a: InterfaceId, b: InterfaceId) -> bool
    ensures { IsTrue result ↔ (a ≡ b) }
{
    a == b
}

/// Whether the two ids name the same interface, or the first one names the anonymous interface.
pub fn same_interface_or_anonymous(a: InterfaceId, b: InterfaceId) -> bool
    ensures { IsTrue result ↔ ((a ≡ b) ⊎ (a ≡ anonymous_id)) }
{
    same_interface(a, b) || same_interface(a, ANONYMOUS_INTERFACE)
}

/// Whether there are as many arguments as the signature has types, and each argument is of its type. This does not check
/// whether the signature allows null.
pub fn check_for_signature<Id, Fd>(signature: &[ArgumentType], args: &[Argument<Id, Fd>]) -> bool
    ensures fits { IsTrue result ↔ Matches signature.now args.now }
    ensures word { result ≡ matches signature.now args.now }
{
    if signature.len() != args.len() {
        return false;
    }
    for (kind, arg) in signature.iter().zip(args) {
        if !kind.same_type(arg.get_type()) {
            return false;
        }
    }
    true
}
