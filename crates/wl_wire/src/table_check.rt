//! The search for a reason to refuse a list of interfaces as a table.

ghost use Rattle.std.specs.Prelude.{◌≡◌, ◌++◌, ◌∷◌, [], map, ℕ, ◌+◌, ◌<◌, ◌≤◌, false, true, length, nat_le, IsTrue, OnOk, IfErr};
ghost use Rattle.std.specs.List.{list_any};
ghost use Rattle.std.specs.Str.{bytes_eq};
ghost use Rattle.std.specs.String.{string_bytes};
ghost use Rattle.wl_wire.specs.declared.protocol.TableError.TheVariants.{ZeroInName, DuplicateName, UnknownInterface, TooManyNewIds, MissingChild, ArgInterfaces};
ghost use Rattle.wl_wire.specs.Inside.TableCheck.{LackFirst, LacksFirst, is_repeated_behind};
ghost use Rattle.wl_wire.specs.Table.{IsAcceptedTable, IsFirstFaultFrom, IsFirstOfExtension, LacksExtensionFaults, LacksFaults, is_extension_at_fault, is_place_at_fault, fixed_rows, is_taken, place, rank, table_of, holds_zero, interfaces_of, interface_row, interface_rows, is_at_fault, is_message_at_fault, is_name_at_fault, message_row, messages, new_ids, objects};

use crate::argument::ArgumentType;
use crate::interface::{Interface, InterfaceId, MessageDesc};
use crate::protocol::TableError;
use std::alloc::Global;
use std::collections::HashSet;

/// Whether the name has a zero byte.
fn holds_zero(name: &String) -> bool
    ensures { result ≡ holds_zero (string_bytes name.now) }
{
    name.as_bytes().contains(&0)
}

/// How many objects the message creates.
fn new_ids(message: &MessageDesc) -> usize
    ensures { result ≡ new_ids (message_row message.now) }
{
    message
        .signature
        .iter()
        .filter(|kind| matches!(kind, ArgumentType::NewId))
        .count()
}

/// How many object arguments the message has, without new objects.
fn objects(message: &MessageDesc) -> usize
    ensures { result ≡ objects (message_row message.now) }
{
    message
        .signature
        .iter()
        .filter(|kind| matches!(kind, ArgumentType::Object(_)))
        .count()
}

/// Whether one of the ids is outside a table of `count` interfaces.
fn any_unknown(ids: &[InterfaceId], count: usize) -> bool
    ensures { result ≡ list_any (λ id. nat_le count id.0) ids.now }
{
    ids.iter().any(|id| id.0 >= count)
}

/// Whether the message's child interface, or one of its argument interfaces, is outside a table of `count` interfaces.
fn names_unknown(message: &MessageDesc, count: usize) -> bool
    ensures { result ≡ list_any (λ id. nat_le count id.0) (interfaces_of (message_row message.now)) }
{
    match message.child_interface {
        Some(child) if child.0 >= count => true,
        _ => any_unknown(&message.arg_interfaces, count),
    }
}

/// Whether the message has the fault, in a table of `count` interfaces.
fn is_message_at_fault(message: &MessageDesc, fault: TableError, count: usize) -> bool
    ensures { result ≡ is_message_at_fault count (message_row message.now) fault }
{
    match fault {
        TableError::ZeroInName(_) => holds_zero(&message.name),
        TableError::UnknownInterface(_) => names_unknown(message, count),
        TableError::TooManyNewIds(_) => new_ids(message) >= 2,
        TableError::MissingChild(_) => new_ids(message) >= 1 && message.child_interface.is_none(),
        TableError::ArgInterfaces(_) => message.arg_interfaces.len() != objects(message),
        TableError::DuplicateName(_) | TableError::OutOfMemory => false,
    }
}

/// Whether one of the messages of a list has the fault.
fn any_at_fault(messages: &[MessageDesc], fault: TableError, count: usize) -> bool
    ensures { result ≡ list_any (λ m. is_message_at_fault count (message_row m) fault) messages.now }
{
    messages
        .iter()
        .any(|message| is_message_at_fault(message, fault, count))
}

/// Whether one of the requests or of the events has the fault.
#[tactic(auto, using(crate::proofs::Faults::any_message))]
fn any_message_at_fault(
    requests: &[MessageDesc],
    events: &[MessageDesc],
    fault: TableError,
    count: usize,
) -> bool
    ensures { result ≡ list_any (λ m. is_message_at_fault count m fault) (map message_row requests.now ++ map message_row events.now) }
{
    any_at_fault(requests, fault, count) || any_at_fault(events, fault, count)
}

/// Whether an interface's name has the fault. `is_taken` says whether an earlier interface has the same name.
fn is_name_at_fault(name: &String, fault: TableError, is_taken: bool) -> bool
    ensures { result ≡ is_name_at_fault is_taken (string_bytes name.now) fault }
{
    match fault {
        TableError::ZeroInName(_) => holds_zero(name),
        TableError::DuplicateName(_) => is_taken,
        _ => false,
    }
}

/// Whether the interface has the fault, in a table of `count` interfaces.
fn is_at_fault(interface: &Interface, fault: TableError, is_taken: bool, count: usize) -> bool
    ensures { result ≡ is_at_fault is_taken count (interface_row interface.now) fault }
{
    is_name_at_fault(&interface.name, fault, is_taken)
        || any_message_at_fault(&interface.requests, &interface.events, fault, count)
}

/// Each fault of an interface that is at the place `at` of the caller's list, in the order in which they are looked for.
fn faults_at(at: usize) -> [TableError; 6]
    ensures { result ≡ (ZeroInName at ∷ DuplicateName at ∷ UnknownInterface at ∷ TooManyNewIds at ∷ MissingChild at ∷ ArgInterfaces at ∷ []) }
{
    [
        TableError::ZeroInName(at),
        TableError::DuplicateName(at),
        TableError::UnknownInterface(at),
        TableError::TooManyNewIds(at),
        TableError::MissingChild(at),
        TableError::ArgInterfaces(at),
    ]
}

/// Looks for the first fault of the interface, which is at the place `at` of the caller's list, in the order of
/// `TableError`'s variants.
fn check_interface(
    interface: &Interface,
    at: usize,
    is_taken: bool,
    count: usize,
) -> Result<(), TableError>
    ensures faultless { OnOk result (LacksFirst 7 is_taken count (interface_row interface.now)) }
    ensures faulty { IfErr result (λ fault. IsTrue (is_at_fault is_taken count (interface_row interface.now) fault)) }
    ensures place { IfErr result (λ fault. place fault ≡ at) }
    ensures first { IfErr result (λ fault. LacksFirst (rank fault) is_taken count (interface_row interface.now)) }
{
    for fault in faults_at(at) {
        if is_at_fault(interface, fault, is_taken, count) {
            return Err(fault);
        }
    }
    Ok(())
}

/// Whether a fixed interface has the name.
fn is_fixed_name(name: &str) -> bool
    ensures { result ≡ is_taken fixed_rows name.now }
{
    name == "<anonymous>" || name == "wl_display" || name == "wl_registry" || name == "wl_callback"
}

/// Whether an interface of the list has the name.
fn any_named(interfaces: &[Interface], name: &str) -> bool
    ensures { result ≡ list_any (λ i. bytes_eq name.now (string_bytes i.name)) interfaces.now }
{
    interfaces
        .iter()
        .any(|earlier| name == earlier.name.as_str())
}

/// Whether the name of the interface at that place is taken: by a fixed interface, by one of those kept, or by an earlier
/// one of the list.
fn is_repeated(kept: &[Interface], interfaces: &[Interface], at: usize) -> bool
    requires { at < length interfaces.now }
    ensures { result ≡ is_repeated_behind kept.now interfaces.now at }
{
    let name = interfaces[at].name.as_str();
    if is_fixed_name(name) {
        return true;
    }
    any_named(kept, name) || any_named(&interfaces[..at], name)
}

/// The first place, from `from` on, of an interface whose name is taken; the length of the list if there is none.
///
/// It takes no memory, and time that grows with the square of the list's length, and with that length times the number of
/// those kept.
fn search_repeat(kept: &[Interface], interfaces: &[Interface], from: usize) -> usize
    ensures before { (k : ℕ) → from ≤ k → k < result → is_repeated_behind kept.now interfaces.now k ≡ false }
    ensures here { result < length interfaces.now → is_repeated_behind kept.now interfaces.now result ≡ true }
{
    for at in from..interfaces.len() {
        if is_repeated(kept, interfaces, at) {
            return at;
        }
    }
    interfaces.len()
}

/// The first place of an interface whose name is taken; the length of the list if there is none.
///
/// If there is no memory for the names so far, that is no fault of the list: it is searched without.
fn first_repeat(alloc: Global, kept: &[Interface], interfaces: &[Interface]) -> usize
    ensures before { (k : ℕ) → k < result → is_repeated_behind kept.now interfaces.now k ≡ false }
    ensures here { result < length interfaces.now → is_repeated_behind kept.now interfaces.now result ≡ true }
{
    let mut names = HashSet::new(alloc);
    for interface in kept {
        match names.insert(interface.name.as_str()) {
            Ok(_) => {}
            Err(_) => return search_repeat(kept, interfaces, 0),
        }
    }
    for (at, interface) in interfaces.iter().enumerate() {
        let name = interface.name.as_str();
        if is_fixed_name(name) {
            return at;
        }
        match names.insert(name) {
            Ok(true) => {}
            Ok(false) => return at,
            Err(_) => return search_repeat(kept, interfaces, at),
        }
    }
    interfaces.len()
}

/// Looks for the first fault of a list that follows the fixed interfaces and those kept: that of the first interface of
/// the list which has one.
pub(crate) fn check(
    alloc: Global,
    kept: &[Interface],
    interfaces: &[Interface],
) -> Result<(), TableError>
    ensures faultless { OnOk result (LacksFaults (table_of kept.now) (interface_rows interfaces.now)) }
    ensures first { IfErr result (IsFirstFaultFrom (length (table_of kept.now)) (table_of kept.now ++ interface_rows interfaces.now)) }
{
    let repeat = first_repeat(alloc, kept, interfaces);
    let count = 4 + kept.len() + interfaces.len();
    for (at, interface) in interfaces.iter().enumerate() {
        check_interface(interface, at, at == repeat, count)?;
    }
    Ok(())
}

/// Looks for the first fault of a list that is to follow the interfaces of an accepted table.
pub(crate) fn check_behind(
    alloc: Global,
    table: &[Interface],
    interfaces: &[Interface],
) -> Result<(), TableError>
    requires { IsAcceptedTable (interface_rows table.now) }
    ensures faultless { OnOk result (LacksFaults (interface_rows table.now) (interface_rows interfaces.now)) }
    ensures first { IfErr result (IsFirstFaultFrom (length (interface_rows table.now)) (interface_rows table.now ++ interface_rows interfaces.now)) }
{
    check(alloc, &table[4..], interfaces)
}

/// Whether the fault is that no interface of the program has that id.
fn is_place_at_fault(table: &[Interface], id: InterfaceId, fault: TableError) -> bool
    ensures { result ≡ is_place_at_fault (interface_rows table.now) id.0 fault }
{
    match fault {
        TableError::UnknownInterface(_) => id.0 < 4 || table.len() <= id.0,
        _ => false,
    }
}

/// Whether these messages have the fault as more messages of the interface `id` of the table.
fn is_extension_at_fault(
    table: &[Interface],
    id: InterfaceId,
    requests: &[MessageDesc],
    events: &[MessageDesc],
    fault: TableError,
) -> bool
    ensures { result ≡ is_extension_at_fault (interface_rows table.now) id.0 (map message_row requests.now ++ map message_row events.now) fault }
{
    is_place_at_fault(table, id, fault)
        || any_message_at_fault(requests, events, fault, table.len())
}

/// Looks for the first fault of more messages for the interface `id` of the table, in the order of `TableError`'s variants.
pub(crate) fn check_extension(
    table: &[Interface],
    id: InterfaceId,
    requests: &[MessageDesc],
    events: &[MessageDesc],
) -> Result<(), TableError>
    ensures faultless { OnOk result (LacksExtensionFaults (interface_rows table.now) id.0 (map message_row requests.now ++ map message_row events.now)) }
    ensures first { IfErr result (IsFirstOfExtension (interface_rows table.now) id.0 (map message_row requests.now ++ map message_row events.now)) }
{
    for fault in faults_at(0) {
        if is_extension_at_fault(table, id, requests, events, fault) {
            return Err(fault);
        }
    }
    Ok(())
}
