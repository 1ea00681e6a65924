//! A client's session as a whole: its begin and its end, its table, its limits, its error.

ghost use Rattle.std.specs.Prelude.{IsSome, None, Ok, Some, [], ◌↔◌, ◌≡◌, ◌≢◌};
ghost use Rattle.wl_c.specs.Calls.{Added, Did, Extended, FoundFlag, Told, fault_code};
ghost use Rattle.wl_host_client.specs.Client.{ConservesClient, HostedClient, SetsLimit, limit_of, mailbox_of, passing_over, with_mailbox};
ghost use Rattle.wl_host_client.specs.Faults.{flat_error, text_of_error};
ghost use Rattle.wl_flat.specs.Lent.{has_room, status_for, written};
ghost use Rattle.wl_flat.specs.Nulls.{sets};
ghost use Rattle.wl_host_client.specs.Tables.{AddsToClient, ExtendsClient, IsNewClient};
ghost use Rattle.wl_flat.specs.Tables.{IsFaultOf};
ghost use Rattle.wl_flat.specs.declared.status.Status.TheVariants as status;

use super::place::ClientPlace;
use crate::answer::{write_added, write_extended, write_fault, write_flag};
use crate::boxed::boxed;
use std::alloc::Global;
use wl_host::{
    ArgumentRow, Client, ExtensionFault, FlatError, InterfaceRow, MessageRow, Rows, Status,
    TableFault,
};

/// Begins a session over this table of interfaces, in an empty place. A place that holds a session keeps it, and
/// the status is `NB_IN_USE`. Where the table is refused, `fault` says which interface and why, and the place stays empty.
#[unsafe(no_mangle)]
pub extern "C" fn nb_client_connect(
    alloc: Global,
    place: &mut ClientPlace,
    text: &[u8],
    interfaces: &[InterfaceRow],
    messages: &[MessageRow],
    arguments: &[ArgumentRow],
    fault: &mut TableFault,
) -> u32
    ensures in_use { IsSome place.old.kept.held → (result ≡ 2) × (place.new.kept.held ≡ place.old.kept.held) × (fault.new ≡ fault.old) }
    ensures begun { place.old.kept.held ≡ None → (result ≡ 0) ↔ IsSome place.new.kept.held }
    ensures made { (s : HostedClient) → place.old.kept.held ≡ None → place.new.kept.held ≡ Some s → IsNewClient (record { text = text.entry; interfaces = interfaces.entry; messages = messages.entry; arguments = arguments.entry }) s }
    ensures refused { place.old.kept.held ≡ None → place.new.kept.held ≡ None → (result ≡ fault_code fault.new) × IsFaultOf (record { text = text.entry; interfaces = interfaces.entry; messages = messages.entry; arguments = arguments.entry }) fault.new }
    ensures unfaulted { result ≡ 0 → fault.new ≡ fault.old }
{
    if let Some(session) = place.take(alloc) {
        place.put(session);
        return Status::InUse.code();
    }
    let rows = Rows {
        text,
        interfaces,
        messages,
        arguments,
    };
    match boxed(alloc, Client::connect(alloc, &rows)) {
        Ok(session) => {
            place.put(session);
            Status::Ok.code()
        }
        Err(refused) => write_fault(refused, fault),
    }
}

/// Ends the session, and frees its memory. The place is empty then, and may be begun again.
#[unsafe(no_mangle)]
pub extern "C" fn nb_client_end(alloc: Global, place: &mut ClientPlace) -> u32
    ensures none { place.old.kept.held ≡ None → result ≡ 1 }
    ensures some { IsSome place.old.kept.held → result ≡ 0 }
    ensures ended { place.new.kept.held ≡ None }
{
    match place.take(alloc) {
        Some(_) => Status::Ok.code(),
        None => Status::NoSession.code(),
    }
}

/// Adds interfaces to the table. Where they are refused, `fault` says which and why, and the table is as before.
#[unsafe(no_mangle)]
pub extern "C" fn nb_client_add_interfaces(
    alloc: Global,
    place: &mut ClientPlace,
    text: &[u8],
    interfaces: &[InterfaceRow],
    messages: &[MessageRow],
    arguments: &[ArgumentRow],
    fault: &mut TableFault,
) -> u32
    ensures none { place.old.kept.held ≡ None → (result ≡ 1) × (place.new.kept.held ≡ None) × (fault.new ≡ fault.old) }
    ensures stays { IsSome place.old.kept.held → IsSome place.new.kept.held }
    ensures unfaulted { result ≡ 0 → fault.new ≡ fault.old }
    ensures call { Added place.old.kept.held result fault.old fault.new place.new.kept.held (λ s answer t. AddsToClient (record { text = text.entry; interfaces = interfaces.entry; messages = messages.entry; arguments = arguments.entry }) s.core answer t.core) }
    ensures beside { Added place.old.kept.held result fault.old fault.new place.new.kept.held (λ s answer t. t ≡ record s { core = t.core }) }
    ensures descriptors { Added place.old.kept.held result fault.old fault.new place.new.kept.held (λ s answer t. ConservesClient s [] [] t) }
{
    let Some(mut session) = place.take(alloc) else {
        return Status::NoSession.code();
    };
    let rows = Rows {
        text,
        interfaces,
        messages,
        arguments,
    };
    let answer = session.add_interfaces(&rows);
    place.put(session);
    write_added(answer, fault)
}

/// Extends the table by whole rows: those of interfaces that it has are compared, and what they have more is appended; the others
/// are added. Where a row contradicts the table, `fault` says at which message, and the table is as before.
#[unsafe(no_mangle)]
pub extern "C" fn nb_client_merge_interfaces(
    alloc: Global,
    place: &mut ClientPlace,
    text: &[u8],
    interfaces: &[InterfaceRow],
    messages: &[MessageRow],
    arguments: &[ArgumentRow],
    fault: &mut ExtensionFault,
) -> u32
    ensures none { place.old.kept.held ≡ None → (result ≡ 1) × (place.new.kept.held ≡ None) × (fault.new ≡ fault.old) }
    ensures stays { IsSome place.old.kept.held → IsSome place.new.kept.held }
    ensures unfaulted { result ≡ 0 → fault.new ≡ fault.old }
    ensures call { Extended place.old.kept.held result fault.old fault.new place.new.kept.held (λ s answer t. ExtendsClient (record { text = text.entry; interfaces = interfaces.entry; messages = messages.entry; arguments = arguments.entry }) s.core answer t.core) }
    ensures beside { Extended place.old.kept.held result fault.old fault.new place.new.kept.held (λ s answer t. t ≡ record s { core = t.core }) }
    ensures descriptors { Extended place.old.kept.held result fault.old fault.new place.new.kept.held (λ s answer t. ConservesClient s [] [] t) }
{
    let Some(mut session) = place.take(alloc) else {
        return Status::NoSession.code();
    };
    let rows = Rows {
        text,
        interfaces,
        messages,
        arguments,
    };
    let answer = session.extend_interfaces(&rows);
    place.put(session);
    write_extended(answer, fault)
}

/// Writes 1 where memory was refused in the last call of the core that changes it, and 0 else.
#[unsafe(no_mangle)]
pub extern "C" fn nb_client_memory_refused(
    alloc: Global,
    place: &mut ClientPlace,
    is_refused: &mut u32,
) -> u32
    ensures none { place.old.kept.held ≡ None → (result ≡ 1) × (place.new.kept.held ≡ None) × (is_refused.new ≡ is_refused.old) }
    ensures kept { place.new.kept.held ≡ place.old.kept.held }
    ensures unwritten { result ≢ 0 → is_refused.new ≡ is_refused.old }
    ensures answer { FoundFlag place.old.kept.held result is_refused.old is_refused.new (λ s answer. answer ≡ Ok s.core.refused) }
{
    let Some(session) = place.take(alloc) else {
        return Status::NoSession.code();
    };
    let answer = session.memory_refused();
    place.put(session);
    write_flag(Ok(answer), is_refused)
}

/// Sets how many bytes may wait to be sent. Without a limit `size` is not read.
#[unsafe(no_mangle)]
pub extern "C" fn nb_client_set_max_buffer_size(
    alloc: Global,
    place: &mut ClientPlace,
    has_limit: u32,
    size: u64,
) -> u32
    ensures none { place.old.kept.held ≡ None → (result ≡ 1) × (place.new.kept.held ≡ None) }
    ensures stays { IsSome place.old.kept.held → IsSome place.new.kept.held }
    ensures call { Did place.old.kept.held result place.new.kept.held (λ s status t. SetsLimit s.core (limit_of has_limit size) t.core) }
    ensures beside { Did place.old.kept.held result place.new.kept.held (λ s status t. t ≡ record s { core = t.core }) }
    ensures descriptors { Did place.old.kept.held result place.new.kept.held (λ s status t. ConservesClient s [] [] t) }
    ensures answer { IsSome place.old.kept.held → result ≡ 0 }
{
    let Some(mut session) = place.take(alloc) else {
        return Status::NoSession.code();
    };
    let status = session.set_max_buffer_size(has_limit, size);
    place.put(session);
    status.code()
}

/// Sets whether messages of unknown senders are passed over.
#[unsafe(no_mangle)]
pub extern "C" fn nb_client_pass_over_unknown_senders(
    alloc: Global,
    place: &mut ClientPlace,
    passes: u32,
) -> u32
    ensures none { place.old.kept.held ≡ None → (result ≡ 1) × (place.new.kept.held ≡ None) }
    ensures stays { IsSome place.old.kept.held → IsSome place.new.kept.held }
    ensures set { Did place.old.kept.held result place.new.kept.held (λ s status t. t ≡ passing_over s passes) }
    ensures descriptors { Did place.old.kept.held result place.new.kept.held (λ s status t. ConservesClient s [] [] t) }
    ensures answer { IsSome place.old.kept.held → result ≡ 0 }
{
    let Some(mut session) = place.take(alloc) else {
        return Status::NoSession.code();
    };
    let status = session.pass_over_unknown_senders(passes);
    place.put(session);
    status.code()
}

/// Sets whether an event with a null that the table forbids ends the session: not if `is_on` is 0.
#[unsafe(no_mangle)]
pub extern "C" fn nb_client_refuse_nulls(alloc: Global, place: &mut ClientPlace, is_on: u32) -> u32
    ensures none { place.old.kept.held ≡ None → (result ≡ 1) × (place.new.kept.held ≡ None) }
    ensures stays { IsSome place.old.kept.held → IsSome place.new.kept.held }
    ensures set { Did place.old.kept.held result place.new.kept.held (λ s status t. t ≡ record s { refuses_nulls = sets is_on }) }
    ensures descriptors { Did place.old.kept.held result place.new.kept.held (λ s status t. ConservesClient s [] [] t) }
    ensures answer { IsSome place.old.kept.held → result ≡ 0 }
{
    let Some(mut session) = place.take(alloc) else {
        return Status::NoSession.code();
    };
    let status = session.refuse_nulls(is_on);
    place.put(session);
    status.code()
}

/// Sets how many bytes the mailbox takes from the core before the host has sent them.
#[unsafe(no_mangle)]
pub extern "C" fn nb_client_set_room(alloc: Global, place: &mut ClientPlace, room: u64) -> u32
    ensures none { place.old.kept.held ≡ None → (result ≡ 1) × (place.new.kept.held ≡ None) }
    ensures stays { IsSome place.old.kept.held → IsSome place.new.kept.held }
    ensures room { Did place.old.kept.held result place.new.kept.held (λ s status t. t ≡ with_mailbox s (record (mailbox_of s) { room = room })) }
    ensures descriptors { Did place.old.kept.held result place.new.kept.held (λ s status t. ConservesClient s [] [] t) }
    ensures answer { IsSome place.old.kept.held → result ≡ 0 }
{
    let Some(mut session) = place.take(alloc) else {
        return Status::NoSession.code();
    };
    let status = session.set_room(room);
    place.put(session);
    status.code()
}

/// Writes the error that ended the session, with its texts.
#[unsafe(no_mangle)]
pub extern "C" fn nb_client_last_error(
    alloc: Global,
    place: &mut ClientPlace,
    error: &mut FlatError,
    text: &mut [u8],
) -> u32
    ensures none { place.old.kept.held ≡ None → (result ≡ 1) × (place.new.kept.held ≡ None) × (error.new ≡ error.old) × (text.new ≡ text.old) }
    ensures kept { place.new.kept.held ≡ place.old.kept.held }
    ensures error { Told place.old.kept.held result (λ s status. error.new ≡ flat_error s.core.session.error) }
    ensures text { Told place.old.kept.held result (λ s status. text.new ≡ written (text_of_error s.core.session.error) text.old) }
    ensures status { Told place.old.kept.held result (λ s status. status ≡ status_for (has_room (text_of_error s.core.session.error) text.old)) }
{
    let Some(session) = place.take(alloc) else {
        return Status::NoSession.code();
    };
    let status = session.last_error(error, text);
    place.put(session);
    status.code()
}
