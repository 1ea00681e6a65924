//! A relay as a whole: its begin and its end.

ghost use Rattle.std.specs.Prelude.{IsSome, None, Some, ◌↔◌, ◌≡◌};
ghost use Rattle.wl_c.specs.Calls.{fault_code};
ghost use Rattle.wl_flat.specs.Tables.{IsFaultOf};
ghost use Rattle.wl_host_relay.specs.Relays.{IsRelayOf, mode_of};
ghost use Rattle.wl_host_relay.specs.declared.relay.Relay.{Relay};

use super::place::RelayPlace;
use crate::answer::write_fault;
use crate::boxed::boxed;
use std::alloc::Global;
use wl_host::{ArgumentRow, InterfaceRow, MessageRow, Rows, Status, TableFault};
use wl_host_relay::{Relay, mode_of};

/// Makes a relay in an empty place, of a session that begins, over this table of interfaces. If `log_only` is not 0, it changes
/// nothing. A place that holds a relay keeps it, and the status is `NB_IN_USE`. Where the table is refused, `fault` says which
/// interface and why, and the place stays empty.
#[unsafe(no_mangle)]
pub extern "C" fn nb_relay_new(
    alloc: Global,
    place: &mut RelayPlace,
    text: &[u8],
    interfaces: &[InterfaceRow],
    messages: &[MessageRow],
    arguments: &[ArgumentRow],
    log_only: u32,
    fault: &mut TableFault,
) -> u32
    ensures in_use { IsSome place.old.kept.held → (result ≡ 2) × (place.new.kept.held ≡ place.old.kept.held) × (fault.new ≡ fault.old) }
    ensures begun { place.old.kept.held ≡ None → (result ≡ 0) ↔ IsSome place.new.kept.held }
    ensures made { (r : Relay) → place.old.kept.held ≡ None → place.new.kept.held ≡ Some r → IsRelayOf (record { text = text.entry; interfaces = interfaces.entry; messages = messages.entry; arguments = arguments.entry }) (mode_of log_only) r }
    ensures refused { place.old.kept.held ≡ None → place.new.kept.held ≡ None → (result ≡ fault_code fault.new) × IsFaultOf (record { text = text.entry; interfaces = interfaces.entry; messages = messages.entry; arguments = arguments.entry }) fault.new }
    ensures unfaulted { result ≡ 0 → fault.new ≡ fault.old }
{
    if let Some(relay) = place.take(alloc) {
        place.put(relay);
        return Status::InUse.code();
    }
    let rows = Rows {
        text,
        interfaces,
        messages,
        arguments,
    };
    match boxed(alloc, Relay::new(alloc, &rows, mode_of(log_only))) {
        Ok(relay) => {
            place.put(relay);
            Status::Ok.code()
        }
        Err(refused) => write_fault(refused, fault),
    }
}

/// Ends the relay, and frees its memory. The descriptors whose numbers it has are the host's, and stay open. The place is empty then,
/// and may be begun again.
#[unsafe(no_mangle)]
pub extern "C" fn nb_relay_end(alloc: Global, place: &mut RelayPlace) -> u32
    ensures none { place.old.kept.held ≡ None → result ≡ 1 }
    ensures some { IsSome place.old.kept.held → result ≡ 0 }
    ensures ended { place.new.kept.held ≡ None }
{
    match place.take(alloc) {
        Some(_) => Status::Ok.code(),
        None => Status::NoSession.code(),
    }
}
