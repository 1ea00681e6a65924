//! A policy as a whole: its begin and its end.

ghost use Rattle.std.specs.Prelude.{IsSome, None, Some, ◌↔◌, ◌≡◌};
ghost use Rattle.wl_c.specs.Calls.{fault_code};
ghost use Rattle.wl_flat.specs.Guards.{IsNewPolicy, IsPolicyFault};
ghost use Rattle.wl_flat.specs.declared.guards.Policy.{Policy};

use super::place::PolicyPlace;
use crate::answer::write_fault;
use crate::boxed::boxed;
use std::alloc::Global;
use wl_host::{ArgumentRow, InterfaceRow, Limits, MessageRow, Policy, Rows, Status, TableFault};

/// Makes a policy that allows nothing, over this table of interfaces, in an empty place. A place that holds a policy keeps it, and the
/// status is `NB_IN_USE`. Where the table is refused, `fault` says which interface and why, and the place stays empty.
#[unsafe(no_mangle)]
pub extern "C" fn nb_policy_new(
    alloc: Global,
    place: &mut PolicyPlace,
    text: &[u8],
    interfaces: &[InterfaceRow],
    messages: &[MessageRow],
    arguments: &[ArgumentRow],
    objects: u32,
    globals: usize,
    waiting: usize,
    fault: &mut TableFault,
) -> u32
    ensures in_use { IsSome place.old.kept.held → (result ≡ 2) × (place.new.kept.held ≡ place.old.kept.held) × (fault.new ≡ fault.old) }
    ensures begun { place.old.kept.held ≡ None → (result ≡ 0) ↔ IsSome place.new.kept.held }
    ensures made { (p : Policy) → place.old.kept.held ≡ None → place.new.kept.held ≡ Some p → IsNewPolicy (record { text = text.entry; interfaces = interfaces.entry; messages = messages.entry; arguments = arguments.entry }) (record { objects = objects; globals = globals; waiting = waiting }) p }
    ensures refused { place.old.kept.held ≡ None → place.new.kept.held ≡ None → (result ≡ fault_code fault.new) × IsPolicyFault (record { text = text.entry; interfaces = interfaces.entry; messages = messages.entry; arguments = arguments.entry }) fault.new }
    ensures unfaulted { result ≡ 0 → fault.new ≡ fault.old }
{
    if let Some(policy) = place.take(alloc) {
        place.put(policy);
        return Status::InUse.code();
    }
    let rows = Rows {
        text,
        interfaces,
        messages,
        arguments,
    };
    let limits = Limits {
        objects,
        globals,
        waiting,
    };
    match boxed(alloc, Policy::new(alloc, &rows, limits)) {
        Ok(policy) => {
            place.put(policy);
            Status::Ok.code()
        }
        Err(refused) => write_fault(refused, fault),
    }
}

/// Ends the policy, and frees its memory. The place is empty then, and may be begun again.
#[unsafe(no_mangle)]
pub extern "C" fn nb_policy_end(alloc: Global, place: &mut PolicyPlace) -> u32
    ensures none { place.old.kept.held ≡ None → result ≡ 1 }
    ensures some { IsSome place.old.kept.held → result ≡ 0 }
    ensures ended { place.new.kept.held ≡ None }
{
    match place.take(alloc) {
        Some(_) => Status::Ok.code(),
        None => Status::NoSession.code(),
    }
}
