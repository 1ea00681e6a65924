//! Single interfaces that join the table of a client's session.

ghost use Rattle.std.specs.Prelude.{IsSome, None, [], ◌≡◌, ◌≢◌};
ghost use Rattle.wl_c.specs.Calls.{Joined};
ghost use Rattle.wl_host_client.specs.Client.{ConservesClient};
ghost use Rattle.wl_host_client.specs.Tables.{JoinsClient};

use super::place::ClientPlace;
use crate::answer::write_joined;
use std::alloc::Global;
use wl_host::{ArgumentRow, ExtensionFault, InterfaceRow, MessageRow, Rows, Status};

/// Takes one whole interface into the table, and writes its number there: that of the first row of its name that agrees, or of a new
/// one. Where it is refused, `fault` says why, and the table is as before.
#[unsafe(no_mangle)]
pub extern "C" fn nb_client_join_interface(
    alloc: Global,
    place: &mut ClientPlace,
    text: &[u8],
    interfaces: &[InterfaceRow],
    messages: &[MessageRow],
    arguments: &[ArgumentRow],
    number: &mut u32,
    fault: &mut ExtensionFault,
) -> u32
    ensures none { place.old.kept.held ≡ None → (result ≡ 1) × (place.new.kept.held ≡ None) × (number.new ≡ number.old) × (fault.new ≡ fault.old) }
    ensures stays { IsSome place.old.kept.held → IsSome place.new.kept.held }
    ensures unnumbered { result ≢ 0 → number.new ≡ number.old }
    ensures unfaulted { result ≡ 0 → fault.new ≡ fault.old }
    ensures call { Joined place.old.kept.held result number.old number.new fault.old fault.new place.new.kept.held (λ s answer t. JoinsClient (record { text = text.entry; interfaces = interfaces.entry; messages = messages.entry; arguments = arguments.entry }) s.core answer t.core) }
    ensures beside { Joined place.old.kept.held result number.old number.new fault.old fault.new place.new.kept.held (λ s answer t. t ≡ record s { core = t.core }) }
    ensures descriptors { Joined place.old.kept.held result number.old number.new fault.old fault.new place.new.kept.held (λ s answer t. ConservesClient s [] [] t) }
{
    let Some(mut session) = place.take(alloc) else {
        return Status::NoSession.code();
    };
    let rows = Rows {
        text,
        interfaces,
        messages,
        arguments,
    };
    let answer = session.join_interface(&rows);
    place.put(session);
    write_joined(answer, number, fault)
}
