//! Requests with a null that the table forbids: their clients are killed.

ghost use Rattle.std.specs.Prelude.{◌≡◌, ℕ, List, IfSome};
ghost use Rattle.std.specs.String.{string_bytes};
ghost use Rattle.wl_host.specs.Actions.{KillsFor, Refuses, kept_unless_finished, null_in, refusal_text};
ghost use Rattle.wl_server_client.specs.Deeds.{handed};

use crate::server::{Core, no_action};
use std::alloc::Global;
use std::mem;
use wl_flat::nulls::{name_in, null_text};
use wl_server::{Action, ClientId, DisconnectReason, FinishRefused, ObjectId};
use wl_wire::{CString, DISPLAY, WL_DISPLAY_INTERFACE};

/// The code `invalid_method` of `wl_display.error`.
const INVALID_METHOD: u32 = 1;

/// What the client of a request is told of the null at this place. There is nothing if there is no memory for it.
fn refusal_text(alloc: Global, core: &Core, action: &Action, place: u32) -> Option<CString>
    requires place { place ≡ null_in core.now (handed action.now) }
    ensures { IfSome result (λ text. text ≡ refusal_text core.now (handed action.now)) }
{
    let Action::Request { sender, opcode, .. } = action else {
        return None;
    };
    let protocol = core.protocol();
    let interface = sender.interface();
    let request = name_in(protocol.request(interface, *opcode));
    match null_text(alloc, "request", protocol.name(interface), request, place) {
        Ok(text) => c_string(text),
        Err(_) => None,
    }
}

/// The text for the wire. No name of a table has a zero byte, so it is one.
fn c_string(text: String) -> Option<CString>
    ensures { IfSome result (λ string. string ≡ string_bytes text) }
{
    match CString::new(text.into_bytes()) {
        Ok(string) => Some(string),
        Err(_) => None,
    }
}

/// Kills the client: it is told of an error on its display. If there is no text for that, it is killed as if its connection had
/// ended.
fn kill_for(core: &mut Core, id: &ClientId, text: Option<CString>)
    ensures { (t : List ℕ) → IfSome text (λ told. told ≡ t) → KillsFor core.old id.now t core.new }
{
    match text {
        Some(text) => {
            let display = ObjectId::from_parts(DISPLAY, 0, *id, WL_DISPLAY_INTERFACE);
            core.post_error(&display, INVALID_METHOD, text);
        }
        None => core.kill_client(id, DisconnectReason::ConnectionClosed),
    }
}

/// The request, if the core did not finish it: there was no memory for the note of its sender, which it ends. It was not handed out,
/// so the host cannot finish it: the next reading refuses it again.
fn unless_finished(
    alloc: Global,
    answer: Result<(), FinishRefused<Option<u64>>>,
    action: &mut Action,
) -> Option<Action>
    ensures { result ≡ kept_unless_finished answer action.old }
{
    match answer {
        Ok(()) => None,
        Err(_) => Some(mem::replace(action, no_action(alloc))),
    }
}

/// Refuses the open request of the client, which has such a null at this place: the client is killed, and the request is finished.
#[cold]
#[inline(never)]
pub fn refuse(
    alloc: Global,
    core: &mut Core,
    id: &ClientId,
    kept: &mut Option<Action>,
    action: &mut Action,
    place: u32,
)
    requires place { place ≡ null_in core.old (handed action.old) }
    ensures { Refuses core.old id.now action.old kept.new core.new }
{
    let text = refusal_text(alloc, core, action, place);
    kill_for(core, id, text);
    let answer = core.finish_request(id, None);
    *kept = unless_finished(alloc, answer, action);
}
