//! Calls that take no memory.
//!
//! A test names each call on standard error before it makes it. So `./refusal-drill` can count what is allocated for it: nothing,
//! but for the calls whose name begins with `control`, for which something has to be.

use crate::kit::line::Line;
use crate::kit::table::hinting_table;
use crate::kit::values::{Object, Request, message};
use std::alloc::Global;
use std::cell::Cell;
use std::test::Fail;
use test_kit::counted::Counted;
use test_kit::log::holds;
use test_kit::no_memory::{begin, end};
use test_kit::quad::{DESTROY, QUAD, quad_table};
use wl_client::{Backend, ObjectId};
use wl_wire::{Protocol, WL_CALLBACK_INTERFACE};

/// A client whose transport takes all that it is sent, without memory.
type Client<'a> = Backend<Line<'a>, Counted<'a>>;

/// `wl_callback.done`, by object 5; `wl_display.delete_id` of that; and `quad.moved`, by object 3, of 7. Then the same again.
const TWICE: [u8; 72] = [
    5, 0, 0, 0, 0, 0, 12, 0, 0, 0, 0, 0, 1, 0, 0, 0, 1, 0, 12, 0, 5, 0, 0, 0, 3, 0, 0, 0, 0, 0, 12,
    0, 7, 0, 0, 0, 5, 0, 0, 0, 0, 0, 12, 0, 0, 0, 0, 0, 1, 0, 0, 0, 1, 0, 12, 0, 5, 0, 0, 0, 3, 0,
    0, 0, 0, 0, 12, 0, 7, 0, 0, 0,
];

/// A call.
#[derive(Clone, Copy)]
enum Call {
    /// `send_request`, of this request.
    Send(Request),
    /// `next_event`.
    Next,
    /// `next_event`, which has to give one of this opcode.
    NextOf(u16),
    /// `finish_event`, of an event that made no object.
    Finish,
    /// All calls that look something up.
    LookUp,
    /// `set_data`, of the callback.
    SetData,
    /// `set_data`, of an object that is not there.
    SetMissing,
    /// `with_data`, of the callback.
    LendData,
    /// `set_max_buffer_size`.
    Limit,
    /// `pass_over_unknown_senders`.
    PassOver,
    /// `dispatch_inner_queue`.
    Dispatch,
    /// `transport_mut`.
    Transport,
    /// `flush`.
    Flush,
    /// `destroy_object`, of the callback.
    Destroy,
    /// `destroy_object`, of the callback of the second sync.
    DestroySecond,
    /// `reclaim`, of the callback.
    Reclaim,
    /// `take_notes`.
    Notes,
    /// `keep_freed`, and then no more.
    KeepFreed,
    /// `next_freed`.
    Freed,
}

/// The calls, in order, each with its name if it is counted.
static CALLS: [(&str, Call); 17] = [
    ("keep_freed", Call::KeepFreed),
    ("next_freed", Call::Freed),
    ("control: send_request", Call::Send(Request::Sync)),
    ("look-ups", Call::LookUp),
    ("set_data", Call::SetData),
    ("set_data of no object", Call::SetMissing),
    ("with_data", Call::LendData),
    ("set_max_buffer_size", Call::Limit),
    ("pass_over_unknown_senders", Call::PassOver),
    ("dispatch_inner_queue", Call::Dispatch),
    ("transport_mut", Call::Transport),
    ("flush", Call::Flush),
    ("", Call::Send(Request::Sync)),
    ("control: destroy_object", Call::Destroy),
    (
        "destroy_object, with room for its note",
        Call::DestroySecond,
    ),
    ("take_notes", Call::Notes),
    ("take_notes of none", Call::Notes),
];

/// Calls for which an earlier one has made room: of a number that was in use before, and of the list of notes, which is not taken
/// in between, since it is handed out with its room. In order, each with its name if it is counted.
static WITH_ROOM: [(&str, Call); 15] = [
    ("", Call::Send(Request::GetRegistry)),
    ("", Call::Send(Request::Bind)),
    ("", Call::Send(Request::Make)),
    ("", Call::Send(Request::Sync)),
    ("next_event of a number", Call::Next),
    ("control: finish_event of a destructor", Call::Finish),
    ("", Call::Next),
    ("finish_event", Call::Finish),
    ("", Call::Send(Request::Sync)),
    ("", Call::Next),
    (
        "finish_event of a destructor, with room for its note",
        Call::Finish,
    ),
    ("", Call::Next),
    ("", Call::Finish),
    (
        "send_request of a sync at a number that was in use, with room for one more",
        Call::Send(Request::Sync),
    ),
    (
        "send_request of a destructor, with room for its note",
        Call::Send(Request::Bare(Object::Second, DESTROY)),
    ),
];

/// `wl_display.delete_id` of object 2, and `wl_callback.done`, by object 3.
const DELETED: [u8; 24] = [
    1, 0, 0, 0, 1, 0, 12, 0, 2, 0, 0, 0, 3, 0, 0, 0, 0, 0, 12, 0, 0, 0, 0, 0,
];

/// An object is reclaimed whose id the server deleted first. In order, each with its name if it is counted.
static RECLAIMED: [(&str, Call); 5] = [
    ("", Call::Send(Request::Sync)),
    ("", Call::Send(Request::Sync)),
    ("", Call::Next),
    ("", Call::Destroy),
    ("reclaim", Call::Reclaim),
];

/// The events of object 3: of a number, of a number with a child interface, and of a new id.
const HINTS: [u8; 36] = [
    3, 0, 0, 0, 0, 0, 12, 0, 7, 0, 0, 0, 3, 0, 0, 0, 1, 0, 12, 0, 8, 0, 0, 0, 3, 0, 0, 0, 2, 0, 12,
    0, 0, 0, 0, 255,
];

/// An event that names a child interface and has no new id makes no object. It is read where the map of the objects is full: the
/// client has four, the display, a registry, a `quad` and a callback. So an event that makes an object, read just after it, has
/// to take memory. Before the first event some may be needed for what the reading itself keeps.
static HINTED: [(&str, Call); 8] = [
    ("", Call::Send(Request::GetRegistry)),
    ("", Call::Send(Request::Bind)),
    ("", Call::Send(Request::Sync)),
    ("", Call::NextOf(0)),
    ("", Call::Finish),
    ("next_event, a child interface alone", Call::NextOf(1)),
    ("", Call::Finish),
    ("control: next_event, a new id", Call::NextOf(2)),
];

/// Whether each look-up finds what it has to.
fn is_looked_up(client: &Client) -> bool {
    let callback = Object::Callback.id();
    client.info(&callback).is_ok()
        && client.get_data(&callback).is_ok()
        && client.object_for_protocol_id(2).is_some()
        && client.display_id() == Object::Display.id()
        && client.protocol().get(QUAD).is_some()
        && client.last_error().is_none()
        && client.open_event().is_none()
        && client.waiting() == [0, 0, 12, 0]
}

/// Sends the request; whether that is done.
fn send<'a>(
    alloc: Global,
    drops: &'a Cell<u64>,
    client: &mut Client<'a>,
    request: Request,
) -> Result<bool, Fail> {
    let message = message(alloc, request)?;
    let (_, wish) = request.child();
    let data = Some(Counted::new(drops, 1));
    Ok(client.send_request(message, data, wish).is_ok())
}

/// Makes the call; whether it answers as it has to.
fn make<'a>(
    alloc: Global,
    drops: &'a Cell<u64>,
    client: &mut Client<'a>,
    call: Call,
) -> Result<bool, Fail> {
    match call {
        Call::Send(request) => send(alloc, drops, client, request),
        Call::LookUp => Ok(is_looked_up(client)),
        Call::SetData => {
            let callback = Object::Callback.id();
            Ok(client.set_data(&callback, Counted::new(drops, 1)).is_ok())
        }
        Call::SetMissing => {
            let missing = Object::Quad.id();
            Ok(client.set_data(&missing, Counted::new(drops, 1)).is_err())
        }
        Call::LendData => {
            let callback = Object::Callback.id();
            Ok(client.with_data(&callback, |_data| ()).is_ok())
        }
        _ => Ok(make_of_all(client, call)),
    }
}

/// Makes a call that is given nothing.
fn make_of_all(client: &mut Client, call: Call) -> bool {
    match call {
        Call::Limit => {
            client.set_max_buffer_size(Some(8192));
            true
        }
        Call::PassOver => {
            client.pass_over_unknown_senders(true);
            true
        }
        Call::Next => client.next_event().is_ok(),
        Call::NextOf(opcode) => match client.next_event() {
            Ok(event) => event.opcode == opcode,
            Err(_) => false,
        },
        Call::Finish => client.finish_event(None).is_ok(),
        Call::Dispatch => client.dispatch_inner_queue().is_ok(),
        Call::Transport => {
            let _ = client.transport_mut();
            true
        }
        Call::Flush => client.flush().is_ok(),
        Call::Reclaim => client.reclaim(&Object::Callback.id()).is_ok(),
        Call::KeepFreed => {
            client.keep_freed(true);
            client.keep_freed(false);
            true
        }
        Call::Freed => client.next_freed().is_none(),
        Call::Destroy => client.destroy_object(&Object::Callback.id()).is_ok(),
        Call::DestroySecond => {
            let second = ObjectId::from_parts(3, 2, WL_CALLBACK_INTERFACE);
            client.destroy_object(&second).is_ok()
        }
        _ => client.take_notes().len() < 3,
    }
}

/// Makes the call between the lines that name and end it. Fails if it does not answer as it has to, or was refused memory.
fn counted<'a>(
    rt: &(impl Eprint + AllocGlobal),
    drops: &'a Cell<u64>,
    client: &mut Client<'a>,
    (name, call): (&str, Call),
) -> Result<(), Fail> {
    begin(rt, name);
    let is_made = make(rt.alloc(), drops, client, call);
    end(rt, name);
    let is_made = is_made?;
    holds(rt, name, is_made && !client.memory_refused())
}

/// Makes the calls.
fn all_counted<'a>(
    rt: &(impl Eprint + AllocGlobal),
    drops: &'a Cell<u64>,
    client: &mut Client<'a>,
    calls: &[(&str, Call)],
) -> Result<(), Fail> {
    for call in calls {
        counted(rt, drops, client, *call)?;
    }
    Ok(())
}

/// A new client of that table, to which the server sends these bytes.
fn connected<'a>(
    alloc: Global,
    drops: &'a Cell<u64>,
    table: Protocol,
    from_server: &'static [u8],
) -> Result<Client<'a>, Fail> {
    let line = Line::new(from_server, Counted::new(drops, 1));
    Ok(Backend::connect(alloc, table, line)?)
}

/// Makes the calls of a new client of that table, to which the server sends these bytes.
fn counted_of_new<'a>(
    rt: &(impl Eprint + AllocGlobal),
    drops: &'a Cell<u64>,
    table: Protocol,
    from_server: &'static [u8],
    calls: &[(&str, Call)],
) -> Result<(), Fail> {
    let mut client = connected(rt.alloc(), drops, table, from_server)?;
    let answer = all_counted(rt, drops, &mut client, calls);
    drop(client);
    answer
}

#[test]
fn takes_no_memory(rt: HostRuntime) -> Result<(), Fail> {
    let drops = Cell::new(0);
    for (from_server, calls) in [
        (&[][..], &CALLS[..]),
        (&TWICE, &WITH_ROOM),
        (&DELETED, &RECLAIMED),
    ] {
        counted_of_new(&rt, &drops, quad_table(rt.alloc())?, from_server, calls)?;
    }
    counted_of_new(&rt, &drops, hinting_table(rt.alloc())?, &HINTS, &HINTED)
}
