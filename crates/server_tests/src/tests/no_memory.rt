//! Calls that take no memory.
//!
//! A test names each call on standard error before it makes it. So `./refusal-drill` can count what is allocated for it: nothing,
//! but for the calls whose name begins with `control`, for which something has to be.

use server_test_kit::counted::{Line, Offered};
use server_test_kit::values::{FIRST, Named, SECOND, Thing};
use smallvec::SmallVec;
use std::alloc::Global;
use std::cell::Cell;
use std::test::Fail;
use test_kit::counted::Counted;
use test_kit::log::holds;
use test_kit::no_memory::{begin, end};
use test_kit::quad::{QUAD, quad_table};
use wl_server::{Backend, DisconnectReason};
use wl_wire::Message;

/// A server whose transports take all that they are sent, without memory.
type Server<'a> = Backend<Line<'a>, Counted<'a>, Offered<'a>, Counted<'a>>;

/// `wl_display.get_registry` with the new id 2; `wl_registry.bind`, of the global 1, as `quad` of version 3, twice: with the
/// new id 3, and with the new id 4; and `quad.poke`, by object 3.
const BINDS: [u8; 88] = [
    1, 0, 0, 0, 1, 0, 12, 0, 2, 0, 0, 0, 2, 0, 0, 0, 0, 0, 32, 0, 1, 0, 0, 0, 5, 0, 0, 0, 113, 117,
    97, 100, 0, 0, 0, 0, 3, 0, 0, 0, 3, 0, 0, 0, 2, 0, 0, 0, 0, 0, 32, 0, 1, 0, 0, 0, 5, 0, 0, 0,
    113, 117, 97, 100, 0, 0, 0, 0, 3, 0, 0, 0, 4, 0, 0, 0, 3, 0, 0, 0, 0, 0, 12, 0, 7, 0, 0, 0,
];

/// `wl_display.get_registry` with the new id 2, and `wl_registry.bind`, of the global 1, as `quad` of version 3, with the new
/// id 3. Then, twice, `wl_display.sync` with the new id 4, and `quad.poke`, by object 3. At the end, twice, `quad.make`, by
/// object 3, with the new id 4, and `quad.destroy`, by object 4.
const TWICE: [u8; 132] = [
    1, 0, 0, 0, 1, 0, 12, 0, 2, 0, 0, 0, 2, 0, 0, 0, 0, 0, 32, 0, 1, 0, 0, 0, 5, 0, 0, 0, 113, 117,
    97, 100, 0, 0, 0, 0, 3, 0, 0, 0, 3, 0, 0, 0, 1, 0, 0, 0, 0, 0, 12, 0, 4, 0, 0, 0, 3, 0, 0, 0,
    0, 0, 12, 0, 7, 0, 0, 0, 1, 0, 0, 0, 0, 0, 12, 0, 4, 0, 0, 0, 3, 0, 0, 0, 0, 0, 12, 0, 7, 0, 0,
    0, 3, 0, 0, 0, 1, 0, 12, 0, 4, 0, 0, 0, 4, 0, 0, 0, 2, 0, 8, 0, 3, 0, 0, 0, 1, 0, 12, 0, 4, 0,
    0, 0, 4, 0, 0, 0, 2, 0, 8, 0,
];

/// The object that the server makes for the first client.
const MADE: Thing = Thing(FIRST, 0xFF00_0000, 1, QUAD);

/// The object that the first client binds first, after its registry.
const BOUND: Thing = Thing(FIRST, 3, 3, QUAD);

/// The global.
const GLOBAL: Named = Named(1, 1);

/// The opcode of `quad.gone`.
const GONE: u16 = 2;

/// A call.
#[derive(Clone, Copy)]
enum Call {
    /// `insert_client`, of a client that sends these bytes.
    Insert(&'static [u8]),
    /// `create_object`, for the first client.
    Create,
    /// `create_global`.
    Global,
    /// `next_action`, of the first client, which gives a bind or a request.
    Next,
    /// All calls that look something up.
    LookUp,
    /// `set_object_data`, of the object that was made.
    SetData,
    /// `set_object_data`, of an object that is not there.
    SetMissing,
    /// `with_object_data`, of the object that was made.
    LendData,
    /// `set_default_max_buffer_size`.
    DefaultLimit,
    /// `set_client_max_buffer_size`.
    Limit,
    /// `set_object_limit`.
    ObjectLimit,
    /// `transport_mut`.
    Transport,
    /// `finish_bind`.
    FinishBind,
    /// `finish_bind`, if no action is open.
    FinishNone,
    /// `finish_bind_returning`.
    FinishReturning,
    /// `finish_request`, of a request that made no object.
    FinishRequest,
    /// `finish_request`, of a request that made one.
    FinishMade,
    /// `send_event`, of `quad.gone`, by the object that was bound first.
    SendGone,
    /// `flush` of the first client.
    Flush,
    /// `flush` of all clients.
    FlushAll,
    /// `take_notes`.
    Notes,
    /// `destroy_object`, of this object.
    Destroy(Thing),
    /// `cleanup`.
    Cleanup,
    /// `kill_client`, of the first client.
    Kill,
}

/// The calls, in order, each with its name if it is counted.
static CALLS: [(&str, Call); 30] = [
    ("control: insert_client", Call::Insert(&BINDS)),
    ("", Call::Insert(&BINDS)),
    ("", Call::Create),
    ("", Call::Global),
    ("", Call::Next),
    ("look-ups", Call::LookUp),
    ("set_object_data", Call::SetData),
    ("set_object_data of no object", Call::SetMissing),
    ("with_object_data", Call::LendData),
    ("set_default_max_buffer_size", Call::DefaultLimit),
    ("set_client_max_buffer_size", Call::Limit),
    ("set_object_limit", Call::ObjectLimit),
    ("transport_mut", Call::Transport),
    ("finish_bind", Call::FinishBind),
    ("finish_bind of no action", Call::FinishNone),
    ("", Call::Next),
    ("finish_bind_returning", Call::FinishReturning),
    ("next_action of a request of a number", Call::Next),
    ("finish_request", Call::FinishRequest),
    ("flush of a client", Call::Flush),
    ("flush of all clients", Call::FlushAll),
    ("control: take_notes", Call::Notes),
    ("take_notes of none", Call::Notes),
    ("cleanup of nothing", Call::Cleanup),
    ("control: destroy_object", Call::Destroy(MADE)),
    ("control: cleanup of a note", Call::Cleanup),
    ("take_notes of those that are gathered", Call::Notes),
    (
        "destroy_object, with room for its note",
        Call::Destroy(BOUND),
    ),
    ("kill_client", Call::Kill),
    ("control: cleanup", Call::Cleanup),
];

/// Calls for which an earlier one has made room: of a number that was in use before, and of a list of notes that are taken out.
/// In order, each with its name if it is counted.
static WITH_ROOM: [(&str, Call); 22] = [
    ("", Call::Insert(&TWICE)),
    ("", Call::Create),
    ("", Call::Global),
    ("", Call::Next),
    ("", Call::FinishBind),
    ("", Call::Next),
    ("", Call::FinishRequest),
    // It gives the request behind the sync.
    (
        "next_action of a sync at a number that was in use",
        Call::Next,
    ),
    ("", Call::FinishRequest),
    ("", Call::Next),
    ("", Call::FinishMade),
    ("", Call::Next),
    (
        "control: finish_request of a destructor",
        Call::FinishRequest,
    ),
    ("", Call::Notes),
    (
        "next_action of a new object at a number that was in use, with room for one more",
        Call::Next,
    ),
    ("finish_request of a new object", Call::FinishMade),
    ("next_action of a destructor", Call::Next),
    (
        "finish_request of a destructor, with room for its note",
        Call::FinishRequest,
    ),
    ("control: destroy_object", Call::Destroy(MADE)),
    ("", Call::Cleanup),
    ("", Call::Notes),
    (
        "send_event of a destructor, with room for its note",
        Call::SendGone,
    ),
];

/// How many clients, and how many objects of the first one, the iterators give.
fn walked(server: &Server) -> u32 {
    let mut count = 0u32;
    for _client in server.all_clients() {
        count = count.wrapping_add(1);
    }
    if let Ok(objects) = server.all_objects_for(&FIRST.id()) {
        for _object in objects {
            count = count.wrapping_add(1);
        }
    }
    count
}

/// Whether each look-up finds what it has to.
fn is_looked_up(server: &Server) -> bool {
    let mut count = 0u32;
    server.with_all_clients(&mut |_| count = count.wrapping_add(1));
    let has_clients = count == 2;
    // Two clients, and of the first the display, the registry, what is bound, and what was made.
    has_clients
        && walked(server) == 6
        && server.next_client_id().is_some()
        && server.get_client_data(&FIRST.id()).is_ok()
        && server.transport(&FIRST.id()).is_ok()
        && server.waiting(&FIRST.id()).is_ok()
        && server.violation(&FIRST.id()).is_none()
        && are_objects_looked_up(server)
        && is_global_looked_up(server)
}

/// The same of objects.
fn are_objects_looked_up(server: &Server) -> bool {
    let mut count = 0u32;
    let answer = server.with_all_objects_for(&FIRST.id(), &mut |_| count = count.wrapping_add(1));
    // The display, the registry, what is bound, and what was made.
    answer.is_ok()
        && count == 4
        && server.object_info(&MADE.id()).is_ok()
        && server.get_client(&MADE.id()).is_ok()
        && server.get_object_data(&MADE.id()).is_ok()
        && server
            .object_for_protocol_id(&FIRST.id(), QUAD, 0xFF00_0000)
            .is_ok()
}

/// The same of the global.
fn is_global_looked_up(server: &Server) -> bool {
    server.global_info(&GLOBAL.id()).is_ok()
        && server.get_global_handler(&GLOBAL.id()).is_ok()
        && server.global_name(&GLOBAL.id(), &FIRST.id()).is_some()
        && server.next_global_id().is_some()
        && server.protocol().get(QUAD).is_some()
}

/// Inserts a client that sends these bytes; whether that is done.
fn insert<'a>(drops: &'a Cell<u64>, server: &mut Server<'a>, bytes: &'static [u8]) -> bool {
    let line = Line::new(bytes, Counted::new(drops, 1));
    server.insert_client(line, Counted::new(drops, 1)).is_ok()
}

/// Makes a call that is given a value; whether it is answered as it has to be.
fn give<'a>(drops: &'a Cell<u64>, server: &mut Server<'a>, call: Call) -> bool {
    let value = Counted::new(drops, 1);
    match call {
        Call::Create => server.create_object(&FIRST.id(), QUAD, 3, value).is_ok(),
        Call::SetData => server.set_object_data(&MADE.id(), value).is_ok(),
        Call::SetMissing => {
            let missing = Thing(SECOND, 0xFF00_0000, 1, QUAD);
            server.set_object_data(&missing.id(), value).is_err()
        }
        _ => server.create_global(QUAD, 3, Offered(value)).is_ok(),
    }
}

/// Finishes an action with a value; whether it is answered as it has to be.
fn finish<'a>(drops: &'a Cell<u64>, server: &mut Server<'a>, call: Call) -> bool {
    let value = Counted::new(drops, 1);
    match call {
        Call::FinishBind => server.finish_bind(&FIRST.id(), value).is_ok(),
        Call::FinishNone => server.finish_bind(&FIRST.id(), value).is_err(),
        Call::FinishReturning => server.finish_bind_returning(&FIRST.id(), value).is_ok(),
        _ => server.finish_request(&FIRST.id(), Some(value)).is_ok(),
    }
}

/// Sends the event that ends the object that was bound first; whether that is done.
fn send_gone(alloc: Global, server: &mut Server) -> bool {
    let gone = Message {
        sender_id: BOUND.id(),
        opcode: GONE,
        args: SmallVec::new(alloc),
    };
    server.send_event(gone).is_ok()
}

/// Makes a call that is given no value; whether it answers that it did what it has to.
fn make_without(server: &mut Server, call: Call) -> bool {
    match call {
        Call::LendData => server.with_object_data(&MADE.id(), |_data| ()).is_ok(),
        Call::DefaultLimit => {
            server.set_default_max_buffer_size(8192);
            true
        }
        Call::Limit => {
            server.set_client_max_buffer_size(&FIRST.id(), 8192);
            true
        }
        Call::ObjectLimit => {
            server.set_object_limit(Some(8));
            true
        }
        Call::Transport => server.transport_mut(&FIRST.id()).is_ok(),
        Call::Next => server.next_action(&FIRST.id()).is_ok(),
        Call::FinishRequest => server.finish_request(&FIRST.id(), None).is_ok(),
        Call::Flush => server.flush(Some(FIRST.id())).is_ok(),
        Call::FlushAll => server.flush(None).is_ok(),
        Call::Notes => server.take_notes().is_ok(),
        Call::Destroy(object) => server.destroy_object(&object.id()).is_ok(),
        Call::Cleanup => server.cleanup().is_ok(),
        _ => {
            server.kill_client(&FIRST.id(), DisconnectReason::ConnectionClosed);
            true
        }
    }
}

/// Makes the call; whether it answers as it has to.
fn make<'a>(alloc: Global, drops: &'a Cell<u64>, server: &mut Server<'a>, call: Call) -> bool {
    match call {
        Call::Insert(bytes) => insert(drops, server, bytes),
        Call::Create | Call::Global | Call::SetData | Call::SetMissing => give(drops, server, call),
        Call::FinishBind | Call::FinishNone | Call::FinishReturning | Call::FinishMade => {
            finish(drops, server, call)
        }
        Call::LookUp => is_looked_up(server),
        Call::SendGone => send_gone(alloc, server),
        _ => make_without(server, call),
    }
}

/// Makes the call between the lines that name and end it. Fails if it does not answer as it has to, or was refused memory.
fn counted<'a>(
    rt: &(impl Eprint + AllocGlobal),
    drops: &'a Cell<u64>,
    server: &mut Server<'a>,
    (name, call): (&str, Call),
) -> Result<(), Fail> {
    begin(rt, name);
    let is_made = make(rt.alloc(), drops, server, call);
    end(rt, name);
    holds(rt, name, is_made && !server.memory_refused())
}

/// Makes the calls.
fn all_counted<'a>(
    rt: &(impl Eprint + AllocGlobal),
    drops: &'a Cell<u64>,
    server: &mut Server<'a>,
    calls: &[(&str, Call)],
) -> Result<(), Fail> {
    for call in calls {
        counted(rt, drops, server, *call)?;
    }
    Ok(())
}

/// Makes a server, which takes no memory, and the calls.
fn counted_of_new<'a>(
    rt: &(impl Eprint + AllocGlobal),
    drops: &'a Cell<u64>,
    calls: &[(&str, Call)],
) -> Result<(), Fail> {
    let protocol = quad_table(rt.alloc())?;
    begin(rt, "new");
    let mut server: Server<'a> = Backend::new(rt.alloc(), protocol);
    end(rt, "new");
    let answer = all_counted(rt, drops, &mut server, calls);
    drop(server);
    answer
}

#[test]
fn takes_no_memory(rt: HostRuntime) -> Result<(), Fail> {
    let drops = Cell::new(0);
    counted_of_new(&rt, &drops, &CALLS)?;
    counted_of_new(&rt, &drops, &WITH_ROOM)
}
