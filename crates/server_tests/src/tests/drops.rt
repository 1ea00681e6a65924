//! What a call was given and refuses, and what the server gives up, is dropped, once and then: each value counts its drops.

use server_test_kit::arrivals::{MAKE_BY_SERVER, SYNC_AT_5};
use server_test_kit::counted::{Line, Offered};
use server_test_kit::values::{FIRST, Named, SECOND, Thing, Who};
use smallvec::SmallVec;
use std::alloc::Global;
use std::cell::Cell;
use std::test::Fail;
use test_kit::counted::{Counted, tell_drops};
use test_kit::log::row_tells;
use test_kit::quad::{QUAD, quad_table};
use wl_server::{Backend, ClientId, DisconnectReason, GlobalId, Handler, ObjectId};
use wl_wire::{Argument, INLINE_ARGS, InterfaceId, Token, WL_CALLBACK_INTERFACE};

/// A server all of whose values count their drops.
type Server<'a> = Backend<Line<'a>, Counted<'a>, Offered<'a>, Counted<'a>>;

/// An interface that the table does not have.
const MISSING: InterfaceId = InterfaceId(99);

/// The first object that the server makes for the first client, if that has no other.
const MADE: Thing = Thing(FIRST, 0xFF00_0000, 1, QUAD);

/// A call of a run. A value is named by its weight.
#[derive(Clone, Copy)]
enum Act {
    /// Inserts a client with this transport, over which these bytes come, and with these data.
    Insert(u64, &'static [u8], u64),
    /// Creates an object with these data.
    Create(Who, InterfaceId, u64),
    /// Gives the object these data.
    SetData(Thing, u64),
    /// Destroys the object.
    Destroy(Thing),
    /// Creates a global with this handler.
    Global(InterfaceId, u64),
    /// Removes the global.
    Remove(Named),
    /// Reads the next action.
    Next(Who),
    /// Finishes a request with these data.
    Finish(Who, Option<u64>),
    /// Finishes a bind with these data.
    FinishBind(Who, u64),
    /// Kills the client, as closed.
    Kill(Who),
    /// Cleans up.
    Cleanup,
    /// Takes the notes.
    Notes,
    /// Dispatches the client with a handler that answers the value of this weight first, then of ten times that, and so on.
    Dispatch(Who, u64),
    /// The same with a handler that destroys what is bound.
    DispatchUndone(Who, u64),
    /// The same with a handler that takes its client out.
    DispatchTakenOut(Who, u64),
}

/// Answers a value to each action, and makes no call.
#[derive(Drop)]
struct Answering<'a> {
    drops: &'a Cell<u64>,
    weight: u64,
}

impl<'a> Answering<'a> {
    /// The next answer.
    fn answer(&mut self) -> Counted<'a> {
        let answer = Counted::new(self.drops, self.weight);
        self.weight = self.weight.wrapping_mul(10);
        answer
    }
}

impl<'a> Handler<Line<'a>, Counted<'a>, Offered<'a>, Counted<'a>> for Answering<'a> {
    ghost use Rattle.std.specs.Prelude.{◌≡◌};

    ghost requests = { λ h b id sender opcode args created u h' b'. b' ≡ b };

    ghost binds = { λ h b id global object u h' b'. b' ≡ b };

    fn request(
        &mut self,
        _backend: &mut Server<'a>,
        _client: &ClientId,
        _sender: ObjectId,
        _opcode: u16,
        _args: SmallVec<Argument<ObjectId, Token>, INLINE_ARGS>,
        _created: Option<ObjectId>,
    ) -> Option<Counted<'a>> {
        Some(self.answer())
    }

    fn bind(
        &mut self,
        _backend: &mut Server<'a>,
        _client: &ClientId,
        _global: GlobalId,
        _object: ObjectId,
    ) -> Counted<'a> {
        self.answer()
    }
}

/// Destroys what is bound, and answers a value to that.
#[derive(Drop)]
struct Undoing<'a>(Answering<'a>);

impl<'a> Handler<Line<'a>, Counted<'a>, Offered<'a>, Counted<'a>> for Undoing<'a> {
    ghost use Rattle.std.specs.Prelude.{◌≡◌, ⊤};

    ghost requests = { λ h b id sender opcode args created u h' b'. b' ≡ b };

    ghost binds = { λ h b id global object u h' b'. ⊤ };

    fn request(
        &mut self,
        _backend: &mut Server<'a>,
        _client: &ClientId,
        _sender: ObjectId,
        _opcode: u16,
        _args: SmallVec<Argument<ObjectId, Token>, INLINE_ARGS>,
        _created: Option<ObjectId>,
    ) -> Option<Counted<'a>> {
        None
    }

    fn bind(
        &mut self,
        backend: &mut Server<'a>,
        _client: &ClientId,
        _global: GlobalId,
        object: ObjectId,
    ) -> Counted<'a> {
        let _ = backend.destroy_object(&object);
        self.0.answer()
    }
}

/// Takes out the client of each action, and answers a value to that.
#[derive(Drop)]
struct TakingOut<'a>(Answering<'a>);

impl<'a> Handler<Line<'a>, Counted<'a>, Offered<'a>, Counted<'a>> for TakingOut<'a> {
    ghost use Rattle.std.specs.Prelude.{⊤};

    ghost requests = { λ h b id sender opcode args created u h' b'. ⊤ };

    ghost binds = { λ h b id global object u h' b'. ⊤ };

    fn request(
        &mut self,
        backend: &mut Server<'a>,
        client: &ClientId,
        _sender: ObjectId,
        _opcode: u16,
        _args: SmallVec<Argument<ObjectId, Token>, INLINE_ARGS>,
        _created: Option<ObjectId>,
    ) -> Option<Counted<'a>> {
        backend.kill_client(client, DisconnectReason::ConnectionClosed);
        let _ = backend.cleanup();
        Some(self.0.answer())
    }

    fn bind(
        &mut self,
        backend: &mut Server<'a>,
        client: &ClientId,
        _global: GlobalId,
        _object: ObjectId,
    ) -> Counted<'a> {
        backend.kill_client(client, DisconnectReason::ConnectionClosed);
        let _ = backend.cleanup();
        self.0.answer()
    }
}

/// Inserts a client with this transport, over which these bytes come, and with these data.
fn insert<'a>(
    drops: &'a Cell<u64>,
    server: &mut Server<'a>,
    log: &mut String,
    (transport, bytes, data): (u64, &'static [u8], u64),
) -> Result<(), Fail> {
    let line = Line::new(bytes, Counted::new(drops, transport));
    let data = Counted::new(drops, data);
    tell_drops(drops, log, server.insert_client(line, data))
}

/// Makes a call about a client or a global.
fn perform_shared<'a>(
    drops: &'a Cell<u64>,
    server: &mut Server<'a>,
    log: &mut String,
    act: Act,
) -> Result<(), Fail> {
    match act {
        Act::Insert(transport, bytes, data) => {
            insert(drops, server, log, (transport, bytes, data))
        }
        Act::Global(interface, weight) => {
            let handler = Offered(Counted::new(drops, weight));
            tell_drops(drops, log, server.create_global(interface, 3, handler))
        }
        Act::Remove(global) => tell_drops(drops, log, server.remove_global(&global.id())),
        Act::Kill(who) => {
            let why = DisconnectReason::ConnectionClosed;
            tell_drops(drops, log, server.kill_client(&who.id(), why))
        }
        Act::Cleanup => tell_drops(drops, log, server.cleanup()),
        _ => tell_drops(drops, log, server.take_notes()),
    }
}

/// Makes a call about an object.
fn perform_object<'a>(
    drops: &'a Cell<u64>,
    server: &mut Server<'a>,
    log: &mut String,
    act: Act,
) -> Result<(), Fail> {
    match act {
        Act::Create(who, interface, weight) => {
            let data = Counted::new(drops, weight);
            tell_drops(
                drops,
                log,
                server.create_object(&who.id(), interface, 3, data),
            )
        }
        Act::SetData(object, weight) => {
            let data = Counted::new(drops, weight);
            tell_drops(drops, log, server.set_object_data(&object.id(), data))
        }
        Act::Destroy(object) => tell_drops(drops, log, server.destroy_object(&object.id())),
        _ => Err(Fail::new("the call is about no object")),
    }
}

/// Dispatches the client with the handler.
fn dispatch<'a, H: Handler<Line<'a>, Counted<'a>, Offered<'a>, Counted<'a>>>(
    drops: &'a Cell<u64>,
    server: &mut Server<'a>,
    log: &mut String,
    who: Who,
    handler: &mut H,
) -> Result<(), Fail> {
    let answer = server.dispatch_single_client(handler, &who.id());
    tell_drops(drops, log, answer)
}

/// Dispatches a client with a handler that answers the value of this weight first.
fn perform_dispatch<'a>(
    drops: &'a Cell<u64>,
    server: &mut Server<'a>,
    log: &mut String,
    act: Act,
) -> Result<(), Fail> {
    match act {
        Act::Dispatch(who, weight) => {
            dispatch(drops, server, log, who, &mut Answering { drops, weight })
        }
        Act::DispatchUndone(who, weight) => {
            let mut handler = Undoing(Answering { drops, weight });
            dispatch(drops, server, log, who, &mut handler)
        }
        Act::DispatchTakenOut(who, weight) => {
            let mut handler = TakingOut(Answering { drops, weight });
            dispatch(drops, server, log, who, &mut handler)
        }
        _ => Err(Fail::new("the call is no dispatch")),
    }
}

/// Makes a call that reads, or ends an action.
fn perform_reading<'a>(
    drops: &'a Cell<u64>,
    server: &mut Server<'a>,
    log: &mut String,
    act: Act,
) -> Result<(), Fail> {
    match act {
        Act::Next(who) => tell_drops(drops, log, server.next_action(&who.id())),
        Act::Finish(who, weight) => {
            let data = weight.map(|weight| Counted::new(drops, weight));
            tell_drops(drops, log, server.finish_request(&who.id(), data))
        }
        Act::FinishBind(who, weight) => {
            let data = Counted::new(drops, weight);
            tell_drops(drops, log, server.finish_bind(&who.id(), data))
        }
        _ => perform_dispatch(drops, server, log, act),
    }
}

/// Makes the calls, and tells what each dropped.
fn perform_all<'a>(
    drops: &'a Cell<u64>,
    server: &mut Server<'a>,
    log: &mut String,
    acts: &[Act],
) -> Result<(), Fail> {
    for act in acts {
        match act {
            Act::Create(..) | Act::SetData(..) | Act::Destroy(_) => {
                perform_object(drops, server, log, *act)?
            }
            Act::Next(_)
            | Act::Finish(..)
            | Act::FinishBind(..)
            | Act::Dispatch(..)
            | Act::DispatchUndone(..)
            | Act::DispatchTakenOut(..) => perform_reading(drops, server, log, *act)?,
            _ => perform_shared(drops, server, log, *act)?,
        }
    }
    Ok(())
}

/// Makes the calls of a new server, whose session ends after them.
fn run<'a>(
    alloc: Global,
    drops: &'a Cell<u64>,
    log: &mut String,
    acts: &[Act],
) -> Result<(), Fail> {
    let mut server: Server<'a> = Backend::new(alloc, quad_table(alloc)?);
    let answer = perform_all(drops, &mut server, log, acts);
    drop(server);
    answer
}

/// What was dropped by each call of a run, and in the end.
fn log_of(alloc: Global, acts: &[Act]) -> Result<String, Fail> {
    let drops = Cell::new(0);
    let mut log = String::new(alloc);
    run(alloc, &drops, &mut log, acts)?;
    writeln!(log, "{:08}", drops.get())?;
    Ok(log)
}

/// A row of a table of runs: what a failing one is named, its calls, and what they drop.
struct Row {
    name: &'static str,
    acts: &'static [Act],
    told: &'static str,
}

/// `wl_display.get_registry` with the new id 2; `wl_registry.bind`, of the global 1, as `quad` of version 3, with the new id
/// 3; and `quad.destroy`, by object 3.
const BIND_AND_DESTROY: [u8; 52] = [
    1, 0, 0, 0, 1, 0, 12, 0, 2, 0, 0, 0, 2, 0, 0, 0, 0, 0, 32, 0, 1, 0, 0, 0, 5, 0, 0, 0, 113, 117,
    97, 100, 0, 0, 0, 0, 3, 0, 0, 0, 3, 0, 0, 0, 3, 0, 0, 0, 2, 0, 8, 0,
];

/// The same, but for the end: `quad.make`, by the first object of the server's range, with the new id 4.
const BIND_AND_MAKE: [u8; 56] = [
    1, 0, 0, 0, 1, 0, 12, 0, 2, 0, 0, 0, 2, 0, 0, 0, 0, 0, 32, 0, 1, 0, 0, 0, 5, 0, 0, 0, 113, 117,
    97, 100, 0, 0, 0, 0, 3, 0, 0, 0, 3, 0, 0, 0, 0, 0, 0, 255, 1, 0, 12, 0, 4, 0, 0, 0,
];

/// The runs. After each call there is what it has dropped, and what was dropped with its answer; at the end, what has been
/// dropped once the session has ended.
static ROWS: [Row; 11] = [
    // What a refused call was given: by a creation for a client that is not stored, or of an interface that is not there; for an
    // object that is not there; and by a creation of a global of no interface, or of too high a version.
    Row {
        name: "calls are refused",
        acts: &[
            Act::Insert(1, &[], 10),
            Act::Create(SECOND, QUAD, 100),
            Act::Create(FIRST, MISSING, 1000),
            Act::SetData(MADE, 10_000),
            Act::SetData(Thing(SECOND, 0xFF00_0000, 1, QUAD), 100_000),
            Act::Global(MISSING, 1_000_000),
            Act::Global(WL_CALLBACK_INTERFACE, 10_000_000),
        ],
        told: "00000000, 00000000\n00000100, 00000100\n00001100, 00001100\n00011100, 00011100\n00111100, 00111100\n01111100, 01111100\n11111100, 11111100\n11111111\n",
    },
    // Data are dropped as others take their place. The last ones of an object go into the note of its end.
    Row {
        name: "data are replaced",
        acts: &[
            Act::Insert(1, &[], 10),
            Act::Create(FIRST, QUAD, 100),
            Act::SetData(MADE, 1000),
            Act::Destroy(MADE),
            Act::SetData(MADE, 10_000),
            Act::Notes,
            Act::Cleanup,
            Act::Notes,
        ],
        told: "00000000, 00000000\n00000000, 00000000\n00000100, 00000100\n00000100, 00000100\n00010100, 00010100\n00010100, 00010100\n00010100, 00010100\n00010100, 00011100\n00011111\n",
    },
    // Data come back if the end is refused: no action is open, or one of the other kind. If the new object is gone, they are dropped.
    Row {
        name: "ends of actions",
        acts: &[
            Act::Insert(1, &BIND_AND_MAKE, 10),
            Act::Global(QUAD, 100),
            Act::Create(FIRST, QUAD, 1000),
            Act::FinishBind(FIRST, 10_000),
            Act::Next(FIRST),
            Act::Finish(FIRST, Some(100_000)),
            Act::Destroy(Thing(FIRST, 3, 3, QUAD)),
            Act::FinishBind(FIRST, 1_000_000),
            Act::Next(FIRST),
            Act::Destroy(Thing(FIRST, 4, 4, QUAD)),
            Act::Finish(FIRST, Some(10_000_000)),
        ],
        told: "00000000, 00000000\n00000000, 00000000\n00000000, 00000000\n00000000, 00010000\n00010000, 00010000\n00010000, 00110000\n00110000, 00110000\n01110000, 01110000\n01110000, 01110000\n01110000, 01110000\n11110000, 11110000\n11111111\n",
    },
    // A cleanup drops the data of a client that it takes out, and hands out its transport; its objects' data go into notes.
    Row {
        name: "clients are taken out",
        acts: &[
            Act::Insert(1, &[], 10),
            Act::Create(FIRST, QUAD, 100),
            Act::Insert(1000, &[], 10_000),
            Act::Kill(FIRST),
            Act::Cleanup,
            Act::Notes,
            Act::SetData(MADE, 100_000),
        ],
        told: "00000000, 00000000\n00000000, 00000000\n00000000, 00000000\n00000000, 00000000\n00000010, 00000011\n00000011, 00000111\n00100111, 00100111\n00111111\n",
    },
    // The handler of a global is dropped as the global is removed, once.
    Row {
        name: "globals are removed",
        acts: &[
            Act::Global(QUAD, 1),
            Act::Global(QUAD, 10),
            Act::Remove(Named(1, 1)),
            Act::Remove(Named(1, 1)),
            Act::Remove(Named(9, 9)),
            Act::Global(QUAD, 100),
            Act::Remove(Named(1, 1)),
            Act::Remove(Named(2, 2)),
        ],
        told: "00000000, 00000000\n00000000, 00000000\n00000001, 00000001\n00000001, 00000001\n00000001, 00000001\n00000001, 00000001\n00000001, 00000001\n00000011, 00000011\n00000111\n",
    },
    // A handler's first answer becomes the data of what is bound. Its second, to a request that made no object, is dropped.
    Row {
        name: "answers in a dispatch",
        acts: &[
            Act::Insert(1, &BIND_AND_DESTROY, 10),
            Act::Global(QUAD, 100),
            Act::Dispatch(FIRST, 1000),
            Act::Finish(FIRST, None),
            Act::Notes,
        ],
        told: "00000000, 00000000\n00000000, 00000000\n00010000, 00010000\n00010000, 00010000\n00010000, 00011000\n00011111\n",
    },
    // A handler destroys what is bound: its answer is dropped. To the request after that, which makes an object, it has no data
    // to answer.
    Row {
        name: "an answer for an object that is gone",
        acts: &[
            Act::Insert(1, &BIND_AND_MAKE, 10),
            Act::Global(QUAD, 100),
            Act::Create(FIRST, QUAD, 10_000),
            Act::DispatchUndone(FIRST, 1000),
        ],
        told: "00000000, 00000000\n00000000, 00000000\n00000000, 00000000\n00001000, 00001000\n00011111\n",
    },
    // A handler takes its client out: the data of the client and its transport are dropped, and so is the answer, for which
    // there is nothing left: to a request that makes an object, and to a bind. Data of an object go into its note.
    Row {
        name: "an answer to a request of a client that is gone",
        acts: &[
            Act::Insert(1, &MAKE_BY_SERVER, 10),
            Act::Create(FIRST, QUAD, 100),
            Act::DispatchTakenOut(FIRST, 1000),
            Act::Notes,
        ],
        told: "00000000, 00000000\n00000000, 00000000\n00001011, 00001011\n00001011, 00001111\n00001111\n",
    },
    Row {
        name: "an answer to a bind of a client that is gone",
        acts: &[
            Act::Insert(1, &BIND_AND_DESTROY, 10),
            Act::Global(QUAD, 100),
            Act::DispatchTakenOut(FIRST, 1000),
            Act::Notes,
        ],
        told: "00000000, 00000000\n00000000, 00000000\n00001011, 00001011\n00001011, 00001011\n00001111\n",
    },
    // The cleanup of a dispatch drops the transport too.
    Row {
        name: "a client is taken out by a dispatch",
        acts: &[
            Act::Insert(1, &SYNC_AT_5, 10),
            Act::Create(FIRST, QUAD, 100),
            Act::Insert(1000, &[], 10_000),
            Act::Dispatch(FIRST, 100_000),
            Act::Notes,
        ],
        told: "00000000, 00000000\n00000000, 00000000\n00000000, 00000000\n00000011, 00000011\n00000011, 00000111\n00011111\n",
    },
    // The end of a session drops all that it has: data of an object, of a note that was made, of one that waits; of a client and
    // of one that was killed; their transports; and the handler of a global.
    Row {
        name: "a session ends",
        acts: &[
            Act::Insert(1, &BIND_AND_DESTROY, 10),
            Act::Global(QUAD, 100),
            Act::Next(FIRST),
            Act::FinishBind(FIRST, 1000),
            Act::Create(FIRST, QUAD, 10_000),
            Act::Destroy(Thing(FIRST, 0xFF00_0000, 3, QUAD)),
            Act::Cleanup,
            Act::Create(FIRST, QUAD, 100_000),
            Act::Destroy(Thing(FIRST, 0xFF00_0000, 4, QUAD)),
            Act::Insert(1_000_000, &[], 10_000_000),
            Act::Kill(SECOND),
        ],
        told: "00000000, 00000000\n00000000, 00000000\n00000000, 00000000\n00000000, 00000000\n00000000, 00000000\n00000000, 00000000\n00000000, 00000000\n00000000, 00000000\n00000000, 00000000\n00000000, 00000000\n00000000, 00000000\n11111111\n",
    },
];

/// Each value is dropped where it has to be.
#[test]
fn rows(rt: HostRuntime) -> Result<(), Fail> {
    for row in &ROWS {
        row_tells(&rt, row.name, log_of(rt.alloc(), row.acts), row.told)?;
    }
    Ok(())
}
