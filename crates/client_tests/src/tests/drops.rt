//! What a call was given and refuses, and what a session gives up, is dropped, once and then: each value counts its drops.

use crate::kit::line::Line;
use crate::kit::values::{Object, Request, message};
use std::alloc::Global;
use std::cell::Cell;
use std::test::Fail;
use test_kit::counted::{Counted, tell_drops};
use test_kit::log::row_tells;
use test_kit::quad::quad_table;
use wl_client::Backend;

/// A client whose transport and data count their drops.
type Client<'a> = Backend<Line<'a>, Counted<'a>>;

/// A call of a run. Data are named by their weight; the weight of the transport is 1.
#[derive(Clone, Copy)]
enum Act {
    /// Sends the request with these data.
    Send(Request, u64),
    /// Gives the object these data.
    SetData(Object, u64),
    /// Destroys the object.
    Destroy(Object),
    /// Takes the object out, which both sides have given up.
    Reclaim(Object),
    /// Reads the next event.
    Next,
    /// Finishes the open event with these data.
    Finish(Option<u64>),
    /// Takes the notes.
    Notes,
}

/// Sends the request with these data.
fn send<'a>(
    alloc: Global,
    drops: &'a Cell<u64>,
    client: &mut Client<'a>,
    log: &mut String,
    (request, weight): (Request, u64),
) -> Result<(), Fail> {
    let message = message(alloc, request)?;
    let (_, wish) = request.child();
    let data = Some(Counted::new(drops, weight));
    tell_drops(drops, log, client.send_request(message, data, wish))
}

/// Makes the call, and tells what it dropped.
fn perform<'a>(
    alloc: Global,
    drops: &'a Cell<u64>,
    client: &mut Client<'a>,
    log: &mut String,
    act: Act,
) -> Result<(), Fail> {
    match act {
        Act::Send(request, weight) => send(alloc, drops, client, log, (request, weight)),
        Act::SetData(object, weight) => {
            let data = Counted::new(drops, weight);
            tell_drops(drops, log, client.set_data(&object.id(), data))
        }
        Act::Destroy(object) => tell_drops(drops, log, client.destroy_object(&object.id())),
        Act::Reclaim(object) => tell_drops(drops, log, client.reclaim(&object.id())),
        Act::Next => tell_drops(drops, log, client.next_event()),
        Act::Finish(weight) => {
            let data = weight.map(|weight| Counted::new(drops, weight));
            tell_drops(drops, log, client.finish_event(data))
        }
        Act::Notes => tell_drops(drops, log, client.take_notes()),
    }
}

/// Makes the calls.
fn perform_all<'a>(
    alloc: Global,
    drops: &'a Cell<u64>,
    client: &mut Client<'a>,
    log: &mut String,
    acts: &[Act],
) -> Result<(), Fail> {
    for act in acts {
        perform(alloc, drops, client, log, *act)?;
    }
    Ok(())
}

/// A row of a table of runs: what a failing one is named, what the server sends, the calls, and what they drop.
struct Row {
    name: &'static str,
    from_server: &'static [u8],
    acts: &'static [Act],
    told: &'static str,
}

/// The client of the run.
fn connected<'a>(alloc: Global, drops: &'a Cell<u64>, row: &'a Row) -> Result<Client<'a>, Fail> {
    let table = quad_table(alloc)?;
    let line = Line::new(row.from_server, Counted::new(drops, 1));
    Ok(Backend::connect(alloc, table, line)?)
}

/// Makes the run of a new client, whose session ends after it.
fn run<'a>(
    alloc: Global,
    drops: &'a Cell<u64>,
    log: &mut String,
    row: &'a Row,
) -> Result<(), Fail> {
    let mut client = connected(alloc, drops, row)?;
    let answer = perform_all(alloc, drops, &mut client, log, row.acts);
    drop(client);
    answer
}

/// What was dropped by each call of the run, and in the end.
fn log_of(alloc: Global, row: &Row) -> Result<String, Fail> {
    let drops = Cell::new(0);
    let mut log = String::new(alloc);
    run(alloc, &drops, &mut log, row)?;
    writeln!(log, "{:08}", drops.get())?;
    Ok(log)
}

/// `wl_display.delete_id` of the number 2.
const DELETE_2: [u8; 12] = [1, 0, 0, 0, 1, 0, 12, 0, 2, 0, 0, 0];

/// `quad.made`, by object 3, of the first object of the server's range; `quad.gone`, by object 3; and `wl_display.delete_id`
/// of the number 3.
const MADE_GONE_AND_DELETE_3: [u8; 32] = [
    3, 0, 0, 0, 1, 0, 12, 0, 0, 0, 0, 255, 3, 0, 0, 0, 2, 0, 8, 0, 1, 0, 0, 0, 1, 0, 12, 0, 3, 0,
    0, 0,
];

/// The runs. After each call there is what it has dropped, and what was dropped with its answer; at the end, what has been
/// dropped once the session has ended.
static ROWS: [Row; 5] = [
    // What a refused call was given: by a request that the interface does not have, by one whose new id is not null, by one of a
    // sender that is not there; and for an object that is not there.
    Row {
        name: "calls are refused",
        from_server: &[],
        acts: &[
            Act::Send(Request::Bare(Object::Display, 9), 10),
            Act::Send(Request::SyncOf(Object::Display), 100),
            Act::Send(Request::Bind, 1000),
            Act::SetData(Object::Quad, 10_000),
        ],
        told: "00000010, 00000010\n00000110, 00000110\n00001110, 00001110\n00011110, 00011110\n00011111\n",
    },
    // Data for which a request makes no object are dropped, and so are those in whose place others come.
    Row {
        name: "data are replaced",
        from_server: &[],
        acts: &[
            Act::Send(Request::GetRegistry, 10),
            Act::Send(Request::Bind, 100),
            Act::Send(
                Request::Link(Object::Quad, Object::Null, Object::Quad),
                1000,
            ),
            Act::SetData(Object::Quad, 10_000),
            Act::Destroy(Object::Quad),
            Act::SetData(Object::Quad, 100_000),
            Act::Notes,
        ],
        told: "00000000, 00000000\n00000000, 00000000\n00001000, 00001000\n00001100, 00001100\n00001100, 00001100\n00011100, 00011100\n00011100, 00011100\n00111111\n",
    },
    // The data of an object that the client destroyed are dropped in the reading in which the server gives its number up.
    Row {
        name: "an object leaves",
        from_server: &DELETE_2,
        acts: &[
            Act::Send(Request::Sync, 10),
            Act::Destroy(Object::Callback),
            Act::Notes,
            Act::Next,
            Act::Send(Request::Sync, 100),
        ],
        told: "00000000, 00000000\n00000000, 00000000\n00000000, 00000000\n00000010, 00000010\n00000010, 00000010\n00000111\n",
    },
    // If the server gives the number up first, they are dropped as the object is reclaimed.
    Row {
        name: "an object is reclaimed",
        from_server: &DELETE_2,
        acts: &[
            Act::Send(Request::Sync, 10),
            Act::Next,
            Act::Reclaim(Object::Callback),
            Act::Destroy(Object::Callback),
            Act::Reclaim(Object::Callback),
            Act::Send(Request::Sync, 100),
        ],
        told: "00000000, 00000000\n00000000, 00000000\n00000000, 00000000\n00000000, 00000000\n00000010, 00000010\n00000010, 00000010\n00000111\n",
    },
    // Data come back if the end of an event is refused: no event is open, or the event made no object. Those of an object that an
    // event ended are dropped as the server gives its number up.
    Row {
        name: "ends of events",
        from_server: &MADE_GONE_AND_DELETE_3,
        acts: &[
            Act::Send(Request::GetRegistry, 10),
            Act::Send(Request::Bind, 100),
            Act::Finish(Some(1000)),
            Act::Next,
            Act::Finish(None),
            Act::Finish(Some(10_000)),
            Act::Next,
            Act::Finish(Some(100_000)),
            Act::Finish(None),
            Act::Next,
        ],
        told: "00000000, 00000000\n00000000, 00000000\n00000000, 00001000\n00001000, 00001000\n00001000, 00001000\n00001000, 00001000\n00001000, 00001000\n00001000, 00101000\n00101000, 00101000\n00101100, 00101100\n00111111\n",
    },
];

/// Each value is dropped where it has to be.
#[test]
fn rows(rt: HostRuntime) -> Result<(), Fail> {
    for row in &ROWS {
        row_tells(&rt, row.name, log_of(rt.alloc(), row), row.told)?;
    }
    Ok(())
}
