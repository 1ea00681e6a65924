//! Calls that stand beside others, each compared with its twin: the same run by either tells the same. What the twin does not
//! tell has rows of its own: data that come back, and ids that are told beforehand.

use super::run::{Act, Beside, Look, Row, rows_tell};
use server_test_kit::arrivals::{BIND, DESTROY, GET_REGISTRY, MAKE, SYNC, UNKNOWN_OPCODE};
use server_test_kit::steps::Call;
use server_test_kit::values::{BOUND, Event, FIRST, Named, SECOND, Thing, Who};
use std::test::Fail;
use test_kit::quad::QUAD;
use wl_wire::InterfaceId;

/// The first object that the server makes for the first client.
const MADE: Thing = Thing(FIRST, 0xFF00_0000, 1, QUAD);

/// The object that `quad.make` makes after the bind.
const NEW: Thing = Thing(FIRST, 4, 3, QUAD);

/// `quad.link`, by object 3, of object 4 and of itself.
const LINK_OF_BOTH: [u8; 16] = [3, 0, 0, 0, 3, 0, 16, 0, 4, 0, 0, 0, 3, 0, 0, 0];

/// What both runs of events tell.
const EVENTS: &str =
    "client 0, 1\ncreated 4278190080, 1, 4 of 0\ndone\nthe interface has no event of that opcode\ndone\nInvalid Id\nInvalid Id\ndone\n00 00 00 ff 00 00 0c 00 07 00 00 00 00 00 00 ff 02 00 08 00\nout:\ninitialized 0, 1\ndestroyed 4278190080, 1, 4 of 0 with 9\n";

/// What both runs of readings tell.
const READINGS: &str =
    "client 0, 1\nglobal 1, 1\nIo error: would block\nIo error: would block\nglobal 1, 1 bound as 3, 2, 4 of 0\nan action is open\nfinished\nrequest 2 to 3, 2, 4 of 0, which ends it\nfinished\nIo error: invalid input\n";

/// What both runs of readings with bounds tell.
const WITHIN: &str =
    "client 0, 1\nglobal 1, 1\nIo error: would block\n0 left, 0 read\nglobal 1, 1 bound as 3, 2, 4 of 0\n6 left, 2 read\nan action is open\n5 left, 0 read\nfinished\nIo error: would block\n63 left, 0 read\n";

/// What both runs of ends tell.
const ENDS: &str =
    "client 0, 1\nno action is open\nno action is open, 4 is back\nglobal 1, 1\nglobal 1, 1 bound as 3, 2, 4 of 0\nthe open action is of the other kind\nfinished\nrequest 1 to 3, 2, 4 of 0: new 4, 3, 4 of 0, which makes 4, 3, 4 of 0\nthe open action is of the other kind, 4 is back\nthe new object gets no user data\nfinished\ndata 9\ndata 5\nrequest 2 to 3, 2, 4 of 0, which ends it\nthere is no new object for the user data, 1 is back\nfinished\nInvalid Id\n";

/// The runs, and what they tell.
static ROWS: [Row; 16] = [
    Row {
        name: "events are given",
        acts: &[
            Act::Do(Call::Insert(true)),
            Act::Do(Call::Create(FIRST, QUAD, 3, 9)),
            Act::Do(Call::Send(Event::Moved(MADE, 7))),
            Act::Do(Call::Send(Event::Bare(MADE, 9))),
            Act::Do(Call::Send(Event::Bare(MADE, 2))),
            Act::Do(Call::Send(Event::Moved(MADE, 7))),
            Act::Do(Call::Send(Event::Bare(Thing(SECOND, 1, 0, QUAD), 0))),
            Act::Do(Call::Flush(FIRST)),
            Act::Do(Call::TakeSent(FIRST)),
            Act::Do(Call::Cleanup),
            Act::Do(Call::Notes),
        ],
        told: EVENTS,
    },
    Row {
        name: "events are lent",
        acts: &[
            Act::Do(Call::Insert(true)),
            Act::Do(Call::Create(FIRST, QUAD, 3, 9)),
            Act::Beside(Beside::SendLent(Event::Moved(MADE, 7))),
            Act::Beside(Beside::SendLent(Event::Bare(MADE, 9))),
            Act::Beside(Beside::SendLent(Event::Bare(MADE, 2))),
            Act::Beside(Beside::SendLent(Event::Moved(MADE, 7))),
            Act::Beside(Beside::SendLent(Event::Bare(Thing(SECOND, 1, 0, QUAD), 0))),
            Act::Do(Call::Flush(FIRST)),
            Act::Do(Call::TakeSent(FIRST)),
            Act::Do(Call::Cleanup),
            Act::Do(Call::Notes),
        ],
        told: EVENTS,
    },
    Row {
        name: "actions are answered",
        acts: &[
            Act::Do(Call::Insert(true)),
            Act::Do(Call::Global(QUAD, 3)),
            Act::Do(Call::Next(FIRST)),
            Act::Do(Call::Arrive(FIRST, &GET_REGISTRY)),
            Act::Do(Call::Next(FIRST)),
            Act::Do(Call::Arrive(FIRST, &BIND)),
            Act::Do(Call::Next(FIRST)),
            Act::Do(Call::Next(FIRST)),
            Act::Do(Call::FinishBind(FIRST, 9)),
            Act::Do(Call::Arrive(FIRST, &DESTROY)),
            Act::Do(Call::Next(FIRST)),
            Act::Do(Call::Finish(FIRST, None)),
            Act::Do(Call::Next(SECOND)),
        ],
        told: READINGS,
    },
    Row {
        name: "actions are put where they are wanted",
        acts: &[
            Act::Do(Call::Insert(true)),
            Act::Do(Call::Global(QUAD, 3)),
            Act::Beside(Beside::NextInto(FIRST)),
            Act::Do(Call::Arrive(FIRST, &GET_REGISTRY)),
            Act::Beside(Beside::NextInto(FIRST)),
            Act::Do(Call::Arrive(FIRST, &BIND)),
            Act::Beside(Beside::NextInto(FIRST)),
            Act::Beside(Beside::NextInto(FIRST)),
            Act::Do(Call::FinishBind(FIRST, 9)),
            Act::Do(Call::Arrive(FIRST, &DESTROY)),
            Act::Beside(Beside::NextInto(FIRST)),
            Act::Do(Call::Finish(FIRST, None)),
            Act::Beside(Beside::NextInto(SECOND)),
        ],
        told: READINGS,
    },
    // The second action has neither the new object nor the argument of the first.
    Row {
        name: "two actions are put at the same place",
        acts: &[
            Act::Do(Call::Insert(true)),
            Act::Do(Call::Global(QUAD, 3)),
            Act::Do(Call::Arrive(FIRST, &GET_REGISTRY)),
            Act::Do(Call::Arrive(FIRST, &BIND)),
            Act::Do(Call::Next(FIRST)),
            Act::Do(Call::FinishBind(FIRST, 9)),
            Act::Do(Call::Arrive(FIRST, &MAKE)),
            Act::Do(Call::Arrive(FIRST, &LINK_OF_BOTH)),
            Act::Beside(Beside::NextTwoInto(FIRST, 8)),
            Act::Do(Call::Finish(FIRST, None)),
        ],
        told: "client 0, 1\nglobal 1, 1\nglobal 1, 1 bound as 3, 2, 4 of 0\nfinished\nrequest 3 to 3, 2, 4 of 0: object 4, 3, 4 of 0: object 3, 2, 4 of 0\nfinished\n",
    },
    Row {
        name: "actions of bounded readings are answered",
        acts: &[
            Act::Do(Call::Insert(true)),
            Act::Do(Call::Global(QUAD, 3)),
            Act::Do(Call::NextWithin(FIRST, 1)),
            Act::Do(Call::Arrive(FIRST, &GET_REGISTRY)),
            Act::Do(Call::Arrive(FIRST, &BIND)),
            Act::Do(Call::NextWithin(FIRST, 8)),
            Act::Do(Call::NextWithin(FIRST, 5)),
            Act::Do(Call::FinishBind(FIRST, 9)),
            Act::Do(Call::NextWithin(FIRST, 64)),
        ],
        told: WITHIN,
    },
    Row {
        name: "actions of bounded readings are put where they are wanted",
        acts: &[
            Act::Do(Call::Insert(true)),
            Act::Do(Call::Global(QUAD, 3)),
            Act::Beside(Beside::NextWithinInto(FIRST, 1)),
            Act::Do(Call::Arrive(FIRST, &GET_REGISTRY)),
            Act::Do(Call::Arrive(FIRST, &BIND)),
            Act::Beside(Beside::NextWithinInto(FIRST, 8)),
            Act::Beside(Beside::NextWithinInto(FIRST, 5)),
            Act::Do(Call::FinishBind(FIRST, 9)),
            Act::Beside(Beside::NextWithinInto(FIRST, 64)),
        ],
        told: WITHIN,
    },
    Row {
        name: "ends are made",
        acts: &[
            Act::Do(Call::Insert(true)),
            Act::Do(Call::Finish(FIRST, None)),
            Act::Do(Call::FinishBind(FIRST, 4)),
            Act::Do(Call::Global(QUAD, 3)),
            Act::Do(Call::Arrive(FIRST, &GET_REGISTRY)),
            Act::Do(Call::Arrive(FIRST, &BIND)),
            Act::Do(Call::Next(FIRST)),
            Act::Do(Call::Finish(FIRST, None)),
            Act::Do(Call::FinishBind(FIRST, 9)),
            Act::Do(Call::Arrive(FIRST, &MAKE)),
            Act::Do(Call::Next(FIRST)),
            Act::Do(Call::FinishBind(FIRST, 4)),
            Act::Do(Call::Finish(FIRST, None)),
            Act::Do(Call::Finish(FIRST, Some(5))),
            Act::Look(Look::Data(BOUND)),
            Act::Look(Look::Data(NEW)),
            Act::Do(Call::Arrive(FIRST, &DESTROY)),
            Act::Do(Call::Next(FIRST)),
            Act::Do(Call::Finish(FIRST, Some(1))),
            Act::Do(Call::Finish(FIRST, None)),
            Act::Look(Look::Data(BOUND)),
        ],
        told: ENDS,
    },
    Row {
        name: "ends are made that tell of the data",
        acts: &[
            Act::Do(Call::Insert(true)),
            Act::Beside(Beside::FinishReturning(FIRST, None)),
            Act::Beside(Beside::FinishBindReturning(FIRST, 4)),
            Act::Do(Call::Global(QUAD, 3)),
            Act::Do(Call::Arrive(FIRST, &GET_REGISTRY)),
            Act::Do(Call::Arrive(FIRST, &BIND)),
            Act::Do(Call::Next(FIRST)),
            Act::Beside(Beside::FinishReturning(FIRST, None)),
            Act::Beside(Beside::FinishBindReturning(FIRST, 9)),
            Act::Do(Call::Arrive(FIRST, &MAKE)),
            Act::Do(Call::Next(FIRST)),
            Act::Beside(Beside::FinishBindReturning(FIRST, 4)),
            Act::Beside(Beside::FinishReturning(FIRST, None)),
            Act::Beside(Beside::FinishReturning(FIRST, Some(5))),
            Act::Look(Look::Data(BOUND)),
            Act::Look(Look::Data(NEW)),
            Act::Do(Call::Arrive(FIRST, &DESTROY)),
            Act::Do(Call::Next(FIRST)),
            Act::Beside(Beside::FinishReturning(FIRST, Some(1))),
            Act::Beside(Beside::FinishReturning(FIRST, None)),
            Act::Look(Look::Data(BOUND)),
        ],
        told: ENDS,
    },
    // The objects that a bind and a request made are destroyed before the end: the data come back, and are no one's.
    Row {
        name: "data come back",
        acts: &[
            Act::Do(Call::Insert(true)),
            Act::Do(Call::Global(QUAD, 3)),
            Act::Do(Call::Create(FIRST, QUAD, 3, 7)),
            Act::Do(Call::Arrive(FIRST, &GET_REGISTRY)),
            Act::Do(Call::Arrive(FIRST, &BIND)),
            Act::Do(Call::Next(FIRST)),
            Act::Do(Call::Destroy(Thing(FIRST, 3, 3, QUAD))),
            Act::Beside(Beside::FinishBindReturning(FIRST, 9)),
            Act::Look(Look::Data(Thing(FIRST, 3, 3, QUAD))),
            Act::Do(Call::Cleanup),
            Act::Do(Call::Notes),
            Act::Do(Call::Arrive(FIRST, &[0, 0, 0, 255, 1, 0, 12, 0, 3, 0, 0, 0])),
            Act::Do(Call::Next(FIRST)),
            Act::Do(Call::Destroy(Thing(FIRST, 3, 4, QUAD))),
            Act::Beside(Beside::FinishReturning(FIRST, Some(5))),
            Act::Do(Call::Cleanup),
            Act::Do(Call::Notes),
        ],
        told: "client 0, 1\nglobal 1, 1\ncreated 4278190080, 1, 4 of 0\nglobal 1, 1 bound as 3, 3, 4 of 0\ndone\n9 came back\nfinished\nInvalid Id\nout:\ninitialized 0, 1\nrequest 1 to 4278190080, 1, 4 of 0: new 3, 4, 4 of 0, which makes 3, 4, 4 of 0\ndone\n5 came back\nfinished\nout:\n",
    },
    // A killed client's object is still there: it keeps the data, which are noted when the client is taken out. No data come back
    // if none were given.
    Row {
        name: "data of a killed client",
        acts: &[
            Act::Do(Call::Insert(true)),
            Act::Do(Call::Global(QUAD, 3)),
            Act::Do(Call::Create(FIRST, QUAD, 3, 7)),
            Act::Do(Call::Arrive(FIRST, &GET_REGISTRY)),
            Act::Do(Call::Arrive(FIRST, &BIND)),
            Act::Do(Call::Next(FIRST)),
            Act::Do(Call::Kill(FIRST)),
            Act::Beside(Beside::FinishBindReturning(FIRST, 9)),
            Act::Do(Call::Cleanup),
            Act::Do(Call::Notes),
        ],
        told: "client 0, 1\nglobal 1, 1\ncreated 4278190080, 1, 4 of 0\nglobal 1, 1 bound as 3, 3, 4 of 0\nfinished\nout: client 0, 1 with 1 sends\ninitialized 0, 1\ndisconnected 0, 1: closed\ndestroyed 3, 3, 4 of 0 with 9\ndestroyed 4278190080, 1, 4 of 0 with 7\n",
    },
    Row {
        name: "no data of a killed client",
        acts: &[
            Act::Do(Call::Insert(true)),
            Act::Do(Call::Create(FIRST, QUAD, 3, 7)),
            Act::Do(Call::Arrive(FIRST, &[0, 0, 0, 255, 1, 0, 12, 0, 2, 0, 0, 0])),
            Act::Do(Call::Next(FIRST)),
            Act::Do(Call::Kill(FIRST)),
            Act::Do(Call::Destroy(Thing(FIRST, 2, 2, QUAD))),
            Act::Beside(Beside::FinishReturning(FIRST, None)),
        ],
        told: "client 0, 1\ncreated 4278190080, 1, 4 of 0\nrequest 1 to 4278190080, 1, 4 of 0: new 2, 2, 4 of 0, which makes 2, 2, 4 of 0\ndone\nfinished\n",
    },
    // Data that are lent are changed where they stand. The display has none, and a client that is not stored has no objects.
    Row {
        name: "data lent",
        acts: &[
            Act::Do(Call::Insert(true)),
            Act::Do(Call::Create(FIRST, QUAD, 3, 9)),
            Act::Beside(Beside::AddToData(MADE, 5)),
            Act::Look(Look::Data(MADE)),
            Act::Beside(Beside::AddToData(MADE, 1)),
            Act::Beside(Beside::AddToData(Thing(FIRST, 1, 0, QUAD), 1)),
            Act::Beside(Beside::AddToData(Thing(SECOND, 0xFF00_0000, 1, QUAD), 1)),
            Act::Do(Call::Destroy(MADE)),
            Act::Beside(Beside::AddToData(MADE, 1)),
            Act::Do(Call::Cleanup),
            Act::Do(Call::Notes),
        ],
        told: "client 0, 1\ncreated 4278190080, 1, 4 of 0\nlent 9\ndata 14\nlent 14\nInvalid Id\nInvalid Id\ndone\nInvalid Id\nout:\ninitialized 0, 1\ndestroyed 4278190080, 1, 4 of 0 with 15\n",
    },
    // A malformed message leaves the action as it was.
    Row {
        name: "no action of a malformed message",
        acts: &[
            Act::Do(Call::Insert(true)),
            Act::Do(Call::Arrive(FIRST, &SYNC)),
            Act::Do(Call::Arrive(FIRST, &UNKNOWN_OPCODE)),
            Act::Beside(Beside::NextInto(FIRST)),
            Act::Beside(Beside::NextWithinInto(FIRST, 3)),
        ],
        told: "client 0, 1\nIo error: protocol fault\nIo error: broken pipe\n3 left, 0 read\n",
    },
    // The next global has the least name that is free and the next serial, whatever became of those before it; a creation that is
    // refused uses up neither.
    Row {
        name: "next globals",
        acts: &[
            Act::Look(Look::NextGlobal),
            Act::Do(Call::Global(QUAD, 3)),
            Act::Look(Look::NextGlobal),
            Act::Do(Call::Global(QUAD, 3)),
            Act::Do(Call::Global(QUAD, 3)),
            Act::Look(Look::NextGlobal),
            Act::Do(Call::Disable(Named(2, 2))),
            Act::Look(Look::NextGlobal),
            Act::Do(Call::Remove(Named(2, 2))),
            Act::Look(Look::NextGlobal),
            Act::Do(Call::Remove(Named(1, 1))),
            Act::Look(Look::NextGlobal),
            Act::Do(Call::Global(QUAD, 9)),
            Act::Do(Call::Global(InterfaceId(99), 1)),
            Act::Look(Look::NextGlobal),
            Act::Do(Call::Global(QUAD, 3)),
            Act::Look(Look::NextGlobal),
            Act::Do(Call::Global(QUAD, 3)),
            Act::Look(Look::NextGlobal),
            Act::Globals(60),
            Act::Look(Look::NextGlobal),
            Act::Globals(1),
            Act::Look(Look::NextGlobal),
            Act::Do(Call::Remove(Named(64, 66))),
            Act::Look(Look::NextGlobal),
        ],
        told: "next global 1, 1\nglobal 1, 1\nnext global 2, 2\nglobal 2, 2\nglobal 3, 3\nnext global 4, 4\nnext global 4, 4\nnext global 2, 4\nnext global 1, 4\nthe version is above the interface's\nthe interface is not in the table\nnext global 1, 4\nglobal 1, 4\nnext global 2, 5\nglobal 2, 5\nnext global 4, 6\nnext global 64, 66\nnext global 65, 67\nnext global 64, 67\n",
    },
    // The next client has the least slot that is free and the next serial. A killed client keeps its slot until it is taken out.
    Row {
        name: "next clients",
        acts: &[
            Act::Look(Look::NextClient),
            Act::Do(Call::Insert(true)),
            Act::Look(Look::NextClient),
            Act::Do(Call::Insert(true)),
            Act::Do(Call::Insert(true)),
            Act::Look(Look::NextClient),
            Act::Do(Call::Kill(SECOND)),
            Act::Look(Look::NextClient),
            Act::Do(Call::Cleanup),
            Act::Look(Look::NextClient),
            Act::Do(Call::Kill(FIRST)),
            Act::Do(Call::Cleanup),
            Act::Look(Look::NextClient),
            Act::Do(Call::Insert(true)),
            Act::Look(Look::NextClient),
            Act::Do(Call::Insert(true)),
            Act::Look(Look::NextClient),
            Act::Do(Call::Kill(Who(2, 3))),
            Act::Do(Call::Cleanup),
            Act::Look(Look::NextClient),
        ],
        told: "next client 0, 1\nclient 0, 1\nnext client 1, 2\nclient 1, 2\nclient 2, 3\nnext client 3, 4\nnext client 3, 4\nout: client 1, 2 with 0 sends\nnext client 1, 4\nout: client 0, 1 with 0 sends\nnext client 0, 4\nclient 0, 4\nnext client 1, 5\nclient 1, 5\nnext client 3, 6\nout: client 2, 3 with 0 sends\nnext client 2, 6\n",
    },
];

/// Each run tells what it has to.
#[test]
fn rows(rt: HostRuntime) -> Result<(), Fail> {
    rows_tell(&rt, &ROWS)
}
