//! What a program may choose: names of globals that are not given again, versions and numbers of objects; and looks at objects
//! with their data, and a flush that says whether more waits.

use super::run::{Act, Beside, Look, Row, rows_tell};
use server_test_kit::arrivals::{BIND, GET_REGISTRY, MAKE_BY_SERVER, SYNC};
use server_test_kit::steps::Call;
use server_test_kit::values::{DISPLAY, Event, FIRST, Named, SECOND, Thing};
use std::test::Fail;
use test_kit::quad::QUAD;
use wl_wire::{InterfaceId, IoFault};

/// The first object that the server makes for the first client.
const MADE: Thing = Thing(FIRST, 0xFF00_0000, 1, QUAD);

/// An object at the number 2, the first of the client.
const TWO: Thing = Thing(FIRST, 2, 1, QUAD);

/// The object that a request makes there after the server made one.
const CHILD: Thing = Thing(FIRST, 2, 2, QUAD);

/// The runs, and what they tell.
static ROWS: [Row; 8] = [
    // While names are kept, each global gets one that was never in use. Then the least free one is given, as in a new server,
    // and kept again, the least that none ever had.
    Row {
        name: "names are kept",
        acts: &[
            Act::Do(Call::KeepNames(true)),
            Act::Do(Call::Global(QUAD, 3)),
            Act::Do(Call::Remove(Named(1, 1))),
            Act::Look(Look::NextGlobal),
            Act::Do(Call::Global(QUAD, 3)),
            Act::Do(Call::Global(QUAD, 3)),
            Act::Do(Call::Remove(Named(2, 2))),
            Act::Do(Call::KeepNames(false)),
            Act::Look(Look::NextGlobal),
            Act::Do(Call::Global(QUAD, 3)),
            Act::Do(Call::Global(QUAD, 3)),
            Act::Do(Call::Remove(Named(1, 4))),
            Act::Do(Call::KeepNames(true)),
            Act::Look(Look::NextGlobal),
            Act::Do(Call::Global(QUAD, 3)),
        ],
        told: "global 1, 1\nnext global 2, 2\nglobal 2, 2\nglobal 3, 3\nnext global 1, 4\nglobal 1, 4\nglobal 2, 5\nnext global 4, 6\nglobal 4, 6\n",
    },
    // A bind of a removed global that is on its way ends the client, and binds no other one.
    Row {
        name: "bind of a name that is kept",
        acts: &[
            Act::Do(Call::KeepNames(true)),
            Act::Do(Call::Insert(true)),
            Act::Do(Call::Global(QUAD, 3)),
            Act::Do(Call::Arrive(FIRST, &GET_REGISTRY)),
            Act::Do(Call::Next(FIRST)),
            Act::Do(Call::Remove(Named(1, 1))),
            Act::Do(Call::Global(QUAD, 3)),
            Act::Do(Call::Arrive(FIRST, &BIND)),
            Act::Do(Call::Next(FIRST)),
            Act::Do(Call::Notes),
        ],
        told: "client 0, 1\nglobal 1, 1\nIo error: would block\nglobal 2, 2\nIo error: broken pipe\ninitialized 0, 1\ndisconnected 0, 1: error 0 on wl_display 1: Invalid binding of quad version 3 for global 1.\n",
    },
    // A version is refused if the interface has none such; then the requests of the new one are served, and what they make has it.
    Row {
        name: "version is set",
        acts: &[
            Act::Do(Call::Insert(true)),
            Act::Do(Call::Create(FIRST, QUAD, 1, 9)),
            Act::Do(Call::SetVersion(MADE, 0)),
            Act::Do(Call::SetVersion(MADE, 4)),
            Act::Do(Call::SetVersion(TWO, 3)),
            Act::Do(Call::SetVersion(Thing(SECOND, 0xFF00_0000, 1, QUAD), 3)),
            Act::Look(Look::Info(MADE)),
            Act::Do(Call::SetVersion(MADE, 3)),
            Act::Look(Look::Info(MADE)),
            Act::Look(Look::Data(MADE)),
            Act::Do(Call::Arrive(FIRST, &MAKE_BY_SERVER)),
            Act::Do(Call::Next(FIRST)),
            Act::Do(Call::Finish(FIRST, Some(5))),
            Act::Look(Look::Info(CHILD)),
            Act::Do(Call::SetVersion(CHILD, 1)),
            Act::Look(Look::Info(CHILD)),
            Act::Look(Look::Data(CHILD)),
            Act::Do(Call::SetVersion(DISPLAY, 2)),
            Act::Do(Call::SetVersion(DISPLAY, 1)),
        ],
        told: "client 0, 1\ncreated 4278190080, 1, 4 of 0\nthe object's interface has no such version\nthe object's interface has no such version\nInvalid Id\nInvalid Id\nversion 1\ndone\nversion 3\ndata 9\nrequest 1 to 4278190080, 1, 4 of 0: new 2, 2, 4 of 0, which makes 2, 2, 4 of 0\nfinished\nversion 3\ndone\nversion 1\ndata 5\nthe object's interface has no such version\ndone\n",
    },
    // Requests that a lower version lacks are refused.
    Row {
        name: "version is lowered",
        acts: &[
            Act::Do(Call::Insert(true)),
            Act::Do(Call::Create(FIRST, QUAD, 3, 9)),
            Act::Do(Call::SetVersion(MADE, 1)),
            Act::Do(Call::Arrive(FIRST, &MAKE_BY_SERVER)),
            Act::Do(Call::Next(FIRST)),
            Act::Do(Call::Notes),
        ],
        told: "client 0, 1\ncreated 4278190080, 1, 4 of 0\ndone\nIo error: broken pipe\ninitialized 0, 1\ndisconnected 0, 1: error 1 on wl_display 1: invalid method 1 (since 1 < 2), object quad#4278190080\n",
    },
    // A number that the program names has to be the next one, or one that is free again.
    Row {
        name: "number is chosen",
        acts: &[
            Act::Do(Call::Insert(true)),
            Act::Do(Call::CreateAt(FIRST, QUAD, 3, 0, 9)),
            Act::Do(Call::CreateAt(FIRST, QUAD, 3, 1, 9)),
            Act::Do(Call::CreateAt(FIRST, QUAD, 3, 3, 9)),
            Act::Do(Call::CreateAt(FIRST, QUAD, 3, 0xFF00_0000, 9)),
            Act::Do(Call::CreateAt(FIRST, InterfaceId(6), 1, 2, 9)),
            Act::Do(Call::CreateAt(SECOND, QUAD, 3, 2, 9)),
            Act::Do(Call::CreateAt(FIRST, QUAD, 3, 2, 9)),
            Act::Look(Look::Info(TWO)),
            Act::Look(Look::Data(TWO)),
            Act::Do(Call::CreateAt(FIRST, QUAD, 3, 2, 8)),
            Act::Do(Call::Destroy(TWO)),
            Act::Do(Call::CreateAt(FIRST, QUAD, 1, 2, 7)),
            Act::Look(Look::Info(CHILD)),
            Act::Look(Look::Data(CHILD)),
            Act::Do(Call::CreateAt(FIRST, QUAD, 1, 3, 6)),
        ],
        told: "client 0, 1\nthe number is not free\nthe number is not free\nthe number is not free\nthe number is not free\nthe interface is not in the table\nInvalid Id\ncreated 2, 1, 4 of 0\nversion 3\ndata 9\nthe number is not free\ndone\ncreated 2, 2, 4 of 0\nversion 1\ndata 7\ncreated 3, 3, 4 of 0\n",
    },
    // A client that gives such a number to an object of its own is refused.
    Row {
        name: "chosen number is no new id",
        acts: &[
            Act::Do(Call::Insert(true)),
            Act::Do(Call::CreateAt(FIRST, QUAD, 3, 2, 9)),
            Act::Do(Call::Arrive(FIRST, &SYNC)),
            Act::Do(Call::Next(FIRST)),
            Act::Do(Call::Notes),
        ],
        told: "client 0, 1\ncreated 2, 1, 4 of 0\nIo error: broken pipe\ninitialized 0, 1\ndisconnected 0, 1: error 0 on wl_display 1: Invalid new_id: 2.\n",
    },
    // Objects are found by number alone, and each has its data.
    Row {
        name: "objects with their data",
        acts: &[
            Act::Do(Call::Insert(true)),
            Act::Do(Call::Create(FIRST, QUAD, 3, 9)),
            Act::Do(Call::Create(FIRST, QUAD, 3, 8)),
            Act::Look(Look::Held(FIRST, 0xFF00_0001)),
            Act::Look(Look::Held(FIRST, 1)),
            Act::Look(Look::Held(FIRST, 2)),
            Act::Look(Look::Held(FIRST, 0)),
            Act::Look(Look::Held(SECOND, 1)),
            Act::Look(Look::HeldWalk(FIRST)),
            Act::Look(Look::HeldWalk(SECOND)),
        ],
        told: "client 0, 1\ncreated 4278190080, 1, 4 of 0\ncreated 4278190081, 2, 4 of 0\n4278190081, 2, 4 of 0 with 8\n1, 0, 1 of 0\nInvalid Id\nInvalid Id\nInvalid Id\n1, 0, 1 of 0\n4278190080, 1, 4 of 0 with 9\n4278190081, 2, 4 of 0 with 8\nInvalid Id\n",
    },
    // A transport that takes nothing more leaves something that waits; another fault is told as a flush tells it.
    Row {
        name: "flush of one client",
        acts: &[
            Act::Beside(Beside::FlushClient(FIRST)),
            Act::Do(Call::Insert(true)),
            Act::Beside(Beside::FlushClient(FIRST)),
            Act::Do(Call::Create(FIRST, QUAD, 3, 9)),
            Act::Do(Call::Send(Event::Moved(MADE, 7))),
            Act::Do(Call::Accept(FIRST, 5)),
            Act::Do(Call::Accept(FIRST, 0)),
            Act::Beside(Beside::FlushClient(FIRST)),
            Act::Do(Call::AcceptFault(FIRST, IoFault::WouldBlock)),
            Act::Beside(Beside::FlushClient(FIRST)),
            Act::Do(Call::AcceptFault(FIRST, IoFault::Pipe)),
            Act::Beside(Beside::FlushClient(FIRST)),
            Act::Beside(Beside::FlushClient(FIRST)),
            Act::Do(Call::TakeSent(FIRST)),
        ],
        told: "all is sent\nclient 0, 1\nall is sent\ncreated 4278190080, 1, 4 of 0\ndone\nmore waits\nmore waits\nbroken pipe\nall is sent\n00 00 00 ff 00\n00 0c 00 07 00 00 00\n",
    },
];

/// Each run tells what it has to.
#[test]
fn rows(rt: HostRuntime) -> Result<(), Fail> {
    rows_tell(&rt, &ROWS)
}
