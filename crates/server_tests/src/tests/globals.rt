//! Globals: who is told of them, and who may bind them.

use super::run::{Act, Look, Row, WITH_A_QUAD, rows_tell};
use server_test_kit::arrivals::{BIND, DESTROY, GET_REGISTRY};
use server_test_kit::steps::Call;
use server_test_kit::values::{BOUND, Event, FIRST, Named, SECOND, THIRD, Who};
use std::test::Fail;
use test_kit::quad::QUAD;
use wl_wire::{InterfaceId, IoFault, WL_REGISTRY_INTERFACE};

/// The first global.
const GLOBAL: Named = Named(1, 1);

/// The interface that a server with the two of the tests takes next.
const ADDED: InterfaceId = InterfaceId(6);

/// To the `quad` of the number 3: `poke` of 5, and the request 5, which a longer `quad` has.
const POKE_AND_TIP: [u8; 20] = [3, 0, 0, 0, 0, 0, 12, 0, 5, 0, 0, 0, 3, 0, 0, 0, 5, 0, 8, 0];

/// The runs, and what they tell.
static ROWS: [Row; 10] = [
    // A registry is told of the globals, of one that is disabled once, and of a new one of a name that was used.
    Row {
        name: "registry is told",
        acts: &[
            Act::Do(Call::Insert(true)),
            Act::Do(Call::Global(QUAD, 3)),
            Act::Do(Call::Arrive(FIRST, &GET_REGISTRY)),
            Act::Do(Call::Next(FIRST)),
            Act::Do(Call::FlushAll),
            Act::Do(Call::TakeSent(FIRST)),
            Act::Do(Call::Disable(GLOBAL)),
            Act::Do(Call::FlushAll),
            Act::Do(Call::TakeSent(FIRST)),
            Act::Do(Call::Disable(GLOBAL)),
            Act::Look(Look::Global(GLOBAL)),
            Act::Look(Look::Name(GLOBAL, FIRST)),
            Act::Do(Call::Remove(GLOBAL)),
            Act::Do(Call::FlushAll),
            Act::Do(Call::TakeSent(FIRST)),
            Act::Look(Look::Global(GLOBAL)),
            Act::Do(Call::Global(QUAD, 3)),
            Act::Do(Call::FlushAll),
            Act::Do(Call::TakeSent(FIRST)),
            Act::Do(Call::Remove(Named(1, 2))),
            Act::Do(Call::FlushAll),
            Act::Do(Call::TakeSent(FIRST)),
        ],
        told: "client 0, 1\nglobal 1, 1\nIo error: would block\ndone\n02 00 00 00 00 00 1c 00 01 00 00 00 05 00 00 00 71 75 61 64 00 00 00 00 03 00 00 00\ndone\n02 00 00 00 01 00 0c 00 01 00 00 00\ninterface 4, version 3, disabled: true\nname 1\ndone\nInvalid Id\nglobal 1, 2\ndone\n02 00 00 00 00 00 1c 00 01 00 00 00 05 00 00 00 71 75 61 64 00 00 00 00 03 00 00 00\ndone\n02 00 00 00 01 00 0c 00 01 00 00 00\n",
    },
    // A client that may not see a global is told nothing of it but that it is gone, and cannot bind it.
    Row {
        name: "hidden global",
        acts: &[
            Act::Do(Call::Insert(false)),
            Act::Do(Call::Insert(true)),
            Act::Do(Call::Arrive(FIRST, &GET_REGISTRY)),
            Act::Do(Call::Next(FIRST)),
            Act::Do(Call::Arrive(SECOND, &GET_REGISTRY)),
            Act::Do(Call::Next(SECOND)),
            Act::Do(Call::Global(QUAD, 3)),
            Act::Do(Call::FlushAll),
            Act::Do(Call::TakeSent(FIRST)),
            Act::Do(Call::TakeSent(SECOND)),
            Act::Look(Look::Name(GLOBAL, FIRST)),
            Act::Look(Look::Name(GLOBAL, SECOND)),
            Act::Do(Call::Disable(GLOBAL)),
            Act::Do(Call::FlushAll),
            Act::Do(Call::TakeSent(FIRST)),
            Act::Do(Call::TakeSent(SECOND)),
            Act::Do(Call::Arrive(FIRST, &BIND)),
            Act::Do(Call::Next(FIRST)),
            Act::Do(Call::TakeSent(FIRST)),
            Act::Do(Call::TakeSent(SECOND)),
        ],
        told: "client 0, 1\nclient 1, 2\nIo error: would block\nIo error: would block\nglobal 1, 1\ndone\n02 00 00 00 00 00 1c 00 01 00 00 00 05 00 00 00 71 75 61 64 00 00 00 00 03 00 00 00\nno name\nname 1\ndone\n02 00 00 00 01 00 0c 00 01 00 00 00\n02 00 00 00 01 00 0c 00 01 00 00 00\nIo error: broken pipe\n01 00 00 00 00 00 44 00 01 00 00 00 00 00 00 00 30 00 00 00 49 6e 76 61 6c 69 64 20 62 69 6e 64 69 6e 67 20 6f 66 20 71 75 61 64 20 76 65 72 73 69 6f 6e 20 33 20 66 6f 72 20 67 6c 6f 62 61 6c 20 31 2e 00\n",
    },
    // A client that may not see a global is told nothing of it, and cannot bind it while it is enabled; another is told of it,
    // and that it is gone.
    Row {
        name: "hidden global is asked for",
        acts: &[
            Act::Do(Call::Insert(false)),
            Act::Do(Call::Insert(true)),
            Act::Do(Call::Arrive(FIRST, &GET_REGISTRY)),
            Act::Do(Call::Next(FIRST)),
            Act::Do(Call::Arrive(SECOND, &GET_REGISTRY)),
            Act::Do(Call::Next(SECOND)),
            Act::Do(Call::Global(QUAD, 3)),
            Act::Do(Call::FlushAll),
            Act::Do(Call::TakeSent(FIRST)),
            Act::Do(Call::TakeSent(SECOND)),
            Act::Do(Call::Arrive(FIRST, &BIND)),
            Act::Do(Call::Next(FIRST)),
            Act::Do(Call::TakeSent(FIRST)),
            Act::Do(Call::TakeSent(SECOND)),
            Act::Do(Call::Disable(GLOBAL)),
            Act::Do(Call::FlushAll),
            Act::Do(Call::TakeSent(FIRST)),
            Act::Do(Call::TakeSent(SECOND)),
        ],
        told: "client 0, 1\nclient 1, 2\nIo error: would block\nIo error: would block\nglobal 1, 1\ndone\n02 00 00 00 00 00 1c 00 01 00 00 00 05 00 00 00 71 75 61 64 00 00 00 00 03 00 00 00\nIo error: broken pipe\n01 00 00 00 00 00 44 00 01 00 00 00 00 00 00 00 30 00 00 00 49 6e 76 61 6c 69 64 20 62 69 6e 64 69 6e 67 20 6f 66 20 71 75 61 64 20 76 65 72 73 69 6f 6e 20 33 20 66 6f 72 20 67 6c 6f 62 61 6c 20 31 2e 00\ndone\n02 00 00 00 01 00 0c 00 01 00 00 00\n",
    },
    // A bind, whose object is destroyed by its client: `delete_id`, and a note at once.
    Row {
        name: "bound object is destroyed",
        acts: &[
            Act::Do(Call::Insert(true)),
            Act::Do(Call::Global(QUAD, 3)),
            Act::Do(Call::Disable(GLOBAL)),
            Act::Do(Call::Arrive(FIRST, &GET_REGISTRY)),
            Act::Do(Call::Arrive(FIRST, &BIND)),
            Act::Do(Call::Next(FIRST)),
            Act::Do(Call::Finish(FIRST, None)),
            Act::Do(Call::FinishBind(FIRST, 9)),
            Act::Do(Call::FinishBind(FIRST, 9)),
            Act::Look(Look::Info(BOUND)),
            Act::Look(Look::Data(BOUND)),
            Act::Do(Call::Arrive(FIRST, &DESTROY)),
            Act::Do(Call::Next(FIRST)),
            Act::Do(Call::Finish(FIRST, Some(1))),
            Act::Do(Call::Finish(FIRST, None)),
            Act::Do(Call::Flush(FIRST)),
            Act::Do(Call::TakeSent(FIRST)),
            Act::Do(Call::Notes),
            Act::Look(Look::Info(BOUND)),
        ],
        told: "client 0, 1\nglobal 1, 1\nglobal 1, 1 bound as 3, 2, 4 of 0\nthe open action is of the other kind\nfinished\nno action is open, 9 is back\nversion 3\ndata 9\nrequest 2 to 3, 2, 4 of 0, which ends it\nthere is no new object for the user data, 1 is back\nfinished\ndone\n01 00 00 00 01 00 0c 00 03 00 00 00\ninitialized 0, 1\ndestroyed 3, 2, 4 of 0 with 9\nInvalid Id\n",
    },
    // The sender of a destructor request is destroyed by the program before the end of the request: one `delete_id`, and one
    // note, by the next cleanup.
    Row {
        name: "sender destroyed by the program",
        acts: &[
            Act::Do(Call::Insert(true)),
            Act::Do(Call::Global(QUAD, 3)),
            Act::Do(Call::Arrive(FIRST, &GET_REGISTRY)),
            Act::Do(Call::Arrive(FIRST, &BIND)),
            Act::Do(Call::Next(FIRST)),
            Act::Do(Call::FinishBind(FIRST, 9)),
            Act::Do(Call::Flush(FIRST)),
            Act::Do(Call::TakeSent(FIRST)),
            Act::Do(Call::Arrive(FIRST, &DESTROY)),
            Act::Do(Call::Next(FIRST)),
            Act::Do(Call::Destroy(BOUND)),
            Act::Do(Call::Finish(FIRST, None)),
            Act::Do(Call::Flush(FIRST)),
            Act::Do(Call::TakeSent(FIRST)),
            Act::Do(Call::Notes),
            Act::Do(Call::Cleanup),
            Act::Do(Call::Notes),
        ],
        told: "client 0, 1\nglobal 1, 1\nglobal 1, 1 bound as 3, 2, 4 of 0\nfinished\ndone\n02 00 00 00 00 00 1c 00 01 00 00 00 05 00 00 00 71 75 61 64 00 00 00 00 03 00 00 00\nrequest 2 to 3, 2, 4 of 0, which ends it\ndone\nfinished\ndone\n01 00 00 00 01 00 0c 00 03 00 00 00\ninitialized 0, 1\nout:\ndestroyed 3, 2, 4 of 0 with 9\n",
    },
    // A client that cannot be written to is killed, and the other is told as ever.
    Row {
        name: "a full client does not matter to another",
        acts: &[
            Act::Do(Call::Insert(true)),
            Act::Do(Call::Insert(true)),
            Act::Do(Call::Arrive(FIRST, &GET_REGISTRY)),
            Act::Do(Call::Next(FIRST)),
            Act::Do(Call::Arrive(SECOND, &GET_REGISTRY)),
            Act::Do(Call::Next(SECOND)),
            Act::Globals(146),
            Act::Do(Call::AcceptFault(FIRST, IoFault::Pipe)),
            Act::Do(Call::Global(QUAD, 3)),
            Act::Look(Look::Lengths(FIRST)),
            Act::Look(Look::Lengths(SECOND)),
            Act::Do(Call::FlushAll),
            Act::Look(Look::Lengths(FIRST)),
            Act::Look(Look::Lengths(SECOND)),
            Act::Do(Call::Flush(FIRST)),
            Act::Look(Look::Lengths(FIRST)),
            Act::Do(Call::Notes),
            Act::Do(Call::Cleanup),
        ],
        told: "client 0, 1\nclient 1, 2\nIo error: would block\nIo error: would block\nglobal 147, 147\n4088 bytes\ndone\n4088 bytes\n28 bytes\ndone\n4088 bytes\ninitialized 0, 1\ninitialized 1, 2\ndisconnected 0, 1: closed\nout: client 0, 1 with 1 sends\n",
    },
    // A table takes an interface, of which no client is told, and a global of it is announced by its name. A name that is
    // taken is refused, and the globals that were created keep theirs.
    Row {
        name: "interfaces are added",
        acts: &[
            Act::Do(Call::Insert(true)),
            Act::Do(Call::Arrive(FIRST, &GET_REGISTRY)),
            Act::Do(Call::Next(FIRST)),
            Act::Do(Call::Global(QUAD, 3)),
            Act::Do(Call::FlushAll),
            Act::Do(Call::TakeSent(FIRST)),
            Act::Do(Call::Global(ADDED, 1)),
            Act::Add("solo"),
            Act::Do(Call::FlushAll),
            Act::Do(Call::TakeSent(FIRST)),
            Act::Add("solo"),
            Act::Do(Call::Global(ADDED, 1)),
            Act::Do(Call::FlushAll),
            Act::Do(Call::TakeSent(FIRST)),
            Act::Look(Look::Global(GLOBAL)),
        ],
        told: "client 0, 1\nIo error: would block\nglobal 1, 1\ndone\n02 00 00 00 00 00 1c 00 01 00 00 00 05 00 00 00 71 75 61 64 00 00 00 00 03 00 00 00\nthe interface is not in the table\ndone\ndone\ninterface 0: the name is taken\nglobal 2, 2\ndone\n02 00 00 00 00 00 1c 00 02 00 00 00 05 00 00 00 73 6f 6c 6f 00 00 00 00 01 00 00 00\ninterface 4, version 3, disabled: false\n",
    },
    // A `quad` gets the request 5 and the event 3, and its interface the version 4. The request came before, with one that was
    // read, and is handed out; there is no request 6. A global that was created keeps its version. Only the program's interfaces
    // are extended.
    Row {
        name: "an interface is extended",
        acts: &[
            Act::Quietly(&WITH_A_QUAD),
            Act::Do(Call::Send(Event::Bare(BOUND, 3))),
            Act::Do(Call::Global(QUAD, 4)),
            Act::Do(Call::Arrive(FIRST, &POKE_AND_TIP)),
            Act::Do(Call::Next(FIRST)),
            Act::Do(Call::Finish(FIRST, None)),
            Act::Extend(ADDED, 4),
            Act::Extend(WL_REGISTRY_INTERFACE, 2),
            Act::Extend(QUAD, 4),
            Act::Do(Call::Next(FIRST)),
            Act::Do(Call::Finish(FIRST, None)),
            Act::Do(Call::Send(Event::Bare(BOUND, 3))),
            Act::Do(Call::Global(QUAD, 4)),
            Act::Look(Look::Global(GLOBAL)),
            Act::Do(Call::FlushAll),
            Act::Do(Call::TakeSent(FIRST)),
            Act::Do(Call::Arrive(FIRST, &[3, 0, 0, 0, 6, 0, 8, 0])),
            Act::Do(Call::Next(FIRST)),
        ],
        told: "the interface has no event of that opcode\nthe version is above the interface's\nrequest 0 to 3, 2, 4 of 0: 5\nfinished\ninterface 0: a message names an interface outside the table, or this one takes no more messages\ninterface 0: a message names an interface outside the table, or this one takes no more messages\ndone\nrequest 5 to 3, 2, 4 of 0\nfinished\ndone\nglobal 2, 2\ninterface 4, version 3, disabled: false\ndone\n03 00 00 00 03 00 08 00 02 00 00 00 00 00 1c 00 02 00 00 00 05 00 00 00 71 75 61 64 00 00 00 00 04 00 00 00\nIo error: protocol fault\n",
    },
    // Slots are used again, serials are not.
    Row {
        name: "slots are used again",
        acts: &[
            Act::Do(Call::Insert(true)),
            Act::Do(Call::Insert(true)),
            Act::Do(Call::Kill(FIRST)),
            Act::Look(Look::Clients),
            Act::Do(Call::Cleanup),
            Act::Do(Call::Insert(true)),
            Act::Look(Look::Clients),
            Act::Do(Call::Next(Who(0, 3))),
            Act::Do(Call::Next(FIRST)),
        ],
        told: "client 0, 1\nclient 1, 2\nlive: 2\nout: client 0, 1 with 0 sends\nclient 0, 3\nlive: 12\nIo error: would block\nIo error: invalid input\n",
    },
    // Of three clients the second lacks memory to be told of a global: it is closed, and keeps what waits until it is taken out;
    // the global is created all the same, and the others are told.
    Row {
        name: "one of three clients lacks memory to be told",
        acts: &[
            Act::Do(Call::Insert(true)),
            Act::Do(Call::Arrive(FIRST, &GET_REGISTRY)),
            Act::Do(Call::Next(FIRST)),
            Act::Do(Call::Insert(true)),
            Act::Do(Call::Arrive(SECOND, &GET_REGISTRY)),
            Act::Do(Call::Next(SECOND)),
            Act::Do(Call::Insert(true)),
            Act::Do(Call::Arrive(THIRD, &GET_REGISTRY)),
            Act::Do(Call::Next(THIRD)),
            Act::Globals(146),
            Act::Do(Call::AcceptFault(SECOND, IoFault::OutOfMemory)),
            Act::GlobalInWant,
            Act::Look(Look::Clients),
            Act::Look(Look::Lengths(FIRST)),
            Act::Look(Look::Lengths(SECOND)),
            Act::Look(Look::Lengths(THIRD)),
            Act::Do(Call::FlushAll),
            Act::Look(Look::Lengths(FIRST)),
            Act::Look(Look::Lengths(SECOND)),
            Act::Look(Look::Lengths(THIRD)),
            Act::Do(Call::Notes),
            Act::TakeOut,
            Act::Do(Call::Global(QUAD, 3)),
        ],
        told: "client 0, 1\nIo error: would block\nclient 1, 2\nIo error: would block\nclient 2, 3\nIo error: would block\nglobal 147, 147\nlive: 13\n4088 bytes\n4088 bytes\ndone\n4088 bytes\n28 bytes\n4088 bytes\n28 bytes\ninitialized 0, 1\ninitialized 1, 2\ninitialized 2, 3\ndisconnected 1, 2: closed\nout 1, 2: 4088\nglobal 148, 148\n",
    },
];

/// Each run tells what it has to.
#[test]
fn rows(rt: HostRuntime) -> Result<(), Fail> {
    rows_tell(&rt, &ROWS)
}
