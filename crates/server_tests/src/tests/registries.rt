//! Registries that are handed out: the server tells them of no global, and the program does.

use super::run::{Act, Look, Row, rows_tell};
use server_test_kit::arrivals::{BIND, GET_REGISTRY, GET_REGISTRY_AT_3, GET_REGISTRY_AT_4, SYNC};
use server_test_kit::steps::Call;
use server_test_kit::values::{Event, FIRST, Named, SECOND, Thing};
use std::test::Fail;
use test_kit::quad::QUAD;
use wl_wire::WL_REGISTRY_INTERFACE;

/// The registry that the first client makes first.
const REGISTRY: Thing = Thing(FIRST, 2, 1, WL_REGISTRY_INTERFACE);

/// The runs, and what they tell.
static ROWS: [Row; 6] = [
    // It is an action, which is ended with data. The server announces on it neither the global that was there nor the one that
    // comes, and does not tell that one goes; the program tells what it wants. Its end is noted.
    Row {
        name: "registry of the program",
        acts: &[
            Act::Do(Call::HandOutRegistries(true)),
            Act::Do(Call::Insert(true)),
            Act::Do(Call::Global(QUAD, 3)),
            Act::Do(Call::Arrive(FIRST, &GET_REGISTRY)),
            Act::Do(Call::Next(FIRST)),
            Act::Do(Call::Next(FIRST)),
            Act::Do(Call::Global(QUAD, 3)),
            Act::Do(Call::Send(Event::Global(REGISTRY, 2))),
            Act::Do(Call::FinishBind(FIRST, 7)),
            Act::Look(Look::Info(REGISTRY)),
            Act::Look(Look::Data(REGISTRY)),
            Act::Do(Call::Disable(Named(1, 1))),
            Act::Do(Call::Remove(Named(1, 1))),
            Act::Do(Call::Send(Event::GlobalRemove(REGISTRY, 2))),
            Act::Do(Call::Flush(FIRST)),
            Act::Do(Call::TakeSent(FIRST)),
            Act::Do(Call::Destroy(REGISTRY)),
            Act::Do(Call::Cleanup),
            Act::Do(Call::Notes),
        ],
        told: "client 0, 1\nglobal 1, 1\nregistry 2, 1, 2 of 0\nan action is open\nglobal 2, 2\ndone\nfinished\nversion 1\ndata 7\ndone\ndone\n02 00 00 00 00 00 1c 00 02 00 00 00 05 00 00 00 71 75 61 64 00 00 00 00 03 00 00 00 02 00 00 00 01 00 0c 00 02 00 00 00\ndone\nout:\ninitialized 0, 1\ndestroyed 2, 1, 2 of 0 with 7\n",
    },
    // The setting is about registries that are asked for from then on. The server tells those that it made by itself, before and
    // after, and no other one.
    Row {
        name: "registries of both",
        acts: &[
            Act::Do(Call::Insert(true)),
            Act::Do(Call::Arrive(FIRST, &GET_REGISTRY)),
            Act::Do(Call::Next(FIRST)),
            Act::Do(Call::HandOutRegistries(true)),
            Act::Do(Call::Arrive(FIRST, &GET_REGISTRY_AT_3)),
            Act::Do(Call::Next(FIRST)),
            Act::Do(Call::FinishBind(FIRST, 7)),
            Act::Do(Call::HandOutRegistries(false)),
            Act::Do(Call::Arrive(FIRST, &GET_REGISTRY_AT_4)),
            Act::Do(Call::Next(FIRST)),
            Act::Do(Call::Global(QUAD, 3)),
            Act::Do(Call::Remove(Named(1, 1))),
            Act::Do(Call::Flush(FIRST)),
            Act::Do(Call::TakeSent(FIRST)),
        ],
        told: "client 0, 1\nIo error: would block\nregistry 3, 2, 2 of 0\nfinished\nIo error: would block\nglobal 1, 1\ndone\n02 00 00 00 00 00 1c 00 01 00 00 00 05 00 00 00 71 75 61 64 00 00 00 00 03 00 00 00 04 00 00 00 00 00 1c 00 01 00 00 00 05 00 00 00 71 75 61 64 00 00 00 00 03 00 00 00 02 00 00 00 01 00 0c 00 01 00 00 00 04 00 00 00 01 00 0c 00 01 00 00 00\n",
    },
    // The client binds by it, and the program refuses that where the bind is handed out.
    Row {
        name: "bind by a registry of the program",
        acts: &[
            Act::Do(Call::HandOutRegistries(true)),
            Act::Do(Call::Insert(true)),
            Act::Do(Call::Global(QUAD, 3)),
            Act::Do(Call::Arrive(FIRST, &GET_REGISTRY)),
            Act::Do(Call::Next(FIRST)),
            Act::Do(Call::FinishBind(FIRST, 7)),
            Act::Do(Call::Arrive(FIRST, &BIND)),
            Act::Do(Call::Next(FIRST)),
            Act::Do(Call::PostError(REGISTRY, 0, "not granted")),
            Act::Do(Call::FinishBind(FIRST, 8)),
            Act::Do(Call::Next(FIRST)),
            Act::Do(Call::Cleanup),
            Act::Do(Call::Notes),
        ],
        told: "client 0, 1\nglobal 1, 1\nregistry 2, 1, 2 of 0\nfinished\nglobal 1, 1 bound as 3, 2, 4 of 0\nfinished\nIo error: broken pipe\nout: client 0, 1 with 1 sends\ninitialized 0, 1\ndisconnected 0, 1: error 0 on wl_registry 2: not granted\ndestroyed 2, 1, 2 of 0 with 7\ndestroyed 3, 2, 4 of 0 with 8\n",
    },
    // A client that may not see the global cannot bind it, whoever tells its registry.
    Row {
        name: "bind of a global that is hidden",
        acts: &[
            Act::Do(Call::HandOutRegistries(true)),
            Act::Do(Call::Insert(false)),
            Act::Do(Call::Global(QUAD, 3)),
            Act::Do(Call::Arrive(FIRST, &GET_REGISTRY)),
            Act::Do(Call::Next(FIRST)),
            Act::Do(Call::FinishBind(FIRST, 7)),
            Act::Do(Call::Arrive(FIRST, &BIND)),
            Act::Do(Call::Next(FIRST)),
            Act::Do(Call::Notes),
        ],
        told: "client 0, 1\nglobal 1, 1\nregistry 2, 1, 2 of 0\nfinished\nIo error: broken pipe\ninitialized 0, 1\ndisconnected 0, 1: error 0 on wl_display 1: Invalid binding of quad version 3 for global 1.\n",
    },
    // It is ended as a bind is, and not as a request. One whose client was killed meanwhile is ended, too, and noted then.
    Row {
        name: "end of a registry",
        acts: &[
            Act::Do(Call::HandOutRegistries(true)),
            Act::Do(Call::Insert(true)),
            Act::Do(Call::Arrive(FIRST, &GET_REGISTRY)),
            Act::Do(Call::Next(FIRST)),
            Act::Do(Call::Finish(FIRST, None)),
            Act::Do(Call::Finish(FIRST, Some(5))),
            Act::Do(Call::Kill(FIRST)),
            Act::Do(Call::FinishBind(FIRST, 7)),
            Act::Do(Call::FinishBind(FIRST, 7)),
            Act::Do(Call::Cleanup),
            Act::Do(Call::Notes),
        ],
        told: "client 0, 1\nregistry 2, 1, 2 of 0\nthe open action is of the other kind\nthe open action is of the other kind, 5 is back\nfinished\nno action is open, 7 is back\nout: client 0, 1 with 0 sends\ninitialized 0, 1\ndisconnected 0, 1: closed\ndestroyed 2, 1, 2 of 0 with 7\n",
    },
    // A new id that is out of order ends the client, and no action is open. A sync is answered as ever, and other clients'
    // registries are handed out, too.
    Row {
        name: "registry that cannot be made",
        acts: &[
            Act::Do(Call::HandOutRegistries(true)),
            Act::Do(Call::Insert(true)),
            Act::Do(Call::Insert(true)),
            Act::Do(Call::Arrive(FIRST, &GET_REGISTRY_AT_4)),
            Act::Do(Call::Next(FIRST)),
            Act::Do(Call::FinishBind(FIRST, 7)),
            Act::Do(Call::Arrive(SECOND, &SYNC)),
            Act::Do(Call::Arrive(SECOND, &GET_REGISTRY)),
            Act::Do(Call::NextWithin(SECOND, 64)),
            Act::Do(Call::Flush(SECOND)),
            Act::Do(Call::TakeSent(SECOND)),
            Act::Do(Call::Notes),
        ],
        told: "client 0, 1\nclient 1, 2\nIo error: broken pipe\nno action is open, 7 is back\nregistry 2, 2, 2 of 1\n62 left, 2 read\ndone\n02 00 00 00 00 00 0c 00 00 00 00 00 01 00 00 00 01 00 0c 00 02 00 00 00\ninitialized 0, 1\ninitialized 1, 2\ndisconnected 0, 1: error 0 on wl_display 1: Invalid new_id: 4.\n",
    },
];

/// Each run tells what it has to.
#[test]
fn rows(rt: HostRuntime) -> Result<(), Fail> {
    rows_tell(&rt, &ROWS)
}
