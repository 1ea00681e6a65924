//! An event that names a child interface and has no new id: it is accepted, is handed out, and makes no object.

use super::acts::{Act, Cue, Look, log_by};
use super::ways::Way;
use crate::kit::table::hinting_table;
use std::alloc::Global;
use std::test::Fail;
use test_kit::log::row_tells;
use wl_client::Backend;
use wl_link::Memory;

/// The event, sent to object 3: a number.
const HINTED: [u8; 12] = [3, 0, 0, 0, 1, 0, 12, 0, 8, 0, 0, 0];

/// The event that makes an object, sent to object 3, with the first number of the server's range.
const MADE: [u8; 12] = [3, 0, 0, 0, 2, 0, 12, 0, 0, 0, 0, 255];

/// The event is read and finished, before and after one that makes an object.
static ACTS: [Act; 13] = [
    Act::Bound,
    Act::Script(Cue::Arrive(&HINTED)),
    Act::Script(Cue::Arrive(&MADE)),
    Act::Script(Cue::Arrive(&HINTED)),
    Act::Next,
    Act::Look(Look::Open),
    Act::Finish(Some(7)),
    Act::Finish(None),
    Act::Next,
    Act::Finish(Some(7)),
    Act::Next,
    Act::Finish(None),
    Act::Look(Look::LastError),
];

/// What they tell.
const TOLD: &str =
    "sent: 2, 1\nsent: 3, 2\nevent 1 of 3: 8\nopen: of 3, 2\nthere is no new object for the user data, 7 is back\nfinished\nevent 2 of 3: new 4278190080, 3\nfinished\nevent 1 of 3: 8\nfinished\nno error\n";

/// What the acts tell in this way.
fn log_in(alloc: Global, way: Way) -> Result<String, Fail> {
    let table = hinting_table(alloc)?;
    let mut client = Backend::connect(alloc, table, Memory::new(alloc))?;
    let answer = log_by(alloc, &mut client, way, &ACTS);
    drop(client);
    answer
}

#[test]
fn event_with_a_child_interface_alone(rt: HostRuntime) -> Result<(), Fail> {
    for way in [Way::Moved, Way::Lent] {
        row_tells(&rt, way.name(), log_in(rt.alloc(), way), TOLD)?;
    }
    Ok(())
}
