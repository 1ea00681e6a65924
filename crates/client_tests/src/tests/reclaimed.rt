//! Many objects, the id of each of which the server deletes before the client destroys it.

use crate::kit::values::{Object, Request, message};
use std::alloc::Global;
use std::test::Fail;
use test_kit::log::holds;
use test_kit::quad::quad_table;
use wl_client::{Backend, ObjectId};
use wl_link::Memory;

/// A client whose objects have numbers as their data.
type Client = Backend<Memory, u32>;

/// How many objects there are, one after the other.
const MANY: u32 = 1000;

/// Makes an object by `wl_display.sync`.
fn make(alloc: Global, client: &mut Client) -> Result<ObjectId, Fail> {
    let sync = message(alloc, Request::Sync)?;
    let id = client.send_request(sync, Some(7), None)?;
    client.flush()?;
    client.transport_mut().take_sent();
    Ok(id)
}

/// The server deletes the id of the object (`wl_display.delete_id`); no event is there.
fn delete(alloc: Global, client: &mut Client, id: ObjectId) -> Result<(), Fail> {
    let n = id.protocol_id().to_le_bytes();
    let bytes = [1, 0, 0, 0, 1, 0, 12, 0, n[0], n[1], n[2], n[3]];
    let bytes = Vec::from_slice(alloc, &bytes)?;
    client.transport_mut().arrive(bytes, Vec::new(alloc))?;
    match client.next_event() {
        Ok(_) => Err(Fail::new("there is an event")),
        Err(_) => Ok(()),
    }
}

/// Makes an object that the server gives up first, and then the client. Returns its number.
fn live(alloc: Global, client: &mut Client, reclaims: bool) -> Result<u32, Fail> {
    let id = make(alloc, client)?;
    delete(alloc, client, id)?;
    client.destroy_object(&id)?;
    client.take_notes();
    if reclaims {
        client.reclaim(&id)?;
    }
    Ok(id.protocol_id())
}

/// Makes many of them. Returns the number of the last.
fn live_all(alloc: Global, client: &mut Client, reclaims: bool) -> Result<u32, Fail> {
    let mut number = 0;
    for _ in 0..MANY {
        number = live(alloc, client, reclaims)?;
    }
    Ok(number)
}

/// The number of the last object of a new client that makes many.
fn last_number(alloc: Global, reclaims: bool) -> Result<u32, Fail> {
    let table = quad_table(alloc)?;
    let mut client = Backend::connect(alloc, table, Memory::new(alloc))?;
    let answer = live_all(alloc, &mut client, reclaims);
    drop(client);
    answer
}

/// Reclaimed, each has the first number behind the display; otherwise each has a number of its own.
#[test]
fn numbers_are_used_again(rt: HostRuntime) -> Result<(), Fail> {
    let again = last_number(rt.alloc(), true)?;
    let never = last_number(rt.alloc(), false)?;
    holds(
        &rt,
        "reclaimed",
        again == Object::Callback.id().protocol_id(),
    )?;
    holds(&rt, "not reclaimed", never == MANY + 1)
}
