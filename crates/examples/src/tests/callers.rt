//! The functions of `wl_callers`, and its handler.

use smallvec::SmallVec;
use std::alloc::Global;
use std::test::Fail;
use test_kit::log::tells;
use test_kit::quad::{QUAD, quad_table};
use wl_callers::announcement::offer;
use wl_callers::data::set_count;
use wl_callers::destruction::destroy_for_good;
use wl_callers::ending::disconnect;
use wl_callers::finishing::finish_destruction;
use wl_callers::labels::Labels;
use wl_callers::proxy::hand_on;
use wl_client::ObjectId as ClientObject;
use wl_link::Memory;
use wl_server::{Action, ClientId, InvalidId, ObjectId, ShownToAll};
use wl_wire::{Argument, Message, Protocol, Token};

/// A server whose objects count. Nothing is kept of a client.
type Server = wl_server::Backend<Memory, u32, ShownToAll, ()>;

/// A client whose objects have no data.
type Client = wl_client::Backend<Memory, ()>;

/// `get_registry`, with the new id 2, and `bind`, of the global 1, as `quad` of version 3, with the new id 3.
const BIND: [u8; 44] = [
    1, 0, 0, 0, 1, 0, 12, 0, 2, 0, 0, 0, 2, 0, 0, 0, 0, 0, 32, 0, 1, 0, 0, 0, 5, 0, 0, 0, 113, 117,
    97, 100, 0, 0, 0, 0, 3, 0, 0, 0, 3, 0, 0, 0,
];

/// `destroy`, of object 3.
const DESTROY: [u8; 8] = [3, 0, 0, 0, 2, 0, 8, 0];

/// The client sends these bytes.
fn arrive(alloc: Global, server: &mut Server, client: &ClientId, bytes: &[u8]) -> Result<(), Fail> {
    let bytes = Vec::from_slice(alloc, bytes)?;
    Ok(
        server
            .transport_mut(client)?
            .arrive(bytes, Vec::new(alloc))?,
    )
}

/// Binds what the client asks for.
fn bind(server: &mut Server, client: &ClientId) -> Result<ObjectId, Fail> {
    match server.next_action(client)? {
        Action::Bind { object, .. } => {
            server.finish_bind(client, 0)?;
            Ok(object)
        }
        Action::Request { .. } | Action::Registry { .. } => Err(Fail::new("this is no bind")),
    }
}

/// The sender of the request that is read.
fn sender(server: &mut Server, client: &ClientId) -> Result<ObjectId, Fail> {
    match server.next_action(client)? {
        Action::Request { sender, .. } => Ok(sender),
        Action::Bind { .. } | Action::Registry { .. } => { Err(Fail::new("this is no request")) }
    }
}

/// Tells the number that was read back, or that the id names no object.
fn tell_count(log: &mut String, count: Result<u32, InvalidId>) -> Result<(), Fail> {
    match count {
        Ok(count) => writeln!(log, "count {count}")?,
        Err(error) => writeln!(log, "{error}")?,
    }
    Ok(())
}

/// Offers a global, which the client binds, counts with, and destroys.
fn count_and_destroy(server: &mut Server, client: &ClientId, log: &mut String) -> Result<(), Fail> {
    let alloc = *log.allocator();
    offer(server, QUAD, 3, ShownToAll)?;
    arrive(alloc, server, client, &BIND)?;
    let counter = bind(server, client)?;
    tell_count(log, set_count(server, &counter, 7))?;
    arrive(alloc, server, client, &DESTROY)?;
    let destroyed = sender(server, client)?;
    finish_destruction(server, &destroyed, None)?;
    tell_count(log, set_count(server, &counter, 8))
}

/// Makes an object and destroys it.
fn make_and_destroy(server: &mut Server, client: &ClientId, log: &mut String) -> Result<(), Fail> {
    let made = server.create_object(client, QUAD, 3, 0)?;
    destroy_for_good(server, &made)?;
    tell_count(log, set_count(server, &made, 9))
}

/// Disconnects the client, and tells what it was sent.
fn tell_disconnected(server: &mut Server, client: &ClientId, log: &mut String) -> Result<(), Fail> {
    for (id, transport) in disconnect(server, client)?.as_slice() {
        writeln!(
            log,
            "client {}, sends {}",
            id.slot(),
            transport.sent().len()
        )?;
    }
    Ok(())
}

/// Offers a global. A handler labels what the client binds, and the label is told.
fn label(server: &mut Server, log: &mut String) -> Result<(), Fail> {
    let alloc = *log.allocator();
    let client = server.insert_client(Memory::new(alloc), ())?;
    offer(server, QUAD, 3, ShownToAll)?;
    arrive(alloc, server, &client, &BIND)?;
    server.dispatch_single_client(&mut Labels { label: 5 }, &client)?;
    let bound = server.object_for_protocol_id(&client, QUAD, 3)?;
    writeln!(log, "label {}", server.get_object_data(&bound)?)?;
    Ok(())
}

/// All of that with the first client of the server.
fn callers(server: &mut Server, log: &mut String) -> Result<(), Fail> {
    let client = server.insert_client(Memory::new(*log.allocator()), ())?;
    count_and_destroy(server, &client, log)?;
    make_and_destroy(server, &client, log)?;
    tell_disconnected(server, &client, log)?;
    tell_disconnected(server, &client, log)
}

/// The calls of a test.
#[derive(Drop)]
enum Calls {
    /// The functions of `wl_callers`, in turn.
    Callers,
    /// A dispatch with its handler.
    Label,
}

/// The log of a server with these calls.
fn log_of(alloc: Global, server: &mut Server, calls: Calls) -> Result<String, Fail> {
    let mut log = String::new(alloc);
    match calls {
        Calls::Callers => callers(server, &mut log)?,
        Calls::Label => label(server, &mut log)?,
    }
    Ok(log)
}

/// The log of a new server with these calls.
fn server_log(alloc: Global, calls: Calls) -> Result<String, Fail> {
    let mut server = Server::new(alloc, quad_table(alloc)?);
    let answer = log_of(alloc, &mut server, calls);
    drop(server);
    answer
}

/// Data is read as it was set, until its object ends; a client is handed out once, with what it was sent.
#[test]
fn callers_of_a_server(rt: HostRuntime) -> Result<(), Fail> {
    tells(
        &rt,
        server_log(rt.alloc(), Calls::Callers),
        "count 7\nInvalid Id\nInvalid Id\nclient 0, sends 1\n",
    )
}

/// What a client binds in a dispatch has the handler's label as its data.
#[test]
fn labels_of_a_handler(rt: HostRuntime) -> Result<(), Fail> {
    tells(&rt, server_log(rt.alloc(), Calls::Label), "label 5\n")
}

/// Two times `global`, of the name 1 and of the name 2, as `quad` of version 3.
const GLOBALS: [u8; 56] = [
    2, 0, 0, 0, 0, 0, 28, 0, 1, 0, 0, 0, 5, 0, 0, 0, 113, 117, 97, 100, 0, 0, 0, 0, 3, 0, 0, 0, 2,
    0, 0, 0, 0, 0, 28, 0, 2, 0, 0, 0, 5, 0, 0, 0, 113, 117, 97, 100, 0, 0, 0, 0, 3, 0, 0, 0,
];

/// Sends `get_registry`.
fn ask_for_registry(alloc: Global, client: &mut Client) -> Result<(), Fail> {
    let mut request = Message {
        sender_id: client.display_id(),
        opcode: 1,
        args: SmallVec::new(alloc),
    };
    request.args.push(Argument::NewId(ClientObject::null()))?;
    client.send_request(request, Some(()), None)?;
    Ok(())
}

/// The server sends these bytes, and the proxy reads at most so many events. The answer has the name in each of those that
/// it hands on.
fn handed_on(alloc: Global, client: &mut Client, bytes: &[u8], most: u32) -> Result<String, Fail> {
    let bytes = Vec::from_slice(alloc, bytes)?;
    client.transport_mut().arrive(bytes, Vec::new(alloc))?;
    let mut events = Vec::new(alloc);
    hand_on(client, most, &mut events)?;
    names_of(alloc, events.as_slice())
}

/// The number that each event begins with, a line each.
fn names_of(alloc: Global, events: &[Message<ClientObject, Token>]) -> Result<String, Fail> {
    let mut log = String::new(alloc);
    for event in events {
        if let Some(Argument::Uint(name)) = event.args.first() {
            writeln!(log, "event {}, name {name}", event.opcode)?;
        }
    }
    Ok(log)
}

/// What the proxy of this client hands on.
fn log_of_proxy(alloc: Global, client: &mut Client) -> Result<String, Fail> {
    ask_for_registry(alloc, client)?;
    handed_on(alloc, client, &GLOBALS, 9)
}

/// What the proxy of a new client hands on.
fn proxy_log(alloc: Global) -> Result<String, Fail> {
    let table: Protocol = quad_table(alloc)?;
    let mut client = Client::connect(alloc, table, Memory::new(alloc))?;
    let answer = log_of_proxy(alloc, &mut client);
    drop(client);
    answer
}

/// All events that are there are handed on, in order.
#[test]
fn proxy_of_a_client(rt: HostRuntime) -> Result<(), Fail> {
    tells(
        &rt,
        proxy_log(rt.alloc()),
        "event 0, name 1\nevent 0, name 2\n",
    )
}
