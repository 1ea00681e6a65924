//! Sessions over `Memory`: the examples of `docs/rattle.md`.

use anyhow::Result;
use smallvec::SmallVec;
use std::alloc::Global;
use std::test::Fail;
use test_kit::log::tells;
use test_kit::message::tell_bytes;
use test_kit::quad::{QUAD, quad_table};
use wl_client::{EventError, ObjectId};
use wl_link::Memory;
use wl_server::{Action, ActionError, ClientId, ShownToAll};
use wl_wire::{Argument, IoFault, Message, Protocol, Token};

/// A server that keeps nothing of an object or a client.
type Server = wl_server::Backend<Memory, (), ShownToAll, ()>;

/// A client whose server the host sends to and receives from.
type Client = wl_client::Backend<Memory, ()>;

/// What one receive gave, or one send is to take: bytes, and the tokens beside them.
type Parcel = (Vec<u8>, Vec<Token>);

/// The program's part: it accepts each bind and request, and keeps a request's descriptors, which are its own now.
fn act(
    server: &mut Server,
    client: &ClientId,
    action: &Action,
    descriptors: &mut Vec<Token>,
) -> Result<()> {
    let Action::Request { args, created, .. } = action else {
        let ended = server.finish_bind(client, ());
        return Ok(ended.map_err(|refused| refused.error)?);
    };
    for arg in args.as_slice() {
        if let Argument::Fd(token) = arg {
            descriptors.push(*token)?;
        }
    }
    let ended = server.finish_request(client, created.map(|_| ()));
    Ok(ended.map_err(|refused| refused.error)?)
}

/// Reads the client until nothing more of it waits, for 64 actions at most.
fn read(server: &mut Server, client: &ClientId, descriptors: &mut Vec<Token>) -> Result<()> {
    for _ in 0..64 {
        match server.next_action(client) {
            Ok(action) => act(server, client, &action, descriptors)?,
            Err(ActionError::Io(IoFault::WouldBlock)) => return Ok(()),
            Err(error) => Err(error)?,
        }
    }
    Ok(())
}

/// The host received this from the client. It is to send what the answer has, in this order.
fn receive_from(
    server: &mut Server,
    client: &ClientId,
    (bytes, tokens): Parcel,
    descriptors: &mut Vec<Token>,
) -> Result<Vec<Parcel>> {
    server.transport_mut(client)?.arrive(bytes, tokens)?;
    read(server, client, descriptors)?;
    server.flush(Some(*client))?;
    Ok(server.transport_mut(client)?.take_sent())
}

/// These bytes, and a token for each of these numbers.
fn parcel(alloc: Global, bytes: &[u8], numbers: &[i32]) -> Result<Parcel, Fail> {
    let mut tokens = Vec::new(alloc);
    for number in numbers {
        tokens.push(Token(*number))?;
    }
    Ok((Vec::from_slice(alloc, bytes)?, tokens))
}

/// Tells what the host is to send, a line for each send.
fn tell_sends(log: &mut String, sends: &[Parcel]) -> Result<(), Fail> {
    for (bytes, tokens) in sends {
        tell_bytes(log, bytes, tokens)?;
        log.push('\n')?;
    }
    Ok(())
}

/// What is received: bytes, and the numbers of the descriptors beside them.
type Receive = (&'static [u8], &'static [i32]);

/// Tells what the server sends when this comes, and keeps the descriptors that the program gets.
fn exchange(
    server: &mut Server,
    client: &ClientId,
    (bytes, numbers): Receive,
    log: &mut String,
    descriptors: &mut Vec<Token>,
) -> Result<(), Fail> {
    let parcel = parcel(*log.allocator(), bytes, numbers)?;
    let sends = receive_from(server, client, parcel, descriptors)?;
    tell_sends(log, sends.as_slice())
}

/// The same of several receives.
fn exchange_all(
    server: &mut Server,
    client: &ClientId,
    receives: &[Receive],
    log: &mut String,
    descriptors: &mut Vec<Token>,
) -> Result<(), Fail> {
    for one in receives {
        exchange(server, client, *one, log, descriptors)?;
    }
    Ok(())
}

/// Tells what the server sends its first client when these come, and then the descriptors that the program gets.
fn exchange_with_the_first(
    server: &mut Server,
    receives: &[Receive],
    log: &mut String,
) -> Result<(), Fail> {
    let alloc = *log.allocator();
    let client = server.insert_client(Memory::new(alloc), ())?;
    let mut descriptors = Vec::new(alloc);
    exchange_all(server, &client, receives, log, &mut descriptors)?;
    tell_bytes(log, &[], descriptors.as_slice())
}

/// The log of a server, which gets a global, and of its first client.
fn log_of_first(alloc: Global, server: &mut Server, receives: &[Receive]) -> Result<String, Fail> {
    server.create_global(QUAD, 3, ShownToAll)?;
    let mut log = String::new(alloc);
    exchange_with_the_first(server, receives, &mut log)?;
    Ok(log)
}

/// The log of a new server and its first client.
fn server_log(alloc: Global, receives: &[Receive]) -> Result<String, Fail> {
    let table = quad_table(alloc)?;
    let mut server = Server::new(alloc, table);
    let answer = log_of_first(alloc, &mut server, receives);
    drop(server);
    answer
}

/// `get_registry`, with the new id 2, and the front of `bind`, of the global 1.
const FIRST_BYTES: [u8; 26] = [
    1, 0, 0, 0, 1, 0, 12, 0, 2, 0, 0, 0, 2, 0, 0, 0, 0, 0, 32, 0, 1, 0, 0, 0, 5, 0,
];

/// Its back, as `quad` of version 3, with the new id 3; and `give`, of "a", [9] and a descriptor.
const SECOND_BYTES: [u8; 42] = [
    0, 0, 113, 117, 97, 100, 0, 0, 0, 0, 3, 0, 0, 0, 3, 0, 0, 0, 3, 0, 0, 0, 4, 0, 24, 0, 2, 0, 0,
    0, 97, 0, 0, 0, 1, 0, 0, 0, 9, 0, 0, 0,
];

/// What is received of the client.
static RECEIVES: [Receive; 2] = [(&FIRST_BYTES, &[]), (&SECOND_BYTES, &[40])];

/// A client asks for its registry, binds `quad`, and gives a descriptor. The second receive begins in the middle of `bind`.
#[test]
fn server_over_memory(rt: HostRuntime) -> Result<(), Fail> {
    tells(
        &rt,
        server_log(rt.alloc(), &RECEIVES),
        "02 00 00 00 00 00 1c 00 01 00 00 00 05 00 00 00 71 75 61 64 00 00 00 00 03 00 00 00\n, fd 40",
    )
}

/// Sends `wl_display.sync`: the answer has what the host is to send.
fn ask(alloc: Global, client: &mut Client) -> Result<Vec<Parcel>, Fail> {
    let mut sync = Message {
        sender_id: client.display_id(),
        opcode: 0,
        args: SmallVec::new(alloc),
    };
    sync.args.push(Argument::NewId(ObjectId::null()))?;
    client.send_request(sync, Some(()), None)?;
    client.flush()?;
    Ok(client.transport_mut().take_sent())
}

/// Whether an event is handed out, which is open then.
fn has_event(client: &mut Client) -> Result<bool, Fail> {
    match client.next_event() {
        Ok(_event) => Ok(true),
        Err(EventError::WouldBlock) => Ok(false),
        Err(error) => Err(error)?,
    }
}

/// The host received this from the server. The answer is how many events the program was handed, 64 at most.
fn receive(client: &mut Client, (bytes, tokens): Parcel) -> Result<usize, Fail> {
    client.transport_mut().arrive(bytes, tokens)?;
    for count in 0..64 {
        if !has_event(client)? {
            return Ok(count);
        }
        client.finish_event(None)?;
    }
    Ok(64)
}

/// Tells what the client sends for a sync, and how many events it is handed when this comes.
fn sync(client: &mut Client, answer: &[u8], log: &mut String) -> Result<(), Fail> {
    let sends = ask(*log.allocator(), client)?;
    tell_sends(log, sends.as_slice())?;
    let parcel = parcel(*log.allocator(), answer, &[])?;
    let events = receive(client, parcel)?;
    Ok(write!(log, "events: {events}")?)
}

/// A new client.
fn connected(alloc: Global) -> Result<Client, Fail> {
    let table = Protocol::new(alloc, Vec::new(alloc))?;
    Ok(Client::connect(alloc, table, Memory::new(alloc))?)
}

/// The log of a client.
fn log_of_sync(alloc: Global, client: &mut Client, answer: &[u8]) -> Result<String, Fail> {
    let mut log = String::new(alloc);
    sync(client, answer, &mut log)?;
    Ok(log)
}

/// The log of a new client.
fn client_log(alloc: Global, answer: &[u8]) -> Result<String, Fail> {
    let mut client = connected(alloc)?;
    let answer = log_of_sync(alloc, &mut client, answer);
    drop(client);
    answer
}

/// A client sends a sync, and its answer is one event: `delete_id` is handled by the session.
#[test]
fn client_over_memory(rt: HostRuntime) -> Result<(), Fail> {
    let answer = [
        2, 0, 0, 0, 0, 0, 12, 0, 0, 0, 0, 0, // `done`
        1, 0, 0, 0, 1, 0, 12, 0, 2, 0, 0, 0, // `delete_id`, of 2
    ];
    tells(
        &rt,
        client_log(rt.alloc(), &answer),
        "01 00 00 00 00 00 0c 00 02 00 00 00\nevents: 1",
    )
}
