//! The example of the README.

use anyhow::Result;
use std::alloc::Global;
use std::test::Fail;
use wl_link::Memory;
use wl_server::{ActionError, Backend, ShownToAll};
use wl_wire::{IoFault, Protocol, Token};

/// A server. `Memory` is its transport: you put in what a socket received, and take out what it is to send.
type Server = Backend<Memory, (), ShownToAll, ()>;

/// What goes to a socket: bytes, with the descriptors beside them.
type Sends = Vec<(Vec<u8>, Vec<Token>)>;

/// Takes a new client, whose socket received these bytes.
fn serve(alloc: Global, server: &mut Server, received: &[u8]) -> Result<Sends> {
    let client = server.insert_client(Memory::new(alloc), ())?;
    let (bytes, fds) = (Vec::from_slice(alloc, received)?, Vec::new(alloc));
    server.transport_mut(&client)?.arrive(bytes, fds)?;
    match server.next_action(&client) {
        Ok(_action) => {} // a request or a bind: do it, and finish it before you read again
        Err(ActionError::Io(IoFault::WouldBlock)) => {} // all is read; `sync` was answered inside
        Err(error) => Err(error)?,
    }
    server.flush(Some(client))?;
    Ok(server.transport_mut(&client)?.take_sent())
}

/// What a new server sends to a client whose socket received these bytes.
fn served(alloc: Global, received: &[u8]) -> Result<Sends> {
    let table = Protocol::new(alloc, Vec::new(alloc))?;
    let mut server = Server::new(alloc, table);
    let sends = serve(alloc, &mut server, received);
    drop(server);
    sends
}

#[test]
fn sync_is_answered(rt: HostRuntime) -> Result<(), Fail> {
    let sync = [1, 0, 0, 0, 0, 0, 12, 0, 2, 0, 0, 0]; // to object 1: opcode 0, with new object 2
    let sent = served(rt.alloc(), &sync)?;
    let done_and_delete_id = [
        2, 0, 0, 0, 0, 0, 12, 0, 0, 0, 0, 0, 1, 0, 0, 0, 1, 0, 12, 0, 2, 0, 0, 0,
    ];
    assert!(rt; sent.len() == 1 && sent[0].0.as_slice() == done_and_delete_id.as_slice());
    Ok(())
}
