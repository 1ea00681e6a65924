//! The first exchange of a client and a server: `wl_display.sync`, and its answer.

ghost use Rattle.std.specs.Prelude.{◌≡◌, IfErr, IfOk, OnOk};
ghost use Rattle.wl_bench.specs.declared.stop.Stop.TheVariants.{Failed};
ghost use Rattle.wl_bench.specs.Sync.{HasAsked, IsFresh, WasSent, all_bytes, answer_bytes, bringing, request_bytes};
ghost use Rattle.wl_server_model.specs.Server.{new_server};
ghost use Rattle.wl_wire.specs.Table.{fixed_rows};

use crate::stop::Stop;
use smallvec::SmallVec;
use std::alloc::Global;
use wl_client::{Backend, ObjectId};
use wl_link::Memory;
use wl_server::{ActionError, ClientId, ShownToAll};
use wl_wire::{Argument, IoFault, Message, Protocol};

/// The opcode of `wl_display.sync`.
const SYNC: u16 = 0;

/// All bytes that were sent over the transport.
fn sent_bytes(alloc: Global, transport: &Memory) -> Result<Vec<u8>, Stop>
    ensures ok { IfOk result (λ v. v.items ≡ all_bytes transport.now.sent) }
    ensures failed { IfErr result (λ e. e ≡ Failed) }
{
    let mut bytes = Vec::new(alloc);
    let sent = transport.sent();
    for (chunk, _) in sent {
        bytes.extend_from_slice(chunk)?;
    }
    Ok(bytes)
}

/// A client's session over the transport by script.
type Client = Backend<Memory, ()>;

/// Sends the first `wl_display.sync` of a session in which nothing has happened.
fn send_sync(alloc: Global, client: &mut Client) -> Result<(), Stop>
    ensures ok { OnOk result (IsFresh client.old.session → all_bytes client.new.session.link.transport.sent ≡ request_bytes) }
    ensures failed { IfErr result (λ e. e ≡ Failed) }
{
    let mut args = SmallVec::new(alloc);
    args.push(Argument::NewId(ObjectId::null()))?;
    let sync = Message {
        sender_id: client.display_id(),
        opcode: SYNC,
        args,
    };
    let _callback = client.send_request(sync, Some(()), None)?;
    client.flush()?;
    Ok(())
}

/// A session over an empty script in which nothing has happened.
fn fresh_client(alloc: Global) -> Result<Client, Stop>
    ensures ok { IfOk result (λ client. IsFresh client.session) }
    ensures failed { IfErr result (λ e. e ≡ Failed) }
{
    let table = Protocol::new(alloc, Vec::new(alloc))?;
    let client = Backend::connect(alloc, table, Memory::new(alloc))?;
    Ok(client)
}

/// All bytes that a session has sent after it sent a `wl_display.sync`, which is its first request if it is fresh.
fn sync_bytes(alloc: Global, client: &mut Client) -> Result<Vec<u8>, Stop>
    ensures ok { IsFresh client.old.session → IfOk result (λ v. v.items ≡ request_bytes) }
    ensures failed { IfErr result (λ e. e ≡ Failed) }
{
    send_sync(alloc, client)?;
    sent_bytes(alloc, client.transport())
}

/// The bytes that a fresh client sends for its first `wl_display.sync`. If there is no memory, the error is `Failed`.
pub fn request(alloc: Global) -> Result<Vec<u8>, Stop>
    ensures ok { IfOk result (λ v. v.items ≡ request_bytes) }
    ensures failed { IfErr result (λ e. e ≡ Failed) }
{
    let mut client = fresh_client(alloc)?;
    let bytes = sync_bytes(alloc, &mut client);
    drop(client);
    bytes
}

/// A server over transports by script, whose objects and clients have no data.
type Server = wl_server::Backend<Memory, (), ShownToAll, ()>;

/// A transport from which these bytes come.
fn bringing(alloc: Global, bytes: &[u8]) -> Result<Memory, Stop>
    ensures ok { IfOk result (λ transport. transport ≡ bringing bytes.now) }
    ensures failed { IfErr result (λ e. e ≡ Failed) }
{
    let mut transport = Memory::new(alloc);
    transport.arrive(Vec::from_slice(alloc, bytes)?, Vec::new(alloc))?;
    Ok(transport)
}

/// A server over the fixed interfaces, in which nothing has happened.
fn fresh_server(alloc: Global) -> Result<Server, Stop>
    ensures ok { IfOk result (λ server. server.server ≡ new_server fixed_rows) }
    ensures failed { IfErr result (λ e. e ≡ Failed) }
{
    Ok(Server::new(alloc, Protocol::new(alloc, Vec::new(alloc))?))
}

/// Inserts a client from which these bytes come.
fn insert(alloc: Global, server: &mut Server, request: &[u8]) -> Result<ClientId, Stop>
    ensures ok { server.old.server ≡ new_server fixed_rows → request.now ≡ request_bytes → IfOk result (HasAsked server.new.server) }
    ensures failed { IfErr result (λ e. e ≡ Failed) }
{
    let transport = bringing(alloc, request)?;
    Ok(server.insert_client(transport, ())?)
}

/// Reads and handles what came from a client, and sends the answer. No action may come of it.
fn serve(server: &mut Server, client: &ClientId) -> Result<(), Stop>
    ensures ok { OnOk result (HasAsked server.old.server client.now → WasSent server.new.server client.now answer_bytes) }
    ensures failed { IfErr result (λ e. e ≡ Failed) }
{
    match server.next_action(client) {
        Err(ActionError::Io(IoFault::WouldBlock)) => {}
        _ => return Err(Stop::Failed),
    }
    if server.memory_refused() {
        return Err(Stop::Failed);
    }
    Ok(server.flush(Some(*client))?)
}

/// All bytes that a server sends to a new client from which these come.
fn answer_to(alloc: Global, server: &mut Server, request: &[u8]) -> Result<Vec<u8>, Stop>
    ensures ok { server.old.server ≡ new_server fixed_rows → request.now ≡ request_bytes → IfOk result (λ v. v.items ≡ answer_bytes) }
    ensures failed { IfErr result (λ e. e ≡ Failed) }
{
    let client = insert(alloc, server, request)?;
    serve(server, &client)?;
    sent_bytes(alloc, server.transport(&client)?)
}

/// The bytes that a fresh server sends to its first client for its first request.
///
/// For a `wl_display.sync` these are two events: the callback is done, and its number is free again. If there is no memory, or
/// the server hands out an action for what it is sent, the error is `Failed`.
pub fn answer(alloc: Global, request: &[u8]) -> Result<Vec<u8>, Stop>
    ensures ok { request.now ≡ request_bytes → IfOk result (λ v. v.items ≡ answer_bytes) }
    ensures failed { IfErr result (λ e. e ≡ Failed) }
{
    let mut server = fresh_server(alloc)?;
    let bytes = answer_to(alloc, &mut server, request);
    drop(server);
    bytes
}
