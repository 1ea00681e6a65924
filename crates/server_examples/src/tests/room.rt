//! A server with objects of two kinds, whose handler tells all of them: the example of the page of `wl_server`.

ghost use Rattle.server_examples.specs.Room.{OnlyCalls};

use anyhow::{Error, Result};
use smallvec::SmallVec;
use std::alloc::Global;
use std::test::Fail;
use wl_link::Memory;
use wl_server::{Backend, ClientId, GlobalId, Handler, ObjectId, ShownToAll};
use wl_wire::{
    Argument, ArgumentType, INLINE_ARGS, Interface, InterfaceId, Message, MessageDesc, Protocol,
    Token,
};

/// A message of the table.
#[derive(Clone, Copy)]
struct Row {
    name: &'static str,
    signature: &'static [ArgumentType],
    is_destructor: bool,
    child: Option<InterfaceId>,
}

/// A message with these arguments.
const fn message(name: &'static str, signature: &'static [ArgumentType]) -> Row {
    Row {
        name,
        signature,
        is_destructor: false,
        child: None,
    }
}

/// A message that makes an object of this interface.
const fn maker(name: &'static str, child: InterfaceId) -> Row {
    Row {
        name,
        signature: &[ArgumentType::NewId],
        is_destructor: false,
        child: Some(child),
    }
}

/// A message that ends its object.
const fn destructor(name: &'static str) -> Row {
    Row {
        name,
        signature: &[],
        is_destructor: true,
        child: None,
    }
}

/// The description of a message.
fn described(alloc: Global, row: &Row) -> Result<MessageDesc> {
    Ok(MessageDesc {
        name: String::from_str(alloc, row.name)?,
        signature: Vec::from_slice(alloc, row.signature)?,
        since: 1,
        is_destructor: row.is_destructor,
        child_interface: row.child,
        arg_interfaces: Vec::new(alloc),
    })
}

/// The descriptions of messages.
fn all_described(alloc: Global, rows: &[Row]) -> Result<Vec<MessageDesc>> {
    let mut messages = Vec::new(alloc);
    for row in rows {
        messages.push(described(alloc, row)?)?;
    }
    Ok(messages)
}

/// An interface of version 1 with these requests and events.
fn interface(alloc: Global, name: &str, requests: &[Row], events: &[Row]) -> Result<Interface> {
    Ok(Interface {
        name: String::from_str(alloc, name)?,
        version: 1,
        requests: all_described(alloc, requests)?,
        events: all_described(alloc, events)?,
    })
}

/// The interface `room`, the first of the program's own.
const ROOM: InterfaceId = InterfaceId(4);

/// The interface `member`.
const MEMBER: InterfaceId = InterfaceId(5);

/// The interface `room`.
fn room_interface(alloc: Global) -> Result<Interface> {
    let requests = [maker("join", MEMBER)];
    interface(alloc, "room", &requests, &[])
}

/// The interface `member`.
fn member_interface(alloc: Global) -> Result<Interface> {
    let requests = [message("say", &[ArgumentType::Int]), destructor("leave")];
    let events = [message("said", &[ArgumentType::Int])];
    interface(alloc, "member", &requests, &events)
}

/// The table.
fn table(alloc: Global) -> Result<Protocol> {
    let mut interfaces = Vec::new(alloc);
    interfaces.push(room_interface(alloc)?)?;
    interfaces.push(member_interface(alloc)?)?;
    Ok(Protocol::new(alloc, interfaces)?)
}

/// What the program keeps of an object.
#[derive(Clone, Copy, Debug, Drop, PartialEq)]
enum Kind {
    /// The room, which a client has bound.
    Room,
    /// A member of the room, who said so many things.
    Member(u32),
}

/// A server over `Memory`. All clients see all globals, and nothing is kept of a client.
type Server = Backend<Memory, Kind, ShownToAll, ()>;

/// The event `member.said`, of this word.
fn said(alloc: Global, member: &ObjectId, word: i32) -> Result<Message<ObjectId, Token>> {
    let mut said = Message {
        sender_id: *member,
        opcode: 0,
        args: SmallVec::new(alloc),
    };
    said.args.push(Argument::Int(word))?;
    Ok(said)
}

/// Tells each member what one of them said. Those that are gone are passed over.
fn tell_all(alloc: Global, server: &mut Server, members: &[ObjectId], word: i32) -> Result<()>
    ensures { OnlyCalls server.old.server server.new.server }
{
    for member in members {
        if server.object_info(member).is_err() {
            continue;
        }
        server.send_event(said(alloc, member, word)?)?;
    }
    Ok(())
}

/// What the program does with the requests of its clients.
#[derive(Drop)]
struct Room {
    alloc: Global,
    /// All members that ever joined.
    members: Vec<ObjectId>,
    /// Why a request could not be done as it should.
    error: Option<Error>,
}

impl Room {
    /// Does what a request asks for, by the kind of its object.
    fn act(
        &mut self,
        server: &mut Server,
        sender: &ObjectId,
        args: &[Argument<ObjectId, Token>],
        created: Option<ObjectId>,
    ) -> Result<()>
        ensures { OnlyCalls server.old.server server.new.server }
    {
        let kind = *server.get_object_data(sender)?;
        match (kind, args, created) {
            (Kind::Room, _, Some(member)) => self.members.push(member)?, // `join`
            (Kind::Member(count), [Argument::Int(word)], _) => {
                server.set_object_data(sender, Kind::Member(count.saturating_add(1)))?;
                tell_all(self.alloc, server, self.members.as_slice(), *word)?;
            }
            _ => {} // `leave`: the server takes the member out by itself
        }
        Ok(())
    }
}

impl Handler<Memory, Kind, ShownToAll, ()> for Room {
    ghost requests = { λ h b id sender opcode args created answer h' b'. Unit {0} };

    ghost binds = { λ h b id global object answer h' b'. Unit {0} };

    fn request(
        &mut self,
        server: &mut Server,
        _client: &ClientId,
        sender: ObjectId,
        _opcode: u16,
        args: SmallVec<Argument<ObjectId, Token>, INLINE_ARGS>,
        created: Option<ObjectId>,
    ) -> Option<Kind> {
        let is_joining = created.is_some();
        if let Err(error) = self.act(server, &sender, args.as_slice(), created) {
            self.error = Some(error);
        }
        is_joining.then_some(Kind::Member(0))
    }

    fn bind(
        &mut self,
        _server: &mut Server,
        _client: &ClientId,
        _global: GlobalId,
        _room: ObjectId,
    ) -> Kind {
        Kind::Room
    }
}

/// Does what the client asks for, until nothing more of it is there.
fn serve(server: &mut Server, room: &mut Room, client: &ClientId) -> Result<()> {
    server.dispatch_single_client(room, client)?;
    match room.error.take() {
        Some(error) => Err(error),
        None => Ok(()),
    }
}

/// Takes a client, which sends these bytes.
fn inserted(alloc: Global, server: &mut Server, bytes: &[u8]) -> Result<ClientId> {
    let client = server.insert_client(Memory::new(alloc), ())?;
    let (bytes, tokens) = (Vec::from_slice(alloc, bytes)?, Vec::new(alloc));
    server.transport_mut(&client)?.arrive(bytes, tokens)?;
    Ok(client)
}

/// Offers a room, and takes a client, which sends these bytes.
fn visited(alloc: Global, server: &mut Server, bytes: &[u8]) -> Result<ClientId> {
    server.create_global(ROOM, 1, ShownToAll)?;
    inserted(alloc, server, bytes)
}

/// What is kept of the object of this number.
fn kind_of(server: &Server, client: &ClientId, number: u32) -> Result<Kind> {
    let member = server.object_for_protocol_id(client, MEMBER, number)?;
    Ok(*server.get_object_data(&member)?)
}

/// What is kept of the members 4 and 5.
fn kinds(server: &Server, client: &ClientId) -> Result<[Kind; 2]> {
    Ok([kind_of(server, client, 4)?, kind_of(server, client, 5)?])
}

/// Sends what waits: how many bytes the client is sent.
fn sent(server: &mut Server, client: &ClientId) -> Result<usize> {
    server.flush(Some(*client))?;
    let mut count = 0usize;
    for (bytes, _tokens) in server.transport_mut(client)?.take_sent().as_slice() {
        count = count.saturating_add(bytes.len());
    }
    Ok(count)
}

/// Serves the client: what is kept of the members 4 and 5, and how many bytes the client is sent.
fn served(server: &mut Server, room: &mut Room, client: &ClientId) -> Result<([Kind; 2], usize)> {
    serve(server, room, client)?;
    let kinds = kinds(server, client)?;
    Ok((kinds, sent(server, client)?))
}

/// The same, of a client that sends these bytes, and a new room.
fn conversation(alloc: Global, server: &mut Server, bytes: &[u8]) -> Result<([Kind; 2], usize)> {
    let client = visited(alloc, server, bytes)?;
    let mut room = Room {
        alloc,
        members: Vec::new(alloc),
        error: None,
    };
    served(server, &mut room, &client)
}

/// The same, of a new server.
fn played_back(alloc: Global, bytes: &[u8]) -> Result<([Kind; 2], usize)> {
    let mut server = Server::new(alloc, table(alloc)?);
    let answer = conversation(alloc, &mut server, bytes);
    drop(server);
    answer
}

#[test]
fn all_members_are_told(rt: HostRuntime) -> Result<(), Fail> {
    let recorded = [
        1, 0, 0, 0, 1, 0, 12, 0, 2, 0, 0, 0, // `get_registry`, with the new id 2
        2, 0, 0, 0, 0, 0, 32, 0, 1, 0, 0, 0, 5, 0, 0, 0, 114, 111, 111, 109, 0, 0, 0, 0, 1, 0, 0,
        0, 3, 0, 0, 0, // `bind`, of the global 1, as `room` of version 1, with the new id 3
        3, 0, 0, 0, 0, 0, 12, 0, 4, 0, 0, 0, // `join`, with the new id 4
        3, 0, 0, 0, 0, 0, 12, 0, 5, 0, 0, 0, // `join`, with the new id 5
        3, 0, 0, 0, 0, 0, 12, 0, 6, 0, 0, 0, // `join`, with the new id 6
        6, 0, 0, 0, 1, 0, 8, 0, // `leave`, of member 6
        5, 0, 0, 0, 0, 0, 12, 0, 9, 0, 0, 0, // `say`, of member 5
    ];
    // `global` has 28 bytes, `delete_id` of member 6 has 12, and each of the two `said` 12.
    let (kinds, sent) = played_back(rt.alloc(), &recorded)?;
    assert_eq!(rt; kinds, [Kind::Member(0), Kind::Member(1)]);
    assert_eq!(rt; sent, 64);
    Ok(())
}
