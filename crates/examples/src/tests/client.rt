//! A client over a transport of its own: the example of the page of `wl_client`.

ghost use Rattle.std.specs.Prelude.{◌≤◌, IfOk, length};

use anyhow::Result;
use smallvec::SmallVec;
use std::alloc::Global;
use std::collections::VecDeque;
use std::test::Fail;
use wl_client::{Backend, EventError, Note, ObjectId};
use wl_link::Transport;
use wl_wire::{
    Argument, CString, INLINE_ARGS, Interface, InterfaceId, IoFault, Message, ObjectInfo, Protocol,
    Token,
};

/// Plays back what a server once sent, and keeps what it is sent. It carries no descriptors.
#[derive(Drop)]
struct Playback<'a> {
    from_server: &'a [u8],
    to_server: Vec<u8>,
}

impl<'a> Transport for Playback<'a> {
    ghost sends = { λ before offer answer after. IfOk answer (λ n. n ≤ length offer.bytes) };

    ghost receives = { λ before room answer after.
        IfOk answer (λ came. (length came.bytes ≤ room) × (length came.tokens ≤ 28)) };

    fn send_msg(&mut self, bytes: &[u8], tokens: &[Token]) -> Result<usize, IoFault> {
        if !tokens.is_empty() {
            return Err(IoFault::InvalidInput);
        }
        match self.to_server.extend_from_slice(bytes) {
            Ok(()) => Ok(bytes.len()),
            Err(_) => Err(IoFault::OutOfMemory),
        }
    }

    fn rcv_msg(
        &mut self,
        buffer: &mut [u8],
        _tokens: &mut VecDeque<Token>,
    ) -> Result<usize, IoFault> {
        if buffer.is_empty() {
            return Ok(0);
        }
        if self.from_server.is_empty() {
            return Err(IoFault::WouldBlock);
        }
        let count = buffer.len().min(self.from_server.len());
        let (now, later) = self.from_server.split_at(count);
        buffer[..count].copy_from_slice(now);
        self.from_server = later;
        Ok(count)
    }

    ghost within_offer = { λ before after offer n sent. sent };

    ghost within_room = { λ before after room came received. received.0 };

    ghost few_tokens = { λ before after room came received. received.1 };
}

/// A client of the example: the data of an object tell the program what it is for.
type Client<'a> = Backend<Playback<'a>, u32>;

/// A request of the display that makes an object: `sync` or `get_registry`. The new id is left out: the session puts the
/// number in.
fn making(alloc: Global, display: ObjectId, opcode: u16) -> Result<Message<ObjectId, Token>> {
    let mut request = Message {
        sender_id: display,
        opcode,
        args: SmallVec::new(alloc),
    };
    request.args.push(Argument::NewId(ObjectId::null()))?;
    Ok(request)
}

/// Sends a sync: the server answers when it has come to it.
fn ask(alloc: Global, client: &mut Client<'_>, data: u32) -> Result<ObjectId> {
    let sync = making(alloc, client.display_id(), 0)?;
    let callback = client.send_request(sync, Some(data), None)?;
    client.flush()?;
    Ok(callback)
}

/// The object that the next event is for; `None` if no event is there to its end.
fn next_sender(client: &mut Client<'_>) -> Result<Option<ObjectId>> {
    match client.next_event() {
        Ok(event) => Ok(Some(event.sender_id)),
        Err(EventError::WouldBlock) => Ok(None),
        Err(error) => Err(error)?,
    }
}

/// The data of that object, whose event is finished.
fn answered(client: &mut Client<'_>) -> Result<Option<u32>> {
    let Some(sender) = next_sender(client)? else {
        return Ok(None);
    };
    let data = *client.get_data(&sender)?;
    let ended = client.finish_event(None);
    ended.map_err(|refused| refused.error)?;
    Ok(Some(data))
}

/// Whether a sync is all that was sent.
fn is_asked(client: &Client<'_>) -> bool {
    let sync = [1, 0, 0, 0, 0, 0, 12, 0, 2, 0, 0, 0];
    client.transport().to_server.as_slice() == sync.as_slice()
}

/// Whether the callback is all that was destroyed since the last look.
fn is_noted(client: &mut Client<'_>, callback: ObjectId) -> bool {
    let notes = client.take_notes();
    notes.as_slice() == [Note::Destroyed(callback)].as_slice()
}

/// Asks, and reads until nothing more is there: the data of each answer.
fn answers(alloc: Global, client: &mut Client<'_>) -> Result<[Option<u32>; 2], Fail> {
    let callback = ask(alloc, client, 7)?;
    let first = answered(client)?;
    if !is_asked(client) || !is_noted(client, callback) {
        return Err(Fail::new("one sync is sent, and one callback ends"));
    }
    Ok([first, answered(client)?])
}

/// The interface `counter`, the first of the program's own.
const COUNTER: InterfaceId = InterfaceId(4);

/// The table of the example: `counter`, of version 1, which has no messages here.
fn table(alloc: Global) -> Result<Protocol, Fail> {
    let mut interfaces = Vec::new(alloc);
    interfaces.push(Interface {
        name: String::from_str(alloc, "counter")?,
        version: 1,
        requests: Vec::new(alloc),
        events: Vec::new(alloc),
    })?;
    Ok(Protocol::new(alloc, interfaces)?)
}

/// The string `counter`.
fn counter(alloc: Global) -> Result<CString, Fail> {
    Ok(CString::new(Vec::from_slice(alloc, b"counter")?)?)
}

/// Appends the arguments of `wl_registry.bind`, of the global of this name as a counter of version 1, to the others.
fn push_binding(
    alloc: Global,
    args: &mut SmallVec<Argument<ObjectId, Token>, INLINE_ARGS>,
    name: u32,
) -> Result<(), Fail> {
    args.push(Argument::Uint(name))?;
    args.push(Argument::Str(Some(counter(alloc)?)))?;
    args.push(Argument::Uint(1))?;
    Ok(args.push(Argument::NewId(ObjectId::null()))?)
}

/// `wl_registry.bind` of the global of this name.
fn binding(alloc: Global, registry: ObjectId, name: u32) -> Result<Message<ObjectId, Token>, Fail> {
    let mut bind = Message {
        sender_id: registry,
        opcode: 0,
        args: SmallVec::new(alloc),
    };
    push_binding(alloc, &mut bind.args, name)?;
    Ok(bind)
}

/// The name of the global that the next event tells of, which is finished.
fn announced(client: &mut Client<'_>) -> Result<u32, Fail> {
    let event = client.next_event()?;
    let name = match event.args.as_slice() {
        [Argument::Uint(name), ..] => *name,
        _ => 0,
    };
    client.finish_event(None)?;
    Ok(name)
}

/// Asks for the registry.
fn registry(alloc: Global, client: &mut Client<'_>) -> Result<ObjectId, Fail> {
    let get_registry = making(alloc, client.display_id(), 1)?;
    let registry = client.send_request(get_registry, Some(1), None)?;
    client.flush()?;
    Ok(registry)
}

/// Binds the global of this name. The table names the registry's interface, but not that of a bound object: so the session is
/// told it, with the version.
fn bind_named(
    alloc: Global,
    client: &mut Client<'_>,
    registry: ObjectId,
    name: u32,
) -> Result<ObjectId, Fail> {
    let bind = binding(alloc, registry, name)?;
    let counter = client.send_request(bind, Some(2), Some((COUNTER, 1)))?;
    client.flush()?;
    Ok(counter)
}

/// Asks for the registry, and binds the global that is announced first.
fn bind(alloc: Global, client: &mut Client<'_>) -> Result<ObjectId, Fail> {
    let registry = registry(alloc, client)?;
    let name = announced(client)?;
    bind_named(alloc, client, registry, name)
}

/// A client to which this is played back.
fn connected(alloc: Global, from_server: &[u8]) -> Result<Client<'_>, Fail> {
    let playback = Playback {
        from_server,
        to_server: Vec::new(alloc),
    };
    Ok(Backend::connect(alloc, table(alloc)?, playback)?)
}

/// The data of the answers that this is, played back to a client.
fn played_back(alloc: Global, from_server: &[u8]) -> Result<[Option<u32>; 2], Fail> {
    let mut client = connected(alloc, from_server)?;
    let answer = answers(alloc, &mut client);
    drop(client);
    answer
}

/// What is known of the object that a client binds, and how many bytes it sends for it.
fn bound(alloc: Global, client: &mut Client<'_>) -> Result<(ObjectInfo, usize), Fail> {
    let counter = bind(alloc, client)?;
    Ok((client.info(&counter)?, client.transport().to_server.len()))
}

/// The same, of a client to which this is played back.
fn bound_by(alloc: Global, from_server: &[u8]) -> Result<(ObjectInfo, usize), Fail> {
    let mut client = connected(alloc, from_server)?;
    let answer = bound(alloc, &mut client);
    drop(client);
    answer
}

#[test]
fn client_over_a_transport_of_its_own(rt: HostRuntime) -> Result<(), Fail> {
    let recorded = [
        2, 0, 0, 0, 0, 0, 12, 0, 0, 0, 0, 0, 1, 0, 0, 0, 1, 0, 12, 0, 2, 0, 0, 0,
    ];
    assert_eq!(rt; played_back(rt.alloc(), &recorded)?, [Some(7), None]);
    Ok(())
}

#[test]
fn client_that_binds_a_global(rt: HostRuntime) -> Result<(), Fail> {
    let recorded = [
        2, 0, 0, 0, 0, 0, 28, 0, 1, 0, 0, 0, 8, 0, 0, 0, 99, 111, 117, 110, 116, 101, 114, 0, 1, 0,
        0, 0, // `wl_registry.global`: the global 1 is a `counter` of version 1
    ];
    let (info, sent) = bound_by(rt.alloc(), &recorded)?;
    assert_eq!(rt; (info.id, info.interface, info.version), (3, COUNTER, 1));
    // `get_registry` has 12 bytes, and `bind` 32.
    assert_eq!(rt; sent, 44);
    Ok(())
}
