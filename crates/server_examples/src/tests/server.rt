//! A server over a transport of its own, whose clients have counters.

ghost use Rattle.std.specs.Prelude.{◌≤◌, IfOk, length};

use smallvec::SmallVec;
use std::alloc::{AllocError, Global};
use std::collections::VecDeque;
use std::test::Fail;
use wl_link::Transport;
use wl_server::{Backend, ClientId, GlobalId, Handler, ObjectId, ShownToAll};
use wl_wire::{
    Argument, ArgumentType, INLINE_ARGS, Interface, InterfaceId, IoFault, Message, MessageDesc,
    Protocol, Token,
};

/// Plays back what a client once sent, and keeps what it is sent. It carries no descriptors.
#[derive(Drop)]
struct Playback<'a> {
    from_client: &'a [u8],
    to_client: Vec<u8>,
}

impl<'a> Transport for Playback<'a> {
    ghost sends = { λ before offer answer after. IfOk answer (λ n. n ≤ length offer.bytes) };

    ghost receives = { λ before room answer after.
        IfOk answer (λ came. (length came.bytes ≤ room) × (length came.tokens ≤ 28)) };

    fn send_msg(&mut self, bytes: &[u8], tokens: &[Token]) -> Result<usize, IoFault> {
        if !tokens.is_empty() {
            return Err(IoFault::InvalidInput);
        }
        match self.to_client.extend_from_slice(bytes) {
            Ok(()) => Ok(bytes.len()),
            Err(_) => Err(IoFault::OutOfMemory),
        }
    }

    fn rcv_msg(
        &mut self,
        buffer: &mut [u8],
        _tokens: &mut VecDeque<Token>,
    ) -> Result<usize, IoFault> {
        if buffer.is_empty() {
            return Ok(0);
        }
        if self.from_client.is_empty() {
            return Err(IoFault::WouldBlock);
        }
        let count = buffer.len().min(self.from_client.len());
        let (now, later) = self.from_client.split_at(count);
        buffer[..count].copy_from_slice(now);
        self.from_client = later;
        Ok(count)
    }

    ghost within_offer = { λ before after offer n sent. sent };

    ghost within_room = { λ before after room came received. received.0 };

    ghost few_tokens = { λ before after room came received. received.1 };
}

/// A server of the example: each object counts, all clients see all globals, and nothing is kept of a client.
type Server<'a> = Backend<Playback<'a>, i32, ShownToAll, ()>;

/// The interface of the example, the first of the program's own.
const COUNTER: InterfaceId = InterfaceId(4);

/// A message of the example, which has a number.
fn of_a_number(alloc: Global, name: &str) -> Result<MessageDesc, Fail> {
    Ok(MessageDesc {
        name: String::from_str(alloc, name)?,
        signature: Vec::from_slice(alloc, &[ArgumentType::Int])?,
        since: 1,
        is_destructor: false,
        child_interface: None,
        arg_interfaces: Vec::new(alloc),
    })
}

/// A list of one such message.
fn one_of_a_number(alloc: Global, name: &str) -> Result<Vec<MessageDesc>, Fail> {
    let mut messages = Vec::new(alloc);
    messages.push(of_a_number(alloc, name)?)?;
    Ok(messages)
}

/// The interface `counter`, of version 1: it has one request, `add`, and one event, `changed`.
fn counter(alloc: Global) -> Result<Interface, Fail> {
    Ok(Interface {
        name: String::from_str(alloc, "counter")?,
        version: 1,
        requests: one_of_a_number(alloc, "add")?,
        events: one_of_a_number(alloc, "changed")?,
    })
}

/// The table of the example.
fn table(alloc: Global) -> Result<Protocol, Fail> {
    let mut interfaces = Vec::new(alloc);
    interfaces.push(counter(alloc)?)?;
    Ok(Protocol::new(alloc, interfaces)?)
}

/// Offers a counter. From now on the clients may send messages of any length.
fn offer(server: &mut Server<'_>) -> Result<GlobalId, Fail> {
    server.set_default_max_buffer_size(65536);
    Ok(server.create_global(COUNTER, 1, ShownToAll)?)
}

/// What a request asks to be added.
fn asked(args: &[Argument<ObjectId, Token>]) -> i32 {
    match args.first() {
        Some(Argument::Int(value)) => *value,
        _ => 0,
    }
}

/// The event `counter.changed`: the counter is this now.
fn changed(
    alloc: Global,
    counter: &ObjectId,
    count: i32,
) -> Result<Message<ObjectId, Token>, AllocError> {
    let mut changed = Message {
        sender_id: *counter,
        opcode: 0,
        args: SmallVec::new(alloc),
    };
    changed.args.push(Argument::Int(count))?;
    Ok(changed)
}

/// What the program does with the requests of its clients.
#[derive(Drop)]
struct Counters {
    alloc: Global,
    /// Whether a client could not be told what its counter is, because memory was refused.
    is_behind: bool,
}

impl<'a> Handler<Playback<'a>, i32, ShownToAll, ()> for Counters {
    ghost use Rattle.std.specs.Prelude.{◌≡◌, None, pos};

    ghost requests = { λ h b id sender opcode args created answer h' b'. answer ≡ None };

    ghost binds = { λ h b id global object answer h' b'. (answer ≡ pos 0) × (h' ≡ h) × (b' ≡ b) };

    /// Adds to a counter, and tells its client.
    fn request(
        &mut self,
        server: &mut Server<'a>,
        _client: &ClientId,
        counter: ObjectId,
        _opcode: u16,
        args: SmallVec<Argument<ObjectId, Token>, INLINE_ARGS>,
        _created: Option<ObjectId>,
    ) -> Option<i32> {
        let count = sum(server, &counter, asked(args.as_slice()));
        let Ok(event) = changed(self.alloc, &counter, count) else {
            self.is_behind = true;
            return None;
        };
        // Both calls are refused only if the counter is gone, the second also if memory is.
        let is_set = server.set_object_data(&counter, count).is_ok();
        let is_told = server.send_event(event).is_ok();
        self.is_behind = self.is_behind || !(is_set && is_told);
        None
    }

    /// A new counter is 0.
    fn bind(
        &mut self,
        _server: &mut Server<'a>,
        _client: &ClientId,
        _global: GlobalId,
        _counter: ObjectId,
    ) -> i32 {
        0
    }
}

/// What the counter comes to with this value.
fn sum(server: &Server<'_>, counter: &ObjectId, value: i32) -> i32 {
    match server.get_object_data(counter) {
        Ok(count) => count.wrapping_add(value),
        Err(_) => value,
    }
}

/// Does what the client asks for, until nothing more of it is there.
fn serve(alloc: Global, server: &mut Server<'_>, client: &ClientId) -> Result<(), Fail> {
    let mut counters = Counters {
        alloc,
        is_behind: false,
    };
    server.dispatch_single_client(&mut counters, client)?;
    if counters.is_behind {
        Err(IoFault::OutOfMemory)?
    }
    Ok(())
}

/// Takes a client of which this is to come.
fn inserted<'a>(
    alloc: Global,
    server: &mut Server<'a>,
    from_client: &'a [u8],
) -> Result<ClientId, Fail> {
    let playback = Playback {
        from_client,
        to_client: Vec::new(alloc),
    };
    Ok(server.insert_client(playback, ())?)
}

/// What the counter at object 3 is.
fn count(server: &Server<'_>, client: &ClientId) -> Result<i32, Fail> {
    let counter = server.object_for_protocol_id(client, COUNTER, 3)?;
    Ok(*server.get_object_data(&counter)?)
}

/// Sends what waits for the client. The answer is how many bytes it was sent in all.
fn sent(server: &mut Server<'_>, client: &ClientId) -> Result<usize, Fail> {
    server.flush(Some(*client))?;
    Ok(server.transport(client)?.to_client.len())
}

/// Withdraws the counter: disabled first, it is announced no more, and who was told of it is told that it is gone. A client
/// that has not heard that yet may still bind it, so it is removed later, when no such bind can come any more.
fn withdraw(server: &mut Server<'_>, client: &ClientId, counter: &GlobalId) -> Result<usize, Fail> {
    server.disable_global(counter);
    let count = sent(server, client)?;
    server.remove_global(counter);
    Ok(count)
}

/// What the counter of a client comes to, how many bytes the client was sent for it, and how many after the counter was
/// withdrawn.
fn conversation(
    alloc: Global,
    server: &mut Server<'_>,
    client: &ClientId,
    counter: &GlobalId,
) -> Result<(i32, usize, usize), Fail> {
    serve(alloc, server, client)?;
    let served = sent(server, client)?;
    let withdrawn = withdraw(server, client, counter)?;
    Ok((count(server, client)?, served, withdrawn))
}

/// The same, of a server that offers a counter, and a client of which this is to come.
fn conversation_with_a_new_client<'a>(
    alloc: Global,
    server: &mut Server<'a>,
    from_client: &'a [u8],
) -> Result<(i32, usize, usize), Fail> {
    let counter = offer(server)?;
    let client = inserted(alloc, server, from_client)?;
    conversation(alloc, server, &client, &counter)
}

/// The same, of the first client of a new server.
fn played_back(alloc: Global, from_client: &[u8]) -> Result<(i32, usize, usize), Fail> {
    let table = table(alloc)?;
    let mut server = Backend::new(alloc, table);
    let answer = conversation_with_a_new_client(alloc, &mut server, from_client);
    drop(server);
    answer
}

#[test]
fn server_over_a_transport_of_its_own(rt: HostRuntime) -> Result<(), Fail> {
    let recorded = [
        1, 0, 0, 0, 1, 0, 12, 0, 2, 0, 0, 0, // `get_registry`, with the new id 2
        2, 0, 0, 0, 0, 0, 32, 0, 1, 0, 0, 0, 8, 0, 0, 0, 99, 111, 117, 110, 116, 101, 114, 0, 1, 0,
        0, 0, 3, 0, 0, 0, // `bind`, of the global 1, as `counter` of version 1, with the new id 3
        3, 0, 0, 0, 0, 0, 12, 0, 5, 0, 0, 0, // `add`, of 5
        3, 0, 0, 0, 0, 0, 12, 0, 2, 0, 0, 0, // `add`, of 2
    ];
    // `global` has 28 bytes, each `changed` 12, and `global_remove` 12.
    assert_eq!(rt; played_back(rt.alloc(), &recorded)?, (7, 52, 64));
    Ok(())
}
