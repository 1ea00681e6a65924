//! What the registries of a client are told.

ghost use Rattle.std.specs.Prelude.{◌≡◌, ◌∷◌, ◌<◌, [], IfOk, OnErr, Some, length, map};
ghost use Rattle.wl_wire.specs.declared.argument.Argument.TheVariants as arg;
ghost use Rattle.wl_wire.specs.Table.{name_of};
ghost use Rattle.wl_server_client.specs.Felt.{announcements, is_first};
ghost use Rattle.wl_server_client.specs.Globals.{shown_as};
ghost use Rattle.wl_server_client.specs.Inside.News.{IsNews, room_in, text_len};
ghost use Rattle.wl_server_client.specs.Inside.Puts.{Puts};
ghost use Rattle.wl_server_client.specs.Telling.{by_object, making};

use crate::globals::KeptGlobal;
use crate::objects::Registry;
use crate::posted_errors::string_of_bytes;
use smallvec::SmallVec;
use std::alloc::Global;
use std::marker::Model;
use std::mem;
use wl_link::{BufferedSocket, Object, Transport};
use wl_wire::opcodes::GLOBAL;
use wl_wire::{Argument, CString, InterfaceId, IoFault, Message, OutOfMemory, Protocol, Token};

/// The name of an interface, as an argument. It is put into the memory of `bytes`, which grows if it is too small. What
/// was in `bytes` is dropped.
fn interface_name(
    protocol: &Protocol,
    interface: InterfaceId,
    mut bytes: Vec<u8>,
) -> Result<CString, OutOfMemory>
    ensures name { IfOk result (λ name. name ≡ name_of protocol.now interface.0) }
    ensures full { OnErr result (length bytes.items < length (name_of protocol.now interface.0)) }
{
    bytes.clear();
    bytes.extend_from_slice(protocol.name(interface).as_bytes())?;
    Ok(string_of_bytes(bytes))
}

/// A message `wl_registry.global` with this sender. Its arguments are still to be set.
pub fn blank_global_message(alloc: Global, sender_id: u32) -> Message<u32, Token>
    ensures sender { result.sender_id ≡ sender_id }
    ensures opcode { result.opcode ≡ 0 }
    ensures args { length result.args.items ≡ 3 }
    ensures room { room_in result.args.items ≡ 0 }
{
    let mut args = SmallVec::new(alloc);
    args.push_reserved(Argument::Uint(0));
    args.push_reserved(Argument::Str(None));
    args.push_reserved(Argument::Uint(0));
    Message {
        sender_id,
        opcode: GLOBAL,
        args,
    }
}

/// Takes the bytes of the text that an argument has, if it has one.
fn take_bytes(alloc: Global, arg: &mut Argument<u32, Token>) -> Vec<u8>
    ensures { length result.items ≡ text_len arg.old }
{
    match mem::replace(arg, Argument::Str(None)) {
        Argument::Str(Some(text)) => text.into_bytes(),
        _other => Vec::new(alloc),
    }
}

/// Sets the three arguments of a message `wl_registry.global`.
fn set_args(args: &mut [Argument<u32, Token>], name: u32, interface: CString, version: u32)
    requires { length args.old ≡ 3 }
    ensures { args.new ≡ arg.Uint name ∷ arg.Str (Some interface) ∷ arg.Uint version ∷ [] }
{
    args[0] = Argument::Uint(name);
    args[1] = Argument::Str(Some(interface));
    args[2] = Argument::Uint(version);
}

/// Sets the arguments of a message `wl_registry.global`: the global's name, interface and version. The message has three
/// arguments. The error says that there was no memory for the interface's name, which is longer than the text that the
/// message had.
pub fn set_global_args(
    alloc: Global,
    protocol: &Protocol,
    message: &mut Message<u32, Token>,
    name: u32,
    interface: InterfaceId,
    version: u32,
) -> Result<(), OutOfMemory>
    requires { length message.old.args.items ≡ 3 }
    ensures news { IfOk result (λ _. message.new.args.items ≡ arg.Uint name ∷ arg.Str (Some (name_of protocol.now interface.0)) ∷ arg.Uint version ∷ []) }
    ensures full { OnErr result (room_in message.old.args.items < length (name_of protocol.now interface.0)) }
    ensures args { length message.new.args.items ≡ 3 }
    ensures opcode { message.new.opcode ≡ message.old.opcode }
    ensures sender { message.new.sender_id ≡ message.old.sender_id }
{
    // The next name is put in the memory of the name that the message has.
    let bytes = take_bytes(alloc, &mut message.args.as_mut_slice()[1]);
    let text = interface_name(protocol, interface, bytes)?;
    set_args(message.args.as_mut_slice(), name, text, version);
    Ok(())
}

/// Writes the message once for each registry, with the registry as its sender. It stops at the first write that fails.
pub fn put_to_each<T: Transport>(
    socket: &mut BufferedSocket<T>,
    registries: &[Registry],
    message: &mut Message<u32, Token>,
) -> Result<(), IoFault>
    ensures puts { Puts T.sends socket.old (map (λ r. by_object r message.old.opcode message.old.args.items) registries.now) result socket.new }
    ensures news { Puts T.sends socket.old (map (λ r. making (is_first registries.now r) (by_object r message.old.opcode message.old.args.items)) registries.now) result socket.new }
    ensures opcode { message.new.opcode ≡ message.old.opcode }
    ensures args { message.new.args.items ≡ message.old.args.items }
{
    for registry in registries {
        message.sender_id = registry.number;
        if let Err(fault) = socket.write_message(message) {
            return Err(fault);
        }
    }
    Ok(())
}

/// A global that is announced to registries by `wl_registry.global`.
#[derive(Drop)]
pub struct Announcement<'a> {
    protocol: &'a Protocol,
    name: u32,
    interface: InterfaceId,
    version: u32,
    /// The message. It is made for the first registry.
    message: Option<Message<u32, Token>>,
}

impl<'a> Model for Announcement<'a> {
    ghost use Rattle.std.specs.Prelude.{IfSome};
    ghost use Rattle.wl_server_client.specs.Inside.News.{Announced, IsNews};

    ghost Value = { Announced };

    ghost view = { λ a. record {
      table = a.protocol.now;
      global = record { name = a.name; interface = a.interface; version = a.version };
    } };

    ghost invariant = { λ a. IfSome a.message (IsNews a.protocol.now (record { name = a.name; interface = a.interface; version = a.version })) };
}

impl<'a> Announcement<'a> {
    /// The announcement of this global, which is made to no registry yet.
    pub fn new<G>(protocol: &'a Protocol, name: u32, global: &Object<KeptGlobal<G>>) -> Self
        ensures { result ≡ record { table = protocol.now; global = shown_as (name, global.now) } }
    {
        Announcement {
            protocol,
            name,
            interface: global.interface,
            version: global.version,
            message: None,
        }
    }

    /// Makes the message. Its sender is still to be set.
    fn new_message(&self, alloc: Global) -> Result<Message<u32, Token>, OutOfMemory>
        ensures { IfOk result (IsNews self.now.table self.now.global) }
    {
        let mut message = blank_global_message(alloc, 0);
        set_global_args(
            alloc,
            self.protocol,
            &mut message,
            self.name,
            self.interface,
            self.version,
        )?;
        Ok(message)
    }

    /// Tells each registry of the global. The interface's name is allocated once in all calls, and not at all if there is no
    /// registry. If there is no memory for it, the next call with a registry tries again.
    pub fn tell<T: Transport>(
        &mut self,
        alloc: Global,
        socket: &mut BufferedSocket<T>,
        registries: &[Registry],
    ) -> Result<(), IoFault>
        ensures puts { Puts T.sends socket.old (announcements self.old.table registries.now self.old.global) result socket.new }
        ensures same { self.new ≡ self.old }
    {
        if registries.is_empty() {
            return Ok(());
        }
        if let Some(message) = &mut self.message {
            return put_to_each(socket, registries, message);
        }
        let Ok(mut message) = self.new_message(alloc) else {
            return Err(IoFault::OutOfMemory);
        };
        let wrote = put_to_each(socket, registries, &mut message);
        self.message = Some(message);
        wrote
    }
}
