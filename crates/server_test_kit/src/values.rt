//! Clients, globals, objects and events of the runs, as plain data.

use smallvec::SmallVec;
use std::alloc::Global;
use std::test::Fail;
use test_kit::quad::QUAD;
use wl_server::{ClientId, GlobalHandler, GlobalId, ObjectId};
use wl_wire::{
    Argument, ByteArray, CString, INLINE_ARGS, InterfaceId, Message, Token, WL_DISPLAY_INTERFACE,
};

/// Shows its global to the clients whose data say so.
#[derive(Clone, Copy, Drop)]
pub struct Shown;

impl GlobalHandler<bool> for Shown {
    ghost views = { λ _ _ client_data _. client_data };

    fn can_view(&self, _client: &ClientId, client_data: &bool, _global: &GlobalId) -> bool {
        *client_data
    }
}

/// A client: its slot and its serial.
#[derive(Clone, Copy)]
pub struct Who(pub u32, pub u64);

/// The client that is inserted first.
pub const FIRST: Who = Who(0, 1);

/// The client that is inserted second.
pub const SECOND: Who = Who(1, 2);

/// The client that is inserted third.
pub const THIRD: Who = Who(2, 3);

impl Who {
    /// Its id.
    pub fn id(self) -> ClientId {
        ClientId::from_parts(self.0, self.1)
    }
}

/// A global: its name and its serial.
#[derive(Clone, Copy)]
pub struct Named(pub u32, pub u64);

impl Named {
    /// Its id.
    pub fn id(self) -> GlobalId {
        GlobalId::from_parts(self.0, self.1)
    }
}

/// An object of a client: its number, its serial, and its interface.
#[derive(Clone, Copy)]
pub struct Thing(pub Who, pub u32, pub u64, pub InterfaceId);

/// The display of the first client.
pub const DISPLAY: Thing = Thing(FIRST, 1, 0, WL_DISPLAY_INTERFACE);

/// The `quad` that the first client binds after its registry.
pub const BOUND: Thing = Thing(FIRST, 3, 2, QUAD);

impl Thing {
    /// Its id.
    pub fn id(self) -> ObjectId {
        ObjectId::from_parts(self.1, self.2, self.0.id(), self.3)
    }
}

/// The events of the runs.
#[derive(Clone, Copy)]
pub enum Event {
    /// An event without arguments, by its sender and its opcode.
    Bare(Thing, u16),
    /// `quad.moved`, by its sender, of a number.
    Moved(Thing, i32),
    /// `quad.made`, by its sender, of a new object.
    Made(Thing, Thing),
    /// `wl_registry.global`, by its sender, of a `quad` of version 3 that has this name.
    Global(Thing, u32),
    /// `wl_registry.global_remove`, by its sender, of this name.
    GlobalRemove(Thing, u32),
    /// `pair.joined`, by its sender: of the object twice, the string `ab`, three bytes and the descriptor 9.
    Joined(Thing, Thing),
}

impl Event {
    /// Its sender.
    pub fn sender(self) -> Thing {
        self.header().0
    }

    /// Its sender and its opcode.
    fn header(self) -> (Thing, u16) {
        match self {
            Event::Bare(sender, opcode) => (sender, opcode),
            Event::Moved(sender, _) | Event::Joined(sender, _) | Event::Global(sender, _) => {
                (sender, 0)
            }
            Event::Made(sender, _) | Event::GlobalRemove(sender, _) => (sender, 1),
        }
    }
}

/// The arguments of a message.
type Arguments = SmallVec<Argument<ObjectId, Token>, INLINE_ARGS>;

/// The string `ab`.
fn string(alloc: Global) -> Result<Argument<ObjectId, Token>, Fail> {
    let text = CString::new(Vec::from_slice(alloc, b"ab")?)?;
    Ok(Argument::Str(Some(text)))
}

/// Three bytes.
fn bytes(alloc: Global) -> Result<Argument<ObjectId, Token>, Fail> {
    let bytes = Vec::from_slice(alloc, &[1, 2, 3])?;
    Ok(Argument::Array(ByteArray::new(bytes)))
}

/// Appends the arguments of `pair.joined` to the others.
fn push_joined(alloc: Global, args: &mut Arguments, object: Thing) -> Result<(), Fail> {
    args.push(Argument::Object(object.id()))?;
    args.push(Argument::Object(object.id()))?;
    args.push(string(alloc)?)?;
    args.push(bytes(alloc)?)?;
    Ok(args.push(Argument::Fd(Token(9)))?)
}

/// Appends the arguments of `wl_registry.global` to the others: of a `quad` of version 3 that has this name.
fn push_global(alloc: Global, args: &mut Arguments, name: u32) -> Result<(), Fail> {
    let interface = CString::new(Vec::from_slice(alloc, b"quad")?)?;
    args.push(Argument::Uint(name))?;
    args.push(Argument::Str(Some(interface)))?;
    Ok(args.push(Argument::Uint(3))?)
}

/// Appends the event's arguments to the others.
fn push_arguments(alloc: Global, args: &mut Arguments, event: Event) -> Result<(), Fail> {
    match event {
        Event::Bare(_, _) => {}
        Event::Moved(_, value) => args.push(Argument::Int(value))?,
        Event::Made(_, object) => args.push(Argument::NewId(object.id()))?,
        Event::Joined(_, object) => push_joined(alloc, args, object)?,
        Event::Global(_, name) => push_global(alloc, args, name)?,
        Event::GlobalRemove(_, name) => args.push(Argument::Uint(name))?,
    }
    Ok(())
}

/// The event as a message.
pub fn message(alloc: Global, event: Event) -> Result<Message<ObjectId, Token>, Fail> {
    let mut args = SmallVec::new(alloc);
    push_arguments(alloc, &mut args, event)?;
    let (sender, opcode) = event.header();
    Ok(Message {
        sender_id: sender.id(),
        opcode,
        args,
    })
}
