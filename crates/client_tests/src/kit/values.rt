//! Objects, requests and arrivals of the runs, as plain data.

use smallvec::SmallVec;
use std::alloc::Global;
use std::test::Fail;
use test_kit::quad::{GIVE, JOIN, LINK, MAKE, PAIR, QUAD};
use wl_client::ObjectId;
use wl_wire::{
    Argument, ByteArray, CString, INLINE_ARGS, InterfaceId, Message, Token, WL_CALLBACK_INTERFACE,
    WL_DISPLAY_INTERFACE, WL_REGISTRY_INTERFACE,
};

/// The first interface that a run adds to the table of `quad` and `pair`.
const ADDED: InterfaceId = InterfaceId(6);

/// The objects of the runs.
#[derive(Clone, Copy)]
pub enum Object {
    /// No object.
    Null,
    /// The display.
    Display,
    /// The callback that is a client's first object.
    Callback,
    /// The callback that is made at its number after it.
    SecondCallback,
    /// The registry that the first request makes.
    Registry,
    /// The `quad` that is bound by the second request.
    Quad,
    /// The `quad` that the third request makes.
    Second,
    /// The `pair` that is bound by the third request.
    Pair,
    /// The `quad` that is made after that `pair`.
    Third,
    /// The `quad` that the server makes once a `quad` is bound.
    Child,
    /// A `quad` with the number of `Quad` and another serial.
    Stranger,
}

impl Object {
    /// Its id.
    pub fn id(self) -> ObjectId {
        match self {
            Object::Null => ObjectId::null(),
            Object::Display => ObjectId::from_parts(1, 0, WL_DISPLAY_INTERFACE),
            Object::Callback => ObjectId::from_parts(2, 1, WL_CALLBACK_INTERFACE),
            Object::SecondCallback => ObjectId::from_parts(2, 2, WL_CALLBACK_INTERFACE),
            Object::Registry => ObjectId::from_parts(2, 1, WL_REGISTRY_INTERFACE),
            Object::Quad => ObjectId::from_parts(3, 2, QUAD),
            Object::Second => ObjectId::from_parts(4, 3, QUAD),
            Object::Pair => ObjectId::from_parts(4, 3, PAIR),
            Object::Third => ObjectId::from_parts(5, 4, QUAD),
            Object::Child => ObjectId::from_parts(0xFF00_0000, 3, QUAD),
            Object::Stranger => ObjectId::from_parts(3, 9, QUAD),
        }
    }
}

/// The requests of the runs.
#[derive(Clone, Copy)]
pub enum Request {
    /// `wl_display.sync`.
    Sync,
    /// `wl_display.sync` of a number in place of a new id.
    SyncOfNumber,
    /// `wl_display.sync` of an object in place of a null id.
    SyncOf(Object),
    /// `wl_display.get_registry`.
    GetRegistry,
    /// `wl_registry.bind` of the name 1, `quad` and the version 3.
    Bind,
    /// `wl_registry.bind` of the name 2, the first interface that a run adds, `solo`, and the version 1.
    BindAdded,
    /// `quad.make` of the first `quad`.
    Make,
    /// `quad.link` of a sender and two objects.
    Link(Object, Object, Object),
    /// `quad.give` of the first `quad`: no string, so many bytes, and the descriptor 7.
    Give(usize),
    /// `pair.join` of two quads, the string `no`, one byte and the descriptor 9.
    Join(Object, Object),
    /// A request without arguments, by its sender and its opcode.
    Bare(Object, u16),
}

/// The data of a new object, and the wish for its interface and version.
pub type Child = (Option<u32>, Option<(InterfaceId, u32)>);

impl Request {
    /// Its sender.
    fn sender(self) -> Object {
        match self {
            Request::Sync | Request::SyncOfNumber | Request::SyncOf(_) | Request::GetRegistry => {
                Object::Display
            }
            Request::Bind | Request::BindAdded => Object::Registry,
            Request::Make | Request::Give(_) => Object::Quad,
            Request::Link(to, _, _) | Request::Bare(to, _) => to,
            Request::Join(_, _) => Object::Pair,
        }
    }

    /// Its opcode.
    fn opcode(self) -> u16 {
        match self {
            Request::Sync | Request::SyncOfNumber | Request::SyncOf(_) => 0,
            Request::Bind | Request::BindAdded => 0,
            Request::GetRegistry => 1,
            Request::Make => MAKE,
            Request::Link(_, _, _) => LINK,
            Request::Give(_) => GIVE,
            Request::Join(_, _) => JOIN,
            Request::Bare(_, opcode) => opcode,
        }
    }

    /// The data of the object that it makes, and the wish for that object, if the run names no others.
    pub fn child(self) -> Child {
        match self {
            Request::Bind => (Some(6), Some((QUAD, 3))),
            Request::BindAdded => (Some(8), Some((ADDED, 1))),
            Request::Make => (Some(7), None),
            Request::Sync | Request::SyncOfNumber | Request::SyncOf(_) | Request::GetRegistry => {
                (Some(5), None)
            }
            Request::Link(_, _, _) | Request::Give(_) | Request::Join(_, _) | Request::Bare(_, _) =>
                (None, None),
        }
    }
}

/// The arguments of a message.
type Arguments = SmallVec<Argument<ObjectId, Token>, INLINE_ARGS>;

/// Appends a number to the arguments.
fn push_number(args: &mut Arguments, value: u32) -> Result<(), Fail> {
    args.push(Argument::Uint(value))?;
    Ok(())
}

/// Appends the id of a new object to the arguments, which is to be null.
fn push_new(args: &mut Arguments, object: Object) -> Result<(), Fail> {
    args.push(Argument::NewId(object.id()))?;
    Ok(())
}

/// Appends two objects to the arguments.
fn push_objects(args: &mut Arguments, first: Object, second: Object) -> Result<(), Fail> {
    args.push(Argument::Object(first.id()))?;
    args.push(Argument::Object(second.id()))?;
    Ok(())
}

/// The string as it is in an argument.
fn text(alloc: Global, text: &str) -> Result<CString, Fail> {
    Ok(CString::new(Vec::from_slice(alloc, text.as_bytes())?)?)
}

/// Appends a string, or none, to the arguments.
fn push_text(alloc: Global, args: &mut Arguments, string: Option<&str>) -> Result<(), Fail> {
    match string {
        None => args.push(Argument::Str(None))?,
        Some(string) => args.push(Argument::Str(Some(text(alloc, string)?)))?,
    }
    Ok(())
}

/// Appends a string, or none, so many bytes, each of which is 1, and a descriptor to the arguments.
fn push_payload(
    alloc: Global,
    args: &mut Arguments,
    string: Option<&str>,
    len: usize,
    descriptor: i32,
) -> Result<(), Fail> {
    push_text(alloc, args, string)?;
    args.push(Argument::Array(ByteArray::new(Vec::from_elem(alloc, 1, len)?)))?;
    args.push(Argument::Fd(Token(descriptor)))?;
    Ok(())
}

/// Appends the arguments of `wl_registry.bind` to the others: a global by its name, its interface and a version.
fn push_bind(
    alloc: Global,
    args: &mut Arguments,
    name: u32,
    interface: &str,
    version: u32,
) -> Result<(), Fail> {
    push_number(args, name)?;
    push_text(alloc, args, Some(interface))?;
    push_number(args, version)?;
    push_new(args, Object::Null)
}

/// Appends the arguments of `pair.join` to the others.
fn push_join(
    alloc: Global,
    args: &mut Arguments,
    first: Object,
    second: Object,
) -> Result<(), Fail> {
    push_objects(args, first, second)?;
    push_payload(alloc, args, Some("no"), 1, 9)
}

/// Appends the request's arguments to the others.
fn push_arguments(alloc: Global, args: &mut Arguments, request: Request) -> Result<(), Fail> {
    match request {
        Request::Sync | Request::GetRegistry | Request::Make => push_new(args, Object::Null),
        Request::SyncOfNumber => push_number(args, 1),
        Request::SyncOf(object) => push_new(args, object),
        Request::Bind => push_bind(alloc, args, 1, "quad", 3),
        Request::BindAdded => push_bind(alloc, args, 2, "solo", 1),
        Request::Link(_, first, second) => push_objects(args, first, second),
        Request::Give(len) => push_payload(alloc, args, None, len, 7),
        Request::Join(first, second) => push_join(alloc, args, first, second),
        Request::Bare(_, _) => Ok(()),
    }
}

/// The request as a message.
pub fn message(alloc: Global, request: Request) -> Result<Message<ObjectId, Token>, Fail> {
    let mut args = SmallVec::new(alloc);
    push_arguments(alloc, &mut args, request)?;
    let to = request.sender();
    Ok(Message {
        sender_id: to.id(),
        opcode: request.opcode(),
        args,
    })
}
