//! Flat structs: what goes into a call of a host and comes out of one.
//!
//! They are plain numbers in the layout of C (`repr(C)`), so that a program in another language can make, read and copy
//! them. Ids are values: one that is stale or made up names nothing, and the calls say so.

ghost use Rattle.std.specs.Prelude.{◌≡◌, ◌<◌, ◌^◌};
ghost use Rattle.wl_flat.specs.Flat.{client_of, count_number, flat_bytes, flat_client, flat_global, flat_number, flat_object, flat_proxy, flat_resource, global_of, interface_number, no_action, no_client, no_global, no_object, none_told, proxy_of, resource_of};

use wl_client::ObjectId as ProxyId;
use wl_server_client::ids::client_id::ClientId;
use wl_server_client::ids::global_id::GlobalId;
use wl_server_client::ids::object_id::ObjectId;
use wl_wire::InterfaceId;

/// The kind of a [`FlatArgument`].
pub mod kind {
    /// A signed integer.
    pub const INT: u32 = 0;
    /// An unsigned integer. Its 32 bits are in `value`.
    pub const UINT: u32 = 1;
    /// A signed fixed-point number, kept as its value times 256.
    pub const FIXED: u32 = 2;
    /// A string.
    pub const STRING: u32 = 3;
    /// An object, which may be null.
    pub const OBJECT: u32 = 4;
    /// The object that the message makes.
    pub const NEW_ID: u32 = 5;
    /// An array of bytes.
    pub const ARRAY: u32 = 6;
    /// A file descriptor.
    pub const DESCRIPTOR: u32 = 7;
    /// A string that is null.
    pub const NULL_STRING: u32 = 8;
}

/// The kind of a [`FlatAction`] that is a request.
pub const REQUEST: u32 = 1;

/// The kind of a [`FlatAction`] that is a bind.
pub const BIND: u32 = 2;

/// The kind of a [`FlatAction`] that is a new registry, which the host tells of globals.
pub const REGISTRY: u32 = 3;

/// The kind of a [`FlatNote`]: the client was inserted.
pub const INSERTED: u32 = 1;

/// The kind of a [`FlatNote`]: the client was killed.
pub const KILLED: u32 = 2;

/// The kind of a [`FlatNote`]: an object that had data is gone.
pub const DESTROYED: u32 = 3;

/// The kind of a [`FlatRun`]: nothing is to be known.
pub const PLAIN_RUN: u32 = 0;

/// The kind of a [`FlatRun`]: the message deletes an id.
pub const DELETES_ID: u32 = 1;

/// The kind of a [`FlatRun`]: the message's sender is no object, or one that the client has destroyed. No event comes of it.
pub const PASSED_OVER: u32 = 2;

/// The kind of a [`FlatRun`]: the message behind it lacks descriptors.
pub const LACKS_DESCRIPTORS: u32 = 3;

/// The kind of a [`FlatTold`]: a message that was read.
pub const MESSAGE: u32 = 1;

/// The kind of a [`FlatTold`]: a message that was not read, of an object that is not known or of an opcode that the table lacks.
pub const UNKNOWN_MESSAGE: u32 = 2;

/// The kind of a [`FlatTold`]: what was sent is no message.
pub const NO_MESSAGE: u32 = 3;

/// The kind of a [`FlatError`]: a fault of the connection.
pub const IO: u32 = 1;

/// The kind of a [`FlatError`]: a protocol error.
pub const PROTOCOL: u32 = 2;

/// The id of a server's client (`wl_server::ClientId`).
#[repr(C)]
#[derive(Clone, Copy, Debug, PartialEq, Eq, PartialOrd, Ord, Drop)]
pub struct FlatClientId {
    /// The serial, counted from 1.
    pub serial: u64,
    /// The slot.
    pub slot: u32,
}

/// The id of an object: of a server's session (`wl_server::ObjectId`) or of a client's (`wl_client::ObjectId`).
#[repr(C)]
#[derive(Clone, Copy, Debug, PartialEq, Eq, Drop)]
pub struct FlatObjectId {
    /// The serial.
    pub serial: u64,
    /// The client that the object belongs to. In a client's session it is all zeros.
    pub client: FlatClientId,
    /// The place of the interface in the table.
    pub interface: u32,
    /// The number in the protocol. The id is null if it is 0.
    pub number: u32,
}

/// The id of a global (`wl_server::GlobalId`).
#[repr(C)]
#[derive(Clone, Copy, Debug, PartialEq, Eq, PartialOrd, Ord, Drop)]
pub struct FlatGlobalId {
    /// The serial, counted from 1.
    pub serial: u64,
    /// The name, a number by which clients bind the global.
    pub name: u32,
}

/// An argument of a message.
#[repr(C)]
#[derive(Clone, Copy, Debug, PartialEq, Eq, Drop)]
pub struct FlatArgument {
    /// The kind, one of those of the module [`kind`]. It says which of the other fields have a meaning.
    pub kind: u32,
    /// A number, or a descriptor.
    pub value: i32,
    /// Where a string or an array begins in the bytes that are lent beside the arguments. Where it is handed out, that is a
    /// multiple of eight.
    pub at: u32,
    /// How many bytes it has. Where it is handed out, zeros follow, and behind a string one at least.
    pub length: u32,
    /// An object.
    pub object: FlatObjectId,
    /// In what a session hands out, the program's data of the object; 0 if it has none. It is not read in what goes in.
    pub data: u64,
}

/// An action of a client: a request ([`REQUEST`]), a bind ([`BIND`]) of a new object to a global, or a new registry
/// ([`REGISTRY`]), if registries are handed out.
#[repr(C)]
#[derive(Clone, Copy, Debug, PartialEq, Eq, Drop)]
pub struct FlatAction {
    /// Which of the three it is.
    pub kind: u32,
    /// The opcode of a request.
    pub opcode: u32,
    /// How many arguments a request has.
    pub arguments: u32,
    /// 1 if the request is a destructor, which ends its sender; else 0.
    pub is_destructor: u32,
    /// The object that the request was sent to; null in a bind, and of a registry.
    pub sender: FlatObjectId,
    /// The program's data of the sender, or of the global; 0 if the sender has none, and of a registry.
    pub data: u64,
    /// The object that the request made, or that was bound, or the registry; null if the request made none.
    pub created: FlatObjectId,
    /// The version of that object; 0 if there is none.
    pub version: u32,
    /// How many bytes the strings and arrays take together, with the zeros behind each.
    pub bytes: u32,
    /// The global of a bind.
    pub global: FlatGlobalId,
    /// The place of the first argument of a request that is null where the table allows no null, counted from 1; 0 if there is
    /// none.
    pub forbidden_null: u32,
}

/// An event that a client received.
#[repr(C)]
#[derive(Clone, Copy, Debug, PartialEq, Eq, Drop)]
pub struct FlatEvent {
    /// The opcode.
    pub opcode: u32,
    /// How many arguments it has.
    pub arguments: u32,
    /// 1 if the event is a destructor, which ends its sender; else 0.
    pub is_destructor: u32,
    /// How many bytes the strings and arrays take together, with the zeros behind each.
    pub bytes: u32,
    /// The object that sends it.
    pub sender: FlatObjectId,
    /// The program's data of the sender; 0 if it has none.
    pub data: u64,
    /// The object that the event made; null if it made none.
    pub created: FlatObjectId,
    /// The version of that object; 0 if there is none.
    pub version: u32,
    /// 1 if the sender has data; else 0.
    pub has_data: u32,
    /// The place of the first argument that is null where the table allows no null, counted from 1; 0 if there is none.
    pub forbidden_null: u32,
}

/// A request that a client sends, without its arguments.
#[repr(C)]
#[derive(Clone, Copy, Debug, PartialEq, Eq, Drop)]
pub struct FlatRequest {
    /// The object that it is sent to.
    pub sender: FlatObjectId,
    /// The opcode.
    pub opcode: u32,
    /// Not 0 if the object that the request makes gets data.
    pub has_data: u32,
    /// The data.
    pub data: u64,
    /// Not 0 if the caller says which interface and version the object that the request makes has.
    pub has_child: u32,
    /// The interface.
    pub child_interface: u32,
    /// The version.
    pub child_version: u32,
    /// Not read. It fills the struct up.
    pub unused: u32,
}

/// What the protocol knows of an object.
#[repr(C)]
#[derive(Clone, Copy, Debug, PartialEq, Eq, Drop)]
pub struct FlatObjectInfo {
    /// The number of the object.
    pub number: u32,
    /// The place of its interface in the table.
    pub interface: u32,
    /// Its version.
    pub version: u32,
}

/// An object of a server's session, with the program's data of it.
#[repr(C)]
#[derive(Clone, Copy, Debug, PartialEq, Eq, Drop)]
pub struct FlatHeldObject {
    /// The object.
    pub object: FlatObjectId,
    /// The data; 0 if it has none.
    pub data: u64,
}

/// What a global offers.
#[repr(C)]
#[derive(Clone, Copy, Debug, PartialEq, Eq, Drop)]
pub struct FlatGlobalInfo {
    /// The place in the table of the interface of objects that are bound to it.
    pub interface: u32,
    /// The greatest version that can be bound.
    pub version: u32,
    /// 1 if it was disabled, and is no longer announced; else 0.
    pub is_disabled: u32,
    /// Always 0. It fills the struct up.
    pub unused: u32,
}

/// How many bytes and descriptors there are to be sent.
#[repr(C)]
#[derive(Clone, Copy, Debug, PartialEq, Eq, Drop)]
pub struct Counts {
    /// The bytes.
    pub bytes: u32,
    /// The descriptors, which go with the first byte.
    pub descriptors: u32,
}

/// How many bytes and descriptors wait in a session: those that the host received, and that were not read yet; and those that are
/// to be sent.
#[repr(C)]
#[derive(Clone, Copy, Debug, PartialEq, Eq, Drop)]
pub struct Waiting {
    /// What was received, and was not read yet.
    pub received: Counts,
    /// What is to be sent.
    pub to_send: Counts,
}

/// What happened to a client or to one of its objects: [`INSERTED`], [`KILLED`] or [`DESTROYED`].
#[repr(C)]
#[derive(Clone, Copy, Debug, PartialEq, Eq, Drop)]
pub struct FlatNote {
    /// What happened.
    pub kind: u32,
    /// 1 if a client was killed for a protocol error; 0 if its connection is closed.
    pub is_protocol_error: u32,
    /// The code of the protocol error.
    pub code: u32,
    /// The number of the object that the protocol error is about.
    pub object_number: u32,
    /// The client.
    pub client: FlatClientId,
    /// The object that is gone.
    pub object: FlatObjectId,
    /// The program's data of that object.
    pub data: u64,
    /// How many bytes of the text are the message of the protocol error.
    pub message_length: u32,
    /// How many bytes of the text, behind the message, are the name of the interface of the object that it is about.
    pub interface_length: u32,
}

/// A message that went over a connection, as it is told: [`MESSAGE`], [`UNKNOWN_MESSAGE`] or [`NO_MESSAGE`].
#[repr(C)]
#[derive(Clone, Copy, Debug, PartialEq, Eq, Drop)]
pub struct FlatTold {
    /// Which of them it is.
    pub kind: u32,
    /// 1 if the server sent it, an event; 0 if the client did, a request.
    pub is_event: u32,
    /// The number of the object that it was sent to, or that sent it.
    pub number: u32,
    /// The place of its interface in the table; 0 if it is not known.
    pub interface: u32,
    /// The opcode.
    pub opcode: u32,
    /// How many arguments it has, if it was read.
    pub arguments: u32,
    /// How many bytes the strings and arrays take together, with the zeros behind each.
    pub bytes: u32,
    /// 1 if nothing is told of this side any more: what it sent cannot be followed further; else 0.
    pub is_last: u32,
}

/// Messages that arrived and that a client's session is to have together, and what is to be known of the last one, or of the one behind
/// them: [`PLAIN_RUN`], [`DELETES_ID`], [`PASSED_OVER`] or [`LACKS_DESCRIPTORS`].
#[repr(C)]
#[derive(Clone, Copy, Debug, PartialEq, Eq, Drop)]
pub struct FlatRun {
    /// How many of the bytes are the run's.
    pub bytes: u32,
    /// How many of the descriptors are the run's.
    pub descriptors: u32,
    /// How many bytes behind the run are a message that the session is not to have.
    pub skipped: u32,
    /// Which of them it is. If it is a plain run, what follows is 0.
    pub kind: u32,
    /// The number of the object that sent the message.
    pub sender: u32,
    /// The place of that object's interface in the table; 0 if there is no such object.
    pub interface: u32,
    /// The opcode of the message.
    pub opcode: u32,
    /// How many bytes the message has.
    pub size: u32,
    /// How many descriptors the message brings.
    pub needed: u32,
    /// 1 if the client destroyed the sender, and some event of its interface brings descriptors; else 0.
    pub may_bring: u32,
    /// The id that it deletes; 0 if it deletes none.
    pub number: u32,
}

/// A client that the session let go, with what is still to be sent to it.
#[repr(C)]
#[derive(Clone, Copy, Debug, PartialEq, Eq, Drop)]
pub struct Gone {
    /// The client, whose id names nothing any more.
    pub client: FlatClientId,
    /// The program's data of the client.
    pub data: u64,
    /// What is to be sent to it before its socket is closed.
    pub waiting: Counts,
}

/// The error of a client's session: none (0), [`IO`] or [`PROTOCOL`].
#[repr(C)]
#[derive(Clone, Copy, Debug, PartialEq, Eq, Drop)]
pub struct FlatError {
    /// Which of them it is.
    pub kind: u32,
    /// The status of a fault of the connection, as a number.
    pub status: u32,
    /// The system's number of a fault of the connection.
    pub number: i32,
    /// The code of a protocol error.
    pub code: u32,
    /// The number of the object that it is about.
    pub object_number: u32,
    /// How many bytes of the text are the message.
    pub message_length: u32,
    /// How many bytes of the text, behind the message, are the name of the interface of the object that it is about.
    pub interface_length: u32,
}

/// The number of an interface. Each interface of a table has one below 2³² - 1, since each takes more than one byte of
/// memory.
pub fn interface_number(id: InterfaceId) -> u32
    ensures { result ≡ interface_number id.0 }
{
    u32::try_from(id.0).unwrap_or(u32::MAX)
}

/// A count as a number of 32 bits; the greatest one if it does not fit.
pub fn count_number(count: usize) -> u32
    ensures { result ≡ count_number count }
{
    u32::try_from(count).unwrap_or(u32::MAX)
}

impl FlatClientId {
    /// The id as a flat struct.
    pub fn new(id: ClientId) -> Self
        ensures flat { result ≡ flat_client id }
        ensures back { client_of result ≡ id }
    {
        FlatClientId {
            serial: id.serial(),
            slot: id.slot(),
        }
    }

    /// All zeros, which names no client.
    pub fn none() -> Self
        ensures { result ≡ no_client }
    {
        FlatClientId { serial: 0, slot: 0 }
    }

    /// The id for the core.
    pub fn id(&self) -> ClientId
        ensures id { result ≡ client_of self.now }
        ensures back { flat_client result ≡ self.now }
    {
        ClientId::from_parts(self.slot, self.serial)
    }
}

impl FlatGlobalId {
    /// The id as a flat struct.
    pub fn new(id: GlobalId) -> Self
        ensures flat { result ≡ flat_global id }
        ensures back { global_of result ≡ id }
    {
        FlatGlobalId {
            serial: id.serial(),
            name: id.name(),
        }
    }

    /// All zeros, which names no global.
    pub fn none() -> Self
        ensures { result ≡ no_global }
    {
        FlatGlobalId { serial: 0, name: 0 }
    }

    /// The id for the core.
    pub fn id(&self) -> GlobalId
        ensures id { result ≡ global_of self.now }
        ensures back { flat_global result ≡ self.now }
    {
        GlobalId::from_parts(self.name, self.serial)
    }
}

impl FlatObjectId {
    /// The null id: all zeros.
    pub fn null() -> Self
        ensures { result ≡ no_object }
    {
        FlatObjectId {
            serial: 0,
            client: FlatClientId::none(),
            interface: 0,
            number: 0,
        }
    }

    /// The id of an object of a server's session, as a flat struct.
    pub fn of_resource(id: ObjectId) -> Self
        ensures flat { result ≡ flat_resource id }
        ensures back { id.interface.0 < 2 ^ 32 → resource_of result ≡ id }
    {
        FlatObjectId {
            serial: id.serial(),
            client: FlatClientId::new(id.client()),
            interface: interface_number(id.interface()),
            number: id.protocol_id(),
        }
    }

    /// The id for the core of a server's session.
    pub fn resource(&self) -> ObjectId
        ensures id { result ≡ resource_of self.now }
        ensures back { flat_resource result ≡ self.now }
    {
        ObjectId::from_parts(
            self.number,
            self.serial,
            self.client.id(),
            InterfaceId(self.interface as usize),
        )
    }

    /// The id of an object of a client's session, as a flat struct.
    pub fn of_proxy(id: ProxyId) -> Self
        ensures flat { result ≡ flat_proxy id }
        ensures back { id.interface.0 < 2 ^ 32 → proxy_of result ≡ id }
    {
        FlatObjectId {
            serial: id.serial(),
            client: FlatClientId::none(),
            interface: interface_number(id.interface()),
            number: id.protocol_id(),
        }
    }

    /// The id for the core of a client's session. The client in it is not read.
    pub fn proxy(&self) -> ProxyId
        ensures id { result ≡ proxy_of self.now }
        ensures back { self.now.client ≡ no_client → flat_proxy result ≡ self.now }
    {
        ProxyId::from_parts(
            self.number,
            self.serial,
            InterfaceId(self.interface as usize),
        )
    }
}

impl FlatArgument {
    /// A number, or a descriptor.
    pub fn of_number(kind: u32, value: i32) -> Self
        ensures { result ≡ flat_number kind value }
    {
        FlatArgument {
            kind,
            value,
            at: 0,
            length: 0,
            object: FlatObjectId::null(),
            data: 0,
        }
    }

    /// A string or an array.
    pub fn of_bytes(kind: u32, at: u32, length: u32) -> Self
        ensures { result ≡ flat_bytes kind at length }
    {
        FlatArgument {
            kind,
            value: 0,
            at,
            length,
            object: FlatObjectId::null(),
            data: 0,
        }
    }

    /// An object, with the program's data of it.
    pub fn of_object(kind: u32, object: FlatObjectId, data: u64) -> Self
        ensures { result ≡ flat_object kind object «data» }
    {
        FlatArgument {
            kind,
            value: 0,
            at: 0,
            length: 0,
            object,
            data,
        }
    }
}

impl FlatAction {
    /// All zeros.
    pub fn none() -> Self
        ensures { result ≡ no_action }
    {
        FlatAction {
            kind: 0,
            opcode: 0,
            arguments: 0,
            is_destructor: 0,
            sender: FlatObjectId::null(),
            data: 0,
            created: FlatObjectId::null(),
            version: 0,
            bytes: 0,
            global: FlatGlobalId::none(),
            forbidden_null: 0,
        }
    }
}

impl FlatTold {
    /// All zeros.
    pub fn none() -> Self
        ensures { result ≡ none_told }
    {
        FlatTold {
            kind: 0,
            is_event: 0,
            number: 0,
            interface: 0,
            opcode: 0,
            arguments: 0,
            bytes: 0,
            is_last: 0,
        }
    }
}

impl Counts {
    /// The two counts.
    pub fn new(bytes: usize, descriptors: usize) -> Self
        ensures { result ≡ record { bytes = count_number bytes; descriptors = count_number descriptors } }
    {
        Counts {
            bytes: count_number(bytes),
            descriptors: count_number(descriptors),
        }
    }
}
