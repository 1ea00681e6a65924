//! Interfaces, with the requests and events that they have.

ghost use Rattle.std.specs.Prelude.{◌≡◌};
ghost use Rattle.wl_wire.specs.MessageRows.{creates};
ghost use Rattle.wl_wire.specs.Table.{message_row};

use crate::argument::ArgumentType;

/// The place of an interface in the table of a `Protocol`, counted from 0.
#[derive(Clone, Copy, Debug, PartialEq, Eq, Hash)]
pub struct InterfaceId(pub usize);

/// The anonymous interface: the one of objects of which no interface is known.
pub const ANONYMOUS_INTERFACE: InterfaceId = InterfaceId(0);

/// The interface `wl_display`.
pub const WL_DISPLAY_INTERFACE: InterfaceId = InterfaceId(1);

/// The interface `wl_registry`.
pub const WL_REGISTRY_INTERFACE: InterfaceId = InterfaceId(2);

/// The interface `wl_callback`.
pub const WL_CALLBACK_INTERFACE: InterfaceId = InterfaceId(3);

/// An interface: its requests and events. The place of each in its list is its opcode.
#[derive(Debug, Drop)]
pub struct Interface {
    /// The name of the interface.
    pub name: String,
    /// The greatest version that is supported.
    pub version: u32,
    /// The requests, which the client sends.
    pub requests: Vec<MessageDesc>,
    /// The events, which the server sends.
    pub events: Vec<MessageDesc>,
}

/// A request or an event of an interface.
#[derive(Debug, Drop)]
pub struct MessageDesc {
    /// The name of the request or event.
    pub name: String,
    /// The signature: the types of the arguments, in order.
    pub signature: Vec<ArgumentType>,
    /// The least version of the interface that has it.
    pub since: u32,
    /// Whether it is a destructor: a request that ends the object that it is sent to, or an event that ends the object that
    /// sends it.
    pub is_destructor: bool,
    /// The interface of the object that a `NewId` argument creates. `None` if the message creates no object. It is `None`
    /// also for `wl_registry.bind`, whose other arguments name the interface.
    pub child_interface: Option<InterfaceId>,
    /// The interface of each `Object` argument, in order.
    pub arg_interfaces: Vec<InterfaceId>,
}

impl MessageDesc {
    /// Whether the message creates an object: whether one of its arguments is a `NewId`.
    pub fn creates_object(&self) -> bool
        ensures { result ≡ creates (message_row self.now) }
    {
        self.signature
            .iter()
            .any(|kind| matches!(kind, ArgumentType::NewId))
    }
}

/// What the protocol knows of an object.
#[derive(Clone, Copy, Debug, PartialEq, Eq)]
pub struct ObjectInfo {
    /// The number of the object.
    pub id: u32,
    /// The interface of the object.
    pub interface: InterfaceId,
    /// The version at which the object was made.
    pub version: u32,
}
