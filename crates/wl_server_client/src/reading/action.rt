//! What a reading hands out, how much it may read, and what became of a message.

ghost use Rattle.std.specs.Prelude.{◌≡◌, ◌≤◌, []};
ghost use Rattle.wl_server_client.specs.Deeds.{arguments_in, handed};
ghost use Rattle.wl_server_client.specs.Inside.ReadingLoop.{found_with};
ghost use Rattle.wl_server_client.specs.Reading.{new_reading};

use crate::ids::global_id::GlobalId;
use crate::ids::object_id::ObjectId;
use smallvec::SmallVec;
use std::alloc::Global;
use wl_wire::{Args, INLINE_ARGS, IoFault};

/// How many receives a reading makes at most, if the program sets no other number.
pub const READ_TURNS: u32 = 64;

/// What a client asks of the program. `finish_request` ends a request, and `finish_bind` a bind or a registry.
#[derive(Debug, Drop)]
pub enum Action {
    /// A request.
    Request {
        /// The object that it was sent to.
        sender: ObjectId,
        /// The index of the request among those of the object's interface.
        opcode: u16,
        /// The arguments, in order.
        args: Args<ObjectId>,
        /// Whether it is a destructor, which ends the object.
        is_destructor: bool,
        /// The object that it made, if it made one.
        created: Option<ObjectId>,
    },
    /// A new object was bound to a global.
    Bind {
        /// The global.
        global: GlobalId,
        /// The new object.
        object: ObjectId,
    },
    /// The client asked for a registry, and registries are handed out (`Backend::hand_out_registries`). The server tells it of
    /// no global. `finish_bind` ends it.
    Registry {
        /// The new registry.
        object: ObjectId,
    },
}

/// An action that is open: it was handed out and is not finished yet. This is what is needed to finish it.
#[derive(Clone, Copy)]
pub enum OpenAction {
    /// A request.
    Request {
        /// The object that it was sent to.
        sender: ObjectId,
        /// Whether it is a destructor, which ends the object.
        is_destructor: bool,
        /// The object that it made, if it made one.
        created: Option<ObjectId>,
    },
    /// A bind, or a registry that was handed out.
    Bind {
        /// The new object.
        object: ObjectId,
    },
}

/// How much a reading may still receive from one client, and how many requests it read.
#[derive(Clone, Copy, Debug)]
pub struct Reading {
    /// How many more times the transport may be asked to receive.
    pub turns_left: u32,
    /// How many requests were read. It saturates at `usize::MAX`.
    pub read: usize,
}

/// Why a reading ended without an action.
#[derive(Drop)]
pub struct NoAction {
    /// The fault that the reading returns.
    pub fault: IoFault,
    /// Whether memory ran out.
    pub refused: bool,
}

/// An action that is handed out, without the arguments of a request.
#[derive(Clone, Copy)]
pub enum Found {
    /// A request: the object that it was sent to, its opcode, whether it is a destructor, and the object that it made.
    Request(ObjectId, u16, bool, Option<ObjectId>),
    /// A new object was bound to a global.
    Bind(GlobalId, ObjectId),
    /// A new registry is handed out.
    Registry(ObjectId),
}

/// An action that is being found. Its two parts are filled apart, and put together at the end.
#[derive(Drop)]
pub struct Finding {
    /// The action, once it is found.
    pub found: Found,
    /// The arguments of the action, if it is a request.
    pub args: Args<ObjectId>,
}

impl Finding {
    /// The place of an action before it is found: a request of no object, without arguments.
    pub fn new(alloc: Global) -> Self
        ensures empty { result.args.items ≡ [] }
        ensures inline { INLINE_ARGS ≤ result.args.capacity }
    {
        Finding {
            found: Found::Request(ObjectId::null(), 0, false, None),
            args: SmallVec::new(alloc),
        }
    }

    /// The action that was found.
    pub fn into_action(self) -> Action
        ensures { handed result ≡ found_with self.found self.args.items }
    {
        let Finding { found, args } = self;
        match found {
            Found::Request(sender, opcode, is_destructor, created) => {
                Action::Request {
                    sender,
                    opcode,
                    args,
                    is_destructor,
                    created,
                }
            }
            Found::Bind(global, object) => Action::Bind { global, object },
            Found::Registry(object) => Action::Registry { object },
        }
    }
}

impl Action {
    /// The place of an action before one is found: a request of no object, without arguments.
    pub fn none(alloc: Global) -> Self {
        Action::Request {
            sender: ObjectId::null(),
            opcode: 0,
            args: SmallVec::new(alloc),
            is_destructor: false,
            created: None,
        }
    }

    /// Drops the arguments of a request. An action of another kind stays.
    pub fn drop_arguments(&mut self)
        ensures { arguments_in self.new ≡ [] }
    {
        if let Action::Request { args, .. } = self {
            args.clear();
        }
    }
}

/// What the handling of a message came to.
#[derive(Drop)]
pub enum MessageEnd {
    /// An action was found. It is to be handed out.
    HandsOut,
    /// A message was handled, and the reading goes on.
    Continues,
    /// No whole message waits.
    Lacks,
    /// The reading ends without an action.
    Ends(NoAction),
}

impl Reading {
    /// A reading that may receive 64 times (`READ_TURNS`) and has read nothing.
    pub fn new() -> Self
        ensures { result ≡ new_reading }
    {
        Reading {
            turns_left: READ_TURNS,
            read: 0,
        }
    }
}
