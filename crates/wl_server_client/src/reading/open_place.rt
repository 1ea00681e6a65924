//! The place of the open action of a client.

ghost use Rattle.std.specs.Prelude.{◌≡◌, None, Some, is_some};
ghost use Rattle.wl_server_client.specs.declared.reading.action.OpenAction.TheVariants as opened;
ghost use Rattle.wl_server_client.specs.Inside.Responses.{opened_of};

use crate::ids::object_id::ObjectId;
use crate::reading::action::{Found, OpenAction};
use std::marker::Model;

/// Whether an action is open, and of which kind it is.
#[derive(Clone, Copy)]
pub enum OpenKind {
    /// None is open.
    Closed,
    /// A request is open.
    Request,
    /// A bind is open, or a registry that was handed out.
    Bind,
}

/// The place of the action of a client that is open, if one is. It is flat: each field is written by itself, and what an
/// action does not have stays as it was. So no action is copied as a whole.
#[derive(Drop)]
pub struct OpenPlace {
    /// The object that a request was sent to, or the new object of a bind, or the new registry.
    object: ObjectId,
    /// The object that a request made, if it made one.
    created: ObjectId,
    /// Whether an action is open, and of which kind it is.
    kind: OpenKind,
    /// Whether the request is a destructor.
    is_destructor: bool,
    /// Whether the request made an object.
    has_created: bool,
}

impl Model for OpenPlace {
    ghost use Rattle.std.specs.Prelude.{Option, None, Some, if◌then◌else◌};
    ghost use Rattle.wl_server_client.specs.declared.reading.action.OpenAction.{OpenAction};
    ghost use Rattle.wl_server_client.specs.Inside.Opening.{opened_by};

    ghost Value = { Option OpenAction };

    ghost view = { λ p. opened_by p.kind p.object p.is_destructor (if p.has_created then Some p.created else None) };
}

impl OpenPlace {
    /// A place in which no action is open.
    pub fn new() -> Self
        ensures { result ≡ None }
    {
        OpenPlace {
            object: ObjectId::null(),
            created: ObjectId::null(),
            kind: OpenKind::Closed,
            is_destructor: false,
            has_created: false,
        }
    }

    /// Whether an action is open.
    pub fn is_open(&self) -> bool
        ensures { result ≡ is_some self.now }
    {
        !matches!(self.kind, OpenKind::Closed)
    }

    /// Opens the action that was found.
    pub fn open_action(&mut self, found: &Found)
        ensures { self.new ≡ Some (opened_of found.now) }
    {
        match found {
            Found::Request(sender, _, is_destructor, created) => {
                self.open_request(*sender, *is_destructor, created);
            }
            Found::Bind(_, object) | Found::Registry(object) => {
                self.object = *object;
                self.kind = OpenKind::Bind;
            }
        }
    }

    /// Opens a request.
    #[inline(always)]
    pub fn open_request(
        &mut self,
        sender: ObjectId,
        is_destructor: bool,
        created: &Option<ObjectId>,
    )
        ensures { self.new ≡ Some (opened.Request sender is_destructor created.now) }
    {
        self.object = sender;
        self.is_destructor = is_destructor;
        self.has_created = created.is_some();
        if let Some(id) = created {
            self.created = *id;
        }
        self.kind = OpenKind::Request;
    }

    /// Ends the action that is open.
    pub fn close(&mut self)
        ensures { self.new ≡ None }
    {
        self.kind = OpenKind::Closed;
    }

    /// The action that is open.
    #[inline(always)]
    pub fn get(&self) -> Option<OpenAction>
        ensures { result ≡ self.now }
    {
        match self.kind {
            OpenKind::Closed => None,
            OpenKind::Request => {
                Some(OpenAction::Request {
                    sender: self.object,
                    is_destructor: self.is_destructor,
                    created: if self.has_created {
                        Some(self.created)
                    } else {
                        None
                    },
                })
            }
            OpenKind::Bind => Some(OpenAction::Bind {
                object: self.object,
            }),
        }
    }
}
