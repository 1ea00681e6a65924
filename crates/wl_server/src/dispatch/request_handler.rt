//! The handler by which a program handles the actions of its clients in a dispatch.

ghost use Rattle.wl_wire.specs.declared.argument.Argument.{Argument};
ghost use Rattle.wl_wire.specs.declared.argument.Token.{Token};
ghost use Rattle.std.specs.Prelude.{ℕ, List, Option};
ghost use Rattle.wl_server_model.specs.Backend.{BackendState};
ghost use Rattle.wl_server_client.specs.Ids.{ClientParts, GlobalParts, IdParts};
ghost use Rattle.wl_server_model.specs.PartStep.{over};
ghost use Rattle.wl_server_model.specs.Reached.{Reached};

use crate::backend::Backend;
use smallvec::SmallVec;
use std::mem;
use wl_link::Transport;
use wl_server_client::globals::handler::GlobalHandler;
use wl_server_client::ids::client_id::ClientId;
use wl_server_client::ids::global_id::GlobalId;
use wl_server_client::ids::object_id::ObjectId;
use wl_wire::{Args, Argument, Token};

/// A program's handler of the actions of its clients, which `Backend::dispatch_single_client` and
/// `Backend::dispatch_all_clients` call.
///
/// An *action* is a request, or a bind of a new object to a global (`Action`). No handler is called with a registry that is handed
/// out (`Backend::hand_out_registries`): the dispatch ends with `InvalidInput`, and it stays open.
///
/// A call may make any calls of the server, except those that read this client or finish its action: the dispatch does
/// that itself. Each implementation says in `requests` and `binds` what its calls return and do. It has to prove that its
/// calls change the server only by calls of the server. For that it joins the contracts of these calls.
pub trait Handler<T: Transport, U, G: GlobalHandler<C>, C> {
    ghost requests: { Self → BackendState T U G C → ClientParts → IdParts → ℕ → List (Argument IdParts Token) → Option IdParts → Option U → Self → BackendState T U G C → Type 0 };

    ghost binds: { Self → BackendState T U G C → ClientParts → GlobalParts → IdParts → U → Self → BackendState T U G C → Type 0 };

    /// Handles a request. Returns the user data of the object that the request made, if it made one.
    ///
    /// `sender` is the object that the request was sent to. `opcode` is the index of the request among those of the
    /// sender's interface. `args` are its arguments, in order. `created` is the object that the request made, if it made
    /// one. If an answer does not fit, the dispatch ends with `InvalidInput`.
    fn request(
        &mut self,
        backend: &mut Backend<T, U, G, C>,
        client: &ClientId,
        sender: ObjectId,
        opcode: u16,
        args: Args<ObjectId>,
        created: Option<ObjectId>,
    ) -> Option<U>
        ensures answers { requests self.old backend.old client.now sender opcode args.items created result self.new backend.new }
        ensures reached { Reached (over T.sends T.receives G.views) client.now backend.old.server backend.new.server };

    /// Handles a request as `request` does, but is lent the arguments: they are not moved. This is the call that a dispatch
    /// makes. Unless a program writes its own, it takes the arguments out and calls `request`.
    ///
    /// What is left in `args` is dropped.
    fn request_lent(
        &mut self,
        backend: &mut Backend<T, U, G, C>,
        client: &ClientId,
        sender: ObjectId,
        opcode: u16,
        args: &mut Args<ObjectId>,
        created: Option<ObjectId>,
    ) -> Option<U>
        ensures answers { requests self.old backend.old client.now sender opcode args.old.items created result self.new backend.new }
        ensures reached { Reached (over T.sends T.receives G.views) client.now backend.old.server backend.new.server }
    {
        let none = SmallVec::new(*args.allocator());
        let args = mem::replace(args, none);
        self.request(backend, client, sender, opcode, args, created)
    }

    /// Handles a bind: the client bound the new object `object` to the global. Returns the object's user data.
    fn bind(
        &mut self,
        backend: &mut Backend<T, U, G, C>,
        client: &ClientId,
        global: GlobalId,
        object: ObjectId,
    ) -> U
        ensures answers { binds self.old backend.old client.now global object result self.new backend.new }
        ensures reached { Reached (over T.sends T.receives G.views) client.now backend.old.server backend.new.server };
}
