//! Whether registries are handed out to the program.

ghost use Rattle.wl_server_model.specs.Backend.{Calls};
ghost use Rattle.wl_server_model.specs.PartStep.{over};
ghost use Rattle.wl_server_model.specs.Plain.Globals.{HandsRegistries};
ghost use Rattle.wl_server_model.specs.declared.step.Reply.TheVariants as reply;
ghost use Rattle.wl_server_model.specs.declared.step.Step.TheVariants as step;

use crate::backend::Backend;
use wl_link::Transport;
use wl_server_client::globals::handler::GlobalHandler;

impl<T: Transport + Drop, U: Drop, G: GlobalHandler<C> + Drop, C: Drop> Backend<T, U, G, C> {
    /// Hands out the registries that clients ask for, or no longer. As long as they are handed out, each `get_registry` is an
    /// action (`Action::Registry`), which `finish_bind` ends: the registry has user data from then on, so that its end is noted.
    ///
    /// The server tells a registry that was handed out of no global, neither of those that are there nor of those that come
    /// and go later. The program does, by `send_event`: `wl_registry.global` (opcode 0) and `global_remove` (opcode 1). So it may
    /// choose for each registry anew what it tells. The client binds by such a registry as by any other: the global has to be
    /// there, and its handler to let the client see it (`can_view`). A bind that the program does not grant it refuses where it
    /// is handed out, by `post_error`.
    ///
    /// Registries that the client has already stay as they are: the server goes on to tell those that it made by itself, and no
    /// others.
    ///
    /// No `Handler` is called with a registry: a dispatch of one client leaves it open, and ends with `InvalidInput`. A program
    /// that wants registries calls `next_action` itself.
    pub fn hand_out_registries(&mut self, hand_out: bool)
        ensures call { Calls (over T.sends T.receives G.views) self.old (step.HandOutRegistries hand_out) reply.HandOutRegistries self.new }
        ensures plain { HandsRegistries self.old hand_out self.new }
    {
        self.refused = false;
        self.hands_registries = hand_out;
    }
}
