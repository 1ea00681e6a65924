//! Whether names of globals are given again.

ghost use Rattle.wl_server_model.specs.Backend.{Calls};
ghost use Rattle.wl_server_model.specs.PartStep.{over};
ghost use Rattle.wl_server_model.specs.Plain.Globals.{KeepsNames};
ghost use Rattle.wl_server_model.specs.declared.step.Reply.TheVariants as reply;
ghost use Rattle.wl_server_model.specs.declared.step.Step.TheVariants as step;

use crate::backend::Backend;
use wl_link::Transport;
use wl_server_client::globals::handler::GlobalHandler;

impl<T: Transport + Drop, U: Drop, G: GlobalHandler<C> + Drop, C: Drop> Backend<T, U, G, C> {
    /// Sets whether the names of globals are kept. As long as they are, each new global gets the least name that was never in use. So
    /// a client whose bind of a removed global is on its way never binds another global in its place. Once they are no longer
    /// kept, new globals get the least name that no other has, as in a new server: names of removed globals again.
    ///
    /// libwayland keeps them always. Each name that was in use takes some memory as long as the server is there.
    pub fn keep_global_names(&mut self, keep: bool)
        ensures call { Calls (over T.sends T.receives G.views) self.old (step.KeepGlobalNames keep) reply.KeepGlobalNames self.new }
        ensures plain { KeepsNames self.old keep self.new }
    {
        self.refused = false;
        self.keeps_names = keep;
    }
}
