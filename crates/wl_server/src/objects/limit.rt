//! How many objects a client may have.

ghost use Rattle.wl_server_model.specs.Backend.{Calls};
ghost use Rattle.wl_server_model.specs.PartStep.{over};
ghost use Rattle.wl_server_model.specs.Plain.Calls.{SetsObjectLimit};
ghost use Rattle.wl_server_model.specs.declared.step.Reply.TheVariants as reply;
ghost use Rattle.wl_server_model.specs.declared.step.Step.TheVariants as step;

use crate::backend::Backend;
use wl_link::Transport;
use wl_server_client::globals::handler::GlobalHandler;

impl<T: Transport + Drop, U: Drop, G: GlobalHandler<C> + Drop, C: Drop> Backend<T, U, G, C> {
    /// Limits how many objects each client may have, or lifts the limit (`None`). A new server has none.
    ///
    /// The limit is the greatest number at which a request may make an object. So a client makes at most so many, its display
    /// included, which has the number 1. A well-formed request to an object that is there, with a new id above the limit, is not
    /// done, whatever else is wrong with it: the client is told so by `wl_display.error`, with the code 2 (`no_memory`), and killed,
    /// as one that breaks the protocol. That holds of `wl_display.sync` and `get_registry`, too.
    ///
    /// A client uses a number again once it has heard that its object is gone (`wl_display.delete_id`). So it needs as many numbers
    /// as it ever has objects at once, and those of whose ends it has not heard. Set the limit well above that.
    ///
    /// The limit is asked for each new object of a client, from now on. Objects that are there stay. Those that the program creates,
    /// also at a number of the client's range, are not limited.
    pub fn set_object_limit(&mut self, limit: Option<u32>)
        ensures call { Calls (over T.sends T.receives G.views) self.old (step.SetObjectLimit limit) reply.SetObjectLimit self.new }
        ensures plain { SetsObjectLimit self.old limit self.new }
    {
        self.refused = false;
        self.object_limit = limit;
    }
}
