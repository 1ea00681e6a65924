//! Limits that the host sets for all clients.

ghost use Rattle.std.specs.Prelude.{[], ◌≡◌};
ghost use Rattle.wl_host.specs.Calls.{world};
ghost use Rattle.wl_flat.specs.Descriptors.{Conserves};
ghost use Rattle.wl_host.specs.Limits.{object_limit_of};
ghost use Rattle.wl_host.specs.Server.{kept_by_server};
ghost use Rattle.wl_flat.specs.declared.status.Status.TheVariants as status;
ghost use Rattle.wl_server_model.specs.Backend.{Calls};
ghost use Rattle.wl_server_model.specs.declared.step.Reply.TheVariants as reply;
ghost use Rattle.wl_server_model.specs.declared.step.Step.TheVariants as step;

use crate::server::Server;
use wl_flat::status::Status;

/// The limit that a call passes; 0 is none.
fn object_limit(limit: u32) -> Option<u32>
    ensures { result ≡ object_limit_of limit }
{
    if limit == 0 { None } else { Some(limit) }
}

impl Server {
    /// Limits how many objects each client may have (`wl_server::Backend::set_object_limit`). At 0, as in a new session, there is no
    /// limit.
    pub fn set_object_limit(&mut self, limit: u32) -> Status
        ensures call { Calls world self.old.core (step.SetObjectLimit (object_limit_of limit)) reply.SetObjectLimit self.new.core }
        ensures beside { self.new ≡ record self.old { core = self.new.core } }
        ensures descriptors { Conserves kept_by_server self.old [] [] self.new }
        ensures status { result ≡ status.Ok }
    {
        self.core.set_object_limit(object_limit(limit));
        Status::Ok
    }
}
