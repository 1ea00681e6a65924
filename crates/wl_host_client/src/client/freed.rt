//! The ids of the objects that left their numbers, as the host is told of them.

ghost use Rattle.std.specs.Prelude.{◌≡◌, ◌==◌, [], not};
ghost use Rattle.wl_host_client.specs.Client.{ConservesClient, HandsFreedId, KeepsFreed};
ghost use Rattle.wl_flat.specs.declared.status.Status.TheVariants as status;

use super::Client;
use wl_flat::flat::FlatObjectId;
use wl_flat::status::Status;

impl Client {
    /// Sets whether the session keeps the ids of the objects that leave their numbers as events are read, for `next_freed`. With 0
    /// it does not, as in a new session, and those that wait are dropped.
    ///
    /// While they are kept, `next_event` asks for memory before it reads that the server deleted an id.
    pub fn keep_freed(&mut self, keeps: u32) -> Status
        ensures call { KeepsFreed self.old.core (not (keeps == 0)) self.new.core }
        ensures beside { self.new ≡ record self.old { core = self.new.core } }
        ensures descriptors { ConservesClient self.old [] [] self.new }
        ensures answer { result ≡ status.Ok }
    {
        self.core.keep_freed(keeps != 0);
        Status::Ok
    }

    /// The next id of an object that left its number as events were read, in the order in which they left. Each comes once, and
    /// names nothing any more. Its number may have a new object by now, so compare the serial. The client had destroyed the object,
    /// or an event had; then the server deleted its id, or made an object of its own at its number. (An object that `reclaim` takes
    /// out is not told of.)
    ///
    /// The status is `WouldBlock` if there is none. Then what was lent is as it was.
    pub fn next_freed(&mut self, id: &mut FlatObjectId) -> Status
        ensures call { HandsFreedId self.old.core.session.freed self.old id.old result self.new id.new }
        ensures descriptors { ConservesClient self.old [] [] self.new }
    {
        let Some(freed) = self.core.next_freed() else {
            return Status::WouldBlock;
        };
        *id = FlatObjectId::of_proxy(freed);
        Status::Ok
    }
}
