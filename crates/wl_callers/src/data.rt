//! Sets the data of an object, and finds it again.

ghost use Rattle.std.specs.Prelude.{◌≡◌, IfOk, None, OnErr};
ghost use Rattle.wl_server_model.specs.Lookups.{object_of};

use wl_link::Transport;
use wl_server::{Backend, GlobalHandler, InvalidId, ObjectId};

/// Sets the data of an object to this count, and returns what is read back. The error is `InvalidId` if the id names no
/// object.
pub fn set_count<T: Transport + Drop, G: GlobalHandler<C> + Drop, C: Drop>(
    server: &mut Backend<T, u32, G, C>,
    counter: &ObjectId,
    count: u32,
) -> Result<u32, InvalidId>
    ensures found { IfOk result (λ read. read ≡ count) }
    ensures unknown { OnErr result (object_of server.old.server counter.now ≡ None) }
{
    server.set_object_data(counter, count)?;
    Ok(*server.get_object_data(counter)?)
}
