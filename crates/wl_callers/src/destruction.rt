//! Destroys an object: its id never names an object again, whatever calls follow.

ghost use Rattle.std.specs.Prelude.{OnOk};
ghost use Rattle.wl_server_model.specs.PartStep.{over};
ghost use Rattle.wl_callers.specs.Destruction.{IsGoneForGood};

use wl_link::Transport;
use wl_server::laws::{each_client_is_alone, each_id_that_names_an_object_keeps_it};
use wl_server::{Backend, DestroyError, GlobalHandler, ObjectId};

/// Destroys an object. If that succeeds, its id never names an object again, whatever calls follow and whatever they
/// answer. That holds even if a new object gets the same number.
///
/// The errors are those of `destroy_object`.
pub fn destroy_for_good<T: Transport + Drop, U: Drop, G: GlobalHandler<C> + Drop, C: Drop>(
    server: &mut Backend<T, U, G, C>,
    object: &ObjectId,
) -> Result<(), DestroyError>
    ensures { OnOk result (IsGoneForGood (over T.sends T.receives G.views) server.old.server object.now server.new.server) }
{
    each_client_is_alone::<T, U, G, C>();
    each_id_that_names_an_object_keeps_it::<T, U, G, C>();
    server.destroy_object(object)
}
