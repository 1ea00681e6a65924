//! The sender of a destructor request is no longer found after the request has ended.

ghost use Rattle.std.specs.Prelude.{◌≡◌, None, OnOk, Option, Some, true};
ghost use Rattle.wl_server_client.specs.Ids.{IdParts};
ghost use Rattle.wl_server_model.specs.Lookups.{object_of};
ghost use Rattle.wl_server_model.specs.Plain.{action_in};
ghost use Rattle.wl_server_client.specs.declared.reading.action.OpenAction.TheVariants as opened;

use wl_link::Transport;
use wl_server::{Backend, FinishRefused, GlobalHandler, ObjectId};

/// Ends the open request of this sender. If that succeeds, and the request was one that ends its sender, the sender's id
/// no longer names an object, whatever else the request made.
pub fn finish_destruction<T: Transport + Drop, U: Drop, G: GlobalHandler<C> + Drop, C: Drop>(
    server: &mut Backend<T, U, G, C>,
    sender: &ObjectId,
    user_data: Option<U>,
) -> Result<(), FinishRefused<Option<U>>>
    ensures { OnOk result ((created : Option IdParts) → action_in server.old sender.now.client ≡ Some (opened.Request sender.now true created)
        → object_of server.new.server sender.now ≡ None) }
{
    let client = sender.client();
    server.finish_request(&client, user_data)
}
