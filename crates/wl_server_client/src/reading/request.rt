//! Handles a request, by the kind of its object.

ghost use Rattle.std.specs.Prelude.{◌≡◌, ◌<◌, [], true, false, Some, length, vec_len, vec_capacity};
ghost use Rattle.smallvec.specs.SmallVec.{HasRoomFor};
ghost use Rattle.wl_wire.specs.Argument.{Matches};
ghost use Rattle.wl_wire.specs.MessageRows.{creates as row_creates};
ghost use Rattle.wl_wire.specs.Message.{content};
ghost use Rattle.wl_wire.specs.Table.{holds_zero, message_row};
ghost use Rattle.wl_link.specs.declared.object.Object.{Object as ObjectOf};
ghost use Rattle.wl_link.specs.Store.{held};
ghost use Rattle.wl_server_client.specs.declared.objects.Kept.{Kept as KeptOf};
ghost use Rattle.wl_server_client.specs.Reading.{by_interface, request_to, sent_to};
ghost use Rattle.wl_server_client.specs.Inside.Responses.{HasNames, core_with, response_to};
ghost use Rattle.wl_server_client.specs.Telling.{Core};
ghost use Rattle.wl_server_client.specs.Inside.ReadingLoop.{IsSenderOf, around_of};

use crate::globals::handler::GlobalHandler;
use crate::objects::ClientObjects;
use crate::reading::Surroundings;
use crate::reading::action::Finding;
use crate::reading::display_request::display_request;
use crate::reading::front_request::FrontRequest;
use crate::reading::limit::limit_passed;
use crate::reading::object_request::object_request;
use crate::reading::registry_request::registry_request;
use crate::reading::response::{Breach, Response};
use wl_wire::{Message, Token, WL_DISPLAY_INTERFACE, WL_REGISTRY_INTERFACE};

/// Handles the request that was read into the message, by the kind of its object, and returns what is still to be done for
/// it. If it is handed out, it is in `finding` then, with its arguments, which are taken out of the message and converted. One
/// that makes an object above the limit is refused, before anything else of it is looked at.
pub fn request<'p, 'm, U: Drop, G: GlobalHandler<C> + Drop, C>(
    around: &Surroundings<'_, G>,
    client_data: &C,
    objects: &mut ClientObjects<U>,
    front: &FrontRequest<'p>,
    message: &'m mut Message<u32, Token>,
    finding: &mut Finding,
) -> Response<'p, 'm>
    requires can_make { row_creates (message_row front.now.desc.now) ≡ true → objects.old.map.reserved ≡ true }
    requires can_register { row_creates (message_row front.now.desc.now) ≡ true → vec_len objects.old.registries < vec_capacity objects.old.registries }
    requires kinds { Matches front.now.desc.now.signature.items message.old.args.items }
    requires sender { (x : ObjectOf (KeptOf U)) → held objects.old.map.store message.old.sender_id ≡ Some x → IsSenderOf front.now.sender x }
    requires empty { finding.old.args.items ≡ [] }
    requires room { HasRoomFor finding.old.args (length message.old.args.items) }
    requires name { holds_zero (message_row front.now.desc.now).name ≡ false }
    ensures names { HasNames result }
    ensures responds { (x : ObjectOf (KeptOf U)) (c : Core U C) → held objects.old.map.store message.old.sender_id ≡ Some x
        → request_to (around_of G.views around.now) (core_with c client_data.now objects.old) (content message.old) x (message_row front.now.desc.now)
        ≡ response_to (around_of G.views around.now) (core_with c client_data.now objects.new) (sent_to (content message.old) x) result finding.new.found finding.new.args.items }
{
    if let Some(limit) = limit_passed(around.object_limit, message.args.as_slice()) {
        return Response::Breaks(Breach::TooManyObjects(limit));
    }
    request_within(around, client_data, objects, front, message, finding)
}

/// Does the same for a request that makes no object above the limit.
fn request_within<'p, 'm, U: Drop, G: GlobalHandler<C> + Drop, C>(
    around: &Surroundings<'_, G>,
    client_data: &C,
    objects: &mut ClientObjects<U>,
    front: &FrontRequest<'p>,
    message: &'m mut Message<u32, Token>,
    finding: &mut Finding,
) -> Response<'p, 'm>
    requires can_make { row_creates (message_row front.now.desc.now) ≡ true → objects.old.map.reserved ≡ true }
    requires can_register { row_creates (message_row front.now.desc.now) ≡ true → vec_len objects.old.registries < vec_capacity objects.old.registries }
    requires kinds { Matches front.now.desc.now.signature.items message.old.args.items }
    requires sender { (x : ObjectOf (KeptOf U)) → held objects.old.map.store message.old.sender_id ≡ Some x → IsSenderOf front.now.sender x }
    requires empty { finding.old.args.items ≡ [] }
    requires room { HasRoomFor finding.old.args (length message.old.args.items) }
    requires name { holds_zero (message_row front.now.desc.now).name ≡ false }
    ensures names { HasNames result }
    ensures responds { (x : ObjectOf (KeptOf U)) (c : Core U C) → held objects.old.map.store message.old.sender_id ≡ Some x
        → by_interface (around_of G.views around.now) (core_with c client_data.now objects.old) (content message.old) x (message_row front.now.desc.now)
        ≡ response_to (around_of G.views around.now) (core_with c client_data.now objects.new) (sent_to (content message.old) x) result finding.new.found finding.new.args.items }
{
    let interface = front.sender.interface;
    if interface == WL_DISPLAY_INTERFACE {
        return display_request(around, client_data, objects, message, &mut finding.found);
    }
    if interface == WL_REGISTRY_INTERFACE {
        return registry_request(around, client_data, objects, message, &mut finding.found);
    }
    object_request(around, client_data, objects, front, message, finding)
}
