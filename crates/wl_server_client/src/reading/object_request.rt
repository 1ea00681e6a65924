//! The requests to objects that are neither displays nor registries.

ghost use Rattle.std.specs.Prelude.{◌≡◌, [], true, false, Some, MatchResult, length};
ghost use Rattle.smallvec.specs.SmallVec.{HasRoomFor};
ghost use Rattle.wl_wire.specs.Argument.{Matches};
ghost use Rattle.wl_wire.specs.MessageRows.{creates as row_creates};
ghost use Rattle.wl_wire.specs.Message.{content};
ghost use Rattle.wl_wire.specs.Table.{holds_zero, message_row};
ghost use Rattle.wl_link.specs.declared.object.Object.{Object as ObjectOf};
ghost use Rattle.wl_link.specs.Store.{held};
ghost use Rattle.wl_server_client.specs.declared.objects.Kept.{Kept as KeptOf};
ghost use Rattle.wl_server_client.specs.Inside.Conversion.{EndsWhole, objects_of};
ghost use Rattle.wl_server_client.specs.Reading.{other_request as request_verdict, sent_to};
ghost use Rattle.wl_server_client.specs.Requests.{Wrong, convert as outcome_of, start};
ghost use Rattle.wl_server_client.specs.Inside.Responses.{HasNames, core_with, response_to};
ghost use Rattle.wl_server_client.specs.Telling.{Core};
ghost use Rattle.wl_server_client.specs.Inside.ReadingLoop.{IsSenderOf, around_of};

use crate::globals::handler::GlobalHandler;
use crate::ids::client_id::ClientId;
use crate::ids::object_id::ObjectId;
use crate::objects::ClientObjects;
use crate::reading::Surroundings;
use crate::reading::action::{Finding, Found};
use crate::reading::arguments::{Progress, convert};
use crate::reading::front_request::{FrontRequest, Sender};
use crate::reading::response::{Breach, RequestFault, Response};
use wl_wire::{Args, Message, Token};

/// Converts the arguments of the request that was read into the message, and returns the object that the request makes. The
/// arguments are put into `args`, which has room for them, and their texts and arrays are taken out of the message.
fn convert_request<U: Drop>(
    client: ClientId,
    front: &FrontRequest<'_>,
    objects: &mut ClientObjects<U>,
    message: &mut Message<u32, Token>,
    args: &mut Args<ObjectId>,
) -> Result<Option<ObjectId>, RequestFault>
    requires can_make { row_creates (message_row front.now.desc.now) ≡ true → objects.old.map.reserved ≡ true }
    requires kinds { Matches front.now.desc.now.signature.items message.old.args.items }
    requires empty { args.old.items ≡ [] }
    requires room { HasRoomFor args.old (length message.old.args.items) }
    ensures registries { objects.new.registries ≡ objects.old.registries }
    ensures header { (message.new.sender_id ≡ message.old.sender_id) × (message.new.opcode ≡ message.old.opcode) }
    ensures converts { MatchResult result
        (λ created. EndsWhole (outcome_of client front.now.sender.version (start (objects_of objects.old) (message_row front.now.desc.now)) [] message.old.args.items)
        (objects_of objects.new) created args.new.items)
        (λ wrong. outcome_of client front.now.sender.version (start (objects_of objects.old) (message_row front.now.desc.now)) [] message.old.args.items
        ≡ Wrong (length args.new.items) wrong (objects_of objects.new)) }
{
    let desc = front.desc;
    let mut progress = Progress {
        kinds: desc.signature.as_slice(),
        asked: desc.arg_interfaces.as_slice(),
        child: desc.child_interface,
        created: None,
    };
    convert(
        client,
        front.sender.version,
        objects,
        &mut progress,
        message.args.as_mut_slice(),
        args,
    )
}

/// Handles the request that was read into the message, to an object that is neither a display nor a registry, and returns what
/// is still to be done for it. What its arguments own is taken out of the message. If it is handed out, it is in `finding`
/// then, with its arguments, converted.
pub fn object_request<'p, 'm, U: Drop, G: GlobalHandler<C>, C>(
    around: &Surroundings<'_, G>,
    client_data: &C,
    objects: &mut ClientObjects<U>,
    front: &FrontRequest<'p>,
    message: &'m mut Message<u32, Token>,
    finding: &mut Finding,
) -> Response<'p, 'm>
    requires can_make { row_creates (message_row front.now.desc.now) ≡ true → objects.old.map.reserved ≡ true }
    requires kinds { Matches front.now.desc.now.signature.items message.old.args.items }
    requires empty { finding.old.args.items ≡ [] }
    requires room { HasRoomFor finding.old.args (length message.old.args.items) }
    requires sender { (x : ObjectOf (KeptOf U)) → held objects.old.map.store message.old.sender_id ≡ Some x → IsSenderOf front.now.sender x }
    requires name { holds_zero (message_row front.now.desc.now).name ≡ false }
    ensures names { HasNames result }
    ensures responds { (x : ObjectOf (KeptOf U)) (c : Core U C) → held objects.old.map.store message.old.sender_id ≡ Some x
        → request_verdict (around_of G.views around.now) (core_with c client_data.now objects.old) (content message.old) x (message_row front.now.desc.now)
        ≡ response_to (around_of G.views around.now) (core_with c client_data.now objects.new) (sent_to (content message.old) x) result finding.new.found finding.new.args.items }
{
    let number = message.sender_id;
    let opcode = message.opcode;
    let Sender {
        serial,
        interface,
        version,
    } = front.sender;
    let desc = front.desc;
    if version < desc.since {
        return Response::Breaks(Breach::SinceLater(opcode, version, desc.since, interface, number));
    }
    match convert_request(around.client, front, objects, message, &mut finding.args) {
        Ok(created) => {
            let sender = ObjectId::from_parts(number, serial, around.client, interface);
            finding.found = Found::Request(sender, opcode, desc.is_destructor, created);
            Response::HandsOut
        }
        Err(wrong) => {
            let place = finding.args.len();
            Response::Breaks(Breach::WrongArgument(interface, desc, place, wrong))
        }
    }
}
