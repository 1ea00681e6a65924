//! The requests to a display.

ghost use Rattle.std.specs.Prelude.{◌≡◌, ◌<◌, if◌then◌else◌, true, List, vec_len, vec_capacity};
ghost use Rattle.std.specs.List.{list_any};
ghost use Rattle.wl_wire.specs.Argument.{type_of};
ghost use Rattle.wl_wire.specs.Table.{is_new_id};
ghost use Rattle.wl_wire.specs.declared.argument.Argument.{Argument as Arg};
ghost use Rattle.wl_wire.specs.declared.argument.Token.{Token as TokenParts};
ghost use Rattle.wl_server_client.specs.declared.reading.action.Found.{Found as FoundOf};
ghost use Rattle.wl_server_client.specs.Ids.{IdParts};
ghost use Rattle.wl_server_client.specs.Reading.{Around, display_request as request_verdict, hands_registry, made_at, registers, syncs};
ghost use Rattle.wl_server_client.specs.Inside.Responses.{HasNames, core_with, only_new_id, response_to};
ghost use Rattle.wl_server_client.specs.Telling.{Core};
ghost use Rattle.wl_server_client.specs.Violations.{Addressed};
ghost use Rattle.wl_server_client.specs.Inside.ReadingLoop.{around_of};

use crate::globals::handler::GlobalHandler;
use crate::objects::{ClientObjects, Registry};
use crate::reading::Surroundings;
use crate::reading::action::Found;
use crate::reading::arguments::make_object;
use crate::reading::response::{Breach, Response};
use wl_wire::opcodes::SYNC;
use wl_wire::{Argument, Message, Token, WL_CALLBACK_INTERFACE, WL_REGISTRY_INTERFACE};

/// Handles a request to a display, and returns what is still to be done for it. A registry that is handed out is in `found`
/// then.
pub fn display_request<'p, 'm, U: Drop, G: GlobalHandler<C>, C>(
    around: &Surroundings<'_, G>,
    client_data: &C,
    objects: &mut ClientObjects<U>,
    message: &'m Message<u32, Token>,
    found: &mut Found,
) -> Response<'p, 'm>
    requires can_make { list_any (λ x. is_new_id (type_of x)) message.now.args.items ≡ true → objects.old.map.reserved ≡ true }
    requires can_register { list_any (λ x. is_new_id (type_of x)) message.now.args.items ≡ true → vec_len objects.old.registries < vec_capacity objects.old.registries }
    ensures names { HasNames result }
    ensures responds { (c : Core U C) (to : Addressed) (args : List (Arg IdParts TokenParts))
        → request_verdict (around_of G.views around.now) (core_with c client_data.now objects.old) to message.now.opcode message.now.args.items
        ≡ response_to (around_of G.views around.now) (core_with c client_data.now objects.new) to result found.new args }
{
    let Some(number) = new_id_in(message) else {
        return Response::Malformed;
    };
    if message.opcode == SYNC {
        return sync(around, client_data, objects, number);
    }
    get_registry(around, client_data, objects, number, found)
}

/// The number of the message's new id, if that is its only argument.
fn new_id_in(message: &Message<u32, Token>) -> Option<u32>
    ensures { result ≡ only_new_id message.now.args.items }
{
    match message.args.as_slice() {
        [Argument::NewId(number)] => Some(*number),
        _ => None,
    }
}

/// Makes a callback with this number. It is removed at once.
fn sync<'p, 'm, U: Drop, G: GlobalHandler<C>, C>(
    around: &Surroundings<'_, G>,
    client_data: &C,
    objects: &mut ClientObjects<U>,
    number: u32,
) -> Response<'p, 'm>
    requires { objects.old.map.reserved ≡ true }
    ensures names { HasNames result }
    ensures responds { (c : Core U C) (to : Addressed) (f : FoundOf) (args : List (Arg IdParts TokenParts))
        → (let before : Core U C = core_with c client_data.now objects.old in
        made_at (around_of G.views around.now) before to 0 number (syncs (around_of G.views around.now) before number))
        ≡ response_to (around_of G.views around.now) (core_with c client_data.now objects.new) to result f args }
{
    match make_object(around.client, objects, WL_CALLBACK_INTERFACE, 1, number) {
        Some(id) => {
            objects.map.remove(number);
            Response::Syncs(id)
        }
        None => Response::Breaks(Breach::InvalidNewId(0, number)),
    }
}

/// Makes a registry with this number. It is handed out, or else to be told of the globals.
fn get_registry<'p, 'm, U: Drop, G: GlobalHandler<C>, C>(
    around: &Surroundings<'_, G>,
    client_data: &C,
    objects: &mut ClientObjects<U>,
    number: u32,
    found: &mut Found,
) -> Response<'p, 'm>
    requires can_make { objects.old.map.reserved ≡ true }
    requires can_register { vec_len objects.old.registries < vec_capacity objects.old.registries }
    ensures names { HasNames result }
    ensures responds { (c : Core U C) (to : Addressed) (args : List (Arg IdParts TokenParts))
        → (let before : Core U C = core_with c client_data.now objects.old in
        let a : Around G C = around_of G.views around.now in
        made_at a before to 0 number (if around.now.hands_registries then hands_registry a before number else registers a before number))
        ≡ response_to (around_of G.views around.now) (core_with c client_data.now objects.new) to result found.new args }
{
    if around.hands_registries {
        return hand_out_registry(around, client_data, objects, number, found);
    }
    register(around, client_data, objects, number)
}

/// Makes a registry with this number. It is to be told of the globals.
fn register<'p, 'm, U: Drop, G: GlobalHandler<C>, C>(
    around: &Surroundings<'_, G>,
    client_data: &C,
    objects: &mut ClientObjects<U>,
    number: u32,
) -> Response<'p, 'm>
    requires can_make { objects.old.map.reserved ≡ true }
    requires can_register { vec_len objects.old.registries < vec_capacity objects.old.registries }
    ensures names { HasNames result }
    ensures responds { (c : Core U C) (to : Addressed) (f : FoundOf) (args : List (Arg IdParts TokenParts))
        → (let before : Core U C = core_with c client_data.now objects.old in
        made_at (around_of G.views around.now) before to 0 number (registers (around_of G.views around.now) before number))
        ≡ response_to (around_of G.views around.now) (core_with c client_data.now objects.new) to result f args }
{
    match make_object(around.client, objects, WL_REGISTRY_INTERFACE, 1, number) {
        Some(id) => {
            let serial = id.serial();
            objects
                .registries
                .push_reserved(Registry { number, serial });
            Response::Registers(id)
        }
        None => Response::Breaks(Breach::InvalidNewId(0, number)),
    }
}

/// Makes a registry with this number, and hands it out. The server tells it of no global.
fn hand_out_registry<'p, 'm, U: Drop, G: GlobalHandler<C>, C>(
    around: &Surroundings<'_, G>,
    client_data: &C,
    objects: &mut ClientObjects<U>,
    number: u32,
    found: &mut Found,
) -> Response<'p, 'm>
    requires { objects.old.map.reserved ≡ true }
    ensures names { HasNames result }
    ensures responds { (c : Core U C) (to : Addressed) (args : List (Arg IdParts TokenParts))
        → (let before : Core U C = core_with c client_data.now objects.old in
        made_at (around_of G.views around.now) before to 0 number (hands_registry (around_of G.views around.now) before number))
        ≡ response_to (around_of G.views around.now) (core_with c client_data.now objects.new) to result found.new args }
{
    match make_object(around.client, objects, WL_REGISTRY_INTERFACE, 1, number) {
        Some(registry) => {
            *found = Found::Registry(registry);
            Response::HandsOut
        }
        None => Response::Breaks(Breach::InvalidNewId(0, number)),
    }
}
