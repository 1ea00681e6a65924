//! The requests to a registry.

ghost use Rattle.std.specs.Prelude.{◌≡◌, true, List, option_map};
ghost use Rattle.std.specs.List.{list_any};
ghost use Rattle.wl_wire.specs.declared.argument.Argument.{Argument as Arg};
ghost use Rattle.wl_wire.specs.declared.argument.Token.{Token as TokenParts};
ghost use Rattle.wl_wire.specs.Argument.{type_of};
ghost use Rattle.wl_wire.specs.Table.{is_new_id};
ghost use Rattle.wl_link.specs.Store.{held};
ghost use Rattle.wl_server_client.specs.Ids.{IdParts};
ghost use Rattle.wl_server_client.specs.Reading.{binds, binds_to, made_at, registry_request as request_verdict};
ghost use Rattle.wl_server_client.specs.Inside.Responses.{HasNames, allows, bind_of, bind_parts, core_with, response_to};
ghost use Rattle.wl_server_client.specs.Telling.{Core};
ghost use Rattle.wl_server_client.specs.Violations.{Addressed};
ghost use Rattle.wl_server_client.specs.Inside.ReadingLoop.{around_of};

use crate::globals::KeptGlobal;
use crate::globals::handler::GlobalHandler;
use crate::ids::global_id::GlobalId;
use crate::objects::ClientObjects;
use crate::reading::Surroundings;
use crate::reading::action::Found;
use crate::reading::arguments::make_object;
use crate::reading::response::{Breach, Response};
use wl_link::Object;
use wl_wire::{Argument, CString, Message, Token};

/// What `wl_registry.bind` asks for.
#[derive(Drop)]
pub struct Bind<'m> {
    /// The name of the global.
    pub global: u32,
    /// The name of the interface.
    pub interface: &'m Option<CString>,
    /// The version of the new object.
    pub version: u32,
    /// The number of the new object.
    pub number: u32,
}

/// What the message asks for, if its arguments are those of a bind.
fn bind_in(message: &Message<u32, Token>) -> Option<Bind<'_>>
    ensures { option_map bind_of result ≡ bind_parts message.now.args.items }
{
    match message.args.as_slice() {
        [
            Argument::Uint(global),
            Argument::Str(interface),
            Argument::Uint(version),
            Argument::NewId(number),
        ] => {
            Some(Bind {
                global: *global,
                interface,
                version: *version,
                number: *number,
            })
        }
        _ => None,
    }
}

/// Whether the client may bind the global in this way.
fn may_bind<G: GlobalHandler<C>, C>(
    around: &Surroundings<'_, G>,
    client_data: &C,
    bind: &Bind<'_>,
    global: &Object<KeptGlobal<G>>,
) -> bool
    ensures { result ≡ allows (around_of G.views around.now) client_data.now bind.now.global bind.now.interface.now bind.now.version global.now }
{
    let Some(interface) = bind.interface else {
        return false;
    };
    if interface.as_bytes() != around.protocol.name(global.interface).as_bytes() {
        return false;
    }
    if bind.version == 0 || bind.version > global.version {
        return false;
    }
    let id = GlobalId::from_parts(bind.global, global.value.serial);
    global
        .value
        .handler
        .can_view(&around.client, client_data, &id)
}

/// Handles a request to a registry, and returns what is still to be done for it. A bind that is handed out is in `found`
/// then.
pub fn registry_request<'p, 'm, U: Drop, G: GlobalHandler<C> + Drop, C>(
    around: &Surroundings<'_, G>,
    client_data: &C,
    objects: &mut ClientObjects<U>,
    message: &'m Message<u32, Token>,
    found: &mut Found,
) -> Response<'p, 'm>
    requires { list_any (λ x. is_new_id (type_of x)) message.now.args.items ≡ true → objects.old.map.reserved ≡ true }
    ensures names { HasNames result }
    ensures responds { (c : Core U C) (to : Addressed) (args : List (Arg IdParts TokenParts))
        → request_verdict (around_of G.views around.now) (core_with c client_data.now objects.old) to message.now.args.items
        ≡ response_to (around_of G.views around.now) (core_with c client_data.now objects.new) to result found.new args }
{
    let Some(bind) = bind_in(message) else {
        return Response::Malformed;
    };
    bind_to(around, client_data, objects, &bind, found)
}

/// Binds a new object to the global that is asked for, if the client may do so.
fn bind_to<'p, 'm, U: Drop, G: GlobalHandler<C> + Drop, C>(
    around: &Surroundings<'_, G>,
    client_data: &C,
    objects: &mut ClientObjects<U>,
    bind: &Bind<'m>,
    found: &mut Found,
) -> Response<'p, 'm>
    requires { objects.old.map.reserved ≡ true }
    ensures names { HasNames result }
    ensures responds { (c : Core U C) (to : Addressed) (args : List (Arg IdParts TokenParts))
        → binds_to (around_of G.views around.now) (core_with c client_data.now objects.old) to bind.now.global bind.now.interface.now bind.now.version bind.now.number (held around.now.globals.now.store bind.now.global)
        ≡ response_to (around_of G.views around.now) (core_with c client_data.now objects.new) to result found.new args }
{
    let refused = Response::Breaks(Breach::RefusedBind(bind.global, bind.version, bind.interface));
    let Some(global) = around.globals.find(bind.global) else {
        return refused;
    };
    if !may_bind(around, client_data, bind, global) {
        return refused;
    }
    make_bound(around, client_data, objects, bind, global, found)
}

/// Makes an object that is bound to the global.
fn make_bound<'p, 'm, U: Drop, G: GlobalHandler<C>, C>(
    around: &Surroundings<'_, G>,
    client_data: &C,
    objects: &mut ClientObjects<U>,
    bind: &Bind<'m>,
    global: &Object<KeptGlobal<G>>,
    found: &mut Found,
) -> Response<'p, 'm>
    requires { objects.old.map.reserved ≡ true }
    ensures names { HasNames result }
    ensures responds { (c : Core U C) (to : Addressed) (args : List (Arg IdParts TokenParts))
        → (let before : Core U C = core_with c client_data.now objects.old in
        made_at (around_of G.views around.now) before to 3 bind.now.number (binds (around_of G.views around.now) before bind.now.global bind.now.version bind.now.number global.now))
        ≡ response_to (around_of G.views around.now) (core_with c client_data.now objects.new) to result found.new args }
{
    let number = bind.number;
    match make_object(
        around.client,
        objects,
        global.interface,
        bind.version,
        number,
    ) {
        Some(object) => {
            let id = GlobalId::from_parts(bind.global, global.value.serial);
            *found = Found::Bind(id, object);
            Response::HandsOut
        }
        None => Response::Breaks(Breach::InvalidNewId(3, number)),
    }
}
