//! The globals that a new registry is told of.

ghost use Rattle.std.specs.Prelude.{◌≡◌, ◌∷◌, ℕ, [], OnOk, length, nat_lt};
ghost use Rattle.wl_wire.specs.Table.{name_of};
ghost use Rattle.wl_server_client.specs.Globals.{is_shown as global_is_shown, shown, shown_as};
ghost use Rattle.wl_server_client.specs.Part.{id_of};
ghost use Rattle.wl_server_client.specs.Inside.News.{room_in};
ghost use Rattle.wl_server_client.specs.Inside.Puts.{Puts};
ghost use Rattle.wl_server_client.specs.Telling.{global_message, introductions, making};
ghost use Rattle.wl_server_client.specs.Inside.ReadingLoop.{around_of};

use crate::globals::KeptGlobal;
use crate::globals::announce::{blank_global_message, set_global_args};
use crate::globals::handler::GlobalHandler;
use crate::ids::global_id::GlobalId;
use crate::ids::object_id::ObjectId;
use crate::reading::Surroundings;
use std::alloc::Global;
use wl_link::{BufferedSocket, Object, Transport};
use wl_wire::{IoFault, Message, Protocol, Token};

/// Whether the client is shown the global: it is not disabled, and the client may see it.
fn is_shown<G: GlobalHandler<C>, C>(
    around: &Surroundings<'_, G>,
    client_data: &C,
    name: u32,
    global: &Object<KeptGlobal<G>>,
) -> bool
    ensures { result ≡ global_is_shown G.views around.now.client client_data.now (name, global.now) }
{
    if global.value.is_disabled {
        return false;
    }
    let id = GlobalId::from_parts(name, global.value.serial);
    global
        .value
        .handler
        .can_view(&around.client, client_data, &id)
}

/// Tells a registry of a global. The registry is the sender of `message`, a `wl_registry.global` whose arguments are
/// overwritten.
fn put_global<T: Transport, G>(
    alloc: Global,
    socket: &mut BufferedSocket<T>,
    protocol: &Protocol,
    message: &mut Message<u32, Token>,
    name: u32,
    global: &Object<KeptGlobal<G>>,
) -> Result<(), IoFault>
    requires opcode { message.old.opcode ≡ 0 }
    requires args { length message.old.args.items ≡ 3 }
    ensures puts { (serial : ℕ) → Puts T.sends socket.old (making (nat_lt (room_in message.old.args.items) (length (name_of protocol.now global.now.interface.0))) (global_message protocol.now (record { number = message.old.sender_id; serial = serial }) (shown_as (name, global.now))) ∷ []) result socket.new }
    ensures room { OnOk result (room_in message.new.args.items ≡ length (name_of protocol.now global.now.interface.0)) }
    ensures opcode { message.new.opcode ≡ 0 }
    ensures args { length message.new.args.items ≡ 3 }
    ensures sender { message.new.sender_id ≡ message.old.sender_id }
{
    let (interface, version) = (global.interface, global.version);
    let Ok(()) = set_global_args(alloc, protocol, message, name, interface, version) else {
        return Err(IoFault::OutOfMemory);
    };
    socket.write_message(message)
}

/// Tells a registry of each global that its client is shown.
pub fn put_globals<T: Transport, G: GlobalHandler<C> + Drop, C>(
    alloc: Global,
    socket: &mut BufferedSocket<T>,
    around: &Surroundings<'_, G>,
    client_data: &C,
    registry: &ObjectId,
) -> Result<(), IoFault>
    ensures { Puts T.sends socket.old
        (introductions around.now.protocol.now (id_of registry.now) 0 (shown G.views (around_of G.views around.now).globals around.now.client client_data.now)) result socket.new }
{
    let mut message = blank_global_message(alloc, registry.protocol_id());
    let mut globals = around.globals.all_objects();
    while let Some((name, global)) = globals.next() {
        if is_shown(around, client_data, name, global) {
            let wrote = put_global(alloc, socket, around.protocol, &mut message, name, global);
            if let Err(fault) = wrote {
                return Err(fault);
            }
        }
    }
    Ok(())
}
