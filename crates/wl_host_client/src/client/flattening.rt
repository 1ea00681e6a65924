//! Events and object ids of a client's core as flat structs.

ghost use Rattle.std.specs.Prelude.{◌≡◌, length, min};
ghost use Rattle.wl_client.specs.Objects.{info_of, user_data_of};
ghost use Rattle.wl_client.specs.Requests.{session_content};
ghost use Rattle.wl_flat.specs.Arguments.{all_bytes};
ghost use Rattle.wl_host_client.specs.Client.{created_by, ends_sender, flat_event, null_in, version_in};

use super::{Client, Core};
use wl_client::ObjectId;
use wl_flat::arguments::{Needs, Objects};
use wl_flat::flat::{FlatEvent, FlatObjectId, count_number};
use wl_flat::nulls::forbidden_null;
use wl_wire::{Message, Token};

/// The data of the object, if it has any.
pub fn data_of(core: &Core, id: &ObjectId) -> Option<u64>
    ensures { result ≡ user_data_of core.now.session id.now }
{
    match core.get_data(id) {
        Ok(user_data) => Some(*user_data),
        Err(_) => None,
    }
}

/// The version of the object; 0 if the id names none.
fn version_of(core: &Core, id: &ObjectId) -> u32
    ensures { result ≡ version_in (info_of core.now.session id.now) }
{
    match core.info(id) {
        Ok(info) => info.version,
        Err(_) => 0,
    }
}

impl Objects<ObjectId, Client> for Core {
    ghost use Rattle.wl_host_client.specs.Client.{data_or_zero};
    ghost use Rattle.wl_flat.specs.Flat.{flat_proxy};

    ghost flat_of = { flat_proxy };

    ghost data_of = { data_or_zero };

    fn flat(&self, id: &ObjectId) -> FlatObjectId {
        FlatObjectId::of_proxy(*id)
    }

    fn data_or_zero(&self, id: &ObjectId) -> u64 {
        data_of(self, id).unwrap_or(0)
    }
}

/// What the open event made, and whether it ends its sender.
pub fn made_and_ends(core: &Core) -> (ObjectId, bool)
    ensures made { result.0 ≡ created_by core.now.session.open_event }
    ensures ends { result.1 ≡ ends_sender core.now.session.open_event }
{
    match core.open_event() {
        Some(open) => (open.created.unwrap_or(ObjectId::null()), open.is_destructor),
        None => (ObjectId::null(), false),
    }
}

/// The place of the first argument of the event that is null where the table allows no null, counted from 1; 0 if there is
/// none.
pub fn forbidden_null_of(core: &Core, event: &Message<ObjectId, Token>) -> u32
    ensures { result ≡ null_in core.now (session_content event.now) }
{
    match core
        .protocol()
        .event(event.sender_id.interface(), event.opcode)
    {
        Some(desc) => forbidden_null(core, desc.signature.as_slice(), event.args.as_slice()),
        None => 0,
    }
}

/// The event, with this null, without its arguments, which need this much. It is open.
pub fn flat_event(
    core: &Core,
    event: &Message<ObjectId, Token>,
    forbidden_null: u32,
    needs: Needs,
) -> FlatEvent
    requires null { forbidden_null ≡ null_in core.now (session_content event.now) }
    requires arguments { needs.arguments ≡ length event.now.args.items }
    requires bytes { needs.bytes ≡ min (length (all_bytes event.now.args.items)) usize.MAX }
    ensures { result ≡ flat_event core.now (session_content event.now) }
{
    let user_data = data_of(core, &event.sender_id);
    let (created, is_destructor) = made_and_ends(core);
    FlatEvent {
        opcode: u32::from(event.opcode),
        arguments: count_number(needs.arguments),
        is_destructor: u32::from(is_destructor),
        bytes: count_number(needs.bytes),
        sender: FlatObjectId::of_proxy(event.sender_id),
        data: user_data.unwrap_or(0),
        created: FlatObjectId::of_proxy(created),
        version: version_of(core, &created),
        has_data: u32::from(user_data.is_some()),
        forbidden_null,
    }
}
