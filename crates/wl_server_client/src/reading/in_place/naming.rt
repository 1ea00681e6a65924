//! The numbers in the arguments of a request, and the ids that they become.

ghost use Rattle.std.specs.Prelude.{◌≡◌, ◌&&◌, ◌∷◌, false, not, IfSome, Ok};
ghost use Rattle.wl_wire.specs.declared.argument.Argument.TheVariants as argument;
ghost use Rattle.wl_wire.specs.declared.argument.ArgumentType.TheVariants as kind;
ghost use Rattle.wl_server_client.specs.Inside.Conversion.{objects_of};
ghost use Rattle.wl_server_client.specs.Inside.InPlace.{IsMade, converting, with_created};
ghost use Rattle.wl_server_client.specs.Limited.{is_above};
ghost use Rattle.wl_server_client.specs.Requests.{convert_one, is_valid_new, made_id, object_argument};

use crate::ids::client_id::ClientId;
use crate::ids::object_id::ObjectId;
use crate::objects::{ClientObjects, id_at};
use crate::reading::arguments::Progress;
use crate::reading::limit::is_above;
use wl_link::SERVER_ID_LIMIT;
use wl_wire::{ANONYMOUS_INTERFACE, InterfaceId, same_interface_or_anonymous};

/// By what the numbers in the arguments of a request are named.
#[derive(Drop)]
pub struct Naming<'a, U> {
    /// The client that sent it.
    pub client: ClientId,
    /// The greatest number at which a request may make an object, if there is a limit.
    pub limit: Option<u32>,
    /// The version of the object that it was sent to. One that it makes gets it, too.
    pub version: u32,
    /// The objects of the client before it.
    pub objects: &'a ClientObjects<U>,
}

/// The id of the object with this number, or null, if it may stand where the table asks for this interface. `created` is the
/// object that the request makes, which is not among the objects yet.
pub fn object_id<U: Drop>(
    naming: &Naming<'_, U>,
    created: &Option<ObjectId>,
    allows_null: bool,
    asked: InterfaceId,
    number: u32,
) -> Option<ObjectId>
    requires made { IfSome created.now (λ id. id ≡ made_id naming.now.client (objects_of naming.now.objects.now) id.number id.interface) }
    ensures { IfSome result (λ id. object_argument naming.now.client
        (with_created naming.now.version (objects_of naming.now.objects.now) created.now).store allows_null asked number ≡ Ok id) }
{
    if number == 0 {
        if !allows_null {
            return None;
        }
        return Some(ObjectId::from_parts(0, 0, naming.client, ANONYMOUS_INTERFACE));
    }
    let (interface, id) = match created {
        Some(id) if id.protocol_id() == number => (id.interface(), *id),
        _ => {
            let object = naming.objects.map.find(number)?;
            (object.interface, id_at(&naming.client, number, object))
        }
    };
    if !same_interface_or_anonymous(asked, interface) {
        return None;
    }
    Some(id)
}

/// Whether the client may make an object at this number.
fn may_make<U: Drop>(naming: &Naming<'_, U>, number: u32) -> bool
    ensures { result ≡ is_valid_new (objects_of naming.now.objects.now) number && not (is_above naming.now.limit number) }
{
    number < SERVER_ID_LIMIT
        && naming.objects.map.is_free(number)
        && naming.objects.last_serial != u64::MAX
        && !is_above(naming.limit, number)
}

/// The id of a new object with this number, if the request may make one there. It is put among the objects after the last argument.
pub fn new_id<U: Drop>(
    naming: &Naming<'_, U>,
    progress: &mut Progress<'_>,
    number: u32,
) -> Option<ObjectId>
    requires made { IsMade naming.now progress.old }
    ensures made { IsMade naming.now progress.new }
    ensures kinds { progress.new.kinds.now ≡ progress.old.kinds.now }
    ensures within { IfSome result (λ _. is_above naming.now.limit number ≡ false) }
    ensures named { IfSome result (λ id. convert_one naming.now.client naming.now.version
        (record (converting naming.now progress.old) { kinds = kind.NewId ∷ progress.old.kinds.now }) (argument.NewId number)
        ≡ Ok (argument.NewId id, converting naming.now progress.new)) }
{
    let interface = progress.child?;
    if !may_make(naming, number) {
        return None;
    }
    let serial = naming.objects.last_serial + 1;
    let id = ObjectId::from_parts(number, serial, naming.client, interface);
    progress.child = None;
    progress.created = Some(id);
    Some(id)
}
