//! The user data of objects.

ghost use Rattle.std.specs.Fn.{FnOnceReturnsAtMut};
ghost use Rattle.std.specs.Prelude.{◌≡◌, Err, None, Ok, Some, MatchOption};
ghost use Rattle.wl_server_client.specs.DataInPlace.{LendsDataIn, LendsDataOf};
ghost use Rattle.wl_server_client.specs.Finish.{data_given};
ghost use Rattle.wl_server_client.specs.Part.{named};

use crate::error::InvalidId;
use crate::ids::object_id::ObjectId;
use crate::objects::{Kept, named_in};
use wl_link::{Object, ObjectMap};

/// Sets the user data of the object that the id names. What it had before is dropped. Returns the data if the id names no
/// object.
pub fn give_if_kept<U: Drop>(
    objects: &mut ObjectMap<Kept<U>>,
    id: &ObjectId,
    user_data: U,
) -> Option<U>
    ensures back { MatchOption (named objects.old.store id.now) (result ≡ Some user_data) (λ _. result ≡ None) }
    ensures given { objects.new.store ≡ data_given objects.old.store id.now.number (named objects.old.store id.now) user_data }
{
    if named_in(objects, id).is_none() {
        return Some(user_data);
    }
    objects.with(id.protocol_id(), |object| {
        object.value.user_data = Some(user_data);
    });
    None
}

/// Sets the user data of the object that the id names. What it had before is dropped.
pub fn give_data<U: Drop>(
    objects: &mut ObjectMap<Kept<U>>,
    id: &ObjectId,
    user_data: U,
) -> Result<(), InvalidId>
    ensures answer { MatchOption (named objects.old.store id.now) (result ≡ Err _) (λ _. result ≡ Ok tt) }
    ensures given { objects.new.store ≡ data_given objects.old.store id.now.number (named objects.old.store id.now) user_data }
{
    match give_if_kept(objects, id, user_data) {
        None => Ok(()),
        Some(_) => Err(InvalidId),
    }
}

/// Calls `f` with the user data of the object, which it may change. Returns what `f` returns, and `None` if there are no
/// user data.
fn lend_data_of<U: Drop, R, F: FnOnce(&mut U) -> R>(object: &mut Object<Kept<U>>, f: F) -> Option<R>
    requires { F.IsAlwaysCallable f }
    ensures { LendsDataOf (FnOnceReturnsAtMut F.FnOnce f) object.old result object.new }
{
    match &mut object.value.user_data {
        Some(user_data) => Some(f(user_data)),
        None => None,
    }
}

/// The same with the object that the id names. The error says that the id names no object, or one without user data.
pub fn lend_data<U: Drop, R, F: FnOnce(&mut U) -> R>(
    objects: &mut ObjectMap<Kept<U>>,
    id: &ObjectId,
    f: F,
) -> Result<R, InvalidId>
    requires { F.IsAlwaysCallable f }
    ensures { LendsDataIn (FnOnceReturnsAtMut F.FnOnce f) objects.old.store id.now result objects.new.store }
{
    match named_in(objects, id) {
        Some(object) if object.value.user_data.is_some() => {}
        _ => return Err(InvalidId),
    }
    match objects.with(id.protocol_id(), |object| lend_data_of(object, f)) {
        Some(Some(answer)) => Ok(answer),
        _ => Err(InvalidId),
    }
}
