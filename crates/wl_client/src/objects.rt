//! The objects of a session: what is kept of each, how they are looked up and changed, and the calls that are about one object.

ghost use Rattle.std.specs.Prelude.{◌≡◌, false, None, Some, IsSome, Ok, Err, MatchOption, MatchResult, option_copied};
ghost use Rattle.wl_link.specs.Store.{held, is_free};
ghost use Rattle.wl_client.specs.Events.{deleted, vacated};
ghost use Rattle.wl_client.specs.Session.{named, noted, alive, fresh_object as the_object, id_at as the_id};
ghost use Rattle.std.specs.Fn.{FnOnceReturnsAtMut};
ghost use Rattle.wl_client.specs.Objects.{info_of, user_data_of, DataSet, DestroyedBy, LendsData, LendsDataIn, LendsDataOf, ReclaimedBy};
ghost use Rattle.wl_client.specs.Finish.{data_given};
ghost use Rattle.wl_client.specs.Freeing.{destroyed_id, with_freed};
ghost use Rattle.wl_client.specs.Inside.Freed.{HasPlace};
ghost use Rattle.wl_client.specs.Inside.Sending.{given_up_at};
ghost use Rattle.wl_client.specs.Accounts.{CallsLocally, LendsAsCall};
ghost use Rattle.wl_client.specs.Plain.Calls.{DestroysObject, ReclaimsObject, SetsData, SetsWhatIsLeft};
ghost use Rattle.wl_client.specs.Steps.{refused_destroy};
ghost use Rattle.wl_client.specs.declared.step.Reply.TheVariants as reply;
ghost use Rattle.wl_client.specs.declared.step.Step.TheVariants as step;

use crate::backend::Backend;
use crate::error::{DestroyError, InvalidId};
use crate::freed::Freed;
use crate::object_id::ObjectId;
use wl_link::{Object, ObjectMap};
use wl_wire::{DISPLAY, InterfaceId, ObjectInfo, OutOfMemory};

/// What the session keeps of an object, beside its interface and version.
#[derive(Drop)]
pub struct Kept<U> {
    /// The serial of the object, which no other object of the session has.
    pub serial: u64,
    /// The user data: the program's own data of the object.
    pub user_data: Option<U>,
    /// Whether the client destroyed it, or an event did.
    pub client_destroyed: bool,
    /// Whether the server deleted its id (`wl_display.delete_id`) while the client had not destroyed it.
    pub id_deleted: bool,
}

/// What happened to an object. `Backend::take_notes` returns the notes.
#[derive(Clone, Copy, Debug, PartialEq, Eq)]
pub enum Note {
    /// The object, which had user data, was destroyed: by the client, or by an event.
    Destroyed(ObjectId),
}

/// An object that nobody has destroyed.
pub fn fresh_object<U>(
    interface: InterfaceId,
    version: u32,
    serial: u64,
    user_data: Option<U>,
) -> Object<Kept<U>>
    ensures { result ≡ the_object interface version serial user_data }
{
    Object {
        interface,
        version,
        value: Kept {
            serial,
            user_data,
            client_destroyed: false,
            id_deleted: false,
        },
    }
}

/// The object that the id names: the one at its number, if it has the id's serial.
pub fn named_in<'a, U: Drop>(
    objects: &'a ObjectMap<Kept<U>>,
    id: &ObjectId,
) -> Option<&'a Object<Kept<U>>>
    ensures { option_copied result ≡ named objects.now.store id.now }
{
    if id.is_null() {
        return None;
    }
    match objects.find(id.protocol_id()) {
        Some(object) if object.value.serial == id.serial() => Some(object),
        _ => None,
    }
}

/// The object that the id names, unless the client has destroyed it.
pub fn live_in<'a, U: Drop>(
    objects: &'a ObjectMap<Kept<U>>,
    id: &ObjectId,
) -> Option<&'a Object<Kept<U>>>
    ensures { option_copied result ≡ alive (named objects.now.store id.now) }
{
    match named_in(objects, id) {
        Some(object) if !object.value.client_destroyed => Some(object),
        _ => None,
    }
}

/// The id of this object, which has that number.
pub fn id_at<U>(number: u32, object: &Object<Kept<U>>) -> ObjectId
    ensures { result ≡ the_id number object.now }
{
    ObjectId::from_parts(number, object.value.serial, object.interface)
}

/// Notes that the object with this number has ended, if it has user data. If there is no memory for the note, nothing is
/// changed.
pub fn note_end<U>(
    notes: &mut Vec<Note>,
    number: u32,
    object: &Object<Kept<U>>,
) -> Result<(), OutOfMemory>
    ensures { MatchResult result
        (λ _. notes.new.items ≡ noted notes.old.items object.now.value.user_data (the_id number object.now))
        (λ _. (notes.new.items ≡ notes.old.items) × IsSome object.now.value.user_data) }
{
    if object.value.user_data.is_none() {
        return Ok(());
    }
    match notes.push(Note::Destroyed(id_at(number, object))) {
        Ok(()) => Ok(()),
        Err(_) => Err(OutOfMemory),
    }
}

/// Gives the object that the id names this user data, in place of what it had. The error says that the id names no object.
pub fn give_data<U: Drop>(
    objects: &mut ObjectMap<Kept<U>>,
    id: &ObjectId,
    user_data: U,
) -> Result<(), InvalidId>
    ensures answer { MatchOption (named objects.old.store id.now) (result ≡ Err _) (λ _. result ≡ Ok tt) }
    ensures given { objects.new.store ≡ data_given objects.old.store id.now.number (named objects.old.store id.now) user_data }
{
    if named_in(objects, id).is_none() {
        return Err(InvalidId);
    }
    objects.with(id.protocol_id(), |object| {
        object.value.user_data = Some(user_data);
    });
    Ok(())
}

/// Calls `f` with the user data of the object, which it may change. Returns what `f` returns, and `None` if there are no
/// user data.
fn lend_data_of<U: Drop, R, F: FnOnce(&mut U) -> R>(object: &mut Object<Kept<U>>, f: F) -> Option<R>
    requires { F.IsAlwaysCallable f }
    ensures { LendsDataOf (FnOnceReturnsAtMut F.FnOnce f) object.old result object.new }
{
    match &mut object.value.user_data {
        Some(user_data) => Some(f(user_data)),
        None => None,
    }
}

/// Calls `f` with the user data of the object that the id names, as `lend_data_of` does. The error says that the id names no
/// object, or one without user data.
fn lend_data<U: Drop, R, F: FnOnce(&mut U) -> R>(
    objects: &mut ObjectMap<Kept<U>>,
    id: &ObjectId,
    f: F,
) -> Result<R, InvalidId>
    requires { F.IsAlwaysCallable f }
    ensures { LendsDataIn (FnOnceReturnsAtMut F.FnOnce f) objects.old.store id.now result objects.new.store }
{
    match named_in(objects, id) {
        Some(object) if object.value.user_data.is_some() => {}
        _ => return Err(InvalidId),
    }
    match objects.with(id.protocol_id(), |object| lend_data_of(object, f)) {
        Some(Some(answer)) => Ok(answer),
        _ => Err(InvalidId),
    }
}

/// Flags the object with this number, if there is one, as destroyed by the client.
pub fn give_up<U: Drop>(objects: &mut ObjectMap<Kept<U>>, number: u32)
    ensures { objects.new.store ≡ given_up_at objects.old.store number (held objects.old.store number) }
{
    objects.with(number, |object| {
        object.value.client_destroyed = true;
    });
}

/// Takes the object with this number out of the map, if the client has destroyed it. Otherwise nothing is changed.
pub fn vacate<U: Drop>(objects: &mut ObjectMap<Kept<U>>, number: u32)
    ensures store { objects.new.store ≡ vacated objects.old.store number }
    ensures kept { is_free objects.new.store number ≡ false → objects.new.store ≡ objects.old.store }
    ensures reserved { objects.new.reserved ≡ objects.old.reserved }
{
    let Some(object) = objects.find(number) else {
        return;
    };
    if object.value.client_destroyed {
        objects.remove(number);
    }
}

/// The server deletes the id of this number. Its object, if there is one, is taken out of the map if the client has destroyed it,
/// which is told then, and is flagged if not.
pub fn delete_id<U: Drop>(objects: &mut ObjectMap<Kept<U>>, freed: &mut Freed, number: u32)
    requires { HasPlace freed.old }
    ensures store { objects.new.store ≡ deleted objects.old.store number }
    ensures kept { freed.new.kept ≡ freed.old.kept }
    ensures freed { freed.new.ids.items ≡ with_freed freed.old.kept freed.old.ids.items (destroyed_id number (held objects.old.store number)) }
{
    let Some(object) = objects.find(number) else {
        return;
    };
    if !object.value.client_destroyed {
        objects.with(number, |object| {
            object.value.id_deleted = true;
        });
        return;
    }
    let id = id_at(number, object);
    objects.remove(number);
    freed.push(Some(id));
}

impl<T: Drop, U: Drop> Backend<T, U> {
    /// The number, interface and version of the object that the id names.
    ///
    /// It stands for `wayland_backend::client::Backend::info`. The error is `InvalidId` if the id names no object, or one
    /// that the client has destroyed.
    pub fn info(&self, id: &ObjectId) -> Result<ObjectInfo, InvalidId>
        ensures { MatchResult result (λ info. info_of self.now.session id.now ≡ Some info)
            (λ _. info_of self.now.session id.now ≡ None) }
    {
        match live_in(&self.objects, id) {
            Some(object) => Ok(ObjectInfo {
                id: id.protocol_id(),
                interface: object.interface,
                version: object.version,
            }),
            None => Err(InvalidId),
        }
    }

    /// The user data of the object that the id names.
    ///
    /// It stands for `wayland_backend::client::Backend::get_data`. It also returns the data of an object that was
    /// destroyed, until that leaves the map. The error is `InvalidId` if the id names no object, or one without user data.
    pub fn get_data(&self, id: &ObjectId) -> Result<&U, InvalidId>
        ensures { MatchResult result (λ u. user_data_of self.now.session id.now ≡ Some u.now)
            (λ _. user_data_of self.now.session id.now ≡ None) }
    {
        let Some(object) = named_in(&self.objects, id) else {
            return Err(InvalidId);
        };
        match &object.value.user_data {
            Some(user_data) => Ok(user_data),
            None => Err(InvalidId),
        }
    }

    /// Gives the object that the id names this user data. The data that it had are dropped. It allocates nothing.
    ///
    /// It stands for `wayland_backend::client::Backend::set_data`. The error is `InvalidId` if the id names no object; then
    /// the given data are dropped.
    pub fn set_data(&mut self, id: &ObjectId, user_data: U) -> Result<(), InvalidId>
        ensures call { CallsLocally self.old (step.SetData id.now user_data) (reply.SetData result) self.new }
        ensures plain { SetsData self.old.session id.now user_data result self.new.session }
        ensures set { DataSet self.old.session id.now user_data result self.new.session }
        ensures refused { self.new.refused ≡ false }
    {
        self.refused = false;
        give_data(&mut self.objects, id, user_data)
    }

    /// Calls `f` once with the user data of the object that the id names, which it may change in place. Returns what `f`
    /// returns. It allocates nothing, apart from what `f` allocates.
    ///
    /// It does what `set_data` does with the data that `f` leaves, and needs no copy of them. The error is `InvalidId` if
    /// the id names no object, or one without user data; then `f` is not called.
    pub fn with_data<R, F: FnOnce(&mut U) -> R>(
        &mut self,
        id: &ObjectId,
        f: F,
    ) -> Result<R, InvalidId>
        requires { F.IsAlwaysCallable f }
        ensures call { LendsAsCall (FnOnceReturnsAtMut F.FnOnce f) self.old id.now result self.new }
        ensures plain { SetsWhatIsLeft (FnOnceReturnsAtMut F.FnOnce f) self.old.session id.now result self.new.session }
        ensures lent { LendsData (FnOnceReturnsAtMut F.FnOnce f) self.old.session id.now result self.new.session }
        ensures refused { self.new.refused ≡ false }
    {
        self.refused = false;
        lend_data(&mut self.objects, id, f)
    }

    /// Destroys the object that the id names, on the client's side. It is noted, if it has user data.
    ///
    /// It stands for `wayland_backend::client::Backend::destroy_object`. The object leaves the map when the server deletes its
    /// id after that (`wl_display.delete_id`). If the server deleted it before, `reclaim` takes the object out.
    ///
    /// The error is `InvalidId` if the id names no object, or the display, or an object that the client has destroyed before,
    /// and else `OutOfMemory` if there is no memory for the note. An error changes nothing.
    pub fn destroy_object(&mut self, id: &ObjectId) -> Result<(), DestroyError>
        ensures call { CallsLocally self.old (step.DestroyObject id.now) (reply.DestroyObject result) self.new }
        ensures plain { DestroysObject self.old.session id.now result self.new.session }
        ensures destroyed { DestroyedBy self.old.session id.now result self.new.session }
        ensures refused { self.new.refused ≡ refused_destroy result }
    {
        self.destroy_named(id)
    }

    /// Takes the object that the id names out of the map, if both sides have given it up: the client has destroyed it, and the
    /// server deleted its id (`wl_display.delete_id`) before that. Its data are dropped, and its number is free. It allocates
    /// nothing.
    ///
    /// `wayland_backend` has no such call: there, and here for a program that does not call it, such a number is never used
    /// again. An object that the client destroyed first leaves the map by itself when the server deletes its id. The error is
    /// `InvalidId` if the id names no object that both sides have given up; then nothing is changed.
    pub fn reclaim(&mut self, id: &ObjectId) -> Result<(), InvalidId>
        ensures call { CallsLocally self.old (step.Reclaim id.now) (reply.Reclaim result) self.new }
        ensures plain { ReclaimsObject self.old.session id.now result self.new.session }
        ensures reclaimed { ReclaimedBy self.old.session id.now result self.new.session }
        ensures refused { self.new.refused ≡ false }
    {
        self.reclaim_named(id)
    }

    /// Takes the object that the id names out of the map, if both sides have given it up.
    fn reclaim_named(&mut self, id: &ObjectId) -> Result<(), InvalidId>
        ensures reclaimed { ReclaimedBy self.old.session id.now result self.new.session }
        ensures refused { self.new.refused ≡ false }
    {
        self.refused = false;
        match named_in(&self.objects, id) {
            Some(object) if object.value.client_destroyed && object.value.id_deleted => {}
            _ => return Err(InvalidId),
        }
        self.objects.remove(id.protocol_id());
        Ok(())
    }

    /// Flags the object that the id names as destroyed by the client, if the client may destroy it. Before that it is noted.
    fn destroy_named(&mut self, id: &ObjectId) -> Result<(), DestroyError>
        ensures destroyed { DestroyedBy self.old.session id.now result self.new.session }
        ensures refused { self.new.refused ≡ refused_destroy result }
    {
        self.refused = false;
        let number = id.protocol_id();
        if number == DISPLAY {
            return Err(DestroyError::InvalidId);
        }
        let Some(object) = live_in(&self.objects, id) else {
            return Err(DestroyError::InvalidId);
        };
        if note_end(&mut self.notes, number, object).is_err() {
            self.refused = true;
            return Err(DestroyError::OutOfMemory);
        }
        give_up(&mut self.objects, number);
        Ok(())
    }
}
