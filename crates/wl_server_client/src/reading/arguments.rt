//! The arguments of a request, and the objects that they name or make.

ghost use Rattle.std.specs.Prelude.{◌≡◌, ◌≢◌, ℕ, ◌+◌, ◌++◌, ◌<◌, ◌∷◌, [], false, true, None, Ok, Err, IfOk, IfSome, IsSome, MatchResult, length};
ghost use Rattle.smallvec.specs.SmallVec.{HasRoomFor};
ghost use Rattle.wl_wire.specs.Argument.{Matches};
ghost use Rattle.wl_wire.specs.declared.argument.Argument.TheVariants as argument;
ghost use Rattle.wl_wire.specs.MessageRows.{next_interface, rest_of};
ghost use Rattle.wl_link.specs.declared.object_map.InsertError.TheVariants as insert;
ghost use Rattle.wl_server_client.specs.Requests.{Wrong, allows_null as null_allowed, convert, is_valid_new, kinds_after, object_argument};
ghost use Rattle.wl_server_client.specs.Inside.Conversion.{Appends, CanMake, EndsWhole, IsNextKind, MakesObject, MakesNew, objects_of, plain, state};

use crate::ids::client_id::ClientId;
use crate::ids::object_id::ObjectId;
use crate::objects::{ClientObjects, Kept, fresh_object, id_at};
use crate::reading::response::RequestFault;
use std::mem;
use wl_link::{InsertError, ObjectMap, SERVER_ID_LIMIT};
use wl_wire::{
    ANONYMOUS_INTERFACE, AllowNull, Args, Argument, ArgumentType, ByteArray, InterfaceId, Token,
    same_interface_or_anonymous,
};

/// What is left to do while the arguments of a request are converted from left to right.
#[derive(Drop)]
pub struct Progress<'a> {
    /// The types in the signature of the arguments that are left.
    pub kinds: &'a [ArgumentType],
    /// The interfaces that the table asks for, of the object arguments that are left.
    pub asked: &'a [InterfaceId],
    /// The interface of the object that the request may still make.
    pub child: Option<InterfaceId>,
    /// The object that the request made.
    pub created: Option<ObjectId>,
}

/// Converts the number of an object argument into an id. `asked` is the interface that the table asks for.
fn object_argument<U: Drop>(
    client: ClientId,
    objects: &ObjectMap<Kept<U>>,
    allows_null: bool,
    asked: InterfaceId,
    number: u32,
) -> Result<ObjectId, RequestFault>
    ensures { result ≡ object_argument client objects.now.store allows_null asked number }
{
    if number == 0 {
        if !allows_null {
            return Err(RequestFault::NullObject);
        }
        return Ok(ObjectId::from_parts(0, 0, client, ANONYMOUS_INTERFACE));
    }
    let Some(object) = objects.find(number) else {
        return Err(RequestFault::UnknownId(number));
    };
    if !same_interface_or_anonymous(asked, object.interface) {
        return Err(RequestFault::WrongInterface(number, asked, object.interface));
    }
    Ok(id_at(&client, number, object))
}

/// Makes an object of a client with this number, and returns its id.
///
/// The error is `NotFree` if the client may not use the number for a new object, or if no serial is left, and else
/// `OutOfMemory`. An error changes nothing.
pub fn insert_object<U: Drop>(
    client: ClientId,
    objects: &mut ClientObjects<U>,
    interface: InterfaceId,
    version: u32,
    number: u32,
) -> Result<ObjectId, InsertError>
    ensures made { MatchResult result
        (λ id. MakesObject client (objects_of objects.old) interface version number (Some id) (objects_of objects.new))
        (λ _. objects_of objects.new ≡ objects_of objects.old) }
    ensures refused { result ≡ Err insert.NotFree → is_valid_new (objects_of objects.old) number ≡ false }
    ensures reserved { result ≡ Err insert.OutOfMemory → objects.old.map.reserved ≡ false }
    ensures registries { objects.new.registries ≡ objects.old.registries }
{
    if number >= SERVER_ID_LIMIT || objects.last_serial == u64::MAX {
        return Err(InsertError::NotFree);
    }
    let serial = objects.last_serial + 1;
    let object = fresh_object(interface, version, serial, None);
    match objects.map.insert_at(number, object) {
        Ok(()) => {
            objects.last_serial = serial;
            Ok(ObjectId::from_parts(number, serial, client, interface))
        }
        Err(error) => Err(error),
    }
}

/// Makes an object of a client with this number, for which there is memory, and returns its id. It is `None` if the client may
/// not use the number for a new object, or if no serial is left. Then nothing is changed.
pub fn make_object<U: Drop>(
    client: ClientId,
    objects: &mut ClientObjects<U>,
    interface: InterfaceId,
    version: u32,
    number: u32,
) -> Option<ObjectId>
    requires { objects.old.map.reserved ≡ true }
    ensures made { MakesObject client (objects_of objects.old) interface version number result (objects_of objects.new) }
    ensures registries { objects.new.registries ≡ objects.old.registries }
{
    match insert_object(client, objects, interface, version, number) {
        Ok(id) => Some(id),
        Err(InsertError::NotFree) => None,
        Err(InsertError::OutOfMemory) => unreachable!(),
    }
}

/// Whether the next argument may be null. Takes its type off the list.
fn take_kind(progress: &mut Progress<'_>) -> bool
    ensures null { result ≡ null_allowed progress.old.kinds.now }
    ensures kinds { progress.new.kinds.now ≡ kinds_after progress.old.kinds.now }
    ensures asked { progress.new.asked.now ≡ progress.old.asked.now }
    ensures child { progress.new.child ≡ progress.old.child }
    ensures created { progress.new.created ≡ progress.old.created }
{
    match progress.kinds.split_first() {
        Some((kind, rest)) => {
            progress.kinds = rest;
            matches!(*kind, ArgumentType::Object(AllowNull::Yes))
        }
        None => false,
    }
}

/// Takes the next interface that the table asks for off the list.
pub fn take_asked(progress: &mut Progress<'_>) -> InterfaceId
    ensures next { result ≡ next_interface progress.old.asked.now }
    ensures rest { progress.new.asked.now ≡ rest_of progress.old.asked.now }
    ensures kinds { progress.new.kinds.now ≡ progress.old.kinds.now }
    ensures child { progress.new.child ≡ progress.old.child }
    ensures created { progress.new.created ≡ progress.old.created }
{
    match progress.asked.split_first() {
        Some((next, rest)) => {
            progress.asked = rest;
            *next
        }
        None => ANONYMOUS_INTERFACE,
    }
}

/// Converts a new id, whose type was taken: makes its object.
fn new_id_argument<U: Drop>(
    client: ClientId,
    version: u32,
    objects: &mut ClientObjects<U>,
    progress: &mut Progress<'_>,
    number: u32,
) -> Result<ObjectId, RequestFault>
    requires { progress.old.child ≢ None → objects.old.map.reserved ≡ true }
    ensures made { MakesNew client version (state objects.old progress.old) number result (state objects.new progress.new) }
    ensures registries { objects.new.registries ≡ objects.old.registries }
    ensures child { IfOk result (λ _. progress.new.child ≡ None) }
    ensures kinds { progress.new.kinds.now ≡ progress.old.kinds.now }
{
    let Some(interface) = progress.child else {
        return Err(RequestFault::InvalidNewId(number));
    };
    match make_object(client, objects, interface, version, number) {
        Some(id) => {
            progress.child = None;
            progress.created = Some(id);
            Ok(id)
        }
        None => Err(RequestFault::InvalidNewId(number)),
    }
}

/// Converts the number of an object into an id, and puts that behind what is in `converted`, which has room for it.
fn convert_object<U: Drop>(
    client: ClientId,
    objects: &ClientObjects<U>,
    progress: &mut Progress<'_>,
    number: u32,
    converted: &mut Args<ObjectId>,
) -> Result<(), RequestFault>
    requires { HasRoomFor converted.old 1 }
    ensures appends { (version : ℕ) → Appends client version (state objects.now progress.old) converted.old.items (argument.Object number)
        result (state objects.now progress.new) converted.new.items }
    ensures capacity { converted.new.capacity ≡ converted.old.capacity }
    ensures len { IfOk result (λ _. length converted.new.items ≡ length converted.old.items + 1) }
    ensures kinds { progress.new.kinds.now ≡ kinds_after progress.old.kinds.now }
    ensures child { progress.new.child ≡ progress.old.child }
{
    let allows_null = take_kind(progress);
    let asked = take_asked(progress);
    let id = object_argument(client, &objects.map, allows_null, asked, number)?;
    converted.push_reserved(Argument::Object(id));
    Ok(())
}

/// Makes the object of a new id, and puts its id behind what is in `converted`, which has room for it.
fn convert_new_id<U: Drop>(
    client: ClientId,
    version: u32,
    objects: &mut ClientObjects<U>,
    progress: &mut Progress<'_>,
    number: u32,
    converted: &mut Args<ObjectId>,
) -> Result<(), RequestFault>
    requires reserved { progress.old.child ≢ None → objects.old.map.reserved ≡ true }
    requires room { HasRoomFor converted.old 1 }
    ensures appends { Appends client version (state objects.old progress.old) converted.old.items (argument.NewId number)
        result (state objects.new progress.new) converted.new.items }
    ensures capacity { converted.new.capacity ≡ converted.old.capacity }
    ensures len { IfOk result (λ _. length converted.new.items ≡ length converted.old.items + 1) }
    ensures kinds { progress.new.kinds.now ≡ kinds_after progress.old.kinds.now }
    ensures child { IfOk result (λ _. progress.new.child ≡ None) }
    ensures registries { objects.new.registries ≡ objects.old.registries }
{
    take_kind(progress);
    let id = new_id_argument(client, version, objects, progress, number)?;
    converted.push_reserved(Argument::NewId(id));
    Ok(())
}

/// Puts an argument that names no object behind those in `converted`, which has room for it. A text or an array is taken out
/// of the argument.
#[inline(always)]
fn put_plain(arg: &mut Argument<u32, Token>, converted: &mut Args<ObjectId>)
    requires plain { IsSome (plain arg.old) }
    requires room { HasRoomFor converted.old 1 }
    ensures put { IfSome (plain arg.old) (λ a. converted.new.items ≡ converted.old.items ++ a ∷ []) }
    ensures capacity { converted.new.capacity ≡ converted.old.capacity }
{
    match arg {
        Argument::Int(value) => converted.push_reserved(Argument::Int(*value)),
        Argument::Uint(value) => converted.push_reserved(Argument::Uint(*value)),
        Argument::Fixed(value) => converted.push_reserved(Argument::Fixed(*value)),
        Argument::Str(text) => converted.push_reserved(Argument::Str(text.take())),
        Argument::Array(bytes) => {
            let none = ByteArray::new(Vec::new(*converted.allocator()));
            converted.push_reserved(Argument::Array(mem::replace(bytes, none)));
        }
        Argument::Fd(token) => converted.push_reserved(Argument::Fd(*token)),
        Argument::Object(_) | Argument::NewId(_) => unreachable!(),
    }
}

/// Converts an argument of a request, and puts it behind those in `converted`, which has room for it. `version` is the
/// version of the object that the request was sent to. A text or an array is taken out of the argument.
fn convert_one<U: Drop>(
    client: ClientId,
    version: u32,
    objects: &mut ClientObjects<U>,
    progress: &mut Progress<'_>,
    arg: &mut Argument<u32, Token>,
    converted: &mut Args<ObjectId>,
) -> Result<(), RequestFault>
    requires can_make { CanMake progress.old objects.old }
    requires kind { IsNextKind progress.old.kinds.now arg.old }
    requires room { HasRoomFor converted.old 1 }
    ensures appends { Appends client version (state objects.old progress.old) converted.old.items arg.old result (state objects.new progress.new) converted.new.items }
    ensures capacity { converted.new.capacity ≡ converted.old.capacity }
    ensures len { IfOk result (λ _. length converted.new.items ≡ length converted.old.items + 1) }
    ensures registries { objects.new.registries ≡ objects.old.registries }
    ensures can_make { IfOk result (λ _. CanMake progress.new objects.new) }
    ensures kinds { progress.new.kinds.now ≡ kinds_after progress.old.kinds.now }
{
    match arg {
        Argument::Object(number) => {
            convert_object(client, objects, progress, *number, converted)
        }
        Argument::NewId(number) => {
            convert_new_id(client, version, objects, progress, *number, converted)
        }
        other => {
            take_kind(progress);
            put_plain(other, converted);
            Ok(())
        }
    }
}

/// Converts the arguments of a request, from left to right, and returns the object that the request makes. The texts and
/// the arrays are taken out of them.
pub fn convert<U: Drop>(
    client: ClientId,
    version: u32,
    objects: &mut ClientObjects<U>,
    progress: &mut Progress<'_>,
    args: &mut [Argument<u32, Token>],
    converted: &mut Args<ObjectId>,
) -> Result<Option<ObjectId>, RequestFault>
    requires can_make { CanMake progress.old objects.old }
    requires kinds { Matches progress.old.kinds.now args.old }
    requires room { HasRoomFor converted.old (length args.old) }
    ensures capacity { converted.new.capacity ≡ converted.old.capacity }
    ensures registries { objects.new.registries ≡ objects.old.registries }
    ensures converts { MatchResult result
        (λ created. EndsWhole
        (convert client version (state objects.old progress.old) converted.old.items args.old)
        (objects_of objects.new) created converted.new.items)
        (λ wrong. convert client version (state objects.old progress.old) converted.old.items args.old
        ≡ Wrong (length converted.new.items) wrong (objects_of objects.new)) }
{
    for arg in args.iter_mut() {
        convert_one(client, version, objects, progress, arg, converted)?;
    }
    Ok(progress.created)
}
