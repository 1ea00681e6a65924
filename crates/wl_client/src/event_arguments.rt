//! The arguments of an event, and what they do to the objects of a session.
//!
//! An event has numbers in place of objects. They are *converted* to object ids. A new id makes an object.

ghost use Rattle.std.specs.Prelude.{◌≡◌, ◌≢◌, ◌+◌, [], ◌∷◌, true, None, Ok, Err, IfOk, MatchResult, length, reverse};
ghost use Rattle.smallvec.specs.SmallVec.{HasRoomFor};
ghost use Rattle.wl_wire.specs.MessageRows.{next_interface, rest_of};
ghost use Rattle.wl_client.specs.Events.{Wrong, convert, object_argument};
ghost use Rattle.wl_client.specs.Inside.Conversion.{CanMake, Converts, EndsWhole, MakesObject, objects_in, state};

use crate::event_fault::EventFault;
use crate::object_id::ObjectId;
use crate::objects::{Kept, id_at, vacate};
use wl_link::{InsertError, Object, ObjectMap, SERVER_ID_LIMIT};
use wl_wire::{
    ANONYMOUS_INTERFACE, Args, Argument, InterfaceId, Token, same_interface_or_anonymous,
};

/// What has to be known of the object that the event is for (its *receiver*), to make a new object.
#[derive(Clone, Copy)]
pub struct Receiver {
    /// The receiver's version, which the new object gets too.
    pub version: u32,
    /// Whether the client has destroyed the receiver.
    pub client_destroyed: bool,
}

/// How far the arguments of an event were converted.
#[derive(Clone, Copy)]
pub struct Progress<'a> {
    /// The interfaces that the table asks for, of the object arguments that are still to come.
    pub asked: &'a [InterfaceId],
    /// The interface of the object that the event is still to make.
    pub child: Option<InterfaceId>,
    /// The object that the event made.
    pub created: Option<ObjectId>,
}

/// The id of the object with this number; the null id for the number 0.
///
/// The error says that there is no such object, or that its interface is not `asked`.
fn object_argument<U: Drop>(
    objects: &ObjectMap<Kept<U>>,
    asked: InterfaceId,
    number: u32,
) -> Result<ObjectId, EventFault>
    ensures { result ≡ object_argument objects.now.store asked number }
{
    if number == 0 {
        return Ok(ObjectId::null());
    }
    let Some(object) = objects.find(number) else {
        return Err(EventFault::UnknownObject(number));
    };
    if !same_interface_or_anonymous(asked, object.interface) {
        return Err(EventFault::WrongInterface(number, asked, object.interface));
    }
    Ok(id_at(number, object))
}

/// Makes the object of a new id, and returns its id.
///
/// `None` if the server may make none at that number, or if each serial was given out. Then nothing is changed.
fn make_object<U: Drop>(
    objects: &mut ObjectMap<Kept<U>>,
    last_serial: &mut u64,
    receiver: Receiver,
    interface: InterfaceId,
    number: u32,
) -> Option<ObjectId>
    requires { objects.old.reserved ≡ true }
    ensures { MakesObject (objects_in objects.old last_serial.old) receiver.version receiver.client_destroyed interface number result
        (objects_in objects.new last_serial.new) }
{
    if number < SERVER_ID_LIMIT || *last_serial == u64::MAX {
        return None;
    }
    vacate(objects, number);
    let serial = *last_serial + 1;
    let object = Object {
        interface,
        version: receiver.version,
        value: Kept {
            serial,
            user_data: None,
            client_destroyed: receiver.client_destroyed,
            id_deleted: false,
        },
    };
    match objects.insert_at(number, object) {
        Ok(()) => {
            *last_serial = serial;
            Some(ObjectId::from_parts(number, serial, interface))
        }
        Err(InsertError::NotFree) => None,
        Err(InsertError::OutOfMemory) => unreachable!(),
    }
}

/// Takes the next interface that the table asks for; the anonymous interface if there is none.
fn take_asked(progress: &mut Progress<'_>) -> InterfaceId
    ensures next { result ≡ next_interface progress.old.asked.now }
    ensures rest { progress.new.asked.now ≡ rest_of progress.old.asked.now }
    ensures child { progress.new.child ≡ progress.old.child }
    ensures created { progress.new.created ≡ progress.old.created }
{
    match progress.asked.split_first() {
        Some((next, rest)) => {
            progress.asked = rest;
            *next
        }
        None => ANONYMOUS_INTERFACE,
    }
}

/// Converts one argument of an event. The error says what is wrong with it.
fn convert_one<U: Drop>(
    objects: &mut ObjectMap<Kept<U>>,
    last_serial: &mut u64,
    receiver: Receiver,
    progress: &mut Progress<'_>,
    arg: Argument<u32, Token>,
) -> Result<Argument<ObjectId, Token>, EventFault>
    requires { CanMake progress.old (arg ∷ []) objects.old }
    ensures converts { Converts receiver.version receiver.client_destroyed (state objects.old last_serial.old progress.old) arg result
        (state objects.new last_serial.new progress.new) }
    ensures reserved { IfOk result (λ _. progress.new.child ≢ None → (progress.old.child ≢ None) × (objects.new.reserved ≡ objects.old.reserved)) }
{
    match arg {
        Argument::Int(value) => Ok(Argument::Int(value)),
        Argument::Uint(value) => Ok(Argument::Uint(value)),
        Argument::Fixed(value) => Ok(Argument::Fixed(value)),
        Argument::Str(text) => Ok(Argument::Str(text)),
        Argument::Array(bytes) => Ok(Argument::Array(bytes)),
        Argument::Fd(token) => Ok(Argument::Fd(token)),
        Argument::Object(number) => {
            let asked = take_asked(progress);
            let id = object_argument(objects, asked, number)?;
            Ok(Argument::Object(id))
        }
        Argument::NewId(number) => {
            let Some(interface) = progress.child else {
                return Err(EventFault::InvalidNewId(number, ANONYMOUS_INTERFACE));
            };
            match make_object(objects, last_serial, receiver, interface, number) {
                Some(id) => {
                    progress.child = None;
                    progress.created = Some(id);
                    Ok(Argument::NewId(id))
                }
                None => Err(EventFault::InvalidNewId(number, interface)),
            }
        }
    }
}

/// Converts the arguments of an event, from left to right, and appends them to `converted`. The object that the event makes
/// is in `progress` then.
///
/// `args` has the last argument first. The arguments are taken out of it. The error says what is wrong with the first
/// argument that cannot be converted.
pub fn convert<U: Drop>(
    objects: &mut ObjectMap<Kept<U>>,
    last_serial: &mut u64,
    receiver: Receiver,
    progress: &mut Progress<'_>,
    args: &mut Args<u32>,
    converted: &mut Args<ObjectId>,
) -> Result<(), EventFault>
    requires can_make { CanMake progress.old (reverse args.old.items) objects.old }
    requires room { HasRoomFor converted.old (length args.old.items) }
    ensures capacity { converted.new.capacity ≡ converted.old.capacity }
    ensures place { args.new.capacity ≡ args.old.capacity }
    ensures converts { MatchResult result
        (λ _. EndsWhole
        (convert receiver.version receiver.client_destroyed (state objects.old last_serial.old progress.old) converted.old.items (reverse args.old.items))
        (objects_in objects.new last_serial.new) progress.new.created converted.new.items)
        (λ wrong. convert receiver.version receiver.client_destroyed (state objects.old last_serial.old progress.old) converted.old.items (reverse args.old.items)
        ≡ Wrong wrong (objects_in objects.new last_serial.new)) }
{
    while let Some(arg) = args.pop() {
        let converted_arg = convert_one(objects, last_serial, receiver, progress, arg)?;
        converted.push_reserved(converted_arg);
    }
    Ok(())
}
