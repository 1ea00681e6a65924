//! The objects that messages make and end.

ghost use Rattle.std.specs.Prelude.{◌≡◌, IfOk, OnErr, OnSome};
ghost use Rattle.wl_wire.specs.Message.{content};
ghost use Rattle.wl_wire.specs.Table.{message_row};
ghost use Rattle.wl_link.specs.Store.{first_unused};
ghost use Rattle.wl_follow.specs.Inside.Freeing.{StaysOrIsFree};
ghost use Rattle.wl_follow.specs.Objects.{Gives, IsBound, NotesBind, NotesChild, NotesObjects, Puts, first_objects, freed, is_bind, is_deletion, is_own, new_number, object_of, vacated, without_deleted};

use crate::front::Found;
use crate::side::{Fault, Side};
use std::alloc::Global;
use wl_link::{InsertError, Object, ObjectMap, SERVER_ID_LIMIT};
use wl_wire::{
    ANONYMOUS_INTERFACE, Argument, InterfaceId, Message, OutOfMemory, Protocol, Token,
    WL_DISPLAY_INTERFACE, WL_REGISTRY_INTERFACE,
};

/// The number of the display.
const DISPLAY: u32 = 1;

/// What becomes of a bind of an interface that the table lacks.
#[derive(Clone, Copy, Debug, PartialEq, Eq)]
pub enum UnknownInterfaces {
    /// It is a fault.
    Refused,
    /// Its object is anonymous, so that what is sent to it is not known.
    Anonymous,
}

/// Whether it is seen which numbers of the client's are deleted.
#[derive(Clone, Copy, Debug, PartialEq, Eq)]
pub enum Deletions {
    /// The server is followed. The client uses no number again before it is deleted.
    Seen,
    /// Some may be missed. So the client may use each of its numbers again.
    Unseen,
}

/// The objects of a connection on which nothing was said: the display alone, of version 1.
pub fn first_objects(alloc: Global) -> Result<ObjectMap<()>, OutOfMemory>
    ensures { IfOk result (λ objects. objects.store ≡ first_objects) }
{
    let mut objects = ObjectMap::new(alloc);
    let display = Object {
        interface: WL_DISPLAY_INTERFACE,
        version: 1,
        value: (),
    };
    match objects.insert_at(DISPLAY, display) {
        Ok(()) => Ok(objects),
        Err(_) => Err(OutOfMemory),
    }
}

/// Whether the number is one of those that the side gives out. 0, which is nobody's, counts as the client's.
fn is_own(side: Side, number: u32) -> bool
    ensures { result ≡ is_own side number }
{
    match side {
        Side::Client => number < SERVER_ID_LIMIT,
        Side::Server => number >= SERVER_ID_LIMIT,
    }
}

/// Takes out the object that has the number, if there is one. The display stays.
#[tactic(auto, using(crate::proofs::Freed::removed_absent, crate::proofs::Freed::removed_free))]
fn free(objects: &mut ObjectMap<()>, number: u32)
    ensures after { objects.new.store ≡ freed objects.old.store number }
    ensures used { StaysOrIsFree objects.old.store number objects.new.store }
{
    if number != DISPLAY && objects.find(number).is_some() {
        let _gone = objects.remove(number);
    }
}

/// Takes out the object that has the number of a new one, if the server makes that, or its deletions are not seen.
fn vacate(objects: &mut ObjectMap<()>, side: Side, deletions: Deletions, number: u32)
    ensures after { objects.new.store ≡ vacated side deletions objects.old.store number }
    ensures used { StaysOrIsFree objects.old.store number objects.new.store }
{
    if side == Side::Server || deletions == Deletions::Unseen {
        free(objects, number);
    }
}

/// Gives the number to a new object.
fn give(
    objects: &mut ObjectMap<()>,
    number: u32,
    interface: InterfaceId,
    version: u32,
) -> Result<Option<Fault>, OutOfMemory>
    ensures given { IfOk result (λ fault. Gives objects.old.store number interface version fault objects.new.store) }
    ensures kept { OnErr result (objects.new.store ≡ objects.old.store) }
    ensures unused { OnErr result (number ≡ first_unused objects.old.store number) }
{
    let object = Object {
        interface,
        version,
        value: (),
    };
    match objects.insert_at(number, object) {
        Ok(()) => Ok(None),
        Err(InsertError::NotFree) => Ok(Some(Fault::NewId)),
        Err(InsertError::OutOfMemory) => Err(OutOfMemory),
    }
}

/// Puts a new object of this side into the map.
#[tactic(auto, using(crate::proofs::Freed::given_or_stays))]
fn put_object(
    objects: &mut ObjectMap<()>,
    side: Side,
    deletions: Deletions,
    number: u32,
    interface: InterfaceId,
    version: u32,
) -> Result<Option<Fault>, OutOfMemory>
    ensures put { IfOk result (λ fault. Puts side deletions objects.old.store number interface version fault objects.new.store) }
    ensures refused { IfOk result (λ fault. OnSome fault (objects.new.store ≡ objects.old.store)) }
    ensures kept { OnErr result (objects.new.store ≡ objects.old.store) }
{
    if !is_own(side, number) {
        return Ok(Some(Fault::NewId));
    }
    vacate(objects, side, deletions, number);
    give(objects, number, interface, version)
}

/// The interface that a bind names. There may be none if the table lacks it.
fn bound(table: &Protocol, unknown: UnknownInterfaces, name: &[u8]) -> Option<InterfaceId>
    ensures { IsBound table.now unknown name.now result }
{
    match table.find_bytes(name) {
        Some(interface) => Some(interface),
        None if unknown == UnknownInterfaces::Anonymous => Some(ANONYMOUS_INTERFACE),
        None => None,
    }
}

/// Notes what a bind makes: its arguments are a name, the interface, its version and the new object.
fn note_bind(
    table: &Protocol,
    unknown: UnknownInterfaces,
    deletions: Deletions,
    objects: &mut ObjectMap<()>,
    args: &[Argument<u32, Token>],
) -> Result<Option<Fault>, OutOfMemory>
    ensures noted { IfOk result (λ fault. NotesBind table.now unknown deletions objects.old.store args.now fault objects.new.store) }
    ensures refused { IfOk result (λ fault. OnSome fault (objects.new.store ≡ objects.old.store)) }
    ensures kept { OnErr result (objects.new.store ≡ objects.old.store) }
{
    let [
        _,
        Argument::Str(Some(name)),
        Argument::Uint(version),
        Argument::NewId(number),
    ] = args
    else {
        return Ok(Some(Fault::Malformed));
    };
    match bound(table, unknown, name.as_bytes()) {
        Some(interface) => {
            put_object(
                objects,
                Side::Client,
                deletions,
                *number,
                interface,
                *version,
            )
        }
        None => Ok(Some(Fault::UnknownInterface)),
    }
}

/// Forgets the object whose number is free again.
fn note_deleted(objects: &mut ObjectMap<()>, args: &[Argument<u32, Token>])
    ensures { objects.new.store ≡ without_deleted objects.old.store args.now }
{
    if let [Argument::Uint(number)] = args {
        free(objects, *number);
    }
}

/// The first new number among the arguments.
fn new_number(args: &[Argument<u32, Token>]) -> Option<u32>
    ensures { result ≡ new_number args.now }
{
    let mut rest = args;
    while let [arg, others @ ..] = rest {
        if let Argument::NewId(number) = arg {
            return Some(*number);
        }
        rest = others;
    }
    None
}

/// Notes the object of that interface that a message of this side makes.
fn note_child(
    objects: &mut ObjectMap<()>,
    side: Side,
    deletions: Deletions,
    child: InterfaceId,
    version: u32,
    args: &[Argument<u32, Token>],
) -> Result<Option<Fault>, OutOfMemory>
    ensures noted { IfOk result (λ fault. NotesChild side deletions objects.old.store child version args.now fault objects.new.store) }
    ensures refused { IfOk result (λ fault. OnSome fault (objects.new.store ≡ objects.old.store)) }
    ensures kept { OnErr result (objects.new.store ≡ objects.old.store) }
{
    match new_number(args) {
        Some(number) => put_object(objects, side, deletions, number, child, version),
        None => Ok(None),
    }
}

/// Whether a message of this side to an object of this interface is the request `wl_registry.bind`.
fn is_bind(side: Side, interface: InterfaceId) -> bool
    ensures { result ≡ is_bind side interface }
{
    match side {
        Side::Client => interface == WL_REGISTRY_INTERFACE,
        Side::Server => false,
    }
}

/// Whether it is the event `wl_display.delete_id`.
fn is_deletion(side: Side, interface: InterfaceId, opcode: u16) -> bool
    ensures { result ≡ is_deletion side interface opcode }
{
    match side {
        Side::Client => false,
        Side::Server => interface == WL_DISPLAY_INTERFACE && opcode == 1,
    }
}

/// Notes the objects that a message makes or ends. The answer is why they cannot be noted; then they are as before.
///
/// The error is `OutOfMemory`, at a new number that was never in use. Then nothing is noted.
pub fn note_objects(
    table: &Protocol,
    unknown: UnknownInterfaces,
    deletions: Deletions,
    objects: &mut ObjectMap<()>,
    found: Found,
    message: &Message<u32, Token>,
) -> Result<Option<Fault>, OutOfMemory>
    ensures noted { IfOk result (λ fault. NotesObjects table.now unknown found.entry.side deletions (object_of found.entry.interface found.entry.version) (message_row found.entry.desc.now)
        (content message.now) objects.old.store fault objects.new.store) }
    ensures refused { IfOk result (λ fault. OnSome fault (objects.new.store ≡ objects.old.store)) }
    ensures kept { OnErr result (objects.new.store ≡ objects.old.store) }
{
    let args = message.args.as_slice();
    if is_bind(found.side, found.interface) {
        return note_bind(table, unknown, deletions, objects, args);
    }
    if is_deletion(found.side, found.interface, message.opcode) {
        note_deleted(objects, args);
        return Ok(None);
    }
    match found.desc.child_interface {
        Some(child) => note_child(objects, found.side, deletions, child, found.version, args),
        None => Ok(None),
    }
}
