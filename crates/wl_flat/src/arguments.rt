//! Arguments of messages, from flat structs and into memory that the host lends.

ghost use Rattle.std.specs.Prelude.{◌≡◌, ◌+◌, ◌≤◌, ◌↔◌, ◌⊎◌, ◌∷◌, ◌++◌, [], Some, IfErr, IfOk, IsTrue, OnErr, OnOk, false, length, min, replicate, true};
ghost use Rattle.std.specs.List.{count_by};
ghost use Rattle.wl_flat.specs.declared.status.Status.TheVariants as status;
ghost use Rattle.wl_flat.specs.Arguments.{IsUnread, all_bytes, argument_of, arguments_of, array_in, bytes_of, descriptor_given, descriptors_given, flat_argument, flat_arguments, has_zero, is_descriptor, part_of, queue_after, queue_after_all, string_in, written_at, zeros_behind_array, zeros_behind_string};
ghost use Rattle.wl_flat.specs.Descriptors.{IsLonger, put_in, token_after};
ghost use Rattle.wl_flat.specs.Flat.{count_number, flat_bytes, flat_object, over_front};

use crate::descriptors::DescriptorQueue;
use crate::flat::{FlatArgument, FlatObjectId, count_number, kind};
use crate::status::Status;
use smallvec::SmallVec;
use std::alloc::Global;
use std::mem;
use wl_wire::{Argument, ByteArray, CString, INLINE_ARGS, OutOfMemory, Token};

/// The arguments of a message of a session whose object ids are of the type `Id`.
pub type Arguments<Id> = SmallVec<Argument<Id, Token>, INLINE_ARGS>;

/// The core of a session, as far as the flat form of its objects needs it.
pub trait Objects<Id, Session> {
    ghost use Rattle.std.specs.Prelude.{ℕ};
    ghost use Rattle.wl_flat.specs.declared.flat.FlatObjectId.{FlatObjectId};

    /// An id as a flat struct.
    ghost flat_of: { Id → FlatObjectId };

    /// The program's data of an object; 0 if it has none, or if the id names none.
    ghost data_of: { Self → Id → ℕ };

    /// The id as a flat struct.
    fn flat(&self, id: &Id) -> FlatObjectId
        ensures { result ≡ flat_of id.now };

    /// The program's data of the object; 0 if it has none, or if the id names none.
    fn data_or_zero(&self, id: &Id) -> u64
        ensures { result ≡ data_of self.now id.now };
}

/// An object id that has a flat form.
pub trait FromFlat: Sized {
    ghost use Rattle.wl_flat.specs.declared.flat.FlatObjectId.{FlatObjectId};

    /// The id that a flat struct stands for.
    ghost stands_for: { FlatObjectId → Self };

    /// The id that the flat struct stands for.
    fn from_flat(flat: &FlatObjectId) -> Self
        ensures { result ≡ stands_for flat.now };
}

impl FromFlat for wl_server_client::ids::object_id::ObjectId {
    ghost use Rattle.wl_flat.specs.Flat.{resource_of};

    ghost stands_for = { resource_of };

    fn from_flat(flat: &FlatObjectId) -> Self {
        flat.resource()
    }
}

impl FromFlat for wl_client::ObjectId {
    ghost use Rattle.wl_flat.specs.Flat.{proxy_of};

    ghost stands_for = { proxy_of };

    fn from_flat(flat: &FlatObjectId) -> Self {
        flat.proxy()
    }
}

/// What is needed of lent memory.
#[derive(Clone, Copy)]
pub struct Needs {
    /// How many arguments there are.
    pub arguments: usize,
    /// How many bytes the strings and arrays take together, with the zeros behind them. It saturates at `usize::MAX`.
    pub bytes: usize,
}

impl Needs {
    /// What these arguments need.
    pub fn of<Id>(args: &[Argument<Id, Token>]) -> Self
        ensures arguments { result.arguments ≡ length args.now }
        ensures bytes { result.bytes ≡ min (length (all_bytes args.now)) usize.MAX }
    {
        let mut bytes = 0usize;
        for arg in args {
            if takes_bytes(arg) {
                bytes = bytes.saturating_add(length_of(arg));
            }
        }
        Needs {
            arguments: args.len(),
            bytes,
        }
    }

    /// Whether the lent memory has room for it.
    pub fn fit(&self, arguments: &[FlatArgument], bytes: &[u8]) -> bool
        ensures { IsTrue result ↔ ((self.now.arguments ≤ length arguments.now) × (self.now.bytes ≤ length bytes.now)) }
    {
        self.arguments <= arguments.len() && self.bytes <= bytes.len()
    }
}

/// How many zeros follow a string of that length: up to the next multiple of eight, and one at least.
pub fn zeros_behind_string(length: usize) -> usize
    ensures { result ≡ zeros_behind_string length }
{
    8 - length % 8
}

/// How many zeros follow an array of that length: up to the next multiple of eight.
pub fn zeros_behind_array(length: usize) -> usize
    ensures { result ≡ zeros_behind_array length }
{
    (8 - length % 8) % 8
}

/// Whether the argument is a string or an array.
fn takes_bytes<Id>(arg: &Argument<Id, Token>) -> bool
    ensures { result ≡ false → bytes_of arg.now ≡ [] }
{
    matches!(arg, Argument::Str(Some(_)) | Argument::Array(_))
}

/// How many bytes the argument takes, if it is a string or an array, with the zeros behind it. It saturates at `usize::MAX`.
pub fn length_of<Id>(arg: &Argument<Id, Token>) -> usize
    ensures { result ≡ min (length (bytes_of arg.now)) usize.MAX }
{
    let (length, zeros) = match arg {
        Argument::Str(Some(text)) => {
            let length = text.as_bytes().len();
            (length, zeros_behind_string(length))
        }
        Argument::Array(array) => {
            let length = array.as_slice().len();
            (length, zeros_behind_array(length))
        }
        _ => (0, 0),
    };
    length.saturating_add(zeros)
}

/// Whether the argument is a descriptor.
fn is_descriptor<Id>(arg: &Argument<Id, Token>) -> bool
    ensures { result ≡ is_descriptor arg.now }
{
    matches!(arg, Argument::Fd(_))
}

/// How many of the arguments are descriptors.
pub fn descriptor_count<Id>(args: &[Argument<Id, Token>]) -> usize
    ensures { result ≡ count_by is_descriptor args.now }
{
    args.iter().filter(|arg| is_descriptor(*arg)).count()
}

/// Copies the bytes of a string or an array to the place `at` of the lent bytes, with so many zeros behind them. There is room
/// for all of it.
pub fn write_bytes(
    number: u32,
    from: &[u8],
    zeros: usize,
    bytes: &mut [u8],
    at: usize,
) -> FlatArgument
    requires { at + length (from.now ++ replicate zeros 0) ≤ length bytes.old }
    ensures flat { result ≡ flat_bytes number (count_number at) (count_number (length from.now)) }
    ensures bytes { bytes.new ≡ written_at at (from.now ++ replicate zeros 0) bytes.old }
{
    let end = at + from.len();
    bytes[at..end].copy_from_slice(from);
    bytes[end..end + zeros].fill(0);
    FlatArgument::of_bytes(number, count_number(at), count_number(from.len()))
}

/// The object as a flat struct, with its data.
fn flat_object<Id, Session, O: Objects<Id, Session>>(
    objects: &O,
    number: u32,
    id: &Id,
) -> FlatArgument
    ensures { result ≡ flat_object number (O.flat_of id.now) (O.data_of objects.now id.now) }
{
    FlatArgument::of_object(number, objects.flat(id), objects.data_or_zero(id))
}

/// The argument as a flat struct. The bytes of a string or an array go to the place `at` of the lent ones, which have room for
/// them. A descriptor is taken out.
#[tactic(auto, using(crate::proofs::Flattening::written_nothing))]
fn flat_argument<Id, Session, O: Objects<Id, Session>>(
    objects: &O,
    arg: &Argument<Id, Token>,
    descriptors: &mut DescriptorQueue,
    bytes: &mut [u8],
    at: usize,
) -> FlatArgument
    requires { at + length (bytes_of arg.now) ≤ length bytes.old }
    ensures flat { result ≡ flat_argument O.flat_of (O.data_of objects.now) descriptors.old at arg.now }
    ensures descriptors { descriptors.new ≡ queue_after descriptors.old arg.now }
    ensures bytes { bytes.new ≡ written_at at (bytes_of arg.now) bytes.old }
{
    match arg {
        Argument::Int(value) => FlatArgument::of_number(kind::INT, *value),
        Argument::Uint(value) => FlatArgument::of_number(kind::UINT, value.cast_signed()),
        Argument::Fixed(value) => FlatArgument::of_number(kind::FIXED, *value),
        Argument::Str(None) => FlatArgument::of_number(kind::NULL_STRING, 0),
        Argument::Str(Some(text)) => {
            let from = text.as_bytes();
            write_bytes(
                kind::STRING,
                from,
                zeros_behind_string(from.len()),
                bytes,
                at,
            )
        }
        Argument::Object(id) => flat_object(objects, kind::OBJECT, id),
        Argument::NewId(id) => flat_object(objects, kind::NEW_ID, id),
        Argument::Array(array) => {
            let from = array.as_slice();
            write_bytes(kind::ARRAY, from, zeros_behind_array(from.len()), bytes, at)
        }
        Argument::Fd(token) => {
            let descriptor = descriptors.take_out(*token).unwrap_or(NO_DESCRIPTOR);
            FlatArgument::of_number(kind::DESCRIPTOR, descriptor)
        }
    }
}

/// The number that is no descriptor. It stands for a token that names none, which the core never gives.
const NO_DESCRIPTOR: i32 = -1;

/// Writes the argument to `place` as a flat struct. The bytes of a string or an array go to the place `at` of the lent ones, which
/// have room for them. A descriptor is taken out. Returns where the bytes of the next argument go.
///
/// Most arguments are numbers: they are written without a call.
#[inline(always)]
#[tactic(auto, using(crate::proofs::Flattening::written_nothing))]
fn write_argument<Id, Session, O: Objects<Id, Session>>(
    objects: &O,
    arg: &Argument<Id, Token>,
    descriptors: &mut DescriptorQueue,
    place: &mut FlatArgument,
    bytes: &mut [u8],
    at: usize,
) -> usize
    requires { at + length (bytes_of arg.now) ≤ length bytes.old }
    ensures flat { place.new ≡ flat_argument O.flat_of (O.data_of objects.now) descriptors.old at arg.now }
    ensures descriptors { descriptors.new ≡ queue_after descriptors.old arg.now }
    ensures bytes { bytes.new ≡ written_at at (bytes_of arg.now) bytes.old }
    ensures next { result ≡ at + length (bytes_of arg.now) }
{
    match arg {
        Argument::Int(value) => {
            *place = FlatArgument::of_number(kind::INT, *value);
            at
        }
        Argument::Uint(value) => {
            *place = FlatArgument::of_number(kind::UINT, value.cast_signed());
            at
        }
        Argument::Fixed(value) => {
            *place = FlatArgument::of_number(kind::FIXED, *value);
            at
        }
        _ => write_other(objects, arg, descriptors, place, bytes, at),
    }
}

/// The same for an argument of any type.
#[inline(never)]
fn write_other<Id, Session, O: Objects<Id, Session>>(
    objects: &O,
    arg: &Argument<Id, Token>,
    descriptors: &mut DescriptorQueue,
    place: &mut FlatArgument,
    bytes: &mut [u8],
    at: usize,
) -> usize
    requires { at + length (bytes_of arg.now) ≤ length bytes.old }
    ensures flat { place.new ≡ flat_argument O.flat_of (O.data_of objects.now) descriptors.old at arg.now }
    ensures descriptors { descriptors.new ≡ queue_after descriptors.old arg.now }
    ensures bytes { bytes.new ≡ written_at at (bytes_of arg.now) bytes.old }
    ensures next { result ≡ at + length (bytes_of arg.now) }
{
    *place = flat_argument(objects, arg, descriptors, bytes, at);
    at + length_of(arg)
}

/// Writes the arguments to the front of the lent memory, which has room for them. Their descriptors are taken out.
pub fn write_arguments<Id, Session, O: Objects<Id, Session>>(
    objects: &O,
    args: &[Argument<Id, Token>],
    descriptors: &mut DescriptorQueue,
    arguments: &mut [FlatArgument],
    bytes: &mut [u8],
)
    requires room { length args.now ≤ length arguments.old }
    requires room_for_bytes { length (all_bytes args.now) ≤ length bytes.old }
    ensures arguments { arguments.new ≡ over_front (flat_arguments O.flat_of (O.data_of objects.now) descriptors.old 0 args.now) arguments.old }
    ensures bytes { bytes.new ≡ over_front (all_bytes args.now) bytes.old }
    ensures descriptors { descriptors.new ≡ queue_after_all descriptors.old args.now }
{
    let mut count = 0usize;
    let mut at = 0usize;
    for arg in args {
        at = write_argument(objects, arg, descriptors, &mut arguments[count], bytes, at);
        count += 1;
    }
}

/// A copy of the bytes of a string or an array, in the memory of `spare`, which grows if it is too small.
///
/// The status is `InvalidInput` if they are not all in the bytes that were passed, and `OutOfMemory`.
fn copy_bytes(spare: Vec<u8>, arg: &FlatArgument, bytes: &[u8]) -> Result<Vec<u8>, Status>
    ensures ok { IfOk result (λ copy. part_of bytes.now arg.now ≡ Some copy.items) }
    ensures err { IfErr result (λ s. IsUnread s (part_of bytes.now arg.now)) }
{
    let from = arg.at as usize;
    let Some(part) = bytes.get(from..from + arg.length as usize) else {
        return Err(Status::InvalidInput);
    };
    let mut copy = spare;
    copy.clear();
    match copy.extend_from_slice(part) {
        Ok(()) => Ok(copy),
        Err(_) => Err(Status::OutOfMemory),
    }
}

/// A string with a copy of these bytes.
///
/// The status is `InvalidInput` if one of them is zero.
fn string_of(bytes: Vec<u8>) -> Result<CString, Status>
    ensures ok { IfOk result (λ text. (text ≡ bytes.items) × (has_zero bytes.items ≡ false)) }
    ensures err { IfErr result (λ s. (s ≡ status.InvalidInput) × (has_zero bytes.items ≡ true)) }
{
    match CString::new(bytes) {
        Ok(text) => Ok(text),
        Err(_) => Err(Status::InvalidInput),
    }
}

/// A text for a person, which the host passes on its own.
///
/// The status is `OutOfMemory`, or `InvalidInput` if one of the bytes is zero.
pub fn text_of(alloc: Global, bytes: &[u8]) -> Result<CString, Status>
    ensures ok { IfOk result (λ text. (text ≡ bytes.now) × (has_zero bytes.now ≡ false)) }
    ensures err { IfErr result (λ s. ((s ≡ status.InvalidInput) × (has_zero bytes.now ≡ true)) ⊎ (s ≡ status.OutOfMemory)) }
{
    match Vec::from_slice(alloc, bytes) {
        Ok(copy) => string_of(copy),
        Err(_) => Err(Status::OutOfMemory),
    }
}

/// The string that the flat struct names.
///
/// The status is `InvalidInput` if its bytes were not all passed or one of them is zero, and `OutOfMemory`.
fn read_string<Id>(
    spare: Vec<u8>,
    arg: &FlatArgument,
    bytes: &[u8],
) -> Result<Argument<Id, Token>, Status>
    ensures ok { IfOk result (λ a. string_in (part_of bytes.now arg.now) ≡ Some a) }
    ensures err { IfErr result (λ s. IsUnread s (string_in {Id = Id} (part_of bytes.now arg.now))) }
{
    let text = string_of(copy_bytes(spare, arg, bytes)?)?;
    Ok(Argument::Str(Some(text)))
}

/// The array that the flat struct names.
///
/// The status is `InvalidInput` if its bytes were not all passed, and `OutOfMemory`.
fn read_array<Id>(
    spare: Vec<u8>,
    arg: &FlatArgument,
    bytes: &[u8],
) -> Result<Argument<Id, Token>, Status>
    ensures ok { IfOk result (λ a. array_in (part_of bytes.now arg.now) ≡ Some a) }
    ensures err { IfErr result (λ s. IsUnread s (array_in {Id = Id} (part_of bytes.now arg.now))) }
{
    let array = copy_bytes(spare, arg, bytes)?;
    Ok(Argument::Array(ByteArray::new(array)))
}

/// Puts the descriptor in, and returns its token.
fn put_in(descriptors: &mut DescriptorQueue, descriptor: i32) -> Result<Token, OutOfMemory>
    ensures token { IfOk result (λ t. t ≡ token_after descriptors.old (length descriptors.old.held)) }
    ensures ok { OnOk result (descriptors.new ≡ put_in descriptors.old (descriptor ∷ [])) }
    ensures err { OnErr result (descriptors.new ≡ descriptors.old) }
{
    let token = descriptors.next_token();
    descriptors.put_in(&[descriptor])?;
    Ok(token)
}

/// Takes the memory of a string or an array out of `place`. There is none in another argument.
fn take_memory<Id: Drop>(place: &mut Argument<Id, Token>, alloc: Global) -> Vec<u8> {
    match mem::replace(place, Argument::Int(0)) {
        Argument::Str(Some(text)) => text.into_bytes(),
        Argument::Array(array) => array.into_vec(),
        _ => Vec::new(alloc),
    }
}

/// The argument that the flat struct stands for. Its descriptor is put in. The memory of what is at `place` is used for its bytes.
///
/// The status is `InvalidInput` if the flat struct cannot be read, and `OutOfMemory`. Then no descriptor was put in.
#[tactic(auto, using(crate::proofs::Flattening::put_nothing))]
fn read_argument<Id: FromFlat + Drop>(
    place: &mut Argument<Id, Token>,
    arg: &FlatArgument,
    bytes: &[u8],
    descriptors: &mut DescriptorQueue,
    alloc: Global,
) -> Result<Argument<Id, Token>, Status>
    ensures ok { IfOk result (λ a. argument_of Id.stands_for bytes.now (token_after descriptors.old (length descriptors.old.held)) arg.now ≡ Some a) }
    ensures put_in { OnOk result (descriptors.new ≡ put_in descriptors.old (descriptor_given arg.now)) }
    ensures err { OnErr result (descriptors.new ≡ descriptors.old) }
    ensures why { IfErr result (λ s. IsUnread s (argument_of Id.stands_for bytes.now (token_after descriptors.old (length descriptors.old.held)) arg.now)) }
{
    match arg.kind {
        kind::INT => Ok(Argument::Int(arg.value)),
        kind::UINT => Ok(Argument::Uint(arg.value.cast_unsigned())),
        kind::FIXED => Ok(Argument::Fixed(arg.value)),
        kind::STRING => read_string(take_memory(place, alloc), arg, bytes),
        kind::OBJECT => Ok(Argument::Object(Id::from_flat(&arg.object))),
        kind::NEW_ID => Ok(Argument::NewId(Id::from_flat(&arg.object))),
        kind::ARRAY => read_array(take_memory(place, alloc), arg, bytes),
        kind::DESCRIPTOR => Ok(Argument::Fd(put_in(descriptors, arg.value)?)),
        kind::NULL_STRING => Ok(Argument::Str(None)),
        _ => Err(Status::InvalidInput),
    }
}

/// Reads the argument that the flat struct stands for in place of the one at `place`. Its descriptor is put in.
///
/// The status is `InvalidInput` if the flat struct cannot be read, and `OutOfMemory`. Then no descriptor was put in.
///
/// Most arguments are numbers: they are read without a call.
#[inline(always)]
#[tactic(auto, using(crate::proofs::Flattening::put_nothing))]
fn fill_argument<Id: FromFlat + Drop>(
    place: &mut Argument<Id, Token>,
    arg: &FlatArgument,
    bytes: &[u8],
    descriptors: &mut DescriptorQueue,
    alloc: Global,
) -> Result<(), Status>
    ensures ok { OnOk result (argument_of Id.stands_for bytes.now (token_after descriptors.old (length descriptors.old.held)) arg.now ≡ Some place.new) }
    ensures put_in { OnOk result (descriptors.new ≡ put_in descriptors.old (descriptor_given arg.now)) }
    ensures err { OnErr result (descriptors.new ≡ descriptors.old) }
    ensures why { IfErr result (λ s. IsUnread s (argument_of Id.stands_for bytes.now (token_after descriptors.old (length descriptors.old.held)) arg.now)) }
{
    match arg.kind {
        kind::INT => {
            *place = Argument::Int(arg.value);
            Ok(())
        }
        kind::UINT => {
            *place = Argument::Uint(arg.value.cast_unsigned());
            Ok(())
        }
        kind::FIXED => {
            *place = Argument::Fixed(arg.value);
            Ok(())
        }
        _ => fill_other(place, arg, bytes, descriptors, alloc),
    }
}

/// The same for an argument of any type.
#[inline(never)]
fn fill_other<Id: FromFlat + Drop>(
    place: &mut Argument<Id, Token>,
    arg: &FlatArgument,
    bytes: &[u8],
    descriptors: &mut DescriptorQueue,
    alloc: Global,
) -> Result<(), Status>
    ensures ok { OnOk result (argument_of Id.stands_for bytes.now (token_after descriptors.old (length descriptors.old.held)) arg.now ≡ Some place.new) }
    ensures put_in { OnOk result (descriptors.new ≡ put_in descriptors.old (descriptor_given arg.now)) }
    ensures err { OnErr result (descriptors.new ≡ descriptors.old) }
    ensures why { IfErr result (λ s. IsUnread s (argument_of Id.stands_for bytes.now (token_after descriptors.old (length descriptors.old.held)) arg.now)) }
{
    match read_argument(place, arg, bytes, descriptors, alloc) {
        Ok(argument) => {
            *place = argument;
            Ok(())
        }
        Err(status) => Err(status),
    }
}

/// Reads the arguments that the flat structs stand for, each in place of one that was there. Their descriptors are put in.
///
/// The status is `InvalidInput` if a flat struct cannot be read, and `OutOfMemory`. Then some of the descriptors were put in.
fn fill_each<Id: FromFlat + Drop>(
    places: &mut [Argument<Id, Token>],
    arguments: &[FlatArgument],
    bytes: &[u8],
    descriptors: &mut DescriptorQueue,
    alloc: Global,
) -> Result<(), Status>
    requires { length places.old ≡ length arguments.now }
    ensures ok { OnOk result (arguments_of Id.stands_for bytes.now descriptors.old arguments.now ≡ Some places.new) }
    ensures put_in { OnOk result (descriptors.new ≡ put_in descriptors.old (descriptors_given arguments.now)) }
    ensures longer { IsLonger descriptors.old descriptors.new }
    ensures why { IfErr result (λ s. IsUnread s (arguments_of Id.stands_for bytes.now descriptors.old arguments.now)) }
{
    let mut count = 0usize;
    for arg in arguments {
        match fill_argument(&mut places[count], arg, bytes, descriptors, alloc) {
            Ok(()) => {}
            Err(status) => return Err(status),
        }
        count += 1;
    }
    Ok(())
}

/// Gives the list this length: arguments at its end are dropped, or numbers are appended.
///
/// The status is `OutOfMemory`.
#[inline(never)]
fn set_length<Id: Drop>(args: &mut Arguments<Id>, count: usize) -> Result<(), Status>
    ensures length { OnOk result (length args.new.items ≡ count) }
    ensures err { IfErr result (λ s. s ≡ status.OutOfMemory) }
{
    args.truncate(count);
    let missing = count - args.len();
    if args.reserve(missing).is_err() {
        return Err(Status::OutOfMemory);
    }
    for _place in 0..missing {
        args.push_reserved(Argument::Int(0));
    }
    Ok(())
}

/// Reads the arguments that the flat structs stand for in place of those that were there. Their descriptors are put in.
///
/// The status is `InvalidInput` if a flat struct cannot be read, and `OutOfMemory`. Then some of the descriptors were put in.
fn fill_arguments<Id: FromFlat + Drop>(
    args: &mut Arguments<Id>,
    arguments: &[FlatArgument],
    bytes: &[u8],
    descriptors: &mut DescriptorQueue,
) -> Result<(), Status>
    ensures ok { OnOk result (arguments_of Id.stands_for bytes.now descriptors.old arguments.now ≡ Some args.new.items) }
    ensures put_in { OnOk result (descriptors.new ≡ put_in descriptors.old (descriptors_given arguments.now)) }
    ensures longer { IsLonger descriptors.old descriptors.new }
    ensures why { IfErr result (λ s. IsUnread s (arguments_of Id.stands_for bytes.now descriptors.old arguments.now)) }
{
    let alloc = *args.allocator();
    if args.len() != arguments.len() {
        if let Err(status) = set_length(args, arguments.len()) {
            return Err(status);
        }
    }
    fill_each(args.as_mut_slice(), arguments, bytes, descriptors, alloc)
}

/// Reads the arguments that the flat structs stand for in place of those that were there, and puts their descriptors in.
/// Returns how many these are.
///
/// The status is `InvalidInput` if a flat struct cannot be read, and `OutOfMemory`. Then no descriptor was put in.
pub fn read_arguments<Id: FromFlat + Drop>(
    args: &mut Arguments<Id>,
    arguments: &[FlatArgument],
    bytes: &[u8],
    descriptors: &mut DescriptorQueue,
) -> Result<usize, Status>
    ensures ok { OnOk result (arguments_of Id.stands_for bytes.now descriptors.old arguments.now ≡ Some args.new.items) }
    ensures put_in { OnOk result (descriptors.new ≡ put_in descriptors.old (descriptors_given arguments.now)) }
    ensures count { IfOk result (λ count. count ≡ length (descriptors_given arguments.now)) }
    ensures err { OnErr result (descriptors.new ≡ descriptors.old) }
    ensures why { IfErr result (λ s. IsUnread s (arguments_of Id.stands_for bytes.now descriptors.old arguments.now)) }
{
    let before = descriptors.held();
    let answer = fill_arguments(args, arguments, bytes, descriptors);
    let count = descriptors.held() - before;
    match answer {
        Ok(()) => Ok(count),
        Err(status) => {
            descriptors.take_back(count);
            Err(status)
        }
    }
}
