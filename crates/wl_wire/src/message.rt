//! A message: a request or an event.

ghost use Rattle.std.specs.Prelude.{◌≡◌, ◌≤◌, [], length, IfOk, IfErr, IsOk};
ghost use Rattle.wl_wire.specs.MapFd.{MapsFd, MapsFds};

use crate::argument::{Argument, Token};
use smallvec::SmallVec;
use std::alloc::AllocError;

/// How many arguments a message holds without an allocation.
pub const INLINE_ARGS: usize = 4;

/// The arguments of a message, in order. Up to four of them (`INLINE_ARGS`) need no memory.
pub type Args<Id> = SmallVec<Argument<Id, Token>, INLINE_ARGS>;

/// A request or an event. `Id` is the type of object ids, and `Fd` that of file descriptors.
#[derive(Debug, PartialEq, Eq, Drop)]
pub struct Message<Id, Fd> {
    /// The object that the request is sent to, or that sends the event.
    pub sender_id: Id,
    /// The opcode: which request or event of that object's interface it is.
    pub opcode: u16,
    /// The arguments, in the order of the signature.
    pub args: SmallVec<Argument<Id, Fd>, INLINE_ARGS>,
}

/// The argument and the closure again. A file descriptor is replaced by what the closure gives for it.
fn map_argument<Id, Fd, T, F: FnMut(Fd) -> T>(
    mut f: F,
    arg: Argument<Id, Fd>,
) -> (F, Argument<Id, T>)
    requires callable { F.IsAlwaysCallable f }
    ensures mapped { MapsFd F.step f arg result.1 result.0 }
    ensures callable { F.IsAlwaysCallable result.0 }
{
    match arg {
        Argument::Int(value) => (f, Argument::Int(value)),
        Argument::Uint(value) => (f, Argument::Uint(value)),
        Argument::Fixed(value) => (f, Argument::Fixed(value)),
        Argument::Str(text) => (f, Argument::Str(text)),
        Argument::Object(id) => (f, Argument::Object(id)),
        Argument::NewId(id) => (f, Argument::NewId(id)),
        Argument::Array(bytes) => (f, Argument::Array(bytes)),
        Argument::Fd(fd) => {
            let mapped = f(fd);
            (f, Argument::Fd(mapped))
        }
    }
}

/// An empty list with the capacity for as many arguments as `args` has. The new arguments may have other types of ids and
/// file descriptors. The error says that there was no memory. Up to four arguments take none.
pub(crate) fn room_for<Id, Fd, NewId: Drop, NewFd: Drop>(
    args: &SmallVec<Argument<Id, Fd>, INLINE_ARGS>,
) -> Result<SmallVec<Argument<NewId, NewFd>, INLINE_ARGS>, AllocError>
    ensures empty { IfOk result (λ new. new.items ≡ []) }
    ensures room { IfOk result (λ new. length args.now.items ≤ new.capacity) }
    ensures inline { length args.now.items ≤ 4 → IsOk result }
{
    SmallVec::with_capacity(*args.allocator(), args.len())
}

/// Moves the arguments to `args`, from left to right, each changed by `map_argument`.
fn map_arguments<Id: Drop, Fd: Drop, T: Drop, F: FnMut(Fd) -> T + Drop>(
    mut f: F,
    old: &mut SmallVec<Argument<Id, Fd>, INLINE_ARGS>,
    args: &mut SmallVec<Argument<Id, T>, INLINE_ARGS>,
)
    requires callable { F.IsAlwaysCallable f }
    requires empty { args.old.items ≡ [] }
    requires room { length old.old.items ≤ args.old.capacity }
    ensures mapped { (g : F) × MapsFds F.step f old.old.items args.new.items g }
{
    // After this the first argument comes last: `pop` takes it out without moving the others.
    old.reverse();
    while let Some(arg) = old.pop() {
        let (next, mapped) = map_argument(f, arg);
        f = next;
        args.push_reserved(mapped);
    }
}

impl<Id: Drop, Fd: Drop> Message<Id, Fd> {
    /// The message with each file descriptor replaced by what the closure gives for it.
    ///
    /// The closure is called once for each file descriptor, from left to right. Up to four arguments take no memory. If
    /// there is no memory for the arguments, the error is the message as it was, and the closure was not called.
    pub fn map_fd<T: Drop, F: FnMut(Fd) -> T + Drop>(self, f: F) -> Result<Message<Id, T>, Self>
        requires callable { F.IsAlwaysCallable f }
        ensures sender { IfOk result (λ m. m.sender_id ≡ self.sender_id) }
        ensures opcode { IfOk result (λ m. m.opcode ≡ self.opcode) }
        ensures mapped { IfOk result (λ m. (g : F) × MapsFds F.step f self.args.items m.args.items g) }
        ensures refused { IfErr result (λ m. m ≡ self) }
        ensures inline { length self.args.items ≤ 4 → IsOk result }
    {
        let Ok(mut args) = room_for(&self.args) else {
            return Err(self);
        };
        let Message {
            sender_id,
            opcode,
            args: mut old,
        } = self;
        map_arguments(f, &mut old, &mut args);
        Ok(Message {
            sender_id,
            opcode,
            args,
        })
    }
}
