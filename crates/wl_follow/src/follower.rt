//! A follower: it is given what both sides of a connection send, and tells the messages one by one.

ghost use Rattle.std.specs.Prelude.{◌≡◌, ◌≤◌, ◌∷◌, [], IfOk, IsTrue, List, MatchOption, OnErr, OnOk, false, length, option_map};
ghost use Rattle.wl_wire.specs.Message.{content};
ghost use Rattle.wl_wire.specs.Table.{message_row};
ghost use Rattle.wl_wire.specs.declared.message.TheConstants.{INLINE_ARGS};
ghost use Rattle.wl_link.specs.Exchange.{Queue};
ghost use Rattle.wl_link.specs.Store.{held};
ghost use Rattle.wl_follow.specs.Following.{HasNoneToTell, IsExhausted, Tells, TellsFront, TellsNone, Turns, came_from, new_follower, released_to, sent, taken_back, turned};
ghost use Rattle.wl_follow.specs.Fronts.{ReadsKnown};
ghost use Rattle.wl_follow.specs.Inside.Telling.{TellsOf, TellsUnknown};
ghost use Rattle.wl_follow.specs.Objects.{object_of};
ghost use Rattle.wl_follow.specs.Sent.{ready_part, released_count};
ghost use Rattle.wl_follow.specs.declared.follower.Stretch.{Stretch as StretchOf};

use crate::front::{Found, NoMessage, read_front};
use crate::objects::{Deletions, UnknownInterfaces, first_objects, note_objects};
use crate::sent::Sent;
use crate::side::{Fault, Side};
use std::alloc::Global;
use std::collections::VecDeque;
use std::fmt;
use std::marker::Model;
use wl_link::ObjectMap;
use wl_wire::{INLINE_ARGS, InterfaceId, Message, OutOfMemory, Protocol, Token};

/// What is told of a message.
#[derive(Clone, Copy, Debug, PartialEq, Eq)]
pub enum What {
    /// A message to or from an object of this interface. It was read.
    Message(InterfaceId),
    /// The same, but its objects cannot be noted: the fault is `NewId` or `Malformed`. Its side is followed no further.
    Refused(InterfaceId, Fault),
    /// A message of an object that is not known, or of an opcode that the table lacks. These are the number of its sender and the
    /// opcode. It was not read, and none of its descriptors were counted.
    Unknown(u32, u16),
    /// What was sent is no message. The side is followed no further.
    Malformed,
}

/// A message that is told, and the side that sent it.
#[derive(Clone, Copy, Debug, PartialEq, Eq)]
pub struct Told {
    /// The side.
    pub side: Side,
    /// What is told.
    pub what: What,
}

/// A part of what a side sent. Its turn comes after those before it.
#[derive(Clone, Copy)]
pub struct Stretch {
    /// The side.
    pub side: Side,
    /// How many bytes it has.
    pub count: usize,
}

/// A follower of a connection.
///
/// It is given what each side sends (`append`), and tells the messages one by one (`next`): those of each side in their order. Of the
/// bytes of both sides those that were released first are told first (`release`).
///
/// It keeps the objects by their numbers, and takes what the sides do as it comes: a new object takes the place of one that has its
/// number, and one of an interface that the table lacks is anonymous.
#[derive(Drop)]
pub struct Follower {
    objects: ObjectMap<()>,
    client: Sent,
    server: Sent,
    order: VecDeque<Stretch>,
    side: Side,
}

impl fmt::Debug for Follower {
    fn fmt<W: fmt::Write>(&self, f: &mut fmt::Formatter<W>) -> fmt::Result {
        f.write_str("Follower { .. }")
    }
}

impl Model for Follower {
    ghost use Rattle.std.specs.Coded.{codes};
    ghost use Rattle.wl_link.specs.ObjectMap.{store_code};
    ghost use Rattle.wl_follow.specs.Following.{FollowState};

    ghost Value = { FollowState };

    ghost coded = { Prim.hlevel (codes, store_code) };

    ghost view = { λ f. record { objects = f.objects.store; client = f.client; server = f.server; order = f.order.items; side = f.side } };
}

/// Tells a message of a known object, which was read, and takes it off.
fn tell_known(
    table: &Protocol,
    objects: &mut ObjectMap<()>,
    found: Found,
    message: &Message<u32, Token>,
    sent: &mut Sent,
) -> Result<What, OutOfMemory>
    requires { ReadsKnown table.now objects.old.store found.side (ready_part sent.old) (object_of found.interface found.version)
        (message_row found.desc.now) (content message.now) }
    ensures told { IfOk result (λ what. (piece : Queue) × TellsFront table.now found.entry.side objects.old.store sent.old what (content message.now) piece objects.new.store sent.new) }
    ensures kept { OnErr result ((objects.new.store ≡ objects.old.store) × (sent.new ≡ sent.old)) }
{
    // A side may be followed no further, or from some message on only: so what the other deletes need not be seen.
    let deletions = Deletions::Unseen;
    match note_objects(
        table,
        UnknownInterfaces::Anonymous,
        deletions,
        objects,
        found,
        message,
    )? {
        None => {
            sent.take_first(found.desc.signature.as_slice());
            Ok(What::Message(found.interface))
        }
        Some(fault) => {
            sent.stop();
            Ok(What::Refused(found.interface, fault))
        }
    }
}

/// Tells the first message, of an object that is not known, and takes it off, if it is there to its end.
fn tell_unknown(sent: &mut Sent, sender: u32, opcode: u16) -> Option<What>
    requires { 8 ≤ length (ready_part sent.old).bytes }
    ensures { TellsUnknown sender opcode sent.old result sent.new }
{
    if sent.front_length()? < 8 {
        sent.stop();
        return Some(What::Malformed);
    }
    if !sent.is_whole() {
        return None;
    }
    sent.take_first(&[]);
    Some(What::Unknown(sender, opcode))
}

/// Tells the first message that may be told of the side, and takes it off.
fn tell_front(
    table: &Protocol,
    objects: &mut ObjectMap<()>,
    side: Side,
    sent: &mut Sent,
    message: &mut Message<u32, Token>,
) -> Result<Option<What>, OutOfMemory>
    requires { INLINE_ARGS ≤ message.old.args.capacity }
    ensures told { IfOk result (λ told. MatchOption told
        (HasNoneToTell table.now side objects.old.store sent.old × (objects.new.store ≡ objects.old.store) × (sent.new ≡ sent.old))
        (λ what. (piece : Queue) × TellsFront table.now side objects.old.store sent.old what (content message.new) piece objects.new.store sent.new)) }
    ensures kept { OnErr result ((objects.new.store ≡ objects.old.store) × (sent.new ≡ sent.old)) }
    ensures capacity { INLINE_ARGS ≤ message.new.args.capacity }
{
    match read_front(table, objects, side, sent, message) {
        Ok(found) => Ok(Some(tell_known(table, objects, found, message, sent)?)),
        Err(NoMessage::Incomplete) => Ok(None),
        Err(NoMessage::Unknown(sender, opcode)) => Ok(tell_unknown(sent, sender, opcode)),
        Err(NoMessage::Malformed) => {
            sent.stop();
            Ok(Some(What::Malformed))
        }
        Err(NoMessage::OutOfMemory) => Err(OutOfMemory),
    }
}

impl Follower {
    /// Of a connection on which nothing was said.
    pub fn new(alloc: Global) -> Result<Self, OutOfMemory>
        ensures { IfOk result (λ follower. follower ≡ new_follower) }
    {
        Ok(Follower {
            objects: first_objects(alloc)?,
            client: Sent::new(alloc),
            server: Sent::new(alloc),
            order: VecDeque::new(alloc),
            side: Side::Client,
        })
    }

    /// The side sent this. It is told once it is released. What a side sends that is followed no further is not kept.
    ///
    /// The error is `OutOfMemory`. Then nothing is changed.
    pub fn append(&mut self, side: Side, bytes: &[u8], tokens: &[Token]) -> Result<(), OutOfMemory>
        ensures ok { OnOk result (self.new ≡ came_from side (record { bytes = bytes.now; tokens = tokens.now }) self.old) }
        ensures err { OnErr result (self.new ≡ self.old) }
        ensures released { (sent side self.old).released ≤ length (sent side self.old).bytes }
    {
        match side {
            Side::Client => self.client.append(bytes, tokens),
            Side::Server => self.server.append(bytes, tokens),
        }
    }

    /// Takes so many bytes and tokens back that the side sent last. Bytes that were released stay; tokens are taken back also then.
    pub fn take_back(&mut self, side: Side, bytes: usize, tokens: usize)
        ensures { self.new ≡ taken_back side bytes tokens self.old }
    {
        match side {
            Side::Client => self.client.take_back(bytes, tokens),
            Side::Server => self.server.take_back(bytes, tokens),
        }
    }

    /// All but the last `left` bytes that the side sent are to be told, after all that is to be told already.
    ///
    /// The error is `OutOfMemory`. Then nothing is changed.
    pub fn release(&mut self, side: Side, left: usize) -> Result<(), OutOfMemory>
        ensures ok { OnOk result (self.new ≡ released_to side left self.old) }
        ensures err { OnErr result (self.new ≡ self.old) }
    {
        let count = self.unreleased_but(side, left);
        if count == 0 {
            return Ok(());
        }
        self.order.reserve(1)?;
        self.order.push_back_reserved(Stretch { side, count });
        match side {
            Side::Client => self.client.release_but(left),
            Side::Server => self.server.release_but(left),
        }
        Ok(())
    }

    /// How many more bytes of the side all but the last `left` are than those that are to be told already.
    fn unreleased_but(&self, side: Side, left: usize) -> usize
        ensures { result ≡ released_count left (sent side self.now) }
    {
        match side {
            Side::Client => self.client.unreleased_but(left),
            Side::Server => self.server.unreleased_but(left),
        }
    }

    /// Tells the next message. It is `None` only if it was the turn of all that was released, and the first message of the side whose
    /// turn it is awaits more. A message that was read is in the lent one: its arguments are replaced, and must have a capacity of at
    /// least [`INLINE_ARGS`].
    ///
    /// The error is `OutOfMemory`. Then nothing was told, and the next call goes on.
    pub fn next(
        &mut self,
        table: &Protocol,
        message: &mut Message<u32, Token>,
    ) -> Result<Option<Told>, OutOfMemory>
        requires { INLINE_ARGS ≤ message.old.args.capacity }
        ensures told { IfOk result (λ told. MatchOption told (TellsNone table.now self.old self.new)
            (λ t. (piece : Queue) × Tells table.now self.old t (content message.new) piece self.new)) }
        ensures kept { OnErr result ((stretches : List StretchOf) × Turns table.now self.old stretches self.new) }
        ensures capacity { INLINE_ARGS ≤ message.new.args.capacity }
    {
        loop {
            if let Some(told) = self.tell(table, message)? {
                return Ok(Some(told));
            }
            if !self.turn() {
                return Ok(None);
            }
        }
    }

    /// Tells the first message of the side whose turn it is.
    fn tell(
        &mut self,
        table: &Protocol,
        message: &mut Message<u32, Token>,
    ) -> Result<Option<Told>, OutOfMemory>
        requires { INLINE_ARGS ≤ message.old.args.capacity }
        ensures told { IfOk result (λ told. MatchOption told (IsExhausted table.now self.old × (self.new ≡ self.old))
            (λ t. (piece : Queue) × Tells table.now self.old t (content message.new) piece self.new)) }
        ensures kept { OnErr result (self.new ≡ self.old) }
        ensures capacity { INLINE_ARGS ≤ message.new.args.capacity }
    {
        let side = self.side;
        match self.tell_of(table, side, message)? {
            Some(what) => Ok(Some(Told { side, what })),
            None => Ok(None),
        }
    }

    /// Tells the first message that may be told of the side.
    fn tell_of(
        &mut self,
        table: &Protocol,
        side: Side,
        message: &mut Message<u32, Token>,
    ) -> Result<Option<What>, OutOfMemory>
        requires { INLINE_ARGS ≤ message.old.args.capacity }
        ensures told { IfOk result (λ told. MatchOption told
            (HasNoneToTell table.now side self.old.objects (sent side self.old) × (self.new ≡ self.old))
            (λ what. TellsOf table.now side self.old what (content message.new) self.new)) }
        ensures kept { OnErr result (self.new ≡ self.old) }
        ensures capacity { INLINE_ARGS ≤ message.new.args.capacity }
    {
        match side {
            Side::Client => {
                tell_front(table, &mut self.objects, side, &mut self.client, message)
            }
            Side::Server => {
                tell_front(table, &mut self.objects, side, &mut self.server, message)
            }
        }
    }

    /// It is the turn of the next stretch. Returns whether there was one.
    fn turn(&mut self) -> bool
        ensures turned { IsTrue result → (stretch : StretchOf) × (rest : List StretchOf) × (self.old.order ≡ stretch ∷ rest) × (self.new ≡ turned stretch rest self.old) }
        ensures none { result ≡ false → (self.old.order ≡ []) × (self.new ≡ self.old) }
    {
        let Some(stretch) = self.order.pop_front() else {
            return false;
        };
        self.side = stretch.side;
        match stretch.side {
            Side::Client => self.client.make_ready(stretch.count),
            Side::Server => self.server.make_ready(stretch.count),
        }
        true
    }

    /// The interface of the object that has the number; `None` if none is known.
    pub fn interface_of(&self, number: u32) -> Option<InterfaceId>
        ensures { result ≡ option_map (λ o. o.interface) (held self.now.objects number) }
    {
        let object = self.objects.find(number)?;
        Some(object.interface)
    }
}
