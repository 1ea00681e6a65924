//! What is handed on from one link to the other, message by message.

ghost use Rattle.std.specs.Prelude.{◌≡◌, ◌≤◌, ◌<◌, true, false, [], Ok, IfOk, OnOk};
ghost use Rattle.wl_wire.specs.Message.{content};
ghost use Rattle.wl_wire.specs.Parse.{ReadsMessage};
ghost use Rattle.wl_wire.specs.declared.message.TheConstants.{INLINE_ARGS};
ghost use Rattle.wl_link.specs.MailboxLink.{still_to_read, still_to_send};
ghost use Rattle.wl_relay.specs.Announcements.{is_change};
ghost use Rattle.wl_relay.specs.Flow.{IsOpen, Kept, KeptUnlessChanged};
ghost use Rattle.wl_relay.specs.Inside.Passing.{HandedAs, HandsOnAll, KeepBoth, KeepsSettings, KeepsWayBack, LeavesWayBack, PassedOn, PassesAs, PassesUnknown, ReadsUpTo, ReceivedAs, TakenOff, TellsFault, turns_left};
ghost use Rattle.wl_relay.specs.Log.{GrowsLog, IsDone, known};

use crate::mode::Mode;
use crate::notes::{
    Edit, Notes, edit_of, follows, hears, log_fault, log_message, note_unless_edited, unknown_line,
};
use wl_follow::{Fault, NoMessage, Side, read_front};
use wl_link::{BufferedSocket, HandOnError, Mailbox, clear_message};
use wl_wire::{
    Argument, ArgumentType, INLINE_ARGS, IoFault, Message, OutOfMemory, Protocol, Token,
};

/// A link over a mailbox.
pub type Link = BufferedSocket<Mailbox>;

/// What a look at the first message of a link led to.
#[derive(Clone, Copy, PartialEq, Eq)]
pub enum Passed {
    /// It left the link.
    One,
    /// It is not there whole.
    Nothing,
    /// It cannot be read.
    Fault(Fault),
}

/// Hands on the first message as it is, under this signature.
fn hand_on(
    signature: &[ArgumentType],
    from: &mut Link,
    to: &mut Link,
) -> Result<Passed, OutOfMemory>
    requires is_open { IsOpen to.old }
    ensures kept { OnOk result (Kept from.old to.old from.new to.new) }
    ensures handed { IfOk result (λ passed. HandedAs signature.now from.old to.old passed from.new to.new) }
    ensures way_back { OnOk result (LeavesWayBack from.old to.old from.new to.new) }
    ensures settings { KeepBoth from.old to.old from.new to.new }
{
    match from.hand_on(signature, to) {
        Ok(()) => Ok(Passed::One),
        Err(HandOnError::MissingData | HandOnError::MissingFD) => Ok(Passed::Nothing),
        Err(HandOnError::Malformed) => Ok(Passed::Fault(Fault::Malformed)),
        Err(HandOnError::OutOfMemory) => Err(OutOfMemory),
        // The link has no limit.
        Err(HandOnError::NoRoom) => unreachable!(),
    }
}

/// Hands on all that was received, whether it can be read or not.
fn hand_on_rest(from: &mut Link, to: &mut Link) -> Result<(), OutOfMemory>
    requires is_open { IsOpen to.old }
    ensures kept { OnOk result (Kept from.old to.old from.new to.new) }
    ensures handed { OnOk result (HandsOnAll from.old to.old from.new to.new) }
    ensures way_back { OnOk result (LeavesWayBack from.old to.old from.new to.new) }
    ensures settings { KeepBoth from.old to.old from.new to.new }
{
    match from.hand_on_rest(to) {
        Ok(()) => Ok(()),
        Err(HandOnError::OutOfMemory) => Err(OutOfMemory),
        Err(_) => unreachable!(),
    }
}

/// Hands on the first message of an object that is not known. In a log that is as it should be.
fn pass_unknown(
    notes: &mut Notes,
    side: Side,
    sender: u32,
    opcode: u16,
    from: &mut Link,
    to: &mut Link,
) -> Result<Passed, OutOfMemory>
    requires is_open { IsOpen to.old }
    ensures kept { OnOk result (KeptUnlessChanged notes.old.has_changed from.old to.old notes.new.has_changed from.new to.new) }
    ensures told { IfOk result (λ passed. PassesUnknown side sender opcode (known notes.old) from.old to.old passed (known notes.new) from.new to.new) }
    ensures way_back { OnOk result (LeavesWayBack from.old to.old from.new to.new) }
    ensures settings { KeepBoth from.old to.old from.new to.new }
{
    if notes.mode == Mode::HandOn {
        return Ok(Passed::Fault(Fault::Malformed));
    }
    let line = unknown_line(*notes.log.allocator(), side, sender, opcode)?;
    let passed = hand_on(&[], from, to)?;
    if passed == Passed::One {
        notes.log.push_back(line)?;
    }
    Ok(passed)
}

/// Takes the first message off the link, and reads it.
fn take_first(
    signature: &[ArgumentType],
    message: &mut Message<u32, Token>,
    from: &mut Link,
) -> Result<(), OutOfMemory>
    requires { INLINE_ARGS ≤ message.old.args.capacity }
    ensures taken { OnOk result (TakenOff signature.now from.old from.new) }
    ensures read { OnOk result (ReadsMessage from.old.incoming.bytes signature.now from.old.incoming.tokens (content message.new)) }
    ensures capacity { INLINE_ARGS ≤ message.new.args.capacity }
    ensures settings { KeepsSettings from.old from.new }
{
    let Ok(()) = from.read_with_signature(signature, message) else {
        return Err(OutOfMemory);
    };
    Ok(())
}

/// Hands on the first message, an announcement, with this version in place of its own.
fn lower_first(
    signature: &[ArgumentType],
    version: u32,
    message: &mut Message<u32, Token>,
    from: &mut Link,
    to: &mut Link,
) -> Result<(), OutOfMemory>
    requires is_open { IsOpen to.old }
    requires place { INLINE_ARGS ≤ message.old.args.capacity }
    ensures passed { OnOk result (PassedOn signature.now (Edit.Lower version) from.old to.old Passed.One from.new to.new) }
    ensures way_back { OnOk result (LeavesWayBack from.old to.old from.new to.new) }
    ensures capacity { INLINE_ARGS ≤ message.new.args.capacity }
    ensures settings { KeepBoth from.old to.old from.new to.new }
{
    take_first(signature, message, from)?;
    let _old = message.args.pop();
    message.args.push(Argument::Uint(version))?;
    match to.write_message(message) {
        Ok(()) => Ok(()),
        Err(_) => Err(OutOfMemory),
    }
}

/// Hands on the first message, or does with it what is to be done. The message is one into which it may be read.
fn pass_on(
    signature: &[ArgumentType],
    edit: Edit,
    message: &mut Message<u32, Token>,
    from: &mut Link,
    to: &mut Link,
) -> Result<Passed, OutOfMemory>
    requires is_open { IsOpen to.old }
    requires place { INLINE_ARGS ≤ message.old.args.capacity }
    ensures kept { OnOk result (is_change edit ≡ false → Kept from.old to.old from.new to.new) }
    ensures passed { IfOk result (λ passed. PassedOn signature.now edit from.old to.old passed from.new to.new) }
    ensures way_back { OnOk result (LeavesWayBack from.old to.old from.new to.new) }
    ensures capacity { INLINE_ARGS ≤ message.new.args.capacity }
    ensures settings { KeepBoth from.old to.old from.new to.new }
{
    match edit {
        Edit::Nothing => return hand_on(signature, from, to),
        Edit::Drop => take_first(signature, message, from)?,
        Edit::Lower(version) => lower_first(signature, version, message, from, to)?,
    }
    Ok(Passed::One)
}

/// Logs the first message that waits on a link, notes its objects and hands it on, if it is there whole.
fn pass_one(
    table: &Protocol,
    notes: &mut Notes,
    side: Side,
    from: &mut Link,
    to: &mut Link,
) -> Result<Passed, OutOfMemory>
    requires is_open { IsOpen to.old }
    ensures kept { OnOk result (KeptUnlessChanged notes.old.has_changed from.old to.old notes.new.has_changed from.new to.new) }
    ensures reads { IfOk result (λ passed. PassesAs table.now side (known notes.old) from.old to.old passed (known notes.new) from.new to.new) }
    ensures way_back { OnOk result (LeavesWayBack from.old to.old from.new to.new) }
    ensures settings { KeepBoth from.old to.old from.new to.new }
{
    let heard = hears(notes, side);
    let message = &mut notes.place.message;
    let found = match read_front(table, &notes.objects, side, from, message) {
        Ok(found) => found,
        Err(NoMessage::Unknown(sender, opcode)) => {
            return pass_unknown(notes, side, sender, opcode, from, to);
        }
        Err(NoMessage::Incomplete) => return Ok(Passed::Nothing),
        Err(NoMessage::Malformed) => return Ok(Passed::Fault(Fault::Malformed)),
        Err(NoMessage::OutOfMemory) => return Err(OutOfMemory),
    };
    let signature = found.desc.signature.as_slice();
    let edit = edit_of(table, notes.mode, found, message);
    log_message(&mut notes.log, table, &notes.objects, found, message, edit)?;
    let objects = &mut notes.objects;
    let noted = note_unless_edited(table, notes.mode, heard, objects, found, message, edit)?;
    if let Some(fault) = noted {
        clear_message(message);
        return Ok(Passed::Fault(fault));
    }
    notes.has_changed = edit.or_changed(notes.has_changed);
    let passed = pass_on(signature, edit, message, from, to)?;
    clear_message(message);
    Ok(passed)
}

/// Hands on each message that waits whole on a link, up to the first that cannot be read.
fn pass(
    table: &Protocol,
    notes: &mut Notes,
    side: Side,
    from: &mut Link,
    to: &mut Link,
) -> Result<Option<Fault>, OutOfMemory>
    requires is_open { IsOpen to.old }
    ensures kept { OnOk result (KeptUnlessChanged notes.old.has_changed from.old to.old notes.new.has_changed from.new to.new) }
    ensures reads { IfOk result (λ fault. ReadsUpTo table.now side (known notes.old) from.old to.old fault (known notes.new) from.new to.new) }
    ensures way_back { OnOk result (LeavesWayBack from.old to.old from.new to.new) }
    ensures settings { KeepBoth from.old to.old from.new to.new }
{
    loop {
        match pass_one(table, notes, side, from, to)? {
            Passed::One => (),
            Passed::Nothing => return Ok(None),
            Passed::Fault(fault) => return Ok(Some(fault)),
        }
    }
}

/// Hands on what was received, and no longer reads what comes from the side.
fn give_up(
    notes: &mut Notes,
    side: Side,
    fault: Fault,
    from: &mut Link,
    to: &mut Link,
) -> Result<(), OutOfMemory>
    requires is_open { IsOpen to.old }
    ensures kept { OnOk result (KeptUnlessChanged notes.old.has_changed from.old to.old notes.new.has_changed from.new to.new) }
    ensures told { OnOk result (TellsFault side fault (known notes.old) (known notes.new)) }
    ensures handed { OnOk result (HandsOnAll from.old to.old from.new to.new) }
    ensures way_back { OnOk result (LeavesWayBack from.old to.old from.new to.new) }
    ensures settings { KeepBoth from.old to.old from.new to.new }
{
    if follows(notes, side) {
        log_fault(notes, side, fault)?;
    }
    hand_on_rest(from, to)
}

/// Hands on what was received: message by message, as long as the side is read.
fn follow(
    table: &Protocol,
    notes: &mut Notes,
    side: Side,
    from: &mut Link,
    to: &mut Link,
) -> Result<(), OutOfMemory>
    requires is_open { IsOpen to.old }
    ensures kept { OnOk result (KeptUnlessChanged notes.old.has_changed from.old to.old notes.new.has_changed from.new to.new) }
    ensures logged { OnOk result (GrowsLog table.now side (known notes.old) (still_to_read from.old) from.old.transport.arrived (still_to_send to.old)
        (known notes.new) (still_to_read from.new) from.new.transport.arrived (still_to_send to.new)) }
    ensures done { OnOk result (IsDone table.now side (known notes.new) from.new.incoming) }
    ensures way_back { OnOk result (LeavesWayBack from.old to.old from.new to.new) }
    ensures settings { KeepBoth from.old to.old from.new to.new }
{
    if !follows(notes, side) {
        return hand_on_rest(from, to);
    }
    match pass(table, notes, side, from, to)? {
        Some(fault) => give_up(notes, side, fault, from, to),
        None => Ok(()),
    }
}

/// What a receive led to.
pub enum Received {
    /// Something came.
    Some,
    /// Nothing is left in the mailbox.
    All,
    /// There is no room: the buffer is full of what waits for a descriptor.
    Full,
}

/// Receives once.
fn fill(from: &mut Link, to: &Link) -> Result<Received, OutOfMemory>
    requires is_open { IsOpen from.old }
    ensures kept { OnOk result (Kept from.old to.now from.new to.now) }
    ensures same { still_to_read from.new ≡ still_to_read from.old }
    ensures to_send { still_to_send from.new ≡ still_to_send from.old }
    ensures received { IfOk result (λ received. ReceivedAs from.old received from.new) }
    ensures settings { KeepsSettings from.old from.new }
{
    if from.transport().bytes_left() == 0 {
        return Ok(Received::All);
    }
    match from.fill_incoming_buffers() {
        Ok(()) => Ok(Received::Some),
        // The mailbox gives what it has. So only a full buffer, which has no limit but its greatest size, takes nothing.
        Err(IoFault::Pipe) => Ok(Received::Full),
        Err(IoFault::OutOfMemory) => Err(OutOfMemory),
        Err(_) => unreachable!(),
    }
}

/// Receives once, and hands on what can be handed on. Answers whether something was left to do. What was received before was done.
fn receive_once(
    table: &Protocol,
    notes: &mut Notes,
    side: Side,
    from: &mut Link,
    to: &mut Link,
) -> Result<bool, OutOfMemory>
    requires open_from { IsOpen from.old }
    requires is_open { IsOpen to.old }
    requires done { IsDone table.now side (known notes.old) from.old.incoming }
    ensures kept { OnOk result (KeptUnlessChanged notes.old.has_changed from.old to.old notes.new.has_changed from.new to.new) }
    ensures logged { OnOk result (GrowsLog table.now side (known notes.old) (still_to_read from.old) from.old.transport.arrived (still_to_send to.old)
        (known notes.new) (still_to_read from.new) from.new.transport.arrived (still_to_send to.new)) }
    ensures done { OnOk result (IsDone table.now side (known notes.new) from.new.incoming) }
    ensures fewer { result ≡ Ok true → turns_left side (known notes.new) from.new < turns_left side (known notes.old) from.old }
    ensures all { result ≡ Ok false → from.new.transport.arrived.bytes ≡ [] }
    ensures way_back { OnOk result (KeepsWayBack from.old to.old from.new to.new) }
    ensures settings { KeepBoth from.old to.old from.new to.new }
{
    match fill(from, to)? {
        Received::All => return Ok(false),
        Received::Full => give_up(notes, side, Fault::MissingDescriptor, from, to)?,
        Received::Some => follow(table, notes, side, from, to)?,
    }
    Ok(true)
}

/// Receives all that is in the mailbox, and hands on what can be handed on.
pub fn receive(
    table: &Protocol,
    notes: &mut Notes,
    side: Side,
    from: &mut Link,
    to: &mut Link,
) -> Result<(), OutOfMemory>
    requires open_from { IsOpen from.old }
    requires is_open { IsOpen to.old }
    ensures kept { OnOk result (KeptUnlessChanged notes.old.has_changed from.old to.old notes.new.has_changed from.new to.new) }
    ensures logged { OnOk result (GrowsLog table.now side (known notes.old) (still_to_read from.old) from.old.transport.arrived (still_to_send to.old)
        (known notes.new) (still_to_read from.new) from.new.transport.arrived (still_to_send to.new)) }
    ensures done { OnOk result (IsDone table.now side (known notes.new) from.new.incoming) }
    ensures all { OnOk result (from.new.transport.arrived.bytes ≡ []) }
    ensures way_back { OnOk result (KeepsWayBack from.old to.old from.new to.new) }
    ensures settings { KeepBoth from.old to.old from.new to.new }
{
    // The other side may have made or ended objects since, so what waits is looked at again.
    follow(table, notes, side, from, to)?;
    while receive_once(table, notes, side, from, to)? {}
    Ok(())
}
