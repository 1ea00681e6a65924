//! What a guard knows of a session, and what becomes of a message.

ghost use Rattle.std.specs.Prelude.{◌≡◌, ◌≢◌, ◌<◌, ◌≤◌, ◌⊎◌, ◌==◌, ◌↔◌, ◌++◌, IfOk, IsTrue, MatchBool, MatchOption, OnErr, OnOk, OnSome, filter, not};
ghost use Rattle.wl_wire.specs.Message.{content, size};
ghost use Rattle.wl_wire.specs.Parse.{IsThere};
ghost use Rattle.wl_wire.specs.Table.{message_row, name_of};
ghost use Rattle.wl_wire.specs.declared.message.TheConstants.{INLINE_ARGS};
ghost use Rattle.wl_link.specs.Exchange.{joined};
ghost use Rattle.wl_link.specs.Link.{after_first};
ghost use Rattle.wl_follow.specs.Fronts.{ReadsKnown};
ghost use Rattle.wl_follow.specs.Objects.{new_number, object_of};
ghost use Rattle.wl_guard.specs.Events.{Announces, IsHidden, IsShown, Shows, TellsOf, fate_of_removal};
ghost use Rattle.wl_guard.specs.Known.{has_place, is_beyond, is_one_of, known, nothing_known, told_of, with_told, without};
ghost use Rattle.wl_guard.specs.Passages.{Judges, NotesUnder, ended_after, released_for, renewed, rule_of, sent_for};
ghost use Rattle.wl_guard.specs.Requests.{BindIsAllowed, BindsTold, BreaksRule, IsAllowed, fate_of_request};
ghost use Rattle.wl_guard.specs.Steps.{PassesUpTo, StepsAs, UnreadAs};

use crate::inbox::Inbox;
use crate::outbox::Outbox;
use crate::policy::{Limits, Policy};
use std::alloc::{AllocError, Global};
use wl_follow::{
    Deletions, Fault, Found, NoMessage, Side, UnknownInterfaces, first_objects, note_objects,
    read_front,
};
use wl_link::{MessagePlace, ObjectMap, SERVER_ID_LIMIT, clear_message};
use wl_wire::{
    Argument, ArgumentType, InterfaceId, Message, OutOfMemory, Protocol, Token,
    WL_DISPLAY_INTERFACE, WL_REGISTRY_INTERFACE, message_size, opcodes,
};

/// A rule that a side broke.
#[derive(Clone, Copy, Debug, PartialEq, Eq)]
pub enum Rule {
    /// What it sent is no message: the header says a length below its own, or the arguments cannot be read.
    Malformed,
    /// There is no such object, or its interface has no such message.
    Unknown,
    /// The client has ended the object.
    Destroyed,
    /// The message is not as long as its arguments.
    Length,
    /// The version of the object does not have the request.
    Version,
    /// The policy refuses the request.
    Policy,
    /// The client was not told last of such a global, or not in this version.
    Global,
    /// A new object may not have this number.
    NewId,
    /// A new object has a number beyond the limit.
    Objects,
    /// More numbers of globals were announced than the limit.
    Globals,
    /// There are descriptors that no message takes, or a message waits for a descriptor though all of its bytes are there.
    Descriptors,
}

/// What becomes of a message.
#[derive(Clone, Copy, Debug, PartialEq, Eq)]
pub enum Fate {
    /// It goes on as it came.
    HandOn,
    /// It is dropped.
    Drop,
    /// It goes on with this version.
    Lower(u32),
}

/// The last announcement of a global of this number.
#[derive(Clone, Copy, Debug, PartialEq, Eq)]
pub struct Told {
    /// Its number.
    pub number: u32,
    /// Its interface.
    pub interface: InterfaceId,
    /// The version that the client was told of.
    pub version: u32,
    /// Whether the client was told.
    pub is_shown: bool,
}

/// What a look at the first message of a side led to.
#[derive(Clone, Copy, PartialEq, Eq)]
pub enum Passed {
    /// It was taken off.
    One,
    /// It is not there whole.
    Nothing,
    /// It breaks a rule.
    Breach(Rule),
}

/// What is known of a session.
#[derive(Drop)]
pub struct Session {
    /// The objects by their numbers.
    pub objects: ObjectMap<()>,
    /// The last announcement of each number.
    pub told: Vec<Told>,
    /// The numbers of the objects that the client has ended.
    pub ended: Vec<u32>,
    /// The place that the first message of a side is read into.
    pub place: MessagePlace,
}

impl Session {
    /// A session that begins: the display is its only object.
    pub fn new(alloc: Global) -> Result<Self, OutOfMemory>
        ensures { IfOk result (λ session. known session ≡ nothing_known) }
    {
        let objects = first_objects(alloc)?;
        Ok(Session {
            objects,
            told: Vec::new(alloc),
            ended: Vec::new(alloc),
            place: MessagePlace::new(alloc),
        })
    }
}

/// The last announcement of the number.
fn told_of(told: &[Told], number: u32) -> Option<Told>
    ensures { result ≡ told_of told.now number }
{
    let mut rest = told;
    while let [first, others @ ..] = rest {
        if first.number == number {
            return Some(*first);
        }
        rest = others;
    }
    None
}

/// Remembers the announcement in the place of an earlier one of its number.
fn remember(told: &mut Vec<Told>, announced: Told) -> Result<(), AllocError>
    ensures ok { OnOk result (told.new.items ≡ with_told told.old.items announced) }
    ensures err { OnErr result (told.new.items ≡ told.old.items) }
{
    for place in 0..told.len() {
        if told[place].number == announced.number {
            told[place] = announced;
            return Ok(());
        }
    }
    told.push(announced)?;
    Ok(())
}

/// Whether the number is one of these.
fn is_one_of(numbers: &[u32], number: u32) -> bool
    ensures { result ≡ is_one_of numbers.now number }
{
    numbers.iter().any(|n| *n == number)
}

/// The first new number among the arguments.
fn new_number(args: &[Argument<u32, Token>]) -> Option<u32>
    ensures { result ≡ new_number args.now }
{
    let mut rest = args;
    while let [arg, others @ ..] = rest {
        if let Argument::NewId(number) = arg {
            return Some(*number);
        }
        rest = others;
    }
    None
}

/// Whether the number is one that the side gives out, beyond the limit.
fn is_beyond(limits: Limits, side: Side, number: Option<u32>) -> bool
    ensures { result ≡ is_beyond limits side number }
{
    let Some(number) = number else {
        return false;
    };
    match side {
        Side::Client => number < SERVER_ID_LIMIT && limits.objects <= number,
        Side::Server => number >= SERVER_ID_LIMIT && limits.objects <= number - SERVER_ID_LIMIT,
    }
}

// ---- requests

/// Whether the interface has this name.
fn has_name(table: &Protocol, interface: InterfaceId, name: &[u8]) -> bool
    ensures { IsTrue result ↔ (name_of table.now interface.0 ≡ name.now) }
{
    table.name(interface).as_bytes() == name
}

/// Whether the client was told last of this global, in this version or above, and may have it.
fn binds_told(policy: &Policy, told: &[Told], number: u32, name: &[u8], version: u32) -> bool
    ensures { IsTrue result ↔ BindsTold policy.now told.now number name.now version }
{
    match told_of(told, number) {
        Some(last) => {
            last.is_shown
                && has_name(policy.table(), last.interface, name)
                && 1 <= version
                && version <= last.version
                && version <= policy.allowed_version(last.interface)
        }
        None => false,
    }
}

/// Whether a bind with these arguments may be made.
fn is_allowed_bind(policy: &Policy, told: &[Told], args: &[Argument<u32, Token>]) -> bool
    ensures { IsTrue result ↔ BindIsAllowed policy.now told.now args.now }
{
    match args {
        [
            Argument::Uint(number),
            Argument::Str(Some(name)),
            Argument::Uint(version),
            Argument::NewId(_),
        ] => binds_told(policy, told, *number, name.as_bytes(), *version),
        _ => false,
    }
}

/// Whether a message is as long as its arguments.
fn is_exact(message: &Message<u32, Token>, len: usize) -> bool
    ensures { MatchBool result (len ≡ size (content message.now)) ((len ≢ size (content message.now)) ⊎ (65535 < size (content message.now))) }
{
    match message_size(message) {
        Some(size) => size == len,
        None => false,
    }
}

/// The rule that a request breaks, whose header says this length; `None` if it may be made.
fn broken_rule(
    policy: &Policy,
    told: &[Told],
    ended: &[u32],
    found: Found,
    message: &Message<u32, Token>,
    len: usize,
) -> Option<Rule>
    ensures { MatchOption result
        (IsAllowed policy.now told.now ended.now (object_of found.entry.interface found.entry.version) (message_row found.entry.desc.now) (content message.now) len)
        (BreaksRule policy.now told.now ended.now (object_of found.entry.interface found.entry.version) (message_row found.entry.desc.now) (content message.now) len) }
{
    let args = message.args.as_slice();
    if is_one_of(ended, message.sender_id) {
        return Some(Rule::Destroyed);
    }
    if !is_exact(message, len) {
        return Some(Rule::Length);
    }
    if found.version < found.desc.since {
        return Some(Rule::Version);
    }
    if policy.refuses(found.interface, message.opcode) {
        return Some(Rule::Policy);
    }
    if is_beyond(policy.limits(), Side::Client, new_number(args)) {
        return Some(Rule::Objects);
    }
    if found.interface == WL_REGISTRY_INTERFACE && !is_allowed_bind(policy, told, args) {
        return Some(Rule::Global);
    }
    None
}

/// What becomes of a request that may be made.
fn fate_of_request(policy: &Policy, interface: InterfaceId, opcode: u16) -> Fate
    ensures { result ≡ fate_of_request policy.now interface opcode }
{
    if policy.ignores(interface, opcode) {
        Fate::Drop
    } else {
        Fate::HandOn
    }
}

// ---- events

/// The interface of this name, and up to which version the policy allows it; `None` if not at all.
fn shown(policy: &Policy, name: &[u8]) -> Option<(InterfaceId, u32)>
    ensures { MatchOption result (IsHidden policy.now name.now) (λ found. IsShown policy.now name.now found.0 found.1) }
{
    let interface = policy.table().find_bytes(name)?;
    match policy.allowed_version(interface) {
        0 => None,
        most => Some((interface, most)),
    }
}

/// What becomes of an announcement, and what is remembered of it.
fn announced(policy: &Policy, number: u32, name: &[u8], version: u32) -> (Fate, Told)
    ensures { Shows policy.now number name.now version result.0 result.1 }
{
    let Some((interface, most)) = shown(policy, name) else {
        let hidden = Told {
            number,
            interface: InterfaceId(0),
            version: 0,
            is_shown: false,
        };
        return (Fate::Drop, hidden);
    };
    let told = Told {
        number,
        interface,
        version: version.min(most),
        is_shown: true,
    };
    if version <= most {
        (Fate::HandOn, told)
    } else {
        (Fate::Lower(most), told)
    }
}

/// Whether the number is remembered, or one more may be.
fn has_place(limits: Limits, told: &[Told], number: u32) -> bool
    ensures { result ≡ has_place limits told.now number }
{
    told_of(told, number).is_some() || told.len() < limits.globals
}

/// Judges an announcement, and remembers it.
fn judge_announcement(
    policy: &Policy,
    told: &mut Vec<Told>,
    number: u32,
    name: &[u8],
    version: u32,
) -> Result<Result<Fate, Rule>, OutOfMemory>
    ensures { IfOk result (λ verdict. Announces policy.now told.old.items number name.now version verdict told.new.items) }
{
    if !has_place(policy.limits(), told.as_slice(), number) {
        return Ok(Err(Rule::Globals));
    }
    let (fate, last) = announced(policy, number, name, version);
    remember(told, last)?;
    Ok(Ok(fate))
}

/// What becomes of a removal.
fn fate_of_removal(told: &[Told], args: &[Argument<u32, Token>]) -> Fate
    ensures { result ≡ fate_of_removal told.now args.now }
{
    let [Argument::Uint(number)] = args else {
        return Fate::Drop;
    };
    match told_of(told, *number) {
        Some(last) if last.is_shown => Fate::HandOn,
        _ => Fate::Drop,
    }
}

/// Judges an event of an object of this interface, and remembers what it announces.
fn judge_told(
    policy: &Policy,
    told: &mut Vec<Told>,
    interface: InterfaceId,
    message: &Message<u32, Token>,
) -> Result<Result<Fate, Rule>, OutOfMemory>
    ensures { IfOk result (λ verdict. TellsOf policy.now told.old.items interface (content message.now) verdict told.new.items) }
{
    let args = message.args.as_slice();
    if interface == WL_REGISTRY_INTERFACE && message.opcode == opcodes::GLOBAL {
        return match args {
            [
                Argument::Uint(number),
                Argument::Str(Some(name)),
                Argument::Uint(version),
            ] => judge_announcement(policy, told, *number, name.as_bytes(), *version),
            _ => Ok(Ok(Fate::Drop)),
        };
    }
    if interface == WL_REGISTRY_INTERFACE && message.opcode == opcodes::GLOBAL_REMOVE {
        return Ok(Ok(fate_of_removal(told.as_slice(), args)));
    }
    Ok(Ok(Fate::HandOn))
}

// ---- both

/// Judges a message that was read, whose header says this length, and remembers what it announces.
fn judge(
    policy: &Policy,
    told: &mut Vec<Told>,
    ended: &[u32],
    found: Found,
    message: &Message<u32, Token>,
    len: usize,
) -> Result<Result<Fate, Rule>, OutOfMemory>
    ensures { IfOk result (λ verdict. Judges policy.now found.entry.side told.old.items ended.now (object_of found.entry.interface found.entry.version)
        (message_row found.entry.desc.now) (content message.now) len verdict told.new.items) }
{
    match found.side {
        Side::Client => match broken_rule(policy, told.as_slice(), ended, found, message, len) {
            Some(rule) => Ok(Err(rule)),
            None => Ok(Ok(fate_of_request(policy, found.interface, message.opcode))),
        },
        Side::Server => {
            if is_beyond(
                policy.limits(),
                Side::Server,
                new_number(message.args.as_slice()),
            ) {
                return Ok(Err(Rule::Objects));
            }
            judge_told(policy, told, found.interface, message)
        }
    }
}

/// Notes the objects of a message of which this becomes. At a fault they are as before.
fn note_under(
    table: &Protocol,
    objects: &mut ObjectMap<()>,
    found: Found,
    message: &Message<u32, Token>,
    fate: Fate,
) -> Result<Option<Fault>, OutOfMemory>
    ensures noted { IfOk result (λ fault. NotesUnder table.now found.entry.side (object_of found.entry.interface found.entry.version) (message_row found.entry.desc.now)
        (content message.now) fate objects.old.store fault objects.new.store) }
    ensures refused { IfOk result (λ fault. OnSome fault (objects.new.store ≡ objects.old.store)) }
{
    match fate {
        Fate::HandOn => note_objects(
            table,
            UnknownInterfaces::Refused,
            Deletions::Seen,
            objects,
            found,
            message,
        ),
        Fate::Drop | Fate::Lower(_) => Ok(None),
    }
}

/// The number that an event tells to be free, or gives to a new object.
fn renewed(interface: InterfaceId, message: &Message<u32, Token>) -> Option<u32>
    ensures { result ≡ renewed interface (content message.now) }
{
    let args = message.args.as_slice();
    if interface == WL_DISPLAY_INTERFACE && message.opcode == opcodes::DELETE_ID {
        return match args {
            [Argument::Uint(number)] => Some(*number),
            _ => None,
        };
    }
    new_number(args)
}

/// Takes the number out of the list.
fn drop_number(numbers: &mut Vec<u32>, number: u32)
    ensures { numbers.new.items ≡ filter (λ n. not (n == number)) numbers.old.items }
{
    numbers.retain(|n| *n != number);
}

/// Takes the number out of the list, if there is one.
fn take_out(numbers: &mut Vec<u32>, number: Option<u32>)
    ensures { numbers.new.items ≡ without number numbers.old.items }
{
    if let Some(number) = number {
        drop_number(numbers, number);
    }
}

/// Notes which objects the client has ended.
fn note_ended(
    ended: &mut Vec<u32>,
    found: Found,
    message: &Message<u32, Token>,
    fate: Fate,
) -> Result<(), AllocError>
    ensures { OnOk result (ended.new.items ≡ ended_after found.entry.side found.entry.interface (message_row found.entry.desc.now) (content message.now) fate ended.old.items) }
{
    match (found.side, fate) {
        (Side::Client, Fate::HandOn) => {
            if found.desc.is_destructor {
                ended.push(message.sender_id)?;
            }
        }
        (Side::Server, Fate::HandOn) => take_out(ended, renewed(found.interface, message)),
        _ => {}
    }
    Ok(())
}

/// Sends the first message, which was read, or what goes on in its place, and gives back the tokens of one that does not go on.
fn carry(
    fate: Fate,
    signature: &[ArgumentType],
    message: &mut Message<u32, Token>,
    from: &mut Inbox,
    to: &mut Outbox,
    released: &mut Vec<Token>,
) -> Result<(), OutOfMemory>
    requires there { IsThere from.old.bytes signature.now from.old.tokens }
    requires place { INLINE_ARGS ≤ message.old.args.capacity }
    ensures sent { OnOk result (to.new ≡ joined to.old (sent_for fate signature.now from.old (content message.old))) }
    ensures released { OnOk result (released.new.items ≡ released.old.items ++ released_for fate signature.now from.old) }
    ensures taken { OnOk result (from.new ≡ after_first signature.now from.old) }
    ensures unchanged { OnErr result ((from.new ≡ from.old) × (to.new ≡ to.old) × (released.new.items ≡ released.old.items)) }
    ensures capacity { INLINE_ARGS ≤ message.new.args.capacity }
{
    match fate {
        Fate::HandOn => from.hand_on(signature, to),
        Fate::Drop => from.take_off(signature, released),
        Fate::Lower(version) => {
            released.reserve(from.tokens_left())?;
            let _old = message.args.pop();
            message.args.push(Argument::Uint(version))?;
            to.write(message)?;
            from.take_off(signature, released)
        }
    }
}

/// The rule that a fault of a new object breaks.
fn rule_of(fault: Fault) -> Rule
    ensures { result ≡ rule_of fault }
{
    match fault {
        Fault::Malformed => Rule::Malformed,
        Fault::NewId => Rule::NewId,
        Fault::UnknownInterface => Rule::Global,
        Fault::MissingDescriptor => Rule::Descriptors,
    }
}

/// Passes the first message, which was read, if it breaks no rule.
fn pass_found(
    policy: &Policy,
    objects: &mut ObjectMap<()>,
    told: &mut Vec<Told>,
    ended: &mut Vec<u32>,
    found: Found,
    message: &mut Message<u32, Token>,
    from: &mut Inbox,
    to: &mut Outbox,
    released: &mut Vec<Token>,
) -> Result<Passed, OutOfMemory>
    requires reads { ReadsKnown policy.now.table objects.old.store found.side from.old (object_of found.interface found.version)
        (message_row found.desc.now) (content message.old) }
    requires place { INLINE_ARGS ≤ message.old.args.capacity }
    ensures steps { StepsAs policy.now found.entry.side (record { objects = objects.old.store; told = told.old.items; ended = ended.old.items }) from.old to.old released.old.items
        result (record { objects = objects.new.store; told = told.new.items; ended = ended.new.items }) from.new to.new released.new.items }
    ensures capacity { INLINE_ARGS ≤ message.new.args.capacity }
{
    let len = from.first_length();
    let fate = match judge(policy, told, ended.as_slice(), found, message, len)? {
        Ok(fate) => fate,
        Err(rule) => return Ok(Passed::Breach(rule)),
    };
    let noted = note_under(policy.table(), objects, found, message, fate)?;
    if let Some(fault) = noted {
        return Ok(Passed::Breach(rule_of(fault)));
    }
    note_ended(ended, found, message, fate)?;
    let signature = found.desc.signature.as_slice();
    carry(fate, signature, message, from, to, released)?;
    Ok(Passed::One)
}

/// What it means that no message was read.
fn unread(reason: NoMessage) -> Result<Passed, OutOfMemory>
    ensures { UnreadAs reason result }
{
    match reason {
        NoMessage::Incomplete => Ok(Passed::Nothing),
        NoMessage::Unknown(_, _) => Ok(Passed::Breach(Rule::Unknown)),
        NoMessage::Malformed => Ok(Passed::Breach(Rule::Malformed)),
        NoMessage::OutOfMemory => Err(OutOfMemory),
    }
}

/// Passes the first message that waits, if it is there whole and breaks no rule.
fn pass_one(
    policy: &Policy,
    session: &mut Session,
    side: Side,
    from: &mut Inbox,
    to: &mut Outbox,
    released: &mut Vec<Token>,
) -> Result<Passed, OutOfMemory>
    ensures { StepsAs policy.now side (known session.old) from.old to.old released.old.items result (known session.new) from.new to.new released.new.items }
{
    let Session {
        objects,
        told,
        ended,
        place,
    } = session;
    let message = &mut place.message;
    let found = match read_front(policy.table(), objects, side, from, message) {
        Ok(found) => found,
        Err(reason) => return unread(reason),
    };
    let passed = pass_found(
        policy, objects, told, ended, found, message, from, to, released,
    );
    clear_message(message);
    passed
}

/// Passes each message that waits whole, up to the first that breaks a rule.
pub fn pass(
    policy: &Policy,
    session: &mut Session,
    side: Side,
    from: &mut Inbox,
    to: &mut Outbox,
    released: &mut Vec<Token>,
) -> Result<Option<Rule>, OutOfMemory>
    ensures { PassesUpTo policy.now side (known session.old) from.old to.old released.old.items result (known session.new) from.new to.new released.new.items }
{
    'messages: loop {
        match pass_one(policy, session, side, from, to, released) {
            Ok(Passed::One) => {}
            Ok(Passed::Nothing) => return Ok(None),
            Ok(Passed::Breach(rule)) => return Ok(Some(rule)),
            Err(e) => return Err(e),
        }
    }
}
