//! How a connection ends, and what the client is told of that.

ghost use Rattle.std.specs.Prelude.{◌≡◌, ◌++◌, IfOk, OnErr, OnOk};
ghost use Rattle.std.specs.String.{string_bytes};
ghost use Rattle.wl_wire.specs.Message.{content};
ghost use Rattle.wl_link.specs.Exchange.{joined};
ghost use Rattle.wl_link.specs.Store.{held};
ghost use Rattle.wl_guard.specs.Ends.{HoardsAs, PassesToEnd, breach_text, error_event, error_of, front_opcode, front_sender, hoards, object_name, object_text, row_name, rule_name, rule_text, told_end};
ghost use Rattle.wl_guard.specs.Guard.{ArrivesAt};
ghost use Rattle.wl_guard.specs.Known.{known};

use crate::inbox::Inbox;
use crate::outbox::Outbox;
use crate::policy::Policy;
use crate::session::{Rule, Session, pass};
use smallvec::SmallVec;
use std::alloc::{AllocError, Global};
use wl_follow::{MessageSource, Side};
use wl_link::ObjectMap;
use wl_wire::{Argument, CString, DISPLAY, Message, OutOfMemory, Protocol, Token, opcodes};

/// How many tokens may wait for their messages.
const MOST_TOKENS: usize = 112;

/// How many bytes no message has.
const NO_MESSAGE: usize = 65536;

/// The code of `wl_display.error` for an error of the implementation.
const IMPLEMENTATION: u32 = 3;

/// A breach of a rule.
#[derive(Clone, Copy, Debug, PartialEq, Eq)]
pub struct Breach {
    /// The side that broke it.
    pub side: Side,
    /// The rule.
    pub rule: Rule,
    /// The number of the object whose message broke it; 0 if not even the header of a message is there.
    pub object: u32,
    /// The opcode of the message; 0 if not even its header is there.
    pub opcode: u16,
}

/// Why nothing more is taken from either side.
#[derive(Clone, Copy, Debug, PartialEq, Eq)]
pub enum End {
    /// A side broke a rule.
    Breach(Breach),
    /// There was no memory.
    OutOfMemory,
    /// The program hung up ([`Guard::hang_up`](crate::Guard::hang_up)).
    HungUp,
}

impl Rule {
    /// The words for it in an error.
    fn name(self) -> &'static str
        ensures { result.now ≡ rule_name self }
    {
        match self {
            Rule::Malformed => "the format",
            Rule::Unknown => "the table",
            Rule::Destroyed => "its destructor",
            Rule::Length => "its length",
            Rule::Version => "its version",
            Rule::Policy => "policy",
            Rule::Global => "what was announced",
            Rule::NewId => "its new number",
            Rule::Objects => "the limit of objects",
            Rule::Globals => "the limit of globals",
            Rule::Descriptors => "its descriptors",
        }
    }
}

/// Whether descriptors wait that no message takes, or a message waits for a descriptor.
fn hoards(from: &Inbox) -> bool
    ensures { result ≡ hoards from.now }
{
    from.tokens_left() > MOST_TOKENS || from.len() >= NO_MESSAGE
}

/// The breach of the rule by the message at the front.
fn breach_at(side: Side, rule: Rule, from: &Inbox) -> Breach
    ensures sides { (result.side ≡ side) × (result.rule ≡ rule) }
    ensures front { (result.object ≡ front_sender from.now) × (result.opcode ≡ front_opcode from.now) }
{
    let (object, opcode) = from.next_header().unwrap_or((0, 0));
    Breach {
        side,
        rule,
        object,
        opcode,
    }
}

/// The end, if descriptors wait that no message takes, or a message waits for one.
fn hoarded(side: Side, from: &Inbox) -> Option<End>
    ensures { HoardsAs side from.now result }
{
    if hoards(from) {
        Some(End::Breach(breach_at(side, Rule::Descriptors, from)))
    } else {
        None
    }
}

/// Passes each message that a side sent, up to one that awaits more, or to an end.
fn pass_side(
    policy: &Policy,
    session: &mut Session,
    side: Side,
    from: &mut Inbox,
    to: &mut Outbox,
    released: &mut Vec<Token>,
) -> Option<End>
    ensures { PassesToEnd policy.now side (known session.old) from.old to.old released.old.items result (known session.new) from.new to.new released.new.items }
{
    match pass(policy, session, side, from, to, released) {
        Ok(Some(rule)) => Some(End::Breach(breach_at(side, rule, from))),
        Ok(None) => hoarded(side, from),
        Err(_) => Some(End::OutOfMemory),
    }
}

/// The name of the interface of the object that has the number.
fn object_name<'t>(table: &'t Protocol, objects: &ObjectMap<()>, number: u32) -> &'t str
    ensures { result.now ≡ object_name table.now objects.now.store number }
{
    match objects.find(number) {
        Some(object) => table.name(object.interface),
        None => "[unknown]",
    }
}

/// The name of a request of that object.
fn row_name<'t>(table: &'t Protocol, objects: &ObjectMap<()>, number: u32, opcode: u16) -> &'t str
    ensures { result.now ≡ row_name table.now opcode (held objects.now.store number) }
{
    let Some(object) = objects.find(number) else {
        return "[unknown]";
    };
    match table.request(object.interface, opcode) {
        Some(row) => row.name.as_str(),
        None => "[unknown]",
    }
}

/// Appends the rule that was broken.
fn push_rule(text: &mut String, rule: Rule) -> Result<(), AllocError>
    ensures { OnOk result (string_bytes text.new ≡ string_bytes text.old ++ rule_text rule) }
{
    let name = rule.name();
    write!(text, "refused by {name}: ")
}

/// Appends the name of an interface and the number of an object.
fn push_object(text: &mut String, name: &str, number: u32) -> Result<(), AllocError>
    ensures { OnOk result (string_bytes text.new ≡ string_bytes text.old ++ object_text name.now number) }
{
    write!(text, "{name}#{number}.")
}

/// What tells the client which rule which request of it broke.
fn breach_text(
    alloc: Global,
    table: &Protocol,
    objects: &ObjectMap<()>,
    breach: Breach,
) -> Result<String, AllocError>
    ensures { IfOk result (λ text. string_bytes text ≡ breach_text table.now objects.now.store breach) }
{
    let mut text = String::new(alloc);
    push_rule(&mut text, breach.rule)?;
    push_object(
        &mut text,
        object_name(table, objects, breach.object),
        breach.object,
    )?;
    text.push_str(row_name(table, objects, breach.object, breach.opcode))?;
    Ok(text)
}

/// The event `wl_display.error` with this text.
fn error_event(alloc: Global, text: String) -> Result<Message<u32, Token>, OutOfMemory>
    ensures { IfOk result (λ event. content event ≡ error_event (string_bytes text)) }
{
    // No name of a table has a zero byte, so the text has none.
    let Ok(text) = CString::new(text.into_bytes()) else {
        return Err(OutOfMemory);
    };
    let mut args = SmallVec::new(alloc);
    args.push_reserved(Argument::Object(DISPLAY));
    args.push_reserved(Argument::Uint(IMPLEMENTATION));
    args.push_reserved(Argument::Str(Some(text)));
    Ok(Message {
        sender_id: DISPLAY,
        opcode: opcodes::ERROR,
        args,
    })
}

/// Tells the client of its breach. The error says that there was no memory. Then nothing is told.
fn tell_breach(
    alloc: Global,
    policy: &Policy,
    session: &Session,
    breach: Breach,
    to: &mut Outbox,
) -> Result<(), OutOfMemory>
    ensures told { OnOk result (to.new ≡ joined to.old (error_of policy.now (known session.now) breach)) }
    ensures unchanged { OnErr result (to.new ≡ to.old) }
{
    let text = breach_text(alloc, policy.table(), &session.objects, breach)?;
    let event = error_event(alloc, text)?;
    to.write(&event)
}

/// Tells the client, if the connection has ended by its breach. The error says that there was no memory. Then nothing is told.
fn tell_end(
    alloc: Global,
    policy: &Policy,
    session: &Session,
    end: Option<End>,
    to: &mut Outbox,
) -> Result<(), OutOfMemory>
    ensures told { OnOk result (to.new ≡ told_end policy.now (known session.now) end to.old) }
    ensures unchanged { OnErr result (to.new ≡ to.old) }
{
    match end {
        Some(End::Breach(breach)) if breach.side == Side::Client => {
            tell_breach(alloc, policy, session, breach, to)
        }
        _ => Ok(()),
    }
}

/// Passes each message that a side sent, up to one that awaits more, or to an end. A breach of the client is told to it.
pub fn pass_and_tell(
    policy: &Policy,
    session: &mut Session,
    side: Side,
    from: &mut Inbox,
    to: &mut Outbox,
    back: &mut Outbox,
    released: &mut Vec<Token>,
) -> Option<End>
    ensures { ArrivesAt policy.now side (known session.old) from.old to.old back.old released.old.items result (known session.new) from.new to.new back.new released.new.items }
{
    let end = pass_side(policy, session, side, from, to, released);
    match tell_end(*released.allocator(), policy, session, end, back) {
        Ok(()) => end,
        Err(_) => Some(End::OutOfMemory),
    }
}
