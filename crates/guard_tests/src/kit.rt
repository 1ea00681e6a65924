//! What both sides send, and what becomes of it, as data.

use std::alloc::Global;
use std::test::Fail;
use test_kit::log::holds;
use test_kit::message::{Arg, message};
use test_kit::quad::quad_table;
use wl_guard::{ArriveError, End, Guard, Limits, Policy, PolicyError, Rule, Side};
use wl_wire::{Message, Token, write_to_buffers};

/// An interface of a global.
#[derive(Clone, Copy)]
pub enum Named {
    /// `quad`.
    Quad,
    /// `pair`.
    Pair,
    /// One that the table does not have.
    Other,
}

impl Named {
    /// Its name.
    fn bytes(self) -> &'static [u8] {
        match self {
            Named::Quad => b"quad",
            Named::Pair => b"pair",
            Named::Other => b"none",
        }
    }
}

/// A message.
#[derive(Clone, Copy)]
pub enum Sent {
    /// `wl_display.sync`, whose callback has this number.
    Sync(u32),
    /// `wl_display.get_registry`, as object 2.
    Registry,
    /// `wl_display.error`, of code 3 for the display, with this text.
    Error(&'static [u8]),
    /// `wl_registry.global`, by object 2: a number, an interface and a version.
    Announced(u32, Named, u32),
    /// `wl_registry.global_remove`, by object 2, of this number.
    TakenBack(u32),
    /// `wl_registry.bind`, by object 2: a number, an interface and a version, as object 3.
    Bound(u32, Named, u32),
    /// `quad.poke` or `quad.moved`, by this object, of this number.
    Poked(u32, i32),
    /// `quad.make` or `quad.made`, by object 3, of an object of this number.
    Made(u32),
    /// `quad.destroy`, by this object.
    Ended(u32),
    /// `quad.link`, by object 3, of no object and itself.
    Linked,
    /// `quad.give`, by object 3, with the descriptor 9.
    Given,
    /// `pair.join` or `pair.joined`, by object 3, of itself twice, with the descriptor 9.
    Joined,
}

/// Bytes and tokens that a side sends as they are.
#[derive(Clone, Copy)]
pub struct Raw {
    /// The side.
    pub side: Side,
    /// The bytes.
    pub bytes: &'static [u8],
    /// The tokens.
    pub tokens: &'static [Token],
}

/// Nothing.
pub const NOTHING: Raw = Raw {
    side: Side::Client,
    bytes: &[],
    tokens: &[],
};

/// Which globals the policy of a test allows.
#[derive(Clone, Copy)]
pub enum Allowed {
    /// `quad` up to version 2.
    Quad,
    /// The same, and `pair`.
    QuadAndPair,
}

/// A session: what is sent, one message after another, and what comes of it.
pub struct Row {
    /// Its name.
    pub name: &'static str,
    /// What the sides send, in this order.
    pub sends: &'static [(Side, Sent)],
    /// What a side sends at last.
    pub last: Raw,
    /// What the compositor is sent.
    pub to_server: &'static [Sent],
    /// What the client is sent.
    pub to_client: &'static [Sent],
    /// The tokens that are given back, the last first.
    pub released: &'static [i32],
    /// The rule that is broken.
    pub rule: Option<Rule>,
}

/// The limits of the tests' policy.
const LIMITS: Limits = Limits {
    objects: 6,
    globals: 3,
    waiting: 4096,
};

/// Sets the rules of the tests' policy.
fn set_rules(policy: &mut Policy, allowed: Allowed) -> Result<(), PolicyError> {
    policy.allow("quad", 2)?;
    policy.refuse("quad", "link")?;
    policy.ignore("quad", "give")?;
    match allowed {
        Allowed::Quad => Ok(()),
        Allowed::QuadAndPair => policy.allow("pair", 1),
    }
}

/// The policy of the tests: `quad` up to version 2, of which `link` is refused and `give` ignored, and `pair` if it is allowed.
pub fn policy_of(alloc: Global, allowed: Allowed) -> Result<Policy, Fail> {
    let mut policy = Policy::new(alloc, quad_table(alloc)?, LIMITS)?;
    set_rules(&mut policy, allowed)?;
    Ok(policy)
}

/// Bytes and tokens.
#[derive(Drop)]
pub struct Pieces {
    /// The bytes.
    pub bytes: Vec<u8>,
    /// The tokens.
    pub tokens: Vec<Token>,
}

/// Appends the message, which this room has to hold.
fn write(pieces: &mut Pieces, room: &mut [u8], message: &Message<u32, Token>) -> Result<(), Fail> {
    let len = write_to_buffers(message, room, &mut pieces.tokens)?;
    let (bytes, _) = room.split_at(len.min(room.len()));
    pieces.bytes.extend_from_slice(bytes)?;
    Ok(())
}

/// The message, by an object that a client binds.
fn message_of_bound(alloc: Global, sent: Sent) -> Result<Message<u32, Token>, Fail> {
    match sent {
        Sent::Poked(object, value) => message(alloc, (object, 0), &[Arg::Int(value)]),
        Sent::Made(number) => message(alloc, (3, 1), &[Arg::NewId(number)]),
        Sent::Ended(object) => message(alloc, (object, 2), &[]),
        Sent::Linked => message(alloc, (3, 3), &[Arg::Object(0), Arg::Object(3)]),
        Sent::Given => {
            let args = [Arg::Str(b"a"), Arg::Array(b"b"), Arg::Fd(9)];
            message(alloc, (3, 4), &args)
        }
        _ => {
            let args = [
                Arg::Object(3),
                Arg::Object(3),
                Arg::Str(b"a"),
                Arg::Array(b"b"),
                Arg::Fd(9),
            ];
            message(alloc, (3, 0), &args)
        }
    }
}

/// The message.
fn message_of(alloc: Global, sent: Sent) -> Result<Message<u32, Token>, Fail> {
    match sent {
        Sent::Sync(number) => message(alloc, (1, 0), &[Arg::NewId(number)]),
        Sent::Registry => message(alloc, (1, 1), &[Arg::NewId(2)]),
        Sent::Error(text) => {
            let args = [Arg::Object(1), Arg::Uint(3), Arg::Str(text)];
            message(alloc, (1, 0), &args)
        }
        Sent::Announced(number, interface, version) => {
            let args = [
                Arg::Uint(number),
                Arg::Str(interface.bytes()),
                Arg::Uint(version),
            ];
            message(alloc, (2, 0), &args)
        }
        Sent::TakenBack(number) => message(alloc, (2, 1), &[Arg::Uint(number)]),
        Sent::Bound(number, interface, version) => {
            let args = [
                Arg::Uint(number),
                Arg::Str(interface.bytes()),
                Arg::Uint(version),
                Arg::NewId(3),
            ];
            message(alloc, (2, 0), &args)
        }
        _ => message_of_bound(alloc, sent),
    }
}

/// Appends the message.
fn push(alloc: Global, pieces: &mut Pieces, one: Sent) -> Result<(), Fail> {
    let message = message_of(alloc, one)?;
    write(pieces, &mut [0; 1024], &message)
}

/// Appends the messages.
fn push_all(alloc: Global, pieces: &mut Pieces, messages: &[Sent]) -> Result<(), Fail> {
    for one in messages {
        push(alloc, pieces, *one)?;
    }
    Ok(())
}

/// The bytes and tokens of the messages.
pub fn spelled(alloc: Global, messages: &[Sent]) -> Result<Pieces, Fail> {
    let mut pieces = Pieces {
        bytes: Vec::new(alloc),
        tokens: Vec::new(alloc),
    };
    push_all(alloc, &mut pieces, messages)?;
    Ok(pieces)
}

/// Whether this is to be sent to the side, in one send.
fn is_to_send(alloc: Global, guard: &Guard, side: Side, messages: &[Sent]) -> Result<bool, Fail> {
    let pieces = spelled(alloc, messages)?;
    let (bytes, tokens) = guard.to_send(side);
    Ok(bytes == pieces.bytes.as_slice() && tokens == pieces.tokens.as_slice())
}

/// Puts in what a side sends, in single bytes if so: all tokens come with the first.
fn put_one(
    policy: &Policy,
    guard: &mut Guard,
    side: Side,
    bytes: &[u8],
    tokens: &[Token],
    is_cut: bool,
) {
    if !is_cut || bytes.is_empty() {
        let _ = guard.arrive(policy, side, bytes, tokens);
        return;
    }
    let mut tokens = tokens;
    for byte in bytes {
        let _ = guard.arrive(policy, side, &[*byte], tokens);
        tokens = &[];
    }
}

/// Puts in what the sides send, one message after another.
pub fn put_in(
    alloc: Global,
    policy: &Policy,
    guard: &mut Guard,
    sends: &[(Side, Sent)],
    is_cut: bool,
) -> Result<(), Fail> {
    for (side, one) in sends {
        let pieces = spelled(alloc, &[*one])?;
        put_one(policy, guard, *side, &pieces.bytes, &pieces.tokens, is_cut);
    }
    Ok(())
}

/// Whether these tokens are given back, and then none.
fn are_released(guard: &mut Guard, released: &[i32]) -> bool {
    let mut all = true;
    for number in released {
        all = all && guard.next_released() == Some(Token(*number));
    }
    all && guard.next_released().is_none()
}

/// The rule that was broken.
fn rule_of(guard: &Guard) -> Option<Rule> {
    match guard.end() {
        Some(End::Breach(breach)) => Some(breach.rule),
        _ => None,
    }
}

/// What came of a row: whether each part of it is as the row says.
#[derive(Clone, Copy)]
struct Outcome {
    to_server: bool,
    to_client: bool,
    rule: bool,
    released: bool,
    end: bool,
}

/// Puts in what both sides send, and answers whether that comes of it which the row says.
fn outcome_of(
    alloc: Global,
    policy: &Policy,
    guard: &mut Guard,
    row: &Row,
    is_cut: bool,
) -> Result<Outcome, Fail> {
    put_in(alloc, policy, guard, row.sends, is_cut)?;
    let last = row.last;
    put_one(policy, guard, last.side, last.bytes, last.tokens, is_cut);
    let to_server = is_to_send(alloc, guard, Side::Server, row.to_server)?;
    let to_client = is_to_send(alloc, guard, Side::Client, row.to_client)?;
    let rule = rule_of(guard) == row.rule;
    let released = are_released(guard, row.released);
    let ended = guard.arrive(policy, Side::Client, &[], &[]);
    Ok(Outcome {
        to_server,
        to_client,
        rule,
        released,
        end: (ended == Err(ArriveError::Ended)) == row.rule.is_some(),
    })
}

/// The same with a new guard.
fn outcome_of_new(
    alloc: Global,
    policy: &Policy,
    row: &Row,
    is_cut: bool,
) -> Result<Outcome, Fail> {
    let mut guard = Guard::new(alloc)?;
    let outcome = outcome_of(alloc, policy, &mut guard, row, is_cut);
    drop(guard);
    outcome
}

/// The same under a new policy.
fn outcome_under(
    alloc: Global,
    allowed: Allowed,
    row: &Row,
    is_cut: bool,
) -> Result<Outcome, Fail> {
    let policy = policy_of(alloc, allowed)?;
    let outcome = outcome_of_new(alloc, &policy, row, is_cut);
    drop(policy);
    outcome
}

/// Fails if something else comes of the row, its messages cut into single bytes or not.
pub fn row_holds(
    rt: &(impl Eprint + AllocGlobal),
    row: &Row,
    allowed: Allowed,
    is_cut: bool,
) -> Result<(), Fail> {
    let outcome = outcome_under(rt.alloc(), allowed, row, is_cut)?;
    holds(rt, row.name, outcome.to_server)?;
    holds(rt, row.name, outcome.to_client)?;
    holds(rt, row.name, outcome.rule)?;
    holds(rt, row.name, outcome.released)?;
    holds(rt, row.name, outcome.end)
}
