//! The guard.

ghost use Rattle.std.specs.Prelude.{◌≡◌, ◌↔◌, ◌<◌, ◌≤◌, Err, IfErr, IfOk, IsSome, None, OnErr, OnOk, length};
ghost use Rattle.wl_link.specs.Exchange.{joined};
ghost use Rattle.wl_follow.specs.Sides.{other_side};
ghost use Rattle.wl_follow.specs.declared.side.Side.TheVariants.{Client, Server};
ghost use Rattle.wl_guard.specs.Guard.{Arrives, ArrivesAt, GivesBack, HangsUp, Sent, new_guard, to_send};
ghost use Rattle.wl_guard.specs.Known.{known};
ghost use Rattle.wl_guard.specs.declared.guard.ArriveError.TheVariants.{OutOfMemory as NoMemory};
ghost use Rattle.wl_guard.specs.Queues.{one_send};

use crate::ending::{End, pass_and_tell};
use crate::inbox::Inbox;
use crate::outbox::Outbox;
use crate::policy::Policy;
use crate::session::Session;
use std::alloc::Global;
use std::fmt;
use std::marker::Model;
use thiserror::Error;
use wl_follow::Side;
use wl_wire::{OutOfMemory, Token};

/// Why a guard did not take what came. Nothing is changed.
#[derive(Clone, Copy, Debug, PartialEq, Eq, Error)]
pub enum ArriveError {
    /// The connection has ended.
    #[error("the connection has ended")]
    Ended,
    /// More bytes wait for the other side than the policy's limit.
    #[error("no room")]
    NoRoom,
    /// There was no memory.
    #[error("out of memory")]
    OutOfMemory,
}

/// A guard between a client and a compositor.
///
/// The program puts in what came from a side ([`arrive`](Guard::arrive)), and sends what is to be sent to a side
/// ([`to_send`](Guard::to_send), [`sent`](Guard::sent)). The compositor is sent what the client sent, message by message, as far as the
/// policy allows it; and the client what the compositor sent, but for globals that the policy does not allow.
///
/// Once a side breaks a rule, there is no memory, or the program hangs up ([`hang_up`](Guard::hang_up)), the connection has ended
/// ([`end`](Guard::end)): nothing more is taken. What is to be sent may still be sent.
///
/// Descriptors of what does not go on are given back for closing ([`next_released`](Guard::next_released)).
#[derive(Drop)]
pub struct Guard {
    session: Session,
    from_client: Inbox,
    from_server: Inbox,
    to_client: Outbox,
    to_server: Outbox,
    released: Vec<Token>,
    end: Option<End>,
}

impl Model for Guard {
    ghost use Rattle.std.specs.Coded.{codes};
    ghost use Rattle.wl_link.specs.ObjectMap.{store_code};
    ghost use Rattle.wl_guard.specs.Guard.{GuardState};
    ghost use Rattle.wl_guard.specs.Known.{known};

    ghost Value = { GuardState };

    ghost coded = { Prim.hlevel (codes, store_code) };

    ghost view = { λ g. record {
      known = known g.session;
      from_client = g.from_client;
      from_server = g.from_server;
      to_client = g.to_client;
      to_server = g.to_server;
      released = g.released.items;
      end = g.end;
    } };
}

impl fmt::Debug for Guard {
    fn fmt<W: fmt::Write>(&self, f: &mut fmt::Formatter<W>) -> fmt::Result {
        f.write_str("Guard { .. }")
    }
}

/// Keeps what came from a side, and passes all that is whole. A breach of the client is told to it.
///
/// The error says that there was no memory to keep what came. Then nothing is changed.
fn arrive_at(
    policy: &Policy,
    session: &mut Session,
    side: Side,
    bytes: &[u8],
    tokens: &[Token],
    from: &mut Inbox,
    to: &mut Outbox,
    back: &mut Outbox,
    released: &mut Vec<Token>,
) -> Result<Option<End>, ArriveError>
    ensures passed { IfOk result (λ end. ArrivesAt policy.now side (known session.old) (joined from.old (record { bytes = bytes.now; tokens = tokens.now })) to.old back.old released.old.items
        end (known session.new) from.new to.new back.new released.new.items) }
    ensures unchanged { OnErr result ((known session.new ≡ known session.old) × (from.new ≡ from.old) × (to.new ≡ to.old) × (back.new ≡ back.old) × (released.new.items ≡ released.old.items)) }
    ensures memory { IfErr result (λ e. e ≡ NoMemory) }
{
    match from.append(bytes, tokens) {
        Ok(()) => Ok(pass_and_tell(policy, session, side, from, to, back, released)),
        Err(_) => Err(ArriveError::OutOfMemory),
    }
}

impl Guard {
    /// A guard of a connection on which nothing was said.
    pub fn new(alloc: Global) -> Result<Self, OutOfMemory>
        ensures { IfOk result (λ guard. guard ≡ new_guard) }
    {
        Ok(Guard {
            session: Session::new(alloc)?,
            from_client: Inbox::new(alloc),
            from_server: Inbox::new(alloc),
            to_client: Outbox::new(alloc),
            to_server: Outbox::new(alloc),
            released: Vec::new(alloc),
            end: None,
        })
    }

    /// How many bytes wait for the side.
    pub fn waiting(&self, side: Side) -> usize
        ensures { result ≡ length (to_send side self.now).bytes }
    {
        match side {
            Side::Client => self.to_client.len(),
            Side::Server => self.to_server.len(),
        }
    }

    /// Takes what came from a side, and passes all that is whole, by this policy, which is the same in each call.
    ///
    /// The error is `Ended` once the connection has ended; else `NoRoom` as long as more bytes wait for the other side than the limit,
    /// which is no breach; and else `OutOfMemory` if there is no memory to keep what came. It changes nothing: what came is the caller's
    /// still, and may be put in again.
    pub fn arrive(
        &mut self,
        policy: &Policy,
        side: Side,
        bytes: &[u8],
        tokens: &[Token],
    ) -> Result<(), ArriveError>
        ensures arrived { OnOk result (Arrives policy.now side (record { bytes = bytes.now; tokens = tokens.now }) self.old self.new) }
        ensures ended { (result ≡ Err ArriveError.Ended) ↔ IsSome self.old.end }
        ensures no_room { (result ≡ Err ArriveError.NoRoom) ↔ ((self.old.end ≡ None) × (policy.now.limits.waiting < length (to_send (other_side side) self.old).bytes)) }
        ensures unchanged { OnErr result (self.new ≡ self.old) }
    {
        if self.end.is_some() {
            return Err(ArriveError::Ended);
        }
        if self.waiting(side.other()) > policy.limits().waiting {
            return Err(ArriveError::NoRoom);
        }
        match side {
            Side::Client => self.arrive_from_client(policy, bytes, tokens),
            Side::Server => self.arrive_from_server(policy, bytes, tokens),
        }
    }

    /// Takes what came from the client. The error says that there was no memory to keep it. Then nothing is changed.
    fn arrive_from_client(
        &mut self,
        policy: &Policy,
        bytes: &[u8],
        tokens: &[Token],
    ) -> Result<(), ArriveError>
        ensures arrived { OnOk result (self.old.end ≡ None → length self.old.to_server.bytes ≤ policy.now.limits.waiting → Arrives policy.now Client (record { bytes = bytes.now; tokens = tokens.now }) self.old self.new) }
        ensures unchanged { OnErr result (self.new ≡ self.old) }
        ensures memory { IfErr result (λ e. e ≡ NoMemory) }
    {
        self.end = arrive_at(
            policy,
            &mut self.session,
            Side::Client,
            bytes,
            tokens,
            &mut self.from_client,
            &mut self.to_server,
            &mut self.to_client,
            &mut self.released,
        )?;
        Ok(())
    }

    /// Takes what came from the compositor. The error says that there was no memory to keep it. Then nothing is changed.
    fn arrive_from_server(
        &mut self,
        policy: &Policy,
        bytes: &[u8],
        tokens: &[Token],
    ) -> Result<(), ArriveError>
        ensures arrived { OnOk result (self.old.end ≡ None → length self.old.to_client.bytes ≤ policy.now.limits.waiting → Arrives policy.now Server (record { bytes = bytes.now; tokens = tokens.now }) self.old self.new) }
        ensures unchanged { OnErr result (self.new ≡ self.old) }
        ensures memory { IfErr result (λ e. e ≡ NoMemory) }
    {
        self.end = arrive_at(
            policy,
            &mut self.session,
            Side::Server,
            bytes,
            tokens,
            &mut self.from_server,
            &mut self.to_client,
            &mut self.to_server,
            &mut self.released,
        )?;
        Ok(())
    }

    /// What one send to the side takes: all bytes that wait for it with all tokens, if these are at most 28; else one byte with the
    /// first 28. If there are no bytes, nothing is to be sent.
    pub fn to_send(&self, side: Side) -> (&[u8], &[Token])
        ensures { record { bytes = result.0.now; tokens = result.1.now } ≡ one_send (to_send side self.now) }
    {
        match side {
            Side::Client => self.to_client.to_send(),
            Side::Server => self.to_server.to_send(),
        }
    }

    /// So many of the bytes of one send were sent to the side, or all if they are fewer. If the count is above 0, its tokens were sent
    /// too.
    pub fn sent(&mut self, side: Side, count: usize)
        ensures { Sent side count self.old self.new }
    {
        match side {
            Side::Client => self.to_client.sent(count),
            Side::Server => self.to_server.sent(count),
        }
    }

    /// The next token that is given back for closing; `None` if there is none now. These are the tokens of messages that did not go on,
    /// and, once the connection has ended, those that were not read.
    pub fn next_released(&mut self) -> Option<Token>
        ensures { GivesBack self.old result self.new }
    {
        if let Some(token) = self.released.pop() {
            return Some(token);
        }
        if self.end.is_none() {
            return None;
        }
        match self.from_client.pop_token() {
            Some(token) => Some(token),
            None => self.from_server.pop_token(),
        }
    }

    /// Ends the connection, as a program does once a side has hung up; one that has ended stays as it is. What is to be sent may still be
    /// sent, and what was not read is given back.
    pub fn hang_up(&mut self)
        ensures ended { self.old.end ≡ None → HangsUp self.old self.new }
        ensures unchanged { IsSome self.old.end → self.new ≡ self.old }
    {
        self.end = Some(self.end.unwrap_or(End::HungUp));
    }

    /// How the connection ended; `None` if it has not.
    pub fn end(&self) -> Option<End>
        ensures { result ≡ self.now.end }
    {
        self.end
    }
}
