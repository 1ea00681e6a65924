//! The relay: a link to each side, and what it knows of the session.

ghost use Rattle.std.specs.Prelude.{◌≡◌, ◌≢◌, ◌↔◌, ◌+◌, ◌<◌, ◌≤◌, ◌∷◌, [], Err, IfOk, List, OnErr, OnOk, MatchOption, length, map};
ghost use Rattle.std.specs.String.{string_bytes};
ghost use Rattle.wl_link.specs.Exchange.{nothing};
ghost use Rattle.wl_link.specs.MailboxLink.{still_to_send};
ghost use Rattle.wl_relay.specs.Flow.{AreOpen, Arrives, Begins, GivesOut, IsOpen, KeepsAll, KeepsOtherWay, KeepsReady, Logged, LogsRead, MakesReady, PutsIn, ReadsAll, Sent, TakesLine, TakesLog, TakesOut, made_ready, not_received, one_send, settings, to_send};
ghost use Rattle.wl_relay.specs.Inside.Passing.{IsNew, KeepsSettings};
ghost use Rattle.wl_relay.specs.declared.relay.ArriveError.TheVariants.{TooManyTokens};

use crate::follow::{Link, receive};
use crate::mode::Mode;
use crate::notes::Notes;
use std::alloc::Global;
use std::collections::VecDeque;
use std::fmt;
use std::marker::Model;
use thiserror::Error;
use wl_follow::Side;
use wl_link::{BufferedSocket, Mailbox, MailboxError};
use wl_wire::{IoFault, OutOfMemory, Protocol, Token};

/// Why the relay did not take what came.
#[derive(Clone, Copy, Debug, PartialEq, Eq, Error)]
pub enum ArriveError {
    /// More than 28 tokens came, with those that wait for their first byte.
    #[error("more than 28 tokens came")]
    TooManyTokens,
    /// There was no memory. The relay is of no more use.
    #[error("out of memory")]
    OutOfMemory,
}

/// A relay between a client and a server.
///
/// The program puts in what came from a side ([`arrive`](Relay::arrive)), and takes out what is to be sent to a side
/// ([`next_send`](Relay::next_send)); or it leaves it there until it was sent ([`make_ready`](Relay::make_ready),
/// [`ready`](Relay::ready), [`sent`](Relay::sent)). As long as the relay has dropped and lowered no announcement, what goes to each
/// side is what came from the other: the same bytes and tokens in the same order, however they are cut.
///
/// What is to be sent has no limit but memory, so take it out after each call.
///
/// Each message that it hands on, drops or lowers has a line in its log, in the order in which the messages came
/// ([`next_line`](Relay::next_line), [`take_log`](Relay::take_log)).
#[derive(Drop)]
pub struct Relay {
    table: Protocol,
    notes: Notes,
    client: Link,
    server: Link,
}

impl Model for Relay {
    ghost use Rattle.std.specs.Coded.{codes};
    ghost use Rattle.wl_link.specs.ObjectMap.{store_code};
    ghost use Rattle.wl_relay.specs.Flow.{IsOpen, RelayState};
    ghost use Rattle.wl_relay.specs.Log.{known};

    ghost Value = { RelayState };

    ghost coded = { Prim.hlevel (codes, store_code) };

    ghost view = { λ r. record { client = r.client; server = r.server; table = r.table; known = known r.notes } };

    ghost invariant = { λ r. IsOpen r.client × IsOpen r.server };
}

impl fmt::Debug for Relay {
    fn fmt<W: fmt::Write>(&self, f: &mut fmt::Formatter<W>) -> fmt::Result {
        f.write_str("Relay { .. }")
    }
}

/// A link over a mailbox, on which nothing has happened.
fn new_link(alloc: Global) -> Result<Link, OutOfMemory>
    ensures { IfOk result IsNew }
{
    BufferedSocket::new(alloc, Mailbox::new(alloc), None)
}

/// The links to both sides.
fn new_links(alloc: Global) -> Result<(Link, Link), OutOfMemory>
    ensures { IfOk result (λ links. IsNew links.0 × IsNew links.1) }
{
    let client = new_link(alloc)?;
    let server = new_link(alloc)?;
    Ok((client, server))
}

/// What came arrives in the mailbox of the link.
fn put_in(link: &mut Link, bytes: &[u8], tokens: &[Token]) -> Result<(), ArriveError>
    ensures put { OnOk result (PutsIn link.old (record { bytes = bytes.now; tokens = tokens.now }) link.new) }
    ensures refused { OnErr result (link.new ≡ link.old) }
    ensures settings { KeepsSettings link.old link.new }
    ensures too_many { (result ≡ Err TooManyTokens) ↔ (28 < length link.old.transport.arrived.tokens + length tokens.now) }
{
    match link.transport_mut().arrive(bytes, tokens) {
        Ok(()) => Ok(()),
        Err(MailboxError::TooManyTokens) => Err(ArriveError::TooManyTokens),
        Err(MailboxError::OutOfMemory) => Err(ArriveError::OutOfMemory),
    }
}

/// Takes out what waits in the mailbox of the link: all of its bytes, of which there are some, with the tokens.
fn take_out(alloc: Global, link: &mut Link) -> Result<(Vec<u8>, Vec<Token>), OutOfMemory>
    requires { 0 < length link.old.transport.waiting.bytes }
    ensures given { IfOk result (λ out. GivesOut link.old (record { bytes = out.0.items; tokens = out.1.items }) link.new) }
    ensures some { IfOk result (λ out. out.0.items ≢ []) }
    ensures few { IfOk result (λ out. length out.1.items ≤ 28) }
    ensures all { IfOk result (λ out. record { bytes = out.0.items; tokens = out.1.items } ≡ link.old.transport.waiting) }
    ensures none_ready { OnOk result (link.new.transport.waiting ≡ nothing) }
    ensures unchanged { OnErr result (link.new ≡ link.old) }
    ensures settings { settings link.new ≡ settings link.old }
{
    let bytes = Vec::from_slice(alloc, link.transport().bytes())?;
    let tokens = Vec::from_slice(alloc, link.transport().tokens())?;
    link.transport_mut().sent(bytes.len());
    Ok((bytes, tokens))
}

/// Sends into the mailbox what waits on the link, unless bytes are there.
fn make_ready(link: &mut Link) -> Result<(), OutOfMemory>
    requires is_open { IsOpen link.old }
    ensures kept { GivesOut link.old nothing link.new }
    ensures earlier { OnOk result (link.old.transport.waiting.bytes ≢ [] → link.new ≡ link.old) }
    ensures none { OnOk result ((still_to_send link.old).bytes ≡ [] → link.new ≡ link.old) }
    ensures some { OnOk result (link.new.transport.waiting.bytes ≡ [] → (still_to_send link.old).bytes ≡ []) }
    ensures whole { link.old.transport.waiting ≡ nothing → (still_to_send link.old).bytes ≢ []
        → OnOk result (link.new.transport.waiting ≡ one_send (still_to_send link.old)) }
    ensures memory { OnErr result ((still_to_send link.old).bytes ≢ []) }
    ensures settings { settings link.new ≡ settings link.old }
{
    if !link.transport().bytes().is_empty() {
        return Ok(());
    }
    let flushed = link.flush();
    if flushed == Err(IoFault::OutOfMemory) {
        return Err(OutOfMemory);
    }
    if link.transport().bytes().is_empty() {
        // A mailbox in which nothing waits takes what a send offers.
        return match flushed {
            Ok(()) => Ok(()),
            Err(_) => Err(OutOfMemory),
        };
    }
    Ok(())
}

/// Takes out what is to be sent next; `None` if nothing waits.
fn send(alloc: Global, link: &mut Link) -> Result<Option<(Vec<u8>, Vec<Token>)>, OutOfMemory>
    requires is_open { IsOpen link.old }
    ensures given { IfOk result (λ out. MatchOption out (link.new ≡ link.old)
        (λ x. GivesOut link.old (record { bytes = x.0.items; tokens = x.1.items }) link.new)) }
    ensures none { IfOk result (λ out. MatchOption out ((still_to_send link.old).bytes ≡ []) (λ x. x.0.items ≢ [])) }
    ensures few { IfOk result (λ out. MatchOption out (Unit {0}) (λ x. length x.1.items ≤ 28)) }
    ensures whole { link.old.transport.waiting ≡ nothing → IfOk result (λ out. MatchOption out (Unit {0})
        (λ x. record { bytes = x.0.items; tokens = x.1.items } ≡ one_send (still_to_send link.old))) }
    ensures none_ready { IfOk result (λ out. MatchOption out (Unit {0}) (λ x. link.new.transport.waiting ≡ nothing)) }
    ensures kept { OnErr result (GivesOut link.old nothing link.new) }
    ensures memory { OnErr result ((still_to_send link.old).bytes ≢ []) }
    ensures settings { settings link.new ≡ settings link.old }
{
    make_ready(link)?;
    if link.transport().bytes().is_empty() {
        return Ok(None);
    }
    Ok(Some(take_out(alloc, link)?))
}

impl Relay {
    /// A relay of a session that begins, with this table of interfaces. Nothing is on its way yet, and the log is empty.
    pub fn new(alloc: Global, table: Protocol, mode: Mode) -> Result<Self, OutOfMemory>
        ensures begins { IfOk result (λ relay. Begins relay) }
        ensures is_open { IfOk result (λ relay. AreOpen relay) }
        ensures made { IfOk result (λ relay. (relay.table ≡ table) × (relay.known.mode ≡ mode)) }
    {
        let notes = Notes::new(alloc, mode)?;
        let (client, server) = new_links(alloc)?;
        Ok(Relay {
            table,
            notes,
            client,
            server,
        })
    }

    /// Takes what came from one side, and logs and hands on all that is whole.
    ///
    /// The log gains a line for each message that is read, in their order. A message that cannot be read ends the reading of that
    /// side: the log gains a line that says why, and what the side sends is handed on as it is, without lines, from then on. Tokens
    /// that came without bytes wait for the next byte.
    ///
    /// The error is `TooManyTokens` if more than 28 tokens would wait so, which changes nothing, and else `OutOfMemory`, after which
    /// the relay is of no more use.
    pub fn arrive(&mut self, side: Side, bytes: &[u8], tokens: &[Token]) -> Result<(), ArriveError>
        ensures arrived { OnOk result (Arrives side (record { bytes = bytes.now; tokens = tokens.now }) self.old self.new) }
        ensures logged { OnOk result (Logged side (record { bytes = bytes.now; tokens = tokens.now }) self.old self.new) }
        ensures read { OnOk result (ReadsAll side self.new) }
        ensures other_way { OnOk result (KeepsOtherWay side self.old self.new) }
        ensures is_open { AreOpen self.new }
        ensures ready { KeepsReady self.old self.new }
        ensures too_many { (result ≡ Err TooManyTokens) ↔ (28 < length (not_received side self.old).tokens + length tokens.now) }
        ensures refused { result ≡ Err TooManyTokens → self.new ≡ self.old }
    {
        match side {
            Side::Client => put_in(&mut self.client, bytes, tokens)?,
            Side::Server => put_in(&mut self.server, bytes, tokens)?,
        }
        match self.receive_from(side) {
            Ok(()) => Ok(()),
            Err(_) => Err(ArriveError::OutOfMemory),
        }
    }

    /// Receives what is in the mailbox of a side, and hands it on.
    fn receive_from(&mut self, side: Side) -> Result<(), OutOfMemory>
        ensures arrived { OnOk result (Arrives side nothing self.old self.new) }
        ensures logged { OnOk result (LogsRead side self.old self.new) }
        ensures read { OnOk result (ReadsAll side self.new) }
        ensures other_way { OnOk result (KeepsOtherWay side self.old self.new) }
        ensures is_open { AreOpen self.new }
        ensures ready { KeepsReady self.old self.new }
    {
        match side {
            Side::Client => {
                receive(
                    &self.table,
                    &mut self.notes,
                    side,
                    &mut self.client,
                    &mut self.server,
                )
            }
            Side::Server => {
                receive(
                    &self.table,
                    &mut self.notes,
                    side,
                    &mut self.server,
                    &mut self.client,
                )
            }
        }
    }

    /// Takes out the next that is to be sent to a side: bytes, of which there are some, and the tokens that go with the first of
    /// them. If at most 28 tokens are to be sent, that is all bytes and all tokens; if more, it is one byte with the first 28. It
    /// is `None` if no bytes are to be sent, and only then; tokens wait for the next byte.
    ///
    /// `OutOfMemory` comes only if bytes are to be sent, and loses nothing: what was made ready goes first in the next call, and may
    /// be less than that.
    pub fn next_send(
        &mut self,
        alloc: Global,
        side: Side,
    ) -> Result<Option<(Vec<u8>, Vec<Token>)>, OutOfMemory>
        ensures taken { IfOk result (λ out. MatchOption out (((to_send side self.old).bytes ≡ []) × (self.new ≡ self.old))
            (λ x. TakesOut side (record { bytes = x.0.items; tokens = x.1.items }) self.old self.new)) }
        ensures kept { OnErr result (KeepsAll side self.old self.new) }
        ensures memory { OnErr result ((to_send side self.old).bytes ≢ []) }
        ensures is_open { AreOpen self.new }
    {
        match side {
            Side::Client => send(alloc, &mut self.client),
            Side::Server => send(alloc, &mut self.server),
        }
    }

    /// Makes ready what is to be sent to a side next ([`ready`](Relay::ready)). If something is ready, it stays as it is: it has to
    /// be sent first. If not, it is what [`next_send`](Relay::next_send) would take out.
    ///
    /// `OutOfMemory` comes only if bytes are to be sent, and loses nothing. What was made ready by then is sent first, and may be less.
    pub fn make_ready(&mut self, side: Side) -> Result<(), OutOfMemory>
        ensures made { OnOk result (MakesReady side self.old self.new) }
        ensures kept { OnErr result (KeepsAll side self.old self.new) }
        ensures memory { OnErr result ((to_send side self.old).bytes ≢ []) }
        ensures is_open { AreOpen self.new }
    {
        match side {
            Side::Client => make_ready(&mut self.client),
            Side::Server => make_ready(&mut self.server),
        }
    }

    /// What was made ready for a side: bytes, and the tokens that go with the first of them, which are at most 28.
    pub fn ready(&self, side: Side) -> (&[u8], &[Token])
        ensures ready { record { bytes = result.0.now; tokens = result.1.now } ≡ made_ready side self.now }
        ensures few { length result.1.now ≤ 28 }
    {
        let mailbox = match side {
            Side::Client => self.client.transport(),
            Side::Server => self.server.transport(),
        };
        (mailbox.bytes(), mailbox.tokens())
    }

    /// Takes away what was sent of what was made ready for a side: so many of the bytes, or all if there are fewer. If the count is
    /// above 0, the tokens were sent too.
    pub fn sent(&mut self, side: Side, count: usize)
        ensures sent { Sent side count self.old self.new }
        ensures is_open { AreOpen self.new }
    {
        match side {
            Side::Client => self.client.transport_mut().sent(count),
            Side::Server => self.server.transport_mut().sent(count),
        }
    }

    /// The first line of the log; `None` if there is none.
    pub fn first_line(&self) -> Option<&str>
        ensures { MatchOption result (self.now.known.log ≡ []) (λ line. (rest : List _) × (self.now.known.log ≡ line.now ∷ rest)) }
    {
        match self.notes.log.front() {
            Some(line) => Some(line.as_str()),
            None => None,
        }
    }

    /// Takes the first line of the log out; `None` if there is none.
    pub fn next_line(&mut self) -> Option<String>
        ensures { MatchOption result ((self.old.known.log ≡ []) × (self.new ≡ self.old)) (λ line. TakesLine (string_bytes line) self.old self.new) }
    {
        self.notes.log.pop_front()
    }

    /// Takes the lines of the log out, in their order.
    pub fn take_log(&mut self, alloc: Global) -> Vec<String>
        ensures { TakesLog (map string_bytes result.items) self.old self.new }
    {
        std::mem::replace(&mut self.notes.log, VecDeque::new(alloc)).into_vec()
    }

    /// Whether an announcement was dropped, or its version lowered.
    pub fn has_changed(&self) -> bool
        ensures { result ≡ self.now.known.has_changed }
    {
        self.notes.has_changed
    }
}
