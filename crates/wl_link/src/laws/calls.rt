//! What follows from the definitions of a link and its transports alone, for one call or several. Each function does nothing;
//! its contract states a law.

ghost use Rattle.std.specs.Prelude.{◌≡◌, ◌≢◌, ℕ, List, Option, Result, Err};
ghost use Rattle.wl_wire.specs.declared.argument.ArgumentType.{ArgumentType};
ghost use Rattle.wl_wire.specs.declared.error.IoFault.{IoFault};
ghost use Rattle.wl_wire.specs.declared.error.IoFault.TheVariants as fault;
ghost use Rattle.wl_wire.specs.declared.error.MessageParseError.TheVariants as errors;
ghost use Rattle.wl_wire.specs.Message.{WireMessage};
ghost use Rattle.wl_link.specs.Exchange.{Queue, Sending, IsFunction, IsReceiveFunction, nothing};
ghost use Rattle.wl_link.specs.Script.{ScriptSends, ScriptReceives};
ghost use Rattle.wl_link.specs.Mailbox.{MailboxState, MailboxSends, MailboxReceives};
ghost use Rattle.wl_link.specs.MailboxCalls.{DoesAll, MailboxCall, MailboxKeeps, StaysWithinRoom};
ghost use Rattle.wl_link.specs.MailboxLink.{KeepsWhatCame, KeepsWhatGoes};
ghost use Rattle.wl_link.specs.Link.{LinkState, Filled, Flushed, FlushedBy, Wrote, WroteBy, FilledBy, ReadOne};
ghost use Rattle.wl_link.specs.NothingLost.{Drains, FlushKeeps, FlushDrains, LosesNothing, WriteKeeps, queued_by};
ghost use Rattle.wl_link.specs.Relayed.{RelayLaw};
ghost use Rattle.wl_link.specs.Outcome.{SameCall, SameFill, SameRead};
ghost use Rattle.wl_link.specs.Sides.{StreamLaw, AllReadLaw, CuttingLaw, ReadTakes, RoomLaw};

use crate::limit::{DEFAULT_MAX_BUFFER_SIZE, INCOMING_LIMIT};
use crate::transport::{MAX_BYTES_OUT, MAX_FDS_OUT, Transport};

/// A flush loses nothing, except the tokens that were offered to a send which took no bytes.
///
/// If a flush returns `Ok`, and each of its sends took bytes, then no bytes wait after it. Tokens wait only if there were
/// more than 28 for each byte; then the first 28 for each byte are gone.
///
/// `each` and `each_drained` say so of any list of sends that the flush may have made.
pub fn flush_loses_nothing<T: Transport>()
    ensures kept { (before after : LinkState T) (answer : _) →
        Flushed T.sends before answer after → FlushKeeps T.sends before answer after }
    ensures drained { (before after : LinkState T) (answer : _) →
        Flushed T.sends before answer after → FlushDrains T.sends before answer after }
    ensures each { (before after : LinkState T) (es : List Sending) (answer : _) →
        FlushedBy T.sends before es answer after → LosesNothing es before.outgoing nothing after.outgoing }
    ensures each_drained { (before after : LinkState T) (es : List Sending) (answer : _) →
        FlushedBy T.sends before es answer after → Drains es before.outgoing answer after.outgoing }
{}

/// A write that returns `Ok` adds the message's bytes, once, to what was sent and what waits, and its tokens to these and
/// to those that a send which answered 0 dropped. A write that fails adds nothing. `each` says so of any list of sends that the
/// write may have made.
pub fn write_loses_nothing<T: Transport>()
    ensures kept { (before after : LinkState T) (m : WireMessage) (answer : _) →
        Wrote T.sends before m answer after → WriteKeeps T.sends before m answer after }
    ensures each { (before after : LinkState T) (m : WireMessage) (es : List Sending) (answer : _) →
        WroteBy T.sends before m es answer after → LosesNothing es before.outgoing (queued_by answer m) after.outgoing }
{}

/// A read that returns `Ok` takes the first message off the stream of what was received.
pub fn read_takes_first_message<T>()
    ensures { (look_up : ℕ → ℕ → Option (List ArgumentType)) (before after : LinkState T) (answer : _) →
        ReadOne (λ sender opcode found. found ≡ look_up sender opcode) before answer after →
        ReadTakes (λ sender opcode found. found ≡ look_up sender opcode) before answer after }
{}

/// A call has one outcome, if the transport is deterministic and memory does not run out.
///
/// A transport is deterministic if its value before a call, and what the call is given, determine the answer and the value
/// after.
pub fn one_outcome<T: Transport>()
    ensures flush { IsFunction T.sends → (before x y : LinkState T) (es fs : List Sending) (a b : _) →
        FlushedBy T.sends before es a x → FlushedBy T.sends before fs b y →
        a ≢ Err fault.OutOfMemory → b ≢ Err fault.OutOfMemory → SameCall es fs a b x y }
    ensures write { IsFunction T.sends → (before x y : LinkState T) (m : WireMessage) (es fs : List Sending) (a b : _) →
        WroteBy T.sends before m es a x → WroteBy T.sends before m fs b y →
        a ≢ Err fault.OutOfMemory → b ≢ Err fault.OutOfMemory → SameCall es fs a b x y }
    ensures fill { IsReceiveFunction T.receives → (before x y : LinkState T) (r s : Result Queue IoFault) (a b : _) →
        FilledBy T.receives before r a x → FilledBy T.receives before s b y →
        a ≢ Err fault.OutOfMemory → b ≢ Err fault.OutOfMemory → SameFill r s a b x y }
    ensures read { (look_up : ℕ → ℕ → Option (List ArgumentType)) (before x y : LinkState T) (a b : _) →
        ReadOne (λ sender opcode found. found ≡ look_up sender opcode) before a x →
        ReadOne (λ sender opcode found. found ≡ look_up sender opcode) before b y →
        a ≢ Err errors.OutOfMemory → b ≢ Err errors.OutOfMemory → SameRead a b x y }
{}

/// The transport by script is deterministic: its answers follow from its value.
pub fn script_has_one_outcome()
    ensures sends { IsFunction ScriptSends }
    ensures receives { IsReceiveFunction ScriptReceives }
{}

/// The transport by mailbox is deterministic: its answers follow from its value.
pub fn mailbox_has_one_outcome()
    ensures sends { IsFunction MailboxSends }
    ensures receives { IsReceiveFunction MailboxReceives }
{}

/// A mailbox loses nothing, whatever calls are made and in which order. What was received, followed by what is left of the
/// arrivals, is what was left before, followed by what the host put in. What the host took out, followed by what waits, is
/// what waited before, followed by what the sends took (`kept`).
///
/// A send leaves fewer bytes than the room and what it was offered have together, or it takes nothing (`room`).
pub fn mailbox_loses_nothing()
    ensures kept { (before after : MailboxState) (calls : List MailboxCall) →
        DoesAll before calls after → MailboxKeeps calls before after }
    ensures room { (before after : MailboxState) (offer : Queue) (answer : _) →
        MailboxSends before offer answer after → StaysWithinRoom before offer after }
{}

/// A link over a mailbox loses nothing between itself and its mailbox. A receive moves what came from the mailbox to the link, and
/// a flush moves what is to be sent the other way: the same bytes and tokens, in the same order.
pub fn link_over_mailbox_loses_nothing()
    ensures received { (before after : LinkState MailboxState) (answer : _) →
        Filled MailboxReceives before answer after → KeepsWhatCame before after }
    ensures sent { (before after : LinkState MailboxState) (answer : _) →
        Flushed MailboxSends before answer after → KeepsWhatGoes before after }
{}

/// The messages that were written are read back: the same messages in the same order. The bytes and tokens must be carried
/// completely and in order, but they may be cut anywhere.
///
/// This does not promise that they come. But if all that was sent has been received, and the next read finds no message,
/// all of them were read (`all`). The law `room` says when no receive finds the buffer full. Each message is no longer than
/// the incoming buffer may become. Each receive is made only if the read before it lacked bytes or tokens. A token comes no
/// later than the last byte of its message.
pub fn messages_come_back<S: Transport, R: Transport>()
    ensures in_order { StreamLaw S.sends R.receives }
    ensures all { AllReadLaw S.sends R.receives }
    ensures room { RoomLaw R.receives }
{}

/// It does not matter how bytes and tokens are cut into receives. Two receives leave what one receive of both parts would
/// leave, even if a read between them finds no message.
pub fn cutting_does_not_matter<T: Transport>()
    ensures { CuttingLaw T.receives }
{}

/// What a program hands on from one link to another by `hand_on` leaves as it came: the same bytes and the same tokens, in the
/// same order, and no others. It does not matter how they were cut into receives, and how they are cut into sends. Each send takes
/// some bytes: one that answers 0 loses the tokens that it was offered.
///
/// What the second link's transport took, and then what waits there to be sent, and then what was received on the first link and
/// not handed on yet, is what waited at first and then what came.
///
/// The law is about receives, `hand_on` and flushes. That `hand_on_rest` loses nothing either is its clause `carried`.
pub fn what_came_in_leaves<R: Transport, S: Transport>()
    ensures { RelayLaw R.receives S.sends }
{}

/// The values of the constants of this crate. A send is offered at most 4096 bytes and 28 tokens. The buffers of a new link
/// have a capacity of 4096 bytes, and the incoming one grows up to 65536 bytes.
pub fn each_size_has_its_value()
    ensures bytes { MAX_BYTES_OUT ≡ 4096 }
    ensures tokens { MAX_FDS_OUT ≡ 28 }
    ensures buffer { DEFAULT_MAX_BUFFER_SIZE ≡ 4096 }
    ensures incoming { INCOMING_LIMIT ≡ 65536 }
{}
