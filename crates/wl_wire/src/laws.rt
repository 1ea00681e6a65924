//! Laws of the wire format, as the contracts of functions that do nothing.
//!
//! A law is about the definitions in `specs/` alone. The proofs of the crates above cite its lemma in
//! `proofs/Spelling/RoundTrip`. The *spelling* of a message is the bytes that it has on the wire. A *token* is a number
//! that stands for a file descriptor.

ghost use Rattle.std.specs.Prelude.{◌≡◌, ◌++◌, ℕ, List, length, Option};
ghost use Rattle.wl_wire.specs.declared.argument.ArgumentType.{ArgumentType};
ghost use Rattle.wl_wire.specs.declared.argument.Token.{Token};
ghost use Rattle.wl_wire.specs.declared.error.MessageParseError.TheVariants as errors;
ghost use Rattle.wl_wire.specs.Argument.{Matches};
ghost use Rattle.wl_wire.specs.Message.{WireMessage, IsMessage, spelling, tokens};
ghost use Rattle.wl_wire.specs.Parse.{ReadsMessage, RefusesMessage};
ghost use Rattle.wl_wire.specs.Stream.{Stream};

use crate::message::INLINE_ARGS;

/// What was written is read back. A message's spelling with anything after it, and its tokens with others after them, are
/// read as that message, under each signature that it matches.
pub fn written_is_read()
    ensures { (m : WireMessage) (signature : List ArgumentType) (rest : List ℕ) (others : List Token) → IsMessage m → Matches signature m.args → ReadsMessage (spelling m ++ rest) signature (tokens m.args ++ others) m }
{}

/// The same bytes and tokens are read as at most one message under one signature.
pub fn one_message()
    ensures { (m n : WireMessage) (raw : List ℕ) (signature : List ArgumentType) (fds : List Token) → ReadsMessage raw signature fds m → ReadsMessage raw signature fds n → m ≡ n }
{}

/// Two messages that match one signature, and have the same spelling and the same tokens, are the same message.
pub fn one_spelling()
    ensures { (m n : WireMessage) (signature : List ArgumentType) → IsMessage m → IsMessage n → Matches signature m.args → Matches signature n.args → spelling m ≡ spelling n → tokens m.args ≡ tokens n.args → m ≡ n }
{}

/// A stream of bytes and tokens begins with at most one list of a given number of messages. Their signatures are looked up
/// by sender and opcode.
pub fn one_stream()
    ensures { (look_up : ℕ → ℕ → Option (List ArgumentType)) (ms ns : List WireMessage) (bytes : List ℕ) (fds : List Token) → length ms ≡ length ns → Stream look_up ms bytes fds → Stream look_up ns bytes fds → ms ≡ ns }
{}

/// What is found at the front of bytes and tokens is still found if more of them follow. This holds of the message that is
/// read there (`message`), and of the error that the bytes there are malformed (`malformed`).
pub fn fronts_stay()
    ensures message { (raw more : List ℕ) (signature : List ArgumentType) (fds others : List Token) (m : WireMessage) → ReadsMessage raw signature fds m → ReadsMessage (raw ++ more) signature (fds ++ others) m }
    ensures malformed { (raw more : List ℕ) (signature : List ArgumentType) (fds others : List Token) → RefusesMessage raw signature fds errors.Malformed → RefusesMessage (raw ++ more) signature (fds ++ others) errors.Malformed }
{}

/// The value of a constant of this crate: four arguments stand in a message without an allocation.
pub fn four_arguments_stand_inline()
    ensures { INLINE_ARGS ≡ 4 }
{}
