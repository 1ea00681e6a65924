//! Reading a message from bytes and tokens.
//!
//! A *token* is a number that stands for a file descriptor. A *word* is four bytes, read as a little-endian number.
//! *Counted* bytes are a word that tells how many bytes follow, these bytes, and the padding that fills them up to a
//! multiple of four.

ghost use Rattle.std.specs.Prelude.{None, ℕ, List, MatchOption, MatchResult, ◌≡◌, ◌≢◌, ◌↔◌, ◌+◌, ◌<◌, ◌≤◌, ◌++◌, length, drop, IsOk, IsSome, IsTrue, IfSome, is_some, All, IfOk, IfErr, OnOk, OnErr, option_map, slice_index_or};
ghost use Rattle.std.specs.VecDeque.{deque_capacity, deque_len};
ghost use Rattle.wl_wire.specs.declared.error.MessageParseError.TheVariants.{OutOfMemory};
ghost use Rattle.smallvec.specs.SmallVec.{HasRoomFor};
ghost use Rattle.wl_wire.specs.declared.argument.Token.{Token as WireToken};
ghost use Rattle.wl_wire.specs.Argument.{Matches};
ghost use Rattle.wl_wire.specs.Message.{WireMessage, IsMessage, content, pad_len, spelling, tokens};
ghost use Rattle.wl_wire.specs.Parse.{fd_count, IsInline, IsSmall, length_of, sender_of, opcode_of, ReadsMessage, RefusesMessage, IsWhole};
ghost use Rattle.wl_wire.specs.Text.{HasNoZero};
ghost use Rattle.wl_wire.specs.Inside.Cursor.{IsNumber, arguments_at, rests, with_front, with_one, RefusesArguments, RefusesHeader};
ghost use Rattle.wl_wire.specs.Pieces.{word_at, counted_at, text_of, text_at, argument_at, ReadsAs};

use crate::argument::{Argument, ArgumentType, Token};
use crate::byte_array::ByteArray;
use crate::c_string::CString;
use crate::error::MessageParseError;
use crate::message::{Args, INLINE_ARGS, Message};
use smallvec::SmallVec;
use std::alloc::{AllocError, Global};
use std::collections::VecDeque;

impl From<AllocError> for MessageParseError {
    ghost from_gives = { λ _ e. e ≡ OutOfMemory };

    fn from(_e: AllocError) -> MessageParseError {
        MessageParseError::OutOfMemory
    }
}

/// The word at the front, and the bytes after it. `None` if there are fewer than four bytes.
#[tactic(auto, unfolding(crate::specs::Pieces::word_at))]
pub fn read_word(payload: &[u8]) -> Option<(u32, &[u8])>
    ensures { option_map (λ x. (x.0, x.1.now)) result ≡ word_at payload.now }
{
    if payload.len() < 4 {
        return None;
    }
    let (word, rest) = payload.split_at(4);
    Some((
        u32::from_le_bytes([word[0], word[1], word[2], word[3]]),
        rest,
    ))
}

/// How many bytes are missing from `len` to the next multiple of four.
pub(crate) fn padding(len: usize) -> usize
    ensures padding { result ≡ pad_len len }
    ensures small { result < 4 }
{
    (4 - len % 4) % 4
}

/// The counted bytes at the front, and what follows their padding. `None` if they are not complete.
#[tactic(auto, unfolding(crate::specs::Pieces::counted_at))]
pub fn read_counted(payload: &[u8]) -> Option<(&[u8], &[u8])>
    ensures { option_map (λ x. (x.0.now, x.1.now)) result ≡ counted_at payload.now }
{
    let (len, rest) = read_word(payload)?;
    let len = len as usize;
    let padded = len + padding(len);
    if rest.len() < padded {
        return None;
    }
    Some((&rest[..len], &rest[padded..]))
}

/// The string in the counted bytes, without the zero that ends it. No bytes at all are null (`Some(None)`). The outer
/// `None` says that the bytes are no string: the last one is not zero, or another one is.
#[tactic(auto, unfolding(crate::specs::Pieces::text_of))]
fn text_in(bytes: &[u8]) -> Option<Option<&[u8]>>
    ensures text { option_map (option_map (λ x. x.now)) result ≡ text_of bytes.now }
    ensures no_zero { IfSome result (λ text. IfSome text (λ bytes. HasNoZero bytes.now)) }
{
    let Some((last, text)) = bytes.split_last() else {
        return Some(None);
    };
    if *last != 0 || text.contains(&0) {
        return None;
    }
    Some(Some(text))
}

/// The token at that place of the queue. Most messages do not ask for one, so this is not inlined.
#[inline(never)]
fn token_at(fds: &VecDeque<Token>, at: usize) -> Option<Token>
    ensures there { IsSome result ↔ (at < deque_len fds.now) }
    ensures token { IfSome result (λ token. token ≡ slice_index_or fds.now.items at token) }
{
    fds.get(at).copied()
}

/// The integer or object of that type at the front, and the bytes after it. `None` if there are fewer than four bytes.
#[tactic(auto, unfolding(crate::specs::Pieces::argument_at))]
fn read_number(kind: ArgumentType, payload: &[u8]) -> Option<(Argument<u32, Token>, &[u8])>
    requires { IsNumber kind }
    ensures { (fds : List WireToken) → option_map (λ x. (x.0, x.1.now, fds)) result ≡ argument_at kind payload.now fds }
{
    let (word, rest) = read_word(payload)?;
    let arg = match kind {
        ArgumentType::Int => Argument::Int(word.cast_signed()),
        ArgumentType::Uint => Argument::Uint(word),
        ArgumentType::Fixed => Argument::Fixed(word.cast_signed()),
        ArgumentType::Object(_) => Argument::Object(word),
        ArgumentType::NewId => Argument::NewId(word),
        ArgumentType::Str(_) | ArgumentType::Array | ArgumentType::Fd => unreachable!(),
    };
    Some((arg, rest))
}

/// A copy of the string at the front, or null (`None`), and the bytes after it.
///
/// The string stands as a word, which counts its bytes with the zero that ends it, these bytes, and padding. Null is the word 0. The
/// error is `Malformed` if the bytes do not begin with a string: the last byte is no zero, another one is, or the bytes end first; and
/// else `OutOfMemory`.
pub fn read_text(
    alloc: Global,
    payload: &[u8],
) -> Result<(Option<CString>, &[u8]), MessageParseError>
    ensures { ReadsAs (λ x. (x.0, x.1.now)) result (text_at payload.now) }
{
    let (bytes, rest) = read_counted(payload).ok_or(MessageParseError::Malformed)?;
    match text_in(bytes).ok_or(MessageParseError::Malformed)? {
        None => Ok((None, rest)),
        Some(text) => Ok((Some(CString::copied(alloc, text)?), rest)),
    }
}

/// A copy of the array at the front, and the bytes after it.
///
/// The array stands as a word, which counts its bytes, these bytes, and padding. The error is `Malformed` if the bytes end first, and
/// else `OutOfMemory`.
pub fn read_array(alloc: Global, payload: &[u8]) -> Result<(ByteArray, &[u8]), MessageParseError>
    ensures { ReadsAs (λ x. (x.0, x.1.now)) result (counted_at payload.now) }
{
    let (bytes, rest) = read_counted(payload).ok_or(MessageParseError::Malformed)?;
    let bytes = ByteArray::new(Vec::from_slice(alloc, bytes)?);
    Ok((bytes, rest))
}

/// Reads the argument of that type, and appends it to `args`. It is read from the front of the bytes, or it is the token after
/// the `used` ones. Returns the bytes after it, and how many tokens were used so far.
///
/// Each kind is appended where it is read, so a number is not copied with the fields of a string or an array.
#[tactic(auto, unfolding(crate::specs::Pieces::argument_at))]
fn read_next<'b>(
    alloc: Global,
    kind: ArgumentType,
    payload: &'b [u8],
    fds: &VecDeque<Token>,
    used: usize,
    args: &mut Args<u32>,
) -> Result<(&'b [u8], usize), MessageParseError>
    requires { HasRoomFor args.old 1 }
    ensures found { ReadsAs (λ x. (args.new.items, x.0.now, drop x.1 fds.now.items)) result (with_one args.old.items (argument_at kind payload.now (drop used fds.now.items))) }
    ensures one { OnOk result (length args.new.items ≡ length args.old.items + 1) }
    ensures small { IsSmall kind → IfErr result (λ e. e ≢ OutOfMemory) }
    ensures capacity { args.new.capacity ≡ args.old.capacity }
{
    match kind {
        ArgumentType::Int
        | ArgumentType::Uint
        | ArgumentType::Fixed
        | ArgumentType::Object(_)
        | ArgumentType::NewId => {
            let (arg, rest) = read_number(kind, payload).ok_or(MessageParseError::Malformed)?;
            args.push_reserved(arg);
            Ok((rest, used))
        }
        ArgumentType::Str(_) => {
            let (text, rest) = read_text(alloc, payload)?;
            args.push_reserved(Argument::Str(text));
            Ok((rest, used))
        }
        ArgumentType::Array => {
            let (bytes, rest) = read_array(alloc, payload)?;
            args.push_reserved(Argument::Array(bytes));
            Ok((rest, used))
        }
        ArgumentType::Fd => {
            let fd = token_at(fds, used).ok_or(MessageParseError::Malformed)?;
            args.push_reserved(Argument::Fd(fd));
            Ok((payload, used + 1))
        }
    }
}

/// Makes room for `count` arguments. Up to four fit already, and take no memory. The error says that there was no memory.
fn make_room(args: &mut Args<u32>, count: usize) -> Result<(), AllocError>
    requires { HasRoomFor args.old INLINE_ARGS }
    ensures items { args.new.items ≡ args.old.items }
    ensures room { OnOk result (HasRoomFor args.new count) }
    ensures inline { HasRoomFor args.old count → IsOk result }
    ensures capacity { args.old.capacity ≤ args.new.capacity }
{
    if count > INLINE_ARGS {
        args.reserve(count)?;
    }
    Ok(())
}

/// Reads the arguments, appends them to `args`, and returns how many tokens they use.
fn read_arguments(
    alloc: Global,
    signature: &[ArgumentType],
    payload: &[u8],
    fds: &VecDeque<Token>,
    args: &mut Args<u32>,
) -> Result<usize, MessageParseError>
    requires { HasRoomFor args.old INLINE_ARGS }
    ensures found { ReadsAs (λ used. (args.new.items, drop used fds.now.items)) result (with_front args.old.items (arguments_at signature.now payload.now fds.now.items)) }
    ensures inline { All IsSmall signature.now → HasRoomFor args.old (length signature.now) → IfErr result (λ e. e ≢ OutOfMemory) }
    ensures capacity { args.old.capacity ≤ args.new.capacity }
{
    make_room(args, signature.len())?;
    let mut rest = payload;
    let mut used = 0;
    for kind in signature {
        let (after, so_far) = read_next(alloc, *kind, rest, fds, used, args)?;
        rest = after;
        used = so_far;
    }
    Ok(used)
}

/// The bytes and tokens that are left after an argument of that type; `None` if it cannot be read.
#[tactic(auto, unfolding(crate::specs::Pieces::argument_at))]
fn skip_argument<'b, 't>(
    kind: ArgumentType,
    payload: &'b [u8],
    fds: &'t [Token],
) -> Option<(&'b [u8], &'t [Token])>
    ensures { option_map (λ x. (x.0.now, x.1.now)) result ≡ option_map rests (argument_at kind payload.now fds.now) }
{
    match kind {
        ArgumentType::Int
        | ArgumentType::Uint
        | ArgumentType::Fixed
        | ArgumentType::Object(_)
        | ArgumentType::NewId => {
            let (_, rest) = read_word(payload)?;
            Some((rest, fds))
        }
        ArgumentType::Str(_) => {
            let (bytes, rest) = read_counted(payload)?;
            text_in(bytes)?;
            Some((rest, fds))
        }
        ArgumentType::Array => {
            let (_, rest) = read_counted(payload)?;
            Some((rest, fds))
        }
        ArgumentType::Fd => {
            let (_, fds) = fds.split_first()?;
            Some((payload, fds))
        }
    }
}

/// Whether the arguments can be read, if there is memory for them.
fn can_read(signature: &[ArgumentType], payload: &[u8], fds: &[Token]) -> bool
    ensures { result ≡ is_some (arguments_at signature.now payload.now fds.now) }
{
    let mut rest = payload;
    let mut left = fds;
    for kind in signature {
        let Some((after, others)) = skip_argument(*kind, rest, left) else {
            return false;
        };
        rest = after;
        left = others;
    }
    true
}

/// How many file descriptors a message with that signature has.
pub fn fd_places(signature: &[ArgumentType]) -> usize
    ensures { result ≡ fd_count signature.now }
{
    signature
        .iter()
        .filter(|kind| matches!(kind, ArgumentType::Fd))
        .count()
}

/// Which error it is, after the arguments could not be read.
///
/// If there are too few tokens, it is `MissingFD`; else, if the bytes cannot be read, it is `Malformed`; else it is
/// `OutOfMemory`.
///
/// It is not inlined, so that it costs nothing for a message that reads.
#[cold]
#[inline(never)]
fn refusal(signature: &[ArgumentType], payload: &[u8], fds: &[Token]) -> MessageParseError
    ensures refused { RefusesArguments signature.now payload.now fds.now result }
    ensures memory { arguments_at signature.now payload.now fds.now ≡ None → result ≢ OutOfMemory }
{
    if fds.len() < fd_places(signature) {
        return MessageParseError::MissingFD;
    }
    if can_read(signature, payload, fds) {
        MessageParseError::OutOfMemory
    } else {
        MessageParseError::Malformed
    }
}

/// What the header says, which is the first eight bytes of a message.
#[derive(Clone, Copy, Debug)]
pub struct MessageHeader {
    /// The number of the object that the request is sent to, or that sends the event.
    pub sender_id: u32,
    /// The opcode: which request or event of that object's interface it is.
    pub opcode: u16,
    /// The length of the message in bytes, with its header, as the header tells it: 0 to 65535. Less than 8, the length of
    /// the header itself, is an error, which `parse_message` reports.
    pub len: usize,
}

/// The header of the message at the front of the bytes; `None` if there are fewer than eight bytes.
#[tactic(auto, unfolding(crate::specs::Parse::sender_of, crate::specs::Parse::second_word))]
pub fn message_header(raw: &[u8]) -> Option<MessageHeader>
    ensures { MatchOption result (length raw.now < 8) (λ h. (8 ≤ length raw.now)
        × (h.sender_id ≡ sender_of raw.now) × (h.opcode ≡ opcode_of raw.now) × (h.len ≡ length_of raw.now)) }
{
    if raw.len() < 8 {
        return None;
    }
    let word = u32::from_le_bytes([raw[4], raw[5], raw[6], raw[7]]);
    Some(MessageHeader {
        sender_id: u32::from_le_bytes([raw[0], raw[1], raw[2], raw[3]]),
        opcode: (word % 65536) as u16,
        len: (word / 65536) as usize,
    })
}

/// The header of the message at the front, if the message is complete. The errors are those of `parse_message` about the
/// header.
fn read_header(raw: &[u8]) -> Result<MessageHeader, MessageParseError>
    ensures whole { OnOk result (IsWhole raw.now) }
    ensures words { IfOk result (λ h. (h.sender_id ≡ sender_of raw.now) × (h.opcode ≡ opcode_of raw.now) × (h.len ≡ length_of raw.now)) }
    ensures refused { IfErr result (RefusesHeader raw.now) }
{
    let header = message_header(raw).ok_or(MessageParseError::MissingData)?;
    if header.len < 8 {
        return Err(MessageParseError::Malformed);
    }
    if raw.len() < header.len {
        return Err(MessageParseError::MissingData);
    }
    Ok(header)
}

/// Whether the message at the front is complete, and at least as many tokens wait as the signature has file descriptors.
///
/// If so, `parse_message` reports neither `MissingData` nor `MissingFD`. It is `false` also if the header says a length
/// below 8.
pub fn message_is_there(raw: &[u8], signature: &[ArgumentType], tokens: usize) -> bool
    ensures { IsTrue result ↔ (IsWhole raw.now × (fd_count signature.now ≤ tokens)) }
{
    let Some(header) = message_header(raw) else {
        return false;
    };
    8 <= header.len && header.len <= raw.len() && fd_places(signature) <= tokens
}

/// Does the same as `parse_into`, but leaves the message's tokens in the queue.
///
/// So a program may look at the message, and hand on its bytes and tokens as they are. The queue keeps its capacity.
pub fn peek_into(
    alloc: Global,
    raw: &[u8],
    signature: &[ArgumentType],
    fds: &mut VecDeque<Token>,
    message: &mut Message<u32, Token>,
) -> Result<(), MessageParseError>
    requires { INLINE_ARGS ≤ message.old.args.capacity }
    ensures found { OnOk result (ReadsMessage raw.now signature.now fds.old.items (content message.new)) }
    ensures matches { OnOk result (Matches signature.now message.new.args.items) }
    ensures refused { IfErr result (RefusesMessage raw.now signature.now fds.old.items) }
    ensures inline { IsInline signature.now → IfErr result (λ e. e ≢ OutOfMemory) }
    ensures unchanged { fds.new.items ≡ fds.old.items }
    ensures room { deque_capacity fds.new ≡ deque_capacity fds.old }
    ensures capacity { INLINE_ARGS ≤ message.new.args.capacity }
{
    let head = read_header(raw)?;
    let (whole, _rest) = raw.split_at(head.len);
    let payload = &whole[8..];
    message.args.clear();
    let Ok(_taken) = read_arguments(alloc, signature, payload, fds, &mut message.args) else {
        return Err(refusal(signature, payload, fds.make_contiguous()));
    };
    message.sender_id = head.sender_id;
    message.opcode = head.opcode;
    Ok(())
}

/// Takes `count` tokens off the front.
fn take_tokens(fds: &mut VecDeque<Token>, count: usize)
    ensures taken { fds.new.items ≡ drop count fds.old.items }
    ensures room { deque_capacity fds.new ≡ deque_capacity fds.old }
{
    for _ in 0..count {
        let _ = fds.pop_front();
    }
}

/// Does the same as `parse_message`, but reads into a message that the caller lends. The arguments of that message are
/// replaced.
///
/// The lent `args` must have a capacity of at least [`INLINE_ARGS`], as a new `SmallVec` of that size has. Returns the
/// bytes after the message. After an error the content of the lent message has no meaning. The queue keeps its capacity.
pub fn parse_into<'a>(
    alloc: Global,
    raw: &'a [u8],
    signature: &[ArgumentType],
    fds: &mut VecDeque<Token>,
    message: &mut Message<u32, Token>,
) -> Result<&'a [u8], MessageParseError>
    requires { INLINE_ARGS ≤ message.old.args.capacity }
    ensures found { OnOk result (ReadsMessage raw.now signature.now fds.old.items (content message.new)) }
    ensures matches { OnOk result (Matches signature.now message.new.args.items) }
    ensures rest { IfOk result (λ rest. rest.now ≡ drop (length_of raw.now) raw.now) }
    ensures tokens { OnOk result (fds.new.items ≡ drop (fd_count signature.now) fds.old.items) }

    // What was written is read back, and what follows it is left.
    ensures written { (m : WireMessage) (behind : List ℕ) (others : List WireToken) → IsMessage m → Matches signature.now m.args
        → raw.now ≡ spelling m ++ behind → fds.old.items ≡ tokens m.args ++ others
        → MatchResult result (λ rest. (content message.new ≡ m) × (rest.now ≡ behind) × (fds.new.items ≡ others)) (λ e. e ≡ OutOfMemory) }

    ensures refused { IfErr result (RefusesMessage raw.now signature.now fds.old.items) }
    ensures inline { IsInline signature.now → IfErr result (λ e. e ≢ OutOfMemory) }
    ensures unchanged { OnErr result (fds.new.items ≡ fds.old.items) }
    ensures room { deque_capacity fds.new ≡ deque_capacity fds.old }
    ensures capacity { INLINE_ARGS ≤ message.new.args.capacity }
{
    let header = read_header(raw)?;
    let (whole, rest) = raw.split_at(header.len);
    let payload = &whole[8..];
    message.args.clear();
    let Ok(taken) = read_arguments(alloc, signature, payload, fds, &mut message.args) else {
        return Err(refusal(signature, payload, fds.make_contiguous()));
    };
    take_tokens(fds, taken);
    message.sender_id = header.sender_id;
    message.opcode = header.opcode;
    Ok(rest)
}

/// Reads the message at the front of `raw` under the signature, with the tokens at the front of `fds`.
///
/// Returns the message, and the bytes after it. They begin where the message ends according to its header: bytes between
/// its last argument and that end are ignored. The message's tokens are taken from `fds`. An error takes none. The errors
/// are decided in this order:
///
/// - `MissingData` if `raw` has fewer than eight bytes, the length of the header;
/// - `Malformed` if the header says a length below 8;
/// - `MissingData` if `raw` has fewer bytes than the header says;
/// - `MissingFD` if `fds` has fewer tokens than the signature has file descriptors;
/// - `Malformed` if the arguments cannot be read;
/// - `OutOfMemory` if there is no memory for the arguments.
pub fn parse_message<'a>(
    alloc: Global,
    raw: &'a [u8],
    signature: &[ArgumentType],
    fds: &mut VecDeque<Token>,
) -> Result<(Message<u32, Token>, &'a [u8]), MessageParseError>
    ensures found { IfOk result (λ x. ReadsMessage raw.now signature.now fds.old.items (content x.0)) }
    ensures matches { IfOk result (λ x. Matches signature.now x.0.args.items) }
    ensures rest { IfOk result (λ x. x.1.now ≡ drop (length_of raw.now) raw.now) }
    ensures tokens { OnOk result (fds.new.items ≡ drop (fd_count signature.now) fds.old.items) }

    // What was written is read back, and what follows it is left.
    ensures written { (m : WireMessage) (behind : List ℕ) (others : List WireToken) → IsMessage m → Matches signature.now m.args
        → raw.now ≡ spelling m ++ behind → fds.old.items ≡ tokens m.args ++ others
        → MatchResult result (λ x. (content x.0 ≡ m) × (x.1.now ≡ behind) × (fds.new.items ≡ others)) (λ e. e ≡ OutOfMemory) }

    ensures refused { IfErr result (RefusesMessage raw.now signature.now fds.old.items) }
    ensures inline { IsInline signature.now → IfErr result (λ e. e ≢ OutOfMemory) }
    ensures unchanged { OnErr result (fds.new.items ≡ fds.old.items) }
{
    let mut message = Message {
        sender_id: 0,
        opcode: 0,
        args: SmallVec::new(alloc),
    };
    let rest = parse_into(alloc, raw, signature, fds, &mut message)?;
    Ok((message, rest))
}
