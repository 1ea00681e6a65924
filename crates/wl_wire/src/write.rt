//! Writing a message as bytes and tokens.
//!
//! A *token* is a number that stands for a file descriptor. A *word* is a number of 32 bits, written as four bytes in
//! little-endian order.

ghost use Rattle.std.specs.Prelude.{◌≡◌, ◌≢◌, ◌↔◌, ◌+◌, ◌-◌, ◌*◌, ◌<◌, ◌≤◌, ◌^◌, ◌++◌, [], Err, length, drop, map, nat_le, replicate, IfOk, IfSome, OnOk, OnErr, MatchOption, vec_len, vec_capacity};
ghost use Rattle.wl_wire.specs.declared.error.MessageWriteError.TheVariants.{OutOfMemory};
ghost use Rattle.std.specs.List.{AllByRecursion, sum_by};
ghost use Rattle.wl_wire.specs.Message.{content, IsArgument, IsMessage, counted, pad_len, piece, pieces, size, spelling, tokens, word};
ghost use Rattle.wl_wire.specs.MapIds.{numbered, with_ids};
ghost use Rattle.wl_wire.specs.Inside.Buffer.{IsWord, is_word, overwritten, counted_len, piece_len, bytes_of, token_of, tokens_of};

use crate::argument::{Argument, Token};
use crate::error::MessageWriteError;
use crate::message::Message;
use crate::numbering::{Numbering, OwnNumbers};
use crate::parse::padding;
use std::alloc::AllocError;

/// The most bytes that a message may have. The length field of its header has 16 bits.
const MAX_MESSAGE_SIZE: usize = 65535;

/// The most words that fit into a message after its header.
const MAX_WORDS: usize = (MAX_MESSAGE_SIZE - 8) / 4;

impl From<AllocError> for MessageWriteError {
    ghost from_gives = { λ _ e. e ≡ OutOfMemory };

    fn from(_e: AllocError) -> MessageWriteError {
        MessageWriteError::OutOfMemory
    }
}

/// How many bytes a message takes, and how many tokens.
#[derive(Clone, Copy)]
struct Measure {
    bytes: usize,
    tokens: usize,
}

/// What is counted of a message's arguments: the bytes that strings and arrays take after their first word, and the tokens.
#[derive(Clone, Copy)]
struct Count {
    tails: usize,
    tokens: usize,
}

impl Count {
    /// Counts a string or an array of `len` bytes. Returns whether the bytes after first words are at most 65535.
    fn add_counted(&mut self, len: usize) -> bool
        requires small { self.old.tails ≤ 65535 }
        requires len { len ≤ 2 ^ 63 }
        ensures counts { self.new ≡ record self.old { tails = self.old.tails + len + pad_len len } }
        ensures fits { result ≡ nat_le self.new.tails 65535 }
    {
        self.tails += len + padding(len);
        self.tails <= MAX_MESSAGE_SIZE
    }

    /// Counts the argument. Returns whether the bytes after first words are at most 65535.
    fn add<Id>(&mut self, arg: &Argument<Id, Token>) -> bool
        requires small { self.old.tails ≤ 65535 }
        requires few_tokens { self.old.tokens < usize.MAX }
        ensures bytes { self.new.tails + 4 + 4 * self.old.tokens ≡ self.old.tails + 4 * self.new.tokens + piece_len arg.now }
        ensures tokens { self.new.tokens ≡ self.old.tokens + length (token_of arg.now) }
        ensures fits { result ≡ nat_le self.new.tails 65535 }
    {
        if is_word(arg) {
            return true;
        }
        match arg {
            Argument::Str(Some(text)) => self.add_counted(text.as_bytes().len() + 1),
            Argument::Array(bytes) => self.add_counted(bytes.as_slice().len()),
            Argument::Fd(_) => {
                self.tokens += 1;
                true
            }
            _ => true,
        }
    }

    /// What a message takes that has `args` arguments, with these counts; `None` if it takes more than 65535 bytes.
    fn measure(self, args: usize) -> Option<Measure>
        requires tails { self.tails ≤ 65535 }
        requires tokens { self.tokens ≤ args }
        ensures { MatchOption result (65535 < 8 + (4 * (args - self.tokens) + self.tails)) (λ m. (m.bytes ≡ 8 + (4 * (args - self.tokens) + self.tails)) × (m.bytes ≤ 65535) × (m.tokens ≡ self.tokens)) }
    {
        let words = args - self.tokens;
        if words > MAX_WORDS {
            return None;
        }
        let bytes = 8 + 4 * words + self.tails;
        if bytes > MAX_MESSAGE_SIZE {
            return None;
        }
        Some(Measure {
            bytes,
            tokens: self.tokens,
        })
    }
}

/// Whether the argument is one word on the wire: an integer, a fixed-point number, or the id of an object.
fn is_word<Id>(arg: &Argument<Id, Token>) -> bool
    ensures { result ≡ is_word arg.now }
{
    match arg {
        Argument::Int(_)
        | Argument::Uint(_)
        | Argument::Fixed(_)
        | Argument::Object(_)
        | Argument::NewId(_) => true,
        Argument::Str(_) | Argument::Array(_) | Argument::Fd(_) => false,
    }
}

/// Writes the bytes from the place `at` on.
#[tactic(auto, unfolding(crate::specs::Inside::Buffer::overwritten))]
fn put_bytes(payload: &mut [u8], at: usize, bytes: &[u8])
    requires { at + length bytes.now ≤ length payload.old }
    ensures { payload.new ≡ overwritten payload.old at bytes.now }
{
    payload[at..at + bytes.len()].copy_from_slice(bytes);
}

/// Writes the bytes, of which there are between `N` and twice as many, from the place `at` on: the first `N`, and then the last
/// `N`, which may overlap them. So each copy has a fixed length.
fn put_ends<const N: usize>(payload: &mut [u8], at: usize, bytes: &[u8])
    requires room { at + length bytes.now ≤ length payload.old }
    requires least { N ≤ length bytes.now }
    requires most { length bytes.now ≤ N + N }
    ensures { payload.new ≡ overwritten payload.old at bytes.now }
{
    let mut front = [0; N];
    front.copy_from_slice(&bytes[..N]);
    let last = bytes.len() - N;
    let mut back = [0; N];
    back.copy_from_slice(&bytes[last..]);
    put_bytes(payload, at, &front);
    put_bytes(payload, at + last, &back);
}

/// Writes the bytes of a string or an array from the place `at` on. Most of them are short, and are written without a call.
fn put_block(payload: &mut [u8], at: usize, bytes: &[u8])
    requires { at + length bytes.now ≤ length payload.old }
    ensures { payload.new ≡ overwritten payload.old at bytes.now }
{
    let len = bytes.len();
    if len < 4 || 16 < len {
        put_bytes(payload, at, bytes);
    } else if len < 8 {
        put_ends::<4>(payload, at, bytes);
    } else {
        put_ends::<8>(payload, at, bytes);
    }
}

/// Writes the word at the place `at`, and returns the place after it.
#[tactic(auto, unfolding(crate::specs::Message::word))]
fn put_word(payload: &mut [u8], at: usize, n: u32) -> usize
    requires { at + 4 ≤ length payload.old }
    ensures bytes { payload.new ≡ overwritten payload.old at (word n) }
    ensures next { result ≡ at + 4 }
{
    put_bytes(payload, at, &n.to_le_bytes());
    at + 4
}

/// Writes how many bytes there are, the bytes, and their padding, from the place `at` on. Returns the place after the
/// padding.
///
/// `ending` zeros (none or one) follow the bytes, and count with them. First a word of zeros is written over the last four
/// bytes, and then the count and the bytes. The rest of that word is the ending and the padding.
#[inline]
fn put_counted(payload: &mut [u8], at: usize, bytes: &[u8], ending: usize) -> usize
    requires room { at + counted_len (length bytes.now + ending) ≤ length payload.old }
    requires small { length bytes.now + ending ≤ 65535 }
    requires ending { ending ≤ 1 }
    ensures bytes { payload.new ≡ overwritten payload.old at (counted (bytes.now ++ replicate ending 0)) }
    ensures next { result ≡ at + counted_len (length bytes.now + ending) }
{
    let len = bytes.len() + ending;
    let last = at + len + padding(len);
    put_word(payload, last, 0);
    let start = put_word(payload, at, len as u32);
    put_block(payload, start, bytes);
    last + 4
}

/// Does the same as `put_counted`.
///
/// It is not inlined, so that the loop that calls it stays short for arguments that are words.
#[inline(never)]
fn put_counted_apart(payload: &mut [u8], at: usize, bytes: &[u8], ending: usize) -> usize
    requires room { at + counted_len (length bytes.now + ending) ≤ length payload.old }
    requires small { length bytes.now + ending ≤ 65535 }
    requires ending { ending ≤ 1 }
    ensures bytes { payload.new ≡ overwritten payload.old at (counted (bytes.now ++ replicate ending 0)) }
    ensures next { result ≡ at + counted_len (length bytes.now + ending) }
{
    put_counted(payload, at, bytes, ending)
}

/// The word that the argument is on the wire.
#[tactic(auto, unfolding(crate::specs::Message::piece))]
fn word_of<Id, N: Numbering<Id>>(arg: &Argument<Id, Token>, numbers: &N) -> u32
    requires word { IsWord arg.now }
    ensures bytes { piece (with_ids (N.object_number numbers.now) (N.new_number numbers.now) arg.now) ≡ word result }
    ensures value { IsArgument (with_ids (N.object_number numbers.now) (N.new_number numbers.now) arg.now) }
{
    match arg {
        Argument::Int(n) => n.cast_unsigned(),
        Argument::Uint(n) => *n,
        Argument::Fixed(n) => n.cast_unsigned(),
        Argument::Object(id) => numbers.number_object(id),
        Argument::NewId(id) => numbers.number_new(id),
        Argument::Str(_) | Argument::Array(_) | Argument::Fd(_) => unreachable!(),
    }
}

/// Writes the argument's bytes from the place `at` on, and returns the place after them.
#[tactic(auto, unfolding(crate::specs::Message::piece))]
fn put_argument<Id, N: Numbering<Id>>(
    payload: &mut [u8],
    at: usize,
    arg: &Argument<Id, Token>,
    numbers: &N,
) -> usize
    requires room { at + piece_len arg.now ≤ length payload.old }
    requires small { piece_len arg.now ≤ 65535 }
    ensures bytes { payload.new ≡ overwritten payload.old at (piece (with_ids (N.object_number numbers.now) (N.new_number numbers.now) arg.now)) }
    ensures next { result ≡ at + piece_len arg.now }
    ensures value { IsArgument (with_ids (N.object_number numbers.now) (N.new_number numbers.now) arg.now) }
{
    if is_word(arg) {
        return put_word(payload, at, word_of(arg, numbers));
    }
    match arg {
        Argument::Str(Some(text)) => put_counted_apart(payload, at, text.as_bytes(), 1),
        Argument::Array(bytes) => put_counted_apart(payload, at, bytes.as_slice(), 0),
        Argument::Fd(_) => at,
        // Only a null string is left.
        _ => put_word(payload, at, 0),
    }
}

/// Writes the arguments' bytes after the header, which has eight bytes.
fn put_arguments<Id, N: Numbering<Id>>(
    payload: &mut [u8],
    args: &[Argument<Id, Token>],
    numbers: &N,
)
    requires bytes { bytes_of args.now ≤ length payload.old }
    requires small { sum_by piece_len args.now ≤ 65535 }
    ensures bytes { payload.new ≡ overwritten payload.old 8 (pieces (map (with_ids (N.object_number numbers.now) (N.new_number numbers.now)) args.now)) }
    ensures values { AllByRecursion IsArgument (map (with_ids (N.object_number numbers.now) (N.new_number numbers.now)) args.now) }
{
    let mut at = 8;
    for arg in args {
        at = put_argument(payload, at, arg, numbers);
    }
}

/// Appends the argument's token, if it has one.
fn push_token<Id>(fds: &mut Vec<Token>, arg: &Argument<Id, Token>)
    requires reserved { vec_len fds.old + length (token_of arg.now) ≤ vec_capacity fds.old }
    ensures items { fds.new.items ≡ fds.old.items ++ token_of arg.now }
    ensures len { vec_len fds.new ≡ vec_len fds.old + length (token_of arg.now) }
    ensures capacity { vec_capacity fds.new ≡ vec_capacity fds.old }
{
    if let Argument::Fd(fd) = arg {
        fds.push_reserved(*fd);
    }
}

/// Appends the arguments' tokens.
fn push_tokens<Id>(fds: &mut Vec<Token>, args: &[Argument<Id, Token>])
    requires reserved { vec_len fds.old + length (tokens_of args.now) ≤ vec_capacity fds.old }
    ensures items { fds.new.items ≡ fds.old.items ++ tokens_of args.now }
    ensures capacity { vec_capacity fds.new ≡ vec_capacity fds.old }
{
    for arg in args {
        push_token(fds, arg);
    }
}

/// Appends the arguments' tokens, of which there are `count`. The error says that there was no memory for them, and changes
/// nothing.
///
/// Few messages have tokens, so this is not inlined into what writes the others.
#[inline(never)]
fn append_tokens<Id>(
    fds: &mut Vec<Token>,
    args: &[Argument<Id, Token>],
    count: usize,
) -> Result<(), AllocError>
    requires count { count ≡ length (tokens_of args.now) }
    ensures items { OnOk result (fds.new.items ≡ fds.old.items ++ tokens_of args.now) }
    ensures memory { OnErr result (vec_capacity fds.old < vec_len fds.old + count) }
    ensures unchanged { OnErr result (fds.new.items ≡ fds.old.items) }
    ensures refused_room { OnErr result (vec_capacity fds.new ≡ vec_capacity fds.old) }
    ensures room { vec_len fds.old + count ≤ vec_capacity fds.old → vec_capacity fds.new ≡ vec_capacity fds.old }
{
    if count > fds.capacity() - fds.len() {
        fds.reserve(count)?;
    }
    push_tokens(fds, args);
    Ok(())
}

/// What a message with these arguments takes; `None` if it takes more than 65535 bytes.
fn measure_of<Id>(args: &[Argument<Id, Token>]) -> Option<Measure>
    ensures { MatchOption result (65535 < bytes_of args.now) (λ m. (m.bytes ≡ bytes_of args.now) × (m.bytes ≤ 65535) × (m.tokens ≡ length (tokens_of args.now))) }
{
    let mut count = Count {
        tails: 0,
        tokens: 0,
    };
    for arg in args {
        if !count.add(arg) {
            return None;
        }
    }
    count.measure(args.len())
}

/// How many bytes the message takes, 8 to 65535, with the numbers that `numbers` gives its ids; `None` if it would take
/// more.
pub fn numbered_size<Id, N: Numbering<Id>>(
    message: &Message<Id, Token>,
    numbers: &N,
) -> Option<usize>
    ensures { MatchOption result (65535 < size (numbered (N.object_number numbers.now) (N.new_number numbers.now) message.now)) (λ n. n ≡ size (numbered (N.object_number numbers.now) (N.new_number numbers.now) message.now)) }
{
    let measure = measure_of(message.args.as_slice())?;
    Some(measure.bytes)
}

/// How many bytes the message takes, 8 to 65535; `None` if it would take more.
pub fn message_size(message: &Message<u32, Token>) -> Option<usize>
    ensures { MatchOption result (65535 < size (content message.now)) (λ n. n ≡ size (content message.now)) }
{
    numbered_size(message, &OwnNumbers)
}

/// Writes the header of a message of `size` bytes.
fn put_header(payload: &mut [u8], sender: u32, size: usize, opcode: u16)
    requires size { size ≤ 65535 }
    requires room { 8 ≤ length payload.old }
    ensures { payload.new ≡ overwritten payload.old 0 (word sender ++ word (size * 65536 + opcode)) }
{
    put_word(payload, 0, sender);
    put_word(payload, 4, size as u32 * 65536 + u32::from(opcode));
}

/// Writes the message at the front of `payload`, with the numbers that `numbers` gives its ids, and appends its tokens to
/// `fds`.
///
/// What it returns, and the errors, are as at [`write_to_buffers`].
pub fn write_numbered<Id, N: Numbering<Id>>(
    message: &Message<Id, Token>,
    numbers: &N,
    payload: &mut [u8],
    fds: &mut Vec<Token>,
) -> Result<usize, MessageWriteError>
    ensures written { IfOk result (λ n. (n ≡ size (numbered (N.object_number numbers.now) (N.new_number numbers.now) message.now)) × (payload.new ≡ spelling (numbered (N.object_number numbers.now) (N.new_number numbers.now) message.now) ++ drop n payload.old)) }
    ensures tokens { OnOk result (fds.new.items ≡ fds.old.items ++ tokens (numbered (N.object_number numbers.now) (N.new_number numbers.now) message.now).args) }
    ensures message { OnOk result (IsMessage (numbered (N.object_number numbers.now) (N.new_number numbers.now) message.now)) }

    ensures too_long { (result ≡ Err MessageWriteError.TooLong) ↔ (65535 < size (numbered (N.object_number numbers.now) (N.new_number numbers.now) message.now)) }
    ensures too_small { (result ≡ Err MessageWriteError.BufferTooSmall) ↔ ((size (numbered (N.object_number numbers.now) (N.new_number numbers.now) message.now) ≤ 65535) × (length payload.old < size (numbered (N.object_number numbers.now) (N.new_number numbers.now) message.now))) }

    ensures memory { (result ≡ Err MessageWriteError.OutOfMemory) → (vec_capacity fds.old < vec_len fds.old + length (tokens (numbered (N.object_number numbers.now) (N.new_number numbers.now) message.now).args)) }
    ensures no_tokens { tokens (numbered (N.object_number numbers.now) (N.new_number numbers.now) message.now).args ≡ [] → result ≢ Err MessageWriteError.OutOfMemory }
    ensures unchanged { OnErr result ((payload.new ≡ payload.old) × (fds.new.items ≡ fds.old.items)) }

    ensures refused_room { OnErr result (vec_capacity fds.new ≡ vec_capacity fds.old) }
    ensures room { vec_len fds.old + length (tokens (numbered (N.object_number numbers.now) (N.new_number numbers.now) message.now).args) ≤ vec_capacity fds.old → vec_capacity fds.new ≡ vec_capacity fds.old }
{
    let args = message.args.as_slice();
    let Some(measure) = measure_of(args) else {
        return Err(MessageWriteError::TooLong);
    };
    if payload.len() < measure.bytes {
        return Err(MessageWriteError::BufferTooSmall);
    }
    if measure.tokens > 0 {
        append_tokens(fds, args, measure.tokens)?;
    }
    put_header(
        payload,
        numbers.number_object(&message.sender_id),
        measure.bytes,
        message.opcode,
    );
    put_arguments(payload, args, numbers);
    Ok(measure.bytes)
}

/// Writes counted bytes as `put_counted` does, if their padding ends by the place `end`.
///
/// It is not inlined, so that it costs nothing for an argument that is a word.
#[inline(never)]
fn put_counted_within(
    payload: &mut [u8],
    at: usize,
    end: usize,
    bytes: &[u8],
    ending: usize,
) -> Option<usize>
    requires at { at ≤ end }
    requires end { end ≤ length payload.old }
    requires small { end ≤ 65535 }
    requires ending { ending ≤ 1 }
    ensures written { IfSome result (λ next. (next ≡ at + counted_len (length bytes.now + ending)) × (next ≤ end) × (payload.new ≡ overwritten payload.old at (counted (bytes.now ++ replicate ending 0)))) }
    ensures none { result ≡ None → end < at + counted_len (length bytes.now + ending) }
{
    let room = end - at;
    if room <= bytes.len() {
        return None;
    }
    let len = bytes.len() + ending;
    if room < len + padding(len) + 4 {
        return None;
    }
    Some(put_counted(payload, at, bytes, ending))
}

/// Writes counted bytes as `put_counted` does, if they take no more than a word and `room` bytes. Returns the place after them,
/// and how much of the room is left.
fn put_block_within(
    payload: &mut [u8],
    at: usize,
    room: usize,
    bytes: &[u8],
    ending: usize,
) -> Option<(usize, usize)>
    requires end { at + 4 + room ≤ length payload.old }
    requires small { at + 4 + room ≤ 65535 }
    requires ending { ending ≤ 1 }
    ensures next { IfSome result (λ x. (x.0 ≡ at + counted_len (length bytes.now + ending)) × (x.0 + x.1 ≡ at + 4 + room)) }
    ensures written { IfSome result (λ _. payload.new ≡ overwritten payload.old at (counted (bytes.now ++ replicate ending 0))) }
    ensures none { result ≡ None → at + 4 + room < at + counted_len (length bytes.now + ending) }
{
    let end = at + 4 + room;
    let next = put_counted_within(payload, at, end, bytes, ending)?;
    Some((next, end - next))
}

/// Writes the argument's bytes from the place `at` on if they take no more than a word and `room` bytes. Returns the place
/// after them, and how much of the room is left. It writes no argument that has a token.
#[tactic(auto, unfolding(crate::specs::Message::piece))]
fn put_within<Id, N: Numbering<Id>>(
    payload: &mut [u8],
    at: usize,
    room: usize,
    arg: &Argument<Id, Token>,
    numbers: &N,
) -> Option<(usize, usize)>
    requires end { at + 4 + room ≤ length payload.old }
    requires small { at + 4 + room ≤ 65535 }
    ensures next { IfSome result (λ x. (x.0 ≡ at + piece_len arg.now) × (x.0 + x.1 ≡ at + 4 + room)) }
    ensures bytes { IfSome result (λ _. payload.new ≡ overwritten payload.old at (piece (with_ids (N.object_number numbers.now) (N.new_number numbers.now) arg.now))) }
    ensures token { IfSome result (λ _. token_of arg.now ≡ []) }
    ensures value { IfSome result (λ _. IsArgument (with_ids (N.object_number numbers.now) (N.new_number numbers.now) arg.now)) }
    ensures none { result ≡ None → token_of arg.now ≡ [] → at + 4 + room < at + piece_len arg.now }
{
    match arg {
        Argument::Int(n) => Some((put_word(payload, at, n.cast_unsigned()), room)),
        Argument::Uint(n) => Some((put_word(payload, at, *n), room)),
        Argument::Fixed(n) => Some((put_word(payload, at, n.cast_unsigned()), room)),
        Argument::Str(None) => Some((put_word(payload, at, 0), room)),
        Argument::Str(Some(text)) => put_block_within(payload, at, room, text.as_bytes(), 1),
        Argument::Object(id) => Some((put_word(payload, at, numbers.number_object(id)), room)),
        Argument::NewId(id) => Some((put_word(payload, at, numbers.number_new(id)), room)),
        Argument::Array(bytes) => put_block_within(payload, at, room, bytes.as_slice(), 0),
        Argument::Fd(_) => None,
    }
}

/// Writes the arguments' bytes after the header, which has eight bytes, if they end by the place `end` and have no tokens.
/// Returns the place after them.
fn put_each_within<Id, N: Numbering<Id>>(
    payload: &mut [u8],
    end: usize,
    args: &[Argument<Id, Token>],
    numbers: &N,
) -> Option<usize>
    requires header { 8 ≤ end }
    requires end { end ≤ length payload.old }
    requires small { end ≤ 65535 }
    ensures next { IfSome result (λ next. (next ≡ bytes_of args.now) × (next ≤ end)) }
    ensures bytes { IfSome result (λ _. payload.new ≡ overwritten payload.old 8 (pieces (map (with_ids (N.object_number numbers.now) (N.new_number numbers.now)) args.now))) }
    ensures tokens { IfSome result (λ _. tokens_of args.now ≡ []) }
    ensures values { IfSome result (λ _. AllByRecursion IsArgument (map (with_ids (N.object_number numbers.now) (N.new_number numbers.now)) args.now)) }
    ensures none { result ≡ None → tokens_of args.now ≡ [] → end < bytes_of args.now }
{
    if args.len() > MAX_WORDS || end - 8 < 4 * args.len() {
        return None;
    }
    // What strings and arrays may take beyond a word each. So there is always room for a word.
    let mut room = end - 8 - 4 * args.len();
    let mut at = 8;
    for arg in args {
        let (next, left) = put_within(payload, at, room, arg, numbers)?;
        at = next;
        room = left;
    }
    Some(at)
}

/// Writes the message at the front of `payload` in one pass over its arguments, if it has no tokens, fits into `payload` and
/// takes no more than 65535 bytes. Returns how many bytes were written; the bytes after them stay as they were.
///
/// Otherwise, and only then, it returns `None`, and what is in `payload` is not said.
pub fn write_once<Id, N: Numbering<Id>>(
    message: &Message<Id, Token>,
    numbers: &N,
    payload: &mut [u8],
) -> Option<usize>
    ensures room { IfSome result (λ n. (n ≤ 65535) × (n ≤ length payload.old)) }
    ensures written { IfSome result (λ n. (n ≡ size (numbered (N.object_number numbers.now) (N.new_number numbers.now) message.now)) × (payload.new ≡ spelling (numbered (N.object_number numbers.now) (N.new_number numbers.now) message.now) ++ drop n payload.old)) }
    ensures tokens { IfSome result (λ _. tokens (numbered (N.object_number numbers.now) (N.new_number numbers.now) message.now).args ≡ []) }
    ensures message { IfSome result (λ _. IsMessage (numbered (N.object_number numbers.now) (N.new_number numbers.now) message.now)) }
    ensures none { result ≡ None → tokens (numbered (N.object_number numbers.now) (N.new_number numbers.now) message.now).args ≡ []
        → size (numbered (N.object_number numbers.now) (N.new_number numbers.now) message.now) ≤ 65535
        → length payload.old < size (numbered (N.object_number numbers.now) (N.new_number numbers.now) message.now) }
{
    let end = payload.len().min(MAX_MESSAGE_SIZE);
    if end < 8 {
        return None;
    }
    let bytes = put_each_within(payload, end, message.args.as_slice(), numbers)?;
    put_header(
        payload,
        numbers.number_object(&message.sender_id),
        bytes,
        message.opcode,
    );
    Some(bytes)
}

/// Writes the message at the front of `payload`, and appends its tokens to `fds`.
///
/// Returns how many bytes were written. The bytes after them stay as they were. An error changes nothing. The errors are
/// decided in this order:
///
/// - `TooLong` if the message takes more than 65535 bytes;
/// - `BufferTooSmall` if it takes more bytes than `payload` has;
/// - `OutOfMemory` if there is no memory for its tokens. It never comes if the capacity of `fds` is large enough for them.
pub fn write_to_buffers(
    message: &Message<u32, Token>,
    payload: &mut [u8],
    fds: &mut Vec<Token>,
) -> Result<usize, MessageWriteError>
    ensures written { IfOk result (λ n. (n ≡ size (content message.now)) × (payload.new ≡ spelling (content message.now) ++ drop n payload.old)) }
    ensures tokens { OnOk result (fds.new.items ≡ fds.old.items ++ tokens message.now.args.items) }
    ensures message { OnOk result (IsMessage (content message.now)) }

    ensures too_long { (result ≡ Err MessageWriteError.TooLong) ↔ (65535 < size (content message.now)) }
    ensures too_small { (result ≡ Err MessageWriteError.BufferTooSmall) ↔ ((size (content message.now) ≤ 65535) × (length payload.old < size (content message.now))) }

    // No memory is needed if the capacity of `fds` is large enough for the tokens.
    ensures memory { (result ≡ Err MessageWriteError.OutOfMemory) → (vec_capacity fds.old < vec_len fds.old + length (tokens message.now.args.items)) }
    ensures no_tokens { tokens message.now.args.items ≡ [] → result ≢ Err MessageWriteError.OutOfMemory }
    ensures unchanged { OnErr result ((payload.new ≡ payload.old) × (fds.new.items ≡ fds.old.items)) }

    // The capacity of `fds` changes only if the message is written and its tokens do not fit.
    ensures refused_room { OnErr result (vec_capacity fds.new ≡ vec_capacity fds.old) }
    ensures room { vec_len fds.old + length (tokens message.now.args.items) ≤ vec_capacity fds.old → vec_capacity fds.new ≡ vec_capacity fds.old }
{
    write_numbered(message, &OwnNumbers, payload, fds)
}
