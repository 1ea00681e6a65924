//! The arguments of a request that is handed out where it stands: each is read, checked and named in one pass, from left to right. A
//! request with something wrong, or without memory for it, is left to the general way, which says what it is.

ghost use Rattle.std.specs.Prelude.{◌≡◌, ℕ, ◌≤◌, ◌+◌, [], IfSome, List, MatchOption, Some, drop, length};
ghost use Rattle.std.specs.VecDeque.{deque_len};
ghost use Rattle.smallvec.specs.SmallVec.{HasRoomFor};
ghost use Rattle.wl_wire.specs.declared.argument.ArgumentType.TheVariants as kind;
ghost use Rattle.wl_wire.specs.declared.argument.Token.{Token as WireToken};
ghost use Rattle.wl_wire.specs.Table.{message_row};
ghost use Rattle.wl_server_client.specs.Inside.Conversion.{objects_of};
ghost use Rattle.wl_server_client.specs.Inside.InPlace.{HandsOut, IsMade, IsPlainNumber, PutsNext, converting, named};

use crate::ids::client_id::ClientId;
use crate::ids::object_id::ObjectId;
use crate::objects::ClientObjects;
use crate::reading::arguments::{Progress, insert_object, take_asked};
use crate::reading::in_place::naming::{Naming, new_id, object_id};
use std::collections::VecDeque;
use wl_wire::{
    AllowNull, Args, Argument, ArgumentType, INLINE_ARGS, MessageDesc, Token, read_array,
    read_text, read_word,
};

/// Puts an integer or a fixed-point number behind the arguments that are there. Returns the bytes after it.
#[inline(always)]
#[tactic(auto, unfolding(wl_wire::specs::Pieces::argument_at))]
fn put_number<'b, U: Drop>(
    naming: &Naming<'_, U>,
    progress: &Progress<'_>,
    kind: ArgumentType,
    bytes: &'b [u8],
    args: &mut Args<ObjectId>,
) -> Option<&'b [u8]>
    requires number { IsPlainNumber kind }
    requires room { HasRoomFor args.old 1 }
    ensures put { (fds : List WireToken) → IfSome result (λ rest. PutsNext naming.now progress.now args.old.items kind bytes.now fds progress.now args.new.items rest.now fds) }
    ensures one { IfSome result (λ _. length args.new.items ≡ length args.old.items + 1) }
    ensures capacity { args.new.capacity ≡ args.old.capacity }
{
    let (word, rest) = read_word(bytes)?;
    match kind {
        ArgumentType::Int => args.push_reserved(Argument::Int(word.cast_signed())),
        ArgumentType::Fixed => args.push_reserved(Argument::Fixed(word.cast_signed())),
        _ => args.push_reserved(Argument::Uint(word)),
    }
    Some(rest)
}

/// Puts the id of an object behind the arguments that are there. Returns the bytes after it.
#[inline(always)]
#[tactic(auto, unfolding(wl_wire::specs::Pieces::argument_at))]
fn put_object<'b, U: Drop>(
    naming: &Naming<'_, U>,
    progress: &mut Progress<'_>,
    null: AllowNull,
    bytes: &'b [u8],
    args: &mut Args<ObjectId>,
) -> Option<&'b [u8]>
    requires made { IsMade naming.now progress.old }
    requires room { HasRoomFor args.old 1 }
    ensures put { (fds : List WireToken) → IfSome result (λ rest. PutsNext naming.now progress.old args.old.items (kind.Object null) bytes.now fds progress.new args.new.items rest.now fds) }
    ensures made { IsMade naming.now progress.new }
    ensures kinds { progress.new.kinds.now ≡ progress.old.kinds.now }
    ensures one { IfSome result (λ _. length args.new.items ≡ length args.old.items + 1) }
    ensures capacity { args.new.capacity ≡ args.old.capacity }
{
    let (number, rest) = read_word(bytes)?;
    let allows_null = matches!(null, AllowNull::Yes);
    let asked = take_asked(progress);
    let id = object_id(naming, &progress.created, allows_null, asked, number)?;
    args.push_reserved(Argument::Object(id));
    Some(rest)
}

/// Puts the id of a new object behind the arguments that are there. Returns the bytes after it.
#[inline(always)]
#[tactic(auto, unfolding(wl_wire::specs::Pieces::argument_at))]
fn put_new_id<'b, U: Drop>(
    naming: &Naming<'_, U>,
    progress: &mut Progress<'_>,
    bytes: &'b [u8],
    args: &mut Args<ObjectId>,
) -> Option<&'b [u8]>
    requires made { IsMade naming.now progress.old }
    requires room { HasRoomFor args.old 1 }
    ensures put { (fds : List WireToken) → IfSome result (λ rest. PutsNext naming.now progress.old args.old.items kind.NewId bytes.now fds progress.new args.new.items rest.now fds) }
    ensures made { IsMade naming.now progress.new }
    ensures kinds { progress.new.kinds.now ≡ progress.old.kinds.now }
    ensures one { IfSome result (λ _. length args.new.items ≡ length args.old.items + 1) }
    ensures capacity { args.new.capacity ≡ args.old.capacity }
{
    let (number, rest) = read_word(bytes)?;
    let id = new_id(naming, progress, number)?;
    args.push_reserved(Argument::NewId(id));
    Some(rest)
}

/// Puts a copy of a string, or null, behind the arguments that are there. Returns the bytes after it.
///
/// It is not inlined, so that it costs nothing for an argument that is a word.
#[inline(never)]
#[tactic(auto, unfolding(wl_wire::specs::Pieces::argument_at))]
fn put_text<'b, U: Drop>(
    naming: &Naming<'_, U>,
    progress: &Progress<'_>,
    null: AllowNull,
    bytes: &'b [u8],
    args: &mut Args<ObjectId>,
) -> Option<&'b [u8]>
    requires room { HasRoomFor args.old 1 }
    ensures put { (fds : List WireToken) → IfSome result (λ rest. PutsNext naming.now progress.now args.old.items (kind.Str null) bytes.now fds progress.now args.new.items rest.now fds) }
    ensures one { IfSome result (λ _. length args.new.items ≡ length args.old.items + 1) }
    ensures capacity { args.new.capacity ≡ args.old.capacity }
{
    let Ok((text, rest)) = read_text(*args.allocator(), bytes) else {
        return None;
    };
    args.push_reserved(Argument::Str(text));
    Some(rest)
}

/// Puts a copy of an array behind the arguments that are there. Returns the bytes after it.
///
/// It is not inlined, so that it costs nothing for an argument that is a word.
#[inline(never)]
#[tactic(auto, unfolding(wl_wire::specs::Pieces::argument_at))]
fn put_array<'b, U: Drop>(
    naming: &Naming<'_, U>,
    progress: &Progress<'_>,
    bytes: &'b [u8],
    args: &mut Args<ObjectId>,
) -> Option<&'b [u8]>
    requires room { HasRoomFor args.old 1 }
    ensures put { (fds : List WireToken) → IfSome result (λ rest. PutsNext naming.now progress.now args.old.items kind.Array bytes.now fds progress.now args.new.items rest.now fds) }
    ensures one { IfSome result (λ _. length args.new.items ≡ length args.old.items + 1) }
    ensures capacity { args.new.capacity ≡ args.old.capacity }
{
    let Ok((array, rest)) = read_array(*args.allocator(), bytes) else {
        return None;
    };
    args.push_reserved(Argument::Array(array));
    Some(rest)
}

/// Puts the token after the `used` ones behind the arguments that are there.
#[tactic(auto, unfolding(wl_wire::specs::Pieces::argument_at))]
fn put_token<U: Drop>(
    naming: &Naming<'_, U>,
    progress: &Progress<'_>,
    tokens: &VecDeque<Token>,
    used: usize,
    args: &mut Args<ObjectId>,
) -> Option<()>
    requires room { HasRoomFor args.old 1 }
    ensures put { (bytes : List ℕ) → IfSome result (λ _. PutsNext naming.now progress.now args.old.items kind.Fd bytes (drop used tokens.now.items)
        progress.now args.new.items bytes (drop (used + 1) tokens.now.items)) }
    ensures there { IfSome result (λ _. used + 1 ≤ deque_len tokens.now) }
    ensures one { IfSome result (λ _. length args.new.items ≡ length args.old.items + 1) }
    ensures capacity { args.new.capacity ≡ args.old.capacity }
{
    let token = *tokens.get(used)?;
    args.push_reserved(Argument::Fd(token));
    Some(())
}

/// Puts the argument of this type at the front of the bytes behind those that are there. Its type was taken off those that are
/// left. Returns the bytes after it, and how many tokens are used then. `None` if it is wrong, or there is no memory for it.
#[inline(always)]
fn put_next<'b, U: Drop>(
    naming: &Naming<'_, U>,
    progress: &mut Progress<'_>,
    kind: ArgumentType,
    bytes: &'b [u8],
    tokens: &VecDeque<Token>,
    used: usize,
    args: &mut Args<ObjectId>,
) -> Option<(&'b [u8], usize)>
    requires made { IsMade naming.now progress.old }
    requires room { HasRoomFor args.old 1 }
    requires used { used ≤ deque_len tokens.now }
    ensures put { IfSome result (λ x. PutsNext naming.now progress.old args.old.items kind bytes.now (drop used tokens.now.items)
        progress.new args.new.items x.0.now (drop x.1 tokens.now.items)) }
    ensures made { IsMade naming.now progress.new }
    ensures kinds { progress.new.kinds.now ≡ progress.old.kinds.now }
    ensures used { IfSome result (λ x. x.1 ≤ deque_len tokens.now) }
    ensures one { IfSome result (λ _. length args.new.items ≡ length args.old.items + 1) }
    ensures capacity { args.new.capacity ≡ args.old.capacity }
{
    let rest = match kind {
        ArgumentType::Int | ArgumentType::Uint | ArgumentType::Fixed => {
            put_number(naming, progress, kind, bytes, args)?
        }
        ArgumentType::Object(null) => put_object(naming, progress, null, bytes, args)?,
        ArgumentType::NewId => put_new_id(naming, progress, bytes, args)?,
        ArgumentType::Str(null) => put_text(naming, progress, null, bytes, args)?,
        ArgumentType::Array => put_array(naming, progress, bytes, args)?,
        ArgumentType::Fd => {
            put_token(naming, progress, tokens, used, args)?;
            return Some((bytes, used + 1));
        }
    };
    Some((rest, used))
}

/// Puts all arguments behind those that are there, and returns how many tokens they use. `None` if one is wrong, or there is no
/// memory for it.
fn put_each<U: Drop>(
    naming: &Naming<'_, U>,
    progress: &mut Progress<'_>,
    payload: &[u8],
    tokens: &VecDeque<Token>,
    args: &mut Args<ObjectId>,
) -> Option<usize>
    requires made { IsMade naming.now progress.old }
    requires room { HasRoomFor args.old (length progress.old.kinds.now) }
    ensures named { IfSome result (λ used. named naming.now.client naming.now.limit naming.now.version (converting naming.now progress.old) args.old.items
        progress.old.kinds.now payload.now tokens.now.items ≡ Some (converting naming.now progress.new, args.new.items, drop used tokens.now.items)) }
    ensures made { IsMade naming.now progress.new }
    ensures used { IfSome result (λ used. used ≤ deque_len tokens.now) }
{
    let mut bytes = payload;
    let mut used = 0;
    while let Some((kind, others)) = progress.kinds.split_first() {
        progress.kinds = others;
        let (rest, so_far) = put_next(naming, progress, *kind, bytes, tokens, used, args)?;
        bytes = rest;
        used = so_far;
    }
    Some(used)
}

/// Empties the arguments, and makes room for so many. Up to four fit already, and take no memory. `None` if there is no memory.
fn empty_for(args: &mut Args<ObjectId>, count: usize) -> Option<()>
    ensures empty { args.new.items ≡ [] }
    ensures room { IfSome result (λ _. HasRoomFor args.new count) }
{
    // Most often there are none.
    if !args.is_empty() {
        args.clear();
    }
    let room = args.capacity();
    prove!(INLINE_ARGS <= room);
    if count > INLINE_ARGS {
        args.reserve(count).ok()?;
    }
    Some(())
}

/// Puts the arguments of a request into `args`, in place of those that are there, and makes the object that it makes. Returns that
/// object, and how many tokens are the request's. `version` is the version of the object that it was sent to, and `payload` has the
/// bytes of the arguments. No object is made above the limit.
///
/// `None` says that it is a request for the general way. Then no object is made, and what is in `args` is not said.
pub fn put_arguments<U: Drop>(
    client: ClientId,
    limit: Option<u32>,
    version: u32,
    desc: &MessageDesc,
    objects: &mut ClientObjects<U>,
    payload: &[u8],
    tokens: &VecDeque<Token>,
    args: &mut Args<ObjectId>,
) -> Option<(Option<ObjectId>, usize)>
    ensures put { MatchOption result (objects_of objects.new ≡ objects_of objects.old)
        (λ x. HandsOut client limit version (objects_of objects.old) (message_row desc.now) payload.now tokens.now.items x.0 x.1 (objects_of objects.new) args.new.items) }
    ensures registries { objects.new.registries ≡ objects.old.registries }
{
    empty_for(args, desc.signature.len())?;
    let mut progress = Progress {
        kinds: desc.signature.as_slice(),
        asked: desc.arg_interfaces.as_slice(),
        child: desc.child_interface,
        created: None,
    };
    let naming = Naming {
        client,
        limit,
        version,
        objects,
    };
    let used = put_each(&naming, &mut progress, payload, tokens, args)?;
    let created = progress.created;
    if let Some(id) = &created {
        insert_object(client, objects, id.interface(), version, id.protocol_id()).ok()?;
    }
    Some((created, used))
}
