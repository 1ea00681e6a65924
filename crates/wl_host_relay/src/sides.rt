//! The two sides of a relay's connection: their numbers, what came from one, and what is to be sent to one. A descriptor's own number is
//! its token, as in a guard of `wl_flat`.

ghost use Rattle.std.specs.Prelude.{◌≡◌, ◌≤◌, IfOk, length, map};
ghost use Rattle.wl_flat.specs.Flat.{over_front};
ghost use Rattle.wl_flat.specs.Guards.{copied_out, descriptor_of, side_of, token_of};

use std::alloc::{AllocError, Global};
use wl_flat::flat::Counts;
use wl_flat::outgoing::copy_bytes;
use wl_flat::status::Status;
use wl_flat::{CLIENT_SIDE, SERVER_SIDE};
use wl_follow::Side;
use wl_wire::Token;

/// The side of the number; `None` if there is none.
pub fn side_of(side: u32) -> Option<Side>
    ensures { result ≡ side_of side }
{
    match side {
        CLIENT_SIDE => Some(Side::Client),
        SERVER_SIDE => Some(Side::Server),
        _ => None,
    }
}

/// The tokens of descriptors: a descriptor's own number is its token.
pub fn tokens_of(alloc: Global, descriptors: &[i32]) -> Result<Vec<Token>, AllocError>
    ensures { IfOk result (λ tokens. tokens.items ≡ map token_of descriptors.now) }
{
    let mut tokens = Vec::with_capacity(alloc, descriptors.len())?;
    for descriptor in descriptors {
        tokens.push(Token(*descriptor))?;
    }
    Ok(tokens)
}

/// Writes the descriptors of the tokens to the first places. There is room for them.
fn copy_tokens(tokens: &[Token], to: &mut [i32])
    requires { length tokens.now ≤ length to.old }
    ensures { to.new ≡ over_front (map descriptor_of tokens.now) to.old }
{
    for (index, token) in tokens.iter().enumerate() {
        to[index] = token.0;
    }
}

/// Copies what is to be sent next: as many of the bytes as fit, and the descriptors of all tokens, which go with the first byte. The
/// counts say how many these are; both are 0 if no byte is copied.
///
/// The status is `TooSmall` if there is room for fewer descriptors. Then `counts` says how many of them there are, and the rest of what
/// was lent is as it was.
pub fn copy_send(
    waiting: &[u8],
    tokens: &[Token],
    bytes: &mut [u8],
    descriptors: &mut [i32],
    counts: &mut Counts,
) -> Status
    ensures status { result ≡ (copied_out (record { bytes = waiting.now; tokens = tokens.now }) bytes.old descriptors.old).status }
    ensures bytes { bytes.new ≡ (copied_out (record { bytes = waiting.now; tokens = tokens.now }) bytes.old descriptors.old).bytes }
    ensures descriptors { descriptors.new ≡ (copied_out (record { bytes = waiting.now; tokens = tokens.now }) bytes.old descriptors.old).descriptors }
    ensures counts { counts.new ≡ (copied_out (record { bytes = waiting.now; tokens = tokens.now }) bytes.old descriptors.old).counts }
{
    let count = waiting.len().min(bytes.len());
    if count == 0 {
        *counts = Counts::new(0, 0);
        return Status::Ok;
    }
    *counts = Counts::new(count, tokens.len());
    if tokens.len() > descriptors.len() {
        return Status::TooSmall;
    }
    copy_tokens(tokens, descriptors);
    copy_bytes(&waiting[..count], bytes);
    Status::Ok
}
