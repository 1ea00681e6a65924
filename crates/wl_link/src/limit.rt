//! How far the buffers of a link may grow.

ghost use Rattle.std.specs.Prelude.{◌≡◌, ◌≢◌, ◌↔◌, ◌<◌, ◌≤◌, IsTrue, IfSome, MatchOption};
ghost use Rattle.wl_link.specs.Link.{AreLimits, IsLimit, Grows, Wants, incoming_limit};

/// 4096: the least limit of a link's buffers, and their capacity in a new link, in bytes. A server uses it as the limit of
/// its clients' links, unless the program asks for another.
pub const DEFAULT_MAX_BUFFER_SIZE: usize = 4096;

/// 65536: the greatest capacity in bytes of the incoming buffer. A limit may ask for less.
pub const INCOMING_LIMIT: usize = 65536;

/// The greatest power of two in 64 bits.
const GREATEST_POWER_OF_TWO: usize = 1 << 63;

/// The limit that is kept if this one is asked for.
pub(crate) fn rounded(limit: Option<usize>) -> Option<usize>
    ensures { AreLimits limit result }
{
    match limit {
        None => None,
        Some(asked) => Some(rounded_up(asked)),
    }
}

/// The least power of two that is at least `asked` and at least 4096. If there is none in 64 bits, it is the greatest
/// `usize`.
fn rounded_up(asked: usize) -> usize
    ensures { IsLimit asked result }
{
    if asked > GREATEST_POWER_OF_TWO {
        return usize::MAX;
    }
    asked.max(DEFAULT_MAX_BUFFER_SIZE).next_power_of_two()
}

/// The greatest capacity of the incoming buffer under that limit, in bytes.
pub(crate) fn incoming_limit(limit: Option<usize>) -> usize
    ensures { result ≡ incoming_limit limit }
{
    match limit {
        None => INCOMING_LIMIT,
        Some(limit) => limit.min(INCOMING_LIMIT),
    }
}

/// Whether a buffer of capacity `size` is too small for `needed` bytes, and the limit allows doubling it.
fn wants_more(limit: Option<usize>, needed: usize, size: usize) -> bool
    ensures { IsTrue result ↔ Wants limit needed size }
{
    match limit {
        None => size < needed,
        Some(limit) => size < needed && size < limit,
    }
}

/// The capacity to which a buffer of capacity `size` grows if it needs `needed` bytes. It is doubled until that fits, or
/// until the limit is reached. `None` if the capacity would not fit into a `usize`.
pub(crate) fn grown_size(limit: Option<usize>, needed: usize, size: usize) -> Option<usize>
    requires { 0 < size }
    ensures grown { MatchOption result (Wants limit needed size) (λ n. Grows limit needed size n) }
    ensures larger { IfSome result (λ n. size ≤ n) }
    ensures wanted { IfSome result (λ n. n ≢ size → Wants limit needed size) }
{
    let mut grown = size;
    'doublings: while wants_more(limit, needed, grown) {
        grown = grown.checked_mul(2)?;
    }
    Some(grown)
}
