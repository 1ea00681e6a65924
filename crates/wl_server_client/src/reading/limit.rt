//! The limit of objects: whether a request passes it.

ghost use Rattle.std.specs.Prelude.{◌≡◌};
ghost use Rattle.std.specs.List.{list_any};
ghost use Rattle.wl_server_client.specs.Limited.{is_above, is_new_above, limit_passed};

use wl_wire::{Argument, Token};

/// Whether the number is above the limit, if there is one.
#[inline(always)]
pub fn is_above(limit: Option<u32>, number: u32) -> bool
    ensures { result ≡ is_above limit number }
{
    match limit {
        Some(limit) => number > limit,
        None => false,
    }
}

/// Whether the argument is a new id above the limit.
fn is_new_above(argument: &Argument<u32, Token>, limit: u32) -> bool
    ensures { result ≡ is_new_above limit argument.now }
{
    match argument {
        Argument::NewId(number) => *number > limit,
        _ => false,
    }
}

/// Whether one of the arguments is a new id above the limit.
fn any_new_above(args: &[Argument<u32, Token>], limit: u32) -> bool
    ensures { result ≡ list_any (is_new_above limit) args.now }
{
    args.iter().any(|argument| is_new_above(argument, limit))
}

/// The limit, if a new id among the arguments is above it.
pub fn limit_passed(limit: Option<u32>, args: &[Argument<u32, Token>]) -> Option<u32>
    ensures { result ≡ limit_passed limit args.now }
{
    match limit {
        Some(limit) if any_new_above(args, limit) => Some(limit),
        _ => None,
    }
}
