//! A client's session in a box, behind a pointer that C may keep.

ghost use Rattle.std.specs.Prelude.{IsSome, None, Option, Some, ◌≡◌};
ghost use Rattle.std.specs.contracts.option.Option as option;
ghost use Rattle.wl_host_client.specs.contracts.client.Client as session;
ghost use Rattle.wl_host_client.specs.declared.client.Client.{Client};

use crate::parts::Parts;
use std::alloc::Global;
use std::marker::{Model, Send};
use std::ptr;
use wl_host::Client;

/// Nothing, or a client's session in a box. C keeps the pointer to it, and follows it never.
///
/// It owns the box: `held` is the value in it. A drop frees nothing, so the box is taken out first.
#[repr(C)]
#[derive(Drop)]
pub struct ClientKept {
    /// Where the session lies. The type has no name in C.
    at: *mut u8,
    /// The session.
    pub ghost held: { Option Client } by { (option.the_row session.the_row).coded },
}

impl Model for ClientKept {
    ghost use Rattle.wl_c.specs.Held.{owns_held};
    ghost use Rattle.wl_host_client.specs.contracts.client.Client.{the_row};

    ghost also_owns = { λ kept. owns_held the_row kept.at kept.held };
}

impl ClientKept {
    /// Nothing.
    pub fn nothing() -> ClientKept
        ensures { result.held ≡ None }
    {
        ClientKept {
            at: ptr::null_mut(),
        }
    }

    /// Keeps the box that these are the parts of.
    fn pack(parts: Parts<Client, Global>) -> ClientKept
        ensures { result.held ≡ Some parts.value }
    {
        let Parts { at, handle: _ } = parts;
        ClientKept { at: at as *mut u8 }
    }

    /// The parts of the box that is kept.
    fn unpack(self, handle: Global) -> Parts<Client, Global>
        requires { IsSome self.held }
        ensures { self.held ≡ Some result.value }
    {
        let ClientKept { at } = self;
        Parts {
            at: at as *mut Client,
            handle,
        }
    }

    /// Keeps the box.
    pub fn of(session: Box<Client>) -> ClientKept
        ensures { result.held ≡ Some session.value }
    {
        ClientKept::pack(Parts::of(session))
    }

    /// The box that is kept.
    pub fn session(self, handle: Global) -> Box<Client>
        requires { IsSome self.held }
        ensures { self.held ≡ Some result.value }
    {
        self.unpack(handle).whole()
    }
}

// A session may go to another thread, and any thread may free its block.
unsafe impl Send for ClientKept {}
