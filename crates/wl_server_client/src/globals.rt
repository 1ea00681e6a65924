//! The globals of a server.

ghost use Rattle.std.specs.Prelude.{◌≡◌, Some, option_copied};
ghost use Rattle.wl_link.specs.Identity.{names};
ghost use Rattle.wl_server_client.specs.Globals.{global_serial};

/// The message `wl_registry.global`, and how each registry of a client is told.
pub mod announce;
/// The trait `GlobalHandler`: which clients see a global.
pub mod handler;
/// Tells a new registry of each global that its client is shown.
pub mod new_registry;

use crate::ids::global_id::GlobalId;
use wl_link::{Object, ObjectMap};

/// What is kept of a global in addition to its interface and version.
#[derive(Drop)]
pub struct KeptGlobal<G> {
    /// The serial. No other global has it.
    pub serial: u64,
    /// The program's handler of the global.
    pub handler: G,
    /// Whether it was disabled: it is no longer announced.
    pub is_disabled: bool,
}

/// The global that the id names, if it is there: the one of its name, if that has its serial.
pub fn global_in<'a, G: Drop>(
    globals: &'a ObjectMap<KeptGlobal<G>>,
    id: &GlobalId,
) -> Option<&'a Object<KeptGlobal<G>>>
    ensures { option_copied result ≡ names global_serial (record { number = id.now.name; serial = id.now.serial }) globals.now.store }
{
    if id.name() == 0 {
        return None;
    }
    match globals.find(id.name()) {
        Some(global) if global.value.serial == id.serial() => Some(global),
        _ => None,
    }
}
