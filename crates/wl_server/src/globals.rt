//! The globals of a server: how one is created, disabled and removed.

ghost use Rattle.std.specs.Prelude.{◌≡◌, ℕ, Bool, MatchBool, MatchOption, IfOk, Some};
ghost use Rattle.wl_link.specs.Identity.{names};
ghost use Rattle.wl_link.specs.ObjectMap.{InsertsNew};
ghost use Rattle.wl_link.specs.Store.{held, rewritten};
ghost use Rattle.wl_server_model.specs.Inside.Naming.{InsertsUnused, NextName};
ghost use Rattle.wl_server_client.specs.Globals.{CreatesGlobal, as_disabled, disabled, freed, global_serial, name_range, new_global, with_created};

/// `add_interfaces` and `extend_interface`: the table grows.
pub mod add_interfaces;
/// `create_global`.
pub mod create_global;
/// Look-ups of globals.
pub mod lookups;
/// `hand_out_registries`: whether the program tells registries of globals by itself.
pub mod hand_out_registries;
/// `keep_global_names`: whether names that were in use are given again.
pub mod keep_names;
/// `disable_global` and `remove_global`.
pub mod remove_global;

use wl_link::{InsertError, NewError, Object, ObjectMap};
use wl_server_client::error::GlobalError;
use wl_server_client::globals::{KeptGlobal, global_in};
use wl_server_client::ids::global_id::GlobalId;
use wl_wire::{InterfaceId, Protocol};

/// The least name that no global has, or that was never in use if names are kept; `None` if none is left.
pub fn next_name<G: Drop>(globals: &ObjectMap<KeptGlobal<G>>, keeps_names: bool) -> Option<u32>
    ensures { NextName keeps_names globals.now.store result }
{
    if keeps_names {
        return globals.peek_unused();
    }
    match globals.peek_client() {
        Some(name) => Some(name),
        None => globals.peek_server(),
    }
}

/// Inserts a global with the least name that was never in use.
fn insert_unused<G: Drop>(
    globals: &mut ObjectMap<KeptGlobal<G>>,
    global: Object<KeptGlobal<G>>,
) -> Result<u32, NewError>
    ensures { InsertsUnused globals.old.store global result globals.new.store }
{
    let Some(name) = globals.peek_unused() else {
        return Err(NewError::IdsExhausted);
    };
    match globals.insert_at(name, global) {
        Ok(()) => Ok(name),
        Err(InsertError::OutOfMemory) => Err(NewError::OutOfMemory),
        Err(InsertError::NotFree) => unreachable!(),
    }
}

/// Inserts a global with the least name that no other has, or that was never in use if names are kept.
fn insert<G: Drop>(
    globals: &mut ObjectMap<KeptGlobal<G>>,
    global: Object<KeptGlobal<G>>,
    keeps_names: bool,
) -> Result<u32, NewError>
    ensures { MatchBool keeps_names (InsertsUnused globals.old.store global result globals.new.store)
        (InsertsNew name_range globals.old.store global result globals.new.store) }
{
    if keeps_names {
        return insert_unused(globals, global);
    }
    match globals.next_client() {
        Some(_) => globals.client_insert_new(global),
        None => globals.server_insert_new(global),
    }
}

/// Creates a global with the next name and the next serial. If names are kept, the next one is the least that was never in
/// use, and else the least that no other global has. After an error nothing is changed.
pub fn create<G: Drop>(
    protocol: &Protocol,
    globals: &mut ObjectMap<KeptGlobal<G>>,
    last_serial: &mut u64,
    keeps_names: bool,
    interface: InterfaceId,
    version: u32,
    handler: G,
) -> Result<GlobalId, GlobalError>
    ensures answer { CreatesGlobal protocol.now (record { store = globals.old.store; last_serial = last_serial.old; keeps_names = keeps_names }) interface version result }
    ensures globals { record { store = globals.new.store; last_serial = last_serial.new; keeps_names = keeps_names }
        ≡ with_created (record { store = globals.old.store; last_serial = last_serial.old; keeps_names = keeps_names }) interface version handler result }
    ensures kept { IfOk result (λ id. names global_serial (record { number = id.name; serial = id.serial }) globals.new.store
        ≡ Some (new_global interface version id.serial handler)) }
{
    match protocol.get(interface) {
        None => return Err(GlobalError::UnknownInterface),
        Some(known) if version > known.version => return Err(GlobalError::VersionTooHigh),
        Some(_) => {}
    }
    if *last_serial == u64::MAX {
        return Err(GlobalError::Full);
    }
    let serial = *last_serial + 1;
    let global = Object {
        interface,
        version,
        value: KeptGlobal {
            serial,
            handler,
            is_disabled: false,
        },
    };
    match insert(globals, global, keeps_names) {
        Ok(name) => {
            *last_serial = serial;
            Ok(GlobalId::from_parts(name, serial))
        }
        Err(NewError::IdsExhausted) => Err(GlobalError::Full),
        Err(NewError::OutOfMemory) => Err(GlobalError::OutOfMemory),
    }
}

/// Disables the global of this name, if there is one.
fn disable_at<G: Drop>(globals: &mut ObjectMap<KeptGlobal<G>>, name: u32)
    ensures { MatchOption (held globals.old.store name) (globals.new.store ≡ globals.old.store)
        (λ global. globals.new.store ≡ rewritten globals.old.store name (as_disabled global)) }
{
    globals.with(name, |global| {
        global.value.is_disabled = true;
    });
}

/// Disables the global that the id names, if there is one: it is no longer announced.
pub fn disable<G: Drop>(globals: &mut ObjectMap<KeptGlobal<G>>, id: &GlobalId)
    ensures { (last : ℕ) (keeps : Bool) → record { store = globals.new.store; last_serial = last; keeps_names = keeps }
        ≡ disabled (record { store = globals.old.store; last_serial = last; keeps_names = keeps }) id.now }
{
    if global_in(globals, id).is_none() {
        return;
    }
    disable_at(globals, id.name());
}

/// Removes the global that the id names, if there is one. No global has its name then.
pub fn remove<G: Drop>(globals: &mut ObjectMap<KeptGlobal<G>>, id: &GlobalId)
    ensures { (last : ℕ) (keeps : Bool) → record { store = globals.new.store; last_serial = last; keeps_names = keeps }
        ≡ freed (record { store = globals.old.store; last_serial = last; keeps_names = keeps }) id.now }
{
    if global_in(globals, id).is_none() {
        return;
    }
    globals.remove(id.name());
}
