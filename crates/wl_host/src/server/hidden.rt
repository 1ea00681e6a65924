//! The lists of what is hidden: globals from a client, and a global from clients.

ghost use Rattle.std.specs.Prelude.{◌≡◌, ◌||◌, IfOk, OnOk};
ghost use Rattle.std.specs.BTreeSet.{contains};
ghost use Rattle.std.specs.List.{list_any};
ghost use Rattle.std.specs.Ordering.{eq_by_cmp};
ghost use Rattle.wl_server_client.specs.Ids.{ClientParts, GlobalParts};
ghost use Rattle.wl_host.specs.Visibility.{lists_client, lists_global};

use std::alloc::Global;
use std::collections::BTreeSet;
use wl_flat::flat::{FlatClientId, FlatGlobalId};
use wl_wire::OutOfMemory;

/// Puts the key into the set.
fn put<K: Ord + Copy>(set: &mut BTreeSet<K>, key: K) -> Result<(), OutOfMemory>
    ensures { OnOk result ((q : K) → contains K.cmp set.new q ≡ (contains K.cmp set.old q || eq_by_cmp K.cmp q key)) }
{
    set.insert(key)?;
    Ok(())
}

/// The set of these keys.
fn set_of<K: Ord + Copy>(alloc: Global, keys: &[K]) -> Result<BTreeSet<K>, OutOfMemory>
    ensures { IfOk result (λ set. (q : K) → contains K.cmp set q ≡ list_any (eq_by_cmp K.cmp q) keys.now) }
{
    let mut set = BTreeSet::new(alloc);
    for key in keys {
        put(&mut set, *key)?;
    }
    Ok(set)
}

/// The set of these clients.
pub fn clients(alloc: Global, ids: &[FlatClientId]) -> Result<BTreeSet<FlatClientId>, OutOfMemory>
    ensures { IfOk result (λ set. (id : ClientParts) → lists_client set.keys id ≡ lists_client ids.now id) }
{
    let set = set_of(alloc, ids)?;
    Ok(set)
}

/// The set of these globals.
pub fn globals(alloc: Global, ids: &[FlatGlobalId]) -> Result<BTreeSet<FlatGlobalId>, OutOfMemory>
    ensures { IfOk result (λ set. (id : GlobalParts) → lists_global set.keys id ≡ lists_global ids.now id) }
{
    let set = set_of(alloc, ids)?;
    Ok(set)
}
