//! A new session in a box of its own.

ghost use Rattle.std.specs.Prelude.{Err, IfErr, IfOk, Ok, ◌≡◌, ◌⊎◌};
ghost use Rattle.wl_flat.specs.Rows.{fault_of};
ghost use Rattle.wl_wire.specs.declared.protocol.TableError.TheVariants as error;

use std::alloc::Global;
use wl_host::{TableFault, fault};

/// Puts a new session into a box, unless its table was refused or there is no memory.
///
/// It knows nothing of the session, so the proof has no case for each field that a refusal drops.
pub fn boxed<T: Drop>(alloc: Global, session: Result<T, TableFault>) -> Result<Box<T>, TableFault>
    ensures made { IfOk result (λ place. session ≡ Ok place.value) }
    ensures fault { IfErr result (λ fault. (session ≡ Err fault) ⊎ (fault ≡ fault_of error.OutOfMemory)) }
{
    match Box::new(alloc, session?) {
        Ok(place) => Ok(place),
        Err(_) => Err(TableFault {
            interface: 0,
            fault: fault::OUT_OF_MEMORY,
        }),
    }
}
