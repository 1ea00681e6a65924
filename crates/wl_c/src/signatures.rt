//! Signatures of messages.

ghost use Rattle.std.specs.Prelude.{◌≡◌};
ghost use Rattle.wl_flat.specs.Signatures.{ReadsSignature};
ghost use Rattle.wl_flat.specs.Status.{code_of};
ghost use Rattle.wl_flat.specs.declared.status.Status.{Status};

use wl_host::{ArgumentRow, MessageRow, read_signature};

/// Writes what a signature says into the row of a message, and into the rows of its arguments.
#[unsafe(no_mangle)]
pub extern "C" fn nb_read_signature(
    signature: &[u8],
    message: &mut MessageRow,
    arguments: &mut [ArgumentRow],
) -> u32
    ensures { (status : Status) × (result ≡ code_of status) × ReadsSignature signature.now message.old arguments.old status message.new arguments.new }
{
    read_signature(signature, message, arguments).code()
}
