//! The version of the library, so that a program can compare it with that of the header it was compiled with.

ghost use Rattle.std.specs.Prelude.{◌≡◌};

const MAJOR: u32 = 0;

const MINOR: u32 = 10;

const PATCH: u32 = 0;
/// The greatest bit of the version of a library that was built without a proof, for those who develop it.
const UNPROVED: u32 = 0;

/// The version of the library, as `NB_VERSION` is that of the header: 65536 times the major number, 256 times the minor
/// number, and the patch.
#[unsafe(no_mangle)]
pub extern "C" fn nb_version() -> u32
    ensures { result ≡ 0x000a00 }
{
    UNPROVED + MAJOR * 0x10000 + MINOR * 0x100 + PATCH
}
