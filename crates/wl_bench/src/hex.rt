//! Bytes as text.

ghost use Rattle.std.specs.Prelude.{◌≡◌, IfOk};
ghost use Rattle.std.specs.String.{string_bytes};
ghost use Rattle.wl_bench.specs.Hex.{hex_text};

use std::alloc::{AllocError, Global};

/// The bytes in lower-case hex, two digits each, with one space between.
pub fn hex_line(alloc: Global, bytes: &[u8]) -> Result<String, AllocError>
    ensures { IfOk result (λ text. string_bytes text ≡ hex_text bytes.now) }
{
    let mut line = String::new(alloc);
    let Some((first, rest)) = bytes.split_first() else {
        return Ok(line);
    };
    write!(line, "{first:02x}")?;
    for byte in rest {
        write!(line, " {byte:02x}")?;
    }
    Ok(line)
}
