//! Bytes as text.

use std::test::Fail;
use test_kit::log::is_text;
use wl_bench::hex::hex_line;

/// Bytes, and their line.
static ROWS: [(&[u8], &str); 3] = [(&[], ""), (&[0x0a], "0a"), (&[0, 255, 16], "00 ff 10")];

#[test]
fn hex_of_bytes(rt: HostRuntime) -> Result<(), Fail> {
    for (bytes, text) in &ROWS {
        let line = hex_line(rt.alloc(), bytes)?;
        is_text(&rt, line.as_str(), text)?;
    }
    Ok(())
}
