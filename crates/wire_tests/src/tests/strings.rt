//! The text of a string whose bytes are no text.

use std::alloc::Global;
use std::test::Fail;
use test_kit::log::tells;
use wl_wire::CString;

/// The text of the string of these bytes.
fn lossy(alloc: Global, bytes: &[u8]) -> Result<String, Fail> {
    let text = CString::new(Vec::from_slice(alloc, bytes)?)?;
    Ok(text.to_string_lossy(alloc)?)
}

#[test]
fn bytes_that_are_no_text_are_replaced(rt: HostRuntime) -> Result<(), Fail> {
    // One replacement for each longest beginning of a character.
    let bytes = [97, 0xe2, 0x82, 98, 0xff, 0xed, 0xa0, 0x80, 99];
    tells(
        &rt,
        lossy(rt.alloc(), &bytes),
        "a\u{fffd}b\u{fffd}\u{fffd}\u{fffd}\u{fffd}c",
    )
}
