//! Each allocation is refused in turn: runs of the program that judge themselves, whichever it is.

use super::lines::{ROWS, Row};
use std::process::Abort;
use std::test::Fail;
use wl_relay::{Stop, run, status};

/// Whether all is written that the row says, and the program ended with its status.
fn is_whole(row: &Row, output: &[u8], ended: Result<(), Stop>) -> bool {
    let written = row.written.as_bytes();
    match written.get(output.len()..) {
        Some([b'[', .., last]) => {
            written.starts_with(output) && last.checked_sub(b'0') == Some(status(ended))
        }
        _ => false,
    }
}

/// Runs the lines of a row, and once more if the program failed. Fails if it wrote anything else by then.
fn drill(rt: &(impl Abort + AllocGlobal), row: &Row) {
    let mut input = row.lines.as_bytes();
    let mut output = Vec::new(rt.alloc());
    let mut ended = run(rt.alloc(), &mut input, &mut output);
    if ended == Err(Stop::Failed) {
        assert!(rt; row.written.as_bytes().starts_with(output.as_slice()));
        output.clear();
        let mut again = row.lines.as_bytes();
        ended = run(rt.alloc(), &mut again, &mut output);
    }
    assert!(rt; is_whole(row, output.as_slice(), ended));
}

/// The lines of each row.
#[test]
fn drill_of_rows(rt: HostRuntime) -> Result<(), Fail> {
    for row in &ROWS {
        drill(&rt, row);
    }
    Ok(())
}
