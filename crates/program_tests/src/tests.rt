//! Lines that drive a server, recordings of them, bytes as text, and `wl-bench` over all of these; the lines of a relay.

mod broken;
mod commands;
mod hex;
mod lines;
mod program;
mod recordings;
mod relay;
mod streams;

use std::alloc::Global;
use std::test::Fail;

/// What was printed, and after it in brackets what was told on standard error, and the exit status.
fn log(printed: Vec<u8>, told: Vec<u8>, status: u8) -> Result<String, Fail> {
    let mut text = String::from_utf8(printed)?;
    let told = String::from_utf8(told)?;
    let told = told.as_str();
    write!(text, "[{told}] {status}")?;
    Ok(text)
}

/// Appends the piece so many times.
fn push_times(text: &mut String, piece: &str, count: usize) -> Result<(), Fail> {
    for _ in 0..count {
        text.push_str(piece)?;
    }
    Ok(())
}

/// The text of these pieces, each so many times.
fn text_of(alloc: Global, pieces: &[(&str, usize)]) -> Result<String, Fail> {
    let mut text = String::new(alloc);
    for (piece, count) in pieces {
        push_times(&mut text, piece, *count)?;
    }
    Ok(text)
}
