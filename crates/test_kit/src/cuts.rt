//! What arrives, and the ways in which it is cut.

ghost use Rattle.std.specs.Prelude.{◌<◌};

use crate::log::is_text;
use std::alloc::Global;
use std::test::Fail;

/// Bytes that are to arrive: a front, so many bytes 0xFF, and a back. There are at most 65536.
#[derive(Clone, Copy)]
pub struct Stream {
    pub front: &'static [u8],
    pub filled: usize,
    pub back: &'static [u8],
}

impl Stream {
    /// The bytes.
    pub fn bytes(self, alloc: Global) -> Result<Vec<u8>, Fail> {
        let mut bytes = Vec::from_slice(alloc, self.front)?;
        for _ in 0..self.filled {
            bytes.push(0xFF)?;
        }
        bytes.extend_from_slice(self.back)?;
        Ok(bytes)
    }

    /// The bytes in pieces, cut so.
    pub fn pieces(self, alloc: Global, cut: Cut) -> Result<Vec<Vec<u8>>, Fail> {
        let bytes = self.bytes(alloc)?;
        let mut pieces = Vec::new(alloc);
        push_cut(alloc, &mut pieces, bytes.as_slice(), cut)?;
        Ok(pieces)
    }
}

/// How what arrives is cut.
#[derive(Clone, Copy)]
pub enum Cut {
    /// Into one piece.
    Whole,
    /// Into two, after so many bytes.
    At(usize),
    /// Into pieces of 4096 bytes, and what is left.
    Chunks,
    /// Into single bytes.
    Bytewise,
}

/// Puts pieces of that size, and what is left.
fn push_chunks(
    alloc: Global,
    pieces: &mut Vec<Vec<u8>>,
    bytes: &[u8],
    size: usize,
) -> Result<(), Fail>
    requires { 0 < size }
{
    for chunk in bytes.chunks(size) {
        pieces.push(Vec::from_slice(alloc, chunk)?)?;
    }
    Ok(())
}

/// Puts the bytes in pieces, cut so.
fn push_cut(alloc: Global, pieces: &mut Vec<Vec<u8>>, bytes: &[u8], cut: Cut) -> Result<(), Fail> {
    match cut {
        Cut::Whole => push_chunks(alloc, pieces, bytes, 65536),
        Cut::At(place) => {
            let (front, back) = bytes.split_at(place.min(bytes.len()));
            push_chunks(alloc, pieces, front, 65536)?;
            push_chunks(alloc, pieces, back, 65536)
        }
        Cut::Chunks => push_chunks(alloc, pieces, bytes, 4096),
        Cut::Bytewise => push_chunks(alloc, pieces, bytes, 1),
    }
}

/// The cutting of that number of so many bytes: into one piece, into two at each place, and into single bytes.
pub fn cut_of(number: usize, len: usize) -> Cut {
    if number == 0 {
        Cut::Whole
    } else if number < len {
        Cut::At(number)
    } else {
        Cut::Bytewise
    }
}

/// Fails if something else is told of a row in the cutting of that number than this text. The row is named then.
pub fn cutting_tells(
    rt: &impl Eprint,
    (name, number): (&str, usize),
    told: &str,
    text: &str,
) -> Result<(), Fail> {
    let same = is_text(rt, told, text);
    if same.is_err() {
        let _ = eprintln!(rt; "in the row: {name}, cut at {number}");
    }
    same
}
