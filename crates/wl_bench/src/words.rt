//! The words of commands: numbers, lists of numbers, bytes in hex, and the names of faults.

ghost use Rattle.std.specs.Prelude.{◌≡◌, ◌<◌, ◌≢◌, ◌∷◌, ℕ, [], false, map, IfOk, MatchOption};
ghost use Rattle.std.specs.Fmt.{digit_glyph};
ghost use Rattle.std.specs.List.{All};
ghost use Rattle.wl_bench.specs.Commands.{AreBytes, AreHex, AreNumbers, AreTokens, Finds, FindsAll, IsNumber, IsTokenNumber, NamesFault, token};
ghost use Rattle.wl_bench.specs.Hex.{hex_digits};

use std::alloc::{AllocError, Global};
use wl_wire::{IoFault, Token};

/// The number that a word is: decimal, without a sign or leading zeros, and at most 4294967295.
pub fn number(word: &str) -> Option<u32>
    ensures { Finds IsNumber word.now result }
{
    if word.starts_with('+') {
        return None;
    }
    if word.len() > 1 && word.starts_with('0') {
        return None;
    }
    word.parse::<u32>().ok()
}

/// The numbers that a word lists, with commas between; one at least.
pub fn numbers(alloc: Global, word: &str) -> Result<Option<Vec<u32>>, AllocError>
    ensures { IfOk result (FindsAll AreNumbers word.now) }
{
    let mut found = Vec::new(alloc);
    for part in word.split(',') {
        let Some(one) = number(part) else {
            return Ok(None);
        };
        found.push(one)?;
    }
    Ok(Some(found))
}

/// The tokens of these numbers, each at most 2147483647.
fn tokens_of(alloc: Global, numbers: &[u32]) -> Result<Option<Vec<Token>>, AllocError>
    ensures { IfOk result (λ found. MatchOption found (¬ (All IsTokenNumber numbers.now))
        (λ tokens. All IsTokenNumber numbers.now × (tokens.items ≡ map token numbers.now))) }
{
    let mut tokens = Vec::new(alloc);
    for number in numbers {
        let Ok(token) = i32::try_from(*number) else {
            return Ok(None);
        };
        tokens.push(Token(token))?;
    }
    Ok(Some(tokens))
}

/// The tokens that a word lists: numbers up to 2147483647 with commas between, or `-` for none.
pub fn chunk_tokens(alloc: Global, word: &str) -> Result<Option<Vec<Token>>, AllocError>
    ensures { IfOk result (FindsAll AreTokens word.now) }
{
    if word == "-" {
        return Ok(Some(Vec::new(alloc)));
    }
    match numbers(alloc, word)? {
        Some(numbers) => tokens_of(alloc, numbers.as_slice()),
        None => Ok(None),
    }
}

/// The value of a digit in hex, of which letters are lower-case.
fn digit(glyph: u8) -> Option<u8>
    ensures { MatchOption result ((d : ℕ) → d < 16 → glyph ≢ digit_glyph false d)
        (λ d. (d < 16) × (glyph ≡ digit_glyph false d)) }
{
    match glyph {
        b'0'..=b'9' => Some(glyph - b'0'),
        b'a'..=b'f' => Some(glyph - b'a' + 10),
        _ => None,
    }
}

/// The byte of two digits in hex.
fn byte(high: u8, low: u8) -> Option<u8>
    ensures { MatchOption result ((b : ℕ) → b < 256 → high ∷ low ∷ [] ≢ hex_digits b)
        (λ b. (b < 256) × (high ∷ low ∷ [] ≡ hex_digits b)) }
{
    let high = digit(high)?;
    let low = digit(low)?;
    Some(16 * high + low)
}

/// The bytes that two digits in hex each stand for.
fn bytes(alloc: Global, glyphs: &[u8]) -> Result<Option<Vec<u8>>, AllocError>
    ensures { IfOk result (FindsAll AreHex glyphs.now) }
{
    let mut found = Vec::with_capacity(alloc, glyphs.len() / 2)?;
    let mut rest = glyphs;
    while let [high, low, others @ ..] = rest {
        let Some(one) = byte(*high, *low) else {
            return Ok(None);
        };
        found.push(one)?;
        rest = others;
    }
    if rest.is_empty() {
        Ok(Some(found))
    } else {
        Ok(None)
    }
}

/// The bytes that a word is: two digits in lower-case hex each, or `-` for none.
pub fn chunk_bytes(alloc: Global, word: &str) -> Result<Option<Vec<u8>>, AllocError>
    ensures { IfOk result (FindsAll AreBytes word.now) }
{
    if word == "-" {
        return Ok(Some(Vec::new(alloc)));
    }
    if word.is_empty() {
        return Ok(None);
    }
    bytes(alloc, word.as_bytes())
}

/// The fault of that name. `Other` is the error 5 of the system.
pub fn fault(name: &str) -> Option<IoFault>
    ensures { Finds NamesFault name.now result }
{
    match name {
        "WouldBlock" => Some(IoFault::WouldBlock),
        "Pipe" => Some(IoFault::Pipe),
        "TooBig" => Some(IoFault::TooBig),
        "Proto" => Some(IoFault::Proto),
        "InvalidInput" => Some(IoFault::InvalidInput),
        "Other" => Some(IoFault::Other(5)),
        _ => None,
    }
}
