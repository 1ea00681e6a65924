//! What a run tells, compared with what it has to tell.

use std::test::Fail;

/// Fails if something else is told than this text.
pub fn is_text(rt: &impl Eprint, told: &str, text: &str) -> Result<(), Fail> {
    if told == text {
        return Ok(());
    }
    let _ = eprintln!(rt; "told:\n{told}\nand not:\n{text}");
    Err(Fail::new("something else is told"))
}

/// Fails if this does not hold, and says what.
pub fn holds(rt: &impl Eprint, what: &str, does_hold: bool) -> Result<(), Fail> {
    if does_hold {
        return Ok(());
    }
    let _ = eprintln!(rt; "does not hold: {what}");
    Err(Fail::new("something does not hold"))
}

/// Fails if the log is not there, or is not this text.
pub fn tells(rt: &impl Eprint, log: Result<String, Fail>, text: &str) -> Result<(), Fail> {
    let log = log?;
    is_text(rt, log.as_str(), text)
}

/// Fails if the log of the row of that name is not there, or is not this text. The row is named then.
pub fn row_tells(
    rt: &impl Eprint,
    name: &str,
    log: Result<String, Fail>,
    text: &str,
) -> Result<(), Fail> {
    let told = tells(rt, log, text);
    if told.is_err() {
        let _ = eprintln!(rt; "in the row: {name}");
    }
    told
}
