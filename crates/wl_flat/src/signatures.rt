//! Signatures of messages, as libwayland's tables have them (`struct wl_message`), and the rows that they say.

ghost use Rattle.std.specs.Prelude.{◌≡◌, ◌≤◌, List, Some, false, length, option_map};
ghost use Rattle.wl_flat.specs.Flat.{over_front};
ghost use Rattle.wl_flat.specs.Signatures.{ReadsSignature, arguments_said, kind_of, number_said};
ghost use Rattle.wl_flat.specs.declared.rows.ArgumentRow.{ArgumentRow};

use crate::flat::{count_number, kind};
use crate::rows::{ArgumentRow, MessageRow};
use crate::status::Status;

/// The kind of argument that a letter stands for.
#[tactic(auto, unfolding(crate::specs::Signatures::kind_of))]
fn kind_of(letter: u8) -> Option<u32>
    ensures { result ≡ kind_of letter }
{
    match letter {
        b'i' => Some(kind::INT),
        b'u' => Some(kind::UINT),
        b'f' => Some(kind::FIXED),
        b's' => Some(kind::STRING),
        b'o' => Some(kind::OBJECT),
        b'n' => Some(kind::NEW_ID),
        b'a' => Some(kind::ARRAY),
        b'h' => Some(kind::DESCRIPTOR),
        _ => None,
    }
}

/// The number that the digits at the front say, 0 if there is none, and the letters behind them. `None` if it has more than
/// 32 bits.
fn number(text: &[u8]) -> Option<(u32, &[u8])>
    ensures { option_map (λ found. (found.0, found.1.now)) result ≡ number_said 0 text.now }
{
    let mut number: u32 = 0;
    let mut rest = text;
    while let [digit @ b'0'..=b'9', others @ ..] = rest {
        number = number.checked_mul(10)?.checked_add((*digit - b'0') as u32)?;
        rest = others;
    }
    Some((number, rest))
}

/// How many arguments these letters say. `None` if one is no letter of an argument.
fn count_arguments(letters: &[u8]) -> Option<usize>
    ensures { result ≡ option_map length (arguments_said false letters.now) }
{
    let mut count = 0;
    let mut is_nullable = false;
    for letter in letters {
        if *letter == b'?' && !is_nullable {
            is_nullable = true;
        } else {
            kind_of(*letter)?;
            count += 1;
            is_nullable = false;
        }
    }
    if is_nullable { None } else { Some(count) }
}

/// Writes the rows of the arguments that these letters say.
fn write_arguments(letters: &[u8], arguments: &mut [ArgumentRow])
    ensures { (rows : List ArgumentRow) → arguments_said false letters.now ≡ Some rows → length rows ≤ length arguments.old
        → arguments.new ≡ over_front rows arguments.old }
{
    let mut place = 0;
    let mut is_nullable = false;
    for letter in letters {
        if *letter == b'?' && !is_nullable {
            is_nullable = true;
        } else if let Some(kind) = kind_of(*letter)
            && place < arguments.len()
        {
            arguments[place] = ArgumentRow {
                kind,
                is_nullable: is_nullable as u32,
                interface: 0,
            };
            place += 1;
            is_nullable = false;
        }
    }
}

/// Reads a signature as libwayland has it: digits for the version since which the message is there (1 without any, or with 0), and
/// a letter for each argument, behind `?` if it may be null: `i`, `u`, `f`, `s`, `o`, `n`, `a`, `h`.
///
/// It writes `since` and `arguments` of the row, and the rows of the arguments, each of any interface. `InvalidInput` if the text is no
/// signature: nothing is written then. `TooSmall` if the message has more arguments than there is room: the rows of the arguments are not
/// written then.
pub fn read_signature(
    signature: &[u8],
    message: &mut MessageRow,
    arguments: &mut [ArgumentRow],
) -> Status
    ensures { ReadsSignature signature.now message.old arguments.old result message.new arguments.new }
{
    let Some((number, letters)) = number(signature) else {
        return Status::InvalidInput;
    };
    let Some(count) = count_arguments(letters) else {
        return Status::InvalidInput;
    };
    message.since = if number == 0 { 1 } else { number };
    message.arguments = count_number(count);
    if count > arguments.len() {
        return Status::TooSmall;
    }
    write_arguments(letters, arguments);
    Status::Ok
}
