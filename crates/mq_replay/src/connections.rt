//! The text of `replay`: frames in hexadecimal.
//!
//! In each line spaces are passed over, and what else stands there is whole bytes in hexadecimal,
//! in either case. Lines are joined to one connection until an empty line or the end of the text;
//! further empty lines change nothing. The last line needs no line feed.
ghost use Rattle.std.specs.Prelude.{◌≡◌, ◌<◌, ◌↔◌, [], ◌∷◌, ◌++◌, ℕ, true, None, Some, map, filter};
ghost use Rattle.std.specs.Prelude.{length};
ghost use Rattle.std.specs.Prelude.{nat_lt, not, is_err, OnOk, IfOk};
ghost use Rattle.std.specs.Result.{result_unwrap_or};
ghost use Rattle.hex.specs.Hex.{decode_of};
ghost use Rattle.mq_replay.specs.Connections.{digits_of, first_not_hex, connections_of};

use std::alloc::{AllocError, AllocFailed, Global};
use std::mem;
use thiserror::Error;

/// The most bytes of a text.
pub const TEXT_LIMIT: usize = 1_048_576;

/// Why a text is refused.
#[derive(Debug, PartialEq, Drop, Error)]
pub enum TextFault {
    /// It has more than `TEXT_LIMIT` bytes.
    #[error("input too large")]
    TooLarge,
    /// The line of this number, counted from 1, is no hexadecimal; those before it are.
    #[error("line {0}: not hex")]
    NotHex(usize),
    #[error("out of memory")]
    Memory,
}

impl From<AllocError> for TextFault {
    ghost use Rattle.mq_replay.specs.declared.connections.TextFault.TheVariants.{Memory};

    ghost from_gives = { λ _ fault. fault ≡ Memory };

    fn from(_error: AllocError) -> TextFault {
        TextFault::Memory
    }
}

impl<T: Drop> From<AllocFailed<T>> for TextFault {
    ghost use Rattle.mq_replay.specs.declared.connections.TextFault.TheVariants.{Memory};

    ghost from_gives = { λ _ fault. fault ≡ Memory };

    fn from(_error: AllocFailed<T>) -> TextFault {
        TextFault::Memory
    }
}

/// Puts the line without its spaces in place of what `digits` held.
fn keep_digits(line: &[u8], digits: &mut Vec<u8>) -> Result<(), AllocError>
    ensures { OnOk result (digits.new.items ≡ digits_of line.now) }
{
    digits.clear();
    digits.extend(line.iter().copied().filter(|b| *b != b' '))
}

/// Appends the bytes that the digits spell; `false` where they spell none.
fn append_bytes(digits: &[u8], bytes: &mut Vec<u8>) -> Result<bool, AllocError>
    ensures hex { IfOk result (λ is_hex. is_err (decode_of digits.now) ≡ not is_hex) }
    ensures appended { IfOk result (λ is_hex. is_hex ≡ true
        → bytes.new.items ≡ bytes.old.items ++ result_unwrap_or (decode_of digits.now) []) }
{
    let start = bytes.len();
    bytes.resize(start + digits.len() / 2, 0)?;
    Ok(hex::decode_to_slice(digits, &mut bytes.as_mut_slice()[start..]).is_ok())
}

/// Ends the current connection, if it has any bytes.
fn end_connection(
    alloc: Global,
    current: &mut Vec<u8>,
    found: &mut Vec<Vec<u8>>,
) -> Result<(), AllocError>
    ensures found { OnOk result (map (λ c. c.items) found.new.items
        ≡ map (λ c. c.items) found.old.items
        ++ filter (λ bytes. nat_lt 0 (length bytes)) (current.old.items ∷ [])) }
    ensures current { OnOk result (current.new.items ≡ []) }
{
    if current.is_empty() {
        return Ok(());
    }
    found.push(mem::replace(current, Vec::new(alloc)))?;
    Ok(())
}

/// The bytes of each connection, in order.
///
/// A text that isn't whole hexadecimal is refused as a whole.
pub fn read_connections(alloc: Global, text: &[u8]) -> Result<Vec<Vec<u8>>, TextFault>
    ensures too_large { (result ≡ Err TextFault.TooLarge) ↔ (1048576 < length text.now) }
    ensures not_hex { (number : ℕ) → result ≡ Err (TextFault.NotHex number)
        → first_not_hex text.now ≡ Some number }
    ensures hex { OnOk result (first_not_hex text.now ≡ None) }
    ensures connections { IfOk result (λ found. map (λ c. c.items) found.items
        ≡ connections_of text.now) }
{
    if text.len() > TEXT_LIMIT {
        return Err(TextFault::TooLarge);
    }
    let mut found = Vec::new(alloc);
    let mut current = Vec::new(alloc);
    let mut digits = Vec::new(alloc);
    let mut number = 0;
    for line in text.split(|b| *b == b'\n') {
        number += 1;
        keep_digits(line, &mut digits)?;
        if digits.is_empty() {
            end_connection(alloc, &mut current, &mut found)?;
        } else if !append_bytes(digits.as_slice(), &mut current)? {
            return Err(TextFault::NotHex(number));
        }
    }
    end_connection(alloc, &mut current, &mut found)?;
    Ok(found)
}
