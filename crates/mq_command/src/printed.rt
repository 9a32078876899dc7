//! How the program prints a login, and reads one that it printed.
ghost use Rattle.std.specs.Prelude.{◌≡◌, ◌<◌, ◌++◌, ◌/◌, ◌%◌, ℕ, List, false, IfOk, MatchBool};
ghost use Rattle.std.specs.Prelude.{MatchOption, length, string_bytes};
ghost use Rattle.std.specs.List.{All};
ghost use Rattle.mq_request.specs.Escaped.{byte_text, digit_text, escaped, is_plain};
ghost use Rattle.mq_command.specs.Printed.{IsLoginText, IsNoText, IsTextOf};

use mq_request::bounds::LOGIN_LIMIT;
use mq_request::{EscapedText, Login};
use std::alloc::{AllocError, Global};

/// A login as it is printed: visible ASCII but `\` as it is, any other byte as `\x` and two
/// hexadecimal digits.
pub fn login_text(alloc: Global, login: &[u8]) -> Result<String, AllocError>
    ensures { IfOk result (λ text. string_bytes text ≡ escaped login.now) }
{
    EscapedText(login).to_string(alloc)
}

/// Whether a byte is printed as it is.
fn is_plain(byte: u8) -> bool
    ensures { result ≡ is_plain byte }
{
    byte >= 0x21 && byte <= 0x7e && byte != b'\\'
}

/// The value of a hexadecimal digit in lower case.
fn digit_value(digit: u8) -> Option<u8>
    ensures { MatchOption result ((value : ℕ) → value < 16 → digit_text value ≡ digit → ⊥)
        (λ value. (value < 16) × (digit_text value ≡ digit)) }
{
    match digit {
        b'0'..=b'9' => Some(digit - b'0'),
        b'a'..=b'f' => Some(digit - b'a' + 10),
        _ => None,
    }
}

/// The byte that is printed as `\x` and these digits.
fn byte_of_digits(high: u8, low: u8) -> Option<u8>
    ensures { MatchOption result ((byte : ℕ) → byte < 256 → is_plain byte ≡ false
        → digit_text (byte / 16) ≡ high
        → digit_text (byte % 16) ≡ low → ⊥) (λ byte. (byte < 256) × (is_plain byte ≡ false)
        × (digit_text (byte / 16) ≡ high) × (digit_text (byte % 16) ≡ low)) }
{
    let byte = digit_value(high)? * 16 + digit_value(low)?;
    if is_plain(byte) { None } else { Some(byte) }
}

/// The first byte that a text stands for, and the text after it.
fn first_byte(text: &[u8]) -> Option<(u8, &[u8])>
    ensures { MatchOption result ((byte : ℕ) (rest : List ℕ) → byte < 256
        → byte_text byte ++ rest ≡ text.now → ⊥)
        (λ first. (first.0 < 256) × (byte_text first.0 ++ first.1.now ≡ text.now)) }
{
    match text {
        [b'\\', b'x', high, low, rest @ ..] => Some((byte_of_digits(*high, *low)?, rest)),
        [byte, rest @ ..] if is_plain(*byte) => Some((*byte, rest)),
        _ => None,
    }
}

/// The login that is printed so, where there is one: the reverse of `login_text`.
pub fn login_of_text(alloc: Global, text: &str) -> Result<Option<Login>, AllocError>
    ensures { IfOk result (λ found. MatchOption found (IsNoText text.now) (IsTextOf text.now)) }
{
    let mut bytes = Vec::new(alloc);
    let mut rest = text.as_bytes();
    while let Some((byte, after)) = first_byte(rest) {
        bytes.push(byte)?;
        rest = after;
    }
    if rest.is_empty() {
        Ok(Some(Login::new(bytes)))
    } else {
        Ok(None)
    }
}

/// How many bytes a text is printed from, where it is printed from any.
fn printed_length(text: &str) -> Option<usize>
    ensures { MatchOption result (IsNoText text.now) (λ count. (bytes : List ℕ)
        × All (λ byte. byte < 256) bytes × IsTextOf text.now bytes × (length bytes ≡ count)) }
{
    let mut count = 0;
    let mut rest = text.as_bytes();
    while let Some((_byte, after)) = first_byte(rest) {
        count += 1;
        rest = after;
    }
    if rest.is_empty() { Some(count) } else { None }
}

/// Whether a login is printed so: one of 1 to 255 bytes.
pub fn is_login_text(text: &str) -> bool
    ensures { MatchBool result (IsLoginText text.now) (¬ IsLoginText text.now) }
{
    match printed_length(text) {
        Some(length) => length >= 1 && length <= usize::from(LOGIN_LIMIT),
        None => false,
    }
}
