//! The fields of a line, which bars part.
ghost use Rattle.std.specs.Prelude.{◌≡◌, ◌<◌, ◌∷◌, ◌++◌, [], ℕ, List, MatchResult, length};
ghost use Rattle.mq_line.specs.Pieces.{fields, fields_left, joined};
ghost use Rattle.mq_line.specs.declared.fault.LineFault.TheVariants.{Short};

use crate::fault::LineFault;
use bstr::ByteSlice;

/// The first field, and what stands after its bar where it has one.
pub(crate) fn first_field<'a>(text: &'a [u8]) -> (&'a [u8], Option<&'a [u8]>)
    ensures { fields text.now ≡ result.0.now ∷ fields_left result.1 }
{
    match text.find_byte(b'|') {
        Some(bar) => (&text[..bar], Some(&text[bar + 1..])),
        None => (text, None),
    }
}

/// What stands before the last bar, if anything does, and the last field.
pub(crate) fn last_field<'a>(text: &'a [u8]) -> (&'a [u8], &'a [u8])
    ensures { (others : List (List ℕ)) × (fields text.now ≡ others ++ result.1.now ∷ [])
        × (result.0.now ≡ joined others) }
{
    match text.rfind_byte(b'|') {
        Some(bar) => (&text[..bar], &text[bar + 1..]),
        None => (b"", text),
    }
}

/// The next field of what is left of a line, and what is left after it. `Short` where nothing is
/// left.
pub(crate) fn next_field<'a>(
    left: Option<&'a [u8]>,
) -> Result<(&'a [u8], Option<&'a [u8]>), LineFault>
    ensures { MatchResult result (λ r. fields_left left.entry ≡ r.0.now ∷ fields_left r.1)
        (λ fault. (fault ≡ Short) × (fields_left left.entry ≡ [])) }
{
    match left {
        Some(text) => Ok(first_field(text)),
        None => Err(LineFault::Short),
    }
}

/// The next three fields of what is left of a line, and what is left after them. `Short` where
/// fewer are left.
pub(crate) fn next_three<'a>(
    left: Option<&'a [u8]>,
) -> Result<(&'a [u8], &'a [u8], &'a [u8], Option<&'a [u8]>), LineFault>
    ensures { MatchResult result
        (λ r. fields_left left.entry ≡ r.0.now ∷ r.1.now ∷ r.2.now ∷ fields_left r.3)
        (λ fault. (fault ≡ Short) × (length (fields_left left.entry) < 3)) }
{
    let (first, left) = next_field(left)?;
    let (second, left) = next_field(left)?;
    let (third, left) = next_field(left)?;
    Ok((first, second, third, left))
}

/// What is left of a line, with the bars in it: nothing after its last field.
pub(crate) fn rest_of<'a>(left: Option<&'a [u8]>) -> &'a [u8]
    ensures { result.now ≡ joined (fields_left left.entry) }
{
    match left {
        Some(rest) => rest,
        None => b"",
    }
}
