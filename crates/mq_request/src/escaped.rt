//! Bytes that others chose, as printable text.
ghost use Rattle.std.specs.Prelude.{◌≡◌, ◌≤◌, ◌/◌, ◌%◌, ◌∷◌, [], Some};
ghost use Rattle.std.specs.Fmt.{DisplaysOnOk};
ghost use Rattle.mq_request.specs.Escaped.{byte_text, digit_text, escaped};

use std::fmt;

/// A digit of a value up to 15.
fn digit(value: u8) -> char
    requires { value ≤ 15 }
    ensures { result ≡ digit_text value }
{
    if value < 10 {
        char::from(b'0' + value)
    } else {
        char::from(b'a' - 10 + value)
    }
}

/// `\x` and the two digits of a byte.
fn write_digits<W: fmt::Write>(byte: u8, f: &mut fmt::Formatter<W>) -> fmt::Result
    ensures { DisplaysOnOk W.write_str_gives f.old result
        (Some (92 ∷ 120 ∷ digit_text (byte / 16) ∷ digit_text (byte % 16) ∷ [])) f.new }
{
    f.write_str("\\x")?;
    f.write_char(digit(byte / 16))?;
    f.write_char(digit(byte % 16))
}

fn write_byte<W: fmt::Write>(byte: u8, f: &mut fmt::Formatter<W>) -> fmt::Result
    ensures { DisplaysOnOk W.write_str_gives f.old result (Some (byte_text byte)) f.new }
{
    if byte >= 0x21 && byte <= 0x7e && byte != b'\\' {
        f.write_char(char::from(byte))
    } else {
        write_digits(byte, f)
    }
}

/// Bytes as they are printed: visible ASCII but `\` as it is, any other byte as `\x` and two
/// hexadecimal digits in lower case. So no login or host can forge a line of a log or of a report.
#[derive(Clone, Copy)]
pub struct EscapedText<'a>(pub &'a [u8]);

impl fmt::Display for EscapedText<'_> {
    ghost output = { λ bytes. Some (escaped bytes.0.now) };

    fn fmt<W: fmt::Write>(&self, f: &mut fmt::Formatter<W>) -> fmt::Result {
        for byte in self.0 {
            write_byte(*byte, f)?;
        }
        Ok(())
    }
}
