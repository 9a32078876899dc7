//! Lines, taken apart.
ghost use Rattle.std.specs.Prelude.{◌≡◌, ◌==◌, ◌∷◌, length, Some, map, codes};
ghost use Rattle.std.specs.Prelude.{IfOk, IfErr, IsOkAnd, MatchResult};
ghost use Rattle.std.specs.List.{list_all, list_any};
ghost use Rattle.std.specs.Char.{is_ascii_digit};
ghost use Rattle.mq_line.specs.Pieces.{fields_left};
ghost use Rattle.mq_line.specs.Grammar.{Meaning, meaning, Means, Reads, fault as fault_spec};
ghost use Rattle.mq_line.specs.Grammar.{is_number, max_fraction_digits};
ghost use Rattle.mq_line.specs.Grammar.{seconds_of as seconds_of_spec};
ghost use Rattle.mq_line.specs.Grammar.{IsStamp, stamp_fault, config_fault, report_fault};
ghost use Rattle.mq_line.specs.Grammar.{filter_fault};

use crate::fault::LineFault;
use crate::fields::{first_field, next_field, next_three, rest_of};

/// A line of smtpd, taken apart. Its parts are slices of the line, byte for byte.
#[derive(Clone, Copy, Debug, PartialEq, Eq)]
pub enum Line<'a> {
    /// `config|KEY|VALUE`: the value may have bars in it.
    Config {
        key: &'a [u8],
        value: &'a [u8],
    },
    /// `config|ready`: smtpd waits for the registration.
    Ready,
    /// `report|0.7|TIME|SUBSYSTEM|EVENT|SESSION|PARAMS`, where no parameters may follow.
    Report {
        /// Whole seconds since 1970-01-01T00:00:00Z: below 10 to the power of 18.
        seconds: u64,
        subsystem: &'a [u8],
        event: &'a [u8],
        session: &'a [u8],
        /// The fields after the session, with the bars between them.
        params: &'a [u8],
    },
    /// `filter|0.7|TIME|SUBSYSTEM|PHASE|SESSION|TOKEN|REST`, where nothing may follow the token.
    Filter {
        /// As in a report.
        seconds: u64,
        subsystem: &'a [u8],
        phase: &'a [u8],
        session: &'a [u8],
        token: &'a [u8],
        /// The fields after the token, with the bars between them.
        rest: &'a [u8],
    },
    /// A line that begins with another word, or with none.
    Other,
}

/// The most digits before the point of a time. Such a number fits a `u64`.
const MAX_SECOND_DIGITS: usize = 18;

/// The most digits after the point.
const MAX_FRACTION_DIGITS: usize = 9;

fn are_digits(bytes: &[u8]) -> bool
    ensures { result ≡ list_all is_ascii_digit bytes.now }
{
    bytes.iter().all(|byte| byte.is_ascii_digit())
}

/// Whether these may stand after the point of a time.
fn is_fraction(digits: &[u8]) -> bool
    ensures { result ≡ is_number max_fraction_digits digits.now }
{
    if digits.is_empty() || digits.len() > MAX_FRACTION_DIGITS {
        return false;
    }
    are_digits(digits)
}

/// The seconds of a time such as `1576146008.006099`. The part after the point isn't used.
fn seconds_of(time: &[u8]) -> Option<u64>
    ensures { result ≡ seconds_of_spec time.now }
{
    let mut seconds = 0;
    for (place, byte) in time.iter().enumerate() {
        if *byte == b'.' {
            return if place > 0 && is_fraction(&time[place + 1..]) {
                Some(seconds)
            } else {
                None
            };
        }
        // (a number of 18 digits can't overflow)
        if place == MAX_SECOND_DIGITS || !byte.is_ascii_digit() {
            return None;
        }
        seconds = 10 * seconds + u64::from(*byte - b'0');
    }
    None
}

fn has_empty(names: &[&[u8]]) -> bool
    ensures { result ≡ list_any (λ name. length name.now == 0) names.now }
{
    names.iter().any(|name| name.is_empty())
}

/// The seconds of a report or filter line with this version, this time and these names, none of
/// which may be empty.
fn read_stamp(version: &[u8], time: &[u8], names: &[&[u8]]) -> Result<u64, LineFault>
    ensures { MatchResult result
        (λ seconds. IsStamp version.now time.now (map (λ name. name.now) names.now) seconds)
        (λ e. stamp_fault version.now time.now (map (λ name. name.now) names.now) ≡ Some e) }
{
    if version != b"0.7".as_slice() {
        return Err(LineFault::Version);
    }
    let Some(seconds) = seconds_of(time) else {
        return Err(LineFault::Time);
    };
    if has_empty(names) {
        return Err(LineFault::EmptyField);
    }
    Ok(seconds)
}

/// A config line, by what is left after its first field.
fn read_config<'a>(left: Option<&'a [u8]>) -> Result<Line<'a>, LineFault>
    ensures { MatchResult result
        (λ line. Means (codes "config" ∷ fields_left left.entry) (meaning line))
        (λ e. config_fault (fields_left left.entry) ≡ Some e) }
{
    let (key, left) = next_field(left)?;
    match left {
        Some(value) => Ok(Line::Config { key, value }),
        None if key == b"ready".as_slice() => Ok(Line::Ready),
        None => Err(LineFault::Short),
    }
}

/// A report line, by what is left after its first field.
fn read_report<'a>(left: Option<&'a [u8]>) -> Result<Line<'a>, LineFault>
    ensures { MatchResult result
        (λ line. Means (codes "report" ∷ fields_left left.entry) (meaning line))
        (λ e. report_fault (fields_left left.entry) ≡ Some e) }
{
    let (version, time, subsystem, left) = next_three(left)?;
    let (event, left) = next_field(left)?;
    let (session, left) = next_field(left)?;
    let seconds = read_stamp(version, time, &[subsystem, event, session])?;
    Ok(Line::Report {
        seconds,
        subsystem,
        event,
        session,
        params: rest_of(left),
    })
}

/// A filter line, by what is left after its first field.
fn read_filter<'a>(left: Option<&'a [u8]>) -> Result<Line<'a>, LineFault>
    ensures { MatchResult result
        (λ line. Means (codes "filter" ∷ fields_left left.entry) (meaning line))
        (λ e. filter_fault (fields_left left.entry) ≡ Some e) }
{
    let (version, time, subsystem, left) = next_three(left)?;
    let (phase, session, token, left) = next_three(left)?;
    let seconds = read_stamp(version, time, &[subsystem, phase, session, token])?;
    Ok(Line::Filter {
        seconds,
        subsystem,
        phase,
        session,
        token,
        rest: rest_of(left),
    })
}

/// A line by its fields.
fn read_fields<'a>(line: &'a [u8]) -> Result<Line<'a>, LineFault>
    ensures { MatchResult result (λ v. Reads line.now (meaning v))
        (λ e. fault_spec line.now ≡ Some e) }
{
    let (first, left) = first_field(line);
    if first == b"config".as_slice() {
        read_config(left)
    } else if first == b"report".as_slice() {
        read_report(left)
    } else if first == b"filter".as_slice() {
        read_filter(left)
    } else {
        Ok(Line::Other)
    }
}

/// Takes apart a line of smtpd, which stands without its LF.
///
/// A line that begins with `config`, `report` or `filter` and has too few fields is `Short`. A
/// report or filter line is then refused for its `Version`, its `Time` or an `EmptyField`, the
/// first that applies. Any other line is read.
pub fn read_line<'a>(line: &'a [u8]) -> Result<Line<'a>, LineFault>
    // What is answered is what the line means.
    ensures found { IfOk result (λ v. Reads line.now (meaning v)) }
    // What the line means is answered.
    ensures only { (m : Meaning) → Reads line.now m → IsOkAnd result (λ v. meaning v ≡ m) }
    // The fault is the first that the line has, and is answered wherever it has one.
    ensures fault { IfErr result (λ e. fault_spec line.now ≡ Some e) }
    ensures refused { (e : LineFault) → fault_spec line.now ≡ Some e → result ≡ Err e }
{
    read_fields(line)
}
