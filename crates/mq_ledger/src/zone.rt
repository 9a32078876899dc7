//! The zone of a ledger: on which day a moment lies, by a fixed offset or by a zone rule.
ghost use Rattle.std.specs.Prelude.{◌≡◌, ◌↔◌, ◌≤◌, ◌-◌, ◌++◌, ◌+ℤ◌, length, replicate, IsOk, IfOk};
ghost use Rattle.std.specs.Prelude.{IfErr, IsUtf8};
ghost use Rattle.std.specs.Prelude.{option_map};
ghost use Rattle.jiff.specs.Words.{civil_nanos, epoch_day, nanos_of_seconds};
ghost use Rattle.mq_request.specs.Range.{IsMoment, IsDay};
ghost use Rattle.mq_ledger.specs.Day.{IsOffset, IsRule, IsZone, ByOffset, ByRule, minutes_in};
ghost use Rattle.mq_ledger.specs.Day.{rule_in};
ghost use Rattle.mq_ledger.specs.Day.{limited, day_of};
ghost use Rattle.mq_ledger.specs.Rule.{ahead};

use jiff::Timestamp;
use jiff::civil::{Date, DateTime};
use jiff::tz::{Offset, TimeZone};
use std::alloc::AllocError;
use std::marker::Model;
use std::str;

/// The most bytes of a rule.
const RULE_LIMIT: usize = 64;

/// The last day.
const LAST_DAY: i64 = 376_200;

/// The seconds of a day.
const DAY_SECONDS: i64 = 86_400;

/// What the days of a ledger go by: a fixed offset from UTC, or a zone rule.
#[derive(Clone, Copy, Debug)]
pub struct Zone {
    kind: Kind,
}

#[derive(Clone, Copy, Debug)]
enum Kind {
    /// Minutes east of UTC.
    Offset(i32),
    /// A rule's text: the first `len` bytes, and zeros after them.
    Rule { bytes: [u8; RULE_LIMIT], len: u8 },
}

/// The offset isn't less than a day.
#[derive(Clone, Copy, Debug, PartialEq, Eq)]
pub struct BadOffset;

/// Why a text is no zone's.
#[derive(Clone, Copy, Debug, PartialEq, Eq)]
pub enum RuleFault {
    /// It hasn't 1 to 64 bytes, or is no POSIX zone rule.
    Rule,
    /// A growth was refused.
    Memory,
}

impl Model for Zone {
    ghost use Rattle.mq_ledger.specs.Day.{Days};

    ghost Value = { Days };

    ghost use Rattle.mq_ledger.specs.Kept.{days_of, kind_of, IsKept, given_back};

    ghost view = { λ zone. days_of zone.kind };

    ghost invariant = { λ zone. IsKept zone.kind };

    ghost inverse = { λ days. record { kind = kind_of days } };

    ghost inverse_ok = { λ zone kept i. record { kind = given_back zone.kind kept i } };
}

/// The same offset, or rules of the same bytes.
impl PartialEq for Zone {
    ghost use Rattle.std.specs.Cmp.{partial_equiv_from_equiv};
    ghost use Rattle.mq_ledger.specs.SameDays.{same_days, same_days_equiv};

    ghost eq = { same_days };

    ghost laws = { partial_equiv_from_equiv same_days_equiv };

    fn eq(&self, other: &Zone) -> bool {
        match (self.rule(), other.rule()) {
            (None, None) => self.minutes() == other.minutes(),
            (Some(rule), Some(other)) => rule == other,
            _ => false,
        }
    }
}

impl Eq for Zone {
    ghost use Rattle.mq_ledger.specs.SameDays.{same_days_equiv};

    ghost laws = { same_days_equiv };
}

/// The ledger day of a moment on a clock so many minutes east of UTC.
///
/// A ledger in memory asks for a day at each entry that it looks back at, so no civil date is made
/// of it.
fn day_at_offset(minutes: i32, moment: u64) -> u32
    requires offset { IsOffset minutes }
    requires moment { IsMoment moment }
    ensures { result ≡ day_of (ByOffset minutes) moment }
{
    // (a moment lies a day or more after 1970-01-01, so no clock shows less than a minute since
    // then)
    let shown = moment as i64 + i64::from(minutes * 60);
    (shown / DAY_SECONDS) as u32
}

/// What a clock that goes by the rule shows at the instant.
fn shown_by_rule(text: &str, instant: Timestamp) -> DateTime
    requires { IsRule text.now }
    ensures { civil_nanos result ≡ instant.nanosecond +ℤ nanos_of_seconds
        (ahead text.now instant.nanosecond) }
{
    // (`Zone::of_rule` took the text only as `jiff` read it)
    let zone = TimeZone::posix(text).unwrap();
    zone.to_datetime(instant)
}

/// The day number of a date, from 1970-01-01 on.
fn day_number(date: Date) -> i64
    ensures { result ≡ epoch_day date }
{
    let first = Offset::UTC.to_datetime(Timestamp::UNIX_EPOCH).date();
    // (between two dates lie whole days)
    let since = date.duration_since(first);
    since.as_hours() / 24
}

/// The day number, from the first to the last day of a ledger.
fn limited(day: i64) -> u32
    ensures { result ≡ limited day }
{
    if day < 0 {
        0
    } else if LAST_DAY < day {
        LAST_DAY as u32
    } else {
        day as u32
    }
}

/// The ledger day of a moment on a clock that goes by the rule.
fn day_by_rule(text: &str, moment: u64) -> u32
    requires rule { IsRule text.now }
    requires moment { IsMoment moment }
    ensures { result ≡ day_of (ByRule text.now) moment }
{
    let shown = shown_by_rule(text, Timestamp::constant(moment as i64, 0));
    limited(day_number(shown.date()))
}

/// The text of these bytes, which are one.
fn text_of(bytes: &[u8]) -> &str
    requires { IsUtf8 bytes.now }
    ensures { result.now ≡ bytes.now }
{
    str::from_utf8(bytes).unwrap()
}

/// The bytes, and zeros after them.
fn filled(text: &[u8]) -> [u8; RULE_LIMIT]
    requires { length text.now ≤ 64 }
    ensures { result ≡ text.now ++ replicate (64 - length text.now) 0 }
{
    let mut bytes = [0; RULE_LIMIT];
    bytes[..text.len()].copy_from_slice(text);
    bytes
}

impl Zone {
    /// The zone of this many minutes east of UTC: -1,439 to 1,439.
    pub fn of_offset(minutes: i32) -> Result<Zone, BadOffset>
        ensures accepted { IsOk result ↔ IsOffset minutes }
        ensures value { IfOk result (λ zone. zone ≡ ByOffset minutes) }
    {
        if minutes < -1439 || 1439 < minutes {
            return Err(BadOffset);
        }
        Ok(Zone {
            kind: Kind::Offset(minutes),
        })
    }

    /// The zone of a POSIX rule of 1 to 64 bytes, as `CET-1CEST,M3.5.0,M10.5.0/3`.
    ///
    /// It takes no memory: `jiff` reads a rule into the value itself.
    pub fn of_rule(text: &str) -> Result<Zone, RuleFault>
        ensures accepted { IsOk result ↔ IsRule text.now }
        ensures value { IfOk result (λ zone. zone ≡ ByRule text.now) }
        ensures fault { IfErr result (λ fault. fault ≡ RuleFault.Rule) }
    {
        if text.is_empty() || RULE_LIMIT < text.len() || TimeZone::posix(text).is_err() {
            return Err(RuleFault::Rule);
        }
        let bytes = filled(text.as_bytes());
        let len = text.len() as u8;
        Ok(Zone {
            kind: Kind::Rule { bytes, len },
        })
    }

    /// The minutes east of UTC, and 0 with a rule.
    pub fn minutes(&self) -> i32
        ensures value { result ≡ minutes_in self.now }
        ensures in_range { IsZone self.now }
    {
        match self.kind {
            Kind::Offset(minutes) => minutes,
            Kind::Rule { .. } => 0,
        }
    }

    /// The bytes of the rule, where there is one.
    pub fn rule(&self) -> Option<&[u8]>
        ensures { option_map (λ text. text.now) result ≡ rule_in self.now }
    {
        match &self.kind {
            Kind::Offset(_) => None,
            Kind::Rule { bytes, len } => Some(&bytes[..*len as usize]),
        }
    }

    /// The ledger day of a moment: the day number since 1970-01-01 of the date that a clock in the
    /// zone shows, from 0 to 376,200. `moment` is 86,400 to 32,503,680,000 seconds since
    /// 1970-01-01T00:00:00Z.
    pub fn day_at(&self, moment: u64) -> u32
        requires { IsMoment moment }
        ensures value { result ≡ day_of self.now moment }
        ensures in_range { IsDay result }
    {
        match &self.kind {
            Kind::Offset(minutes) => day_at_offset(*minutes, moment),
            Kind::Rule { bytes, len } => day_by_rule(text_of(&bytes[..*len as usize]), moment),
        }
    }

    /// The same. It never runs out of memory.
    pub fn day(&self, moment: u64) -> Result<u32, AllocError>
        requires { IsMoment moment }
        ensures always { IsOk result }
        ensures value { IfOk result (λ day. day ≡ day_of self.now moment) }
        ensures in_range { IfOk result IsDay }
    {
        Ok(self.day_at(moment))
    }
}
