//! Laws: what a date says of a ledger's days.
ghost use Rattle.std.specs.Prelude.{◌≡◌, ◌+ℤ◌, ℕ, ℤ, List, pos};
ghost use Rattle.jiff.specs.Placed.{IsPosixZone};
ghost use Rattle.jiff.specs.Words.{civil_nanos, nanos_of_seconds, offset_at};
ghost use Rattle.jiff_core.specs.declared.civil.datetime.DateTime.{DateTime as AnyDateTime};
ghost use Rattle.jiff_tz.specs.declared.timezone.TimeZone.{TimeZone as AnyTimeZone};
ghost use Rattle.mq_request.specs.Range.{IsDay, IsMoment};
ghost use Rattle.mq_ledger.specs.Day.{ByOffset, ByRule, IsOffset, clock, day_of};
ghost use Rattle.mq_dates.specs.Dates.{IsDateOf};

/// Where a clock in the zone shows a date at a moment, the zone's day of that moment is the day of
/// the date: at an offset, and with a rule, in whatever zone `jiff` reads from its text.
pub fn the_day_of_a_date_is_the_zones()
    ensures offset { (minutes : ℤ) (moment day : ℕ) (shown : AnyDateTime) →
        IsOffset minutes → IsMoment moment →
        civil_nanos shown ≡ nanos_of_seconds (clock minutes moment) →
        IsDateOf day shown.date → day_of (ByOffset minutes) moment ≡ day }
    ensures rule { (text : List ℕ) (zone : AnyTimeZone) (moment day : ℕ) (shown : AnyDateTime) →
        IsPosixZone text zone →
        civil_nanos shown ≡ nanos_of_seconds (pos moment)
        +ℤ nanos_of_seconds (offset_at zone (nanos_of_seconds (pos moment))) →
        IsDay day → IsDateOf day shown.date → day_of (ByRule text) moment ≡ day }
{}
