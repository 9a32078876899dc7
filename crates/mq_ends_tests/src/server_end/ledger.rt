//! Ledgers: worked examples, and what no contract says.
ghost use Rattle.mq_request.specs.Range.{IsMoment};

mod callers;
mod worked;

use mq_ledger::{BadOffset, Ledger, PlainLedger, RuleFault, Zone};
use std::process::Abort;

/// Central Europe's rule: an hour ahead of UTC, and two from the last Sunday of March to that of
/// October.
const CENTRAL_EUROPE: &str = "CET-1CEST,M3.5.0,M10.5.0/3";

/// The day of a moment where clocks are so many minutes ahead of UTC.
fn day_at(rt: &impl Abort, offset: i32, moment: u64) -> u32
    requires { IsMoment moment }
{
    Zone::of_offset(offset)
        .expect(rt, "an offset")
        .day(moment)
        .expect(rt, "a day")
}

/// The day of a moment by a zone rule.
fn day_by_rule(rt: &impl Abort, rule: &str, moment: u64) -> u32
    requires { IsMoment moment }
{
    Zone::of_rule(rule)
        .expect(rt, "a rule")
        .day(moment)
        .expect(rt, "a day")
}

#[test]
fn days_at_the_offsets(rt: HostRuntime) {
    assert!(rt; day_at(&rt, 0, 1_576_108_799) == 18_241);
    assert!(rt; day_at(&rt, 0, 1_576_108_800) == 18_242);
    assert!(rt; day_at(&rt, 60, 1_576_105_200) == 18_242);
    assert!(rt; day_at(&rt, -1_439, 86_400) == 0);
    assert!(rt; day_at(&rt, 1_439, 32_503_680_000) == 376_200);
}

#[test]
fn days_by_a_rule(rt: HostRuntime) {
    // In winter.
    assert!(rt; day_by_rule(&rt, CENTRAL_EUROPE, 1_576_105_199) == 18_241);
    assert!(rt; day_by_rule(&rt, CENTRAL_EUROPE, 1_576_105_200) == 18_242);

    // In summer.
    assert!(rt; day_by_rule(&rt, CENTRAL_EUROPE, 1_593_554_399) == 18_443);
    assert!(rt; day_by_rule(&rt, CENTRAL_EUROPE, 1_593_554_400) == 18_444);

    // A day of 23 hours.
    assert!(rt; day_by_rule(&rt, CENTRAL_EUROPE, 1_585_436_399) == 18_349);
    assert!(rt; day_by_rule(&rt, CENTRAL_EUROPE, 1_585_436_400) == 18_350);
    assert!(rt; day_by_rule(&rt, CENTRAL_EUROPE, 1_585_519_199) == 18_350);
    assert!(rt; day_by_rule(&rt, CENTRAL_EUROPE, 1_585_519_200) == 18_351);

    // Clocks that still show 1969, and that show 3000-01-02.
    assert!(rt; day_by_rule(&rt, "AAA24:59:59", 86_400) == 0);
    assert!(rt; day_by_rule(&rt, "AAA-24:59:59", 32_503_680_000) == 376_200);
}

#[test]
fn texts_that_are_no_rule(rt: HostRuntime) {
    let long = "aaaaaaaaaaaaaaaaaaaaaaaaaaaaaaaaaaaaaaaaaaaaaaaaaaaaaaaaaaaaaaaaa";
    assert!(rt; long.len() == 65);
    for text in &["", long, "CET", "Europe/Berlin"] {
        assert!(rt; Zone::of_rule(text) == Err(RuleFault::Rule));
    }
}

#[test]
fn zones_compare(rt: HostRuntime) {
    let rule = Zone::of_rule(CENTRAL_EUROPE).expect(&rt, "a rule");
    let other = Zone::of_rule("CET-01CEST,M3.5.0,M10.5.0/3").expect(&rt, "a rule");
    let hour = Zone::of_offset(60).expect(&rt, "an offset");
    assert!(rt; rule == Zone::of_rule(CENTRAL_EUROPE).expect(&rt, "a rule"));
    assert!(rt; rule != other);
    assert!(rt; rule != hour);
    assert!(rt; hour == Zone::of_offset(60).expect(&rt, "an offset"));
    assert!(rt; rule.rule() == Some(CENTRAL_EUROPE.as_bytes()));
    assert!(rt; hour.rule().is_none());
    assert!(rt; rule.minutes() == 0);
}

#[test]
fn offsets_of_a_whole_day(rt: HostRuntime) {
    for offset in &[1_440, -1_440] {
        assert!(rt; Zone::of_offset(*offset) == Err(BadOffset));
    }
}

#[test]
fn what_it_was_made_with(rt: HostRuntime) {
    let zone = Zone::of_offset(-90).expect(&rt, "an offset");
    assert!(rt; zone.minutes() == -90);
    let ledger = PlainLedger::new(rt.alloc(), zone, 7);
    assert!(rt; *ledger.zone() == zone);
    assert!(rt; ledger.default_cap() == 7);
}
