//! What an audit finds in a ledger's tables, and what `open` makes of it.

use super::steps::{Case, Outcome, Step, from_ledger, from_ledger_of};
use super::worked::RESERVED_TWICE_SETTLED_ONCE;
use std::alloc::Global;
use std::test::*;

/// Login u reserves twice on day 1, and is settled with one.
const SETTLED_ONCE: Step = Step::Replies(RESERVED_TWICE_SETTLED_ONCE);

const WRONG_COUNT: Step = Step::Run("UPDATE usage SET reserved = 9");

/// A store is taken apart and opened, as made and otherwise, and once more after a count was
/// changed.
const TAKEN_APART: [Step; 9] = [
    SETTLED_ONCE,
    Step::Sound(1, 1),
    Step::Open(60, 3, Outcome::ZoneDiffers),
    Step::Open(0, 4, Outcome::DefaultDiffers),
    Step::Open(0, 3, Outcome::Ready),
    Step::Sound(1, 1),
    WRONG_COUNT,
    Step::Open(0, 3, Outcome::Damaged("u", 1)),
    Step::Make(Outcome::NotOurs),
];

/// What is wrong with the settings is told first. The refusals leave the tables as they are.
const SETTINGS_FIRST: [Step; 9] = [
    SETTLED_ONCE,
    WRONG_COUNT,
    Step::Open(60, 3, Outcome::ZoneDiffers),
    Step::Open(0, 4, Outcome::DefaultDiffers),
    Step::Open(0, 3, Outcome::Damaged("u", 1)),
    Step::Run("UPDATE usage SET reserved = 0"),
    Step::Open(0, 3, Outcome::Ready),
    Step::Run("UPDATE usage SET reserved = 9; UPDATE setting SET version = 2"),
    Step::Open(0, 3, Outcome::NotOurs),
];

/// Texts that make a pair wrong, with the pair that is told: the least that isn't right, by the
/// bytes of the login, then by the day.
const DAMAGES: &[(&str, &str, i64)] = &[
    // What is settled or reserved isn't what the transactions settled or hold.
    ("UPDATE usage SET settled = -1", "u", 1),
    ("UPDATE usage SET settled = 2", "u", 1),
    ("UPDATE trans SET held = 1", "u", 1),
    ("DELETE FROM usage", "u", 1),
    ("DELETE FROM trans", "u", 1),
    // Both together are above the limit.
    ("INSERT INTO ceiling VALUES (x'75', 0, 0)", "u", 1),
    // The moment is out of range, or of another day.
    ("UPDATE trans SET moment = 86399", "u", 1),
    ("UPDATE trans SET moment = 172800", "u", 1),
    // Of the pair that the tables have and the one that they had, the earlier, and the lesser
    // login.
    ("UPDATE usage SET day = -1", "u", -1),
    ("UPDATE trans SET day = 2", "u", 1),
    ("UPDATE usage SET login = x'6120625c'", "a b\\", 1),
    ("UPDATE usage SET login = x'76'", "u", 1),
];

/// Neither the answers nor a limit that isn't reached make a pair wrong.
const NO_DAMAGES: &[&str] = &[
    "DELETE FROM answer",
    "UPDATE setting SET arrivals = 9",
    "INSERT INTO ceiling VALUES (x'75', 1, 1)",
    "INSERT INTO ceiling VALUES (x'75', 2, 0)",
    "INSERT INTO ceiling VALUES (x'76', 0, 0)",
];

/// A closed transaction that someone opened again: each pair is right until the ledger settles it
/// once more, and then the transaction has what it settled last.
const OPENED_AGAIN: [Step; 6] = [
    SETTLED_ONCE,
    Step::Run("UPDATE trans SET closed = 0"),
    Step::Open(0, 3, Outcome::Ready),
    Step::Replies(&[
        (
            "01 0161 0000000000000001 00000005 00000001 0000000000015180 0175 00000001",
            "81 0161 0000000000000001 00000005 00000002",
        ),
        (
            "02 0161 0000000000000001 00000006 00000001 0000000000015180 0175 00000001",
            "83 0161 0000000000000001 00000006 00000001",
        ),
    ]),
    Step::Wrong("u", 1),
    Step::Open(0, 3, Outcome::Damaged("u", 1)),
];

const AUDITS: &[Case] = &[
    ("a new ledger", &[Step::Sound(0, 0)]),
    ("a store taken apart and opened", &TAKEN_APART),
    ("settings come before the audit", &SETTINGS_FIRST),
    ("a ledger that is open goes wrong", &OPENED_AGAIN),
];

/// Runs a text over the store of login u, settled with one: it is damaged then at this login and
/// day.
fn damage(alloc: Global, text: &'static str, login: &'static str, day: i64) -> Result<(), Fail> {
    let opened = Step::Open(0, 3, Outcome::Damaged(login, day));
    from_ledger_of(alloc, 3, text, &[SETTLED_ONCE, Step::Run(text), opened])
}

/// The same where nothing is damaged.
fn no_damage(alloc: Global, text: &'static str) -> Result<(), Fail> {
    let opened = Step::Open(0, 3, Outcome::Ready);
    let steps = &[SETTLED_ONCE, Step::Run(text), opened, Step::Sound(1, 1)];
    from_ledger_of(alloc, 3, text, steps)
}

#[test]
fn audits(rt: HostRuntime) -> Result<(), Fail> {
    for (text, login, day) in DAMAGES {
        damage(rt.alloc(), *text, *login, *day)?;
    }
    for text in NO_DAMAGES {
        no_damage(rt.alloc(), *text)?;
    }
    from_ledger(rt.alloc(), AUDITS)
}
