//! Stores of others, and a ledger's own taken apart and opened; what a ledger replies.

mod audits;
mod index;
mod lists;
mod older;
mod pages;
mod rounds;
mod steps;
mod stops;
mod worked;

use crate::asks::{Verdict, told, wanted};
use mq_request::Login;
use mq_store::{OpenFault, StoreCause};
use std::alloc::Global;
use std::test::*;
use steps::{Case, Outcome, Step, from_ledger, from_store};
use worked::{GRANTED_ONE, RESERVE_ONE, USAGE};

/// The rule of Central Europe.
const EUROPE: &str = "CET-1CEST,M3.5.0,M10.5.0/3";

/// Stores of others and of ledgers.
const STORES: &[Case] = &[
    // Opening stores of others, each with its fault.
    ("no table", &[Step::Open(60, 3, Outcome::NotOurs)]),
    (
        "a table without the columns",
        &[
            Step::Run("CREATE TABLE setting (a TEXT)"),
            Step::Open(60, 3, Outcome::NotOurs),
        ],
    ),
    (
        "a version that is no number",
        &[
            Step::Run(
                "CREATE TABLE setting (id INTEGER PRIMARY KEY, version TEXT, minutes INTEGER, cap INTEGER); \
            INSERT INTO setting VALUES (1, 'x', 0, 3)",
            ),
            Step::Open(60, 3, Outcome::NotOurs),
        ],
    ),
    (
        "another version",
        &[
            Step::Run(
                "CREATE TABLE setting (id INTEGER PRIMARY KEY, version INTEGER, minutes INTEGER, cap INTEGER); \
            INSERT INTO setting VALUES (1, 4, 60, 3)",
            ),
            Step::Open(60, 3, Outcome::NotOurs),
        ],
    ),
    (
        "this version without its other tables",
        &[
            Step::Run(
                "CREATE TABLE setting (id INTEGER PRIMARY KEY, version INTEGER, minutes INTEGER, cap INTEGER); \
            INSERT INTO setting VALUES (1, 3, 60, 3)",
            ),
            Step::Open(60, 3, Outcome::NotOurs),
        ],
    ),
    (
        "a view with another default",
        &[
            Step::Run(
                "CREATE TABLE other (b TEXT); \
            CREATE VIEW setting AS SELECT 1 AS id, 1 AS version, 60 AS minutes, 4 AS cap",
            ),
            Step::Open(60, 3, Outcome::DefaultDiffers),
        ],
    ),
    (
        "a view that is right",
        &[
            Step::Run(
                "CREATE TABLE other (b TEXT); \
            CREATE VIEW setting AS SELECT 1 AS id, 1 AS version, 60 AS minutes, 3 AS cap",
            ),
            Step::Open(60, 3, Outcome::Store),
        ],
    ),
    (
        "no table, of another zone",
        &[Step::Open(0, 3, Outcome::NotOurs)],
    ),
    // A table of one of the seven names is there, in either case.
    (
        "setting is taken",
        &[
            Step::Run("CREATE TABLE setting (a TEXT)"),
            Step::Make(Outcome::NotOurs),
        ],
    ),
    (
        "answer is taken",
        &[
            Step::Run("CREATE TABLE answer (a TEXT)"),
            Step::Make(Outcome::NotOurs),
        ],
    ),
    (
        "trans is taken",
        &[
            Step::Run("CREATE TABLE trans (a TEXT)"),
            Step::Make(Outcome::NotOurs),
        ],
    ),
    (
        "USAGE is taken",
        &[
            Step::Run("CREATE TABLE USAGE (a TEXT)"),
            Step::Make(Outcome::NotOurs),
        ],
    ),
    (
        "Ceiling is taken",
        &[
            Step::Run("CREATE TABLE Ceiling (a TEXT)"),
            Step::Make(Outcome::NotOurs),
        ],
    ),
    (
        "rule is taken",
        &[
            Step::Run("CREATE TABLE rule (a TEXT)"),
            Step::Make(Outcome::NotOurs),
            Step::MakeBy(EUROPE, Outcome::NotOurs),
        ],
    ),
    (
        "retired is taken",
        &[
            Step::Run("CREATE TABLE retired (a TEXT)"),
            Step::Make(Outcome::NotOurs),
            Step::MakeBy(EUROPE, Outcome::NotOurs),
        ],
    ),
    // A ledger by a zone rule, taken apart and opened.
    (
        "by a rule",
        &[
            Step::MakeBy(EUROPE, Outcome::Ready),
            Step::Open(60, 3, Outcome::ZoneDiffers),
            Step::Open(0, 3, Outcome::ZoneDiffers),
            Step::OpenBy("CET-1CEST,M3.5.0,M10.5.0/2", 3, Outcome::ZoneDiffers),
            Step::OpenBy(EUROPE, 4, Outcome::DefaultDiffers),
            Step::OpenBy(EUROPE, 3, Outcome::Ready),
            Step::GoesByRule(EUROPE),
            Step::MakeBy(EUROPE, Outcome::NotOurs),
            Step::Counts("SELECT version FROM setting", 3),
            Step::Counts("SELECT minutes FROM setting", 0),
            Step::Counts("SELECT count(*) FROM rule WHERE id = 1", 1),
        ],
    ),
    (
        "by an offset, opened by a rule",
        &[
            Step::Make(Outcome::Ready),
            Step::OpenBy(EUROPE, 3, Outcome::ZoneDiffers),
            Step::Counts("SELECT version FROM setting", 3),
            Step::Counts("SELECT count(*) FROM rule", 0),
        ],
    ),
    (
        "by a rule, of another default and zone",
        &[
            Step::MakeBy(EUROPE, Outcome::Ready),
            Step::Open(0, 4, Outcome::ZoneDiffers),
        ],
    ),
    (
        "a rule without its row",
        &[
            Step::MakeBy(EUROPE, Outcome::Ready),
            Step::Run("DELETE FROM rule"),
            Step::OpenBy(EUROPE, 3, Outcome::ZoneDiffers),
            Step::Open(60, 3, Outcome::ZoneDiffers),
            Step::Open(0, 3, Outcome::Ready),
        ],
    ),
    (
        "a rule without its table",
        &[
            Step::MakeBy(EUROPE, Outcome::Ready),
            Step::Run("DROP TABLE rule"),
            Step::OpenBy(EUROPE, 3, Outcome::NotOurs),
        ],
    ),
    (
        "a rule under another key",
        &[
            Step::MakeBy(EUROPE, Outcome::Ready),
            Step::Run("UPDATE rule SET id = 2"),
            Step::OpenBy(EUROPE, 3, Outcome::ZoneDiffers),
        ],
    ),
    (
        "a rule that is no bytes",
        &[
            Step::MakeBy(EUROPE, Outcome::Ready),
            Step::Run(
                "DROP TABLE rule; CREATE TABLE rule (id INTEGER PRIMARY KEY, bytes TEXT); \
                INSERT INTO rule VALUES (1, 'CET-1CEST,M3.5.0,M10.5.0/3')",
            ),
            Step::OpenBy(EUROPE, 3, Outcome::NotOurs),
        ],
    ),
    (
        "a rule and a version after this one",
        &[
            Step::MakeBy(EUROPE, Outcome::Ready),
            Step::Run("UPDATE setting SET version = 4"),
            Step::OpenBy(EUROPE, 3, Outcome::NotOurs),
        ],
    ),
    (
        "a rule, floors and the version before there were any",
        &[
            Step::MakeBy(EUROPE, Outcome::Ready),
            Step::Run("UPDATE setting SET version = 2"),
            Step::OpenBy(EUROPE, 3, Outcome::NotOurs),
        ],
    ),
    (
        "floors without their table",
        &[
            Step::Make(Outcome::Ready),
            Step::Run("DROP TABLE retired"),
            Step::Open(60, 3, Outcome::NotOurs),
        ],
    ),
    // A ledger made after another table is taken apart and opened.
    (
        "taken apart and opened",
        &[
            Step::Run(
                "CREATE TABLE note (a INTEGER PRIMARY KEY AUTOINCREMENT, b TEXT); \
                INSERT INTO note (b) VALUES ('x')",
            ),
            Step::Make(Outcome::Ready),
            Step::Open(0, 3, Outcome::ZoneDiffers),
            Step::Open(60, 4, Outcome::DefaultDiffers),
            Step::Open(60, 3, Outcome::Ready),
            Step::Make(Outcome::NotOurs),
            Step::Counts("SELECT count(*) FROM note", 1),
        ],
    ),
    // What a ledger goes by is what it was made with.
    (
        "zone and default",
        &[Step::Make(Outcome::Ready), Step::GoesBy(60, 3)],
    ),
];

#[test]
fn stores(rt: HostRuntime) -> Result<(), Fail> {
    from_store(rt.alloc(), STORES)
}

/// Rows that no history has, but of which each pair is right: a request that reads such a row is
/// answered by the store's fault.
const NO_HISTORY: &[Case] = &[
    (
        "settled below 0",
        &[
            Step::Replies(&[(RESERVE_ONE, GRANTED_ONE)]),
            Step::Run("UPDATE usage SET settled = -1; UPDATE trans SET settled = -1"),
            Step::Open(0, 3, Outcome::Ready),
            Step::Fails(USAGE),
        ],
    ),
    (
        "an answer that is no reply",
        &[
            Step::Replies(&[(RESERVE_ONE, GRANTED_ONE)]),
            Step::Run("UPDATE answer SET reply = x'00'"),
            Step::Open(0, 3, Outcome::Ready),
            Step::Fails(RESERVE_ONE),
        ],
    ),
    (
        "held above 32 bits",
        &[
            Step::Replies(&[(RESERVE_ONE, GRANTED_ONE)]),
            Step::Run(
                "UPDATE trans SET held = 4294967296; \
            INSERT INTO trans VALUES (x'62', 1, 1, x'75', 86400, 1, -4294967295, 0, 0)",
            ),
            Step::Open(0, 3, Outcome::Ready),
            Step::Fails(
                "02 0161 0000000000000001 00000002 00000001 0000000000015180 0175 00000001",
            ),
        ],
    ),
];

#[test]
fn rows_of_no_history(rt: HostRuntime) -> Result<(), Fail> {
    from_ledger(rt.alloc(), NO_HISTORY)
}

/// On which days something was reserved: a day counts as soon as a reserve of it is granted, also
/// where that is the earliest, and stays where all of it is released. A transaction begins as soon
/// as it is asked for, whatever the answer is.
const DAYS: &[Case] = &[(
    "days with a reserve",
    &[
        Step::Days(None),
        Step::Replies(&[(USAGE, "8b 0175 00000001 00000000 00000000 00000003")]),
        Step::Days(None),
        Step::Replies(&[(
            "01 0161 0000000000000001 00000001 00000001 000000000002A300 0175 00000001",
            GRANTED_ONE,
        )]),
        Step::Days(Some((2, 2))),
        Step::Replies(&[(
            "01 0161 0000000000000001 00000002 00000002 000000000003F480 0176 00000001",
            "81 0161 0000000000000001 00000002 00000001",
        )]),
        Step::Days(Some((2, 3))),
        Step::Replies(&[(
            "03 0161 0000000000000001 00000003 00000002 000000000003F480 0176",
            "84 0161 0000000000000001 00000003 00000001",
        )]),
        Step::Days(Some((2, 3))),
        Step::Until(u32::MAX, Some((2, 3))),
        Step::Until(2, Some((2, 2))),
        Step::Until(1, None),
        Step::Replies(&[(
            "01 0161 0000000000000001 00000004 00000003 0000000000015180 0174 00000004",
            "82 0161 0000000000000001 00000004 00000000 00000003",
        )]),
        Step::Days(Some((2, 3))),
        Step::Until(3, Some((1, 3))),
        Step::Until(1, Some((1, 1))),
        Step::Replies(&[(
            "01 0161 0000000000000001 00000005 00000003 0000000000015180 0174 00000003",
            "81 0161 0000000000000001 00000005 00000003",
        )]),
        Step::Days(Some((1, 3))),
    ],
)];

#[test]
fn days(rt: HostRuntime) -> Result<(), Fail> {
    from_ledger(rt.alloc(), DAYS)
}

/// A fault of that kind.
fn fault_of(alloc: Global, kind: &Outcome) -> Option<OpenFault> {
    match kind {
        Outcome::NotOurs => Some(OpenFault::NotOurs),
        Outcome::ZoneDiffers => Some(OpenFault::ZoneDiffers),
        Outcome::DefaultDiffers => Some(OpenFault::DefaultDiffers),
        Outcome::Damaged(login, day) => Some(OpenFault::Damaged {
            login: Login::from_slice(alloc, login.as_bytes()).ok()?,
            day: *day,
        }),
        Outcome::Memory => Some(OpenFault::Memory),
        Outcome::Store => Some(OpenFault::Store(StoreCause::Content)),
        Outcome::Ready => None,
    }
}

/// The printed texts.
const TEXTS: &[(Outcome, &str)] = &[
    (Outcome::NotOurs, "store is not this ledger"),
    (Outcome::ZoneDiffers, "store has another zone"),
    (Outcome::DefaultDiffers, "store has another default"),
    (Outcome::Damaged("u", 1), "store is damaged: login u day 1"),
    (
        Outcome::Damaged("a b\\", i64::MIN),
        "store is damaged: login a\\x20b\\x5c day -9223372036854775808",
    ),
    (Outcome::Memory, "out of memory"),
    (Outcome::Store, "store failed"),
];

/// The text of a fault.
fn text_of(alloc: Global, fault: &OpenFault) -> Option<String> {
    fault.to_string(alloc).ok()
}

/// Checks the text of a fault of that kind.
fn check_text(alloc: Global, kind: &Outcome, text: &str) -> Verdict {
    let Some(fault) = fault_of(alloc, kind) else {
        return Err("no fault");
    };
    match text_of(alloc, &fault) {
        Some(found) => wanted(found.as_str() == text, "another text"),
        None => Err("no text"),
    }
}

#[test]
fn texts(rt: HostRuntime) -> Result<(), Fail> {
    for (kind, text) in TEXTS {
        told(rt.alloc(), *text, check_text(rt.alloc(), kind, text))?;
    }
    Ok(())
}
