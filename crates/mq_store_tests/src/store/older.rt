//! Stores of earlier versions, as earlier programs wrote them: opened, they are ledgers of today's
//! version, with what they held.

use super::steps::{Case, Outcome, Step, from_store};
use super::worked::{GRANTED_ONE, RESERVE_ONE};
use std::test::*;

/// A ledger of the first version: login u reserved twice on day 1 and was settled with one, and a
/// second settle came too late.
pub const FIRST_VERSION: &str = "BEGIN;
CREATE TABLE setting (id INTEGER PRIMARY KEY, version INTEGER NOT NULL, minutes INTEGER NOT NULL, cap INTEGER NOT NULL, \
arrivals INTEGER NOT NULL) STRICT;
CREATE TABLE answer (n INTEGER PRIMARY KEY, host BLOB NOT NULL, run INTEGER NOT NULL, seq INTEGER NOT NULL, \
request BLOB NOT NULL, reply BLOB NOT NULL, UNIQUE (host, run, seq)) STRICT;
CREATE TABLE trans (host BLOB NOT NULL, run INTEGER NOT NULL, txn INTEGER NOT NULL, login BLOB NOT NULL, \
moment INTEGER NOT NULL, day INTEGER NOT NULL, held INTEGER NOT NULL, settled INTEGER NOT NULL, closed INTEGER NOT NULL, \
PRIMARY KEY (host, run, txn)) STRICT;
CREATE TABLE usage (login BLOB NOT NULL, day INTEGER NOT NULL, settled INTEGER NOT NULL, reserved INTEGER NOT NULL, \
PRIMARY KEY (login, day)) STRICT;
CREATE TABLE ceiling (login BLOB NOT NULL, day INTEGER NOT NULL, cap INTEGER NOT NULL, PRIMARY KEY (login, day)) STRICT;
INSERT INTO setting VALUES (1, 1, 0, 3, 4);
INSERT INTO answer VALUES (1, x'61', 1, 1, \
x'010161000000000000000100000001000000010000000000015180017500000001', x'81016100000000000000010000000100000001');
INSERT INTO answer VALUES (2, x'61', 1, 2, \
x'010161000000000000000100000002000000010000000000015180017500000001', x'81016100000000000000010000000200000002');
INSERT INTO answer VALUES (3, x'61', 1, 3, \
x'020161000000000000000100000003000000010000000000015180017500000001', x'83016100000000000000010000000300000001');
INSERT INTO answer VALUES (4, x'61', 1, 4, \
x'020161000000000000000100000004000000010000000000015180017500000001', x'870161000000000000000100000004');
INSERT INTO trans VALUES (x'61', 1, 1, x'75', 86400, 1, 0, 1, 1);
INSERT INTO usage VALUES (x'75', 1, 1, 0);
COMMIT;
";

const OLDER: &[Case] = &[
    (
        "the first version",
        &[
            Step::Run(FIRST_VERSION),
            Step::Open(60, 3, Outcome::ZoneDiffers),
            Step::Counts("SELECT version FROM setting", 1),
            Step::Open(0, 4, Outcome::DefaultDiffers),
            Step::Counts("SELECT version FROM setting", 1),
            Step::Open(0, 3, Outcome::Ready),
            Step::Sound(1, 1),
            Step::Reply(RESERVE_ONE, GRANTED_ONE),
            Step::Open(0, 3, Outcome::Ready),
            Step::Open(60, 3, Outcome::ZoneDiffers),
            Step::Counts("SELECT version FROM setting", 3),
            Step::Counts("SELECT count(*) FROM rule", 0),
            Step::Counts("SELECT count(*) FROM retired", 0),
        ],
    ),
    (
        "the first version with wrong books",
        &[
            Step::Run(FIRST_VERSION),
            Step::Run("UPDATE usage SET reserved = 9"),
            Step::Open(0, 3, Outcome::Damaged("u", 1)),
            Step::Counts("SELECT version FROM setting", 1),
        ],
    ),
    (
        "the first version with a table rule",
        &[
            Step::Run(FIRST_VERSION),
            Step::Run("CREATE TABLE rule (a TEXT)"),
            Step::Open(0, 3, Outcome::NotOurs),
            Step::Counts("SELECT version FROM setting", 1),
        ],
    ),
    (
        "the first version with a table retired",
        &[
            Step::Run(FIRST_VERSION),
            Step::Run("CREATE TABLE retired (a TEXT)"),
            Step::Open(0, 3, Outcome::NotOurs),
            Step::Counts("SELECT version FROM setting", 1),
        ],
    ),
];

#[test]
fn older_versions(rt: HostRuntime) -> Result<(), Fail> {
    from_store(rt.alloc(), OLDER)
}
