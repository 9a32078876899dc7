//! The index of a ledger: made with it, given to one that an earlier program made, and left out
//! where something has its name.

use super::older::FIRST_VERSION;
use super::steps::{Case, Outcome, Step, from_store};
use super::worked::{GRANTED_ONE, RESERVE_ONE};
use std::test::*;

const NAMED: &str = "SELECT count(*) FROM sqlite_schema WHERE name = 'usage_by_day'";

const OURS: &str =
    "SELECT count(*) FROM sqlite_schema WHERE name = 'usage_by_day' AND tbl_name = 'usage'";

const INDEX: &[Case] = &[
    (
        "a new ledger",
        &[
            Step::Make(Outcome::Ready),
            Step::Counts(OURS, 1),
            Step::Open(60, 3, Outcome::Ready),
            Step::Counts(NAMED, 1),
        ],
    ),
    (
        "a ledger of the first version",
        &[
            Step::Run(FIRST_VERSION),
            Step::Open(60, 3, Outcome::ZoneDiffers),
            Step::Counts(NAMED, 0),
            Step::Open(0, 3, Outcome::Ready),
            Step::Days(Some((1, 1))),
            Step::Counts(OURS, 1),
        ],
    ),
    (
        "a ledger of this version that an earlier program made",
        &[
            Step::Make(Outcome::Ready),
            Step::Reply(RESERVE_ONE, GRANTED_ONE),
            Step::Run("DROP INDEX usage_by_day"),
            Step::Open(0, 3, Outcome::ZoneDiffers),
            Step::Open(60, 4, Outcome::DefaultDiffers),
            Step::Counts(NAMED, 0),
            Step::Open(60, 3, Outcome::Ready),
            Step::Counts(OURS, 1),
            Step::Open(60, 3, Outcome::Ready),
            Step::Sound(1, 1),
            Step::Days(Some((1, 1))),
            Step::Reply(RESERVE_ONE, GRANTED_ONE),
        ],
    ),
    (
        "a table of that name",
        &[
            Step::Run("CREATE TABLE Usage_By_Day (a TEXT)"),
            Step::Make(Outcome::Ready),
            Step::Counts(OURS, 0),
            Step::Open(60, 3, Outcome::Ready),
            Step::Reply(RESERVE_ONE, GRANTED_ONE),
            Step::Days(Some((1, 1))),
            Step::Sound(1, 1),
            Step::Counts(OURS, 0),
        ],
    ),
    (
        "a view of that name",
        &[
            Step::Run("CREATE VIEW usage_by_day AS SELECT 1"),
            Step::Make(Outcome::Ready),
            Step::Open(60, 3, Outcome::Ready),
            Step::Reply(RESERVE_ONE, GRANTED_ONE),
            Step::Sound(1, 1),
            Step::Counts(OURS, 0),
        ],
    ),
    (
        "an index of that name on another table",
        &[
            Step::Run("CREATE TABLE note (a TEXT); CREATE INDEX usage_by_day ON note (a)"),
            Step::Make(Outcome::Ready),
            Step::Open(60, 3, Outcome::Ready),
            Step::Reply(RESERVE_ONE, GRANTED_ONE),
            Step::Sound(1, 1),
            Step::Counts(NAMED, 1),
            Step::Counts(OURS, 0),
        ],
    ),
];

#[test]
fn the_index(rt: HostRuntime) -> Result<(), Fail> {
    from_store(rt.alloc(), INDEX)
}
