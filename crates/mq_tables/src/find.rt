//! What the tables have about a numbered request.

ghost use Rattle.std.specs.Prelude.{◌≡◌, ◌<◌, ◌^◌, find, IfOk, IsSome};
ghost use Rattle.mq_request.specs.Range.{IsRequest};
ghost use Rattle.mq_ledger.specs.Arrivals.{id_of};
ghost use Rattle.mq_ledger.specs.Day.{day_of};
ghost use Rattle.mq_rows.specs.Found.{IsTransactionFound, IsReserveFound, IsLimitFound, IsFound};
ghost use Rattle.mq_rows.specs.Rows.{is_host};
ghost use Rattle.mq_rows.specs.Storable.{IsStorableIf, IsStorableFloor};
ghost use Rattle.mq_tables.specs.Finding.{AreKeyed};
ghost use Rattle.mq_tables.specs.Inside.{ChangesNothing, Finds, OfLedger, OfCurrent, CommitsNothing};

use crate::ceiling::{find_governing, find_limit};
use crate::floor::find_floor;
use crate::over::find_over;
use crate::transaction::find_transaction;
use crate::usage::find_usage;
use mq_ledger::Zone;
use mq_request::{Id, Login, Request};
use mq_rows::FoundRows;
use sqlite::{Alter, Error, Transaction};

/// Nothing was looked for.
const NOTHING: FoundRows = FoundRows {
    transaction: None,
    usage: None,
    governing: None,
    over: None,
    limit: None,
    floor: None,
};

/// The rows of the transaction, and of the login and day, that a request names.
#[tactic(auto, using(crate::proofs::Chain::calls))]
fn find_named<S: Alter>(
    tx: &mut Transaction<'_, S>,
    id: &Id,
    txn: u32,
    login: &Login,
    day: u32,
) -> Result<FoundRows, Error>
    requires { id.now.run < 2 ^ 63 }
    ensures same { ChangesNothing S.Store tx.old tx.new result }
    ensures found { Finds S.Store tx.old tx.new result (OfLedger (λ t found.
        AreKeyed t → IsTransactionFound id.now txn login.now day t found)) }
    ensures storable { IfOk result (λ found. IsStorableIf found.transaction) }
    ensures storable_floor { IfOk result (λ found. IsStorableFloor found.floor) }
    ensures leaves { CommitsNothing S.Store tx.old tx.new }
{
    let transaction = find_transaction(tx, &id.host, id.run, txn)?;
    let usage = find_usage(tx, login, day)?;
    Ok(FoundRows {
        transaction,
        usage,
        ..NOTHING
    })
}

/// The same, and the limit that governs the day.
#[tactic(auto, using(crate::proofs::Chain::calls))]
fn find_for_reserve<S: Alter>(
    tx: &mut Transaction<'_, S>,
    id: &Id,
    txn: u32,
    login: &Login,
    day: u32,
) -> Result<FoundRows, Error>
    requires { id.now.run < 2 ^ 63 }
    ensures same { ChangesNothing S.Store tx.old tx.new result }
    ensures found { Finds S.Store tx.old tx.new result (OfLedger (λ t found.
        AreKeyed t → IsReserveFound id.now txn login.now day t found)) }
    ensures storable { IfOk result (λ found. IsStorableIf found.transaction) }
    ensures storable_floor { IfOk result (λ found. IsStorableFloor found.floor) }
    ensures leaves { CommitsNothing S.Store tx.old tx.new }
{
    let found = find_named(tx, id, txn, login, day)?;
    let governing = find_governing(tx, login, day)?;
    Ok(FoundRows { governing, ..found })
}

/// The first day from `from_day` on that is past the cap, and the limit from that day on.
#[tactic(auto, using(crate::proofs::Chain::calls))]
fn find_for_limit<S: Alter>(
    tx: &mut Transaction<'_, S>,
    login: &Login,
    from_day: u32,
    cap: u32,
) -> Result<FoundRows, Error>
    ensures same { ChangesNothing S.Store tx.old tx.new result }
    ensures found { Finds S.Store tx.old tx.new result (OfLedger (λ t found.
        AreKeyed t → IsLimitFound login.now from_day cap t found)) }
    ensures storable { IfOk result (λ found. IsStorableIf found.transaction) }
    ensures storable_floor { IfOk result (λ found. IsStorableFloor found.floor) }
    ensures leaves { CommitsNothing S.Store tx.old tx.new }
{
    let over = find_over(tx, login, from_day, cap)?;
    let limit = find_limit(tx, login, from_day)?;
    Ok(FoundRows {
        over,
        limit,
        ..NOTHING
    })
}

/// The floor of a retire's host.
fn find_for_retire<S: Alter>(tx: &mut Transaction<'_, S>, id: &Id) -> Result<FoundRows, Error>
    ensures same { ChangesNothing S.Store tx.old tx.new result }
    ensures found { Finds S.Store tx.old tx.new result (OfCurrent (λ t found.
        AreKeyed t → found.floor ≡ find (is_host id.now.host) t.retired)) }
    ensures storable { IfOk result (λ found. IsStorableIf found.transaction) }
    ensures storable_floor { IfOk result (λ found. IsStorableFloor found.floor) }
    ensures leaves { CommitsNothing S.Store tx.old tx.new }
{
    let floor = find_floor(tx, &id.host)?;
    Ok(FoundRows { floor, ..NOTHING })
}

/// What the tables have about a numbered request.
///
/// An error is the store's, also where a value of a row is out of its range.
pub fn find<S: Alter>(
    tx: &mut Transaction<'_, S>,
    zone: Zone,
    request: &Request,
) -> Result<FoundRows, Error>
    requires in_range { IsRequest request.now }
    requires numbered { IsSome (id_of request.now) }
    ensures same { ChangesNothing S.Store tx.old tx.new result }
    ensures found { Finds S.Store tx.old tx.new result (OfCurrent (λ t found.
        AreKeyed t → IsFound (day_of zone) t request.now found)) }
    ensures storable { IfOk result (λ found. IsStorableIf found.transaction) }
    ensures storable_floor { IfOk result (λ found. IsStorableFloor found.floor) }
    ensures leaves { CommitsNothing S.Store tx.old tx.new }
{
    match request {
        Request::Reserve {
            id,
            txn,
            moment,
            login,
            ..
        } => find_for_reserve(tx, id, *txn, login, zone.day_at(*moment)),
        Request::Settle {
            id,
            txn,
            moment,
            login,
            ..
        }
        | Request::Release {
            id,
            txn,
            moment,
            login,
        } => { find_named(tx, id, *txn, login, zone.day_at(*moment)) }
        Request::Limit {
            from_day,
            cap,
            login,
            ..
        } => find_for_limit(tx, login, *from_day, *cap),
        Request::Retire { id } => find_for_retire(tx, id),
        Request::Usage { .. } | Request::List { .. } => Ok(NOTHING),
    }
}
