//! A retire gives runs up: what their open transactions hold is settled, and the replies of their
//! answers are cleared, one by one. In memory are the places of these answers, then the rows of
//! these transactions, and one row of `usage`.

ghost use Rattle.std.specs.Prelude.{◌≡◌, ◌<◌, ◌^◌, Some, All, IfOk};
ghost use Rattle.mq_rows.specs.Plan.{abandoned_row, freed};
ghost use Rattle.mq_rows.specs.Storable.{IsStorable, AreStorableRuns};
ghost use Rattle.mq_tables.specs.Inside.{IsInside, CommitsNothing, Turns, StaysInside};
ghost use Rattle.mq_store.specs.GivingUp.{ClosesOne, ClosesAll, ClearsPlaces, ClearsRuns, GivesUp};

use mq_rows::{Runs, TransactionRecord, UsageRecord, Write};
use mq_tables::retiring::{answer_places, clear_reply, find_open};
use mq_tables::setting::natural_at;
use mq_tables::transaction::write_transaction;
use mq_tables::usage::{find_usage, write_usage};
use sqlite::{Alter, Error, Row, Transaction};
use std::alloc::{AllocError, Global};

/// The row of a transaction whose run is given up.
fn abandoned(was: &TransactionRecord) -> Result<TransactionRecord, AllocError>
    ensures { IfOk result (λ row. row ≡ abandoned_row was.now) }
{
    Ok(TransactionRecord {
        host: was.host.clone()?,
        run: was.run,
        txn: was.txn,
        login: was.login.clone()?,
        moment: was.moment,
        day: was.day,
        held: 0,
        settled: was.held,
        closed: true,
    })
}

/// What becomes of a login's row of a day where a transaction that held so many is closed with all
/// of them settled. Rows of no ledger are an error of the store.
fn settled(held: u32, row: Option<UsageRecord>) -> Result<Write<UsageRecord>, Error>
    ensures { IfOk result (λ write. write ≡ freed held held row) }
{
    let Some(row) = row else {
        return Ok(Write::Keep);
    };
    if held == 0 {
        return Ok(Write::Keep);
    }
    let Some(settled) = row.settled.checked_add(held) else {
        return Err(Error::IntegralValueOutOfRange(0));
    };
    let Some(reserved) = row.reserved.checked_sub(held) else {
        return Err(Error::IntegralValueOutOfRange(0));
    };
    Ok(Write::Update(UsageRecord {
        settled,
        reserved,
        ..row
    }))
}

/// Closes one transaction.
#[tactic(auto, using(crate::proofs::Chain::calls))]
fn close_one<S: Alter>(tx: &mut Transaction<'_, S>, was: &TransactionRecord) -> Result<(), Error>
    requires storable { IsStorable was.now }
    requires inside { IsInside S.Store tx.old }
    ensures inside { StaysInside S.Store tx.old tx.new result }
    ensures closed { Turns S.Store tx.old tx.new result (ClosesOne was.now) }
    ensures leaves { CommitsNothing S.Store tx.old tx.new }
{
    let usage = find_usage(tx, &was.login, was.day)?;
    let totals = settled(was.held, usage)?;
    let transaction = Write::Update(abandoned(was)?);
    write_transaction(tx, &transaction)?;
    write_usage(tx, &totals)?;
    Ok(())
}

/// Closes these transactions one after another.
#[tactic(auto, using(crate::proofs::Chain::calls))]
fn close_all<S: Alter>(
    tx: &mut Transaction<'_, S>,
    transactions: &[TransactionRecord],
) -> Result<(), Error>
    requires storable { All IsStorable transactions.now }
    requires inside { IsInside S.Store tx.old }
    ensures inside { StaysInside S.Store tx.old tx.new result }
    ensures closed { Turns S.Store tx.old tx.new result (ClosesAll transactions.now) }
    ensures leaves { CommitsNothing S.Store tx.old tx.new }
{
    for was in transactions {
        close_one(tx, was)?;
    }
    Ok(())
}

/// Clears the replies of the answers at the places that these rows show, one after another.
#[tactic(auto, using(crate::proofs::Chain::calls))]
fn clear_all<S: Alter>(tx: &mut Transaction<'_, S>, places: &[Row]) -> Result<(), Error>
    requires inside { IsInside S.Store tx.old }
    ensures inside { StaysInside S.Store tx.old tx.new result }
    ensures cleared { Turns S.Store tx.old tx.new result (ClearsPlaces places.now) }
    ensures leaves { CommitsNothing S.Store tx.old tx.new }
{
    for place in places {
        let n = natural_at(place, 0)?;
        clear_reply(tx, n)?;
    }
    Ok(())
}

/// Clears the replies of the answers of these runs.
#[tactic(auto, using(crate::proofs::Chain::calls))]
fn clear_runs<S: Alter>(tx: &mut Transaction<'_, S>, runs: &Runs) -> Result<(), Error>
    requires in_range { (runs.now.from < 2 ^ 63) × (runs.now.to < 2 ^ 63) }
    requires inside { IsInside S.Store tx.old }
    ensures inside { StaysInside S.Store tx.old tx.new result }
    ensures cleared { Turns S.Store tx.old tx.new result (ClearsRuns runs.now) }
    ensures leaves { CommitsNothing S.Store tx.old tx.new }
{
    let places = answer_places(tx, runs)?;
    clear_all(tx, places.as_slice())
}

/// Gives these runs up.
#[tactic(auto, using(crate::proofs::Chain::calls))]
fn give_up_runs<S: Alter>(
    alloc: Global,
    tx: &mut Transaction<'_, S>,
    runs: &Runs,
) -> Result<(), Error>
    requires in_range { (runs.now.from < 2 ^ 63) × (runs.now.to < 2 ^ 63) }
    requires inside { IsInside S.Store tx.old }
    ensures inside { StaysInside S.Store tx.old tx.new result }
    ensures given_up { Turns S.Store tx.old tx.new result (GivesUp (Some runs.now)) }
    ensures leaves { CommitsNothing S.Store tx.old tx.new }
{
    clear_runs(tx, runs)?;
    let transactions = find_open(alloc, tx, runs)?;
    close_all(tx, transactions.as_slice())
}

/// Gives these runs up, where there are any to give up.
#[tactic(auto, using(crate::proofs::Chain::calls, crate::proofs::Clearings::gives_none_up))]
pub(crate) fn give_up<S: Alter>(
    alloc: Global,
    tx: &mut Transaction<'_, S>,
    runs: &Option<Runs>,
) -> Result<(), Error>
    requires storable { AreStorableRuns runs.now }
    requires inside { IsInside S.Store tx.old }
    ensures inside { StaysInside S.Store tx.old tx.new result }
    ensures given_up { Turns S.Store tx.old tx.new result (GivesUp runs.now) }
    ensures leaves { CommitsNothing S.Store tx.old tx.new }
{
    match runs {
        Some(runs) => give_up_runs(alloc, tx, runs),
        None => Ok(()),
    }
}
