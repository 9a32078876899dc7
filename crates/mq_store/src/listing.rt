//! What is replied to a usage and to a list.

ghost use Rattle.std.specs.Prelude.{IfOk, IfSome};
ghost use Rattle.mq_request.specs.declared.message.Request.{Request as AnyRequest};
ghost use Rattle.mq_request.specs.Range.{IsLogin, IsDay, IsReply, IsRow, IsPage};
ghost use Rattle.mq_tables.specs.Inside.{CommitsNothing, Finds};
ghost use Rattle.mq_store.specs.Inside.{ChangesNothing, Stops};
ghost use Rattle.mq_store.specs.Causes.{StopsReading};
ghost use Rattle.mq_store.specs.Taking.{IsReplied};
ghost use Rattle.mq_store.specs.Paging.{IsNextRow, IsPageOf};

use crate::fault::Refusal;
use crate::laws::{reads_are_answered, reads_are_in_range};
use mq_request::bounds::ROW_LIMIT;
use mq_request::{Login, Reply, UsageRow, UsageRows};
use mq_rows::{page_row, usage_reply};
use mq_tables::ceiling::find_governing;
use mq_tables::page::next_usage;
use mq_tables::usage::find_usage;
use sqlite::{Alter, Transaction};
use std::alloc::Global;

/// What the login has used on that day, and its limit.
#[tactic(auto, using(crate::proofs::Chain::calls))]
pub(crate) fn reply_to_usage<S: Alter>(
    tx: &mut Transaction<'_, S>,
    default: u32,
    login: &Login,
    day: u32,
) -> Result<Reply, Refusal>
    requires login { IsLogin login.now }
    requires day { IsDay day }
    ensures stays { ChangesNothing S.Store tx.old tx.new result }
    ensures replied { Finds S.Store tx.old tx.new result
        (IsReplied default (AnyRequest.Usage login.now day)) }
    ensures in_range { IfOk result IsReply }
    ensures leaves { CommitsNothing S.Store tx.old tx.new }
    ensures cause { Stops S.Store tx.old tx.new result (StopsReading default) }
{
    reads_are_answered();
    reads_are_in_range();
    let usage = find_usage(tx, login, day)?;
    let governing = find_governing(tx, login, day)?;
    Ok(usage_reply(default, login, day, &usage, &governing)?)
}

/// The row of the next login above `after` that has one on that day.
#[tactic(auto, using(crate::proofs::Chain::calls))]
fn next_row<S: Alter>(
    tx: &mut Transaction<'_, S>,
    default: u32,
    day: u32,
    after: &Login,
) -> Result<Option<UsageRow>, Refusal>
    ensures stays { ChangesNothing S.Store tx.old tx.new result }
    ensures next { Finds S.Store tx.old tx.new result (IsNextRow default day after.now) }
    ensures in_range { IfOk result (λ next. IfSome next IsRow) }
    ensures leaves { CommitsNothing S.Store tx.old tx.new }
    ensures cause { Stops S.Store tx.old tx.new result (StopsReading default) }
{
    reads_are_answered();
    reads_are_in_range();
    let Some(usage) = next_usage(tx, day, after)? else {
        return Ok(None);
    };
    let governing = find_governing(tx, &usage.login, day)?;
    Ok(Some(page_row(default, usage, &governing)?))
}

/// The rows of the first hundred logins above `after` that have one on that day. It goes from login
/// to login.
#[tactic(auto, using(crate::proofs::Chain::calls))]
fn page<S: Alter>(
    alloc: Global,
    tx: &mut Transaction<'_, S>,
    default: u32,
    day: u32,
    after: &Login,
) -> Result<Vec<UsageRow>, Refusal>
    ensures stays { ChangesNothing S.Store tx.old tx.new result }
    ensures page { Finds S.Store tx.old tx.new result (λ db rows. IsPageOf default day after.now db
        rows.items) }
    ensures in_range { IfOk result (λ rows. IsPage rows.items) }
    ensures leaves { CommitsNothing S.Store tx.old tx.new }
    ensures cause { Stops S.Store tx.old tx.new result (StopsReading default) }
{
    reads_are_answered();
    let mut rows = Vec::new(alloc);
    let mut last = after.clone()?;
    for _ in 0..ROW_LIMIT {
        let Some(row) = next_row(tx, default, day, &last)? else {
            return Ok(rows);
        };
        last = row.login.clone()?;
        rows.push(row)?;
    }
    Ok(rows)
}

/// The page of a day beyond `after`.
#[tactic(auto, using(crate::proofs::Chain::calls))]
pub(crate) fn reply_to_list<S: Alter>(
    alloc: Global,
    tx: &mut Transaction<'_, S>,
    default: u32,
    day: u32,
    after: &Login,
) -> Result<Reply, Refusal>
    requires { IsDay day }
    ensures stays { ChangesNothing S.Store tx.old tx.new result }
    ensures replied { Finds S.Store tx.old tx.new result
        (IsReplied default (AnyRequest.List day after.now)) }
    ensures in_range { IfOk result IsReply }
    ensures leaves { CommitsNothing S.Store tx.old tx.new }
    ensures cause { Stops S.Store tx.old tx.new result (StopsReading default) }
{
    let rows = page(alloc, tx, default, day, after)?;
    Ok(Reply::List {
        day,
        rows: UsageRows::new(rows),
    })
}
