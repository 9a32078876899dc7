//! What a numbered request whose number is new writes.

ghost use Rattle.mq_rows.specs.Storable.{IsStorableWrite, IsStorableFloorWrite, IsStorablePlan};
ghost use Rattle.mq_tables.specs.Inside.{IsInside, CommitsNothing, Turns, StaysInside};
ghost use Rattle.mq_store.specs.Taking.{MovesRows, WritesPlan};

use crate::giving_up::give_up;
use mq_rows::Plan;
use mq_tables::answer::append_answer;
use mq_tables::ceiling::write_limit;
use mq_tables::floor::write_floor;
use mq_tables::setting::set_arrivals;
use mq_tables::transaction::write_transaction;
use mq_tables::usage::write_usage;
use sqlite::{Alter, Error, Transaction};
use std::alloc::Global;

/// What becomes of the transactions, of what logins have used, of the limits and of the floors.
#[tactic(auto, using(crate::proofs::Chain::calls))]
fn write_rows<S: Alter>(tx: &mut Transaction<'_, S>, plan: &Plan) -> Result<(), Error>
    requires storable { IsStorableWrite plan.now.transaction }
    requires floor { IsStorableFloorWrite plan.now.retired }
    requires inside { IsInside S.Store tx.old }
    ensures inside { StaysInside S.Store tx.old tx.new result }
    ensures written { Turns S.Store tx.old tx.new result (MovesRows plan.now) }
    ensures leaves { CommitsNothing S.Store tx.old tx.new }
{
    write_transaction(tx, &plan.transaction)?;
    write_usage(tx, &plan.usage)?;
    write_limit(tx, &plan.limit)?;
    write_floor(tx, &plan.retired)?;
    Ok(())
}

/// All that the plan writes.
#[tactic(auto, using(crate::proofs::Chain::calls))]
pub(crate) fn write_plan<S: Alter>(
    alloc: Global,
    tx: &mut Transaction<'_, S>,
    plan: &Plan,
) -> Result<(), Error>
    requires storable { IsStorablePlan plan.now }
    requires inside { IsInside S.Store tx.old }
    ensures inside { StaysInside S.Store tx.old tx.new result }
    ensures written { Turns S.Store tx.old tx.new result (WritesPlan plan.now) }
    ensures leaves { CommitsNothing S.Store tx.old tx.new }
{
    // This comes first: the plan's other writes go on from the rows that it leaves.
    give_up(alloc, tx, &plan.given_up)?;
    append_answer(tx, &plan.answer)?;
    set_arrivals(tx, plan.arrivals)?;
    write_rows(tx, plan)
}
