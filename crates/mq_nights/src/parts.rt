//! Where the store of a new ledger comes from.

use sqlite::{Alter, Connection};
use std::time::Duration;
use thiserror::Error;

/// There is no store for a new ledger.
#[derive(Clone, Copy, Debug, PartialEq, Eq, Error)]
#[error("no new store")]
pub struct NoPart;

/// What a look after the disk came to.
#[derive(Clone, Copy, Debug, PartialEq, Eq)]
pub struct Look {
    /// The disk has too little room for a new ledger.
    pub is_scarce: bool,
    /// It is looked again after so long.
    pub next: Duration,
}

/// Makes the stores of new ledgers, and looks after the disk that they are on.
pub trait Parts<N: Alter> {
    ghost use Rattle.std.specs.Prelude.{⊤, IfOk};
    ghost use Rattle.sqlite.specs.Held.{state};
    ghost use Rattle.sqlite.specs.State.{HasCleanDisk};
    ghost use Rattle.mq_store.specs.Forgetting.{IsFree};

    /// What is supposed of a store that was just made.
    ghost is_fresh: { Type 0 } = { ⊤ };

    /// A connection to an empty store, in place of one that was made before. Why there is none is
    /// logged.
    fn part(&mut self) -> Result<Connection<N>, NoPart>
        ensures { IfOk result (λ c. is_fresh → HasCleanDisk (state N.Store c)
            → IsFree (state N.Store c).now) };

    /// Removes what the last call of `part` made: its connection is gone, and it is of no use.
    fn discard(&mut self);

    /// Looks after the disk, where it is time to. `renews` says whether a new ledger is being
    /// filled.
    fn look(&mut self, renews: bool) -> Look;
}
