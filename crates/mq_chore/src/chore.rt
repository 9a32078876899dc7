//! A chore of a ledger's server.
ghost use Rattle.std.specs.Prelude.{◌≡◌};
ghost use Rattle.mq_chore.specs.Choring.{Fitted};
ghost use Rattle.mq_ledger.specs.Leaving.{LeavesLedger};

use mq_ledger::Ledger;
use std::time::Duration;

/// What a chore wants after a piece of it.
#[derive(Clone, Copy, Debug, PartialEq, Eq)]
pub enum Piece {
    /// There is more to do: nothing is waited for.
    More,
    /// There is nothing to do for so long.
    Later(Duration),
    /// There is nothing to do until something comes.
    Nothing,
    /// It is done: the serving is to end.
    Done,
}

/// A chore between the requests to a ledger. It may ask the ledger, whose book stays as it is.
pub trait Chore<L: Ledger> {
    ghost use Rattle.std.specs.Prelude.{⊤};
    ghost use Rattle.mq_ledger.specs.Legal.{Book};

    /// What was done so far fits a ledger that means this book.
    ghost fits: { Self → Book → Type 0 } = { λ _ _. ⊤ };

    /// It is done, over a ledger that means this book.
    ghost is_done: { Self → Book → Type 0 } = { λ _ _. ⊤ };

    /// Does a piece of it, which is to cost no more than some requests do.
    fn go_on(&mut self, ledger: &mut L) -> Piece
        // Of any ledger, sound or not. It makes no call of `apply` that the ledger would report.
        ensures leaves { LeavesLedger L.book L.has_kept L.is_sound L.has_store ledger.old ledger.new }
        ensures told { L.told ledger.new ≡ L.told ledger.old }

        // Of a sound one that has kept its premise.
        ensures history { L.has_kept ledger.new → L.is_sound ledger.old →
            (L.book ledger.new).history ≡ (L.book ledger.old).history }
        ensures fits { L.has_kept ledger.new → L.is_sound ledger.old →
            Fitted (fits self.old) (L.book ledger.old) → fits self.new (L.book ledger.new) }
        ensures done { L.has_kept ledger.new → L.is_sound ledger.old →
            Fitted (fits self.old) (L.book ledger.old) → result ≡ Piece.Done
            → is_done self.new (L.book ledger.new) };
}

/// There is nothing to do, and never an end to it.
#[derive(Clone, Copy, Debug)]
pub struct NoChore;

impl<L: Ledger> Chore<L> for NoChore {
    ghost is_done = { λ _ _. ⊥ };

    fn go_on(&mut self, _ledger: &mut L) -> Piece {
        Piece::Nothing
    }
}
