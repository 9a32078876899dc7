//! A renewal in an evening, between whose pieces it is looked after the disk.
ghost use Rattle.std.specs.Prelude.{◌≡◌, None, Some, IfSome, MatchOption};
ghost use Rattle.sqlite.specs.Held.{state};
ghost use Rattle.sqlite.specs.Steps.{over_memory};

use crate::evening::Evening;
use crate::moments::Moments;
use crate::parts::Parts;
use crate::terms::NightTerms;
use log::Log;
use mq_chore::{Chore, Piece};
use mq_store::SqlLedger;
use sqlite::Alter;
use std::rt::Clock;

/// A renewal in an evening, between whose pieces it is looked after the disk.
#[derive(Drop)]
pub(crate) struct TendedEvening<'a, C, G, N: Alter, P, K> {
    pub evening: Evening<'a, C, G, N, P, K>,
}

impl<'a, C, G: Log, N: Alter + Drop, P: Parts<N> + Drop, K: NightTerms, S: Alter> Chore<
    SqlLedger<S>,
> for TendedEvening<'a, C, G, N, P, K>
where
    C: Clock + Moments,
{
    ghost use Rattle.mq_chore.specs.Choring.{HasCome};
    ghost use Rattle.mq_nights.specs.Nights.{EndsNight, FitsNight};

    ghost fits = { λ t b. (t.evening.lookout.keep ≡ K.keep) × HasCome K.begun b
        × IfSome t.evening.renewal (λ r. FitsNight P.is_fresh C.shows K.keep K.begun b
        r.made.zone r.made.default r.day r.reached (state N.Store r.made.connection)
        (state over_memory r.scratch.connection)) };

    ghost is_done = { λ t b. MatchOption t.evening.renewal ⊥ (λ r. EndsNight P.is_fresh C.shows
        K.keep K.begun b r.made.zone r.made.default r.day (state N.Store r.made.connection)) };

    fn go_on(&mut self, ledger: &mut SqlLedger<S>) -> Piece {
        match self.evening.go_on(ledger) {
            Piece::Done => Piece::Done,
            piece => self.evening.look_after_disk(piece),
        }
    }
}
