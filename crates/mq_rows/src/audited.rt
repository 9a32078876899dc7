//! The rows that an audit reads, a type for each table, whatever the columns hold.
ghost use Rattle.std.specs.Prelude.{◌≡◌, refl};
ghost use Rattle.std.specs.Cmp.{eq_by_cmp_equiv, partial_equiv_from_equiv};
ghost use Rattle.std.specs.Cmp.{partial_order_from_total};
ghost use Rattle.std.specs.Ordering.{as_partial_cmp, eq_by_cmp};
ghost use Rattle.mq_rows.specs.Pair.{pair_cmp, pair_cmp_total};

use mq_request::Login;
use std::alloc::AllocError;
use std::cmp::Ordering;

/// A login and a ledger day: what is audited as one.
#[derive(Drop)]
pub struct Pair {
    pub login: Login,
    /// The day number since 1970-01-01, or whatever other number the row has.
    pub day: i64,
}

impl PartialEq for Pair {
    ghost eq = { eq_by_cmp pair_cmp };

    ghost laws = { partial_equiv_from_equiv (eq_by_cmp_equiv pair_cmp_total) };

    fn eq(&self, other: &Pair) -> bool {
        self.cmp(other).is_eq()
    }
}

impl Eq for Pair {
    ghost laws = { eq_by_cmp_equiv pair_cmp_total };
}

impl PartialOrd for Pair {
    ghost partial_cmp = { as_partial_cmp pair_cmp };

    ghost laws = { partial_order_from_total pair_cmp_total };

    fn partial_cmp(&self, other: &Pair) -> Option<Ordering> {
        Some(self.cmp(other))
    }
}

/// By the bytes of the logins, then by the days.
impl Ord for Pair {
    ghost cmp = { pair_cmp };

    ghost total = { pair_cmp_total };

    ghost matches_partial_cmp = { λ p q. refl };

    ghost matches_eq = { λ p q. refl };

    fn cmp(&self, other: &Pair) -> Ordering {
        let logins = self.login.as_slice().cmp(other.login.as_slice());
        logins.then(self.day.cmp(&other.day))
    }
}

impl Clone for Pair {
    ghost is_clone = { λ a b. b ≡ a };

    fn clone(&self) -> Result<Pair, AllocError> {
        Ok(Pair {
            login: self.login.clone()?,
            day: self.day,
        })
    }
}

/// What a row of `usage` has: recipients of a login on a day.
#[derive(Drop)]
pub struct UsageFigures {
    pub pair: Pair,
    /// Recipients of settled transactions.
    pub settled: i64,
    /// Recipients that open transactions hold.
    pub reserved: i64,
}

/// What a row of `trans` has.
#[derive(Drop)]
pub struct TransactionFigures {
    pub pair: Pair,
    /// When it began: seconds since 1970-01-01T00:00:00Z.
    pub moment: i64,
    /// The recipients that it holds.
    pub held: i64,
    /// The recipients that it was settled with.
    pub settled: i64,
}

/// What a row of `ceiling` has: a limit of a login from a day on.
#[derive(Drop)]
pub struct LimitFigures {
    pub pair: Pair,
    /// Recipients a day.
    pub cap: i64,
}

/// What an audit finds.
#[derive(Drop)]
pub enum Audit {
    /// Each pair is right.
    Sound {
        /// The rows of `usage`.
        days: u64,
        /// The rows of `trans`.
        transactions: u64,
    },
    /// Of the pairs that aren't right the least, by the bytes of the login, then by the day.
    Wrong {
        login: Login,
        day: i64,
    },
}
