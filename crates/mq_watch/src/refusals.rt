//! How often logins are refused.
ghost use Rattle.std.specs.Prelude.{◌≡◌, ◌≢◌, List, ℕ, Option};
ghost use Rattle.mq_watch.specs.Known.{IsKnownAt, known};
ghost use Rattle.mq_watch.specs.Storms.{Counts};

use crate::hourly::Hourly;
use mq_request::Login;
use std::alloc::Global;

/// The most logins whose refusals are counted in an hour.
const LOGINS: usize = 100_000;

/// How often a login may be refused in an hour before it is logged.
const FEW: u32 = 1_000;

/// How often each login was refused in an hour.
#[derive(Drop)]
pub struct Refusals {
    logins: Hourly<u32>,
}

impl Refusals {
    /// None was refused yet.
    pub fn new(alloc: Global) -> Refusals
        ensures { (l : List ℕ) → known result.logins.names l ≡ None }
    {
        Refusals {
            logins: Hourly::new(alloc, LOGINS),
        }
    }

    /// Counts that a login is refused at this moment, in seconds, and says whether that is due to
    /// be logged: it was refused 1,000 times before in the hour that runs.
    pub fn is_due(&mut self, login: &Login, now: u64) -> bool
        ensures counts { (before : Option ℕ) →
            IsKnownAt self.old.logins.since self.old.logins.names now login.now before →
            Counts before result (known self.new.logins.names login.now) }
        ensures others { (l : List ℕ) (before : Option ℕ) → l ≢ login.now →
            IsKnownAt self.old.logins.since self.old.logins.names now l before →
            known self.new.logins.names l ≡ before }
    {
        self.logins.begin(now);
        let login = login.as_slice();
        let before = self.logins.get(login).unwrap_or(0);
        if FEW < before {
            return false;
        }
        self.logins.put(login, before + 1) && before == FEW
    }
}
