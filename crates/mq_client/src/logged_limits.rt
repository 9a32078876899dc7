//! Of which logins the log has that the limit of a day is reached, so that it has one warning for
//! each.
ghost use Rattle.std.specs.Prelude.{◌≡◌, ◌<◌, ◌≤◌, ◌++◌, ◌∷◌, [], not, length, true, false, OnOk};
ghost use Rattle.std.specs.Prelude.{OnErr};
ghost use Rattle.mq_client.specs.LoggedLimits.{is_noted, Notes};

use crate::tries::{FramedRequest, log_text};
use crate::verdict::Verdict;
use crate::warnings::LimitReached;
use log::{Level, Log};
use mq_request::{Login, Request};
use std::alloc::{AllocError, Global};
use std::marker::Model;

/// The most logins that are noted.
const MOST: usize = 2000;

const SECONDS_OF_A_DAY: u64 = 86_400;

/// A login with a day on which its limit was reached.
#[derive(Drop)]
pub struct LoggedLimit {
    /// The UTC day, counted from 1970-01-01.
    pub day: u64,
    pub login: Login,
}

/// Whether a login is noted for a day.
fn is_noted(day: u64, login: &[u8], noted: &[LoggedLimit]) -> bool
    ensures { result ≡ is_noted day login.now noted.now }
{
    noted
        .iter()
        .any(|one| one.day == day && one.login.as_slice() == login)
}

/// The logins whose limit of a day was logged: 2,000 at most, and then they are forgotten.
#[derive(Drop)]
pub struct LoggedLimits {
    alloc: Global,
    noted: Vec<LoggedLimit>,
    ghost few: { length noted.items ≤ 2000 },
}

impl Model for LoggedLimits {
    ghost use Rattle.std.specs.Prelude.{List};
    ghost use Rattle.mq_client.specs.declared.logged_limits.LoggedLimit.{LoggedLimit};

    ghost Value = { List LoggedLimit };

    ghost view = { λ limits. limits.noted.items };
}

impl LoggedLimits {
    /// None so far.
    pub fn new(alloc: Global) -> LoggedLimits
        ensures { result ≡ [] }
    {
        LoggedLimits {
            alloc,
            noted: Vec::new(alloc),
        }
    }

    /// Whether this login wasn't noted for this day before; it is from now on, if memory is left
    /// for it.
    pub fn is_first(&mut self, day: u64, login: &[u8]) -> bool
        ensures first { result ≡ not (is_noted day login.now self.old) }
        ensures again { result ≡ false → self.new ≡ self.old }
        ensures noted { result ≡ true → Notes self.old self.new day login.now }
    {
        if is_noted(day, login, self.noted.as_slice()) {
            return false;
        }
        if self.noted.len() == MOST {
            self.noted.clear();
        }
        // (without memory for it the next such recipient is warned of as well)
        let _ = self.note(day, login);
        true
    }

    /// Notes a login for a day. An `Err` changes nothing.
    fn note(&mut self, day: u64, login: &[u8]) -> Result<(), AllocError>
        requires { length self.old < 2000 }
        ensures noted { OnOk result (self.new ≡ self.old ++ record { day = day; login = login.now }
            ∷ []) }
        ensures err { OnErr result (self.new ≡ self.old) }
    {
        let login = Login::from_slice(self.alloc, login)?;
        self.noted.push(LoggedLimit { day, login })?;
        Ok(())
    }

    /// Logs where the server refused a recipient by the limit: the first of a login on a day by
    /// a warning. The day is that of its transaction in UTC, since the server's isn't known here.
    pub fn log_refusal<R: Log>(&mut self, rt: &R, reserve: &FramedRequest, verdict: Verdict) {
        if let Verdict::Full { used, cap } = verdict {
            let level = self.level(&reserve.request);
            log_text(rt, level, &LimitReached { reserve, used, cap });
        }
    }

    /// How a refusal of this request by the limit is logged.
    fn level(&mut self, request: &Request) -> Level {
        match request {
            Request::Reserve { moment, login, .. } => {
                if self.is_first(*moment / SECONDS_OF_A_DAY, login.as_slice()) {
                    Level::Warn
                } else {
                    Level::Info
                }
            }
            _ => Level::Info,
        }
    }
}
