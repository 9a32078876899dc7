//! Which day counts as today.
use crate::clock::clock_day;
use mq_ledger::Zone;

/// The days of a ledger on which something was reserved, as a server starts.
#[derive(Clone, Copy, Debug, PartialEq, Eq)]
pub struct LedgerDays {
    /// The first one: days since 1970-01-01, by the ledger's zone.
    pub oldest: u32,
    /// The last one: the same day, or a later one.
    pub newest: u32,
}

/// The server's clock at a request.
#[derive(Clone, Copy)]
pub struct ServerTime {
    /// What it shows, in milliseconds since 1970.
    pub millis: u64,
    /// The day that counts as today then: days since 1970-01-01, by the ledger's zone.
    pub today: u64,
}

impl LedgerDays {
    ghost use Rattle.std.specs.Prelude.{◌≡◌};
    ghost use Rattle.mq_ledger.specs.Day.{day_of};
    ghost use Rattle.mq_watch.specs.Today.{days_at};

    /// The days of a ledger as a server starts. One that has none begins with the day of the
    /// server's clock.
    fn at_start(zone: &Zone, days: Option<LedgerDays>, now: Option<u64>) -> LedgerDays
        ensures { result ≡ days_at (day_of zone.now) days now }
    {
        match (days, now) {
            (Some(days), _) => days,
            (None, Some(millis)) => LedgerDays {
                oldest: clock_day(zone, millis),
                newest: clock_day(zone, millis),
            },
            (None, None) => LedgerDays {
                oldest: 0,
                newest: 0,
            },
        }
    }
}

impl ServerTime {
    ghost use Rattle.std.specs.Prelude.{◌≡◌};
    ghost use Rattle.mq_watch.specs.Today.{millis_in};

    /// What the clock shows, where it can be read.
    pub fn millis_in(now: Option<ServerTime>) -> Option<u64>
        ensures { result ≡ millis_in now }
    {
        match now {
            Some(now) => Some(now.millis),
            None => None,
        }
    }
}

/// Which day counts as today: that of the server's clock. But while this lies before all days of
/// the ledger, as on a machine that begins with 1970, the clock is taken to be slow: by as many
/// days as it was when it fell behind, after the day that was today until then. As a server starts,
/// that is the ledger's last day. So time goes on with a clock that is wrong, one that is set right
/// counts by itself at once, and what is asked of the ledger moves nothing.
#[derive(Clone, Copy)]
pub struct Calendar {
    // The ledger's first day as the server started.
    first: u32,
    // What was today last by a clock that wasn't behind.
    latest: u32,
    // How many days the clock is slow, while it is behind.
    lag: Option<u32>,
}

impl Calendar {
    ghost use Rattle.std.specs.Prelude.{◌≡◌};
    ghost use Rattle.mq_ledger.specs.Day.{day_of};
    ghost use Rattle.mq_watch.specs.Today.{calendar_after, calendar_at, calendar_from, days_at};
    ghost use Rattle.mq_watch.specs.Today.{time_at, today_of};

    /// A server starts over a ledger that has these days, or none, as its clock shows so many
    /// milliseconds since 1970, where it can be read. If the clock is behind already, time goes on
    /// from now, though the first request comes later.
    pub fn new(zone: &Zone, days: Option<LedgerDays>, now: Option<u64>) -> Calendar
        ensures { result ≡ calendar_at (day_of zone.now)
            (calendar_from (days_at (day_of zone.now) days now)) now }
    {
        let LedgerDays { oldest, newest } = LedgerDays::at_start(zone, days, now);
        let mut calendar = Calendar {
            first: oldest,
            latest: newest,
            lag: None,
        };
        let _time = calendar.tell(zone, now);
        calendar
    }

    /// The server's time, where its clock shows so many milliseconds since 1970; none where it
    /// can't be read.
    pub fn tell(&mut self, zone: &Zone, now: Option<u64>) -> Option<ServerTime>
        ensures time { result ≡ time_at (day_of zone.now) self.old now }
        ensures calendar { self.new ≡ calendar_at (day_of zone.now) self.old now }
    {
        let Some(millis) = now else {
            return None;
        };
        Some(ServerTime {
            millis,
            today: self.today(clock_day(zone, millis)),
        })
    }

    /// What is today where the clock shows this day.
    fn today(&mut self, day: u32) -> u64
        ensures today { result ≡ today_of self.old day }
        ensures calendar { self.new ≡ calendar_after self.old day }
    {
        if day < self.first {
            let lag = self.lag.unwrap_or(self.latest.saturating_sub(day));
            self.lag = Some(lag);
            u64::from(day) + u64::from(lag)
        } else {
            self.latest = day;
            self.lag = None;
            u64::from(day)
        }
    }
}
