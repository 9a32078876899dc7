//! Of which hosts a line was logged within an hour.
ghost use Rattle.std.specs.Prelude.{◌≡◌, ◌≢◌, ◌↔◌, ◌<◌, ◌⊎◌, ℕ, ℤ, [], ◌∷◌, ◌++◌, length, All};
ghost use Rattle.std.specs.Prelude.{IfSome, IsNone, IsTrue, false};
ghost use Rattle.mq_request.specs.Range.{IsMoment};
ghost use Rattle.mq_ledger.specs.Day.{ByOffset, IsOffset, day_of};
ghost use Rattle.mq_watch.specs.Hours.{AreClose, AreFar, IsOver};

use mq_ledger::Zone;
use mq_ledger::laws::day_is_the_floor;
use mq_request::Host;
use std::alloc::Global;

/// The seconds of half a day.
const HALF_DAY: u64 = 43_200;

/// The seconds of an hour.
const HOUR: u64 = 3_600;

/// The most hosts that are named in an hour: each is a line of the log, and who sends chooses the
/// names.
const NAMES: usize = 1_000;

/// Whether there is a day or more between two days, each in days since 1970-01-01.
pub fn are_far(day: u32, today: u32) -> bool
    ensures { IsTrue result ↔ AreFar day today }
{
    day.abs_diff(today) > 1
}

/// Whether two moments are less than half a day apart, in seconds.
fn are_close(moment: u64, now: u64) -> bool
    ensures { IsTrue result ↔ AreClose moment now }
{
    moment.abs_diff(now) < HALF_DAY
}

/// By an offset no day lies between those of two moments that are less than half a day apart.
fn close_moments_have_near_days()
    ensures { (minutes : ℤ) (moment now : ℕ) → IsOffset minutes → IsMoment moment → IsMoment now
        → AreClose moment now →
        AreFar (day_of (ByOffset minutes) moment) (day_of (ByOffset minutes) now) → ⊥ }
{
    day_is_the_floor();
}

/// The days of a moment and of the server's, where the moments are half a day apart or more, and a
/// day lies between them.
///
/// By an offset no day lies between those of moments that are closer; by a rule one does only where
/// its summer time is half a day or more ahead of its winter time. So mostly no day has to be
/// worked out.
///
/// Both moments are 86,400 to 32,503,680,000 seconds since 1970-01-01T00:00:00Z.
pub fn far_days(zone: &Zone, moment: u64, now: u64) -> Option<(u32, u32)>
    requires moment { IsMoment moment }
    requires now { IsMoment now }
    ensures some { IfSome result (λ days. (days ≡ (day_of zone.now moment, day_of zone.now now))
        × AreFar days.0 days.1
        × (AreClose moment now → ⊥)) }
    ensures none { IsNone result →
        AreClose moment now ⊎ (AreFar (day_of zone.now moment) (day_of zone.now now) → ⊥) }
    ensures offset { (minutes : ℤ) → IsOffset minutes → zone.now ≡ ByOffset minutes
        → IsNone result →
        AreFar (day_of zone.now moment) (day_of zone.now now) → ⊥ }
{
    close_moments_have_near_days();
    if are_close(moment, now) {
        return None;
    }
    let day = zone.day_at(moment);
    let today = zone.day_at(now);
    if are_far(day, today) {
        Some((day, today))
    } else {
        None
    }
}

/// Whether an hour that began at the one moment is over at the other. A clock that was put back
/// ends it too. In seconds.
pub fn is_over(since: u64, now: u64) -> bool
    ensures { IsTrue result ↔ IsOver since now }
{
    now < since || HOUR <= now - since
}

/// The hosts that were named in an hour.
#[derive(Drop)]
pub struct NamedHosts {
    /// When the hour began, in seconds.
    since: u64,
    hosts: Vec<Host>,
}

impl NamedHosts {
    /// None was named yet.
    pub fn new(alloc: Global) -> NamedHosts
        ensures { result.hosts.items ≡ [] }
    {
        NamedHosts {
            since: 0,
            hosts: Vec::new(alloc),
        }
    }

    /// Begins a new hour, where the last one is over.
    fn begin(&mut self, now: u64)
        ensures over { IsOver self.old.since now → (self.new.since ≡ now)
            × (self.new.hosts.items ≡ []) }
        ensures runs { (IsOver self.old.since now → ⊥) → self.new ≡ self.old }
    {
        if is_over(self.since, now) {
            self.since = now;
            self.hosts.clear();
        }
    }

    /// Whether the host is one to name, and was none of the hour so far. It counts as named then.
    /// One that finds no memory isn't named.
    fn add(&mut self, host: &Host) -> bool
        ensures since { self.new.since ≡ self.old.since }
        ensures added { IsTrue result → (self.new.hosts.items ≡ self.old.hosts.items ++ host.now
            ∷ [])
            × (length self.old.hosts.items < 1000) × All (λ h. h ≢ host.now) self.old.hosts.items }
        ensures same { result ≡ false → self.new.hosts.items ≡ self.old.hosts.items }
    {
        if NAMES <= self.hosts.len() || self.hosts.contains(host) {
            return false;
        }
        match host.clone() {
            Ok(host) => self.hosts.push(host).is_ok(),
            Err(_) => false,
        }
    }

    /// Whether a line that names the host is due at a moment: none named it within the hour that
    /// runs, and fewer than 1,000 were logged. The host counts as named then.
    pub fn is_due(&mut self, host: &Host, now: u64) -> bool
        ensures first { IsTrue result → IsOver self.old.since now →
            (self.new.since ≡ now) × (self.new.hosts.items ≡ host.now ∷ []) }
        ensures more { IsTrue result → (IsOver self.old.since now → ⊥)
            → (self.new.since ≡ self.old.since)
            × (self.new.hosts.items ≡ self.old.hosts.items ++ host.now ∷ [])
            × (length self.old.hosts.items < 1000) × All (λ h. h ≢ host.now) self.old.hosts.items }
        ensures over { result ≡ false → IsOver self.old.since now →
            (self.new.since ≡ now) × (self.new.hosts.items ≡ []) }
        ensures same { result ≡ false → (IsOver self.old.since now → ⊥) →
            (self.new.since ≡ self.old.since) × (self.new.hosts.items ≡ self.old.hosts.items) }
    {
        self.begin(now);
        self.add(host)
    }
}
