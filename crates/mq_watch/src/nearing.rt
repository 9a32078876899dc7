//! Which logins near their limits.
ghost use Rattle.std.specs.Prelude.{◌≡◌, ◌≢◌, ◌↔◌, ◌<◌, ◌≤◌, ◌⊎◌, ℕ, List, Some, None, IsTrue};
ghost use Rattle.std.specs.Prelude.{false};
ghost use Rattle.std.specs.BTreeMap.{btree_map_len};
ghost use Rattle.mq_request.specs.Range.{IsAmount};
ghost use Rattle.mq_watch.specs.Known.{known};
ghost use Rattle.mq_watch.specs.Nearing.{IsLeft, IsNear, IsOpen, four_fifths, full_at};

use mq_request::Login;
use std::alloc::Global;
use std::collections::BTreeMap;

/// The most logins that are known at once. With one more it begins again.
const LOGINS: usize = 100_000;

/// What a login has used on a day and its limit, 0 to 1,000,000 recipients.
#[derive(Clone, Copy)]
pub struct Usage {
    /// Settled and reserved together.
    pub used: u32,
    /// The limit of that day.
    pub cap: u32,
}

/// What was noted of a login when its ledger was asked last.
#[derive(Clone, Copy, Drop)]
pub struct LoginNote {
    day: u32,
    /// It nears its limit of that day once it has used so much. None where that was logged.
    near: Option<u32>,
}

impl LoginNote {
    /// Whether the login may near its limit on a day on which it has used so much.
    fn is_open(&self, day: u32, used: u32) -> bool
        ensures { IsTrue result ↔ IsOpen (Some self.now) day used }
    {
        if self.day != day {
            return self.day < day;
        }
        match self.near {
            Some(near) => near <= used,
            None => false,
        }
    }
}

/// The least that a login has to have used to near its limit: four fifths of it, or more.
fn near_at(cap: u32) -> u32
    requires { IsAmount cap }
    ensures value { result ≡ four_fifths cap }
    ensures near { (used : ℕ) → result ≤ used ↔ IsNear used cap }
{
    (4 * cap + 4) / 5
}

/// Of each login the latest day on which its ledger was asked, and what it has to use to near its
/// limit then. So the ledger is asked at the first recipient of a login and day, and once more as
/// it nears its limit.
#[derive(Drop)]
pub struct Nearing {
    alloc: Global,
    logins: BTreeMap<Vec<u8>, LoginNote>,
}

impl Nearing {
    /// Nothing is known yet.
    pub fn new(alloc: Global) -> Nearing
        ensures { (l : List ℕ) → known result.logins l ≡ None }
    {
        Nearing {
            alloc,
            logins: BTreeMap::new(alloc),
        }
    }

    /// Whether a login may near its limit on a day on which it has used so much.
    pub fn is_open(&self, login: &Login, day: u32, used: u32) -> bool
        ensures { IsTrue result ↔ IsOpen (known self.now.logins login.now) day used }
    {
        match self.logins.get(login.as_slice()) {
            Some(note) => note.is_open(day, used),
            None => true,
        }
    }

    /// Notes what the ledger answered of a login and day, and says whether it is due to be logged:
    /// the login nears its limit, and that wasn't logged on that day or a later one. It counts as
    /// logged then. One that finds no memory isn't due.
    pub fn is_due(&mut self, login: &Login, day: u32, usage: Usage) -> bool
        requires { IsAmount usage.cap }
        ensures due { IsTrue result → IsNear usage.used usage.cap
            × IsOpen (known self.old.logins login.now) day usage.used
            × (known self.new.logins login.now ≡ Some (record { day = day; near = None })) }
        ensures kept { IsOpen (known self.old.logins login.now) day usage.used
            → (IsNear usage.used usage.cap → ⊥) →
            (result ≡ false) × (IsLeft self.old.logins self.new.logins login.now login.now
            ⊎ (known self.new.logins login.now ≡ Some
            (record { day = day; near = Some (four_fifths usage.cap) }))) }
        ensures lost { IsNear usage.used usage.cap → result ≡ false
            → IsLeft self.old.logins self.new.logins login.now login.now }
        ensures others { (l : List ℕ) → l ≢ login.now
            → IsLeft self.old.logins self.new.logins login.now l }
        ensures closed { (IsOpen (known self.old.logins login.now) day usage.used → ⊥) →
            (result ≡ false) × (self.new ≡ self.old) }
    {
        if !self.is_open(login, day, usage.used) {
            return false;
        }
        let near = near_at(usage.cap);
        if near <= usage.used {
            return self.keep(login, LoginNote { day, near: None });
        }
        // (where there is no memory, the ledger is asked again at the next recipient)
        let _ = self.keep(
            login,
            LoginNote {
                day,
                near: Some(near),
            },
        );
        false
    }

    /// Keeps the note of a login, where there is memory, and says whether there was.
    fn keep(&mut self, login: &Login, note: LoginNote) -> bool
        ensures kept { IsTrue result → known self.new.logins login.now ≡ Some note }
        ensures lost { result ≡ false → IsLeft self.old.logins self.new.logins login.now login.now }
        ensures others { (l : List ℕ) → l ≢ login.now
            → IsLeft self.old.logins self.new.logins login.now l }
        ensures few { btree_map_len self.new.logins ≤ 100000 }
    {
        self.make_room(login);
        match Vec::from_slice(self.alloc, login.as_slice()) {
            Ok(key) => self.logins.insert(key, note).is_ok(),
            Err(_) => false,
        }
    }

    /// Whether so many logins are known that this one has no room. One that is known takes none.
    fn is_full(&self, login: &Login) -> bool
        ensures { IsTrue result ↔ full_at self.now.logins login.now
            ≤ btree_map_len self.now.logins }
    {
        match self.logins.get(login.as_slice()) {
            Some(_) => LOGINS < self.logins.len(),
            None => LOGINS <= self.logins.len(),
        }
    }

    /// Forgets all logins where so many are known that this one has no room.
    fn make_room(&mut self, login: &Login)
        ensures room { btree_map_len self.old.logins < full_at self.old.logins login.now
            → self.new ≡ self.old }
        ensures again { full_at self.old.logins login.now ≤ btree_map_len self.old.logins
            → (l : List ℕ) → known self.new.logins l ≡ None }
        ensures further { known self.new.logins login.now ≡ None
            → btree_map_len self.new.logins < 100000 }
        ensures few { btree_map_len self.new.logins ≤ 100000 }
    {
        if self.is_full(login) {
            self.logins.clear();
        }
    }

    /// Forgets a login, whose limit was set.
    pub fn forget(&mut self, login: &Login)
        ensures gone { known self.new.logins login.now ≡ None }
        ensures others { (l : List ℕ) → l ≢ login.now → known self.new.logins l
            ≡ known self.old.logins l }
    {
        self.logins.remove(login.as_slice());
    }
}
