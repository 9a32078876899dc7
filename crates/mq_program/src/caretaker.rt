//! Looking after the files of a ledger while it is served: whether the disk has room still, and
//! whether the ledger's files have their names still.
ghost use Rattle.std.specs.Prelude.{◌≡◌};
ghost use Rattle.mq_program.specs.Room.{what_goes};

use crate::metrics::MetricsWriter;
use crate::reserve::{NoReserve, keep_reserve};
use crate::switching::{Names, is_there};
use log::{Log, error, info, warn};
use mq_chore::{Chore, Piece};
use mq_nights::Look;
use mq_process::elapsed;
use mq_store::SqlLedger;
use sqlite::Alter;
use std::alloc::AllocError;
use std::fs::{File, Metadata};
use std::io::ErrorKind;
use std::os::unix::fs::MetadataExt;
use std::rt::{Clock, Files};
use std::time::{Duration, Instant};
use std::{fs, io};

/// How often it is looked, in seconds.
const LOOK: u64 = 5;

/// How often it is logged that something is wrong still, and how often a reserve that was given up
/// is made again, in seconds.
const MINUTE: u64 = 60;

/// What a server can give up on a full disk.
#[derive(Clone, Copy, Debug, PartialEq, Eq)]
pub enum Spare {
    /// The file that a renewal fills, and with it the former ledger, so that the next renewal has
    /// its room.
    NewLedger,
    /// The ledger as it was before the last night.
    FormerLedger,
    Reserve,
    Nothing,
}

/// What goes first on a full disk, of what there is.
fn what_goes(renews: bool, has_former: bool, has_reserve: bool) -> Spare
    ensures { result ≡ what_goes renews has_former has_reserve }
{
    if renews {
        Spare::NewLedger
    } else if has_former {
        Spare::FormerLedger
    } else if has_reserve {
        Spare::Reserve
    } else {
        Spare::Nothing
    }
}

/// Which file it is, whatever its names are.
#[derive(Clone, Copy, PartialEq, Eq)]
struct FileId {
    device: u64,
    number: u64,
}

impl FileId {
    fn of(found: &Metadata) -> FileId {
        FileId {
            device: found.dev(),
            number: found.ino(),
        }
    }
}

/// Looks after the files of a ledger, and has the server's metrics written.
pub struct Caretaker<'a, R, G> {
    rt: &'a R,
    log: &'a G,
    names: &'a Names,
    pub metrics: &'a MetricsWriter<'a, R, G>,
    /// Whether days leave the ledger, so that the former one is of a night.
    has_nights: bool,
    /// Whether it has looked, and when it did last.
    has_looked: bool,
    looked: Option<Instant>,
    /// The ledger's file and its log, as they were then.
    ledger: Option<FileId>,
    wal: Option<FileId>,
    /// When it said last that one of them is lost.
    told: Option<Instant>,
    has_reserve: bool,
    /// When the disk was found full last.
    full: Option<Instant>,
    /// Whether it was said why the reserve can't be kept, though the disk isn't full.
    has_failed: bool,
}

impl<R, G> Clone for Caretaker<'_, R, G> {
    fn clone(&self) -> Result<Self, AllocError> {
        Ok(*self)
    }
}

impl<R, G> Copy for Caretaker<'_, R, G> {}

impl<'a, R: Files<File = File> + Clock + AllocGlobal, G: Log> Caretaker<'a, R, G> {
    /// Nothing was looked at yet. The reserve is whole, and there was room above it.
    pub fn new(
        rt: &'a R,
        log: &'a G,
        names: &'a Names,
        metrics: &'a MetricsWriter<'a, R, G>,
        has_nights: bool,
    ) -> Caretaker<'a, R, G> {
        Caretaker {
            rt,
            log,
            names,
            metrics,
            has_nights,
            has_looked: false,
            looked: None,
            ledger: None,
            wal: None,
            told: None,
            has_reserve: true,
            full: None,
            has_failed: false,
        }
    }

    /// Whether so many seconds have passed since then.
    fn has_passed(&self, seconds: u64, since: Option<Instant>) -> bool {
        match elapsed(self.rt, since) {
            Some(passed) => passed.as_secs() >= seconds,
            None => true,
        }
    }

    /// Looks after the files, where it is time to. While a new ledger is being filled the disk is
    /// looked at each time.
    pub fn look(&mut self, renews: bool) -> Look {
        let is_due = self.has_passed(LOOK, self.looked);
        let wants_room = renews || is_due && self.has_looked;
        if is_due {
            self.has_looked = true;
            self.looked = Instant::now(self.rt).ok();
            self.look_at_names();
        }
        Look {
            is_scarce: wants_room && self.lacks_room(renews),
            next: Duration::from_secs(LOOK),
        }
    }

    /// The file of this name.
    fn id_of(&self, path: &str) -> io::Result<FileId> {
        Ok(FileId::of(&fs::metadata(self.rt, path)?))
    }

    /// Whether a file that had this name has it no more.
    fn is_lost(&self, path: &str, file: Option<FileId>) -> bool {
        let Some(file) = file else {
            return false;
        };
        match self.id_of(path) {
            Ok(found) => found != file,
            Err(cause) => cause.kind() == ErrorKind::NotFound,
        }
    }

    /// Looks whether the ledger's files have their names, and logs each minute that one has lost
    /// it. What is there at the first look is what the server has open.
    fn look_at_names(&mut self) {
        let (ledger, wal) = (self.names.ledger.as_str(), self.names.wal.as_str());
        self.ledger = self.ledger.or_else(|| self.id_of(ledger).ok());
        self.wal = self.wal.or_else(|| self.id_of(wal).ok());
        let is_ledger_lost = self.is_lost(ledger, self.ledger);
        let is_wal_lost = self.is_lost(wal, self.wal);
        if (is_ledger_lost || is_wal_lost) && self.has_passed(MINUTE, self.told) {
            self.told = Instant::now(self.rt).ok();
            let lost = if is_ledger_lost { ledger } else { wal };
            error!(
                self.log;
                "{lost}: it was removed or replaced: run mailquota-backup before the server ends"
            );
        }
    }

    /// Whether the disk lacks room for the reserve and the margin above it. What goes then is given
    /// up, but for a new ledger, which whoever fills it gives up.
    fn lacks_room(&mut self, renews: bool) -> bool {
        // (a reserve that was given up is made again once a minute)
        if !self.has_reserve && !self.has_passed(MINUTE, self.full) {
            return true;
        }
        match keep_reserve(self.rt, self.names.reserve.as_str(), false) {
            Ok(()) => {
                self.take_back();
                false
            }
            Err(lack) if lack.is_for_room() => {
                self.full = Instant::now(self.rt).ok();
                self.give_up(lack.cause(), renews);
                true
            }
            Err(lack) => {
                self.log_failure(lack.cause());
                false
            }
        }
    }

    /// There is a reserve again.
    fn take_back(&mut self) {
        if !self.has_reserve {
            let reserve = self.names.reserve.as_str();
            info!(self.log; "{reserve}: the disk has room again");
        }
        self.has_reserve = true;
        self.has_failed = false;
    }

    /// Logs once why the reserve can't be kept, though the disk isn't full.
    fn log_failure(&mut self, cause: &io::Error) {
        if !self.has_failed {
            self.has_failed = true;
            let reserve = self.names.reserve.as_str();
            warn!(self.log; "{reserve}: {cause}");
        }
    }

    /// Gives up what goes first on a full disk, and logs it.
    fn give_up(&mut self, cause: &io::Error, renews: bool) {
        match what_goes(renews, self.has_former(), self.has_reserve) {
            Spare::NewLedger => {}
            Spare::FormerLedger => give_up_former(self.rt, self.log, self.names, cause),
            Spare::Reserve => {
                self.has_reserve = false;
                let reserve = self.names.reserve.as_str();
                let _left = fs::remove_file(self.rt, reserve);
                warn!(
                    self.log;
                    "{reserve} is given up: {cause}; make room"
                );
            }
            Spare::Nothing => {
                let ledger = self.names.ledger.as_str();
                warn!(self.log; "{ledger}: {cause}; make room");
            }
        }
    }

    /// Whether there is a former ledger that a night has left.
    fn has_former(&self) -> bool {
        self.has_nights && is_there(self.rt, self.names.old.as_str())
    }

    /// Why the disk has no room for a new ledger, where it hasn't.
    pub fn want_of_room(&self) -> Option<NoReserve> {
        let lack = keep_reserve(self.rt, self.names.reserve.as_str(), false).err()?;
        if lack.is_for_room() { Some(lack) } else { None }
    }

    /// Gives up the former ledger, where there is one, for want of room.
    pub fn let_former_go(&self, lack: &NoReserve) {
        if self.has_former() {
            give_up_former(self.rt, self.log, self.names, lack.cause());
        }
    }
}

/// Removes the former ledger on a full disk, and logs that.
pub fn give_up_former<R: Files, G: Log>(rt: &R, log: &G, names: &Names, cause: &io::Error) {
    let old = names.old.as_str();
    match fs::remove_file(rt, old) {
        Ok(()) => warn!(log; "{old} is given up: {cause}; make room"),
        Err(cause) => warn!(log; "{old}: {cause}"),
    }
}

impl<R: Files<File = File> + Clock + AllocGlobal, G: Log, S: Alter> Chore<SqlLedger<S>>
    for Caretaker<'_, R, G> {
    ghost is_done = { λ _ _. ⊥ };

    fn go_on(&mut self, ledger: &mut SqlLedger<S>) -> Piece {
        let next = self.look(false).next;
        self.metrics.look_at(ledger);
        Piece::Later(next)
    }
}
