//! The file of a server's metrics: when it is written, and the figures in it that nobody counts.
ghost use Rattle.std.specs.Prelude.{◌≡◌};
ghost use Rattle.sqlite.specs.Held.{state};
ghost use Rattle.mq_store.specs.Soundness.{HasKept, IsSound};

use crate::last_night::NightReport;
use crate::refusal::days_by;
use log::{Log, warn};
use mq_chore::{Chore, Piece};
use mq_ledger::Zone;
use mq_metrics::{Gauge, MetricsFile, NightMetrics, ServerBuild, ServerMetrics};
use mq_settings::{Place, ServerSettings};
use mq_store::SqlLedger;
use mq_watch::millis_of;
use sqlite::Alter;
use std::alloc::{AllocError, Global};
use std::fs;
use std::fs::File;
use std::rt::{Clock, Files};
use std::time::Duration;

/// How often it is looked whether it is time to write, in seconds.
const LOOK: u64 = 5;

/// What the system says of the memory of this process, in pages: all of it, and then what is in the
/// machine's memory.
const MEMORY: &str = "/proc/self/statm";

/// The bytes of a page of x86-64.
const PAGE: u64 = 4_096;

/// The figures of a server of these settings, which starts now. `version` is the program's.
pub fn figures_of<R: Clock + AllocGlobal>(
    rt: &R,
    settings: &ServerSettings,
    version: &str,
) -> Result<ServerMetrics, AllocError> {
    let build = ServerBuild {
        version: String::from_str(rt.alloc(), version)?,
        zone: zone_text(rt.alloc(), &settings.zone)?,
    };
    let figures = ServerMetrics::new(build);
    set(&figures.started, millis_of(rt));
    figures.default_limit.set(u64::from(settings.default));
    Ok(figures)
}

/// A zone as the log has it.
fn zone_text(alloc: Global, zone: &Zone) -> Result<String, AllocError> {
    let terms = days_by(zone);
    format!(in alloc; "{terms}")
}

/// Sets a gauge to what was found.
fn set(gauge: &Gauge, found: Option<u64>) {
    match found {
        Some(figure) => gauge.set(figure),
        None => gauge.clear(),
    }
}

/// The bytes of the file at a path, where there is one.
fn size_of<R: Files>(rt: &R, path: &str) -> Option<u64> {
    Some(fs::metadata(rt, path).ok()?.len())
}

/// The bytes of the machine's memory that this process has.
fn memory_in_use<R: Files + AllocGlobal>(rt: &R) -> Option<u64> {
    let text = fs::read_to_string(rt, MEMORY).ok()?;
    let pages = text.as_str().split(' ').nth(1)?.parse::<u64>().ok()?;
    pages.checked_mul(PAGE)
}

/// Sets the figures of the last night.
pub fn set_night(figures: &NightMetrics, night: &NightReport) {
    set(&figures.over, night.over);
    set(&figures.took, night.took.millis());
    set(&figures.answers, night.answers);
    figures.day.set(u64::from(night.day));
}

/// Writes a server's metrics into the file that its settings name, where they name one, once a
/// minute. It is lent to each that looks after something between the rounds over the connections.
#[derive(Drop)]
pub struct MetricsWriter<'a, R, G> {
    rt: &'a R,
    log: &'a G,
    figures: &'a ServerMetrics,
    file: Option<MetricsFile<'a>>,
    /// The ledger's file and its log, where it isn't in memory.
    files: Option<LedgerFiles<'a>>,
}

/// The path of a ledger's file, and that of its log.
#[derive(Drop)]
struct LedgerFiles<'a> {
    ledger: &'a str,
    log: String,
}

impl<'a> LedgerFiles<'a> {
    /// Those of the settings; none of a ledger in memory.
    fn of_settings(
        alloc: Global,
        settings: &'a ServerSettings,
    ) -> Result<Option<LedgerFiles<'a>>, AllocError> {
        match &settings.store {
            Place::Memory => Ok(None),
            Place::File(path) => Ok(Some(LedgerFiles {
                ledger: path.as_str(),
                log: format!(in alloc; "{path}-wal")?,
            })),
        }
    }
}

impl<'a, R: Files<File = File> + Clock + AllocGlobal, G: Log> MetricsWriter<'a, R, G> {
    /// Nothing was written yet.
    pub fn new(
        rt: &'a R,
        log: &'a G,
        figures: &'a ServerMetrics,
        settings: &'a ServerSettings,
    ) -> Result<MetricsWriter<'a, R, G>, AllocError> {
        Ok(MetricsWriter {
            rt,
            log,
            figures,
            file: settings.metrics.as_deref().map(MetricsFile::new),
            files: LedgerFiles::of_settings(rt.alloc(), settings)?,
        })
    }

    /// The figures, where they are wanted.
    pub fn counted(&self) -> Option<&'a ServerMetrics> {
        match &self.file {
            Some(_) => Some(self.figures),
            None => None,
        }
    }

    /// Whether it is time to write the file.
    fn is_due(&self) -> bool {
        match (&self.file, millis_of(self.rt)) {
            (Some(file), Some(now)) => file.is_due(now / 1_000),
            _ => false,
        }
    }

    /// Writes the file, where it is time to.
    pub fn look(&self) {
        if self.is_due() {
            self.write();
        }
    }

    /// Writes the file, where it is time to, with how many answers this ledger has then.
    pub fn look_at<S: Alter>(&self, ledger: &mut SqlLedger<S>)
        ensures lent { (ledger.new.zone ≡ ledger.old.zone)
            × (ledger.new.default ≡ ledger.old.default) }
        ensures kept { HasKept (state S.Store ledger.new.connection)
            → HasKept (state S.Store ledger.old.connection) }
        ensures sound { HasKept (state S.Store ledger.new.connection)
            → IsSound ledger.old.zone ledger.old.default (state S.Store ledger.old.connection)
            → IsSound ledger.new.zone ledger.new.default (state S.Store ledger.new.connection) }
        ensures same { HasKept (state S.Store ledger.new.connection)
            → (state S.Store ledger.new.connection).now
            ≡ (state S.Store ledger.old.connection).now }
    {
        if self.is_due() {
            set(&self.figures.answers, ledger.count_answers().ok());
            self.write();
        }
    }

    /// Writes the file, where there is one. That it can't be written is logged once an hour.
    pub fn write(&self) {
        if let (Some(file), Some(now)) = (&self.file, millis_of(self.rt)) {
            self.measure(now);
            if let Some(unwritten) = file.write(self.rt, now / 1_000, self.figures) {
                warn!(self.log; "{unwritten}");
            }
        }
    }

    /// Finds the figures that nobody counts, at this time of day.
    fn measure(&self, now: u64) {
        let figures = self.figures;
        figures.written.set(now);
        if let Some(files) = &self.files {
            set(&figures.ledger_bytes, size_of(self.rt, files.ledger));
            set(&figures.log_bytes, size_of(self.rt, files.log.as_str()));
        }
        set(&figures.memory_bytes, memory_in_use(self.rt));
    }
}

impl<'a, R, G> MetricsWriter<'a, R, G> {
    /// Notes that this night is over.
    pub fn note_night(&self, night: &NightReport) {
        set_night(&self.figures.night, night);
        set(&self.figures.answers, night.answers);
    }
}

/// The chore of a server in memory, which has no files to look after but that of its metrics.
#[derive(Drop)]
pub struct MetricsChore<'a, R, G> {
    pub metrics: &'a MetricsWriter<'a, R, G>,
}

impl<R: Files<File = File> + Clock + AllocGlobal, G: Log, S: Alter> Chore<SqlLedger<S>>
    for MetricsChore<'_, R, G> {
    ghost is_done = { λ _ _. ⊥ };

    fn go_on(&mut self, ledger: &mut SqlLedger<S>) -> Piece {
        self.metrics.look_at(ledger);
        if self.metrics.file.is_some() {
            Piece::Later(Duration::from_secs(LOOK))
        } else {
            Piece::Nothing
        }
    }
}
