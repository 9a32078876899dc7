//! The file in which figures are told, and when it is written.

use std::cell::Cell;
use std::fs::{OpenFile, OpenOptions, Permissions};
use std::io::Write;
use std::os::unix::fs::{OpenOptionsExt, PermissionsExt};
use std::rt::Files;
use std::{fmt, fs, io};

/// Everybody may read it: what scrapes it is another user.
const MODE: u32 = 0o644;

const MINUTE: u64 = 60;

const HOUR: u64 = 3_600;

/// A file of figures, and when it was written. Moments are seconds of the caller's clock since 1970.
#[derive(Drop)]
pub struct MetricsFile<'a> {
    path: &'a str,
    /// The minute of the clock in which it was last written, or tried, counted from 1970.
    minute: Cell<Option<u64>>,
    /// When it was last told that it can't be written.
    told: Cell<Option<u64>>,
}

impl<'a> MetricsFile<'a> {
    /// The file at this path, to which nothing was written yet.
    pub fn new(path: &'a str) -> MetricsFile<'a> {
        MetricsFile {
            path,
            minute: Cell::new(None),
            told: Cell::new(None),
        }
    }

    /// Whether it was neither written nor tried in the minute of this moment.
    pub fn is_due(&self, now: u64) -> bool {
        self.minute.get() != Some(now / MINUTE)
    }

    /// Writes the figures in its place. Where that can't be done, it says so once an hour, to whoever
    /// is to tell it.
    pub fn write<R: Files + AllocGlobal, F: fmt::Display>(
        &self,
        rt: &R,
        now: u64,
        figures: &F,
    ) -> Option<UnwrittenFigures<'a>> {
        self.minute.set(Some(now / MINUTE));
        let cause = write_figures(rt, self.path, figures).err()?;
        if self.was_told(now) {
            return None;
        }
        self.told.set(Some(now));
        let path = self.path;
        Some(UnwrittenFigures { path, cause })
    }

    /// Whether it was told within the hour before this moment that it can't be written. A clock that
    /// was set back begins another hour.
    fn was_told(&self, now: u64) -> bool {
        match self.told.get() {
            Some(told) => told <= now && now - told < HOUR,
            None => false,
        }
    }
}

/// That figures can't be written, and why.
#[derive(Drop)]
pub struct UnwrittenFigures<'a> {
    path: &'a str,
    cause: io::Error,
}

impl fmt::Display for UnwrittenFigures<'_> {
    fn fmt<W: fmt::Write>(&self, f: &mut fmt::Formatter<W>) -> fmt::Result {
        let path = self.path;
        let cause = &self.cause;
        write!(f, "no figures can be written to {path}: {cause}")
    }
}

/// Writes figures in place of the file at a path.
fn write_figures<R: Files + AllocGlobal, F: fmt::Display>(
    rt: &R,
    path: &str,
    figures: &F,
) -> io::Result<()> {
    let text = format!(in rt.alloc(); "{figures}")?;
    write_file(rt, path, text.as_str())
}

/// Writes a text in place of the file at a path, which has it whole or as it was before: it is
/// written beside it, as `PATH.new`, and renamed. Everybody may read the file, whatever the umask.
/// After an error `PATH.new` is removed, where that can be done.
///
/// It isn't synced: figures that a crash loses were of a program that ended.
fn write_file<R: Files + AllocGlobal>(rt: &R, path: &str, text: &str) -> io::Result<()> {
    let new = format!(in rt.alloc(); "{path}.new")?;
    let written = write_new(rt, new.as_str(), text);
    let moved = match written {
        Ok(()) => fs::rename(rt, new.as_str(), path),
        Err(cause) => Err(cause),
    };
    if moved.is_err() {
        // (what is told is why it isn't written)
        let _removed = fs::remove_file(rt, new.as_str());
    }
    moved
}

/// Writes a text as a file that everybody may read.
fn write_new<R: Files>(rt: &R, path: &str, text: &str) -> io::Result<()> {
    let mut options = OpenOptions::new();
    let options = options.write(true).create(true).truncate(true).mode(MODE);
    let mut file = options.open(rt, path)?;
    file.set_permissions(Permissions::from_mode(MODE))?;
    file.write_all(text.as_bytes())
}
