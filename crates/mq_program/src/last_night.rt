//! What a server's last night did, which it notes in a file beside the ledger, `LEDGER.night`, for
//! who asks later: the first line for people, and the second for the figures of a server that starts.

use crate::elapsed_time::Elapsed;
use log::{Log, warn};
use mq_ledger::Zone;
use mq_process::moment_or_now;
use std::alloc::{AllocError, Global};
use std::rt::{Clock, Files};
use std::time::Duration;
use std::{fmt, fs, io};

/// What a night did.
#[derive(Clone, Copy)]
pub struct NightReport {
    /// The first day that it kept.
    pub day: u32,
    pub took: Elapsed,
    /// When it was over: milliseconds since 1970-01-01T00:00:00Z, where the clock could be read.
    pub over: Option<u64>,
    /// How many answers it kept, where they could be counted.
    pub answers: Option<u64>,
}

/// A figure of a note.
#[derive(Clone, Copy)]
struct Noted(Option<u64>);

impl fmt::Display for Noted {
    fn fmt<W: fmt::Write>(&self, f: &mut fmt::Formatter<W>) -> fmt::Result {
        match self.0 {
            Some(figure) => write!(f, "{figure}"),
            None => f.write_str("unknown"),
        }
    }
}

impl fmt::Display for NightReport {
    fn fmt<W: fmt::Write>(&self, f: &mut fmt::Formatter<W>) -> fmt::Result {
        let day = self.day;
        let (took, over) = (Noted(self.took.millis()), Noted(self.over));
        let answers = Noted(self.answers);
        write!(f, "day={day} took={took} over={over} answers={answers}")
    }
}

impl NightReport {
    /// What the second line of a note says.
    fn of_line(line: &str) -> Option<NightReport> {
        let day = u32::try_from(figure_in(line, "day")?).ok()?;
        Some(NightReport {
            day,
            took: Elapsed(figure_in(line, "took").map(Duration::from_millis)),
            over: figure_in(line, "over"),
            answers: figure_in(line, "answers"),
        })
    }
}

/// The figure of this name in a line of a note.
fn figure_in(line: &str, name: &str) -> Option<u64> {
    for word in line.split(' ') {
        if let Some((key, figure)) = word.split_once('=') {
            if key == name {
                return figure.parse::<u64>().ok();
            }
        }
    }
    None
}

/// The path of the note beside the ledger at a path.
fn note_path(alloc: Global, ledger: &str) -> Result<String, AllocError> {
    format!(in alloc; "{ledger}.night")
}

/// The note's first line: which days were forgotten, on which one, by the ledger's zone, and how long
/// that took.
fn line_of<R: Clock + AllocGlobal>(
    rt: &R,
    zone: Zone,
    night: &NightReport,
) -> Result<String, AllocError> {
    let (day, took) = (night.day, night.took);
    match moment_or_now(rt, None) {
        Ok(moment) => {
            let today = zone.day_at(moment);
            format!(in rt.alloc(); "forgot the days before {day} on day {today}, in {took}")
        }
        Err(_) => format!(in rt.alloc(); "forgot the days before {day}, in {took}"),
    }
}

/// Writes the note of a night, in place of the one before.
fn write_note<R: Files + Clock + AllocGlobal>(
    rt: &R,
    ledger: &str,
    zone: Zone,
    night: &NightReport,
) -> io::Result<()> {
    let path = note_path(rt.alloc(), ledger)?;
    let line = line_of(rt, zone, night)?;
    let note = format!(in rt.alloc(); "{line}\n{night}\n")?;
    fs::write(rt, path.as_str(), note.as_str())
}

/// Notes what a night did. A note that can't be written is logged, and then that of an earlier night
/// goes, which isn't the last one any more.
pub fn note_night<R: Files + Clock + AllocGlobal, G: Log>(
    rt: &R,
    log: &G,
    ledger: &str,
    zone: Zone,
    night: &NightReport,
) {
    if let Err(cause) = write_note(rt, ledger, zone, night) {
        warn!(log; "{ledger}.night: {cause}");
        drop_note(rt, ledger);
    }
}

/// Removes the note of an earlier night, where the last one couldn't write its own.
pub fn drop_note<R: Files + AllocGlobal>(rt: &R, ledger: &str) {
    if let Ok(path) = note_path(rt.alloc(), ledger) {
        let _unnoted = fs::remove_file(rt, path.as_str());
    }
}

/// The note of the last night; `None` where there is none, or this process may not read it.
fn read_note<R: Files + AllocGlobal>(rt: &R, ledger: &str) -> Option<String> {
    let path = note_path(rt.alloc(), ledger).ok()?;
    fs::read_to_string(rt, path.as_str()).ok()
}

/// What the last night did, as it was noted, for people; `None` where that can't be read.
pub fn last_night<R: Files + AllocGlobal>(rt: &R, ledger: &str) -> Option<String> {
    let note = read_note(rt, ledger)?;
    let line = note.as_str().lines().next()?;
    String::from_str(rt.alloc(), line).ok()
}

/// What the last night did, as it was noted, for figures; `None` where that can't be read. A note of
/// 1.0.0 has one line.
pub fn last_report<R: Files + AllocGlobal>(rt: &R, ledger: &str) -> Option<NightReport> {
    let note = read_note(rt, ledger)?;
    NightReport::of_line(note.as_str().lines().nth(1)?)
}
