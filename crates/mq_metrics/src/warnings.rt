//! How often was warned, and of what.

use crate::counts::Counter;
use crate::part::ProgramPart;
use crate::text::{FigureKind, Label, write_head, write_value};
use log::Level;
use std::fmt;

/// The parts that a server has, in the order in which they are told.
const PARTS: [ProgramPart; 7] = [
    ProgramPart::Requests,
    ProgramPart::Connections,
    ProgramPart::Ledger,
    ProgramPart::Night,
    ProgramPart::Disk,
    ProgramPart::Settings,
    ProgramPart::Server,
];

/// How often each part of a server warned.
#[derive(Default, Drop)]
struct PartCounts {
    requests: Counter,
    connections: Counter,
    ledger: Counter,
    night: Counter,
    disk: Counter,
    settings: Counter,
    server: Counter,
}

impl PartCounts {
    fn of(&self, part: ProgramPart) -> &Counter {
        match part {
            ProgramPart::Requests => &self.requests,
            ProgramPart::Connections => &self.connections,
            ProgramPart::Ledger => &self.ledger,
            ProgramPart::Night => &self.night,
            ProgramPart::Disk => &self.disk,
            ProgramPart::Settings => &self.settings,
            // (the others are no parts of a server)
            ProgramPart::Server | ProgramPart::Commands | ProgramPart::Filter | ProgramPart::Link =>
                &self.server,
        }
    }

    /// The values of a figure at this level.
    fn write<W: fmt::Write>(
        &self,
        f: &mut fmt::Formatter<W>,
        name: &str,
        level: &str,
    ) -> fmt::Result {
        for part in &PARTS {
            let labels = [
                Label {
                    name: "level",
                    value: level,
                },
                Label {
                    name: "part",
                    value: part.as_str(),
                },
            ];
            write_value(f, name, &labels, &self.of(*part).get())?;
        }
        Ok(())
    }
}

/// The warnings and errors that were logged, by the part of the program that logged them.
#[derive(Default, Drop)]
pub struct WarningCounts {
    errors: PartCounts,
    warnings: PartCounts,
}

impl WarningCounts {
    /// Nothing was logged yet.
    pub fn new() -> WarningCounts {
        WarningCounts::default()
    }

    /// A record of this level was logged with this target. What isn't a warning or an error isn't
    /// counted.
    pub fn count(&self, level: Level, target: &str) {
        let counts = match level {
            Level::Error => &self.errors,
            Level::Warn => &self.warnings,
            _ => return,
        };
        counts.of(ProgramPart::of_target(target)).increment();
    }

    /// The figure of this name in the text format.
    pub fn write<W: fmt::Write>(
        &self,
        f: &mut fmt::Formatter<W>,
        name: &str,
        help: &str,
    ) -> fmt::Result {
        write_head(f, name, FigureKind::Counter, help)?;
        self.errors.write(f, name, "error")?;
        self.warnings.write(f, name, "warn")
    }
}
