//! Prometheus' text format, version 0.0.4: for each figure a line of what it is and one of its
//! type, and then a line for each value of it.

use std::fmt;
use std::time::Duration;

/// What becomes of a figure.
#[derive(Clone, Copy, Debug, PartialEq, Eq)]
pub enum FigureKind {
    /// It only grows, until the program starts anew.
    Counter,
    /// It goes up and down.
    Gauge,
    /// How many values were within each of several bounds.
    Histogram,
}

impl FigureKind {
    fn as_str(self) -> &'static str {
        match self {
            FigureKind::Counter => "counter",
            FigureKind::Gauge => "gauge",
            FigureKind::Histogram => "histogram",
        }
    }
}

/// A label of a value.
#[derive(Clone, Copy, Debug)]
pub struct Label<'a> {
    pub name: &'a str,
    /// Any text: it is escaped as it is written.
    pub value: &'a str,
}

/// What a figure is, with `\` and line feeds escaped.
#[derive(Clone, Copy)]
struct HelpText<'a>(&'a str);

impl fmt::Display for HelpText<'_> {
    fn fmt<W: fmt::Write>(&self, f: &mut fmt::Formatter<W>) -> fmt::Result {
        for letter in self.0.chars() {
            match letter {
                '\\' => f.write_str("\\\\")?,
                '\n' => f.write_str("\\n")?,
                other => f.write_char(other)?,
            }
        }
        Ok(())
    }
}

/// The value of a label, with `\`, `"` and line feeds escaped.
#[derive(Clone, Copy)]
struct LabelText<'a>(&'a str);

impl fmt::Display for LabelText<'_> {
    fn fmt<W: fmt::Write>(&self, f: &mut fmt::Formatter<W>) -> fmt::Result {
        for letter in self.0.chars() {
            match letter {
                '\\' => f.write_str("\\\\")?,
                '"' => f.write_str("\\\"")?,
                '\n' => f.write_str("\\n")?,
                other => f.write_char(other)?,
            }
        }
        Ok(())
    }
}

/// A time in seconds, to the nanosecond.
#[derive(Clone, Copy)]
pub struct Seconds(pub Duration);

impl fmt::Display for Seconds {
    fn fmt<W: fmt::Write>(&self, f: &mut fmt::Formatter<W>) -> fmt::Result {
        let seconds = self.0.as_secs();
        let nanos = self.0.subsec_nanos();
        write!(f, "{seconds}.{nanos:09}")
    }
}

/// The lines before the values of a figure: what it is, and its type.
pub fn write_head<W: fmt::Write>(
    f: &mut fmt::Formatter<W>,
    name: &str,
    kind: FigureKind,
    help: &str,
) -> fmt::Result {
    let help = HelpText(help);
    let kind = kind.as_str();
    writeln!(f, "# HELP {name} {help}")?;
    writeln!(f, "# TYPE {name} {kind}")
}

/// A line with a value of a figure. The labels have different names.
pub fn write_value<W: fmt::Write, V: fmt::Display>(
    f: &mut fmt::Formatter<W>,
    name: &str,
    labels: &[Label<'_>],
    value: &V,
) -> fmt::Result {
    write_suffixed(f, name, "", labels, value)
}

/// The same, where the name goes on with more: as with `_sum` for a histogram.
pub fn write_suffixed<W: fmt::Write, V: fmt::Display>(
    f: &mut fmt::Formatter<W>,
    name: &str,
    suffix: &str,
    labels: &[Label<'_>],
    value: &V,
) -> fmt::Result {
    write!(f, "{name}{suffix}")?;
    write_labels(f, labels)?;
    writeln!(f, " {value}")
}

/// The labels of a value, in braces, where it has any.
fn write_labels<W: fmt::Write>(f: &mut fmt::Formatter<W>, labels: &[Label<'_>]) -> fmt::Result {
    let mut before = "{";
    for label in labels {
        let name = label.name;
        let value = LabelText(label.value);
        write!(f, "{before}{name}=\"{value}\"")?;
        before = ",";
    }
    if labels.is_empty() {
        Ok(())
    } else {
        f.write_str("}")
    }
}

/// A figure that has one value, without labels.
pub fn write_figure<W: fmt::Write, V: fmt::Display>(
    f: &mut fmt::Formatter<W>,
    name: &str,
    kind: FigureKind,
    help: &str,
    value: &V,
) -> fmt::Result {
    write_head(f, name, kind, help)?;
    write_value(f, name, &[], value)
}
