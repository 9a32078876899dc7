//! The keys of both settings files.
ghost use Rattle.std.specs.Prelude.{◌≡◌, Some};
ghost use Rattle.mq_settings.specs.Keys.{key_name};

use std::fmt;

/// A key of the filter's settings or the server's.
#[derive(Clone, Copy, Debug, PartialEq, Eq)]
pub enum Key {
    Host,
    Server,
    Tries,
    Listen,
    Store,
    Default,
    Offset,
    Rule,
    Keep,
    Timeout,
    Pause,
    Hold,
    KeepConnection,
    Idle,
    Log,
    Permits,
    Metrics,
}

impl Key {
    /// The key as it is written in a file.
    pub fn name(self) -> &'static str
        ensures { result.now ≡ key_name self }
    {
        match self {
            Key::Host => "host",
            Key::Server => "server",
            Key::Tries => "tries",
            Key::Listen => "listen",
            Key::Store => "store",
            Key::Default => "default",
            Key::Offset => "offset",
            Key::Rule => "rule",
            Key::Keep => "keep",
            Key::Timeout => "timeout",
            Key::Pause => "pause",
            Key::Hold => "hold",
            Key::KeepConnection => "keep_connection",
            Key::Idle => "idle",
            Key::Log => "log",
            Key::Permits => "permits",
            Key::Metrics => "metrics",
        }
    }

    /// What a value of this key has to be, as the log says it.
    pub fn wanted(self) -> &'static str {
        match self {
            Key::Host => "1 to 64 letters, digits, '.' and '-', in quotes",
            Key::Server | Key::Listen => "a numeric address with a port, in quotes",
            Key::Tries => "a whole number from 1 to 10",
            Key::Store => "'memory' or the path of a file, in quotes",
            Key::Default => "a whole number from 0 to 1000000",
            Key::Offset => "a whole number of minutes from -1439 to 1439",
            Key::Rule => "a zone rule of at most 64 bytes, in quotes, in place of an offset",
            Key::Keep => "a whole number of days from 1 to 366",
            Key::Timeout => "a whole number of milliseconds from 1 to 60000",
            Key::Pause => "a whole number of seconds from 0 to 3600",
            Key::Hold => "a whole number of seconds from 0 to 60",
            Key::KeepConnection => "true or false, without quotes",
            Key::Idle => "a whole number of seconds from 1 to 3600",
            Key::Log => "off, error, warn or info, in quotes",
            Key::Permits | Key::Metrics => "the path of a file, in quotes",
        }
    }
}

impl fmt::Display for Key {
    ghost output = { λ key. Some (key_name key) };

    fn fmt<W: fmt::Write>(&self, f: &mut fmt::Formatter<W>) -> fmt::Result {
        let name = self.name();
        write!(f, "{name}")
    }
}
