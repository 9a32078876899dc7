//! The parts of the program, by which its log lines and its warnings are told apart.

/// A part of the program, as an administrator knows it.
#[derive(Clone, Copy, Debug, PartialEq, Eq)]
pub enum ProgramPart {
    /// The commands that ask servers.
    Commands,
    /// Who connects to a server, and for how long.
    Connections,
    /// Room on the disk, and the reserve.
    Disk,
    /// The filter, and what smtpd is answered.
    Filter,
    /// The ledger's file, and the commands over it.
    Ledger,
    /// The way to a server.
    Link,
    /// The days that are forgotten at night.
    Night,
    /// What hosts and administrators ask of a server.
    Requests,
    /// A server's start and end.
    Server,
    /// Settings and permits.
    Settings,
}

impl ProgramPart {
    /// The part that logs with this target, the path of a module.
    pub fn of_target(target: &str) -> ProgramPart {
        match target {
            "mq_process::settings" | "mq_program::permits" => ProgramPart::Settings,
            "mq_program::caretaker" | "mq_program::reserve" | "mq_program::room" => {
                ProgramPart::Disk
            }
            "mq_program::last_night" | "mq_program::nights" | "mq_program::switching" => {
                ProgramPart::Night
            }
            "mq_program::memory" | "mq_program::metrics" | "mq_program::serving" => {
                ProgramPart::Server
            }
            "mq_remote::measured_log" | "mq_remote::subcommands::filter" => ProgramPart::Filter,
            other => ProgramPart::of_crate(crate_of(other)),
        }
    }

    /// The part of which a crate is.
    fn of_crate(name: &str) -> ProgramPart {
        match name {
            "mq_client" => ProgramPart::Filter,
            "mq_connections" => ProgramPart::Connections,
            "mq_link" => ProgramPart::Link,
            "mq_nights" => ProgramPart::Night,
            "mq_permits_file" | "mq_settings" => ProgramPart::Settings,
            "mq_program" | "mq_store" => ProgramPart::Ledger,
            "mq_watch" => ProgramPart::Requests,
            _ => ProgramPart::Commands,
        }
    }

    /// Its name in log lines and in figures.
    pub fn as_str(self) -> &'static str {
        match self {
            ProgramPart::Commands => "commands",
            ProgramPart::Connections => "connections",
            ProgramPart::Disk => "disk",
            ProgramPart::Filter => "filter",
            ProgramPart::Ledger => "ledger",
            ProgramPart::Link => "link",
            ProgramPart::Night => "night",
            ProgramPart::Requests => "requests",
            ProgramPart::Server => "server",
            ProgramPart::Settings => "settings",
        }
    }
}

/// The crate of a module's path.
fn crate_of(path: &str) -> &str {
    path.split_once("::").map_or(path, |(name, _)| name)
}
