//! What a process has of its host's runtime alone.
//!
//! `sqlite` opens a file, and `std` tells whether a stream is a terminal, for no other runtime. So
//! this is the one place but `main` that names it.
ghost use Rattle.std.specs.Prelude.{◌≡◌, [], true, IfOk};
ghost use Rattle.sqlite.specs.FileStore.{view};
ghost use Rattle.sqlite.specs.Files.{file_state, IsOpened};
ghost use Rattle.sqlite.specs.Held.{IsNew as IsUnused};
ghost use Rattle.sqlite.specs.Start.{FindsIn};
ghost use Rattle.sqlite.specs.State.{HasCleanDisk};
ghost use Rattle.sqlite.specs.WalFiles.{image_at};

use sqlite::{Connection, Error, FileFrom, FileStore, Start};
use std::fs::File;
use std::io::IsTerminal;
use std::rt::Files;

/// A runtime that opens database files.
pub trait Databases: Files<File = File> + AllocGlobal {
    /// A connection to the database file at a path. A file that is empty gets a sum at the end of
    /// each page, and one with such sums is refused where one is wrong.
    ///
    /// `start` stands for what the two files, the database and its log, hold before the call.
    fn open_database<S: Start>(
        &self,
        path: &str,
        start: S,
    ) -> Result<Connection<FileStore<FileFrom<S>>>, Error>
        ensures opened { IfOk result (λ c. HasCleanDisk (file_state c) → IsOpened c) }
        ensures found { IfOk result (λ c. HasCleanDisk (file_state c)
            → FindsIn (image_at S.Start) (file_state c)) }
        ensures sums { IfOk result (λ c. HasCleanDisk (file_state c) → (image_at S.Start).db ≡ []
            → (view c.store).has_sums ≡ true) }
        ensures unused { IfOk result IsUnused };
}

impl Databases for HostRuntime {
    fn open_database<S: Start>(
        &self,
        path: &str,
        start: S,
    ) -> Result<Connection<FileStore<FileFrom<S>>>, Error> {
        match Connection::open_from(self, path, true, start) {
            Ok(connection) => Ok(connection),
            Err((cause, _)) => Err(cause),
        }
    }
}

/// A runtime that tells whether somebody may wait at a terminal.
pub trait Terminals {
    /// Whether standard output is a terminal.
    fn has_output_on_terminal(&self) -> bool;

    /// Whether standard error is a terminal.
    fn has_errors_on_terminal(&self) -> bool;
}

impl Terminals for HostRuntime {
    fn has_output_on_terminal(&self) -> bool {
        self.stdout().is_terminal()
    }

    fn has_errors_on_terminal(&self) -> bool {
        self.stderr().is_terminal()
    }
}
