//! Who may ask what, as a server's settings name the file that lists it.
ghost use Rattle.std.specs.Prelude.{◌≡◌, ◌<◌, None, IfOk, IfSome, IsSome, vec_len};

use crate::fault::ProgramFault;
use log::{Log, error, info};
use mq_permits::Permits;
use mq_permits_file::{FileFault, PermitsFault, read_file, read_permits};
use mq_settings::ServerSettings;
use std::rt::Files;

/// The permits in the file of the settings; none where they name no file. Why it can't be used is
/// logged.
pub fn permits_of_settings<R: Files + AllocGlobal, G: Log>(
    rt: &R,
    log: &G,
    settings: &ServerSettings,
) -> Result<Option<Permits>, ProgramFault>
    ensures none { settings.now.permits ≡ None → IfOk result (λ found. found ≡ None) }
    ensures some { IsSome settings.now.permits → IfOk result IsSome }
    ensures admin { IfOk result (λ found. IfSome found (λ permits. 0 < vec_len permits.admin)) }
{
    match &settings.permits {
        Some(path) => match permits_in(rt, log, path.as_str()) {
            Ok(permits) => Ok(Some(permits)),
            Err(fault) => Err(fault),
        },
        None => Ok(None),
    }
}

/// The permits that the file at a path lists. Why it can't be used is logged.
fn permits_in<R: Files + AllocGlobal, G: Log>(
    rt: &R,
    log: &G,
    path: &str,
) -> Result<Permits, ProgramFault>
    ensures { IfOk result (λ permits. 0 < vec_len permits.admin) }
{
    let text = match read_file(rt, path) {
        Ok(text) => text,
        Err(fault) => return Err(unread(log, path, &fault)),
    };
    match read_permits(rt.alloc(), text.as_slice()) {
        Ok(permits) => {
            let hosts = permits.hosts.len();
            info!(log; "permits {path}: {hosts} hosts");
            Ok(permits)
        }
        Err(fault) => Err(refused(log, path, &fault)),
    }
}

/// Logs why a file isn't read.
fn unread<G: Log>(log: &G, path: &str, fault: &FileFault) -> ProgramFault {
    error!(log; "permits {path}: {fault}");
    match fault {
        FileFault::Memory => ProgramFault::Memory,
        _ => ProgramFault::Permits,
    }
}

/// Logs why the text of a file is refused.
fn refused<G: Log>(log: &G, path: &str, fault: &PermitsFault) -> ProgramFault {
    error!(log; "permits {path}: {fault}");
    match fault {
        PermitsFault::Memory => ProgramFault::Memory,
        _ => ProgramFault::Permits,
    }
}
