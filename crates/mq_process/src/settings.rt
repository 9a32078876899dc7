//! The settings of the filter and of the server, read from their files.
ghost use Rattle.std.specs.Prelude.{◌≡◌, IfErr, IfOk, IfSome, Err, Ok};
ghost use Rattle.mq_settings.specs.Files.{IsText};
ghost use Rattle.mq_process.specs.Settings.{AreInRange, CanAsk, IsFileFault, IsServersFault};
ghost use Rattle.mq_process.specs.Settings.{ReadsFilter};
ghost use Rattle.mq_process.specs.Settings.{ReadsServer, ReadsServers, RefusesFilter};
ghost use Rattle.mq_process.specs.Settings.{RefusesServer, SpellsFilter, SpellsServer};
ghost use Rattle.mq_servers.specs.Lists.{ListsServers};

use crate::console::Console;
use crate::fault::ProcessFault;
use log::{LevelFilter, Logged, error};
use mq_servers::read_servers;
use mq_settings::{
    FileFault, FilterSettings, Place, ServerSettings, SettingsFault, read_file,
    read_filter_settings, read_server_settings,
};
use std::fs::File;
use std::io::ErrorKind;
use std::net::SocketAddr;
use std::rt::Files;

/// Logs why a file of settings can't be used, and gives it back. No level is set before the file is
/// read.
fn logged_of<R: Eprint>(rt: &R, file: &str, fault: ProcessFault) -> ProcessFault
    ensures { result ≡ fault }
{
    let logged = Logged::new(rt, LevelFilter::Error, Console(rt));
    match &fault {
        ProcessFault::File(FileFault::Unreadable(cause)) => error!(logged; "{file}: {cause}"),
        ProcessFault::Settings(SettingsFault::Text(flaw)) => error!(logged; "{file}: {flaw}"),
        ProcessFault::Settings(SettingsFault::Address(key, flaw)) => {
            error!(logged; "{file}: setting {key}: {flaw}");
        }
        ProcessFault::Settings(SettingsFault::Bad(key)) => {
            let wanted = key.wanted();
            error!(logged; "{file}: {fault}, it has to be {wanted}");
        }
        _ => error!(logged; "{file}: {fault}"),
    }
    fault
}

/// All that a file of settings gives. Why it can't be read is logged.
fn text_of<R: Files + Eprint + AllocGlobal>(rt: &R, file: &str) -> Result<Vec<u8>, ProcessFault>
    ensures text { IfOk result (λ text. (opened : R.File)
        × IsText (R.File.remaining opened) text.items) }
    ensures fault { IfErr result IsFileFault }
{
    match read_file(rt, file) {
        Ok(text) => Ok(text),
        Err(fault) => Err(logged_of(rt, file, ProcessFault::File(fault))),
    }
}

/// All that a file of settings gives, or nothing where there is no such file. Why another one can't
/// be read is logged.
fn text_if_there<R: Files + Eprint + AllocGlobal>(
    rt: &R,
    file: &str,
) -> Result<Option<Vec<u8>>, ProcessFault>
    ensures text { IfOk result (λ found. IfSome found (λ text. (opened : R.File)
        × IsText (R.File.remaining opened) text.items)) }
    ensures fault { IfErr result IsFileFault }
{
    match read_file(rt, file) {
        Ok(text) => Ok(Some(text)),
        Err(fault) => {
            if is_missing(&fault) {
                return Ok(None);
            }
            Err(logged_of(rt, file, ProcessFault::File(fault)))
        }
    }
}

/// Whether there is no such file.
fn is_missing(fault: &FileFault) -> bool {
    match fault {
        FileFault::Unreadable(cause) => matches!(cause.kind(), ErrorKind::NotFound),
        _ => false,
    }
}

/// The filter's settings that a text spells, which a file of this name has. Why they can't be used
/// is logged.
fn filter_settings_of<R: Eprint + AllocGlobal>(
    rt: &R,
    file: &str,
    text: &[u8],
) -> Result<FilterSettings, ProcessFault>
    ensures settings { IfOk result (SpellsFilter text.now) }
    ensures in_range { IfOk result CanAsk }
    ensures refusal { IfErr result (RefusesFilter text.now) }
{
    match read_filter_settings(rt.alloc(), text) {
        Ok(settings) => Ok(settings),
        Err(fault) => Err(logged_of(rt, file, ProcessFault::Settings(fault))),
    }
}

/// The filter's settings in a file: those that all of it spells. Why they can't be used is logged.
pub fn filter_settings<R: Files + Eprint + AllocGlobal>(
    rt: &R,
    file: &str,
) -> Result<FilterSettings, ProcessFault>
    ensures reads { ReadsFilter R.File.remaining result }
    ensures in_range { IfOk result CanAsk }
{
    match text_of(rt, file) {
        Ok(text) => filter_settings_of(rt, file, text.as_slice()),
        Err(fault) => Err(fault),
    }
}

/// The server's settings that a text spells, which a file of this name has. Why they can't be used
/// is logged.
fn server_settings_of<R: Eprint + AllocGlobal>(
    rt: &R,
    file: &str,
    text: &[u8],
) -> Result<ServerSettings, ProcessFault>
    ensures settings { IfOk result (SpellsServer text.now) }
    ensures in_range { IfOk result AreInRange }
    ensures refusal { IfErr result (RefusesServer text.now) }
{
    match read_server_settings(rt.alloc(), text) {
        Ok(settings) => Ok(settings),
        Err(fault) => Err(logged_of(rt, file, ProcessFault::Settings(fault))),
    }
}

/// The server's settings in a file: those that all of it spells. Why they can't be used is logged.
pub fn server_settings<R: Files + Eprint + AllocGlobal>(
    rt: &R,
    file: &str,
) -> Result<ServerSettings, ProcessFault>
    ensures reads { ReadsServer R.File.remaining result }
    ensures in_range { IfOk result AreInRange }
{
    match text_of(rt, file) {
        Ok(text) => server_settings_of(rt, file, text.as_slice()),
        Err(fault) => Err(fault),
    }
}

/// The server's settings in a file, if there is such a file. Why they can't be used is logged.
pub fn server_settings_if_there<R: Files + Eprint + AllocGlobal>(
    rt: &R,
    file: &str,
) -> Result<Option<ServerSettings>, ProcessFault>
    ensures reads { IfOk result (λ found. IfSome found (λ settings. ReadsServer R.File.remaining
        (Ok settings))) }
    ensures fault { IfErr result (λ fault. ReadsServer R.File.remaining (Err fault)) }
{
    match text_if_there(rt, file) {
        Ok(None) => Ok(None),
        Ok(Some(text)) => match server_settings_of(rt, file, text.as_slice()) {
            Ok(settings) => Ok(Some(settings)),
            Err(fault) => Err(fault),
        },
        Err(fault) => Err(fault),
    }
}

/// The filter's settings in a file, if there is such a file. Why they can't be used is logged.
pub fn filter_settings_if_there<R: Files + Eprint + AllocGlobal>(
    rt: &R,
    file: &str,
) -> Result<Option<FilterSettings>, ProcessFault>
    ensures reads { IfOk result (λ found. IfSome found (λ settings. ReadsFilter R.File.remaining
        (Ok settings))) }
    ensures in_range { IfOk result (λ found. IfSome found CanAsk) }
    ensures fault { IfErr result (λ fault. ReadsFilter R.File.remaining (Err fault)) }
{
    match text_if_there(rt, file) {
        Ok(None) => Ok(None),
        Ok(Some(text)) => match filter_settings_of(rt, file, text.as_slice()) {
            Ok(settings) => Ok(Some(settings)),
            Err(fault) => Err(fault),
        },
        Err(fault) => Err(fault),
    }
}

/// The servers that a text lists, which a file of this name has. Why they can't be used is logged.
fn servers_of<R: Eprint + AllocGlobal>(
    rt: &R,
    file: &str,
    text: &[u8],
) -> Result<Vec<SocketAddr>, ProcessFault>
    ensures servers { IfOk result (λ servers. ListsServers text.now servers.items) }
    ensures refusal { IfErr result IsServersFault }
{
    match read_servers(rt.alloc(), text) {
        Ok(servers) => Ok(servers),
        Err(fault) => Err(logged_of(rt, file, ProcessFault::Servers(fault))),
    }
}

/// The servers that a file lists, if there is such a file. Why they can't be used is logged.
pub fn servers_if_there<R: Files + Eprint + AllocGlobal>(
    rt: &R,
    file: &str,
) -> Result<Option<Vec<SocketAddr>>, ProcessFault>
    ensures reads { IfOk result (λ found. IfSome found (λ servers. ReadsServers R.File.remaining
        (Ok servers.items))) }
    ensures fault { IfErr result (λ fault. ReadsServers R.File.remaining (Err fault)) }
{
    match text_if_there(rt, file) {
        Ok(None) => Ok(None),
        Ok(Some(text)) => match servers_of(rt, file, text.as_slice()) {
            Ok(servers) => Ok(Some(servers)),
            Err(fault) => Err(fault),
        },
        Err(fault) => Err(fault),
    }
}

/// Whether the server of settings can run on this machine: a ledger of memory may be anywhere, and
/// one in a file is where that file is.
pub fn can_run_here<R: Files>(rt: &R, settings: &ServerSettings) -> bool {
    let Place::File(file) = &settings.store else {
        return true;
    };
    match File::open(rt, file.as_str()) {
        Ok(_) => true,
        // (one that may not be read is there)
        Err(cause) => cause.kind() != ErrorKind::NotFound,
    }
}
