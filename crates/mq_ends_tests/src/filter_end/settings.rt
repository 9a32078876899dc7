//! The settings of both files, and what is printed where they are refused.

mod files;

use crate::filter_end::asserts::{MEMORY, assert_text, printed};
use mq_ledger::Zone;
use mq_request::EscapedText;
use mq_settings::{FilterSettings, ServerSettings, read_filter_settings, read_server_settings};
use std::alloc::Global;
use std::process::Abort;
use std::str;

/// Whose settings a text has.
#[derive(Clone, Copy)]
enum Whose {
    Filter,
    Server,
}

/// The settings in a text, or why they are refused.
fn outcome(rt: &impl Abort, alloc: Global, whose: Whose, text: &[u8]) -> String {
    match whose {
        Whose::Filter => filter_outcome(rt, alloc, text),
        Whose::Server => server_outcome(rt, alloc, text),
    }
}

fn filter_outcome(rt: &impl Abort, alloc: Global, text: &[u8]) -> String {
    match read_filter_settings(alloc, text) {
        Ok(settings) => filter_text(rt, alloc, &settings),
        Err(fault) => printed(rt, alloc, &fault),
    }
}

fn filter_text(rt: &impl Abort, alloc: Global, settings: &FilterSettings) -> String {
    let host = EscapedText(settings.host.as_slice());
    let FilterSettings {
        server,
        tries,
        timeout,
        pause,
        hold,
        log,
        ..
    } = settings;
    format!(in alloc; "{host} {server} {tries} {timeout} {pause} {hold} {log:?}").expect(rt, MEMORY)
}

fn server_outcome(rt: &impl Abort, alloc: Global, text: &[u8]) -> String {
    match read_server_settings(alloc, text) {
        Ok(settings) => server_text(rt, alloc, &settings),
        Err(fault) => printed(rt, alloc, &fault),
    }
}

fn server_text(rt: &impl Abort, alloc: Global, settings: &ServerSettings) -> String {
    let ServerSettings {
        listen,
        store,
        default,
        zone,
        keep,
        timeout,
        log,
        ..
    } = settings;
    let days = zone_text(rt, alloc, zone);
    format!(in alloc; "{listen} {store:?} {default} {days} {keep:?} {timeout} {log:?}").expect(
        rt, MEMORY,
    )
}

/// The rule of a zone, or its minutes east of UTC.
fn zone_text(rt: &impl Abort, alloc: Global, zone: &Zone) -> String {
    match zone.rule() {
        Some(rule) => {
            let text = str::from_utf8(rule).expect(rt, "a text");
            String::from_str(alloc, text).expect(rt, MEMORY)
        }
        None => {
            let minutes = zone.minutes();
            format!(in alloc; "{minutes}").expect(rt, MEMORY)
        }
    }
}

fn assert_outcome(rt: &impl Abort, alloc: Global, whose: Whose, text: &str, wanted: &str) {
    let got = outcome(rt, alloc, whose, text.as_bytes());
    assert_text(rt, &got, wanted, text);
}

/// Texts of settings, what they say in the order of their fields, and how a refusal prints.
const OUTCOMES: &[(Whose, &str, &str)] = &[
    (
        Whose::Filter,
        "host = \"mx1\"\nserver = \"127.0.0.1:7025\"\n",
        "mx1 127.0.0.1:7025 3 2000 0 0 Warn",
    ),
    (Whose::Filter, "", "setting host: missing"),
    (Whose::Filter, "host = \"mx1\"", "setting server: missing"),
    (Whose::Filter, "host = 1", "setting host: bad value"),
    (Whose::Filter, "host = \"mx 1\"", "setting host: bad value"),
    (Whose::Filter, "host = \"\"", "setting host: bad value"),
    (Whose::Filter, "host = ", "settings are not TOML"),
    (
        Whose::Filter,
        "host = \"mx1\"\nserver = \"localhost:7025\"",
        "setting server: bad value",
    ),
    (
        Whose::Filter,
        "host = \"mx1\"\nserver = \"127.0.0.1\"",
        "setting server: bad value",
    ),
    (
        Whose::Filter,
        "host = \"mx1\"\nserver = \"127.0.0.1:7025\"\nhots = 1",
        "setting hots: unknown",
    ),
    (
        Whose::Filter,
        "z = 1\na = 1\nhost = 1",
        "setting a: unknown",
    ),
    (
        Whose::Filter,
        "\"a b\\n\\u00e9\" = 1",
        "setting a\\x20b\\x0a\\xc3\\xa9: unknown",
    ),
    (
        Whose::Filter,
        "host = \"mx1\"\nserver = \"127.0.0.1:7025\"\ntries = 11",
        "setting tries: bad value",
    ),
    (
        Whose::Filter,
        "host = \"mx1\"\nserver = \"[::1]:7025\"\ntries = 0",
        "setting tries: bad value",
    ),
    (
        Whose::Filter,
        "host = \"mx1\"\nserver = \"127.0.0.1:7025\"\ntimeout = 60001\nlog = 1",
        "setting timeout: bad value",
    ),
    (
        Whose::Filter,
        "host = \"mx1\"\nserver = \"127.0.0.1:7025\"\ntries = 10\ntimeout = 60000\nlog = \"debug\"",
        "setting log: bad value",
    ),
    (
        Whose::Filter,
        "host = \"mx1\"\nserver = \"127.0.0.1:7025\"\npause = 3600\nhold = 60",
        "mx1 127.0.0.1:7025 3 2000 3600 60 Warn",
    ),
    (
        Whose::Filter,
        "host = \"mx1\"\nserver = \"127.0.0.1:7025\"\npause = 3601\nhold = 61",
        "setting pause: bad value",
    ),
    (
        Whose::Filter,
        "host = \"mx1\"\nserver = \"127.0.0.1:7025\"\nhold = 61\nlog = 1",
        "setting hold: bad value",
    ),
    (
        Whose::Server,
        "listen = \"[::1]:7025\"\nstore = \"memory\"\ndefault = 1_000_000\noffset = -1439\nlog = \"off\"\n",
        "[::1]:7025 Memory 1000000 -1439 None 2000 Off",
    ),
    (
        Whose::Server,
        "listen = \"[::1]:7025\"\nstore = \"/var/lib/mailquota/ledger\"\ndefault = 0\noffset = 0\n",
        "[::1]:7025 File(\"/var/lib/mailquota/ledger\") 0 0 None 2000 Warn",
    ),
    (Whose::Server, "host = \"mx1\"", "setting host: unknown"),
    (
        Whose::Server,
        "listen = \"127.0.0.1:7025\"",
        "setting store: missing",
    ),
    (
        Whose::Server,
        "listen = \"127.0.0.1:7025\"\nstore = 1",
        "setting store: bad value",
    ),
    (
        Whose::Server,
        "listen = \"127.0.0.1:7025\"\nstore = \"\"",
        "setting store: bad value",
    ),
    (
        Whose::Server,
        "listen = \"127.0.0.1:7025\"\nstore = \"memory\"",
        "setting default: missing",
    ),
    (
        Whose::Server,
        "listen = \"127.0.0.1:7025\"\nstore = \"memory\"\ndefault = 1000001",
        "setting default: bad value",
    ),
    (
        Whose::Server,
        "listen = \"127.0.0.1:7025\"\nstore = \"memory\"\ndefault = 0",
        "setting offset: missing",
    ),
    (
        Whose::Server,
        "listen = \"127.0.0.1:7025\"\nstore = \"memory\"\ndefault = 0\noffset = 1440",
        "setting offset: bad value",
    ),
    (
        Whose::Server,
        "listen = \"[::1]:7025\"\nstore = \"memory\"\ndefault = 0\nrule = \"CET-1CEST,M3.5.0,M10.5.0/3\"\n",
        "[::1]:7025 Memory 0 CET-1CEST,M3.5.0,M10.5.0/3 None 2000 Warn",
    ),
    (
        Whose::Server,
        "listen = \"127.0.0.1:7025\"\nstore = \"memory\"\ndefault = 0\noffset = 0\nrule = \"UTC0\"",
        "setting rule: bad value",
    ),
    (
        Whose::Server,
        "listen = \"127.0.0.1:7025\"\nstore = \"memory\"\ndefault = 0\noffset = 1440\nrule = \"UTC0\"",
        "setting offset: bad value",
    ),
    (
        Whose::Server,
        "listen = \"127.0.0.1:7025\"\nstore = \"memory\"\ndefault = 0\nrule = \"Europe/Berlin\"",
        "setting rule: bad value",
    ),
    (
        Whose::Server,
        "listen = \"127.0.0.1:7025\"\nstore = \"memory\"\ndefault = 0\nrule = 60",
        "setting rule: bad value",
    ),
    (
        Whose::Server,
        "listen = \"[::1]:7025\"\nstore = \"ledger\"\ndefault = 0\noffset = 0\nkeep = 366\n",
        "[::1]:7025 File(\"ledger\") 0 0 Some(366) 2000 Warn",
    ),
    (
        Whose::Server,
        "listen = \"127.0.0.1:7025\"\nstore = \"memory\"\ndefault = 0\noffset = 0\nkeep = 0\ntimeout = 0",
        "setting keep: bad value",
    ),
];

#[test]
fn settings_and_refusals(rt: HostRuntime) {
    for (whose, text, wanted) in OUTCOMES {
        assert_outcome(&rt, rt.alloc(), *whose, text, wanted);
    }
}
