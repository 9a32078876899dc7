//! The sessions and transactions that smtpd reports.

mod fixtures;
mod sessions;
mod smtpd;

use fixtures::{Step, play};
use sessions::{LOGINS, TRANSACTIONS};
use smtpd::SITTINGS;
use std::alloc::Global;
use std::process::Abort;

fn play_all(rt: &impl Abort, alloc: Global, tables: &[&[Step<'_>]]) {
    for steps in tables {
        play(rt, alloc, steps);
    }
}

#[test]
fn logins_of_sessions(rt: HostRuntime) {
    play_all(&rt, rt.alloc(), LOGINS);
}

#[test]
fn transactions_of_sessions(rt: HostRuntime) {
    play_all(&rt, rt.alloc(), TRANSACTIONS);
}

#[test]
fn reports_of_smtpd(rt: HostRuntime) {
    play_all(&rt, rt.alloc(), SITTINGS);
}
