//! What the subcommands have in common before they ask a server or open a ledger: what each is
//! given, as types, their settings, the clock, the words checked, the link, and whether a server
//! answers.
//!
//! `mq_words` makes an [`Arguments`] of the words of a command line, and `mq_remote` and
//! `mq_program` do what it asks for: so a change of the words proves neither again. Each fault here
//! is a [`ProcessFault`], which has its exit status. From `mq_remote/src/subcommands/limit.rt`:
//!
//!     let words = given.servers.as_slice();
//!     checked(rt, given.host, given.login, words)?;
//!
//! It stands on `mq_request`, `mq_ledger`, `mq_dates`, `mq_settings`, `mq_servers`, `mq_link`,
//! `mq_metrics` and `mq_command`. Begin with `arguments.rt`, `settings.rt` and `asking.rt`;
//! `specs/Arguments.antt` has the ranges that `mq_words` proves, `specs/Refusals.antt` says which
//! words are refused, and in which order, and `specs/Whom.antt` whom a command asks.
#![tactic(auto)]

mod addresses;
mod arguments;
mod asking;
mod clock;
mod console;
mod dialing;
mod fault;
mod form;
mod moment;
mod printed_day;
mod probing;
mod refusing;
mod servers;
mod settings;
mod today;
mod whom;

pub use addresses::Servers;
pub use arguments::{
    Arguments, AuditArguments, ConnectionsArgument, DayArgument, DayArguments, FILTER_SETTINGS,
    FilterArguments, ForgetArguments, ForgetWords, InitArguments, LimitArgument, LimitArguments,
    LimitsArguments, LoginArgument, OutputArgument, ProbeArguments, ReplayArguments,
    ReportArguments, ResumeArguments, RetireArguments, SERVER_SETTINGS, ServerArguments,
    StatusArguments, StopArguments,
};
pub use asking::{
    TIMEOUT, address_of, checked, first_id, link_to, login_of, names_login, refused_login,
    tell_note,
};
pub use clock::{WallClock, elapsed, run_number};
pub use console::Console;
pub use dialing::{Dial, Dialer};
pub use fault::ProcessFault;
pub use form::form_of;
pub use moment::moment_or_now;
pub use printed_day::day;
pub use probing::{Question, ask_once, ask_status, probe, probe_in_json};
pub use refusing::{end_process, refuse};
pub use servers::{ask_each, ask_in_turn, check_addresses, tell_server};
pub use settings::{filter_settings, server_settings};
pub use today::{day_named, day_to_stop};
pub use whom::{filter_settings_in_place, found_servers, servers_in_place, servers_or, texts_of};
