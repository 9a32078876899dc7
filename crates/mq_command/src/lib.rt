//! What the subcommands of an administrator do, over any link and output.
//!
//! [`run_limit`], [`run_retire`] and [`run_report`] ask the server and print what comes of it; the
//! result is the exit status. From `mq_remote/src/subcommands/report.rt`:
//!
//!     ReportedLogins::One(login) => run_report(alloc, link, day, Some(login), output, errors),
//!
//! It stands on `mq_request`, `mq_stream`, `mq_frame`, `mq_ledger`, `mq_dates` and `mq_link`: it
//! knows requests, any link, the days of a zone and their dates, and neither sockets, files nor the
//! words of a command line. Begin with `ask.rt`, one question, and `report.rt`; their definitions are
//! `specs/Asking.antt` and `specs/Report.antt`. `printed.rt` reads back a login that a report
//! printed.
#![tactic(auto)]

mod allow;
mod ask;
mod day;
mod errors;
mod form;
mod heading;
mod hold;
mod later;
pub mod laws;
mod listed;
mod look_back;
mod lower;
mod note;
mod order;
mod outcome;
mod output;
mod printed;
mod probe;
mod report;
mod restore;
mod resume;
mod share;
mod stop;
mod stop_end;
mod telling;
mod totals;
mod usage;

pub use allow::{AllowFault, Setter};
pub use ask::{AskFault, NoAnswer, TRIES};
pub use day::run_day;
pub use errors::{Errors, ServerErrors};
pub use form::{Form, print_day, print_status, print_taken};
pub use heading::{print_heading, say_undone};
pub use listed::{json_of_sound, json_of_wrong, push_json_limit};
pub use note::note_of;
pub use order::{NUMBERS, OrderFault, run_fresh, run_limit, run_retire};
pub use outcome::{SetEnd, print_sum, run_fresh_at, run_limit_at};
pub use output::{OutputFault, write_whole};
pub use printed::{is_login_text, login_of_text, login_text};
pub use probe::{HostFault, ProbeEnd, run_check, run_host_probe, run_probe};
pub use report::{ReportFault, print_columns, run_report, run_top};
pub use restore::run_restore;
pub use resume::run_resume;
pub use share::{ask_default, share_of};
pub use stop::{SentLately, StopOrder, has_sent, run_stop};
pub use stop_end::StopEnd;
pub use totals::{ReportOrder, ReportedLogins, run_totals};
