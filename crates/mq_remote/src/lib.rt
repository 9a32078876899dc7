//! The subcommands that ask quota servers: the filter, and `limit`, `stop`, `resume`, `retire`,
//! `report` and `status --server`.
//!
//! Each checks its words, makes the link to the server, and hands it with its streams to
//! `mq_client` or `mq_command`, which decide. From `mailquota/src/asking.rt`:
//!
//!     end_process(limit(rt, dial, given, errors), errors)
//!
//! It stands on `mq_request`, `mq_dates`, `mq_stream`, `mq_frame`, `mq_link`, `mq_client`,
//! `mq_metrics`, `mq_settings`, `mq_command` and `mq_process`, and knows no store, so that it is
//! proved while the tables of the ledger are. Begin with `subcommands/filter.rt`, where the filter is
//! put together.
#![tactic(auto)]

mod fault;
mod measured_link;
mod measured_log;
mod seconds;
mod subcommands;

pub use fault::{FilterEnd, end_filter};
pub use subcommands::filter::filter;
pub use subcommands::limit::limit;
pub use subcommands::probe::probe_servers;
pub use subcommands::report::report;
pub use subcommands::retire::retire;
pub use subcommands::stop::{resume, stop};
