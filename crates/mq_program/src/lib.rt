//! The subcommands over a ledger: `server`, `init`, `status`, `limits`, `audit`, `forget` and
//! `replay`.
//!
//! Each opens the ledger that it needs, and gives the exit status, or a [`ProgramFault`]. From
//! `mailquota/src/subcommand.rt`:
//!
//!     Arguments::Server(given) => end_program(server(rt, given, VERSION, start), errors),
//!
//! Those that need no ledger, the filter among them, are `mq_remote`'s. It stands on `mq_request`,
//! `mq_permits`, `mq_permits_file`, `mq_stream`, `mq_frame`, `mq_ledger`, `mq_chore`, `mq_forget`,
//! `mq_rows`, `mq_tables`, `mq_server`, `mq_settings`, `mq_connections`, `mq_watch`, `mq_command`,
//! `mq_replay`, `mq_process`, `mq_store`, `mq_nights` and `mq_metrics`. It knows no words of the
//! command line, and decides nothing by itself. Begin with `serving.rt`, where the server is put
//! together, then `store.rt`, then `nights.rt`.
#![tactic(auto)]

mod auditing;
mod caretaker;
mod describing;
mod elapsed_time;
mod fault;
mod forgetting;
mod host;
mod last_night;
mod listing;
mod making;
mod memory;
mod metrics;
mod nights;
mod permits;
mod probing;
mod progress;
mod refusal;
mod replaying;
mod reserve;
mod room;
mod serving;
mod store;
mod switching;

pub use auditing::{audit, audit_ledger};
pub use fault::{ProgramFault, end_program, or_memory};
pub use forgetting::{carry_over, forget};
pub use host::{Databases, Terminals};
pub use listing::{limits, list_limits};
pub use making::init;
pub use probing::status;
pub use replaying::{replay, run_replay};
pub use serving::{listen, server};
