//! The client, a link and a ledger, over losses, repeats and delays.

mod lossy;
mod rows;
mod schedules;
mod scripted;
mod scripts;
mod senders;
mod usage;
