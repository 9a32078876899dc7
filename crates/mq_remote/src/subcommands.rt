//! The subcommands: each checks its words, makes the link, and hands on its streams.

pub mod filter;
pub mod limit;
pub mod probe;
pub mod report;
pub mod retire;
mod shares;
pub mod stop;
mod stopping;
mod sums;
