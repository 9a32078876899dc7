//! The lines between smtpd and a filter.

mod feed;
mod lines;
mod results;
