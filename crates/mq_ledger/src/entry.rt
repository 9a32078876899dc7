//! An entry of the history.
use mq_request::{Reply, Request};

/// A numbered request and its reply.
#[derive(Debug, Drop)]
pub struct Entry {
    pub request: Request,
    pub reply: Reply,
}
