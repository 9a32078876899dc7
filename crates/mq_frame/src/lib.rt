//! Requests and replies as bytes, and the frames in which they travel.
//!
//! A request or reply in range has one spelling as a body: [`encode_request`], [`decode_request`]
//! and their like go both ways. A [`FrameFeed`] gives the bodies of a stream that comes in pieces.
//! From `mq_server/src/answer.rt`:
//!
//!     match decode_request(alloc, body) {
//!         Ok(request) => apply(&request, ledger),
//!         Err(DecodeFault::Bad) => Ok(None),
//!         Err(DecodeFault::Memory) => Err(ServeFault::Memory),
//!     }
//!
//! It stands on `mq_request`, and doesn't know what a request does. Begin with
//! `specs/Spelling.antt`, the bytes of each kind; for streams with `specs/Feed.antt` and `feed.rt`.
//! docs/FRAMES.md has the format.
#![tactic(auto)]

mod borrowed;
mod decode;
mod encode;
mod feed;
mod fields;
pub mod format;
pub mod laws;
mod page;
mod reply_parts;
mod request_parts;

pub use borrowed::read_reply;
pub use decode::{DecodeFault, decode_reply, decode_request};
pub use encode::{encode_reply, encode_request};
pub use feed::{FrameFault, FrameFeed, REPLY_LIMIT, REQUEST_LIMIT};
pub use fields::IdParts;
pub use reply_parts::ReplyParts;
