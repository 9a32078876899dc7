//! Frames and bodies from the format's worked examples, and what no contract says.

mod devices;
mod feed;
mod replies;
mod requests;
mod values;
