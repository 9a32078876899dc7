//! The filter's end: lines, sessions, the client with its loop, and the settings of both programs.

mod asserts;
mod client;
mod faults;
mod line;
mod settings;
mod track;
