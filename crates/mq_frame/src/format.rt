//! The numbers that the link's format fixes.

/// The bytes of a frame's head, which say the length of its body.
pub const HEAD_BYTES: usize = 2;

// The kinds of requests, each the first byte of a body.
pub const RESERVE: u8 = 0x01;

pub const SETTLE: u8 = 0x02;

pub const RELEASE: u8 = 0x03;

pub const LIMIT: u8 = 0x04;

pub const USAGE: u8 = 0x05;

pub const LIST: u8 = 0x06;

pub const RETIRE: u8 = 0x07;

// The kinds of replies.
pub const GRANTED: u8 = 0x81;

pub const FULL: u8 = 0x82;

pub const SETTLED: u8 = 0x83;

pub const RELEASED: u8 = 0x84;

pub const LIMIT_SET: u8 = 0x85;

pub const OVER: u8 = 0x86;

pub const CLOSED: u8 = 0x87;

pub const MISMATCH: u8 = 0x88;

pub const TOO_MANY: u8 = 0x89;

pub const CONFLICT: u8 = 0x8a;

pub const USAGE_REPLY: u8 = 0x8b;

pub const LIST_REPLY: u8 = 0x8c;

pub const RETRY: u8 = 0x8d;

pub const BAD: u8 = 0x8e;

pub const RETIRED: u8 = 0x8f;

pub const OLD: u8 = 0x90;
