//! The bounds of the fields of requests and replies, which the link's format fixes.

/// The bytes of the longest name of a host.
pub const HOST_LIMIT: u8 = 64;

/// The bytes of the longest login.
pub const LOGIN_LIMIT: u8 = 255;

/// The last run of a host's filter: of 48 bits.
pub const LAST_RUN: u64 = 281_474_976_710_655;

/// The last number of a request or a transaction in its run: of 32 bits.
pub const LAST_ORDINAL: u32 = 4_294_967_295;

/// 1970-01-02T00:00:00Z, in seconds since 1970-01-01T00:00:00Z.
pub const FIRST_MOMENT: u64 = 86_400;

/// 3000-01-01T00:00:00Z, in seconds since 1970-01-01T00:00:00Z.
pub const LAST_MOMENT: u64 = 32_503_680_000;

/// The day number of the last moment, from 1970-01-01 on.
pub const LAST_DAY: u32 = 376_200;

/// The most recipients of one request.
pub const COUNT_LIMIT: u32 = 1_000;

/// The most recipients of a login and day, and the highest limit of them.
pub const AMOUNT_LIMIT: u32 = 1_000_000;

/// The most rows of a page.
pub const ROW_LIMIT: u8 = 100;
