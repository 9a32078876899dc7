//! The version that `--version` prints.

/// `make build` adds the commit that the tree stands at.
pub const VERSION: &str = "1.1.0";
