//! Whether a start over a ledger's file fits into the memory that its process may have.
ghost use Rattle.std.specs.Prelude.{◌≡◌, ◌↔◌, ◌<◌, ◌^◌, IsTrue};
ghost use Rattle.std.specs.Option.{SomeIff};
ghost use Rattle.std.specs.Str.{trim_end};
ghost use Rattle.std.specs.Str.Parse.{IsNumeral, digits_value, without_leading_plus};
ghost use Rattle.mq_program.specs.Memory.{MayNotFit, megabytes_over};

use log::{Log, warn};
use std::fs;
use std::rt::Files;

/// Which group of the system's a process is in.
const GROUP: &str = "/proc/self/cgroup";

/// The megabytes that a start takes at most over a file of so many bytes, by the last figures:
/// three times as many, and 14 that a server has without a ledger.
pub fn megabytes_over(bytes: u64) -> u64
    ensures { result ≡ megabytes_over bytes }
{
    bytes / 333_333 + 14
}

/// Whether a start over a file of so many bytes may take more memory than so many bytes.
fn may_not_fit(bytes: u64, limit: u64) -> bool
    ensures { IsTrue result ↔ MayNotFit bytes limit }
{
    limit / 1_000_000 < megabytes_over(bytes)
}

/// How many bytes of memory a group's processes may have, by its `memory.max`: no number where
/// there is no limit.
fn limit_in(text: &str) -> Option<u64>
    ensures { SomeIff result (IsNumeral 10 (without_leading_plus (trim_end text.now))
        × (digits_value 10 (without_leading_plus (trim_end text.now)) < 2 ^ 64))
        (digits_value 10 (without_leading_plus (trim_end text.now))) }
{
    text.trim_end().parse::<u64>().ok()
}

/// The group of a process in a system that has but one hierarchy of them, by its `cgroup`.
fn group_in(text: &str) -> Option<&str> {
    text.strip_prefix("0::")?.strip_suffix('\n')
}

/// How many bytes of memory this process may have, where its own group has a limit.
fn memory_limit<R: Files + AllocGlobal>(rt: &R) -> Option<u64> {
    let groups = fs::read_to_string(rt, GROUP).ok()?;
    let group = group_in(groups.as_str())?;
    let path = format!(in rt.alloc(); "/sys/fs/cgroup{group}/memory.max").ok()?;
    let limit = fs::read_to_string(rt, path.as_str()).ok()?;
    limit_in(limit.as_str())
}

/// Warns that a start over the file at a path may take more memory than this process may have: the
/// system then kills it, and nothing else would say why.
pub fn warn_of_memory<R: Files + AllocGlobal, G: Log>(rt: &R, log: &G, path: &str) {
    let Ok(found) = fs::metadata(rt, path) else {
        return;
    };
    let Some(limit) = memory_limit(rt) else {
        return;
    };
    let bytes = found.len();
    if may_not_fit(bytes, limit) {
        let most = megabytes_over(bytes);
        warn!(
            log;
            "{path}: a start takes up to about {most} MB, and this process may have {limit} bytes; if it is killed, set MemoryMax={most}M"
        );
    }
}
