//! The numbers of descriptors that the process has open and may open.
use std::fs::{read_dir, read_to_string};
use tc_net::Descriptors;

/// The folder in which Linux has an entry for each open descriptor (proc(5)).
const OPEN: &str = "/proc/self/fd";

/// The file of the process's limits, one a line: a name, the soft limit, and more (proc(5)).
const LIMITS: &str = "/proc/self/limits";

/// The name of the limit on descriptors in that file.
const LIMIT: &str = "Max open files";

/// The number of open descriptors, without the one that reads the folder; `None` if the system does not say.
fn count_open(rt: &HostRuntime) -> Option<u64> {
    let mut open = 0u64;
    for entry in read_dir(rt, OPEN).ok()? {
        if entry.is_err() {
            return None;
        }
        open = open.saturating_add(1);
    }
    open.checked_sub(1)
}

/// The number of descriptors that may be open; `None` if the system does not say.
pub fn allowed_descriptors(rt: &HostRuntime) -> Option<u64> {
    let text = read_to_string(rt, LIMITS).ok()?;
    for line in text.as_str().lines() {
        if let Some(limits) = line.strip_prefix(LIMIT) {
            return limits.split_whitespace().next()?.parse::<u64>().ok();
        }
    }
    None
}

/// Both numbers; `None` if the system does not say.
pub fn descriptors(rt: &HostRuntime) -> Option<Descriptors> {
    Some(Descriptors {
        open: count_open(rt)?,
        allowed: allowed_descriptors(rt)?,
    })
}
