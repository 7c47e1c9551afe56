//! The process's resident memory.
use std::fs::read_to_string;

/// The bytes of a page of memory, the same on each machine that the program is built for.
const PAGE: u64 = 4_096;

/// The file of the process's pages: in all, resident, and more (proc(5)).
const STATM: &str = "/proc/self/statm";

/// The bytes of resident memory; `None` if the system does not say.
pub fn resident_bytes(rt: &HostRuntime) -> Option<u64> {
    let text = read_to_string(rt, STATM).ok()?;
    let pages = text.as_str().split(' ').nth(1)?.parse::<u64>().ok()?;
    Some(pages.saturating_mul(PAGE))
}
