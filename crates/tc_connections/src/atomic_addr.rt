//! A socket address that threads share.
use crate::address::canonical;
use std::net::{IpAddr, Ipv6Addr, SocketAddr};
use std::sync::atomic::AtomicU64;
use std::sync::atomic::Ordering::SeqCst;

/// An address and a port in words, an IPv4 address as its IPv4-mapped IPv6 address. `load` returns
/// it in `canonical` spelling. A load during a store may mix parts of both addresses.
#[derive(Drop)]
pub(crate) struct AtomicAddr {
    /// The first four of its eight segments, and the last four.
    high: AtomicU64,
    low: AtomicU64,
    port: AtomicU64,
}

/// Joins segments of an address, the first in the highest bits.
fn join(segments: &[u16]) -> u64 {
    let mut bits = 0u64;
    for segment in segments {
        bits = bits << 16 | u64::from(*segment);
    }
    bits
}

impl AtomicAddr {
    /// Makes the address `[::]:0`, which is none.
    pub(crate) fn new() -> AtomicAddr {
        AtomicAddr {
            high: AtomicU64::new(0),
            low: AtomicU64::new(0),
            port: AtomicU64::new(0),
        }
    }

    pub(crate) fn store(&self, addr: SocketAddr) {
        let segments = match addr.ip() {
            IpAddr::V4(ip) => ip.to_ipv6_mapped().segments(),
            IpAddr::V6(ip) => ip.segments(),
        };
        self.high.store(join(&segments[..4]), SeqCst);
        self.low.store(join(&segments[4..]), SeqCst);
        self.port.store(u64::from(addr.port()), SeqCst);
    }

    pub(crate) fn load(&self) -> SocketAddr {
        let high = u128::from(self.high.load(SeqCst));
        let bits = high << 64 | u128::from(self.low.load(SeqCst));
        let port = self.port.load(SeqCst) % 65_536;
        let ip = IpAddr::V6(Ipv6Addr::from_bits(bits));
        canonical(SocketAddr::new(ip, port as u16))
    }
}
