//! How an address is spelled.
ghost use Rattle.std.specs.Prelude.{◌≡◌};
ghost use Rattle.std.specs.Net.Addr.{MatchIp, IsCanonicalOf};
ghost use Rattle.std.specs.Net.Socket.{socket_ip, socket_port};

use std::net::SocketAddr;

/// Returns the address and port without a scope. An IPv4-mapped IPv6 address, such as
/// `::ffff:10.0.0.7`, becomes the IPv4 address.
pub fn canonical(addr: SocketAddr) -> SocketAddr
    ensures ip { MatchIp (socket_ip addr) (λ _. socket_ip result ≡ socket_ip addr)
        (λ ip. IsCanonicalOf ip (socket_ip result)) }
    ensures port { socket_port result ≡ socket_port addr }
{
    SocketAddr::new(addr.ip().to_canonical(), addr.port())
}
