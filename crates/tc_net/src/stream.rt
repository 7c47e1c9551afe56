//! The bytes of a connection, as a socket reads and writes them.
ghost use Rattle.std.specs.Prelude.{◌≡◌, ℕ, List, Option, None};
ghost use Rattle.std.specs.Io.{ReadsAtMost, WritesAtMost};
ghost use Rattle.std.specs.Io.KnownBytes.{WriteAppends};
ghost use Rattle.std.specs.Io.Slices.{io_slices_bytes};

use mio::net::TcpStream;
use mio::{Interest, Registry, Token};
use std::io::{self, IoSlice, Read, Write};

/// Where a connection's bytes come from and go to: a socket of the system, about whose bytes no
/// clause says anything, or a stream that knows its bytes. A call never waits: if it would, it
/// fails with `WouldBlock`.
pub trait Stream: Drop {
    /// All bytes that it gave; `None` for one that doesn't know them.
    ghost gave: { Self → Option (List ℕ) };

    /// All bytes that it took; `None` for one that doesn't know them.
    ghost took: { Self → Option (List ℕ) };

    /// Reads the next bytes into the front of `into` and returns how many; 0 if no more come.
    fn receive(&mut self, into: &mut [u8]) -> io::Result<usize>
        ensures within { ReadsAtMost result into.new }
        ensures gives { WriteAppends (gave self.old) (gave self.new) result into.new }
        ensures takes_nothing { took self.new ≡ took self.old };

    /// Writes the first bytes of `from` and returns how many.
    fn send(&mut self, from: &[u8]) -> io::Result<usize>
        ensures within { WritesAtMost result from.now }
        ensures takes { WriteAppends (took self.old) (took self.new) result from.now }
        ensures gives_nothing { gave self.new ≡ gave self.old };

    /// Writes the first bytes of the slices, one slice after another, and returns how many.
    fn send_slices(&mut self, from: &[IoSlice<'_>]) -> io::Result<usize>
        ensures within { WritesAtMost result (io_slices_bytes from.now) }
        ensures takes { WriteAppends (took self.old) (took self.new) result
            (io_slices_bytes from.now) }
        ensures gives_nothing { gave self.new ≡ gave self.old };

    /// Registers it with a poll under this token, for reads and writes. Returns whether that
    /// succeeded.
    fn register(&mut self, registry: &Registry, token: Token) -> bool
        ensures gives_nothing { gave self.new ≡ gave self.old }
        ensures takes_nothing { took self.new ≡ took self.old };

    /// Removes it from its poll.
    fn deregister(&mut self, registry: &Registry)
        ensures gives_nothing { gave self.new ≡ gave self.old }
        ensures takes_nothing { took self.new ≡ took self.old };
}

impl Stream for TcpStream {
    ghost gave = { λ _. None };

    ghost took = { λ _. None };

    fn receive(&mut self, into: &mut [u8]) -> io::Result<usize> {
        self.read(into)
    }

    fn send(&mut self, from: &[u8]) -> io::Result<usize> {
        self.write(from)
    }

    fn send_slices(&mut self, from: &[IoSlice<'_>]) -> io::Result<usize> {
        // The socket's own method makes one system call; `Write`'s would make one for each slice.
        TcpStream::write_vectored(self, from)
    }

    fn register(&mut self, registry: &Registry, token: Token) -> bool {
        let both = Interest::READABLE | Interest::WRITABLE;
        registry.register(self, token, both).is_ok()
    }

    fn deregister(&mut self, registry: &Registry) {
        let _ = registry.deregister(self);
    }
}
