//! Checks of the addresses in settings, before a server listens there.
use std::fmt::Display;
use std::io;
use std::io::ErrorKind;
use std::net::{SocketAddr, TcpListener};
use tc_settings::Settings;

/// What a server does at an address in its settings.
#[derive(Clone, Copy)]
pub enum Deed {
    Listen,
    TellMetrics,
}

impl Deed {
    /// Prints that a server cannot do this at an address, and why.
    pub fn print_refusal<D: Display>(
        self,
        rt: &HostRuntime,
        address: &str,
        why: &D,
    ) -> io::Result<()> {
        match self {
            Deed::Listen => println!(rt; "cannot listen on {address}: {why}"),
            Deed::TellMetrics => println!(rt; "cannot tell metrics on {address}: {why}"),
        }
    }

    /// Reads an address and port. If the text is none, prints so and returns `None`.
    pub fn read_address(self, rt: &HostRuntime, text: &str) -> io::Result<Option<SocketAddr>> {
        match text.parse::<SocketAddr>() {
            Ok(address) => Ok(Some(address)),
            Err(_) => {
                self.print_refusal(rt, text, &"it is no address and port")?;
                Ok(None)
            }
        }
    }

    /// Whether the machine has this address; if not, prints why. Binds another port of the address for a moment, since
    /// a running server may have the port itself, or it may need rights.
    fn is_possible(self, rt: &HostRuntime, text: &str) -> io::Result<bool> {
        let Some(mut address) = self.read_address(rt, text)? else {
            return Ok(false);
        };
        address.set_port(0);
        let Err(error) = TcpListener::bind(rt, address) else {
            return Ok(true);
        };
        if error.kind() != ErrorKind::AddrNotAvailable {
            return Ok(true);
        }
        self.print_refusal(rt, text, &error)?;
        Ok(false)
    }
}

/// Whether the machine has the addresses in the settings; if not, prints why.
pub fn can_listen(rt: &HostRuntime, settings: &Settings) -> io::Result<bool> {
    if !Deed::Listen.is_possible(rt, settings.listen.as_str())? {
        return Ok(false);
    }
    match &settings.metrics {
        Some(metrics) => Deed::TellMetrics.is_possible(rt, metrics.as_str()),
        None => Ok(true),
    }
}
