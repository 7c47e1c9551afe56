//! The addresses that a server listens on.
ghost use Rattle.std.specs.Prelude.{◌≡◌, IfOk};

use std::alloc::Global;
use std::marker::Model;
use tc_item::NoMemory;

/// An address and a port to listen on, as the settings have them. Any text is an `Address`: only
/// listening shows whether it is valid.
#[derive(Drop)]
pub struct Address {
    text: String,
}

impl Model for Address {
    ghost use Rattle.std.specs.Prelude.{ℕ, List, string_bytes};

    ghost Value = { List ℕ };

    ghost view = { λ a. string_bytes a.text };
}

impl Address {
    /// Copies the text.
    pub fn copy(alloc: Global, text: &str) -> Result<Address, NoMemory>
        ensures { IfOk result (λ address. address ≡ text.now) }
    {
        let text = String::from_str(alloc, text)?;
        Ok(Address { text })
    }

    /// Returns the text.
    pub fn as_str(&self) -> &str
        ensures { result.now ≡ self.now }
    {
        self.text.as_str()
    }
}
