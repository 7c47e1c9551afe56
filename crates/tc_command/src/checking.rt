//! The command `check`.
use crate::addresses::can_listen;
use crate::preparing::{Unready, read_text};
use crate::reporting::{report_cannot_listen, report_unprinted, report_unready};
use std::io;
use tc_asking::{Checking, Source};
use tc_checking::{ItemSize, print_settings, warn, warn_of_mode};
use tc_settings::Settings;

/// Prints the settings' summary for items of this size, or why no server can listen. Returns whether one can.
fn print_checked(rt: &HostRuntime, settings: &Settings, size: ItemSize) -> io::Result<bool> {
    if !can_listen(rt, settings)? {
        return Ok(false);
    }
    print_settings(rt, settings, size)?;
    Ok(true)
}

/// Warns if others can read the settings file, and of unknown fields in its text.
fn warn_of_file(rt: &HostRuntime, source: &Source, text: &str) -> io::Result<()> {
    if let Source::File(path) = source {
        warn_of_mode(rt, path.as_str())?;
    }
    warn(rt, text)
}

/// Checks the settings file, and prints warnings and the summary. Returns whether a server can listen.
fn check(rt: &HostRuntime, source: &Source, size: ItemSize) -> Result<io::Result<bool>, Unready> {
    let text = read_text(rt, source)?;
    if let Err(error) = warn_of_file(rt, source, text.as_str()) {
        return Ok(Err(error));
    }
    let settings = Settings::from_toml(rt.alloc(), text.as_str())?;
    Ok(print_checked(rt, &settings, size))
}

/// Does the check that is asked for. Returns the exit status.
pub fn check_file(rt: &HostRuntime, checking: Checking) -> io::Result<u8> {
    let Checking { config, key, data } = checking;
    let size = ItemSize {
        key: u64::from(key),
        data: u64::from(data),
    };
    match check(rt, &Source::File(config), size) {
        Ok(Ok(true)) => Ok(0),
        Ok(Ok(false)) => report_cannot_listen(rt),
        Ok(Err(error)) => report_unprinted(rt, error),
        Err(unready) => report_unready(rt, unready),
    }
}
