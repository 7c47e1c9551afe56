//! Warnings of unknown fields in settings, and of a settings file that others can read.
use std::os::unix::fs::PermissionsExt;
use std::{fs, io};
use tc_settings::{is_field, is_metrics_field, is_user_field};
use toml::{Table, Value};

/// The bit of a file's mode that lets others than its owner and its group read it.
const OTHERS_READ: u32 = 0o004;

/// The bits of a file's mode that say who may do what.
const RIGHTS: u32 = 0o777;

/// Warns if others can read the settings file, which has the tokens. Prints nothing if the system does not say the
/// file's mode. The error is standard output's.
pub fn warn_of_mode(rt: &HostRuntime, path: &str) -> io::Result<()> {
    let Ok(metadata) = fs::metadata(rt, path) else {
        return Ok(());
    };
    let mode = metadata.permissions().mode() & RIGHTS;
    if mode & OTHERS_READ == 0 {
        return Ok(());
    }
    println!(rt;
        "warning: others can read the settings, and the tokens in them: their file's mode is {mode:o}"
    )
}

/// Warns of each unknown field in a user's table. Users count from 1.
fn warn_of_user(rt: &HostRuntime, user: usize, table: &Table) -> io::Result<()> {
    for key in table.keys() {
        if !is_user_field(key.as_str()) {
            println!(rt; "warning: `{key}` of user {user} is no field, and is passed over")?;
        }
    }
    Ok(())
}

/// Warns of each unknown field at the top of the settings.
fn warn_of_table(rt: &HostRuntime, table: &Table) -> io::Result<()> {
    for key in table.keys() {
        if !is_field(key.as_str()) {
            println!(rt; "warning: `{key}` is no field, and is passed over")?;
        }
    }
    Ok(())
}

/// Warns of each unknown field in the table `metrics`.
fn warn_of_metrics(rt: &HostRuntime, table: &Table) -> io::Result<()> {
    for key in table.keys() {
        if !is_metrics_field(key.as_str()) {
            println!(rt; "warning: `metrics.{key}` is no field, and is passed over")?;
        }
    }
    Ok(())
}

/// Warns of each unknown field in all users' tables.
fn warn_of_users(rt: &HostRuntime, users: &[Value]) -> io::Result<()> {
    for (place, user) in users.iter().enumerate() {
        if let Some(table) = user.as_table() {
            warn_of_user(rt, place.saturating_add(1), table)?;
        }
    }
    Ok(())
}

/// Prints a warning for each unknown field in the settings, and none if the text is not TOML. The error is of the kind
/// `OutOfMemory`, or standard output's.
pub fn warn(rt: &HostRuntime, text: &str) -> io::Result<()> {
    let table = match toml::table_from_str(rt.alloc(), text) {
        Ok(table) => table,
        Err(error) if error.is_memory() => {
            return Err(io::Error::from(io::ErrorKind::OutOfMemory));
        }
        Err(_) => return Ok(()),
    };
    warn_of_table(rt, &table)?;
    if let Some(metrics) = table.get("metrics").and_then(|metrics| metrics.as_table()) {
        warn_of_metrics(rt, metrics)?;
    }
    match table.get("user").and_then(|users| users.as_array()) {
        Some(users) => warn_of_users(rt, users),
        None => Ok(()),
    }
}
