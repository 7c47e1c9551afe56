//! Makes a server's beginning: its settings, an empty cache for each user, and the hall's table.
ghost use Rattle.std.specs.Prelude.{◌≡◌, IfOk};
ghost use Rattle.tc_settings.specs.SettingsTable.{AreSoundNumbers};

use crate::demo::SETTINGS;
use std::alloc::AllocError;
use std::hash::RandomState;
use std::{fs, io};
use tc_asking::Source;
use tc_item::NoMemory;
use tc_kinds::begin_all;
use tc_limits::Address;
use tc_locked::Opened;
use tc_net::{Beginning, ServerSettings};
use tc_partition::Fast;
use tc_settings::Settings;
use tc_users::SettingsFault;

/// Why no server can begin, or why settings cannot be checked.
#[derive(Debug, Drop)]
pub enum Unready {
    /// The settings file cannot be read, or is not text.
    Unreadable(io::Error),
    /// The settings are refused.
    Refused(SettingsFault),
    /// Memory or random words were refused.
    NoMemory,
}

impl From<io::Error> for Unready {
    fn from(error: io::Error) -> Unready {
        match error.kind() {
            io::ErrorKind::OutOfMemory => Unready::NoMemory,
            _ => Unready::Unreadable(error),
        }
    }
}

impl From<SettingsFault> for Unready {
    fn from(fault: SettingsFault) -> Unready {
        Unready::Refused(fault)
    }
}

impl From<NoMemory> for Unready {
    fn from(_refused: NoMemory) -> Unready {
        Unready::NoMemory
    }
}

impl From<AllocError> for Unready {
    fn from(_refused: AllocError) -> Unready {
        Unready::NoMemory
    }
}

/// The text of the settings.
pub fn read_text(rt: &HostRuntime, source: &Source) -> Result<String, Unready> {
    match source {
        Source::File(path) => Ok(fs::read_to_string(rt, path.as_str())?),
        Source::Demo(_) => Ok(String::from_str(rt.alloc(), SETTINGS)?),
    }
}

/// Reads settings from a text. A demo listens at its source's address.
pub fn read_settings(rt: &HostRuntime, text: &str, source: &Source) -> Result<Settings, Unready>
    ensures { IfOk result AreSoundNumbers }
{
    let alloc = rt.alloc();
    let mut settings = Settings::from_toml(alloc, text)?;
    if let Source::Demo(listen) = source {
        settings.listen = Address::copy(alloc, listen.as_str())?;
    }
    Ok(settings)
}

/// The part of the settings that a server needs.
fn server_settings(settings: Settings) -> ServerSettings
    ensures { result ≡ record {
      listen = settings.listen;
      workers = settings.workers;
      journal = settings.journal;
      limits = settings.limits;
      metrics = settings.metrics;
      users = settings.users;
      user_limits = settings.user_limits;
    } }
{
    let Settings {
        listen,
        workers,
        journal,
        limits,
        metrics,
        users,
        user_limits,
    } = settings;
    ServerSettings {
        listen,
        workers,
        journal,
        limits,
        metrics,
        users,
        user_limits,
    }
}

/// The beginning of a server with these settings.
pub fn prepare(rt: &HostRuntime, settings: Settings) -> Result<Beginning<Fast>, Unready>
    requires { AreSoundNumbers settings }
{
    let alloc = rt.alloc();
    let opened = Opened::new(alloc)?;
    let Ok(hasher) = RandomState::new(rt) else {
        return Err(Unready::NoMemory);
    };
    let caches = begin_all::<Fast>(alloc, &settings.users, hasher)?;
    Ok(Beginning {
        settings: server_settings(settings),
        opened,
        caches,
    })
}
