//! Reads the settings of a server from a TOML text.
ghost use Rattle.std.specs.Prelude.{◌≡◌, ◌<◌, ◌^◌, [], length, map, is_some, option_copied, IfOk, IsErrOf, IfErr, OnOk};
ghost use Rattle.std.specs.Result.{result_err};
ghost use Rattle.std.specs.List.{list_all};
ghost use Rattle.toml.specs.Data.{as_table};
ghost use Rattle.toml.specs.Errors.{IsBlank};
ghost use Rattle.toml.specs.Parse.{parse_document};
ghost use Rattle.toml.specs.View.{view};
ghost use Rattle.tc_settings.specs.SettingsTable.{row_in, tables_fault, tables_fault_in, tables_in, workers_fault_in};
ghost use Rattle.tc_settings.specs.SettingsTable.{journal_fault_in, settings_fault, settings_in, IsFaultOfTable, IsAnswer};
ghost use Rattle.tc_settings.specs.SettingsTable.{metrics_fault_in, AreSoundNumbers};

use crate::fields::{find_field, found_of, read_number, read_text};
use crate::limit_fields::{read_each_limits, read_limits};
use crate::user_table::read_rows;
use crate::{DEFAULT_PAGE, LARGEST_PAGE, MOST_WORKERS, SMALLEST_PAGE};
use std::alloc::Global;
use tc_item::NoMemory;
use tc_limits::{Address, ConnectionLimits, LimitsByUser};
use tc_users::{Field, Found, SettingsFault, Users};
use toml::Value;

/// The settings of a server.
#[derive(Drop)]
pub struct Settings {
    /// The address on which the server listens for clients.
    pub listen: Address,
    /// The number of workers, the threads that serve connections: 1 to 64.
    pub workers: usize,
    /// The entries of a journal's page, 16 to 65,536. It is 65,536 if the text does not say.
    pub journal: usize,
    /// The limits on all connections.
    pub limits: ConnectionLimits,
    /// The address at which the server offers its metrics, if it does.
    pub metrics: Option<Address>,
    /// The users, at least one.
    pub users: Users,
    /// The limits on each user's connections.
    pub user_limits: LimitsByUser,
}

fn read_workers(table: &Value) -> Result<usize, SettingsFault>
    ensures fault { result_err result ≡ workers_fault_in (view table.now) }
    ensures workers { IfOk result (λ workers. workers ≡ (settings_in (view table.now)).workers) }
{
    let found = read_number(Field::Workers, table)?;
    if found >= 1 && found <= MOST_WORKERS as i64 {
        return Ok(found as usize);
    }
    Err(SettingsFault::WorkersRange { found })
}

fn read_journal(table: &Value) -> Result<usize, SettingsFault>
    ensures fault { result_err result ≡ journal_fault_in (view table.now) }
    ensures journal { IfOk result (λ journal. journal ≡ (settings_in (view table.now)).journal) }
{
    if find_field(Field::Journal, table).is_none() {
        return Ok(DEFAULT_PAGE);
    }
    let found = read_number(Field::Journal, table)?;
    if found >= SMALLEST_PAGE as i64 && found <= LARGEST_PAGE as i64 {
        return Ok(found as usize);
    }
    Err(SettingsFault::JournalRange { found })
}

/// Reads the address of the metrics, if there is a `[metrics]` table.
fn read_metrics(table: &Value) -> Result<Option<&str>, SettingsFault>
    ensures fault { result_err result ≡ metrics_fault_in (view table.now) }
    ensures text { IfOk result (λ text. option_copied text
        ≡ (settings_in (view table.now)).metrics) }
{
    match find_field(Field::Metrics, table) {
        None => Ok(None),
        Some(metrics) => Ok(Some(read_text(Field::MetricsListen, metrics)?)),
    }
}

/// Copies the address of the metrics, if there is one.
fn copy_metrics(alloc: Global, metrics: Option<&str>) -> Result<Option<Address>, NoMemory>
    ensures { IfOk result (λ copy. copy ≡ option_copied metrics.entry) }
{
    match metrics {
        None => Ok(None),
        Some(metrics) => Ok(Some(Address::copy(alloc, metrics)?)),
    }
}

fn are_tables(values: &[Value]) -> bool
    ensures { result ≡ list_all (λ value. is_some (as_table (view value))) values.now }
{
    values.iter().all(|value| value.is_table())
}

/// Checks that there are users, that each is a table, and that 32 bits can number them.
fn check_tables(tables: &[Value]) -> Result<(), SettingsFault>
    ensures fault { result_err result ≡ tables_fault (map view tables.now) }
    ensures few { OnOk result (length tables.now < 2 ^ 32) }
{
    if tables.is_empty() {
        return Err(SettingsFault::NoUser);
    }
    if !are_tables(tables) {
        let field = Field::Users;
        let found = Found::Array;
        return Err(SettingsFault::Missing { field, found });
    }
    let found = tables.len();
    if found > u32::MAX as usize {
        return Err(SettingsFault::TooManyUsers { found });
    }
    Ok(())
}

/// Returns the users' tables.
fn read_tables(table: &Value) -> Result<&[Value], SettingsFault>
    ensures fault { result_err result ≡ tables_fault_in (view table.now) }
    ensures tables { IfOk result (λ tables. map view tables.now ≡ tables_in (view table.now)) }
    ensures few { IfOk result (λ tables. length tables.now < 2 ^ 32) }
{
    let Some(value) = find_field(Field::Users, table) else {
        return Err(SettingsFault::NoUser);
    };
    match value.as_array() {
        Some(tables) => {
            check_tables(tables)?;
            Ok(tables)
        }
        None => Err(SettingsFault::Missing {
            field: Field::Users,
            found: found_of(value),
        }),
    }
}

/// Reads the settings in a table.
fn read_settings(alloc: Global, table: &Value) -> Result<Settings, SettingsFault>
    ensures settings { IfOk result (λ settings. settings ≡ settings_in (view table.now)) }
    ensures faultless { OnOk result (settings_fault (view table.now) ≡ None) }
    ensures fault { IfErr result (IsFaultOfTable (view table.now)) }
{
    let listen = read_text(Field::Listen, table)?;
    let workers = read_workers(table)?;
    let journal = read_journal(table)?;
    let limits = read_limits(table)?;
    let metrics = read_metrics(table)?;
    let tables = read_tables(table)?;
    let rows = read_rows(alloc, tables)?;
    let user_limits = read_each_limits(alloc, tables)?;
    Ok(Settings {
        listen: Address::copy(alloc, listen)?,
        workers,
        journal,
        limits,
        metrics: copy_metrics(alloc, metrics)?,
        users: Users::from_good_rows(rows),
        user_limits,
    })
}

impl Settings {
    /// Reads the settings in a TOML text, or returns the first fault in the order of the fields.
    /// The table and the rows take memory; if it is refused, the fault is `NoMemory`.
    pub fn from_toml(alloc: Global, text: &str) -> Result<Settings, SettingsFault>
        ensures answer { IsAnswer (parse_document text.now) result }
        ensures sound { IfOk result AreSoundNumbers }
        ensures memory { IsErrOf result SettingsFault.NoMemory → ¬ IsBlank text.now }
    {
        match toml::table_from_str(alloc, text) {
            Ok(table) => read_settings(alloc, &Value::Table(table)),
            Err(error) if error.is_memory() => Err(SettingsFault::NoMemory),
            Err(error) => Err(SettingsFault::NotToml(error)),
        }
    }
}
