//! Reads the limits in a settings text.
ghost use Rattle.std.specs.Prelude.{◌≡◌, ◌<◌, ◌+◌, ◌^◌, ◌∷◌, ◌++◌, [], length, map, IfOk, IfErr, OnOk, OnErr};
ghost use Rattle.std.specs.Result.{result_err};
ghost use Rattle.toml.specs.View.{view};
ghost use Rattle.tc_users.specs.Faults.{IsFirstOrRefused};
ghost use Rattle.tc_settings.specs.LimitFields.{limit_in, limit_fault_in, limits_in, limits_fault_in, user_limits_in, most_of};
ghost use Rattle.tc_settings.specs.LimitFields.{user_limits_fault, limits_fault_after};

use crate::fields::{find_field, read_number};
use crate::{MOST_CONNECTIONS, MOST_SECONDS};
use std::alloc::Global;
use tc_item::NoMemory;
use tc_limits::{ConnectionLimits, LimitsByUser, UserLimits};
use tc_users::{Field, Limit, SettingsFault};
use toml::Value;

/// Returns the greatest value of a limit. The least is 1.
fn most_of(limit: Limit) -> u32
    ensures { result ≡ most_of limit }
{
    match limit {
        Limit::LoginSeconds | Limit::StalledSeconds | Limit::IdleSeconds(_) => MOST_SECONDS,
        Limit::UnboundConnections | Limit::Connections(_) => MOST_CONNECTIONS,
    }
}

/// Reads a limit, which may be left out. A number out of its range is a fault.
fn read_limit(limit: Limit, table: &Value) -> Result<Option<u32>, SettingsFault>
    ensures fault { result_err result ≡ limit_fault_in limit (view table.now) }
    ensures limit { IfOk result (λ found. found ≡ limit_in limit (view table.now)) }
{
    let field = Field::Limited(limit);
    if find_field(field, table).is_none() {
        return Ok(None);
    }
    let found = read_number(field, table)?;
    if found >= 1 && found <= i64::from(most_of(limit)) {
        return Ok(Some(found as u32));
    }
    Err(SettingsFault::LimitRange { limit, found })
}

/// Reads the limits on all connections.
pub fn read_limits(table: &Value) -> Result<ConnectionLimits, SettingsFault>
    ensures fault { result_err result ≡ limits_fault_in (view table.now) }
    ensures limits { IfOk result (λ limits. limits ≡ limits_in (view table.now)) }
{
    let login_seconds = read_limit(Limit::LoginSeconds, table)?;
    let stalled_seconds = read_limit(Limit::StalledSeconds, table)?;
    let unbound_connections = read_limit(Limit::UnboundConnections, table)?;
    Ok(ConnectionLimits {
        login_seconds,
        stalled_seconds,
        unbound_connections,
    })
}

/// Reads the limits in a user's table.
fn read_user_limits(user: u32, table: &Value) -> Result<UserLimits, SettingsFault>
    ensures fault { result_err result ≡ user_limits_fault user (view table.now) }
    ensures limits { IfOk result (λ limits. limits ≡ user_limits_in (view table.now)) }
{
    let connections = read_limit(Limit::Connections(user), table)?;
    let idle_seconds = read_limit(Limit::IdleSeconds(user), table)?;
    Ok(UserLimits {
        connections,
        idle_seconds,
    })
}

/// Appends a user's limits. If memory is refused, the list is unchanged.
fn push_limits(rows: &mut Vec<UserLimits>, limits: UserLimits) -> Result<(), NoMemory>
    ensures pushed { OnOk result (rows.new.items ≡ rows.old.items ++ limits ∷ []) }
    ensures unchanged_on_err { OnErr result (rows.new.items ≡ rows.old.items) }
{
    Ok(rows.push(limits)?)
}

/// Reads the limits in all users' tables.
pub fn read_each_limits(alloc: Global, tables: &[Value]) -> Result<LimitsByUser, SettingsFault>
    requires { length tables.now < 2 ^ 32 }
    ensures limits { IfOk result (λ all. all ≡ map user_limits_in (map view tables.now)) }
    ensures faultless { OnOk result (limits_fault_after 0 (map view tables.now) ≡ None) }
    ensures fault { IfErr result (IsFirstOrRefused (limits_fault_after 0 (map view tables.now))) }
{
    let mut rows = Vec::new(alloc);
    for table in tables {
        let limits = read_user_limits(rows.len() as u32 + 1, table)?;
        push_limits(&mut rows, limits)?;
    }
    Ok(LimitsByUser::new(rows))
}
