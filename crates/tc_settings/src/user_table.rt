//! Reads the users' tables of a settings text.
ghost use Rattle.std.specs.Prelude.{◌≡◌, ◌<◌, ◌+◌, ◌^◌, [], ◌∷◌, ◌++◌, length, map, option_copied, IfOk, IfErr, OnOk, OnErr};
ghost use Rattle.std.specs.Result.{result_err};
ghost use Rattle.toml.specs.View.{view};
ghost use Rattle.tc_users.specs.Faults.{fault_after, IsFirstOrRefused};
ghost use Rattle.tc_settings.specs.SettingsTable.{row_in, name_fault_in, token_fault_in, budget_fault_in, second_fault_in};
ghost use Rattle.tc_settings.specs.SettingsTable.{largest_fault_in, user_fault_in, users_fault_after};

use crate::fields::{find_field, read_number, read_text};
use std::alloc::Global;
use tc_item::{LARGEST_ITEM, NoMemory};
use tc_users::{
    Field, SettingsFault, Text, UserSpec, check_budget, check_largest, check_name,
    check_other_token, check_own_name, check_token, push_row,
};
use toml::Value;

fn read_name(user: u32, table: &Value) -> Result<&str, SettingsFault>
    ensures fault { result_err result ≡ name_fault_in user (view table.now) }
    ensures name { IfOk result (λ name. name.now ≡ (row_in (view table.now)).name) }
{
    let name = read_text(Field::Name(user), table)?;
    check_name(user, name.as_bytes())?;
    Ok(name)
}

fn read_token(user: u32, table: &Value) -> Result<&str, SettingsFault>
    ensures fault { result_err result ≡ token_fault_in user (view table.now) }
    ensures token { IfOk result (λ token. token.now ≡ (row_in (view table.now)).token) }
{
    let token = read_text(Field::Token(user), table)?;
    check_token(Field::Token(user), token.as_bytes())?;
    Ok(token)
}

fn read_budget(user: u32, table: &Value) -> Result<u64, SettingsFault>
    ensures fault { result_err result ≡ budget_fault_in user (view table.now) }
    ensures budget { IfOk result (λ budget. budget ≡ (row_in (view table.now)).budget) }
{
    let budget = read_number(Field::Budget(user), table)?;
    check_budget(user, i128::from(budget))?;
    Ok(budget as u64)
}

fn read_second<'a>(
    user: u32,
    token: &str,
    table: &'a Value,
) -> Result<Option<&'a str>, SettingsFault>
    requires { token.now ≡ (row_in (view table.now)).token }
    ensures fault { result_err result ≡ second_fault_in user (view table.now) }
    ensures second { IfOk result (λ t. option_copied t ≡ (row_in (view table.now)).second) }
{
    let field = Field::SecondToken(user);
    if find_field(field, table).is_none() {
        return Ok(None);
    }
    let second = read_text(field, table)?;
    check_other_token(user, token.as_bytes(), second.as_bytes())?;
    Ok(Some(second))
}

fn read_largest(user: u32, table: &Value) -> Result<u64, SettingsFault>
    ensures fault { result_err result ≡ largest_fault_in user (view table.now) }
    ensures largest { IfOk result (λ largest. largest ≡ (row_in (view table.now)).largest) }
{
    let field = Field::Largest(user);
    if find_field(field, table).is_none() {
        return Ok(LARGEST_ITEM as u64);
    }
    let largest = read_number(field, table)?;
    check_largest(user, i128::from(largest))?;
    Ok(largest as u64)
}

fn copy_second(alloc: Global, second: Option<&str>) -> Result<Option<Text>, NoMemory>
    ensures { IfOk result (λ copy. copy ≡ option_copied second.entry) }
{
    match second {
        None => Ok(None),
        Some(second) => Ok(Some(Text::copy(alloc, second.as_bytes())?)),
    }
}

/// Reads the table of the user who follows these rows.
fn read_user(alloc: Global, before: &[UserSpec], table: &Value) -> Result<UserSpec, SettingsFault>
    requires { length before.now + 1 < 2 ^ 32 }
    ensures row { IfOk result (λ row. row ≡ row_in (view table.now)) }
    ensures faultless { OnOk result (user_fault_in before.now (view table.now) ≡ None) }
    ensures fault { IfErr result (IsFirstOrRefused (user_fault_in before.now (view table.now))) }
{
    let user = before.len() as u32 + 1;
    let name = read_name(user, table)?;
    let token = read_token(user, table)?;
    let budget = read_budget(user, table)?;
    let second = read_second(user, token, table)?;
    let largest = read_largest(user, table)?;
    check_own_name(before, name.as_bytes())?;
    Ok(UserSpec {
        name: Text::copy(alloc, name.as_bytes())?,
        token: Text::copy(alloc, token.as_bytes())?,
        second: copy_second(alloc, second)?,
        budget,
        largest,
    })
}

/// Reads the rows of all users' tables.
pub fn read_rows(alloc: Global, tables: &[Value]) -> Result<Vec<UserSpec>, SettingsFault>
    requires { length tables.now < 2 ^ 32 }
    ensures rows { IfOk result (λ rows. rows.items ≡ map row_in (map view tables.now)) }
    ensures good { IfOk result (λ rows. fault_after [] rows.items ≡ None) }
    ensures faultless { OnOk result (users_fault_after [] (map view tables.now) ≡ None) }
    ensures fault { IfErr result (IsFirstOrRefused (users_fault_after [] (map view tables.now))) }
{
    let mut rows = Vec::new(alloc);
    for table in tables {
        let row = read_user(alloc, &rows, table)?;
        push_row(&mut rows, row)?;
    }
    Ok(rows)
}
