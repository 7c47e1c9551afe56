//! Reads the fields of a table by their type.
ghost use Rattle.std.specs.Prelude.{◌≡◌, option_map, IfOk};
ghost use Rattle.std.specs.Result.{result_err};
ghost use Rattle.toml.specs.View.{view};
ghost use Rattle.tc_settings.specs.Fields.{found_of, field_in, text_in, number_in, missing_text_in, missing_number_in};

use tc_users::{Field, Found, SettingsFault};
use toml::Value;

/// Returns the type of a value.
pub fn found_of(value: &Value) -> Found
    ensures { result ≡ found_of (view value.now) }
{
    match value {
        Value::String(_) => Found::Text,
        Value::Integer(_) => Found::WholeNumber,
        Value::Float(_) => Found::Float,
        Value::Boolean(_) => Found::Boolean,
        Value::Datetime(_) => Found::DateTime,
        Value::Array(_) => Found::Array,
        Value::Table(_) => Found::Table,
    }
}

/// Returns the value of a field; `None` if the table lacks it.
pub fn find_field(field: Field, table: &Value) -> Option<&Value>
    ensures { option_map (λ value. view value.now) result ≡ field_in field (view table.now) }
{
    table.get(field.key())
}

/// Returns the text in a field. A missing field or a value of another type is a fault.
pub fn read_text(field: Field, table: &Value) -> Result<&str, SettingsFault>
    ensures fault { result_err result ≡ missing_text_in field (view table.now) }
    ensures text { IfOk result (λ text. text.now ≡ text_in (field_in field (view table.now))) }
{
    let Some(value) = find_field(field, table) else {
        let found = Found::Nothing;
        return Err(SettingsFault::Missing { field, found });
    };
    match value.as_str() {
        Some(text) => Ok(text),
        None => Err(SettingsFault::Missing {
            field,
            found: found_of(value),
        }),
    }
}

/// Returns the whole number in a field. A missing field or a value of another type is a fault.
pub fn read_number(field: Field, table: &Value) -> Result<i64, SettingsFault>
    ensures fault { result_err result ≡ missing_number_in field (view table.now) }
    ensures number { IfOk result (λ n. n ≡ number_in (field_in field (view table.now))) }
{
    let Some(value) = find_field(field, table) else {
        let found = Found::Nothing;
        return Err(SettingsFault::Missing { field, found });
    };
    match value.as_integer() {
        Some(number) => Ok(number),
        None => Err(SettingsFault::Missing {
            field,
            found: found_of(value),
        }),
    }
}
