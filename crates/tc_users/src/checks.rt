//! The checks of a user's row, field by field. `Err` has the row's first fault.
ghost use Rattle.std.specs.Prelude.{◌≡◌, ◌<◌, ◌+◌, ◌^◌, ◌∷◌, [], not, length, position, option_map, IfSome, pos};
ghost use Rattle.std.specs.Result.{result_err};
ghost use Rattle.std.specs.Str.{bytes_eq};
ghost use Rattle.tc_users.specs.Faults.{is_name_byte, is_token_byte, text_fault, name_fault, token_fault, budget_fault};
ghost use Rattle.tc_users.specs.Faults.{other_token_fault, second_fault, largest_fault, same_name_fault, row_fault, user_fault};
ghost use Rattle.tc_users.specs.Faults.{fault_after};

use crate::users::UserSpec;
use crate::{Field, LONGEST_NAME, LONGEST_TOKEN, SettingsFault, Text, TextFault};
use tc_item::{LARGEST_BUDGET, LARGEST_ITEM, SMALLEST_BUDGET};

fn is_name_byte(byte: u8) -> bool
    ensures { result ≡ is_name_byte byte }
{
    byte.is_ascii_alphanumeric() || byte == b'_' || byte == b'-' || byte == b'.'
}

fn is_token_byte(byte: u8) -> bool
    ensures { result ≡ is_token_byte byte }
{
    byte >= 33 && byte <= 126
}

/// Returns the index of the first byte that no name may have.
fn find_bad_name_byte(name: &[u8]) -> Option<usize>
    ensures place { result ≡ position (λ b. not (is_name_byte b)) name.now }
    ensures within { IfSome result (λ place. place < length name.now) }
{
    name.iter().position(|b| !is_name_byte(*b))
}

/// Returns the index of the first byte that no token may have.
fn find_bad_token_byte(token: &[u8]) -> Option<usize>
    ensures place { result ≡ position (λ b. not (is_token_byte b)) token.now }
    ensures within { IfSome result (λ place. place < length token.now) }
{
    token.iter().position(|b| !is_token_byte(*b))
}

/// Returns why bytes are not 1 to `most` good ones. `bad` is the index of the first bad byte.
fn find_text_fault(bytes: &[u8], most: usize, bad: Option<usize>) -> Option<TextFault>
    requires { IfSome bad (λ place. place < length bytes.now) }
    ensures { result ≡ text_fault most bad bytes.now }
{
    let length = bytes.len();
    if length == 0 {
        return Some(TextFault::Empty);
    }
    if length > most {
        return Some(TextFault::TooLong { length });
    }
    let place = bad?;
    let byte = bytes[place];
    Some(TextFault::BadByte { place, byte })
}

/// Checks a user's name: 1 to 64 bytes of ASCII letters, digits, `_`, `-` and `.`.
pub fn check_name(user: u32, name: &[u8]) -> Result<(), SettingsFault>
    ensures { result_err result ≡ name_fault user name.now }
{
    match find_text_fault(name, LONGEST_NAME, find_bad_name_byte(name)) {
        None => Ok(()),
        Some(fault) => Err(SettingsFault::BadName { user, fault }),
    }
}

/// Checks a token, which this field has: 1 to 128 bytes, each 33 to 126.
pub fn check_token(field: Field, token: &[u8]) -> Result<(), SettingsFault>
    ensures { result_err result ≡ token_fault field token.now }
{
    match find_text_fault(token, LONGEST_TOKEN, find_bad_token_byte(token)) {
        None => Ok(()),
        Some(fault) => Err(SettingsFault::BadToken { field, fault }),
    }
}

/// Checks a user's budget: 65,536 to 2^30 bytes.
pub fn check_budget(user: u32, found: i128) -> Result<(), SettingsFault>
    ensures { result_err result ≡ budget_fault user found }
{
    if found >= SMALLEST_BUDGET as i128 && found <= LARGEST_BUDGET as i128 {
        return Ok(());
    }
    Err(SettingsFault::BudgetRange { user, found })
}

/// Checks that a second token is a token and differs from the first.
pub fn check_other_token(user: u32, token: &[u8], second: &[u8]) -> Result<(), SettingsFault>
    ensures { result_err result ≡ second_fault user token.now (Some second.now) }
{
    check_token(Field::SecondToken(user), second)?;
    if second == token {
        return Err(SettingsFault::SameToken { user });
    }
    Ok(())
}

/// Checks a user's second token, if there is one.
fn check_second(user: u32, token: &[u8], second: &Option<Text>) -> Result<(), SettingsFault>
    ensures { result_err result ≡ second_fault user token.now second.now }
{
    match second {
        None => Ok(()),
        Some(second) => check_other_token(user, token, second.as_bytes()),
    }
}

/// Checks the most data of a user's items: 1 to 1,048,576 bytes.
pub fn check_largest(user: u32, found: i128) -> Result<(), SettingsFault>
    ensures { result_err result ≡ largest_fault user found }
{
    if found >= 1 && found <= LARGEST_ITEM as i128 {
        return Ok(());
    }
    Err(SettingsFault::LargestRange { user, found })
}

/// Checks the most data of a user's items, given as 64 bits.
pub fn check_largest_item(user: u32, largest: u64) -> Result<(), SettingsFault>
    ensures { result_err result ≡ largest_fault user (pos largest) }
{
    check_largest(user, i128::from(largest))
}

/// Returns the index of the first row with this name.
fn find_name(rows: &[UserSpec], name: &[u8]) -> Option<usize>
    ensures { result ≡ position (λ other. bytes_eq other.name name.now) rows.now }
{
    rows.iter().position(|row| row.name.as_bytes() == name)
}

/// Checks that no earlier user has the name.
pub fn check_own_name(before: &[UserSpec], name: &[u8]) -> Result<(), SettingsFault>
    requires { length before.now + 1 < 2 ^ 32 }
    ensures { result_err result ≡ same_name_fault before.now name.now }
{
    match find_name(before, name) {
        None => Ok(()),
        Some(place) => Err(SettingsFault::SameName {
            user: before.len() as u32 + 1,
            first: place as u32 + 1,
        }),
    }
}

/// Checks a user's row, apart from other rows.
fn check_row(user: u32, row: &UserSpec) -> Result<(), SettingsFault>
    ensures { result_err result ≡ row_fault user row.now }
{
    check_name(user, row.name.as_bytes())?;
    check_token(Field::Token(user), row.token.as_bytes())?;
    check_budget(user, i128::from(row.budget))?;
    check_second(user, row.token.as_bytes(), &row.second)?;
    check_largest_item(user, row.largest)
}

/// Checks the row that follows these.
pub fn check_user(before: &[UserSpec], row: &UserSpec) -> Result<(), SettingsFault>
    requires { length before.now + 1 < 2 ^ 32 }
    ensures { result_err result ≡ user_fault before.now row.now }
{
    check_row(before.len() as u32 + 1, row)?;
    check_own_name(before, row.name.as_bytes())
}

/// Checks all rows. `Err` has the first fault of the first bad row.
pub fn check_rows(rows: &[UserSpec]) -> Result<(), SettingsFault>
    requires { length rows.now < 2 ^ 32 }
    ensures { result_err result ≡ fault_after [] rows.now }
{
    for (i, row) in rows.iter().enumerate() {
        check_user(&rows[..i], row)?;
    }
    Ok(())
}
