//! The table of users.
ghost use Rattle.std.specs.Prelude.{◌≡◌, ◌<◌, ◌+◌, ◌≤◌, ◌^◌, ◌∷◌, ◌++◌, ◌||◌, [], length, suc, option_map, option_copied, IfSome};
ghost use Rattle.std.specs.Prelude.{IfOk, IfErr, OnOk, OnErr, None, pos, All, List, ℕ};
ghost use Rattle.std.specs.Result.{result_err};
ghost use Rattle.std.specs.Str.{bytes_eq};
ghost use Rattle.tc_model.specs.Place.{first_place};
ghost use Rattle.tc_model.specs.Connection.{user_at};
ghost use Rattle.tc_users.specs.Faults.{first_fault, largest_fault, IsSoundRow, IsFirstOrRefused};
ghost use Rattle.tc_users.specs.Changes.{second_fault_of, with_second, with_largest};
ghost use Rattle.tc_users.specs.Login.{login_data, opens_second, opens};

use crate::checks::{check_largest_item, check_other_token, check_rows, check_user};
use crate::{SettingsFault, Text, UserNo};
use std::alloc::Global;
use std::marker::Model;
use tc_item::NoMemory;

/// A user's row.
#[derive(Debug, Drop)]
pub struct UserSpec {
    /// 1 to 64 bytes of ASCII letters, digits, `_`, `-` and `.`.
    pub name: Text,
    /// 1 to 128 bytes, each 33 to 126.
    pub token: Text,
    /// A second token, if the user has one.
    pub second: Option<Text>,
    /// The partition's budget in bytes, 65,536 to 2^30.
    pub budget: u64,
    /// The most data of an item that a storage command may store, in bytes: 1 to 1,048,576.
    pub largest: u64,
}

/// Appends a row. If memory is refused, the rows are unchanged.
pub fn push_row(rows: &mut Vec<UserSpec>, row: UserSpec) -> Result<(), NoMemory>
    ensures pushed { OnOk result (rows.new.items ≡ rows.old.items ++ row ∷ []) }
    ensures unchanged_on_err { OnErr result (rows.new.items ≡ rows.old.items) }
{
    Ok(rows.push(row)?)
}

/// The table of a server's users, numbered from 1. No row has a fault.
#[derive(Drop)]
pub struct Users {
    rows: Vec<UserSpec>,
}

impl Model for Users {
    ghost use Rattle.std.specs.Prelude.{List, ◌≡◌, None};
    ghost use Rattle.tc_users.specs.declared.users.UserSpec.{UserSpec};
    ghost use Rattle.tc_users.specs.Faults.{first_fault};

    ghost Value = { List UserSpec };

    ghost view = { λ u. u.rows.items };

    ghost invariant = { λ u. first_fault u.rows.items ≡ None };
}

/// Whether the data is this name, one space and this token.
fn is_login(name: &[u8], token: &[u8], text: &[u8]) -> bool
    ensures { result ≡ bytes_eq text.now (login_data name.now token.now) }
{
    let n = name.len();
    if text.len() <= n {
        return false;
    }
    if text[n] != b' ' {
        return false;
    }
    &text[..n] == name && &text[n + 1..] == token
}

/// Whether the data is this name, one space and the second token, if there is one.
fn is_second_login(name: &[u8], second: &Option<Text>, text: &[u8]) -> bool
    ensures { result ≡ opens_second name.now second.now text.now }
{
    match second {
        None => false,
        Some(token) => is_login(name, token.as_bytes(), text),
    }
}

impl UserSpec {
    /// Whether this is the data of a login of this user: the name, one space and either token.
    pub fn opens(&self, text: &[u8]) -> bool
        ensures { result ≡ opens self.now text.now }
    {
        let name = self.name.as_bytes();
        is_login(name, self.token.as_bytes(), text) || is_second_login(name, &self.second, text)
    }
}

/// Returns the index of the first row that the data opens.
fn find_row(rows: &[UserSpec], text: &[u8]) -> Option<usize>
    ensures place { result ≡ first_place (λ row. opens row text.now) rows.now }
    ensures within { IfSome result (λ i. i < length rows.now) }
{
    for (i, row) in rows.iter().enumerate() {
        if row.opens(text) {
            return Some(i);
        }
    }
    None
}

impl Users {
    /// Returns a table of no users.
    pub fn new(alloc: Global) -> Users
        ensures { result ≡ [] }
    {
        Users {
            rows: Vec::new(alloc),
        }
    }

    /// Returns the users of these rows, or the first fault of the rows. An empty list has none.
    pub fn build(rows: Vec<UserSpec>) -> Result<Users, SettingsFault>
        ensures users { IfOk result (λ users. users ≡ rows.items) }
        ensures fault { result_err result ≡ first_fault rows.items }
    {
        if rows.len() > u32::MAX as usize {
            return Err(SettingsFault::TooManyUsers { found: rows.len() });
        }
        check_rows(&rows)?;
        Ok(Users { rows })
    }

    /// Returns the users of rows that the caller knows to have no fault.
    pub fn from_good_rows(rows: Vec<UserSpec>) -> Users
        requires { first_fault rows.items ≡ None }
        ensures { result ≡ rows.items }
    {
        Users { rows }
    }

    /// Appends a user's row. `Err` has the first fault of the table with that row, or `NoMemory`,
    /// and leaves the table unchanged.
    pub fn push(&mut self, row: UserSpec) -> Result<(), SettingsFault>
        ensures pushed { OnOk result (self.new ≡ self.old ++ row ∷ []) }
        ensures faultless { OnOk result (first_fault (self.old ++ row ∷ []) ≡ None) }
        ensures fault { IfErr result (IsFirstOrRefused (first_fault (self.old ++ row ∷ []))) }
        ensures unchanged_on_err { OnErr result (self.new ≡ self.old) }
    {
        let count = self.len();
        if count >= u32::MAX as usize {
            return Err(SettingsFault::TooManyUsers { found: count + 1 });
        }
        check_user(&self.rows, &row)?;
        push_row(&mut self.rows, row)?;
        Ok(())
    }

    /// Sets a user's second token, and replaces an earlier one. `Err` says why it is no second
    /// token, and changes nothing.
    pub fn set_second(&mut self, user: UserNo, second: Text) -> Result<(), SettingsFault>
        requires known { (0 < user) × (user ≤ length self.now) }
        ensures set { OnOk result (self.new ≡ with_second self.old user second) }
        ensures fault { result_err result ≡ second_fault_of self.old user second }
        ensures unchanged_on_err { OnErr result (self.new ≡ self.old) }
    {
        let row = &mut self.rows[user.number() as usize - 1];
        check_other_token(user.number(), row.token.as_bytes(), second.as_bytes())?;
        row.second = Some(second);
        Ok(())
    }

    /// Sets the most data, in bytes, that an item of the user may have. `Err` says that it is out
    /// of its range; then nothing changes.
    pub fn set_largest(&mut self, user: UserNo, largest: u64) -> Result<(), SettingsFault>
        requires known { (0 < user) × (user ≤ length self.now) }
        ensures set { OnOk result (self.new ≡ with_largest self.old user largest) }
        ensures fault { result_err result ≡ largest_fault user (pos largest) }
        ensures unchanged_on_err { OnErr result (self.new ≡ self.old) }
    {
        let row = &mut self.rows[user.number() as usize - 1];
        check_largest_item(user.number(), largest)?;
        row.largest = largest;
        Ok(())
    }

    /// Returns the number of users.
    pub fn len(&self) -> usize
        ensures count { result ≡ length self.now }
        ensures most { length self.now < 2 ^ 32 }
    {
        self.rows.len()
    }

    /// Returns the rows, in the order of the users' numbers.
    pub fn rows(&self) -> &[UserSpec]
        ensures rows { result.now ≡ self.now }
        ensures sound { All IsSoundRow self.now }
    {
        self.rows.as_slice()
    }

    /// Returns the user to whom a login's data belongs: it is exactly the user's name, one space
    /// and either token. `None` if it is no user's.
    pub fn login(&self, text: &[u8]) -> Option<UserNo>
        ensures user { result ≡ option_map suc (first_place (λ row. opens row text.now) self.now) }
        ensures known { IfSome result (λ user. (0 < user) × (user ≤ length self.now)) }
    {
        let place = find_row(&self.rows, text)?;
        Some(UserNo::new(place as u32 + 1))
    }

    /// Returns the row of a user; `None` if no user has that number.
    pub fn spec(&self, user: UserNo) -> Option<&UserSpec>
        ensures row { option_copied result ≡ user_at self.now user }
        ensures sound { IfSome (option_copied result) IsSoundRow }
    {
        let place = user.number().checked_sub(1)?;
        self.rows.get(place as usize)
    }
}
