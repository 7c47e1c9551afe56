//! Reads a whole script, line by line.
ghost use Rattle.std.specs.Prelude.{◌≡◌, ◌≤◌, ◌+◌, ◌++◌, ◌∷◌, [], ℕ, Bool, Some, None, IfOk, IfErr, OnOk, OnErr, length, ◌==◌};
ghost use Rattle.std.specs.List.{list_any};
ghost use Rattle.tc_script.specs.Plans.{no_plan, with_user_line, with_second_line, with_largest_line, with_line, with_text};
ghost use Rattle.tc_script.specs.Plans.{reading_of, Good};
ghost use Rattle.tc_script.specs.declared.script.ScriptFault.TheVariants.{NoMemory as OutOfMemory};
ghost use Rattle.tc_script.specs.Refusing.{taken_as, IsFaultOf};

use crate::action::Action;
use crate::fields::cut;
use crate::line::{Line, read_line};
use std::alloc::Global;
use std::marker::Model;
use tc_item::NoMemory;
use tc_users::{SettingsFault, Text, UserNo, UserSpec, Users};

/// A script: its users, the users whose largest item a line has set, and its actions in order.
#[derive(Drop)]
pub struct Script {
    users: Users,
    sized: Vec<u32>,
    actions: Vec<Action>,
}

impl Model for Script {
    ghost use Rattle.tc_script.specs.Plans.{Plan};

    ghost Value = { Plan };

    ghost view = { λ s. record {
      users = s.users;
      sized = s.sized.items;
      actions = s.actions.items;
    } };
}

/// Why a text is no script.
#[derive(Clone, Copy, Debug, PartialEq, Eq)]
pub enum ScriptFault {
    /// The first refused line, by its number from 1.
    BadLine(u64),
    /// Memory was refused.
    NoMemory,
}

impl From<NoMemory> for ScriptFault {
    ghost from_gives = { λ _ e. e ≡ OutOfMemory };

    fn from(_refused: NoMemory) -> ScriptFault {
        ScriptFault::NoMemory
    }
}

/// Whether a line has set the most data of this user's items.
fn is_sized(sized: &[u32], user: u32) -> bool
    ensures { result ≡ list_any (λ u. u == user) sized.now }
{
    sized.iter().any(|sized| *sized == user)
}

impl Script {
    /// Returns a script of no lines.
    fn new(alloc: Global) -> Script
        ensures { result ≡ no_plan }
    {
        Script {
            users: Users::new(alloc),
            sized: Vec::new(alloc),
            actions: Vec::new(alloc),
        }
    }

    /// Returns the users, in the order of their lines, and the actions, in order.
    pub fn into_parts(self) -> (Users, Vec<Action>)
        ensures users { result.0 ≡ self.users }
        ensures actions { result.1.items ≡ self.actions }
    {
        (self.users, self.actions)
    }

    /// Takes a user's line, and returns whether it is good.
    fn take_user(&mut self, row: UserSpec) -> Result<bool, NoMemory>
        ensures { IfOk result (λ good. with_user_line self.old row ≡ taken_as good self.new) }
    {
        match self.users.push(row) {
            Ok(()) => Ok(true),
            Err(SettingsFault::NoMemory) => Err(NoMemory),
            Err(_) => Ok(false),
        }
    }

    /// Takes the line of a second token, and returns whether it is good. A user may have one such
    /// line.
    fn take_second(&mut self, user: u32, token: Text) -> bool
        ensures { with_second_line self.old user token ≡ taken_as result self.new }
    {
        let user = UserNo::new(user);
        match self.users.spec(user) {
            None => return false,
            Some(row) => {
                if row.second.is_some() {
                    return false;
                }
            }
        }
        self.users.set_second(user, token).is_ok()
    }

    /// Takes the line of a largest item, and returns whether it is good. A user may have one such
    /// line.
    fn take_largest(&mut self, user: u32, most: u64) -> Result<bool, NoMemory>
        ensures { IfOk result (λ good. with_largest_line self.old user most
            ≡ taken_as good self.new) }
    {
        let number = UserNo::new(user);
        match self.users.spec(number) {
            None => return Ok(false),
            Some(_) => {
                if is_sized(&self.sized, user) {
                    return Ok(false);
                }
            }
        }
        self.sized.reserve(1)?;
        if self.users.set_largest(number, most).is_err() {
            return Ok(false);
        }
        self.sized.push(user)?;
        Ok(true)
    }

    /// Takes a line, and returns whether it may come here. Lines about users come before all steps.
    fn take(&mut self, line: Line) -> Result<bool, NoMemory>
        ensures { IfOk result (λ good. with_line self.old line ≡ taken_as good self.new) }
    {
        let has_begun = !self.actions.is_empty();
        match line {
            Line::Blank => Ok(true),
            Line::Step(action) => {
                self.actions.push(action)?;
                Ok(true)
            }
            _ if has_begun => Ok(false),
            Line::User(row) => self.take_user(row),
            Line::Second(user, token) => Ok(self.take_second(user, token)),
            Line::Largest(user, most) => self.take_largest(user, most),
        }
    }

    /// Reads and takes a line, and returns whether it is good.
    fn take_text(&mut self, alloc: Global, line: &[u8]) -> Result<bool, NoMemory>
        ensures { IfOk result (λ good. with_text self.old line.now ≡ taken_as good self.new) }
    {
        match read_line(alloc, line)? {
            None => Ok(false),
            Some(line) => self.take(line),
        }
    }

    /// Reads a script. The fault is the first refused line, or `NoMemory`.
    pub fn read(alloc: Global, text: &[u8]) -> Result<Script, ScriptFault>
        ensures script { IfOk result (λ script. reading_of text.now ≡ Good script) }
        ensures fault { IfErr result (IsFaultOf (reading_of text.now)) }
    {
        let mut script = Script::new(alloc);
        let mut rest = text;
        let mut number = 1;
        while let Some((line, behind)) = cut(rest, b'\n') {
            if !script.take_text(alloc, line)? {
                return Err(ScriptFault::BadLine(number));
            }
            rest = behind;
            number += 1;
        }
        if !script.take_text(alloc, rest)? {
            return Err(ScriptFault::BadLine(number));
        }
        Ok(script)
    }
}
