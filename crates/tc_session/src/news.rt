//! Events of a connection that an operator may want to see.
ghost use Rattle.std.specs.Prelude.{◌<◌, ◌≤◌, length, IfSome};

use tc_users::{UserNo, Users};

/// An event that deserves a line in a log. It holds no token.
#[derive(Clone, Copy, Debug, PartialEq, Eq)]
pub enum News {
    /// A login was refused. The user is the one named, or `None` if no user has that name.
    LoginRefused(Option<UserNo>),
    /// An unbound connection announced a block longer than a login may be.
    LongBlock,
    /// Memory was refused to a command or to its reply, or a command was declined.
    NoMemory,
}

/// Returns the user whose name is before the first space of a login's data.
pub(crate) fn named(users: &Users, text: &[u8]) -> Option<UserNo>
    ensures { IfSome result (λ user. (0 < user) × (user ≤ length users.now)) }
{
    let end = text.iter().position(|byte| *byte == b' ')?;
    let name = &text[..end];
    let place = users
        .rows()
        .iter()
        .position(|row| row.name.as_bytes() == name)?;
    let number = u32::try_from(place).ok()?.checked_add(1)?;
    Some(UserNo::new(number))
}
