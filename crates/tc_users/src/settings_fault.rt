//! Why settings are refused.
ghost use Rattle.std.specs.Prelude.{◌≡◌};
ghost use Rattle.tc_users.specs.Faults.{fault_number};
ghost use Rattle.tc_users.specs.Fields.{key_of};
ghost use Rattle.tc_users.specs.declared.settings_fault.SettingsFault.TheVariants.{NoMemory as OutOfMemory};

use crate::Limit;
use std::fmt;
use tc_item::NoMemory;
use thiserror::Error;

/// A field of the settings. A user's field has the user's number.
#[derive(Clone, Copy, Debug, PartialEq, Eq)]
pub enum Field {
    Listen,
    Workers,
    Journal,
    Metrics,
    /// `listen` in the `[metrics]` table.
    MetricsListen,
    Users,
    Name(u32),
    Token(u32),
    Budget(u32),
    SecondToken(u32),
    Largest(u32),
    Limited(Limit),
}

impl fmt::Display for Field {
    fn fmt<W: fmt::Write>(&self, f: &mut fmt::Formatter<W>) -> fmt::Result {
        match self.user() {
            None if *self == Field::MetricsListen => write!(f, "`metrics.listen`"),
            None => write!(f, "`{}`", self.key()),
            Some(user) => write!(f, "`{}` of user {user}", self.key()),
        }
    }
}

impl Field {
    /// Returns the field's name in the settings.
    pub fn key(&self) -> &'static str
        ensures { result.now ≡ key_of self.now }
    {
        match self {
            Field::Listen => "listen",
            Field::Workers => "workers",
            Field::Journal => "journal",
            Field::Metrics => "metrics",
            Field::MetricsListen => "listen",
            Field::Users => "user",
            Field::Name(_) => "name",
            Field::Token(_) => "token",
            Field::Budget(_) => "budget",
            Field::SecondToken(_) => "token2",
            Field::Largest(_) => "largest",
            Field::Limited(limit) => limit.key(),
        }
    }

    /// Returns the user whose field it is, if it is a user's.
    fn user(&self) -> Option<u32> {
        match self {
            Field::Listen
            | Field::Workers
            | Field::Journal
            | Field::Metrics
            | Field::MetricsListen
            | Field::Users => None,
            Field::Name(user)
            | Field::Token(user)
            | Field::Budget(user)
            | Field::SecondToken(user)
            | Field::Largest(user) => Some(*user),
            Field::Limited(limit) => limit.user(),
        }
    }

    /// Says in an operator's words what the field may hold.
    fn wanted(&self) -> &'static str {
        match self {
            Field::Listen => "an address and a port in quotes, as \"127.0.0.1:11211\"",
            Field::Metrics => "a [metrics] table",
            Field::MetricsListen => "an address and a port in quotes, as \"127.0.0.1:9150\"",
            Field::Workers => "a whole number, 1 to 64",
            Field::Journal => "a whole number, 16 to 65536",
            Field::Users => "a [[user]] table for each user",
            Field::Name(_) => "1 to 64 letters, digits, `_`, `-` and `.` in quotes",
            Field::Token(_) | Field::SecondToken(_) => {
                "1 to 128 printable ASCII characters without a space, in quotes"
            }
            Field::Budget(_) => "a whole number of bytes, 65536 to 1073741824",
            Field::Largest(_) => "a whole number of bytes, 1 to 1048576",
            Field::Limited(limit) => limit.wanted(),
        }
    }
}

/// What a field holds if it is missing or of the wrong type.
#[derive(Clone, Copy, Debug, PartialEq, Eq)]
pub enum Found {
    Nothing,
    Text,
    WholeNumber,
    Float,
    Boolean,
    DateTime,
    /// For the users: an array with an element that is no table.
    Array,
    Table,
}

impl fmt::Display for Found {
    fn fmt<W: fmt::Write>(&self, f: &mut fmt::Formatter<W>) -> fmt::Result {
        match self {
            Found::Nothing => write!(f, "is missing"),
            Found::Text => write!(f, "is a text in quotes"),
            Found::WholeNumber => write!(f, "is a whole number"),
            Found::Float => write!(f, "is a number with a point or an exponent"),
            Found::Boolean => write!(f, "is true or false"),
            Found::DateTime => write!(f, "is a date or a time"),
            Found::Array => write!(f, "is an array"),
            Found::Table => write!(f, "is a table"),
        }
    }
}

/// Why bytes are no name or no token.
#[derive(Clone, Copy, Debug, PartialEq, Eq)]
pub enum TextFault {
    Empty,
    TooLong { length: usize },
    /// `place` counts from 0.
    BadByte { place: usize, byte: u8 },
}

impl fmt::Display for TextFault {
    fn fmt<W: fmt::Write>(&self, f: &mut fmt::Formatter<W>) -> fmt::Result {
        match self {
            TextFault::Empty => write!(f, "is empty"),
            TextFault::TooLong { length } => write!(f, "has {length} bytes"),
            TextFault::BadByte { place, byte } => {
                write!(
                    f,
                    "has the byte {byte} (0x{byte:02x}) after {place} good ones"
                )
            }
        }
    }
}

/// The first fault of the settings or of the users' rows. It never shows a token.
#[derive(Clone, Copy, Debug, PartialEq, Eq, Error)]
pub enum SettingsFault {
    #[error("the settings are not TOML: {0}")]
    NotToml(toml::de::Error),
    #[error("{field} {found}; wanted: {want}", want = .field.wanted())]
    Missing { field: Field, found: Found },
    #[error("`name` of user {user} {fault}; wanted: {want}", want = Field::Name(0).wanted())]
    BadName { user: u32, fault: TextFault },
    #[error("`name` of user {user} is that of user {first}; wanted: another name for each user")]
    SameName { user: u32, first: u32 },
    #[error("`budget` of user {user} is {found}; wanted: {want}", want = Field::Budget(0).wanted())]
    BudgetRange { user: u32, found: i128 },
    #[error("there is no user; wanted: {want}", want = Field::Users.wanted())]
    NoUser,
    #[error("`workers` is {found}; wanted: {want}", want = Field::Workers.wanted())]
    WorkersRange { found: i64 },
    #[error("`journal` is {found}; wanted: {want}", want = Field::Journal.wanted())]
    JournalRange { found: i64 },
    #[error("out of memory")]
    NoMemory,
    /// The field is a user's token or second token.
    #[error("{field} {fault}; wanted: {want}", want = .field.wanted())]
    BadToken { field: Field, fault: TextFault },
    #[error("`largest` of user {user} is {found}; wanted: {want}", want = Field::Largest(0).wanted())]
    LargestRange { user: u32, found: i128 },
    #[error("`token2` of user {user} is its `token`; wanted: another token, or no `token2`")]
    SameToken { user: u32 },
    #[error("there are {found} users; wanted: at most 4294967295")]
    TooManyUsers { found: usize },
    #[error("{limit} is {found}; wanted: {want}", want = .limit.wanted())]
    LimitRange { limit: Limit, found: i64 },
}

impl From<NoMemory> for SettingsFault {
    ghost from_gives = { λ _ e. e ≡ OutOfMemory };

    fn from(_refused: NoMemory) -> SettingsFault {
        SettingsFault::NoMemory
    }
}

impl SettingsFault {
    /// Returns the fault's number, 1 to 18.
    pub fn number(&self) -> u8
        ensures { result ≡ fault_number self.now }
    {
        match self {
            SettingsFault::NotToml(_) => 1,
            SettingsFault::Missing { .. } => 2,
            SettingsFault::BadName { .. } => 3,
            SettingsFault::SameName { .. } => 4,
            SettingsFault::BudgetRange { .. } => 5,
            SettingsFault::NoUser => 6,
            SettingsFault::WorkersRange { .. } => 7,
            SettingsFault::JournalRange { .. } => 8,
            SettingsFault::NoMemory => 9,
            SettingsFault::BadToken { .. } => 10,
            SettingsFault::LargestRange { .. } => 11,
            SettingsFault::SameToken { .. } => 12,
            SettingsFault::TooManyUsers { .. } => 13,
            SettingsFault::LimitRange { limit, .. } => limit.fault_number(),
        }
    }
}
