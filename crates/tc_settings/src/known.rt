//! The keys that a settings text may have.
use tc_users::{Field, Limit};

/// The fields outside of users' tables and the metrics' table.
const FIELDS: [Field; 8] = [
    Field::Listen,
    Field::Workers,
    Field::Journal,
    Field::Limited(Limit::LoginSeconds),
    Field::Limited(Limit::StalledSeconds),
    Field::Limited(Limit::UnboundConnections),
    Field::Metrics,
    Field::Users,
];

/// The fields of the `[metrics]` table.
const METRICS_FIELDS: [Field; 1] = [Field::MetricsListen];

/// The fields of a user's table.
const USER_FIELDS: [Field; 7] = [
    Field::Name(0),
    Field::Token(0),
    Field::Budget(0),
    Field::SecondToken(0),
    Field::Largest(0),
    Field::Limited(Limit::Connections(0)),
    Field::Limited(Limit::IdleSeconds(0)),
];

/// Whether the key is one of these fields.
fn is_among(fields: &[Field], key: &str) -> bool {
    fields.iter().any(|field| field.key() == key)
}

/// Whether a key at the top of the settings is a field.
pub fn is_field(key: &str) -> bool {
    is_among(&FIELDS, key)
}

/// Whether a key of the `[metrics]` table is a field.
pub fn is_metrics_field(key: &str) -> bool {
    is_among(&METRICS_FIELDS, key)
}

/// Whether a key of a user's table is a field.
pub fn is_user_field(key: &str) -> bool {
    is_among(&USER_FIELDS, key)
}
