//! The metrics of each user.
ghost use Rattle.std.specs.Prelude.{◌≡◌};
ghost use Rattle.tc_metrics.specs.MetricsText.{metric_name, metric_help, is_gauge, metric_number};
ghost use Rattle.tc_metrics.specs.MetricsText.{all_metrics};

use crate::Closed;
use tc_stats::Counters;

/// The figures of one user.
#[derive(Drop)]
pub struct UserFigures {
    /// The user's name: letters, digits, `_`, `-` and `.`.
    pub name: Vec<u8>,
    /// How many connections of the user are open.
    pub connections: u64,
    /// How many calls the user's cache had, those of the metrics among them.
    pub calls: u64,
    /// How many bytes the entries of the user's page keep.
    pub journal: u64,
    /// Logins with the user's name that were refused.
    pub refused_logins: u64,
    /// Commands of the user that were answered `SERVER_ERROR out of memory`.
    pub no_memory: u64,
    /// Connections of the user that a limit closed.
    pub closed: Closed,
    /// The counters that its `stats` shows.
    pub counters: Counters,
}

/// A metric that each user has: its connections, its calls, its journal, what was refused to it, or
/// a row of its `stats`.
#[derive(Clone, Copy, PartialEq, Eq)]
pub enum Metric {
    Connections,
    JournalCalls,
    JournalBytes,
    RefusedLogins,
    NoMemory,
    CurrItems,
    TotalItems,
    Bytes,
    CmdGet,
    CmdSet,
    CmdFlush,
    CmdTouch,
    GetHits,
    GetMisses,
    DeleteMisses,
    DeleteHits,
    IncrMisses,
    IncrHits,
    DecrMisses,
    DecrHits,
    CasMisses,
    CasHits,
    CasBadval,
    TouchHits,
    TouchMisses,
    Evictions,
    LimitMaxbytes,
    ItemSizeMax,
    StoreTooLarge,
}

impl Metric {
    /// Returns all metrics, in the order in which the text has them.
    #[tactic(auto, unfolding(crate::specs::MetricsText::all_metrics))]
    pub fn all() -> [Metric; 29]
        ensures { result ≡ all_metrics }
    {
        [
            Metric::Connections,
            Metric::JournalCalls,
            Metric::JournalBytes,
            Metric::RefusedLogins,
            Metric::NoMemory,
            Metric::CurrItems,
            Metric::TotalItems,
            Metric::Bytes,
            Metric::CmdGet,
            Metric::CmdSet,
            Metric::CmdFlush,
            Metric::CmdTouch,
            Metric::GetHits,
            Metric::GetMisses,
            Metric::DeleteMisses,
            Metric::DeleteHits,
            Metric::IncrMisses,
            Metric::IncrHits,
            Metric::DecrMisses,
            Metric::DecrHits,
            Metric::CasMisses,
            Metric::CasHits,
            Metric::CasBadval,
            Metric::TouchHits,
            Metric::TouchMisses,
            Metric::Evictions,
            Metric::LimitMaxbytes,
            Metric::ItemSizeMax,
            Metric::StoreTooLarge,
        ]
    }

    /// Returns its name.
    pub fn name(self) -> &'static str
        ensures { result.now ≡ metric_name self }
    {
        match self {
            Metric::Connections => "partcached_connections",
            Metric::JournalCalls => "partcached_journal_calls_total",
            Metric::JournalBytes => "partcached_journal_bytes",
            Metric::RefusedLogins => "partcached_user_refused_logins_total",
            Metric::NoMemory => "partcached_no_memory_total",
            Metric::CurrItems => "partcached_curr_items",
            Metric::TotalItems => "partcached_total_items_total",
            Metric::Bytes => "partcached_bytes",
            Metric::CmdGet => "partcached_cmd_get_total",
            Metric::CmdSet => "partcached_cmd_set_total",
            Metric::CmdFlush => "partcached_cmd_flush_total",
            Metric::CmdTouch => "partcached_cmd_touch_total",
            Metric::GetHits => "partcached_get_hits_total",
            Metric::GetMisses => "partcached_get_misses_total",
            Metric::DeleteMisses => "partcached_delete_misses_total",
            Metric::DeleteHits => "partcached_delete_hits_total",
            Metric::IncrMisses => "partcached_incr_misses_total",
            Metric::IncrHits => "partcached_incr_hits_total",
            Metric::DecrMisses => "partcached_decr_misses_total",
            Metric::DecrHits => "partcached_decr_hits_total",
            Metric::CasMisses => "partcached_cas_misses_total",
            Metric::CasHits => "partcached_cas_hits_total",
            Metric::CasBadval => "partcached_cas_badval_total",
            Metric::TouchHits => "partcached_touch_hits_total",
            Metric::TouchMisses => "partcached_touch_misses_total",
            Metric::Evictions => "partcached_evictions_total",
            Metric::LimitMaxbytes => "partcached_limit_maxbytes",
            Metric::ItemSizeMax => "partcached_item_size_max",
            Metric::StoreTooLarge => "partcached_store_too_large_total",
        }
    }

    /// Returns its help, of one line.
    pub fn help(self) -> &'static str
        ensures { result.now ≡ metric_help self }
    {
        match self {
            Metric::Connections => "Open connections of the user.",
            Metric::JournalCalls => "Calls of the user's cache, those of the metrics among them.",
            Metric::JournalBytes => "Bytes that the entries of the user's page keep.",
            Metric::RefusedLogins => "Refused logins with the user's name.",
            Metric::NoMemory => "Commands of the user that were answered out of memory.",
            Metric::CurrItems => "Items that the user holds.",
            Metric::TotalItems => "Items that the user stored.",
            Metric::Bytes => "Bytes that the user's items take of its budget.",
            Metric::CmdGet => "Keys that were looked up.",
            Metric::CmdSet => "Commands that store.",
            Metric::CmdFlush => "Commands flush_all.",
            Metric::CmdTouch => "Keys that were touched.",
            Metric::GetHits => "Keys that were looked up and found.",
            Metric::GetMisses => "Keys that were looked up and not found.",
            Metric::DeleteMisses => "Keys that were to be deleted and not found.",
            Metric::DeleteHits => "Keys that were deleted.",
            Metric::IncrMisses => "Keys that were to be incremented and not found.",
            Metric::IncrHits => "Keys that were incremented.",
            Metric::DecrMisses => "Keys that were to be decremented and not found.",
            Metric::DecrHits => "Keys that were decremented.",
            Metric::CasMisses => "Keys that were to be stored by cas and not found.",
            Metric::CasHits => "Keys that were stored by cas.",
            Metric::CasBadval => "Keys that were to be stored by cas and had changed.",
            Metric::TouchHits => "Keys that were touched and found.",
            Metric::TouchMisses => "Keys that were to be touched and not found.",
            Metric::Evictions => "Items that were dropped for others.",
            Metric::LimitMaxbytes => "The user's budget in bytes.",
            Metric::ItemSizeMax => "The most data bytes of one item.",
            Metric::StoreTooLarge => "Items that were too large to be stored.",
        }
    }

    /// Whether it is a gauge, which may go down; otherwise it is a counter.
    pub fn is_gauge(self) -> bool
        ensures { result ≡ is_gauge self }
    {
        matches!(
            self,
            Metric::Connections
                | Metric::JournalBytes
                | Metric::CurrItems
                | Metric::Bytes
                | Metric::LimitMaxbytes
                | Metric::ItemSizeMax
        )
    }

    /// Returns its value for a user.
    pub fn number(self, user: &UserFigures) -> u64
        ensures { result ≡ metric_number self user.now }
    {
        match self {
            Metric::Connections => user.connections,
            Metric::JournalCalls => user.calls,
            Metric::JournalBytes => user.journal,
            Metric::RefusedLogins => user.refused_logins,
            Metric::NoMemory => user.no_memory,
            Metric::CurrItems => user.counters.curr_items,
            Metric::TotalItems => user.counters.total_items,
            Metric::Bytes => user.counters.bytes,
            Metric::CmdGet => user.counters.cmd_get,
            Metric::CmdSet => user.counters.cmd_set,
            Metric::CmdFlush => user.counters.cmd_flush,
            Metric::CmdTouch => user.counters.cmd_touch,
            Metric::GetHits => user.counters.get_hits,
            Metric::GetMisses => user.counters.get_misses,
            Metric::DeleteMisses => user.counters.delete_misses,
            Metric::DeleteHits => user.counters.delete_hits,
            Metric::IncrMisses => user.counters.incr_misses,
            Metric::IncrHits => user.counters.incr_hits,
            Metric::DecrMisses => user.counters.decr_misses,
            Metric::DecrHits => user.counters.decr_hits,
            Metric::CasMisses => user.counters.cas_misses,
            Metric::CasHits => user.counters.cas_hits,
            Metric::CasBadval => user.counters.cas_badval,
            Metric::TouchHits => user.counters.touch_hits,
            Metric::TouchMisses => user.counters.touch_misses,
            Metric::Evictions => user.counters.evictions,
            Metric::LimitMaxbytes => user.counters.limit_maxbytes,
            Metric::ItemSizeMax => user.counters.item_size_max,
            Metric::StoreTooLarge => user.counters.store_too_large,
        }
    }
}
