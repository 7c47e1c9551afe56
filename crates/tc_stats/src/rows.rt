//! A user's counters as the rows of `stats`.
ghost use Rattle.std.specs.Prelude.{◌≡◌, ◌+◌, ◌*◌, ◌<◌, ◌≤◌, ◌++◌, IsTrue, nat_le, decimal, map, length, vec_len, vec_capacity};
ghost use Rattle.std.specs.Prelude.{OnOk, OnErr};
ghost use Rattle.std.specs.List.{flat_map, list_all};
ghost use Rattle.tc_stats.specs.StatsRows.{named_numbers, row_of, stats_rows};

use crate::Counters;
use itoa::Buffer;
use tc_item::NoMemory;

/// The server's version.
pub const VERSION: &str = "1.0.0-partcached";

/// The most bytes that all rows take.
pub const MOST_BYTES: usize = 1_063;

/// Appends bytes, for which there must be room.
fn write(out: &mut Vec<u8>, text: &[u8])
    requires { vec_len out.old + length text.now ≤ vec_capacity out.old }
    ensures items { out.new.items ≡ out.old.items ++ text.now }
    ensures len { vec_len out.new ≡ vec_len out.old + length text.now }
    ensures capacity { vec_capacity out.old ≤ vec_capacity out.new }
{
    let _ = out.extend_from_slice(text);
}

/// Appends a row, for which there must be room.
#[tactic(auto, unfolding(crate::specs::StatsRows::row_of))]
fn write_row(out: &mut Vec<u8>, name: &str, value: &str)
    requires { vec_len out.old + (length name.now + length value.now + 8) ≤ vec_capacity out.old }
    ensures items { out.new.items ≡ out.old.items ++ row_of name.now value.now }
    ensures len { vec_len out.new ≡ vec_len out.old + (length name.now + length value.now + 8) }
    ensures capacity { vec_capacity out.old ≤ vec_capacity out.new }
{
    write(out, b"STAT ");
    write(out, name.as_bytes());
    write(out, b" ");
    write(out, value.as_bytes());
    write(out, b"\r\n");
}

/// Appends a number's row, for which there must be room: 43 bytes for a name of up to 15.
fn write_number(out: &mut Vec<u8>, name: &str, number: u64)
    requires room { vec_len out.old + 43 ≤ vec_capacity out.old }
    requires short { length name.now ≤ 15 }
    ensures items { out.new.items ≡ out.old.items ++ row_of name.now (decimal number) }
    ensures len { vec_len out.new ≤ vec_len out.old + 43 }
    ensures capacity { vec_capacity out.old ≤ vec_capacity out.new }
{
    let mut buffer = Buffer::new();
    write_row(out, name, buffer.format(number));
}

/// Appends numbers' rows with names of up to 15 bytes. There must be room for 43 bytes a row.
fn write_numbers(out: &mut Vec<u8>, rows: &[(&str, u64)])
    requires room { vec_len out.old + 43 * length rows.now ≤ vec_capacity out.old }
    requires short { IsTrue (list_all (λ r. nat_le (length r.0.now) 15) rows.now) }
    ensures items { out.new.items ≡ out.old.items
        ++ flat_map (λ r. row_of r.0.now (decimal r.1)) rows.now }
    ensures capacity { vec_capacity out.old ≤ vec_capacity out.new }
{
    for (name, number) in rows {
        write_number(out, name, *number);
    }
}

impl Counters {
    /// Returns the counters with their names, in the order of the rows.
    fn rows(&self) -> [(&'static str, u64); 24]
        ensures rows { map (λ r. (r.0.now, r.1)) result ≡ named_numbers self.now }
        ensures short { IsTrue (list_all (λ r. nat_le (length r.0.now) 15) result) }
    {
        [
            ("curr_items", self.curr_items),
            ("total_items", self.total_items),
            ("bytes", self.bytes),
            ("cmd_get", self.cmd_get),
            ("cmd_set", self.cmd_set),
            ("cmd_flush", self.cmd_flush),
            ("cmd_touch", self.cmd_touch),
            ("get_hits", self.get_hits),
            ("get_misses", self.get_misses),
            ("delete_misses", self.delete_misses),
            ("delete_hits", self.delete_hits),
            ("incr_misses", self.incr_misses),
            ("incr_hits", self.incr_hits),
            ("decr_misses", self.decr_misses),
            ("decr_hits", self.decr_hits),
            ("cas_misses", self.cas_misses),
            ("cas_hits", self.cas_hits),
            ("cas_badval", self.cas_badval),
            ("touch_hits", self.touch_hits),
            ("touch_misses", self.touch_misses),
            ("evictions", self.evictions),
            ("limit_maxbytes", self.limit_maxbytes),
            ("item_size_max", self.item_size_max),
            ("store_too_large", self.store_too_large),
        ]
    }

    /// Appends the rows of `stats` without the END that a reply has behind them. If memory is
    /// refused, `out` is unchanged; that happens only if it has less than `MOST_BYTES` of room.
    #[tactic(auto, unfolding(crate::specs::StatsRows::stats_rows))]
    pub fn render(&self, out: &mut Vec<u8>) -> Result<(), NoMemory>
        ensures rows { OnOk result (out.new.items ≡ out.old.items ++ stats_rows self.now) }
        ensures unchanged_on_err { OnErr result (out.new.items ≡ out.old.items) }
        ensures refused { OnErr result (vec_capacity out.old < vec_len out.old + MOST_BYTES) }
        ensures capacity { vec_capacity out.old ≤ vec_capacity out.new }
    {
        out.reserve(MOST_BYTES)?;
        write_row(out, "version", VERSION);
        write_numbers(out, &self.rows());
        Ok(())
    }
}
