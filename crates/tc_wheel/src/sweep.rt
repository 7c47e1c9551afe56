//! The moves of what is due from its bucket to the list of what is due.
ghost use Rattle.std.specs.Prelude.{◌≡◌, ℕ, ◌+◌, ◌%◌, ◌<◌, ◌≤◌, length};
ghost use Rattle.tc_wheel.specs.Dues.{due_at, is_due};
ghost use Rattle.tc_wheel.specs.Kept.{list_of, IsSwept, IsListed, IsNext};

use crate::nodes::{BUCKETS, DUE, MARKS, Nodes};
use tc_item::Moment;

/// Returns the bucket of the slots that are due at a second.
fn bucket_of(second: u64) -> usize
    ensures { result ≡ second % 4096 }
{
    (second % BUCKETS as u64) as usize
}

/// Returns the mark of the list for a due: that of what is due if the moment has reached it,
/// otherwise its bucket's.
pub fn list_of(due: Moment, moment: Moment) -> usize
    ensures { result ≡ list_of 4096 moment due }
{
    if due <= moment {
        DUE
    } else {
        bucket_of(due.seconds())
    }
}

/// Returns whether the slot of a node is due at a moment.
fn is_due(nodes: &Nodes, at: usize, moment: Moment) -> bool
    requires { at < length nodes.now.next }
    ensures { result ≡ is_due moment (due_at nodes.now.notes at) }
{
    match nodes.node(at).note.moment() {
        Some(due) => due <= moment,
        None => false,
    }
}

/// Walks the bucket of the second that is `back` seconds before a moment, and moves what is due at
/// that moment.
fn walk_bucket(nodes: &mut Nodes, moment: Moment, back: u64)
    requires passed { back ≤ moment }
    requires swept { IsSwept 4096 moment (back + 1) nodes.old }
    ensures swept { IsSwept 4096 moment back nodes.new }
    ensures dues { nodes.new.notes ≡ nodes.old.notes }
{
    let mut at = nodes.node(bucket_of(moment.seconds() - back)).next as usize;
    for _step in 0..nodes.slots() {
        if at < MARKS {
            return;
        }
        let next = nodes.node(at).next as usize;
        if is_due(nodes, at, moment) {
            nodes.unlink(at);
            nodes.link_behind(DUE, at);
        }
        at = next;
    }
}

/// Returns a node of the list of what is due whose slot is due at a moment.
fn next_due(nodes: &Nodes, moment: Moment) -> Option<usize>
    requires { (now : ℕ) × (left : ℕ) × IsSwept 4096 now left nodes.now }
    ensures { IsListed result moment nodes.now }
{
    let mut at = nodes.node(DUE).next as usize;
    for _step in 0..nodes.slots() {
        if at < MARKS {
            return None;
        }
        if is_due(nodes, at, moment) {
            return Some(at);
        }
        at = nodes.node(at).next as usize;
    }
    None
}

/// Returns a node whose slot is due at `moment`, or none if no slot is due by then. `moment` is at
/// most `now`.
///
/// It walks the buckets of the `left` seconds up to `now` until it finds one, and before each it
/// searches the list of what is due. If `moment` is `now`, the first of the list is due. Otherwise
/// it goes through the whole list.
pub fn find_due(nodes: &mut Nodes, now: Moment, left: &mut u64, moment: Moment) -> Option<usize>
    requires order { moment ≤ now }
    requires passed { left.old ≤ now }
    requires swept { IsSwept 4096 now left.old nodes.old }
    ensures fewer { left.new ≤ left.old }
    ensures swept { IsSwept 4096 now left.new nodes.new }
    ensures dues { nodes.new.notes ≡ nodes.old.notes }
    ensures found { IsNext result moment nodes.new }
{
    while *left > 0 {
        if let Some(at) = next_due(nodes, moment) {
            return Some(at);
        }
        *left -= 1;
        walk_bucket(nodes, now, *left);
    }
    next_due(nodes, moment)
}
