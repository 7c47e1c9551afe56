//! The nodes of the wheel's ring. The first 4,097 are marks; slot n is node n + 4,097.
use crate::slot_due::SlotDue;
use std::mem::size_of;
use tc_ring::{Node, Ring};

/// How many buckets there are, one for each second.
pub const BUCKETS: usize = 4096;

/// The mark before the list of what is due, behind those of the buckets.
pub const DUE: usize = BUCKETS;

/// How many nodes are marks.
pub const MARKS: usize = DUE + 1;

/// All nodes, each with the due of its slot.
pub type Nodes = Ring<SlotDue, MARKS>;

const _: () = prove!(size_of::<Node<SlotDue>>() == 16);
