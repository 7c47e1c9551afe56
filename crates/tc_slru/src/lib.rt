//! The lists of one user's items, by slot: window, probation and protected under access and settle.
//!
//! `Lists` meets `specs/Areas.antt` of tc_model, over slots: `access` is `accessed`, and
//! `settle_step`, called until it returns none, is `settle`. Contracts see limits, reserved slots
//! and three lists of slots with their weights, front to back. The contracts are the equations of
//! `specs/SlotLists.antt`.
//!
//! Only `new`, `fresh`, `reserve` and `slots_in` take memory. `clear` and `reserve` take time in
//! the number of nodes, and `slots_in` in the length of its list. All other calls take constant
//! time, except for settle's victims and protected's demotions.
//!
//! In a settle each demotion, entry and drop takes constant time. A candidate with k victims costs
//! at most k comparisons, in one walk from main's tail that stops at the first item seen as often.
//! If the victims reach into protected, protected's last items first go to probation's front, so
//! that the candidate enters in front of them all. They are dropped as main's excess, without a
//! second walk.
//!
//! No clause says how often a closure is called, or covers a closure that answers differently for
//! one slot.
#![tactic(auto)]

mod area;
mod linked_areas;
mod lists;
mod nodes;
mod settle;

pub use area::Area;
pub use lists::{Lists, Weights};
pub use tc_item::Slot;
