//! Slots under tags, in shards of maps: an index that holds no keys.
//!
//! A slot is a number, and a tag is 32 bits of a hash. To find a key, a caller passes its tag and a
//! closure that says which slot under the tag is right. To remove a slot, it passes the slot's tag.
//!
//! Contracts see how often each slot is under each tag (`specs/Tags.antt`): once or not at all, if
//! the caller puts no slot there twice. Only `new`, `fresh` and `reserve` take memory.
//!
//! Each tag has a shard, and a shard has a map from tags to slots. Further slots under a tag that
//! the map has are in a list beside it, which is nearly always empty. Each shard grows by itself,
//! so growth never costs more than one shard's rebuild.
#![tactic(auto)]

mod index;
mod shard;

pub use index::Index;
pub use shard::{Shard, Tag};
pub use tc_item::Slot;
