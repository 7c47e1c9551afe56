//! Seats and books of one hall, with memory to spare, over both kinds of cache.

pub mod busy;
pub mod commands;
pub mod crowd;
pub mod pages;
pub mod refusals;
mod replayed;
pub mod scenes;
