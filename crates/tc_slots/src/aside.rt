//! Tables set aside, which are freed in pieces.
//!
//! Freeing 900,000 entries takes some 70 ms, and freeing a table of 60 MiB some milliseconds. A
//! flush that did it at once would hold the cache that long. So tables wait here whole, and each
//! later change and each piece of maintenance frees a few pieces of them.
use crate::tables::Tables;
use std::alloc::Global;
use tc_item::NoMemory;

/// One call stops once it has freed this many bytes.
const HEAVY: u64 = 131_072;

/// Tables that wait to be freed.
#[derive(Drop)]
pub struct Aside {
    tables: Vec<Tables>,
}

impl Aside {
    /// No tables.
    pub fn new(alloc: Global) -> Aside {
        Aside {
            tables: Vec::new(alloc),
        }
    }

    /// Makes room for one more set of tables.
    pub fn make_room(&mut self) -> Result<(), NoMemory> {
        self.tables.reserve(1)?;
        Ok(())
    }

    /// Keeps tables until they are freed. Without room for them it frees them at once.
    pub fn add(&mut self, tables: Tables) {
        let _ = self.tables.push(tables);
    }

    /// Frees at most `most` pieces, if any tables wait.
    pub fn let_go(&mut self, most: usize) {
        if !self.tables.is_empty() {
            self.let_some_go(most);
        }
    }

    /// Frees at most `most` pieces, if any tables wait; kept out of line.
    #[inline(never)]
    fn let_some_go(&mut self, most: usize) {
        let mut weight: u64 = 0;
        for _ in 0..most {
            let Some(went) = self.let_piece_go() else {
                return;
            };
            weight = weight.saturating_add(went);
            if weight >= HEAVY {
                return;
            }
        }
    }

    /// Frees one piece of the tables added last, and returns its weight in bytes.
    fn let_piece_go(&mut self) -> Option<u64> {
        let went = self.tables.last_mut()?.let_piece_go();
        if went.is_some() {
            return went;
        }
        drop(self.tables.pop());
        Some(0)
    }
}
