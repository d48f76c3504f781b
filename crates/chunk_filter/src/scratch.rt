//! Vectors that are reused: what one scan no longer needs, the next one takes. The filter and the scans of rows and of
//! groups share them.

use column_eval::{Pool, Scratch as Columns};
use std::alloc::Global;

/// What scans reuse from one chunk and one query to the next. It begins with no vectors. It grows to as many
/// vectors of each kind as a scan used at one time. Each has room for the most rows that it was used for.
pub struct Scratch {
    /// The vectors of the evaluator.
    pub columns: Columns,
    /// Flags of rows and of conditions.
    pub flags: Pool<bool>,
    /// Values of a key column, for the scan of groups.
    pub cells: Pool<Option<i64>>,
    /// Row numbers.
    pub places: Pool<u32>,
    /// Packed keys, by which the scan of groups brings rows with the same key together.
    pub words: Pool<u64>,
}

// A derived drop would be proved again in each crate that drops one.
impl Drop for Scratch {
    fn drop(self) {
        let Scratch {
            columns,
            flags,
            cells,
            places,
            words,
        } = self;
    }
}

impl Scratch {
    /// Creates a scratch without vectors. Does not allocate.
    pub fn new(alloc: Global) -> Scratch {
        Scratch {
            columns: Columns::new(alloc),
            flags: Pool::new(alloc),
            cells: Pool::new(alloc),
            places: Pool::new(alloc),
            words: Pool::new(alloc),
        }
    }
}
