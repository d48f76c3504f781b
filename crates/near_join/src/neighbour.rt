//! A row that a sweep found near enough to another one, with what is computed of it once for all of its pairs.

/// A row's number in the table, its id, and whether the region of the subchunk holds it.
#[derive(Clone, Copy)]
pub(crate) struct Neighbour {
    pub place: u32,
    pub id: i64,
    pub held: bool,
}
