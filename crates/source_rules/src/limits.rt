//! The limits of the source table that are not those of the object table.

/// The number of columns that every source table has: sourceId and objectId.
pub const SOURCE_FIRST_COLUMNS: usize = 2;

/// The most columns of a source table: those two and 12 extra ones.
pub const SOURCE_COLUMNS_MOST: usize = 14;
