//! The limits of the object table. Each is defined here once; definitions and code refer to it.

/// The largest id. The least is 0.
pub const ID_MOST: u64 = (1 << 63) - 1;

/// The largest size of an extra value.
pub const FURTHER_MOST: u64 = 1 << 50;

/// The number of columns that every catalogue has: objectId, x, y and z.
pub const FIRST_COLUMNS: usize = 4;

/// The most extra columns.
pub const FURTHER_COLUMNS_MOST: usize = 12;

/// The most columns of a catalogue.
pub const COLUMNS_MOST: usize = FIRST_COLUMNS + FURTHER_COLUMNS_MOST;

/// The most bytes of a column's name.
pub const NAME_MOST: usize = 32;

/// The most rows of a catalogue.
pub const ROWS_MOST: usize = 1 << 22;
