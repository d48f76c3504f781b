//! The limits of texts. Each is defined here once; definitions and code refer to it.

/// The most bytes of a catalogue, and of any text that is cut into lines or records.
pub const TEXT_MOST: usize = 1 << 29;

/// The most bytes of the text of a sky plan.
pub const SKY_TEXT_MOST: usize = 1 << 16;

/// The most bytes of a script.
pub const SCRIPT_TEXT_MOST: usize = 1 << 23;

/// The most bytes of a line of a script, and so of a query.
pub const QUERY_TEXT_MOST: usize = 1 << 14;

/// The most queries of a script, which are numbered from 1.
pub const QUERIES_MOST: u32 = 255;

/// The most digits of a number of a sky plan or of a catalogue.
pub const INT_DIGITS_MOST: usize = 19;
