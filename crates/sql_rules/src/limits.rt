//! The limits of the grammar. Each is defined here once; definitions and code refer to it.

use sql_token::limits::BRACKETS_MOST;

/// The most levels of nested expressions: the outermost one, and one in each bracket that may be open.
pub const LEVELS_MOST: u32 = BRACKETS_MOST + 1;

/// The most columns of GROUP BY.
pub const GROUP_COLUMNS_MOST: usize = 4;
