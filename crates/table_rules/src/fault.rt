//! The faults of a catalogue.

use thiserror::Error;

/// The first fault of a catalogue. Data rows and fields are numbered from 1.
#[derive(Clone, Copy, Debug, PartialEq, Eq, Error)]
pub enum LoadFault {
    /// A field of the header is not the name that it has to be. One of the first four has another name or is missing,
    /// or an extra one is no name, repeats a name or is the 17th.
    #[error("wrong header")]
    Header { field: u32 },
    /// The row has `count` fields, and the header has another number of them.
    #[error("wrong number of fields")]
    FieldCount { row: u32, count: u32 },
    /// The field is neither a number nor an empty field after the fourth.
    #[error("not a number")]
    Number { row: u32, field: u32 },
    /// The field is a number outside the range of its column.
    #[error("number out of range")]
    Range { row: u32, field: u32, value: i128 },
    /// The row's position isn't admissible: it is too far from the sphere.
    #[error("position off the sphere")]
    Length { row: u32 },
    /// An earlier row has the id.
    #[error("id there already")]
    Repeated { row: u32, id: i64 },
    /// There are more than 2^22 rows.
    #[error("too many rows")]
    TooManyRows,
}
