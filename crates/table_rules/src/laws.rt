//! Lemmas about accepted catalogues, stated as functions that do nothing: a caller obtains what they ensure.

ghost use Rattle.table_rules.specs.Laws.{AcceptedIsCatalogue, ApartHaveATable, ObjectsAreTheDataRows, OneTable};

/// The catalogue that records are accepted as has rows within the limits.
pub fn accepted_is_catalogue()
    ensures { AcceptedIsCatalogue }
{}

/// The rows of an accepted catalogue are those of its data rows, each once.
pub fn objects_are_the_data_rows()
    ensures { ObjectsAreTheDataRows }
{}

/// Rows no two of which have the same id have a table: they are its rows in ascending order of id.
pub fn apart_have_a_table()
    ensures { ApartHaveATable }
{}

/// Rows have at most one table.
pub fn one_table()
    ensures { OneTable }
{}
