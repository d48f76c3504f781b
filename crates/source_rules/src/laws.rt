//! Lemmas about accepted source tables, stated as functions that do nothing: a caller obtains what they ensure.

ghost use Rattle.table_rules.specs.Laws.{DistinctAreInOrder, OneOrder};
ghost use Rattle.source_rules.specs.SourceLaws.{AcceptedIsASourceTable, SourcesAreTheRecords};
ghost use Rattle.source_rules.specs.SourceRecords.{id_of_source};

/// The table that records are accepted as has sources within the limits.
pub fn accepted_is_a_source_table()
    ensures { AcceptedIsASourceTable }
{}

/// The sources of an accepted table are those of its records, each once.
pub fn sources_are_the_records()
    ensures { SourcesAreTheRecords }
{}

/// Sources no two of which have the same id have one table in ascending order of id, and no other.
pub fn distinct_sources_are_in_order()
    ensures table { DistinctAreInOrder id_of_source }
    ensures only { OneOrder id_of_source }
{}
