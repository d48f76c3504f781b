//! Worked examples of records that are a source table or have a first fault, evaluated by the checker.

ghost use Rattle.std.specs.Prelude.{◌≡◌, [], ◌∷◌, ◌++◌, Err, Ok, None, Some, codes, negsuc, pos};
ghost use Rattle.table_rules.specs.declared.fault.LoadFault.TheVariants.{FieldCount, Header};
ghost use Rattle.table_rules.specs.declared.fault.LoadFault.TheVariants.{Number, Range, Repeated};
ghost use Rattle.table_rules.specs.Examples.{twelve};
ghost use Rattle.sky_rules.specs.Examples.{halves};
ghost use Rattle.source_rules.specs.SourceExamples.{five, five_sources, three_objects, source, two};
ghost use Rattle.source_rules.specs.SourceExamples.{under_four_names, under_two, with_names};
ghost use Rattle.source_rules.specs.SourceNames.{source_column_of};
ghost use Rattle.source_rules.specs.SourcePlaces.{chunk_sources};
ghost use Rattle.source_rules.specs.SourceRecords.{sources_of_records};
ghost use Rattle.source_rules.specs.Sources.{source_bound, source_cell};

/// No record, a header that is cut, names that no extra column can have, and one more than there may be. An extra column
/// may have the name x.
pub fn faults_of_a_header()
    ensures nothing { sources_of_records [] ≡ Err (Header 1) }
    ensures objects { sources_of_records ((codes "objectId" ∷ []) ∷ []) ≡ Err (Header 1) }
    ensures one { sources_of_records ((codes "sourceId" ∷ []) ∷ []) ≡ Err (Header 2) }
    ensures second { sources_of_records (two (codes "sourceId") (codes "x") ∷ []) ≡ Err (Header 2) }
    ensures twice { sources_of_records (with_names (codes "objectId" ∷ []) ∷ []) ≡ Err (Header 3) }
    ensures digit { sources_of_records (with_names (two (codes "x") (codes "9a")) ∷ [])
        ≡ Err (Header 4) }
    ensures many { sources_of_records (with_names (twelve ++ (codes "z" ∷ [])) ∷ [])
        ≡ Err (Header 15) }
    ensures most { sources_of_records (with_names twelve ∷ [])
        ≡ Ok (record { names = twelve; sources = [] }) }
{}

/// A fault in each part of a record. An empty objectId is not NULL, and there is no position to check.
pub fn faults_of_a_source()
    ensures count { under_two ((codes "1" ∷ []) ∷ []) ≡ Err (FieldCount 1 1) }
    ensures empty { under_two (two (codes "1") [] ∷ []) ≡ Err (Number 1 2) }
    ensures range { under_two (two (codes "1") (codes "-1") ∷ []) ≡ Err (Range 1 2 (negsuc 0)) }
    ensures further { sources_of_records (with_names (codes "f" ∷ [])
        ∷ (two (codes "1") (codes "2") ++ (codes "1125899906842625" ∷ [])) ∷ [])
        ≡ Err (Range 1 3 (pos 1125899906842625)) }
    ensures largest { under_two
        (two (codes "9223372036854775807") (codes "9223372036854775807") ∷ [])
        ≡ Ok (record {
          names = [];
          sources = source (pos 9223372036854775807)
              (pos 9223372036854775807) [] ∷ [];
        }) }
{}

/// Of two sources with one id the second is the fault. Two sources of one object are none.
pub fn first_of_the_sources()
    ensures repeated { under_two (two (codes "7") (codes "1") ∷ two (codes "8") (codes "1")
        ∷ two (codes "7") (codes "2") ∷ (codes "1" ∷ []) ∷ []) ≡ Err (Repeated 3 (pos 7)) }
    ensures earlier { under_two ((codes "1" ∷ []) ∷ two (codes "7") (codes "1")
        ∷ two (codes "7") (codes "1") ∷ []) ≡ Err (FieldCount 1 1) }
{}

/// Sources are in ascending order of id. An empty extra field is NULL, and an objectId that no object has is no fault.
pub fn accepted_sources()
    ensures { under_four_names five ≡ Ok (record {
      names = two (codes "flux") (codes "t");
      sources = source (pos 101) (pos 1) (Some (pos 11) ∷ None ∷ [])
          ∷ source (pos 102) (pos 4) (Some (pos 41) ∷ Some (pos 1) ∷ [])
          ∷ source (pos 103) (pos 1) (Some (pos 12) ∷ Some (pos 2) ∷ [])
          ∷ source (pos 104) (pos 99) (Some (pos 5) ∷ Some (pos 2) ∷ [])
          ∷ source (pos 105) (pos 5) (Some (pos 51) ∷ Some (pos 2) ∷ [])
          ∷ [];
    }) }
{}

/// Columns by their names and numbers.
pub fn columns_of_a_source()
    ensures id { source_column_of (codes "flux" ∷ []) (codes "sourceId") ≡ Some 0 }
    ensures flux { source_column_of (codes "flux" ∷ []) (codes "flux") ≡ Some 2 }
    ensures none { source_column_of (codes "flux" ∷ []) (codes "x") ≡ None }
    ensures object { source_cell (source (pos 101) (pos 1) (Some (pos 11) ∷ [])) 1 ≡ Some (pos 1) }
    ensures value { source_cell (source (pos 101) (pos 1) (Some (pos 11) ∷ [])) 2 ≡ Some (pos 11) }
    ensures null { source_cell (source (pos 101) (pos 1) (None ∷ [])) 2 ≡ None }
    ensures ids { source_bound 1 ≡ pos 9223372036854775807 }
    ensures further { source_bound 2 ≡ pos 1125899906842624 }
{}

/// The sources of the chunks of a sky. The first object has two, and the source of no object is in no chunk.
#[tactic(auto, unfolding(wedge_rules::specs::Heading::heading, wedge_rules::specs::Heading::walk))]
pub fn sources_of_the_chunks()
    ensures meridian { chunk_sources halves three_objects five_sources 4 ≡ 0 ∷ 2 ∷ [] }
    ensures west { chunk_sources halves three_objects five_sources 7 ≡ 1 ∷ [] }
    ensures below { chunk_sources halves three_objects five_sources 0 ≡ 4 ∷ [] }
    ensures empty { chunk_sources halves three_objects five_sources 1 ≡ [] }
{}
