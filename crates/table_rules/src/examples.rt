//! Worked examples of records that are a catalogue or have a first fault, evaluated by the checker.

ghost use Rattle.std.specs.Prelude.{◌≡◌, [], ◌∷◌, ◌++◌, Err, Ok, None, Some, codes, false, pos, take, true};
ghost use Rattle.table_rules.specs.Names.{can_follow, column_of, first_names, is_name};
ghost use Rattle.table_rules.specs.Records.{catalogue_of_records};
ghost use Rattle.table_rules.specs.Examples.{at_lower_pole, four, long_name, lower_id, meridian, on_meridian};
ghost use Rattle.table_rules.specs.Examples.{pole, twelve, under_four, with_flux};
ghost use Rattle.table_rules.specs.declared.limits.TheConstants.{COLUMNS_MOST, FURTHER_MOST, ID_MOST, ROWS_MOST};
ghost use Rattle.table_rules.specs.declared.fault.LoadFault.TheVariants.{FieldCount, Header, Length};
ghost use Rattle.table_rules.specs.declared.fault.LoadFault.TheVariants.{Number, Range, Repeated};

/// The limits of the table, in numbers.
pub fn limits_of_the_table()
    ensures id { ID_MOST ≡ 9223372036854775807 }
    ensures further { FURTHER_MOST ≡ 1125899906842624 }
    ensures columns { COLUMNS_MOST ≡ 16 }
    ensures rows { ROWS_MOST ≡ 4194304 }
{}

/// A fault in each part of a row.
pub fn faults_of_a_row()
    ensures length { under_four (four (codes "1") (codes "268435439") (codes "0") (codes "0") ∷ [])
        ≡ Err (Length 1) }
    ensures range { under_four (four (codes "1") (codes "268435473") (codes "0") (codes "0") ∷ [])
        ≡ Err (Range 1 2 (pos 268435473)) }
    ensures further { catalogue_of_records (with_flux
        ∷ (meridian ++ (codes "1125899906842625" ∷ [])) ∷ [])
        ≡ Err (Range 1 5 (pos 1125899906842625)) }
    ensures count { under_four ((codes "1" ∷ codes "268435456" ∷ codes "0" ∷ []) ∷ [])
        ≡ Err (FieldCount 1 3) }
    ensures plus { under_four (four (codes "1") (codes "+5") (codes "0") (codes "0") ∷ [])
        ≡ Err (Number 1 2) }
    ensures empty { catalogue_of_records (with_flux
        ∷ (four (codes "1") (codes "268435456") [] (codes "0") ++ (codes "10" ∷ [])) ∷ [])
        ≡ Err (Number 1 3) }
{}

/// Of two rows with one id the second is the fault. An earlier row's fault is reported first, whatever its column.
pub fn first_of_the_rows()
    ensures repeated { under_four (meridian ∷ pole ∷ []) ≡ Err (Repeated 2 (pos 1)) }
    ensures later { under_four (meridian ∷ lower_id ∷ pole ∷ (codes "1" ∷ []) ∷ [])
        ≡ Err (Repeated 3 (pos 1)) }
    ensures earlier { under_four ((codes "1" ∷ []) ∷ meridian ∷ pole ∷ []) ≡ Err (FieldCount 1 1) }
    ensures row { under_four (four (codes "1") (codes "+5") (codes "0") (codes "0")
        ∷ four (codes "x") (codes "0") (codes "0") (codes "0") ∷ []) ≡ Err (Number 1 2) }
{}

/// No record, a header that is cut, and names that no extra column can have.
pub fn faults_of_a_header()
    ensures nothing { catalogue_of_records [] ≡ Err (Header 1) }
    ensures cut { catalogue_of_records ((codes "objec" ∷ []) ∷ []) ≡ Err (Header 1) }
    ensures two { catalogue_of_records ((codes "objectId" ∷ codes "x" ∷ []) ∷ []) ≡ Err (Header 3) }
    ensures twice { catalogue_of_records ((first_names ++ (codes "x" ∷ [])) ∷ []) ≡ Err (Header 5) }
    ensures digit { catalogue_of_records ((with_flux ++ (codes "9a" ∷ [])) ∷ []) ≡ Err (Header 6) }
    ensures many { catalogue_of_records ((first_names ++ twelve ++ (codes "l" ∷ [])) ∷ [])
        ≡ Err (Header 17) }
{}

/// A header alone is a table without rows. Rows are in ascending order of id. An empty last field is NULL.
pub fn accepted_rows()
    ensures none { under_four [] ≡ Ok (record { names = []; objects = [] }) }
    ensures order { under_four (meridian ∷ lower_id ∷ [])
        ≡ Ok (record { names = []; objects = at_lower_pole ∷ on_meridian [] ∷ [] }) }
    ensures null { catalogue_of_records (with_flux ∷ (meridian ++ ([] ∷ [])) ∷ [])
        ≡ Ok (record { names = codes "flux" ∷ []; objects = on_meridian (None ∷ []) ∷ [] }) }
{}

/// Names, and the numbers of columns.
pub fn names_of_columns()
    ensures word { is_name (codes "SELECT") ≡ true }
    ensures long { is_name long_name ≡ false }
    ensures longest { is_name (take 32 long_name) ≡ true }
    ensures last { can_follow (first_names ++ codes "flux" ∷ []) (codes "_f2") ≡ true }
    ensures z { column_of (codes "flux" ∷ []) (codes "z") ≡ Some 3 }
    ensures flux { column_of (codes "flux" ∷ []) (codes "flux") ≡ Some 4 }
    ensures case { column_of (codes "flux" ∷ []) (codes "Flux") ≡ None }
{}
