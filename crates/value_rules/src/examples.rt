//! Worked examples of values and of conditions, evaluated by the checker.

ghost use Rattle.std.specs.Prelude.{◌≡◌, ◌^◌, [], ◌∷◌, None, Some, false, negsuc, pos, true};
ghost use Rattle.sql_bound.specs.Trees.{both, either};
ghost use Rattle.sql_bound.specs.declared.area.AreaTest.TheVariants.{Band, Boxed, Cap};
ghost use Rattle.sql_tree.specs.declared.cond.Cmp.TheVariants.{AtLeast, AtMost, Differs, Equal, Less, More};
ghost use Rattle.value_rules.specs.ColumnExamples.{bright, bright_from_the_left, faint, faint_range, flux_col};
ghost use Rattle.value_rules.specs.ColumnExamples.{from_below_zero, from_the_id, id_is_flux, in_area, not_between};
ghost use Rattle.value_rules.specs.ColumnExamples.{not_bright, of_no_range, of_two_columns, product_is_bright};
ghost use Rattle.value_rules.specs.ColumnExamples.{two_numbers, which_are_within, which_pass};
ghost use Rattle.value_rules.specs.ColumnTests.{column_range_of, column_test_of, height_col};
ghost use Rattle.value_rules.specs.Comparisons.{among, beside_2, beside_null, less_flux, not_among, up_to_meridian};
ghost use Rattle.value_rules.specs.Examples.{column, east, faint_or_second, flux, flux_times_id, id_times_flux, ids_in};
ghost use Rattle.value_rules.specs.Examples.{ids_that_meet, is_bright, middle_box, is_second, is_third, no_flux, north};
ghost use Rattle.value_rules.specs.Examples.{on_meridian, product_of, second, some_without_flux, third, zero_first};
ghost use Rattle.value_rules.specs.Examples.{zero_last};
ghost use Rattle.value_rules.specs.Sound.{has_col, is_sound_expr};
ghost use Rattle.value_rules.specs.Truth.{truth_of};
ghost use Rattle.value_rules.specs.Values.{value_of};
ghost use Rattle.value_rules.specs.Widths.{widest_of, width_of};

/// `NOT flux>20 OR objectId=2`: the second row is kept for its id. The fourth has no flux, so the condition is unknown
/// and the row is dropped.
pub fn unknown_is_not_kept()
    ensures { ids_that_meet faint_or_second some_without_flux ≡ pos 1 ∷ pos 2 ∷ pos 5 ∷ [] }
{}

/// `flux IS NULL` is true for rows without flux, and false for all others.
pub fn rows_without_flux()
    ensures { ids_that_meet no_flux some_without_flux ≡ pos 2 ∷ pos 4 ∷ [] }
{}

/// On a row without flux a comparison of it is unknown. AND with a false part is false, and OR with a true part is
/// true.
pub fn truths_without_flux()
    ensures alone { truth_of is_bright second ≡ None }
    ensures and_true { truth_of (both is_bright is_second) second ≡ None }
    ensures and_false { truth_of (both is_bright is_third) second ≡ Some false }
    ensures or_true { truth_of (either is_bright is_second) second ≡ Some true }
    ensures or_false { truth_of (either is_bright is_third) second ≡ None }
{}

/// A value computed from NULL is NULL.
pub fn values_of_rows()
    ensures there { value_of flux_times_id third ≡ Some (pos 89) }
    ensures null { value_of flux_times_id second ≡ None }
{}

/// Each prefix of a product counts: `a*a*a*0` is too wide, and `0*a*a*a` is not. The product of an id and an extra
/// column is too wide.
pub fn widths_of_products()
    ensures wide { widest_of zero_last ≡ 2 ^ 150 }
    ensures narrow { widest_of zero_first ≡ 2 ^ 50 }
    ensures itself { width_of zero_last ≡ 0 }
    ensures refused { is_sound_expr (has_col 5 false) id_times_flux ≡ false }
    ensures most { is_sound_expr (has_col 5 false) (product_of (column 4) (column 4 ∷ [])) ≡ true }
    ensures absent { is_sound_expr (has_col 4 false) flux ≡ false }
{}

/// A band and a box include their borders, and a cap includes the points exactly at its radius.
pub fn areas_hold_their_borders()
    ensures band { ids_in (Band (negsuc 0) (pos 4)) ≡ pos 1 ∷ pos 2 ∷ pos 3 ∷ pos 4 ∷ pos 5 ∷ [] }
    ensures turned { ids_in (Band (pos 4) (negsuc 0)) ≡ [] }
    ensures cap { ids_in (Cap on_meridian (pos 9)) ≡ pos 1 ∷ pos 2 ∷ pos 4 ∷ pos 5 ∷ [] }
    ensures smaller { ids_in (Cap on_meridian (pos 8)) ≡ pos 1 ∷ pos 5 ∷ [] }
    ensures sides { ids_in middle_box ≡ pos 1 ∷ pos 2 ∷ pos 3 ∷ pos 5 ∷ [] }
    ensures axis { ids_in (Boxed (pos 1000) (pos 268435472) east north) ≡ [] }
{}

/// The six comparison operators, applied to 1, 2 and 3 on the left and 2 on the right.
pub fn six_comparisons()
    ensures equal { beside_2 Equal ≡ Some false ∷ Some true ∷ Some false ∷ [] }
    ensures differs { beside_2 Differs ≡ Some true ∷ Some false ∷ Some true ∷ [] }
    ensures less { beside_2 Less ≡ Some true ∷ Some false ∷ Some false ∷ [] }
    ensures at_most { beside_2 AtMost ≡ Some true ∷ Some true ∷ Some false ∷ [] }
    ensures more { beside_2 More ≡ Some false ∷ Some false ∷ Some true ∷ [] }
    ensures at_least { beside_2 AtLeast ≡ Some false ∷ Some true ∷ Some true ∷ [] }
{}

/// NULL on the right makes each comparison unknown, a minus before NULL is NULL, and NOT IN of NULL is unknown.
pub fn null_stays()
    ensures right { beside_null ≡ None ∷ None ∷ None ∷ None ∷ None ∷ None ∷ [] }
    ensures minus { value_of less_flux second ≡ None }
    ensures number { value_of less_flux third ≡ Some (negsuc 29) }
    ensures among { truth_of (not_among (pos 30 ∷ [])) second ≡ None }
    ensures found { truth_of (not_among (pos 31 ∷ pos 30 ∷ [])) third ≡ Some false }
    ensures not_found { truth_of (not_among (pos 31 ∷ [])) third ≡ Some true }
{}

/// IN of NULL is unknown. IN of 30 is true if the list has 30, and else false.
pub fn null_is_among_nothing()
    ensures null { truth_of (among (pos 30 ∷ [])) second ≡ None }
    ensures found { truth_of (among (pos 31 ∷ pos 30 ∷ [])) third ≡ Some true }
    ensures not_found { truth_of (among (pos 31 ∷ [])) third ≡ Some false }
{}

/// A box includes its second side, and nothing past it: 1, 3 and 5 are on the first meridian, and 2 is past it.
pub fn a_box_holds_its_second_side()
    ensures { ids_in up_to_meridian ≡ pos 1 ∷ pos 3 ∷ pos 4 ∷ pos 5 ∷ [] }
{}

/// A column compared with a number is a test of it. A negation, a second column and a computed value are not.
pub fn tests_of_columns()
    ensures right { column_test_of is_bright ≡ Some bright }
    ensures left { column_test_of bright_from_the_left ≡ Some bright }
    ensures minus { column_test_of from_below_zero
        ≡ Some (record { col = flux_col; op = AtLeast; number = negsuc 4 }) }
    ensures negated { column_test_of not_bright ≡ None }
    ensures columns { column_test_of id_is_flux ≡ None }
    ensures numbers { column_test_of two_numbers ≡ None }
    ensures computed { column_test_of product_is_bright ≡ None }
    ensures range { column_test_of (faint false) ≡ None }
{}

/// A column BETWEEN two numbers and a band are ranges. A negation, two columns, a bound that is not a number and other
/// areas are not.
pub fn ranges_of_columns()
    ensures between { column_range_of (faint false) ≡ Some faint_range }
    ensures negated { column_range_of (faint true) ≡ None }
    ensures not_between { column_range_of not_between ≡ None }
    ensures computed { column_range_of from_the_id ≡ None }
    ensures columns { column_range_of of_two_columns ≡ None }
    ensures turned { column_range_of of_no_range ≡ None }
    ensures band { column_range_of (in_area (Band (negsuc 0) (pos 4)))
        ≡ Some (record { col = height_col; low = negsuc 0; high = pos 4 }) }
    ensures boxed { column_range_of (in_area middle_box) ≡ None }
    ensures test { column_range_of is_bright ≡ None }
{}

/// A test and a range, applied to values at their borders and to NULL.
pub fn values_beside_borders()
    ensures test { which_pass bright (Some (pos 20) ∷ Some (pos 21) ∷ None ∷ [])
        ≡ false ∷ true ∷ false ∷ [] }
    ensures range { which_are_within faint_range
        (Some (negsuc 5) ∷ Some (negsuc 4) ∷ Some (pos 10) ∷ Some (pos 11) ∷ None ∷ [])
        ≡ false ∷ true ∷ true ∷ false ∷ false ∷ [] }
{}
