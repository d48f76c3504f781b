//! Worked examples of the definitions, stated as functions that do nothing: each ensures an equation.

ghost use Rattle.std.specs.Prelude.{◌≡◌, false, negsuc, pos, true};
ghost use Rattle.sky_vector.specs.Examples.{left, lowest, right, too_low};
ghost use Rattle.sky_vector.specs.Plane.{is_near_line, plane_product};
ghost use Rattle.sky_vector.specs.Points.{chord_squared, is_admissible};

/// Two positions, three units left and right of the meridian, are six units apart.
pub fn chord_over_the_meridian()
    ensures { chord_squared left right ≡ pos 36 }
{}

/// The axis has admissible points down to 2^28 + 16 below the centre.
pub fn end_of_the_axis()
    ensures lowest { is_admissible lowest ≡ true }
    ensures below { is_admissible too_low ≡ false }
{}

/// A point left of a direction has a product above 0, a point on its line 0, and a point right of it below 0.
pub fn sides_of_a_direction()
    ensures left { plane_product (pos 3) (pos 0) (negsuc 1) (pos 3) ≡ pos 9 }
    ensures on { plane_product (pos 8) (pos 8) (pos 189812531) (pos 189812531) ≡ pos 0 }
    ensures right { plane_product (pos 0) (pos 8) (pos 189812531) (pos 5) ≡ negsuc 1518500247 }
{}

/// The point (3, 0) is within the root of 5 of the line along (1, 1), and not within the root of 4. The comparison is
/// of squares: 9 is at most 2 * 5 and above 2 * 4. Rounded roots would exclude it: 3 is above 1 * 2.
pub fn near_by_squares()
    ensures near { is_near_line (pos 1) (pos 1) (pos 3) (pos 0) (pos 5) ≡ true }
    ensures far { is_near_line (pos 1) (pos 1) (pos 3) (pos 0) (pos 4) ≡ false }
{}
