//! The arguments of a written area test: each is an integer with a sign, and together they make an area test or none.
ghost use Rattle.std.specs.Prelude.{◌≡◌, ◌∷◌, map};
ghost use Rattle.sql_tree.specs.declared.cond.AreaKind.TheVariants as area;
ghost use Rattle.sql_bound.specs.declared.area.AreaTest.TheVariants as test;
ghost use Rattle.bind_rules.specs.Areas.{area_test, dir_of, if_sound, pos_of, where_some};
ghost use Rattle.bind_rules.specs.Forms.{int_value, values_of};

use sky_vector::{Dir, Pos, turn};
use sql_bound::{AreaTest, SquaredRadius};
use sql_tree::{AreaKind, IntList, SignedInt};

/// Returns the written integer as a number. Does not allocate.
pub fn int_value(int: &SignedInt) -> i64
    ensures { result ≡ int_value int.now }
{
    let size = int.size.get();
    if int.minus { 0 - size } else { size }
}

// Returns the direction with these components, or `None` if one is outside its limits.
fn dir_at(dx: i64, dy: i64) -> Option<Dir>
    ensures { result ≡ dir_of dx dy }
{
    Dir::new(dx, dy)
}

// Returns the position with these components, or `None` if one is outside its limits.
fn pos_at(x: i64, y: i64, z: i64) -> Option<Pos>
    ensures { result ≡ pos_of x y z }
{
    Pos::new(x, y, z)
}

// Returns the direction with these written components, or `None` if one is outside its limits.
fn dir_of(dx: &SignedInt, dy: &SignedInt) -> Option<Dir>
    ensures { result ≡ dir_of (int_value dx.now) (int_value dy.now) }
{
    dir_at(int_value(dx), int_value(dy))
}

// Returns the position with these written components, or `None` if one is outside its limits.
fn pos_of(x: &SignedInt, y: &SignedInt, z: &SignedInt) -> Option<Pos>
    ensures { result ≡ pos_of (int_value x.now) (int_value y.now) (int_value z.now) }
{
    pos_at(int_value(x), int_value(y), int_value(z))
}

/// Returns the test of an area function with these arguments, or `None` if their number is wrong or one is outside its
/// limits. Does not allocate.
pub fn area_test(kind: AreaKind, args: &IntList) -> Option<AreaTest>
    ensures { result ≡ area_test kind (values_of args.now) }
{
    let rest = args.rest.as_slice();
    match kind {
        AreaKind::Band => band_test(&args.first, rest),
        AreaKind::Cap => cap_test(&args.first, rest),
        AreaKind::Boxed => boxed_test(&args.first, rest),
    }
}

// Returns the band with these arguments, or `None` if their number is wrong.
fn band_test(lo: &SignedInt, rest: &[SignedInt]) -> Option<AreaTest>
    ensures { result ≡ area_test area.Band (int_value lo.now ∷ map int_value rest.now) }
{
    match rest {
        [hi] => Some(AreaTest::Band {
            lo: int_value(lo),
            hi: int_value(hi),
        }),
        _ => None,
    }
}

// Returns the cap with these arguments, or `None` as `area_test` does.
fn cap_test(x: &SignedInt, rest: &[SignedInt]) -> Option<AreaTest>
    ensures { result ≡ area_test area.Cap (int_value x.now ∷ map int_value rest.now) }
{
    match rest {
        [y, z, n] => cap_around(pos_of(x, y, z), int_value(n)),
        _ => None,
    }
}

// Returns the cap around a centre, if there is a centre and n is a squared radius.
fn cap_around(centre: Option<Pos>, n: i64) -> Option<AreaTest>
    ensures { result ≡ where_some centre (λ c. if_sound (test.Cap c n)) }
{
    match (centre, SquaredRadius::new(n)) {
        (Some(centre), Some(n)) => Some(AreaTest::Cap { centre, n }),
        _ => None,
    }
}

// Returns the box with these arguments, or `None` as `area_test` does.
fn boxed_test(lo: &SignedInt, rest: &[SignedInt]) -> Option<AreaTest>
    ensures { result ≡ area_test area.Boxed (int_value lo.now ∷ map int_value rest.now) }
{
    match rest {
        [hi, ax, ay, bx, by] => boxed_between(lo, hi, dir_of(ax, ay), dir_of(bx, by)),
        _ => None,
    }
}

// Returns the box between two heights and two directions, if both directions are present.
fn boxed_between(lo: &SignedInt, hi: &SignedInt, a: Option<Dir>, b: Option<Dir>) -> Option<AreaTest>
    ensures { result ≡ where_some a (λ a. where_some b (λ b.
        if_sound (test.Boxed (int_value lo.now) (int_value hi.now) a b))) }
{
    match (a, b) {
        (Some(a), Some(b)) => boxed_left(int_value(lo), int_value(hi), a, b),
        _ => None,
    }
}

// Returns the box, if its second direction is less than half a turn to the left of the first.
fn boxed_left(lo: i64, hi: i64, a: Dir, b: Dir) -> Option<AreaTest>
    ensures { result ≡ if_sound (test.Boxed lo hi a b) }
{
    if 0 < turn(&a, &b) {
        Some(AreaTest::Boxed { lo, hi, a, b })
    } else {
        None
    }
}
