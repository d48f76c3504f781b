//! Worked examples of the demo, evaluated by the checker.

ghost use Rattle.std.specs.Prelude.{◌≡◌, [], ◌∷◌, map, negsuc, pos};
ghost use Rattle.sky_vector.specs.Roots.{IsRoot};
ghost use Rattle.demo_rules.specs.Draws.{draw};
ghost use Rattle.demo_rules.specs.DemoRows.{IsDemoObject, height, lean_x, lean_y, leaning_point, on_meridian};
ghost use Rattle.demo_rules.specs.Examples.{first_object, first_point, second_object};

/// The first draws of seed 1.
pub fn first_draws()
    ensures { map (draw 1) (1 ∷ 2 ∷ 3 ∷ 4 ∷ 5 ∷ [])
        ≡ 48271 ∷ 182605794 ∷ 1291394886 ∷ 1914720637 ∷ 2078669041 ∷ [] }
{}

/// The first draws of seed 7.
pub fn draws_of_another_seed()
    ensures { map (draw 7) (1 ∷ 2 ∷ 3 ∷ 4 ∷ 5 ∷ [])
        ≡ 337897 ∷ 1278240558 ∷ 449829614 ∷ 518142577 ∷ 1665781405 ∷ [] }
{}

/// The height of the first object of seed 1, its direction, and its position.
pub fn first_leaning()
    ensures height { height 1 1 ≡ negsuc 268387184 }
    ensures lean_x { lean_x 1 1 ≡ negsuc 891136028 }
    ensures lean_y { lean_y 1 1 ≡ pos 217653063 }
    ensures root { IsRoot 25912965703711 5090477 }
    ensures point { leaning_point (negsuc 268387184) (negsuc 891136028) (pos 217653063)
        5090477 917331062 ≡ first_point }
{}

/// The first object of seed 1.
#[tactic(auto, using(crate::proofs::First::first))]
pub fn first_of_seed_1()
    ensures { IsDemoObject 1 1 first_object }
{}

/// The second object of seed 1, which uses the draws from the sixth on.
#[tactic(auto, using(crate::proofs::First::second))]
pub fn second_of_seed_1()
    ensures { IsDemoObject 1 2 second_object }
{}

/// A point without a direction is placed on the meridian, and so is a point that would be off the sphere.
pub fn points_without_a_place()
    ensures nowhere { leaning_point (pos 5) (pos 0) (pos 0) 7 0 ≡ on_meridian }
    ensures off { leaning_point (pos 5) (pos 1) (pos 0) 7 1 ≡ on_meridian }
{}
