//! Lemmas on the demo's queries, as a function that does nothing: a caller has what it ensures.

ghost use Rattle.std.specs.Prelude.{◌≡◌, [], ◌∷◌, ◌++◌, codes};
ghost use Rattle.session_script.specs.Views.{query_lines};
ghost use Rattle.demo_answers.specs.Laws.{DemoIsAnswered, demo_read};

/// The four queries of the demo's script, and that none of them is refused over the demo's catalogue of at most 2^22
/// rows, whatever the seed: each is read and bound, the limit of the join is the square of each chunk's overlap radius,
/// and a sum of fluxes is far below 2^100.
pub fn demo_is_answered()
    ensures lines { query_lines demo_read
        ≡ codes "SELECT COUNT(*),SUM(flux),AVG(flux),MIN(z),MAX(z) FROM Object"
        ∷ codes "SELECT kind,COUNT(*),MAX(flux) FROM Object WHERE z>=0 GROUP BY kind"
        ∷ (codes "SELECT objectId,flux FROM Object WHERE area_band(-1000000,1000000) "
        ++ codes "ORDER BY flux DESC LIMIT 5")
        ∷ (codes "SELECT a.objectId,b.objectId FROM Object a,Object b "
        ++ codes "WHERE chord2(a,b)<=4294967296 AND a.objectId<b.objectId LIMIT 5") ∷ [] }
    ensures answered { DemoIsAnswered }
{}
