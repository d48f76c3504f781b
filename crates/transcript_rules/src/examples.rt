//! Short examples of single lines, of inputs made by hand, evaluated by the checker. Whole queries are worked rows of
//! the program.

ghost use Rattle.std.specs.Prelude.{◌≡◌, ◌++◌, [], ◌∷◌, None, Some, codes, pos};
ghost use Rattle.bind_rules.specs.declared.fault.BindFault.TheVariants.{UnknownName};
ghost use Rattle.transcript_rules.specs.ChunkLines.{chunk_line};
ghost use Rattle.transcript_rules.specs.Examples.{groups_merged, keys_merged, near_by_height, pairs_limited};
ghost use Rattle.transcript_rules.specs.Examples.{rows_merged, star_of_pairs, two_rows};
ghost use Rattle.transcript_rules.specs.MergeLines.{merge_line};
ghost use Rattle.transcript_rules.specs.RefusalLines.{refusal_line};
ghost use Rattle.transcript_rules.specs.Tables.{headings, table_lines};
ghost use Rattle.transcript_rules.specs.declared.refusal.Refusal.TheVariants.{Bind, Radius};

/// The chunk query of a join. The ids and the order key follow the items, and a LIMIT comes after an ORDER BY.
pub fn chunk_lines()
    ensures limited { chunk_line [] near_by_height (pairs_limited (Some (pos 2)))
        ≡ codes "chunk: SELECT a.objectId,b.z,a.objectId,b.objectId,b.z FROM Object_c_s a,"
        ++ codes "Object_c_s_near b WHERE chord2(a,b)<=9 ORDER BY c5 DESC,c3,c4 LIMIT 2\n" }
    ensures whole { chunk_line [] near_by_height (pairs_limited None)
        ≡ codes "chunk: SELECT a.objectId,b.z,a.objectId,b.objectId,b.z FROM Object_c_s a,"
        ++ codes "Object_c_s_near b WHERE chord2(a,b)<=9\n" }
{}

/// The merges of rows and of groups.
pub fn merge_lines()
    ensures rows { merge_line rows_merged
        ≡ codes "merge: SELECT c1,c2 FROM pieces ORDER BY c4 DESC,c3 LIMIT 2\n" }
    ensures groups { merge_line groups_merged
        ≡ codes "merge: SELECT SUM(c2),SUM(c3)/SUM(c4),MIN(c5),MAX(c6) FROM pieces "
        ++ codes "GROUP BY c1 ORDER BY SUM(c3)/SUM(c4) DESC,c1\n" }
    ensures keys { merge_line keys_merged
        ≡ codes "merge: SELECT SUM(c3) FROM pieces GROUP BY c1,c2 ORDER BY c2,c1,c2\n" }
{}

/// The lines of an answer: NULL, a whole number, averages with four decimals, and the numbers of rows and chunks.
pub fn answer_lines()
    ensures table { table_lines (codes "a" ∷ codes "b" ∷ []) two_rows 3
        ≡ codes "a,b\nNULL,-0.3333\n5,23.7500\n2 rows, 3 chunks\n" }
    ensures star { headings [] star_of_pairs
        ≡ codes "a.objectId" ∷ codes "a.x" ∷ codes "a.y" ∷ codes "a.z" ∷ codes "b.objectId"
        ∷ codes "b.x" ∷ codes "b.y" ∷ codes "b.z" ∷ [] }
{}

/// The lines of refusals: a quoted part is as it is written, blanks included.
pub fn refusal_lines()
    ensures quoted { refusal_line (codes "SELECT o . mag FROM Object o")
        (Bind (UnknownName (record { from = 7; to = 14 })))
        ≡ codes "refused: unknown name o . mag\n" }
    ensures radius { refusal_line [] (Radius (record { asked = pos 26; allowed = pos 25 }))
        ≡ codes "refused: radius 26 above 25\n" }
{}
