//! Worked examples of sky texts and of positions, evaluated by the checker.

ghost use Rattle.std.specs.Prelude.{◌≡◌, ℕ, [], ◌∷◌, ◌++◌, Err, Ok, Some, codes, false, negsuc, pos, true};
ghost use Rattle.std.specs.List.{filter, range_with_len, repeat};
ghost use Rattle.sky_rules.specs.Partition.{chunk_count, greatest_overlap, least_overlap, overlap_at, sub_count};
ghost use Rattle.sky_rules.specs.Bounds.{in_chunk, in_sub, near_chunk};
ghost use Rattle.sky_rules.specs.SkyText.{is_cut, is_in_order, is_overlap, is_room, judged_stripe, sky_of};
ghost use Rattle.sky_rules.specs.Examples.{most_chunks, all_stripes, bottom_twice, cut_so, eight, full_stripe, halves};
ghost use Rattle.sky_rules.specs.Examples.{north, numbers, on_diagonal, on_meridian, one_more, own_overlaps, south};
ghost use Rattle.sky_rules.specs.Examples.{two_chunks, two_stripes};
ghost use Rattle.sky_rules.specs.declared.fault.SkyFault.TheVariants.{Count, Order, Overlap, Syntax, TooMany};

/// Two stripes that share an overlap of 5, and two that have overlaps of their own, 5 and 2.
#[tactic(auto, unfolding(crate::specs::SkyText::sky_of))]
pub fn sky_of_two_stripes()
    ensures shared { sky_of two_stripes ≡ Ok halves }
    ensures own { sky_of own_overlaps ≡ Ok (record { stripes = south 5 ∷ north 2 ∷ [] }) }
{}

/// A fault on each of the first three lines.
#[tactic(auto, unfolding(crate::specs::SkyText::sky_of))]
pub fn sky_of_faulty_lines()
    ensures version { sky_of (codes "version 3") ≡ Err (Syntax 1) }
    ensures overlap { sky_of (codes "overlap 16777217") ≡ Err (Overlap 1) }
    ensures count { sky_of two_chunks ≡ Err (Count 2) }
    ensures order { sky_of bottom_twice ≡ Err (Order 3) }
{}

/// A text without its first line, and texts without a stripe. The fault is after the last line, with comment lines
/// counted.
#[tactic(auto, unfolding(crate::specs::SkyText::sky_of))]
pub fn sky_of_missing_lines()
    ensures empty { sky_of [] ≡ Err (Syntax 1) }
    ensures no_stripe { sky_of (codes "# sky\noverlap 5\n") ≡ Err (Syntax 3) }
    ensures note_last { sky_of (codes "overlap 5\n\n# none") ≡ Err (Syntax 4) }
{}

/// Words are separated by exactly one space, and a carriage return at the very end is kept.
#[tactic(auto, unfolding(crate::specs::SkyText::sky_of))]
pub fn sky_of_stray_bytes()
    ensures spaces { sky_of (codes "overlap  5") ≡ Err (Syntax 1) }
    ensures trailing { sky_of (codes "overlap 5 \n") ≡ Err (Syntax 1) }
    ensures returns { sky_of (codes "overlap 5" ++ (13 ∷ [])) ≡ Err (Syntax 1) }
{}

/// The 257th stripe is too many, and so is a chunk beyond 16,384. A stripe that fills the sky to both limits is not.
pub fn stripes_too_many()
    ensures stripes { judged_stripe 9 all_stripes (Some (one_more 1)) ≡ Err (TooMany 9) }
    ensures chunks { judged_stripe 9 most_chunks (Some (one_more 1)) ≡ Err (TooMany 9) }
    ensures fits { is_room (repeat 15 (full_stripe ∷ [])) (pos 1024) ≡ true }
    ensures last { is_room (repeat 255 (south 5 ∷ [])) (pos 4) ≡ true }
{}

/// Of a line with more than one fault the first is reported, in the order overlap, order, count, too many.
pub fn first_fault_of_a_line()
    ensures overlap { judged_stripe 9 all_stripes
        (Some (numbers (negsuc 268435471) (pos 2) (pos 1) (pos 1) (negsuc 0))) ≡ Err (Overlap 9) }
    ensures order { judged_stripe 9 all_stripes
        (Some (numbers (negsuc 268435471) (pos 2) (pos 1) (pos 1) (pos 5))) ≡ Err (Order 9) }
    ensures count { judged_stripe 9 all_stripes (Some (cut_so 2 1 1)) ≡ Err (Count 9) }
{}

/// A stripe may have 3 or 1,024 chunks, and a chunk 64 columns and rows. A count beyond these limits is a fault.
pub fn counts_at_their_limits()
    ensures few { is_cut (cut_so 3 1 1) ≡ true }
    ensures most { is_cut (cut_so 1024 64 64) ≡ true }
    ensures chunks { is_cut (cut_so 1025 64 64) ≡ false }
    ensures columns { is_cut (cut_so 1024 65 64) ≡ false }
    ensures rows { is_cut (cut_so 1024 64 65) ≡ false }
    ensures no_rows { is_cut (cut_so 1024 64 0) ≡ false }
    ensures halves { is_cut (cut_so 1 2 1) ≡ false }
{}

/// A stripe may begin 64 above the one before it and 64 below the end of the sky, but no nearer. An overlap is at most
/// 2^24.
pub fn heights_and_overlaps_at_their_limits()
    ensures above { is_in_order (south 5 ∷ []) (negsuc 268435407) ≡ true }
    ensures too_low { is_in_order (south 5 ∷ []) (negsuc 268435408) ≡ false }
    ensures below_end { is_in_order (south 5 ∷ []) (pos 268435409) ≡ true }
    ensures too_high { is_in_order (south 5 ∷ []) (pos 268435410) ≡ false }
    ensures overlap { is_overlap (pos 16777216) ≡ true }
{}

/// Eight chunks of four subchunks, and the overlaps of the two versions.
pub fn counts()
    ensures chunks { chunk_count halves ≡ 8 }
    ensures subs { sub_count halves 7 ≡ 4 }
    ensures least { least_overlap (record { stripes = south 5 ∷ north 2 ∷ [] }) ≡ 2 }
    ensures greatest { greatest_overlap (record { stripes = south 2 ∷ north 5 ∷ [] }) ≡ 5 }
    ensures upper { overlap_at (record { stripes = south 5 ∷ north 2 ∷ [] }) 4 ≡ 2 }
{}

/// The point on the diagonal is in chunk 4, in its second column: the second fine wedge begins there.
#[tactic(auto, unfolding(wedge_rules::specs::Heading::heading, wedge_rules::specs::Heading::walk))]
pub fn place_on_the_diagonal()
    ensures chunks { filter (λ c. in_chunk halves c on_diagonal) eight ≡ 4 ∷ [] }
    ensures subs { filter (λ s. in_sub halves 4 s on_diagonal) (range_with_len 0 4) ≡ 1 ∷ [] }
{}

/// The point on the meridian is in chunk 4 and also near chunks 0, 3 and 7.
#[tactic(auto, unfolding(wedge_rules::specs::Heading::heading, wedge_rules::specs::Heading::walk))]
pub fn near_chunks_of_the_meridian()
    ensures { filter (λ c. near_chunk halves c on_meridian) eight ≡ 0 ∷ 3 ∷ 4 ∷ 7 ∷ [] }
{}
