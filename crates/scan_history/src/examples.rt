//! Worked texts, computed by the prover. A call here does nothing: its clauses are what the definitions evaluate to.
ghost use Rattle.std.specs.Prelude.{◌≡◌, [], ◌∷◌, ◌++◌, codes, Ok, Err, Some, None};
ghost use Rattle.scan_rules.specs.declared.journal_line.JournalLine.TheVariants.{Attach, Take, Deliver, Close};
ghost use Rattle.scan_history.specs.declared.fault.HistoryFault.TheVariants.{Syntax};
ghost use Rattle.scan_history.specs.Entries.{entry_of, ring_of};
ghost use Rattle.scan_history.specs.Texts.{journal_of};
ghost use Rattle.scan_history.specs.Printed.{journal_text, entry_text};
ghost use Rattle.scan_history.specs.Examples.{twelve_lines, two_lines, four_lines, last_lines, eleven_entries};

/// Twelve lines are read as a ring and eleven entries.
pub fn twelve_lines_are_read()
    ensures { journal_of twelve_lines ≡ Ok (record { ring = 8; lines = eleven_entries }) }
{}

/// The ring and the eleven entries are written as these twelve lines.
pub fn eleven_entries_are_printed()
    ensures { journal_text (record { ring = 8; lines = eleven_entries }) ≡ twelve_lines }
{}

/// A take without queries is malformed.
pub fn a_take_without_queries_is_refused()
    ensures { journal_of (two_lines ++ (codes "0 take 0 0\n" ++ (four_lines ++ last_lines)))
        ≡ Err (Syntax 3) }
{}

/// The first line has the ring, of at most 16,384 chunks. An empty text is malformed on line 1.
pub fn the_ring_is_on_the_first_line()
    ensures empty { journal_of [] ≡ Err (Syntax 1) }
    ensures alone { journal_of (codes "ring 0") ≡ Ok (record { ring = 0; lines = [] }) }
    ensures most { ring_of (codes "ring 16384") ≡ Some 16384 }
    ensures more { ring_of (codes "ring 16385") ≡ None }
    ensures later { journal_of (codes "0 close\nring 8\n") ≡ Err (Syntax 1) }
    ensures twice { journal_of (codes "ring 8\nring 8\n") ≡ Err (Syntax 2) }
{}

/// There are no comment lines and no empty lines, and one space separates two parts.
pub fn each_line_is_an_entry()
    ensures blank { journal_of (codes "ring 8\n\n0 close\n") ≡ Err (Syntax 2) }
    ensures comment { journal_of (codes "ring 8\n# close\n") ≡ Err (Syntax 2) }
    ensures spaces { entry_of (codes "0  close") ≡ None }
    ensures end { entry_of (codes "0 close ") ≡ None }
    ensures tab { entry_of (codes "0\tclose") ≡ None }
{}

/// Numbers have at most ten digits, leading zeros included, and are below 2^32.
pub fn numbers_are_below_two_to_the_32()
    ensures largest { entry_of (codes "4294967295 close") ≡ Some (Close 4294967295) }
    ensures beyond { entry_of (codes "4294967296 close") ≡ None }
    ensures zeros { entry_of (codes "0000000007 close") ≡ Some (Close 7) }
    ensures long { entry_of (codes "00000000007 close") ≡ None }
    ensures sign { entry_of (codes "-1 close") ≡ None }
{}

/// Queries are numbered from 1 to 255. Lists ascend strictly, and an attach may have no chunks.
pub fn lists_ascend()
    ensures none { entry_of (codes "0 attach 255") ≡ Some (Attach 0 255 []) }
    ensures zero { entry_of (codes "0 attach 0") ≡ None }
    ensures beyond { entry_of (codes "0 attach 256 1") ≡ None }
    ensures twice { entry_of (codes "0 attach 1 4 4") ≡ None }
    ensures falls { entry_of (codes "0 take 0 0 2 1") ≡ None }
    ensures outside { entry_of (codes "0 attach 1 99999")
        ≡ Some (Attach 0 1 (99999 ∷ [])) }
{}

/// The lost queries of a Deliver follow the word `lost`.
pub fn lost_queries_follow_their_word()
    ensures some { entry_of (codes "3 deliver 7 lost 1 2")
        ≡ Some (Deliver 3 7 (1 ∷ 2 ∷ [])) }
    ensures nothing { entry_of (codes "3 deliver 7 lost") ≡ None }
    ensures bare { entry_of (codes "3 deliver 7 1 2") ≡ None }
    ensures text { entry_text (Deliver 3 7 (1 ∷ 2 ∷ [])) ≡ codes "3 deliver 7 lost 1 2\n" }
{}
