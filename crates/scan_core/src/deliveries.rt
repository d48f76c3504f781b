//! What a deliver does to the pieces of a task, and to the slots of its queries.
ghost use Rattle.std.specs.Prelude.{◌≡◌, ℕ, ◌<◌, ◌≤◌, List, [], ◌∷◌, ◌++◌, cond, length, get_or, true, false};
ghost use Rattle.std.specs.Prelude.{Option, Some, None, IfSome};
ghost use Rattle.std.specs.List.{last_or};
ghost use Rattle.scan_rules.specs.Numbers.{has};
ghost use Rattle.scan_core.specs.declared.limits.TheConstants.{SLOTS};
ghost use Rattle.scan_core.specs.declared.slot.Slot.{Slot};
ghost use Rattle.scan_core.specs.Slots.{runs};
ghost use Rattle.scan_core.specs.Changes.{Beside};
ghost use Rattle.scan_core.specs.Pieces.{MayAbsorb, Absorbs};
ghost use Rattle.scan_core.specs.Delivering.{Absorbed, AllOwed, AreTasked, FitAll, Fitting, HandedIn, Paid, PaidAt};
ghost use Rattle.scan_core.specs.Delivering.{PaidAll, RefusedAll, Refuses};
ghost use Rattle.scan_rules.specs.Delivers.{entry_of};

use crate::pieces::take_at;
use crate::slot::Slot;
use crate::slots::runs_at;
use crate::work::Work;
use scan_rules::QuerySet;

/// Takes out the entry at a position, or returns None if there is none.
fn entry_at<P: Work>(entries: &mut Vec<Option<P>>, turn: usize) -> Option<P>
    ensures entry { result ≡ entry_of entries.old.items turn }
    ensures beside { Beside entries.old.items entries.new.items turn }
{
    if turn >= entries.len() {
        return None;
    }
    let entry = &mut entries[turn];
    entry.take()
}

/// Absorbs an entry into a piece. Returns false if one of the two is missing, or if an allocation fails.
fn absorb<P: Work>(piece: &mut Option<P>, entry: Option<P>) -> bool
    requires { Fitting P.stands piece.old entry }
    ensures absorbed { result ≡ true → Absorbed (Absorbs P.stands) entry piece.old piece.new }
    ensures refused { result ≡ false → Refuses P.refuses piece.old entry }
{
    match entry {
        None => false,
        Some(other) => match piece {
            None => false,
            Some(mine) => mine.absorb(other).is_ok(),
        },
    }
}

/// Absorbs an entry into the piece of one query. The result is that of `absorb`.
fn absorb_at<P: Work>(pieces: &mut Vec<Option<P>>, q: usize, entry: Option<P>) -> bool
    requires low { q < length pieces.old.items }
    requires fit { Fitting P.stands (entry_of pieces.old.items q) entry }
    ensures beside { Beside pieces.old.items pieces.new.items q }
    ensures absorbed { result ≡ true
        → Absorbed (Absorbs P.stands) entry (entry_of pieces.old.items q) (entry_of pieces.new.items q) }
    ensures refused { result ≡ false → Refuses P.refuses (entry_of pieces.old.items q) entry }
{
    let piece = &mut pieces[q];
    absorb(piece, entry)
}

/// Hands an entry in to its query. Returns true if the query runs and is lost because its piece absorbed nothing; then
/// its own piece is dropped too.
fn hand_in<P: Work>(
    slots: &Vec<Slot>,
    pieces: &mut Vec<Option<P>>,
    q: u32,
    entry: Option<P>,
) -> bool
    requires full { length slots.now.items ≡ SLOTS }
    requires held { length pieces.old.items ≡ SLOTS }
    requires low { q < SLOTS }
    requires fit { (d : Slot) → runs (get_or slots.now.items q d) ≡ true
        → Fitting P.stands (entry_of pieces.old.items q) entry }
    ensures beside { Beside pieces.old.items pieces.new.items q }
    ensures ran { result ≡ true → (d : Slot) → runs (get_or slots.now.items q d) ≡ true }
    ensures joined { result ≡ false → (d : Slot) → runs (get_or slots.now.items q d) ≡ true
        → Absorbed (Absorbs P.stands) entry (entry_of pieces.old.items q) (entry_of pieces.new.items q) }
    ensures refused { result ≡ true → Refuses P.refuses (entry_of pieces.old.items q) entry }
{
    if !runs_at(slots, q) {
        return false;
    }
    if absorb_at(pieces, q as usize, entry) {
        return false;
    }
    let _dropped = take_at(pieces, q as usize);
    true
}

/// Adds the query to the set if it is lost.
fn note_lost(lost: &mut QuerySet, q: u32, is_lost: bool)
    requires from_1 { 1 ≤ q }
    requires to_255 { q < SLOTS }
    requires above { IfSome (last_or None lost.old) (λ last. last < q) }
    ensures { lost.new ≡ lost.old ++ cond is_lost (q ∷ []) [] }
{
    if is_lost {
        lost.add(q);
    }
}

/// Hands all entries in, each to the piece of the query at its position. Returns the queries that are lost by it.
pub fn hand_all<P: Work>(
    slots: &Vec<Slot>,
    pieces: &mut Vec<Option<P>>,
    queries: &[u32],
    entries: Vec<Option<P>>,
) -> QuerySet
    requires full { length slots.now.items ≡ SLOTS }
    requires held { length pieces.old.items ≡ SLOTS }
    requires tasked { AreTasked queries.now }
    requires fit { FitAll P.stands slots.now.items queries.now entries.items pieces.old.items }
    ensures handed { HandedIn (Absorbs P.stands) slots.now.items queries.now entries.items
        pieces.old.items pieces.new.items result (length queries.now) }
    ensures refused { RefusedAll P.refuses queries.now entries.items pieces.old.items
        result (length queries.now) }
{
    let mut lost = QuerySet::new();
    let mut left = entries;
    for turn in 0..queries.len() {
        let q = queries[turn];
        let entry = entry_at(&mut left, turn);
        let is_lost = hand_in(slots, pieces, q, entry);
        note_lost(&mut lost, q, is_lost);
    }
    lost
}

/// Counts one more chunk as delivered to the query; a lost query needs nothing more.
fn pay(slot: &mut Slot, is_lost: bool)
    requires { 1 ≤ slot.old.owed }
    ensures { Paid is_lost slot.old slot.new }
{
    slot.owed -= 1;
    if is_lost {
        slot.lost = true;
        slot.ahead.clear();
    }
}

/// Counts one more chunk as delivered to the query of one slot.
fn pay_at(slots: &mut Vec<Slot>, q: usize, is_lost: bool)
    requires low { q < length slots.old.items }
    requires owed { (d : Slot) → 1 ≤ (get_or slots.old.items q d).owed }
    ensures { PaidAt is_lost slots.old.items slots.new.items q }
{
    let slot = &mut slots[q];
    pay(slot, is_lost);
}

/// Counts one more chunk as delivered to each query of a task.
pub fn pay_all(slots: &mut Vec<Slot>, queries: &[u32], lost: &QuerySet)
    requires full { length slots.old.items ≡ SLOTS }
    requires tasked { AreTasked queries.now }
    requires owed { AllOwed slots.old.items queries.now }
    ensures { PaidAll queries.now lost.now slots.old.items slots.new.items (length queries.now) }
{
    for turn in 0..queries.len() {
        let q = queries[turn];
        pay_at(slots, q as usize, lost.has(q));
    }
}
