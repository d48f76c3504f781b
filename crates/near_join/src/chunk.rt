//! The join of a chunk, subchunk by subchunk.

ghost use Rattle.std.specs.Prelude.{◌≡◌, ◌+◌, ◌<◌, ◌≤ℤ◌, ◌∷◌, [], All, IfOk, IfSome, IsTrue, OnOk, get_or, length, negsuc, true};
ghost use Rattle.sky_rules.specs.Limits.{IsSky};
ghost use Rattle.sky_rules.specs.Partition.{chunk_count, sub_count};
ghost use Rattle.value_rules.specs.Sound.{is_paired};
ghost use Rattle.answer_rules.specs.Coverage.{AreInTheSky};
ghost use Rattle.answer_rules.specs.Pieces.{PieceFor};
ghost use Rattle.answer_rules.specs.Plans.{Reaches};
ghost use Rattle.answer_rules.specs.SoundChunks.{IsSoundChunk};
ghost use Rattle.chunk_store.specs.Places.{sub_lists, sub_rows};
ghost use Rattle.partial_merge.specs.Joining.{IsOfRows};
ghost use Rattle.near_join.specs.Bare.{IsAsked};
ghost use Rattle.near_join.specs.Gains.{Gains};
ghost use Rattle.near_join.specs.Strips.{IsChunkStrip, IsWhole};
ghost use Rattle.near_join.specs.Walk.{joins, sub_pairs};
ghost use Rattle.table_rules.specs.declared.limits.TheConstants.{FIRST_COLUMNS};

use crate::asked::Asked;
use crate::neighbour::Neighbour;
use crate::pairs::push_swept;
use crate::reach::Reach;
use crate::strip::{Strip, chunk_strip};
use crate::sweep::sub_strip;
use answer_rules::ChunkQuery;
use chunk_store::{Lists, Store};
use partial_merge::Piece;
use sky_io::Memory;
use sky_vector::Num;
use std::alloc::Global;

/// A chunk that is joined: the query over its pairs, and the rows from which its subchunks select theirs.
#[derive(Drop)]
struct Joined<'a> {
    store: &'a Store,
    chunk: u32,
    query: &'a ChunkQuery,
    reach: &'a Reach,
    subs: &'a Option<Lists>,
    strip: &'a Strip,
}

/// Returns what the chunk query finds over the pairs whose first row is in the chunk. Allocates memory for the piece,
/// and for the sweep window of the chunk's rows and its full overlap. It also allocates the sweep window of one
/// subchunk at a time, and nothing for a single row or pair.
pub fn join<'w>(
    alloc: Global,
    store: &'w Store,
    chunk: u32,
    query: &ChunkQuery,
) -> Result<Piece<'w>, Memory>
    requires there { chunk < chunk_count store.now.plan }
    requires pairs { is_paired query.now.shape ≡ true }
    requires reach { Reaches store.now.plan query.now.shape chunk }
    requires sound { IsSoundChunk (FIRST_COLUMNS + length store.now.rows.names) query.now }
    ensures { IfOk result (λ piece. PieceFor store.now.plan store.now.rows.objects query.now
        (chunk ∷ []) piece) }
{
    know(store);
    let reach = Reach::of(query);
    let strip = chunk_strip(alloc, store, chunk)?;
    let listed = few_rows(alloc, store, chunk)?;
    let joined = Joined {
        store,
        chunk,
        query,
        reach: &reach,
        subs: &listed,
        strip: &strip,
    };
    let mut piece = Piece::empty(alloc, query);
    let mut values = Vec::new(alloc);
    let mut found = Vec::new(alloc);
    for sub in 0..store.plan().subs(chunk) {
        push_sub(alloc, &mut piece, &mut values, &mut found, &joined, sub)?;
    }
    Ok(piece)
}

/// Makes invariants of a store visible to contracts: its plan is within the limits, and its rows are in the sky. Does
/// not allocate.
fn know(store: &Store)
    ensures plan { IsSky store.now.plan }
    ensures rows { AreInTheSky store.now.rows.objects }
{
    let _ = store.plan().chunks();
    let _ = store.rows().len();
}

/// If subchunks have at least this number of rows on average, their rows are not listed. Few subchunks are then empty,
/// and listing costs more than it saves.
const MANY: usize = 8;

/// Returns the rows of each of the chunk's subchunks, if they are few. Allocates memory for the lists.
fn few_rows(alloc: Global, store: &Store, chunk: u32) -> Result<Option<Lists>, Memory>
    requires { chunk < chunk_count store.now.plan }
    ensures { IfOk result (λ subs. IfSome subs (λ lists.
        lists ≡ sub_lists store.now.plan store.now.rows.objects chunk)) }
{
    let subs = store.plan().subs(chunk) as usize;
    if store.chunk(chunk).len() < MANY * subs {
        Ok(Some(store.subs(alloc, chunk)?))
    } else {
        Ok(None)
    }
}

/// Returns true only if the subchunk is known to hold no row.
fn is_empty(store: &Store, chunk: u32, subs: &Option<Lists>, sub: u32) -> bool
    requires sub { sub < sub_count store.now.plan chunk }
    requires subs { IfSome subs.now (λ lists.
        lists ≡ sub_lists store.now.plan store.now.rows.objects chunk) }
    ensures { IsTrue result → sub_rows store.now.plan store.now.rows.objects chunk sub ≡ [] }
{
    match subs {
        None => false,
        Some(lists) => is_nothing(lists.of(sub)),
    }
}

/// Returns whether the list is empty.
fn is_nothing(places: &[u32]) -> bool
    ensures { IsTrue result → places.now ≡ [] }
{
    places.is_empty()
}

/// Pushes the pairs of a subchunk into the piece, found in the sweep window of its chunk.
fn push_sub(
    alloc: Global,
    piece: &mut Piece<'_>,
    values: &mut Vec<Option<Num>>,
    found: &mut Vec<Neighbour>,
    joined: &Joined<'_>,
    sub: u32,
) -> Result<(), Memory>
    requires of_rows { IsOfRows piece.old }
    requires chunk { joined.now.chunk < chunk_count joined.now.store.now.plan }
    requires sub { sub < sub_count joined.now.store.now.plan joined.now.chunk }
    requires sky { IsSky joined.now.store.now.plan }
    requires rows { AreInTheSky joined.now.store.now.rows.objects }
    requires subs { IfSome joined.now.subs.now (λ lists. lists
        ≡ sub_lists joined.now.store.now.plan joined.now.store.now.rows.objects joined.now.chunk) }
    requires strip { IsChunkStrip joined.now.store.now.plan joined.now.store.now.rows.objects
        joined.now.chunk joined.now.strip.now }
    requires asked { IsAsked (length joined.now.store.now.rows.names) joined.now.query.now
        joined.now.reach.now.rises joined.now.reach.now.bare }
    ensures { OnOk result (Gains joined.now.query.now (sub_pairs joined.now.store.now.plan
        joined.now.store.now.rows.objects
        (joins joined.now.reach.now.limit joined.now.query.now.conds) joined.now.chunk sub)
        piece.old piece.new) }
{
    if is_empty(joined.store, joined.chunk, joined.subs, sub) {
        Ok(())
    } else {
        push_near(alloc, piece, values, found, joined, sub)
    }
}

/// Pushes the pairs of a subchunk into the piece, found in those rows of the chunk's sweep window that are near the
/// subchunk.
fn push_near(
    alloc: Global,
    piece: &mut Piece<'_>,
    values: &mut Vec<Option<Num>>,
    found: &mut Vec<Neighbour>,
    joined: &Joined<'_>,
    sub: u32,
) -> Result<(), Memory>
    requires of_rows { IsOfRows piece.old }
    requires chunk { joined.now.chunk < chunk_count joined.now.store.now.plan }
    requires sub { sub < sub_count joined.now.store.now.plan joined.now.chunk }
    requires sky { IsSky joined.now.store.now.plan }
    requires rows { AreInTheSky joined.now.store.now.rows.objects }
    requires strip { IsChunkStrip joined.now.store.now.plan joined.now.store.now.rows.objects
        joined.now.chunk joined.now.strip.now }
    requires asked { IsAsked (length joined.now.store.now.rows.names) joined.now.query.now
        joined.now.reach.now.rises joined.now.reach.now.bare }
    ensures { OnOk result (Gains joined.now.query.now (sub_pairs joined.now.store.now.plan
        joined.now.store.now.rows.objects
        (joins joined.now.reach.now.limit joined.now.query.now.conds) joined.now.chunk sub)
        piece.old piece.new) }
{
    let region = joined.store.plan().sub_region(joined.chunk, sub);
    let near = sub_strip(
        alloc,
        joined.store,
        joined.chunk,
        sub,
        &region,
        joined.strip,
    )?;
    let asked = Asked {
        rows: joined.store.rows(),
        query: joined.query,
        reach: joined.reach,
    };
    push_swept(piece, values, found, &asked, &region, &near)
}
