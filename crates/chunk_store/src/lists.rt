//! A list of row numbers for each chunk of a sky, or for each subchunk of a chunk.

ghost use Rattle.std.specs.Prelude.{◌≡◌, ◌<◌, ◌≤◌, [], ◌∷◌, ◌++◌, IfOk, OnOk, All, length, get_or, replicate, filter, map};
ghost use Rattle.std.specs.List.{range_with_len};
ghost use Rattle.sky_rules.specs.declared.limits.TheConstants.{CHUNKS_MOST};
ghost use Rattle.chunk_store.specs.Lists.{AreAppendedBelow, Extended, Pushed, has_some, kept_if};

use sky_io::Memory;
use std::alloc::Global;
use std::marker::Model;

/// Returns whether the list has an element.
fn has_some(list: &[u32]) -> bool
    ensures { result ≡ has_some list.now }
{
    !list.is_empty()
}

/// Appends the number to the list.
fn push(list: &mut Vec<u32>, number: u32) -> Result<(), Memory>
    ensures { OnOk result (list.new.items ≡ list.old.items ++ number ∷ []) }
{
    list.push(number)?;
    Ok(())
}

/// Appends another list to a list.
fn extend(list: &mut Vec<u32>, more: &[u32]) -> Result<(), Memory>
    ensures { OnOk result (list.new.items ≡ list.old.items ++ more.now) }
{
    list.extend_from_slice(more)?;
    Ok(())
}

/// Appends the number to the list, if `is` is true.
pub(crate) fn push_if(list: &mut Vec<u32>, is: bool, number: u32) -> Result<(), Memory>
    ensures { OnOk result (list.new.items ≡ list.old.items ++ kept_if is number) }
{
    if is { push(list, number) } else { Ok(()) }
}

/// A list of row numbers for each chunk of a sky, or for each subchunk of a chunk: by its number, from 0.
#[derive(Drop)]
pub struct Lists {
    lists: Vec<Vec<u32>>,
}

impl Model for Lists {
    ghost use Rattle.std.specs.Prelude.{ℕ, List, map, ◌≤◌, length};
    ghost use Rattle.sky_rules.specs.declared.limits.TheConstants.{CHUNKS_MOST};

    ghost Value = { List (List ℕ) };

    ghost view = { λ l. map (λ places. places.items) l.lists.items };

    ghost invariant = { λ l. length l.lists.items ≤ CHUNKS_MOST };
}

/// Appends an empty list.
fn push_empty(alloc: Global, lists: &mut Vec<Vec<u32>>) -> Result<(), Memory>
    ensures { OnOk result (map (λ l. l.items) lists.new.items
        ≡ map (λ l. l.items) lists.old.items ++ [] ∷ []) }
{
    lists.push(Vec::new(alloc))?;
    Ok(())
}

/// Creates the given number of empty lists.
fn empty_lists(alloc: Global, count: u32) -> Result<Vec<Vec<u32>>, Memory>
    ensures { IfOk result (λ lists. map (λ l. l.items) lists.items ≡ replicate count []) }
{
    let mut lists = Vec::new(alloc);
    for chunk in 0..count {
        push_empty(alloc, &mut lists)?;
    }
    Ok(lists)
}

impl Lists {
    /// Creates the given number of empty lists, at most 16,384. Allocates memory for them.
    pub fn empty(alloc: Global, count: u32) -> Result<Lists, Memory>
        requires { count ≤ CHUNKS_MOST }
        ensures { IfOk result (λ lists. lists ≡ replicate count []) }
    {
        Ok(Lists {
            lists: empty_lists(alloc, count)?,
        })
    }

    /// Returns how many lists there are, at most 16,384. Does not allocate.
    pub fn len(&self) -> u32
        ensures { result ≡ length self.now }
    {
        self.lists.len() as u32
    }

    /// Returns the list with this number, from 0. Does not allocate.
    pub fn of(&self, chunk: u32) -> &[u32]
        requires { chunk < length self.now }
        ensures { result.now ≡ get_or self.now chunk [] }
    {
        self.lists[chunk as usize].as_slice()
    }

    /// Appends the row number to the list of a chunk.
    pub fn push(&mut self, chunk: u32, place: u32) -> Result<(), Memory>
        requires { chunk < length self.old }
        ensures { OnOk result (Pushed (chunk ∷ []) place self.old self.new) }
    {
        push(&mut self.lists[chunk as usize], place)?;
        Ok(())
    }

    /// Appends the row number to the list of each of the chunks.
    pub(crate) fn push_all(&mut self, chunks: &[u32], place: u32) -> Result<(), Memory>
        requires { All (λ chunk. chunk < length self.old) chunks.now }
        ensures { OnOk result (Pushed chunks.now place self.old self.new) }
    {
        for chunk in chunks {
            self.push(*chunk, place)?;
        }
        Ok(())
    }

    /// Appends another list to a chunk's.
    fn extend(&mut self, chunk: u32, more: &[u32]) -> Result<(), Memory>
        requires { chunk < length self.old }
        ensures { OnOk result (Extended chunk more.now self.old self.new) }
    {
        extend(&mut self.lists[chunk as usize], more)?;
        Ok(())
    }

    /// Appends to each list its counterpart. If an allocation fails, some lists have theirs.
    #[tactic(auto, using(crate::proofs::Appending::none_appended, crate::proofs::Appending::one_appended))]
    pub(crate) fn append(&mut self, more: &Lists) -> Result<(), Memory>
        requires { length more.now ≡ length self.old }
        ensures { OnOk result (AreAppendedBelow (length self.old) self.old more.now self.new) }
    {
        for chunk in 0..self.len() {
            self.extend(chunk, more.of(chunk))?;
        }
        Ok(())
    }

    /// Returns the chunks, ascending, whose list has an element.
    pub(crate) fn filled(&self, alloc: Global) -> Result<Vec<u32>, Memory>
        ensures { IfOk result (λ filled. filled.items
            ≡ filter (λ c. has_some (get_or self.now c [])) (range_with_len 0 (length self.now))) }
    {
        let mut filled = Vec::new(alloc);
        for chunk in 0..self.len() {
            push_if(&mut filled, has_some(self.of(chunk)), chunk)?;
        }
        Ok(filled)
    }
}
