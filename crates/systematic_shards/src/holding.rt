//! Rows of distinct indices, by rising index, and whether they belong to one codeword.

ghost use Rattle.std.specs.Prelude.{◌≡◌, ◌↔◌, ◌⊎◌, ℕ, All, List, map};
ghost use Rattle.std.specs.Prelude.{IsTrue, IfOk, IfErr, OnOk};
ghost use Rattle.std.specs.List.Sorted.{IsNonDecreasingBy, IsPermutation, IsStrictlyIncreasing};
ghost use Rattle.systematic_shards.specs.Held.{AreHeld, AreIndexed, AreOneOfEach, IsUnlikeLast};
ghost use Rattle.systematic_shards.specs.Held.{IsKeptWith};
ghost use Rattle.systematic_shards.specs.Refusals.{AreAsked, AreElements, HaveCodewordOf};
ghost use Rattle.systematic_shards.specs.Refusals.{HaveConflict, IsDue, IsSound};
ghost use Rattle.systematic_shards.specs.Errors.{IsMemory};
ghost use Rattle.systematic_shards.specs.declared.Error.TheVariants.{Conflict};

use crate::Error;
use crate::filling::are_targets;
use crate::making::RowMaker;
use crate::memory::WordMemory;
use crate::rows::{Row, are_elements, first_difference};
use crate::split::Code;
use math_base::algebra::Mem;
use std::alloc::Global;

/// Rows of distinct indices, by rising index.
#[derive(Drop)]
pub(crate) struct Held<'a, M> {
    /// Their indices.
    pub(crate) indices: Vec<u32>,
    /// The rows.
    pub(crate) rows: Vec<Row<'a, M>>,
    ghost are: { indices.items ≡ map (λ row. row.index) rows.items },
    ghost rise: { IsStrictlyIncreasing indices.items },
}

/// The rows by rising index.
fn rows_by_index<'a, M: WordMemory>(alloc: Global, rows: &[Row<'a, M>]) -> Mem<Vec<Row<'a, M>>>
    ensures rising { IfOk result (λ v. IsNonDecreasingBy (λ row. row.index) v.items) }
    ensures all { IfOk result (λ v. IsPermutation rows.now v.items) }
{
    let mut out = Vec::from_slice(alloc, rows)?;
    out.sort_unstable_by_key(|row| row.index);
    Ok(out)
}

/// Puts the row behind those of other indices. If the last of these has its index, it is left out,
/// and a word that differs is refused.
fn push_unless_copy<'a, M: WordMemory>(
    kept: &mut Vec<Row<'a, M>>,
    row: Row<'a, M>,
    width: usize,
) -> Result<(), Error>
    ensures ok { OnOk result (IsKeptWith M.word width row.entry kept.old.items kept.new.items) }
    ensures err { IfErr result (λ e. IsMemory e
        ⊎ ((e ≡ Conflict) × IsUnlikeLast M.word width row.entry kept.old.items)) }
{
    if !kept.is_empty() {
        let last = kept[kept.len() - 1];
        if last.index == row.index {
            return match first_difference(last.cells, row.cells, width) {
                Some(_) => Err(Error::Conflict),
                None => Ok(()),
            };
        }
    }
    kept.push(row)?;
    Ok(())
}

/// One row of each index, by rising index. Refuses rows of one index that differ.
fn one_of_each<'a, M: WordMemory>(
    alloc: Global,
    rows: &[Row<'a, M>],
    code: Code,
) -> Result<Vec<Row<'a, M>>, Error>
    ensures ok { IfOk result (λ kept. AreOneOfEach M.word code.split.width rows.now kept.items) }
    ensures err { IfErr result
        (λ e. IsMemory e ⊎ ((e ≡ Conflict) × HaveConflict M.word code.split rows.now)) }
{
    let rising = rows_by_index(alloc, rows)?;
    let mut kept = Vec::new(alloc);
    for row in &rising {
        push_unless_copy(&mut kept, *row, code.split.width)?;
    }
    Ok(kept)
}

/// The indices of the rows.
fn indices_of<M: WordMemory>(alloc: Global, rows: &[Row<'_, M>]) -> Mem<Vec<u32>>
    ensures { IfOk result (λ v. v.items ≡ map (λ row. row.index) rows.now) }
{
    let mut out = Vec::new(alloc);
    for row in rows {
        out.push(row.index)?;
    }
    Ok(out)
}

/// Whether rows of rising indices belong to one codeword: those past the first `min` are what these
/// give. Of `min` rows that is always so.
fn are_of_one_codeword<M: WordMemory>(
    alloc: Global,
    rows: &[Row<'_, M>],
    indices: &[u32],
    code: Code,
) -> Mem<bool>
    requires indexed { AreIndexed code.split indices.now rows.now }
    requires elements { AreElements M.word code.split code.mask rows.now }
    ensures { IfOk result
        (λ answer. IsTrue answer ↔ HaveCodewordOf M.word code.split code.mask rows.now) }
{
    let min = code.split.min as usize;
    let maker = RowMaker::new(alloc, &rows[..min], &indices[..min], &indices[min..], code)?;
    let mut room = maker.interpolation.room(alloc)?;
    let answer = are_targets(&maker, &rows[min..], &mut room);
    Ok(answer)
}

/// One row of each index, where these are `min` or more and all rows belong to one codeword.
pub(crate) fn held_rows<'a, M: WordMemory>(
    alloc: Global,
    rows: &[Row<'a, M>],
    code: Code,
) -> Result<Held<'a, M>, Error>
    requires { All (IsSound M.BYTES code.split) rows.now }
    ensures ok { IfOk result (λ held. AreHeld M.word code.split code.mask rows.now
        held.indices.items held.rows.items) }
    ensures err { IfErr result (λ e. (wanted : List ℕ)
        → AreAsked M.BYTES code.split rows.now wanted
        → IsDue M.BYTES M.word code.split code.mask rows.now wanted e) }
{
    if !are_elements(rows, code) {
        return Err(Error::Word);
    }
    let kept = one_of_each(alloc, rows, code)?;
    if kept.len() < code.split.min as usize {
        return Err(Error::TooFew);
    }
    let indices = indices_of(alloc, &kept)?;
    if !are_of_one_codeword(alloc, &kept, &indices, code)? {
        return Err(Error::Inconsistent);
    }
    Ok(Held {
        indices,
        rows: kept,
    })
}
