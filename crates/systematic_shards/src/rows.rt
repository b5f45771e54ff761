//! Rows in the caller's memory, and what is tested of them before anything else.

ghost use Rattle.std.specs.Prelude.{◌≡◌, ◌≢◌, ◌↔◌, ◌*◌, ◌<◌, ◌≤◌, ℕ, All, List, length, slice_index};
ghost use Rattle.std.specs.Prelude.{IsTrue, IfErr, IfSome, IfNone, OnOk};
ghost use Rattle.systematic_shards.specs.Refusals.{AreElements, HasLength, IsDue, IsSound};
ghost use Rattle.systematic_shards.specs.Shards.{IsElementIn, mask_of_row};
ghost use Rattle.systematic_shards.specs.declared.Error.TheVariants.{Conflict, Inconsistent};

use crate::Error;
use crate::mask::are_free_of;
use crate::memory::{RUN, WordMemory, words_from};
use crate::split::{Code, Split};
use math_values::words;

/// One row: its index, and its words in the caller's memory.
#[derive(Clone, Copy)]
pub struct Row<'a, M> {
    /// Which of the rows it is: below `min` a data row, else a parity row.
    pub index: u32,
    /// Its words, or their bytes.
    pub cells: &'a [M],
}

/// The mask of the words of the row of this index.
pub(crate) fn row_mask(code: Code, index: u32) -> u32
    ensures { result ≡ mask_of_row code.split.min code.mask index }
{
    if index < code.split.min { code.mask } else { 0 }
}

/// Whether the row has the length that the split says.
fn has_length<M: WordMemory>(row: &Row<'_, M>, split: Split) -> bool
    ensures { IsTrue result ↔ HasLength M.BYTES split row.now }
{
    match M::BYTES.checked_mul(row.cells.len()) {
        Some(bytes) => bytes == 8 * split.width,
        None => false,
    }
}

/// Refuses no row at all, and else the first row of another length or with an index out of range.
pub(crate) fn check_rows<M: WordMemory>(rows: &[Row<'_, M>], split: Split) -> Result<(), Error>
    ensures some { OnOk result (1 ≤ length rows.now) }
    ensures ok { OnOk result (All (IsSound M.BYTES split) rows.now) }
    ensures err { IfErr result (λ e. (mask : ℕ) (wanted : List ℕ)
        → IsDue M.BYTES M.word split mask rows.now wanted e) }
    ensures others { IfErr result (λ e. (e ≢ Conflict) × (e ≢ Inconsistent)) }
{
    if rows.is_empty() {
        return Err(Error::TooFew);
    }
    for row in rows {
        if !has_length(row, split) {
            return Err(Error::Mismatch);
        }
        if row.index >= split.total {
            return Err(Error::Index);
        }
    }
    Ok(())
}

/// Whether each number is below the bound.
pub(crate) fn are_below(numbers: &[u32], bound: u32) -> bool
    ensures { IsTrue result ↔ All (λ n. n < bound) numbers.now }
{
    numbers.iter().all(|n| *n < bound)
}

/// Whether each word is one of an element in the row of this index.
///
/// Nearly all words of a parity row have a high half that is not all ones, and are below P for
/// that: this is tested first, since it takes less.
fn are_words_in(words: &[u64], code: Code, index: u32) -> bool
    ensures { IsTrue result ↔ ((k : ℕ) → k < length words.now
        → IsElementIn code.split.min code.mask index (slice_index words.now k)) }
{
    if index < code.split.min {
        return are_free_of(words, code.mask);
    }
    if are_free_of(words, 0) {
        return true;
    }
    words::are_elements(words)
}

/// Whether each word of the row is one of an element.
pub(crate) fn has_elements<M: WordMemory>(row: &Row<'_, M>, code: Code) -> bool
    ensures { IsTrue result ↔ ((k : ℕ) → k < code.split.width
        → IsElementIn code.split.min code.mask row.now.index (M.word row.now.cells.now k)) }
{
    let width = code.split.width;
    let mut run = [0; RUN];
    let mut from = 0;
    while from < width {
        let some = RUN.min(width - from);
        let words = words_from(row.cells, from, some, &mut run);
        if !are_words_in(words, code, row.index) {
            return false;
        }
        from += some;
    }
    true
}

/// Whether each word of each row is one of an element.
pub(crate) fn are_elements<M: WordMemory>(rows: &[Row<'_, M>], code: Code) -> bool
    ensures { IsTrue result ↔ AreElements M.word code.split code.mask rows.now }
{
    rows.iter().all(|row| has_elements(row, code))
}

/// The first of so many words that differs in both.
pub(crate) fn first_difference<M: WordMemory>(
    cells: &[M],
    others: &[M],
    width: usize,
) -> Option<usize>
    ensures some { IfSome result
        (λ k. (k < width) × (M.word cells.now k ≢ M.word others.now k)) }
    ensures none { IfNone result
        ((k : ℕ) → k < width → M.word cells.now k ≡ M.word others.now k) }
{
    for k in 0..width {
        if M::read(cells, k) != M::read(others, k) {
            return Some(k);
        }
    }
    None
}
