//! Shards to data.
//!
//! One function, `fitted_elements`, says below all joins whether rows fit data. If there are just
//! `min` rows, they fit by how the coefficients were made. If there are more, every row is compared
//! with the values of the polynomials, also those that were chosen. The other way round, the
//! coefficients are the only ones with the values of the chosen rows, so they are the elements of
//! any data that the rows fit.
//!
//! Which refusal is due is looked for only if the rows fit no data: a join that succeeds spends no
//! time on it. The distinct indices are put in order, and a list has for each the place of its
//! first row. Each further row of that index is compared with that one.

ghost use Rattle.std.specs.Prelude.{◌≡◌, ◌↔◌, ◌+◌, ◌*◌, ◌<◌, ◌⊎◌, ℕ, List, All, length};
ghost use Rattle.std.specs.Prelude.{IsTrue, IsFalse, IfOk, IfErr, IfSome, IfNone, MatchResult};
ghost use Rattle.std.specs.List.{AllZip};
ghost use Rattle.math_fields.specs.Elements.{same};
ghost use Rattle.math_shards.specs.Fitting.{AreRowsOf, DoRowsFit};
ghost use Rattle.math_shards.specs.PackedWords.{HoldsWords};
ghost use Rattle.math_splitting.specs.Shards.{JoinTo};
ghost use Rattle.math_shards.specs.Joining.{AreIndexed, ArePlacesByIndex, HaveUnequalCells, IsDue};
ghost use Rattle.math_shards.specs.Joining.{IsDueOfRows};
ghost use Rattle.math_shards.specs.Joining.{IsMemory, IsSound, IsUnsound, Matches, RefusesExactly};
ghost use Rattle.math_shards.specs.declared.shards.Error.TheVariants.{TooFew, Mismatch, Index};
ghost use Rattle.math_shards.specs.declared.shards.Error.TheVariants.{Conflict, Inconsistent};

use super::comparing::have_values;
use super::distinct::{are_too_few, distinct_indices, place_of};
use super::restoring::coefficients;
use super::rows::Row;
use super::unpacking::{PackedData, data_count};
use super::{Error, Shard};
use math_base::algebra::Mem;
use math_fields::goldilocks::F;
use math_splitting::shards::Layout;
use std::alloc::Global;

/// Gives the data of the shards back: the only data of which each shard is one. A shard that is
/// handed in twice counts once.
///
/// It refuses, in this order:
///
/// - no shard at all, with `TooFew`;
/// - the first shard, as they are handed in, with a wrong number: with `Mismatch` if its `min`, its
///   `total` or its number of cells is not that of the first shard, or not 1 <= `min` <= `total`,
///   and with `Index` if its index is `total` or more;
/// - unequal cells of one index, with `Conflict`;
/// - fewer distinct indices than `min`, with `TooFew`;
/// - shards of no data, with `Inconsistent`.
///
/// So it finds damage to the cells of one shard if there are more than `min` distinct indices. If
/// there are just `min`, it may not.
///
/// It joins the first `min` shards of distinct indices. Let N be `total` rounded up to a power of
/// two. Beside the data, it takes memory for as many elements as these shards have cells, and:
///
/// - If `min` is small, and no more than a shard has cells, it joins by weights, in memory for
///   `min` rows of `min` cells, for a few times N elements and for one strip of N rows.
/// - Otherwise it joins by transforms of strips of columns, in memory for a few times N elements
///   and for one strip of N rows.
/// - If there are further shards, it then compares all shards with the data, in memory for a table
///   and a strip of a coset of `min` points or more.
/// - If the shards fit no data, it takes memory for some numbers of each shard and for the cells of
///   one, to tell which refusal is due.
///
/// Before it has counted `min` distinct indices it takes memory for some numbers of each shard, and
/// for their cells, however large `total` is. Limit `total` before you join shards from someone you
/// do not trust. No memory is taken for the number of words that shards claim to hold before they
/// are seen to have so many cells.
///
/// ```
/// let mut shards = split(alloc, &[4, 6, 8], 2, 5)?;
/// shards.swap_remove(0);
/// join(alloc, &shards)?; // [4, 6, 8]
/// shards.truncate(1);
/// join(alloc, &shards); // Err(TooFew)
/// ```
pub fn join(alloc: Global, shards: &[Shard]) -> Result<Vec<u64>, Error>
    ensures ok { IfOk result (λ words. JoinTo words.items shards.now) }
    ensures found { (words : List ℕ) → JoinTo words shards.now
        → MatchResult result (λ answer. answer.items ≡ words) IsMemory }
    ensures too_few { RefusesExactly result shards.now TooFew }
    ensures mismatch { RefusesExactly result shards.now Mismatch }
    ensures index { RefusesExactly result shards.now Index }
    ensures conflict { RefusesExactly result shards.now Conflict }
    ensures inconsistent { RefusesExactly result shards.now Inconsistent }
{
    joined_words(alloc, shards)
}

/// The words of the data of the shards, or what is wrong with these.
fn joined_words(alloc: Global, shards: &[Shard]) -> Result<Vec<u64>, Error>
    ensures ok { IfOk result (λ words. JoinTo words.items shards.now) }
    ensures err { IfErr result (IsDue shards.now) }
{
    let data = join_packed(alloc, shards)?;
    let words = data.words(alloc)?;
    Ok(words)
}

/// Gives the data of the shards back, packed, as `join` does.
///
/// ```
/// let shards = split(alloc, &[4, 6, 8], 2, 5)?;
/// join_packed(alloc, &shards)?.count(); // 3
/// ```
pub fn join_packed(alloc: Global, shards: &[Shard]) -> Result<PackedData, Error>
    ensures ok { IfOk result (λ found. (words : List ℕ)
        × HoldsWords words found × JoinTo words shards.now) }
    ensures err { IfErr result (IsDue shards.now) }
{
    let Some(first) = shards.first() else {
        return Err(Error::TooFew);
    };
    check_numbers(shards, first)?;
    let layout = Layout::new(first.min, first.total, first.cells.len());
    let packed = joined_elements(alloc, shards, layout)?;
    Ok(packed)
}

/// The data that the rows fit, or which refusal is due.
pub(super) fn joined_elements<R: Row>(
    alloc: Global,
    rows: &[R],
    layout: Layout,
) -> Result<PackedData, Error>
    requires { AreRowsOf R.index R.cells layout rows.now }
    ensures ok { IfOk result (λ found. (words : List ℕ) × HoldsWords words found
        × DoRowsFit R.index R.cells words layout.min layout.total rows.now) }
    ensures err { IfErr result (λ e. IsMemory e
        ⊎ IsDueOfRows R.index R.cells layout.min layout.total rows.now e) }
{
    if let Some(found) = fitted_elements(alloc, rows, layout)? {
        return Ok(found);
    }
    let error = refusal(alloc, rows, layout.min, layout.width)?;
    Err(error)
}

/// The data that the rows fit; `None` where fewer than `min` rows have distinct indices, or some
/// row does not fit.
///
/// The first `min` rows of distinct indices have the values of one polynomial a column. Where there
/// are further rows, all are compared with the values of these.
pub(super) fn fitted_elements<R: Row>(
    alloc: Global,
    rows: &[R],
    layout: Layout,
) -> Mem<Option<PackedData>>
    requires { AreRowsOf R.index R.cells layout rows.now }
    ensures some { IfOk result (λ answer. IfSome answer (λ found. (words : List ℕ)
        × HoldsWords words found
        × DoRowsFit R.index R.cells words layout.min layout.total rows.now)) }
    ensures none { IfOk result (λ answer. IfNone answer ((words : List ℕ)
        → ¬ (DoRowsFit R.index R.cells words layout.min layout.total rows.now))) }
{
    if rows.len() < layout.min as usize {
        return Ok(None);
    }
    if are_too_few(alloc, rows, layout.min, layout.total)? {
        return Ok(None);
    }
    let Some(elements) = coefficients(alloc, rows, layout)? else {
        return Ok(None);
    };
    let Some(count) = data_count(&elements, layout.min, layout.width) else {
        return Ok(None);
    };
    if rows.len() == layout.min as usize {
        return Ok(Some(PackedData { elements, count }));
    }
    if !have_values(alloc, rows, &elements, layout)? {
        return Ok(None);
    }
    Ok(Some(PackedData { elements, count }))
}

/// Whether the rows, of this width, have the same cells.
fn have_same_cells<R: Row>(alloc: Global, row: &R, other: &R, width: usize) -> Mem<bool>
    requires first { length (R.cells row.now) ≡ width }
    requires second { length (R.cells other.now) ≡ width }
    ensures { IfOk result
        (λ answer. IsTrue answer ↔ AllZip same (R.cells row.now) (R.cells other.now)) }
{
    let mut cells = Vec::with_capacity(alloc, width)?;
    row.append_to(&mut cells)?;
    Ok(other.has_values(0, &cells))
}

/// Puts the place of row i into the list by index, where no row before it has its index. Whether it
/// has the cells of the row whose place is there else.
fn put_place<R: Row>(
    alloc: Global,
    rows: &[R],
    i: usize,
    width: usize,
    indices: &[u32],
    places: &mut [usize],
) -> Mem<bool>
    requires row { i < length rows.now }
    requires indexed { AreIndexed R.index R.cells width indices.now rows.now }
    requires places { ArePlacesByIndex R.index R.cells indices.now rows.now i places.old }
    ensures equal { IfOk result (λ answer. IsTrue answer
        → ArePlacesByIndex R.index R.cells indices.now rows.now (i + 1) places.new) }
    ensures unequal { IfOk result
        (λ answer. IsFalse answer → HaveUnequalCells R.index R.cells rows.now) }
{
    let at = place_of(indices, rows[i].index());
    let place = places[at];
    if place >= rows.len() {
        places[at] = i;
        return Ok(true);
    }
    let answer = have_same_cells(alloc, &rows[place], &rows[i], width)?;
    Ok(answer)
}

/// Writes over the list for each of the indices the place of the first row that has it, and the
/// number of rows where none does. Whether no two rows of one index have unequal cells.
fn put_places<R: Row>(
    alloc: Global,
    rows: &[R],
    width: usize,
    indices: &[u32],
    places: &mut [usize],
) -> Mem<bool>
    requires indexed { AreIndexed R.index R.cells width indices.now rows.now }
    requires size { length places.old ≡ length indices.now }
    ensures equal { IfOk result (λ answer. IsTrue answer → ArePlacesByIndex R.index R.cells
        indices.now rows.now (length rows.now) places.new) }
    ensures unequal { IfOk result
        (λ answer. IsFalse answer → HaveUnequalCells R.index R.cells rows.now) }
{
    places.fill(rows.len());
    for i in 0..rows.len() {
        if !put_place(alloc, rows, i, width, indices, places)? {
            return Ok(false);
        }
    }
    Ok(true)
}

/// Which refusal is due to rows that fit no data: unequal cells of one index, too few distinct
/// indices, or neither.
///
/// Takes memory for numbers of the rows and for the cells of one, however large their indices are.
fn refusal<R: Row>(alloc: Global, rows: &[R], min: u32, width: usize) -> Mem<Error>
    requires count { All (λ row. length (R.cells row) ≡ width) rows.now }
    ensures { IfOk result (λ e. (total : ℕ) → All (λ row. R.index row < total) rows.now
        → ((words : List ℕ) → ¬ (DoRowsFit R.index R.cells words min total rows.now))
        → IsDueOfRows R.index R.cells min total rows.now e) }
{
    let indices = distinct_indices(alloc, rows)?;
    let mut places = Vec::with_capacity(alloc, indices.len())?;
    places.resize(indices.len(), 0)?;
    if !put_places(alloc, rows, width, &indices, &mut places)? {
        return Ok(Error::Conflict);
    }
    if indices.len() < min as usize {
        return Ok(Error::TooFew);
    }
    Ok(Error::Inconsistent)
}

/// Whether the numbers and the number of cells are those of the first shard, and such as shards
/// have.
fn matches(first: &Shard, shard: &Shard) -> bool
    ensures { IsTrue result ↔ Matches first.now shard.now }
{
    shard.min == first.min
        && shard.total == first.total
        && shard.cells.len() == first.cells.len()
        && 1 <= shard.min
        && shard.min <= shard.total
}

/// Refuses the first shard that does not match the first one, or whose index is out of range.
pub(super) fn check_numbers(shards: &[Shard], first: &Shard) -> Result<(), Error>
    ensures ok { IfOk result (λ _. All (IsSound first.now) shards.now) }
    ensures err { IfErr result (IsUnsound first.now shards.now) }
{
    for shard in shards {
        if !matches(first, shard) {
            return Err(Error::Mismatch);
        }
        if shard.index >= shard.total {
            return Err(Error::Index);
        }
    }
    Ok(())
}

/// Whether both have the same cells.
pub(super) fn are_equal(cells: &[F], others: &[F]) -> bool
    requires { length cells.now ≡ length others.now }
    ensures { IsTrue result ↔ AllZip same cells.now others.now }
{
    for (i, cell) in cells.iter().enumerate() {
        if *cell != others[i] {
            return false;
        }
    }
    true
}
