//! Shards that are rows of words, or of bytes, to data.
//!
//! The cells are read where they lie. No shards are made of them: beside one list of elements the
//! data are written where they are wanted.

ghost use Rattle.std.specs.Prelude.{◌≡◌, ◌↔◌, ◌+◌, ◌*◌, ◌<◌, ◌≤◌, ◌^◌, ◌⊎◌, ℕ, List, All, length, map};
ghost use Rattle.std.specs.Prelude.{take, drop};
ghost use Rattle.std.specs.Prelude.{IsTrue, IfOk, IfErr, IfSome, IfNone, OnErr};
ghost use Rattle.math_transforms.specs.Matrices.{pieces};
ghost use Rattle.math_values.specs.Values.{AreElements};
ghost use Rattle.math_shards.specs.PackedWords.{HoldsWords};
ghost use Rattle.math_shards.specs.Joining.{IsMemory};
ghost use Rattle.math_shards.specs.WordShards.{AreRefused, AreWordShards, DoJoinTo, StandInFront};

use super::joining::joined_elements;
use super::rows::{Cell, CellRow, Row};
use super::unpacking::PackedData;
use super::{Error, Shard};
use math_base::algebra::Mem;
use math_splitting::shards::Layout;
use std::alloc::Global;

/// Row i of rows of `cols` cells, with an index.
fn cell_row<'a, C: Cell>(index: u32, cells: &'a [C], i: usize, cols: usize) -> CellRow<'a, C>
    requires { (i + 1) * cols ≤ length cells.now }
    ensures index { result.index ≡ index }
    ensures cells { result.cells.now ≡ take cols (drop (i * cols) cells.now) }
{
    let from = i * cols;
    CellRow {
        index,
        cells: &cells[from..from + cols],
    }
}

/// Makes shards of rows of cells. Row i holds the cells of the shard with index `indices[i]`, each
/// as the number of an element, below P, in a word or in eight bytes. All shards have this `min`,
/// this `total` and `cols` cells.
///
/// ```
/// let mut cells = [0; 8];
/// split_rows(alloc, &[4, 6], 1, 2, &mut cells)?;
/// let shards = shards_of_rows(alloc, &[0, 1], 1, 2, &cells, 4)?;
/// shards[1].index; // 1
/// join(alloc, &shards)?; // [4, 6]
/// ```
pub fn shards_of_rows<C: Cell>(
    alloc: Global,
    indices: &[u32],
    min: u32,
    total: u32,
    cells: &[C],
    cols: usize,
) -> Mem<Vec<Shard>>
    requires count { length cells.now ≡ length indices.now * cols }
    requires below { AreElements (map C.number cells.now) }
    ensures { IfOk result (λ shards.
        AreWordShards min total indices.now (map C.number cells.now) shards.items) }
{
    let mut out = Vec::with_capacity(alloc, indices.len())?;
    for i in 0..indices.len() {
        let row = cell_row(indices[i], cells, i, cols);
        let mut cells = Vec::with_capacity(alloc, cols)?;
        row.append_to(&mut cells)?;
        out.push(Shard {
            index: indices[i],
            min,
            total,
            cells,
        })?;
    }
    Ok(out)
}

/// The rows that the cells are, one for each index.
fn cell_rows<'a, C: Cell>(
    alloc: Global,
    indices: &[u32],
    cells: &'a [C],
    cols: usize,
) -> Mem<Vec<CellRow<'a, C>>>
    requires { length cells.now ≡ length indices.now * cols }
    ensures indices { IfOk result (λ rows. map (λ row. row.index) rows.items ≡ indices.now) }
    ensures cells { IfOk result (λ rows. map (λ row. map C.number row.cells.now) rows.items
        ≡ pieces (length indices.now) cols (map C.number cells.now)) }
{
    let mut rows = Vec::with_capacity(alloc, indices.len())?;
    for i in 0..indices.len() {
        rows.push(cell_row(indices[i], cells, i, cols))?;
    }
    Ok(rows)
}

/// Whether each number is below the bound.
fn are_below(numbers: &[u32], bound: u32) -> bool
    ensures { IsTrue result ↔ All (λ n. n < bound) numbers.now }
{
    numbers.iter().all(|n| *n < bound)
}

/// Joins shards that are rows of words, and writes the data over the first words of `out`. It
/// answers how many these are, or `None` if there is no room for them.
///
/// Row i holds the cells of the shard with index `indices[i]`, each as the number of an element,
/// below P; a row has `cols` words. It refuses as `join` does. If it refuses, or there is no room,
/// it writes nothing. It takes memory for as many elements as `min` rows have words, for the
/// weights or the transforms of a strip, and, if there are further rows, for a strip of a coset.
///
/// ```
/// let mut cells = [0; 8];
/// split_rows(alloc, &[4, 6], 1, 2, &mut cells)?;
/// let mut out = [0; 2];
/// join_rows(alloc, &[1], 1, 2, &cells[4..], 4, &mut out)?; // Some(2)
/// out; // [4, 6]
/// ```
pub fn join_rows(
    alloc: Global,
    indices: &[u32],
    min: u32,
    total: u32,
    cells: &[u64],
    cols: usize,
    out: &mut [u64],
) -> Result<Option<usize>, Error>
    requires count { length cells.now ≡ length indices.now * cols }
    requires below { AreElements cells.now }
    ensures some { IfOk result (λ answer. IfSome answer (λ n. (words : List ℕ)
        × DoJoinTo words min total indices.now cells.now × (n ≡ length words)
        × StandInFront words out.old out.new)) }
    ensures none { IfOk result (λ answer. IfNone answer ((words : List ℕ)
        × DoJoinTo words min total indices.now cells.now × (length out.old < length words))) }
    ensures kept { IfOk result (λ answer. IfNone answer (out.new ≡ out.old)) }
    ensures err { OnErr result (out.new ≡ out.old) }
    ensures due { IfErr result (λ e. IsMemory e ⊎ AreRefused e min total indices.now cells.now) }
{
    let data = join_cells(alloc, indices, min, total, cells, cols)?;
    let count = data.count();
    if count > out.len() {
        return Ok(None);
    }
    data.write(0, &mut out[..count]);
    Ok(Some(count))
}

/// Joins shards that are rows of cells, as `join_rows` does, and gives the data packed. Row i holds
/// the cells of the shard with index `indices[i]`, each as the number of an element, below P, in a
/// word or in eight bytes.
///
/// ```
/// let mut cells = [0_u64; 8];
/// split_rows(alloc, &[4, 6], 1, 2, &mut cells)?;
/// let data = join_cells(alloc, &[1], 1, 2, &cells[4..], 4)?;
/// data.count(); // 2
/// data.word(1); // 6
/// ```
pub fn join_cells<C: Cell>(
    alloc: Global,
    indices: &[u32],
    min: u32,
    total: u32,
    cells: &[C],
    cols: usize,
) -> Result<PackedData, Error>
    requires count { length cells.now ≡ length indices.now * cols }
    requires fits { length cells.now < 2 ^ 63 }
    requires below { AreElements (map C.number cells.now) }
    ensures ok { IfOk result (λ found. (words : List ℕ) × HoldsWords words found
        × DoJoinTo words min total indices.now (map C.number cells.now)) }
    ensures due { IfErr result (λ e. IsMemory e
        ⊎ AreRefused e min total indices.now (map C.number cells.now)) }
{
    let rows = cell_rows(alloc, indices, cells, cols)?;
    if indices.is_empty() {
        return Err(Error::TooFew);
    }
    let Some(layout) = Layout::checked(min, total, cols) else {
        return Err(Error::Mismatch);
    };
    if !are_below(indices, total) {
        return Err(Error::Index);
    }
    let packed = joined_elements(alloc, &rows, layout)?;
    Ok(packed)
}
