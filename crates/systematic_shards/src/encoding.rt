//! A block to parity rows, and the mask of its words.
//!
//! For example, `min` is 2 and `total` is 3, so the domain is the four powers of i, a root of order
//! four. The data are three words, 5, 7 and 2^64 - 1, so a row has two words, and the last word of
//! row 1 is zero. The high half of 2^64 - 1 is all ones, so the mask is 1. Under it the elements
//! are 2^32 + 5 and 2^32 + 7 in row 0, and -2 and 2^32 in row 1. In each column they are the values
//! a at 1 and b at i of a polynomial of two coefficients, and the value at -1 is (1 + i) b - i a.
//! So the parity row has the words of 2^16 - 2^51 - 2 and 2^32 - 7 2^48.

ghost use Rattle.std.specs.Prelude.{◌≡◌, ◌-◌, ◌*◌, ◌<◌, ◌≤◌, ◌^◌, ℕ, length, IfOk, OnErr, OnOk};
ghost use Rattle.std.specs.List.{range_with_len};
ghost use Rattle.systematic_shards.specs.Masks.{IsFree, IsLeastMask};
ghost use Rattle.systematic_shards.specs.Shards.{AreBlockRows, AreShards};

use crate::filling::write_targets;
use crate::making::RowMaker;
use crate::mask::least_mask;
use crate::memory::WordMemory;
use crate::rows::Row;
use crate::split::{Code, Split};
use math_base::algebra::Mem;
use std::alloc::Global;

/// The data rows of a block: parts of its memory.
fn block_rows<'a, M: WordMemory>(
    alloc: Global,
    block: &'a [M],
    split: Split,
) -> Mem<Vec<Row<'a, M>>>
    ensures { IfOk result (λ rows. AreBlockRows M.word split.width block.now split.min rows.items) }
{
    let mut rows = Vec::new(alloc);
    for index in 0..split.min {
        let cells = M::part(block, index as usize * split.width, split.width);
        rows.push(Row { index, cells })?;
    }
    Ok(rows)
}

/// The indices from `from` on, below `to`.
pub(crate) fn indices_between(alloc: Global, from: u32, to: u32) -> Mem<Vec<u32>>
    requires { from ≤ to }
    ensures { IfOk result (λ v. v.items ≡ range_with_len from (to - from)) }
{
    let mut out = Vec::new(alloc);
    for index in from..to {
        out.push(index)?;
    }
    Ok(out)
}

/// The numbers below `count`.
fn places_below(alloc: Global, count: usize) -> Mem<Vec<usize>>
    ensures { IfOk result (λ v. v.items ≡ range_with_len 0 count) }
{
    let mut places = Vec::new(alloc);
    for place in 0..count {
        places.push(place)?;
    }
    Ok(places)
}

/// Writes the parity rows of a block of these words over `parity`, row after row, under a mask that
/// is free of each word. If memory is refused, it writes nothing.
fn write_parity<M: WordMemory>(alloc: Global, code: Code, block: &[M], parity: &mut [M]) -> Mem<()>
    requires room { M.BYTES * length parity.old
        ≡ (code.split.total - code.split.min) * (8 * code.split.width) }
    requires free { IsFree (code.split.min * code.split.width) (M.word block.now) code.mask }
    requires fit { (k : ℕ) → k < code.split.min * code.split.width → M.word block.now k < 2 ^ 64 }
    ensures ok { OnOk result
        (AreShards code.split code.mask (M.word block.now) (M.word parity.new)) }
    ensures err { OnErr result (parity.new ≡ parity.old) }
{
    let split = code.split;
    let rows = block_rows(alloc, block, split)?;
    let first = indices_between(alloc, 0, split.min)?;
    let targets = indices_between(alloc, split.min, split.total)?;
    let places = places_below(alloc, targets.len())?;
    let maker = RowMaker::new(alloc, &rows, &first, &targets, code)?;
    let mut room = maker.interpolation.room(alloc)?;
    write_targets(&maker, &places, &mut room, parity);
    Ok(())
}

/// Finds the mask of a block, and writes its parity rows, those of the indices from `min` to
/// `total` - 1, over `parity`, row after row.
///
/// The mask is the least one under which no word of the block, with the zeros that fill the last
/// data rows, has a high half that is all ones. Under it the words of the block are the data rows
/// of a codeword, and what is written are its parity rows; there are no others.
///
/// The block has as many bytes as the split says, and `parity` as many as the parity rows. If `min`
/// is `total`, or there are no bytes, only the mask is found. It takes memory for some columns of
/// all rows, and, where the mask is not 0, for a flag for each word. Let N be `total` rounded up to
/// a power of two: few parity rows are made by `min` weights each, and many by transforms, in
/// tables and a strip of some times N elements. If memory is refused, it writes nothing.
///
/// ```
/// use systematic_shards::{Split, encode};
/// let split = Split::new(1, 2, 4)?;
/// let mut parity = [0_u8; 8];
/// encode(alloc, split, b"data", &mut parity)?; // 0
/// parity; // [100, 97, 116, 97, 0, 0, 0, 0]
/// ```
pub fn encode<M: WordMemory>(alloc: Global, split: Split, block: &[M], parity: &mut [M]) -> Mem<u32>
    requires size { M.BYTES * length block.now ≡ split.size }
    requires room { M.BYTES * length parity.old ≡ (split.total - split.min) * (8 * split.width) }
    ensures mask { IfOk result
        (λ mask. IsLeastMask (split.min * split.width) (M.word block.now) mask) }
    ensures few { IfOk result (λ mask. mask ≤ split.min * split.width) }
    ensures ok { IfOk result
        (λ mask. AreShards split mask (M.word block.now) (M.word parity.new)) }
    ensures err { OnErr result (parity.new ≡ parity.old) }
{
    let mask = least_mask(alloc, block, split.min as usize * split.width)?;
    write_parity(alloc, Code { split, mask }, block, parity)?;
    Ok(mask)
}
