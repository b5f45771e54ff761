//! Systematic shards of a block of bytes, as bytes, a row after the other.
//!
//! A data shard is the data byte for byte, so no number has a place in it: the size, `min`, `total`
//! and the mask that `encode` gave are handed to each call. The size says how many zeros follow the
//! data.

ghost use Rattle.std.specs.Prelude.{◌≡◌, ◌≢◌, ◌↔◌, ◌≤◌, ◌-◌, ◌*◌, ℕ, [], List, length};
ghost use Rattle.std.specs.Prelude.{IsTrue, IfOk, IfErr, IfSome, IfNone, OnOk, OnErr};
ghost use Rattle.systematic_shards.specs.declared.Error.TheVariants.{Conflict, Inconsistent};
ghost use Rattle.systematic_shards.specs.declared.Error.TheVariants.{Mismatch, Sizes, Word};
ghost use Rattle.systematic_shards.specs.declared.rows.Row.{Row};
ghost use Rattle.systematic_shards.specs.declared.split.Split.{Split};
ghost use Rattle.c_calls.specs.SystematicRows.{AreDecoded, AreEncoded, AreInHand};
ghost use Rattle.c_calls.specs.SystematicRows.{AreRebuilt, AreRowsOf, HaveRoom, HaveRowsFor};
ghost use Rattle.c_calls.specs.SystematicRows.{IsDecodeDueTo, IsDueTo};
ghost use Rattle.c_calls.specs.SystematicRows.{IsMemoryOrCorrectingDue, IsMemoryOrDue, IsSplitOf};
ghost use Rattle.c_calls.specs.SystematicRows.{IsVerified, WritesRows, width_of};
ghost use Rattle.systematic_shards.specs.Splits.{IsSplit};

mod in_hand;

use commonware_math::algebra::Mem;
pub use in_hand::RowsInHand;
use std::alloc::Global;
use systematic_shards::{
    Code, Error, Row, Split, decode, encode, rebuild, rebuild_corrected, verify,
};

/// The split of so many bytes: `None` where its rows have too many words.
pub fn split_for(size: usize, min: u32, total: u32) -> Option<Split>
    requires { IsSplit min total }
    ensures some { IfSome result (IsSplitOf size min total) }
    ensures room { IfSome result (λ _. HaveRoom min total (width_of size min)) }
    ensures none { IfNone result (¬ (HaveRoom min total (width_of size min))) }
{
    match Split::new(min, total, size) {
        Ok(split) => Some(split),
        Err(_) => None,
    }
}

/// Whether so many bytes are `count` rows of the split of `size` bytes.
pub fn have_rows(size: usize, min: u32, total: u32, count: usize, bytes: usize) -> bool
    requires { IsSplit min total }
    ensures { IsTrue result ↔ HaveRowsFor size min total count bytes }
{
    let Some(split) = split_for(size, min, total) else {
        return false;
    };
    match count.checked_mul(split.row_bytes()) {
        Some(all) => all == bytes,
        None => false,
    }
}

/// Takes the bytes as rows of these indices: `None` where they are not as many.
pub fn rows_in_hand<'a>(
    size: usize,
    min: u32,
    total: u32,
    mask: u32,
    indices: &'a [u32],
    bytes: &'a [u8],
) -> Option<RowsInHand<'a>>
    requires { IsSplit min total }
    ensures some { IfSome result (AreInHand size min total mask indices.now bytes.now) }
    ensures rows { IfSome result
        (λ _. HaveRowsFor size min total (length indices.now) (length bytes.now)) }
    ensures none { IfNone result
        (¬ (HaveRowsFor size min total (length indices.now) (length bytes.now))) }
{
    if !have_rows(size, min, total, indices.len(), bytes.len()) {
        return None;
    }
    let Some(split) = split_for(size, min, total) else {
        unreachable!()
    };
    let code = Code { split, mask };
    Some(RowsInHand {
        code,
        indices,
        bytes,
    })
}

/// The rows in hand, each for itself. Takes memory for three words each.
fn rows_of<'a>(alloc: Global, held: &RowsInHand<'a>) -> Mem<Vec<Row<'a, u8>>>
    ensures { IfOk result (λ rows. AreRowsOf held.now rows.items) }
{
    let indices = held.indices;
    let bytes = held.bytes;
    let row = held.code.split.row_bytes();
    let mut rows = Vec::with_capacity(alloc, indices.len())?;
    for t in 0..indices.len() {
        let cells = &bytes[t * row..(t + 1) * row];
        rows.push(Row {
            index: indices[t],
            cells,
        })?;
    }
    Ok(rows)
}

/// Writes the parity rows of the block, row after row, and gives its mask.
pub fn write_parity(
    alloc: Global,
    block: &[u8],
    min: u32,
    total: u32,
    parity: &mut [u8],
) -> Mem<u32>
    requires split { IsSplit min total }
    requires rows { HaveRowsFor (length block.now) min total (total - min) (length parity.old) }
    ensures ok { IfOk result (λ mask. (split : Split) × IsSplitOf (length block.now) min total split
        × AreEncoded split block.now mask parity.new) }
    ensures err { OnErr result (parity.new ≡ parity.old) }
{
    let Some(split) = split_for(block.len(), min, total) else {
        unreachable!()
    };
    let mask = encode(alloc, split, block, parity)?;
    Ok(mask)
}

/// Writes the rows of the wanted indices that the rows in hand give back, row after row.
///
/// It refuses as `rebuild` does.
pub fn write_rows(
    alloc: Global,
    held: &RowsInHand<'_>,
    wanted: &[u32],
    out: &mut [u8],
) -> Result<(), Error>
    requires { length out.old ≡ length wanted.now * (8 * held.now.code.split.width) }
    ensures ok { OnOk result ((rows : List (Row ℕ)) × AreRowsOf held.now rows
        × AreRebuilt held.now.code rows wanted.now out.new) }
    ensures due { IfErr result (IsMemoryOrDue (IsDueTo held.now.code wanted.now) held.now) }
    ensures others { IfErr result (λ e. (e ≢ Mismatch) × (e ≢ Sizes)) }
    ensures err { OnErr result (out.new ≡ out.old) }
{
    let rows = rows_of(alloc, held)?;
    rebuild(alloc, held.code, &rows, wanted, out)?;
    Ok(())
}

/// Writes the rows of the wanted indices, row after row, though some rows in hand are wrong, and the
/// positions of these over the first items of `left_out`, and gives their number.
///
/// It refuses as `rebuild_corrected` does, and with `Inconsistent` where that finds no codeword.
pub fn write_corrected_rows(
    alloc: Global,
    held: &RowsInHand<'_>,
    wanted: &[u32],
    out: &mut [u8],
    left_out: &mut [usize],
) -> Result<usize, Error>
    requires rows { length out.old ≡ length wanted.now * (8 * held.now.code.split.width) }
    requires room { length held.now.indices.now ≤ length left_out.old }
    ensures ok { IfOk result (WritesRows held.now wanted.now out.new left_out.old left_out.new) }
    ensures due { IfErr result (IsMemoryOrCorrectingDue wanted.now held.now) }
    ensures others { IfErr result (λ e. (e ≢ Mismatch) × (e ≢ Sizes)) }
    ensures of_sound { IfErr result (λ e. (e ≢ Word) × (e ≢ Conflict)) }
    ensures err { OnErr result ((out.new ≡ out.old) × (left_out.new ≡ left_out.old)) }
{
    let rows = rows_of(alloc, held)?;
    let Some(found) = rebuild_corrected(alloc, held.code, &rows, wanted, out)? else {
        return Err(Error::Inconsistent);
    };
    let many = found.len();
    left_out[..many].copy_from_slice(&found);
    Ok(many)
}

/// Writes the block that the rows in hand give back. It refuses as `decode` does.
pub fn write_block(alloc: Global, held: &RowsInHand<'_>, block: &mut [u8]) -> Result<(), Error>
    requires { length block.old ≡ held.now.code.split.size }
    ensures ok { OnOk result ((rows : List (Row ℕ)) × AreRowsOf held.now rows
        × AreDecoded held.now.code rows block.new) }
    ensures due { IfErr result (IsMemoryOrDue (IsDecodeDueTo held.now.code) held.now) }
    ensures others { IfErr result (λ e. (e ≢ Mismatch) × (e ≢ Sizes)) }
    ensures err { OnErr result (block.new ≡ block.old) }
{
    let rows = rows_of(alloc, held)?;
    decode(alloc, held.code, &rows, block)?;
    Ok(())
}

/// Gives 1 if the rows in hand belong to one codeword, and else 0. It refuses as `verify` does.
pub fn belong(alloc: Global, held: &RowsInHand<'_>) -> Result<u32, Error>
    ensures ok { IfOk result (λ answer. (rows : List (Row ℕ)) × AreRowsOf held.now rows
        × IsVerified held.now.code rows answer) }
    ensures due { IfErr result (IsMemoryOrDue (IsDueTo held.now.code []) held.now) }
    ensures others { IfErr result (λ e. (e ≢ Mismatch) × (e ≢ Sizes)) }
    ensures of_one { IfErr result (λ e. (e ≢ Conflict) × (e ≢ Inconsistent)) }
{
    let rows = rows_of(alloc, held)?;
    if verify(alloc, held.code, &rows)? {
        Ok(1)
    } else {
        Ok(0)
    }
}
