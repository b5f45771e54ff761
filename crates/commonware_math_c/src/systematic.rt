//! Systematic shards of bytes: the data as they are, and parity rows.

ghost use Rattle.std.specs.Prelude.{◌≡◌, ◌≢◌, ◌↔◌, ◌<◌, ◌≤◌, ◌-◌, ◌*◌, ◌⊎◌, ℕ, [], List, length};
ghost use Rattle.systematic_shards.specs.declared.split.Split.{Split};
ghost use Rattle.c_calls.specs.Statuses.{TestsSizes, conflict, done, inconsistent, mismatch};
ghost use Rattle.c_calls.specs.Statuses.{out_of_memory, out_of_range, wrong_index, wrong_size};
ghost use Rattle.c_calls.specs.SystematicRows.{AreCorrected, AreDecoded, AreEncoded, AreRebuilt};
ghost use Rattle.c_calls.specs.SystematicRows.{HaveRoom, HaveRowsFor, HoldsOfGiven};
ghost use Rattle.c_calls.specs.SystematicRows.{IsCorrectingDueTo, IsDecodeDueTo, IsDueTo};
ghost use Rattle.c_calls.specs.SystematicRows.{IsSplitOf, IsStatusDue, IsVerified};
ghost use Rattle.c_calls.specs.SystematicRows.{bytes_in_row, width_of};
ghost use Rattle.c_calls.specs.WordEncodings.{StandInFront};
ghost use Rattle.systematic_shards.specs.Splits.{IsSplit};

use c_calls::shards::is_split;
use c_calls::status::Status;
use c_calls::{status, systematic};
use std::alloc::Global;

/// Writes how many bytes a row has, and how many of row `index` are bytes of the block.
#[unsafe(no_mangle)]
pub extern "C" fn cwm_systematic_sizes(
    size: usize,
    min: u32,
    total: u32,
    index: u32,
    row: &mut usize,
    part: &mut usize,
) -> u32
    ensures row { result ≡ done → row.new ≡ 8 * width_of size min }
    ensures part { result ≡ done → part.new ≡ bytes_in_row size (width_of size min) index }
    ensures kept { result ≢ done → (row.new ≡ row.old) × (part.new ≡ part.old) }
    ensures sizes { TestsSizes (IsSplit min total)
        (HaveRoom min total (width_of size min)) result }
    ensures index { result ≡ wrong_index
        ↔ IsSplit min total × HaveRoom min total (width_of size min) × (total ≤ index) }
    ensures statuses { (result ≡ done) ⊎ (result ≡ wrong_size) ⊎ (result ≡ mismatch)
        ⊎ (result ≡ wrong_index) }
{
    if !is_split(min, total) {
        return Status::Mismatch.code();
    }
    let Some(split) = systematic::split_for(size, min, total) else {
        return Status::WrongSize.code();
    };
    if index >= total {
        return Status::WrongIndex.code();
    }
    *row = split.row_bytes();
    *part = split.data_bytes(index);
    Status::Done.code()
}

/// Writes the parity rows of the block, row after row, and its mask.
#[unsafe(no_mangle)]
pub extern "C" fn cwm_systematic_encode(
    alloc: Global,
    block: &[u8],
    min: u32,
    total: u32,
    parity: &mut [u8],
    mask: &mut u32,
) -> u32
    ensures encoded { result ≡ done → (split : Split) × IsSplitOf (length block.now) min total split
        × AreEncoded split block.now mask.new parity.new }
    ensures kept { result ≢ done → (parity.new ≡ parity.old) × (mask.new ≡ mask.old) }
    ensures sizes { TestsSizes (IsSplit min total)
        (HaveRowsFor (length block.now) min total (total - min) (length parity.old)) result }
    ensures statuses { (result ≡ done) ⊎ (result ≡ out_of_memory) ⊎ (result ≡ wrong_size)
        ⊎ (result ≡ mismatch) }
{
    if !is_split(min, total) {
        return Status::Mismatch.code();
    }
    let count = (total - min) as usize;
    if !systematic::have_rows(block.len(), min, total, count, parity.len()) {
        return Status::WrongSize.code();
    }
    match systematic::write_parity(alloc, block, min, total, parity) {
        Ok(found) => {
            *mask = found;
            Status::Done.code()
        }
        Err(_) => Status::OutOfMemory.code(),
    }
}

/// Writes the rows of the wanted indices, row after row: row t of the rows in hand is that of index
/// number t.
#[unsafe(no_mangle)]
pub extern "C" fn cwm_systematic_rebuild(
    alloc: Global,
    indices: &[u32],
    rows: &[u8],
    size: usize,
    min: u32,
    total: u32,
    mask: u32,
    wanted: &[u32],
    out: &mut [u8],
) -> u32
    ensures rebuilt { result ≡ done → HoldsOfGiven size min total mask indices.now rows.now
        (λ code given. AreRebuilt code given wanted.now out.new) }
    ensures kept { result ≢ done → out.new ≡ out.old }
    ensures sizes { TestsSizes (IsSplit min total)
        (HaveRowsFor size min total (length indices.now) (length rows.now)
        × HaveRowsFor size min total (length wanted.now) (length out.old)) result }
    ensures refused { IsStatusDue size min total mask indices.now rows.now
        (λ code. IsDueTo code wanted.now) result }
    ensures statuses { result ≤ inconsistent }
{
    if !is_split(min, total) {
        return Status::Mismatch.code();
    }
    let Some(held) = systematic::rows_in_hand(size, min, total, mask, indices, rows) else {
        return Status::WrongSize.code();
    };
    if !systematic::have_rows(size, min, total, wanted.len(), out.len()) {
        return Status::WrongSize.code();
    }
    match systematic::write_rows(alloc, &held, wanted, out) {
        Ok(()) => Status::Done.code(),
        Err(error) => status::of_rows(&error).code(),
    }
}

/// Writes the block that the rows give back.
#[unsafe(no_mangle)]
pub extern "C" fn cwm_systematic_decode(
    alloc: Global,
    indices: &[u32],
    rows: &[u8],
    min: u32,
    total: u32,
    mask: u32,
    block: &mut [u8],
) -> u32
    ensures decoded { result ≡ done
        → HoldsOfGiven (length block.old) min total mask indices.now rows.now
        (λ code given. AreDecoded code given block.new) }
    ensures kept { result ≢ done → block.new ≡ block.old }
    ensures sizes { TestsSizes (IsSplit min total)
        (HaveRowsFor (length block.old) min total (length indices.now) (length rows.now)) result }
    ensures refused { IsStatusDue (length block.old) min total mask indices.now rows.now
        (λ code. IsDecodeDueTo code) result }
    ensures statuses { result ≤ inconsistent }
{
    if !is_split(min, total) {
        return Status::Mismatch.code();
    }
    let size = block.len();
    let Some(held) = systematic::rows_in_hand(size, min, total, mask, indices, rows) else {
        return Status::WrongSize.code();
    };
    match systematic::write_block(alloc, &held, block) {
        Ok(()) => Status::Done.code(),
        Err(error) => status::of_rows(&error).code(),
    }
}

/// Writes 1 if the rows belong to one codeword, and else 0.
#[unsafe(no_mangle)]
pub extern "C" fn cwm_systematic_verify(
    alloc: Global,
    indices: &[u32],
    rows: &[u8],
    size: usize,
    min: u32,
    total: u32,
    mask: u32,
    belong: &mut u32,
) -> u32
    ensures verified { result ≡ done → HoldsOfGiven size min total mask indices.now rows.now
        (λ code given. IsVerified code given belong.new) }
    ensures kept { result ≢ done → belong.new ≡ belong.old }
    ensures sizes { TestsSizes (IsSplit min total)
        (HaveRowsFor size min total (length indices.now) (length rows.now)) result }
    ensures refused { IsStatusDue size min total mask indices.now rows.now
        (λ code. IsDueTo code []) result }
    ensures statuses { result ≤ wrong_index }
{
    if !is_split(min, total) {
        return Status::Mismatch.code();
    }
    let Some(held) = systematic::rows_in_hand(size, min, total, mask, indices, rows) else {
        return Status::WrongSize.code();
    };
    match systematic::belong(alloc, &held) {
        Ok(answer) => {
            *belong = answer;
            Status::Done.code()
        }
        Err(error) => status::of_rows(&error).code(),
    }
}

/// Writes the rows of the wanted indices, row after row, though some rows in hand are wrong, and the
/// positions of these over the first places of `left_out`.
#[unsafe(no_mangle)]
pub extern "C" fn cwm_systematic_rebuild_corrected(
    alloc: Global,
    indices: &[u32],
    rows: &[u8],
    size: usize,
    min: u32,
    total: u32,
    mask: u32,
    wanted: &[u32],
    out: &mut [u8],
    left_out: &mut [usize],
    many: &mut usize,
) -> u32
    ensures corrected { result ≡ done → HoldsOfGiven size min total mask indices.now rows.now
        (λ code given. (positions : List ℕ)
        × AreCorrected code given wanted.now positions out.new
        × (many.new ≡ length positions) × StandInFront positions left_out.old left_out.new) }
    ensures kept { result ≢ done → (out.new ≡ out.old) × (left_out.new ≡ left_out.old)
        × (many.new ≡ many.old) }
    ensures sizes { TestsSizes (IsSplit min total)
        (HaveRowsFor size min total (length indices.now) (length rows.now)
        × HaveRowsFor size min total (length wanted.now) (length out.old)
        × (length indices.now ≤ length left_out.old)) result }
    ensures refused { IsStatusDue size min total mask indices.now rows.now
        (λ code. IsCorrectingDueTo code wanted.now) result }
    ensures statuses { (result ≤ inconsistent) × (result ≢ out_of_range) × (result ≢ conflict) }
{
    if !is_split(min, total) {
        return Status::Mismatch.code();
    }
    let Some(held) = systematic::rows_in_hand(size, min, total, mask, indices, rows) else {
        return Status::WrongSize.code();
    };
    if !systematic::have_rows(size, min, total, wanted.len(), out.len()) {
        return Status::WrongSize.code();
    }
    if left_out.len() < indices.len() {
        return Status::WrongSize.code();
    }
    match systematic::write_corrected_rows(alloc, &held, wanted, out, left_out) {
        Ok(positions) => {
            *many = positions;
            Status::Done.code()
        }
        Err(error) => status::of_rows(&error).code(),
    }
}
