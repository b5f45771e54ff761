//! Which rows of a block give it, where they fit their fingerprints.

ghost use Rattle.std.specs.Prelude.{◌≡◌, length, IfOk, IfSome};

use crate::blocks::FoundBlock;
use hash_trees::Digest;
use shard_roots::Shard;
use std::alloc::{AllocError, Global};
use systematic_shards::{Code, Row, Split as RowSplit, decode, rebuild_corrected};

/// A row of a block that was found.
#[derive(Drop)]
pub struct FoundRow {
    pub index: u32,
    pub mask: u32,
    /// The bytes of the row.
    pub cells: Vec<u8>,
    pub path: Vec<Digest>,
    /// At which of the files it is.
    pub place: usize,
}

impl FoundRow {
    /// A copy of the row that is at this place.
    pub fn new(alloc: Global, row: &Shard<'_>, place: usize) -> Result<FoundRow, AllocError> {
        let mut cells = Vec::new(alloc);
        cells.extend_from_slice(row.cells)?;
        let mut path = Vec::new(alloc);
        path.extend_from_slice(row.path)?;
        Ok(FoundRow {
            index: row.index,
            mask: row.mask,
            cells,
            path,
            place,
        })
    }

    /// It, as a shard with its path.
    pub fn shard(&self) -> Shard<'_> {
        Shard {
            index: self.index,
            mask: self.mask,
            cells: self.cells.as_slice(),
            path: self.path.as_slice(),
        }
    }

    /// It, as a row.
    fn row(&self) -> Row<'_, u8> {
        Row {
            index: self.index,
            cells: self.cells.as_slice(),
        }
    }
}

/// Whether masks that were seen are all one.
#[derive(Clone, Copy)]
pub struct Masks {
    first: Option<u32>,
    pub are_one: bool,
}

impl Masks {
    /// None was seen.
    pub fn new() -> Masks {
        Masks {
            first: None,
            are_one: true,
        }
    }

    /// This one was seen too.
    pub fn add(&mut self, mask: u32) {
        match self.first {
            Some(first) => self.are_one = self.are_one && first == mask,
            None => self.first = Some(mask),
        }
    }
}

/// The mask of all the rows, where they have one.
pub fn one_mask(found: &[FoundRow]) -> Option<u32> {
    let mut masks = Masks::new();
    for row in found {
        masks.add(row.mask);
    }
    if masks.are_one { masks.first } else { None }
}

/// The mask that more than half of the rows have, where there is one; else any.
///
/// This is the vote of Boyer and Moore: a row with the mask in hand adds a vote for it, and another
/// takes one away, so that only a mask of more than half can keep votes to the end.
fn most_common_mask(found: &[FoundRow]) -> u32 {
    let mut mask = 0;
    let mut votes = 0usize;
    for row in found {
        if votes == 0 {
            mask = row.mask;
        }
        if row.mask == mask {
            votes = votes.saturating_add(1);
        } else {
            votes = votes.saturating_sub(1);
        }
    }
    mask
}

/// The bytes of a block that rows with this mask give, which all belong together; none where they
/// give no block.
fn block_decoded(
    alloc: Global,
    split: RowSplit,
    mask: u32,
    found: &[FoundRow],
) -> Result<Option<Vec<u8>>, AllocError>
    ensures { IfOk result (λ answer. IfSome answer (λ bytes. length bytes.items ≡ split.size)) }
{
    let mut rows = Vec::new(alloc);
    for row in found {
        rows.push(row.row())?;
    }
    let mut bytes = vec![in alloc; 0u8; split.size]?;
    match decode(alloc, Code { split, mask }, &rows, &mut bytes) {
        Ok(()) => Ok(Some(bytes)),
        Err(systematic_shards::Error::Memory(error)) => Err(error),
        Err(_) => Ok(None),
    }
}

/// The block that rows with one mask give, where there are as many as give one.
pub fn block_given(
    alloc: Global,
    split: RowSplit,
    found: &[FoundRow],
) -> Result<Option<FoundBlock>, AllocError>
    ensures { IfOk result (λ answer. IfSome answer (λ b. length b.bytes.items ≡ split.size)) }
{
    let Some(mask) = one_mask(found) else {
        return Ok(None);
    };
    if found.len() < split.min as usize {
        return Ok(None);
    }
    match block_decoded(alloc, split, mask, found)? {
        Some(bytes) => Ok(Some(FoundBlock::new(bytes, mask))),
        None => Ok(None),
    }
}

/// A block that all rows but a few give.
#[derive(Drop)]
pub struct CorrectedBlock {
    pub block: FoundBlock,
    /// The positions of those few.
    pub left_out: Vec<usize>,
}

/// The block that all rows but a few give: of n rows at most (n - MIN) / 2, which have another mask
/// or do not belong to the others. There is one at most: two could not share a row that is right
/// for both.
pub fn block_corrected(
    alloc: Global,
    split: RowSplit,
    found: &[FoundRow],
) -> Result<Option<CorrectedBlock>, AllocError>
    ensures { IfOk result (λ answer. IfSome answer
        (λ c. length c.block.bytes.items ≡ split.size)) }
{
    if let Some(block) = block_given(alloc, split, found)? {
        return Ok(Some(CorrectedBlock {
            block,
            left_out: Vec::new(alloc),
        }));
    }
    let allowed = found.len().saturating_sub(split.min as usize) / 2;
    match block_of_most(alloc, split, most_common_mask(found), found)? {
        Some(corrected) if corrected.left_out.len() <= allowed => Ok(Some(corrected)),
        _ => Ok(None),
    }
}

/// The block that most of the rows with this mask give. Rows with another one are left out.
fn block_of_most(
    alloc: Global,
    split: RowSplit,
    mask: u32,
    found: &[FoundRow],
) -> Result<Option<CorrectedBlock>, AllocError>
    ensures { IfOk result (λ answer. IfSome answer
        (λ c. length c.block.bytes.items ≡ split.size)) }
{
    let mut rows = Vec::new(alloc);
    let mut places = Vec::new(alloc);
    let mut left_out = Vec::new(alloc);
    for (place, row) in found.iter().enumerate() {
        if row.mask == mask {
            rows.push(row.row())?;
            places.push(place)?;
        } else {
            left_out.push(place)?;
        }
    }
    let Some((bytes, wrong)) = corrected_rows(alloc, Code { split, mask }, &rows)? else {
        return Ok(None);
    };
    for position in &wrong {
        if let Some(place) = places.get(*position) {
            left_out.push(*place)?;
        }
    }
    Ok(Some(CorrectedBlock {
        block: FoundBlock::new(bytes, mask),
        left_out,
    }))
}

/// So many indices, from 0 on.
fn first_indices(alloc: Global, count: u32) -> Result<Vec<u32>, AllocError>
    ensures { IfOk result (λ indices. length indices.items ≡ count) }
{
    let mut indices = Vec::new(alloc);
    for index in 0..count {
        indices.push(index)?;
    }
    Ok(indices)
}

/// The bytes of a block that most of these rows give, and the positions of the others; none where
/// the bytes past its end are not zero too.
fn corrected_rows(
    alloc: Global,
    code: Code,
    rows: &[Row<'_, u8>],
) -> Result<Option<(Vec<u8>, Vec<usize>)>, AllocError>
    ensures { IfOk result (λ answer. IfSome answer
        (λ given. length given.0.items ≡ code.split.size)) }
{
    let wanted = first_indices(alloc, code.split.min)?;
    let size = code.split.min as usize * (8 * code.split.width);
    let mut bytes = vec![in alloc; 0u8; size]?;
    let wrong = match rebuild_corrected(alloc, code, rows, &wanted, &mut bytes) {
        Ok(Some(wrong)) => wrong,
        Err(systematic_shards::Error::Memory(error)) => return Err(error),
        _ => return Ok(None),
    };
    for byte in bytes.iter().skip(code.split.size) {
        if *byte != 0 {
            return Ok(None);
        }
    }
    bytes.truncate(code.split.size);
    Ok(Some((bytes, wrong)))
}
