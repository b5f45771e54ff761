//! How a block is cut into rows.

ghost use Rattle.std.specs.Prelude.{◌≡◌, ◌↔◌, ◌*◌, ◌<◌, ◌≤◌, ◌^◌, IsTrue, IfOk, IfErr};
ghost use Rattle.systematic_shards.specs.Errors.{IsSplitDue};
ghost use Rattle.systematic_shards.specs.Splits.{IsSplit, bytes_in_row, width_of};

use crate::Error;

/// 2^31: the data have fewer words.
const WORDS: usize = 0x8000_0000;

/// 2^60: all rows have fewer words.
const ALL_WORDS: usize = 0x1000_0000_0000_0000;

/// How a block is cut: how many bytes it has, how many rows they fill, and how many rows there are
/// with the parity rows.
#[derive(Clone, Copy)]
pub struct Split {
    /// How many rows the data fill: so many rows, whichever they are, give all others back.
    pub min: u32,
    /// How many rows there are.
    pub total: u32,
    /// How many bytes the block has.
    pub size: usize,
    /// How many words a row has.
    pub width: usize,
    ghost some: { 1 ≤ min },
    ghost within: { min ≤ total },
    ghost short: { total < 2 ^ 32 },
    ghost wide: { width ≡ width_of size min },
    ghost few: { min * width < 2 ^ 31 },
    ghost all: { total * width < 2 ^ 60 },
    ghost narrow: { width < 2 ^ 60 },
}

/// How the shards of a block were made: its split, and the mask of its data.
#[derive(Clone, Copy)]
pub struct Code {
    /// How the block was cut.
    pub split: Split,
    /// The mask, which `encode` found.
    pub mask: u32,
    ghost short: { mask < 2 ^ 32 },
}

/// Returns whether `min` of `total` rows can give a block back: whether 1 <= `min` <= `total`.
pub fn is_split(min: u32, total: u32) -> bool
    ensures { IsTrue result ↔ IsSplit min total }
{
    1 <= min && min <= total
}

/// Whether the product is below the bound.
fn is_product_below(a: u32, b: usize, bound: usize) -> bool
    ensures { IsTrue result ↔ (a * b < bound) }
{
    match (a as usize).checked_mul(b) {
        Some(product) => product < bound,
        None => false,
    }
}

impl Split {
    /// Cuts `size` bytes into `min` rows, of `total` rows in all.
    ///
    /// It refuses with `Mismatch` if not 1 <= `min` <= `total`, and then with `Sizes` if there are
    /// 2^31 words of data or more, or 2^60 words in all rows or more.
    ///
    /// ```
    /// use systematic_shards::Split;
    /// let split = Split::new(10, 16, 1000)?;
    /// split.width; // 13
    /// split.row_bytes(); // 104
    /// split.data_bytes(9); // 64
    /// ```
    pub fn new(min: u32, total: u32, size: usize) -> Result<Split, Error>
        ensures ok { IfOk result
            (λ split. (split.min ≡ min) × (split.total ≡ total) × (split.size ≡ size)) }
        ensures err { IfErr result (IsSplitDue min total size) }
    {
        if !is_split(min, total) {
            return Err(Error::Mismatch);
        }
        let width = size.div_ceil(8 * min as usize);
        if !is_product_below(min, width, WORDS) {
            return Err(Error::Sizes);
        }
        if !is_product_below(total, width, ALL_WORDS) {
            return Err(Error::Sizes);
        }
        Ok(Split {
            min,
            total,
            size,
            width,
        })
    }

    /// How many bytes a row has.
    pub fn row_bytes(&self) -> usize
        ensures { result ≡ 8 * self.now.width }
    {
        8 * self.width
    }

    /// How many bytes of the row of this index are data. Zeros fill the others of a data row.
    pub fn data_bytes(&self, index: u32) -> usize
        ensures { result ≡ bytes_in_row self.now.size self.now.width index }
    {
        let row = self.row_bytes();
        let left = self
            .size
            .saturating_sub((index as usize).saturating_mul(row));
        row.min(left)
    }
}
