//! Data cut into shards, and what each shard holds.
//!
//! The number of data words, and then the data words, are packed by 63 bits into elements of the
//! Goldilocks field. These fill `min` rows of a matrix, row by row, and zeros fill what is left
//! over. Column k is the polynomial of `min` coefficients whose coefficient r is the cell of row r.
//! Shard i, for i below `total`, holds the value of each column at power i of the root of unity of
//! order N, where N is the least power of two that is `total` or more. This is Reed and Solomon's
//! code.
//!
//! The shards hide nothing of the data.

mod destinations;
mod encoding;
mod few_points;
mod indices;
mod layouts;
mod sources;
mod splitting;
mod strips;

pub use destinations::{Room, write_word};
pub use few_points::copy_column;
pub use layouts::{Layout, Strip};
use math_fields::goldilocks::F;
pub use math_values::words::Word;
pub use sources::Source;
pub use splitting::{
    split, split_rows, split_source, split_source_at, split_source_rows, split_source_rows_at,
};
pub use strips::shard_width;

/// One of `total` shards of some data, any `min` of which give them back: the values of all columns
/// at power `index` of the root.
#[derive(Debug, Drop)]
pub struct Shard {
    /// Which of the shards it is, from 0 on.
    pub index: u32,
    /// How many shards give the data back.
    pub min: u32,
    /// How many shards there are.
    pub total: u32,
    /// One value for each column.
    pub cells: Vec<F>,
}
