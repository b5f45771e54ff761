//! Blocks of bytes in shards, any `min` of which give the bytes back.
//!
//! A block is any list of bytes: a file is cut into blocks, and each block into shards by itself.
//! It is split as words of 64 bits. The first word is the number of bytes. Then come the bytes,
//! eight a word, the lowest byte first, with zeros after the last. So a block has one list of
//! words. Words are those of no block if they do not fit the number that they begin with, or go on
//! with anything but zeros.
//!
//! If there are more than `min` distinct indices, damage to one shard is found: the others fix the
//! block, and the damaged one is no shard of it. Damage to several may go unnoticed.
//! `join_block_corrected` gives the block back though (m - `min`) / 2 of m distinct indices are
//! damaged, and says which shards are not of it.
#![tactic(auto)]

mod blocks;
mod correcting;
pub mod laws;
mod words;

pub use blocks::{
    cells_for, join_block, join_block_rows, split_block, split_block_rows, split_block_rows_at,
};
pub use correcting::{JoinedBlock, join_block_corrected};
pub use math_shards::shards::{Error, Shard};
