//! The blocks of a file, from what shard files have of them.
#![tactic(auto)]

pub mod blocks;
mod cells;
mod joining;
mod rooted;
mod rows;
mod used_rows;
pub mod wasted;
