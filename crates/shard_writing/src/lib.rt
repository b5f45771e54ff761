//! Shard files that are being written: their records, and the pairs and headers that come last.
#![tactic(auto)]

mod block_roots;
mod cell_writer;
mod pairs;
mod row_writer;
pub mod writer;
