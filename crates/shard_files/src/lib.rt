//! Shard files: their names, which are there and what split or root they are of, and what stands in
//! each of a block.
#![tactic(auto)]

pub mod committing;
pub mod fault;
pub mod gathering;
pub mod names;
pub mod roots;
pub mod row_records;
pub mod sources;
pub mod split;
pub mod tree;
pub mod wanted;
