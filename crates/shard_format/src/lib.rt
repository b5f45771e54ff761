//! What the formats of shard files are by themselves, versions 2 and 3: the header, which split the
//! headers that are there belong to, and the places, sizes and fingerprints of records. No file is
//! touched here; the program `shardfile` keeps files and messages.
//!
//! So contracts can say what a format is, and edits can try it: contracts say nothing of functions
//! on files.
#![tactic(auto)]

pub mod formats;
pub mod header;
pub mod indices;
pub mod laws;
pub mod records;
pub mod rows;
pub mod splits;
