//! Files that have their final names only once all of them is written.
//!
//! A file is written in the folder of its final name, under a name that no other run has: that of a
//! partial file. It takes no place of another file, unless regular files may be replaced, and gives
//! no right beyond those that it may give in the end. Where it is refused, the partial file is
//! removed. A run holds a lock on its first partial file as long as it has one.
//!
//! It knows no shard, and stands on no crate of the library. So its faults are few, and a function
//! that may be refused is cheaper to prove the fewer these are.
#![tactic(auto)]

pub mod fault;
pub mod finishing;
pub mod identity;
pub mod names;
pub mod partial;
pub mod restored;
pub mod rights;
pub mod scratch;
