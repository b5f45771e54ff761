//! Maps in the order of their keys.
//!
//! A map is a list of pairs whose keys strictly rise, and in a two-way map no value occurs twice
//! either. Two keys, or two values, are equal where `cmp` answers `Equal`. Building a map of n
//! pairs takes O(n log n) comparisons, and looking a pair up O(log n).
//!
//! Equality is `cmp` here, since std's `Ord` promises a total order, and not that equal keys are
//! one. Maps are built through the library's `BTreeMap` and `BTreeSet`, and no key or value is
//! cloned.

mod error;
mod map;
mod two_way;

pub use error::Error;
pub use map::Map;
pub use two_way::BiMap;
