//! Laws of the Goldilocks field, each the contract of a function that does nothing, or only answers
//! what the law is about.

pub mod elements;
pub mod packing;
