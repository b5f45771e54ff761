//! Laws, each the contract of a function that does nothing.

pub mod places;
pub mod recovery;
pub mod transforms;
