//! The main theorems, by subject.

pub mod bits;
pub mod numbers;
