//! The main theorems, by subject.

pub mod decoding;
pub mod domains;
pub mod interpolation;
pub mod recovery;
pub mod residues;
pub mod roots;
pub mod transforms;
pub mod values;
pub mod vanishing;
