//! Values of polynomials over the Goldilocks field at one point, from words or from elements, sums
//! of products of elements, also in several columns at once, and room for strips of columns.
#![tactic(auto)]

mod blocks;
pub mod columns;
pub mod points;
mod products;
pub mod strips;
pub mod sums;
pub mod values;
mod wide;
pub mod words;
