//! Rows of elements of some indices, the targets, from rows of others, by their points alone.
//!
//! Rows have an index each, and belong together: in each column they have the values of one
//! polynomial of no more coefficients than there are rows in hand, the row of index i at power i of
//! the root of unity of the least order that is `total` or more, a power of two. So they determine
//! the rows of all indices.
//!
//! `Interpolation` makes rows of the targets, for some columns at a time: by weights, or by
//! transforms, whichever takes less time. It takes all memory when it is made. The rows in hand
//! are given as `ElementRows`, which reads their elements from wherever they lie.
#![tactic(auto)]

mod by_transforms;
mod by_weights;
mod interpolation;
mod points;
mod rows;
mod weights;

pub use interpolation::Interpolation;
pub use points::{lg_above, points_of};
pub use rows::ElementRows;
pub use weights::weights_of_pairs;
