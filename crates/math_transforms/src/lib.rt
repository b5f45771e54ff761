//! The number theoretic transform of rows of cells, and what it gives for one polynomial: its
//! values at a domain of roots of unity, the polynomial that vanishes at the missing points, and
//! Lagrange weights.
//!
//! `math_ntt` builds matrices and vectors of polynomials on this crate, and hands on what callers
//! of these need.
#![tactic(auto)]

pub mod cells;
pub mod columns;
pub mod points_below;
pub mod row_products;
pub mod transform;
pub mod trees;
pub mod vanishing;
pub mod vanishing_points;
pub mod work;
