//! Bitmaps of points, matrices, and vectors of polynomials and of their values at a domain.

mod correction;
mod evaluations;
mod matrix;
mod polynomials;
mod recovery;

pub use correction::Corrected;
pub use evaluations::EvaluationVector;
pub use math_lagrange::weights::{lagrange_coefficients, lagrange_coefficients_at};
pub use math_transforms::columns::{EvaluationColumn, PolynomialColumn};
pub use math_transforms::vanishing_points::VanishingPoints;
pub use math_transforms::work::Work;
pub use matrix::{Matrix, Rows};
pub use polynomials::{CoefficientRows, PolynomialVector};
