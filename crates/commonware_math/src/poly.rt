//! Polynomials, and the interpolation of their values.

mod interpolation;

pub use interpolation::Interpolator;
pub use math_poly::poly::Poly;
pub use math_poly::weights::weights_at;
