//! Polynomials, as the columns of rows of coefficients.

ghost use Rattle.std.specs.Prelude.{◌≡◌, ◌*◌, length};

use math_fields::goldilocks::F;
use math_splitting::shards::Strip;

/// Some columns of rows of coefficients.
#[derive(Clone, Copy)]
pub(super) struct Columns<'a> {
    /// The rows, one after the other.
    pub(super) elements: &'a [F],
    /// Which columns.
    pub(super) strip: Strip,
    ghost whole: { length elements.now ≡ strip.layout.min * strip.layout.width },
}
