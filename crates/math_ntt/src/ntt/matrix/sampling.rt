//! Matrices with random cells.

ghost use Rattle.std.specs.Prelude.{◌≡◌, ◌*◌, ◌<◌, ◌^◌, IfOk, IfErr, Some, None};
ghost use Rattle.math_base.specs.Samples.{samples};
ghost use Rattle.math_base.specs.declared.algebra.RandomError.TheVariants.{TooManyWords};
ghost use Rattle.math_transforms.specs.Matrices.{IsOfSize};

use super::Matrix;
use math_base::algebra::{Random, RandomError};
use rand_core::{CryptoRng, Rng};
use std::alloc::Global;

impl<F: Random + Drop> Matrix<F> {
    /// Samples a matrix: its cells are the next samples of the source, row by row. The number of
    /// cells is below 2^64.
    ///
    /// It refuses with `TooManyWords` where one of these samples is refused, or with `Memory`.
    ///
    /// ```
    /// Matrix::<F>::rand(alloc, rng, 2, 2)?.into_cells(); // [1, 2, 3, 4]
    /// ```
    pub fn rand<G: Rng + CryptoRng>(
        alloc: Global,
        rng: &mut G,
        rows: usize,
        cols: usize,
    ) -> Result<Self, RandomError>
        requires fits { rows * cols < 2 ^ 64 }
        ensures size { IfOk result (λ m. IsOfSize m rows cols) }
        ensures sampled { IfOk result (λ m.
            samples F.sample (rows * cols) (G.stream rng.old) ≡ (Some m.cells, G.stream rng.new)) }
        ensures refused { IfErr result (λ error. error ≡ TooManyWords
            → samples F.sample (rows * cols) (G.stream rng.old) ≡ (None, G.stream rng.new)) }
    {
        let mut cells = Vec::new(alloc);
        for _sampled in 0..rows * cols {
            let cell = F::random(alloc, rng)?;
            cells.push(cell)?;
        }
        Ok(Matrix { rows, cols, cells })
    }
}
