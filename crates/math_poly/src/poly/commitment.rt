//! Commitments to polynomials.

ghost use Rattle.std.specs.Prelude.{◌≡◌, IfOk, length};
ghost use Rattle.std.specs.List.{AllZip};
ghost use Rattle.math_base.specs.Members.{value};
ghost use Rattle.math_base.specs.Polynomials.{value_in_ring};

use super::Poly;
use math_base::algebra::{CryptoGroup, Mem};
use std::alloc::Global;

impl<G: CryptoGroup> Poly<G> {
    /// Scales the generator by each coefficient, in order.
    ///
    /// The value of the commitment at a scalar is the generator scaled by the value of the
    /// polynomial there.
    pub fn commit(alloc: Global, p: Poly<G::Scalar>) -> Mem<Self>
        ensures count { IfOk result (λ q. length q ≡ length p) }
        ensures each { IfOk result
            (λ q. AllZip (λ scalar element. G.same element (G.scaling G.generator scalar)) p q) }
        ensures values { IfOk result (λ q. (x : G.Scalar)
            → G.same (value G.Space G.Scalar.Ring q x)
            (G.scaling G.generator (value_in_ring G.Scalar.Ring p x))) }
    {
        let generator = G::generator(alloc)?;
        let mut coefficients = Vec::with_capacity(alloc, p.coefficients.len())?;
        for scalar in &p.coefficients {
            let mut element = generator.clone(alloc)?;
            element.scale_assign(alloc, scalar)?;
            coefficients.push_reserved(element);
        }
        Ok(Poly { coefficients })
    }
}
