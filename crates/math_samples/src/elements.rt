//! Fields whose elements are made from numbers.

use crate::boxed::Boxed;
use crate::quotients::{MODULUS, Quotient};
use math_base::algebra::{FieldNTT, Mem};
use math_fields::goldilocks::F;
use std::alloc::Global;

/// A field with roots of unity, whose elements are made from numbers and shown as numbers.
pub trait Element: FieldNTT {
    /// The n-fold sum of one.
    fn from_number(alloc: Global, n: u64) -> Mem<Self>;

    /// Two numbers, of which the element is the first divided by the second.
    fn parts(&self) -> (u64, u64);
}

/// The number of an element is divided by one.
impl Element for F {
    fn from_number(_alloc: Global, n: u64) -> Mem<F> {
        Ok(F::from(n))
    }

    fn parts(&self) -> (u64, u64) {
        (self.number(), 1)
    }
}

impl Element for Boxed<F> {
    fn from_number(alloc: Global, n: u64) -> Mem<Boxed<F>> {
        Boxed::new(alloc, F::from(n))
    }

    fn parts(&self) -> (u64, u64) {
        self.value().parts()
    }
}

/// The parts of a quotient are its numerator and its denominator.
impl Element for Quotient {
    fn from_number(_alloc: Global, n: u64) -> Mem<Quotient> {
        Ok(Quotient::new(n % MODULUS, 1))
    }

    fn parts(&self) -> (u64, u64) {
        (self.numerator(), self.denominator())
    }
}
