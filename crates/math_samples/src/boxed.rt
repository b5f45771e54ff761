//! The Goldilocks field, with each element in a box of its own.
//!
//! The elements, their equality and their operations are those of the field `F`. Each call that gives
//! or changes an element makes a new box for the result, so each can be refused, and the operations of
//! a run show as allocations.

ghost use Rattle.std.specs.Prelude.{◌≡◌, IfOk, false};
ghost use Rattle.math_fields.specs.Elements.{residue, same, sum, negative, product, inverse};
ghost use Rattle.math_fields.specs.Elements.{root_of, shift_of, half_of, sample_of};
ghost use Rattle.math_samples.specs.Hashes.{element_of};
ghost use Rattle.math_fields.specs.ElementLaws.{equality, group, commutes, ring};
ghost use Rattle.math_fields.specs.ElementRootLaws.{field, roots};

use crate::quotients::remainder_of_sum;
use math_base::algebra::{
    Additive, CryptoGroup, Field, FieldNTT, HashToGroup, Mem, Multiplicative, Object, Random,
    RandomError, Ring,
};
use math_fields::goldilocks::F;
use rand_core::{CryptoRng, Rng};
use std::alloc::Global;
use std::fmt;
use std::marker::Model;

/// An element in a box.
#[derive(Drop)]
pub struct Boxed<T: Drop> {
    element: Box<T>,
}

/// The text of the element.
impl<T: fmt::Debug + Drop> fmt::Debug for Boxed<T> {
    fn fmt<W: fmt::Write>(&self, f: &mut fmt::Formatter<W>) -> fmt::Result {
        write!(f, "{:?}", self.element)
    }
}

/// A boxed element is the element.
impl<T: Drop> Model for Boxed<T> {
    ghost Value = { T };

    ghost view = { λ b. b.element.value };
}

impl Boxed<F> {
    /// The element in a new box.
    pub fn new(alloc: Global, element: F) -> Mem<Boxed<F>>
        ensures ok { IfOk result (λ boxed. boxed ≡ element) }
    {
        Ok(Boxed {
            element: Box::new(alloc, element)?,
        })
    }

    /// The element.
    pub fn value(&self) -> F
        ensures { result ≡ self.now }
    {
        *self.element
    }
}

impl Object for Boxed<F> {
    ghost same = { same };

    ghost NEVER_REFUSES = { false };

    const NEVER_REFUSES: bool = false;

    fn clone(&self, alloc: Global) -> Mem<Boxed<F>> {
        Boxed::new(alloc, self.value())
    }

    fn equals(&self, _alloc: Global, other: &Boxed<F>) -> Mem<bool> {
        Ok(self.value() == other.value())
    }

    ghost equality = { equality };
}

impl Additive for Boxed<F> {
    ghost zero = { residue 0 };

    ghost sum = { sum };

    ghost negative = { negative };

    fn zero(alloc: Global) -> Mem<Boxed<F>> {
        Boxed::new(alloc, F::from(0))
    }

    fn add_assign(&mut self, alloc: Global, rhs: &Boxed<F>) -> Mem<()> {
        *self = Boxed::new(alloc, self.value() + rhs.value())?;
        Ok(())
    }

    fn sub_assign(&mut self, alloc: Global, rhs: &Boxed<F>) -> Mem<()> {
        *self = Boxed::new(alloc, self.value() - rhs.value())?;
        Ok(())
    }

    fn neg(self, alloc: Global) -> Mem<Boxed<F>> {
        Boxed::new(alloc, -self.value())
    }

    ghost group = { group };
}

impl Multiplicative for Boxed<F> {
    ghost product = { product };

    fn mul_assign(&mut self, alloc: Global, rhs: &Boxed<F>) -> Mem<()> {
        *self = Boxed::new(alloc, self.value() * rhs.value())?;
        Ok(())
    }

    ghost commutes = { commutes };
}

impl Ring for Boxed<F> {
    ghost one = { residue 1 };

    fn one(alloc: Global) -> Mem<Boxed<F>> {
        Boxed::new(alloc, F::from(1))
    }

    ghost ring = { ring };
}

impl Field for Boxed<F> {
    ghost inverse = { inverse };

    fn inv(&self, alloc: Global) -> Mem<Boxed<F>> {
        Boxed::new(alloc, Field::inv(&self.value(), alloc)?)
    }

    ghost field = { field };
}

/// The inverse of the shift and the halves are left to the trait.
impl FieldNTT for Boxed<F> {
    ghost MAX_LG_ROOT_ORDER = { 32 };

    ghost root = { root_of };

    ghost shift = { shift_of };

    ghost half = { half_of };

    const MAX_LG_ROOT_ORDER: u8 = 32;

    fn root_of_unity(alloc: Global, lg: u8) -> Mem<Option<Boxed<F>>> {
        match <F as FieldNTT>::root_of_unity(alloc, lg)? {
            Some(root) => Ok(Some(Boxed::new(alloc, root)?)),
            None => Ok(None),
        }
    }

    fn coset_shift(alloc: Global) -> Mem<Boxed<F>> {
        Boxed::new(alloc, F::coset_shift(alloc)?)
    }

    ghost roots = { roots };
}

/// The group of sums, whose scalars are the boxed elements themselves; five generates it.
impl CryptoGroup for Boxed<F> {
    type Scalar = Boxed<F>;

    ghost generator = { residue 5 };

    fn generator(alloc: Global) -> Mem<Boxed<F>> {
        Boxed::new(alloc, F::from(5))
    }
}

/// A separator and a message hash to the sum of the remainders by 97 of the sums of their bytes.
impl HashToGroup for Boxed<F> {
    ghost hash = { element_of };

    fn hash_to_group(alloc: Global, domain_separator: &[u8], message: &[u8]) -> Mem<Boxed<F>> {
        let total = remainder_of_sum(domain_separator) + remainder_of_sum(message);
        Boxed::new(alloc, F::from(total))
    }
}

/// A sample is one of `F`, in a box.
impl Random for Boxed<F> {
    ghost sample = { sample_of };

    fn random<G: Rng + CryptoRng>(alloc: Global, rng: &mut G) -> Result<Boxed<F>, RandomError> {
        let element = F::random(alloc, rng)?;
        let boxed = Boxed::new(alloc, element)?;
        Ok(boxed)
    }
}
