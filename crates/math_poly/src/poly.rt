//! Polynomials, by the lists of their coefficients.

ghost use Rattle.std.specs.Prelude.{◌≡◌, ◌+◌, ◌<◌, ◌^◌, List, Some, length, slice_get};
ghost use Rattle.std.specs.List.{AllZip};
ghost use Rattle.math_codec.specs.Lists.{list_spelling, scan_list, AdmitsList, ListGrows};
ghost use Rattle.math_codec.specs.ListLaws.{list_again, list_apart};
ghost use Rattle.math_codec.specs.Ranges.{nonzero};

mod algebra;
mod commitment;
mod evaluation;
mod sampling;
mod writing;

use math_codec::codec::{Encoding, Error, LengthRange, Read, read_list};
use std::alloc::Global;
use std::fmt;
use std::marker::Model;
use std::num::NonZeroU32;

/// A polynomial, by its coefficients from the constant upwards.
///
/// It stores 1 to 2^32 - 1 coefficients. The last ones may be zero.
///
/// ```
/// let p = Poly::from_coefficients(vec![in alloc; F::from(4), F::from(6), F::from(8)]?);
/// p.eval(alloc, &F::from(5))?; // 234
/// ```
#[derive(Drop)]
pub struct Poly<K: Drop> {
    coefficients: Vec<K>,
}

/// A polynomial is the list of its stored coefficients.
impl<K: Drop> Model for Poly<K> {
    ghost Value = { List K };

    ghost view = { λ p. p.coefficients.items };

    ghost invariant = { λ p. (0 < length p.coefficients.items)
        × (length p.coefficients.items < 2 ^ 32) };
}

impl<K: Drop> Poly<K> {
    /// Makes a polynomial of its coefficients, from the constant upwards. There are 1 to 2^32 - 1.
    ///
    /// ```
    /// let p = Poly::from_coefficients(vec![in alloc; F::from(4), F::from(6), F::from(0)]?);
    /// p; // Poly(4 + 6 X^1 + 0 X^2)
    /// p.coefficients(); // [4, 6, 0]
    /// ```
    pub fn from_coefficients(coefficients: Vec<K>) -> Self
        requires some { 0 < length coefficients.items }
        requires few { length coefficients.items < 2 ^ 32 }
        ensures { result ≡ coefficients.items }
    {
        Poly { coefficients }
    }

    /// Returns the number of stored coefficients, less one.
    ///
    /// ```
    /// let p = Poly::from_coefficients(vec![in alloc; F::from(4), F::from(6), F::from(0)]?);
    /// p.degree(); // 2
    /// p.required(); // 3
    /// p.constant(); // 4
    /// ```
    pub fn degree(&self) -> u32
        ensures { result + 1 ≡ length self.now }
    {
        (self.coefficients.len() - 1) as u32
    }

    /// Returns the number of stored coefficients, which is the number of values that fix the
    /// polynomial.
    pub fn required(&self) -> NonZeroU32
        ensures { result.value ≡ length self.now }
    {
        let n = self.coefficients.len() as u32;
        match NonZeroU32::new(n) {
            Some(n) => n,
            None => unreachable!(),
        }
    }

    /// Returns the constant coefficient, which is the value at zero.
    pub fn constant(&self) -> &K
        ensures { slice_get self.now 0 ≡ Some result.now }
    {
        &self.coefficients[0]
    }

    /// Returns the stored coefficients, from the constant upwards.
    pub fn coefficients(&self) -> &[K]
        ensures { result.now ≡ self.now }
    {
        self.coefficients.as_slice()
    }
}

/// `Poly(a + b X^1 + c X^2)`.
impl<K: fmt::Debug + Drop> fmt::Debug for Poly<K> {
    fn fmt<W: fmt::Write>(&self, f: &mut fmt::Formatter<W>) -> fmt::Result {
        write!(f, "Poly(")?;
        for (i, coefficient) in self.coefficients.iter().enumerate() {
            if i > 0 {
                write!(f, " + {coefficient:?} X^{i}")?;
            } else {
                write!(f, "{coefficient:?}")?;
            }
        }
        write!(f, ")")
    }
}

/// The list of the stored coefficients.
impl<K: Encoding + Drop> Encoding for Poly<K> {
    ghost spelling = { λ p. list_spelling K.spelling p };

    ghost alike = { λ p q. AllZip K.alike p q };
}

impl<K: Read + Drop> Read for Poly<K> {
    /// The range of the number of stored coefficients, and the configuration of each.
    type Cfg = (LengthRange, K::Cfg);

    ghost admits = { λ cfg p. AdmitsList (nonzero cfg.0) (K.admits cfg.1) p };

    ghost scan = { λ cfg. scan_list (nonzero cfg.0) (K.scan cfg.1) };

    ghost grows = { λ cfg. ListGrows (nonzero cfg.0) (K.scan cfg.1) (K.grows cfg.1) };

    /// Reads the list of the coefficients. It refuses an empty list with `InvalidLength(0)`, even
    /// if the range admits it.
    fn read_cfg(
        alloc: Global,
        input: &mut &[u8],
        cfg: &(LengthRange, K::Cfg),
    ) -> Result<Poly<K>, Error> {
        let coefficients = read_list(alloc, input, cfg.0.nonzero(), &cfg.1)?;
        Ok(Poly { coefficients })
    }

    ghost again = { λ cfg p rest h.
        list_again K.spelling (K.admits cfg.1) (K.scan cfg.1) (K.again cfg.1)
        (nonzero cfg.0) p rest h };

    ghost apart = { λ cfg p q x y h k e.
        list_apart K.spelling (K.admits cfg.1) K.alike (K.apart cfg.1) (nonzero cfg.0)
        p q x y h k e };
}
