//! The work of counted calls.
//!
//! A counted call adds to what was there, so no call takes work away or sets it.

ghost use Rattle.std.specs.Prelude.{◌≡◌, ◌+◌, ◌-◌, ◌<◌, ◌≤◌, ◌^◌, min};

use std::marker::Model;

/// How much counted calls did: butterflies, and root products. A butterfly combines a pair of
/// cells. A root product is one coefficient times one root, when small vanishing polynomials are
/// built.
///
/// A counted call adds to it whatever its outcome.
#[derive(Debug, Drop)]
pub struct Work {
    butterflies: u128,
    root_products: u128,
}

/// Work is its two numbers.
impl Model for Work {
    ghost use Rattle.math_transforms.specs.CountedWork.{WorkOf};

    ghost Value = { WorkOf };

    ghost view = { λ w. record { butterflies = w.butterflies; root_products = w.root_products } };
}

impl Work {
    /// Makes the count of no work.
    ///
    /// ```
    /// let mut work = Work::new();
    /// work.saturating_add(Work::new());
    /// work.butterflies(); // 0
    /// work.root_products(); // 0
    /// ```
    pub fn new() -> Self
        ensures butterflies { result.butterflies ≡ 0 }
        ensures root_products { result.root_products ≡ 0 }
    {
        Work {
            butterflies: 0,
            root_products: 0,
        }
    }

    /// Returns how many pairs of cells were combined.
    pub fn butterflies(&self) -> u128
        ensures { result ≡ self.now.butterflies }
    {
        self.butterflies
    }

    /// Returns how many times a coefficient was multiplied by a root.
    pub fn root_products(&self) -> u128
        ensures { result ≡ self.now.root_products }
    {
        self.root_products
    }

    /// So many butterflies more.
    pub(super) fn add_butterflies(&mut self, count: usize)
        requires { self.old.butterflies + count < 2 ^ 128 }
        ensures butterflies { self.new.butterflies ≡ self.old.butterflies + count }
        ensures root_products { self.new.root_products ≡ self.old.root_products }
    {
        self.butterflies += count as u128;
    }

    /// One root product more.
    pub(super) fn add_root_product(&mut self)
        requires { self.old.root_products + 1 < 2 ^ 128 }
        ensures butterflies { self.new.butterflies ≡ self.old.butterflies }
        ensures root_products { self.new.root_products ≡ self.old.root_products + 1 }
    {
        self.root_products += 1;
    }

    /// Adds the work of the other. A count that comes to 2^128 or more becomes 2^128 - 1.
    pub fn saturating_add(&mut self, other: Work)
        ensures butterflies { self.new.butterflies
            ≡ min (self.old.butterflies + other.butterflies) (2 ^ 128 - 1) }
        ensures root_products { self.new.root_products
            ≡ min (self.old.root_products + other.root_products) (2 ^ 128 - 1) }
        ensures no_fewer { (self.old.butterflies ≤ self.new.butterflies)
            × (self.old.root_products ≤ self.new.root_products) }
    {
        self.butterflies = self.butterflies.saturating_add(other.butterflies);
        self.root_products = self.root_products.saturating_add(other.root_products);
    }
}
