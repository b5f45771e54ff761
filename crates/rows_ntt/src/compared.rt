//! Values that are told apart by a call of their own.

use math_base::algebra::Mem;
use math_ntt::ntt::{EvaluationVector, Matrix, PolynomialVector, VanishingPoints};
use math_samples::elements::Element;
use rows_base::answer::put;
use rows_base::refusals::{begin, end};
use std::alloc::Global;
use std::fmt;

/// Values that can be compared.
pub trait Compared: fmt::Debug {
    /// Whether they are equal.
    fn is(&self, alloc: Global, other: &Self) -> Mem<bool>;
}

impl<R: Element> Compared for Matrix<R> {
    fn is(&self, alloc: Global, other: &Matrix<R>) -> Mem<bool> {
        self.equals(alloc, other)
    }
}

impl<R: Element> Compared for PolynomialVector<R> {
    fn is(&self, alloc: Global, other: &PolynomialVector<R>) -> Mem<bool> {
        self.equals(alloc, other)
    }
}

impl<R: Element> Compared for EvaluationVector<R> {
    fn is(&self, alloc: Global, other: &EvaluationVector<R>) -> Mem<bool> {
        self.equals(alloc, other)
    }
}

impl Compared for VanishingPoints {
    fn is(&self, _alloc: Global, other: &VanishingPoints) -> Mem<bool> {
        Ok(self == other)
    }
}

/// Whether two values are equal.
fn are_equal<T: Compared>(alloc: Global, a: &T, b: &T) -> Mem<bool> {
    let given = begin(alloc, &(a, b));
    let same = a.is(alloc, b);
    end(alloc, given, &(a, b), same.is_err());
    same
}

/// The place of the first item that equals this one.
fn first<T: Compared>(alloc: Global, items: &[T], item: &T) -> Mem<u64> {
    for i in 0..items.len() {
        if are_equal(alloc, &items[i], item)? {
            return Ok(i as u64);
        }
    }
    Ok(u64::MAX)
}

/// Adds for each item the place of the first item that it equals.
pub fn put_firsts<T: Compared>(alloc: Global, items: &[T], text: &mut String) -> Mem<()> {
    for item in items {
        put(text, first(alloc, items, item)?)?;
    }
    Ok(())
}
