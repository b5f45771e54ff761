//! Residues: the numbers up to their remainder by n, and the types whose elements are these
//! remainders, are rings.

ghost use Rattle.std.specs.Prelude.{◌<◌, ◌+◌, ◌*◌, ℕ};
ghost use Rattle.math_numbers.specs.Congruence.{congruent, negative_mod, inverse_mod};
ghost use Rattle.math_numbers.specs.Primes.{IsPrime};
ghost use Rattle.math_numbers.specs.Residues.{AreResidues, inverse, negative, product, same, sum};
ghost use Rattle.math_theory.specs.Laws.{IsEquality, IsField, IsGroup, IsProduct, IsRing};

/// The numbers up to congruence modulo n are a commutative ring, and a field where n is an odd
/// prime.
pub fn residues_are_ring()
    ensures equality { (n : ℕ) → IsEquality (congruent n) }
    ensures group { (n : ℕ) → 0 < n → IsGroup (congruent n) 0 (λ a b. a + b) (negative_mod n) }
    ensures commutes { (n : ℕ) → IsProduct (congruent n) (λ a b. a * b) }
    ensures ring { (n : ℕ) → IsRing (congruent n) (λ a b. a + b) (λ a b. a * b) 1 }
    ensures field { (n : ℕ) → IsPrime n → 2 < n
        → IsField (congruent n) 0 (λ a b. a * b) 1 (inverse_mod n) }
{}

/// A type whose elements are the remainders by n, read by `value` and made by `residue`, is a
/// commutative ring up to equality of what is read, and a field where n is an odd prime.
pub fn residue_types_are_rings<T>()
    ensures equality { (n : ℕ) → (value : T → ℕ) → (residue : ℕ → T) → AreResidues n value residue
        → IsEquality (same value) }
    ensures group { (n : ℕ) → (value : T → ℕ) → (residue : ℕ → T) → AreResidues n value residue
        → IsGroup (same value) (residue 0) (sum value residue) (negative n value residue) }
    ensures commutes { (n : ℕ) → (value : T → ℕ) → (residue : ℕ → T) → AreResidues n value residue
        → IsProduct (same value) (product value residue) }
    ensures ring { (n : ℕ) → (value : T → ℕ) → (residue : ℕ → T) → AreResidues n value residue
        → IsRing (same value) (sum value residue) (product value residue) (residue 1) }
    ensures field { (n : ℕ) → (value : T → ℕ) → (residue : ℕ → T) → AreResidues n value residue
        → IsPrime n → 2 < n
        → IsField (same value) (residue 0) (product value residue) (residue 1)
        (inverse n value residue) }
{}
