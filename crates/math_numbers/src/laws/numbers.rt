//! Numbers: remainders, orders and primes.
//!
//! Powers modulo n are computed by repeated squaring. The order t of x modulo n is the least
//! positive exponent at which the power of x is one; it divides each such exponent, and is below n,
//! since the powers below it are distinct and none is zero (pigeonhole). Proth's test rests on
//! this: modulo a divisor d of n, where the power of x to 2^s is minus one, x has the order 2^(s +
//! 1), so that d is above it.
//!
//! Modulo a prime p, an inverse of a is made from one of the remainder of p by a, which is smaller.
//! So multiplication by a permutes the numbers from 1 to p - 1, and as it leaves their product as
//! it is, the power p - 1 of a is one (Fermat).

ghost use Rattle.std.specs.Prelude.{◌≡◌, ◌≢◌, ◌<◌, ◌+◌, ◌-◌, ◌*◌, ◌%◌, ◌^◌, ℕ, suc};
ghost use Rattle.math_numbers.specs.Congruence.{inverse_mod};
ghost use Rattle.math_numbers.specs.Goldilocks.{P};
ghost use Rattle.math_numbers.specs.Pigeonhole.{DistinctBelow, MapsBelow};
ghost use Rattle.math_numbers.specs.PowersModulo.{power_mod, HasOrder};
ghost use Rattle.math_numbers.specs.Primes.{IsPrime};

/// `power_mod n x k` is the remainder of the power, x to the k, by n.
pub fn powers_are_remainders()
    ensures { (n x k : ℕ) → power_mod n x k ≡ x ^ k % n }
{}

/// The pigeonhole principle: a function whose values at the numbers below m lie below n takes one
/// of them twice, if n is below m.
pub fn pigeonhole_principle()
    ensures { (m n : ℕ) → (f : ℕ → ℕ) → n < m → MapsBelow f m n → DistinctBelow f m → ⊥ }
{}

/// Proth's test: an odd n, modulo which the power of some x to 2^s is minus one, is prime if it is
/// below the square of 2^(s + 1) + 1.
pub fn proth_test()
    ensures { (n x s : ℕ) → 2 < n → n % 2 ≡ 1 → power_mod n x (2 ^ s) ≡ n - 1
        → n < (2 ^ suc s + 1) * (2 ^ suc s + 1) → IsPrime n }
{}

/// Fermat's little theorem: modulo a prime p, the power p - 1 of a number that p does not divide is
/// one, so that its power p - 2 is its inverse.
pub fn fermat_theorem()
    ensures power { (p a : ℕ) → IsPrime p → a % p ≢ 0 → power_mod p a (p - 1) ≡ 1 }
    ensures inverse { (p a : ℕ) → IsPrime p → a % p ≢ 0 → a * inverse_mod p a % p ≡ 1 }
{}

/// P = 2^64 - 2^32 + 1 is prime, and 7 has the greatest order modulo P: its power P - 1 is one, and
/// no lower positive power is.
pub fn goldilocks_modulus()
    ensures value { P ≡ 2 ^ 64 - 2 ^ 32 + 1 }
    ensures prime { IsPrime P }
    ensures order { HasOrder P 7 (P - 1) }
{}
