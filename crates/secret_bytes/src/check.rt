//! A key and a check.
//!
//! The bound holds over every field whose characteristic does not divide n + 2, which it has as a
//! premise: otherwise a change of the key can leave the leading coefficient zero.

ghost use Rattle.std.specs.Prelude.{◌≡◌, ◌↔◌, IsTrue};
ghost use Rattle.math_fields.specs.Elements.{number, same};
ghost use Rattle.secret_bytes.specs.KeyChecks.{check_at};

use math_fields::goldilocks::F;

/// Returns the check of the elements s_1 to s_n under the key x: the sum of x^(n + 2) and of each
/// s_i times x^i, by Horner's rule.
///
/// Someone who changes shares without knowing the key adds to the elements, to the key and to the
/// check what does not depend on the key. If that changes an element, the check fits for at most
/// n + 1 of all keys: see `laws::changes_are_seen`.
///
/// ```
/// use secret_bytes::{fits, key_check};
/// key_check(&[F::from(3)], F::from(5)); // 140
/// fits(&[F::from(3)], F::from(5), F::from(140)); // true
/// ```
pub fn key_check(elements: &[F], key: F) -> F
    ensures { number result ≡ number (check_at elements.now key) }
{
    let mut value = key;
    let mut i = elements.len();
    while i > 0 {
        i -= 1;
        value = elements[i] + key * value;
    }
    key * value
}

/// Returns whether the check is that of the elements under the key.
pub fn fits(elements: &[F], key: F, check: F) -> bool
    ensures { IsTrue result ↔ same check (check_at elements.now key) }
{
    check == key_check(elements, key)
}
