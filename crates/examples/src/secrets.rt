//! Shares of a secret.

ghost use Rattle.std.specs.Prelude.{◌<◌, ◌≤◌, IfSome};

use commonware_math::algebra::{Field, Random};
use rand_core::{CryptoRng, Rng};
use shared_secret::{combine, deal};
use std::alloc::Global;

/// Deals the secret in n shares, and combines the first t of them.
///
/// What they give is the secret. It answers `None` where `deal` or `combine` refuses.
pub fn dealt_and_combined<F: Field + Random, G: Rng + CryptoRng>(
    alloc: Global,
    secret: F,
    t: u32,
    n: u32,
    rng: &mut G,
) -> Option<F>
    requires some { 0 < t }
    requires enough { t ≤ n }
    ensures { IfSome result (λ answer. F.same answer secret) }
{
    let Ok(mut shares) = deal(alloc, secret, t, n, rng) else {
        return None;
    };
    shares.truncate(t as usize);
    let Ok(answer) = combine(alloc, t, &shares) else {
        return None;
    };
    Some(answer)
}
