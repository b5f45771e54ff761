//! Dealing of bytes.
//!
//! The coefficients are drawn by a loop of its own: `Poly::new_with_constant` is for any type, and
//! says of the source no more than `Random` does. A sample of `F` takes no memory, so the source
//! gave each sample that was drawn before memory ran out. The powers of each point are made once
//! for all elements, and each share gets its value as soon as a polynomial is drawn: no table of
//! all values is needed.

ghost use Rattle.std.specs.List.{AllZip};
ghost use Rattle.std.specs.Prelude.{◌≡◌, ◌-◌, ◌*◌, ◌<◌, ◌≤◌, [], length, map};
ghost use Rattle.std.specs.Prelude.{IfOk, IfErr, OnOk};
ghost use Rattle.math_fields.specs.declared.goldilocks.F.{F};
ghost use Rattle.math_fields.specs.Elements.{sample_of};
ghost use Rattle.shared_secret.specs.Shares.{IsSampled};
ghost use Rattle.secret_bytes.specs.Deals.{AreDealtBytes, IsDueSampling, sample_count};
ghost use Rattle.secret_bytes.specs.Rows.{AreDealtRows, AreRows, IsGrown};

use crate::error::DealError;
use crate::keyed::{draw, elements_under_key};
use crate::share::SecretShare;
use math_base::algebra::Mem;
use math_fields::goldilocks::F;
use math_values::values::PowerTable;
use rand_core::{CryptoRng, Rng};
use std::alloc::Global;

/// The greatest number of bytes of a secret.
pub const MOST_BYTES: usize = 65_536;

/// The greatest number of shares.
pub const MOST_SHARES: u32 = 255;

/// Deals shares of the bytes, with the indices 1 to n, of which any t give the bytes back.
///
/// The first two elements of the source are the deal and the key. Then come t - 1 for each element
/// that is dealt. t is at least 1, n at least t, and there are at most `MOST_BYTES` bytes.
///
/// It refuses with `TooManyWords` if the source does not give all of these, or with `Memory`; the
/// source then gave each element that was drawn.
///
/// ```
/// use secret_bytes::{combine, deal};
/// let mut shares = deal(alloc, b"key", 2, 3, rng)?;
/// shares.truncate(2);
/// combine(alloc, shares)?; // Combined { bytes: [107, 101, 121], wrong: [] }
/// ```
pub fn deal<G: Rng + CryptoRng>(
    alloc: Global,
    bytes: &[u8],
    t: u32,
    n: u32,
    rng: &mut G,
) -> Result<Vec<SecretShare>, DealError>
    requires few { length bytes.now ≤ 65536 }
    requires some { 0 < t }
    requires enough { t ≤ n }
    ensures dealt { IfOk result (λ shares.
        AreDealtBytes bytes.now t n (G.stream rng.old) (G.stream rng.new) shares.items) }
    ensures due { IfErr result (λ error. IsDueSampling (sample_count t (length bytes.now))
        (G.stream rng.old) (G.stream rng.new) error) }
{
    let deal = draw(alloc, rng)?;
    let key = draw(alloc, rng)?;
    let all = elements_under_key(alloc, bytes, key)?;
    let mut rows = rows_at(alloc, t, n, deal, all.len())?;
    deal_all(alloc, &all, t, &mut rows, rng)?;
    let shares = shares_of(alloc, rows)?;
    Ok(shares)
}

/// A share that is dealt, and the powers of its point.
#[derive(Drop)]
struct Row {
    table: PowerTable,
    share: SecretShare,
}

/// For each index from 1 to n the powers of its point, and a share without values yet, with room
/// for so many.
fn rows_at(alloc: Global, t: u32, n: u32, deal: F, width: usize) -> Mem<Vec<Row>>
    ensures { IfOk result (λ rows. AreRows t deal n [] rows.items) }
{
    let mut rows = Vec::with_capacity(alloc, n as usize)?;
    let mut point = F::from(0);
    for i in 0..n {
        point = point + F::from(1);
        rows.push(Row {
            table: PowerTable::new(alloc, point, t as usize)?,
            share: SecretShare {
                threshold: t,
                index: i + 1,
                deal,
                values: Vec::with_capacity(alloc, width)?,
            },
        })?;
    }
    Ok(rows)
}

/// Deals the elements in turn: a polynomial of t coefficients for each, of which every row takes
/// the value at its point.
fn deal_all<G: Rng + CryptoRng>(
    alloc: Global,
    elements: &[F],
    t: u32,
    rows: &mut [Row],
    rng: &mut G,
) -> Result<(), DealError>
    requires { 0 < t }
    ensures dealt { OnOk result
        (AreDealtRows t (G.stream rng.old) (G.stream rng.new) elements.now rows.old rows.new) }
    ensures due { IfErr result (λ error. IsDueSampling (length elements.now * (t - 1))
        (G.stream rng.old) (G.stream rng.new) error) }
{
    for element in elements {
        let p = sample_polynomial(alloc, *element, t, rng)?;
        push_values(rows, &p)?;
    }
    Ok(())
}

/// The polynomial of t coefficients whose constant is the element, and whose others are the next
/// elements of the source.
fn sample_polynomial<G: Rng + CryptoRng>(
    alloc: Global,
    element: F,
    t: u32,
    rng: &mut G,
) -> Result<Vec<F>, DealError>
    requires { 0 < t }
    ensures sampled { IfOk result (λ p.
        IsSampled sample_of element t (G.stream rng.old) (G.stream rng.new) p.items) }
    ensures due { IfErr result (λ error.
        IsDueSampling (t - 1) (G.stream rng.old) (G.stream rng.new) error) }
{
    let mut p = Vec::with_capacity(alloc, t as usize)?;
    p.push(element)?;
    for _drawn in 0..t - 1 {
        p.push(draw(alloc, rng)?)?;
    }
    Ok(p)
}

/// Appends to each row the value of the polynomial at its point.
fn push_values(rows: &mut [Row], p: &[F]) -> Mem<()>
    ensures { OnOk result (AllZip (IsGrown p.now) rows.old rows.new) }
{
    for row in rows.iter_mut() {
        row.share.values.push(row.table.value(p))?;
    }
    Ok(())
}

/// The shares of the rows.
fn shares_of(alloc: Global, rows: Vec<Row>) -> Mem<Vec<SecretShare>>
    ensures { IfOk result (λ shares. shares.items ≡ map (λ row. row.share) rows.items) }
{
    let mut shares = Vec::with_capacity(alloc, rows.len())?;
    for row in rows {
        shares.push(row.share)?;
    }
    Ok(shares)
}
