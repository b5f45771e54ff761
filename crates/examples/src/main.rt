//! Examples: each function makes calls of the library, and its contract is proved from theirs. The
//! program prints what they give.
#![tactic(auto)]

mod decoding;
mod recovery;
mod secrets;
mod shards;
mod weights;

use commonware_math::fields::goldilocks::F;
use commonware_math::ntt::{Matrix, PolynomialVector, VanishingPoints};
use decoding::line_through;
use math_decoding::points::are_distinct;
use math_samples::quotients::Quotient;
use math_samples::sources::Listed;
use recovery::keep_and_recover;
use secrets::dealt_and_combined;
use shards::split_and_joined;
use std::io;
use weights::value_between;

/// 4 + 6 X + 8 X^2 has the values 18, 48 and 94 at 1, 2 and 3. At 5 it has 234.
fn show_weights(rt: &HostRuntime) -> io::Result<()> {
    let points = [F::from(1), F::from(2), F::from(3)];
    let values = [F::from(18), F::from(48), F::from(94)];
    if !are_distinct(rt.alloc(), &points)? {
        return Ok(());
    }
    let value = value_between(rt.alloc(), &points, &values, &F::from(5))?;
    println!(rt; "weights: {value:?}")
}

/// The polynomial 4 + 6 X has four values on its domain. Two rows give it back.
fn show_recovery(rt: &HostRuntime) -> io::Result<()> {
    let cells = vec![in rt.alloc(); F::from(4), F::from(6), F::from(0), F::from(0)]?;
    let polynomials = PolynomialVector::from_matrix(Matrix::from_cells(4, 1, cells));
    let mut kept = VanishingPoints::new(rt.alloc(), 2)?;
    kept.set_non_vanishing(1);
    kept.set_non_vanishing(2);
    let answer = keep_and_recover(rt.alloc(), polynomials, kept)?;
    println!(rt; "recovery: {:?}", answer.data().into_cells())
}

/// 4 + 6 X has the values 4, 10, 16, 22 and 28 at 0 to 4. One of them is wrong.
fn show_decoding(rt: &HostRuntime) -> io::Result<()> {
    let points = [F::from(0), F::from(1), F::from(2), F::from(3), F::from(4)];
    let values = [
        F::from(4),
        F::from(10),
        F::from(99),
        F::from(22),
        F::from(28),
    ];
    match line_through(rt.alloc(), &points, &values)? {
        Some(line) => println!(rt;
            "decoding: {:?}, wrong: {:?}",
            line.coefficients, line.wrong
        ),
        None => println!(rt; "decoding: no line"),
    }
}

/// Five shards of three words, of which any two give the words back. Three are lost.
fn show_shards(rt: &HostRuntime) -> io::Result<()> {
    match split_and_joined(rt.alloc(), &[4, 6, 8], 2, 5, 3) {
        Ok(words) => println!(rt; "shards: {words:?}"),
        Err(error) => println!(rt; "shards: {error}"),
    }
}

/// The secret 5 / 7, a quotient modulo 97, in five shares of which any three give it back.
fn show_secret(rt: &HostRuntime) -> io::Result<()> {
    let mut rng = Listed::new(&[1, 2, 3, 4]);
    match dealt_and_combined(rt.alloc(), Quotient::new(5, 7), 3, 5, &mut rng) {
        Some(secret) => println!(rt; "secret: {secret:?}"),
        None => println!(rt; "secret: refused"),
    }
}

fn main(rt: HostRuntime) -> io::Result<()> {
    show_weights(&rt)?;
    show_recovery(&rt)?;
    show_decoding(&rt)?;
    show_shards(&rt)?;
    show_secret(&rt)
}
