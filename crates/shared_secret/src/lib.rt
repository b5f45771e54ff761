//! Secrets in shares, any t of which give the secret back.
//!
//! The secret is the constant of a polynomial of t coefficients over a field, the others being
//! sampled from a source of random words. Share i is the value at the point of i, which is the
//! i-fold sum of one. Any t shares fix the polynomial, so its value at zero, the secret, is a
//! weighted sum of theirs. Fewer than t shares fit every secret equally.
#![tactic(auto)]

mod combining;
mod correcting;
mod dealing;
mod error;
pub mod laws;
mod shares;
mod verifying;
mod weighing;

pub use combining::combine;
pub use correcting::{Corrected, combine_corrected};
pub use dealing::{deal, deal_committed, shares_of};
pub use error::{CombineError, DealError};
pub use shares::{Share, point};
pub use verifying::verify;
pub use weighing::{Weights, secret_of, weigh, weigh_points};
