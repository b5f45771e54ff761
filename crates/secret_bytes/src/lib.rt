//! A secret of bytes in shares, any t of which give the bytes back, and a share as a line of text.
//!
//! The bytes become elements. These, a key that is drawn for the deal, and a check of the elements
//! under this key are dealt one by one. A share has one value of each, and bytes that come out
//! changed do not fit the check.
//!
//! The line of a share can be printed, read aloud and typed. It is the mark `S1`, the bytes of the
//! share as letters in groups of four, and a check of eight bytes as such groups. A line is read
//! from exactly its spelling. One with a wrong character, or with two neighbours exchanged, is no
//! spelling of any share.
#![tactic(auto)]

mod check;
mod combining;
mod dealing;
mod elements;
mod error;
mod keyed;
pub mod laws;
mod letters;
mod line;
mod one_deal;
mod reading;
mod share;
mod text;

pub use check::{fits, key_check};
pub use combining::{Combined, combine};
pub use dealing::{MOST_BYTES, MOST_SHARES, deal};
pub use elements::{bytes_of, elements_of};
pub use error::{CombineError, DealError};
pub use line::{LineError, line_of, share_in};
pub use share::{MOST_VALUES, SecretShare};
pub use text::{LineFault, Lines, read_lines, text_of};
