//! The calls of secrets in shares that rows name: secrets that are elements, and secrets of bytes.
#![tactic(auto)]

pub mod byte_shares;
pub mod commitments;
pub mod element_shares;
pub mod lines;
