//! Words, lengths and lists as bytes, and maps in the order of their keys.
#![tactic(auto)]

pub mod codec;
pub mod laws;
pub mod ordered;
