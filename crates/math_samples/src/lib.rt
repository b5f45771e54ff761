//! Types that rows and tests alone use: quotients modulo a small prime, whose equality is not that of
//! their parts, and elements of the Goldilocks field that take memory with each operation.
#![tactic(auto)]

pub mod boxed;
pub mod elements;
pub mod laws;
pub mod quotients;
pub mod sources;
