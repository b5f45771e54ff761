//! Rows of calls and answers: words as numbers, elements and bytes, answers, and the calls of
//! `math_base` and `math_codec`. Each module of calls has one subject.
#![tactic(auto)]

pub mod algebra;
pub mod answer;
pub mod fault;
pub mod goldilocks;
pub mod maps;
pub mod refusals;
pub mod words;
