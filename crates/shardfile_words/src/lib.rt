//! The words after `shardfile`: commands, options, and what the others mean; or which is wrong.
//!
//! Nothing is looked at but the words: no file is opened, and nothing is printed but how a command
//! is used.
#![tactic(auto)]

pub mod command;
pub mod fault;
pub mod files;
pub mod options;
pub mod values;
