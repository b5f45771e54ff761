//! `rows FILE..`: runs the calls that the rows of these files name, and compares their answers.
//! `rows --refused FILE..`: runs each of them again and again, with each of its allocations refused in turn.
//!
//! `docs/ROWS.md` says how a row is written. Each row whose answer differs, or that can't be run, is
//! printed, and then how many answers there were.
//!
//! The crate `rows_runs` does all of it.
#![tactic(auto)]

use std::io;
use std::process::ExitCode;

fn main(rt: HostRuntime) -> io::Result<ExitCode> {
    rows_runs::run(&rt)
}
