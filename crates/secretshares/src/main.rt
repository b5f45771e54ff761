//! The program `secretshares`. The crate `secretshares_commands` says and does all of it.
#![tactic(auto)]

use std::process::ExitCode;

/// The level of processor that the program is built for. `.ci/build` names it here.
const LEVEL: &str = "x86-64-v2";

fn main(rt: HostRuntime) -> ExitCode {
    secretshares_commands::run(&rt, LEVEL)
}
