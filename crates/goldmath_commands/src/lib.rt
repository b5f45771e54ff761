//! The commands of `goldmath`.
//!
//! `goldmath eval POINT`: the value at POINT of the polynomial over the Goldilocks field that is
//! encoded on standard input, in decimal.
//!
//! `goldmath recover LG ROW..`: the encoding of the only matrix of 2^LG rows whose columns are the
//! coefficients that fit the rows of the matrix on standard input, each in the place that a word
//! names.
//!
//! `goldmath --help` prints the usage and `goldmath --version` the version. They read no input.
#![tactic(auto)]

ghost use Rattle.std.specs.Prelude.{IfSome, map, string_bytes};
ghost use Rattle.goldmath_commands.specs.Commands.{AreWrongWords};

mod engine;
mod laws;
mod recovery;
mod text;

use engine::ToolError;
use std::io::{ErrorKind, Read, Write};
use std::process::ExitCode;
use std::{env, io};
use text::fault_line;

/// The version of the repository.
const VERSION: &str = "goldmath 1.0.0";

/// What `--help` prints.
const HELP: &str = "\
goldmath: values of encoded polynomials, and recovery of missing rows

  goldmath eval POINT
      reads an encoded polynomial over the Goldilocks field from standard input,
      and prints its value at POINT in decimal
  goldmath recover LG ROW..
      reads an encoded matrix whose rows are values at the points ROW of a domain
      of 2^LG points, and writes the encoded matrix of the coefficients that fit
  goldmath --help
  goldmath --version

Status: 0 done, 1 refused, 2 usage error.
";

/// What is asked of the program itself.
#[derive(Clone, Copy)]
enum Asked {
    /// How to use it.
    Help,
    /// Its version, and the level of processor that it is built for.
    Version,
}

/// What the words ask of the program itself. They are then no words of `engine::run`.
fn about(words: &[String]) -> Option<Asked>
    ensures { IfSome result (λ _. AreWrongWords (map string_bytes words.now)) }
{
    match words {
        [word] if word.as_str() == "--help" => Some(Asked::Help),
        [word] if word.as_str() == "--version" => Some(Asked::Version),
        _ => None,
    }
}

/// The words after the program's name.
fn words_given(rt: &HostRuntime) -> io::Result<Vec<String>> {
    let words: Vec<String> = env::args(rt)?.skip(1).collect(rt.alloc())?;
    Ok(words)
}

/// Standard input to its end.
fn input(rt: &HostRuntime) -> io::Result<Vec<u8>> {
    let mut bytes = Vec::new(rt.alloc());
    rt.reader().read_to_end(&mut bytes)?;
    Ok(bytes)
}

/// Writes the answer to standard output.
fn write_answer(rt: &HostRuntime, bytes: &[u8]) -> io::Result<()> {
    let mut out = io::writer(rt);
    out.write_all(bytes)?;
    out.flush()
}

/// Writes a line to standard error, as far as that can be, and gives the status.
fn fail(rt: &HostRuntime, line: &[u8], status: u8) -> ExitCode {
    let _written = rt.stderr().write_all(line);
    ExitCode::from(status)
}

/// The status: 1 where the answer could not be written, which is said.
fn status_of(rt: &HostRuntime, written: io::Result<()>) -> ExitCode {
    match written {
        Ok(()) => ExitCode::SUCCESS,
        Err(_) => fail(rt, b"refused: write failed\n", 1),
    }
}

/// Prints what is asked of the program itself, and gives the status.
fn print_about(rt: &HostRuntime, asked: Asked, level: &str) -> ExitCode {
    let written = match asked {
        Asked::Help => print!(rt; "{HELP}"),
        Asked::Version => println!(rt; "{VERSION} ({level})"),
    };
    status_of(rt, written)
}

/// Says why there is no answer, and gives the status: 2 for a usage error, 1 otherwise.
fn refuse(rt: &HostRuntime, fault: &ToolError) -> ExitCode {
    let status = match fault {
        ToolError::Usage => 2,
        ToolError::Refused(_) => 1,
    };
    match fault_line(rt.alloc(), fault) {
        Ok(line) => fail(rt, line.as_slice(), status),
        Err(_) => refuse_memory(rt),
    }
}

/// Says that memory ran out, in a line that takes none.
fn refuse_memory(rt: &HostRuntime) -> ExitCode {
    fail(rt, b"refused: out of memory\n", 1)
}

/// Says that the words or the input could not be read.
fn refuse_input(rt: &HostRuntime, error: &io::Error) -> ExitCode {
    match error.kind() {
        ErrorKind::OutOfMemory => refuse_memory(rt),
        _ => fail(rt, b"refused: read failed\n", 1),
    }
}

/// Does what the words after the program's name ask for, and gives what the program ends with.
///
/// `level` is the level of processor that the program is built for, which `--version` prints.
pub fn run(rt: &HostRuntime, level: &str) -> ExitCode {
    let words = match words_given(rt) {
        Ok(words) => words,
        Err(error) => return refuse_input(rt, &error),
    };
    if let Some(asked) = about(words.as_slice()) {
        return print_about(rt, asked, level);
    }
    let bytes = match input(rt) {
        Ok(bytes) => bytes,
        Err(error) => return refuse_input(rt, &error),
    };
    match engine::run(rt.alloc(), words.as_slice(), bytes.as_slice()) {
        Ok(answer) => status_of(rt, write_answer(rt, answer.as_slice())),
        Err(fault) => refuse(rt, &fault),
    }
}
