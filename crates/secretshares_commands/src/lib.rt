//! The commands of `secretshares`: a secret in shares, any T of which give it back.
//!
//! `secretshares deal T N` reads the secret's bytes from standard input and prints N lines, a share
//! each; `secretshares combine` reads such lines from standard input and prints exactly the bytes.
//! No secret and no share is taken from the words.
//!
//! `combine` leaves wrong shares out, names them on standard error, and ends with status 0: what
//! comes out fits its check under the key. Of just T shares one that is wrong is refused by that
//! check.
#![tactic(auto)]

mod calls;
mod fault;

use calls::{Told, combine_lines, counts, dealt};
use fault::{Fault, WrongWord};
use rand::make_rng;
use rand::rngs::StdRng;
use secret_bytes::MOST_BYTES;
use std::io::{ErrorKind, IsTerminal, Read, Write};
use std::process::ExitCode;
use std::{env, io};

/// The version of the repository.
const VERSION: &str = "secretshares 1.0.0";

/// What `--help` prints.
const HELP: &str = "\
secretshares: a secret in N shares, any T of which give it back

  secretshares deal T N < SECRET
      reads the secret, of at most 65536 bytes, and prints N lines, a share each
  secretshares combine < LINES
      reads T or more of these lines, in any order, and prints the secret

For example, any 3 of the 5 lines of the file shares give the secret back:

  secretshares deal 3 5 < secret > shares
  head -n 3 shares | secretshares combine > restored

T is at least 1, and N at most 255. Fewer than T shares say nothing of the secret
but its length. Of M different shares, at most (M - T) / 2 may have been changed,
and are named.

Status: 0 done, 1 refused, 2 usage error.
";

/// What is said where the secret is read from a terminal.
const SECRET_AT_TERMINAL: &str = "\
reading the secret from the terminal, to its end (Ctrl-D): what is typed is shown, unless
`stty -echo` came before this command (and then `stty echo`), or the secret comes by a pipe
";

/// What is said where shares are read from a terminal.
const LINES_AT_TERMINAL: &str = "\
reading shares from the terminal, to its end (Ctrl-D): what is typed is shown, unless
`stty -echo` came before this command (and then `stty echo`), or the shares come by a pipe
";

/// A terminal hands over at most so many bytes of a line, and drops the others without a word.
const MOST_TYPED: usize = 4095;

/// Whether some line has so many bytes that a terminal may have dropped more.
fn has_full_line(bytes: &[u8]) -> bool {
    let mut length = 0usize;
    for byte in bytes {
        length = if *byte == b'\n' {
            0
        } else {
            length.saturating_add(1)
        };
        if length >= MOST_TYPED {
            return true;
        }
    }
    false
}

/// Standard input to its end, or its first bytes where it is longer than that many. Where it is a
/// terminal, this is said first, and lines that it may have cut off are refused.
fn input(rt: &HostRuntime, most: u64, at_terminal: &str) -> Result<Vec<u8>, Fault> {
    let stdin = rt.reader();
    let is_terminal = stdin.is_terminal();
    if is_terminal {
        let _told = eprint!(rt; "{at_terminal}");
    }
    let mut bytes = Vec::new(rt.alloc());
    stdin.take(most).read_to_end(&mut bytes)?;
    if is_terminal && has_full_line(&bytes) {
        return Err(Fault::FullLine);
    }
    Ok(bytes)
}

/// Writes the bytes to standard output.
fn print(rt: &HostRuntime, bytes: &[u8]) -> Result<(), Fault> {
    let mut out = io::writer(rt);
    out.write_all(bytes)?;
    out.flush()?;
    Ok(())
}

/// Says what is to be said on standard error, as far as that can be, and then writes the answer.
fn print_told(rt: &HostRuntime, told: &Told) -> Result<(), Fault> {
    let _told = eprint!(rt; "{}", told.err);
    print(rt, &told.out)
}

/// `T N`: the lines of the shares of what is read. They are dealt from a source that the system
/// seeds.
fn deal(rt: &HostRuntime, words: &[String]) -> Result<(), Fault> {
    let (t, n) = counts(words)?;
    let mut rng: StdRng = make_rng(rt)?;
    let secret = input(rt, MOST_BYTES as u64 + 1, SECRET_AT_TERMINAL)?;
    let told = dealt(rt.alloc(), &secret, t, n, &mut rng)?;
    print_told(rt, &told)
}

/// The secret of the shares that are read.
fn combine(rt: &HostRuntime, words: &[String]) -> Result<(), Fault> {
    if !words.is_empty() {
        return Err(Fault::Usage(WrongWord::NoMore("combine")));
    }
    let text = input(rt, u64::MAX, LINES_AT_TERMINAL)?;
    let told = combine_lines(rt.alloc(), &text)?;
    print_told(rt, &told)
}

/// The words after the program's name.
fn words_given(rt: &HostRuntime) -> Result<Vec<String>, Fault> {
    match env::args(rt) {
        Ok(words) => Ok(words.skip(1).collect(rt.alloc())?),
        Err(error) if error.kind() == ErrorKind::InvalidData => {
            Err(Fault::Usage(WrongWord::NoText))
        }
        Err(error) => Err(Fault::Io(error)),
    }
}

/// Prints the version, and the level of processor that the program is built for.
fn print_version(rt: &HostRuntime, level: &str) -> Result<(), Fault> {
    println!(rt; "{VERSION} ({level})")?;
    Ok(())
}

/// Does what the words ask for.
fn run_words(rt: &HostRuntime, level: &str) -> Result<(), Fault> {
    let words = words_given(rt)?;
    let Some((command, rest)) = words.split_first() else {
        return Err(Fault::Usage(WrongWord::NoCommand));
    };
    let asks_for_help = matches!(rest, [word] if word.as_str() == "--help");
    match command.as_str() {
        "--help" if rest.is_empty() => print(rt, HELP.as_bytes()),
        "--version" if rest.is_empty() => print_version(rt, level),
        "deal" | "combine" if asks_for_help => print(rt, HELP.as_bytes()),
        "deal" => deal(rt, rest),
        "combine" => combine(rt, rest),
        "--help" => Err(Fault::Usage(WrongWord::NoMore("--help"))),
        "--version" => Err(Fault::Usage(WrongWord::NoMore("--version"))),
        _ => Err(Fault::Usage(WrongWord::Command)),
    }
}

/// Does what the words after the program's name ask for, and gives what the program ends with.
///
/// `level` is the level of processor that the program is built for, which `--version` prints.
pub fn run(rt: &HostRuntime, level: &str) -> ExitCode {
    match run_words(rt, level) {
        Ok(()) => ExitCode::SUCCESS,
        Err(fault) => {
            let _told = eprintln!(rt; "{fault}");
            ExitCode::from(fault.status())
        }
    }
}
