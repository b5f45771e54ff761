//! What the program `rows` does: it runs the calls that the rows of files name, and compares their
//! answers, or runs each of them again and again, with each of its allocations refused in turn.
//!
//! Each row whose answer differs, or that can't be run, is printed, and then how many answers there
//! were.
#![tactic(auto)]

mod calls;
mod row;

use calls::Field;
use commonware_math::fields::goldilocks::F;
use math_samples::boxed::Boxed;
use math_samples::elements::Element;
use math_samples::quotients::Quotient;
use row::{Fields, Row};
use rows_base::answer::Answer;
use rows_base::fault::Fault;
use rows_base::refusals::{Breach, are_made, has_come, refuse, was_told};
use std::alloc::Global;
use std::process::ExitCode;
use std::{env, fs, io};

/// More refusals than are made of one row.
const MOST: u32 = 1000;

/// How many answers there were, how many of them are not those of their rows, and how many
/// allocations were refused.
#[derive(Clone, Copy)]
struct Tally {
    answers: u64,
    refusals: u64,
    failures: u64,
}

impl Tally {
    /// One answer more, which is right or not.
    fn add(&mut self, right: bool) {
        self.answers = self.answers.saturating_add(1);
        if !right {
            self.failures = self.failures.saturating_add(1);
        }
    }

    /// One refusal more.
    fn add_refusal(&mut self) {
        self.refusals = self.refusals.saturating_add(1);
    }
}

/// A row, the line that it is, and how it is run.
#[derive(Clone, Copy)]
struct Line<'a> {
    text: &'a str,
    row: Row<'a>,
    /// The calls are run again and again, with one of their allocations refused.
    refused: bool,
    /// Which of the allocations are refused: the first, and every `step`-th after it.
    step: u32,
}

/// Whether a call gave the answer of its row, where `known` says whether there is such a call, or
/// why there is no answer. A refusal of the call is an answer.
fn is_right<R: Element>(
    alloc: Global,
    row: Row<'_>,
    known: Result<bool, Fault>,
    answer: &mut Answer<R>,
) -> Result<bool, Fault> {
    match known {
        Ok(true) => answer.is(alloc, row.answer),
        Ok(false) => Err(Fault::Unreadable("such call")),
        Err(fault) => {
            if !fault.is_refusal() {
                return Err(fault);
            }
            answer.text.clear();
            write!(answer.text, " {fault}")?;
            answer.is(alloc, row.answer)
        }
    }
}

/// Prints a row that failed at a field, and says whether it did not.
fn told<R: Element>(
    rt: &HostRuntime,
    line: &str,
    field: &str,
    judged: Result<bool, Fault>,
    answer: &Answer<R>,
) -> io::Result<bool> {
    match judged {
        Ok(true) => return Ok(true),
        Ok(false) => {
            let text = answer.text.as_str();
            let elements = answer.elements.as_slice();
            println!(rt; "{line}\n    at {field} it is{text} {elements:?}")?;
        }
        Err(fault) => println!(rt; "{line}\n    at {field}: {fault}")?,
    }
    Ok(false)
}

/// Runs a row once, compares its answer, prints the row if it failed, and says whether it did not.
fn run_once<R: Field>(rt: &HostRuntime, line: Line<'_>) -> io::Result<bool> {
    let mut answer = Answer::<R>::new(rt.alloc());
    let known = R::run(rt.alloc(), line.row, &mut answer);
    let right = is_right(rt.alloc(), line.row, known, &mut answer);
    told(rt, line.text, R::NAME, right, &answer)
}

/// Prints what the calls of a row did wrong while its n-th allocation was refused, and says whether
/// they did nothing wrong.
fn try_refused<R: Field>(rt: &HostRuntime, line: Line<'_>, n: u32) -> io::Result<bool> {
    let mut right = true;
    for breach in Breach::ALL {
        if was_told(rt.alloc(), breach) {
            println!(rt;
                "{}\n    at {}, allocation {n} refused: {}",
                line.text,
                R::NAME,
                breach.text()
            )?;
            right = false;
        }
    }
    Ok(right)
}

/// Runs a row with the n-th allocation of its calls refused. It says whether that allocation was
/// made, and whether all is right: then the row is refused memory, and else its answer is that of
/// the row.
fn run_refused<R: Field>(rt: &HostRuntime, line: Line<'_>, n: u32) -> io::Result<(bool, bool)> {
    let mut answer = Answer::<R>::new(rt.alloc());
    refuse(rt.alloc(), n);
    let known = R::run(rt.alloc(), line.row, &mut answer);
    let come = has_come(rt.alloc());
    let kept = try_refused::<R>(rt, line, n)?;
    if come {
        if matches!(known, Err(Fault::Memory(_))) {
            return Ok((true, kept));
        }
        println!(rt;
            "{}\n    at {}, allocation {n} refused: no refusal",
            line.text,
            R::NAME
        )?;
        return Ok((true, false));
    }
    let right = is_right(rt.alloc(), line.row, known, &mut answer);
    Ok((false, told(rt, line.text, R::NAME, right, &answer)? && kept))
}

/// Runs a row again and again, with one allocation of its calls refused, until a run meets no
/// refusal.
fn sweep<R: Field>(rt: &HostRuntime, line: Line<'_>, tally: &mut Tally) -> io::Result<bool> {
    let mut n = 1u32;
    for _ in 0..MOST {
        let (come, right) = run_refused::<R>(rt, line, n)?;
        if !come || !right {
            return Ok(right);
        }
        tally.add_refusal();
        n = n.saturating_add(line.step);
    }
    println!(rt;
        "{}\n    at {}: more than {MOST} refusals; name a greater step",
        line.text,
        R::NAME
    )?;
    Ok(false)
}

/// Runs a row at a field.
fn run_at<R: Field>(rt: &HostRuntime, line: Line<'_>, tally: &mut Tally) -> io::Result<()> {
    let right = if line.refused {
        sweep::<R>(rt, line, tally)?
    } else {
        run_once::<R>(rt, line)?
    };
    tally.add(right);
    Ok(())
}

/// Runs a row at the fields that are chosen.
fn run_row(rt: &HostRuntime, fields: Fields, line: Line<'_>, tally: &mut Tally) -> io::Result<()> {
    if fields.field {
        run_at::<F>(rt, line, tally)?;
    }
    if fields.boxed {
        run_at::<Boxed<F>>(rt, line, tally)?;
    }
    if fields.quotients {
        run_at::<Quotient>(rt, line, tally)?;
    }
    Ok(())
}

/// Runs a line, or chooses fields or step for the lines after it.
fn run_line(
    rt: &HostRuntime,
    refused: bool,
    fields: &mut Fields,
    line: &str,
    tally: &mut Tally,
) -> io::Result<()> {
    if let Some(names) = line.strip_prefix("at ") {
        *fields = Fields::of_names(names);
    } else if let Some(step) = line.strip_prefix("every ") {
        fields.step = step.trim().parse().unwrap_or(1);
    } else if let Some(row) = Row::of_line(line) {
        let step = fields.step;
        let text = line;
        run_row(
            rt,
            *fields,
            Line {
                text,
                row,
                refused,
                step,
            },
            tally,
        )?;
    } else {
        println!(rt; "{line}\n    no row")?;
        tally.add(false);
    }
    Ok(())
}

/// Runs the lines of a file; empty ones and those that begin with `#` are passed over.
fn run_file(rt: &HostRuntime, refused: bool, path: &str, tally: &mut Tally) -> io::Result<()> {
    let text = fs::read_to_string(rt, path)?;
    let mut fields = Fields::DEFAULT;
    for line in text.lines() {
        if !line.trim().is_empty() && !line.starts_with('#') {
            run_line(rt, refused, &mut fields, line, tally)?;
        }
    }
    Ok(())
}

/// What the program says at its end.
fn say_all(rt: &HostRuntime, refused: bool, tally: Tally) -> io::Result<()> {
    let Tally {
        answers,
        refusals,
        failures,
    } = tally;
    if refused {
        println!(rt; "{answers} sweeps, {refusals} refusals, {failures} failures")
    } else {
        println!(rt; "{answers} answers, {failures} failures")
    }
}

/// Runs the files that the words of the program name.
pub fn run(rt: &HostRuntime) -> io::Result<ExitCode> {
    let mut tally = Tally {
        answers: 0,
        refusals: 0,
        failures: 0,
    };
    let mut refused = false;
    for word in env::args(rt)?.skip(1) {
        if word.as_str() == "--refused" {
            refused = true;
            if !are_made(rt.alloc()) {
                println!(rt;
                    "no library refuses allocations: docs/ROWS.md says how one is loaded"
                )?;
                return Ok(ExitCode::FAILURE);
            }
        } else {
            run_file(rt, refused, word.as_str(), &mut tally)?;
        }
    }
    say_all(rt, refused, tally)?;
    if tally.failures == 0 {
        Ok(ExitCode::SUCCESS)
    } else {
        Ok(ExitCode::FAILURE)
    }
}
