//! Calls that do what no call of the library may do where an allocation is refused. They show that `rows --refused` sees it:
//! `.ci/sweeps` runs them, and each has to fail.

use commonware_math::algebra::Mem;
use rows_base::fault::Fault;
use rows_base::refusals::{Breach, begin, end, tell};
use rows_ntt::bounds::keep_counts;
use std::alloc::{AllocError, Global};

/// Runs a call of this module; `false` where it is none.
pub fn run(alloc: Global, call: &str, arguments: &str, text: &mut String) -> Result<bool, Fault> {
    if call != "breach" {
        return Ok(false);
    }
    match arguments.trim() {
        "swallowed" => swallow(alloc),
        "changed" => change(alloc)?,
        "goes_on" => go_on(alloc)?,
        "beyond_bound" => count_more(alloc)?,
        _ => return Err(Fault::Unreadable("such breach")),
    }
    text.push_str(" done")?;
    Ok(true)
}

/// A block of some bytes, which is let go.
fn block(alloc: Global) -> Mem<()> {
    let _block: Vec<u8> = Vec::with_capacity(alloc, 64)?;
    Ok(())
}

/// Answers though its allocation is refused.
fn swallow(alloc: Global) {
    let given = begin(alloc, &());
    let _refused = block(alloc);
    end(alloc, given, &(), false);
}

/// Adds a number, for which there is room, and then takes memory.
fn push_and_take(alloc: Global, list: &mut Vec<u64>) -> Mem<()> {
    list.push(1)?;
    block(alloc)
}

/// Leaves what it was given half done where its allocation is refused.
fn change(alloc: Global) -> Mem<()> {
    let mut list = Vec::with_capacity(alloc, 4)?;
    let given = begin(alloc, &list);
    let done = push_and_take(alloc, &mut list);
    end(alloc, given, &list, done.is_err());
    done
}

/// Items for which memory is taken, without an end.
#[derive(Drop)]
struct Endless {
    alloc: Global,
}

impl Iterator for Endless {
    type Item = Mem<()>;

    fn next(&mut self) -> Option<Mem<()>> {
        Some(block(self.alloc))
    }
}

/// Gives an item after an `Err`.
fn go_on(alloc: Global) -> Mem<()> {
    let mut items = Endless { alloc };
    let given = begin(alloc, &());
    let item = items.next();
    let refused = matches!(item, Some(Err(AllocError)));
    end(alloc, given, &(), refused);
    if refused && items.next().is_some() {
        tell(alloc, Breach::GoesOn);
    }
    item.unwrap_or(Ok(()))
}

/// Counts a butterfly, where its bound is none.
fn count_more(alloc: Global) -> Mem<()> {
    let given = begin(alloc, &());
    let done = block(alloc);
    end(alloc, given, &(), done.is_err());
    keep_counts(alloc, (1, 0), (0, 0));
    done
}
