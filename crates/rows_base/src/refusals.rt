//! Allocations that are refused in turn, within the calls that a row makes.
//!
//! The library that `.ci/sweeps` loads before this program counts allocations and refuses the one
//! that it is told to. It counts those of the calls of the library under test alone: a row marks
//! the begin and the end of each. It is told by asking for a block of an impossible size, and it
//! answers a question by whether it gives a block. Without it each such request is refused, and
//! nothing else is.
//!
//! A receiver and arguments are compared by hashes of their `Debug` texts, before and after a
//! refused call. A text shows what is stored, which `equals` does not, and a hash takes no memory:
//! so the mark of a call is a plain number. What a row reads and compares is no part of a call, and
//! no count is threaded through all functions.

use std::alloc::Global;
use std::fmt;
use std::fmt::Write;

/// Asked for this and n bytes, the library refuses the n-th allocation within calls from then on,
/// and none where n is 0.
const REFUSE: usize = 0x7b00_0000_0000_0000;

/// Asked for so many bytes, the library gives a block where that refusal has come.
const HAS_COME: usize = 0x7d00_0000_0000_0000;

/// Asked for this and n bytes, the library gives a block where more than n were asked for at once
/// since then.
const IS_LARGER: usize = 0x7c00_0000_0000_0000;

/// Asked for so many bytes, the library refuses where it was told to refuse an allocation within
/// calls, and nothing else does: no row takes a block of this odd size.
const ASKED: usize = 98_689;

/// Asked for so many bytes, the library counts from then on: a call begins.
const BEGIN: usize = 0x7a00_0000_0000_0000;

/// Asked for so many bytes, the library counts no more: the call has ended.
const END: usize = 0x7900_0000_0000_0000;

/// Asked for this and the number of a breach, the library notes it.
const TELL: usize = 0x7800_0000_0000_0000;

/// Asked for this and the number of a breach, the library gives a block where it was told of that.
const WAS_TOLD: usize = 0x7700_0000_0000_0000;

/// What a call does wrong where an allocation is refused.
#[derive(Clone, Copy)]
pub enum Breach {
    /// It answers though an allocation was refused, or is refused memory though none was.
    Swallowed,
    /// What it was given is not as it was.
    Changed,
    /// An iterator gives an item after an `Err`.
    GoesOn,
    /// It counts more work than its bound.
    BeyondBound,
}

impl Breach {
    /// All of them.
    pub const ALL: [Breach; 4] = [
        Breach::Swallowed,
        Breach::Changed,
        Breach::GoesOn,
        Breach::BeyondBound,
    ];

    /// The number that the library knows it by.
    fn number(self) -> u8 {
        match self {
            Breach::Swallowed => 0,
            Breach::Changed => 1,
            Breach::GoesOn => 2,
            Breach::BeyondBound => 3,
        }
    }

    /// What it says of the call.
    pub fn text(self) -> &'static str {
        match self {
            Breach::Swallowed =>
                "an answer in place of the refusal, or a refusal that nothing caused",
            Breach::Changed => "what the call was given has changed",
            Breach::GoesOn => "an item after an Err",
            Breach::BeyondBound => "more work than the bound",
        }
    }
}

/// Whether a block of so many bytes is given.
fn is_given(alloc: Global, size: usize) -> bool {
    let block: Result<Vec<u8>, _> = Vec::with_capacity(alloc, size);
    block.is_ok()
}

/// Has the n-th allocation within calls from here on refused, and none where n is 0.
pub fn refuse(alloc: Global, n: u32) {
    let _given = is_given(alloc, REFUSE + n as usize);
}

/// Whether the refusal that was asked for has come. No other one comes.
pub fn has_come(alloc: Global) -> bool {
    is_given(alloc, HAS_COME)
}

/// Whether an allocation within calls since the last call of `refuse` was of more than n bytes.
pub fn took_more_than(alloc: Global, n: u32) -> bool {
    is_given(alloc, IS_LARGER + n as usize)
}

/// Whether the library is there, that is, whether it refuses a block of a few bytes when it is told
/// to.
pub fn are_made(alloc: Global) -> bool {
    refuse(alloc, 1);
    let _begins = is_given(alloc, BEGIN);
    let _given = is_given(alloc, 64);
    let _ends = is_given(alloc, END);
    has_come(alloc)
}

/// Whether the library is there and was told to refuse.
fn are_watched(alloc: Global) -> bool {
    !is_given(alloc, ASKED)
}

/// Notes a breach.
pub fn tell(alloc: Global, breach: Breach) {
    let _given = is_given(alloc, TELL + breach.number() as usize);
}

/// Whether this breach was noted since the last call of `refuse`.
pub fn was_told(alloc: Global, breach: Breach) -> bool {
    is_given(alloc, WAS_TOLD + breach.number() as usize)
}

/// The hash FNV-1a of a text as it is written.
#[derive(Drop)]
struct Hash {
    value: u64,
}

impl fmt::Write for Hash {
    fn write_str(&mut self, s: &str) -> fmt::Result {
        for byte in s.as_bytes().iter() {
            self.value = (self.value ^ u64::from(*byte)).wrapping_mul(0x0000_0100_0000_01b3);
        }
        Ok(())
    }
}

/// A number of the `Debug` text of a value, which is another for another text but by chance.
fn hash_of<G: fmt::Debug>(given: &G) -> u64 {
    let mut hash = Hash {
        value: 0xcbf2_9ce4_8422_2325,
    };
    let _written = write!(hash, "{given:?}");
    hash.value
}

/// Marks the begin of a call of the library under test, which is given this: receiver, arguments,
/// what it writes to, but not what it takes. The text shows every stored coefficient, cell, index,
/// term and filled row. Where allocations are refused this is a number of the text, for `end`.
pub fn begin<G: fmt::Debug>(alloc: Global, given: &G) -> u64 {
    if !are_watched(alloc) {
        return 0;
    }
    let before = hash_of(given);
    let _begins = is_given(alloc, BEGIN);
    before
}

/// Marks the end of the call, which is refused for want of memory or not. It has to be refused
/// exactly where an allocation was, and then what it was given is as it was.
pub fn end<G: fmt::Debug>(alloc: Global, before: u64, given: &G, refused: bool) {
    if !are_watched(alloc) {
        return;
    }
    let _ends = is_given(alloc, END);
    let come = has_come(alloc);
    if come != refused {
        tell(alloc, Breach::Swallowed);
    }
    if come && hash_of(given) != before {
        tell(alloc, Breach::Changed);
    }
}
