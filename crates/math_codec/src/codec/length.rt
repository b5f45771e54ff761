//! Lengths: groups of seven bits, lowest first.
//!
//! Bit 7 of a byte says that another follows. So a length below 128 is one byte, and another one n
//! is its lowest seven bits with bit 7 set, 128 + n % 128, and then the bytes of n / 128, which is
//! not zero. A byte b with bit 7 set and a number m in the bytes after it are read as b - 128 + 128
//! m. Five bytes have room for 35 bits, so that the fifth is at most 15 where there are 32.

ghost use Rattle.std.specs.Prelude.{◌≡◌, ◌<◌, ◌≤◌, ◌^◌, ◌*◌, ◌+◌, ◌++◌, length, take, IfOk, OnOk, OnErr};
ghost use Rattle.math_codec.specs.Faults.{Agrees, OnMemory};
ghost use Rattle.math_codec.specs.Lengths.{groups, length_spelling, length_at, rest_at};

use super::Mem;
use super::error::Error;
use super::write::roll_back;
use std::alloc::Global;

/// Reads the bytes after the first: at least one, and at most one and `more`.
#[tactic(auto, unfolding(crate::specs::Lengths::rest_at))]
fn read_rest(bytes: &[u8], more: u32) -> Result<(u32, &[u8]), Error>
    requires { more ≤ 3 }
    ensures below { IfOk result (λ x. x.0 < 16 * 128 ^ more) }
    ensures memory { OnMemory result ⊥ }
    ensures exact { Agrees (λ x. (x.0, x.1.now)) result (rest_at more bytes.now) }
{
    match bytes {
        [] => Err(Error::EndOfBuffer),
        [0, ..] => Err(Error::InvalidVarint),
        [byte, after @ ..] => {
            let byte = u32::from(*byte);
            if more == 0 {
                if byte < 16 {
                    Ok((byte, after))
                } else {
                    Err(Error::InvalidVarint)
                }
            } else if byte < 128 {
                Ok((byte, after))
            } else {
                let (high, after) = read_rest(after, more - 1)?;
                Ok((byte - 128 + 128 * high, after))
            }
        }
    }
}

/// Reads a length byte by byte, as `length_at` says.
#[tactic(auto, unfolding(crate::specs::Lengths::length_at))]
fn scan_length(bytes: &[u8]) -> Result<(u32, &[u8]), Error>
    ensures memory { OnMemory result ⊥ }
    ensures exact { Agrees (λ x. (x.0, x.1.now)) result (length_at bytes.now) }
{
    match bytes {
        [] => Err(Error::EndOfBuffer),
        [byte, after @ ..] => {
            let byte = u32::from(*byte);
            if byte < 128 {
                Ok((byte, after))
            } else {
                let (high, after) = read_rest(after, 3)?;
                Ok((byte - 128 + 128 * high, after))
            }
        }
    }
}

/// Reads a length, and gives it with what follows.
fn split_length(bytes: &[u8]) -> Result<(u32, &[u8]), Error>
    ensures taken { IfOk result (λ x. bytes.now ≡ length_spelling x.0 ++ x.1.now) }
    ensures memory { OnMemory result ⊥ }
    ensures exact { Agrees (λ x. (x.0, x.1.now)) result (length_at bytes.now) }
{
    scan_length(bytes)
}

/// Reads a length from the front of `input`, and moves `input` to what follows it.
///
/// It refuses at the first byte that is wrong, and leaves `input` where it was. The fault is
/// `EndOfBuffer` if no byte remains, and `InvalidVarint` if the fifth byte is above 15 or the last
/// of several is zero. It never answers `Memory`.
///
/// ```
/// let mut input: &[u8] = &[172, 2, 7];
/// read_len(alloc, &mut input)?; // 300
/// input; // [7]
/// ```
pub fn read_len(_alloc: Global, input: &mut &[u8]) -> Result<u32, Error>
    ensures taken { IfOk result (λ n. input.old.now ≡ length_spelling n ++ input.new.now) }
    ensures stays { OnErr result (input.new ≡ input.old) }
    ensures memory { OnMemory result ⊥ }
    ensures exact { Agrees (λ n. (n, input.new.now)) result (length_at input.old.now) }
{
    let (n, rest) = split_length(*input)?;
    *input = rest;
    Ok(n)
}

/// Writes the groups of `n`, of which there are at most `more` and one. What is written stays where
/// memory runs out.
#[tactic(auto, unfolding(crate::specs::Lengths::groups))]
fn write_groups(n: u32, more: u32, out: &mut Vec<u8>) -> Mem<()>
    requires { n < 16 * 128 ^ more }
    ensures ok { OnOk result (out.new.items ≡ out.old.items ++ groups more n) }
    ensures kept { take (length out.old.items) out.new.items ≡ out.old.items }
{
    if more == 0 || n < 128 {
        out.push(n as u8)?;
        return Ok(());
    }
    out.push((128 + n % 128) as u8)?;
    write_groups(n / 128, more - 1, out)?;
    Ok(())
}

/// Writes the length `n` at the end of `out`.
///
/// If memory runs out, it refuses, and leaves the items of `out` as they were.
///
/// ```
/// let mut out = Vec::new(alloc);
/// write_len(alloc, 300, &mut out)?;
/// out; // [172, 2]
/// ```
pub fn write_len(alloc: Global, n: u32, out: &mut Vec<u8>) -> Mem<()>
    ensures ok { OnOk result (out.new.items ≡ out.old.items ++ length_spelling n) }
    ensures err { OnErr result (out.new.items ≡ out.old.items) }
{
    let start = out.len();
    let written = write_groups(n, 4, out);
    roll_back(alloc, written, start, out)
}

/// The number of groups of `n`, of which there are at most `more` and one.
#[tactic(auto, unfolding(crate::specs::Lengths::groups))]
fn count_groups(n: usize, more: u32) -> usize
    ensures count { result ≡ length (groups more n) }
    ensures few { result ≤ more + 1 }
{
    if more == 0 || n < 128 {
        return 1;
    }
    1 + count_groups(n / 128, more - 1)
}

/// Returns the number of bytes that the length `n` is written in, from 1 to 5.
///
/// A number of 2^32 or more is no length, and counts as 5.
///
/// ```
/// len_size(300); // 2
/// ```
pub fn len_size(n: usize) -> usize
    ensures count { result ≡ length (length_spelling n) }
    ensures few { result ≤ 5 }
{
    count_groups(n, 4)
}
