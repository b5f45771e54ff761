//! Rows from other rows.
//!
//! In the example of `encoding`, row 1 is lost. Its elements are (1 + i) a / 2 + (1 - i) c / 2,
//! where a and c are the elements of the rows 0 and 2: they are -2 and 2^32 again, and under the
//! mask the words of row 1. If all three rows are there, the third is compared with what the first
//! two give, and refused if it differs.

ghost use Rattle.std.specs.Prelude.{◌≡◌, ◌≢◌, ◌↔◌, ◌*◌, ◌<◌, ◌^◌, ◌⊎◌, [], length};
ghost use Rattle.std.specs.Prelude.{IsTrue, IsFalse, IfOk, IfErr, OnErr, OnOk};
ghost use Rattle.systematic_shards.specs.Refusals.{AreAsked, AreElements, AreUnlike};
ghost use Rattle.systematic_shards.specs.Refusals.{HaveCodewordOf, HaveEnough, IsDue};
ghost use Rattle.systematic_shards.specs.Shards.{AreRebuilt};
ghost use Rattle.systematic_shards.specs.declared.Error.TheVariants.{Conflict, Inconsistent};

use crate::Error;
use crate::holding::held_rows;
use crate::memory::WordMemory;
use crate::planning::write_wanted;
use crate::rows::{Row, are_below, check_rows};
use crate::split::Code;
use std::alloc::Global;

/// Writes the rows of the wanted indices, data rows or parity rows, over `out`, row after row.
///
/// The rows in hand have `min` or more distinct indices, and belong to one codeword: what is
/// written are its rows. With just `min` indices they always do, so damage is not found. A wanted
/// row that is in hand is copied; an index that is wanted twice is written twice; with none wanted
/// the rows are only checked.
///
/// It refuses, in this order:
///
/// - no row at all, with `TooFew`;
/// - the first row of a wrong length, with `Mismatch`, or with an index of `total` or more, with
///   `Index`;
/// - a wanted index of `total` or more, with `Index`;
/// - a word of a parity row that is P or more, or one of a data row whose high half is all ones
///   under the mask, with `Word`;
/// - two rows of one index that differ, with `Conflict`; equal ones count once;
/// - fewer than `min` distinct indices, with `TooFew`;
/// - rows of no codeword, with `Inconsistent`.
///
/// It takes memory for the indices and addresses of the rows, and for some columns of all rows. Let
/// N be `total` rounded up to a power of two: few rows past the first `min`, and few that are lost,
/// are made by `min` weights each, and many by transforms, in tables and a strip of some times N
/// elements. If it refuses, it writes nothing.
///
/// ```
/// use systematic_shards::{Code, Row, Split, rebuild};
/// let code = Code { split: Split::new(1, 3, 4)?, mask: 0 };
/// let row = Row { index: 1, cells: &[100_u8, 97, 116, 97, 0, 0, 0, 0] };
/// let mut out = [0_u8; 8];
/// rebuild(alloc, code, &[row], &[2], &mut out)?;
/// out; // [100, 97, 116, 97, 0, 0, 0, 0]
/// ```
pub fn rebuild<M: WordMemory>(
    alloc: Global,
    code: Code,
    rows: &[Row<'_, M>],
    wanted: &[u32],
    out: &mut [M],
) -> Result<(), Error>
    requires room { M.BYTES * length out.old ≡ length wanted.now * (8 * code.split.width) }
    requires size { M.BYTES * length out.old < 2 ^ 64 }
    ensures ok { OnOk result
        (AreRebuilt M.word code.split code.mask rows.now wanted.now (M.word out.new)) }
    ensures asked { OnOk result (AreAsked M.BYTES code.split rows.now wanted.now) }
    ensures elements { OnOk result (AreElements M.word code.split code.mask rows.now) }
    ensures enough { OnOk result (HaveEnough code.split.min rows.now) }
    ensures due { IfErr result (IsDue M.BYTES M.word code.split code.mask rows.now wanted.now) }
    ensures err { OnErr result (out.new ≡ out.old) }
{
    check_rows(rows, code.split)?;
    if !are_below(wanted, code.split.total) {
        return Err(Error::Index);
    }
    let held = held_rows(alloc, rows, code)?;
    if !write_wanted(alloc, &held, wanted, code, out)? {
        unreachable!()
    }
    Ok(())
}

/// Whether the error says that rows do not belong to one codeword.
fn is_of_no_codeword(e: &Error) -> bool
    ensures { IsTrue result ↔ ((e.now ≡ Conflict) ⊎ (e.now ≡ Inconsistent)) }
{
    match e {
        Error::Conflict => true,
        Error::Inconsistent => true,
        _ => false,
    }
}

/// Whether the rows, of `min` or more distinct indices, belong to one codeword. Two rows of one
/// index that differ do not.
///
/// With just `min` indices rows that do not differ always do. It refuses what `rebuild` refuses,
/// but for `Conflict` and `Inconsistent`, where the answer is no; and it takes memory as that does.
///
/// ```
/// use systematic_shards::{Code, Row, Split, verify};
/// let code = Code { split: Split::new(1, 3, 4)?, mask: 0 };
/// let row = Row { index: 1, cells: &[100_u8, 97, 116, 97, 0, 0, 0, 0] };
/// let other = Row { index: 2, cells: &[100_u8, 97, 116, 97, 1, 0, 0, 0] };
/// verify(alloc, code, &[row])?; // true
/// verify(alloc, code, &[row, other])?; // false
/// ```
pub fn verify<M: WordMemory>(alloc: Global, code: Code, rows: &[Row<'_, M>]) -> Result<bool, Error>
    ensures asked { OnOk result (AreAsked M.BYTES code.split rows.now []) }
    ensures elements { OnOk result (AreElements M.word code.split code.mask rows.now) }
    ensures yes { IfOk result (λ answer. IsTrue answer → HaveEnough code.split.min rows.now
        × HaveCodewordOf M.word code.split code.mask rows.now) }
    ensures no { IfOk result (λ answer. IsFalse answer
        → AreUnlike M.word code.split code.mask rows.now) }
    ensures due { IfErr result (λ e. (e ≢ Conflict) × (e ≢ Inconsistent)
        × IsDue M.BYTES M.word code.split code.mask rows.now [] e) }
{
    check_rows(rows, code.split)?;
    let Err(e) = held_rows(alloc, rows, code) else {
        return Ok(true);
    };
    if is_of_no_codeword(&e) {
        return Ok(false);
    }
    Err(e)
}
