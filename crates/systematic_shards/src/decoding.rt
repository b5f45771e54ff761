//! Data from rows.

ghost use Rattle.std.specs.Prelude.{◌≡◌, ◌*◌, [], length};
ghost use Rattle.std.specs.Prelude.{IfErr, OnErr, OnOk};
ghost use Rattle.systematic_shards.specs.Refusals.{AreAsked, AreElements, HaveEnough};
ghost use Rattle.systematic_shards.specs.Refusals.{IsDecodeDue};
ghost use Rattle.systematic_shards.specs.Shards.{AreDecoded};

use crate::Error;
use crate::encoding::indices_between;
use crate::holding::held_rows;
use crate::memory::WordMemory;
use crate::planning::write_wanted;
use crate::rows::{Row, check_rows};
use crate::split::Code;
use std::alloc::Global;

/// Writes the block over `block`, from `min` or more of its rows: data rows that are in hand are
/// copied.
///
/// It refuses as `rebuild` does, and with `Inconsistent` too if a byte of the data rows past the
/// end of the block is not zero. If it refuses, it writes nothing.
///
/// ```
/// use systematic_shards::{Code, Row, Split, decode};
/// let split = Split::new(1, 2, 4)?;
/// let parity = Row { index: 1, cells: &[100_u8, 97, 116, 97, 0, 0, 0, 0] };
/// let mut block = [0_u8; 4];
/// decode(alloc, Code { split, mask: 0 }, &[parity], &mut block)?;
/// block; // [100, 97, 116, 97]
/// ```
pub fn decode<M: WordMemory>(
    alloc: Global,
    code: Code,
    rows: &[Row<'_, M>],
    block: &mut [M],
) -> Result<(), Error>
    requires { M.BYTES * length block.old ≡ code.split.size }
    ensures ok { OnOk result (AreDecoded M.word code.split code.mask rows.now (M.word block.new)) }
    ensures asked { OnOk result (AreAsked M.BYTES code.split rows.now []) }
    ensures elements { OnOk result (AreElements M.word code.split code.mask rows.now) }
    ensures enough { OnOk result (HaveEnough code.split.min rows.now) }
    ensures due { IfErr result (IsDecodeDue M.BYTES M.word code.split code.mask rows.now) }
    ensures err { OnErr result (block.new ≡ block.old) }
{
    check_rows(rows, code.split)?;
    let held = held_rows(alloc, rows, code)?;
    let wanted = indices_between(alloc, 0, code.split.min)?;
    if !write_wanted(alloc, &held, &wanted, code, block)? {
        return Err(Error::Inconsistent);
    }
    Ok(())
}
