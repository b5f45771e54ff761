//! Shards in the caller's memory, some of them wrong, to data.

ghost use Rattle.std.specs.Prelude.{◌≤◌, ◌⊎◌, IfErr, length};
ghost use Rattle.math_shards.specs.Joining.{IsMemory};
ghost use Rattle.c_calls.specs.WrittenData.{WritesBothInFront};

use crate::in_hand::ShardsInHand;
use commonware_math::shards::Error;
use std::alloc::Global;

/// Writes the data of the shards, however some are wrong, over the first items of `out`, and the
/// positions of the wrong ones over the first places of `left_out`, and gives the numbers of both.
///
/// `None` where there is no room for the data. It refuses as `join_corrected` does. Sound shards are
/// joined where they lie.
pub fn write_corrected<S: ShardsInHand>(
    alloc: Global,
    shards: S,
    out: &mut [S::Item],
    left_out: &mut [usize],
) -> Result<Option<(usize, usize)>, Error>
    requires { S.count shards ≤ length left_out.old }
    ensures written { WritesBothInFront (S.correct_to shards) result
        out.old out.new left_out.old left_out.new }
    ensures due { IfErr result (λ e. IsMemory e ⊎ S.refused_correcting shards e) }
{
    match shards.join(alloc, out) {
        Ok(Some(n)) => Ok(Some((n, 0))),
        Ok(None) => Ok(None),
        Err(Error::Memory(error)) => Err(Error::Memory(error)),
        Err(_) => write_correction(alloc, shards, out, left_out),
    }
}

/// As `write_corrected`, of shards that fit no data.
fn write_correction<S: ShardsInHand>(
    alloc: Global,
    shards: S,
    out: &mut [S::Item],
    left_out: &mut [usize],
) -> Result<Option<(usize, usize)>, Error>
    requires { S.count shards ≤ length left_out.old }
    ensures written { WritesBothInFront (S.correct_to shards) result
        out.old out.new left_out.old left_out.new }
    ensures due { IfErr result (λ e. IsMemory e ⊎ S.refused_correcting shards e) }
{
    let (found, positions) = shards.correct(alloc)?;
    let n = found.len();
    let many = positions.len();
    if n > out.len() {
        return Ok(None);
    }
    out[..n].copy_from_slice(&found);
    left_out[..many].copy_from_slice(&positions);
    Ok(Some((n, many)))
}
