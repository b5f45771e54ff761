//! Lost shards.

ghost use Rattle.std.specs.Prelude.{◌≡◌, ◌<◌, ◌≤◌, IfOk};

use commonware_math::shards::{Error, join, split};
use math_shards::laws::joined_data;
use std::alloc::Global;

/// Splits the words in `total` shards, loses the last `lost` of them, and joins the others. At
/// least one is left.
///
/// What the others give is what was split.
pub fn split_and_joined(
    alloc: Global,
    words: &[u64],
    min: u32,
    total: u32,
    lost: u32,
) -> Result<Vec<u64>, Error>
    requires some { 1 ≤ min }
    requires within { min ≤ total }
    requires lost { lost < total }
    ensures { IfOk result (λ answer. answer.items ≡ words.now) }
{
    let mut shards = split(alloc, words, min, total)?;
    shards.truncate((total - lost) as usize);
    let answer = join(alloc, &shards)?;
    joined_data();
    Ok(answer)
}
