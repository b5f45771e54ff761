//! Rows of systematic shards in the caller's memory.

ghost use Rattle.std.specs.Prelude.{◌≡◌, ◌*◌, length};

use systematic_shards::Code;

/// Rows of a code, as bytes, one after the other.
#[derive(Clone, Copy)]
pub struct RowsInHand<'a> {
    /// Their code.
    pub code: Code,
    /// The index of each.
    pub indices: &'a [u32],
    /// Their bytes.
    pub bytes: &'a [u8],
    ghost whole: { length bytes.now ≡ length indices.now * (8 * code.split.width) },
}
