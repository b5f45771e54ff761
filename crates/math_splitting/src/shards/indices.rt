//! Which shards are asked for.

ghost use Rattle.std.specs.Prelude.{◌≡◌, ◌<◌, length, slice_index};
ghost use Rattle.math_splitting.specs.ShardRows.{indices_in};

/// Which shards are asked for, in this order.
#[derive(Clone, Copy)]
pub(super) enum WantedIndices<'a> {
    /// Those of all indices below this number.
    All(u32),
    /// Those of these indices.
    At(&'a [u32]),
}

/// How many shards are asked for.
pub(super) fn wanted_count(wanted: WantedIndices<'_>) -> usize
    ensures { result ≡ length (indices_in wanted.entry) }
{
    match wanted {
        WantedIndices::All(total) => total as usize,
        WantedIndices::At(indices) => indices.len(),
    }
}

/// The index in this place of those of the shards that are asked for.
pub(super) fn wanted_index(wanted: WantedIndices<'_>, place: usize) -> u32
    requires { place < length (indices_in wanted) }
    ensures { result ≡ slice_index (indices_in wanted.entry) place }
{
    match wanted {
        WantedIndices::All(_) => place as u32,
        WantedIndices::At(indices) => indices[place],
    }
}
