//! What the root of a block binds, for every hash function whose digests have 32 bytes.

ghost use Rattle.shard_roots.specs.Commitments.{BlocksAreBound, HaveOneRoot};
ghost use Rattle.shard_roots.specs.Joining.{OnlyBlockIsJoined, OwnShardsAreJoined};
ghost use Rattle.shard_roots.specs.Joining.{OwnShardsGiveTheBlock};

/// A block that is cut in one way has one root (`once`). Two blocks in equally many shards that
/// have one root are the same, or two different messages that were hashed have the same digest
/// (`bound`): so are two that `join_committed` gives under one root.
pub fn roots()
    ensures once { HaveOneRoot }
    ensures bound { BlocksAreBound }
{
    systematic_shards::laws::shards();
}

/// Shards that are handed out for a block, with their paths, are under its root, and what
/// `join_under` gives of them is this block (`own`). What it gives under the root of a block,
/// whoever hands in the shards, is this block, or two different messages that were hashed have the
/// same digest (`bound`). If a block is cut into at most 2^16 shards, and its own shards of `min`
/// distinct indices are among those handed in, the only error that is due is that memory ran out,
/// whatever the other shards are, or two such messages have the same digest (`joined`). This holds
/// of `join_under` and of `join_committed`.
pub fn joined_blocks()
    ensures own { OwnShardsGiveTheBlock }
    ensures bound { OnlyBlockIsJoined }
    ensures joined { OwnShardsAreJoined }
{
    systematic_shards::laws::shards();
}
