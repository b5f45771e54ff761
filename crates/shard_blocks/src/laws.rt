//! What follows from the contracts of `split_block`, `join_block` and
//! `join_block_corrected` together.

ghost use Rattle.shard_blocks.specs.Blocks.{ChosenShardsGiveBlock, HaveOneBlock, LostShardsComeBack};
ghost use Rattle.shard_blocks.specs.Correcting.{HaveOneCorrectedBlock, JoinedBlocksAreCorrect};
ghost use Rattle.shard_blocks.specs.Correcting.{OneWrongIsCorrected};

/// Any `min` shards of a `split_block` with distinct indices give back what was split, and shards
/// give one block back at most. The same holds for shards that equal these: for copies, and for
/// shards that were written and read again. A shard that is made of a block that came back so is
/// the shard that was there.
pub fn joined_blocks()
    ensures once { HaveOneBlock }
    ensures chosen { ChosenShardsGiveBlock }
    ensures lost { LostShardsComeBack }
{}

/// Shards have one block at most, however some of them are wrong. If `join_block` gives a block
/// back, it is this one. If the numbers of all shards agree, and there are at least `min` + 2
/// distinct indices, a block that all shards but one give back is this one.
pub fn corrected_blocks()
    ensures once { HaveOneCorrectedBlock }
    ensures joined { JoinedBlocksAreCorrect }
    ensures one_wrong { OneWrongIsCorrected }
{}
