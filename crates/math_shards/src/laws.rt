//! What follows from the contracts of `split`, `join` and `join_corrected` together.

ghost use Rattle.math_shards.specs.Correcting.{HaveOneCorrection, JoinedAreCorrect};
ghost use Rattle.math_splitting.specs.Shards.{ChosenShardsJoin, HaveOneData};

/// Any `min` shards of a `split` with distinct indices give back what was split, and shards give at
/// most one list of data back. The same holds for shards that equal these: for copies, and for
/// shards that were written and read again.
pub fn joined_data()
    ensures once { HaveOneData }
    ensures chosen { ChosenShardsJoin }
{}

/// Shards have at most one list of data, however some of them are wrong. If `join` gives data back,
/// these are the data.
pub fn corrected_data()
    ensures once { HaveOneCorrection }
    ensures joined { JoinedAreCorrect }
{}
