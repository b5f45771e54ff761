//! Shards in the caller's memory, and what they give back.

ghost use Rattle.std.specs.Prelude.{◌≤◌, ◌⊎◌, ℕ, [], List, IfOk, IfErr, length};
ghost use Rattle.math_shards.specs.Joining.{IsMemory};
ghost use Rattle.math_shards.specs.declared.shards.Error.{Error};
ghost use Rattle.c_calls.specs.WrittenData.{WritesInFront};

use commonware_math::shards::Error;
use std::alloc::Global;

/// Shards in the caller's memory: words that give words back, or bytes that give a block back.
pub trait ShardsInHand: Copy {
    /// What they give back many of.
    type Item: Copy;

    /// How many shards there are.
    ghost count: { Self → ℕ };

    /// The shards give these data back.
    ghost join_to: { Self → List Self.Item → Type 0 };

    /// The shards have these data, however some are wrong, and these positions are those of the
    /// wrong ones.
    ghost correct_to: { Self → List Self.Item → List ℕ → Type 0 };

    /// This is wrong with the shards where they are joined.
    ghost refused: { Self → Error → Type 0 };

    /// This is wrong with the shards where they are corrected.
    ghost refused_correcting: { Self → Error → Type 0 };

    /// Writes the data that the shards give back over the first items of `out`, and gives their
    /// number.
    ///
    /// `None` where there is no room. What sound shards give back, they are corrected to.
    fn join(self, alloc: Global, out: &mut [Self::Item]) -> Result<Option<usize>, Error>
        ensures written { WritesInFront (join_to self) result out.old out.new }
        ensures due { IfErr result (λ e. IsMemory e ⊎ refused self e) }
        ensures sound { (xs : List Self.Item) → join_to self xs → correct_to self xs [] };

    /// The data of the shards, however some are wrong, and the positions of the wrong ones.
    fn correct(self, alloc: Global) -> Result<(Vec<Self::Item>, Vec<usize>), Error>
        ensures ok { IfOk result (λ found. correct_to self found.0.items found.1.items) }
        ensures few { IfOk result (λ found. length found.1.items ≤ count self) }
        ensures due { IfErr result (λ e. IsMemory e ⊎ refused_correcting self e) };
}
