//! What codewords and shards are determined by, and what a mask is undone by.

ghost use Rattle.systematic_shards.specs.Codewords.{HaveCodeword, HaveOneCodeword};
ghost use Rattle.systematic_shards.specs.Correcting.{HaveOneCorrection};
ghost use Rattle.systematic_shards.specs.Masks.{UnmaskedIsMasked};
ghost use Rattle.systematic_shards.specs.Shards.{HaveCodewordThrough, HaveOneCodewordOf};
ghost use Rattle.systematic_shards.specs.Shards.{HaveOneEncoding};

use crate::memory::WordMemory;

/// Through any rows of at most `min` distinct indices goes a codeword, and no two different ones
/// where the rows are `min`.
pub fn codewords()
    ensures once { HaveOneCodeword }
    ensures through { HaveCodeword }
{}

/// A word that is masked twice is what it was.
pub fn masks()
    ensures { UnmaskedIsMasked }
{}

/// A block under its mask has one list of parity rows. Rows of `min` distinct indices or more
/// belong to one codeword at most, so whichever rows are lost, those that are rebuilt are they; and
/// rows of `min` distinct indices always belong to one.
pub fn shards()
    ensures encoded { HaveOneEncoding }
    ensures rebuilt { HaveOneCodewordOf }
    ensures through { HaveCodewordThrough }
{}

/// However some rows are wrong, there is one codeword at most near them.
pub fn corrections<M: WordMemory>()
    ensures { HaveOneCorrection M.word }
{}
