//! What a root binds, for every hash function whose digests have 32 bytes.
//!
//! Where a law says that messages collide, it names the two lists of messages that were hashed: at
//! one place of both stand two different messages with the same digest.

ghost use Rattle.hash_trees.specs.Binding.{HasDigests, OnlyLeavesAreUnder};
ghost use Rattle.hash_trees.specs.Binding.{OnlyRecordsAreShown, OnlyRecordsAreUnder};
ghost use Rattle.hash_trees.specs.Binding.{PathsLeadUp, RecordsAreBound, RootsAreBound, RootsGoUp};
ghost use Rattle.hash_trees.specs.Descents.{WaysStay};
ghost use Rattle.hash_trees.specs.Files.{FileRecordsAreBound, FilesAreBound};
ghost use Rattle.hash_trees.specs.Steps.{PathsHaveTheirSteps};
ghost use Rattle.hash_trees.specs.TreePairs.{PairsLeadDown, RootsLeadDown};
ghost use Rattle.sha2.specs.Sha512.{sha512_256};

/// The root of one leaf is that leaf, and the root of more is that of the level above (`up`). Each
/// record is under the root by its path (`paths`). SHA-512/256 is one of the hash functions of the
/// laws (`digests`).
pub fn trees()
    ensures up { RootsGoUp }
    ensures paths { PathsLeadUp }
    ensures digests { HasDigests sha512_256 }
{}

/// Two records that are under one root at one index are the same, or messages collide (`records`).
/// Equally many records with one root are the same, or messages collide (`roots`). So what is under
/// the root of some records is the one of its index, or messages collide (`only`), and so do
/// several (`shown`). In the same way a leaf that is under the root of some leaves is the one of
/// its index (`leaves`).
pub fn roots_bind()
    ensures records { RecordsAreBound }
    ensures roots { RootsAreBound }
    ensures only { OnlyRecordsAreUnder }
    ensures shown { OnlyRecordsAreShown }
    ensures leaves { OnlyLeavesAreUnder }
{}

/// The root of a file binds its numbers and the tree over its blocks (`files`), and each record of
/// each block (`records`), or messages collide.
pub fn files_bind()
    ensures files { FilesAreBound }
    ensures records { FileRecordsAreBound }
{}

/// A path that leads up to a root has just as many digests as `path_steps` says.
pub fn paths_have_their_steps()
    ensures { PathsHaveTheirSteps }
{}

/// The way down from the root of some leaves is a way down their tree (`root`). There each node
/// that is no leaf has two children; the pair of the tree stands at the place of that node among
/// all pairs of the tree, it is taken, and the way further down is one down the tree again
/// (`pairs`). So the pairs of a tree lead to its leaves. Whatever pairs come, what is still to come
/// is under the top, and has all leaves from the first one on (`ways`).
pub fn descents()
    ensures root { RootsLeadDown }
    ensures pairs { PairsLeadDown }
    ensures ways { WaysStay }
{}
