//! Laws of blocks and records, each the contract of a function that does nothing.

ghost use Rattle.std.specs.Prelude.{◌≤◌, ℕ};
ghost use Rattle.shard_format.specs.Records.{BlocksMakeFile, FileFits, RecordsEndWithFile, RecordsFollow};
ghost use Rattle.shard_format.specs.Rows.{RowsHaveTheirWords};
ghost use Rattle.shard_format.specs.declared.header.Header.{Header};

/// The blocks of a file have all of its bytes, each block but the last as many as the header says.
pub fn blocks_make_the_file()
    ensures { (h : Header) → 1 ≤ h.block → BlocksMakeFile h }
{}

/// Records lie one behind the other, each with its path behind it, the first behind the header. The
/// pairs begin where the path of the last block ends, and the shard file ends with them. Without
/// paths it ends with the record of the last block. Its size fits a word where no record, with its
/// path and a pair, has more than k times the bytes of a block, k blocks have fewer than 2^62, and
/// k files fewer than 2^63.
pub fn records_make_the_shard_file()
    ensures follow { (h : Header) (words : ℕ) → RecordsFollow h words }
    ensures within { (h : Header) (words last : ℕ) → RecordsEndWithFile h words last }
    ensures fits { (h : Header) (words last : ℕ) → 1 ≤ h.block → FileFits h words last }
{}

/// Rows that differ in the block, the index, the mask or a word have lists of words that differ. So
/// `shard_fingerprints::laws::damage_is_missed_rarely` says how rarely damage to them is missed.
pub fn rows_have_their_words()
    ensures { RowsHaveTheirWords }
{}
