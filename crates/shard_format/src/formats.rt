//! The formats of shard files: what records hold, and what a header says of it.

ghost use Rattle.std.specs.Prelude.{◌≡◌, ◌↔◌, ◌≤◌, IsTrue};
ghost use Rattle.shard_format.specs.Formats.{header_size, is_same_format, mask_size, paths_word, version_of, word_count};
ghost use Rattle.shard_format.specs.declared.formats.Format.TheVariants.{Cells, RowsWithPaths};

/// What the records of a shard file hold.
#[derive(Clone, Copy, Debug, PartialEq, Eq)]
pub enum Format {
    /// Version 2: cells of shards, as `shard_blocks` makes them.
    Cells,
    /// Version 3 without paths: rows of the data as they are, and parity rows, as
    /// `systematic_shards` makes them.
    Rows,
    /// Version 3 with paths: the same rows, each followed by its path in a tree of hashes, and the
    /// pairs of a tree over the blocks behind the last.
    RowsWithPaths,
}

impl Format {
    /// Returns the version that a header of this format says.
    pub fn version(self) -> u64
        ensures { result ≡ version_of self }
    {
        match self {
            Format::Cells => 2,
            Format::Rows => 3,
            Format::RowsWithPaths => 3,
        }
    }

    /// Returns whether both are one format.
    pub(crate) fn is_same(self, other: Format) -> bool
        ensures exact { IsTrue result ↔ (self ≡ other) }
        ensures test { result ≡ is_same_format self other }
    {
        self.version() == other.version() && self.paths_word() == other.paths_word()
    }

    /// 1 where the records have paths, and else 0.
    pub(crate) fn paths_word(self) -> u64
        ensures { result ≡ paths_word self }
    {
        match self {
            Format::Cells => 0,
            Format::Rows => 0,
            Format::RowsWithPaths => 1,
        }
    }

    /// Returns whether the records have paths.
    pub fn has_paths(self) -> bool
        ensures { IsTrue result ↔ (self ≡ RowsWithPaths) }
    {
        match self {
            Format::Cells => false,
            Format::Rows => false,
            Format::RowsWithPaths => true,
        }
    }

    /// Returns whether the records hold cells.
    pub fn has_cells(self) -> bool
        ensures { IsTrue result ↔ (self ≡ Cells) }
    {
        match self {
            Format::Cells => true,
            Format::Rows => false,
            Format::RowsWithPaths => false,
        }
    }

    /// How many words a header of this format has before its fingerprints.
    pub(crate) fn word_count(self) -> usize
        ensures { result ≡ word_count (version_of self) }
    {
        if self.has_cells() { 9 } else { 10 }
    }

    /// How many bytes the mask of a record has.
    pub(crate) fn mask_size(self) -> usize
        ensures { result ≡ mask_size self }
    {
        if self.has_cells() { 0 } else { 8 }
    }

    /// Returns how many bytes a header of this format has.
    pub fn header_size(self) -> usize
        ensures exact { result ≡ header_size self }
        ensures most { result ≤ 96 }
    {
        8 * self.word_count() + 16
    }
}
