//! What a run ends with.

ghost use Rattle.std.specs.Prelude.{◌≡◌};
ghost use Rattle.shardfile_commands.specs.Statuses.{code_of};

/// What a run ends with, by which a script can go on. `check` and `repair` judge shard files: their
/// statuses say whether the file can be restored. Other commands are done, refused or misused.
#[derive(Clone, Copy, PartialEq, Eq)]
pub enum Status {
    /// It is done; where shard files are judged, all are there and fit.
    Done = 0,
    /// It is refused; where shard files are judged, not all are there and fit, and the file can be
    /// restored.
    Refused = 1,
    /// The words are wrong.
    Usage = 2,
    /// The file cannot be restored: too few shards are there, or some block is lost.
    Lost = 3,
    /// Nothing could be judged.
    Unknown = 4,
}

impl Status {
    /// The number that the program ends with.
    pub fn code(self) -> u8
        ensures { result ≡ code_of self }
    {
        self as u8
    }
}
