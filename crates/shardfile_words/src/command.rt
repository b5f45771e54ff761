//! The commands, and how each is used.

/// What the program can be told to do.
#[derive(Clone, Copy, PartialEq, Eq)]
pub enum Command {
    Split,
    Join,
    Repair,
    Check,
    Root,
    Clean,
}

/// How each command is used, one way a line.
const SPLIT: &str = "\
shardfile split [--force] [--root] [--to FOLDER] MIN TOTAL FILE
       shardfile split [--force] [--root] [--to FOLDER] --name NAME MIN TOTAL -
";

const JOIN: &str = "\
shardfile join [--force] [--all] [--partial] [--root HEX] FILE OUT
       shardfile join [--force] [--all] [--partial] [--root HEX] --shards OUT SHARD ..
";

const REPAIR: &str = "\
shardfile repair [--force] [--all] [--only N,M] [--root HEX] FILE
       shardfile repair [--force] [--all] [--only N,M] [--root HEX] --shards NAME SHARD ..
";

const CHECK: &str = "\
shardfile check [--all] [--root HEX] FILE
       shardfile check [--all] [--root HEX] --shards SHARD ..
";

const ROOT: &str = "\
shardfile root FILE
       shardfile root --shards SHARD ..
";

const CLEAN: &str = "shardfile clean FOLDER\n";

/// What else can be asked.
const OTHERS: &str = "\
shardfile help [COMMAND] | --help | -h
       shardfile --version | -V
";

impl Command {
    /// The command that a word names.
    pub fn from_word(word: &[u8]) -> Option<Command> {
        match word {
            b"split" => Some(Command::Split),
            b"join" => Some(Command::Join),
            b"repair" => Some(Command::Repair),
            b"check" => Some(Command::Check),
            b"root" => Some(Command::Root),
            b"clean" => Some(Command::Clean),
            _ => None,
        }
    }

    /// How it is used, one way a line.
    pub fn usage(self) -> &'static str {
        match self {
            Command::Split => SPLIT,
            Command::Join => JOIN,
            Command::Repair => REPAIR,
            Command::Check => CHECK,
            Command::Root => ROOT,
            Command::Clean => CLEAN,
        }
    }

    /// Whether its status says if the file can be restored.
    pub fn is_judging(self) -> bool {
        matches!(self, Command::Check | Command::Repair)
    }
}

/// Says on standard error how the command is used, or all where none is known.
pub fn print_usage(rt: &HostRuntime, command: Option<Command>) {
    let _told = match command {
        Some(command) => eprint!(rt; "usage: {}", command.usage()),
        None => eprint!(rt;
            "usage: {SPLIT}       {JOIN}       {REPAIR}       {CHECK}       {ROOT}       {CLEAN}       {OTHERS}"
        ),
    };
}
