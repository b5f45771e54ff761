//! What a call answers.

ghost use Rattle.std.specs.Prelude.{◌≡◌, ◌≢◌, ◌↔◌, ◌⊎◌, ◌≤◌, ◌-◌, ◌++◌, Result, length, replicate};
ghost use Rattle.math_codec.specs.Faults.{Fault, IsMemory, Reports};
ghost use Rattle.c_calls.specs.Statuses.{code_of, done, end_of_buffer, extra_data, out_of_memory, out_of_range, status_of_read, status_of_roots, status_of_rows, status_of_shards, text_of};

use commonware_math::codec::Error;
use commonware_math::shards;

/// What a call answers.
#[derive(Clone, Copy, Debug)]
pub enum Status {
    /// The call did what it says.
    Done = 0,
    /// Memory ran out.
    OutOfMemory = 1,
    /// A word is no element, or a byte that says whether a row is filled is neither 0 nor 1.
    OutOfRange = 2,
    /// A number of words, rows or columns is none that the call takes, or there is no room for the
    /// answer.
    WrongSize = 3,
    /// There are fewer than `min` distinct indices of shards, or fewer filled rows than
    /// coefficients.
    TooFew = 4,
    /// Not 1 <= `min` <= `total`.
    Mismatch = 5,
    /// An index is not below the total, or, for weights, not above the one before it.
    WrongIndex = 6,
    /// Two shards have one index, and differ.
    Conflict = 7,
    /// Nothing fits: no data have all of the shards, or no polynomial is near the values.
    Inconsistent = 8,
    /// The bytes end within a polynomial.
    EndOfBuffer = 9,
    /// The bytes begin with no length.
    InvalidVarint = 10,
    /// The length is zero.
    InvalidLength = 11,
    /// Bytes follow the polynomial.
    ExtraData = 12,
    /// A point is there twice.
    Repeated = 13,
    /// A block with a root has more than 2^16 shards.
    TooMany = 14,
    /// The data of the shards under the root have another root.
    WrongRoot = 15,
}

impl Status {
    /// The number of the status, as C has it.
    pub fn code(self) -> u32
        ensures { result ≡ code_of self }
    {
        self as u32
    }
}

/// The status of a read that was refused.
pub fn of_read(error: &Error) -> Status
    ensures refused { code_of result ≢ done }
    ensures memory { code_of result ≡ out_of_memory ↔ IsMemory error.now }
    ensures exact { (expected : Result (Unit {0}) Fault) → Reports error.now expected
        → code_of result ≢ out_of_memory → code_of result ≡ status_of_read expected }
    ensures statuses { (code_of result ≡ out_of_memory) ⊎ ((code_of result ≡ out_of_range)
        ⊎ ((end_of_buffer ≤ code_of result) × (code_of result ≤ extra_data))) }
{
    match error {
        Error::Memory(_) => Status::OutOfMemory,
        Error::EndOfBuffer => Status::EndOfBuffer,
        Error::InvalidVarint => Status::InvalidVarint,
        Error::InvalidLength(_) => Status::InvalidLength,
        Error::Invalid(_, _) => Status::OutOfRange,
        Error::ExtraData(_) => Status::ExtraData,
    }
}

/// The status of shards that give no data back.
pub fn of_shards(error: &shards::Error) -> Status
    ensures { code_of result ≡ status_of_shards error.now }
{
    match error {
        shards::Error::Memory(_) => Status::OutOfMemory,
        shards::Error::TooFew => Status::TooFew,
        shards::Error::Mismatch => Status::Mismatch,
        shards::Error::Index => Status::WrongIndex,
        shards::Error::Conflict => Status::Conflict,
        shards::Error::Inconsistent => Status::Inconsistent,
    }
}

/// The status of rows of systematic shards that are refused.
pub fn of_rows(error: &systematic_shards::Error) -> Status
    ensures { code_of result ≡ status_of_rows error.now }
{
    match error {
        systematic_shards::Error::Memory(_) => Status::OutOfMemory,
        systematic_shards::Error::TooFew => Status::TooFew,
        systematic_shards::Error::Mismatch => Status::Mismatch,
        systematic_shards::Error::Sizes => Status::WrongSize,
        systematic_shards::Error::Index => Status::WrongIndex,
        systematic_shards::Error::Word => Status::OutOfRange,
        systematic_shards::Error::Conflict => Status::Conflict,
        systematic_shards::Error::Inconsistent => Status::Inconsistent,
    }
}

/// The status of a commitment or of a join under a root that is refused.
pub fn of_roots(error: &shard_roots::Error) -> Status
    ensures { code_of result ≡ status_of_roots error.now }
{
    match error {
        shard_roots::Error::Memory(_) => Status::OutOfMemory,
        shard_roots::Error::TooMany => Status::TooMany,
        shard_roots::Error::Masks => Status::Inconsistent,
        shard_roots::Error::Rows(rows) => of_rows(rows),
        shard_roots::Error::Root => Status::WrongRoot,
    }
}

/// What a status says, in at most 31 ASCII characters.
fn text(status: u32) -> &'static str
    ensures text { result.now ≡ text_of status }
    ensures fits { length (text_of status) ≤ 31 }
{
    match status {
        0 => "done",
        1 => "out of memory",
        2 => "out of range",
        3 => "wrong size",
        4 => "too few",
        5 => "mismatch",
        6 => "wrong index",
        7 => "unequal shards of one index",
        8 => "nothing fits",
        9 => "end of buffer",
        10 => "invalid varint",
        11 => "invalid length",
        12 => "extra data",
        13 => "repeated point",
        14 => "more than 65536 shards",
        15 => "the root of no data",
        _ => "no status",
    }
}

/// Writes the text of a status, and zeros behind it.
pub fn write_text(status: u32, out: &mut [u8])
    requires { 32 ≤ length out.old }
    ensures { out.new ≡ text_of status ++ replicate (length out.old - length (text_of status)) 0 }
{
    let bytes = text(status).as_bytes();
    out[..bytes.len()].copy_from_slice(bytes);
    out[bytes.len()..].fill(0);
}
