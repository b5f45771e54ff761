//! One value, and nothing behind it.

ghost use Rattle.std.specs.Prelude.{◌≡◌, IfOk, MatchResult};
ghost use Rattle.math_codec.specs.Faults.{Agrees, IsMemory, OnMemory, scan_exactly};

use super::error::Error;
use super::read::Read;
use std::alloc::Global;

/// Reads one value that takes all of the bytes.
#[tactic(auto, unfolding(crate::specs::Faults::scan_exactly))]
fn decode_exactly<T: Read + Drop>(alloc: Global, bytes: &[u8], cfg: &T::Cfg) -> Result<T, Error>
    ensures taken { IfOk result (λ v. T.admits cfg.now v × (bytes.now ≡ T.spelling v)) }
    ensures memory { OnMemory result (T.grows cfg.now bytes.now) }
    ensures exact { Agrees (λ _. tt) result (scan_exactly (T.scan cfg.now) bytes.now) }
{
    let mut rest = bytes;
    let value = T::read_cfg(alloc, &mut rest, cfg)?;
    if !rest.is_empty() {
        return Err(Error::ExtraData(rest.len()));
    }
    Ok(value)
}

/// Reads one value that takes all of the bytes.
///
/// It refuses with the first fault from left to right. If memory runs out before that, it refuses
/// with `Memory`; if bytes are left after a value, with `ExtraData` and their number.
///
/// ```
/// let bytes = [1, 0, 0, 0, 0, 0, 0, 1, 44];
/// let cfg = (LengthRange::at_most(10), ());
/// decode::<Vec<F>>(alloc, &bytes, &cfg)?; // [300]
/// decode::<Vec<F>>(alloc, &bytes[..8], &cfg); // Err(EndOfBuffer)
/// ```
pub fn decode<T: Read + Drop>(alloc: Global, bytes: &[u8], cfg: &T::Cfg) -> Result<T, Error>
    // The bytes are the spelling of the value that is read.
    ensures taken { IfOk result (λ v. T.admits cfg.now v × (bytes.now ≡ T.spelling v)) }

    // Where the bytes are the spelling of a value, it is read, unless memory runs out.
    ensures again { (v : T) → T.admits cfg.now v → bytes.now ≡ T.spelling v
        → MatchResult result (λ w. T.alike w v) IsMemory }

    // Which fault it is.
    ensures memory { OnMemory result (T.grows cfg.now bytes.now) }
    ensures exact { Agrees (λ _. tt) result (scan_exactly (T.scan cfg.now) bytes.now) }
{
    decode_exactly(alloc, bytes, cfg)
}
