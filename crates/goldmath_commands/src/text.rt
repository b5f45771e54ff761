//! Numbers and faults as text: the points that words write, decimal lines, and the lines for
//! standard error.
ghost use Rattle.std.specs.Prelude.{◌≡◌, ◌<◌, ◌^◌, ℕ, ◌++◌, IfOk, IfSome, string_bytes};
ghost use Rattle.std.specs.Fmt.{decimal};
ghost use Rattle.goldmath_commands.specs.Lines.{line_end, line_of};
ghost use Rattle.goldmath_commands.specs.Numerals.{WritesNumber, WritesPoint};

use crate::engine::ToolError;
use commonware_math::codec::{Error, Mem};
use commonware_math::fields::goldilocks::MODULUS;
use std::alloc::Global;

/// The number that a word writes: 1 to 20 ASCII digits, the most significant first, of a number
/// below 2^64. Zeros may lead. Any other word gives `None`: a sign is refused.
pub fn number_in(word: &str) -> Option<u64>
    ensures written { IfSome result (WritesNumber word.now) }
    ensures found { (n : ℕ) → n < 2 ^ 64 → WritesNumber word.now n → result ≡ Some n }
{
    let digits = word.as_bytes();
    if digits.len() > 20 || !digits.iter().all(|byte| byte.is_ascii_digit()) {
        return None;
    }
    match word.parse::<u64>() {
        Ok(number) => Some(number),
        Err(_) => None,
    }
}

/// The point that a word writes, which is below the modulus. Any other word gives `None`: a number
/// of the modulus or more is not reduced.
pub fn point_of(word: &str) -> Option<u64>
    ensures written { IfSome result (WritesPoint word.now) }
    ensures found { (x : ℕ) → WritesPoint word.now x → result ≡ Some x }
{
    number_in(word).filter(|point| *point < MODULUS)
}

/// A number in decimal, without leading zeros, and a line end.
pub fn decimal_line(alloc: Global, n: u64) -> Mem<Vec<u8>>
    ensures { IfOk result (λ line. line.items ≡ decimal n ++ line_end) }
{
    let line = format!(in alloc; "{n}\n")?;
    Ok(line.into_bytes())
}

/// The line for standard error that tells of a fault, with its line end: how the program is used,
/// or `refused: ` and what is wrong.
pub fn fault_line(alloc: Global, fault: &ToolError) -> Mem<Vec<u8>>
    ensures { IfOk result (λ line. line.items ≡ line_of fault.now) }
{
    let line = match fault {
        ToolError::Usage => {
            format!(in alloc; "usage: goldmath eval POINT | goldmath recover LG ROW..\n")?
        }
        ToolError::Refused(error) => refusal_line(alloc, error)?,
    };
    Ok(line.into_bytes())
}

/// The line for a refusal, with its line end.
fn refusal_line(alloc: Global, error: &Error) -> Mem<String>
    ensures { IfOk result (λ line. string_bytes line ≡ line_of (ToolError.Refused error.now)) }
{
    match error {
        Error::Memory(_) => format!(in alloc; "refused: out of memory\n"),
        Error::EndOfBuffer => format!(in alloc; "refused: end of buffer\n"),
        Error::InvalidVarint => format!(in alloc; "refused: invalid varint\n"),
        Error::InvalidLength(length) => format!(in alloc; "refused: invalid length {length}\n"),
        Error::Invalid(name, text) => format!(in alloc; "refused: invalid {name}: {text}\n"),
        Error::ExtraData(count) => format!(in alloc; "refused: extra data {count}\n"),
    }
}
