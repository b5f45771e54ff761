//! The commands of the program.
//!
//! To words that are no usage `run` answers `Usage` or out of memory, and nothing else: `recover`
//! puts its words into a list before it has judged all of them.

ghost use Rattle.std.specs.Prelude.{◌≡◌, ℕ, List, Some, IfOk, IfSome, MatchResult, map, string_bytes};
ghost use Rattle.std.specs.List.{AllZip};
ghost use Rattle.math_codec.specs.Faults.{Agrees, IsMemory, OnMemory};
ghost use Rattle.math_fields.specs.declared.goldilocks.F.{F};
ghost use Rattle.math_fields.specs.Elements.{same};
ghost use Rattle.goldmath_commands.specs.Evaluations.{
  AreEvalWords,
  IsEncodedPolynomial,
  PolynomialGrows,
  scan_polynomial,
  eval_line,
};
ghost use Rattle.goldmath_commands.specs.Commands.{AnswersEval, AnswersRecover};
ghost use Rattle.goldmath_commands.specs.Commands.{AreNoRecoverWords, AreWrongWords, IsUsageExactly};
ghost use Rattle.math_codec.specs.declared.codec.error.Error.TheVariants.{Memory};
ghost use Rattle.goldmath_commands.specs.declared.engine.ToolError.TheVariants.{Refused};

use crate::recovery::{recover_matrix, recovery_in};
use crate::text::{decimal_line, point_of};
use commonware_math::codec::{self, LengthRange, Mem, decode};
use commonware_math::fields::goldilocks::F;
use commonware_math::poly::Poly;
use std::alloc::{AllocError, Global};

/// Why the program gives no answer.
#[derive(Drop)]
pub enum ToolError {
    /// The words are those of no command.
    Usage,
    /// The words are a command's, and what it refuses is its input.
    Refused(codec::Error),
}

impl From<codec::Error> for ToolError {
    ghost from_gives = { λ error fault. fault ≡ Refused error };

    fn from(error: codec::Error) -> ToolError {
        ToolError::Refused(error)
    }
}

impl From<AllocError> for ToolError {
    ghost from_gives = { λ error fault. fault ≡ Refused (Memory error) };

    fn from(error: AllocError) -> ToolError {
        ToolError::Refused(codec::Error::Memory(error))
    }
}

/// The point, where the words are `eval` and a point.
fn eval_point(words: &[String]) -> Option<u64>
    ensures written { IfSome result (AreEvalWords (map string_bytes words.now)) }
    ensures found { (point : ℕ) → AreEvalWords (map string_bytes words.now) point
        → result ≡ Some point }
{
    match words {
        [command, point] if command.as_str() == "eval" => point_of(point.as_str()),
        _ => None,
    }
}

/// The polynomial that the bytes encode.
fn decode_polynomial(alloc: Global, bytes: &[u8]) -> Result<Poly<F>, codec::Error>
    ensures taken { IfOk result (IsEncodedPolynomial bytes.now) }
    ensures encoded { (p : List F) → IsEncodedPolynomial bytes.now p
        → MatchResult result (λ q. AllZip same q p) IsMemory }
    ensures exact { Agrees (λ _. tt) result (scan_polynomial bytes.now) }
    ensures memory { OnMemory result (PolynomialGrows bytes.now) }
{
    decode(alloc, bytes, &(LengthRange::at_most(u32::MAX), ()))
}

/// The value of the polynomial at `point` in decimal, and a line end.
fn value_line(alloc: Global, polynomial: &Poly<F>, point: u64) -> Mem<Vec<u8>>
    ensures { IfOk result (λ line. line.items ≡ eval_line polynomial.now point) }
{
    let value = polynomial.eval(alloc, &F::from(point))?;
    decimal_line(alloc, value.number())
}

/// The value at `point` of the polynomial that the bytes encode, in decimal, and a line end.
fn evaluate_polynomial(alloc: Global, point: u64, bytes: &[u8]) -> Result<Vec<u8>, codec::Error>
    ensures answer { IfOk result (λ line.
        (p : List F) × IsEncodedPolynomial bytes.now p × (line.items ≡ eval_line p point)) }
    ensures encoded { (p : List F) → IsEncodedPolynomial bytes.now p
        → MatchResult result (λ line. line.items ≡ eval_line p point) IsMemory }
    ensures exact { Agrees (λ _. tt) result (scan_polynomial bytes.now) }
    ensures memory { OnMemory result (PolynomialGrows bytes.now) }
{
    let polynomial = decode_polynomial(alloc, bytes)?;
    Ok(value_line(alloc, &polynomial, point)?)
}

/// The answer to `recover`, where the words are those of that command, and else `Usage`.
fn run_recover(alloc: Global, words: &[String], bytes: &[u8]) -> Result<Vec<u8>, ToolError>
    ensures words { IsUsageExactly (AreNoRecoverWords (map string_bytes words.now)) result }
    ensures recover { AnswersRecover (map string_bytes words.now) bytes.now result }
{
    match recovery_in(alloc, words)? {
        Some(recovery) => Ok(recover_matrix(alloc, &recovery, bytes)?),
        None => Err(ToolError::Usage),
    }
}

/// The answer to the command that the words are, given the bytes of standard input.
///
/// `eval POINT`: the bytes are one encoded polynomial over the Goldilocks field, of 1 to 2^32 - 1
/// coefficients, and nothing more; the answer is its value at POINT in decimal and a line end.
/// POINT is 1 to 20 ASCII digits that write a number below P.
///
/// `recover LG ROW..`: the bytes are one encoded matrix over the Goldilocks field, with at most
/// 2^24 rows, columns and cells, and nothing more. Row i holds, for each column, the value of a
/// polynomial at the power of the root of order 2^LG that the i-th ROW names. The answer is the
/// encoded matrix of 2^LG rows whose row i holds coefficient i of each polynomial: of the only one
/// that has these values and whose coefficients from the number of rows on are zero. LG is at most
/// 24, each ROW below 2^LG and none is there twice, all of 1 to 20 ASCII digits. Where there is not
/// a ROW for each row of the matrix, or 2^LG rows of its columns would be more than 2^24 cells, the
/// matrix is refused with `Invalid`.
///
/// Any other words are `Usage`; a fault of the words comes before any fault of the bytes. If the
/// words are good, and the bytes are no such encoding, it refuses with the first fault of the
/// bytes.
pub fn run(alloc: Global, words: &[String], bytes: &[u8]) -> Result<Vec<u8>, ToolError>
    ensures words { IsUsageExactly (AreWrongWords (map string_bytes words.now)) result }
    ensures eval { AnswersEval (map string_bytes words.now) bytes.now result }
    ensures recover { AnswersRecover (map string_bytes words.now) bytes.now result }
{
    match eval_point(words) {
        Some(point) => Ok(evaluate_polynomial(alloc, point, bytes)?),
        None => run_recover(alloc, words, bytes),
    }
}
