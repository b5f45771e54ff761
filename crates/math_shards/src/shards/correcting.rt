//! Shards to data, where some shards are wrong.
//!
//! The shards of one index have equal cells if none of them is wrong. So an index with unequal
//! cells tells nothing of the data, and counts as missing until they are known. The rows of the m
//! settled indices are corrected: at most (m - `min`) / 2 of them are wrong. Then there is one list
//! of data at most, since two would agree at `min` indices or more. The shards that are left out
//! are those that differ from the values of the data's polynomials at their index.
//!
//! For example, `min` is 1, `total` is 5, and each shard of the data has the cells 1 2 0. Six
//! shards are handed in: of index 0 with 9 9 9 and with 1 2 0, of index 1 with 1 2 0, of index 2
//! with 1 2 5, and of index 3 with 1 2 0, twice. Index 0 has unequal cells, so m is 3, and one row
//! may be wrong: row 2 is dropped. The data are the word 1. The shards at the positions 0 and 3 are
//! left out; the other one of index 0 is right.
//!
//! All shards are joined first, as `join` does it: sound shards, as most are, take one join and no
//! correction. Nobody knows which cells of an index are wrong; if both counted as wrong, a forged
//! copy would take away two right shards. For each shard all are searched for its index. That needs
//! no table and no sorting, and for the numbers of shards in use the transforms take more time.

ghost use Rattle.std.specs.Prelude.{◌≡◌, ◌*◌, ◌<◌, ◌≤◌, ◌^◌, ℕ, List, All, length, take};
ghost use Rattle.std.specs.Prelude.{IfOk, IfErr, IfNone, IfSome, IsSome, MatchResult, false, replicate};
ghost use Rattle.math_transforms.specs.Matrices.{IsOfSize};
ghost use Rattle.math_shards.specs.Correcting.{AreCorrected, AreCorrectedRows, ArePositionsWithout};
ghost use Rattle.math_shards.specs.Correcting.{AreSettledRows, AreSound, CorrectTo, HaveFewCoefficients};
ghost use Rattle.math_shards.specs.Correcting.{IsDueCorrecting, RefusesCorrecting, is_settled, settled_indices};
ghost use Rattle.math_shards.specs.Correcting.{IsRowOf};
ghost use Rattle.math_shards.specs.Joining.{ArePolynomialsOf, IsDueBeside};
ghost use Rattle.math_shards.specs.Joining.{IsMemory, IsSound};
ghost use Rattle.math_shards.specs.PackedWords.{HoldsWords};
ghost use Rattle.math_shards.specs.declared.shards.Error.TheVariants.{TooFew, Mismatch, Index};
ghost use Rattle.math_shards.specs.declared.shards.Error.TheVariants.{Conflict, Inconsistent};

use super::distinct::distinct;
use super::joining::{are_equal, check_numbers, fitted_elements};
use super::unpacking::{PackedData, data_count};
use super::{Error, Shard};
use math_base::algebra::Mem;
use math_fields::goldilocks::F;
use math_ntt::ntt::{EvaluationVector, PolynomialVector};
use math_splitting::shards::Layout;
use math_transforms::transform::size_of;
use std::alloc::{AllocError, Global};

/// Data, and the shards that were left out.
#[derive(Debug, Drop)]
pub struct Joined {
    /// The data.
    pub words: Vec<u64>,
    /// By rising number, the positions, among the shards that were handed in, of those that are not
    /// shards of the data.
    pub left_out: Vec<usize>,
}

/// Gives the data of the shards back, however some of them are wrong, and says which these are.
///
/// An index with unequal cells counts as missing; those of its shards that are shards of the data
/// are not left out in the end. Of the m distinct indices that remain at most (m - `min`) / 2 have
/// wrong shards, so these are the only such data. If more are wrong, there may be no such data, or
/// others, which it then answers. If `join` takes the shards, all are right, and it answers the
/// same data.
///
/// It refuses as `join` does, but never with `Conflict`: no shard at all with `TooFew`; the first
/// shard with other numbers with `Mismatch`, or with an index out of range with `Index`; m below
/// `min` with `TooFew`; and shards of no such data with `Inconsistent`.
///
/// It joins shards that `join` takes, and leaves none out. For others it counts the indices that
/// remain, and then takes memory for several times N rows of as many cells as a shard has, where N
/// is `total` rounded up to a power of two.
/// It then compares the cells of shards of one index; for each shard it reads the indices of all
/// shards to find these.
///
/// ```
/// let mut shards = split(alloc, &[4, 6, 8], 2, 5)?;
/// shards[3].cells[0] = F::from(0);
/// join_corrected(alloc, &shards)?; // Joined { words: [4, 6, 8], left_out: [3] }
/// ```
pub fn join_corrected(alloc: Global, shards: &[Shard]) -> Result<Joined, Error>
    ensures ok { IfOk result (λ j. AreCorrected j.words.items j.left_out.items shards.now) }
    ensures found { (words : List ℕ) → CorrectTo words shards.now
        → MatchResult result (λ j. j.words.items ≡ words) IsMemory }
    ensures too_few { RefusesCorrecting result shards.now TooFew }
    ensures mismatch { RefusesCorrecting result shards.now Mismatch }
    ensures index { RefusesCorrecting result shards.now Index }
    ensures conflict { RefusesCorrecting result shards.now Conflict }
    ensures inconsistent { RefusesCorrecting result shards.now Inconsistent }
{
    corrected_words(alloc, shards)
}

/// The words of the data of the shards and the positions of those that are left out, or what is
/// wrong.
fn corrected_words(alloc: Global, shards: &[Shard]) -> Result<Joined, Error>
    ensures ok { IfOk result (λ j. AreCorrected j.words.items j.left_out.items shards.now) }
    ensures err { IfErr result (IsDueCorrecting shards.now) }
{
    let (data, left_out) = join_packed_corrected(alloc, shards)?;
    let words = data.words(alloc)?;
    Ok(Joined { words, left_out })
}

/// Gives the data of the shards back, packed, and the positions of those that are left out, as
/// `join_corrected` does.
///
/// ```
/// let mut shards = split(alloc, &[4, 6, 8], 2, 5)?;
/// shards[3].cells[0] = F::from(0);
/// let (data, left_out) = join_packed_corrected(alloc, &shards)?;
/// data.word(2); // 8
/// left_out; // [3]
/// ```
pub fn join_packed_corrected(
    alloc: Global,
    shards: &[Shard],
) -> Result<(PackedData, Vec<usize>), Error>
    ensures ok { IfOk result (λ j. (words : List ℕ) × HoldsWords words j.0
        × AreCorrected words j.1.items shards.now) }
    ensures err { IfErr result (IsDueCorrecting shards.now) }
{
    let Some(first) = shards.first() else {
        return Err(Error::TooFew);
    };
    check_numbers(shards, first)?;
    let layout = Layout::new(first.min, first.total, first.cells.len());
    if let Some(data) = fitted_elements(alloc, shards, layout)? {
        return Ok((data, Vec::new(alloc)));
    }
    let joined = corrected_rows(alloc, shards, first)?;
    Ok(joined)
}

/// The data of sound shards and the positions of those that are left out, from the rows of the
/// settled indices; or what is wrong.
fn corrected_rows(
    alloc: Global,
    shards: &[Shard],
    first: &Shard,
) -> Result<(PackedData, Vec<usize>), Error>
    requires { AreSound first.now shards.now }
    ensures ok { IfOk result (λ j. (words : List ℕ) × HoldsWords words j.0
        × AreCorrected words j.1.items shards.now) }
    ensures err { IfErr result (IsDueBeside ⊥ (settled_indices first.now.total shards.now)
        (λ words. CorrectTo words shards.now) first.now shards.now) }
{
    if count_settled(alloc, shards, first)? < first.min as usize {
        return Err(Error::TooFew);
    }
    let Some(polynomials) = corrected_polynomials(alloc, shards, first)? else {
        return Err(Error::Inconsistent);
    };
    let Some(data) = data_of(alloc, &polynomials, first.min, first.cells.len())? else {
        return Err(Error::Inconsistent);
    };
    let left_out = unlike_rows(alloc, shards, &polynomials.evaluate(alloc)?)?;
    Ok((data, left_out))
}

/// The polynomials that are corrected from the rows of the settled indices; `None` where there are
/// none within the radius.
fn corrected_polynomials(
    alloc: Global,
    shards: &[Shard],
    first: &Shard,
) -> Mem<Option<PolynomialVector<F>>>
    requires shards { AreSound first.now shards.now }
    requires enough { first.now.min ≤ settled_indices first.now.total shards.now }
    ensures some { IfOk result (λ answer. IfSome answer (AreCorrectedRows first.now shards.now)) }
    ensures none { IfOk result
        (λ answer. IfNone answer ((words : List ℕ) → ¬ (CorrectTo words shards.now))) }
{
    let values = settled_rows(alloc, shards, first)?;
    let Some(corrected) = values.correct(alloc, first.min as usize)? else {
        return Ok(None);
    };
    Ok(Some(corrected.polynomials))
}

/// The first `min` rows of coefficients, one after the other.
fn first_rows(alloc: Global, polynomials: &PolynomialVector<F>, min: u32) -> Mem<Vec<F>>
    requires { min ≤ polynomials.now.rows }
    ensures { IfOk result (λ elements.
        elements.items ≡ take (min * polynomials.now.cols) polynomials.now.cells) }
{
    let mut elements = Vec::new(alloc);
    for row in polynomials.coefficients_up_to(min as usize) {
        elements.extend_from_slice(row)?;
    }
    Ok(elements)
}

/// The data whose polynomials these are, where there are such data.
fn data_of(
    alloc: Global,
    polynomials: &PolynomialVector<F>,
    min: u32,
    width: usize,
) -> Mem<Option<PackedData>>
    requires { HaveFewCoefficients min width polynomials.now }
    ensures some { IfOk result (λ answer. IfSome answer (λ found. (words : List ℕ)
        × HoldsWords words found × ArePolynomialsOf words min polynomials.now)) }
    ensures none { (words : List ℕ) → All (λ word. word < 2 ^ 64) words → length words < 2 ^ 64
        → ArePolynomialsOf words min polynomials.now → IfOk result (λ answer. IsSome answer) }
{
    let elements = first_rows(alloc, polynomials, min)?;
    let Some(count) = data_count(&elements, min, width) else {
        return Ok(None);
    };
    Ok(Some(PackedData { elements, count }))
}

/// Whether each shard that has the index of this one has its cells.
fn is_settled(shards: &[Shard], shard: &Shard) -> bool
    requires { All (λ s. length s.cells.items ≡ length shard.now.cells.items) shards.now }
    ensures { result ≡ is_settled shards.now shard.now }
{
    for other in shards {
        if other.index == shard.index && !are_equal(&other.cells, &shard.cells) {
            return false;
        }
    }
    true
}

/// How many settled indices there are. Takes memory for the indices.
fn count_settled(alloc: Global, shards: &[Shard], first: &Shard) -> Mem<usize>
    requires { All (IsSound first.now) shards.now }
    ensures { IfOk result (λ n. n ≡ settled_indices first.now.total shards.now) }
{
    let mut indices = Vec::with_capacity(alloc, shards.len())?;
    for shard in shards {
        if is_settled(shards, shard) {
            indices.push(shard.index)?;
        }
    }
    Ok(distinct(indices).len())
}

/// The vector of values for rows of the layout, of which none is filled.
fn no_rows(alloc: Global, layout: Layout) -> Mem<EvaluationVector<F>>
    ensures size { IfOk result (λ e. IsOfSize e.matrix (2 ^ layout.lg) layout.width) }
    ensures filled { IfOk result (λ e. e.filled ≡ replicate (2 ^ layout.lg) false) }
{
    if size_of(layout.lg).checked_mul(layout.width).is_none() {
        return Err(AllocError);
    }
    EvaluationVector::empty(alloc, layout.lg as usize, layout.width)
}

/// The vector of values in which the row of each settled index is filled with the cells of its
/// shards.
fn settled_rows(alloc: Global, shards: &[Shard], first: &Shard) -> Mem<EvaluationVector<F>>
    requires { AreSound first.now shards.now }
    ensures { IfOk result (λ e. (lg : ℕ) × AreSettledRows lg first.now shards.now e) }
{
    let layout = Layout::new(first.min, first.total, first.cells.len());
    let mut values = no_rows(alloc, layout)?;
    for shard in shards {
        if is_settled(shards, shard) {
            values.fill_row(alloc, shard.index as usize, &shard.cells)?;
        }
    }
    Ok(values)
}

/// By rising number the positions of the shards that differ from the row of their index.
fn unlike_rows(alloc: Global, shards: &[Shard], values: &EvaluationVector<F>) -> Mem<Vec<usize>>
    requires rows { All (λ s. s.index < values.now.matrix.rows) shards.now }
    requires cells { All (λ s. length s.cells.items ≡ values.now.matrix.cols) shards.now }
    ensures { IfOk result (λ out. ArePositionsWithout (IsRowOf values.now.matrix)
        shards.now out.items) }
{
    let mut out = Vec::new(alloc);
    for (position, shard) in shards.iter().enumerate() {
        if !are_equal(values.row(shard.index as usize), &shard.cells) {
            out.push(position)?;
        }
    }
    Ok(out)
}
