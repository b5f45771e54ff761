//! The library for callers in C: polynomials over the Goldilocks field as words in the caller's
//! memory.
//!
//! Each function is a few lines over safe ones of `c_calls`, which do the work and have its
//! contracts over elements. It answers a status; `include/commonware_math.h` says what a caller has
//! to know. A slice crosses as a pointer and a length, and a `Global` takes no place among the
//! arguments.
//!
//! No export takes a raw pointer: the same clauses as elsewhere say what is written, and there is
//! no unsafe code. An export returns a number and no pointer. So the text of a status is written
//! into the caller's bytes, the name of a status is an inline function of the header, and the
//! version is one number: 10000 times the major one, 100 times the minor one, and the patch. The
//! words of data and of all shards are below 2^57, which no memory holds, so no number of bits or
//! bytes is past a `size_t`.
#![tactic(auto)]

ghost use Rattle.std.specs.Prelude.{◌≡◌, ◌≢◌, ◌↔◌, ◌<◌, ◌≤◌, ◌-◌, ◌+◌, ◌*◌, ◌++◌, ◌⊎◌, ℕ, List, length, replicate, All};
ghost use Rattle.math_numbers.specs.Goldilocks.{P};
ghost use Rattle.math_theory.specs.Interpolation.{AreApart};
ghost use Rattle.math_theory.specs.Recovery.{count_true};
ghost use Rattle.math_fields.specs.Elements.{number, residue, same};
ghost use Rattle.math_base.specs.Polynomials.{value_in_ring};
ghost use Rattle.math_transforms.specs.RootWeights.{AreRising};
ghost use Rattle.c_calls.specs.Statuses.{TestsSizes, done, end_of_buffer, extra_data, inconsistent, out_of_memory, out_of_range, repeated, too_few, wrong_size, mismatch, wrong_index, status_of_read, status_of_shards, text_of};
ghost use Rattle.c_calls.specs.WordCorrections.{AreCorrectedWords, HaveNearRows};
ghost use Rattle.c_calls.specs.WordDecodings.{AreDecodedWords, HasDecodingSizes, HasNearWords};
ghost use Rattle.c_calls.specs.WordElements.{AreElements, elements, goldilocks};
ghost use Rattle.c_calls.specs.WordRows.{AreWordValues, AreRecoveredWords, AreFilledElements, HasRows, HasRowsFor, truth};
ghost use Rattle.c_calls.specs.WordWeights.{AreWordWeights, AreWordWeightsAtRoots};
ghost use Rattle.c_calls.specs.WordShards.{AreRefused, AreRefusedCorrecting, AreRowsOf, AreWordsOfShards, DoCorrectTo, DoJoinTo, HaveShardSizes};
ghost use Rattle.systematic_shards.specs.Splits.{IsSplit};
ghost use Rattle.math_shards.specs.declared.shards.Error.{Error};
ghost use Rattle.c_calls.specs.ShardBytes.{AreBlockRefused, AreBlockRefusedCorrecting, AreByteRowsOf, AreBytesOfShards, DoCorrectToBlock, DoJoinToBlock, HaveShardBytes, SpellElements};
ghost use Rattle.commonware_math_c.specs.Version.{version};
ghost use Rattle.c_calls.specs.WordEncodings.{IsCoefficientCount, IsEncodedBy, StandInFront, polynomial_spelling, scan_polynomial};

pub mod roots;
pub mod systematic;

use c_calls::blocks::ByteShards;
use c_calls::corrections::correct_words;
use c_calls::decodings::{are_decoding_sizes, decode_words};
use c_calls::elements::{are_elements, elements_below};
use c_calls::in_hand::ShardsInHand;
use c_calls::joining::write_corrected;
use c_calls::polynomials::is_coefficient_count;
use c_calls::rows::{FilledRows, are_filled_elements, are_marks, lg_of_rows, lg_of_these_rows};
use c_calls::shards::{WordShards, is_split};
use c_calls::status::Status;
use c_calls::{blocks, polynomials, rows, shards, status, values, weights};
use commonware_math::fields::goldilocks::MODULUS;
use std::alloc::Global;
use std::num::NonZeroU32;
use wide_machine::is_wide;

/// Writes the value at x of the polynomial with these coefficients, from the constant upwards.
#[unsafe(no_mangle)]
pub extern "C" fn cwm_eval(alloc: Global, coefficients: &[u64], x: u64, out: &mut u64) -> u32
    ensures value { result ≡ done
        → out.new ≡ number (value_in_ring goldilocks (elements coefficients.now) (residue x)) }
    ensures taken { result ≡ done
        → IsCoefficientCount (length coefficients.now) × AreElements coefficients.now × (x < P) }
    ensures kept { result ≢ done → out.new ≡ out.old }
    ensures range { result ≡ out_of_range → ¬ (AreElements coefficients.now × (x < P)) }
    ensures first { IsCoefficientCount (length coefficients.now) → P ≤ x → result ≡ out_of_range }
    ensures size { result ≡ wrong_size ↔ ¬ (IsCoefficientCount (length coefficients.now)) }
    ensures statuses { result ≤ wrong_size }
{
    if !is_coefficient_count(coefficients.len()) {
        return Status::WrongSize.code();
    }
    if x >= MODULUS {
        return Status::OutOfRange.code();
    }
    match values::value(alloc, coefficients, x) {
        Ok(Some(value)) => {
            *out = value;
            Status::Done.code()
        }
        Ok(None) => Status::OutOfRange.code(),
        Err(_) => Status::OutOfMemory.code(),
    }
}

/// Puts the values at the powers of the root in place of the coefficients, in each column.
#[unsafe(no_mangle)]
pub extern "C" fn cwm_evaluate(alloc: Global, cells: &mut [u64], cols: usize) -> u32
    ensures values { result ≡ done → AreWordValues cols cells.old cells.new }
    ensures kept { result ≢ done → cells.new ≡ cells.old }
    ensures range { result ≡ out_of_range → ¬ (AreElements cells.old) }
    ensures size { result ≡ wrong_size ↔ ¬ (HasRows (length cells.old) cols) }
    ensures statuses { result ≤ wrong_size }
{
    let Some(lg) = lg_of_rows(cells.len(), cols) else {
        return Status::WrongSize.code();
    };
    let items = match elements_below(alloc, cells) {
        Ok(Some(items)) => items,
        Ok(None) => return Status::OutOfRange.code(),
        Err(_) => return Status::OutOfMemory.code(),
    };
    match rows::evaluate(alloc, cells, items, lg, cols) {
        Ok(()) => Status::Done.code(),
        Err(_) => Status::OutOfMemory.code(),
    }
}

/// Puts the coefficients in place of the values at the powers of the root, in each column.
#[unsafe(no_mangle)]
pub extern "C" fn cwm_interpolate(alloc: Global, cells: &mut [u64], cols: usize) -> u32
    ensures values { result ≡ done → AreWordValues cols cells.new cells.old }
    ensures kept { result ≢ done → cells.new ≡ cells.old }
    ensures range { result ≡ out_of_range → ¬ (AreElements cells.old) }
    ensures size { result ≡ wrong_size ↔ ¬ (HasRows (length cells.old) cols) }
    ensures statuses { result ≤ wrong_size }
{
    let Some(lg) = lg_of_rows(cells.len(), cols) else {
        return Status::WrongSize.code();
    };
    let items = match elements_below(alloc, cells) {
        Ok(Some(items)) => items,
        Ok(None) => return Status::OutOfRange.code(),
        Err(_) => return Status::OutOfMemory.code(),
    };
    match rows::interpolate(alloc, cells, items, lg, cols) {
        Ok(()) => Status::Done.code(),
        Err(_) => Status::OutOfMemory.code(),
    }
}

/// Puts the coefficients of the polynomials that fit the filled rows in place of the cells, in each
/// column.
#[unsafe(no_mangle)]
pub extern "C" fn cwm_recover(alloc: Global, cells: &mut [u64], cols: usize, filled: &[u8]) -> u32
    ensures recovered { result ≡ done → AreRecoveredWords cols cells.old filled.now cells.new }
    ensures kept { result ≢ done → cells.new ≡ cells.old }
    ensures range { result ≡ out_of_range ↔ HasRowsFor (length cells.old) cols (length filled.now)
        × ¬ (All (λ b. b ≤ 1) filled.now × AreFilledElements cols cells.old filled.now) }
    ensures size { result ≡ wrong_size
        ↔ ¬ (HasRowsFor (length cells.old) cols (length filled.now)) }
    ensures statuses { result ≤ wrong_size }
{
    let Some(lg) = lg_of_these_rows(cells.len(), cols, filled.len()) else {
        return Status::WrongSize.code();
    };
    if !are_marks(filled) || !are_filled_elements(cells, cols, filled) {
        return Status::OutOfRange.code();
    }
    let rows = FilledRows {
        lg,
        cols,
        bytes: filled,
    };
    match rows::recover(alloc, cells, &rows) {
        Ok(()) => Status::Done.code(),
        Err(_) => Status::OutOfMemory.code(),
    }
}

/// Puts the coefficients of the only polynomials that fit all filled rows but so few in place of
/// the cells, in each column, and writes these rows.
#[unsafe(no_mangle)]
pub extern "C" fn cwm_correct(
    alloc: Global,
    cells: &mut [u64],
    cols: usize,
    filled: &[u8],
    count: usize,
    wrong: &mut [usize],
    written: &mut usize,
) -> u32
    ensures corrected { result ≡ done → AreCorrectedWords cols count
        cells.old filled.now cells.new wrong.old wrong.new written.new }
    ensures kept { result ≢ done
        → (cells.new ≡ cells.old) × (wrong.new ≡ wrong.old) × (written.new ≡ written.old) }
    ensures none { result ≡ inconsistent → ¬ (HaveNearRows cols count cells.old filled.now) }
    ensures few { result ≡ too_few → count_true (truth filled.now) < count }
    ensures enough { result ≡ inconsistent → count ≤ count_true (truth filled.now) }
    ensures range { result ≡ out_of_range ↔ (HasRowsFor (length cells.old) cols (length filled.now)
        × (length filled.now ≤ 2 * length wrong.old + 1))
        × ¬ (All (λ b. b ≤ 1) filled.now × AreFilledElements cols cells.old filled.now) }
    ensures size { result ≡ wrong_size ↔ ¬ (HasRowsFor (length cells.old) cols (length filled.now)
        × (length filled.now ≤ 2 * length wrong.old + 1)) }
    ensures statuses { (result ≤ too_few) ⊎ (result ≡ inconsistent) }
{
    let Some(lg) = lg_of_these_rows(cells.len(), cols, filled.len()) else {
        return Status::WrongSize.code();
    };
    if filled.len() / 2 > wrong.len() {
        return Status::WrongSize.code();
    }
    if !are_marks(filled) || !are_filled_elements(cells, cols, filled) {
        return Status::OutOfRange.code();
    }
    let rows = FilledRows {
        lg,
        cols,
        bytes: filled,
    };
    match correct_words(alloc, cells, &rows, count, wrong, written) {
        Ok(status) => status.code(),
        Err(_) => Status::OutOfMemory.code(),
    }
}

/// Writes the weights by which the values at the points give the value at x.
#[unsafe(no_mangle)]
pub extern "C" fn cwm_weights(alloc: Global, points: &[u64], x: u64, weights: &mut [u64]) -> u32
    ensures weights { result ≡ done → AreWordWeights x points.now weights.new }
    ensures kept { result ≢ done → weights.new ≡ weights.old }
    ensures range { result ≡ out_of_range ↔ (length weights.old ≡ length points.now)
        × ¬ (AreElements points.now × (x < P)) }
    ensures size { result ≡ wrong_size ↔ length weights.old ≢ length points.now }
    ensures statuses { result ≤ wrong_size }
{
    if weights.len() != points.len() {
        return Status::WrongSize.code();
    }
    if x >= MODULUS || !are_elements(points) {
        return Status::OutOfRange.code();
    }
    match weights::write_weights(alloc, points, x, weights) {
        Ok(()) => Status::Done.code(),
        Err(_) => Status::OutOfMemory.code(),
    }
}

/// Writes the weights by which the values at some powers of a root of unity give the value at x.
#[unsafe(no_mangle)]
pub extern "C" fn cwm_weights_at_roots(
    alloc: Global,
    total: u32,
    indices: &[u32],
    x: u64,
    weights: &mut [u64],
) -> u32
    ensures weights { result ≡ done → AreWordWeightsAtRoots x total indices.now weights.new }
    ensures kept { result ≢ done → weights.new ≡ weights.old }
    ensures range { result ≡ out_of_range
        ↔ ((0 < total) × (length weights.old ≡ length indices.now)) × (P ≤ x) }
    ensures size { result ≡ wrong_size
        ↔ ¬ ((0 < total) × (length weights.old ≡ length indices.now)) }
    ensures index { result ≡ wrong_index
        ↔ ((0 < total) × (length weights.old ≡ length indices.now)) × (x < P)
        × ¬ (AreRising total indices.now) }
    ensures statuses { (result ≤ wrong_size) ⊎ (result ≡ wrong_index) }
{
    let Some(nonzero) = NonZeroU32::new(total) else {
        return Status::WrongSize.code();
    };
    if weights.len() != indices.len() {
        return Status::WrongSize.code();
    }
    if x >= MODULUS {
        return Status::OutOfRange.code();
    }
    if !weights::are_rising(total, indices) {
        return Status::WrongIndex.code();
    }
    match weights::write_weights_at_roots(alloc, nonzero, indices, x, weights) {
        Ok(()) => Status::Done.code(),
        Err(_) => Status::OutOfMemory.code(),
    }
}

/// Writes the coefficients of the only polynomial that differs from so few of the values at the
/// points, and the places at which it does.
#[unsafe(no_mangle)]
pub extern "C" fn cwm_decode(
    alloc: Global,
    points: &[u64],
    values: &[u64],
    coefficients: &mut [u64],
    wrong: &mut [usize],
    count: &mut usize,
) -> u32
    ensures decoded { result ≡ done
        → AreDecodedWords points.now values.now coefficients.new wrong.old wrong.new count.new }
    ensures kept { result ≢ done
        → (coefficients.new ≡ coefficients.old) × (wrong.new ≡ wrong.old)
        × (count.new ≡ count.old) }
    ensures none { result ≡ inconsistent
        → ¬ (HasNearWords points.now values.now (length coefficients.old)) }
    ensures repeated { result ≡ repeated → ¬ (AreApart same (elements points.now)) }
    ensures distinct { result ≡ inconsistent → AreApart same (elements points.now) }
    ensures range { result ≡ out_of_range
        ↔ HasDecodingSizes (length points.now) (length values.now)
        (length coefficients.old) (length wrong.old)
        × ¬ (AreElements points.now × AreElements values.now) }
    ensures size { result ≡ wrong_size ↔ ¬ (HasDecodingSizes (length points.now) (length values.now)
        (length coefficients.old) (length wrong.old)) }
    ensures statuses { (result ≤ wrong_size) ⊎ ((result ≡ inconsistent) ⊎ (result ≡ repeated)) }
{
    if !are_decoding_sizes(points.len(), values.len(), coefficients.len(), wrong.len()) {
        return Status::WrongSize.code();
    }
    if !are_elements(points) || !are_elements(values) {
        return Status::OutOfRange.code();
    }
    match decode_words(alloc, points, values, coefficients, wrong, count) {
        Ok(status) => status.code(),
        Err(_) => Status::OutOfMemory.code(),
    }
}

/// Writes the encoding of the polynomial with these coefficients over the first bytes of `out`.
#[unsafe(no_mangle)]
pub extern "C" fn cwm_encode_poly(
    alloc: Global,
    coefficients: &[u64],
    out: &mut [u8],
    written: &mut usize,
) -> u32
    ensures encoded { result ≡ done
        → StandInFront (polynomial_spelling coefficients.now) out.old out.new }
    ensures count { result ≡ done → written.new ≡ length (polynomial_spelling coefficients.now) }
    ensures taken { result ≡ done
        → IsCoefficientCount (length coefficients.now) × AreElements coefficients.now }
    ensures kept { result ≢ done → (out.new ≡ out.old) × (written.new ≡ written.old) }
    ensures first { ¬ (IsCoefficientCount (length coefficients.now)) → result ≡ wrong_size }
    ensures range { result ≡ out_of_range
        ↔ IsCoefficientCount (length coefficients.now) × ¬ (AreElements coefficients.now) }
    ensures size { result ≡ wrong_size → ¬ (IsCoefficientCount (length coefficients.now)
        × (length (polynomial_spelling coefficients.now) ≤ length out.old)) }
    ensures statuses { result ≤ wrong_size }
{
    if !is_coefficient_count(coefficients.len()) {
        return Status::WrongSize.code();
    }
    if !are_elements(coefficients) {
        return Status::OutOfRange.code();
    }
    match polynomials::encode(alloc, coefficients, out) {
        Ok(Some(n)) => {
            *written = n;
            Status::Done.code()
        }
        Ok(None) => Status::WrongSize.code(),
        Err(_) => Status::OutOfMemory.code(),
    }
}

/// Writes the coefficients of the polynomial that the bytes encode over the first words of `out`.
/// It takes no memory, and never answers that memory ran out.
#[unsafe(no_mangle)]
pub extern "C" fn cwm_decode_poly(
    alloc: Global,
    bytes: &[u8],
    out: &mut [u64],
    count: &mut usize,
) -> u32
    ensures decoded { result ≡ done → (p : List ℕ) × IsEncodedBy p bytes.now
        × (count.new ≡ length p) × StandInFront p out.old out.new }
    ensures kept { result ≢ done → (out.new ≡ out.old) × (count.new ≡ count.old) }
    ensures size { result ≡ wrong_size
        → (p : List ℕ) × IsEncodedBy p bytes.now × (length out.old < length p) }
    ensures fault { result ≢ wrong_size → result ≡ status_of_read (scan_polynomial bytes.now) }
    ensures statuses { (result ≡ done) ⊎ ((result ≡ out_of_range) ⊎ ((result ≡ wrong_size)
        ⊎ ((end_of_buffer ≤ result) × (result ≤ extra_data)))) }
{
    match polynomials::decode(alloc, bytes, out) {
        Ok(Some(n)) => {
            *count = n;
            Status::Done.code()
        }
        Ok(None) => Status::WrongSize.code(),
        Err(error) => status::of_read(&error).code(),
    }
}

/// Writes how many cells each of `total` shards of so many words has, of which `min` give these
/// back.
#[unsafe(no_mangle)]
pub extern "C" fn cwm_shard_sizes(words: usize, min: u32, total: u32, cells: &mut usize) -> u32
    ensures sizes { result ≡ done → IsSplit min total × HaveShardSizes words min total cells.new }
    ensures kept { result ≢ done → cells.new ≡ cells.old }
    ensures size { result ≡ wrong_size
        ↔ IsSplit min total × ((n : ℕ) → ¬ (HaveShardSizes words min total n)) }
    ensures mismatch { result ≡ mismatch ↔ ¬ (IsSplit min total) }
    ensures statuses { (result ≡ done) ⊎ (result ≡ wrong_size) ⊎ (result ≡ mismatch) }
{
    if !is_split(min, total) {
        return Status::Mismatch.code();
    }
    let Some(size) = shards::size(words, min, total) else {
        return Status::WrongSize.code();
    };
    *cells = size;
    Status::Done.code()
}

/// Writes the shards of the data over the cells, a shard a row, in the order of the indices.
#[unsafe(no_mangle)]
pub extern "C" fn cwm_split(
    alloc: Global,
    words: &[u64],
    min: u32,
    total: u32,
    cells: &mut [u64],
) -> u32
    ensures shards { result ≡ done
        → IsSplit min total × AreWordsOfShards words.now min total cells.new }
    ensures kept { result ≢ done → cells.new ≡ cells.old }
    ensures sizes { TestsSizes (IsSplit min total) ((n : ℕ)
        × HaveShardSizes (length words.now) min total n × (length cells.old ≡ total * n)) result }
    ensures statuses { (result ≡ done) ⊎ (result ≡ out_of_memory) ⊎ (result ≡ wrong_size)
        ⊎ (result ≡ mismatch) }
{
    if !is_split(min, total) {
        return Status::Mismatch.code();
    }
    if !shards::have_room(words.len(), min, total, cells.len()) {
        return Status::WrongSize.code();
    }
    match shards::write_shards(alloc, words, min, total, cells) {
        Ok(()) => Status::Done.code(),
        Err(_) => Status::OutOfMemory.code(),
    }
}

/// Writes the data that the shards give back over the first words of `out`: row i of the cells is
/// the shard of index i of the indices.
#[unsafe(no_mangle)]
pub extern "C" fn cwm_join(
    alloc: Global,
    indices: &[u32],
    min: u32,
    total: u32,
    cells: &[u64],
    out: &mut [u64],
    written: &mut usize,
) -> u32
    ensures joined { result ≡ done
        → (words : List ℕ) × DoJoinTo words min total indices.now cells.now
        × (written.new ≡ length words) × StandInFront words out.old out.new }
    ensures kept { result ≢ done → (out.new ≡ out.old) × (written.new ≡ written.old) }
    ensures first { ¬ (AreRowsOf (length cells.now) (length indices.now)) → result ≡ wrong_size }
    ensures range { result ≡ out_of_range
        ↔ AreRowsOf (length cells.now) (length indices.now) × ¬ (AreElements cells.now) }
    ensures size { result ≡ wrong_size → ¬ (AreRowsOf (length cells.now) (length indices.now))
        ⊎ ((words : List ℕ) × DoJoinTo words min total indices.now cells.now
        × (length out.old < length words)) }
    ensures refused { (e : Error) → result ≡ status_of_shards e → result ≢ out_of_memory
        → AreRefused e min total indices.now cells.now }
    ensures found { (words : List ℕ) → DoJoinTo words min total indices.now cells.now
        → length words ≤ length out.old → (result ≡ done) ⊎ (result ≡ out_of_memory) }
    ensures statuses { result ≤ 8 }
{
    let Some(cols) = shards::cols_of(cells.len(), indices.len()) else {
        return Status::WrongSize.code();
    };
    if !are_elements(cells) {
        return Status::OutOfRange.code();
    }
    let held = WordShards {
        indices,
        min,
        total,
        cells,
        cols,
    };
    match held.join(alloc, out) {
        Ok(Some(many)) => {
            *written = many;
            Status::Done.code()
        }
        Ok(None) => Status::WrongSize.code(),
        Err(error) => status::of_shards(&error).code(),
    }
}

/// Does what `cwm_join` does though some of the shards are wrong, and writes the positions of
/// these, rising, over the first items of `left_out`.
#[unsafe(no_mangle)]
pub extern "C" fn cwm_join_corrected(
    alloc: Global,
    indices: &[u32],
    min: u32,
    total: u32,
    cells: &[u64],
    out: &mut [u64],
    written: &mut usize,
    left_out: &mut [usize],
    many: &mut usize,
) -> u32
    ensures corrected { result ≡ done → (words positions : List ℕ)
        × DoCorrectTo words positions min total indices.now cells.now
        × (written.new ≡ length words) × StandInFront words out.old out.new
        × (many.new ≡ length positions) × StandInFront positions left_out.old left_out.new }
    ensures kept { result ≢ done → (out.new ≡ out.old) × (written.new ≡ written.old)
        × (left_out.new ≡ left_out.old) × (many.new ≡ many.old) }
    ensures first { ¬ (AreRowsOf (length cells.now) (length indices.now)
        × (length indices.now ≤ length left_out.old)) → result ≡ wrong_size }
    ensures range { result ≡ out_of_range ↔ (AreRowsOf (length cells.now) (length indices.now)
        × (length indices.now ≤ length left_out.old)) × ¬ (AreElements cells.now) }
    ensures size { result ≡ wrong_size → ¬ (AreRowsOf (length cells.now) (length indices.now))
        ⊎ ((length left_out.old < length indices.now)
        ⊎ ((words positions : List ℕ) × DoCorrectTo words positions min total indices.now cells.now
        × (length out.old < length words))) }
    ensures refused { (e : Error) → result ≡ status_of_shards e → result ≢ out_of_memory
        → AreRefusedCorrecting e min total indices.now cells.now }
    ensures found { (words positions : List ℕ)
        → DoCorrectTo words positions min total indices.now cells.now
        → length words ≤ length out.old → length indices.now ≤ length left_out.old
        → (result ≡ done) ⊎ (result ≡ out_of_memory) }
    ensures statuses { result ≤ 8 }
{
    let Some(cols) = shards::cols_of(cells.len(), indices.len()) else {
        return Status::WrongSize.code();
    };
    if left_out.len() < indices.len() {
        return Status::WrongSize.code();
    }
    if !are_elements(cells) {
        return Status::OutOfRange.code();
    }
    let held = WordShards {
        indices,
        min,
        total,
        cells,
        cols,
    };
    match write_corrected(alloc, held, out, left_out) {
        Ok(Some((words, positions))) => {
            *written = words;
            *many = positions;
            Status::Done.code()
        }
        Ok(None) => Status::WrongSize.code(),
        Err(error) => status::of_shards(&error).code(),
    }
}

/// Writes how many bytes each of `total` shards of a block of so many bytes has, of which `min`
/// give it back.
#[unsafe(no_mangle)]
pub extern "C" fn cwm_shard_bytes_sizes(bytes: usize, min: u32, total: u32, size: &mut usize) -> u32
    ensures sizes { result ≡ done → IsSplit min total × HaveShardBytes bytes min total size.new }
    ensures kept { result ≢ done → size.new ≡ size.old }
    ensures size { result ≡ wrong_size
        ↔ IsSplit min total × ((n : ℕ) → ¬ (HaveShardBytes bytes min total n)) }
    ensures mismatch { result ≡ mismatch ↔ ¬ (IsSplit min total) }
    ensures statuses { (result ≡ done) ⊎ (result ≡ wrong_size) ⊎ (result ≡ mismatch) }
{
    if !is_split(min, total) {
        return Status::Mismatch.code();
    }
    let Some(found) = blocks::size(bytes, min, total) else {
        return Status::WrongSize.code();
    };
    *size = found;
    Status::Done.code()
}

/// Writes the shards of the block over the bytes, a shard a row, in the order of the indices.
#[unsafe(no_mangle)]
pub extern "C" fn cwm_split_bytes(
    alloc: Global,
    block: &[u8],
    min: u32,
    total: u32,
    shards: &mut [u8],
) -> u32
    ensures shards { result ≡ done
        → IsSplit min total × AreBytesOfShards block.now min total shards.new }
    ensures kept { result ≢ done → shards.new ≡ shards.old }
    ensures sizes { TestsSizes (IsSplit min total) ((n : ℕ)
        × HaveShardBytes (length block.now) min total n × (length shards.old ≡ total * n)) result }
    ensures statuses { (result ≡ done) ⊎ (result ≡ out_of_memory) ⊎ (result ≡ wrong_size)
        ⊎ (result ≡ mismatch) }
{
    if !is_split(min, total) {
        return Status::Mismatch.code();
    }
    if !blocks::have_room(block.len(), min, total, shards.len()) {
        return Status::WrongSize.code();
    }
    match blocks::write_shards(alloc, block, min, total, shards) {
        Ok(()) => Status::Done.code(),
        Err(_) => Status::OutOfMemory.code(),
    }
}

/// Writes the block that the shards give back over the first bytes of `out`: row i of the bytes is
/// the shard of index i of the indices.
#[unsafe(no_mangle)]
pub extern "C" fn cwm_join_bytes(
    alloc: Global,
    indices: &[u32],
    min: u32,
    total: u32,
    shards: &[u8],
    out: &mut [u8],
    written: &mut usize,
) -> u32
    ensures joined { result ≡ done
        → (block : List ℕ) × DoJoinToBlock block min total indices.now shards.now
        × (written.new ≡ length block) × StandInFront block out.old out.new }
    ensures kept { result ≢ done → (out.new ≡ out.old) × (written.new ≡ written.old) }
    ensures first { ¬ (AreByteRowsOf (length shards.now) (length indices.now))
        → result ≡ wrong_size }
    ensures range { result ≡ out_of_range
        ↔ AreByteRowsOf (length shards.now) (length indices.now) × ¬ (SpellElements shards.now) }
    ensures size { result ≡ wrong_size → ¬ (AreByteRowsOf (length shards.now) (length indices.now))
        ⊎ ((block : List ℕ) × DoJoinToBlock block min total indices.now shards.now
        × (length out.old < length block)) }
    ensures refused { (e : Error) → result ≡ status_of_shards e → result ≢ out_of_memory
        → AreBlockRefused e min total indices.now shards.now }
    ensures found { (block : List ℕ) → DoJoinToBlock block min total indices.now shards.now
        → length block ≤ length out.old → (result ≡ done) ⊎ (result ≡ out_of_memory) }
    ensures statuses { result ≤ 8 }
{
    let Some(cols) = blocks::cols_of(shards.len(), indices.len()) else {
        return Status::WrongSize.code();
    };
    if !blocks::are_elements(shards) {
        return Status::OutOfRange.code();
    }
    let held = ByteShards {
        indices,
        min,
        total,
        bytes: shards,
        cols,
    };
    match held.join(alloc, out) {
        Ok(Some(many)) => {
            *written = many;
            Status::Done.code()
        }
        Ok(None) => Status::WrongSize.code(),
        Err(error) => status::of_shards(&error).code(),
    }
}

/// Does what `cwm_join_bytes` does though some of the shards are wrong, and writes the positions of
/// these, rising, over the first items of `left_out`.
#[unsafe(no_mangle)]
pub extern "C" fn cwm_join_bytes_corrected(
    alloc: Global,
    indices: &[u32],
    min: u32,
    total: u32,
    shards: &[u8],
    out: &mut [u8],
    written: &mut usize,
    left_out: &mut [usize],
    many: &mut usize,
) -> u32
    ensures corrected { result ≡ done → (block positions : List ℕ)
        × DoCorrectToBlock block positions min total indices.now shards.now
        × (written.new ≡ length block) × StandInFront block out.old out.new
        × (many.new ≡ length positions) × StandInFront positions left_out.old left_out.new }
    ensures kept { result ≢ done → (out.new ≡ out.old) × (written.new ≡ written.old)
        × (left_out.new ≡ left_out.old) × (many.new ≡ many.old) }
    ensures first { ¬ (AreByteRowsOf (length shards.now) (length indices.now)
        × (length indices.now ≤ length left_out.old)) → result ≡ wrong_size }
    ensures range { result ≡ out_of_range ↔ (AreByteRowsOf (length shards.now) (length indices.now)
        × (length indices.now ≤ length left_out.old)) × ¬ (SpellElements shards.now) }
    ensures size { result ≡ wrong_size → ¬ (AreByteRowsOf (length shards.now) (length indices.now))
        ⊎ ((length left_out.old < length indices.now)
        ⊎ ((block positions : List ℕ)
        × DoCorrectToBlock block positions min total indices.now shards.now
        × (length out.old < length block))) }
    ensures refused { (e : Error) → result ≡ status_of_shards e → result ≢ out_of_memory
        → AreBlockRefusedCorrecting e min total indices.now shards.now }
    ensures found { (block positions : List ℕ)
        → DoCorrectToBlock block positions min total indices.now shards.now
        → length block ≤ length out.old → length indices.now ≤ length left_out.old
        → (result ≡ done) ⊎ (result ≡ out_of_memory) }
    ensures statuses { result ≤ 8 }
{
    let Some(cols) = blocks::cols_of(shards.len(), indices.len()) else {
        return Status::WrongSize.code();
    };
    if left_out.len() < indices.len() {
        return Status::WrongSize.code();
    }
    if !blocks::are_elements(shards) {
        return Status::OutOfRange.code();
    }
    let held = ByteShards {
        indices,
        min,
        total,
        bytes: shards,
        cols,
    };
    match write_corrected(alloc, held, out, left_out) {
        Ok(Some((bytes, positions))) => {
            *written = bytes;
            *many = positions;
            Status::Done.code()
        }
        Ok(None) => Status::WrongSize.code(),
        Err(error) => status::of_shards(&error).code(),
    }
}

/// 10000 times the major number of the version, 100 times the minor one, and the patch.
const VERSION: u32 = 10_000;

/// The version of the library.
#[unsafe(no_mangle)]
pub extern "C" fn cwm_version() -> u32
    ensures { result ≡ version }
{
    VERSION
}

/// 1 if the library computes eight words at a time, by vectors, and 0 if not.
#[unsafe(no_mangle)]
pub extern "C" fn cwm_has_vectors() -> u32
    ensures { result ≤ 1 }
{
    u32::from(is_wide())
}

/// Writes the text of a status over the bytes, and zeros behind it; 32 bytes hold each.
#[unsafe(no_mangle)]
pub extern "C" fn cwm_status_text(status: u32, text: &mut [u8]) -> u32
    ensures text { result ≡ done
        → text.new ≡ text_of status ++ replicate (length text.old - length (text_of status)) 0 }
    ensures kept { result ≢ done → text.new ≡ text.old }
    ensures size { result ≡ wrong_size ↔ length text.old < 32 }
    ensures statuses { (result ≡ done) ⊎ (result ≡ wrong_size) }
{
    if text.len() < 32 {
        return Status::WrongSize.code();
    }
    status::write_text(status, text);
    Status::Done.code()
}
