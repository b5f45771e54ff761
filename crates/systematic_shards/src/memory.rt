//! The caller's memory, in which words lie as they are or as eight bytes each, the lowest first.

ghost use Rattle.std.specs.Prelude.{◌≡◌, ◌≢◌, ◌+◌, ◌*◌, ◌/◌, ◌<◌, ◌≤◌, ◌^◌, ◌++◌, [], ℕ, List, length, take, drop, slice_index, slice_index_or};
ghost use Rattle.std.specs.Int.{from_le_bytes, w64};
ghost use Rattle.row_interpolation.specs.Written.{AreWritten};
ghost use Rattle.systematic_shards.specs.Words.{IsWithin, word_of_bytes};

use math_values::words::padded_to_eight;

/// What data and rows lie in: words, or bytes, of which eight are a word, the lowest first.
pub trait WordMemory: Copy {
    /// Word k. What lies past the end counts as zeros.
    ghost word: { List Self → ℕ → ℕ };
    /// How many bytes one has.
    ghost BYTES: { ℕ };

    const BYTES: usize;

    /// Returns word k.
    fn read(cells: &[Self], k: usize) -> u64
        ensures { result ≡ word cells.now k };

    /// Reads the words from word `from` on over the items of `out`.
    fn read_run(cells: &[Self], from: usize, out: &mut [u64])
        requires { from + length out.old ≤ 2 ^ 61 }
        ensures { (k : ℕ) → k < length out.old
            → slice_index out.new k ≡ word cells.now (from + k) };

    /// Writes word k. Of a word that reaches past the end the bytes before the end are written; its
    /// other bytes are zeros.
    fn write(cells: &mut [Self], k: usize, value: u64)
        requires place { k < 2 ^ 61 }
        requires fits { IsWithin (BYTES * length cells.old) k value }
        ensures written { word cells.new k ≡ value }
        ensures others { (i : ℕ) → i ≢ k → word cells.new i ≡ word cells.old i };

    /// Writes the words one behind the other, the first as word `at`, as `write` does each.
    fn write_run(cells: &mut [Self], at: usize, words: &[u64])
        requires place { at + length words.now ≤ 2 ^ 61 }
        requires fits { (k : ℕ) → k < length words.now
            → IsWithin (BYTES * length cells.old) (at + k) (slice_index words.now k) }
        ensures { AreWritten (λ k. at + k) (slice_index words.now) (length words.now)
            (word cells.old) (word cells.new) };

    /// The part with `count` words from word `from` on, as far as these lie before the end.
    fn part(cells: &[Self], from: usize, count: usize) -> &[Self]
        requires { from + count < 2 ^ 61 }
        ensures { (k : ℕ) → k < count → word result.now k ≡ word cells.now (from + k) };
}

impl WordMemory for u64 {
    ghost word = { slice_index };

    ghost BYTES = { 8 };

    const BYTES: usize = 8;

    fn read(cells: &[u64], k: usize) -> u64 {
        word_at(cells, k)
    }

    fn read_run(cells: &[u64], from: usize, out: &mut [u64]) {
        for k in 0..out.len() {
            out[k] = word_at(cells, from + k);
        }
    }

    fn write(cells: &mut [u64], k: usize, value: u64) {
        put_word(cells, k, value);
    }

    fn write_run(cells: &mut [u64], at: usize, words: &[u64]) {
        for k in 0..words.len() {
            put_word(cells, at + k, words[k]);
        }
    }

    fn part(cells: &[u64], from: usize, count: usize) -> &[u64] {
        let end = cells.len();
        &cells[from.min(end)..(from + count).min(end)]
    }
}

impl WordMemory for u8 {
    ghost word = { word_of_bytes };

    ghost BYTES = { 1 };

    const BYTES: usize = 1;

    fn read(cells: &[u8], k: usize) -> u64 {
        word_in_bytes(cells, k)
    }

    fn read_run(cells: &[u8], from: usize, out: &mut [u64]) {
        let (words, _) = cells.as_chunks::<8>();
        let end = from + out.len();
        if end <= words.len() {
            read_whole_words(&words[from..end], out);
        } else {
            read_words(cells, from, out);
        }
    }

    fn write(cells: &mut [u8], k: usize, value: u64) {
        write_word(cells, k, value);
    }

    fn write_run(cells: &mut [u8], at: usize, words: &[u64]) {
        if at + words.len() <= cells.len() / 8 {
            write_whole_words(cells, at, words);
        } else {
            write_words(cells, at, words);
        }
    }

    fn part(cells: &[u8], from: usize, count: usize) -> &[u8] {
        let end = cells.len();
        &cells[(8 * from).min(end)..(8 * (from + count)).min(end)]
    }
}

/// Word k of the words, or zero past their end.
fn word_at(words: &[u64], k: usize) -> u64
    ensures { result ≡ slice_index words.now k }
{
    if k < words.len() { words[k] } else { 0 }
}

/// Writes word k, unless it lies past the end: then it is zero.
fn put_word(words: &mut [u64], k: usize, value: u64)
    requires { IsWithin (8 * length words.old) k value }
    ensures written { slice_index words.new k ≡ value }
    ensures others { (i : ℕ) → i ≢ k → slice_index words.new i ≡ slice_index words.old i }
{
    if k < words.len() {
        words[k] = value;
    }
}

/// Word k of the bytes.
fn word_in_bytes(cells: &[u8], k: usize) -> u64
    ensures { result ≡ word_of_bytes cells.now k }
{
    let (words, rest) = cells.as_chunks::<8>();
    if k < words.len() {
        return u64::from_le_bytes(words[k]);
    }
    if k == words.len() {
        return u64::from_le_bytes(padded_to_eight(rest));
    }
    0
}

/// Reads whole words over the items of `out`.
fn read_whole_words(words: &[[u8; 8]], out: &mut [u64])
    requires { length words.now ≡ length out.old }
    ensures { (k : ℕ) → k < length out.old
        → slice_index out.new k ≡ from_le_bytes w64 (slice_index_or words.now k []) }
{
    for k in 0..out.len() {
        out[k] = u64::from_le_bytes(words[k]);
    }
}

/// Reads the words from word `from` on, some of which may reach past the end, over the items of
/// `out`.
fn read_words(cells: &[u8], from: usize, out: &mut [u64])
    requires { from + length out.old ≤ 2 ^ 61 }
    ensures { (k : ℕ) → k < length out.old
        → slice_index out.new k ≡ word_of_bytes cells.now (from + k) }
{
    for k in 0..out.len() {
        out[k] = word_in_bytes(cells, from + k);
    }
}

/// Writes word k over the bytes, as far as these go.
fn write_word(cells: &mut [u8], k: usize, value: u64)
    requires place { k < 2 ^ 61 }
    requires fits { IsWithin (length cells.old) k value }
    ensures written { word_of_bytes cells.new k ≡ value }
    ensures others { (i : ℕ) → i ≢ k → word_of_bytes cells.new i ≡ word_of_bytes cells.old i }
{
    let at = 8 * k;
    let bytes = value.to_le_bytes();
    if k < cells.len() / 8 {
        write_bytes(cells, at, &bytes);
    } else if at < cells.len() {
        let left = cells.len() - at;
        write_bytes(cells, at, &bytes[..left]);
    }
}

/// Writes the words over the bytes, the first as word `at`. None reaches past the end.
fn write_whole_words(cells: &mut [u8], at: usize, words: &[u64])
    requires { at + length words.now ≤ length cells.old / 8 }
    ensures { AreWritten (λ k. at + k) (slice_index words.now) (length words.now)
        (word_of_bytes cells.old) (word_of_bytes cells.new) }
{
    for k in 0..words.len() {
        write_bytes(cells, 8 * (at + k), &words[k].to_le_bytes());
    }
}

/// Writes the words over the bytes, as far as these go, the first as word `at`.
fn write_words(cells: &mut [u8], at: usize, words: &[u64])
    requires place { at + length words.now ≤ 2 ^ 61 }
    requires fits { (k : ℕ) → k < length words.now
        → IsWithin (length cells.old) (at + k) (slice_index words.now k) }
    ensures { AreWritten (λ k. at + k) (slice_index words.now) (length words.now)
        (word_of_bytes cells.old) (word_of_bytes cells.new) }
{
    for k in 0..words.len() {
        write_word(cells, at + k, words[k]);
    }
}

/// Writes the part over the bytes from place `at` on.
fn write_bytes(bytes: &mut [u8], at: usize, part: &[u8])
    requires { at + length part.now ≤ length bytes.old }
    ensures { bytes.new
        ≡ take at bytes.old ++ (part.now ++ drop (at + length part.now) bytes.old) }
{
    bytes[at..at + part.len()].copy_from_slice(part);
}

/// How many words a run has at most.
pub(crate) const RUN: usize = 64;

/// Reads `count` words from word `from` on into the first items of `run`, and gives these.
pub(crate) fn words_from<'r, M: WordMemory>(
    cells: &[M],
    from: usize,
    count: usize,
    run: &'r mut [u64; RUN],
) -> &'r [u64]
    requires few { count ≤ 64 }
    requires place { from + count ≤ 2 ^ 61 }
    ensures size { length result.now ≡ count }
    ensures words { (k : ℕ) → k < count
        → slice_index result.now k ≡ M.word cells.now (from + k) }
{
    let words = &mut run[..count];
    M::read_run(cells, from, words);
    words
}
