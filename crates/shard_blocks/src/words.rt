//! Bytes as words, and these as bytes.

ghost use Rattle.std.specs.Prelude.{◌≡◌, ◌↔◌, ◌+◌, ◌*◌, ◌≤◌, ◌++◌, ℕ, List, All, length, take, drop};
ghost use Rattle.std.specs.Prelude.{IsTrue, IfOk, IfSome, IsSomeAnd};
ghost use Rattle.std.specs.Int.{from_le_bytes, to_le_bytes, w64};
ghost use Rattle.std.specs.List.{flat_map};
ghost use Rattle.math_splitting.specs.DataWords.{words_in};
ghost use Rattle.math_shards.specs.PackedWords.{HoldsWords};
ghost use Rattle.shard_blocks.specs.BlockWords.{IsBlockOf, words_of_bytes};

use math_base::algebra::Mem;
use math_shards::shards::{PackedData, Source};
use math_values::words::padded_to_eight;
use std::alloc::Global;

/// How many words are unpacked at a time: a run of elements has so many.
const RUN: usize = 63;

/// The number of the bytes, and then the bytes, eight a word, the lowest first, with zeros after
/// the last. They are read from the bytes as they are wanted.
pub(crate) fn block_source<'a>(bytes: &'a [u8]) -> Source<'a, [u8; 8]>
    ensures { words_in (from_le_bytes w64) result ≡ words_of_bytes bytes.now }
{
    let (words, rest) = bytes.as_chunks::<8>();
    let last = if rest.is_empty() {
        None
    } else {
        Some(u64::from_le_bytes(padded_to_eight(rest)))
    };
    Source {
        first: Some(bytes.len() as u64),
        words,
        last,
    }
}

/// How many bytes the block has whose words these data are; `None` where they are those of no block.
pub(crate) fn block_size(packed: &PackedData) -> Option<usize>
    ensures some { (words : List ℕ) → HoldsWords words packed.now
        → IfSome result (λ n. (block : List ℕ) × IsBlockOf words block × (length block ≡ n)) }
    ensures found { (words block : List ℕ) → HoldsWords words packed.now → IsBlockOf words block
        → IsSomeAnd result (λ n. n ≡ length block) }
{
    let count = packed.count();
    if count == 0 {
        return None;
    }
    let bytes = packed.word(0) as usize;
    if count - 1 != bytes.div_ceil(8) {
        return None;
    }
    let left = bytes % 8;
    if left > 0 && !all_zero(&packed.word(count - 1).to_le_bytes()[left..]) {
        return None;
    }
    Some(bytes)
}

/// The bytes of the block whose words these data are, where there is one.
pub(crate) fn block_in(alloc: Global, packed: &PackedData) -> Mem<Option<Vec<u8>>>
    ensures some { (words : List ℕ) → HoldsWords words packed.now → IfOk result
        (λ answer. IfSome answer (λ bytes. IsBlockOf words bytes.items)) }
    ensures found { (words block : List ℕ) → HoldsWords words packed.now → IsBlockOf words block
        → IfOk result (λ answer. IsSomeAnd answer (λ bytes. bytes.items ≡ block)) }
{
    let Some(size) = block_size(packed) else {
        return Ok(None);
    };
    let mut bytes = Vec::with_capacity(alloc, size)?;
    bytes.resize(size, 0)?;
    write_block(packed, &mut bytes);
    Ok(Some(bytes))
}

/// Writes the bytes of the block whose words these data are. There is room for just these.
pub(crate) fn write_block(packed: &PackedData, out: &mut [u8])
    ensures { (words block : List ℕ) → HoldsWords words packed.now → IsBlockOf words block
        → length block ≡ length out.old → out.new ≡ block }
{
    let whole = out.len() / 8;
    let (front, rest) = out.split_at_mut(8 * whole);
    write_block_words(packed, whole, front);
    let last = packed.word(1 + whole).to_le_bytes();
    rest.copy_from_slice(&last[..rest.len()]);
}

/// Writes the eight bytes of each word but the first over the bytes, of so many words, the lowest
/// first.
///
/// Some words at a time are unpacked to the stack.
fn write_block_words(packed: &PackedData, count: usize, bytes: &mut [u8])
    requires { length bytes.old ≡ 8 * count }
    ensures { (words : List ℕ) → HoldsWords words packed.now → 1 + count ≤ length words
        → bytes.new ≡ flat_map (to_le_bytes w64) (take count (drop 1 words)) }
{
    let mut some = [0; RUN];
    let mut done = 0;
    while done < count {
        let next = (count - done).min(RUN);
        packed.write(1 + done, &mut some[..next]);
        put_words(&mut bytes[8 * done..8 * (done + next)], &some[..next]);
        done += next;
    }
}

/// Whether each byte is zero.
fn all_zero(bytes: &[u8]) -> bool
    ensures { IsTrue result ↔ All (λ byte. byte ≡ 0) bytes.now }
{
    bytes.iter().all(|byte| *byte == 0)
}

/// Puts the eight bytes of each word in place of the bytes, the lowest first.
fn put_words(bytes: &mut [u8], words: &[u64])
    requires { length bytes.old ≡ 8 * length words.now }
    ensures { bytes.new ≡ flat_map (to_le_bytes w64) words.now }
{
    for i in 0..words.len() {
        put_word(bytes, 8 * i, words[i]);
    }
}

/// Puts the eight bytes of a word at this place, the lowest first.
fn put_word(bytes: &mut [u8], at: usize, word: u64)
    requires { at + 8 ≤ length bytes.old }
    ensures { bytes.new ≡ take at bytes.old ++ (to_le_bytes w64 word ++ drop (at + 8) bytes.old) }
{
    let eight = word.to_le_bytes();
    bytes[at] = eight[0];
    bytes[at + 1] = eight[1];
    bytes[at + 2] = eight[2];
    bytes[at + 3] = eight[3];
    bytes[at + 4] = eight[4];
    bytes[at + 5] = eight[5];
    bytes[at + 6] = eight[6];
    bytes[at + 7] = eight[7];
}
