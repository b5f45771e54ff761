//! Where rows of shards are written: over words, over bytes, or over elements.
//!
//! A word takes 0.7 ns where two are written as bytes in a turn. As a vector loop it takes 1.5 ns
//! in a build for all x86-64 processors, and 0.35 ns from the level v2 on.

ghost use Rattle.std.specs.Prelude.{◌≡◌, ◌+◌, ◌*◌, ◌≤◌, ◌++◌, ℕ, List, [], length, take, drop, map};
ghost use Rattle.std.specs.Int.{to_be_bytes, w64};
ghost use Rattle.std.specs.List.{flat_map};
ghost use Rattle.math_fields.specs.Elements.{number};
ghost use Rattle.math_splitting.specs.DataWords.{bytes_behind, spelled_words};
ghost use Rattle.math_splitting.specs.ShardRows.{AreNumbers};

use math_fields::goldilocks::F;
use math_values::words::Word;

/// Room for words. Each takes a word, an element, or eight bytes, the highest first.
pub trait Room: Copy {
    /// The words that are there.
    ghost words: { List Self → List ℕ };
    /// What stands behind the last whole word.
    ghost rest: { List Self → List Self };

    /// Writes the numbers of the elements over the words from place `from` on. There are as many
    /// words. What stands behind the last whole word stays.
    fn write(room: &mut [Self], from: usize, items: &[F])
        requires { from + length items.now ≤ length (words room.old) }
        ensures written { words room.new ≡ take from (words room.old) ++ (map number items.now
            ++ drop (length items.now) (drop from (words room.old))) }
        ensures rest { rest room.new ≡ rest room.old };
}

impl Room for u64 {
    ghost words = { λ xs. xs };

    ghost rest = { λ _. [] };

    fn write(room: &mut [u64], from: usize, items: &[F]) {
        write_numbers(&mut room[from..from + items.len()], items);
    }
}

impl Room for u8 {
    ghost words = { spelled_words };

    ghost rest = { bytes_behind };

    fn write(room: &mut [u8], from: usize, items: &[F]) {
        write_bytes(room, from, items);
    }
}

impl Room for F {
    ghost words = { map number };

    ghost rest = { λ _. [] };

    fn write(room: &mut [F], from: usize, items: &[F]) {
        room[from..from + items.len()].copy_from_slice(items);
    }
}

/// Writes the numbers of the elements over the words, of which there are as many.
fn write_numbers(words: &mut [u64], items: &[F])
    requires { length words.old ≡ length items.now }
    ensures { AreNumbers items.now words.new }
{
    let source = &items[..words.len()];
    for k in 0..words.len() {
        words[k] = source[k].word();
    }
}

/// Writes the numbers of the elements over the bytes from eight times `from` on, eight for each,
/// the highest first.
///
/// Each turn of the loop writes two. If it wrote one, LLVM would make a vector loop of it, which
/// takes twice as long on processors that cannot move bytes within a register.
fn write_bytes(bytes: &mut [u8], from: usize, items: &[F])
    requires { 8 * (from + length items.now) ≤ length bytes.old }
    ensures { bytes.new ≡ take (8 * from) bytes.old
        ++ flat_map (to_be_bytes w64) (map number items.now)
        ++ drop (8 * from + 8 * length (map number items.now)) bytes.old }
{
    for pair in 0..items.len() / 2 {
        let k = 2 * pair;
        write_word(bytes, 8 * (from + k), items[k].word());
        write_word(bytes, 8 * (from + k) + 8, items[k + 1].word());
    }
    if items.len() % 2 == 1 {
        let last = items.len() - 1;
        write_word(bytes, 8 * (from + last), items[last].word());
    }
}

/// Writes the word over the eight bytes from place `at` on, the highest first. They lie within the
/// bytes.
pub fn write_word(bytes: &mut [u8], at: usize, word: u64)
    requires { at + 8 ≤ length bytes.old }
    ensures { bytes.new ≡ take at bytes.old ++ (to_be_bytes w64 word ++ drop (at + 8) bytes.old) }
{
    bytes[at..at + 8].copy_from_slice(&word.to_be_bytes());
}
