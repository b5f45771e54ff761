//! Shards of words.

use math_base::algebra::Mem;
use math_codec::codec::{self, EncodeSize, Read, Write};
use math_fields::goldilocks::F;
use math_samples::elements::Element;
use math_shards::shards::{Error, Joined, Shard, join, join_corrected, split};
use rows_base::answer::{put, put_all, put_bytes, put_rest};
use rows_base::fault::Fault;
use rows_base::refusals::{begin, end};
use rows_base::words::{bytes, elements, numbers, short, split_at_mark};
use std::alloc::{AllocError, Global};

/// Runs a call of this module; `false` where it is none.
pub fn run(alloc: Global, call: &str, arguments: &str, text: &mut String) -> Result<bool, Fault> {
    let done = match call {
        "split" => split_words(alloc, arguments, text),
        "join" => join_shards(alloc, arguments, text),
        "join_corrected" => join_wrong_shards(alloc, arguments, text),
        "join_each_pair" => join_each_pair(alloc, arguments, text),
        "join_each_set" => join_each_set(alloc, arguments, text),
        "write_shard" => write_shard(alloc, arguments, text),
        "write_shard_after" => write_shard_after(alloc, arguments, text),
        "read_shard" => read_shard(alloc, arguments, text),
        _ => return Ok(false),
    };
    done.and(Ok(true))
}

/// Adds a shard: index, `min`, `total`, `:` and the cells.
fn put_shard(text: &mut String, shard: &Shard) -> Mem<()> {
    put(text, u64::from(shard.index))?;
    put(text, u64::from(shard.min))?;
    put(text, u64::from(shard.total))?;
    text.push_str(" :")?;
    for cell in &shard.cells {
        put(text, cell.parts().0)?;
    }
    Ok(())
}

/// The shard that a text writes.
fn shard_in(alloc: Global, text: &str) -> Result<Shard, Fault> {
    let (head, cells) = split_at_mark(text, ':')?;
    let mut words = head.split_whitespace();
    let (Some(index), Some(min), Some(total)) = (words.next(), words.next(), words.next()) else {
        return Err(Fault::Unreadable("shard"));
    };
    let (index, min, total) = (short(index)?, short(min)?, short(total)?);
    let cells = elements::<F>(alloc, cells)?;
    Ok(Shard {
        index,
        min,
        total,
        cells,
    })
}

/// The shards of some words, where 1 <= `min` <= `total`.
fn shards_of(alloc: Global, data: &[u64], min: u32, total: u32) -> Result<Vec<Shard>, Fault> {
    if min == 0 || total < min {
        return Err(Fault::OutOfRange("no such numbers of shards"));
    }
    Ok(split(alloc, data, min, total)?)
}

/// `MIN TOTAL`, of which neither is above 2^32 - 1.
fn min_and_total(text: &str) -> Result<(u32, u32), Fault> {
    let (min, total) = split_at_mark(text.trim(), ' ')?;
    Ok((short(min)?, short(total)?))
}

/// Adds shards, with `;` between them.
fn put_shards(text: &mut String, shards: &[Shard]) -> Mem<()> {
    for (i, shard) in shards.iter().enumerate() {
        if i > 0 {
            text.push_str(" ;")?;
        }
        put_shard(text, shard)?;
    }
    Ok(())
}

/// Adds the shards of some words, with `;` between them.
fn put_split(
    alloc: Global,
    data: &[u64],
    min: u32,
    total: u32,
    text: &mut String,
) -> Result<(), Fault> {
    let given = begin(alloc, &data);
    let shards = shards_of(alloc, data, min, total);
    end(alloc, given, &data, matches!(shards, Err(Fault::Memory(_))));
    put_shards(text, &shards?).map_err(Fault::Memory)
}

/// `split MIN TOTAL ; W ..`: the shards, with `;` between them.
fn split_words(alloc: Global, arguments: &str, text: &mut String) -> Result<(), Fault> {
    let (head, data) = split_at_mark(arguments, ';')?;
    let (min, total) = min_and_total(head)?;
    let data = numbers(alloc, data)?;
    put_split(alloc, &data, min, total, text)
}

/// Adds words, after `data`.
fn put_data(text: &mut String, words: &[u64]) -> Mem<()> {
    text.push_str(" data")?;
    put_all(text, words)
}

/// Adds why shards give no words.
fn put_refusal(text: &mut String, error: &Error) -> Mem<()> {
    match error {
        Error::Memory(_) => Err(AllocError),
        _ => write!(text, " refused {error}"),
    }
}

/// The words that shards give back.
fn join_words(alloc: Global, shards: &[Shard]) -> Result<Vec<u64>, Error> {
    let given = begin(alloc, &shards);
    let out = join(alloc, shards);
    end(alloc, given, &shards, matches!(out, Err(Error::Memory(_))));
    out
}

/// The words that shards give back, of which some are wrong, and the positions of these.
fn correct_words(alloc: Global, shards: &[Shard]) -> Result<Joined, Error> {
    let given = begin(alloc, &shards);
    let out = join_corrected(alloc, shards);
    end(alloc, given, &shards, matches!(out, Err(Error::Memory(_))));
    out
}

/// Adds the words that shards give back, after `data`, or why they give none.
fn put_joined(alloc: Global, shards: &[Shard], text: &mut String) -> Mem<()> {
    match join_words(alloc, shards) {
        Ok(data) => put_data(text, &data),
        Err(error) => put_refusal(text, &error),
    }
}

/// The shards that a text writes, with `;` between them.
fn shards_in(alloc: Global, text: &str) -> Result<Vec<Shard>, Fault> {
    let mut shards = Vec::new(alloc);
    if !text.trim().is_empty() {
        for part in text.split(';') {
            shards.push(shard_in(alloc, part)?)?;
        }
    }
    Ok(shards)
}

/// `join INDEX MIN TOTAL : CELL .. ; ..`: `data` and the words, or the refusal.
fn join_shards(alloc: Global, arguments: &str, text: &mut String) -> Result<(), Fault> {
    let shards = shards_in(alloc, arguments)?;
    put_joined(alloc, &shards, text).map_err(Fault::Memory)
}

/// Adds the words, after `data`, and the positions, after `left out`.
fn put_corrected(text: &mut String, joined: &Joined) -> Mem<()> {
    put_data(text, &joined.words)?;
    text.push_str(" left out")?;
    for position in &joined.left_out {
        put(text, *position as u64)?;
    }
    Ok(())
}

/// `join_corrected SHARD ; ..`: `data` and the words, `left out` and the positions, or the refusal.
fn join_wrong_shards(alloc: Global, arguments: &str, text: &mut String) -> Result<(), Fault> {
    let shards = shards_in(alloc, arguments)?;
    let done = match correct_words(alloc, &shards) {
        Ok(joined) => put_corrected(text, &joined),
        Err(error) => put_refusal(text, &error),
    };
    done.map_err(Fault::Memory)
}

/// Copies of the shards, with one more in cell k of each of two.
fn with_pair_changed(alloc: Global, shards: &[Shard], pair: &[usize], k: usize) -> Mem<Vec<Shard>> {
    let mut out = Vec::new(alloc);
    for (position, shard) in shards.iter().enumerate() {
        let cell = pair.contains(&position).then_some(k);
        out.push(copy_of(alloc, shard, cell)?)?;
    }
    Ok(out)
}

/// Whether the shards, with one more in cell k of each of two, are corrected to the words, and
/// these two left out.
fn is_pair_left_out(
    alloc: Global,
    shards: &[Shard],
    pair: &[usize],
    k: usize,
    words: &[u64],
) -> Mem<bool> {
    let given = with_pair_changed(alloc, shards, pair, k)?;
    match correct_words(alloc, &given) {
        Ok(joined) => Ok(joined.words.as_slice() == words && joined.left_out.as_slice() == pair),
        Err(Error::Memory(e)) => Err(e),
        Err(_) => Ok(false),
    }
}

/// For how many pairs of shards and cells of these, with one more in this cell of both, the words
/// are given back and the pair is left out.
fn pairs_left_out(alloc: Global, shards: &[Shard], words: &[u64]) -> Mem<u64> {
    let mut found = 0u64;
    for i in 0..shards.len() {
        for j in i + 1..shards.len() {
            for k in 0..shards[i].cells.len() {
                if is_pair_left_out(alloc, shards, &[i, j], k, words)? {
                    found = found.saturating_add(1);
                }
            }
        }
    }
    Ok(found)
}

/// `join_each_pair MIN TOTAL ; W ..`: for how many pairs of shards and cells of these, with one
/// more in this cell of both, the words are given back and the pair is left out.
fn join_each_pair(alloc: Global, arguments: &str, text: &mut String) -> Result<(), Fault> {
    let (head, data) = split_at_mark(arguments, ';')?;
    let (min, total) = min_and_total(head)?;
    let data = numbers(alloc, data)?;
    let shards = shards_of(alloc, &data, min, total)?;
    let found = pairs_left_out(alloc, &shards, &data)?;
    put(text, found).map_err(Fault::Memory)
}

/// A copy of a shard, with one more in a cell where `changed` names it.
fn copy_of(alloc: Global, shard: &Shard, changed: Option<usize>) -> Mem<Shard> {
    let mut cells = Vec::new(alloc);
    for (k, cell) in shard.cells.iter().enumerate() {
        cells.push(if changed == Some(k) {
            *cell + F::from(1)
        } else {
            *cell
        })?;
    }
    Ok(Shard {
        index: shard.index,
        min: shard.min,
        total: shard.total,
        cells,
    })
}

/// Copies of the shards whose bits are set, with one more in cell `cell` of shard `changed`.
fn chosen_copies(
    alloc: Global,
    shards: &[Shard],
    set: u64,
    changed: u32,
    cell: Option<usize>,
) -> Mem<Vec<Shard>> {
    let mut out = Vec::new(alloc);
    for shard in shards {
        if shard.index < 64 && (set >> shard.index) & 1 == 1 {
            let place = if shard.index == changed { cell } else { None };
            out.push(copy_of(alloc, shard, place)?)?;
        }
    }
    Ok(out)
}

/// Whether the shards of a set, with one more in cell k of shard `changed`, are of no data.
fn is_damage_found(alloc: Global, shards: &[Shard], set: u64, changed: u32, k: usize) -> Mem<bool> {
    let all = chosen_copies(alloc, shards, set, changed, Some(k))?;
    is_of_no_data(alloc, &all)
}

/// In how many ways a shard of a set with one more in a cell, beside a further shard, is found to
/// be of no data.
fn damages_found(alloc: Global, shards: &[Shard], set: u64) -> Mem<u64> {
    let mut found = 0u64;
    for further in shards {
        for changed in shards {
            if further.index < 64
                && (set >> further.index) & 1 == 0
                && further.index != changed.index
            {
                for k in 0..changed.cells.len() {
                    let all = set | 1 << further.index;
                    if is_damage_found(alloc, shards, all, changed.index, k)? {
                        found = found.saturating_add(1);
                    }
                }
            }
        }
    }
    Ok(found)
}

/// Whether the shards are refused as those of no data.
fn is_of_no_data(alloc: Global, shards: &[Shard]) -> Mem<bool> {
    match join_words(alloc, shards) {
        Err(Error::Memory(e)) => Err(e),
        Err(Error::Inconsistent) => Ok(true),
        _ => Ok(false),
    }
}

/// Whether the shards give these words back.
fn give_back(alloc: Global, shards: &[Shard], data: &[u64]) -> Mem<bool> {
    match join_words(alloc, shards) {
        Err(Error::Memory(e)) => Err(e),
        Ok(found) => Ok(found.as_slice() == data),
        _ => Ok(false),
    }
}

/// Whether the shards of a set give these words back.
fn set_gives_back(alloc: Global, shards: &[Shard], set: u64, data: &[u64]) -> Mem<bool> {
    let some = chosen_copies(alloc, shards, set, 0, None)?;
    give_back(alloc, &some, data)
}

/// How many sets of `min` shards below `sets` give the words back, and in how many ways one more in
/// a cell of such a set, beside a further shard, is refused as of no data.
fn sets_joined(
    alloc: Global,
    shards: &[Shard],
    data: &[u64],
    min: u32,
    sets: u64,
) -> Mem<(u64, u64)> {
    let mut joined = 0u64;
    let mut found = 0u64;
    for set in 0..sets {
        if set.count_ones() == min {
            if set_gives_back(alloc, shards, set, data)? {
                joined = joined.saturating_add(1);
            }
            found = found.saturating_add(damages_found(alloc, shards, set)?);
        }
    }
    Ok((joined, found))
}

/// `join_each_set MIN TOTAL ; W ..`: how many sets of `min` shards give the words back, and in how
/// many ways one more in a cell of such a set, beside a further shard, is refused as of no data.
fn join_each_set(alloc: Global, arguments: &str, text: &mut String) -> Result<(), Fault> {
    let (head, data) = split_at_mark(arguments, ';')?;
    let (min, total) = min_and_total(head)?;
    if total > 16 {
        return Err(Fault::OutOfRange("too many sets"));
    }
    let data = numbers(alloc, data)?;
    let shards = shards_of(alloc, &data, min, total)?;
    let (joined, found) = sets_joined(alloc, &shards, &data, min, 1 << total)?;
    put(text, joined)?;
    put(text, found).map_err(Fault::Memory)
}

/// Appends the bytes of a shard of fewer than 2^32 cells, and answers how many it says there are.
fn append(alloc: Global, shard: &Shard, out: &mut Vec<u8>) -> Result<usize, Fault> {
    if shard.cells.len() >= 1 << 32 {
        return Err(Fault::OutOfRange("too many cells"));
    }
    let given = begin(alloc, &(shard, &*out));
    let done = shard.write(alloc, out);
    end(alloc, given, &(shard, &*out), done.is_err());
    done?;
    Ok(shard.encode_size())
}

/// Adds bytes, and how many a value says that there are.
fn put_written(text: &mut String, bytes: &[u8], size: usize) -> Mem<()> {
    put_bytes(text, bytes)?;
    text.push_str(" size")?;
    put(text, size as u64)
}

/// `write_shard INDEX MIN TOTAL : CELL ..`: the bytes, and how many there are.
fn write_shard(alloc: Global, arguments: &str, text: &mut String) -> Result<(), Fault> {
    let shard = shard_in(alloc, arguments)?;
    let mut out = Vec::new(alloc);
    let size = append(alloc, &shard, &mut out)?;
    put_written(text, &out, size).map_err(Fault::Memory)
}

/// `write_shard_after BYTE .. @ INDEX MIN TOTAL : CELL ..`: these bytes, and then those of the
/// shard.
fn write_shard_after(alloc: Global, arguments: &str, text: &mut String) -> Result<(), Fault> {
    let (before, shard) = split_at_mark(arguments, '@')?;
    let mut out = bytes(alloc, before)?;
    let shard = shard_in(alloc, shard)?;
    let _size = append(alloc, &shard, &mut out)?;
    put_bytes(text, &out).map_err(Fault::Memory)
}

/// Why bytes are those of no shard.
fn fault_of(error: codec::Error) -> Fault {
    match error {
        codec::Error::Memory(e) => Fault::Memory(e),
        other => Fault::Bytes(other),
    }
}

/// Reads a shard of at most so many cells from the front of the input.
fn read_first_shard(alloc: Global, most: u32, input: &mut &[u8]) -> Result<Shard, codec::Error> {
    let given = begin(alloc, &*input);
    let shard = Shard::read_cfg(alloc, input, &most);
    end(
        alloc,
        given,
        &*input,
        matches!(shard, Err(codec::Error::Memory(_))),
    );
    shard
}

/// Reads a shard from bytes, and adds how many are left. Where it is refused, the input has to
/// stand as it was.
fn read_all(alloc: Global, most: u32, all: &[u8], text: &mut String) -> Result<(), Fault> {
    let mut input = all;
    let shard = read_first_shard(alloc, most, &mut input);
    if shard.is_err() && input.len() != all.len() {
        return Err(Fault::Unreadable("input that stands"));
    }
    put_shard(text, &shard.map_err(fault_of)?)?;
    put_rest(text, input.len()).map_err(Fault::Memory)
}

/// `read_shard MOST @ BYTE ..`: the shard, `rest` and how many bytes are left.
fn read_shard(alloc: Global, arguments: &str, text: &mut String) -> Result<(), Fault> {
    let (most, given) = split_at_mark(arguments, '@')?;
    let most = short(most)?;
    let given = bytes(alloc, given)?;
    read_all(alloc, most, &given, text)
}
