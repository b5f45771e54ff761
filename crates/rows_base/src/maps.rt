//! Maps of numbers, and two-way maps.

use crate::answer::put;
use crate::fault::Fault;
use crate::refusals::{begin, end};
use crate::words::{numbers, pair, split_at_mark};
use math_base::algebra::Mem;
use math_codec::ordered::{BiMap, Error, Map};
use std::alloc::Global;

/// Runs a call of this module; `false` where it is none.
pub fn run(alloc: Global, call: &str, arguments: &str, text: &mut String) -> Result<bool, Fault> {
    let done = match call {
        "map" => put_found_map(map(alloc, arguments), text),
        "try_map" => put_found_map(try_map(alloc, arguments), text),
        "map_get" => get(alloc, arguments, text),
        "with_values" => put_found_map(with_values(alloc, arguments), text),
        "two_way_map" => put_found_map(two_way_map(alloc, arguments), text),
        "two_way_get" => two_way_get(alloc, arguments, text),
        _ => return Ok(false),
    };
    done.and(Ok(true))
}

/// The pairs `K:V` of two numbers.
fn pairs(alloc: Global, text: &str) -> Result<Vec<(u64, u64)>, Fault> {
    let mut out = Vec::new(alloc);
    for word in text.split_whitespace() {
        out.push(pair(word, ':')?)?;
    }
    Ok(out)
}

/// Adds the number of pairs, and whether there is none.
fn put_count(text: &mut String, count: usize, is_empty: bool) -> Mem<()> {
    put(text, count as u64)?;
    text.push_str(if is_empty { " empty" } else { " :" })
}

/// Adds the number of pairs, whether there is none, and the pairs.
fn put_map(map: &Map<u64, u64>, text: &mut String) -> Mem<()> {
    put_count(text, map.len(), map.is_empty())?;
    for (key, value) in map.keys().iter().zip(map.values()) {
        write!(text, " {key}:{value}")?;
    }
    Ok(())
}

/// Adds the map that was found, or says why there is none.
fn put_found_map(map: Result<Map<u64, u64>, Fault>, text: &mut String) -> Result<(), Fault> {
    put_map(&map?, text).map_err(Fault::Memory)
}

/// `map K:V ..`: the pairs, of each key the first.
fn map(alloc: Global, arguments: &str) -> Result<Map<u64, u64>, Fault> {
    let pairs = pairs(alloc, arguments)?;
    let given = begin(alloc, &());
    let out = Map::from_iter_dedup(alloc, pairs);
    end(alloc, given, &(), out.is_err());
    out.map_err(Fault::Memory)
}

/// `try_map K:V ..`: the pairs, refused where two of them have one key.
fn try_map(alloc: Global, arguments: &str) -> Result<Map<u64, u64>, Fault> {
    let pairs = pairs(alloc, arguments)?;
    let given = begin(alloc, &());
    let out = Map::try_from_iter(alloc, pairs);
    end(alloc, given, &(), matches!(out, Err(Error::Memory(_))));
    out.map_err(Fault::from)
}

/// Adds a number that was found, or `none`.
fn put_found(text: &mut String, found: Option<&u64>) -> Mem<()> {
    match found {
        Some(n) => put(text, *n),
        None => text.push_str(" none"),
    }
}

/// Adds the value of each key, or `none`.
fn put_values(map: &Map<u64, u64>, keys: &[u64], text: &mut String) -> Mem<()> {
    for key in keys {
        put_found(text, map.get(key))?;
    }
    Ok(())
}

/// `map_get K:V .. @ K ..`: the value of each key, or `none`.
fn get(alloc: Global, arguments: &str, text: &mut String) -> Result<(), Fault> {
    let (list, keys) = split_at_mark(arguments, '@')?;
    let keys = numbers(alloc, keys)?;
    put_values(&map(alloc, list)?, &keys, text).map_err(Fault::Memory)
}

/// The keys of a map with these values.
fn map_with_values(map: Map<u64, u64>, values: Vec<u64>) -> Result<Map<u64, u64>, Fault> {
    if values.len() != map.len() {
        return Err(Fault::OutOfRange("as many values as keys"));
    }
    Ok(map.with_values(values))
}

/// `with_values K:V .. @ V ..`: the keys with these values.
fn with_values(alloc: Global, arguments: &str) -> Result<Map<u64, u64>, Fault> {
    let (list, values) = split_at_mark(arguments, '@')?;
    let values = numbers(alloc, values)?;
    map_with_values(map(alloc, list)?, values)
}

/// The two-way map of the pairs, refused where two of them have one key or one value.
fn two_way(alloc: Global, text: &str) -> Result<BiMap<u64, u64>, Fault> {
    let pairs = pairs(alloc, text)?;
    let given = begin(alloc, &());
    let out = BiMap::try_from_iter(alloc, pairs);
    end(alloc, given, &(), matches!(out, Err(Error::Memory(_))));
    out.map_err(Fault::from)
}

/// `two_way_map K:V ..`: the pairs in the order of the keys.
fn two_way_map(alloc: Global, arguments: &str) -> Result<Map<u64, u64>, Fault> {
    Ok(two_way(alloc, arguments)?.into_map())
}

/// Adds the number of pairs, whether there is none, and for each number the value of it as a key
/// and the key of it as a value.
fn put_both_ways(map: &BiMap<u64, u64>, wanted: &[u64], text: &mut String) -> Mem<()> {
    put_count(text, map.len(), map.is_empty())?;
    for n in wanted {
        put_found(text, map.get(n))?;
        put_found(text, map.get_key(n))?;
    }
    Ok(())
}

/// `two_way_get K:V .. @ N ..`: the number of pairs, whether there is none, and for each n the value of
/// the key n and the key of the value n, or `none`.
fn two_way_get(alloc: Global, arguments: &str, text: &mut String) -> Result<(), Fault> {
    let (list, wanted) = split_at_mark(arguments, '@')?;
    let wanted = numbers(alloc, wanted)?;
    put_both_ways(&two_way(alloc, list)?, &wanted, text).map_err(Fault::Memory)
}
