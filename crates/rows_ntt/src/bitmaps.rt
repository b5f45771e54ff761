//! Bitmaps of points. One is written `LG I ..`: 2^LG points, and the indices of those that don't
//! vanish.

ghost use Rattle.std.specs.Prelude.{◌<◌, IfOk};

use crate::compared::put_firsts;
use math_base::algebra::Mem;
use math_codec::codec;
use math_ntt::ntt::VanishingPoints;
use rows_base::answer::put;
use rows_base::fault::Fault;
use rows_base::refusals::{begin, end};
use rows_base::words::{number, short};
use std::alloc::Global;

/// Runs a call of this module; `false` where it is none.
pub fn run(alloc: Global, call: &str, arguments: &str, text: &mut String) -> Result<bool, Fault> {
    let done = match call {
        "bitmap" => put_bitmap(alloc, arguments, text),
        "full_bitmap" => put_count_of_full_bitmap(alloc, arguments, text),
        "bitmap_equals" => same(alloc, arguments, text),
        "bitmap_too_large" => put_too_large(alloc, arguments, text),
        _ => return Ok(false),
    };
    done.and(Ok(true))
}

/// `full_bitmap LG`: how many points don't vanish, which all do not.
fn put_count_of_full_bitmap(
    alloc: Global,
    arguments: &str,
    text: &mut String,
) -> Result<(), Fault> {
    let points = full(alloc, arguments)?;
    put(text, points.count_non_vanishing()).map_err(Fault::Memory)
}

/// The binary logarithm of a number of points that a bitmap may be asked for.
fn lg_size(text: &str) -> Result<u32, Fault>
    ensures { IfOk result (λ lg. lg < 64) }
{
    let lg = short(text)?;
    if lg >= 64 {
        return Err(Fault::OutOfRange("lg above 63"));
    }
    Ok(lg)
}

/// The bitmap of 2^LG points, none of which vanishes.
fn full(alloc: Global, text: &str) -> Result<VanishingPoints, Fault> {
    let lg = lg_size(text)?;
    let given = begin(alloc, &());
    let points = VanishingPoints::all_non_vanishing(alloc, lg);
    end(alloc, given, &(), points.is_err());
    points.map_err(Fault::Memory)
}

/// The bitmap of 2^LG points, all of which vanish.
pub fn empty(alloc: Global, text: &str) -> Result<VanishingPoints, Fault> {
    let lg = lg_size(text)?;
    let given = begin(alloc, &());
    let points = VanishingPoints::new(alloc, lg);
    end(alloc, given, &(), points.is_err());
    points.map_err(Fault::Memory)
}

/// The bitmap of 2^LG points, all of which vanish, or after `full` none of which does. The call is
/// not marked: that it is refused memory has to come without an allocation that is refused for it.
fn unmarked_bitmap(alloc: Global, text: &str) -> Result<Mem<VanishingPoints>, Fault> {
    match text.trim().strip_prefix("full ") {
        Some(lg) => Ok(VanishingPoints::all_non_vanishing(alloc, lg_size(lg)?)),
        None => Ok(VanishingPoints::new(alloc, lg_size(text)?)),
    }
}

/// `bitmap_too_large LG`, `bitmap_too_large full LG`: that there is no memory for so many points,
/// which is refused by the words of `codec::Error`; else how many there are.
fn put_too_large(alloc: Global, arguments: &str, text: &mut String) -> Result<(), Fault> {
    match unmarked_bitmap(alloc, arguments)? {
        Ok(points) => put(text, points.size()).map_err(Fault::Memory),
        Err(refused) => Err(Fault::Bytes(codec::Error::from(refused))),
    }
}

/// Sets a point to one that does not vanish.
pub fn set(points: &mut VanishingPoints, index: u64) -> Result<(), Fault> {
    if index >> points.lg_size() != 0 {
        return Err(Fault::OutOfRange("no such point"));
    }
    points.set_non_vanishing(index);
    Ok(())
}

/// The bitmap that a text writes; after `full` at its front, that of all points.
fn bitmap(alloc: Global, text: &str) -> Result<VanishingPoints, Fault> {
    let (size, indices) = text.trim().split_once(' ').unwrap_or((text, ""));
    if size == "full" {
        return full(alloc, indices);
    }
    let mut points = empty(alloc, size)?;
    for word in indices.split_whitespace() {
        set(&mut points, number(word)?)?;
    }
    Ok(points)
}

/// `bitmap LG I ..`: how many points don't vanish, and their indices.
fn put_bitmap(alloc: Global, arguments: &str, text: &mut String) -> Result<(), Fault> {
    put_points(&bitmap(alloc, arguments)?, text).map_err(Fault::Memory)
}

/// Adds how many points don't vanish, and their indices.
fn put_points(points: &VanishingPoints, text: &mut String) -> Mem<()> {
    put(text, points.count_non_vanishing())?;
    let size: u64 = 1 << points.lg_size();
    for index in 0..size {
        if points.get(index) {
            put(text, index)?;
        }
    }
    Ok(())
}

/// `bitmap_equals LG I .. ; ..`: for each bitmap the place of the first that it equals.
fn same(alloc: Global, arguments: &str, text: &mut String) -> Result<(), Fault> {
    let mut items = Vec::new(alloc);
    for part in arguments.split(';') {
        items.push(bitmap(alloc, part)?)?;
    }
    put_firsts(alloc, &items, text).map_err(Fault::Memory)
}
