//! Lists: a length, and then the items.
//!
//! A reader makes room for four items, and then for as many further ones as it has read. So a
//! clause says what it may reserve: std's `push` promises no bound.

ghost use Rattle.std.specs.Prelude.{◌≡◌, ◌<◌, ◌≤◌, ◌+◌, ◌*◌, ◌^◌, ◌++◌, ◌∷◌, [], ℕ, List, length, take, IfOk, OnOk, OnErr, vec_capacity};
ghost use Rattle.std.specs.List.{flat_map, All, AllByRecursion, AllZip};
ghost use Rattle.math_codec.specs.Faults.{Agrees, Reads, OnMemory};
ghost use Rattle.math_codec.specs.Lengths.{length_in_front};
ghost use Rattle.math_codec.specs.Lists.{scan_items, scan_list, list_spelling, AdmitsList, ItemsGrow, ListGrows};
ghost use Rattle.math_codec.specs.ListLaws.{list_again, list_apart};

use super::Mem;
use super::error::Error;
use super::length::{len_size, read_len, write_len};
use super::range::LengthRange;
use super::read::{Encoding, Read};
use super::write::{EncodeSize, Write, roll_back};
use std::alloc::Global;

/// Puts an item at the end. Where no room is left, it makes room for as many further items as there
/// are, and for four at least.
fn push_item<T: Drop>(items: &mut Vec<T>, item: T) -> Mem<()>
    requires { vec_capacity items.old ≤ 2 * length items.old.items + 4 }
    ensures ok { OnOk result (items.new.items ≡ items.old.items ++ item ∷ []) }
    ensures err { OnErr result (items.new.items ≡ items.old.items) }
    ensures room { vec_capacity items.new ≤ 2 * length items.new.items + 4 }
{
    if items.len() == items.capacity() {
        items.reserve_exact(items.len().max(4))?;
    }
    items.push_reserved(item);
    Ok(())
}

/// Reads `count` items, one after the other, and gives what follows them. `items`, which is empty,
/// then holds them; where it is refused, those that were read.
fn read_items<'a, T: Read + Drop>(
    alloc: Global,
    count: u32,
    bytes: &'a [u8],
    cfg: &T::Cfg,
    items: &mut Vec<T>,
) -> Result<&'a [u8], Error>
    requires { (items.old.items ≡ []) × (vec_capacity items.old ≡ 0) }
    ensures number { OnOk result (length items.new.items ≡ count) }
    ensures admitted { AllByRecursion (T.admits cfg.now) items.new.items }
    ensures taken { IfOk result
        (λ rest. bytes.now ≡ flat_map T.spelling items.new.items ++ rest.now) }
    ensures memory { OnMemory result
        (ItemsGrow (T.scan cfg.now) (T.grows cfg.now) count bytes.now) }
    ensures exact { Agrees (λ rest. rest.now) result (scan_items (T.scan cfg.now) count bytes.now) }

    // Refused or not, room is made for at most four and twice as many items as stand in front of
    // the bytes.
    ensures read { (rest : List ℕ) × (bytes.now ≡ flat_map T.spelling items.new.items ++ rest) }
    ensures room { vec_capacity items.new ≤ 2 * length items.new.items + 4 }
{
    let mut rest = bytes;
    for _ in 0..count {
        let item = T::read_cfg(alloc, &mut rest, cfg)?;
        push_item(items, item)?;
    }
    Ok(rest)
}

/// Reads a list from the front of `input`, and moves `input` to what follows it.
///
/// Its length is in `range`, and each item is read under `cfg`. It refuses with the faults of the
/// length, then with `InvalidLength` if the length is out of the range, then with the faults of the
/// items in order. It then leaves `input` where it was.
///
/// Once it has read an item, it makes room for at most four items and twice as many as it has read.
/// So a large length alone takes no memory.
///
/// ```
/// let mut input: &[u8] = &[1, 0, 0, 0, 0, 0, 0, 1, 44, 7];
/// read_list::<F>(alloc, &mut input, LengthRange::exact(1), &())?; // [300]
/// input; // [7]
/// ```
#[tactic(auto, unfolding(crate::specs::Lists::scan_list, crate::specs::Lengths::length_in_front))]
pub fn read_list<T: Read + Drop>(
    alloc: Global,
    input: &mut &[u8],
    range: LengthRange,
    cfg: &T::Cfg,
) -> Result<Vec<T>, Error>
    ensures admitted { IfOk result (λ v. AdmitsList range (T.admits cfg.now) v.items) }
    ensures taken { IfOk result
        (λ v. input.old.now ≡ list_spelling T.spelling v.items ++ input.new.now) }
    ensures counted { IfOk result (λ v. length_in_front input.old.now ≡ length v.items) }
    ensures stays { OnErr result (input.new ≡ input.old) }
    ensures memory { OnMemory result
        (ListGrows range (T.scan cfg.now) (T.grows cfg.now) input.old.now) }
    ensures exact { Reads result input.new.now (scan_list range (T.scan cfg.now) input.old.now) }
{
    let mut rest = *input;
    let count = read_len(alloc, &mut rest)?;
    if !range.contains(count) {
        return Err(Error::InvalidLength(count));
    }
    let mut items = Vec::new(alloc);
    let rest = read_items::<T>(alloc, count, rest, cfg, &mut items)?;
    *input = rest;
    Ok(items)
}

impl<T: Encoding> Encoding for Vec<T> {
    ghost spelling = { λ v. list_spelling T.spelling v.items };

    ghost alike = { λ v w. AllZip T.alike v.items w.items };
}

impl<T: Read + Drop> Read for Vec<T> {
    /// The range of the length, and the configuration of each item.
    type Cfg = (LengthRange, T::Cfg);

    ghost admits = { λ cfg v. AdmitsList cfg.0 (T.admits cfg.1) v.items };

    ghost scan = { λ cfg. scan_list cfg.0 (T.scan cfg.1) };

    ghost grows = { λ cfg. ListGrows cfg.0 (T.scan cfg.1) (T.grows cfg.1) };

    /// Reads a list, as `read_list` does.
    fn read_cfg(
        alloc: Global,
        input: &mut &[u8],
        cfg: &(LengthRange, T::Cfg),
    ) -> Result<Vec<T>, Error> {
        read_list(alloc, input, cfg.0, &cfg.1)
    }

    ghost again = { λ cfg v rest h.
        list_again T.spelling (T.admits cfg.1) (T.scan cfg.1)
        (T.again cfg.1) cfg.0 v.items rest h };

    ghost apart = { λ cfg v w x y h k e.
        list_apart T.spelling (T.admits cfg.1) T.alike (T.apart cfg.1) cfg.0
        v.items w.items x y h k e };
}

/// Writes a list. What is written stays where memory runs out.
fn write_items<T: Write>(alloc: Global, items: &[T], out: &mut Vec<u8>) -> Mem<()>
    requires number { length items.now < 2 ^ 32 }
    requires each { All T.fits items.now }
    ensures ok { OnOk result (out.new.items ≡ out.old.items ++ list_spelling T.spelling items.now) }
    ensures kept { take (length out.old.items) out.new.items ≡ out.old.items }
{
    write_len(alloc, items.len() as u32, out)?;
    for item in items {
        item.write(alloc, out)?;
    }
    Ok(())
}

/// Writes a list of fewer than 2^32 items at the end of `out`.
///
/// If memory runs out, it refuses, and leaves the items of `out` as they were.
///
/// ```
/// let mut out = Vec::new(alloc);
/// write_list(alloc, &[F::from(300)], &mut out)?;
/// out; // [1, 0, 0, 0, 0, 0, 0, 1, 44]
/// ```
pub fn write_list<T: Write>(alloc: Global, items: &[T], out: &mut Vec<u8>) -> Mem<()>
    requires number { length items.now < 2 ^ 32 }
    requires each { All T.fits items.now }
    ensures ok { OnOk result (out.new.items ≡ out.old.items ++ list_spelling T.spelling items.now) }
    ensures err { OnErr result (out.new.items ≡ out.old.items) }
{
    let start = out.len();
    let written = write_items(alloc, items, out);
    roll_back(alloc, written, start, out)
}

impl<T: Write> Write for Vec<T> {
    ghost fits = { λ v. (length v.items < 2 ^ 32) × All T.fits v.items };

    /// Writes a list, as `write_list` does.
    fn write(&self, alloc: Global, out: &mut Vec<u8>) -> Mem<()> {
        write_list(alloc, self, out)
    }
}

/// Returns the number of bytes that a list is written in, which has to fit.
///
/// ```
/// list_size(&[F::from(5), F::from(6)]); // 17
/// ```
pub fn list_size<T: EncodeSize>(items: &[T]) -> usize
    requires { length (list_spelling T.spelling items.now) < 2 ^ 64 }
    ensures { result ≡ length (list_spelling T.spelling items.now) }
{
    let mut size = len_size(items.len());
    for item in items {
        size += item.encode_size();
    }
    size
}

impl<T: EncodeSize> EncodeSize for Vec<T> {
    /// The number of bytes that the list is written in, as `list_size` counts them.
    fn encode_size(&self) -> usize {
        list_size(self)
    }
}
