//! Sorted maps.

ghost use Rattle.std.specs.Prelude.{◌≡◌, List, length, true, IsTrue, ◌↔◌, IfOk, OnOk, not};
ghost use Rattle.std.specs.Iterator.{IsFiniteIterable, Drains, Yields};
ghost use Rattle.std.specs.List.{zip};
ghost use Rattle.std.specs.List.Sorted.{IsStrictlySortedBy};
ghost use Rattle.std.specs.Map.{keys_of, values_of};
ghost use Rattle.std.specs.Option.{option_copied};
ghost use Rattle.math_codec.specs.Iterables.{ItemsMeet};
ghost use Rattle.math_codec.specs.OrderedMaps.{KeysRise, KeysDiffer, HasFirstOfEachKey, EndsAtRepeatedKey, add_pair, has_key, value_at};
ghost use Rattle.math_codec.specs.OrderedFaults.{OnDuplicateKey, OnDuplicateValue};

use super::error::Error;
use crate::codec::Mem;
use std::alloc::Global;
use std::collections::BTreeMap;
use std::marker::Model;

/// Pairs of a key and a value, in the strictly rising order of the keys.
///
/// ```
/// let map = Map::from_iter_dedup(alloc, vec![in alloc; ('b', 4), ('a', 6), ('b', 8)]?)?;
/// map.keys(); // ['a', 'b']
/// map.values(); // [6, 4]
/// map.len(); // 2
/// ```
#[derive(Debug, Drop)]
pub struct Map<I: Ord + Drop, V: Drop> {
    keys: Vec<I>,
    values: Vec<V>,
}

/// Contracts see a map as the list of its pairs.
impl<I: Ord + Drop, V: Drop> Model for Map<I, V> {
    ghost Value = { List (I × V) };

    ghost view = { λ m. zip m.keys.items m.values.items };

    ghost invariant = { λ m. (length m.values.items ≡ length m.keys.items)
        × IsStrictlySortedBy I.cmp m.keys.items };
}

/// Adds a pair unless its key is there, and says whether it did.
pub(super) fn add_new<I: Ord + Drop, V: Drop>(
    entries: &mut BTreeMap<I, V>,
    key: I,
    value: V,
) -> Mem<bool>
    ensures added { IfOk result (λ added. added ≡ not (has_key I.cmp key entries.old.entries)) }
    ensures entries { OnOk result
        (entries.new.entries ≡ add_pair I.cmp entries.old.entries key value) }
{
    if entries.contains_key(&key) {
        return Ok(false);
    }
    entries.insert(key, value)?;
    Ok(true)
}

impl<I: Ord + Drop, V: Drop> Map<I, V> {
    /// The pairs of a tree, as a map.
    pub(super) fn from_entries(alloc: Global, entries: BTreeMap<I, V>) -> Mem<Self>
        ensures pairs { IfOk result (λ m. m ≡ entries.entries) }
        ensures rise { IfOk result (λ m. KeysRise I.cmp m) }
    {
        let mut keys = Vec::new(alloc);
        let mut values = Vec::new(alloc);
        for (key, value) in entries {
            keys.push(key)?;
            values.push(value)?;
        }
        Ok(Map { keys, values })
    }

    /// Makes the map of the pairs, with the first pair of each key.
    ///
    /// It refuses if memory runs out.
    ///
    /// ```
    /// let map = Map::from_iter_dedup(alloc, vec![in alloc; ('b', 4), ('a', 6), ('b', 8)]?)?;
    /// map.get(&'b'); // Some(4)
    /// map.is_empty(); // false
    /// ```
    pub fn from_iter_dedup<P: IntoIterator<Item = (I, V)>>(alloc: Global, pairs: P) -> Mem<Self>
    where
        P::IntoIter: Drop,
        requires { IsFiniteIterable P.into_iter_gives P.IntoIter.can_next
            P.IntoIter.remaining pairs }
        ensures { IfOk result (λ m. ItemsMeet P.into_iter_gives (Drains P.IntoIter.next_gives) pairs
            (λ xs. HasFirstOfEachKey I.cmp xs m)) }
    {
        let mut entries = BTreeMap::new(alloc);
        for (key, value) in pairs {
            add_new(&mut entries, key, value)?;
        }
        Self::from_entries(alloc, entries)
    }

    /// Makes the map of the pairs. No two of them may have equal keys.
    ///
    /// It refuses with `DuplicateKey` at the first pair whose key occurred before, and then asks
    /// for no more pairs. It refuses with `Memory` if memory runs out.
    ///
    /// ```
    /// let pairs = vec![in alloc; ('b', 4), ('a', 6), ('b', 8)]?;
    /// Map::try_from_iter(alloc, pairs); // Err(DuplicateKey)
    /// ```
    pub fn try_from_iter<P: IntoIterator<Item = (I, V)>>(
        alloc: Global,
        pairs: P,
    ) -> Result<Self, Error>
    where
        P::IntoIter: Drop,
        requires { IsFiniteIterable P.into_iter_gives P.IntoIter.can_next
            P.IntoIter.remaining pairs }
        ensures ok { IfOk result
            (λ m. ItemsMeet P.into_iter_gives (Drains P.IntoIter.next_gives) pairs
            (λ xs. KeysDiffer I.cmp xs × HasFirstOfEachKey I.cmp xs m)) }
        ensures repeated { OnDuplicateKey result (ItemsMeet P.into_iter_gives
            (λ it xs. (rest : P.IntoIter) × Yields P.IntoIter.next_gives it xs rest) pairs
            (EndsAtRepeatedKey I.cmp)) }
        ensures any_value { OnDuplicateValue result ⊥ }
    {
        let mut entries = BTreeMap::new(alloc);
        for (key, value) in pairs {
            if !add_new(&mut entries, key, value)? {
                return Err(Error::DuplicateKey);
            }
        }
        Ok(Self::from_entries(alloc, entries)?)
    }

    /// Makes the map of the same keys with these values, in the order of the keys. There are as
    /// many values as keys.
    ///
    /// ```
    /// let map = Map::try_from_iter(alloc, vec![in alloc; ('b', 4), ('a', 6)]?)?;
    /// map.with_values(vec![in alloc; 1, 2]?).get(&'b'); // Some(2)
    /// ```
    pub fn with_values<W: Drop>(self, values: Vec<W>) -> Map<I, W>
        requires { length values.items ≡ length self }
        ensures { result ≡ zip (keys_of self) values.items }
    {
        Map {
            keys: self.keys,
            values,
        }
    }

    /// Returns the keys, which strictly rise.
    pub fn keys(&self) -> &[I]
        ensures keys { result.now ≡ keys_of self.now }
        ensures rise { KeysRise I.cmp self.now }
    {
        &self.keys
    }

    /// Returns the values, in the order of their keys.
    pub fn values(&self) -> &[V]
        ensures { result.now ≡ values_of self.now }
    {
        &self.values
    }

    /// Makes the map of these keys and values, key by key. The keys strictly rise.
    ///
    /// ```
    /// let map = Map::from_parts(vec![in alloc; 'a', 'b']?, vec![in alloc; 6, 4]?);
    /// map.get(&'a'); // Some(6)
    /// ```
    pub fn from_parts(keys: Vec<I>, values: Vec<V>) -> Self
        requires rise { IsStrictlySortedBy I.cmp keys.items }
        requires count { length values.items ≡ length keys.items }
        ensures { result ≡ zip keys.items values.items }
    {
        Map { keys, values }
    }

    /// Returns the keys, which strictly rise, and the values, in the order of their keys.
    ///
    /// ```
    /// let map = Map::try_from_iter(alloc, vec![in alloc; ('b', 4), ('a', 6)]?)?;
    /// map.into_parts(); // (['a', 'b'], [6, 4])
    /// ```
    pub fn into_parts(self) -> (Vec<I>, Vec<V>)
        ensures keys { result.0.items ≡ keys_of self }
        ensures values { result.1.items ≡ values_of self }
        ensures rise { KeysRise I.cmp self }
    {
        (self.keys, self.values)
    }

    /// The values alone, in the order of their keys.
    pub(super) fn into_values(self) -> Vec<V>
        ensures { result.items ≡ values_of self }
    {
        self.values
    }

    /// Returns the value at a key, by O(log n) comparisons.
    ///
    /// ```
    /// let map = Map::try_from_iter(alloc, vec![in alloc; ('b', 4), ('a', 6)]?)?;
    /// map.get(&'b'); // Some(4)
    /// map.get(&'c'); // None
    /// ```
    pub fn get(&self, key: &I) -> Option<&V>
        ensures { option_copied result ≡ value_at I.cmp key.now self.now }
    {
        match self.keys.binary_search(key) {
            Ok(place) => self.values.get(place),
            Err(_) => None,
        }
    }

    /// Returns the number of pairs.
    pub fn len(&self) -> usize
        ensures { result ≡ length self.now }
    {
        self.keys.len()
    }

    /// Returns whether the map has no pair.
    pub fn is_empty(&self) -> bool
        ensures { IsTrue result ↔ (length self.now ≡ 0) }
    {
        self.keys.len() == 0
    }
}
