//! Two-way maps.
//!
//! A two-way map keeps the places of its values by rising value. It is built with references to the
//! pairs that were seen, so all pairs are taken before the first is looked at: memory may run out
//! before a repeat is found. A `Map` asks for no pair after a repeated key.

ghost use Rattle.std.specs.Prelude.{◌≡◌, List, length, map, IsTrue, ◌↔◌, IfOk, OnOk};
ghost use Rattle.std.specs.Iterator.{IsFiniteIterable, Drains};
ghost use Rattle.std.specs.Map.{keys_of, values_of};
ghost use Rattle.std.specs.Option.{option_copied};
ghost use Rattle.math_codec.specs.Iterables.{ItemsMeet};
ghost use Rattle.math_codec.specs.OrderedMaps.{KeysRise, KeysDiffer, ValuesDiffer, HasFirstOfEachKey, RepeatsKeyFirst, RepeatsValueFirst, value_at, compared_at, key_with, IsOrderByValue};
ghost use Rattle.math_codec.specs.OrderedFaults.{OnDuplicateKey, OnDuplicateValue};

use super::error::Error;
use super::map::{Map, add_new};
use crate::codec::Mem;
use std::alloc::Global;
use std::cmp::Ordering;
use std::collections::{BTreeMap, BTreeSet};
use std::marker::Model;

/// Pairs of a key and a value, in the strictly rising order of the keys. No two values are equal.
///
/// ```
/// let map = BiMap::try_from_iter(alloc, vec![in alloc; ('b', 4), ('a', 6)]?)?;
/// map.get(&'b'); // Some(4)
/// map.get_key(&4); // Some('b')
/// map.keys(); // ['a', 'b']
/// map.values(); // [6, 4]
/// ```
#[derive(Debug, Drop)]
pub struct BiMap<I: Ord + Drop, V: Ord + Drop> {
    pairs: Map<I, V>,
    /// The places of the values, by rising value.
    by_value: Vec<usize>,
}

/// Contracts see a two-way map as the list of its pairs.
impl<I: Ord + Drop, V: Ord + Drop> Model for BiMap<I, V> {
    ghost Value = { List (I × V) };

    ghost view = { λ m. m.pairs };

    ghost invariant = { λ m. ValuesDiffer V.cmp m.pairs
        × IsOrderByValue V.cmp (values_of m.pairs) m.by_value.items };
}

/// Refuses at the first pair whose key or value occurred before, and looks at the key first.
fn check_distinct<I: Ord + Drop, V: Ord + Drop>(
    alloc: Global,
    pairs: &[(I, V)],
) -> Result<(), Error>
    ensures keys { OnOk result (KeysDiffer I.cmp pairs.now) }
    ensures values { OnOk result (ValuesDiffer V.cmp pairs.now) }
    ensures repeated_key { OnDuplicateKey result (RepeatsKeyFirst I.cmp V.cmp pairs.now) }
    ensures repeated_value { OnDuplicateValue result (RepeatsValueFirst I.cmp V.cmp pairs.now) }
{
    let mut keys = BTreeSet::new(alloc);
    let mut values = BTreeSet::new(alloc);
    for (key, value) in pairs {
        if !keys.insert(key)? {
            return Err(Error::DuplicateKey);
        }
        if !values.insert(value)? {
            return Err(Error::DuplicateValue);
        }
    }
    Ok(())
}

/// The places of the values, by rising value.
fn places_by_value<V: Ord + Drop>(alloc: Global, values: &[V]) -> Mem<Vec<usize>>
    ensures { IfOk result (λ by_value. IsOrderByValue V.cmp values.now by_value.items) }
{
    let mut table = BTreeMap::new(alloc);
    for place in 0..values.len() {
        add_new(&mut table, &values[place], place)?;
    }
    let by_value = Map::from_entries(alloc, table)?;
    Ok(by_value.into_values())
}

impl<I: Ord + Drop, V: Ord + Drop> BiMap<I, V> {
    /// Makes the two-way map of the pairs. No two of them may have equal keys or equal values.
    ///
    /// It takes all pairs, and then looks at them in the order in which they came. It refuses at
    /// the first pair whose key or value occurred before: with `DuplicateKey` for the key,
    /// otherwise with `DuplicateValue`. It refuses with `Memory` if memory runs out.
    ///
    /// ```
    /// let pairs = vec![in alloc; ('b', 4), ('a', 4)]?;
    /// BiMap::try_from_iter(alloc, pairs); // Err(DuplicateValue)
    /// ```
    pub fn try_from_iter<P: IntoIterator<Item = (I, V)>>(
        alloc: Global,
        pairs: P,
    ) -> Result<Self, Error>
    where
        P::IntoIter: Drop,
        requires { IsFiniteIterable P.into_iter_gives P.IntoIter.can_next
            P.IntoIter.remaining pairs }
        ensures ok { IfOk result
            (λ m. ItemsMeet P.into_iter_gives (Drains P.IntoIter.next_gives) pairs
            (λ xs. KeysDiffer I.cmp xs × ValuesDiffer V.cmp xs × HasFirstOfEachKey I.cmp xs m)) }
        ensures repeated_key { OnDuplicateKey result
            (ItemsMeet P.into_iter_gives (Drains P.IntoIter.next_gives) pairs
            (RepeatsKeyFirst I.cmp V.cmp)) }
        ensures repeated_value { OnDuplicateValue result
            (ItemsMeet P.into_iter_gives (Drains P.IntoIter.next_gives) pairs
            (RepeatsValueFirst I.cmp V.cmp)) }
    {
        let mut taken = Vec::new(alloc);
        for pair in pairs {
            taken.push(pair)?;
        }
        check_distinct(alloc, &taken)?;
        let pairs = Map::from_iter_dedup(alloc, taken)?;
        let by_value = places_by_value(alloc, pairs.values())?;
        Ok(BiMap { pairs, by_value })
    }

    /// Returns the key whose value is `value`, by O(log n) comparisons.
    pub fn get_key(&self, value: &V) -> Option<&I>
        ensures { option_copied result ≡ key_with V.cmp value.now self.now }
    {
        let values = self.pairs.values();
        let compared = |place: &usize| -> Ordering
            ensures { result ≡ compared_at V.cmp values.entry.now value.entry.now place.now }
        {
            match values.get(*place) {
                Some(at) => at.cmp(value),
                None => Ordering::Equal,
            }
        };
        let found = self.by_value.binary_search_by(compared);
        match found {
            Ok(at) => self.pairs.keys().get(self.by_value[at]),
            Err(_) => None,
        }
    }

    /// Returns the value at a key, by O(log n) comparisons.
    pub fn get(&self, key: &I) -> Option<&V>
        ensures { option_copied result ≡ value_at I.cmp key.now self.now }
    {
        self.pairs.get(key)
    }

    /// Returns the keys, which strictly rise.
    pub fn keys(&self) -> &[I]
        ensures keys { result.now ≡ keys_of self.now }
        ensures rise { KeysRise I.cmp self.now }
    {
        self.pairs.keys()
    }

    /// Returns the values, in the order of their keys. No two are equal.
    pub fn values(&self) -> &[V]
        ensures values { result.now ≡ values_of self.now }
        ensures differ { ValuesDiffer V.cmp self.now }
    {
        self.pairs.values()
    }

    /// Returns the number of pairs.
    pub fn len(&self) -> usize
        ensures { result ≡ length self.now }
    {
        self.pairs.len()
    }

    /// Returns whether the map has no pair.
    pub fn is_empty(&self) -> bool
        ensures { IsTrue result ↔ (length self.now ≡ 0) }
    {
        self.pairs.is_empty()
    }

    /// Returns the pairs as a sorted map.
    ///
    /// ```
    /// let map = BiMap::try_from_iter(alloc, vec![in alloc; ('b', 4), ('a', 6)]?)?;
    /// map.len(); // 2
    /// map.is_empty(); // false
    /// map.into_map().get(&'b'); // Some(4)
    /// ```
    pub fn into_map(self) -> Map<I, V>
        ensures pairs { result ≡ self }
        ensures differ { ValuesDiffer V.cmp self }
    {
        self.pairs
    }
}
