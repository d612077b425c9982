//! Values under names, as far as there is room for them.
ghost use Rattle.std.specs.Prelude.{◌≡◌, ◌≤◌, ◌<◌, ◌+◌, ◌^◌, if◌then◌else◌, true, false};
ghost use Rattle.std.specs.Prelude.{None, Some, ℕ, List, option_copied, IfSome, IfNone};
ghost use Rattle.std.specs.Option.{option_or};
ghost use Rattle.std.specs.FinMap as map;
ghost use Rattle.canary_tables.specs.CacheMaps.{IsWithin, weights, weight_if, value_if, first_of};
ghost use Rattle.canary_tables.specs.CacheMaps.{at_name, IsPut, IsEntered};

use canary_base::names::Name;
use std::alloc::Global;
use std::collections::BTreeMap;
use std::marker::Model;
use std::mem;

/// A value, and what it weighs.
#[derive(Drop)]
pub(crate) struct Weighed<V: Drop> {
    pub(crate) value: V,
    pub(crate) weight: u64,
}

/// Values under names, which together weigh no more than there is room for. If there is no room for
/// one more, others leave, of those that were put first.
#[derive(Drop)]
pub(crate) struct CacheMap<V: Drop> {
    recent: BTreeMap<Name, Weighed<V>>,
    earlier: BTreeMap<Name, Weighed<V>>,
    weight: u64,
    room: u64,
}

impl<V: Drop> Model for CacheMap<V> {
    ghost use Rattle.std.specs.Prelude.{◌≡◌, ◌+◌, ◌≤◌, List, ℕ, map, ◌++◌};
    ghost use Rattle.std.specs.Ordering.{nat_cmp};
    ghost use Rattle.std.specs.Cmp.Lexicographic.{slice_cmp};
    ghost use Rattle.std.specs.FinMap as maps;
    ghost use Rattle.std.specs.Coded.{coded_ℕ, coded_list};
    ghost use Rattle.canary_tables.specs.CacheMaps.{unweighed, weights};

    ghost Value = { maps.FinMap (slice_cmp nat_cmp) V };

    ghost coded = { maps.code (coded_list coded_ℕ) V.code };

    ghost view = { λ s. maps.from_entries
        (map unweighed (s.recent.entries ++ s.earlier.entries)) };

    ghost invariant = { λ s. (weights s.recent.entries + weights s.earlier.entries ≡ s.weight)
        × (s.weight ≤ s.room) };
}

impl<V: Drop> CacheMap<V> {
    /// Nothing, with room for this weight; it takes no memory.
    pub(crate) fn new(alloc: Global, room: u64) -> CacheMap<V>
        ensures { result ≡ map.empty }
    {
        CacheMap {
            recent: BTreeMap::new(alloc),
            earlier: BTreeMap::new(alloc),
            weight: 0,
            room,
        }
    }

    /// The value under a name, if it is kept.
    pub(crate) fn get(&self, name: Name) -> Option<&V>
        ensures { option_copied result ≡ map.get self.now name }
    {
        match find(&self.recent, &self.earlier, name) {
            Some(found) => Some(&found.value),
            None => None,
        }
    }

    /// Takes the value under a name out, if it is kept.
    pub(crate) fn take(&mut self, name: Name) -> Option<V>
        ensures value { result ≡ map.get self.old name }
        ensures rest { self.new ≡ map.remove self.old name }
    {
        let recent = self.recent.remove(&name);
        let earlier = self.earlier.remove(&name);
        self.weight -= weight_of(&recent);
        self.weight -= weight_of(&earlier);
        value_in(recent, earlier)
    }

    /// Puts a value of this weight under a name, in place of one that is there. Others may leave
    /// for it. It says whether it is kept: it is not if it weighs more than there is room for at
    /// all, or if memory is refused. Then one that was there is gone, too.
    pub(crate) fn put(&mut self, name: Name, value: V, weight: u64) -> bool
        ensures within { IsWithin self.new (map.insert self.old name value) }
        ensures kept { result ≡ true → map.get self.new name ≡ Some value }
    {
        match replace(&mut self.recent, name, value, weight) {
            Some(value) => {
                let _ = self.take(name);
                self.put_new(name, value, weight)
            }
            None => true,
        }
    }

    // Puts a value of this weight under a name that has none, for which others may leave.
    fn put_new(&mut self, name: Name, value: V, weight: u64) -> bool
        requires { map.get self.old name ≡ None }
        ensures within { IsWithin self.new (map.insert self.old name value) }
        ensures kept { result ≡ true → map.get self.new name ≡ Some value }
    {
        self.make_room(weight);
        if weight > self.room - self.weight {
            return false;
        }
        enter(&mut self.recent, &mut self.weight, name, value, weight)
    }

    // Others leave if there is no room for this weight.
    fn make_room(&mut self, weight: u64)
        ensures { IsWithin self.new self.old }
    {
        let most = self.recent.len() + self.earlier.len();
        for _ in 0..most {
            if weight <= self.room - self.weight {
                return;
            }
            self.evict();
        }
    }

    // One leaves of those that were put first, if any is there.
    fn evict(&mut self)
        ensures { IsWithin self.new self.old }
    {
        turn(&mut self.recent, &mut self.earlier);
        if let Some((_, gone)) = self.earlier.pop_first() {
            self.weight -= gone.weight;
        }
    }
}

// Enters a value of this weight under a name that has none, and adds the weight to the sum. It says
// whether it did: it does not if memory is refused.
fn enter<V: Drop>(
    entries: &mut BTreeMap<Name, Weighed<V>>,
    sum: &mut u64,
    name: Name,
    value: V,
    weight: u64,
) -> bool
    requires free { at_name entries.old.entries name ≡ None }
    requires fits { sum.old + weight < 2 ^ 64 }
    ensures sum { sum.new ≡ (if result then sum.old + weight else sum.old) }
    ensures weights { weights entries.new.entries
        ≡ (if result then weights entries.old.entries + weight else weights entries.old.entries) }
    ensures entered { result ≡ true → IsEntered entries.old.entries entries.new.entries name
        (record { value = value; weight = weight }) }
    ensures refused { result ≡ false → entries.new.entries ≡ entries.old.entries }
{
    match entries.insert(name, Weighed { value, weight }) {
        Ok(_) => {
            *sum += weight;
            true
        }
        Err(_) => false,
    }
}

// Puts a value in place of the one under that name, if one is there that weighs no less. A value
// that is not put comes back.
fn replace<V: Drop>(
    entries: &mut BTreeMap<Name, Weighed<V>>,
    name: Name,
    value: V,
    weight: u64,
) -> Option<V>
    ensures weights { weights entries.new.entries ≡ weights entries.old.entries }
    ensures back { IfSome result (λ back. (back ≡ value)
        × (entries.new.entries ≡ entries.old.entries)) }
    ensures put { IfNone result (IsPut entries.old.entries entries.new.entries name value) }
    ensures weight { IfNone result (weight ≤ weight_if (at_name entries.new.entries name)) }
{
    match entries.get_mut(&name) {
        Some(there) if weight <= there.weight => {
            // The old weight stays: the value weighs no more, and the sum stays as it is.
            there.value = value;
            None
        }
        _ => Some(value),
    }
}

// If none is left of those that were put first, the others take their place.
fn turn<V: Drop>(recent: &mut BTreeMap<Name, Weighed<V>>, earlier: &mut BTreeMap<Name, Weighed<V>>)
    ensures same { (name : List ℕ) → first_of recent.new.entries earlier.new.entries name
        ≡ first_of recent.old.entries earlier.old.entries name }
    ensures weights { weights recent.new.entries + weights earlier.new.entries
        ≡ weights recent.old.entries + weights earlier.old.entries }
{
    if earlier.is_empty() {
        mem::swap(recent, earlier);
    }
}

// The weight of an entry; 0 if there is no entry.
fn weight_of<V: Drop>(found: &Option<Weighed<V>>) -> u64
    ensures { result ≡ weight_if found.now }
{
    match found {
        Some(found) => found.weight,
        None => 0,
    }
}

// The entry of that name in one of these maps, the first of them first.
fn find<'a, V: Drop>(
    recent: &'a BTreeMap<Name, Weighed<V>>,
    earlier: &'a BTreeMap<Name, Weighed<V>>,
    name: Name,
) -> Option<&'a Weighed<V>>
    ensures { option_copied result ≡ first_of recent.now.entries earlier.now.entries name }
{
    match recent.get(&name) {
        Some(found) => Some(found),
        None => earlier.get(&name),
    }
}

// The value of the first that there is.
fn value_in<V: Drop>(recent: Option<Weighed<V>>, earlier: Option<Weighed<V>>) -> Option<V>
    ensures { result ≡ value_if (option_or recent earlier) }
{
    match recent {
        Some(found) => Some(found.value),
        None => value_if(earlier),
    }
}

// The value of an entry, if there is one.
fn value_if<V: Drop>(found: Option<Weighed<V>>) -> Option<V>
    ensures { result ≡ value_if found }
{
    match found {
        Some(found) => Some(found.value),
        None => None,
    }
}
