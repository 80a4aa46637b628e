//! The map.

ghost use Rattle.std.specs.Prelude.{◌≡◌, List, [], length, map, None, OnOk, OnErr, IfOk};
ghost use Rattle.std.specs.BTreeMap.{insert_entry};
ghost use Rattle.std.specs.List.{IsDistinct};
ghost use Rattle.std.specs.List.Sorted.{IsStrictlySortedBy};
ghost use Rattle.std.specs.Map.{keys_of, lookup};
ghost use Rattle.std.specs.Map.Calls.{CalledAtPair, RetainsPairs, TakesPair};
ghost use Rattle.std.specs.Map.Iter.{deref_pair};
ghost use Rattle.std.specs.Ordering.{eq_by_cmp};
ghost use Rattle.sq_words.specs.Lists.{sort_by};
ghost use Rattle.sq_value.specs.declared.Value.{Value as Datum};
ghost use Rattle.sq_value.specs.Values.{fields_cmp};
ghost use Rattle.sq_groups.specs.Ordered.{group_earlier, in_order, is_at, StandsInOrder};

use crate::key::Key;
use crate::picked::Picked;
use indexmap::IndexMap;
use std::alloc::{AllocError, Global};
use std::marker::Model;

/// A value for each group that is there. Contracts see the groups with their values, in the order of groups.
///
/// Groups mostly stay from window to window, so their order is found once and kept: while `sorted` holds, the entries stand
/// in it, and nobody has to sort them.
#[derive(Drop)]
pub struct GroupMap<V> {
    held: IndexMap<Key, V>,
    sorted: bool,
}

impl<V> Model for GroupMap<V> {
    ghost use Rattle.std.specs.Prelude.{List};
    ghost use Rattle.sq_value.specs.declared.Value.{Value as Datum};
    ghost use Rattle.sq_groups.specs.Ordered.{in_order, StandsInOrder};

    ghost Value = { List (List Datum × V) };

    ghost view = { λ m. in_order m.held.entries };

    ghost invariant = { λ m. StandsInOrder m.sorted m.held.entries };
}

/// All entries, as they stand.
fn entries_of<'a, V>(
    alloc: Global,
    held: &'a IndexMap<Key, V>,
) -> Result<Vec<(&'a Key, &'a V)>, AllocError>
    ensures entries { IfOk result (λ es. map deref_pair es.items ≡ held.now.entries) }
    ensures apart { IfOk result (λ es. IsDistinct (eq_by_cmp fields_cmp) (keys_of held.now.entries)) }
{
    let mut entries = Vec::with_capacity(alloc, held.len())?;
    for (key, value) in held.iter() {
        entries.push((key, value))?;
    }
    Ok(entries)
}

/// Puts entries of different groups in the order of groups.
fn sort_entries<V>(entries: &mut Vec<(&Key, &V)>) -> Result<(), AllocError>
    ensures { OnOk result (map deref_pair entries.new.items ≡ sort_by group_earlier (map deref_pair entries.old.items)) }
{
    entries.sort_by(|a, b| a.0.cmp(b.0))
}

/// Puts the entries of a map into the order of groups, unless they stand in it, and says whether they do now. For want of
/// memory they stay as they stand.
fn sort_held<V>(held: &mut IndexMap<Key, V>, sorted: bool) -> bool
    ensures same { in_order held.new.entries ≡ in_order held.old.entries }
    ensures order { StandsInOrder sorted held.old.entries → StandsInOrder result held.new.entries }
{
    if sorted {
        return true;
    }
    // The length is what says that no group stands twice.
    let _count = held.len();
    match held.sort_by(|a, _, b, _| a.cmp(b)) {
        Ok(()) => true,
        Err(_) => false,
    }
}

impl<V> GroupMap<V> {
    /// No group.
    pub fn new(alloc: Global) -> GroupMap<V>
        ensures { result ≡ [] }
    {
        GroupMap {
            held: IndexMap::new(alloc),
            sorted: true,
        }
    }

    /// How many groups.
    pub fn len(&self) -> usize
        ensures count { result ≡ length self.now }
        ensures ordered { IsStrictlySortedBy fields_cmp (keys_of self.now) }
    {
        self.held.len()
    }

    /// The groups with their values, in order.
    pub fn entries(&self, alloc: Global) -> Result<Vec<(&Key, &V)>, AllocError>
        ensures entries { IfOk result (λ es. map deref_pair es.items ≡ self.now) }
        ensures ordered { IfOk result (λ es. IsStrictlySortedBy fields_cmp (keys_of self.now)) }
    {
        let mut entries = entries_of(alloc, &self.held)?;
        if self.sorted {
            return Ok(entries);
        }
        sort_entries(&mut entries)?;
        Ok(entries)
    }
}

impl<V> GroupMap<V> {
    ghost use Rattle.std.specs.Prelude.{◌≡◌};
    ghost use Rattle.std.specs.Borrow.{sem};
    ghost use Rattle.std.specs.Map.{lookup};
    ghost use Rattle.std.specs.Option.{option_copied_mut};
    ghost use Rattle.sq_groups.specs.Lends.{lends_at};
    ghost use Rattle.sq_groups.specs.Ordered.{is_at};

    /// The value of a group, to be written.
    #[inline(always)]
    pub fn get_mut(&mut self, key: &Key) -> Option<&mut V>
        ensures* writes_back { sem 𝓛 (lends_at V.row self.entry key.now result) }
        ensures value { option_copied_mut result ≡ lookup (is_at key.now) self.old }
    {
        self.held.get_mut(key)
    }

    /// The value of a group that is looked up by the values of a tuple, to be written.
    #[inline(always)]
    pub fn get_mut_at(&mut self, picked: &Picked<'_>) -> Option<&mut V>
        ensures* writes_back { sem 𝓛 (lends_at V.row self.entry picked.now result) }
        ensures value { option_copied_mut result ≡ lookup (is_at picked.now) self.old }
    {
        self.held.get_mut(picked)
    }
}

impl<V> GroupMap<V> {
    /// Puts the entries into the order of groups, unless they stand in it, so that nobody has to sort them until another group
    /// comes. For want of memory they stay as they stand.
    pub fn put_in_order(&mut self)
        ensures { self.new ≡ self.old }
    {
        self.sorted = sort_held(&mut self.held, self.sorted);
    }
}

impl<V: Drop> GroupMap<V> {
    /// A value for a group that has none. After want of memory the map is as it was.
    pub fn insert(&mut self, key: Key, value: V) -> Result<(), AllocError>
        requires { lookup (is_at key) self.old ≡ None }
        ensures entries { OnOk result (self.new ≡ insert_entry fields_cmp self.old key value) }
        ensures err { OnErr result (self.new ≡ self.old) }
    {
        self.held.insert(key, value)?;
        self.sorted = false;
        Ok(())
    }

    /// Keeps the groups for which `keep` returns `true`. It is asked of them in any order. Where their order isn't known, they
    /// are put into it first, so that it is known until another group comes.
    pub fn retain<F: FnMut(&Key, &mut V) -> bool>(&mut self, keep: F)
        requires { (state : F) (k : List Datum) (v : V) → TakesPair F.FnMut state k v }
        ensures kept { (es : List (List Datum × V)) × (kept : List (List Datum × V)) × (self.old ≡ in_order es) × (self.new ≡ in_order kept)
            × IsDistinct (eq_by_cmp fields_cmp) (keys_of es) × RetainsPairs (CalledAtPair F.FnMut) keep es kept }
    {
        self.sorted = sort_held(&mut self.held, self.sorted);
        // The length is what says that no group stands twice.
        let _count = self.held.len();
        self.held.retain(keep);
    }

    /// Takes all groups out.
    pub fn clear(&mut self)
        ensures empty { self.new ≡ [] }
    {
        self.held.clear();
        self.sorted = true;
    }
}
