ghost use Rattle.std.specs.Prelude.{◌≡◌, ◌+◌, ◌≤◌, ◌++◌, ◌<◌, true, slice_index_or, OnOk, OnErr, IfOk, IfErr, IfSome, IsSome, IsSomeAnd, option_copied, length, map, [], ⊤, vec_len, vec_capacity};
ghost use Rattle.std.specs.Iterator.{at_most};
ghost use Rattle.std.specs.Map.Iter.{TakesFirst, deref};
ghost use Rattle.slab.specs.Slab as slots;
ghost use Rattle.ids.specs.Named.{Name, item_in, put_in, without_in, changed_in};
ghost use Rattle.ids.specs.Ordered.{AreInOrder};
ghost use Rattle.ids.specs.Stored.{items_at, IsFilled, IsFound, IsMissing};
ghost use Rattle.ids.specs.declared.sorted_map.Entry as declared;

use slab::Slab;
use std::alloc::{AllocError, Global};
use std::iter::FusedIterator;
use std::marker::Model;

/// What has a name, of two numbers, in itself.
pub trait Named {
    ghost name_of: { Self → Name };

    /// The name.
    fn name(&self) -> (u64, u64)
        ensures { result ≡ name_of self.now };
}

/// A value whose copy is equal to it.
pub trait Exact: Clone {
    ghost exact: { (value copy : Self) → Self.is_clone value copy → copy ≡ value };
}

/// A change of items that keeps their names, and the items that it may be made on.
pub trait ItemChange<X: Named> {
    ghost fits: { Self → X → Type 0 };

    ghost changed: { Self → X → X };

    /// Changes an item; takes no memory.
    fn apply(&self, item: &mut X)
        requires { fits self.now item.old }
        ensures { item.new ≡ changed self.now item.old };

    ghost keeps_name: { (change : Self) (item : X) → X.name_of (changed change item) ≡ X.name_of item };
}

/// A change of items that takes memory, which may be wanting; it keeps their names. Of which items
/// it may be made.
pub trait TryItemChange<X: Named> {
    ghost fits: { Self → X → Type 0 };

    ghost changed: { Self → X → X };

    /// Changes an item; refused only when out of memory, which changes nothing.
    fn try_apply(self, item: &mut X) -> Result<(), AllocError>
        requires { fits self item.old }
        ensures ok { OnOk result (item.new ≡ changed self item.old) }
        ensures err { OnErr result (item.new ≡ item.old) };

    ghost keeps_name: { (change : Self) (item : X) → X.name_of (changed change item) ≡ X.name_of item };
}

/// Where the item of a name is kept.
#[derive(Clone, Copy)]
struct Entry {
    name: (u64, u64),
    key: usize,
}

/// Items by their names, each once. Contracts see the list of them, by rising name.
#[derive(Drop)]
pub struct SortedMap<X: Named> {
    alloc: Global,
    // By rising name.
    entries: Vec<Entry>,
    items: Slab<X>,
}

impl<X: Named> Model for SortedMap<X> {
    ghost use Rattle.std.specs.Prelude.{List};
    ghost use Rattle.ids.specs.Stored.{items_at, IsStored};

    ghost Value = { List X };

    ghost view = { λ a. items_at a.items a.entries.items };

    ghost invariant = { λ a. IsStored X.name_of a.items a.entries.items };
}

/// The items of a map that are left, by rising name.
#[derive(Drop)]
pub struct Values<'a, X> {
    entries: &'a [Entry],
    items: &'a Slab<X>,
}

impl<'a, X> Model for Values<'a, X> {
    ghost use Rattle.std.specs.Prelude.{List};
    ghost use Rattle.ids.specs.Stored.{items_at, AreHeld};

    ghost Value = { List X };

    ghost view = { λ a. items_at a.items.now a.entries.now };

    ghost invariant = { λ a. AreHeld a.items.now a.entries.now };
}

impl<'a, X> Clone for Values<'a, X> {
    ghost is_clone = { λ source copy. copy ≡ source };

    ghost is_infallible = { λ _. ⊤ };

    fn clone(&self) -> Result<Values<'a, X>, AllocError> {
        Ok(Values {
            entries: self.entries,
            items: self.items,
        })
    }
}

impl<'a, X> Iterator for Values<'a, X> {
    type Item = &'a X;

    ghost next_gives = { TakesFirst deref };

    ghost remaining = { λ s. at_most (length s) };

    fn next(&mut self) -> Option<&'a X> {
        let Some((entry, rest)) = self.entries.split_first() else {
            return None;
        };
        self.entries = rest;
        self.items.get(entry.key)
    }

    fn size_hint(&self) -> (usize, Option<usize>) {
        let len = self.len();
        (len, Some(len))
    }
}

impl<'a, X> FusedIterator for Values<'a, X> {}

impl<'a, X> ExactSizeIterator for Values<'a, X> {
    fn len(&self) -> usize {
        self.entries.len()
    }
}

impl<X: Named> SortedMap<X> {
    /// No items; takes no memory.
    pub fn new(alloc: Global) -> SortedMap<X>
        ensures { result ≡ [] }
    {
        SortedMap {
            alloc,
            entries: Vec::new(alloc),
            items: Slab::new(alloc),
        }
    }

    /// The item of a name, if there is one.
    pub fn get(&self, name: (u64, u64)) -> Option<&X>
        ensures same { option_copied result ≡ item_in X.name_of name self.now }
        ensures name { IfSome result (λ x. X.name_of x.now ≡ name) }
    {
        match find(self.entries.as_slice(), name) {
            Ok((_, key)) => self.items.get(key),
            Err(_) => None,
        }
    }

    /// The items, one after another.
    pub fn values(&self) -> Values<'_, X>
        ensures { result ≡ self.now }
    {
        Values {
            entries: self.entries.as_slice(),
            items: &self.items,
        }
    }

    /// How many items there are.
    pub fn len(&self) -> usize
        ensures { result ≡ length self.now }
    {
        self.entries.len()
    }

    /// The items stand by rising name, each name once. Does nothing.
    pub fn law_stand_in_order(&self)
        ensures { AreInOrder X.name_of self.now }
    {
        let _ = &self.items;
    }

    /// Changes the item of a name, which is there; takes no memory.
    pub fn change<C: ItemChange<X>>(&mut self, name: (u64, u64), change: &C)
        requires { IsSomeAnd (item_in X.name_of name self.old) (C.fits change.now) }
        ensures { self.new ≡ changed_in X.name_of (C.changed change.now) name self.old }
    {
        match find(self.entries.as_slice(), name) {
            Ok((_, key)) => change_at(&mut self.items, key, change),
            Err(_) => unreachable!(),
        }
    }
}

impl<X: Named> SortedMap<X> {
    /// Changes the item of a name, which is there, where it stands; refused only when out of
    /// memory, which changes nothing.
    pub fn try_change<C: TryItemChange<X>>(
        &mut self,
        name: (u64, u64),
        change: C,
    ) -> Result<(), AllocError>
        requires { IsSomeAnd (item_in X.name_of name self.old) (C.fits change) }
        ensures ok { OnOk result (self.new ≡ changed_in X.name_of (C.changed change) name self.old) }
        ensures err { OnErr result (self.new ≡ self.old) }
    {
        match find(self.entries.as_slice(), name) {
            Ok((_, key)) => {
                try_change_at(&mut self.items, key, change)?;
                Ok(())
            }
            Err(_) => unreachable!(),
        }
    }
}

impl<X: Named + Drop> SortedMap<X> {
    /// Puts an item under its name; refused only when out of memory, which changes nothing.
    pub fn put(&mut self, item: X) -> Result<(), AllocError>
        ensures ok { OnOk result (self.new ≡ put_in X.name_of item self.old) }
        ensures err { OnErr result (self.new ≡ self.old) }
    {
        let name = item.name();
        match find(self.entries.as_slice(), name) {
            Ok((_, key)) => {
                put_at(&mut self.items, key, item);
                Ok(())
            }
            Err(at) => {
                self.items.reserve(1)?;
                let key = self.items.vacant_key();
                self.entries.insert(at, Entry { name, key })?;
                self.items.insert_reserved(item);
                Ok(())
            }
        }
    }

    /// Puts an item in the place of that of its name, which is there; takes no memory.
    pub fn replace(&mut self, item: X)
        requires { IsSome (item_in X.name_of (X.name_of item) self.old) }
        ensures { self.new ≡ put_in X.name_of item self.old }
    {
        match find(self.entries.as_slice(), item.name()) {
            Ok((_, key)) => put_at(&mut self.items, key, item),
            Err(_) => unreachable!(),
        }
    }

    /// Adds items that stand by rising name behind the others, whose names are all below theirs;
    /// refused only when out of memory, which changes nothing.
    pub fn append(&mut self, items: Vec<X>) -> Result<(), AllocError>
        requires { AreInOrder X.name_of (self.old ++ items.items) }
        ensures ok { OnOk result (self.new ≡ self.old ++ items.items) }
        ensures err { OnErr result (self.new ≡ self.old) }
    {
        self.entries.reserve(items.len())?;
        self.items.reserve(items.len())?;
        push_all(&mut self.entries, &mut self.items, items);
        Ok(())
    }

    /// Changes all items, by a change that may be made on any; takes no memory.
    pub fn change_all<C: ItemChange<X>>(&mut self, change: &C)
        requires { (item : X) → C.fits change.now item }
        ensures { self.new ≡ map (C.changed change.now) self.old }
    {
        self.items.retain(|_, item| {
            change.apply(item);
            true
        });
    }

    /// Takes an item away.
    pub fn take(&mut self, name: (u64, u64)) -> Option<X>
        ensures same { result ≡ item_in X.name_of name self.old }
        ensures gone { self.new ≡ without_in X.name_of name self.old }
    {
        match find(self.entries.as_slice(), name) {
            Ok((at, key)) => {
                self.entries.remove(at);
                self.items.try_remove(key)
            }
            Err(_) => None,
        }
    }

    /// Takes an item away, as `take` does, and lets it go where it stands.
    pub fn discard(&mut self, name: (u64, u64))
        ensures { self.new ≡ without_in X.name_of name self.old }
    {
        match find(self.entries.as_slice(), name) {
            Ok((at, key)) => {
                self.entries.remove(at);
                let _gone = self.items.remove(key);
            }
            Err(_) => {}
        }
    }
}

impl<X: Named + Exact> Clone for SortedMap<X> {
    ghost is_clone = { λ source copy. copy ≡ source };

    fn clone(&self) -> Result<SortedMap<X>, AllocError> {
        let mut items = SortedMap::new(self.alloc);
        for item in self.values() {
            items.put(item.clone()?)?;
        }
        Ok(items)
    }
}

/// The item of a name among items that stand by rising name, found by binary search; takes no
/// memory.
pub fn item_of<X: Named>(items: &[X], name: (u64, u64)) -> Option<&X>
    requires { AreInOrder X.name_of items.now }
    ensures { option_copied result ≡ item_in X.name_of name items.now }
{
    match items.binary_search_by_key(&name, |item| item.name()) {
        Ok(at) => Some(&items[at]),
        Err(_) => None,
    }
}

/// Where the entry of a name stands, and its key; where there is none, where it would stand. Those
/// that came last are looked at first, since they are what is mostly looked for.
#[inline(always)]
fn find(entries: &[Entry], name: (u64, u64)) -> Result<(usize, usize), usize>
    requires { AreInOrder (λ e. e.name) entries.now }
    ensures found { IfOk result (λ found. IsFound name entries.now found.0 found.1) }
    ensures missing { IfErr result (λ at. IsMissing name entries.now at) }
{
    if let Some(at) = among_last(entries, name) {
        return Ok((at, entries[at].key));
    }
    match entries.binary_search_by_key(&name, |entry| entry.name) {
        Ok(at) => Ok((at, entries[at].key)),
        Err(at) => Err(at),
    }
}

/// Where the entry of a name stands, if it is one of the last three.
fn among_last(entries: &[Entry], name: (u64, u64)) -> Option<usize>
    ensures { IfSome result (λ at. (at < length entries.now)
        × ((d : declared.Entry) → (slice_index_or entries.now at d).name ≡ name)) }
{
    let len = entries.len();
    if 1 <= len && is_of(&entries[len - 1], name) {
        return Some(len - 1);
    }
    if 2 <= len && is_of(&entries[len - 2], name) {
        return Some(len - 2);
    }
    if 3 <= len && is_of(&entries[len - 3], name) {
        return Some(len - 3);
    }
    None
}

/// Whether an entry is of a name.
fn is_of(entry: &Entry, name: (u64, u64)) -> bool
    ensures { result ≡ true → entry.now.name ≡ name }
{
    entry.name.0 == name.0 && entry.name.1 == name.1
}

/// Adds items behind the others, where there is room for them.
fn push_all<X: Named + Drop>(entries: &mut Vec<Entry>, items: &mut Slab<X>, more: Vec<X>)
    requires room { vec_len entries.old + vec_len more ≤ vec_capacity entries.old }
    requires slots { slots.HasRoomFor items.old (vec_len more) }
    requires filled { IsFilled X.name_of items.old entries.old.items }
    ensures filled { IsFilled X.name_of items.new entries.new.items }
    ensures list { items_at items.new entries.new.items ≡ items_at items.old entries.old.items ++ more.items }
{
    for item in more {
        let name = item.name();
        let key = items.insert_reserved(item);
        entries.push_reserved(Entry { name, key });
    }
}

/// Puts an item in the place of that at a key.
fn put_at<X: Drop>(items: &mut Slab<X>, key: usize, item: X)
    requires { slots.ContainsKey items.old key }
    ensures { items.new ≡ slots.with_value items.old key item }
{
    items[key] = item;
}

/// Changes the item at a key.
fn change_at<X: Named, C: ItemChange<X>>(items: &mut Slab<X>, key: usize, change: &C)
    requires { IsSomeAnd (slots.get items.old key) (C.fits change.now) }
    ensures { IfSome (slots.get items.old key) (λ x. items.new
        ≡ slots.with_value items.old key (C.changed change.now x)) }
{
    match items.get_mut(key) {
        Some(there) => change.apply(there),
        None => unreachable!(),
    }
}

/// Changes the item at a key, unless memory is wanting.
fn try_change_at<X: Named, C: TryItemChange<X>>(
    items: &mut Slab<X>,
    key: usize,
    change: C,
) -> Result<(), AllocError>
    requires { IsSomeAnd (slots.get items.old key) (C.fits change) }
    ensures ok { OnOk result (IfSome (slots.get items.old key) (λ x. items.new
        ≡ slots.with_value items.old key (C.changed change x))) }
    ensures err { OnErr result (items.new ≡ items.old) }
{
    match items.get_mut(key) {
        Some(there) => change.try_apply(there),
        None => unreachable!(),
    }
}
