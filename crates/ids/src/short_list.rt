ghost use Rattle.std.specs.Prelude.{◌≡◌, ◌<◌, [], ◌∷◌, ◌++◌, length, IfOk, OnErr, OnOk, ◌==◌, slice_get, slice_set};

use smallvec::SmallVec;
use std::alloc::{AllocError, Global};
use std::default::MadeWith;
use std::marker::Model;

/// A list of mostly few items: up to `N` lie in the value itself, and more in memory of their own.
/// Contracts see the list of its items.
#[derive(Drop)]
pub struct ShortList<T, const N: usize> {
    items: SmallVec<T, N>,
}

/// The numbers that a thread takes.
pub type Numbers = ShortList<i64, 4>;

/// The slots of a frame: a number each, or none yet.
pub type Slots = ShortList<Option<i64>, 2>;

impl<T, const N: usize> Model for ShortList<T, N> {
    ghost use Rattle.std.specs.Prelude.{List};

    ghost Value = { List T };

    ghost view = { λ l. l.items.items };
}

impl<T, const N: usize> ShortList<T, N> {
    pub fn as_slice(&self) -> &[T]
        ensures { result.now ≡ self.now }
    {
        self.items.as_slice()
    }

    pub fn len(&self) -> usize
        ensures { result ≡ length self.now }
    {
        self.items.len()
    }

    pub fn is_empty(&self) -> bool
        ensures { result ≡ (length self.now == 0) }
    {
        self.items.is_empty()
    }
}

impl<T: Copy, const N: usize> ShortList<T, N> {
    /// The item at an index, where the list has it.
    pub fn get(&self, index: usize) -> Option<T>
        ensures { result ≡ slice_get self.now index }
    {
        self.items.as_slice().get(index).copied()
    }
}

impl<T: MadeWith<Global> + Copy, const N: usize> ShortList<T, N> {
    /// A copy of these items; refused only when out of memory, of which up to `N` take none.
    pub fn copy_of(alloc: Global, items: &[T]) -> Result<ShortList<T, N>, AllocError>
        ensures { IfOk result (λ l. l ≡ items.now) }
    {
        Ok(ShortList {
            items: SmallVec::from_slice(alloc, items)?,
        })
    }
}

impl<T: MadeWith<Global> + Drop, const N: usize> ShortList<T, N> {
    /// No items; takes no memory.
    pub fn new(alloc: Global) -> ShortList<T, N>
        ensures { result ≡ [] }
    {
        ShortList {
            items: SmallVec::new(alloc),
        }
    }

    /// No items, with room for `capacity` of them.
    pub fn with_capacity(alloc: Global, capacity: usize) -> Result<ShortList<T, N>, AllocError>
        ensures { IfOk result (λ l. l ≡ []) }
    {
        Ok(ShortList {
            items: SmallVec::with_capacity(alloc, capacity)?,
        })
    }

    /// The items of a `Vec`, which takes no memory.
    pub fn from_vec(items: Vec<T>) -> ShortList<T, N>
        ensures { result ≡ items.items }
    {
        ShortList {
            items: SmallVec::from_vec(items),
        }
    }

    /// Adds an item behind the others; refused only when out of memory, which leaves the list as it
    /// was.
    pub fn push(&mut self, item: T) -> Result<(), AllocError>
        ensures ok { OnOk result (self.new ≡ self.old ++ item ∷ []) }
        ensures err { OnErr result (self.new ≡ self.old) }
    {
        self.items.push(item)?;
        Ok(())
    }

    /// Writes an item at an index that the list has.
    pub fn put(&mut self, index: usize, item: T)
        requires { index < length self.old }
        ensures { self.new ≡ slice_set self.old index item }
    {
        self.items.as_mut_slice()[index] = item;
    }
}

/// The copy is equal.
impl<T: MadeWith<Global> + Copy, const N: usize> Clone for ShortList<T, N> {
    ghost is_clone = { λ source copy. copy ≡ source };

    fn clone(&self) -> Result<ShortList<T, N>, AllocError> {
        Ok(ShortList {
            items: SmallVec::from_slice(*self.items.allocator(), self.items.as_slice())?,
        })
    }
}
