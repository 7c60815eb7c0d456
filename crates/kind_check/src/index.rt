ghost use Rattle.std.specs.Prelude.{◌≡◌, ◌-◌, [], ◌∷◌, ◌++◌, IsSome, OnOk, OnErr, length, take};
ghost use Rattle.kind_check.specs.Places.{place_of};

use std::alloc::{AllocError, Global};
use std::collections::HashMap;
use std::marker::Model;

/// Names in the order of a text, found by their first place in a time that doesn't grow with their
/// count.
#[derive(Drop)]
pub struct Index<'a> {
    names: Vec<&'a [u8]>,
    first: HashMap<&'a [u8], usize>,
}

impl<'a> Model for Index<'a> {
    ghost use Rattle.std.specs.Prelude.{List, ℕ, map};

    ghost Value = { List (List ℕ) };

    ghost use Rattle.kind_check.specs.FindsFirst.{FindsFirst};

    ghost view = { λ x. map (λ n. n.now) x.names.items };

    ghost invariant = { λ x. FindsFirst x.first (map (λ n. n.now) x.names.items) };
}

impl<'a> Index<'a> {
    /// No name; takes no memory.
    pub fn new(alloc: Global) -> Index<'a>
        ensures { result ≡ [] }
    {
        Index {
            names: Vec::new(alloc),
            first: HashMap::new(alloc),
        }
    }

    /// Adds a name behind the others; refused only when out of memory, which leaves the names as
    /// they were.
    pub fn add(&mut self, name: &'a [u8]) -> Result<(), AllocError>
        ensures ok { OnOk result (self.new ≡ self.old ++ name.now ∷ []) }
        ensures err { OnErr result (self.new ≡ self.old) }
    {
        let place = self.names.len();
        let is_known = self.first.contains_key(name);
        self.names.push(name)?;
        if is_known {
            return Ok(());
        }
        match self.first.insert(name, place) {
            Ok(_) => Ok(()),
            Err(refused) => {
                self.names.pop();
                Err(AllocError::from(refused))
            }
        }
    }

    /// The first place of a name, from 0.
    pub fn place(&self, name: &[u8]) -> Option<usize>
        ensures { result ≡ place_of self.now name.now }
    {
        self.first.get(name).copied()
    }

    /// The first place of a name that is there, from 0.
    pub fn known_place(&self, name: &[u8]) -> usize
        requires { IsSome (place_of self.now name.now) }
        ensures { place_of self.now name.now ≡ Some result }
    {
        self.place(name).unwrap()
    }

    /// How many names there are.
    pub fn len(&self) -> usize
        ensures { result ≡ length self.now }
    {
        self.names.len()
    }

    /// Keeps that many names, the first ones.
    pub fn truncate(&mut self, count: usize)
        ensures { self.new ≡ take count self.old }
    {
        while self.len() > count {
            self.pop();
        }
    }

    /// Takes the last name away, if there is one.
    fn pop(&mut self)
        ensures { self.new ≡ take (length self.old - 1) self.old }
    {
        let Some(name) = self.names.pop() else {
            return;
        };
        let place = self.names.len();
        let is_first = match self.first.get(name) {
            Some(first) => *first == place,
            None => false,
        };
        if is_first {
            self.first.remove(name);
        }
    }
}
