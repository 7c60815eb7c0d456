ghost use Rattle.std.specs.Prelude.{◌≡◌, ◌<◌, IfOk, IsSome, Some, length, option_copied, take};
ghost use Rattle.std.specs.Option.{is_some};
ghost use Rattle.kind_check.specs.Turns.{thread_of, use_of};
ghost use Rattle.kind_check.specs.Faults.{thread_named};
ghost use Rattle.kind_check.specs.Places.{thread_names, hole_names};

use crate::index::Index;
use std::alloc::{AllocError, Global};
use task_tree::{Given, Thread, Use};

/// The threads of a program, found by their names.
#[derive(Drop)]
pub struct Threads<'a> {
    pub all: &'a [Thread],
    names: Index<'a>,
    ghost indexed: { names ≡ thread_names all.now },
}

impl<'a> Threads<'a> {
    /// Takes memory for the names alone.
    pub fn new(alloc: Global, all: &'a [Thread]) -> Result<Threads<'a>, AllocError>
        ensures { IfOk result (λ t. t.all.now ≡ all.now) }
    {
        let mut names = Index::new(alloc);
        for thread in all {
            names.add(thread.name.text.as_slice())?;
        }
        Ok(Threads { all, names })
    }

    /// The first thread of a name.
    #[tactic(auto, using(crate::proofs::Places::thread_placed))]
    pub fn named(&self, name: &[u8]) -> Option<&'a Thread>
        ensures { option_copied result ≡ thread_named self.now.all.now name.now }
    {
        match self.names.place(name) {
            Some(place) => Some(&self.all[place]),
            None => None,
        }
    }

    /// The number of the first thread of a name that is there.
    #[tactic(auto, using(crate::proofs::Places::thread_numbered, crate::proofs::Places::thread_within))]
    pub fn number(&self, name: &[u8]) -> u8
        requires few { length self.now.all.now < 65 }
        requires known { IsSome (thread_of self.now.all.now name.now) }
        ensures { thread_of self.now.all.now name.now ≡ Some result }
    {
        self.names.known_place(name) as u8
    }

    /// Whether one of the first `count` threads has that name.
    #[tactic(auto, using(crate::proofs::Places::thread_among))]
    pub fn is_among(&self, count: usize, name: &[u8]) -> bool
        ensures { result ≡ is_some (thread_named (take count self.now.all.now) name.now) }
    {
        match self.names.place(name) {
            Some(place) => place < count,
            None => false,
        }
    }
}

/// The uses of a successor's holes, found by the names of the holes.
#[derive(Drop)]
pub struct Uses<'a> {
    pub all: &'a [Use],
    holes: Index<'a>,
    ghost indexed: { holes ≡ hole_names all.now },
}

impl<'a> Uses<'a> {
    /// Takes memory for the names alone.
    pub fn new(alloc: Global, all: &'a [Use]) -> Result<Uses<'a>, AllocError>
        ensures { IfOk result (λ u. u.all.now ≡ all.now) }
    {
        let mut holes = Index::new(alloc);
        for each in all {
            holes.add(each.hole.text.as_slice())?;
        }
        Ok(Uses { all, holes })
    }

    /// Whether a hole is used.
    #[tactic(auto, using(crate::proofs::Places::use_placed))]
    pub fn has(&self, hole: &[u8]) -> bool
        ensures { result ≡ is_some (use_of self.now.all.now hole.now) }
    {
        self.holes.place(hole).is_some()
    }

    /// What is given to a hole that is used.
    #[tactic(auto, using(crate::proofs::Places::use_placed, crate::proofs::Places::use_within, crate::proofs::Places::given_index))]
    pub fn given(&self, hole: &[u8]) -> &'a Given
        requires { IsSome (use_of self.now.all.now hole.now) }
        ensures { use_of self.now.all.now hole.now ≡ Some result.now }
    {
        let place = self.holes.known_place(hole);
        &self.all[place].given
    }

    /// Whether one of the first `count` uses is of that hole.
    #[tactic(auto, using(crate::proofs::Places::use_among))]
    pub fn is_among(&self, count: usize, hole: &[u8]) -> bool
        ensures { result ≡ is_some (use_of (take count self.now.all.now) hole.now) }
    {
        match self.holes.place(hole) {
            Some(place) => place < count,
            None => false,
        }
    }
}
