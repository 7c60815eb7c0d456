ghost use Rattle.std.specs.Prelude.{◌≡◌, [], OnOk, length, take};
ghost use Rattle.kind_check.specs.Faults.{kind_of, with_name};

use crate::index::Index;
use crate::names::Kind;
use ids::Listed;
use std::alloc::{AllocError, Global};
use std::marker::Model;

/// The names in scope with their kinds, the outermost first.
#[derive(Drop)]
pub struct Scope<'a> {
    names: Index<'a>,
    kinds: Vec<Kind>,
}

impl<'a> Model for Scope<'a> {
    ghost use Rattle.std.specs.Prelude.{◌≡◌, List, ℕ, length};
    ghost use Rattle.std.specs.List.{zip};
    ghost use Rattle.kind_check.specs.declared.names.Kind.{Kind};

    ghost Value = { List (List ℕ × Kind) };

    ghost view = { λ s. zip s.names s.kinds.items };

    ghost invariant = { λ s. length s.names ≡ length s.kinds.items };
}

impl<'a> Scope<'a> {
    /// No name; takes no memory.
    pub fn new(alloc: Global) -> Scope<'a>
        ensures { result ≡ [] }
    {
        Scope {
            names: Index::new(alloc),
            kinds: Vec::new(alloc),
        }
    }

    /// Brings a name into scope, behind the others.
    #[tactic(auto, using(crate::proofs::Scopes::zip_push, crate::proofs::Scopes::length_more))]
    pub fn add(&mut self, name: &'a Listed<u8>, kind: Kind) -> Result<(), AllocError>
        ensures { OnOk result (self.new ≡ with_name self.old name.now kind) }
    {
        self.kinds.push(kind)?;
        match self.names.add(name.as_slice()) {
            Ok(()) => Ok(()),
            Err(error) => {
                self.kinds.pop();
                Err(error)
            }
        }
    }

    /// What a name stands for: the first of that name counts.
    #[tactic(auto, using(crate::proofs::Places::place_within, crate::proofs::Scopes::kind_at, crate::proofs::Scopes::kind_absent))]
    pub fn kind(&self, name: &[u8]) -> Option<Kind>
        ensures { result ≡ kind_of self.now name.now }
    {
        let place = self.names.place(name)?;
        Some(self.kinds[place])
    }

    /// How many names are in scope.
    #[tactic(auto, using(crate::proofs::Scopes::length_zip))]
    pub fn len(&self) -> usize
        ensures { result ≡ length self.now }
    {
        self.names.len()
    }

    /// Keeps that many names, the outermost.
    #[tactic(auto, using(crate::proofs::Scopes::take_zip))]
    pub fn truncate(&mut self, count: usize)
        ensures { self.new ≡ take count self.old }
    {
        self.names.truncate(count);
        self.kinds.truncate(count);
    }
}
