ghost use Rattle.std.specs.Prelude.{◌≡◌, ℕ, IfOk, map};
ghost use Rattle.ids.specs.Members.{resolve};
ghost use Rattle.heirs.specs.Bearers.{name_of_bearing, bearer_in};
ghost use Rattle.heirs.specs.Chains.{name_of_chain, bearing_of};
ghost use Rattle.ids.specs.Ordered.{AreInOrder};

mod chains;
mod following;

use chains::{Chain, after_steps, first_step, guessed, listed};
pub use following::bearer_of;
use ids::{Actor, Incarnation, Member, Named, SortedMap};
use std::alloc::{AllocError, Global};
use std::marker::Model;

/// A worker, and who has its work: nobody where it is dead.
#[derive(Clone, Copy, PartialEq, Eq, Debug)]
pub struct Bearing {
    pub worker: Incarnation,
    pub bearer: Option<Actor>,
}

/// A bearing's name is its worker.
impl Named for Bearing {
    ghost name_of = { name_of_bearing };

    fn name(&self) -> (u64, u64) {
        (self.worker.word(), 0)
    }
}

/// Who has the work of each worker of a roster. Contracts see the table, by rising worker.
#[derive(Drop)]
pub struct Bearers {
    table: SortedMap<Bearing>,
}

impl Model for Bearers {
    ghost use Rattle.std.specs.Prelude.{List};
    ghost use Rattle.heirs.specs.declared.bearers.Bearing.{Bearing};

    ghost Value = { List Bearing };

    ghost view = { λ b. b.table };
}

impl Bearers {
    /// Looks through a roster's members once: time about their number, times its logarithm, however
    /// long the chains of heirs are. Refused only when out of memory.
    pub fn of(alloc: Global, members: &[Member]) -> Result<Bearers, AllocError>
        ensures { IfOk result (λ b. (i : ℕ) → bearer_in i b ≡ resolve members.now i) }
    {
        let table = first_step(alloc, members)?;
        table.law_stand_in_order();
        let chains = listed(alloc, &table)?;
        let step = guessed(alloc, chains.as_slice())?;
        let chains = after_steps(alloc, &step, members.len() + 1)?;
        Ok(Bearers {
            table: ends(alloc, chains.as_slice())?,
        })
    }

    /// Who has a worker's work: itself where it lives or isn't listed, nobody where it is dead, and
    /// where it left, whoever has its heir's; a circle of heirs ends at nobody.
    pub fn bearer(&self, worker: Actor) -> Option<Actor>
        ensures { result ≡ bearer_in worker self.now }
    {
        match self.table.get((worker.word(), 0)) {
            Some(bearing) => bearing.bearer,
            None => Some(worker),
        }
    }
}

/// Who has the work at the end of each chain, of chains by rising worker.
fn ends(alloc: Global, chains: &[Chain]) -> Result<SortedMap<Bearing>, AllocError>
    requires { AreInOrder name_of_chain chains.now }
    ensures { IfOk result (λ table. table ≡ map bearing_of chains.now) }
{
    let mut table = SortedMap::new(alloc);
    for chain in chains {
        table.put(Bearing {
            worker: chain.worker,
            bearer: chain.reach.end(),
        })?;
    }
    Ok(table)
}
