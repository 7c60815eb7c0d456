ghost use Rattle.std.specs.Prelude.{◌≡◌, ℕ, ◌<◌, IfOk, map, option_map};
ghost use Rattle.std.specs.List.{list_any};
ghost use Rattle.ids.specs.Named.{Name, item_in};
ghost use Rattle.ids.specs.Naming.{name_of_member};
ghost use Rattle.ids.specs.Ordered.{AreInOrder};
ghost use Rattle.heirs.specs.Chains.{name_of_chain, chain_of, reach_in, reach, then_on, gone_on, goes_on, end_of, first_of};

use ids::{Actor, Exact, Incarnation, Listed, Member, Named, SortedMap, Status, item_of};
use std::alloc::{AllocError, Global};
use std::marker::Model;

/// Where a chain of heirs is after some steps.
#[derive(Clone, Copy, PartialEq, Eq, Debug)]
pub enum Reach {
    /// It came to who has the work, or to nobody.
    Ended(Option<Actor>),
    /// It goes on at a worker.
    At(Incarnation),
}

impl Reach {
    /// Where a worker's chain is after its first step.
    fn first(worker: Incarnation, status: Status) -> Reach
        ensures { result ≡ first_of worker status }
    {
        match status {
            Status::Live => Reach::Ended(Some(Actor::worker(worker))),
            Status::Dead => Reach::Ended(None),
            Status::Left(heir) => Reach::At(heir),
        }
    }

    /// Who has the work at the end: nobody where the chain goes on.
    pub fn end(self) -> Option<Actor>
        ensures { result ≡ end_of self }
    {
        match self {
            Reach::Ended(bearer) => bearer,
            Reach::At(_) => None,
        }
    }
}

/// A listed worker, and where its chain of heirs is.
#[derive(Clone, Copy, PartialEq, Eq, Debug)]
pub struct Chain {
    pub worker: Incarnation,
    pub reach: Reach,
}

impl Exact for Chain {
    ghost exact = { λ source copy same. same };
}

/// A chain's name is its worker.
impl Named for Chain {
    ghost name_of = { name_of_chain };

    fn name(&self) -> (u64, u64) {
        (self.worker.word(), 0)
    }
}

/// The chains of a roster after their first step; of a worker that is listed twice, the first
/// counts.
pub fn first_step(alloc: Global, members: &[Member]) -> Result<SortedMap<Chain>, AllocError>
    ensures { IfOk result (λ table. (n : Name) → item_in name_of_chain n table
        ≡ option_map chain_of (item_in name_of_member n members.now)) }
{
    let mut table = SortedMap::new(alloc);
    for member in members {
        if table.get(member.name()).is_none() {
            table.put(Chain {
                worker: member.incarnation,
                reach: Reach::first(member.incarnation, member.status),
            })?;
        }
    }
    Ok(table)
}

/// Chains by rising worker. Beside each stands a guess of the place in the list of the worker that
/// it goes on at: a wrong one costs a search. Contracts see the chains.
#[derive(Drop)]
pub struct Chains {
    chains: Listed<Chain>,
    guesses: Listed<Option<usize>>,
}

impl Model for Chains {
    ghost use Rattle.std.specs.Prelude.{List};
    ghost use Rattle.heirs.specs.declared.bearers.chains.Chain.{Chain};

    ghost Value = { List Chain };

    ghost view = { λ c. c.chains };
}

impl Chains {
    /// The chains, one after another.
    pub fn as_slice(&self) -> &[Chain]
        ensures { result.now ≡ self.now }
    {
        self.chains.as_slice()
    }

    /// The guess for the chain at a place.
    fn guess(&self, place: usize) -> Option<usize> {
        match self.guesses.get(place) {
            Some(guess) => *guess,
            None => None,
        }
    }

    /// Where a worker's chain is, looked for at the guess first.
    fn reach(&self, worker: Incarnation, guess: Option<usize>) -> Reach
        requires { AreInOrder name_of_chain self.now }
        ensures { result ≡ reach_in self.now worker }
    {
        let chains = self.chains.as_slice();
        let place = guess.unwrap_or(0);
        if place < chains.len() && chains[place].worker == worker {
            return chains[place].reach;
        }
        match item_of(chains, (worker.word(), 0)) {
            Some(chain) => chain.reach,
            None => Reach::Ended(Some(Actor::worker(worker))),
        }
    }

    /// Where a chain is when it goes on as these say, and the guess for it.
    fn then(&self, reach: Reach, guess: Option<usize>) -> (Reach, Option<usize>)
        requires { AreInOrder name_of_chain self.now }
        ensures { result.0 ≡ then_on (reach_in self.now) reach }
    {
        match reach {
            Reach::Ended(bearer) => (Reach::Ended(bearer), guess),
            Reach::At(worker) => {
                let next = self.guess(guess.unwrap_or(0));
                (self.reach(worker, guess), next)
            }
        }
    }
}

/// The chains of a table, by rising worker.
pub fn listed(alloc: Global, table: &SortedMap<Chain>) -> Result<Listed<Chain>, AllocError>
    ensures { IfOk result (λ chains. chains ≡ table.now) }
{
    let mut chains = Listed::new(alloc);
    for chain in table.values() {
        chains.push(*chain)?;
    }
    Ok(chains)
}

/// Chains with guesses that are right.
pub fn guessed(alloc: Global, chains: &[Chain]) -> Result<Chains, AllocError>
    ensures { IfOk result (λ all. all ≡ chains.now) }
{
    let mut copies = Listed::new(alloc);
    let mut guesses = Listed::new(alloc);
    for chain in chains {
        copies.push(*chain)?;
        guesses.push(place_of(chains, chain.reach))?;
    }
    Ok(Chains {
        chains: copies,
        guesses,
    })
}

/// The place of the worker that a chain goes on at, in a list by rising worker.
fn place_of(chains: &[Chain], reach: Reach) -> Option<usize> {
    match reach {
        Reach::Ended(_) => None,
        Reach::At(worker) => chains
            .binary_search_by_key(&worker.word(), |chain| chain.worker.word())
            .ok(),
    }
}

/// The chains after so many steps, each as the list of one step says. Where none goes on any more,
/// all longer ones are the same.
pub fn after_steps(alloc: Global, step: &Chains, steps: usize) -> Result<Chains, AllocError>
    requires some { 0 < steps }
    requires order { AreInOrder name_of_chain step.now }
    ensures says { IfOk result (λ chains. (i : ℕ) → reach_in chains i ≡ reach steps step.now i) }
    ensures order { IfOk result (AreInOrder name_of_chain) }
{
    let half = steps / 2;
    if half == 0 {
        return guessed(alloc, step.as_slice());
    }
    let chains = after_steps(alloc, step, half)?;
    if !any_goes_on(&chains) {
        return Ok(chains);
    }
    let twice = joined(alloc, &chains, &chains)?;
    if steps % 2 == 0 {
        Ok(twice)
    } else {
        joined(alloc, &twice, step)
    }
}

/// Whether a chain goes on.
fn any_goes_on(chains: &Chains) -> bool
    ensures { result ≡ list_any (λ c. goes_on c.reach) chains.now }
{
    chains
        .as_slice()
        .iter()
        .any(|chain| matches!(chain.reach, Reach::At(_)))
}

/// The chains of one list, gone on as another says; a chain's place in both is the same.
fn joined(alloc: Global, chains: &Chains, next: &Chains) -> Result<Chains, AllocError>
    requires { AreInOrder name_of_chain next.now }
    ensures { IfOk result (λ longer. longer ≡ map (gone_on next.now) chains.now) }
{
    let mut longer = Listed::new(alloc);
    let mut guesses = Listed::new(alloc);
    for chain in chains.as_slice() {
        let (reach, guess) = next.then(chain.reach, chains.guess(longer.len()));
        longer.push(Chain {
            worker: chain.worker,
            reach,
        })?;
        guesses.push(guess)?;
    }
    Ok(Chains {
        chains: longer,
        guesses,
    })
}
