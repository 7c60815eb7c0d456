ghost use Rattle.std.specs.Prelude.{◌≡◌, ◌≤◌, ◌<◌, ◌↔◌, IfSome, IsSome, Some};
ghost use Rattle.runner_parts.specs.Configs.{IsConfig};

use grain::Grain;
use std::marker::Model;

/// The faults of a run. They are drawn from a word, so the same word draws the same ones at each
/// place.
#[derive(Clone, Copy, Debug, PartialEq, Eq)]
pub struct Faults {
    /// The word from which all is drawn.
    pub word: u64,
    /// One packet in so many is lost; none for 0.
    pub lose: u64,
    /// One packet in so many comes twice; none for 0.
    pub repeat: u64,
    /// How many events are committed before those are counted after which crashes and departures
    /// come.
    pub after: u64,
    /// How many crashes of nodes come, one after each 50 events.
    pub crashes: u64,
    /// How many nodes leave, the first one 25 events after the first crash, and one after each 50
    /// events.
    pub departures: u64,
}

impl Faults {
    /// None.
    pub fn none() -> Faults {
        Faults {
            word: 0,
            lose: 0,
            repeat: 0,
            after: 0,
            crashes: 0,
            departures: 0,
        }
    }
}

/// How a run is made. Contracts see the counts of nodes and of body workers, the faults, and the
/// greatest count of turns.
#[derive(Drop)]
pub struct RunConfig {
    nodes: u8,
    bodies: u8,
    faults: Faults,
    turns: u64,
    grain: u64,
}

impl Model for RunConfig {
    ghost use Rattle.runner_parts.specs.Configs.{ConfigOf, IsConfig};

    ghost Value = { ConfigOf };

    ghost view = { λ c. record { nodes = c.nodes; bodies = c.bodies; faults = c.faults; turns = c.turns } };

    ghost invariant = { λ c. IsConfig (record { nodes = c.nodes; bodies = c.bodies; faults = c.faults; turns = c.turns }) };
}

impl RunConfig {
    /// A run on so many nodes, 1 to 64, each with so many body workers, 1 to 8, in at most so many
    /// turns of all its threads. None for other counts, and where as many nodes leave as there are
    /// or more.
    pub fn new(nodes: u64, bodies: u64, faults: Faults, turns: u64) -> Option<RunConfig>
        ensures some { IfSome result (λ c. c ≡ record {
          nodes = nodes;
          bodies = bodies;
          faults = faults;
          turns = turns;
        }) }
        ensures none { IsSome result ↔ IsConfig (record {
          nodes = nodes;
          bodies = bodies;
          faults = faults;
          turns = turns;
        }) }
    {
        if nodes < 1 || nodes > 64 || bodies < 1 || bodies > 8 || faults.departures >= nodes {
            return None;
        }
        Some(RunConfig {
            nodes: nodes as u8,
            bodies: bodies as u8,
            faults,
            turns,
            grain: 0,
        })
    }

    /// The same, where a ready frame's task may be evaluated whole, with all that comes of it, in
    /// at most so many turns, and fewer where those before it took more than they might; where it
    /// isn't, or for 0, the frame takes its own turn. One body worker of one node takes as many
    /// turns as there are, since nobody waits for a part of what it has, until a task takes more.
    pub fn with_grain(self, grain: u64) -> RunConfig
        ensures { result ≡ self }
    {
        RunConfig { grain, ..self }
    }

    /// In at most how many turns a task is evaluated whole; 0 where each frame takes its own turn.
    /// No clause speaks of it.
    pub fn grain(&self) -> u64 {
        self.grain
    }

    /// How the body workers of all nodes evaluate tasks whole.
    pub fn task_grain(&self) -> Grain {
        Grain {
            most_turns: self.grain,
            evaluators: self.evaluators(),
        }
    }

    /// How many threads evaluate tasks at once.
    pub fn evaluators(&self) -> u64 {
        u64::from(self.nodes).saturating_mul(u64::from(self.bodies))
    }

    /// How many nodes.
    pub fn nodes(&self) -> u8
        ensures same { result ≡ self.now.nodes }
        ensures within { (1 ≤ result) × (result ≤ 64) }
    {
        self.nodes
    }

    /// How many body workers a node.
    pub fn bodies(&self) -> u8
        ensures same { result ≡ self.now.bodies }
        ensures within { (1 ≤ result) × (result ≤ 8) }
    {
        self.bodies
    }

    /// The faults.
    pub fn faults(&self) -> Faults
        ensures { result ≡ self.now.faults }
    {
        self.faults
    }

    /// How many turns may be taken.
    pub fn turns(&self) -> u64
        ensures { result ≡ self.now.turns }
    {
        self.turns
    }
}
