//! What a host asks of an actor.

/// What a host asks of an actor. All but the last two are a node's; a moment comes to a
/// clearinghouse.
#[derive(Clone, Copy)]
pub enum Call {
    /// It carries out the ready frame that comes first: `NodeActor::work`.
    Work,
    /// It asks the clearinghouse for work: `NodeActor::ask_house`.
    AskHouse,
    /// It asks the worker of a start word for work: `NodeActor::ask`.
    Ask(u64),
    /// It sends again what isn't answered: `NodeActor::resend`.
    Resend,
    /// It leaves, to the worker of a start word: `NodeActor::depart`.
    Depart(u64),
    /// A moment comes: `HouseActor::tick`.
    Tick(u64),
    /// It shows something of itself.
    See(Seen),
}

/// What an actor shows of itself.
#[derive(Clone, Copy)]
pub enum Seen {
    /// A node: 0 joining, 1 a member, 2 leaving, 3 ended. A clearinghouse: 4 open, 5 stopped.
    State,
    /// A node: 1 where more than so many frames are ready, else 0.
    Ready(u64),
    /// A node: 1 where a request waits for its answer, else 0.
    Asked,
    /// A node: how many workers its roster lists.
    Members,
    /// A node: the start word of that worker of its roster where it is shown live, else 0.
    Member(u64),
    /// A clearinghouse: 0 no outcome yet, 1 a value, 2 too deep.
    Outcome,
    /// A clearinghouse: the value, 0 where there is none.
    Value,
    /// A node, of the frame that it carried out last by `Work`, each 0 where there was none: its
    /// grant's minter, and its number.
    Minter,
    Grant,
    /// The frame's number.
    Frame,
    /// In how many turns its task was evaluated whole; 0 where it took its own turn.
    Turns,
}

/// Numbers of calls, and of what is shown, as a host that has only numbers gives them.
const WORK: u32 = 1;

const ASK: u32 = 2;

const RESEND: u32 = 3;

const DEPART: u32 = 4;

const TICK: u32 = 5;

pub(crate) const END: u32 = 6;

const STATE: u32 = 16;

const READY: u32 = 17;

const ASKED: u32 = 18;

const MEMBERS: u32 = 19;

const MEMBER: u32 = 20;

const OUTCOME: u32 = 21;

const VALUE: u32 = 22;

const MINTER: u32 = 23;

const GRANT: u32 = 24;

const FRAME: u32 = 25;

const TURNS: u32 = 26;

impl Call {
    ghost use Rattle.std.specs.Prelude.{◌≡◌};
    ghost use Rattle.actors.specs.Numbers.{call_of};

    /// The call of a number, with another one that it takes; none where it is no call's. To ask the
    /// worker 0 is to ask the clearinghouse.
    pub fn of(what: u32, a: u64) -> Option<Call>
        ensures { result ≡ call_of what a }
    {
        match what {
            WORK => Some(Call::Work),
            ASK if a == 0 => Some(Call::AskHouse),
            ASK => Some(Call::Ask(a)),
            RESEND => Some(Call::Resend),
            DEPART => Some(Call::Depart(a)),
            TICK => Some(Call::Tick(a)),
            STATE => Some(Call::See(Seen::State)),
            READY => Some(Call::See(Seen::Ready(a))),
            ASKED => Some(Call::See(Seen::Asked)),
            MEMBERS => Some(Call::See(Seen::Members)),
            MEMBER => Some(Call::See(Seen::Member(a))),
            OUTCOME => Some(Call::See(Seen::Outcome)),
            VALUE => Some(Call::See(Seen::Value)),
            MINTER => Some(Call::See(Seen::Minter)),
            GRANT => Some(Call::See(Seen::Grant)),
            FRAME => Some(Call::See(Seen::Frame)),
            TURNS => Some(Call::See(Seen::Turns)),
            _ => None,
        }
    }
}
