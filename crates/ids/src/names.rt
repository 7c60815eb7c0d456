ghost use Rattle.std.specs.Prelude.{◌≡◌, ◌+◌, ◌-◌, ◌^◌, ◌↔◌, nat_lt, IsTrue, Some, None, if◌then◌else◌};
ghost use Rattle.std.specs.declared.cmp.Ordering.TheVariants.{Less};
ghost use Rattle.std.proofs.Common.{rules};
ghost use Rattle.std.specs.Cmp.{partial_order_from_own_ties};
ghost use Rattle.std.specs.Cmp.Rules.{comparing};
ghost use Rattle.std.specs.Ordering.{as_partial_cmp};
ghost use Rattle.ids.specs.Names.{is_worker, is_epoch, is_actor, is_counted, is_address, house_of, grant_before, grant_cmp};

use std::cmp::Ordering;
use std::marker::Model;

const HALF: u64 = 1 << 63;

/// An incarnation of a worker: the word of its start, 1 to 2^63 - 1. Contracts see the word.
#[derive(Clone, Copy, PartialEq, Eq, Debug)]
pub struct Incarnation {
    word: u64,
}

impl Model for Incarnation {
    ghost use Rattle.std.specs.Prelude.{ℕ, IsTrue};

    ghost Value = { ℕ };

    ghost use Rattle.ids.specs.Names.{is_worker};

    ghost view = { λ i. i.word };

    ghost invariant = { λ i. IsTrue (is_worker i.word) };

    ghost inverse = { λ n. record { word = n } };
}

impl Incarnation {
    /// The incarnation of a word; none outside 1 to 2^63 - 1.
    pub fn worker(word: u64) -> Option<Incarnation>
        ensures { result ≡ (if is_worker word then Some word else None) }
    {
        if 0 < word && word < HALF {
            Some(Incarnation { word })
        } else {
            None
        }
    }

    /// The word of the start.
    pub fn word(self) -> u64
        ensures same { result ≡ self }
        ensures worker { IsTrue (is_worker self) }
    {
        self.word
    }
}

/// Who acts: a worker's incarnation, or the clearinghouse in an epoch, which is named 2^63 plus the
/// epoch. Contracts see the number.
#[derive(Clone, Copy, PartialEq, Eq, Debug)]
pub struct Actor {
    word: u64,
}

impl Model for Actor {
    ghost use Rattle.std.specs.Prelude.{ℕ, IsTrue};

    ghost Value = { ℕ };

    ghost use Rattle.ids.specs.Names.{is_actor};

    ghost view = { λ a. a.word };

    ghost invariant = { λ a. IsTrue (is_actor a.word) };

    ghost inverse = { λ n. record { word = n } };
}

impl Actor {
    /// The actor of a number; none for 0 and 2^63, which addresses the clearinghouse of any epoch.
    pub fn of(word: u64) -> Option<Actor>
        ensures { result ≡ (if is_actor word then Some word else None) }
    {
        if word == 0 || word == HALF {
            None
        } else {
            Some(Actor { word })
        }
    }

    /// A worker.
    pub fn worker(incarnation: Incarnation) -> Actor
        ensures { result ≡ incarnation }
    {
        Actor {
            word: incarnation.word(),
        }
    }

    /// The clearinghouse in an epoch; none outside 1 to 2^63 - 1.
    pub fn house(epoch: u64) -> Option<Actor>
        ensures { result ≡ (if is_epoch epoch then Some (house_of epoch) else None) }
    {
        if 0 < epoch && epoch < HALF {
            Some(Actor { word: HALF + epoch })
        } else {
            None
        }
    }

    /// The number.
    pub fn word(self) -> u64
        ensures same { result ≡ self }
        ensures actor { IsTrue (is_actor self) }
    {
        self.word
    }

    /// The worker's incarnation; none for the clearinghouse.
    pub fn incarnation(self) -> Option<Incarnation>
        ensures { result ≡ (if is_worker self then Some self else None) }
    {
        Incarnation::worker(self.word)
    }

    /// The epoch of the clearinghouse; none for a worker.
    pub fn epoch(self) -> Option<u64>
        ensures { result ≡ (if is_worker self then None else Some (self - 2 ^ 63)) }
    {
        if self.word > HALF {
            Some(self.word - HALF)
        } else {
            None
        }
    }
}

/// The name of a grant: who minted it, and the count of its grants from 1. Contracts see the pair.
#[derive(Clone, Copy, PartialEq, Eq, Debug)]
pub struct GrantId {
    minter: Actor,
    number: u64,
}

impl Model for GrantId {
    ghost use Rattle.std.specs.Prelude.{IsTrue};
    ghost use Rattle.ids.specs.Names.{Grant, is_counted};

    ghost Value = { Grant };

    ghost view = { λ g. record { minter = g.minter; number = g.number } };

    ghost invariant = { λ g. IsTrue (is_counted g.number) };

    ghost inverse = { λ v. record { minter = v.minter; number = v.number } };
}

impl GrantId {
    /// The grant of a minter with a number; none for the number 0.
    pub fn of(minter: Actor, number: u64) -> Option<GrantId>
        ensures { result ≡ (if is_counted number then Some (record { minter = minter; number = number }) else None) }
    {
        if number == 0 {
            None
        } else {
            Some(GrantId { minter, number })
        }
    }

    /// Who minted it.
    pub fn minter(self) -> Actor
        ensures { result ≡ self.minter }
    {
        self.minter
    }

    /// Its number, from 1.
    pub fn number(self) -> u64
        ensures same { result ≡ self.number }
        ensures counted { IsTrue (is_counted self.number) }
    {
        self.number
    }

    /// Whether it stands before another: by the minter, then by the number.
    pub fn is_before(self, other: GrantId) -> bool
        ensures before { result ≡ grant_before self other }
        ensures less { IsTrue result ↔ (grant_cmp self other ≡ Less) }
    {
        let (here, there) = (self.minter.word(), other.minter.word());
        here < there || (here == there && self.number < other.number)
    }
}

/// By the minter, then by the number.
impl Ord for GrantId {
    ghost cmp = { grant_cmp };

    ghost total = { Prim.search (comparing, rules) };

    ghost matches_partial_cmp = { Prim.search (comparing, rules) };

    ghost matches_eq = { Prim.search (comparing, rules) };

    fn cmp(&self, other: &GrantId) -> Ordering {
        (self.minter.word().cmp(&other.minter.word())).then(self.number.cmp(&other.number))
    }
}

impl PartialOrd for GrantId {
    ghost partial_cmp = { as_partial_cmp grant_cmp };

    ghost laws = { partial_order_from_own_ties (Prim.search (comparing, rules)) (Prim.search (comparing, rules)) };

    fn partial_cmp(&self, other: &GrantId) -> Option<Ordering> {
        Some(self.cmp(other))
    }
}

/// The number of a frame in its subcomputation.
#[derive(Clone, Copy, PartialEq, Eq, Debug, Default)]
pub struct FrameNo {
    number: u32,
}

impl Model for FrameNo {
    ghost use Rattle.std.specs.Prelude.{ℕ};

    ghost Value = { ℕ };

    ghost view = { λ f. f.number };

    ghost inverse = { λ n. record { number = n } };
}

impl FrameNo {
    /// The frame of a number.
    pub fn of(number: u32) -> FrameNo
        ensures { result ≡ number }
    {
        FrameNo { number }
    }

    /// The number.
    pub fn number(self) -> u32
        ensures { result ≡ self }
    {
        self.number
    }
}

/// How often a grant moved from a node that left: 0 for a grant that never moved.
#[derive(Clone, Copy, PartialEq, Eq, Debug)]
pub struct Hop {
    count: u32,
}

impl Model for Hop {
    ghost use Rattle.std.specs.Prelude.{ℕ};

    ghost Value = { ℕ };

    ghost view = { λ h. h.count };

    ghost inverse = { λ n. record { count = n } };
}

impl Hop {
    /// The hop of a count.
    pub fn of(count: u32) -> Hop
        ensures { result ≡ count }
    {
        Hop { count }
    }

    /// The count.
    pub fn count(self) -> u32
        ensures { result ≡ self }
    {
        self.count
    }

    /// The hop one greater; none at 2^32 - 1.
    pub fn next(self) -> Option<Hop>
        ensures { result ≡ (if nat_lt (self + 1) (2 ^ 32) then Some (self + 1) else None) }
    {
        let count = self.count.checked_add(1)?;
        Some(Hop { count })
    }
}

/// A number that is counted from 1, as the requests of a thief and the versions of a roster are.
/// Contracts see the number.
#[derive(Clone, Copy, PartialEq, Eq, Debug)]
pub struct Count {
    number: u64,
}

impl Model for Count {
    ghost use Rattle.std.specs.Prelude.{ℕ, IsTrue};

    ghost Value = { ℕ };

    ghost use Rattle.ids.specs.Names.{is_counted};

    ghost view = { λ c. c.number };

    ghost invariant = { λ c. IsTrue (is_counted c.number) };

    ghost inverse = { λ n. record { number = n } };
}

impl Count {
    /// The count of a number; none for 0.
    pub fn of(number: u64) -> Option<Count>
        ensures { result ≡ (if is_counted number then Some number else None) }
    {
        if 0 < number {
            Some(Count { number })
        } else {
            None
        }
    }

    /// The number.
    pub fn number(self) -> u64
        ensures same { result ≡ self }
        ensures counted { IsTrue (is_counted self) }
    {
        self.number
    }

    /// The count one greater; none at 2^64 - 1.
    pub fn next(self) -> Option<Count>
        ensures { result ≡ (if nat_lt (self + 1) (2 ^ 64) then Some (self + 1) else None) }
    {
        let number = self.number.checked_add(1)?;
        Some(Count { number })
    }
}

/// An epoch of the clearinghouse, 1 to 2^63 - 1. Contracts see the number.
#[derive(Clone, Copy, PartialEq, Eq, Debug)]
pub struct Epoch {
    number: u64,
}

impl Model for Epoch {
    ghost use Rattle.std.specs.Prelude.{ℕ, IsTrue};

    ghost Value = { ℕ };

    ghost use Rattle.ids.specs.Names.{is_epoch};

    ghost view = { λ e. e.number };

    ghost invariant = { λ e. IsTrue (is_epoch e.number) };

    ghost inverse = { λ n. record { number = n } };
}

impl Epoch {
    /// The epoch of a number; none outside 1 to 2^63 - 1.
    pub fn of(number: u64) -> Option<Epoch>
        ensures { result ≡ (if is_epoch number then Some number else None) }
    {
        if 0 < number && number < HALF {
            Some(Epoch { number })
        } else {
            None
        }
    }

    /// The number.
    pub fn number(self) -> u64
        ensures same { result ≡ self }
        ensures epoch { IsTrue (is_epoch self) }
    {
        self.number
    }

    /// The clearinghouse in this epoch.
    pub fn house(self) -> Actor
        ensures { result ≡ house_of self }
    {
        Actor {
            word: HALF + self.number,
        }
    }
}

/// Where a packet goes: to a worker, to the clearinghouse in an epoch, or to the clearinghouse of
/// any epoch, which is 2^63. Contracts see the number.
#[derive(Clone, Copy, PartialEq, Eq, Debug)]
pub struct Address {
    word: u64,
}

impl Model for Address {
    ghost use Rattle.std.specs.Prelude.{ℕ, IsTrue};

    ghost Value = { ℕ };

    ghost use Rattle.ids.specs.Names.{is_address};

    ghost view = { λ a. a.word };

    ghost invariant = { λ a. IsTrue (is_address a.word) };

    ghost inverse = { λ n. record { word = n } };
}

impl Address {
    /// The address of a number; none for 0.
    pub fn of(word: u64) -> Option<Address>
        ensures { result ≡ (if is_address word then Some word else None) }
    {
        if word == 0 {
            None
        } else {
            Some(Address { word })
        }
    }

    /// The clearinghouse of any epoch.
    pub fn any_house() -> Address
        ensures { result ≡ 2 ^ 63 }
    {
        Address { word: HALF }
    }

    /// A worker, or the clearinghouse in an epoch.
    pub fn actor(actor: Actor) -> Address
        ensures { result ≡ actor }
    {
        Address { word: actor.word() }
    }

    /// The number.
    pub fn word(self) -> u64
        ensures same { result ≡ self }
        ensures address { IsTrue (is_address self) }
    {
        self.word
    }
}
