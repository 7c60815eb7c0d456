ghost use Rattle.std.specs.Prelude.{◌≡◌, IfOk, map, refl, ⊤};
ghost use Rattle.std.specs.List.{filter};
ghost use Rattle.ids.specs.Members.{status_in};
ghost use Rattle.ids.specs.Naming.{name_of_member};
ghost use Rattle.ids.specs.Ordered.{AreInOrder};
ghost use Rattle.node_state.specs.Assemblies.{begun, name_of_assembly, shows_dead, with_part, without_all};

use crate::parts::name_of;
use codec::{Part, Piece, Roster};
use ids::{GrantId, Hop, Incarnation, Named, SortedMap, Status, TryItemChange, item_of};
use std::alloc::{AllocError, Global};
use std::marker::Model;

/// The parts of an Offer that have come in Pieces, before all are there: of which grant it is, who
/// offers it, at which hop, into how many parts it is cut, and those that came, by their numbers.
#[derive(Drop)]
pub struct Assembly {
    grant: GrantId,
    from: Incarnation,
    hop: Hop,
    pieces: u16,
    parts: SortedMap<Part>,
}

impl Model for Assembly {
    ghost use Rattle.node_state.specs.Assemblies.{AssemblyOf};

    ghost Value = { AssemblyOf };

    ghost view = { λ a. record { grant = a.grant; from = a.from; hop = a.hop; pieces = a.pieces; parts = a.parts } };
}

/// An assembly's name is its grant's.
impl Named for Assembly {
    ghost name_of = { name_of_assembly };

    fn name(&self) -> (u64, u64) {
        name_of(self.grant)
    }
}

impl Assembly {
    /// That of an Offer of which a Piece brings the first part to come.
    pub(crate) fn begin(alloc: Global, piece: Piece) -> Result<Assembly, AllocError>
        ensures { IfOk result (λ a. a ≡ begun piece) }
    {
        let mut parts = SortedMap::new(alloc);
        parts.put(Part {
            number: piece.number,
            bytes: piece.bytes,
        })?;
        Ok(Assembly {
            grant: piece.grant,
            from: piece.from,
            hop: piece.hop,
            pieces: piece.pieces,
            parts,
        })
    }

    /// Which grant is offered.
    pub fn grant(&self) -> GrantId
        ensures { result ≡ self.now.grant }
    {
        self.grant
    }

    /// Who offers it.
    pub fn from(&self) -> Incarnation
        ensures { result ≡ self.now.from }
    {
        self.from
    }

    /// How often the grant has moved with this move.
    pub fn hop(&self) -> Hop
        ensures { result ≡ self.now.hop }
    {
        self.hop
    }

    /// Into how many parts the Offer is cut.
    pub fn pieces(&self) -> u16
        ensures { result ≡ self.now.pieces }
    {
        self.pieces
    }

    /// The parts that came, by rising number.
    pub fn parts(&self) -> &SortedMap<Part>
        ensures { result.now ≡ self.now.parts }
    {
        &self.parts
    }
}

/// One part more.
#[derive(Drop)]
pub(crate) struct OneMore {
    pub(crate) part: Part,
}

impl TryItemChange<Assembly> for OneMore {
    ghost fits = { λ change assembly. ⊤ };

    ghost changed = { λ change assembly. with_part change.part assembly };

    ghost keeps_name = { λ change assembly. refl };

    fn try_apply(self, assembly: &mut Assembly) -> Result<(), AllocError> {
        assembly.parts.put(self.part)
    }
}

/// Whether a worker is listed as dead.
fn is_dead(roster: &Roster, worker: Incarnation) -> bool
    requires { AreInOrder name_of_member roster.now.members }
    ensures { result ≡ shows_dead (status_in worker roster.now.members) }
{
    match item_of(roster.members.as_slice(), (worker.word(), 0)) {
        Some(member) => matches!(member.status, Status::Dead),
        None => false,
    }
}

/// The names of the assemblies whose senders are listed as dead.
pub(crate) fn names_of_dead(
    alloc: Global,
    roster: &Roster,
    assemblies: &SortedMap<Assembly>,
) -> Result<Vec<(u64, u64)>, AllocError>
    requires { AreInOrder name_of_member roster.now.members }
    ensures { IfOk result (λ names. names.items ≡ map name_of_assembly
        (filter (λ a. shows_dead (status_in a.from roster.now.members)) assemblies.now)) }
{
    let mut names = Vec::new(alloc);
    for assembly in assemblies.values() {
        if is_dead(roster, assembly.from) {
            names.push(assembly.name())?;
        }
    }
    Ok(names)
}

/// Lets the assemblies of some names go; takes no memory.
pub(crate) fn forget_all(assemblies: &mut SortedMap<Assembly>, names: &[(u64, u64)])
    ensures { assemblies.new ≡ without_all names.now assemblies.old }
{
    for name in names {
        assemblies.discard(*name);
    }
}
