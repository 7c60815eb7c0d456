ghost use Rattle.std.specs.Prelude.{◌≡◌, ℕ, List, ◌++◌, [], map, IfOk, OnOk, IsSome, IsTrue, Some, None, option_copied, option_map};
ghost use Rattle.std.specs.List.{AllByRecursion};
ghost use Rattle.std.specs.Option.{option_or};
ghost use Rattle.ids.specs.Members.{resolve};
ghost use Rattle.ids.specs.Names.{Grant, is_worker};
ghost use Rattle.ids.specs.Naming.{name_of_grant, name_of_record};
ghost use Rattle.ids.specs.Ordered.{AreInOrder};
ghost use Rattle.ids.specs.declared.work.Record as declared;
ghost use Rattle.heirs.specs.Bearers.{bearer_in};
ghost use Rattle.heirs.specs.declared.bearers.Bearing.{Bearing};
ghost use Rattle.victim_records.specs.Records.{record_in};
ghost use Rattle.sub_rules.specs.Changes.{with_parent};
ghost use Rattle.subcomputation.specs.Subs.{SubOf, grants_of_subs, sub_in, with_content};
ghost use Rattle.subcomputation.specs.Recovering.{for_each, settle_record, their_records};
ghost use Rattle.recovery.specs.Plans.{AreHeld, Closes, Furthers, Inherits, IsHosted, IsPlan, LeadsTo, carried, carried_out, grant_of, hosted_by, hosted_in, settled_but, settled_by_hosts, settled_with, stop_of};

use heirs::{Bearers, bearer_of};
use ids::{Actor, GrantId, Incarnation, Listed, Member, Named, SortedMap, Status};
use std::alloc::{AllocError, Global};
use std::marker::Model;
use subcomputation::{ReadiedOf, Sub};

/// The most workers that are followed one by one.
const FEW: usize = 64;

/// The most heirs that are followed for each member of the roster: a table of all costs about as
/// much.
const HEIRS: usize = 8;

/// What becomes of a subcomputation: it goes, or this one stands in its place.
#[derive(Drop)]
pub enum Settled {
    Goes(GrantId),
    Stays(Sub),
}

/// Its name is that of the subcomputation.
impl Named for Settled {
    ghost name_of = { λ x. name_of_grant (grant_of x) };

    fn name(&self) -> (u64, u64) {
        match self {
            Settled::Goes(grant) => name_of(*grant),
            Settled::Stays(sub) => sub.name(),
        }
    }
}

/// The holder of a frame that was given away is told to stop.
#[derive(Clone, Copy, PartialEq, Eq, Debug)]
pub struct Stopped {
    pub grant: GrantId,
    pub holder: Incarnation,
}

/// What a recovery leads to, beside the subcomputations, which stay as they are until it is carried
/// out. Contracts see what becomes of each subcomputation that changes, by rising grant, the
/// holders that are told to stop, in the order of their Aborts, and the frames that are ready
/// again, in their order.
#[derive(Drop)]
pub struct Plan {
    settled: SortedMap<Settled>,
    grants: Listed<GrantId>,
    stopped: Listed<Stopped>,
    again: Listed<ReadiedOf>,
}

impl Model for Plan {
    ghost use Rattle.std.specs.Prelude.{◌≡◌, map};
    ghost use Rattle.recovery.specs.Plans.{PlanOf, grant_of};

    ghost Value = { PlanOf };

    ghost view = { λ p. record { settled = p.settled; stopped = p.stopped; again = p.again } };

    ghost invariant = { λ p. p.grants ≡ map grant_of p.settled };
}

/// Plans the recovery of all subcomputations by a roster: one whose host is dead goes, and one
/// whose host left waits for whoever has that one's work; then, by rising grant over all that are
/// left, a record whose holder is dead is closed and its frame is ready again, and one whose holder
/// left is held by whoever has that one's work. Refused only when out of memory. Only those
/// subcomputations are copied that change, each once.
pub fn make_plan(
    alloc: Global,
    members: &[Member],
    subs: &SortedMap<Sub>,
) -> Result<Plan, AllocError>
    ensures { IfOk result (λ p. IsPlan members.now subs.now p) }
{
    if subs.len() == 0 {
        return Ok(nothing(alloc));
    }
    let roster = Roster::of(alloc, members, subs)?;
    subs.law_stand_in_order();
    let mut draft = settle_subs(alloc, &roster, subs)?;
    let hosts = hosts(alloc, &roster, subs)?;
    hosts.law_stand_in_order();
    settle_records(alloc, &roster, subs, &hosts, &mut draft)?;
    draft.finished(alloc)
}

impl Plan {
    /// The holders that are told to stop, in the order of their Aborts: those of a subcomputation
    /// that goes by rising grant, subcomputations by rising grant, and then those of records that
    /// are closed, by rising grant.
    pub fn stopped(&self) -> &[Stopped]
        ensures { result.now ≡ self.now.stopped }
    {
        self.stopped.as_slice()
    }

    /// The frames that are ready again, by the rising grants of their records.
    pub fn again(&self) -> &[ReadiedOf]
        ensures { result.now ≡ self.now.again }
    {
        self.again.as_slice()
    }

    /// Carries it out; takes no memory.
    pub fn carry_out(self, subs: &mut SortedMap<Sub>)
        requires { AreHeld self.settled subs.old }
        ensures { subs.new ≡ carried_out self.settled subs.old }
    {
        let mut settled = self.settled;
        settled.law_stand_in_order();
        for grant in self.grants.as_slice() {
            if let Some(next) = settled.take(name_of(*grant)) {
                carry(subs, next);
            }
        }
    }
}

/// A subcomputation that is there goes, or another stands in its place.
fn carry(subs: &mut SortedMap<Sub>, settled: Settled)
    requires { IsSome (sub_in (grant_of settled) subs.old) }
    ensures { subs.new ≡ carried settled subs.old }
{
    match settled {
        Settled::Goes(grant) => {
            let _gone = subs.take(name_of(grant));
        }
        Settled::Stays(sub) => subs.replace(sub),
    }
}

/// Nothing changes. Takes no memory.
fn nothing(alloc: Global) -> Plan
    ensures { result ≡ record { settled = []; stopped = []; again = [] } }
{
    Plan {
        settled: SortedMap::new(alloc),
        grants: Listed::new(alloc),
        stopped: Listed::new(alloc),
        again: Listed::new(alloc),
    }
}

/// The name of what is kept under a grant.
fn name_of(grant: GrantId) -> (u64, u64)
    ensures { result ≡ name_of_grant grant }
{
    (grant.minter().word(), grant.number())
}

/// A roster, and a table of who has the work of each of its workers, unless few are asked for.
#[derive(Drop)]
struct Roster<'a> {
    members: &'a [Member],
    bearers: Option<Bearers>,
    ghost resolves: { (b : List Bearing) → bearers ≡ Some b → (i : ℕ) → bearer_in i b ≡ resolve members.now i },
    ghost workers: { (i j : ℕ) → IsTrue (is_worker i) → resolve members.now i ≡ Some j → IsTrue (is_worker j) },
}

impl<'a> Roster<'a> {
    /// Looks through a roster's members, for the hosts of these subcomputations and the holders of
    /// their records; refused only when out of memory.
    fn of(
        alloc: Global,
        members: &'a [Member],
        subs: &SortedMap<Sub>,
    ) -> Result<Roster<'a>, AllocError>
        ensures { IfOk result (λ r. r.members.now ≡ members.now) }
    {
        law_heirs_are_workers(members);
        if is_cheaper_followed(members, subs) {
            return Ok(Roster {
                members,
                bearers: None,
            });
        }
        let bearers = Bearers::of(alloc, members)?;
        Ok(Roster {
            members,
            bearers: Some(bearers),
        })
    }

    /// Who has an actor's work, if somebody has.
    fn host(&self, host: Actor) -> Option<Actor>
        ensures { result ≡ resolve self.now.members.now host }
    {
        match &self.bearers {
            Some(bearers) => bearers.bearer(host),
            None => bearer_of(self.members, host),
        }
    }

    /// Who has a worker's work, if somebody has; that is a worker too.
    fn holder(&self, holder: Incarnation) -> Option<Incarnation>
        ensures { result ≡ resolve self.now.members.now holder }
    {
        let _worker = holder.word();
        let bearer = self.host(Actor::worker(holder))?;
        bearer.incarnation()
    }
}

/// Whether following each worker that is asked for costs less than a table of all: few are asked
/// for, and the heirs to be followed are not too many, even where each chain goes over all members
/// that left.
fn is_cheaper_followed(members: &[Member], subs: &SortedMap<Sub>) -> bool {
    let asked = asked_for(subs);
    if asked > FEW {
        return false;
    }
    let heirs = asked.saturating_mul(left(members).saturating_add(1));
    heirs <= members.len().saturating_mul(HEIRS)
}

/// How often a worker is asked for at most: twice for the host of each subcomputation, and once for
/// the holder of each record.
fn asked_for(subs: &SortedMap<Sub>) -> usize {
    let mut asked: usize = 0;
    for sub in subs.values() {
        let records = sub.content().records.len();
        asked = asked.saturating_add(records.saturating_add(2));
    }
    asked
}

/// How many members left.
fn left(members: &[Member]) -> usize {
    members
        .iter()
        .filter(|member| matches!(member.status, Status::Left(_)))
        .count()
}

/// Who has a worker's work is a worker. Does nothing.
fn law_heirs_are_workers(members: &[Member])
    ensures { (i j : ℕ) → IsTrue (is_worker i) → resolve members.now i ≡ Some j → IsTrue (is_worker j) }
{
    for member in members {
        if let Status::Left(heir) = member.status {
            let _worker = heir.word();
        }
    }
}

/// A plan in the making.
#[derive(Drop)]
struct Draft {
    settled: SortedMap<Settled>,
    stopped: Listed<Stopped>,
    again: Listed<ReadiedOf>,
}

/// The subcomputation that has the open record of a grant, as far as it is left.
#[derive(Clone, Copy, PartialEq, Eq, Debug)]
struct Hosted {
    grant: GrantId,
    host: GrantId,
}

/// Its name is that of the record.
impl Named for Hosted {
    ghost name_of = { λ h. name_of_grant h.grant };

    fn name(&self) -> (u64, u64) {
        name_of(self.grant)
    }
}

/// Settles each subcomputation by its host.
fn settle_subs(alloc: Global, roster: &Roster, subs: &SortedMap<Sub>) -> Result<Draft, AllocError>
    ensures { IfOk result (λ d. LeadsTo subs.now d (settled_by_hosts roster.now.members.now subs.now)) }
{
    let mut draft = Draft {
        settled: SortedMap::new(alloc),
        stopped: Listed::new(alloc),
        again: Listed::new(alloc),
    };
    subs.law_stand_in_order();
    for sub in subs.values() {
        let parent = sub.content().parent;
        match roster.host(parent) {
            None => draft.drop_sub(sub)?,
            Some(host) if host != parent => draft.rename_host(sub, host)?,
            Some(_) => {}
        }
    }
    Ok(draft)
}

/// The hosts of the records of the subcomputations that are left when each is settled, by the
/// rising grants of the records; of two hosts of one grant the first.
fn hosts(
    alloc: Global,
    roster: &Roster,
    subs: &SortedMap<Sub>,
) -> Result<SortedMap<Hosted>, AllocError>
    ensures grants { let left = (settled_by_hosts roster.now.members.now subs.now).subs in
        IfOk result (λ hosts. map (λ h. h.grant) hosts ≡ their_records (grants_of_subs subs.now) left) }
    ensures hosts { let left = (settled_by_hosts roster.now.members.now subs.now).subs in
        IfOk result (AllByRecursion (IsHosted left)) }
{
    let mut hosts = SortedMap::new(alloc);
    subs.law_stand_in_order();
    for sub in subs.values() {
        if roster.host(sub.content().parent).is_some() {
            add_records(&mut hosts, sub)?;
        }
    }
    hosts.law_stand_in_order();
    Ok(hosts)
}

/// A subcomputation hosts each of its records whose grant has no host yet.
fn add_records(hosts: &mut SortedMap<Hosted>, sub: &Sub) -> Result<(), AllocError>
    ensures { OnOk result ((g : Grant)
        → hosted_in g hosts.new ≡ option_or (hosted_in g hosts.old) (hosted_by sub.now g)) }
{
    let content = sub.content();
    for record in content.records.values() {
        if hosts.get(record.name()).is_none() {
            hosts.put(Hosted {
                grant: record.grant,
                host: sub.grant(),
            })?;
        }
    }
    Ok(())
}

/// Settles each record by its holder.
fn settle_records(
    alloc: Global,
    roster: &Roster,
    subs: &SortedMap<Sub>,
    hosts: &SortedMap<Hosted>,
    draft: &mut Draft,
) -> Result<(), AllocError>
    requires hosts { AllByRecursion (IsHosted (carried_out draft.old.settled subs.now)) hosts.now }
    requires held { AreHeld draft.old.settled subs.now }
    ensures { let r = for_each (settle_record roster.now.members.now) (map (λ h. h.grant) hosts.now)
        (carried_out draft.old.settled subs.now) in OnOk result (Furthers subs.now draft.old draft.new r) }
{
    subs.law_stand_in_order();
    hosts.law_stand_in_order();
    for hosted in hosts.values() {
        draft.settle_record(alloc, roster, subs, hosted)?;
    }
    Ok(())
}

impl Draft {
    /// A subcomputation goes, and the holders of its records are told to stop.
    fn drop_sub(&mut self, sub: &Sub) -> Result<(), AllocError>
        ensures settled { OnOk result (self.new.settled ≡ settled_with (Settled.Goes sub.now.grant) self.old.settled) }
        ensures stopped { OnOk result (self.new.stopped ≡ self.old.stopped ++ map stop_of sub.now.content.records) }
        ensures again { OnOk result (self.new.again ≡ self.old.again) }
    {
        let content = sub.content();
        for record in content.records.values() {
            self.stopped.push(Stopped {
                grant: record.grant,
                holder: record.holder,
            })?;
        }
        self.settled.put(Settled::Goes(sub.grant()))
    }

    /// Another host waits for a subcomputation.
    fn rename_host(&mut self, sub: &Sub, host: Actor) -> Result<(), AllocError>
        ensures settled { OnOk result (self.new.settled
            ≡ settled_with
            (Settled.Stays (with_content sub.now (with_parent host sub.now.content))) self.old.settled) }
        ensures stopped { OnOk result (self.new.stopped ≡ self.old.stopped) }
        ensures again { OnOk result (self.new.again ≡ self.old.again) }
    {
        let mut renamed = sub.clone()?;
        renamed.set_parent(host);
        self.settled.put(Settled::Stays(renamed))
    }

    /// Settles a record by its holder.
    fn settle_record(
        &mut self,
        alloc: Global,
        roster: &Roster,
        subs: &SortedMap<Sub>,
        hosted: &Hosted,
    ) -> Result<(), AllocError>
        ensures { let left = carried_out self.old.settled subs.now in
            let r = settle_record roster.now.members.now hosted.now.grant left in
            AreHeld self.old.settled subs.now → IsHosted left hosted.now
            → OnOk result (Furthers subs.now self.old self.new r) }
    {
        self.settled.law_stand_in_order();
        subs.law_stand_in_order();
        let Some(holder) = self.holder(subs, hosted) else {
            return Ok(());
        };
        match roster.holder(holder) {
            None => self.redo(alloc, subs, hosted, holder),
            Some(heir) if heir != holder => self.rename_holder(subs, hosted, heir),
            Some(_) => Ok(()),
        }
    }

    /// Who holds a record, where it is there.
    fn holder(&self, subs: &SortedMap<Sub>, hosted: &Hosted) -> Option<Incarnation>
        ensures sub { sub_in hosted.now.host (carried_out self.now.settled subs.now) ≡ None → result ≡ None }
        ensures holder { (s : SubOf) → sub_in hosted.now.host (carried_out self.now.settled subs.now) ≡ Some s
            → result
            ≡ option_map (λ (r : declared.Record). r.holder) (record_in hosted.now.grant s.content.records) }
        ensures order { (s : SubOf) → sub_in hosted.now.host (carried_out self.now.settled subs.now) ≡ Some s
            → AreInOrder name_of_record s.content.records }
    {
        let content = self.standing(subs, hosted.host)?.content();
        content.records.law_stand_in_order();
        Some(content.records.get(hosted.grant)?.holder)
    }

    /// A record is closed, its frame is ready again, and its holder is told to stop.
    fn redo(
        &mut self,
        alloc: Global,
        subs: &SortedMap<Sub>,
        hosted: &Hosted,
        holder: Incarnation,
    ) -> Result<(), AllocError>
        ensures { (s : SubOf) (r : declared.Record)
            → sub_in hosted.now.host (carried_out self.old.settled subs.now) ≡ Some s
            → record_in hosted.now.grant s.content.records ≡ Some r
            → OnOk result (Closes s r hosted.now holder self.old self.new) }
    {
        let Some(sub) = self.taken(subs, hosted.host)? else {
            return Ok(());
        };
        let Some(again) = sub.redone(alloc, hosted.grant)? else {
            return Ok(());
        };
        self.stopped.push(Stopped {
            grant: hosted.grant,
            holder,
        })?;
        self.again.push(ReadiedOf {
            grant: hosted.host,
            frame: again.ready,
        })?;
        self.settled.put(Settled::Stays(again.after))
    }

    /// Another worker holds a record.
    fn rename_holder(
        &mut self,
        subs: &SortedMap<Sub>,
        hosted: &Hosted,
        heir: Incarnation,
    ) -> Result<(), AllocError>
        ensures { (s : SubOf) → sub_in hosted.now.host (carried_out self.old.settled subs.now) ≡ Some s
            → OnOk result (Inherits s hosted.now heir self.old self.new) }
    {
        let Some(mut sub) = self.taken(subs, hosted.host)? else {
            return Ok(());
        };
        sub.rename_holder(hosted.grant, heir);
        self.settled.put(Settled::Stays(sub))
    }

    /// The subcomputation that stands under a grant, as it is settled so far.
    fn standing<'s>(&'s self, subs: &'s SortedMap<Sub>, grant: GrantId) -> Option<&'s Sub>
        ensures { option_copied result ≡ sub_in grant (carried_out self.now.settled subs.now) }
    {
        self.settled.law_stand_in_order();
        match self.settled.get(name_of(grant)) {
            Some(Settled::Stays(sub)) => Some(sub),
            Some(Settled::Goes(_)) => None,
            None => subs.get(name_of(grant)),
        }
    }

    /// The same, taken out of what is settled, or a copy where it had not changed.
    fn taken(&mut self, subs: &SortedMap<Sub>, grant: GrantId) -> Result<Option<Sub>, AllocError>
        ensures sub { IfOk result (λ o. o ≡ sub_in grant (carried_out self.old.settled subs.now)) }
        ensures settled { OnOk result (self.new.settled ≡ settled_but grant self.old.settled) }
        ensures stopped { OnOk result (self.new.stopped ≡ self.old.stopped) }
        ensures again { OnOk result (self.new.again ≡ self.old.again) }
    {
        self.settled.law_stand_in_order();
        match self.settled.take(name_of(grant)) {
            Some(Settled::Stays(sub)) => Ok(Some(sub)),
            Some(Settled::Goes(_)) => Ok(None),
            None => copy_of(subs, grant),
        }
    }

    /// The plan, when all is settled; refused only when out of memory.
    fn finished(self, alloc: Global) -> Result<Plan, AllocError>
        ensures { IfOk result (λ p. p ≡ record { settled = self.settled; stopped = self.stopped; again = self.again }) }
    {
        let grants = settled_grants(alloc, &self.settled)?;
        Ok(Plan {
            settled: self.settled,
            grants,
            stopped: self.stopped,
            again: self.again,
        })
    }
}

/// A copy of the subcomputation of a grant, if it is there.
fn copy_of(subs: &SortedMap<Sub>, grant: GrantId) -> Result<Option<Sub>, AllocError>
    ensures { IfOk result (λ o. o ≡ sub_in grant subs.now) }
{
    match subs.get(name_of(grant)) {
        Some(sub) => Ok(Some(sub.clone()?)),
        None => Ok(None),
    }
}

/// The grants of the subcomputations that are settled, in their order.
fn settled_grants(
    alloc: Global,
    settled: &SortedMap<Settled>,
) -> Result<Listed<GrantId>, AllocError>
    ensures { IfOk result (λ grants. grants ≡ map grant_of settled.now) }
{
    let mut grants = Listed::with_capacity(alloc, settled.len())?;
    for next in settled.values() {
        grants.push(match next {
            Settled::Goes(grant) => *grant,
            Settled::Stays(sub) => sub.grant(),
        })?;
    }
    Ok(grants)
}
