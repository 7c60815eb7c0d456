ghost use Rattle.std.specs.Prelude.{◌≡◌, ◌<◌, false, IsErrOf, IfOk, OnOk, OnErr, IfSome, IsTrue, Some, None, is_some, [], ◌∷◌};
ghost use Rattle.ids.specs.Slots.{numbers_in};
ghost use Rattle.task_tree.specs.declared.tree.Program.{Program};
ghost use Rattle.kind_check.specs.Total.{TurnFits};
ghost use Rattle.victim_records.specs.Records.{record_in};
ghost use Rattle.frames.specs.Frames.{frame_in};
ghost use Rattle.sub_rules.specs.Carrying.{ended, exec_content, is_stale_of};
ghost use Rattle.sub_rules.specs.declared.change.SubError.TheVariants.{Memory};
ghost use Rattle.sub_rules.specs.Changes.{closed_in, given_away, done_again, with_parent, with_thief};
ghost use Rattle.sub_rules.specs.Content.{ready_in};
ghost use Rattle.sub_rules.specs.Debts.{IsSound};
ghost use Rattle.saved_values.specs.Saved.{IsSavedList, known_by, saved_under};
ghost use Rattle.subcomputation.specs.Subs.{IsBegun, granted_sub, name_of_sub, with_content};
ghost use Rattle.subcomputation.specs.Fitting.{Fits, task_fits};
ghost use Rattle.sub_rules.specs.Readiness.{TellsReady};
ghost use Rattle.sub_rules.specs.Turning.{TurnFew};
ghost use Rattle.sub_rules.specs.Updates.{opened_in, updated, MayUpdate};
ghost use Rattle.subcomputation.specs.Told.{HasNoOthers, HasNoOthersBut, IsPreparedAs, MayChange, changed_by, changed_of, changed_of_some, given_by, given_of_some, again_by, opened_sub};

use body_eval::{Done, Turn};
use frames::Frames;
use ids::{
    Actor, Exact, Frame, FrameNo, GrantId, Hop, Incarnation, Listed, Named, Outcome, Place,
    Progress, Record, Return, Task,
};
use saved_values::{SavedList, SavedValue};
use std::alloc::{AllocError, Global};
use std::marker::Model;
use sub_rules::{Content, Knows, Opening, Prepared, Readied, SubError, Update};
use victim_records::Records;

/// A subcomputation: the grant under which its task came, how often it had moved when it came here,
/// its content, in which each number is used once, the first number is given, and each value that
/// is awaited has one debtor; and the values of kids that came with its task. Contracts see these
/// four.
#[derive(Drop)]
pub struct Sub {
    grant: GrantId,
    hop: Hop,
    content: Content,
    saved: SavedList,
}

impl Model for Sub {
    ghost use Rattle.subcomputation.specs.Subs.{SubOf, IsBegun};

    ghost Value = { SubOf };

    ghost view = { λ s. record { grant = s.grant; hop = s.hop; content = s.content; saved = s.saved } };

    ghost invariant = { λ s. IsBegun s.content };
}

/// A subcomputation's name is its grant's.
impl Named for Sub {
    ghost name_of = { name_of_sub };

    fn name(&self) -> (u64, u64) {
        (self.grant.minter().word(), self.grant.number())
    }
}

/// The copy is equal.
impl Clone for Sub {
    ghost is_clone = { λ source copy. copy ≡ source };

    fn clone(&self) -> Result<Sub, AllocError> {
        Ok(Sub {
            grant: self.grant,
            hop: self.hop,
            content: self.content.clone()?,
            saved: self.saved.clone()?,
        })
    }
}

impl Exact for Sub {
    ghost exact = { λ source copy same. same };
}

/// It knows the values that came with its task.
impl Knows for Sub {
    ghost use Rattle.subcomputation.specs.Subs.{has_none};
    ghost use Rattle.saved_values.specs.Saved.{known_by};

    ghost known_of = { λ s. known_by s.saved };

    ghost tells_nothing = { λ s. has_none s.saved };

    fn value_at(&self, place: &Place, hole: u8) -> Option<i64> {
        self.saved.value_at(place, hole)
    }

    fn knows_nothing(&self) -> bool {
        self.saved.is_empty()
    }
}

/// A ready frame, and the grant of its subcomputation.
#[derive(Clone, Copy, PartialEq, Eq, Debug)]
pub struct ReadiedOf {
    pub grant: GrantId,
    pub frame: Readied,
}

/// A frame that is to be done again: the subcomputation after it, and the frame, which is ready.
#[derive(Drop)]
pub struct SubRedo {
    pub after: Sub,
    pub ready: Readied,
}

impl Sub {
    /// The subcomputation that a granted task begins: one frame, number 0, for the host that
    /// granted it, with the values that came with the task; refused only when out of memory.
    pub fn granted(
        alloc: Global,
        grant: GrantId,
        task: Task,
        saved: SavedList,
    ) -> Result<Sub, AllocError>
        ensures granted { IfOk result (λ s. s ≡ granted_sub grant task saved) }
        ensures fits { (p : Program) → IsTrue (task_fits p task) → IfOk result (λ s. Fits p s.content) }
    {
        sub_rules::granted_contents_are_sound();
        Ok(Sub {
            grant,
            hop: Hop::of(0),
            content: sub_rules::granted(alloc, grant.minter(), task)?,
            saved,
        })
    }

    /// The subcomputation of a grant that has moved so often, with a content that came with it. No
    /// values come so.
    pub fn of(alloc: Global, grant: GrantId, hop: Hop, content: Content) -> Sub
        requires sound { IsSound content }
        requires begun { 0 < content.next }
        ensures { result ≡ record { grant = grant; hop = hop; content = content; saved = [] } }
    {
        Sub {
            grant,
            hop,
            content,
            saved: SavedList::new(alloc),
        }
    }

    /// The grant under which its task came.
    pub fn grant(&self) -> GrantId
        ensures { result ≡ self.now.grant }
    {
        self.grant
    }

    /// How often it had moved when it came here: 0 where it came by a Grant.
    pub fn hop(&self) -> Hop
        ensures { result ≡ self.now.hop }
    {
        self.hop
    }

    /// Its content.
    pub fn content(&self) -> &Content
        ensures same { result.now ≡ self.now.content }
        ensures sound { IsSound self.now.content }
        ensures begun { 0 < self.now.content.next }
    {
        &self.content
    }

    /// The values that came with its task and stand below a place. Refused only when out of memory.
    pub fn saved_below(
        &self,
        alloc: Global,
        place: &Place,
    ) -> Result<Listed<SavedValue>, AllocError>
        ensures below { IfOk result (λ l. l ≡ saved_under place.now self.now.saved) }
        ensures list { IfOk result (λ l. IsSavedList l) }
    {
        saved_values::below(alloc, self.saved.as_slice(), place)
    }

    /// Whether the frame of a number is there, and ready. Takes no memory.
    pub fn is_ready(&self, number: FrameNo) -> bool
        ensures { result ≡ is_some (ready_in number self.now.content) }
    {
        match self.content.frames.get(number) {
            Some(frame) => all_filled(frame.slots.as_slice()),
            None => false,
        }
    }

    /// Prepares that the frame `number` is carried out by a turn that was evaluated; a kid whose
    /// value came with the task isn't made, and the slot that awaits it is given the value. E40
    /// exactly where the frame isn't ready with that thread and those numbers, E62 where the number
    /// that is next after a join would pass 2^32 - 1, E9 where there is no memory.
    pub fn prepare_exec(
        &self,
        alloc: Global,
        number: FrameNo,
        done: &Done,
    ) -> Result<Prepared, SubError>
        ensures answer { IsPreparedAs self.now
            (exec_content (known_by self.now.saved) done.now number self.now.content) result }
        ensures out_of_memory { IsErrOf result Memory → is_stale_of done.now
            (frame_in number self.now.content.frames) ≡ false }
        ensures may { IfOk result (λ p. MayChange self.now p) }
        ensures ready { IfOk result (λ p. TellsReady self.now.content (changed_of self.now p).after.content p.ready) }
        ensures records { IfOk result (λ p. HasNoOthers self.now.content.records
            (changed_of self.now p).after.content.records) }
        ensures fits { (p : Program) → Fits p self.now.content → TurnFits p done.now.turn
            → IfOk result (λ q. Fits p (changed_of self.now q).after.content) }
    {
        sub_rules::law_turn_is_few(done);
        self.prepare_turn(alloc, number, done.thread(), done.numbers(), done.turn())
    }

    /// The same, by the end to which that thread comes on these numbers, whoever found it.
    pub fn prepare_turn(
        &self,
        alloc: Global,
        number: FrameNo,
        thread: u8,
        numbers: &[i64],
        turn: &Turn,
    ) -> Result<Prepared, SubError>
        requires { TurnFew turn.now }
        ensures answer { (p : Program) → IsPreparedAs self.now (exec_content (known_by self.now.saved)
            (ended p thread numbers.now turn.now) number self.now.content) result }
        ensures out_of_memory { (p : Program) → IsErrOf result Memory → is_stale_of
            (ended p thread numbers.now turn.now) (frame_in number self.now.content.frames) ≡ false }
        ensures may { IfOk result (λ p. MayChange self.now p) }
        ensures ready { IfOk result (λ p. TellsReady self.now.content (changed_of self.now p).after.content p.ready) }
        ensures records { IfOk result (λ p. HasNoOthers self.now.content.records
            (changed_of self.now p).after.content.records) }
        ensures fits { (p : Program) → Fits p self.now.content → TurnFits p turn.now
            → IfOk result (λ q. Fits p (changed_of self.now q).after.content) }
    {
        if sub_rules::is_stale_for(&self.content, number, thread, numbers) {
            return Err(SubError::Stale);
        }
        self.content.frames.law_stand_in_order();
        let prepared = sub_rules::prepare_turn(
            alloc,
            &self.content,
            number,
            thread,
            numbers,
            turn,
            self,
        )?;
        Ok(prepared)
    }

    /// Prepares that the outcome of a grant comes: its record is closed, a value goes where it is
    /// awaited, and too deep is the outcome of the whole. None where there is no record of the
    /// grant; refused only when out of memory.
    pub fn prepare_result(
        &self,
        alloc: Global,
        grant: GrantId,
        outcome: Outcome,
    ) -> Result<Option<Prepared>, AllocError>
        ensures change { IfOk result (λ o. changed_of_some self.now o
            ≡ changed_by self.now (closed_in outcome self.now.content
            (record_in grant self.now.content.records))) }
        ensures may { IfOk result (λ o. IfSome o (λ p. MayChange self.now p)) }
        ensures ready { IfOk result (λ o. IfSome o (λ p. TellsReady self.now.content
            (changed_of self.now p).after.content p.ready)) }
        ensures records { IfOk result (λ o. IfSome o (λ p. HasNoOthers self.now.content.records
            (changed_of self.now p).after.content.records)) }
        ensures fits { (p : Program) → Fits p self.now.content
            → IfOk result (λ o. IfSome o (λ q. Fits p (changed_of self.now q).after.content)) }
    {
        self.content.frames.law_stand_in_order();
        self.content.records.law_stand_in_order();
        match sub_rules::prepare_close(alloc, &self.content, grant, outcome)? {
            Some(prepared) => Ok(Some(prepared)),
            None => Ok(None),
        }
    }

    /// Makes a change that was prepared of this subcomputation; refused only when out of memory,
    /// which changes nothing.
    pub fn update(&mut self, alloc: Global, update: Update) -> Result<(), AllocError>
        requires may { MayUpdate update self.old.content }
        requires begun { IsBegun (updated update self.old.content) }
        ensures ok { OnOk result (self.new ≡ with_content self.old (updated update self.old.content)) }
        ensures err { OnErr result (self.new ≡ self.old) }
    {
        self.content.update(alloc, update)?;
        Ok(())
    }

    /// Prepares that a ready frame is given away under a grant that no record has: the record that
    /// is to stand in the frame's place, and the task that the thief gets. None where no frame is
    /// ready under that number; refused only when out of memory.
    pub fn prepare_grant_out(
        &self,
        alloc: Global,
        number: FrameNo,
        grant: GrantId,
        thief: Incarnation,
    ) -> Result<Option<Opening>, AllocError>
        requires { record_in grant self.now.content.records ≡ None }
        ensures given { IfOk result (λ o. given_of_some self.now o
            ≡ given_by self.now (given_away grant thief self.now.content (ready_in number self.now.content))) }
        ensures begun { IfOk result (λ o. IfSome o (λ p. IsBegun (opened_in p.opened self.now.content))) }
        ensures ready { IfOk result (λ o. IfSome o (λ p. TellsReady self.now.content
            (opened_in p.opened self.now.content) [])) }
        ensures records { IfOk result (λ o. IfSome o (λ p. HasNoOthersBut grant self.now.content.records
            (opened_in p.opened self.now.content).records)) }
        ensures fits { (p : Program) → Fits p self.now.content
            → IfOk result (λ o. IfSome o (λ q. Fits p (opened_in q.opened self.now.content))) }
        ensures task { (p : Program) → Fits p self.now.content
            → IfOk result (λ o. IfSome o (λ q. IsTrue (task_fits p q.task))) }
    {
        sub_rules::law_grants_tell_what_is_ready();
        self.content.frames.law_stand_in_order();
        match sub_rules::prepare_grant_out(alloc, &self.content, number, grant, thief)? {
            Some(opening) => Ok(Some(opening)),
            None => Ok(None),
        }
    }

    /// Gives away the frame of a record that was prepared of this subcomputation: the record stands
    /// in the frame's place. Refused only when out of memory, which changes nothing.
    pub fn open(&mut self, opened: Record) -> Result<(), AllocError>
        requires { IsBegun (opened_in opened self.old.content) }
        ensures ok { OnOk result (self.new ≡ opened_sub opened self.old) }
        ensures err { OnErr result (self.new ≡ self.old) }
    {
        self.content.open(opened)?;
        Ok(())
    }

    /// Closes a record without an outcome, beside this subcomputation: its frame is ready again,
    /// under its old number. None where there is no record of the grant; refused only when out of
    /// memory.
    pub fn redo(&self, alloc: Global, grant: GrantId) -> Result<Option<SubRedo>, AllocError>
        ensures again { IfOk result (λ o. o ≡ again_by self.now
            (done_again self.now.content (record_in grant self.now.content.records))) }
        ensures ready { IfOk result (λ o. IfSome o (λ a. TellsReady self.now.content a.after.content (a.ready ∷ []))) }
        ensures records { IfOk result (λ o.
            IfSome o (λ a. HasNoOthers self.now.content.records a.after.content.records)) }
        ensures fits { (p : Program) → Fits p self.now.content
            → IfOk result (λ o. IfSome o (λ a. Fits p a.after.content)) }
    {
        if self.content.records.get(grant).is_none() {
            return Ok(None);
        }
        self.clone()?.redone(alloc, grant)
    }

    /// The same of a subcomputation that isn't kept, with no copy of it.
    pub fn redone(self, alloc: Global, grant: GrantId) -> Result<Option<SubRedo>, AllocError>
        ensures again { IfOk result (λ o. o ≡ again_by self
            (done_again self.content (record_in grant self.content.records))) }
        ensures ready { IfOk result (λ o. IfSome o (λ a. TellsReady self.content a.after.content (a.ready ∷ []))) }
        ensures records { IfOk result (λ o. IfSome o (λ a. HasNoOthers self.content.records a.after.content.records)) }
        ensures fits { (p : Program) → Fits p self.content → IfOk result (λ o. IfSome o (λ a. Fits p a.after.content)) }
    {
        sub_rules::law_frames_done_again_are_told();
        self.content.frames.law_stand_in_order();
        self.content.records.law_stand_in_order();
        let Sub {
            grant: name,
            hop,
            content,
            saved,
        } = self;
        match sub_rules::redo(alloc, content, grant)? {
            Some(again) => Ok(Some(SubRedo {
                after: Sub {
                    grant: name,
                    hop,
                    content: again.after,
                    saved,
                },
                ready: again.ready,
            })),
            None => Ok(None),
        }
    }

    /// Another host waits for the outcome. Takes no memory.
    pub fn set_parent(&mut self, host: Actor)
        ensures { self.new ≡ with_content self.old (with_parent host self.old.content) }
    {
        sub_rules::renaming_keeps_sound();
        self.content.parent = host;
    }

    /// Another worker holds the frame that a grant gave away. Takes no memory.
    pub fn rename_holder(&mut self, grant: GrantId, holder: Incarnation)
        ensures { self.new ≡ with_content self.old (with_thief grant holder self.old.content) }
    {
        sub_rules::renaming_keeps_sound();
        self.content.records.law_stand_in_order();
        self.content.records.rename_holder(grant, holder);
    }
}

/// Whether a number is in each slot.
fn all_filled(slots: &[Option<i64>]) -> bool
    ensures { result ≡ is_some (numbers_in slots.now) }
{
    match slots {
        [] => true,
        [Some(_), rest @ ..] => all_filled(rest),
        _ => false,
    }
}
