ghost use Rattle.std.specs.Prelude.{◌≡◌, length};
ghost use Rattle.kind_check.specs.Total.{Takes};
ghost use Rattle.chronicle.specs.Seats.{IsSeatIn};
ghost use Rattle.runner_parts.specs.Lines.{IsHomeOf};
ghost use Rattle.runner_parts.specs.Turns.{IsFoundOf};

use crate::inbox::{Delivered, Inbox};
use crate::shared::{Shared, commit, commit_found};
use body_eval::Done;
use chronicle::{ActorSeat, Continued, Receiver};
use disk::SteadyDisk;
use event_script::{Event, FrameOf, NodeEvent, NodePlace};
use grain::takes_its_numbers;
use node_steps::{NodeError, Work};
use runner_parts::{
    Counts, Desk, End, Fates, Found, Gate, Members, Plans, Returned, RunBells, RunConfig, Turns,
    YIELDS, asks_in_vain, is_beginning, is_to_sleep, pause, pauses, rest, rest_idle, wait,
};
use serial_meaning::Flat;
use start_words::Pen;
use std::alloc::Global;
use std::marker::Model;
use std::sync::Wait;
use std::thread::yield_now;
use std::time::Clock;
use world_steps::EventAnswer;

/// After how many turns in a row with nothing done a node sends again, at first and at most.
const PATIENCE: u64 = 16;

const MOST_PATIENCE: u64 = 512;

/// How many events may be committed until a node sends again.
const SILENCE: u64 = 100;

/// After how many frames in a row that are carried out before packets the next packet comes.
const MOST_KNOWN: u64 = 16;

/// From how many events on since a node slept last others go on.
const OTHERS: u64 = 8;

/// In how many turns a node that sent again holds at most while another actor is behind.
const HOLDS: u64 = 10_000;

/// A node place of a run.
#[derive(Drop)]
struct Node {
    place: NodePlace,
    /// The start word of the node that is up.
    word: u64,
    inbox: Inbox,
    members: Members,
    plans: Plans,
    /// Whether a frame may have become ready since there was none, and one that was found ready, if
    /// no packet came since.
    may_be_ready: bool,
    next: Option<Work>,
    /// Whether a request waits for its answer.
    has_asked: bool,
    /// Whether it leaves, and whether it has ended then.
    leaves: bool,
    is_over: bool,
    /// In how many turns in a row nothing was done, and in how many since it sent again last, and
    /// after how many it sends again.
    rested: u64,
    idle: u64,
    patience: u64,
    /// How many frames in a row were carried out before the packets were looked at.
    known: u64,
    /// How many events were committed when it sent again last.
    sent: u64,
    /// Whether it holds while another actor is behind, and in how many turns it did since it sent
    /// again last.
    holds: bool,
    held: u64,
    /// How often it asked since it ran a frame, and in how many turns it pauses until it asks once
    /// more.
    dry: u64,
    pauses: u64,
    /// How often its bell had been rung when this turn began.
    rung: u64,
    /// How many events were committed when it last slept, and whether it was left out then.
    passed: u64,
    left_out: bool,
}

/// What a node's thread has in a run: what the actors share, a seat, a pen, a desk for its body
/// workers, the flat code by which it evaluates small tasks itself, and the node of its place.
/// Contracts see the chronicle.
#[derive(Drop)]
struct NodeRun<'r, 's, 'a, G: Gate + Sync, D: SteadyDisk + Drop> {
    alloc: Global,
    shared: &'r Shared<'s, 'a, G, D>,
    seat: ActorSeat<'a, D>,
    pen: Pen,
    desk: Desk,
    flat: Flat,
    node: Node,
}

impl<'r, 's, 'a, G: Gate + Sync, D: SteadyDisk + Drop> Model for NodeRun<'r, 's, 'a, G, D> {
    ghost use Rattle.std.specs.Prelude.{◌≡◌};
    ghost use Rattle.task_tree.specs.Codes.{program_codes};
    ghost use Rattle.chronicle.specs.Seats.{ChronicleOf, IsSeatIn};
    ghost use Rattle.start_words.specs.Words.{IsPenOf};
    ghost use Rattle.runner_parts.specs.Lines.{IsHomeOf};

    ghost Value = { ChronicleOf };

    ghost coded = { Prim.hlevel program_codes };

    ghost view = { λ r. r.shared.now.chronicle.now };

    ghost invariant = { λ r. IsSeatIn r.shared.now.chronicle.now r.seat × IsPenOf r.shared.now.words.now r.pen
        × IsHomeOf r.shared.now.chronicle.now.job.program r.desk.home × (r.flat.program ≡ r.shared.now.chronicle.now.job.program) };
}

/// The turns of a node place, until the run ends.
pub(crate) fn run_node<'a, R: Wait + Clock, G: Gate + Sync, D: SteadyDisk + Drop>(
    rt: &R,
    alloc: Global,
    shared: &Shared<'_, 'a, G, D>,
    seat: ActorSeat<'a, D>,
    pen: Pen,
    desk: Desk,
    place: NodePlace,
) -> ActorSeat<'a, D>
    requires seat { IsSeatIn shared.now.chronicle.now seat }
    requires pen { pen.table ≡ shared.now.words.now.table }
    requires home { IsHomeOf shared.now.chronicle.now.job.program desk.home }
    ensures { IsSeatIn shared.entry.now.chronicle.now result }
{
    let Ok(flat) = Flat::of(alloc, shared.chronicle.job().checked()) else {
        shared.counts.end_by(End::Memory);
        desk.bells().end();
        return seat;
    };
    let mut note = shared.board.note();
    let mut run = NodeRun {
        alloc,
        shared,
        seat,
        pen,
        desk,
        flat,
        node: Node::new(alloc, shared.config, place),
    };
    let mut turns = Turns::new();
    if run.start(rt) {
        for _ in rt.forever() {
            if !shared.counts.take_turn(&mut turns)
                || shared.board.read(&mut note).is_some()
                || !run.turn(rt)
            {
                break;
            }
        }
    }
    let NodeRun { seat, desk, .. } = run;
    desk.bells().end();
    seat
}

impl<'r, 's, 'a, G: Gate + Sync, D: SteadyDisk + Drop> NodeRun<'r, 's, 'a, G, D> {
    /// A turn: a crash that is due; or else a departure and a Resend that are due, and then what
    /// there is to do. So a node goes on with what came to it however often it has to send again.
    /// After a Resend it does nothing while another actor is behind it. Whether there was memory.
    fn turn<R: Wait + Clock>(&mut self, rt: &R) -> bool
        ensures { self.new ≡ self.old }
    {
        self.node.rung = self.shared.bells.node_rung(self.node.index());
        let events = self.shared.counts.events();
        if self.node.plans.take_crash(events) && !self.node.leaves {
            return self.crash(rt);
        }
        if self.node.is_over {
            self.shared.pace.forget(self.node.index());
            self.node.rested = self.node.rested.saturating_add(1);
            rest(rt, self.shared.config.nodes(), self.node.rested);
            return true;
        }
        if self.node.holds {
            let behind = self
                .shared
                .pace
                .is_behind(self.shared.chronicle.sent(), self.node.sent);
            if self.node.is_held(behind) {
                rest(rt, self.shared.config.nodes(), self.node.held);
                return true;
            }
        }
        if !self.node.leaves && self.node.plans.take_departure(events) && !self.depart(rt) {
            return false;
        }
        if events >= self.node.sent.saturating_add(SILENCE) && !self.send_again(rt) {
            return false;
        }
        self.do_next(rt)
    }

    /// What there is to do in a turn; where there is nothing the node rests, and sends again where
    /// it rested long. Whether there was memory.
    fn do_next<R: Wait + Clock>(&mut self, rt: &R) -> bool
        ensures { self.new ≡ self.old }
    {
        match self.go_on(rt) {
            Some(true) => true,
            Some(false) => self.rest_or_send_again(rt),
            None => false,
        }
    }

    /// The next packet comes, or else a frame is carried out of which is known what it comes to, or
    /// a ready one is offered to the body workers, or the node asks. Where tasks are evaluated
    /// whole what is known goes before the packets, some times in a row at most, so that no thief
    /// is granted what is evaluated already; and packets wait while all that is ready is evaluated.
    /// Whether one of these was done; none where there was no memory.
    fn go_on<R: Wait + Clock>(&mut self, rt: &R) -> Option<bool>
        ensures { self.new ≡ self.old }
    {
        let is_known_first = self.shared.config.grain() > 0 && self.node.known < MOST_KNOWN;
        if is_known_first && self.carry_out_known(rt)? {
            self.node.known = self.node.known.saturating_add(1);
            return Some(true);
        }
        self.node.known = 0;
        if self.keeps_packets_waiting() {
            return Some(false);
        }
        if self.take_next(rt)? {
            return Some(true);
        }
        if !is_known_first && self.carry_out_known(rt)? {
            return Some(true);
        }
        if self.offer_next(rt)? {
            return Some(true);
        }
        if self.node.has_asked || self.node.plans.is_to_leave() || self.desk.is_busy() {
            return Some(false);
        }
        if self.node.pauses > 0 {
            self.node.pauses = self.node.pauses.saturating_sub(1);
            let nodes = self.shared.config.nodes();
            self.node
                .sleep(rt, self.shared.bells, self.shared.counts, nodes);
            return Some(true);
        }
        self.ask(rt)
    }

    /// Whether packets wait until a body worker is done: in a run of several nodes each ready frame
    /// is with a worker, which evaluates its task whole, and a thief that asks for one would do the
    /// same once more.
    fn keeps_packets_waiting(&self) -> bool {
        self.shared.config.grain() > 0
            && self.shared.config.nodes() > 1
            && self.desk.has_begun_all()
            && !self.node.may_be_ready
            && self.node.next.is_none()
    }

    /// The next packet comes to the node, if there is one. Whether one did; none where there was no
    /// memory.
    fn take_next<R: Wait + Clock>(&mut self, rt: &R) -> Option<bool>
        ensures { self.new ≡ self.old }
    {
        let sent = self.shared.chronicle.sent();
        match self
            .node
            .inbox
            .take(rt, self.alloc, self.shared.chronicle, &mut self.seat)
        {
            Ok(Some(delivered)) => {
                self.shared.wake_receivers(sent);
                if !self.take_packet(&delivered) {
                    return None;
                }
                Some(true)
            }
            Ok(None) => Some(false),
            Err(_) => {
                self.shared.counts.end_by(End::Memory);
                None
            }
        }
    }

    /// There is nothing to do: the node rests, and sends again where it rested long. Whether there
    /// was memory.
    fn rest_or_send_again<R: Wait + Clock>(&mut self, rt: &R) -> bool
        ensures { self.new ≡ self.old }
    {
        if self.desk.is_waiting() && !self.desk.has_long_work() && self.node.stay_awake() {
            return true;
        }
        if self.node.idle < self.node.patience {
            self.node.idle = self.node.idle.saturating_add(1);
            self.node.rest(
                rt,
                &self.desk,
                self.shared.bells,
                self.shared.counts,
                self.shared.config.nodes(),
            );
            return true;
        }
        self.node.patience = self.node.patience.saturating_mul(2).min(MOST_PATIENCE);
        // (there may be a ready frame that no memory was found to look for)
        self.node.may_be_ready = true;
        self.send_again(rt)
    }

    /// A frame is carried out of which is known what it comes to: by what came back of it, or as
    /// `settle_next` does. A value whose frame was granted to a thief meanwhile is kept, as others
    /// are, for the case that the frame comes back. Whether something was known; none where there
    /// was no memory.
    fn carry_out_known<R: Wait>(&mut self, rt: &R) -> Option<bool>
        ensures { self.new ≡ self.old }
    {
        let Some(returned) = self.desk.take(rt, self.shared.chronicle.job().checked()) else {
            return self.settle_next(rt);
        };
        let Returned { frame, found } = returned;
        let told = self.carry_out(rt, frame, &found)?;
        if let (EventAnswer::Refused(_), Found::Whole(whole)) = (told, found) {
            self.shared.counts.waste(whole.turns());
            self.desk.keep(self.shared.chronicle.job().checked(), whole);
        }
        Some(true)
    }

    /// A node starts at the place, with a new start word. Whether there was memory.
    fn start<R: Wait>(&mut self, rt: &R) -> bool
        ensures { self.new ≡ self.old }
    {
        let Ok(word) = self.pen.draw(self.shared.words) else {
            self.node.is_over = true;
            return true;
        };
        self.node.word = word;
        self.node.inbox.receiver = Receiver::Worker(word);
        self.node.members.forget();
        self.node.may_be_ready = false;
        self.node.next = None;
        self.node.has_asked = false;
        self.node.rested = 0;
        self.node.idle = 0;
        self.node.patience = PATIENCE;
        self.shared
            .pace
            .hear(self.node.index(), self.shared.counts.events());
        self.shared.bells.set_word(self.node.index(), word);
        let event = Event::Start(self.node.place, word);
        let sent = self.shared.chronicle.sent();
        let committed = commit(
            rt,
            self.shared.chronicle,
            self.shared.counts,
            &mut self.seat,
            event,
        );
        self.shared.wake_receivers(sent);
        committed.is_some()
    }

    /// The node of the place loses its memory, and another one starts. Its tickets are forgotten.
    /// Whether there was memory.
    fn crash<R: Wait>(&mut self, rt: &R) -> bool
        ensures { self.new ≡ self.old }
    {
        self.desk.forget();
        let event = Event::Crash(self.node.place);
        if commit(
            rt,
            self.shared.chronicle,
            self.shared.counts,
            &mut self.seat,
            event,
        )
        .is_none()
        {
            return false;
        }
        self.start(rt)
    }

    /// An event of the node is committed. What was told of it; none where there was no memory.
    fn do_event<R: Wait>(&mut self, rt: &R, event: NodeEvent) -> Option<EventAnswer>
        ensures { self.new ≡ self.old }
    {
        let event = Event::AtNode(self.node.place, event);
        let sent = self.shared.chronicle.sent();
        let committed = commit(
            rt,
            self.shared.chronicle,
            self.shared.counts,
            &mut self.seat,
            event,
        )?;
        self.shared.wake_receivers(sent);
        self.node.note(committed.told);
        Some(committed.told)
    }

    /// The node leaves to another live member, if there is one that doesn't leave itself, none
    /// leaves to this one, and it may. It takes its tickets back before, and offers them again
    /// where it may not leave. Whether there was memory.
    fn depart<R: Wait>(&mut self, rt: &R) -> bool
        ensures { self.new ≡ self.old }
    {
        let Some(heir) = self.node.members.heir(self.node.word, self.shared.leavers) else {
            return true;
        };
        if !self
            .shared
            .leavers
            .begin(self.node.index(), self.node.word, heir)
        {
            return true;
        }
        self.desk.take_back();
        self.node.may_be_ready = true;
        self.node.next = None;
        match self.do_event(rt, NodeEvent::Depart(heir)) {
            Some(EventAnswer::Did(_, _)) => {
                self.node.leaves = true;
                true
            }
            Some(_) => {
                self.shared.leavers.stay(self.node.index());
                true
            }
            None => false,
        }
    }

    /// The node sends again. One that has ended is over where it left; else it crashes, and another
    /// one starts. Whether there was memory.
    fn send_again<R: Wait>(&mut self, rt: &R) -> bool
        ensures { self.new ≡ self.old }
    {
        self.node.sent = self.shared.counts.events();
        self.node.holds = true;
        self.node.held = 0;
        self.shared.pace.hear(self.node.index(), self.node.sent);
        let (rested, patience) = (self.node.rested, self.node.patience);
        let Some(told) = self.do_event(rt, NodeEvent::Resend) else {
            return false;
        };
        (self.node.rested, self.node.patience) = (rested, patience);
        match told {
            EventAnswer::Refused(NodeError::NotJoined) if self.node.leaves => {
                self.shared.leavers.end(self.node.index());
                self.node.is_over = true;
                true
            }
            EventAnswer::Refused(NodeError::NotJoined) => self.crash(rt),
            _ => true,
        }
    }

    /// A packet came to the node. Whether there was memory.
    fn take_packet(&mut self, delivered: &Delivered) -> bool
        ensures { self.new ≡ self.old }
    {
        let told = delivered.committed.told;
        self.shared.counts.count_event();
        self.node.note(told);
        self.node.next = None;
        self.node.has_asked = false;
        let Some(roster) = &delivered.roster else {
            return true;
        };
        if matches!(told, EventAnswer::Did(_, _))
            && !self.node.members.take(self.alloc, roster.as_slice())
        {
            self.shared.counts.end_by(End::Memory);
            return false;
        }
        true
    }

    /// A ready frame that isn't out is carried out where that takes no evaluation: by its own turn,
    /// where its task is short work or known to be large, or by its task's value, where an
    /// evaluation kept it. Whether one was; none where there was no memory.
    fn settle_next<R: Wait>(&mut self, rt: &R) -> Option<bool>
        ensures { self.new ≡ self.old }
    {
        let Some(work) = self.next_ready(rt) else {
            return Some(false);
        };
        let checked = self.shared.chronicle.job().checked();
        let fits = takes_its_numbers(checked, &work);
        if fits && self.desk.is_short(checked, &work) {
            return self.run_here(rt, work);
        }
        if let Some(whole) = self.desk.value_of(checked, &work) {
            let turns = whole.turns();
            self.carry_out(
                rt,
                FrameOf::of(work.grant, work.frame),
                &Found::Whole(whole),
            )?;
            self.shared.counts.use_kept(turns);
            return Some(true);
        }
        if fits && self.desk.was_large(&work) {
            return self.run_here(rt, work);
        }
        self.node.next = Some(work);
        Some(false)
    }

    /// A ready frame that isn't out is carried out by its task's value, where that is small and no
    /// body worker waits for one; else it is offered to the body workers, if they take one more.
    /// Whether one was; none where there was no memory.
    fn offer_next<R: Wait>(&mut self, rt: &R) -> Option<bool>
        ensures { self.new ≡ self.old }
    {
        let Some(work) = self.next_ready(rt) else {
            return Some(false);
        };
        let checked = self.shared.chronicle.job().checked();
        let fits = takes_its_numbers(checked, &work);
        if fits && self.desk.is_small(&work) && self.is_alone(rt, &work) {
            return self.evaluate_here(rt, work);
        }
        if self.desk.is_full() {
            self.node.next = Some(work);
            return Some(false);
        }
        Some(self.desk.offer(work))
    }

    /// Whether body workers need not be told of a ready frame: they have as much as they take, or
    /// nothing at all, and there is no other ready frame, so that no two would run at once.
    fn is_alone<R: Wait>(&mut self, rt: &R, work: &Work) -> bool
        ensures { self.new ≡ self.old }
    {
        if self.desk.is_waiting() {
            return self.desk.is_full();
        }
        let this = [FrameOf::of(work.grant, work.frame)];
        let other = self
            .shared
            .chronicle
            .ready(rt, self.alloc, &mut self.seat, self.node.place, &this);
        other.is_none()
    }

    /// The ready frame that was found right behind the last one, or else the next one that isn't
    /// out, if there may be one, and is.
    fn next_ready<R: Wait>(&mut self, rt: &R) -> Option<Work>
        ensures { self.new ≡ self.old }
    {
        if !self.node.may_be_ready {
            return None;
        }
        if let Some(work) = self.node.next.take() {
            return Some(work);
        }
        let found = self.shared.chronicle.ready(
            rt,
            self.alloc,
            &mut self.seat,
            self.node.place,
            self.desk.frames(),
        );
        self.node.may_be_ready = found.is_some();
        found
    }

    /// A frame of the node is carried out by its turn, which no body worker is asked for. None
    /// where there was no memory.
    fn run_here<R: Wait>(&mut self, rt: &R, work: Work) -> Option<bool>
        requires { Takes self.old.job.program work.thread (length work.numbers) }
        ensures { self.new ≡ self.old }
    {
        let frame = FrameOf::of(work.grant, work.frame);
        let checked = self.shared.chronicle.job().checked();
        let Ok(turn) = Done::on(self.alloc, checked, work.thread, work.numbers) else {
            self.shared.counts.end_by(End::Memory);
            return None;
        };
        self.carry_out(rt, frame, &Found::Turn(turn))?;
        Some(true)
    }

    /// The small task of a ready frame is evaluated by the node's own thread. Where it takes more
    /// turns than those before it the frame is the next one that is offered. None where there was
    /// no memory.
    fn evaluate_here<R: Wait>(&mut self, rt: &R, work: Work) -> Option<bool>
        requires { Takes self.old.job.program work.thread (length work.numbers) }
        ensures { self.new ≡ self.old }
    {
        let frame = FrameOf::of(work.grant, work.frame);
        let checked = self.shared.chronicle.job().checked();
        let most = self
            .shared
            .counts
            .take_for(self.desk.few_turns(work.thread));
        match self
            .desk
            .evaluate_small(self.alloc, checked, &self.flat, work, most)
        {
            Ok(whole) => {
                self.shared.counts.give_back(most - whole.turns());
                self.carry_out(rt, frame, &Found::Whole(whole))?;
            }
            Err(work) => {
                self.shared.counts.waste(most);
                self.node.next = Some(work);
            }
        }
        Some(true)
    }

    /// A frame of the node is carried out by what was found for it: its turn, or what its task
    /// gives. What was told of that; none where there was no memory.
    fn carry_out<R: Wait>(&mut self, rt: &R, frame: FrameOf, found: &Found) -> Option<EventAnswer>
        requires { IsFoundOf self.old.job.program found.now }
        ensures { self.new ≡ self.old }
    {
        let sent = self.shared.chronicle.sent();
        let continued = commit_found(
            rt,
            self.alloc,
            self.shared.chronicle,
            self.shared.counts,
            &mut self.seat,
            self.node.place,
            frame,
            found,
            self.desk.frames(),
        )?;
        let told = continued.committed.told;
        self.shared.wake_receivers(sent);
        follow_up(&mut self.node, continued);
        Some(told)
    }

    /// The node asks for work, where somebody is listed. Whether it did; none where there was no
    /// memory.
    fn ask<R: Wait + Clock>(&mut self, rt: &R) -> Option<bool>
        ensures { self.new ≡ self.old }
    {
        let Some(victim) = self.node.members.victim(self.node.word) else {
            return Some(false);
        };
        self.node.dry = self.node.dry.saturating_add(1);
        self.node.pauses = pauses(self.node.dry, self.node.left_out);
        let told = self.do_event(rt, NodeEvent::Ask(victim))?;
        if let EventAnswer::Did(_, _) = told {
            self.node.members.ask(victim);
        }
        self.node.has_asked = match told {
            EventAnswer::Did(_, _) | EventAnswer::Refused(NodeError::Pending) => true,
            _ => false,
        };
        Some(self.node.has_asked)
    }
}

/// A frame was carried out. A ready frame that was found right behind it is looked at in the next
/// turn.
fn follow_up(node: &mut Node, continued: Continued) {
    let Continued { committed, next } = continued;
    node.note(committed.told);
    node.dry = 0;
    node.pauses = 0;
    node.left_out = false;
    if next.is_none() {
        node.may_be_ready = false;
    }
    node.next = next;
}

impl Node {
    /// The node of a place, which hasn't started yet.
    fn new(alloc: Global, config: &RunConfig, place: NodePlace) -> Node {
        let faults = config.faults();
        let number = u64::from(place.index());
        let fates = Fates::new(faults.word, number, faults.lose, faults.repeat);
        Node {
            place,
            word: 0,
            inbox: Inbox::new(Some(place), Receiver::Worker(0), fates),
            members: Members::new(alloc, faults.word, number),
            plans: Plans::new(config, place),
            may_be_ready: false,
            next: None,
            has_asked: false,
            leaves: false,
            is_over: false,
            rested: 0,
            idle: 0,
            patience: PATIENCE,
            known: 0,
            sent: 0,
            holds: false,
            held: 0,
            dry: 0,
            pauses: 0,
            rung: 0,
            passed: 0,
            left_out: false,
        }
    }

    /// The number of its place.
    fn index(&self) -> usize {
        usize::from(self.place.index())
    }

    /// Whether it holds in this turn, where another actor is behind or none is.
    fn is_held(&mut self, behind: bool) -> bool {
        self.holds = self.holds && behind && self.held < HOLDS;
        self.held = self.held.saturating_add(1);
        self.holds
    }

    /// What was told of an event of the node: where it did something, a frame may be ready, and it
    /// is patient again.
    fn note(&mut self, told: EventAnswer) {
        if let EventAnswer::Did(_, _) = told {
            self.may_be_ready = true;
            self.rested = 0;
            self.idle = 0;
            self.patience = PATIENCE;
        }
    }

    /// Whether it stays awake for a turn of its body workers, in which it lets others go on. Such a
    /// turn isn't counted as one in which nothing was done.
    fn stay_awake(&mut self) -> bool {
        if self.rested >= YIELDS {
            return false;
        }
        self.rested = self.rested.saturating_add(1);
        yield_now();
        true
    }

    /// It sleeps until its bell is rung, and longer at most where it is left out: where it asks in
    /// vain, and others went on since it slept last.
    fn sleep<R: Wait>(&mut self, rt: &R, bells: &RunBells, counts: &Counts, nodes: u8) {
        let events = counts.events();
        let others = events.saturating_sub(self.passed);
        self.passed = events;
        self.left_out = asks_in_vain(self.dry) && others >= OTHERS;
        let most = pause(nodes, self.left_out);
        bells.sleep_node(rt, self.index(), self.rung, most);
    }

    /// It lets others go on, in a run of so many nodes, until its bell is rung, unless it was in
    /// this turn: at once where what its body workers have takes long, so that it doesn't take a
    /// processor from them. Where it is left out it sleeps in each turn.
    fn rest<R: Wait + Clock>(
        &mut self,
        rt: &R,
        desk: &Desk,
        bells: &RunBells,
        counts: &Counts,
        nodes: u8,
    ) {
        self.rested = self.rested.saturating_add(1);
        if desk.is_waiting() {
            let long = desk.has_long_work();
            if long || is_to_sleep(self.rested) {
                bells.sleep_node(rt, self.index(), self.rung, wait(nodes, long));
            }
        } else if is_beginning(counts.events(), nodes, self.rested) {
            yield_now();
        } else if self.left_out || is_to_sleep(self.rested) {
            self.sleep(rt, bells, counts, nodes);
        } else {
            rest_idle(rt, nodes, self.rested);
        }
    }
}
