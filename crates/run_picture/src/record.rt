//! The record of a run.

use crate::deed::{Deed, Effect, Site, Step, read_event};
use crate::folds::Folds;
use crate::held::{Bar, Lane};
use crate::mark::mark_of;
use crate::said::{Said, tasks_of};
use crate::shown::{Death, Delivery, Life, Lost, Sent, Turn, Worker, keep};
use crate::texts::EventWords;
use codec::{Body, Packet, Roster, decode, kind_of};
use event_script::{Event, HouseEvent, NodePlace};
use event_words::ran_in;
use ids::{Outcome, Status};
use std::alloc::Global;
use world::{EventAnswer, Watch, World};

/// The error of a device call that failed, which stops the clearinghouse.
const DEVICE: u8 = 72;

/// From here on numbers address the clearinghouse.
pub(crate) const HOUSE: u64 = 1 << 63;

/// Where the clearinghouse stands.
#[derive(Clone, Copy, PartialEq, Eq)]
pub(crate) enum Stand {
    Down,
    Stopped,
    /// Open, since an event.
    Open(usize),
}

/// How much of what is shown has changed so far, but for marks, turns and packets.
#[derive(Clone, Copy, PartialEq, Eq)]
struct Tally {
    house: Stand,
    moves: usize,
    deaths: usize,
    has_outcome: bool,
}

/// The record of a run, made while it goes: what each event was and what came of it, which bodies
/// ran, what the nodes held, what was sent and came, and what rosters said. It takes memory with
/// each event.
#[derive(Drop)]
pub struct Recorder {
    is_whole: bool,
    pub(crate) steps: Vec<Step>,
    pub(crate) folds: Folds,
    /// The names of the program's threads.
    threads: Vec<Vec<u8>>,
    pub(crate) lanes: Vec<Lane>,
    pub(crate) bars: Vec<Bar>,
    pub(crate) turns: Vec<Turn>,
    pub(crate) said: Said,
    pub(crate) lives: Vec<Life>,
    pub(crate) workers: Vec<Worker>,
    pub(crate) packets: Vec<Sent>,
    pub(crate) deliveries: Vec<Delivery>,
    pub(crate) deaths: Vec<Death>,
    pub(crate) house: Stand,
    /// Whether the clearinghouse was open at some time, and how often what a node holds has
    /// changed.
    was_open: bool,
    moves: usize,
    /// The epoch and the version of the newest roster that was sent.
    roster: (u64, u64),
    pub(crate) outcome: Option<(usize, Outcome)>,
    pub(crate) fills: usize,
}

impl Watch for Recorder {
    fn see(&mut self, alloc: Global, event: &Event, told: EventAnswer, world: &World<'_>) {
        if self.is_whole && self.take(alloc, event, told, world).is_err() {
            self.is_whole = false;
        }
    }
}

impl Recorder {
    /// Nothing was seen yet. It takes no memory.
    pub fn new(alloc: Global) -> Recorder {
        Recorder {
            is_whole: true,
            steps: Vec::new(alloc),
            folds: Folds::new(alloc),
            threads: Vec::new(alloc),
            lanes: Vec::new(alloc),
            bars: Vec::new(alloc),
            turns: Vec::new(alloc),
            said: Said::new(alloc),
            lives: Vec::new(alloc),
            workers: Vec::new(alloc),
            packets: Vec::new(alloc),
            deliveries: Vec::new(alloc),
            deaths: Vec::new(alloc),
            house: Stand::Down,
            was_open: false,
            moves: 0,
            roster: (0, 0),
            outcome: None,
            fills: 0,
        }
    }

    /// Whether all of the run is in it: false where memory ran out.
    pub fn is_whole(&self) -> bool {
        self.is_whole
    }

    /// Keeps an event.
    fn take(
        &mut self,
        alloc: Global,
        event: &Event,
        told: EventAnswer,
        world: &World<'_>,
    ) -> Result<(), Lost> {
        if self.threads.is_empty() {
            self.threads = thread_names(alloc, world)?;
        }
        let (at, before) = (self.steps.len(), self.tally());
        let step = self.read(event, told, world);
        self.say_turn(alloc, at, event, told, world)?;
        self.keep_step(alloc, at, &step, world)?;
        self.send(alloc, at, &step, world)?;
        self.commit(at, told);
        self.fills = world.fills();
        let stands_out = step.ran.is_some() || mark_of(&step).is_some() || self.tally() != before;
        self.folds.take(stands_out)
    }

    /// Whether a task was evaluated whole.
    pub(crate) fn has_wholes(&self) -> bool {
        self.turns.iter().any(|turn| turn.is_of_whole)
    }

    /// Keeps the words of the turn that an event took, if it took one, and if one of the first
    /// ones.
    fn say_turn(
        &mut self,
        alloc: Global,
        at: usize,
        event: &Event,
        told: EventAnswer,
        world: &World<'_>,
    ) -> Result<(), Lost> {
        let (Some(ran), EventAnswer::Did(_, fills)) = (ran_in(event), told) else {
            return Ok(());
        };
        let Some(lane) = self.lanes.get(usize::from(ran.place.index())) else {
            return Ok(());
        };
        match lane.task_of(ran.frame) {
            Some(task) if !self.said.is_full() => {
                self.said.say(alloc, at, world, &ran, task, fills)
            }
            _ => Ok(()),
        }
    }

    /// How much has changed so far.
    fn tally(&self) -> Tally {
        Tally {
            house: self.house,
            moves: self.moves,
            deaths: self.deaths.len(),
            has_outcome: self.outcome.is_some(),
        }
    }

    /// What an event was, and what came of it.
    fn read(&mut self, event: &Event, told: EventAnswer, world: &World<'_>) -> Step {
        let (site, deed) = read_event(event);
        let effect = self.effect_of(&deed, &told);
        let ran = body_run(&site, &deed, effect, world);
        let deed = self.opened(deed, effect);
        let deed = counted(&site, deed, effect, world);
        Step {
            site,
            deed,
            effect,
            ran,
        }
    }

    /// What happens, where the first time that the clearinghouse is opened is told apart.
    fn opened(&mut self, deed: Deed, effect: Effect) -> Deed {
        let is_open = matches!(&deed, Deed::Restart) && effect == Effect::Done;
        if !is_open || self.was_open {
            return deed;
        }
        self.was_open = true;
        Deed::Open
    }

    /// The words of an event.
    pub(crate) fn words_of(&self, step: &Step) -> EventWords<'_> {
        EventWords {
            step: *step,
            thread: self.thread_of(step),
        }
    }

    /// The name of the thread whose body an event ran, if it ran one.
    pub(crate) fn thread_of(&self, step: &Step) -> Option<&[u8]> {
        let name = self.threads.get(usize::from(step.ran?))?;
        Some(name.as_slice())
    }

    /// Keeps an event but for what was sent.
    fn keep_step(
        &mut self,
        alloc: Global,
        at: usize,
        step: &Step,
        world: &World<'_>,
    ) -> Result<(), Lost> {
        keep(&mut self.steps, *step)?;
        if let Some(index) = step.deed.packet() {
            self.come(at, step, index)?;
        }
        match &step.site {
            Site::House => self.house_did(at, step),
            Site::At(place) => {
                self.use_lane(alloc, place)?;
                if step.effect == Effect::Done {
                    self.node_did(alloc, at, place, &step.deed, world)?;
                }
                Ok(())
            }
        }
    }

    /// What came of an event.
    fn effect_of(&self, deed: &Deed, told: &EventAnswer) -> Effect {
        match *told {
            EventAnswer::Unfit => Effect::Nothing,
            EventAnswer::Ignored => Effect::Ignored,
            EventAnswer::Refused(error) => Effect::Refused(error.number()),
            EventAnswer::Did(_, _) => Effect::Done,
            EventAnswer::House(refused, _, _) => match refused {
                _ if !self.reaches_house(deed) => Effect::Nothing,
                Some(error) => Effect::Refused(error.number()),
                None => Effect::Done,
            },
        }
    }

    /// Whether an event of the clearinghouse applies.
    fn reaches_house(&self, deed: &Deed) -> bool {
        let is_open = matches!(self.house, Stand::Open(_));
        match *deed {
            Deed::Deliver(index) | Deed::Cut(_, HouseEvent::Deliver(index)) => {
                is_open && index < self.packets.len() as u64
            }
            Deed::Tick(_) | Deed::Cut(_, HouseEvent::Tick(_)) => is_open,
            Deed::Restart | Deed::Cut(_, HouseEvent::Restart) => !is_open,
            Deed::Crash => self.house != Stand::Down,
            _ => false,
        }
    }

    /// A packet comes, if it is there and somebody is up to take it.
    fn come(&mut self, at: usize, step: &Step, index: u64) -> Result<(), Lost> {
        let packet = index as usize;
        let Some(sent) = self.packets.get_mut(packet) else {
            return Ok(());
        };
        if step.effect == Effect::Nothing {
            return Ok(());
        }
        let is_again = sent.is_delivered;
        sent.is_delivered = true;
        let is_lost = step.site == Site::House && sent.to < HOUSE;
        keep(
            &mut self.deliveries,
            Delivery {
                packet,
                at,
                site: step.site,
                is_again,
                is_ignored: is_lost || step.effect == Effect::Ignored,
            },
        )
    }

    /// Where the clearinghouse stands after an event.
    fn house_did(&mut self, at: usize, step: &Step) -> Result<(), Lost> {
        let next = match (step.deed, step.effect) {
            (_, Effect::Nothing) => self.house,
            (_, Effect::Refused(DEVICE)) => Stand::Stopped,
            (Deed::Open | Deed::Restart, Effect::Done) => Stand::Open(at),
            (Deed::Crash, _) => Stand::Down,
            (Deed::Cut(_, _), _) => Stand::Stopped,
            _ => self.house,
        };
        if let (Stand::Open(since), Stand::Down | Stand::Stopped) = (self.house, next) {
            let (site, until) = (Site::House, at);
            keep(&mut self.lives, Life { site, since, until })?;
        }
        self.house = next;
        Ok(())
    }

    /// The lane of a place is there, and used.
    fn use_lane(&mut self, alloc: Global, place: &NodePlace) -> Result<(), Lost> {
        let index = usize::from(place.index());
        for _ in self.lanes.len()..=index {
            keep(&mut self.lanes, Lane::new(alloc))?;
        }
        if let Some(lane) = self.lanes.get_mut(index) {
            lane.is_used = true;
        }
        Ok(())
    }

    /// What an event changed at the node of a place.
    fn node_did(
        &mut self,
        alloc: Global,
        at: usize,
        place: &NodePlace,
        deed: &Deed,
        world: &World<'_>,
    ) -> Result<(), Lost> {
        let Some(lane) = self.lanes.get_mut(usize::from(place.index())) else {
            return Ok(());
        };
        if let Some(turn) = turn_of(lane, at, place, deed) {
            keep(&mut self.turns, turn)?;
        }
        match *deed {
            Deed::Start(word) => {
                lane.start(at, word);
                let place = *place;
                keep(&mut self.workers, Worker { word, at, place })?;
            }
            Deed::Crash => {
                if let Some(since) = lane.up {
                    let (site, until) = (Site::At(*place), at);
                    keep(&mut self.lives, Life { site, since, until })?;
                    lane.up = None;
                }
            }
            _ => {}
        }
        self.hold(alloc, at, place, world)
    }

    /// What the node of a place holds after an event; nothing where none is up.
    fn hold(
        &mut self,
        alloc: Global,
        at: usize,
        place: &NodePlace,
        world: &World<'_>,
    ) -> Result<(), Lost> {
        let Some(lane) = self.lanes.get_mut(usize::from(place.index())) else {
            return Ok(());
        };
        let has_changed = match world.node(*place) {
            None => lane.hold(alloc, at, *place, &[], &mut self.bars)?,
            Some(node) => match node.subs(alloc) {
                Ok(subs) => {
                    let subs = subs.as_slice();
                    if !self.said.is_full() {
                        lane.tasks = tasks_of(alloc, world, *place, subs)?;
                    }
                    lane.hold(alloc, at, *place, subs, &mut self.bars)?
                }
                Err(_) => return Err(Lost),
            },
        };
        if has_changed {
            self.moves = self.moves.saturating_add(1);
        }
        Ok(())
    }

    /// The packets that were sent at an event: all that weren't there before.
    fn send(
        &mut self,
        alloc: Global,
        at: usize,
        step: &Step,
        world: &World<'_>,
    ) -> Result<(), Lost> {
        for index in self.packets.len()..world.packets() {
            let Some(datagram) = world.packet(index as u64) else {
                return Err(Lost);
            };
            match decode(alloc, datagram.as_bytes()) {
                Ok(packet) => self.keep_packet(at, step.site, &packet)?,
                Err(_) => return Err(Lost),
            }
        }
        Ok(())
    }

    /// Keeps a packet that was sent, and what it says where it is a roster.
    fn keep_packet(&mut self, at: usize, site: Site, packet: &Packet) -> Result<(), Lost> {
        if let Body::Roster(roster) = packet.body() {
            self.say(at, roster)?;
        }
        let (kind, grant) = (kind_of(packet.body()), packet.body().grant());
        let sent = Sent {
            at,
            site,
            to: packet.to().word(),
            kind,
            grant,
            is_delivered: false,
        };
        keep(&mut self.packets, sent)
    }

    /// A roster is sent: whom it is the first one to show dead.
    fn say(&mut self, at: usize, roster: &Roster) -> Result<(), Lost> {
        let version = (roster.epoch.number(), roster.version.number());
        if version <= self.roster {
            return Ok(());
        }
        self.roster = version;
        for member in roster.members.as_slice() {
            let word = member.incarnation.word();
            if member.status == Status::Dead && self.deaths.iter().all(|death| death.word != word) {
                keep(&mut self.deaths, Death { at, word })?;
            }
        }
        Ok(())
    }

    /// The outcome is recorded, if it is so for the first time.
    fn commit(&mut self, at: usize, told: EventAnswer) {
        if let (EventAnswer::House(_, _, Some(outcome)), None) = (told, self.outcome) {
            self.outcome = Some((at, outcome));
        }
    }
}

/// The names of the threads of a world's program.
fn thread_names(alloc: Global, world: &World<'_>) -> Result<Vec<Vec<u8>>, Lost> {
    let mut names = Vec::new(alloc);
    for thread in world.job().checked().program().threads.as_slice() {
        match Vec::from_slice(alloc, thread.name.text.as_slice()) {
            Ok(name) => keep(&mut names, name)?,
            Err(_) => return Err(Lost),
        }
    }
    Ok(names)
}

/// The stroke of an event that carried out a frame of a lane, if it did.
fn turn_of(lane: &Lane, at: usize, place: &NodePlace, deed: &Deed) -> Option<Turn> {
    let (frame, is_of_whole) = match *deed {
        Deed::Exec(frame) => (frame, false),
        Deed::Whole(frame, _) => (frame, true),
        _ => return None,
    };
    Some(Turn {
        at,
        place: *place,
        track: lane.track_of(frame)?,
        is_of_whole,
    })
}

/// What happens, with the turns that it took where a task was evaluated whole, in the world after
/// it.
fn counted(site: &Site, deed: Deed, effect: Effect, world: &World<'_>) -> Deed {
    let (Site::At(place), Deed::Whole(frame, most), Effect::Done) = (site, deed, effect) else {
        return deed;
    };
    match world.node(*place) {
        Some(node) => Deed::Whole(frame, node.last_whole()),
        None => Deed::Whole(frame, most),
    }
}

/// The thread whose body an event ran, or whose task it evaluated whole, in the world after it.
fn body_run(site: &Site, deed: &Deed, effect: Effect, world: &World<'_>) -> Option<u8> {
    let Site::At(place) = site else {
        return None;
    };
    if !matches!(deed, Deed::Exec(_) | Deed::Whole(_, _)) || effect != Effect::Done {
        return None;
    }
    Some(world.node(*place)?.parts().last_turn().thread)
}
