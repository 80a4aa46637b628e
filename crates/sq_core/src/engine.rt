//! The engine of a network.

ghost use Rattle.std.specs.Prelude.{◌≡◌, ℕ, ◌<◌, ◌≤◌, List, Option, IfOk, IfErr, true, false, length, map};
ghost use Rattle.sq_words.specs.Lists.{contains_number};
ghost use Rattle.sq_oper.specs.declared.outs.Event.{Event};
ghost use Rattle.sq_outside.specs.Disks.{Pages};
ghost use Rattle.sq_model.specs.Shedding.{Replay};
ghost use Rattle.sq_pool.specs.Trust.{Tells, known};
ghost use Rattle.sq_queue.specs.Faces.{Together};
ghost use Rattle.sq_sched.specs.ReadyLists.{AreActors};

use crate::start::{network_engine, none_ahead, queued};
use sq_actor::Actor;
use sq_below::early_drop_is_sound;
use sq_flow::{Progress, RunErr, State};
use sq_net::Network;
use sq_oper::Event;
use sq_outside::{PageDisk, Steps};
use sq_plan::Capacities;
use sq_replay::Stream;
use sq_sched::{Pick, Ready};
use sq_value::Tuple;
use std::alloc::{AllocError, Global};
use std::sync::ledger::Ledger;

/// The engine of a network: the network, and its boxes, window drops and outputs at work. Actor 0 is the replay of the sources,
/// then come the boxes in file order, the drops by number, and then the outputs.
pub struct Engine {
    pub network: Network,
    pub engine: sq_flow::Engine<Actor>,
}

/// By hand, so that a proof above meets one call where an engine is let go, and not each thing in it.
impl Drop for Engine {
    fn drop(self) {
        let Engine {
            network: _network,
            engine: _engine,
        } = self;
    }
}

impl Engine {
    ghost use Rattle.sq_flow.specs.Engines.{AllDone};
    ghost use Rattle.sq_flow.specs.Stepping.{Remains, stage};
    ghost use Rattle.sq_flow.specs.Tails.{Tails, Whatever, with_tails};
    ghost use Rattle.sq_core.specs.Meanings.{actors};
    ghost use Rattle.sq_core.specs.Runs.{AreReplayParts, IsAllKnown, IsNewEngine, IsRun, IsRunOn, IsSoundEngine, IsState, NothingLeft, SaysWhetherEnded, ShownAll, ShownSoFar};
    ghost use Rattle.sq_core.specs.Runs.{fed_at, flow_of, has_failed, late_at_seat, ready_of};
    ghost use Rattle.sq_core.specs.Steps.{RunFails, RunsOn};

    /// An engine that has released nothing yet of what the sources recorded, one list for each source. `seed` is that of the
    /// draws; `frames` is how many frames the queues have.
    pub fn new(
        alloc: Global,
        network: Network,
        sources: Vec<Vec<Tuple>>,
        capacities: Capacities,
        seed: u64,
        frames: u32,
    ) -> Result<Engine, AllocError>
        requires { AreReplayParts network (map (λ v. v.items) sources.items) frames }
        ensures { IfOk result (IsNewEngine (record { network = network; sources = map (λ v. v.items) sources.items; entries = capacities; seed = seed }) frames) }
    {
        let streams = queued(alloc, sources)?;
        Engine::replaying(alloc, network, streams, capacities, seed, frames)
    }

    /// The same over streams, one for each source: a tuple is taken from its stream when it is released.
    pub fn replaying(
        alloc: Global,
        network: Network,
        sources: Vec<Stream>,
        capacities: Capacities,
        seed: u64,
        frames: u32,
    ) -> Result<Engine, AllocError>
        requires { AreReplayParts network (map (λ v. v.items) sources.items) frames }
        ensures { IfOk result (IsNewEngine (record { network = network; sources = map (λ v. v.items) sources.items; entries = capacities; seed = seed }) frames) }
    {
        let ahead = none_ahead(alloc, &sources)?;
        let engine = network_engine(alloc, &network, sources, ahead, &capacities, seed, frames)?;
        Ok(Engine { network, engine })
    }

    /// Up to `pick.train` atomic steps of a ready actor: it is fed the first item of its arcs, or releases the next tuple of the
    /// sources, or is finished. It stops where the actor is finished or isn't ready any more. What it shows goes behind `events`.
    ///
    /// Deterministic: whatever is picked, what was shown, and then what is pending, stays the same. After an `Err` the engine has
    /// failed; what it has shown is a beginning.
    pub fn step<D: PageDisk, L: Ledger>(
        &mut self,
        pick: Pick,
        disk: &mut D,
        events: &mut Vec<Event>,
        steps: &mut Steps<L>,
    ) -> Result<Progress, RunErr>
        requires sound { IsSoundEngine self.old }
        requires together { Together (flow_of self.old).queues (known (D.log disk.old)) }
        requires ready { contains_number (ready_of self.old) pick.actor ≡ true }
        requires some { 1 ≤ pick.train }
        ensures network { self.new.network ≡ self.old.network }
        ensures keeps { Remains (stage D.PageDisk (flow_of self.old) disk.old events.old.items steps.old)
            (stage D.PageDisk (flow_of self.new) disk.new events.new.items steps.new) }
        ensures ok { IfOk result (RunsOn pick (stage D.PageDisk (flow_of self.old) disk.old events.old.items steps.old)
            (stage D.PageDisk (flow_of self.new) disk.new events.new.items steps.new) self.old self.new) }
        ensures err { IfErr result (RunFails (stage D.PageDisk (flow_of self.old) disk.old events.old.items steps.old)
            (stage D.PageDisk (flow_of self.new) disk.new events.new.items steps.new) self.old self.new) }
    {
        match self.engine.step(pick, disk, events, steps) {
            Ok(progress) => Ok(progress),
            Err(e) => Err(e),
        }
    }

    /// Running as long as an actor is ready; else done where all actors are finished, and waiting where the replay must know more of
    /// a source; failed after an `Err` of a step.
    pub fn state(&self) -> State
        requires { has_failed self.now ≡ false → IsSoundEngine self.now }
        ensures { IsState self.now result }
    {
        self.engine.state()
    }

    /// Whether no step may follow, where all is known that comes: all actors are finished, or a step failed.
    pub fn ended(&self) -> bool
        requires sound { has_failed self.now ≡ false → IsSoundEngine self.now }
        requires known { IsAllKnown self.now }
        ensures { SaysWhetherEnded self.now result }
    {
        match self.state() {
            State::Running => false,
            State::Waiting => unreachable!(),
            State::Done => true,
            State::Failed => true,
        }
    }

    /// The ready actors, in the order in which they became so.
    pub fn ready(&self) -> &Ready
        ensures { result.now ≡ self.now.engine.ready }
    {
        self.engine.ready()
    }

    /// How many items wait for each actor; 0 for the replay.
    pub fn waits(&self) -> &Vec<u64>
        requires { IsSoundEngine self.now }
        ensures value { result.now ≡ self.now.engine.waits }
        ensures actors { AreActors (length result.now.items) (ready_of self.now) }
    {
        self.engine.waits()
    }

    /// How many tuples a box was fed.
    pub fn fed(&self, at: u32) -> u64
        requires sound { IsSoundEngine self.now }
        requires there { at < length self.now.network.boxes }
        ensures { result ≡ fed_at self.now at }
    {
        self.engine.fed(at)
    }

    /// How many of the tuples that a box was fed it has neither given nor holds, where it is a BSort; 0 for any other box.
    pub fn late(&self, at: u32) -> u64
        requires sound { IsSoundEngine self.now }
        requires there { at < length self.now.network.boxes }
        ensures { result ≡ late_at_seat self.now at }
    {
        self.engine.flow.seats[at as usize].op.late()
    }

    /// The network that the engine was made for.
    pub fn network(&self) -> &Network
        ensures { result.now ≡ self.now.network }
    {
        &self.network
    }

    /// At any time what was shown is a beginning of the answers, and no more was fed than they take.
    pub fn shown_so_far(&self)
        ensures run { (r : Replay) (pages : Option Pages) (history : List Event) (begun steps : ℕ) → Tells pages
            → IsRun r pages self.now history begun steps → ShownSoFar r history begun steps }
        ensures run_on { (r : Replay) (tails : Tails) (pages : Option Pages) (history : List Event) (begun steps : ℕ) → Tells pages
            → IsRunOn r tails pages self.now history begun steps → ShownSoFar r history begun steps }
    {
        let _engine = self;
    }

    /// Where all actors are finished all answers were shown, and each box was fed, at each port, the kept tuples of its arc.
    pub fn all_shown(&self)
        requires sound { IsSoundEngine self.now }
        requires done { AllDone (flow_of self.now) }
        ensures run { (r : Replay) (pages : Option Pages) (history : List Event) (begun steps : ℕ) → Tells pages
            → IsRun r pages self.now history begun steps → ShownAll r self.now history begun steps }
        ensures run_on { (r : Replay) (tails : Tails) (pages : Option Pages) (history : List Event) (begun steps : ℕ) → Tells pages
            → IsRunOn r tails pages self.now history begun steps → ShownAll r self.now history begun steps }
    {
        early_drop_is_sound();
        self.nothing_left();
    }

    /// Where all actors are finished nothing is pending, no line, decision, item or plan, whatever was shown before; and each operator was fed, and
    /// has lost, as many tuples as it will have been fed and have lost at the end.
    pub fn nothing_left(&self)
        requires sound { IsSoundEngine self.now }
        requires done { AllDone (flow_of self.now) }
        ensures known { NothingLeft (flow_of self.now) }
        ensures on { Whatever actors (flow_of self.now) (λ tails. NothingLeft (with_tails tails (flow_of self.now))) }
    {
        self.engine.nothing_left();
    }
}
