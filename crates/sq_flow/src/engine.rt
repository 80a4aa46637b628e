//! The engine: a flow with its ready list.

ghost use Rattle.std.specs.Prelude.{◌≡◌, ◌+◌, ◌≤◌, ◌<◌, true, false, [], ◌∷◌, OnErr, IfOk, IfErr, IfSome, length, slice_get};
ghost use Rattle.sq_pool.specs.Trust.{known};
ghost use Rattle.sq_queue.specs.Faces.{Together};
ghost use Rattle.std.specs.List.{range_with_len};
ghost use Rattle.sq_words.specs.Lists.{contains_number};
ghost use Rattle.sq_flow.specs.Engines.{seat_number};

use crate::clearing::first_held;
use crate::errors::RunErr;
use crate::flow::Flow;
use crate::seats::Seat;
use crate::steps::Progress;
use crate::wires::Wires;
use sq_oper::{Event, Operator};
use sq_outside::{PageDisk, Steps};
use sq_plan::Planner;
use sq_replay::Stream;
use sq_road::Levels;
use sq_sched::{Pick, Ready};
use std::alloc::{AllocError, Global};
use std::sync::ledger::Ledger;

/// A flow, which actors are ready, and how many items wait for each. Actor 0 is the replay; the operator at seat k is actor k + 1.
pub struct Engine<O> {
    pub flow: Flow<O>,
    pub ready: Ready,
    /// Of each actor how many items wait for it; 0 for the replay.
    pub waits: Vec<u64>,
    pub failed: bool,
}

/// By hand, so that a proof above meets one call where an engine is let go, and not each thing in it.
impl<O: Drop> Drop for Engine<O> {
    fn drop(self) {
        let Engine {
            flow: _flow,
            ready: _ready,
            waits: _waits,
            failed: _failed,
        } = self;
    }
}

/// What an engine may still do.
#[derive(Clone, Copy, PartialEq, Eq, Drop)]
pub enum State {
    Running,
    /// No actor is ready until more of a source is known.
    Waiting,
    Done,
    Failed,
}

/// The seat of an actor: actor 0 is the replay, which sits behind so many operators.
fn seat_number(ops: u32, actor: u32) -> u32
    requires { actor ≤ ops }
    ensures seat { result ≡ seat_number ops actor }
    ensures within { result ≤ ops }
{
    if actor == 0 { ops } else { actor - 1 }
}

impl<O: Operator + Drop> Engine<O> {
    ghost use Rattle.sq_flow.specs.Flows.{IsFlow};
    ghost use Rattle.sq_flow.specs.Sources.{is_clear, IsWanted};
    ghost use Rattle.sq_flow.specs.Tails.{Whatever, with_tails};
    ghost use Rattle.sq_flow.specs.Stepping.{stage, StepErr};
    ghost use Rattle.sq_flow.specs.EngineSteps.{EngineOk};
    ghost use Rattle.sq_flow.specs.Engines.{IsEngine, MayLook, Looked, AllDone, readers_of};
    ghost use Rattle.sq_flow.specs.Knowing.{IsHeldUp, MayKnow, Knows};
    ghost use Rattle.sq_flow.specs.Endings.{NothingComes};
    ghost use Rattle.sq_flow.specs.Seats.{taken_at};
    ghost use Rattle.sq_flow.specs.Starts.{AreNewParts};
    ghost use Rattle.sq_flow.specs.EngineStarts.{BeginsEngine};

    /// An engine over operators that nothing was fed to, with what is known of each source, in the order of times, and from which tick
    /// on more may come of it. It has released nothing yet; the ready actors are listed in ascending number. An error says that memory
    /// ran out.
    pub fn new(
        alloc: Global,
        wires: Wires,
        seats: Vec<Seat<O>>,
        sources: Vec<Stream>,
        ahead: Vec<Option<u64>>,
        planner: Planner,
        levels: Levels,
        frames: u32,
    ) -> Result<Engine<O>, AllocError>
        requires { AreNewParts O.Operator wires seats.items sources.items ahead.items levels frames }
        ensures { IfOk result (BeginsEngine O.Operator wires seats sources ahead.items planner levels frames) }
    {
        let flow = Flow::new(alloc, wires, seats, sources, ahead, planner, levels, frames)?;
        let ready = Ready::new(alloc, flow.wires.replay + 1)?;
        let waits = vec![in alloc; 0; flow.wires.replay as usize + 1]?;
        let mut engine = Engine {
            flow,
            ready,
            waits,
            failed: false,
        };
        engine.look_at_all();
        Ok(engine)
    }

    /// The first source that holds back another: more of it must be known before the replay goes on.
    pub fn wanted(&self) -> Option<u32>
        requires { IsFlow O.Operator self.now.flow }
        ensures none { result ≡ None → is_clear self.now.flow.sources.items self.now.flow.ahead.items ≡ true }
        ensures some { IfSome result (IsWanted self.now.flow.sources.items self.now.flow.ahead.items) }
    {
        first_held(&self.flow.sources, &self.flow.ahead)
    }

    /// More is known of a source of which nothing was: these tuples, behind which others may come from a tick on, or none. It is told
    /// where no actor is ready; then the replay may be.
    pub fn feed(&mut self, source: u32, stream: Stream, ahead: Option<u64>)
        requires { MayKnow O.Operator self.old source stream.items }
        ensures { Knows O.Operator source stream.items ahead self.old self.new }
    {
        self.flow.sources[source as usize] = stream;
        self.flow.ahead[source as usize] = ahead;
        self.look_at(0);
    }

    /// Looks at an actor: counts what waits for it, and lists it last where it is ready and isn't listed.
    #[inline(always)]
    fn look_at(&mut self, actor: u32)
        requires looks { MayLook O.Operator self.old }
        requires there { actor ≤ length self.old.flow.seats.items }
        ensures { Looked (actor ∷ []) self.old self.new }
    {
        let seat = seat_number(self.flow.wires.replay, actor);
        self.waits[actor as usize] = self.flow.waiting(seat);
        if !self.ready.has(actor) && self.flow.is_ready(seat) {
            self.ready.push(actor);
        }
    }

    /// Looks at each actor, in ascending number.
    fn look_at_all(&mut self)
        requires looks { MayLook O.Operator self.old }
        ensures { Looked (range_with_len 0 (length self.old.flow.seats.items + 1)) self.old self.new }
    {
        for actor in 0..self.flow.wires.replay + 1 {
            self.look_at(actor);
        }
    }

    /// Looks at the operators that read from the actor at a seat, in ascending number.
    fn look_at_readers(&mut self, seat: u32)
        requires looks { MayLook O.Operator self.old }
        requires there { seat ≤ length self.old.flow.seats.items }
        ensures { Looked (readers_of self.old.flow seat) self.old self.new }
    {
        for index in 0..self.flow.count_readers(seat) {
            let reader = self.flow.reader(seat, index);
            self.look_at(reader);
        }
    }

    /// Up to `train` steps of a ready actor. If it is still ready it goes to the end of the ready list; then those follow that
    /// became ready, in ascending number. Only the actor and the operators that read from it are looked at. After an error the
    /// engine has failed.
    pub fn step<D: PageDisk, L: Ledger>(
        &mut self,
        pick: Pick,
        disk: &mut D,
        events: &mut Vec<Event>,
        steps: &mut Steps<L>,
    ) -> Result<Progress, RunErr>
        requires engine { IsEngine O.Operator self.old }
        requires together { Together self.old.flow.queues (known (D.log disk.old)) }
        requires ready { contains_number self.old.ready.list pick.actor ≡ true }
        requires some { 1 ≤ pick.train }
        ensures ok { IfOk result (EngineOk O.Operator pick (stage D.PageDisk self.old.flow disk.old events.old.items steps.old)
            (stage D.PageDisk self.new.flow disk.new events.new.items steps.new) self.old self.new) }
        ensures err { IfErr result (StepErr O.Operator (stage D.PageDisk self.old.flow disk.old events.old.items steps.old)
            (stage D.PageDisk self.new.flow disk.new events.new.items steps.new)) }
        ensures failed { OnErr result (self.new.failed ≡ true) }
    {
        let seat = seat_number(self.flow.wires.replay, pick.actor);
        self.ready.remove(pick.actor);
        match self.flow.train(disk, seat, pick.train, events, steps) {
            Err(e) => {
                self.failed = true;
                Err(e)
            }
            Ok(progress) => {
                self.look_at(pick.actor);
                self.look_at_readers(seat);
                Ok(progress)
            }
        }
    }

    /// The ready list: each actor that is ready, once, in order.
    pub fn ready(&self) -> &Ready
        ensures { result.now ≡ self.now.ready }
    {
        &self.ready
    }

    /// How many items wait for each actor; 0 for the replay.
    pub fn waits(&self) -> &Vec<u64>
        ensures { result.now ≡ self.now.waits }
    {
        &self.waits
    }

    /// How many tuples the operator at a seat was fed.
    pub fn fed(&self, seat: u32) -> u64
        requires engine { IsEngine O.Operator self.now }
        requires there { seat < length self.now.flow.seats.items }
        ensures { result ≡ taken_at O.Operator (slice_get self.now.flow.seats.items seat) }
    {
        self.flow.seats[seat as usize].tally.taken
    }

    /// The engine runs as long as the ready list isn't empty. Else it is done where all actors are finished, and where one isn't the
    /// replay waits for a source. It has failed where a step failed.
    pub fn state(&self) -> State
        requires engine { self.now.failed ≡ false → IsEngine O.Operator self.now }
        ensures done { result ≡ State.Done → AllDone self.now.flow × (self.now.failed ≡ false) }
        ensures when_done { self.now.failed ≡ false → AllDone self.now.flow → result ≡ State.Done }
        ensures runs { result ≡ State.Running → (0 < length self.now.ready.list) × (self.now.failed ≡ false) }
        ensures waits { result ≡ State.Waiting → IsHeldUp self.now }
        ensures failed { result ≡ State.Failed → self.now.failed ≡ true }
        ensures when_failed { self.now.failed ≡ true → result ≡ State.Failed }
    {
        if self.failed {
            State::Failed
        } else if !self.ready.is_empty() {
            State::Running
        } else if self.flow.over {
            State::Done
        } else {
            State::Waiting
        }
    }

    /// Where all actors are finished nothing is pending of any output, drop or arc, and each operator was fed all that it is fed in all.
    pub fn nothing_left(&self)
        requires engine { IsFlow O.Operator self.now.flow }
        requires done { AllDone self.now.flow }
        ensures known { NothingComes O.Operator self.now.flow }
        ensures on { Whatever O.Operator self.now.flow (λ tails. NothingComes O.Operator (with_tails tails self.now.flow)) }
    {
        let _engine = self;
    }
}
