//! The run of operators, one atomic step at a time.

ghost use Rattle.std.specs.Prelude.{◌≡◌, ◌≢◌, ℕ, ◌^◌, ◌<◌, ◌∷◌, ◌||◌, true, false, None, [], OnOk, OnErr, IfOk, IfErr, IfSome, length, slice_get};
ghost use Rattle.sq_pool.specs.Trust.{known};
ghost use Rattle.sq_queue.specs.Faces.{face, size};
ghost use Rattle.sq_flow.specs.Sends.{KeepsItems, EndsOnly};
ghost use Rattle.sq_flow.specs.Flows.{tuples_to_come};
ghost use Rattle.sq_flow.specs.Sources.{IsNextSource, some_below, is_wanted};

use crate::errors::RunErr;
use crate::plans::{close_before, epoch_of};
use crate::queue_outlet::fault_of;
use crate::seats::{Seat, feed_into, finish_into};
use crate::sending::send_one;
use crate::taking::{count_item, take_item};
use crate::wires::Wires;
use sq_heads::Next;
use sq_item::{Body, Item, Sign};
use sq_oper::{Event, Operator};
use sq_outside::{PageDisk, Steps};
use sq_plan::Planner;
use sq_queue::{ArcQueues, Queues};
use sq_replay::Stream;
use sq_road::Levels;
use sq_value::{Tuple, Value};
use std::alloc::AllocError;
use std::sync::ledger::Ledger;

/// Operators joined by queues, and a replay of what is known of each source and still to be released. The levels of the closed epochs are known;
/// of the epoch that is open, the last before `levels.closed`, it is counted how many tuples each source released.
pub struct Flow<O> {
    pub wires: Wires,
    pub seats: Vec<Seat<O>>,
    pub over: bool,
    pub queues: Queues,
    pub sources: Vec<Stream>,
    /// From which tick on more may come of each source behind what is known of it; none where no more comes.
    pub ahead: Vec<Option<u64>>,
    pub clock: u64,
    pub planner: Planner,
    pub levels: Levels,
    pub counts: Vec<u64>,
    pub taken: u64,
}

/// By hand, so that a proof above meets one call where a flow is let go, and not each thing in it.
impl<O: Drop> Drop for Flow<O> {
    fn drop(self) {
        let Flow {
            wires: _wires,
            seats: _seats,
            over: _over,
            queues: _queues,
            sources: _sources,
            ahead: _ahead,
            clock: _clock,
            planner: _planner,
            levels: _levels,
            counts: _counts,
            taken: _taken,
        } = self;
    }
}

/// What an atomic step did.
#[derive(Clone, Copy, PartialEq, Eq, Drop)]
pub enum Did {
    Waits,
    Fed,
    Finished,
}

/// What one look at the sources tells.
#[derive(Drop)]
pub(crate) struct Look {
    /// The source that releases next: that of the least time, and of these the first; none where nothing is known.
    pub next: Option<u32>,
    /// Of some source nothing is known, and more may come.
    pub wanted: bool,
}

/// Looks at the sources, and from which tick on more may come of each.
pub(crate) fn look_at_sources(sources: &Vec<Stream>, ahead: &Vec<Option<u64>>) -> Look
    requires few { length sources.now.items < 2 ^ 32 }
    requires told { length ahead.now.items ≡ length sources.now.items }
    ensures none { result.next ≡ None → (source : ℕ) → tuples_to_come (slice_get sources.now.items source) ≡ [] }
    ensures some { IfSome result.next (λ source. IsNextSource sources.now.items source) }
    ensures wanted { result.wanted ≡ some_below (is_wanted sources.now.items ahead.now.items) (length sources.now.items) }
{
    let mut next = None;
    let mut least = 0;
    let mut wanted = false;
    for source in 0..sources.len() {
        match sources[source].time() {
            Some(time) => {
                if next.is_none() || time < least {
                    next = Some(source as u32);
                    least = time;
                }
            }
            None => {
                wanted = wanted || ahead[source].is_some();
            }
        }
    }
    Look { next, wanted }
}

/// Takes the first tuple of a source that has one left. The values of the one behind it may lie in a vector that has none.
fn first_of(stream: &mut Stream, values: Vec<Value>) -> Result<Tuple, AllocError>
    requires some { 0 < length stream.old.items }
    requires empty { values.items ≡ [] }
    ensures ok { IfOk result (λ tuple. stream.old.items ≡ tuple ∷ stream.new.items) }
    ensures err { OnErr result (stream.new ≡ stream.old) }
{
    match stream.take_into(values)? {
        Some(tuple) => Ok(tuple),
        None => unreachable!(),
    }
}

/// An arc ends if this is so.
fn end_if(queues: &mut Queues, arc: u32, ends: bool)
    requires { arc < size queues.old }
    ensures keeps { KeepsItems queues.old queues.new }
    ensures ended { (face queues.new arc).ended ≡ ((face queues.old arc).ended || ends) }
    ensures none { ends ≡ false → face queues.new arc ≡ face queues.old arc }
    ensures others { (other : ℕ) → other ≢ arc → face queues.new other ≡ face queues.old other }
{
    if ends {
        queues.end(arc);
    }
}

/// All arcs that come from the actor at a seat end.
fn end_arcs(wires: &Wires, queues: &mut Queues, seat: u32)
    requires lanes { size queues.old ≡ length wires.now.arcs.items }
    requires few { length wires.now.arcs.items < 2 ^ 32 }
    ensures { EndsOnly wires.now seat queues.old queues.new }
{
    for arc in 0..wires.arcs.len() as u32 {
        end_if(queues, arc, wires.arc(arc).from == seat);
    }
}

impl<O: Operator + Drop> Flow<O> {
    ghost use Rattle.sq_flow.specs.Flows.{IsFlow, more_from, to_release};
    ghost use Rattle.sq_flow.specs.Sources.{is_clear};
    ghost use Rattle.sq_flow.specs.Stepping.{MayStep, HasNext, HasFeed, stage, StepWhole, StepErr, StepsAlone};

    /// Feeds an operator the first item of an arc.
    #[inline(always)]
    pub(crate) fn feed_step<D: PageDisk, L: Ledger>(
        &mut self,
        disk: &mut D,
        seat: u32,
        port: u32,
        arc: u32,
        events: &mut Vec<Event>,
        steps: &mut Steps<L>,
        failed: &mut Option<RunErr>,
    ) -> Result<(), RunErr>
        requires may { MayStep O.Operator self.old (known (D.log disk.old)) failed.old }
        requires feeds { HasFeed self.old seat port arc }
        ensures ok { OnOk result (StepWhole O.Operator seat Did.Fed (stage D.PageDisk self.old disk.old events.old.items steps.old)
            (stage D.PageDisk self.new disk.new events.new.items steps.new) failed.new) }
        ensures err { IfErr result (StepErr O.Operator (stage D.PageDisk self.old disk.old events.old.items steps.old)
            (stage D.PageDisk self.new disk.new events.new.items steps.new)) }
    {
        let at = self.wires.arc(arc);
        let place = self.seats[seat as usize].tally.place;
        let clock = self.clock;
        let item = match take_item(&mut self.queues, disk, at, arc, port, place, clock) {
            Ok(item) => item,
            Err(e) => return Err(e),
        };
        self.taken = match count_item(self.taken, &item) {
            Ok(taken) => taken,
            Err(e) => return Err(e),
        };
        feed_into(
            &mut self.seats[seat as usize],
            &self.levels,
            port,
            item,
            &self.wires,
            &mut self.queues,
            disk,
            seat,
            events,
            steps,
            failed,
        )?;
        Ok(())
    }

    /// Finishes an operator whose arcs have ended.
    pub(crate) fn finish_step<D: PageDisk>(
        &mut self,
        disk: &mut D,
        seat: u32,
        events: &mut Vec<Event>,
        failed: &mut Option<RunErr>,
    ) -> Result<(), RunErr>
        requires may { MayStep O.Operator self.old (known (D.log disk.old)) failed.old }
        requires ended { HasNext self.old seat Next.Ended }
        ensures ok { OnOk result ((n : ℕ) → StepWhole O.Operator seat Did.Finished (stage D.PageDisk self.old disk.old events.old.items n)
            (stage D.PageDisk self.new disk.new events.new.items n) failed.new) }
        ensures err { IfErr result (λ e. (n : ℕ) → StepErr O.Operator (stage D.PageDisk self.old disk.old events.old.items n)
            (stage D.PageDisk self.new disk.new events.new.items n) e) }
    {
        finish_into(
            &mut self.seats[seat as usize],
            &self.wires,
            &mut self.queues,
            disk,
            seat,
            events,
            failed,
        )?;
        end_arcs(&self.wires, &mut self.queues, seat);
        Ok(())
    }

    /// Releases the next tuple of a source, the one of the least time, before which none may still come. Where it is of a later epoch those before it are closed.
    pub(crate) fn release_step<D: PageDisk>(
        &mut self,
        disk: &mut D,
        source: u32,
        events: &mut Vec<Event>,
        failed: &mut Option<RunErr>,
    ) -> Result<(), RunErr>
        requires may { MayStep O.Operator self.old (known (D.log disk.old)) failed.old }
        requires next { IsNextSource self.old.sources.items source }
        requires clear { is_clear self.old.sources.items self.old.ahead.items ≡ true }
        ensures ok { OnOk result ((n : ℕ) → StepWhole O.Operator (length self.old.seats.items) Did.Fed (stage D.PageDisk self.old disk.old events.old.items n)
            (stage D.PageDisk self.new disk.new events.new.items n) failed.new) }
        ensures err { IfErr result (λ e. (n : ℕ) → StepErr O.Operator (stage D.PageDisk self.old disk.old events.old.items n)
            (stage D.PageDisk self.new disk.new events.new.items n) e) }
    {
        let values = self.queues.spares.reuse(*events.allocator());
        let tuple = first_of(&mut self.sources[source as usize], values)?;
        self.clock = tuple.time;
        let next = epoch_of(tuple.time, self.levels.epoch(), self.levels.closed());
        close_before(
            &mut self.planner,
            &mut self.levels,
            &mut self.counts,
            next,
            events,
        )?;
        self.counts[source as usize] += 1;
        let item = Item {
            time: tuple.time,
            mark: Sign::none(),
            body: Body::some(tuple.fields),
        };
        let replay = self.wires.replay;
        match send_one(
            &self.wires,
            &mut self.queues,
            disk,
            replay,
            source,
            item,
            failed,
        ) {
            Ok(()) => Ok(()),
            Err(e) => Err(fault_of(failed.take(), e)),
        }
    }

    /// Ends the replay.
    pub(crate) fn end_step(&mut self)
        requires flow { IsFlow O.Operator self.old }
        requires none { (source : ℕ) → to_release self.old source ≡ [] }
        requires closed { (source : ℕ) → more_from (slice_get self.old.ahead.items source) ≡ None }
        requires running { self.old.over ≡ false }
        ensures { StepsAlone O.Operator (length self.old.seats.items) Did.Finished self.old self.new }
    {
        let replay = self.wires.replay;
        self.over = true;
        end_arcs(&self.wires, &mut self.queues, replay);
    }
}
