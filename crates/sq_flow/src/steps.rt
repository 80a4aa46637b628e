//! Steps of any actor, and trains of them.

ghost use Rattle.std.specs.Prelude.{◌≡◌, ℕ, ◌≤◌, ◌<◌, false, IfOk, IfErr, length, slice_get};
ghost use Rattle.sq_pool.specs.Trust.{known};

use crate::clearing::is_clear;
use crate::errors::RunErr;
use crate::flow::{Did, Flow, look_at_sources};
use sq_heads::{Next, next_of};
use sq_oper::{Event, Operator};
use sq_outside::{PageDisk, Steps};
use std::sync::ledger::Ledger;

/// How many items an actor was fed, or the replay released, and whether it is finished.
#[derive(Clone, Copy, PartialEq, Eq, Drop)]
pub struct Progress {
    pub fed: u32,
    pub finished: bool,
}

impl<O: Operator + Drop> Flow<O> {
    ghost use Rattle.sq_flow.specs.Readiness.{HasActor};
    ghost use Rattle.sq_flow.specs.Seats.{done_at};
    ghost use Rattle.sq_flow.specs.Stepping.{Holds, MayStep, stage, StepWhole, StepErr, TrainOk};

    /// The actor at a seat is finished.
    pub(crate) fn is_done(&self, seat: u32) -> bool
        requires actor { HasActor O.Operator self.now seat }
        ensures { result ≡ done_at self.now.over (slice_get self.now.seats.items seat) }
    {
        match self.seats.get(seat as usize) {
            Some(found) => !found.tally.running,
            None => self.over,
        }
    }

    /// One step of the replay; none where a tuple that isn't known yet may precede those that are.
    fn replay_step<D: PageDisk>(
        &mut self,
        disk: &mut D,
        events: &mut Vec<Event>,
        failed: &mut Option<RunErr>,
    ) -> Result<Did, RunErr>
        requires may { MayStep O.Operator self.old (known (D.log disk.old)) failed.old }
        requires running { self.old.over ≡ false }
        ensures ok { IfOk result (λ did. (n : ℕ) → StepWhole O.Operator (length self.old.seats.items) did
            (stage D.PageDisk self.old disk.old events.old.items n) (stage D.PageDisk self.new disk.new events.new.items n) failed.new) }
        ensures err { IfErr result (λ e. (n : ℕ) → StepErr O.Operator (stage D.PageDisk self.old disk.old events.old.items n)
            (stage D.PageDisk self.new disk.new events.new.items n) e) }
    {
        let look = look_at_sources(&self.sources, &self.ahead);
        // As long as no source is wanted, none holds back another.
        if look.wanted && !is_clear(&self.sources, &self.ahead) {
            return Ok(Did::Waits);
        }
        match look.next {
            None => {
                self.end_step();
                Ok(Did::Finished)
            }
            Some(source) => {
                self.release_step(disk, source, events, failed)?;
                Ok(Did::Fed)
            }
        }
    }

    /// One step of the operator at a seat.
    #[inline(always)]
    fn operator_step<D: PageDisk, L: Ledger>(
        &mut self,
        disk: &mut D,
        seat: u32,
        events: &mut Vec<Event>,
        steps: &mut Steps<L>,
        failed: &mut Option<RunErr>,
    ) -> Result<Did, RunErr>
        requires may { MayStep O.Operator self.old (known (D.log disk.old)) failed.old }
        requires actor_in { seat < length self.old.seats.items }
        requires running { done_at self.old.over (slice_get self.old.seats.items seat) ≡ false }
        ensures ok { IfOk result (λ did. StepWhole O.Operator seat did (stage D.PageDisk self.old disk.old events.old.items steps.old)
            (stage D.PageDisk self.new disk.new events.new.items steps.new) failed.new) }
        ensures err { IfErr result (StepErr O.Operator (stage D.PageDisk self.old disk.old events.old.items steps.old)
            (stage D.PageDisk self.new disk.new events.new.items steps.new)) }
    {
        match next_of(self.wires.arcs_of(seat), &self.queues) {
            Next::Waits => Ok(Did::Waits),
            Next::Ended => {
                self.finish_step(disk, seat, events, failed)?;
                Ok(Did::Finished)
            }
            Next::Feed { time: _, port, arc } => {
                self.feed_step(disk, seat, port, arc, events, steps, failed)?;
                Ok(Did::Fed)
            }
        }
    }

    /// One step of the actor at a seat; none where it isn't ready.
    #[inline(always)]
    fn one_step<D: PageDisk, L: Ledger>(
        &mut self,
        disk: &mut D,
        seat: u32,
        events: &mut Vec<Event>,
        steps: &mut Steps<L>,
        failed: &mut Option<RunErr>,
    ) -> Result<Did, RunErr>
        requires may { MayStep O.Operator self.old (known (D.log disk.old)) failed.old }
        requires actor_in { seat ≤ length self.old.seats.items }
        ensures ok { IfOk result (λ did. StepWhole O.Operator seat did (stage D.PageDisk self.old disk.old events.old.items steps.old)
            (stage D.PageDisk self.new disk.new events.new.items steps.new) failed.new) }
        ensures err { IfErr result (StepErr O.Operator (stage D.PageDisk self.old disk.old events.old.items steps.old)
            (stage D.PageDisk self.new disk.new events.new.items steps.new)) }
    {
        if self.is_done(seat) {
            return Ok(Did::Waits);
        }
        if seat == self.wires.replay {
            self.replay_step(disk, events, failed)
        } else {
            self.operator_step(disk, seat, events, steps, failed)
        }
    }

    /// Up to `train` steps of the actor at a seat, as long as it is ready.
    pub fn train<D: PageDisk, L: Ledger>(
        &mut self,
        disk: &mut D,
        seat: u32,
        train: u32,
        events: &mut Vec<Event>,
        steps: &mut Steps<L>,
    ) -> Result<Progress, RunErr>
        requires holds { Holds O.Operator self.old (known (D.log disk.old)) }
        requires actor_in { seat ≤ length self.old.seats.items }
        requires some { 1 ≤ train }
        ensures ok { IfOk result (TrainOk O.Operator seat train (stage D.PageDisk self.old disk.old events.old.items steps.old)
            (stage D.PageDisk self.new disk.new events.new.items steps.new)) }
        ensures err { IfErr result (StepErr O.Operator (stage D.PageDisk self.old disk.old events.old.items steps.old)
            (stage D.PageDisk self.new disk.new events.new.items steps.new)) }
    {
        // One room for a fault serves the whole train.
        let mut failed = None;
        let mut fed = 0;
        'steps: while fed < train {
            let did = match self.one_step(disk, seat, events, steps, &mut failed) {
                Ok(did) => did,
                Err(e) => return Err(e),
            };
            match did {
                Did::Waits => {
                    return Ok(Progress {
                        fed,
                        finished: false,
                    });
                }
                Did::Finished => {
                    return Ok(Progress {
                        fed,
                        finished: true,
                    });
                }
                Did::Fed => {
                    fed += 1;
                }
            }
        }
        Ok(Progress {
            fed,
            finished: false,
        })
    }
}
