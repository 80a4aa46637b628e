//! Aggregate.

ghost use Rattle.std.specs.Prelude.{◌≡◌, ℕ, ◌+◌, ◌-◌, ◌^◌, ◌<◌, ◌≤◌, ◌==◌, ◌&&◌, true, false, List, [], length, if◌then◌else◌, IsTrue};
ghost use Rattle.sq_value.specs.declared.Value.{Value};
ghost use Rattle.std.specs.Int.{IsGcd};
ghost use Rattle.sq_item.specs.Things.{Thing};
ghost use Rattle.sq_aggfn.specs.Windows.{IsWindow};
ghost use Rattle.sq_lists.specs.Windows.{aggregate_of};
ghost use Rattle.sq_oper.specs.declared.tally.Position.{Position};
ghost use Rattle.sq_oper.specs.Entries.{Entry};
ghost use Rattle.sq_oper.specs.Order.{IsFuture, time_of};
ghost use Rattle.sq_oper.specs.Streams.{things, tuples_of, at_zero};
ghost use Rattle.sq_tagged.specs.TaggedStreams.{spread_of, tagged_of};
ghost use Rattle.sq_tagged.specs.Boxes.{aggregate_tagged};
ghost use Rattle.sq_pane.specs.Blocks.{IsJoin};
ghost use Rattle.sq_pane.specs.States.{states_of, HaveBlocks};
ghost use Rattle.sq_agg.specs.Positions.{open_at};
ghost use Rattle.sq_agg.specs.Holdings.{IsFirstEnd, KeepsNear, HoldsPanes, MarksWait, OnlyOpen, aggregate_rest, bounds_of, folding_of, makes_result, takes_marks_at};

use crate::ending::{give_ended, give_open};
use crate::grow::add_body;
use crate::waiting::Waiting;
use crate::windows::{forget_ended, next_end};
use sq_aggfn::{Fold, WindowSpec};
use sq_item::Item;
use sq_oper::{Decision, Operator, Outlet, Position, Tally, tick_if};
use sq_outside::Steps;
use sq_pane::Panes;
use sq_road::Levels;
use std::alloc::{AllocError, Global};
use std::sync::ledger::Ledger;

/// Gives for each window, in the order of starts, and for each group with a tuple in it, in the order of values, the
/// group's values and then the fold's answers, at the window's start (after SQuAl's Aggregate: Abadi and others, "Aurora",
/// VLDB Journal 2003; that windows begin at the phase and an advance apart is this project's own).
///
/// It keeps one state for each pane and group, and joins a window that ends from its panes. Each time a window ends, the
/// panes before the first tick whose window may still grow go, so none is held that ended an advance or more before the
/// window begins that ends next. Below a window drop it gives a window only where the marks allow it, and hands each
/// mark on before the results of its time and behind all earlier ones.
#[derive(Drop)]
pub struct AggregateBox<F: Fold + Drop> {
    panes: Panes<F>,
    group: Vec<u32>,
    time: u64,
    ends: u64,
    waiting: Waiting,
    tally: Tally,
}

impl<F: Fold + Drop> AggregateBox<F> {
    /// An Aggregate by the fields at the places of `group` that nothing was fed to. It takes every tuple at port 0, if
    /// its results have 1 to 16 values. `marked` says that it lies below a window drop: then it takes marks at port 0.
    pub fn new(
        alloc: Global,
        fold: F,
        group: Vec<u32>,
        window: WindowSpec,
        marked: bool,
    ) -> AggregateBox<F>
        requires { IsWindow window }
        ensures list { (table : ℕ → ℕ → ℕ) (future : List Entry) (q : ℕ) → marked ≡ false
            → IsFuture (⟦<AggregateBox<F> as Operator>⟧.takes_marks result) (⟦<AggregateBox<F> as Operator>⟧.fits result) Position.Start future
            → ⟦<AggregateBox<F> as Operator>⟧.rest result table future q ≡ at_zero q (things (aggregate_of (F.table fold) group.items window (tuples_of future))) }
        ensures marked { (table : ℕ → ℕ → ℕ) (future : List Entry) (q : ℕ) → marked ≡ true
            → IsFuture (⟦<AggregateBox<F> as Operator>⟧.takes_marks result) (⟦<AggregateBox<F> as Operator>⟧.fits result) Position.Start future
            → ⟦<AggregateBox<F> as Operator>⟧.rest result table future q ≡ at_zero q (spread_of (aggregate_tagged (F.table fold) group.items window (tagged_of future))) }
        ensures none_lost { (future : List Entry) → ⟦<AggregateBox<F> as Operator>⟧.lost result future ≡ 0 }
        ensures fits { (port : ℕ) (fields : List Value) → ⟦<AggregateBox<F> as Operator>⟧.fits result port fields ≡ ((port == 0) && makes_result (length group.items) (F.width fold)) }
        ensures reads { (epoch : ℕ) → ⟦<AggregateBox<F> as Operator>⟧.reads result epoch ≡ true }
        ensures holds { (time : ℕ) (things : List Thing) → ⟦<AggregateBox<F> as Operator>⟧.may_hold result time things → OnlyOpen window.size time things }
        ensures decides { (table : ℕ → ℕ → ℕ) (future : List Entry) → ⟦<AggregateBox<F> as Operator>⟧.decides result table future ≡ [] }
        ensures takes_marks { (port : ℕ) → ⟦<AggregateBox<F> as Operator>⟧.takes_marks result port ≡ takes_marks_at marked port }
        ensures start { (⟦<AggregateBox<F> as Operator>⟧.place result ≡ Position.Start) × (⟦<AggregateBox<F> as Operator>⟧.taken result ≡ 0) }
        ensures valid { ⟦<AggregateBox<F> as Operator>⟧.valid result × IsTrue (⟦<AggregateBox<F> as Operator>⟧.running result) }
    {
        AggregateBox {
            panes: Panes::new(alloc, fold, window),
            group,
            time: 0,
            ends: window.phase + window.size,
            waiting: Waiting::new(alloc, marked),
            tally: Tally::new(),
        }
    }
}

/// The first tick whose window may still grow after a time.
fn first_open(size: u64, time: u64) -> u64
    requires { time < 2 ^ 40 }
    ensures { result ≡ open_at size time }
{
    (time + 1).saturating_sub(size)
}

impl<F: Fold + Drop> Operator for AggregateBox<F> {
    ghost valid = { λ s. IsWindow s.panes.window × (time_of s.tally.place < 2 ^ 40) × (IsGcd s.panes.window.size s.panes.window.advance s.panes.width × (1 ≤ s.panes.width))
        × HoldsPanes (F.made s.panes.fold) (F.number s.panes.fold) s.panes.window s.panes.width (F.width s.panes.fold) s.tally.taken s.tally.place (states_of s.panes.held)
        × (s.tally.taken < 2 ^ 62) × (s.tally.running ≡ false → (states_of s.panes.held) ≡ []) × MarksWait s.panes.window.size (time_of s.tally.place) (bounds_of s.waiting).waiting
        × (s.time ≡ time_of s.tally.place) × IsFirstEnd s.panes.window s.time s.ends × KeepsNear s.panes.window s.panes.width s.ends (states_of s.panes.held)
        × HaveBlocks (IsJoin (F.none s.panes.fold) (F.joined s.panes.fold) (F.made s.panes.fold) (F.number s.panes.fold)) s.panes.held };

    ghost running = { λ s. s.tally.running };

    ghost taken = { λ s. s.tally.taken };

    ghost place = { λ s. s.tally.place };

    ghost takes_marks = { λ s. takes_marks_at s.waiting.marked };

    ghost fits = { λ s port fields. (port == 0) && makes_result (length s.group.items) (F.width s.panes.fold) };

    ghost reads = { λ s epoch. true };

    ghost rest = { λ s table future q. aggregate_rest (folding_of s.group.items (F.none s.panes.fold) (F.joined s.panes.fold) (F.unit s.panes.fold) (F.told s.panes.fold)) s.panes.window s.panes.width (time_of s.tally.place) (bounds_of s.waiting) (states_of s.panes.held) future q };

    ghost decides = { λ s table future. [] };

    ghost may_hold = { λ s time things. OnlyOpen s.panes.window.size time things };

    ghost lost = { λ s future. 0 };

    fn feed<L: Ledger, T: Outlet>(
        &mut self,
        _levels: &Levels,
        port: u32,
        item: Item,
        out: &mut T,
        steps: &mut Steps<L>,
    ) -> Result<(), AllocError> {
        self.tally.note(port, &item);
        let _count = self.panes.held.len();
        let time = item.time;
        let fed = item.body.is_some();
        let open = first_open(self.panes.window.size, time);
        give_ended(
            &mut self.panes,
            &mut self.waiting,
            self.time,
            self.ends,
            time,
            open,
            out,
        )?;
        forget_ended(&mut self.panes, self.ends <= time, open);
        self.ends = next_end(self.panes.window, self.ends, time);
        self.time = time;
        self.waiting
            .push(self.panes.window.size - 1, time, &item.mark)?;
        add_body(&self.group, &mut self.panes, time, item.body, out)?;
        tick_if(steps, fed);
        Ok(())
    }

    fn finish<T: Outlet>(&mut self, out: &mut T) -> Result<(), AllocError> {
        let _count = self.panes.held.len();
        give_open(
            &self.panes,
            &mut self.waiting,
            self.time,
            self.time + 1,
            out,
        )?;
        self.panes.held.clear();
        self.tally.running = false;
        Ok(())
    }
}
