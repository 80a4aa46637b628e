//! Resample.

ghost use Rattle.std.specs.Prelude.{◌≡◌, ◌≤◌, ℕ, true, false, List, [], IsTrue, length};
ghost use Rattle.sq_value.specs.declared.Value.{Value};
ghost use Rattle.sq_item.specs.Things.{Thing};
ghost use Rattle.sq_lists.specs.Resamples.{resample_of};
ghost use Rattle.sq_oper.specs.declared.tally.Position.{Position};
ghost use Rattle.sq_oper.specs.Entries.{Entry};
ghost use Rattle.sq_oper.specs.Order.{time_of};
ghost use Rattle.sq_oper.specs.Streams.{things, tuples_at, at_zero};
ghost use Rattle.sq_resample.specs.Resampling.{IsHeld, OnlyNear, resample_fits, resample_rest};
ghost use Rattle.sq_running.specs.Running.{IsRunning, IsSum};

use sq_aggfn::Fold;
use sq_item::Item;
use sq_oper::{Decision, Operator, Outlet, Position, Tally};
use sq_outside::Steps;
use sq_road::Levels;
use sq_rounds::{give_all, give_ready};
use sq_running::{Held, hold};
use sq_value::{Tuple, Value};
use std::alloc::{AllocError, Global};
use std::collections::VecDeque;
use std::sync::ledger::Ledger;

/// Gives for each left tuple, in order, one of the same time: its fields, and then the fold's answers over the right
/// tuples whose times differ from its own by at most `size` ticks (named after Aurora's Resample: Abadi and others,
/// "Aurora", VLDB Journal 2003; all rules are this project's own). Port 0 is the left side, port 1 the right one.
///
/// A left tuple waits until an item comes that is more than `size` ticks later. It is given then, with what the right
/// tuples near it have told: those before them were let go of, and none is held from behind them. What they tell is joined
/// from two states, so it costs two joins, however many they are; each right tuple costs three at most, once.
#[derive(Drop)]
pub struct ResampleBox<F: Fold + Drop> {
    fold: F,
    size: u64,
    waiting: VecDeque<Tuple>,
    held: Held<F::State>,
    tally: Tally,
}

impl<F: Fold + Drop> ResampleBox<F> {
    /// A Resample that nothing was fed to. It takes at port 0 each tuple that has 16 values at most with the answers, and
    /// each at port 1.
    pub fn new(alloc: Global, fold: F, size: u64) -> ResampleBox<F>
        ensures list { (table : ℕ → ℕ → ℕ) (future : List Entry) (q : ℕ) → ⟦<ResampleBox<F> as Operator>⟧.rest result table future q
            ≡ at_zero q (things (resample_of (F.table fold) size (tuples_at 0 future) (tuples_at 1 future))) }
        ensures none_lost { (future : List Entry) → ⟦<ResampleBox<F> as Operator>⟧.lost result future ≡ 0 }
        ensures fits { (port : ℕ) (fields : List Value) → ⟦<ResampleBox<F> as Operator>⟧.fits result port fields ≡ resample_fits (F.width fold) port fields }
        ensures unmarked { (port : ℕ) → ⟦<ResampleBox<F> as Operator>⟧.takes_marks result port ≡ false }
        ensures reads { (epoch : ℕ) → ⟦<ResampleBox<F> as Operator>⟧.reads result epoch ≡ true }
        ensures holds { (time : ℕ) (things : List Thing) → ⟦<ResampleBox<F> as Operator>⟧.may_hold result time things → OnlyNear size time things }
        ensures decides { (table : ℕ → ℕ → ℕ) (future : List Entry) → ⟦<ResampleBox<F> as Operator>⟧.decides result table future ≡ [] }
        ensures start { (⟦<ResampleBox<F> as Operator>⟧.place result ≡ Position.Start) × (⟦<ResampleBox<F> as Operator>⟧.taken result ≡ 0) }
        ensures valid { ⟦<ResampleBox<F> as Operator>⟧.valid result × IsTrue (⟦<ResampleBox<F> as Operator>⟧.running result) }
    {
        ResampleBox {
            fold,
            size,
            waiting: VecDeque::new(alloc),
            held: Held::new(alloc),
            tally: Tally::new(),
        }
    }
}

impl<F: Fold + Drop> Operator for ResampleBox<F> {
    ghost valid = { λ s. IsHeld (F.width s.fold) s.size (time_of s.tally.place) s.waiting.items s.held.tuples.items
        × IsRunning (IsSum (F.joined s.fold) (F.unit s.fold) (F.none s.fold) (F.made s.fold) (F.number s.fold)) s.held.tuples.items s.held.heads.items s.held.tail
        × (length s.held.tuples.items ≤ s.tally.taken) };

    ghost running = { λ s. s.tally.running };

    ghost taken = { λ s. s.tally.taken };

    ghost place = { λ s. s.tally.place };

    ghost takes_marks = { λ s port. false };

    ghost fits = { λ s port fields. resample_fits (F.width s.fold) port fields };

    ghost reads = { λ s epoch. true };

    ghost rest = { λ s table future q. resample_rest (F.table s.fold) s.size s.waiting.items s.held.tuples.items future q };

    ghost decides = { λ s table future. [] };

    ghost may_hold = { λ s time things. OnlyNear s.size time things };

    ghost lost = { λ s future. 0 };

    #[tactic(auto, using(crate::proofs::FedLemmas::resample_lemmas))]
    fn feed<L: Ledger, T: Outlet>(
        &mut self,
        _levels: &Levels,
        port: u32,
        item: Item,
        out: &mut T,
        steps: &mut Steps<L>,
    ) -> Result<(), AllocError> {
        self.tally.note(port, &item);
        let time = item.time;
        if let Some(fields) = item.body.get() {
            give_ready(
                &self.fold,
                self.size,
                time,
                &mut self.waiting,
                &mut self.held,
                out,
            )?;
            let x = Tuple { time, fields };
            hold(&self.fold, &mut self.waiting, &mut self.held, port, x)?;
            steps.tick();
        }
        Ok(())
    }

    #[tactic(auto, using(crate::proofs::FedLemmas::resample_lemmas))]
    fn finish<T: Outlet>(&mut self, out: &mut T) -> Result<(), AllocError> {
        give_all(
            &self.fold,
            self.size,
            &mut self.waiting,
            &mut self.held,
            out,
        )?;
        self.held.clear();
        self.tally.running = false;
        Ok(())
    }
}
