//! The gate.

ghost use Rattle.std.specs.Prelude.{◌≡◌, ℕ, ◌^◌, ◌*◌, ◌/◌, ◌<◌, ◌==◌, ◌++◌, true, false, List, [], None, Some, length, IsTrue, OnOk, OnErr};
ghost use Rattle.sq_value.specs.declared.Value.{Value};
ghost use Rattle.sq_item.specs.SoundItems.{IsBody};
ghost use Rattle.sq_item.specs.Things.{Thing, mark_part, body_part};
ghost use Rattle.sq_oper.specs.declared.tally.Position.{Position};
ghost use Rattle.sq_oper.specs.Entries.{Entry, at_port};
ghost use Rattle.sq_oper.specs.Giving.{Gave};
ghost use Rattle.sq_oper.specs.Machine.{next_all, gives_all};
ghost use Rattle.sq_oper.specs.Order.{IsFuture};
ghost use Rattle.sq_oper.specs.Streams.{at_zero, things, first_port};
ghost use Rattle.sq_windrop.specs.Gates.{IsLength, shows_at, gate_shown, gate_next, gate_gives, gate_rest};

use crate::give::give_item;
use sq_item::{Body, Item, Mark, Sign};
use sq_oper::{Decision, Operator, Outlet, Position, Tally, tick_if};
use sq_outside::Steps;
use sq_road::Levels;
use sq_value::Value;
use std::alloc::AllocError;
use std::sync::ledger::Ledger;

/// An output: it gives the tuples whose batch has an open mark at its start, or all where it has no batches.
#[derive(Drop)]
pub struct GateBox {
    /// How many ticks a batch lasts.
    length: Option<u64>,
    /// The batch that is open.
    opened: Option<u64>,
    tally: Tally,
}

impl GateBox {
    /// A gate that nothing was fed to. It takes every tuple, and marks at port 0.
    pub fn new(length: Option<u64>) -> GateBox
        requires { IsLength length }
        ensures marked { (table : ℕ → ℕ → ℕ) (future : List Entry) (q : ℕ)
            → IsFuture (⟦<GateBox as Operator>⟧.takes_marks result) (⟦<GateBox as Operator>⟧.fits result) Position.Start future
            → ⟦<GateBox as Operator>⟧.rest result table future q ≡ at_zero q (things (gate_shown length future)) }
        ensures fits { (port : ℕ) (fields : List Value) → ⟦<GateBox as Operator>⟧.fits result port fields ≡ true }
        ensures takes_marks { (port : ℕ) → ⟦<GateBox as Operator>⟧.takes_marks result port ≡ first_port port }
        ensures reads { (epoch : ℕ) → ⟦<GateBox as Operator>⟧.reads result epoch ≡ true }
        ensures holds { (time : ℕ) (things : List Thing) → ⟦<GateBox as Operator>⟧.may_hold result time things → things ≡ [] }
        ensures decides { (table : ℕ → ℕ → ℕ) (future : List Entry) → ⟦<GateBox as Operator>⟧.decides result table future ≡ [] }
        ensures none_lost { (future : List Entry) → ⟦<GateBox as Operator>⟧.lost result future ≡ 0 }
        ensures start { (⟦<GateBox as Operator>⟧.place result ≡ Position.Start) × (⟦<GateBox as Operator>⟧.taken result ≡ 0) }
        ensures valid { ⟦<GateBox as Operator>⟧.valid result × IsTrue (⟦<GateBox as Operator>⟧.running result) }
    {
        GateBox {
            length,
            opened: None,
            tally: Tally::new(),
        }
    }

    // An item's mark: an open mark at a batch's start opens the batch.
    fn read_mark(&mut self, port: u32, time: u64, mark: &Sign)
        requires { IsLength self.old.length }
        ensures { self.new ≡ record self.old { opened = next_all (gate_next self.old.length) self.old.opened (at_port port (mark_part time mark.now)) } }
    {
        let _port = port;
        let Some(length) = self.length else {
            return;
        };
        if let Some(Mark::Open { until: _ }) = mark.get() {
            let batch = time / length;
            if batch * length == time {
                self.opened = Some(batch);
            }
        }
    }

    // Whether a tuple of this time is shown.
    fn is_shown(&self, time: u64) -> bool
        requires { IsLength self.now.length }
        ensures { result ≡ shows_at self.now.length self.now.opened time }
    {
        let Some(length) = self.length else {
            return true;
        };
        match self.opened {
            None => false,
            Some(batch) => batch == time / length,
        }
    }

    // Gives an item's tuple, if its batch is open.
    fn show<T: Outlet>(
        &self,
        port: u32,
        time: u64,
        body: Body,
        out: &mut T,
    ) -> Result<(), AllocError>
        requires length { IsLength self.now.length }
        requires tick { time < 2 ^ 40 }
        requires body { IsBody body }
        requires is_ready { T.ready out.old }
        ensures { Gave T.Outlet (λ q. gives_all (gate_next self.now.length) (gate_gives self.now.length) self.now.opened (at_port port (body_part time body)) q) out.old out.new result }
    {
        let _port = port;
        if let Some(fields) = body.get() {
            if self.is_shown(time) {
                give_item(
                    Item {
                        time,
                        mark: Sign::none(),
                        body: Body::some(fields),
                    },
                    out,
                )?;
            }
        }
        Ok(())
    }
}

impl Operator for GateBox {
    ghost valid = { λ s. IsLength s.length };

    ghost running = { λ s. s.tally.running };

    ghost taken = { λ s. s.tally.taken };

    ghost place = { λ s. s.tally.place };

    ghost takes_marks = { λ s. first_port };

    ghost fits = { λ s port fields. true };

    ghost reads = { λ s epoch. true };

    ghost rest = { λ s table future q. gate_rest s.length s.opened future q };

    ghost decides = { λ s table future. [] };

    ghost may_hold = { λ s time things. things ≡ [] };

    ghost lost = { λ s future. 0 };

    fn feed<L: Ledger, T: Outlet>(
        &mut self,
        _levels: &Levels,
        port: u32,
        item: Item,
        out: &mut T,
        steps: &mut Steps<L>,
    ) -> Result<(), AllocError> {
        self.tally.note(port, &item);
        let fed = item.body.is_some();
        self.read_mark(port, item.time, &item.mark);
        self.show(port, item.time, item.body, out)?;
        tick_if(steps, fed);
        Ok(())
    }

    fn finish<T: Outlet>(&mut self, _out: &mut T) -> Result<(), AllocError> {
        self.tally.running = false;
        Ok(())
    }
}
