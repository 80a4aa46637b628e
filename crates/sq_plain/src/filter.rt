//! Filter.

ghost use Rattle.std.specs.Prelude.{◌≡◌, ℕ, ◌^◌, ◌+◌, ◌<◌, ◌≤◌, ◌++◌, ◌∷◌, true, false, List, [], length, IsTrue, OnOk, OnErr};
ghost use Rattle.sq_value.specs.declared.Value.{Value};
ghost use Rattle.sq_item.specs.SoundItems.{IsMark, IsBody};
ghost use Rattle.sq_item.specs.Things.{Thing};
ghost use Rattle.sq_lists.specs.Boxes.{filter_list_of, port_taken};
ghost use Rattle.sq_oper.specs.declared.tally.Position.{Position};
ghost use Rattle.sq_oper.specs.Entries.{Entry};
ghost use Rattle.sq_oper.specs.Giving.{Gave, GaveSome};
ghost use Rattle.sq_oper.specs.Order.{IsFuture};
ghost use Rattle.sq_oper.specs.Streams.{IsSoundTuple, things, tuples_of, at_ports_below, first_port};
ghost use Rattle.sq_tagged.specs.TaggedStreams.{HasNoMarks, spread_of, tagged_of};
ghost use Rattle.sq_tagged.specs.Boxes.{filter_tagged};
ghost use Rattle.sq_tagged.specs.EntrywiseBoxes.{for_mark, for_body};
ghost use Rattle.sq_plain.specs.Filters.{filter_gives, filter_rest};
ghost use Rattle.sq_plain.specs.Ports.{MayGuess};
ghost use Rattle.sq_expr.specs.Checking.{trees};

use crate::give::{give_to_ports, give_tuple};
use crate::ports::Ports;
use sq_expr::{Typed, holds};
use sq_item::{Body, Item, Mark, Sign};
use sq_lists::port_of_tuple;
use sq_oper::{Decision, Operator, Outlet, Position, Tally, tick_if};
use sq_outside::Steps;
use sq_road::Levels;
use sq_value::{Tuple, Value};
use std::alloc::AllocError;
use std::sync::ledger::Ledger;

/// A tuple goes to the port of the first predicate that is true of it, else to the port after all (after SQuAl's Filter:
/// Abadi and others, "Aurora", VLDB Journal 2003). Null is not true. A mark goes to every port.
#[derive(Drop)]
pub struct FilterBox {
    preds: Vec<Typed>,
    ports: Option<Ports>,
    tally: Tally,
}

impl FilterBox {
    /// A Filter that nothing was fed to. It takes every tuple, and marks at port 0.
    pub fn new(preds: Vec<Typed>) -> FilterBox
        requires { length preds.items < 2 ^ 32 }
        ensures list { (table : ℕ → ℕ → ℕ) (future : List Entry) (q : ℕ) → HasNoMarks future
            → ⟦<FilterBox as Operator>⟧.rest result table future q ≡ things (filter_list_of (trees preds.items) q (tuples_of future)) }
        ensures marked { (table : ℕ → ℕ → ℕ) (future : List Entry) (q : ℕ)
            → IsFuture (⟦<FilterBox as Operator>⟧.takes_marks result) (⟦<FilterBox as Operator>⟧.fits result) Position.Start future
            → ⟦<FilterBox as Operator>⟧.rest result table future q ≡ at_ports_below (length preds.items + 1) q (spread_of (filter_tagged (trees preds.items) q (tagged_of future))) }
        ensures fits { (port : ℕ) (fields : List Value) → ⟦<FilterBox as Operator>⟧.fits result port fields ≡ true }
        ensures takes_marks { (port : ℕ) → ⟦<FilterBox as Operator>⟧.takes_marks result port ≡ first_port port }
        ensures reads { (epoch : ℕ) → ⟦<FilterBox as Operator>⟧.reads result epoch ≡ true }
        ensures holds { (time : ℕ) (things : List Thing) → ⟦<FilterBox as Operator>⟧.may_hold result time things → things ≡ [] }
        ensures decides { (table : ℕ → ℕ → ℕ) (future : List Entry) → ⟦<FilterBox as Operator>⟧.decides result table future ≡ [] }
        ensures none_lost { (future : List Entry) → ⟦<FilterBox as Operator>⟧.lost result future ≡ 0 }
        ensures start { (⟦<FilterBox as Operator>⟧.place result ≡ Position.Start) × (⟦<FilterBox as Operator>⟧.taken result ≡ 0) }
        ensures valid { ⟦<FilterBox as Operator>⟧.valid result × IsTrue (⟦<FilterBox as Operator>⟧.running result) }
    {
        let ports = Ports::of(*preds.allocator(), &preds);
        FilterBox {
            preds,
            ports,
            tally: Tally::new(),
        }
    }

    /// The port of a tuple: the number of the first predicate that is true, else their number.
    fn port_of(&self, tuple: &Tuple) -> usize
        requires { MayGuess (trees self.now.preds.items) self.now.ports }
        ensures port { result ≡ port_taken (trees self.now.preds.items) tuple.now }
        ensures most { result ≤ length self.now.preds.items }
    {
        let Some(ports) = &self.ports else {
            return port_of_tuple(&self.preds, tuple);
        };
        let port = ports.guess(tuple);
        if port >= self.preds.len() {
            return self.preds.len();
        }
        if holds(&self.preds[port], tuple) {
            return port;
        }
        self.preds.len()
    }

    fn send<T: Outlet>(&self, tuple: Tuple, out: &mut T) -> Result<(), AllocError>
        requires few { length self.now.preds.items < 2 ^ 32 }
        requires guessed { MayGuess (trees self.now.preds.items) self.now.ports }
        requires sound { IsSoundTuple tuple }
        requires is_ready { T.ready out.old }
        ensures { Gave T.Outlet (λ q. things (filter_list_of (trees self.now.preds.items) q (tuple ∷ []))) out.old out.new result }
    {
        let port = self.port_of(&tuple) as u32;
        give_tuple(port, tuple, out)
    }

    // Hands a mark on to every port.
    fn pass_mark<T: Outlet>(
        &self,
        time: u64,
        mark: Option<Mark>,
        out: &mut T,
    ) -> Result<(), AllocError>
        requires few { length self.now.preds.items < 2 ^ 32 }
        requires tick { time < 2 ^ 40 }
        requires mark { IsMark mark }
        requires is_ready { T.ready out.old }
        ensures { GaveSome T.Outlet (λ q. for_mark (filter_gives self.now.preds.items q) time mark) out.old out.new result }
    {
        match mark {
            None => Ok(()),
            Some(mark) => give_to_ports(self.preds.len() + 1, time, mark, out),
        }
    }

    // Hands an item's mark on to every port.
    fn pass_on<T: Outlet>(&self, time: u64, mark: &Sign, out: &mut T) -> Result<(), AllocError>
        requires few { length self.now.preds.items < 2 ^ 32 }
        requires tick { time < 2 ^ 40 }
        requires mark { IsMark mark.now }
        requires is_ready { T.ready out.old }
        ensures { GaveSome T.Outlet (λ q. for_mark (filter_gives self.now.preds.items q) time mark.now) out.old out.new result }
    {
        self.pass_mark(time, mark.get(), out)
    }

    // Sends an item's tuple to its port.
    fn send_body<T: Outlet>(&self, time: u64, body: Body, out: &mut T) -> Result<(), AllocError>
        requires few { length self.now.preds.items < 2 ^ 32 }
        requires guessed { MayGuess (trees self.now.preds.items) self.now.ports }
        requires tick { time < 2 ^ 40 }
        requires body { IsBody body }
        requires is_ready { T.ready out.old }
        ensures { Gave T.Outlet (λ q. for_body (filter_gives self.now.preds.items q) time body) out.old out.new result }
    {
        match body.get() {
            None => Ok(()),
            Some(fields) => self.send(Tuple { time, fields }, out),
        }
    }
}

impl Operator for FilterBox {
    ghost valid = { λ s. (length s.preds.items < 2 ^ 32) × MayGuess (trees s.preds.items) s.ports };

    ghost running = { λ s. s.tally.running };

    ghost taken = { λ s. s.tally.taken };

    ghost place = { λ s. s.tally.place };

    ghost takes_marks = { λ s. first_port };

    ghost fits = { λ s port fields. true };

    ghost reads = { λ s epoch. true };

    ghost rest = { λ s table future q. filter_rest s.preds.items future q };

    ghost decides = { λ s table future. [] };

    ghost may_hold = { λ s time things. things ≡ [] };

    ghost lost = { λ s future. 0 };

    fn feed<L: Ledger, T: Outlet>(
        &mut self,
        _levels: &Levels,
        port: u32,
        item: Item,
        out: &mut T,
        steps: &mut Steps<L>,
    ) -> Result<(), AllocError> {
        self.tally.note(port, &item);
        let fed = item.body.is_some();
        self.pass_on(item.time, &item.mark, out)?;
        self.send_body(item.time, item.body, out)?;
        tick_if(steps, fed);
        Ok(())
    }

    fn finish<T: Outlet>(&mut self, _out: &mut T) -> Result<(), AllocError> {
        self.tally.running = false;
        Ok(())
    }
}
