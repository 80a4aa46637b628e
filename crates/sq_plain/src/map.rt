//! Map.

ghost use Rattle.std.specs.Prelude.{◌≡◌, ℕ, ◌^◌, ◌<◌, ◌∷◌, List, [], IsTrue, is_some, true};
ghost use Rattle.sq_value.specs.declared.Value.{Value};
ghost use Rattle.sq_item.specs.SoundItems.{IsMark, IsBody};
ghost use Rattle.sq_item.specs.Things.{Thing};
ghost use Rattle.sq_lists.specs.Boxes.{map_list_of};
ghost use Rattle.sq_oper.specs.declared.tally.Position.{Position};
ghost use Rattle.sq_oper.specs.Entries.{Entry};
ghost use Rattle.sq_oper.specs.Giving.{Gave};
ghost use Rattle.sq_oper.specs.Streams.{IsSoundTuple, things, tuples_of, at_zero, first_port};
ghost use Rattle.sq_oper.specs.Order.{IsFuture};
ghost use Rattle.sq_tagged.specs.TaggedStreams.{HasNoMarks, spread_of, tagged_of};
ghost use Rattle.sq_tagged.specs.Boxes.{map_tagged};
ghost use Rattle.sq_tagged.specs.EntrywiseBoxes.{for_mark, for_body};
ghost use Rattle.sq_plain.specs.Maps.{map_gives, map_rest, makes_tuple};
ghost use Rattle.sq_expr.specs.Checking.{trees};

use crate::give::{give_mark, give_tuple};
use sq_expr::Typed;
use sq_item::{Body, Item, Sign};
use sq_lists::map_into;
use sq_oper::{Decision, Operator, Outlet, Position, Tally, tick_if};
use sq_outside::Steps;
use sq_road::Levels;
use sq_value::{Tuple, Value};
use std::alloc::AllocError;
use std::sync::ledger::Ledger;

/// Gives for each tuple one of the same time, whose values are those of the expressions (after SQuAl's Map, a generalised
/// projection: Abadi and others, "Aurora", VLDB Journal 2003).
#[derive(Drop)]
pub struct MapBox {
    exprs: Vec<Typed>,
    tally: Tally,
}

impl MapBox {
    /// A Map that nothing was fed to. It takes every tuple where it has 1 to 16 expressions, else none, and marks at port 0.
    pub fn new(exprs: Vec<Typed>) -> MapBox
        ensures list { (table : ℕ → ℕ → ℕ) (future : List Entry) (q : ℕ) → HasNoMarks future
            → ⟦<MapBox as Operator>⟧.rest result table future q ≡ at_zero q (things (map_list_of (trees exprs.items) (tuples_of future))) }
        ensures marked { (table : ℕ → ℕ → ℕ) (future : List Entry) (q : ℕ)
            → IsFuture (⟦<MapBox as Operator>⟧.takes_marks result) (⟦<MapBox as Operator>⟧.fits result) Position.Start future
            → ⟦<MapBox as Operator>⟧.rest result table future q ≡ at_zero q (spread_of (map_tagged (trees exprs.items) (tagged_of future))) }
        ensures fits { (port : ℕ) (fields : List Value) → ⟦<MapBox as Operator>⟧.fits result port fields ≡ makes_tuple exprs.items }
        ensures takes_marks { (port : ℕ) → ⟦<MapBox as Operator>⟧.takes_marks result port ≡ first_port port }
        ensures reads { (epoch : ℕ) → ⟦<MapBox as Operator>⟧.reads result epoch ≡ true }
        ensures holds { (time : ℕ) (things : List Thing) → ⟦<MapBox as Operator>⟧.may_hold result time things → things ≡ [] }
        ensures decides { (table : ℕ → ℕ → ℕ) (future : List Entry) → ⟦<MapBox as Operator>⟧.decides result table future ≡ [] }
        ensures none_lost { (future : List Entry) → ⟦<MapBox as Operator>⟧.lost result future ≡ 0 }
        ensures start { (⟦<MapBox as Operator>⟧.place result ≡ Position.Start) × (⟦<MapBox as Operator>⟧.taken result ≡ 0) }
        ensures valid { ⟦<MapBox as Operator>⟧.valid result × IsTrue (⟦<MapBox as Operator>⟧.running result) }
    {
        MapBox {
            exprs,
            tally: Tally::new(),
        }
    }

    fn send<T: Outlet>(&self, tuple: Tuple, out: &mut T) -> Result<(), AllocError>
        requires few { IsTrue (makes_tuple self.now.exprs.items) }
        requires sound { IsSoundTuple tuple }
        requires is_ready { T.ready out.old }
        ensures { Gave T.Outlet (λ q. at_zero q (things (map_list_of (trees self.now.exprs.items) (tuple ∷ [])))) out.old out.new result }
    {
        let made = map_into(out.reuse(), &self.exprs, &tuple)?;
        out.let_go(tuple.fields);
        give_tuple(0, made, out)
    }

    // Hands an item's mark on.
    fn pass_on<T: Outlet>(&self, time: u64, mark: &Sign, out: &mut T) -> Result<(), AllocError>
        requires tick { time < 2 ^ 40 }
        requires mark { IsMark mark.now }
        requires is_ready { T.ready out.old }
        ensures { Gave T.Outlet (λ q. for_mark (map_gives self.now.exprs.items q) time mark.now) out.old out.new result }
    {
        match mark.get() {
            None => Ok(()),
            Some(mark) => give_mark(0, time, mark, out),
        }
    }

    // Maps an item's tuple.
    fn send_body<T: Outlet>(&self, time: u64, body: Body, out: &mut T) -> Result<(), AllocError>
        requires few { is_some body ≡ true → IsTrue (makes_tuple self.now.exprs.items) }
        requires tick { time < 2 ^ 40 }
        requires body { IsBody body }
        requires is_ready { T.ready out.old }
        ensures { Gave T.Outlet (λ q. for_body (map_gives self.now.exprs.items q) time body) out.old out.new result }
    {
        match body.get() {
            None => Ok(()),
            Some(fields) => self.send(Tuple { time, fields }, out),
        }
    }
}

impl Operator for MapBox {
    ghost valid = { λ s. Unit {0} };

    ghost running = { λ s. s.tally.running };

    ghost taken = { λ s. s.tally.taken };

    ghost place = { λ s. s.tally.place };

    ghost takes_marks = { λ s. first_port };

    ghost fits = { λ s port fields. makes_tuple s.exprs.items };

    ghost reads = { λ s epoch. true };

    ghost rest = { λ s table future q. map_rest s.exprs.items future q };

    ghost decides = { λ s table future. [] };

    ghost may_hold = { λ s time things. things ≡ [] };

    ghost lost = { λ s future. 0 };

    fn feed<L: Ledger, T: Outlet>(
        &mut self,
        _levels: &Levels,
        port: u32,
        item: Item,
        out: &mut T,
        steps: &mut Steps<L>,
    ) -> Result<(), AllocError> {
        self.tally.note(port, &item);
        let fed = item.body.is_some();
        self.pass_on(item.time, &item.mark, out)?;
        self.send_body(item.time, item.body, out)?;
        tick_if(steps, fed);
        Ok(())
    }

    fn finish<T: Outlet>(&mut self, _out: &mut T) -> Result<(), AllocError> {
        self.tally.running = false;
        Ok(())
    }
}
