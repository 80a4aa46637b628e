//! Union.

ghost use Rattle.std.specs.Prelude.{◌≡◌, ℕ, ◌^◌, ◌<◌, ◌==◌, ◌++◌, true, false, List, [], None, Some, map, length, nat_lt, slice_index, IsTrue, OnOk, OnErr};
ghost use Rattle.std.specs.List.{AllByRecursion};
ghost use Rattle.sq_value.specs.declared.Tuple.{Tuple};
ghost use Rattle.sq_value.specs.declared.Value.{Value};
ghost use Rattle.sq_value.specs.Values.{IsStream};
ghost use Rattle.sq_item.specs.SoundItems.{IsMark, IsBody};
ghost use Rattle.sq_item.specs.Things.{Thing, mark_part, body_part};
ghost use Rattle.sq_lists.specs.Merge.{union};
ghost use Rattle.sq_oper.specs.declared.tally.Position.{Position};
ghost use Rattle.sq_oper.specs.Entries.{Entry, at_port};
ghost use Rattle.sq_oper.specs.Giving.{Gave};
ghost use Rattle.sq_oper.specs.Machine.{next_all, gives_all};
ghost use Rattle.sq_oper.specs.Order.{merge, IsFuture};
ghost use Rattle.sq_oper.specs.Streams.{things, tuples_of, at_zero};
ghost use Rattle.sq_tagged.specs.TaggedStreams.{HasNoMarks, spread_of};
ghost use Rattle.sq_tagged.specs.Boxes.{united_tagged};
ghost use Rattle.sq_words.specs.Options.{is_number};
ghost use Rattle.sq_plain.specs.Unions.{union_next, union_gives, union_rest, takes_union_mark};

use crate::give::{give_mark, give_tuple};
use sq_item::{Body, Item, Mark, Sign};
use sq_oper::{Decision, Operator, Outlet, Position, Tally, tick_if};
use sq_outside::Steps;
use sq_road::Levels;
use sq_tagged::{bound_of, lessen};
use sq_value::{Tuple, Value};
use std::alloc::AllocError;
use std::sync::ledger::Ledger;

/// The greatest bound of the marks that were handed on, and the time of the last of them.
#[derive(Clone, Copy, Drop)]
pub struct Bounds {
    pub bound: u64,
    pub last: Option<u64>,
}

/// Joins streams of one schema: it gives the tuples of their merge (after SQuAl's Union: Abadi and others, "Aurora", VLDB
/// Journal 2003; the order by time is this project's own).
///
/// Below a window drop it hands on the first mark of each time, and the tuples that are below its bound.
#[derive(Drop)]
pub struct UnionBox {
    /// One lag per input: by how many ticks the bounds of its marks are lessened.
    lags: Vec<u64>,
    marked: bool,
    bounds: Bounds,
    tally: Tally,
}

impl UnionBox {
    /// A Union that nothing was fed to, with a lag for each of its ports. `marked` says that it lies below a window drop.
    pub fn new(lags: Vec<u64>, marked: bool) -> UnionBox
        ensures merge { (table : ℕ → ℕ → ℕ) (ins : List (List Tuple)) (q : ℕ) → marked ≡ false → AllByRecursion IsStream ins
            → ⟦<UnionBox as Operator>⟧.rest result table (merge (map things ins)) q ≡ at_zero q (things (union ins)) }
        ensures list { (table : ℕ → ℕ → ℕ) (future : List Entry) (q : ℕ) → marked ≡ false → HasNoMarks future
            → ⟦<UnionBox as Operator>⟧.rest result table future q ≡ at_zero q (things (tuples_of future)) }
        ensures marked { (table : ℕ → ℕ → ℕ) (future : List Entry) (q : ℕ) → marked ≡ true
            → IsFuture (⟦<UnionBox as Operator>⟧.takes_marks result) (⟦<UnionBox as Operator>⟧.fits result) Position.Start future
            → ⟦<UnionBox as Operator>⟧.rest result table future q ≡ at_zero q (spread_of (united_tagged lags.items future)) }
        ensures fits { (port : ℕ) (fields : List Value) → ⟦<UnionBox as Operator>⟧.fits result port fields ≡ nat_lt port (length lags.items) }
        ensures takes_marks { (port : ℕ) → ⟦<UnionBox as Operator>⟧.takes_marks result port ≡ takes_union_mark marked lags.items port }
        ensures reads { (epoch : ℕ) → ⟦<UnionBox as Operator>⟧.reads result epoch ≡ true }
        ensures holds { (time : ℕ) (things : List Thing) → ⟦<UnionBox as Operator>⟧.may_hold result time things → things ≡ [] }
        ensures decides { (table : ℕ → ℕ → ℕ) (future : List Entry) → ⟦<UnionBox as Operator>⟧.decides result table future ≡ [] }
        ensures none_lost { (future : List Entry) → ⟦<UnionBox as Operator>⟧.lost result future ≡ 0 }
        ensures start { (⟦<UnionBox as Operator>⟧.place result ≡ Position.Start) × (⟦<UnionBox as Operator>⟧.taken result ≡ 0) }
        ensures valid { ⟦<UnionBox as Operator>⟧.valid result × IsTrue (⟦<UnionBox as Operator>⟧.running result) }
    {
        UnionBox {
            lags,
            marked,
            bounds: Bounds {
                bound: 0,
                last: None,
            },
            tally: Tally::new(),
        }
    }

    // Hands a mark on, if it is the first of its time.
    fn hand_on<T: Outlet>(
        &mut self,
        port: u32,
        time: u64,
        mark: Mark,
        out: &mut T,
    ) -> Result<(), AllocError>
        requires tick { time < 2 ^ 40 }
        requires mark { IsMark (Some mark) }
        requires is_ready { T.ready out.old }
        ensures bounds { OnOk result (self.new.bounds ≡ next_all (union_next self.old.lags.items) self.old.bounds (at_port port (mark_part time (Some mark)))) }
        ensures gives { Gave T.Outlet (λ q. gives_all (union_next self.old.lags.items) (union_gives self.old.marked self.old.lags.items) self.old.bounds (at_port port (mark_part time (Some mark))) q) out.old out.new result }
        ensures same { self.new ≡ record self.old { bounds = self.new.bounds } }
    {
        if is_seen(self.bounds.last, time) {
            return Ok(());
        }
        let mark = lessen(mark, self.lag(port));
        give_mark(0, time, mark, out)?;
        self.bounds = Bounds {
            bound: self.bounds.bound.max(bound_of(mark)),
            last: Some(time),
        };
        Ok(())
    }

    fn lag(&self, port: u32) -> u64
        ensures { result ≡ slice_index self.now.lags.items port }
    {
        self.lags.get(port as usize).copied().unwrap_or(0)
    }

    // Hands an item's mark on.
    fn pass_on<T: Outlet>(
        &mut self,
        port: u32,
        time: u64,
        mark: &Sign,
        out: &mut T,
    ) -> Result<(), AllocError>
        requires tick { time < 2 ^ 40 }
        requires mark { IsMark mark.now }
        requires is_ready { T.ready out.old }
        ensures bounds { OnOk result (self.new.bounds ≡ next_all (union_next self.old.lags.items) self.old.bounds (at_port port (mark_part time mark.now))) }
        ensures gives { Gave T.Outlet (λ q. gives_all (union_next self.old.lags.items) (union_gives self.old.marked self.old.lags.items) self.old.bounds (at_port port (mark_part time mark.now)) q) out.old out.new result }
        ensures same { self.new ≡ record self.old { bounds = self.new.bounds } }
    {
        match mark.get() {
            None => Ok(()),
            Some(mark) => self.hand_on(port, time, mark, out),
        }
    }

    // Gives an item's tuple, if it is below the bound.
    fn send_body<T: Outlet>(
        &self,
        port: u32,
        time: u64,
        body: Body,
        out: &mut T,
    ) -> Result<(), AllocError>
        requires tick { time < 2 ^ 40 }
        requires body { IsBody body }
        requires is_ready { T.ready out.old }
        ensures { Gave T.Outlet (λ q. gives_all (union_next self.now.lags.items) (union_gives self.now.marked self.now.lags.items) self.now.bounds (at_port port (body_part time body)) q) out.old out.new result }
    {
        let _port = port;
        match body.get() {
            None => Ok(()),
            Some(fields) => {
                if !self.marked || time < self.bounds.bound {
                    give_tuple(0, Tuple { time, fields }, out)?;
                }
                Ok(())
            }
        }
    }
}

/// Whether a mark of this time was handed on.
fn is_seen(last: Option<u64>, time: u64) -> bool
    ensures { result ≡ is_number time last }
{
    match last {
        None => false,
        Some(last) => last == time,
    }
}

impl Operator for UnionBox {
    ghost valid = { λ s. Unit {0} };

    ghost running = { λ s. s.tally.running };

    ghost taken = { λ s. s.tally.taken };

    ghost place = { λ s. s.tally.place };

    ghost takes_marks = { λ s. takes_union_mark s.marked s.lags.items };

    ghost fits = { λ s port fields. nat_lt port (length s.lags.items) };

    ghost reads = { λ s epoch. true };

    ghost rest = { λ s table future q. union_rest s.marked s.lags.items s.bounds future q };

    ghost decides = { λ s table future. [] };

    ghost may_hold = { λ s time things. things ≡ [] };

    ghost lost = { λ s future. 0 };

    fn feed<L: Ledger, T: Outlet>(
        &mut self,
        _levels: &Levels,
        port: u32,
        item: Item,
        out: &mut T,
        steps: &mut Steps<L>,
    ) -> Result<(), AllocError> {
        self.tally.note(port, &item);
        let fed = item.body.is_some();
        self.pass_on(port, item.time, &item.mark, out)?;
        self.send_body(port, item.time, item.body, out)?;
        tick_if(steps, fed);
        Ok(())
    }

    fn finish<T: Outlet>(&mut self, _out: &mut T) -> Result<(), AllocError> {
        self.tally.running = false;
        Ok(())
    }
}
