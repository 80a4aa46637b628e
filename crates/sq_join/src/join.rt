//! Join.

ghost use Rattle.std.specs.Prelude.{◌≡◌, ℕ, true, false, List, [], IsTrue};
ghost use Rattle.sq_value.specs.declared.Value.{Value};
ghost use Rattle.sq_item.specs.Things.{Thing};
ghost use Rattle.sq_lists.specs.Pairs.{join_list_of};
ghost use Rattle.sq_lists.specs.Sides.{AllNear};
ghost use Rattle.sq_oper.specs.declared.tally.Position.{Position};
ghost use Rattle.sq_oper.specs.Entries.{Entry};
ghost use Rattle.sq_oper.specs.Order.{IsFuture, time_of};
ghost use Rattle.sq_oper.specs.Streams.{things, at_zero};
ghost use Rattle.sq_join.specs.Elements.{side_of, elements_of};
ghost use Rattle.sq_join.specs.Indexes.{MayIndex};
ghost use Rattle.sq_join.specs.Sides.{join_rest, join_fits, most_at, IsSide};

use crate::side_indexes::SideIndexes;
use crate::sides::{let_go, take};
use sq_expr::Typed;
use sq_item::Item;
use sq_lists::Sides;
use sq_oper::{Decision, Operator, Outlet, Position, Tally};
use sq_outside::Steps;
use sq_pairs::Condition;
use sq_road::Levels;
use sq_value::{Tuple, Value};
use std::alloc::{AllocError, Global};
use std::sync::ledger::Ledger;

/// Gives for each tuple its pairs with the earlier ones of the other side, in their order, whose times differ from its
/// own by at most `size` ticks and of which `on` is true (after SQuAl's Join: Abadi and others, "Aurora", VLDB Journal
/// 2003; the bound and the order of the pairs are this project's own). Port 0 is the left side, port 1 the right one.
#[derive(Drop)]
pub struct JoinBox {
    size: u64,
    on: Condition,
    sides: Sides,
    indexes: Option<SideIndexes>,
    tally: Tally,
}

impl JoinBox {
    /// A Join that nothing was fed to. It takes at port 0 each tuple that has no more values than `on` has left fields,
    /// whose names begin with `l_`, and at port 1 each with which a pair has 16 values at most.
    pub fn new(alloc: Global, size: u64, on: Typed) -> JoinBox
        ensures list { (table : ℕ → ℕ → ℕ) (future : List Entry) (q : ℕ)
            → IsFuture (⟦<JoinBox as Operator>⟧.takes_marks result) (⟦<JoinBox as Operator>⟧.fits result) Position.Start future
            → ⟦<JoinBox as Operator>⟧.rest result table future q
            ≡ at_zero q (things (join_list_of size on.tree (side_of 0 (elements_of future)) (side_of 1 (elements_of future)))) }
        ensures none_lost { (future : List Entry) → ⟦<JoinBox as Operator>⟧.lost result future ≡ 0 }
        ensures fits { (port : ℕ) (fields : List Value) → ⟦<JoinBox as Operator>⟧.fits result port fields ≡ join_fits on.scope port fields }
        ensures unmarked { (port : ℕ) → ⟦<JoinBox as Operator>⟧.takes_marks result port ≡ false }
        ensures reads { (epoch : ℕ) → ⟦<JoinBox as Operator>⟧.reads result epoch ≡ true }
        ensures holds { (time : ℕ) (things : List Thing) → ⟦<JoinBox as Operator>⟧.may_hold result time things → things ≡ [] }
        ensures decides { (table : ℕ → ℕ → ℕ) (future : List Entry) → ⟦<JoinBox as Operator>⟧.decides result table future ≡ [] }
        ensures start { (⟦<JoinBox as Operator>⟧.place result ≡ Position.Start) × (⟦<JoinBox as Operator>⟧.taken result ≡ 0) }
        ensures valid { ⟦<JoinBox as Operator>⟧.valid result × IsTrue (⟦<JoinBox as Operator>⟧.running result) }
    {
        let on = Condition::of(alloc, on);
        let indexes = SideIndexes::of(alloc, &on);
        JoinBox {
            size,
            on,
            sides: Sides::new(alloc),
            indexes,
            tally: Tally::new(),
        }
    }
}

impl Operator for JoinBox {
    ghost valid = { λ s. IsSide (most_at s.on.scope 0) (time_of s.tally.place) s.sides.left.items
        × IsSide (most_at s.on.scope 1) (time_of s.tally.place) s.sides.right.items
        × AllNear s.size (time_of s.tally.place) s.sides.left.items × AllNear s.size (time_of s.tally.place) s.sides.right.items
        × MayIndex s.on.tree s.sides.left.items s.sides.right.items s.indexes };

    ghost running = { λ s. s.tally.running };

    ghost taken = { λ s. s.tally.taken };

    ghost place = { λ s. s.tally.place };

    ghost takes_marks = { λ s port. false };

    ghost fits = { λ s port fields. join_fits s.on.scope port fields };

    ghost reads = { λ s epoch. true };

    ghost rest = { λ s table future q. join_rest s.size s.on.tree s.sides.left.items s.sides.right.items future q };

    ghost decides = { λ s table future. [] };

    ghost may_hold = { λ s time things. things ≡ [] };

    ghost lost = { λ s future. 0 };

    #[tactic(auto, using(crate::proofs::JoinLemmas::join_lemmas))]
    fn feed<L: Ledger, T: Outlet>(
        &mut self,
        _levels: &Levels,
        port: u32,
        item: Item,
        out: &mut T,
        steps: &mut Steps<L>,
    ) -> Result<(), AllocError> {
        self.tally.note(port, &item);
        let time = item.time;
        if let Some(fields) = item.body.get() {
            let_go(&mut self.sides, &mut self.indexes, self.size, time);
            let x = Tuple { time, fields };
            take(&mut self.sides, &mut self.indexes, &self.on, port, x, out)?;
            steps.tick();
        }
        Ok(())
    }

    #[tactic(auto, using(crate::proofs::JoinLemmas::join_lemmas))]
    fn finish<T: Outlet>(&mut self, _out: &mut T) -> Result<(), AllocError> {
        self.tally.running = false;
        Ok(())
    }
}
