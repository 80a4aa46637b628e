//! The law of operators.

ghost use Rattle.std.specs.Prelude.{◌≡◌, ℕ, ◌-◌, ◌^◌, ◌/◌, ◌<◌, Bool, true, List, is_some, IsTrue};
ghost use Rattle.sq_value.specs.declared.Value.{Value};
ghost use Rattle.sq_item.specs.SoundItems.{IsSoundItem};
ghost use Rattle.sq_item.specs.Things.{Thing};
ghost use Rattle.sq_oper.specs.declared.outs.Decision.{Decision};
ghost use Rattle.sq_oper.specs.declared.tally.Position.{Position};
ghost use Rattle.sq_oper.specs.Entries.{Entry, entries};
ghost use Rattle.sq_oper.specs.Order.{IsFuture};
ghost use Rattle.sq_oper.specs.Laws.{meaning, Feeds, Finishes};

use crate::{Decision, Outlet, Position};
use sq_item::Item;
use sq_outside::Steps;
use sq_road::Levels;
use std::alloc::AllocError;
use std::sync::ledger::Ledger;

/// A box, a window drop or an output: what is fed items and gives items.
///
/// Each ghost member is a function of the state that an operator defines for itself, so what it means for a kind of
/// operator is said where one is made: the clauses of its `new` name each member of the new state, and those of `feed`
/// carry them on.
///
/// A table gives every epoch and drop a level; it agrees with the closed epochs. A future is a list of marks and tuples
/// at ports that may still come: by time, then by port, a mark before the tuples of its port and time, and the first
/// entry of a time that has marks a mark. After want of memory an operator has failed, and no call may follow.
pub trait Operator {
    /// The state keeps its own facts.
    ghost valid: { Self → Type 0 };

    /// It isn't finished.
    ghost running: { Self → Bool };

    /// How many tuples were fed.
    ghost taken: { Self → ℕ };

    /// Where the last item that was fed stands.
    ghost place: { Self → Position };

    /// Items with marks may come at this port.
    ghost takes_marks: { Self → ℕ → Bool };

    /// A tuple of these values may come at this port.
    ghost fits: { Self → ℕ → List Value → Bool };

    /// Levels of epochs of so many ticks may be read.
    ghost reads: { Self → ℕ → Bool };

    /// What it will still give at a port, for a table of levels and a future.
    ghost rest: { Self → (ℕ → ℕ → ℕ) → List Entry → ℕ → List Thing };

    /// The batches that it will still drop.
    ghost decides: { Self → (ℕ → ℕ → ℕ) → List Entry → List Decision };

    /// After an item of this time it may hold these things back at a port.
    ghost may_hold: { Self → ℕ → List Thing → Type 0 };

    /// How many of the tuples that were fed, and of a future, it will have thrown away as late at the end.
    ghost lost: { Self → List Entry → ℕ };

    /// Feeds one item at a port.
    fn feed<L: Ledger, T: Outlet>(
        &mut self,
        levels: &Levels,
        port: u32,
        item: Item,
        out: &mut T,
        steps: &mut Steps<L>,
    ) -> Result<(), AllocError>
        requires is_valid { valid self.old }
        requires is_running { IsTrue (running self.old) }
        requires may_come { IsFuture (takes_marks self.old) (fits self.old) (place self.old) (entries port item) }
        requires is_sound { IsSoundItem item }
        requires has_epoch { IsTrue (reads self.old levels.now.epoch) }
        requires has_level { item.time / levels.now.epoch < levels.now.closed }
        requires has_room { is_some item.body ≡ true → taken self.old < 2 ^ 62 - 1 }
        requires is_ready { T.ready out.old }

        ensures { Feeds T.Outlet levels.now port item
            (meaning valid running taken place takes_marks fits reads rest decides may_hold lost self.old)
            (meaning valid running taken place takes_marks fits reads rest decides may_hold lost self.new)
            out.old out.new steps.old steps.new result };

    /// Says that nothing more comes: all that is held is given.
    fn finish<T: Outlet>(&mut self, out: &mut T) -> Result<(), AllocError>
        requires is_valid { valid self.old }
        requires is_running { IsTrue (running self.old) }
        requires is_ready { T.ready out.old }

        ensures { Finishes T.Outlet
            (meaning valid running taken place takes_marks fits reads rest decides may_hold lost self.old)
            (meaning valid running taken place takes_marks fits reads rest decides may_hold lost self.new)
            out.old out.new result };
}
