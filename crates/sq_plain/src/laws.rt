// The law of how many tuples a BSort has given, as the contract of a function that does nothing.
ghost use Rattle.std.specs.Prelude.{◌≡◌, ℕ, ◌+◌, ◌++◌, false, List, [], length, is_some, if◌then◌else◌};
ghost use Rattle.sq_item.specs.declared.Item.{Item};
ghost use Rattle.sq_oper.specs.Entries.{Entry, entries};
ghost use Rattle.sq_oper.specs.Outflow.{given};
ghost use Rattle.sq_plain.specs.declared.bsort.BSortBox.{BSortBox};
ghost use Rattle.sq_plain.specs.Sorts.{given_by};

use crate::BSortBox;
use sq_oper::Operator;

/// Wherever the law of operators holds of two states and what went out before and after, as it does of those before and
/// after a feed or the end, the number that a BSort has given rises by as many tuples as went out between them.
pub fn given_is_what_went_out()
    ensures fed { (old new : BSortBox) (table : ℕ → ℕ → ℕ) (port : ℕ) (item : Item) (future : List Entry) (before after : List (ℕ × Item))
        → ⟦<BSortBox as Operator>⟧.valid old → ⟦<BSortBox as Operator>⟧.valid new
        → given 0 before ++ ⟦<BSortBox as Operator>⟧.rest old table (entries port item ++ future) 0 ≡ given 0 after ++ ⟦<BSortBox as Operator>⟧.rest new table future 0
        → ⟦<BSortBox as Operator>⟧.lost old (entries port item ++ future) ≡ ⟦<BSortBox as Operator>⟧.lost new future
        → ⟦<BSortBox as Operator>⟧.taken new ≡ ⟦<BSortBox as Operator>⟧.taken old + (if is_some item.body then 1 else 0)
        → given_by new + length (given 0 before) ≡ given_by old + length (given 0 after) }
    ensures finished { (old new : BSortBox) (table : ℕ → ℕ → ℕ) (before after : List (ℕ × Item))
        → ⟦<BSortBox as Operator>⟧.valid old → ⟦<BSortBox as Operator>⟧.valid new → ⟦<BSortBox as Operator>⟧.running new ≡ false
        → given 0 before ++ ⟦<BSortBox as Operator>⟧.rest old table [] 0 ≡ given 0 after
        → ⟦<BSortBox as Operator>⟧.lost old [] ≡ ⟦<BSortBox as Operator>⟧.lost new []
        → ⟦<BSortBox as Operator>⟧.taken new ≡ ⟦<BSortBox as Operator>⟧.taken old
        → given_by new + length (given 0 before) ≡ given_by old + length (given 0 after) }
{}
